//! What takes up the groups of a report while they are drawn: a text, several, a writer.
ghost use Rattle.std.specs.Prelude.{◌≡◌, [], All, IfErr, IfOk, OnOk};
ghost use Rattle.std.specs.Option.{option_copied};
ghost use Rattle.annotate_snippets.specs.Walk.{is_first_group};
ghost use Rattle.annotate_snippets.specs.ElementRoom.{HasRoomFor};
ghost use Rattle.annotate_snippets.specs.GraphicForm.{group_page};
ghost use Rattle.annotate_snippets.specs.PreparedReport.{IsGroupPrepared, element_of};

use crate::renderer::Renderer;
use crate::renderer::element_context::GroupContext;
use crate::renderer::preprocess::PreparedGroup;
use snippet_grid::StyledBuffer;
use std::alloc::{AllocError, Global};

/// What the groups of a report are given to, in order. It draws each, or prints it as it draws it.
pub trait PageSink {
    ghost use Rattle.std.specs.Prelude.{Bool};
    ghost use Rattle.annotate_snippets.specs.Page.{GroupPage};

    /// Why a group isn't taken up.
    type Error: From<AllocError>;

    /// What the sink is after it took up a group, the first of the page or a later one, by what it was before.
    ghost took: { Bool → GroupPage → Self → Self → Type 0 };

    /// What it is where it stopped at the group with an error.
    ghost stopped: { Bool → GroupPage → Self.Error → Self → Self → Type 0 };

    /// Takes up a group, in an empty grid, and gives this back.
    ///
    /// # Errors
    ///
    /// There is no memory for the rows or for what becomes of them, or they can't be written.
    fn add<'a>(
        &mut self,
        alloc: Global,
        renderer: &Renderer,
        around: &GroupContext<'_>,
        group: PreparedGroup<'a>,
        empty: StyledBuffer<'a>,
    ) -> Result<StyledBuffer<'a>, Self::Error>
        requires empty { empty ≡ [] }
        requires prepared { IsGroupPrepared group }
        requires room { All (λ e. HasRoomFor renderer.now around.now.layout (element_of e)) group.elements.items }
        ensures empty { IfOk result (λ buffer. buffer ≡ []) }
        ensures took { OnOk result (took (is_first_group around.now.place) (group_page renderer.now
            around.now.layout around.now.place (option_copied around.now.file) group.entry.group.now)
            self.old self.new) }
        ensures stopped { IfErr result (λ error. stopped (is_first_group around.now.place) (group_page renderer.now
            around.now.layout around.now.place (option_copied around.now.file) group.entry.group.now) error
            self.old self.new) };
}
