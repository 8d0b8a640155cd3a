//! The text of a report under one sheet. In the graphic form each group is printed while it is drawn.
ghost use Rattle.std.specs.Prelude.{◌≡◌, ◌++◌, [], ◌∷◌, All, IfOk, None, string_bytes, if◌then◌else◌};
ghost use Rattle.annotate_snippets.specs.Fault as spec;
ghost use Rattle.annotate_snippets.specs.WithLaws.{IsTextUnder};
ghost use Rattle.annotate_snippets.specs.PreparedReport.{IsGroupDrawable};
ghost use Rattle.annotate_snippets.specs.declared.renderer.form.Form.TheVariants as form;

use crate::renderer::Renderer;
use crate::renderer::drawn::{short_form_text, text_form_text};
use crate::renderer::element_context::GroupContext;
use crate::renderer::form::Form;
use crate::renderer::graphic::draw_page;
use crate::renderer::page_sink::PageSink;
use crate::renderer::preprocess::PreparedGroup;
use crate::renderer::printing::{Printing, print_group};
use crate::snippet::Report;
use snippet_grid::{SheetCodes, StyledBuffer};
use snippet_style::Stylesheet;
use std::alloc::{AllocError, Global};
use std::mem;

/// The text of a report in a form, under a sheet.
///
/// # Errors
///
/// There is no memory for the text, or for what it is made of.
pub fn text_in_form(
    alloc: Global,
    renderer: &Renderer,
    form: Form,
    groups: Report<'_>,
    sheet: &Stylesheet,
) -> Result<String, AllocError>
    requires drawable { All IsGroupDrawable groups.now }
    requires titled { spec.missing_title form groups.now ≡ None }
    ensures text { IfOk result (λ text. IsTextUnder form renderer.now groups.now sheet.now (string_bytes text)) }
{
    match form {
        Form::Graphic => page_text(alloc, renderer, groups, sheet),
        Form::Short => short_form_text(alloc, renderer, groups, sheet),
        Form::Text => text_form_text(alloc, renderer, groups, sheet),
    }
}

/// Room for the text of a report of everyday size, in bytes. A longer one grows from there.
const ROOM: usize = 2048;

/// The text of a report's graphic form, a group at a time.
fn page_text(
    alloc: Global,
    renderer: &Renderer,
    groups: Report<'_>,
    sheet: &Stylesheet,
) -> Result<String, AllocError>
    requires drawable { All IsGroupDrawable groups.now }
    ensures text { IfOk result (λ text.
        IsTextUnder form.Graphic renderer.now groups.now sheet.now (string_bytes text)) }
{
    let mut page = SheetPage {
        codes: SheetCodes::new(sheet),
        text: String::with_capacity(alloc, ROOM)?,
    };
    draw_page(alloc, renderer, groups, &mut page)?;
    Ok(page.text)
}

/// The page of a report under a sheet, as far as it is printed.
#[derive(Drop)]
pub struct SheetPage {
    /// The codes of the sheet.
    pub codes: SheetCodes,
    /// The text so far.
    pub text: String,
}

impl PageSink for SheetPage {
    ghost use Rattle.annotate_snippets.specs.Page.{group_rows};
    ghost use Rattle.annotate_snippets.specs.Written.{AddsToPage};

    type Error = AllocError;

    ghost took = { λ first g old new. AddsToPage first g.level (group_rows g) old new };

    ghost stopped = { λ first g error old new. Unit {0} };

    fn add<'a>(
        &mut self,
        alloc: Global,
        renderer: &Renderer,
        around: &GroupContext<'_>,
        group: PreparedGroup<'a>,
        empty: StyledBuffer<'a>,
    ) -> Result<StyledBuffer<'a>, AllocError> {
        let text = mem::replace(&mut self.text, String::new(alloc));
        let mut page = Printing {
            level: group.group.level,
            text: fed(text, around.place.is_first())?,
            begun: false,
            buffer: empty,
        };
        print_group(alloc, &mut page, &self.codes, renderer, around, group)?;
        self.text = page.text;
        Ok(page.buffer)
    }
}

/// A text, and a line feed after it, unless what follows is the first group's.
pub fn fed(before: String, is_first: bool) -> Result<String, AllocError>
    ensures value { IfOk result (λ text. string_bytes text
        ≡ (if is_first then string_bytes before else string_bytes before ++ 10 ∷ [])) }
{
    let mut text = before;
    if is_first {
        return Ok(text);
    }
    text.push_str("\n")?;
    Ok(text)
}
