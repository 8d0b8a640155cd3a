//! The forms in which a report is rendered.
ghost use Rattle.std.specs.Prelude.{◌≡◌};
ghost use Rattle.annotate_snippets.specs.Fault as spec;

use crate::renderer::Renderer;

/// The form of a report's text.
#[derive(Clone, Copy, Debug, PartialEq, Eq)]
pub enum Form {
    /// Source lines with a gutter, marks and labels.
    Graphic,
    /// The title of the first group, with a place and labels.
    Short,
    /// Lines of text without graphics, for speech and Braille.
    Text,
}

/// The form that a renderer is set to: `no_graphics` is looked at first, then `short_message`.
pub fn form_of(renderer: &Renderer) -> Form
    ensures value { result ≡ spec.form_of renderer.now }
{
    if renderer.no_graphics {
        Form::Text
    } else if renderer.short_message {
        Form::Short
    } else {
        Form::Graphic
    }
}
