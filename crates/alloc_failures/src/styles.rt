//! The codes that open styles.

use crate::retry::again;
use crate::subject::print_text;
use annotate_snippets::renderer::{AnsiColor, Color, Effects, Style, open_code};
use std::alloc::AllocError;
use std::io;

/// A style with each part.
fn loud() -> Style {
    AnsiColor::BrightRed
        .on_default()
        .bg_color(Some(Color::Rgb(1, 20, 255)))
        .effects(Effects::UNDERLINE.insert(Effects::BOLD))
}

/// Opens a style, and compares its code.
fn print_code(
    rt: &(impl Print + AllocGlobal),
    subject: &str,
    style: Style,
    wanted: &str,
) -> io::Result<()> {
    let code = again!(open_code(rt.alloc(), style))?;
    print_text(rt, subject, code.as_str(), wanted)
}

/// Opens a style with each part, and a plain one.
pub fn print(rt: &(impl Print + AllocGlobal)) -> io::Result<()> {
    let wanted = "\u{1b}[1m\u{1b}[4m\u{1b}[91m\u{1b}[48;2;1;20;255m";
    print_code(rt, "the code of a style", loud(), wanted)?;
    print_code(rt, "the code of the plain style", Style::new(), "")
}
