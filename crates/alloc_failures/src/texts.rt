//! What is shown of a text that nobody vouches for.

use crate::retry::again;
use crate::subject::print_text;
use annotate_snippets::normalize_untrusted_str;
use std::alloc::AllocError;
use std::io;

/// Normalises a text, and compares what is shown of it.
fn print_shown(
    rt: &(impl Print + AllocGlobal),
    subject: &str,
    text: &str,
    wanted: &str,
) -> io::Result<()> {
    let shown = again!(normalize_untrusted_str(rt.alloc(), text))?;
    print_text(rt, subject, shown.as_str(), wanted)
}

/// Normalises a text, and one that grows by it.
pub fn print(rt: &(impl Print + AllocGlobal)) -> io::Result<()> {
    let text = "a\tb\u{1b}[1m\u{200d}";
    print_shown(rt, "a normalised text", text, "a    b␛[1m")?;
    print_shown(
        rt,
        "a normalised text that is four times as long",
        "\t\t\t\t\t\t\t\t\t\t\t\t",
        "                                                ",
    )
}
