//! The line that is printed for a subject. Printing takes no memory.

use std::io;

/// Prints a line for a subject: what it is, and, where it did not come out right, that it differs.
pub fn print_subject(rt: &impl Print, subject: &str, right: bool) -> io::Result<()> {
    if right {
        println!(rt; "{subject}")
    } else {
        println!(rt; "{subject}: DIFFERS")
    }
}

/// Prints a line for each of these subjects, of which it is said whether they came out right.
pub fn print_subjects(rt: &impl Print, subjects: &[(&str, bool)]) -> io::Result<()> {
    for (subject, right) in subjects {
        print_subject(rt, subject, *right)?;
    }
    Ok(())
}

/// Prints a line for a text: what it is, and, where it is another one than it has to be, that text.
pub fn print_text(rt: &impl Print, subject: &str, text: &str, wanted: &str) -> io::Result<()> {
    if text == wanted {
        println!(rt; "{subject}")
    } else {
        println!(rt; "{subject}: DIFFERS: {text:?}")
    }
}
