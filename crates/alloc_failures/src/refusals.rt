//! Reports that are refused by name, and reports under no sheets: these are answered with no memory at all.
ghost use Rattle.std.specs.Prelude.{All, IfOk};
ghost use Rattle.annotate_snippets.specs.Fits.{GroupFits, ReportFits};

use crate::drawn::text_of;
use crate::reports::{Subject, built};
use crate::retry::again;
use annotate_snippets::level::ERROR;
use annotate_snippets::renderer::RenderError;
use annotate_snippets::snippet::Report;
use annotate_snippets::{Group, Renderer};
use std::alloc::{AllocError, Global};
use std::io;

/// The reports of one group that are refused, and what each is refused for.
const REFUSED: &[(Subject, &str)] = &[
    (Subject::PastEnd, "a span past the end"),
    (Subject::Reversed, "a reversed span"),
    (Subject::OffBorder, "a span inside a character"),
    (Subject::TooLarge, "a line number that is too large"),
    (Subject::Overlapping, "patches that overlap"),
];

/// Builds their groups, in room that is made for all of them.
fn refused_groups(alloc: Global) -> Result<Vec<Group<'static>>, AllocError>
    ensures fits { IfOk result (λ groups. All GroupFits groups.items) }
{
    let mut groups = again!(Vec::with_capacity(alloc, REFUSED.len()))?;
    for (kind, _) in REFUSED {
        groups.push(built(alloc, *kind)?)?;
    }
    Ok(groups)
}

/// Prints what a report is refused for.
fn print_refusal(
    rt: &impl Print,
    subject: &str,
    answer: Result<String, RenderError>,
) -> io::Result<()> {
    match answer {
        Ok(_) => println!(rt; "{subject}: DIFFERS: it is drawn"),
        Err(refusal) => println!(rt; "{subject}: {refusal}"),
    }
}

/// Prints what each group is refused for, in a report of its own.
fn print_each(rt: &(impl Print + AllocGlobal), groups: &[Group<'_>]) -> io::Result<()>
    requires fits { All GroupFits groups.now }
{
    let renderer = Renderer::plain();
    for (index, (_, subject)) in REFUSED.iter().enumerate() {
        if index < groups.len() {
            let answer = text_of(rt.alloc(), &groups[index..index + 1], &renderer);
            print_refusal(rt, subject, answer)?;
        }
    }
    Ok(())
}

/// Builds the reports, prints the first line, what each report is refused for, and what two give under no sheets.
pub fn print(rt: &(impl Print + AllocGlobal)) -> io::Result<()> {
    let groups = refused_groups(rt.alloc())?;
    let labelled = built(rt.alloc(), Subject::Labelled)?;
    let reversed = built(rt.alloc(), Subject::Reversed)?;
    println!(rt; "what is needed from here on, up to where memory is taken, is built")?;
    print_each(rt, &groups)?;
    print_none(rt)?;
    print_untitled(rt, Group::with_level(rt.alloc(), ERROR))?;
    print_unprinted(rt, "a span with a label, under no sheets", labelled)?;
    print_unprinted(rt, "a reversed span, under no sheets", reversed)
}

/// Prints how many texts a report of a group has under no sheets, or what it is refused for.
fn print_unprinted(
    rt: &(impl Print + AllocGlobal),
    subject: &str,
    group: Group<'static>,
) -> io::Result<()>
    requires fits { GroupFits group }
{
    let groups = [group];
    match Renderer::plain().render_sheets(rt.alloc(), &groups, &[]) {
        Ok(texts) => {
            let count = texts.len();
            println!(rt; "{subject}: {count} texts")
        }
        Err(refusal) => println!(rt; "{subject}: {refusal}"),
    }
}

/// Prints what a report without a group is refused for in the short form.
fn print_none(rt: &(impl Print + AllocGlobal)) -> io::Result<()> {
    let groups: Vec<Group<'static>> = Vec::new(rt.alloc());
    print_short(rt, "no group in the short form", &groups)
}

/// Prints what a report of a group without a title is refused for in the short form.
fn print_untitled(rt: &(impl Print + AllocGlobal), group: Group<'static>) -> io::Result<()>
    requires fits { GroupFits group }
{
    let groups = [group];
    print_short(rt, "no title in the short form", &groups)
}

/// Prints what a report that the short form has nothing for is refused for.
fn print_short(rt: &(impl Print + AllocGlobal), subject: &str, groups: Report<'_>) -> io::Result<()>
    requires fits { ReportFits groups.now }
{
    let renderer = Renderer::plain().short_message(true);
    print_refusal(rt, subject, text_of(rt.alloc(), groups, &renderer))
}
