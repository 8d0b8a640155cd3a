//! The report of what rules found in a file, and of how to mend it.
ghost use Rattle.std.specs.Prelude.{◌≡◌, All, List, ◌++◌, IfOk, map};
ghost use Rattle.std.specs.List.{flat_map};
ghost use Rattle.std.specs.Result.{OnOk};
ghost use Rattle.annotate_snippets.specs.declared.snippet.Group.{Group};
ghost use Rattle.annotate_snippets.specs.Fault.{IsWithinBounds};
ghost use Rattle.annotate_snippets.specs.Fits.{TextFits};
ghost use Rattle.tidy_run.specs.Findings.{AreInside, IsTitle, finding_of, findings_of};
ghost use Rattle.tidy_run.specs.Report.{IsHelp, IsOfFile, IsReportOf, IsWarning, annotation_of, mended_by};
ghost use Rattle.tidy_run.specs.Report.{tidy_settings, told_of};

use crate::rule::{Edit, Rule};
use annotate_snippets::level::{HELP, WARNING};
use annotate_snippets::{Annotation, AnnotationKind, Element, Group, OptionCow, Patch, Snippet};
use std::alloc::{AllocError, Global};

/// The file with a mark at each edit.
fn marked<'a>(
    alloc: Global,
    path: &'a str,
    source: &'a str,
    edits: &[Edit],
) -> Result<Snippet<'a, Annotation<'a>>, AllocError>
    ensures of_file { IfOk result (IsOfFile path.now source.now) }
    ensures marks { IfOk result (λ snippet. snippet.markers.items ≡ map annotation_of (map finding_of edits.now)) }
{
    let mut snippet = Snippet::source(alloc, source).path(OptionCow::from(path));
    for edit in edits {
        let mark = AnnotationKind::Primary.span(edit.span.start..edit.span.end);
        snippet = snippet.annotation(mark)?;
    }
    Ok(snippet)
}

/// The file with a patch for each edit.
fn patched<'a>(
    alloc: Global,
    path: &'a str,
    source: &'a str,
    edits: &[Edit],
) -> Result<Snippet<'a, Patch<'a>>, AllocError>
    ensures of_file { IfOk result (IsOfFile path.now source.now) }
    ensures patches { IfOk result (λ snippet. map mended_by snippet.markers.items ≡ map finding_of edits.now) }
{
    let mut snippet = Snippet::source(alloc, source).path(OptionCow::from(path));
    for edit in edits {
        let patch = Patch::new(edit.span.start..edit.span.end, edit.text);
        snippet = snippet.patch(patch)?;
    }
    Ok(snippet)
}

/// The group that tells what a rule found.
fn warning<'a>(
    alloc: Global,
    title: &'static str,
    path: &'a str,
    source: &'a str,
    edits: &[Edit],
) -> Result<Group<'a>, AllocError>
    ensures told { IfOk result (IsWarning path.now source.now title.now (map finding_of edits.now)) }
{
    let snippet = marked(alloc, path, source, edits)?;
    WARNING
        .primary_title(title)
        .element(alloc, Element::from(snippet))
}

/// The group that tells how to mend what a rule found.
fn help<'a>(
    alloc: Global,
    path: &'a str,
    source: &'a str,
    edits: &[Edit],
) -> Result<Group<'a>, AllocError>
    requires inside { AreInside source.now 0 (map finding_of edits.now) }
    ensures told { IfOk result (IsHelp path.now source.now (map finding_of edits.now)) }
{
    let snippet = patched(alloc, path, source, edits)?;
    HELP.secondary_title("apply this")
        .element(alloc, Element::from(snippet))
}

/// The title of a rule in a box.
fn box_title(rule: &Box<dyn Rule>) -> &'static str
    ensures value { result.now ≡ title_of rule.now }
    ensures title { IsTitle result.now }
{
    rule.as_ref().title()
}

/// Adds what is told of a rule's findings: nothing where there are none, else the two groups.
fn tell<'a>(
    alloc: Global,
    groups: &mut Vec<Group<'a>>,
    title: &'static str,
    path: &'a str,
    source: &'a str,
    edits: &[Edit],
) -> Result<(), AllocError>
    requires inside { AreInside source.now 0 (map finding_of edits.now) }
    ensures told { OnOk result ((more : List Group) × (groups.new.items ≡ groups.old.items ++ more)
        × IsReportOf path.now source.now (told_of title.now (map finding_of edits.now)) more) }
{
    if !edits.is_empty() {
        groups.push(warning(alloc, title, path, source, edits)?)?;
        groups.push(help(alloc, path, source, edits)?)?;
    }
    Ok(())
}

/// The report of what each rule found in a file: for each rule that found something a warning, which marks each
/// finding, and the help to it, which mends them.
pub fn report<'a>(
    alloc: Global,
    rules: &[Box<dyn Rule>],
    path: &'a str,
    source: &'a str,
    findings: &[Vec<Edit>],
) -> Result<Vec<Group<'a>>, AllocError>
    requires findings { map (λ edits. map finding_of edits.items) findings.now
        ≡ map (λ rule. findings_of (finds rule source.now) source.now) rules.now }
    requires inside { All (λ edits. AreInside source.now 0 (map finding_of edits.items)) findings.now }
    requires path { TextFits path.now }
    requires source { TextFits source.now }
    ensures told { IfOk result (λ groups. IsReportOf path.now source.now
        (flat_map (λ rule. told_of (title_of rule) (findings_of (finds rule source.now) source.now)) rules.now)
        groups.items) }
    ensures bounds { IfOk result (λ groups. IsWithinBounds tidy_settings groups.items) }
{
    let mut groups = Vec::new(alloc);
    for (i, rule) in rules.iter().enumerate() {
        tell(
            alloc,
            &mut groups,
            box_title(rule),
            path,
            source,
            &findings[i],
        )?;
    }
    Ok(groups)
}
