//! Which places are the point of a diagnostic of rustc. Places that rustc knows apart may be one when they are shown
//! where a macro was called: then each is primary if one is.

ghost use Rattle.std.specs.Prelude.{◌≡◌, ◌++◌, ◌∷◌, List, [], IfOk, OnOk, false, map, slice_index_or};
ghost use Rattle.redraw_read.specs.AsShown.{settled, with_roles};
ghost use Rattle.redraw_read.specs.AsShown as spec;
ghost use Rattle.redraw_read.specs.Roles.{ArePrimaryParts, IsPartOf};
ghost use Rattle.redraw_report.specs.declared.diagnostic.FileSpan.{FileSpan};

use redraw_report::diagnostic::{FileSpan, Region};
use std::alloc::{AllocError, Global};
use std::collections::BTreeSet;

/// These places, each a primary one exactly where one of them lies that is primary.
pub fn settle_roles(alloc: Global, spans: Vec<FileSpan>) -> Result<Vec<FileSpan>, AllocError>
    ensures settled { IfOk result (λ found. found.items ≡ settled spans.items) }
{
    if spans.len() < 2 {
        return Ok(spans);
    }
    let roles = roles_of(alloc, &spans)?;
    let found = given_roles(alloc, spans, &roles)?;
    Ok(found)
}

/// Of each place whether it is a primary one.
fn roles_of(alloc: Global, spans: &[FileSpan]) -> Result<Vec<bool>, AllocError>
    ensures each { IfOk result (λ roles. roles.items ≡ map (spec.is_at_primary spans.now) spans.now) }
{
    let primary = primary_places(alloc, spans)?;
    let mut roles = Vec::new(alloc);
    for span in spans {
        roles.push(is_among(&primary, span))?;
    }
    Ok(roles)
}

/// A part of a file, as it is looked up: none of the others is looked at for it.
pub type FilePart<'a> = (Region, &'a str);

/// The part of a file that a place is.
pub fn part_of<'a>(span: &'a FileSpan) -> FilePart<'a>
    ensures of { IsPartOf result span.now }
{
    (span.region, span.file.as_str())
}

/// The parts where primary places lie.
fn primary_places<'a>(
    alloc: Global,
    spans: &'a [FileSpan],
) -> Result<BTreeSet<FilePart<'a>>, AllocError>
    ensures each { IfOk result (λ parts. ArePrimaryParts parts spans.now) }
{
    let mut parts = BTreeSet::new(alloc);
    for span in spans {
        add_primary(&mut parts, span)?;
    }
    Ok(parts)
}

/// Adds the part where a place lies, if it is primary.
fn add_primary<'a>(parts: &mut BTreeSet<FilePart<'a>>, span: &'a FileSpan) -> Result<(), AllocError>
    ensures added { (spans : List FileSpan) → ArePrimaryParts parts.old spans
        → OnOk result (ArePrimaryParts parts.new (spans ++ span.now ∷ [])) }
{
    if span.is_primary {
        parts.insert(part_of(span))?;
    }
    Ok(())
}

/// Whether a place lies in one of these parts.
fn is_among<'a>(parts: &BTreeSet<FilePart<'a>>, span: &'a FileSpan) -> bool
    ensures value { (spans : List FileSpan) → ArePrimaryParts parts.now spans
        → result ≡ spec.is_at_primary spans span.now }
{
    let part = part_of(span);
    parts.contains(&part)
}

/// These places with these roles.
fn given_roles(
    alloc: Global,
    spans: Vec<FileSpan>,
    roles: &[bool],
) -> Result<Vec<FileSpan>, AllocError>
    ensures each { IfOk result (λ found. found.items ≡ with_roles roles.now spans.items) }
{
    let mut found = Vec::new(alloc);
    for span in spans {
        let is_primary = role_at(roles, found.len());
        found.push(with_role(span, is_primary))?;
    }
    Ok(found)
}

/// The role with this index; past the last one a place isn't primary.
fn role_at(roles: &[bool], index: usize) -> bool
    ensures value { result ≡ slice_index_or roles.now index false }
{
    if index < roles.len() {
        roles[index]
    } else {
        false
    }
}

/// A place with this role.
pub fn with_role(span: FileSpan, is_primary: bool) -> FileSpan
    ensures value { result ≡ record span { is_primary = is_primary } }
{
    FileSpan {
        file: span.file,
        region: span.region,
        label: span.label,
        is_primary,
        carried: span.carried,
    }
}
