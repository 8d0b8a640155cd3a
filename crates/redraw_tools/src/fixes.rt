//! The fixes that a result suggests.
ghost use Rattle.std.specs.Prelude.{◌≡◌, ◌<◌, ◌++◌, ◌∷◌, [], IfOk, IfSome, OnOk, length, map, option_map};
ghost use Rattle.std.specs.Prelude.{string_bytes, true};
ghost use Rattle.std.specs.List.{filter_map};
ghost use Rattle.serde_json.specs.View.{view};
ghost use Rattle.json_lines.specs.Field.{lent_text};
ghost use Rattle.redraw_tools.specs.Edits as spec;
ghost use Rattle.redraw_tools.specs.Edits.{edit_in, edit_view, edits_if_named, edits_of_change, edits_of_fix};
ghost use Rattle.redraw_tools.specs.Fixes as said;
ghost use Rattle.redraw_tools.specs.Found.{changes_view, remark_view};
ghost use Rattle.redraw_tools.specs.Fixes.{AddsFix, AddsFixes, Describes, remarks, with_fix};
ghost use Rattle.redraw_tools.specs.Rule.{part_data, rule_data};

use crate::location::Context;
use crate::message::part_text_in;
use crate::parts::{UNDESCRIBED, edit_of, help_of};
use crate::region::{carried_in, region_of};
use crate::uri::path_in;
use json_lines::lenient::{LenientNode, List, Problems};
use redraw_report::diagnostic::{
    Carried, Child, LineRegion, Region, Severity, SuggestedEdit, Unit,
};
use std::alloc::{AllocError, Global};

/// Adds what is said of a list of fixes: one help for each description, with the fixes of that description, one of
/// which is to be made. Those of one description have to stand in a row. A fix with something wrong in it is left out.
pub fn add_fixes(
    children: &mut Vec<Child>,
    fixes: &List<'_, '_>,
    context: &Context<'_, '_>,
    problems: &mut Problems,
) -> Result<(), AllocError>
    ensures added { OnOk result (AddsFixes (view context.now.run.now) context.now.unit (part_data context.now.rule)
        (rule_data context.now.rule) (map view fixes.now.items.now) (remarks children.old) (remarks children.new)) }
{
    for (index, value) in fixes.items.iter().enumerate() {
        take_fix(children, &fixes.node(index, value), context, problems)?;
    }
    Ok(())
}

/// Adds what is said of a fix, unless something is wrong in it.
fn take_fix(
    children: &mut Vec<Child>,
    fix: &LenientNode<'_, '_>,
    context: &Context<'_, '_>,
    problems: &mut Problems,
) -> Result<(), AllocError>
    ensures added { OnOk result (AddsFix (view context.now.run.now) context.now.unit (part_data context.now.rule)
        (rule_data context.now.rule) (view fix.now.value.now) (remarks children.old) (remarks children.new)) }
{
    match edits_of(fix, context, problems)? {
        Some(edits) => {
            let message = description_of(fix, context, problems)?;
            add_fix(children, message, edits, context)
        }
        None => Ok(()),
    }
}

/// The description of a fix.
fn description_of(
    fix: &LenientNode<'_, '_>,
    context: &Context<'_, '_>,
    problems: &mut Problems,
) -> Result<String, AllocError>
    ensures is { IfOk result (λ text. Describes (part_data context.now.rule) (rule_data context.now.rule)
        (view fix.now.value.now) (string_bytes text)) }
{
    match part_text_in(fix, "description", context, problems)? {
        Some(message) => Ok(message),
        None => String::from_str(context.alloc, UNDESCRIBED),
    }
}

/// Adds a fix: to the last help, where that has the same description, else as one more.
fn add_fix(
    children: &mut Vec<Child>,
    message: String,
    edits: Vec<SuggestedEdit>,
    context: &Context<'_, '_>,
) -> Result<(), AllocError>
    ensures added { OnOk result (remarks children.new
        ≡ with_fix (string_bytes message) (changes_view edits) (remarks children.old)) }
{
    if says_last(children, message.as_str()) {
        let last = children.len() - 1;
        children[last].alternatives.push(edits)?;
    } else {
        children.push(help_of(context.alloc, message, edits)?)?;
    }
    Ok(())
}

/// Whether the last of some remarks is a help that says this.
fn says_last(children: &[Child], message: &str) -> bool
    ensures value { result ≡ said.says_last message.now (map remark_view children.now) }
    ensures some { result ≡ true → 0 < length children.now }
{
    match children.last() {
        Some(last) => is_help(last.severity) && last.message.as_str() == message,
        None => false,
    }
}

/// Whether a level is that of a help.
fn is_help(severity: Severity) -> bool
    ensures value { result ≡ said.is_help severity }
{
    matches!(severity, Severity::Help)
}

/// The edits of a fix, in all files; `None` where something is wrong with one of them, which is reported: the others
/// alone would be another fix.
fn edits_of(
    fix: &LenientNode<'_, '_>,
    context: &Context<'_, '_>,
    problems: &mut Problems,
) -> Result<Option<Vec<SuggestedEdit>>, AllocError>
    ensures are { IfOk result (λ found. IfSome found (λ edits. map edit_view edits.items
        ≡ edits_of_fix (view context.now.run.now) context.now.unit (view fix.now.value.now))) }
{
    let told = problems.lines.len();
    let edits = edits_in(fix, context, problems)?;
    if problems.lines.len() > told {
        Ok(None)
    } else {
        Ok(Some(edits))
    }
}

/// Those edits of a fix with which nothing is wrong.
fn edits_in(
    fix: &LenientNode<'_, '_>,
    context: &Context<'_, '_>,
    problems: &mut Problems,
) -> Result<Vec<SuggestedEdit>, AllocError>
    ensures are { IfOk result (λ edits. map edit_view edits.items
        ≡ edits_of_fix (view context.now.run.now) context.now.unit (view fix.now.value.now)) }
{
    let mut edits = Vec::new(context.alloc);
    let changes = fix.needed_list("artifactChanges", problems);
    for (index, value) in changes.items.iter().enumerate() {
        add_change(&mut edits, &changes.node(index, value), context, problems)?;
    }
    Ok(edits)
}

/// Adds the edits of one file.
fn add_change(
    edits: &mut Vec<SuggestedEdit>,
    change: &LenientNode<'_, '_>,
    context: &Context<'_, '_>,
    problems: &mut Problems,
) -> Result<(), AllocError>
    ensures added { OnOk result (map edit_view edits.new.items ≡ map edit_view edits.old.items
        ++ edits_if_named (view context.now.run.now) context.now.unit (view change.now.value.now)) }
{
    match path_in(context.alloc, change, context.run, problems)? {
        Some(file) => add_replacements(edits, change, file.as_str(), context, problems),
        None => Ok(()),
    }
}

/// Adds the edits of a file that a change makes.
fn add_replacements(
    edits: &mut Vec<SuggestedEdit>,
    change: &LenientNode<'_, '_>,
    file: &str,
    context: &Context<'_, '_>,
    problems: &mut Problems,
) -> Result<(), AllocError>
    ensures added { OnOk result (map edit_view edits.new.items ≡ map edit_view edits.old.items
        ++ edits_of_change context.now.unit (view change.now.value.now) file.now) }
{
    let replacements = change.needed_list("replacements", problems);
    for (index, value) in replacements.items.iter().enumerate() {
        add_replacement(
            edits,
            &replacements.node(index, value),
            file,
            context,
            problems,
        )?;
    }
    Ok(())
}

/// Adds the edit of a replacement, if it is one that can be drawn.
fn add_replacement(
    edits: &mut Vec<SuggestedEdit>,
    replacement: &LenientNode<'_, '_>,
    file: &str,
    context: &Context<'_, '_>,
    problems: &mut Problems,
) -> Result<(), AllocError>
    ensures added { OnOk result (map edit_view edits.new.items ≡ map edit_view edits.old.items
        ++ filter_map (edit_in context.now.unit file.now) (view replacement.now.value.now ∷ [])) }
{
    if let Some(edit) = edit_at(replacement, file, context, problems)? {
        edits.push(edit)?;
    }
    Ok(())
}

/// The edit of a replacement. One whose content is no text isn't one that can be drawn.
fn edit_at(
    replacement: &LenientNode<'_, '_>,
    file: &str,
    context: &Context<'_, '_>,
    problems: &mut Problems,
) -> Result<Option<SuggestedEdit>, AllocError>
    ensures value { IfOk result (λ edit. option_map edit_view edit
        ≡ edit_in context.now.unit file.now (view replacement.now.value.now)) }
{
    let Some(deleted) = replacement.needed("deletedRegion", problems) else {
        return Ok(None);
    };
    let region = deleted_in(&deleted, context.unit, problems);
    let (Some(region), Some(text)) = (region, inserted_in(replacement, problems)) else {
        return Ok(None);
    };
    let carried = carried_in(context.alloc, &deleted, context.unit, problems)?;
    Ok(Some(edit_with(context.alloc, file, region, text, carried)?))
}

/// The part of a file that goes. Without columns it is all of its lines, with the blanks that they begin with.
fn deleted_in(deleted: &LenientNode<'_, '_>, unit: Unit, problems: &mut Problems) -> Option<Region>
    ensures value { result ≡ spec.deleted_in (view deleted.now.value.now) unit }
{
    match region_of(deleted, unit, problems) {
        Some(Region::Lines(lines)) => Some(Region::Lines(LineRegion {
            start_column: lines.start_column.or(Some(1)),
            ..lines
        })),
        region => region,
    }
}

/// The region of lines that go whole, to before the end of the last, which stays: so a line that is removed is shown
/// alone. Another region is given back.
fn before_line_end(region: Region) -> Region
    ensures value { result ≡ spec.before_line_end region }
{
    match region {
        Region::Lines(lines)
            if lines.start_column == Some(1)
                && lines.end_column == Some(1)
                && lines.start_line < lines.end_line => {
            Region::Lines(LineRegion {
                end_line: lines.end_line - 1,
                end_column: None,
                ..lines
            })
        }
        region => region,
    }
}

/// The edit of a region of this file. Where nothing comes in its place, lines that go whole leave their end.
fn edit_with(
    alloc: Global,
    file: &str,
    region: Region,
    text: &str,
    carried: Option<Carried>,
) -> Result<SuggestedEdit, AllocError>
    ensures value { IfOk result (λ edit. edit_view edit ≡ spec.edit_with file.now text.now region) }
{
    let region = if text.is_empty() {
        before_line_end(region)
    } else {
        region
    };
    edit_of(alloc, file, region, text, carried)
}

/// The text that a replacement puts in: none where it only takes text away.
fn inserted_in<'v>(replacement: &LenientNode<'v, '_>, problems: &mut Problems) -> Option<&'v str>
    ensures value { lent_text result ≡ spec.inserted_in (view replacement.now.value.now) }
{
    if !replacement.has("insertedContent") {
        return Some("");
    }
    match replacement.needed("insertedContent", problems) {
        Some(content) => content.needed_text("text", problems),
        None => None,
    }
}
