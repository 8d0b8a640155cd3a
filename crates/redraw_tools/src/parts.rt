//! The parts that findings are made of, whatever format they come from.
ghost use Rattle.std.specs.Prelude.{◌≡◌, ◌++◌, ◌∷◌, [], IfOk, None, OnOk, false, map, option_map, string_bytes};
ghost use Rattle.json_lines.specs.Field.{lent_text};
ghost use Rattle.redraw_tools.specs.Found as spec;
ghost use Rattle.redraw_tools.specs.Found.{change_view, changes_view, place, place_view, remark_view};
ghost use Rattle.redraw_tools.specs.Rule.{code_view};

use redraw_report::diagnostic::{Carried, Child, Code, FileSpan, Region, Severity, SuggestedEdit};
use std::alloc::{AllocError, Global};

/// The start of a file.
pub const START: Region = Region::Bytes { start: 0, end: 0 };

/// What stands over a fix that isn't described.
pub const UNDESCRIBED: &str = "apply this fix";

/// What stands where a finding says nothing.
pub const NO_MESSAGE: &str = "there is no message";

/// Adds a place of which the input has no lines.
pub fn add_place(
    spans: &mut Vec<FileSpan>,
    file: String,
    region: Region,
    label: Option<String>,
    is_primary: bool,
) -> Result<(), AllocError>
    ensures added { OnOk result (map place_view spans.new.items ≡ map place_view spans.old.items
        ++ place (string_bytes file) region (option_map string_bytes label) is_primary ∷ []) }
{
    spans.push(FileSpan {
        file,
        region,
        label,
        is_primary,
        carried: None,
    })?;
    Ok(())
}

/// A copy of a text, if there is one.
pub fn owned(alloc: Global, text: Option<&str>) -> Result<Option<String>, AllocError>
    ensures value { IfOk result (λ copy. option_map string_bytes copy ≡ lent_text text.entry) }
{
    match text {
        Some(text) => Ok(Some(String::from_str(alloc, text)?)),
        None => Ok(None),
    }
}

/// The name of a rule, if it has one, with the address of its page.
pub fn code_of(
    alloc: Global,
    id: Option<&str>,
    url: Option<&str>,
) -> Result<Option<Code>, AllocError>
    ensures value { IfOk result (λ code. code_view code
        ≡ option_map (λ name. (name, lent_text url.entry)) (lent_text id.entry)) }
{
    match id {
        Some(id) => Ok(Some(Code {
            id: String::from_str(alloc, id)?,
            url: owned(alloc, url)?,
        })),
        None => Ok(None),
    }
}

/// A note or help with neither places nor edits.
pub fn remark_of(alloc: Global, severity: Severity, message: String) -> Child
    ensures value { remark_view result ≡ record {
      severity = severity;
      message = string_bytes message;
      places = [];
      alternatives = [];
      goes_on = false;
    } }
{
    Child {
        severity,
        message,
        spans: Vec::new(alloc),
        alternatives: Vec::new(alloc),
        goes_on: false,
    }
}

/// The edit of a region of this file.
pub fn edit_of(
    alloc: Global,
    file: &str,
    region: Region,
    text: &str,
    carried: Option<Carried>,
) -> Result<SuggestedEdit, AllocError>
    ensures value { IfOk result (λ edit. change_view edit
        ≡ record { file = file.now; region = region; text = text.now; carried = carried }) }
{
    Ok(SuggestedEdit {
        file: String::from_str(alloc, file)?,
        region,
        replacement: String::from_str(alloc, text)?,
        carried,
    })
}

/// The help that suggests these edits, all of which are to be made.
pub fn help_of(
    alloc: Global,
    message: String,
    edits: Vec<SuggestedEdit>,
) -> Result<Child, AllocError>
    ensures value { IfOk result (λ help. remark_view help ≡ spec.help (string_bytes message) (changes_view edits)) }
{
    let mut help = remark_of(alloc, Severity::Help, message);
    help.alternatives.push(edits)?;
    Ok(help)
}
