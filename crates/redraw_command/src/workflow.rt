//! Findings as GitHub's workflow commands, a line each: `::error file=src/main.rs,line=2::message`.

ghost use Rattle.std.specs.Prelude.{◌≡◌, ◌++◌, codes, chars, IfOk, OnOk, string_bytes, encode_utf8_all};
ghost use Rattle.std.specs.List.{find};
ghost use Rattle.std.specs.Option.{option_map};
ghost use Rattle.redraw_report.specs.Report.{lent};
ghost use Rattle.redraw_command.specs.Told.{normalized_text};
ghost use Rattle.redraw_command.specs.Workflow.{code_named, columns_named, command, escape, escaped, in_part};
ghost use Rattle.redraw_command.specs.Workflow.{level_name, lines_named};
ghost use Rattle.redraw_command.specs.Workflow.{number_property, place_named, property, raw_command, region_named};
ghost use Rattle.redraw_command.specs.Workflow.{first_primary, label_said, said_of, separator_after};

use crate::choice::is_sum;
use redraw_report::diagnostic::{Diagnostic, FileSpan, LineRegion, Region, Severity};
use snippet_text::normalize_untrusted_str;
use std::alloc::{AllocError, Global};

/// What is escaped in a part of a command.
#[derive(Clone, Copy, PartialEq, Eq)]
pub enum CommandPart {
    /// The message.
    Data,
    /// The value of a property.
    Property,
}

/// The line of a finding; `None` of a text that isn't one, as it has no level or only sums up others.
pub fn command_of(alloc: Global, diagnostic: &Diagnostic) -> Result<Option<String>, AllocError>
    ensures value { IfOk result (λ line. option_map string_bytes line ≡ command diagnostic.now) }
{
    if is_sum(diagnostic) {
        return Ok(None);
    }
    match level_of(diagnostic.severity) {
        Some(level) => Ok(Some(named_command(alloc, level, diagnostic)?)),
        None => Ok(None),
    }
}

/// The command of this name for a finding.
fn named_command(alloc: Global, name: &str, diagnostic: &Diagnostic) -> Result<String, AllocError>
    ensures value { IfOk result (λ line. string_bytes line
        ≡ normalized_text (raw_command name.now (first_primary diagnostic.now.spans.items) diagnostic.now)) }
{
    let line = raw_line(alloc, name, place_of(&diagnostic.spans), diagnostic)?;
    normalize_untrusted_str(alloc, line.as_str())
}

/// The command of this name for a finding, before what is listed in it is replaced.
fn raw_line(
    alloc: Global,
    name: &str,
    place: Option<&FileSpan>,
    diagnostic: &Diagnostic,
) -> Result<String, AllocError>
    ensures value { IfOk result (λ line. string_bytes line
        ≡ raw_command name.now (option_map (λ s. s.now) place.entry) diagnostic.now) }
{
    let mut line = format!(in alloc; "::{name}")?;
    add_place(alloc, place, &mut line)?;
    add_code(diagnostic, separator_of(place), &mut line)?;
    line.push_str("::")?;
    add_escaped(&mut line, diagnostic.message.as_str(), CommandPart::Data)?;
    add_said(place, &mut line)?;
    Ok(line)
}

/// The command for a level.
fn level_of(severity: Severity) -> Option<&'static str>
    ensures value { lent result ≡ level_name severity }
{
    match severity {
        Severity::Error => Some("error"),
        Severity::Warning => Some("warning"),
        Severity::Info | Severity::Note | Severity::Help => Some("notice"),
        Severity::Plain => None,
    }
}

/// The first primary place.
pub fn place_of(spans: &[FileSpan]) -> Option<&FileSpan>
    ensures value { option_map (λ s. s.now) result ≡ first_primary spans.now }
{
    for span in spans {
        if span.is_primary {
            return Some(span);
        }
    }
    None
}

/// What parts a property from what stands before it.
fn separator_of(place: Option<&FileSpan>) -> &'static str
    ensures value { result.now ≡ separator_after (option_map (λ s. s.now) place.entry) }
{
    match place {
        Some(_) => ",",
        None => " ",
    }
}

/// Adds where the finding is.
fn add_place(alloc: Global, place: Option<&FileSpan>, line: &mut String) -> Result<(), AllocError>
    ensures added { OnOk result
        (string_bytes line.new ≡ string_bytes line.old ++ place_named (option_map (λ s. s.now) place.entry)) }
{
    match place {
        Some(span) => {
            add_property(line, " ", "file", span.file.as_str())?;
            add_lines(alloc, span.region, line)
        }
        None => Ok(()),
    }
}

/// Adds the lines of a region, where it has some.
fn add_lines(alloc: Global, region: Region, line: &mut String) -> Result<(), AllocError>
    ensures added { OnOk result (string_bytes line.new ≡ string_bytes line.old ++ region_named region) }
{
    match region {
        Region::Lines(lines) => add_region(alloc, lines, line),
        _ => Ok(()),
    }
}

/// Adds the name of the rule that a finding breaks, after a separator.
fn add_code(diagnostic: &Diagnostic, separator: &str, line: &mut String) -> Result<(), AllocError>
    ensures added { OnOk result
        (string_bytes line.new ≡ string_bytes line.old ++ code_named separator.now diagnostic.now.code) }
{
    match &diagnostic.code {
        Some(code) => add_property(line, separator, "title", code.id.as_str()),
        None => Ok(()),
    }
}

/// Adds a property, after a separator.
fn add_property(
    line: &mut String,
    separator: &str,
    name: &str,
    value: &str,
) -> Result<(), AllocError>
    ensures added { OnOk result
        (string_bytes line.new ≡ string_bytes line.old ++ property separator.now name.now value.now) }
{
    line.push_str(separator)?;
    line.push_str(name)?;
    line.push_str("=")?;
    add_escaped(line, value, CommandPart::Property)
}

/// Adds the lines of a region, and its columns where it lies on one line: GitHub takes none where it lies on several.
fn add_region(alloc: Global, region: LineRegion, line: &mut String) -> Result<(), AllocError>
    ensures added { OnOk result (string_bytes line.new ≡ string_bytes line.old ++ lines_named region) }
{
    add_number(alloc, "line", Some(region.start_line), line)?;
    add_number(alloc, "endLine", Some(region.end_line), line)?;
    if region.start_line == region.end_line {
        add_columns(alloc, region, line)?;
    }
    Ok(())
}

/// Adds the columns of a region.
fn add_columns(alloc: Global, region: LineRegion, line: &mut String) -> Result<(), AllocError>
    ensures added { OnOk result (string_bytes line.new ≡ string_bytes line.old ++ columns_named region) }
{
    add_number(alloc, "col", region.start_column, line)?;
    add_number(alloc, "endColumn", region.end_column, line)
}

/// Adds a property that is a number, if there is one, after a comma.
fn add_number(
    alloc: Global,
    name: &str,
    number: Option<usize>,
    line: &mut String,
) -> Result<(), AllocError>
    ensures added { OnOk result (string_bytes line.new ≡ string_bytes line.old ++ number_property name.now number) }
{
    match number {
        Some(number) => {
            let property = format!(in alloc; ",{name}={number}")?;
            line.push_str(property.as_str())
        }
        None => Ok(()),
    }
}

/// Adds what is said of a place, after the message.
fn add_said(place: Option<&FileSpan>, line: &mut String) -> Result<(), AllocError>
    ensures added { OnOk result
        (string_bytes line.new ≡ string_bytes line.old ++ said_of (option_map (λ s. s.now) place.entry)) }
{
    match place {
        Some(span) => add_label(&span.label, line),
        None => Ok(()),
    }
}

/// Adds a label, where there is one.
fn add_label(label: &Option<String>, line: &mut String) -> Result<(), AllocError>
    ensures added { OnOk result (string_bytes line.new ≡ string_bytes line.old ++ label_said label.now) }
{
    match label {
        Some(label) => {
            line.push_str(": ")?;
            add_escaped(line, label.as_str(), CommandPart::Data)
        }
        None => Ok(()),
    }
}

/// Adds a text, with what has a meaning in this part of a command escaped.
fn add_escaped(line: &mut String, text: &str, part: CommandPart) -> Result<(), AllocError>
    ensures added { OnOk result
        (string_bytes line.new ≡ string_bytes line.old ++ in_part part text.now) }
{
    for character in text.chars() {
        add_character(line, character, part)?;
    }
    Ok(())
}

/// Adds a character, escaped where it has a meaning in this part of a command.
fn add_character(line: &mut String, character: char, part: CommandPart) -> Result<(), AllocError>
    ensures added { OnOk result
        (string_bytes line.new ≡ string_bytes line.old ++ encode_utf8_all (escape part character)) }
{
    match character {
        '%' => line.push_str("%25"),
        '\r' => line.push_str("%0D"),
        '\n' => line.push_str("%0A"),
        ':' if part == CommandPart::Property => line.push_str("%3A"),
        ',' if part == CommandPart::Property => line.push_str("%2C"),
        _ => line.push(character),
    }
}
