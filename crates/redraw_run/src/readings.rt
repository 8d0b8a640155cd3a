//! Which reading of a diagnostic is drawn, where its JSON leaves that open: the one whose drawing is rustc's own text.
ghost use Rattle.std.specs.Prelude.{◌≡◌, ◌⊎◌, ◌++◌, Bool, IfOk, codes, false, string_bytes};
ghost use Rattle.std.specs.Str.{bytes_eq};
ghost use Rattle.redraw_read.specs.AsShown.{has_escape};
ghost use Rattle.redraw_run.specs.Readings as spec;
ghost use Rattle.redraw_run.specs.Readings.{Candidate, IsChosenReading, IsDrawnIn, IsReadFrom, as_rustc_ends, is_meant};
ghost use Rattle.serde_json.specs.View.{view};

use crate::look::ReportRenderer;
use crate::text::drawn_of;
use annotate_snippets::renderer::RenderError;
use json_lines::expectation::Expectation;
use json_lines::fault::Fault;
use json_lines::node::Node;
use program::options::{Options, renderer_of};
use redraw_command::terminal::Markup;
use redraw_read::cargo::packaged_diagnostic_by;
use redraw_read::place::load_files;
use redraw_read::plain::without_styles;
use redraw_read::reading::{FIRST, Open, Reading, others_of};
use redraw_read::rustc::{diagnostic_by, open_in, whole_text};
use redraw_read::sources::{SourceFiles, Sources};
use redraw_report::diagnostic::Diagnostic;
use std::alloc::{AllocError, Global};

/// How wide rustc draws, in columns.
const WIDTH: usize = 140;

/// With what rustc's own text begins a path, if it has line-drawing characters.
const UNICODE_ARROW: &str = "\u{256d}\u{25b8} ";

/// The diagnostic that a line describes, or that the message of cargo has in it which the line is: by the first
/// reading, or, where the JSON leaves it open how it is read, by the one whose drawing is rustc's own text.
pub fn read_diagnostic<S: SourceFiles + Drop>(
    sources: &mut Sources<S>,
    line: &Node<'_, '_>,
    is_cargo: bool,
) -> Result<Diagnostic, Fault>
    ensures read { IfOk result (IsReadFrom is_cargo (view line.now.value.now)) }
{
    let first = read_by(line, is_cargo, FIRST)?;
    let open = open_of(line, is_cargo)?;
    match text_if(open.is_any(), line, is_cargo)? {
        Some(text) => {
            let text = without_styles(line.alloc, text)?;
            let others = others_of(line.alloc, open)?;
            choose(sources, line, is_cargo, first, others, text.as_str())
        }
        None => Ok(first),
    }
}

/// The diagnostic of a line, by this reading.
fn read_by(line: &Node<'_, '_>, is_cargo: bool, reading: Reading) -> Result<Diagnostic, Fault>
    ensures read { IfOk result (IsReadFrom is_cargo (view line.now.value.now)) }
{
    if is_cargo {
        packaged_diagnostic_by(line, reading)
    } else {
        diagnostic_by(line, reading)
    }
}

/// What the JSON of the diagnostic of a line leaves open.
fn open_of(line: &Node<'_, '_>, is_cargo: bool) -> Result<Open, Fault> {
    if is_cargo {
        Ok(open_in(line.needed("message", Expectation::Object)?.value))
    } else {
        Ok(open_in(line.value))
    }
}

/// rustc's own text of the diagnostic of a line, where it is asked for and shows all of it.
fn text_if<'v>(
    is_asked: bool,
    line: &Node<'v, '_>,
    is_cargo: bool,
) -> Result<Option<&'v str>, Fault> {
    if !is_asked {
        Ok(None)
    } else if is_cargo {
        whole_text(&line.needed("message", Expectation::Object)?)
    } else {
        whole_text(line)
    }
}

/// Of the readings of a line, of which this is the first and these are the others, the one whose drawing is this text;
/// the first where there is none.
fn choose<S: SourceFiles + Drop>(
    sources: &mut Sources<S>,
    line: &Node<'_, '_>,
    is_cargo: bool,
    first: Diagnostic,
    others: Vec<Reading>,
    text: &str,
) -> Result<Diagnostic, Fault>
    ensures chosen { IfOk result (λ d. (is_unicode : Bool)
        × IsChosenReading (spec.rustc_look is_unicode) text.now d) }
    ensures read { IfOk result (λ d. (d ≡ first) ⊎ IsReadFrom is_cargo (view line.now.value.now) d) }
{
    let look = rustc_look_for(text);
    let is_first = draws(sources, line.alloc, &look, &first, text)?;
    if is_first {
        return Ok(first);
    }
    for reading in others {
        let other = read_by(line, is_cargo, reading)?;
        let is_meant = draws(sources, line.alloc, &look, &other, text)?;
        if is_meant {
            return Ok(other);
        }
    }
    Ok(first)
}

/// What draws as rustc drew this text.
pub fn rustc_look_for(text: &str) -> ReportRenderer
    ensures look { (is_unicode : Bool) × (result ≡ spec.rustc_look is_unicode) }
{
    rustc_look(text.contains(UNICODE_ARROW))
}

/// What draws as rustc does.
fn rustc_look(is_unicode: bool) -> ReportRenderer
    ensures value { result ≡ spec.rustc_look is_unicode }
{
    let options = Options {
        unicode: is_unicode,
        text: false,
        short: false,
        styled: false,
        width: Some(WIDTH),
    };
    ReportRenderer {
        settings: renderer_of(options),
        markup: Markup::Bare,
        is_workflow: false,
    }
}

/// Whether the drawing of a reading is this text of rustc's. The files that it names are read.
pub fn draws<S: SourceFiles + Drop>(
    sources: &mut Sources<S>,
    alloc: Global,
    look: &ReportRenderer,
    reading: &Diagnostic,
    text: &str,
) -> Result<bool, AllocError>
    ensures is { IfOk result (λ is. (c : Candidate) × (c.reading ≡ reading.now) × IsDrawnIn look.now c
        × (is_meant text.now c ≡ is)) }
{
    load_files(sources, reading)?;
    let drawn = drawn_of(alloc, look, sources, reading)?;
    match &drawn.text {
        Ok(drawn) => is_own_text(alloc, drawn.as_str(), text),
        Err(RenderError::Memory(_)) => Err(AllocError),
        Err(_) => Ok(false),
    }
}

/// Whether this drawing is a text of rustc's.
fn is_own_text(alloc: Global, drawing: &str, text: &str) -> Result<bool, AllocError>
    ensures value { IfOk result (λ is. is ≡ bytes_eq (as_rustc_ends drawing.now) text.now) }
{
    let ended = format!(in alloc; "{drawing}\n\n")?;
    Ok(ended.as_str() == text)
}
