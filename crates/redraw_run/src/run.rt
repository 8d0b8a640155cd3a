//! A run of the program.
ghost use Rattle.std.specs.Prelude.{◌≡◌, ◌≢◌, ◌⊎◌, ◌≤◌, ◌||◌, ◌&&◌, ℕ, List, [], true, false, map, IfErr, IfOk};
ghost use Rattle.clap.specs.Values.{kind_of};
ghost use Rattle.clap.specs.declared.error.kind.ErrorKind.TheVariants as kind;
ghost use Rattle.std.specs.IoError.{error_kind};
ghost use Rattle.std.specs.declared.io.ErrorKind.TheVariants.{BrokenPipe};
ghost use Rattle.program.specs.Inputs.{held_by};
ghost use Rattle.redraw_command.specs.Tally.{is_empty, no_tally, tally_status};
ghost use Rattle.redraw_command.specs.Told.{Tells, TellsMemory, TellsOfArguments};
ghost use Rattle.redraw_command.specs.Arguments.{arguments_at};
ghost use Rattle.redraw_run.specs.Deeds.{standing};
ghost use Rattle.redraw_run.specs.Inputs as spec;
ghost use Rattle.redraw_run.specs.Inputs.{AreCut, AreDrawn, IsCutFrom, IsInputCut, IsDrawnFrom, IsDrawnOf, held_in};
ghost use Rattle.redraw_run.specs.ReadLines.{IsTextPrinted, SumsUp};
ghost use Rattle.redraw_run.specs.Run.{Answers, ArePartlyPrinted, AreInputsPrinted, Draws, EndsInput, Runs};
ghost use Rattle.output_stream.specs.Standing.{known};

use crate::draw::Drawing;
use crate::files::FilesUnder;
use crate::html;
use crate::input::draw_input;
use crate::look::{ReportRenderer, renderer_for};
use crate::page::Page;
use crate::write::pass;
use output_stream::Stream;
use program::inputs::{STANDARD_INPUT, input_name, opened};
use redraw_command::arguments::{RedrawRequest, matches_of, request_of};
use redraw_command::choice::{Choice, shown_from};
use redraw_command::relative::folder_of;
use redraw_command::seen::{Names, SeenDiagnostics};
use redraw_command::stop::Stop;
use redraw_command::tally::{CLEAN, FAILED, Summary, Tally};
use redraw_command::tell::{tell, tell_error, tell_memory};
use redraw_command::terminal::Surroundings;
use redraw_read::sources::{SourceFiles, Sources};
use std::alloc::{AllocError, Global};
use std::cell::Cell;
use std::io::{self, BufRead, Write};
use std::rt::Files;

/// Runs what the arguments ask for, and answers the status to end with.
pub fn run<'w, R: Files + Input + AllocGlobal, W: Write, V: Write>(
    rt: &R,
    args: &'w [&'w str],
    around: Surroundings<'w>,
    out: &mut Stream<W>,
    err: &mut Stream<V>,
) -> u8
    ensures status { result ≤ 2 }
    ensures answers { Answers (held_by R.File.remaining R.Reader.remaining) (arguments_at args.now) around.entry
        (known W.contents out.old) (known V.contents err.old) (known W.contents out.new) (known V.contents err.new)
        result }
{
    match matches_of(rt.alloc(), args) {
        Ok(matches) => draw_all(rt, request_of(&matches), around, out, err),
        Err(error) => answer_error(rt.alloc(), args, &error, out, err),
    }
}

/// Writes the help or the version, or what is wrong with the arguments.
fn answer_error<W: Write, V: Write>(
    alloc: Global,
    args: &[&str],
    error: &clap::Error,
    out: &mut Stream<W>,
    err: &mut Stream<V>,
) -> u8
    ensures usage_error { kind_of error.now ≢ kind.DisplayHelp → kind_of error.now ≢ kind.DisplayVersion
        → (result ≡ 2) × (out.new ≡ out.old) }
    ensures told { kind_of error.now ≢ kind.DisplayHelp → kind_of error.now ≢ kind.DisplayVersion
        → TellsOfArguments (known V.contents err.old) (known V.contents err.new) }
    ensures memory { kind_of error.now ≡ kind.OutOfMemory
        → TellsMemory (known V.contents err.old) (known V.contents err.new) }
    ensures status { result ≤ 2 }
    ensures asked { (kind_of error.now ≡ kind.DisplayHelp) ⊎ (kind_of error.now ≡ kind.DisplayVersion) → err.new
        ≡ err.old }
    ensures printed { (kind_of error.now ≡ kind.DisplayHelp) ⊎ (kind_of error.now ≡ kind.DisplayVersion)
        → IsTextPrinted (known W.contents out.old) (known W.contents out.new) result }
{
    if error.use_stderr() {
        tell_error(alloc, args, error, err);
        return FAILED;
    }
    print_error(alloc, error, out)
}

/// Prints the help or the version.
fn print_error<W: Write>(alloc: Global, error: &clap::Error, out: &mut Stream<W>) -> u8
    ensures printed { IsTextPrinted (known W.contents out.old) (known W.contents out.new) result }
    ensures status { result ≤ 2 }
{
    match format!(in alloc; "{error}") {
        Ok(text) => print_text(text.as_str(), out),
        Err(AllocError) => FAILED,
    }
}

/// Prints a text.
fn print_text<W: Write>(text: &str, out: &mut Stream<W>) -> u8
    ensures printed { IsTextPrinted (known W.contents out.old) (known W.contents out.new) result }
    ensures status { result ≤ 2 }
{
    match pass(text.as_bytes(), out) {
        Ok(()) => CLEAN,
        Err(_) => FAILED,
    }
}

/// Draws what is asked for, and answers the status to end with.
fn draw_all<'w, R: Files + Input + AllocGlobal, W: Write, V: Write>(
    rt: &R,
    request: RedrawRequest<'_, 'w>,
    around: Surroundings<'w>,
    out: &mut Stream<W>,
    err: &mut Stream<V>,
) -> u8
    ensures status { result ≤ 2 }
    ensures draws { Draws (held_by R.File.remaining R.Reader.remaining) request.entry around.entry
        (known W.contents out.old) (known V.contents err.old) (known W.contents out.new) (known V.contents err.new)
        result }
{
    let alloc = rt.alloc();
    let Ok(folder) = folder_of(alloc, request.root, around) else {
        tell_memory(err);
        return FAILED;
    };
    let choice = Choice {
        folder: shown_from(request.choice.form, &folder),
        ..request.choice
    };
    let outside = Cell::new(0);
    // A line that names a file elsewhere passes through, and isn't counted.
    let unheard = Cell::new(0);
    let mut drawing = begun(
        alloc,
        renderer_for(&request.look, around),
        choice,
        FilesUnder::for_lines(rt, &request, &outside),
        FilesUnder::for_logs(rt, &request, &outside),
        FilesUnder::for_lines(rt, &request, &unheard),
    );
    draw_to_end(rt, request.inputs, &mut drawing, &outside, out, err)
}

/// What is drawn from, where nothing is drawn yet. Lines and logs name the files that are read; of the last ones it is
/// asked whether one is at hand.
fn begun<'w, S: SourceFiles + Drop>(
    alloc: Global,
    renderer: ReportRenderer,
    choice: Choice<'w>,
    line_files: S,
    log_files: S,
    asked_files: S,
) -> Drawing<'w, S>
    ensures looks { result.renderer ≡ renderer }
    ensures takes { result.choice ≡ choice.entry }
    ensures uncounted { result.tally ≡ no_tally }
{
    Drawing {
        alloc,
        renderer,
        choice,
        sources: Sources::new(alloc, line_files),
        log_sources: Sources::new(alloc, log_files),
        line_files: asked_files,
        tally: Tally::new(),
        seen: SeenDiagnostics::new(alloc),
        files: Names::new(alloc),
        page: Page::new(alloc),
        input: STANDARD_INPUT,
        line: 0,
        own_text: None,
    }
}

/// Draws what each input holds, sums it up with how many files weren't read since they lie outside the folder, and
/// answers the status to end with.
fn draw_to_end<'r, R: Files + Input + AllocGlobal, S: SourceFiles + Drop, W: Write, V: Write>(
    rt: &R,
    names: Option<&[&'r str]>,
    drawing: &mut Drawing<'r, S>,
    outside: &Cell<u64>,
    out: &mut Stream<W>,
    err: &mut Stream<V>,
) -> u8
    ensures status { result ≤ 2 }
    ensures runs { Runs (held_by R.File.remaining R.Reader.remaining) (spec.asked_names names.entry)
        (standing drawing.old (known W.contents out.old) (known V.contents err.old))
        (known W.contents out.new) (known V.contents err.new) result }
{
    match draw_document(rt, names, drawing, out, err) {
        Ok(is_whole) => finish(
            drawing.alloc,
            Summary {
                tally: drawing.tally,
                form: drawing.choice.form,
                outside: outside.get(),
            },
            drawing.choice.is_quiet,
            is_whole,
            err,
        ),
        Err(error) => end_unwritten(drawing.alloc, error, err),
    }
}

/// Draws what each input holds, in HTML between what a document begins and ends with, and answers whether all of it
/// could be read and is of a form that is known. It stops where nothing can be written.
fn draw_document<'r, R: Files + Input + AllocGlobal, S: SourceFiles + Drop, W: Write, V: Write>(
    rt: &R,
    names: Option<&[&'r str]>,
    drawing: &mut Drawing<'r, S>,
    out: &mut Stream<W>,
    err: &mut Stream<V>,
) -> io::Result<bool>
    ensures drawn { IfOk result (λ is_whole. AreInputsPrinted R.File R.Reader
        (held_by R.File.remaining R.Reader.remaining) (spec.asked_names names.entry) is_whole
        (standing drawing.old (known W.contents out.old) (known V.contents err.old))
        (standing drawing.new (known W.contents out.new) (known V.contents err.new))) }
    ensures cut { IfErr result (λ error. ArePartlyPrinted (held_by R.File.remaining R.Reader.remaining)
        (spec.asked_names names.entry)
        (standing drawing.old (known W.contents out.old) (known V.contents err.old))
        (standing drawing.new (known W.contents out.new) (known V.contents err.new))) }
{
    let markup = drawing.renderer.markup;
    html::begin(markup, out)?;
    let is_whole = draw_inputs(rt, names, drawing, out, err)?;
    html::end(markup, &drawing.page, &drawing.tally, out)?;
    Ok(is_whole)
}

/// Draws what each input holds, or standard input where there are none, and answers whether all of it could be read and
/// is of a form that is known. It stops where nothing can be written.
fn draw_inputs<'r, R: Files + Input + AllocGlobal, S: SourceFiles + Drop, W: Write, V: Write>(
    rt: &R,
    names: Option<&[&'r str]>,
    drawing: &mut Drawing<'r, S>,
    out: &mut Stream<W>,
    err: &mut Stream<V>,
) -> io::Result<bool>
    ensures drawn { IfOk result (λ is_whole. AreDrawn R.File R.Reader (held_by R.File.remaining R.Reader.remaining)
        (spec.asked_names names.entry) is_whole
        (standing drawing.old (known W.contents out.old) (known V.contents err.old))
        (standing drawing.new (known W.contents out.new) (known V.contents err.new))) }
    ensures cut { IfErr result (λ error. AreCut R.File R.Reader (held_by R.File.remaining R.Reader.remaining)
        (spec.asked_names names.entry)
        (standing drawing.old (known W.contents out.old) (known V.contents err.old))
        (standing drawing.new (known W.contents out.new) (known V.contents err.new))) }
{
    draw_each(rt, asked_names(names), drawing, out, err)
}

/// The names of the inputs that are to be read: those that are given, or that of standard input where none is.
fn asked_names<'w, 'r>(names: Option<&'w [&'r str]>) -> &'w [&'r str]
    ensures value { map (λ name. name.now) result.now ≡ spec.asked_names names.entry }
{
    match names {
        Some(names) => { if names.is_empty() { &["-"] } else { names } }
        None => &["-"],
    }
}

/// Draws what the inputs of these names hold.
fn draw_each<'r, R: Files + Input + AllocGlobal, S: SourceFiles + Drop, W: Write, V: Write>(
    rt: &R,
    names: &[&'r str],
    drawing: &mut Drawing<'r, S>,
    out: &mut Stream<W>,
    err: &mut Stream<V>,
) -> io::Result<bool>
    ensures drawn { IfOk result (λ is_whole. AreDrawn R.File R.Reader (held_by R.File.remaining R.Reader.remaining)
        (map (λ name. name.now) names.now) is_whole
        (standing drawing.old (known W.contents out.old) (known V.contents err.old))
        (standing drawing.new (known W.contents out.new) (known V.contents err.new))) }
    ensures cut { IfErr result (λ error. AreCut R.File R.Reader (held_by R.File.remaining R.Reader.remaining)
        (map (λ name. name.now) names.now)
        (standing drawing.old (known W.contents out.old) (known V.contents err.old))
        (standing drawing.new (known W.contents out.new) (known V.contents err.new))) }
{
    let mut is_whole = true;
    for name in names {
        let is_known = draw_named(rt, *name, drawing, out, err)?;
        is_whole = both(is_known, is_whole);
    }
    Ok(is_whole)
}

/// Whether both hold. It is a function for the prover alone.
fn both(one: bool, other: bool) -> bool
    ensures value { result ≡ one && other }
{
    one && other
}

/// Draws what one input holds, by its name.
fn draw_named<'r, R: Files + Input + AllocGlobal, S: SourceFiles + Drop, W: Write, V: Write>(
    rt: &R,
    name: &'r str,
    drawing: &mut Drawing<'r, S>,
    out: &mut Stream<W>,
    err: &mut Stream<V>,
) -> io::Result<bool>
    ensures drawn { IfOk result (λ is_whole. IsDrawnOf
        (held_by R.File.remaining R.Reader.remaining) name.now is_whole
        (standing drawing.old (known W.contents out.old) (known V.contents err.old))
        (standing drawing.new (known W.contents out.new) (known V.contents err.new))) }
    ensures cut { IfErr result (λ error. IsInputCut
        (held_by R.File.remaining R.Reader.remaining) name.now
        (standing drawing.old (known W.contents out.old) (known V.contents err.old))
        (standing drawing.new (known W.contents out.new) (known V.contents err.new))) }
{
    drawing.input = input_name(name);
    draw_opened(opened(rt, name), drawing, out, err)
}

/// Draws what an input holds that could be opened or not.
pub fn draw_opened<B: BufRead + Drop, S: SourceFiles + Drop, W: Write, V: Write>(
    input: io::Result<B>,
    drawing: &mut Drawing<'_, S>,
    out: &mut Stream<W>,
    err: &mut Stream<V>,
) -> io::Result<bool>
    ensures drawn { IfOk result (λ is_whole. IsDrawnFrom (held_in B.remaining input) is_whole
        (standing drawing.old (known W.contents out.old) (known V.contents err.old))
        (standing drawing.new (known W.contents out.new) (known V.contents err.new))) }
    ensures cut { IfErr result (λ error. IsCutFrom (held_in B.remaining input)
        (standing drawing.old (known W.contents out.old) (known V.contents err.old))
        (standing drawing.new (known W.contents out.new) (known V.contents err.new))) }
{
    drawing.line = 0;
    match input {
        Ok(input) => end_input(draw_input(input, drawing, out, err), drawing, err),
        Err(error) => end_input(Err(Stop::Unreadable(error)), drawing, err),
    }
}

/// Answers whether all of an input could be read and is of a form that is known, and tells why it couldn't be. What
/// couldn't be written isn't told.
fn end_input<S: SourceFiles + Drop, V: Write>(
    drawn: Result<bool, Stop>,
    drawing: &Drawing<'_, S>,
    err: &mut Stream<V>,
) -> io::Result<bool>
    ensures ends { EndsInput drawn result (known V.contents err.old) (known V.contents err.new) }
{
    match drawn {
        Ok(is_known) => Ok(is_known),
        Err(Stop::Unwritable(error)) => Err(error),
        Err(stop) => {
            drawing.tell(stop, err);
            Ok(false)
        }
    }
}

/// Tells why nothing can be written, unless whoever read it has closed the pipe, and answers the status to end with.
fn end_unwritten<V: Write>(alloc: Global, error: io::Error, err: &mut Stream<V>) -> u8
    ensures status { result ≡ 2 }
    ensures silent { error_kind error ≡ BrokenPipe → err.new ≡ err.old }
    ensures told { (error_kind error ≡ BrokenPipe) ⊎ Tells (known V.contents err.old) (known V.contents err.new) }
{
    if error.kind() == io::ErrorKind::BrokenPipe {
        return FAILED;
    }
    tell(alloc, Stop::Unwritable(error), err);
    FAILED
}

/// Sums up what was drawn, and answers the status to end with.
fn finish<V: Write>(
    alloc: Global,
    summary: Summary,
    is_quiet: bool,
    is_whole: bool,
    err: &mut Stream<V>,
) -> u8
    ensures status { result ≡ tally_status summary.form summary.tally is_whole }
    ensures quiet { is_quiet ≡ true → err.new ≡ err.old }
    ensures last { SumsUp is_quiet summary.tally (known V.contents err.old) (known V.contents err.new) }
{
    let tally = summary.tally;
    if has_no_sum(&tally, is_quiet) {
        return tally.status(summary.form, is_whole);
    }
    tell(alloc, summary, err);
    tally.status(summary.form, is_whole)
}

/// Whether nothing is summed up: that isn't wanted, or there is nothing to tell.
fn has_no_sum(tally: &Tally, is_quiet: bool) -> bool
    ensures value { result ≡ is_quiet || is_empty tally.now }
{
    is_quiet || tally.is_empty()
}
