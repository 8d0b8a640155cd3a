//! An input, read piece by piece. Nothing of a piece is kept when the next is read.
ghost use Rattle.std.specs.Prelude.{◌≡◌, ◌||◌, not, ℕ, List, false, true, IfErr, OnErr, OnOk};
ghost use Rattle.json_lines.specs.Cut.{IsCutOf};
ghost use Rattle.serde_json.specs.Data.{Data};
ghost use Rattle.serde_json.specs.View.{view};
ghost use Rattle.redraw_command.specs.Line.{begins_utf16};
ghost use Rattle.redraw_command.specs.LookAhead.{left_of};
ghost use Rattle.redraw_run.specs.Deeds.{Does, Happens, standing};
ghost use Rattle.redraw_run.specs.Fates.{Each, Halts, IsEnd, IsFateOfPiece, IsHandedOn, IsInput, IsKnown, IsUnknown};
ghost use Rattle.redraw_run.specs.Fates.{IsCutLog, IsList, IsValue};
ghost use Rattle.redraw_run.specs.Pieces.{IsOfForm};
ghost use Rattle.redraw_run.specs.ReadLines.{AreAllOf, AreFirstOf, TellsUnless};
ghost use Rattle.output_stream.specs.Standing.{Standing, known};

use crate::draw::Drawing;
use crate::kind::{Kind, eslint_files, kind_of};
use crate::lines::draw_lines;
use crate::piece::{Form, JsonReader};
use crate::report::{
    cargo_message, cut_sarif_log, eslint_log, lsp_document, lsp_notification, rustc_diagnostic,
    sarif_log,
};
use json_lines::cut::CutLog;
use json_lines::node::Node;
use json_lines::place::JsonPath;
use memchr::memchr;
use output_stream::Stream;
use redraw_command::ahead::Ahead;
use redraw_command::line::{is_utf16, mark_length};
use redraw_command::stop::Stop;
use redraw_read::sources::SourceFiles;
use serde_json::Value;
use std::alloc::Global;
use std::io::{BufRead, Write};

/// What an input has been so far.
#[derive(Drop)]
pub struct Reading {
    alloc: Global,
    /// Whether something in it was of a form that is known.
    pub is_known: bool,
    /// Whether there was an object of JSON, or a line that begins as one does and isn't UTF-8.
    has_objects: bool,
    /// Whether there was something else that isn't blank.
    has_others: bool,
    /// The number of the line that comes next, from 1.
    line: u64,
}

impl Reading {
    /// Nothing has been read. Where lines of compilers are read too, any line is of a form that is known.
    pub fn new(alloc: Global, reads_lines: bool) -> Reading {
        Reading {
            alloc,
            is_known: reads_lines,
            has_objects: reads_lines,
            has_others: false,
            line: 1,
        }
    }

    /// Takes a piece of this form. What is told of one that is on one line, or is the lines of a finding, gives the
    /// number of its first line; of a document of several lines, the way to a part does.
    fn piece<S: SourceFiles + Drop, W: Write, V: Write>(
        &mut self,
        bytes: &[u8],
        form: Form,
        drawing: &mut Drawing<'_, S>,
        out: &mut Stream<W>,
        err: &mut Stream<V>,
    ) -> Result<(), Stop>
        ensures does { IsOfForm bytes.now form → Happens result (IsFateOfPiece bytes.now)
            (standing drawing.old (known W.contents out.old) (known V.contents err.old))
            (standing drawing.new (known W.contents out.new) (known V.contents err.new)) }
    {
        let has_number = is_on_one_line(bytes) || matches!(&form, Form::Finding);
        drawing.line = if has_number { self.line } else { 0 };
        self.line = self.line.saturating_add(line_feeds(bytes));
        self.by_form(bytes, form, drawing, out, err)
    }

    /// Takes a piece by its form.
    fn by_form<S: SourceFiles + Drop, W: Write, V: Write>(
        &mut self,
        bytes: &[u8],
        form: Form,
        drawing: &mut Drawing<'_, S>,
        out: &mut Stream<W>,
        err: &mut Stream<V>,
    ) -> Result<(), Stop>
        ensures does { IsOfForm bytes.now form → Happens result (IsFateOfPiece bytes.now)
            (standing drawing.old (known W.contents out.old) (known V.contents err.old))
            (standing drawing.new (known W.contents out.new) (known V.contents err.new)) }
    {
        match form {
            Form::Object(value) => self.value(&value, bytes, drawing, out, err),
            Form::Log(log) => self.log(&log, bytes, drawing, out, err),
            Form::Undecoded => {
                self.has_objects = true;
                drawing.wrong("not valid UTF-8", err);
                Ok(())
            }
            Form::Blank => drawing.hand_on(bytes, out),
            Form::List(value) => self.list(&value, bytes, drawing, out, err),
            Form::Begins => self.other(bytes, drawing, out),
            Form::Finding => draw_lines(bytes, drawing, out, err),
            Form::Other => self.other(bytes, drawing, out),
        }
    }

    /// Hands on a piece that is no object and isn't blank.
    fn other<S: SourceFiles + Drop, W: Write>(
        &mut self,
        bytes: &[u8],
        drawing: &Drawing<'_, S>,
        out: &mut Stream<W>,
    ) -> Result<(), Stop>
        ensures does { (err : Standing) → Happens result (IsHandedOn bytes.now)
            (standing drawing.now (known W.contents out.old) err)
            (standing drawing.now (known W.contents out.new) err) }
    {
        self.has_others = true;
        drawing.hand_on(bytes, out)
    }

    /// Tells, at the end of an input, that nothing in it begins as an object does, if something in it isn't blank.
    pub fn end<S: SourceFiles + Drop, V: Write>(
        &self,
        drawing: &mut Drawing<'_, S>,
        err: &mut Stream<V>,
    )
        ensures does { (out : Standing) → Does IsEnd
            (standing drawing.old out (known V.contents err.old))
            (standing drawing.new out (known V.contents err.new)) }
        ensures one { TellsUnless (self.now.has_objects || not self.now.has_others) (known V.contents err.old)
            (known V.contents err.new) }
    {
        let is_unknown = self.has_others && !self.has_objects;
        if is_unknown {
            drawing.tell(
                "nothing in it is a message of rustc or cargo or a SARIF log",
                err,
            );
        }
    }

    /// Takes a log without its results, which stand in this piece.
    fn log<S: SourceFiles + Drop, W: Write, V: Write>(
        &mut self,
        log: &CutLog,
        piece: &[u8],
        drawing: &mut Drawing<'_, S>,
        out: &mut Stream<W>,
        err: &mut Stream<V>,
    ) -> Result<(), Stop>
        ensures does { (d : Data) → IsCutOf d log.now → Happens result (IsCutLog piece.now d)
            (standing drawing.old (known W.contents out.old) (known V.contents err.old))
            (standing drawing.new (known W.contents out.new) (known V.contents err.new)) }
    {
        self.has_objects = true;
        self.is_known = true;
        let text = &piece[mark_length(piece, true)..];
        cut_sarif_log(log, text, drawing, out, err)
    }

    /// Takes a list, which this piece is: ESLint's log is drawn, and any other is handed on.
    fn list<S: SourceFiles + Drop, W: Write, V: Write>(
        &mut self,
        value: &Value,
        piece: &[u8],
        drawing: &mut Drawing<'_, S>,
        out: &mut Stream<W>,
        err: &mut Stream<V>,
    ) -> Result<(), Stop>
        ensures does { Happens result (IsList piece.now (view value.now))
            (standing drawing.old (known W.contents out.old) (known V.contents err.old))
            (standing drawing.new (known W.contents out.new) (known V.contents err.new)) }
    {
        match eslint_files(value) {
            Some(files) => {
                self.is_known = true;
                self.has_objects = true;
                eslint_log(files, drawing, out, err)
            }
            None => self.other(piece, drawing, out),
        }
    }

    /// Takes a value of JSON, which this piece is.
    fn value<S: SourceFiles + Drop, W: Write, V: Write>(
        &mut self,
        value: &Value,
        piece: &[u8],
        drawing: &mut Drawing<'_, S>,
        out: &mut Stream<W>,
        err: &mut Stream<V>,
    ) -> Result<(), Stop>
        ensures does { Happens result (IsValue piece.now (view value.now))
            (standing drawing.old (known W.contents out.old) (known V.contents err.old))
            (standing drawing.new (known W.contents out.new) (known V.contents err.new)) }
    {
        self.has_objects = true;
        match kind_of(value) {
            Some(kind) => {
                self.is_known = true;
                self.known(kind, value, drawing, out, err)
            }
            None => self.unknown(piece, drawing, out, err),
        }
    }

    /// Takes a value of JSON of no known form. Such a piece after one that is of one is handed on: what else writes
    /// there may write JSON too.
    fn unknown<S: SourceFiles + Drop, W: Write, V: Write>(
        &self,
        piece: &[u8],
        drawing: &mut Drawing<'_, S>,
        out: &mut Stream<W>,
        err: &mut Stream<V>,
    ) -> Result<(), Stop>
        ensures does { Happens result (IsUnknown piece.now)
            (standing drawing.old (known W.contents out.old) (known V.contents err.old))
            (standing drawing.new (known W.contents out.new) (known V.contents err.new)) }
    {
        if self.is_known {
            drawing.hand_on(piece, out)
        } else {
            drawing.wrong("neither a message of rustc or cargo nor a SARIF log", err);
            Ok(())
        }
    }

    /// Takes a value of JSON of a known kind.
    fn known<S: SourceFiles + Drop, W: Write, V: Write>(
        &mut self,
        kind: Kind,
        value: &Value,
        drawing: &mut Drawing<'_, S>,
        out: &mut Stream<W>,
        err: &mut Stream<V>,
    ) -> Result<(), Stop>
        ensures does { Happens result (IsKnown kind (view value.now))
            (standing drawing.old (known W.contents out.old) (known V.contents err.old))
            (standing drawing.new (known W.contents out.new) (known V.contents err.new)) }
    {
        let node = Node {
            alloc: self.alloc,
            value,
            place: JsonPath::Line,
        };
        match kind {
            Kind::Rustc => rustc_diagnostic(&node, drawing, out, err),
            Kind::Cargo => cargo_message(&node, drawing, out, err),
            Kind::Failed => {
                drawing.tally.has_failed = true;
                Ok(())
            }
            Kind::Other => Ok(()),
            Kind::Sarif => sarif_log(&node, drawing, out, err),
            Kind::Lsp => lsp_document(value, JsonPath::Document, drawing, out, err),
            Kind::LspNotification => lsp_notification(value, drawing, out, err),
        }
    }
}

/// Whether some bytes are a line, or a part of one.
fn is_on_one_line(bytes: &[u8]) -> bool {
    match memchr(b'\n', bytes) {
        Some(at) => at + 1 == bytes.len(),
        None => true,
    }
}

/// How many line feeds some bytes hold. Most pieces are lines, of which only the end is looked for.
fn line_feeds(bytes: &[u8]) -> u64 {
    if is_on_one_line(bytes) {
        return u64::from(bytes.ends_with(b"\n"));
    }
    let mut count: u64 = 0;
    for byte in bytes {
        count = count.saturating_add(u64::from(*byte == b'\n'));
    }
    count
}

/// Draws what an input holds, each piece before the next is waited for, and answers whether it is of a form that is
/// known, or empty.
pub fn draw_input<B: BufRead + Drop, S: SourceFiles + Drop, W: Write, V: Write>(
    input: B,
    drawing: &mut Drawing<'_, S>,
    out: &mut Stream<W>,
    err: &mut Stream<V>,
) -> Result<bool, Stop>
    ensures reads { OnOk result ((pieces : List (List ℕ)) × AreAllOf (B.remaining input) pieces × Does (IsInput pieces)
        (standing drawing.old (known W.contents out.old) (known V.contents err.old))
        (standing drawing.new (known W.contents out.new) (known V.contents err.new))) }
    ensures halts { IfErr result (λ stop. (pieces : List (List ℕ)) × AreFirstOf (B.remaining input) pieces
        × Halts stop pieces (standing drawing.old (known W.contents out.old) (known V.contents err.old))
        (standing drawing.new (known W.contents out.new) (known V.contents err.new))) }
{
    let mut ahead = Ahead::new(drawing.alloc, input);
    let count = ahead.line()?;
    drawing.line = 1;
    refuse_utf16(ahead.front(count))?;
    let mut reading = Reading::new(drawing.alloc, drawing.choice.reads_lines);
    draw_pieces(&mut ahead, &mut reading, drawing, out, err)?;
    drawing.line = 0;
    reading.end(drawing, err);
    Ok(reading.is_known || !(reading.has_objects || reading.has_others))
}

/// Refuses an input whose first line is this, if it is written in UTF-16.
fn refuse_utf16(line: &[u8]) -> Result<(), Stop>
    ensures taken { OnOk result (begins_utf16 line.now ≡ false) }
    ensures refused { OnErr result (begins_utf16 line.now ≡ true) }
    ensures stop { IfErr result (λ stop. stop ≡ Stop.Utf16) }
{
    if is_utf16(line) {
        Err(Stop::Utf16)
    } else {
        Ok(())
    }
}

/// Takes the pieces of an input, each before the next is waited for.
fn draw_pieces<B: BufRead + Drop, S: SourceFiles + Drop, W: Write, V: Write>(
    ahead: &mut Ahead<B>,
    reading: &mut Reading,
    drawing: &mut Drawing<'_, S>,
    out: &mut Stream<W>,
    err: &mut Stream<V>,
) -> Result<(), Stop>
    ensures reads { OnOk result ((pieces : List (List ℕ)) × AreAllOf (left_of B.remaining ahead.old) pieces
        × Does (Each IsFateOfPiece pieces)
        (standing drawing.old (known W.contents out.old) (known V.contents err.old))
        (standing drawing.new (known W.contents out.new) (known V.contents err.new))) }
    ensures halts { IfErr result (λ stop. (pieces : List (List ℕ)) × AreFirstOf (left_of B.remaining ahead.old) pieces
        × Halts stop pieces (standing drawing.old (known W.contents out.old) (known V.contents err.old))
        (standing drawing.new (known W.contents out.new) (known V.contents err.new))) }
{
    let mut reader = JsonReader::new(drawing.alloc, drawing.choice.reads_lines);
    for number in 1..u64::MAX {
        let next = reader.next_piece(ahead, number == 1)?;
        match next {
            Some(found) => {
                let count = found.count;
                reading.piece(ahead.front(count), found.form, drawing, out, err)?;
                ahead.take(count);
            }
            None => return Ok(()),
        }
    }
    Ok(())
}
