//! The pieces of an input: its lines, and the documents that are more than one of them, or a part of one.
ghost use Rattle.std.specs.Prelude.{◌≡◌, ◌≤◌, ℕ, List, Option, Some, true, IfOk, IfErr, IfSome, OnOk, length};
ghost use Rattle.std.specs.Io.KnownBytes.{Keeps};
ghost use Rattle.redraw_command.specs.Halt.{IsHalt};
ghost use Rattle.redraw_command.specs.Line.{begins_object, first_of};
ghost use Rattle.redraw_command.specs.LookAhead.{ahead_of, left_of};
ghost use Rattle.redraw_run.specs.Pieces.{Grows, IsNextPiece, IsOfForm, IsOther, IsPieceAhead, IsReadAs};
ghost use Rattle.redraw_run.specs.ReadLines.{IsDocument};

use crate::finding_rows::{are_of_finding, end_of_finding};
use crate::json_value::{cut_of, json_of};
use json::Scratch;
use json_lines::cut::CutLog;
use redraw_command::ahead::Ahead;
use redraw_command::line::{Line, line_of, mark_length};
use redraw_command::scanner::{Scan, Scanner};
use redraw_command::stop::Stop;
use redraw_tools::lines::begins_finding;
use serde_json::Value;
use std::alloc::{AllocError, Global};
use std::io::BufRead;

/// What a piece is.
#[derive(Drop)]
pub enum Form {
    /// An object of JSON.
    Object(Value),
    /// A log, an object of JSON, without its results.
    Log(CutLog),
    /// A list of JSON.
    List(Value),
    /// It begins as an object does, and isn't UTF-8.
    Undecoded,
    /// It is nothing but blanks.
    Blank,
    /// It is no value, and a document may begin with it.
    Begins,
    /// The first of its lines tells of a finding, and the others belong to that.
    Finding,
    /// It is none of the program's business.
    Other,
}

/// A piece that is ahead.
#[derive(Drop)]
pub struct Piece {
    /// How many bytes it has.
    pub count: usize,
    pub form: Form,
}

/// What values of JSON are read in.
#[derive(Drop)]
pub struct JsonReader {
    alloc: Global,
    /// It is kept from piece to piece.
    scratch: Scratch,
    /// Whether lines of compilers are read too.
    reads_lines: bool,
}

impl JsonReader {
    /// Nothing has been read.
    pub fn new(alloc: Global, reads_lines: bool) -> JsonReader {
        JsonReader {
            alloc,
            scratch: Scratch::new(alloc),
            reads_lines,
        }
    }

    /// The next piece of an input, the first or another; none where the input ends. After a document on the same line
    /// another is looked for at once, since that line may hold many.
    pub fn next_piece<B: BufRead + Drop>(
        &mut self,
        ahead: &mut Ahead<B>,
        is_first: bool,
    ) -> Result<Option<Piece>, Stop>
        ensures found { IfOk result (λ found. IsNextPiece (left_of B.remaining ahead.old) (ahead_of ahead.new) found) }
        ensures kept { OnOk result (Keeps (left_of B.remaining ahead.old) (left_of B.remaining ahead.new)) }
        ensures stops { IfErr result IsHalt }
    {
        if !ahead.is_within_line() {
            return self.line(ahead, is_first);
        }
        match self.document(ahead, is_first)? {
            Some(piece) => Ok(Some(piece)),
            None => self.line(ahead, is_first),
        }
    }

    /// The next line, or the document that begins with it.
    fn line<B: BufRead + Drop>(
        &mut self,
        ahead: &mut Ahead<B>,
        is_first: bool,
    ) -> Result<Option<Piece>, Stop>
        ensures found { IfOk result (λ found. IsNextPiece (left_of B.remaining ahead.old) (ahead_of ahead.new) found) }
        ensures kept { OnOk result (Keeps (left_of B.remaining ahead.old) (left_of B.remaining ahead.new)) }
        ensures stops { IfErr result IsHalt }
    {
        let count = ahead.line()?;
        if count == 0 {
            return Ok(None);
        }
        let form = self.form_of(ahead.front(count), is_first)?;
        let piece = self.whole(Piece { count, form }, ahead, is_first)?;
        Ok(Some(piece))
    }

    /// The document that begins with this line, or the lines of the finding that it tells of; else the line.
    fn whole<B: BufRead + Drop>(
        &mut self,
        line: Piece,
        ahead: &mut Ahead<B>,
        is_first: bool,
    ) -> Result<Piece, Stop>
        requires { line.count ≤ length (ahead_of ahead.old) }
        ensures found { (left : Option (List ℕ)) → IsPieceAhead left (ahead_of ahead.old) line
            → IfOk result (λ piece. IsPieceAhead left (ahead_of ahead.new) piece) }
        ensures kept { OnOk result (Keeps (left_of B.remaining ahead.old) (left_of B.remaining ahead.new)) }
        ensures stops { IfErr result IsHalt }
    {
        if self.reads_lines && matches!(line.form, Form::Other) {
            return with_rows(line, ahead);
        }
        if !matches!(line.form, Form::Begins) {
            return Ok(line);
        }
        match self.document(ahead, is_first)? {
            Some(piece) => Ok(piece),
            None => Ok(line),
        }
    }

    /// The document that comes next, if there is one.
    fn document<B: BufRead + Drop>(
        &mut self,
        ahead: &mut Ahead<B>,
        is_first: bool,
    ) -> Result<Option<Piece>, Stop>
        ensures found { IfOk result (λ found. IfSome found (λ piece. (left : Option (List ℕ))
            → IsPieceAhead left (ahead_of ahead.new) piece)) }
        ensures kept { OnOk result (Keeps (left_of B.remaining ahead.old) (left_of B.remaining ahead.new)) }
        ensures grows { OnOk result (Grows (ahead_of ahead.old) (ahead_of ahead.new)) }
        ensures stops { IfErr result IsHalt }
    {
        match end_of_document(ahead, is_first)? {
            Some(count) => {
                let form = self.form_of(ahead.front(count), is_first)?;
                Ok(document_of(count, form))
            }
            None => Ok(None),
        }
    }

    /// What these bytes are by themselves.
    fn form_of(&mut self, bytes: &[u8], is_first: bool) -> Result<Form, AllocError>
        ensures form { IfOk result (λ form. IsOfForm bytes.now form) }
    {
        match line_of(bytes, is_first) {
            Line::Object(text) => self.object(text),
            Line::List(text) => self.list(text),
            Line::Undecoded => Ok(Form::Undecoded),
            Line::Blank => Ok(Form::Blank),
            Line::Other => Ok(Form::Other),
        }
    }

    /// What a text is that begins as an object does.
    fn object(&mut self, text: &str) -> Result<Form, AllocError>
        ensures form { begins_object text.now ≡ true → IfOk result (λ form. IsReadAs text.now form) }
    {
        match cut_of(self.alloc, text)? {
            Some(log) => Ok(Form::Log(log)),
            None => self.whole_object(text),
        }
    }

    /// What a text is that begins as an object does, where all of its value is kept.
    fn whole_object(&mut self, text: &str) -> Result<Form, AllocError>
        ensures form { begins_object text.now ≡ true → IfOk result (λ form. IsReadAs text.now form) }
    {
        let read = json_of(self.alloc, text, &mut self.scratch)?;
        match read {
            Ok(value) => Ok(Form::Object(value)),
            Err(_) => Ok(unread(text.starts_with('{'))),
        }
    }

    /// What a text is that begins as a list does.
    fn list(&mut self, text: &str) -> Result<Form, AllocError>
        ensures form { first_of text.now ≡ Some 91 → IfOk result (λ form. IsReadAs text.now form) }
    {
        let read = json_of(self.alloc, text, &mut self.scratch)?;
        match read {
            Ok(value) => Ok(Form::List(value)),
            Err(_) => Ok(unread(text.starts_with('['))),
        }
    }
}

/// A line with those after it that belong to what it tells of, if it tells of a finding; else the line.
fn with_rows<B: BufRead + Drop>(line: Piece, ahead: &mut Ahead<B>) -> Result<Piece, Stop>
    requires { line.count ≤ length (ahead_of ahead.old) }
    ensures found { (left : Option (List ℕ)) → IsPieceAhead left (ahead_of ahead.old) line
        → IfOk result (λ piece. IsPieceAhead left (ahead_of ahead.new) piece) }
    ensures kept { OnOk result (Keeps (left_of B.remaining ahead.old) (left_of B.remaining ahead.new)) }
    ensures stops { IfErr result IsHalt }
{
    if !begins_finding(ahead.front(line.count)) {
        return Ok(line);
    }
    let count = end_of_finding(ahead, line.count)?;
    if are_of_finding(ahead.front(count)) {
        Ok(Piece {
            count,
            form: Form::Finding,
        })
    } else {
        Ok(line)
    }
}

/// What a text is that is no value, and begins with a bracket or with blanks before one.
fn unread(begins: bool) -> Form
    ensures form { (text : List ℕ) → IsOther text → IsReadAs text result }
{
    if begins { Form::Begins } else { Form::Other }
}

/// So many bytes of this form, if it is that of a value.
fn document_of(count: usize, form: Form) -> Option<Piece>
    ensures document { (bytes : List ℕ) → IsOfForm bytes form → IfSome result (λ piece.
        (piece.count ≡ count) × IsOfForm bytes piece.form × IsDocument bytes) }
{
    match form {
        Form::Object(value) => Some(Piece {
            count,
            form: Form::Object(value),
        }),
        Form::Log(log) => Some(Piece {
            count,
            form: Form::Log(log),
        }),
        Form::List(value) => Some(Piece {
            count,
            form: Form::List(value),
        }),
        _ => None,
    }
}

/// How many bytes the document has that comes next, if there is one. Lines are read as long as what was read may be
/// the beginning of one. A byte is looked at again only for a document that begins within one that broke off, and so no
/// more often than values may be nested.
fn end_of_document<B: BufRead + Drop>(
    ahead: &mut Ahead<B>,
    is_first: bool,
) -> Result<Option<usize>, Stop>
    ensures within { IfOk result (λ end. IfSome end (λ count. count ≤ length (ahead_of ahead.new))) }
    ensures kept { OnOk result (Keeps (left_of B.remaining ahead.old) (left_of B.remaining ahead.new)) }
    ensures grows { OnOk result (Grows (ahead_of ahead.old) (ahead_of ahead.new)) }
    ensures stops { IfErr result IsHalt }
{
    let mut scanner = Scanner::new();
    let mut seen = mark_length(ahead.bytes(), is_first);
    for _ in 0..u64::MAX {
        let bytes = ahead.bytes();
        match scanner.scan(&bytes[seen..]) {
            Scan::Ends(count) => return Ok(Some(seen + count)),
            Scan::Fails => return Ok(None),
            Scan::More => seen = bytes.len(),
        }
        if !ahead.more()? {
            return Ok(None);
        }
    }
    Ok(None)
}
