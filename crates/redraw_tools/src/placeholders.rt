//! Message strings with placeholders: `{0}` stands for the first argument, `{{` for `{`, `}}` for `}`.
ghost use Rattle.std.specs.Prelude.{◌≡◌, ◌+◌, ◌≤◌, IfOk, OnOk, encode_utf8, length, map, option_and_then, option_map};
ghost use Rattle.std.specs.Prelude.{string_bytes, string_len};
ghost use Rattle.std.specs.List.{slice_get};
ghost use Rattle.serde_json.specs.Find.{as_str};
ghost use Rattle.serde_json.specs.View.{view};
ghost use Rattle.json_lines.specs.Field.{lent_text};
ghost use Rattle.redraw_tools.specs.Filling as spec;
ghost use Rattle.redraw_tools.specs.Filling.{settled, way, weight};

use serde_json::Value;
use std::alloc::{AllocError, Global};

/// The most bytes that arguments have in all the places of one message where they stand: 1 MiB.
const MOST_BYTES: usize = 1_048_576;

/// A text with arguments in the place of its placeholders.
#[derive(Drop)]
pub struct FilledText {
    pub text: String,
    /// Whether it ends before an argument with which all of them would have more than 1 MiB.
    pub is_cut: bool,
}

/// What was read last, as far as it isn't written yet.
#[derive(Clone, Copy)]
enum Pending {
    Nothing,
    /// A brace that opens.
    Open,
    /// A brace that opens, and the number after it.
    Number(usize),
    /// A brace that closes.
    Close,
}

/// A text on the way.
#[derive(Drop)]
pub struct Filling {
    /// What is settled of it.
    text: String,
    /// What was read last and may be a part of a placeholder.
    pending: String,
    /// What that is so far.
    state: Pending,
    /// How many more bytes arguments may have.
    room: usize,
    /// Whether an argument had no room.
    is_cut: bool,
}

/// A text with arguments in the place of its placeholders. What is no placeholder, or has no argument, stays as it is.
/// The text ends before the first argument with which all that stand in it would have more than 1 MiB.
pub fn filled(alloc: Global, text: &str, arguments: &[Value]) -> Result<FilledText, AllocError>
    ensures bounded { IfOk result (λ filled. string_len filled.text ≤ length text.now + MOST_BYTES) }
    ensures value { IfOk result (λ filled. string_bytes filled.text
        ≡ spec.filled (map view arguments.now) text.now) }
{
    let mut filling = Filling {
        text: String::new(alloc),
        pending: String::new(alloc),
        state: Pending::Nothing,
        room: MOST_BYTES,
        is_cut: false,
    };
    for c in text.chars() {
        filling.take(c, arguments)?;
    }
    filling.settle()?;
    Ok(FilledText {
        text: filling.text,
        is_cut: filling.is_cut,
    })
}

impl Filling {
    /// Takes a character, unless the text is cut.
    fn take(&mut self, c: char, arguments: &[Value]) -> Result<(), AllocError>
        ensures bounded { OnOk result (weight self.new ≤ weight self.old + length (encode_utf8 c)) }
        ensures taken { OnOk result (way self.new ≡ spec.taken (map view arguments.now) (way self.old) c) }
    {
        if self.is_cut {
            return Ok(());
        }
        match self.state {
            Pending::Nothing => self.other(c),
            Pending::Open => self.after_brace(c),
            Pending::Number(number) => self.after_number(number, c, arguments),
            Pending::Close => self.after_close(c),
        }
    }

    /// Takes a character after a brace that opens.
    fn after_brace(&mut self, c: char) -> Result<(), AllocError>
        ensures bounded { OnOk result (weight self.new ≤ weight self.old + length (encode_utf8 c)) }
        ensures taken { OnOk result (way self.new ≡ spec.after_brace c (way self.old)) }
    {
        if c == '{' {
            return self.brace(c);
        }
        match digit_of(c) {
            Some(digit) => self.wait(c, Pending::Number(digit)),
            None => self.other(c),
        }
    }

    /// Takes a character after a brace that opens and this number.
    fn after_number(
        &mut self,
        number: usize,
        c: char,
        arguments: &[Value],
    ) -> Result<(), AllocError>
        ensures bounded { OnOk result (weight self.new ≤ weight self.old + length (encode_utf8 c)) }
        ensures taken { OnOk result (way self.new
            ≡ spec.after_number (map view arguments.now) number c (way self.old)) }
    {
        if c == '}' {
            return self.argument(c, argument_at(arguments, number));
        }
        match digit_of(c) {
            Some(digit) => {
                let number = number.saturating_mul(10).saturating_add(digit);
                self.wait(c, Pending::Number(number))
            }
            None => self.other(c),
        }
    }

    /// Takes a character after a brace that closes.
    fn after_close(&mut self, c: char) -> Result<(), AllocError>
        ensures bounded { OnOk result (weight self.new ≤ weight self.old + length (encode_utf8 c)) }
        ensures taken { OnOk result (way self.new ≡ spec.after_close c (way self.old)) }
    {
        if c == '}' {
            self.brace(c)
        } else {
            self.other(c)
        }
    }

    /// Writes the brace that two stand for.
    fn brace(&mut self, c: char) -> Result<(), AllocError>
        ensures bounded { OnOk result (weight self.new ≤ weight self.old + length (encode_utf8 c)) }
        ensures taken { OnOk result (way self.new ≡ spec.with_brace c (way self.old)) }
    {
        self.pending.clear();
        self.plain(c)
    }

    /// Keeps a character until it is known what it is a part of.
    fn wait(&mut self, c: char, state: Pending) -> Result<(), AllocError>
        ensures bounded { OnOk result (weight self.new ≤ weight self.old + length (encode_utf8 c)) }
        ensures taken { OnOk result (way self.new ≡ spec.with_waiting c state (way self.old)) }
    {
        self.pending.push(c)?;
        self.state = state;
        Ok(())
    }

    /// Writes a character before which what is pending is no placeholder, unless it is a brace itself.
    fn other(&mut self, c: char) -> Result<(), AllocError>
        ensures bounded { OnOk result (weight self.new ≤ weight self.old + length (encode_utf8 c)) }
        ensures taken { OnOk result (way self.new ≡ spec.with_other c (way self.old)) }
    {
        self.settle()?;
        match c {
            '{' => self.wait(c, Pending::Open),
            '}' => self.wait(c, Pending::Close),
            _ => self.plain(c),
        }
    }

    /// Writes a character.
    fn plain(&mut self, c: char) -> Result<(), AllocError>
        ensures bounded { OnOk result (weight self.new ≤ weight self.old + length (encode_utf8 c)) }
        ensures taken { OnOk result (way self.new ≡ spec.with_plain c (way self.old)) }
    {
        self.text.push(c)?;
        self.state = Pending::Nothing;
        Ok(())
    }

    /// Writes the argument of a placeholder that ends with this character; the placeholder itself where there is none.
    fn argument(&mut self, c: char, argument: Option<&str>) -> Result<(), AllocError>
        ensures bounded { OnOk result (weight self.new ≤ weight self.old + length (encode_utf8 c)) }
        ensures taken { OnOk result (way self.new ≡ spec.with_argument (lent_text argument.entry) c (way self.old)) }
    {
        match argument {
            Some(argument) => self.put(argument),
            None => {
                self.settle()?;
                self.plain(c)
            }
        }
    }

    /// Puts an argument in the place of what is pending, or cuts the text where that has no room.
    fn put(&mut self, argument: &str) -> Result<(), AllocError>
        ensures bounded { OnOk result (weight self.new ≤ weight self.old) }
        ensures taken { OnOk result (way self.new ≡ spec.with_text argument.now (way self.old)) }
    {
        self.pending.clear();
        self.state = Pending::Nothing;
        if argument.len() > self.room {
            self.is_cut = true;
        } else {
            self.room -= argument.len();
            self.text.push_str(argument)?;
        }
        Ok(())
    }

    /// Writes what is pending and no placeholder.
    fn settle(&mut self) -> Result<(), AllocError>
        ensures bounded { OnOk result (weight self.new ≤ weight self.old) }
        ensures settled { OnOk result (way self.new ≡ settled (way self.old)) }
    {
        self.text.push_str(self.pending.as_str())?;
        self.pending.clear();
        Ok(())
    }
}

/// The number that a digit is.
fn digit_of(c: char) -> Option<usize>
    ensures value { result ≡ spec.digit_of c }
{
    if c.is_ascii_digit() {
        Some(c as usize - '0' as usize)
    } else {
        None
    }
}

/// The argument with this number, if there is one that is a text.
fn argument_at(arguments: &[Value], number: usize) -> Option<&str>
    ensures value { lent_text result ≡ spec.argument_at (map view arguments.now) number }
{
    arguments.get(number).and_then(Value::as_str)
}
