//! Where a list or an object of JSON ends, found byte by byte as the bytes come.
//!
//! What is found may still be no value, as one with half a pair of escapes: whoever looks for it reads it then.
ghost use Rattle.std.specs.Prelude.{◌≤◌, length};
ghost use Rattle.redraw_command.specs.Scanned.{IsWithin};

/// How deep lists and objects may nest, as deep as a value is read.
const DEEPEST: u32 = 127;

/// What comes of the bytes that were looked at.
#[derive(Clone, Copy)]
pub enum Scan {
    /// They are the beginning of a value.
    More,
    /// The value ends after so many of them.
    Ends(usize),
    /// No value begins so.
    Fails,
}

/// What may come next.
#[derive(Clone, Copy)]
enum Next {
    /// The list or the object.
    Start,
    /// A value.
    Value,
    /// The first value of a list, or its end.
    FirstValue,
    /// A key.
    Key,
    /// The first key of an object, or its end.
    FirstKey,
    /// The colon after a key.
    Colon,
    /// A comma after a value, or the end of what it is in.
    Comma,
    /// The rest of a text.
    Text,
    /// What follows a backslash.
    Escape,
    /// So many digits of an escape.
    Hexadecimal(u8),
    /// The rest of a character: a byte between these two, and so many more.
    Character(u8, u8, u8),
    /// The rest of a word.
    Word(&'static [u8]),
    /// The rest of a number.
    Number(Part),
}

/// What of a number came last.
#[derive(Clone, Copy)]
enum Part {
    Minus,
    Zero,
    Digits,
    Point,
    Fraction,
    Exponent,
    Sign,
    Power,
}

/// Bytes that are the beginning of a list or an object.
#[derive(Clone, Copy)]
pub struct Scanner {
    next: Next,
    /// Whether the text that is read is a key.
    is_key: bool,
    /// A bit for each list or object that isn't ended, the innermost lowest: 1 for an object.
    open: u128,
    /// How many these are.
    depth: u32,
}

impl Scanner {
    /// Nothing was looked at.
    pub fn new() -> Scanner {
        Scanner {
            next: Next::Start,
            is_key: false,
            open: 0,
            depth: 0,
        }
    }

    /// Looks at the bytes that come next, up to the end of a line.
    pub fn scan(&mut self, bytes: &[u8]) -> Scan
        ensures within { IsWithin (length bytes.now) result }
    {
        for at in 0..bytes.len() {
            if !self.take(bytes[at]) {
                return Scan::Fails;
            }
            if self.depth == 0 {
                return Scan::Ends(at + 1 + blanks_after(&bytes[at + 1..]));
            }
        }
        Scan::More
    }

    /// Takes a byte, and says whether a value may begin so.
    fn take(&mut self, byte: u8) -> bool {
        match self.next {
            Next::Text => self.text(byte),
            Next::Escape => self.escape(byte),
            Next::Hexadecimal(count) => self.hexadecimal(count, byte),
            Next::Character(least, most, count) => self.character(least, most, count, byte),
            Next::Word(rest) => self.word(rest, byte),
            Next::Number(part) => self.number(part, byte),
            _ => is_blank(byte) && self.depth > 0 || self.between(byte),
        }
    }

    /// Takes a byte that is in no text, word or number, and isn't blank.
    fn between(&mut self, byte: u8) -> bool {
        match self.next {
            Next::Start => matches!(byte, b'{' | b'[') && self.value(byte),
            Next::FirstValue if byte == b']' => self.close(byte),
            Next::FirstKey if byte == b'}' => self.close(byte),
            Next::Value | Next::FirstValue => self.value(byte),
            Next::Key | Next::FirstKey => byte == b'"' && self.begin_text(true),
            Next::Colon => byte == b':' && self.goes_on(Next::Value),
            Next::Comma => self.after_value(byte),
            _ => false,
        }
    }

    /// Goes on with this.
    fn goes_on(&mut self, next: Next) -> bool {
        self.next = next;
        true
    }

    /// Begins a value.
    fn value(&mut self, byte: u8) -> bool {
        match byte {
            b'{' => self.open(1, Next::FirstKey),
            b'[' => self.open(0, Next::FirstValue),
            b'"' => self.begin_text(false),
            b't' => self.goes_on(Next::Word(b"rue")),
            b'f' => self.goes_on(Next::Word(b"alse")),
            b'n' => self.goes_on(Next::Word(b"ull")),
            b'-' => self.goes_on(Next::Number(Part::Minus)),
            b'0' => self.goes_on(Next::Number(Part::Zero)),
            b'1'..=b'9' => self.goes_on(Next::Number(Part::Digits)),
            _ => false,
        }
    }

    /// Begins a text.
    fn begin_text(&mut self, is_key: bool) -> bool {
        self.is_key = is_key;
        self.goes_on(Next::Text)
    }

    /// Begins a list, or an object where the bit is 1.
    fn open(&mut self, bit: u128, next: Next) -> bool {
        if self.depth >= DEEPEST {
            return false;
        }
        self.open = self.open << 1 | bit;
        self.depth += 1;
        self.goes_on(next)
    }

    /// Ends what is innermost, by its bracket.
    fn close(&mut self, byte: u8) -> bool {
        if self.depth == 0 || self.is_in_object() != (byte == b'}') {
            return false;
        }
        self.open >>= 1;
        self.depth -= 1;
        self.goes_on(Next::Comma)
    }

    /// Whether what is innermost is an object.
    fn is_in_object(&self) -> bool {
        self.open & 1 == 1
    }

    /// Takes what follows a value.
    fn after_value(&mut self, byte: u8) -> bool {
        match byte {
            b',' if self.is_in_object() => self.goes_on(Next::Key),
            b',' => self.goes_on(Next::Value),
            b'}' | b']' => self.close(byte),
            _ => false,
        }
    }

    /// Takes a byte of a text. Each character is one of UTF-8.
    fn text(&mut self, byte: u8) -> bool {
        match byte {
            b'"' => self.goes_on(if self.is_key {
                Next::Colon
            } else {
                Next::Comma
            }),
            b'\\' => self.goes_on(Next::Escape),
            0x20..=0x7f => true,
            0xc2..=0xdf => self.goes_on(Next::Character(0x80, 0xbf, 0)),
            0xe0 => self.goes_on(Next::Character(0xa0, 0xbf, 1)),
            0xed => self.goes_on(Next::Character(0x80, 0x9f, 1)),
            0xe1..=0xef => self.goes_on(Next::Character(0x80, 0xbf, 1)),
            0xf0 => self.goes_on(Next::Character(0x90, 0xbf, 2)),
            0xf1..=0xf3 => self.goes_on(Next::Character(0x80, 0xbf, 2)),
            0xf4 => self.goes_on(Next::Character(0x80, 0x8f, 2)),
            _ => false,
        }
    }

    /// Takes a byte of a character between these, which so many more follow.
    fn character(&mut self, least: u8, most: u8, count: u8, byte: u8) -> bool {
        let next = match count {
            0 => Next::Text,
            _ => Next::Character(0x80, 0xbf, count - 1),
        };
        byte >= least && byte <= most && self.goes_on(next)
    }

    /// Takes what follows a backslash.
    fn escape(&mut self, byte: u8) -> bool {
        match byte {
            b'"' | b'\\' | b'/' | b'b' | b'f' | b'n' | b'r' | b't' => self.goes_on(Next::Text),
            b'u' => self.goes_on(Next::Hexadecimal(3)),
            _ => false,
        }
    }

    /// Takes a digit of an escape, which so many more follow.
    fn hexadecimal(&mut self, count: u8, byte: u8) -> bool {
        let next = match count {
            0 => Next::Text,
            _ => Next::Hexadecimal(count - 1),
        };
        byte.is_ascii_hexdigit() && self.goes_on(next)
    }

    /// Takes a byte of a word that ends so.
    fn word(&mut self, rest: &'static [u8], byte: u8) -> bool {
        match rest {
            [first, rest @ ..] if *first == byte => {
                self.goes_on(if rest.is_empty() {
                    Next::Comma
                } else {
                    Next::Word(rest)
                })
            }
            _ => false,
        }
    }

    /// Takes a byte of a number, or what follows it.
    fn number(&mut self, part: Part, byte: u8) -> bool {
        match part_after(part, byte) {
            Some(part) => self.goes_on(Next::Number(part)),
            None if is_whole(part) => {
                self.next = Next::Comma;
                is_blank(byte) || self.after_value(byte)
            }
            None => false,
        }
    }
}

/// What of a number this byte is, after this.
fn part_after(part: Part, byte: u8) -> Option<Part> {
    match (part, byte) {
        (Part::Minus, b'0') => Some(Part::Zero),
        (Part::Minus | Part::Digits, b'0'..=b'9') => Some(Part::Digits),
        (Part::Zero | Part::Digits, b'.') => Some(Part::Point),
        (Part::Point | Part::Fraction, b'0'..=b'9') => Some(Part::Fraction),
        (Part::Zero | Part::Digits | Part::Fraction, b'e' | b'E') => Some(Part::Exponent),
        (Part::Exponent, b'+' | b'-') => Some(Part::Sign),
        (Part::Exponent | Part::Sign | Part::Power, b'0'..=b'9') => Some(Part::Power),
        _ => None,
    }
}

/// Whether a number may end so.
fn is_whole(part: Part) -> bool {
    matches!(
        part,
        Part::Zero | Part::Digits | Part::Fraction | Part::Power
    )
}

/// How many of the bytes after a value are its own: blanks up to the end of the line, and with it, or up to what may be
/// the next value there. Blanks before anything else are a part of that.
fn blanks_after(bytes: &[u8]) -> usize
    ensures within { result ≤ length bytes.now }
{
    for at in 0..bytes.len() {
        match bytes[at] {
            b'\n' => return at + 1,
            b'{' | b'[' => return at,
            byte if is_blank(byte) => {}
            _ => return 0,
        }
    }
    bytes.len()
}

/// Whether a byte is blank in JSON.
fn is_blank(byte: u8) -> bool {
    matches!(byte, b' ' | b'\t' | b'\n' | b'\r')
}
