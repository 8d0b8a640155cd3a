//! The text form before any sheet is known: its texts in order, and how each is styled.
//!
//! ```text
//! error E0308: mismatched types      the name, the id, `: ` and the text, each in its own style
//!  at src/main.rs:3:5: here          text without codes, after a break
//! ```
ghost use Rattle.std.specs.Prelude.{◌≡◌, [], ◌∷◌, ◌++◌, chars, encode_utf8_all, replicate, IfOk, OnErr, OnOk};
ghost use Rattle.std.specs.Prelude.{string_bytes};
ghost use Rattle.std.specs.Cow.{cow_str_bytes};
ghost use Rattle.std.specs.Fmt.{decimal};
ghost use Rattle.std.specs.List.{flat_map};
ghost use Rattle.std.specs.Option.{option_copied};
ghost use Rattle.snippet_grid.specs.Runs.{BeginsWith};
ghost use Rattle.snippet_grid.specs.Woven.{IsWoven, piece_text};
ghost use Rattle.snippet_style.specs.Codes.{opening, reset};
ghost use Rattle.snippet_style.specs.Style.{is_plain_style};
ghost use Rattle.snippet_text_form.specs.Form.{Break, Styled, bare, form_bytes, form_text, in_style, role_style};
ghost use Rattle.snippet_text_form.specs.Form.{woven_from};
ghost use Rattle.snippet_text_form.specs.FormLinks.{form_links, link_codes_after, link_codes_before};
ghost use Rattle.snippet_text_form.specs.FormMarks.{AreMarks, piece_of_kind, pieces_from};
ghost use Rattle.snippet_text_form.specs.declared.form.MarkKind.TheVariants as kinds;

use itoa::Buffer;
use snippet_style::{ElementStyle, LevelInner, Style, Stylesheet, write_opening};
use snippet_text::CowStr;
use std::alloc::{AllocError, Global};
use std::marker::Model;

/// The bytes and the marks that a form has room for at first: those of a title, two marked lines and a note.
const FIRST_BYTES: usize = 256;

const FIRST_MARKS: usize = 16;

/// The bytes that a rendered text has room for at first, for each mark, beside those of its characters: for the codes
/// before and after it, or its line feed.
const MARK_BYTES: usize = 16;

/// What stands in a text beside plain characters: some of its characters in a style, or a break between two of them.
#[derive(Clone, Copy)]
pub(crate) struct FormMark<'a> {
    /// Where its characters begin and end in the text, in bytes. A break has none.
    pub(crate) start: usize,
    pub(crate) end: usize,
    /// What it is.
    pub(crate) kind: MarkKind<'a>,
}

/// What a mark is.
#[derive(Clone, Copy)]
pub(crate) enum MarkKind<'a> {
    /// A line feed; none where no text stands before it.
    Break,
    /// Text in a style.
    Styled(FormLook<'a>),
}

/// How a text looks.
#[derive(Clone, Copy)]
pub(crate) struct FormLook<'a> {
    /// The role that gives the style.
    pub(crate) role: ElementStyle,
    /// The address that it links to.
    pub(crate) link: Option<&'a str>,
}

/// The text form of a report, before any sheet is known. It is empty at first.
#[derive(Drop)]
pub struct TextForm<'a> {
    /// The characters of its texts, one after another.
    text: String,
    /// The breaks and the styled texts, in order; what stands between them has no codes.
    marks: Vec<FormMark<'a>>,
}

impl<'a> Model for TextForm<'a> {
    ghost use Rattle.std.specs.Prelude.{List, string_bytes};
    ghost use Rattle.snippet_text_form.specs.Form.{FormPiece};
    ghost use Rattle.snippet_text_form.specs.FormMarks.{AreMarks, pieces_from};

    ghost Value = { List FormPiece };

    ghost view = { λ form. pieces_from (string_bytes form.text) 0 form.marks.items };

    ghost invariant = { λ form. AreMarks (string_bytes form.text) 0 form.marks.items };
}

impl<'a> TextForm<'a> {
    /// An empty text form, with room for a small one.
    ///
    /// # Errors
    ///
    /// There is no memory for that room.
    pub fn new(alloc: Global) -> Result<Self, AllocError>
        ensures empty { IfOk result (λ form. form ≡ []) }
    {
        Ok(TextForm {
            text: String::with_capacity(alloc, FIRST_BYTES)?,
            marks: Vec::with_capacity(alloc, FIRST_MARKS)?,
        })
    }

    /// Begins a new line. Where no text stands before it, nothing is written.
    pub fn add_break(&mut self) -> Result<(), AllocError>
        ensures added { OnOk result (self.new ≡ self.old ++ Break ∷ []) }
    {
        push_mark(&mut self.text, &mut self.marks, "", MarkKind::Break)
    }

    /// Adds a text without codes.
    pub fn add_text(&mut self, text: &str) -> Result<(), AllocError>
        ensures added { OnOk result (self.new ≡ self.old ++ bare (chars text.now)) }
    {
        self.text.push_str(text)
    }

    /// Adds a text without codes that may have been made for this form.
    pub fn add_shown(&mut self, text: CowStr<'a>) -> Result<(), AllocError>
        ensures added { OnOk result (self.new ≡ self.old ++ bare (chars (cow_str_bytes text.entry))) }
    {
        self.add_text(text.as_str())
    }

    /// Adds a number without codes.
    pub fn add_number(&mut self, number: usize) -> Result<(), AllocError>
        ensures added { OnOk result (self.new ≡ self.old ++ bare (decimal number)) }
    {
        push_number(&mut self.text, number)
    }

    /// Adds this many spaces without codes.
    pub fn add_spaces(&mut self, count: usize) -> Result<(), AllocError>
        ensures added { OnOk result (self.new ≡ self.old ++ bare (replicate count 32)) }
    {
        write_spaces(&mut self.text, count)
    }

    /// Adds a text in the style of a role, which may link to an address. The style is opened and reset even where the
    /// text is empty.
    pub fn add_styled(
        &mut self,
        role: ElementStyle,
        link: Option<&'a str>,
        text: CowStr<'a>,
    ) -> Result<(), AllocError>
        ensures added { OnOk result (self.new
            ≡ self.old ++ Styled role (option_copied link.entry) (chars (cow_str_bytes text.entry)) ∷ []) }
    {
        let look = FormLook { role, link };
        push_mark(
            &mut self.text,
            &mut self.marks,
            text.as_str(),
            MarkKind::Styled(look),
        )
    }

    /// The text under a sheet.
    ///
    /// # Errors
    ///
    /// There is no memory for the text.
    pub fn render(&self, alloc: Global, sheet: &Stylesheet) -> Result<String, AllocError>
        ensures text { IfOk result (λ text. string_bytes text ≡ form_bytes sheet.now self.now) }
        // Its plain text and its links are the same under each sheet.
        ensures woven { IfOk result (λ text.
            IsWoven sheet.now (string_bytes text) (form_text self.now) (form_links self.now)) }
    {
        let codes_room = self.marks.len().saturating_mul(MARK_BYTES);
        let room = self.text.len().saturating_add(codes_room);
        let mut out = String::with_capacity(alloc, room)?;
        let text = self.text.as_str();
        let mut from = 0;
        for mark in &self.marks {
            push_some(&mut out, &text[from..mark.start])?;
            write_mark(
                &mut out,
                sheet,
                mark.start > 0,
                &text[mark.start..mark.end],
                mark.kind,
            )?;
            from = mark.end;
        }
        push_some(&mut out, &text[from..text.len()])?;
        Ok(out)
    }
}

/// Adds a mark after a text and the marks in it, with these characters, of which a break has none.
fn push_mark<'a>(
    text: &mut String,
    marks: &mut Vec<FormMark<'a>>,
    word: &str,
    kind: MarkKind<'a>,
) -> Result<(), AllocError>
    requires marks { AreMarks (string_bytes text.old) 0 marks.old.items }
    requires breaks { kind ≡ kinds.Break → word.now ≡ [] }
    ensures added { OnOk result (pieces_from (string_bytes text.new) 0 marks.new.items
        ≡ pieces_from (string_bytes text.old) 0 marks.old.items ++ piece_of_kind (chars word.now) kind.entry ∷ []) }
    ensures marks { AreMarks (string_bytes text.new) 0 marks.new.items }
{
    let start = text.len();
    push_some(text, word)?;
    let end = text.len();
    marks.push(FormMark { start, end, kind })?;
    Ok(())
}

/// Adds a text, which is often empty: then nothing is done.
#[inline(always)]
fn push_some(out: &mut String, text: &str) -> Result<(), AllocError>
    ensures bytes { OnOk result (string_bytes out.new ≡ string_bytes out.old ++ text.now) }
    ensures kept { OnErr result (string_bytes out.new ≡ string_bytes out.old) }
{
    if text.is_empty() {
        return Ok(());
    }
    out.push_str(text)
}

/// Adds a mark with these characters to a text; `begun` says whether plain text stands before it.
#[inline(always)]
fn write_mark(
    out: &mut String,
    sheet: &Stylesheet,
    begun: bool,
    word: &str,
    kind: MarkKind<'_>,
) -> Result<(), AllocError>
    ensures added { OnOk result (string_bytes out.new ≡ string_bytes out.old
        ++ flat_map piece_text (woven_from sheet.now begun (piece_of_kind (chars word.now) kind.entry ∷ []))) }
{
    match kind {
        MarkKind::Break if begun => out.push('\n'),
        MarkKind::Break => Ok(()),
        MarkKind::Styled(look) => write_styled(out, sheet, look, word),
    }
}

/// Adds a number to a text. Many a line and column has one digit, for which nothing is called.
fn push_number(out: &mut String, number: usize) -> Result<(), AllocError>
    ensures bytes { OnOk result (string_bytes out.new ≡ string_bytes out.old ++ decimal number) }
    ensures grown { BeginsWith (string_bytes out.old) (string_bytes out.new) }
{
    if number < 10 {
        return out.push(char::from(b'0' + number as u8));
    }
    let mut digits = Buffer::new();
    out.push_str(digits.format(number))
}

/// Adds this many spaces to a text.
fn write_spaces(out: &mut String, count: usize) -> Result<(), AllocError>
    ensures added { OnOk result (string_bytes out.new ≡ string_bytes out.old ++ replicate count 32) }
    ensures grown { BeginsWith (string_bytes out.old) (string_bytes out.new) }
{
    for _ in 0..count {
        out.push(' ')?;
    }
    Ok(())
}

/// Adds a text that looks like this: its style is opened before it and reset after it.
#[inline(always)]
fn write_styled(
    out: &mut String,
    sheet: &Stylesheet,
    look: FormLook<'_>,
    word: &str,
) -> Result<(), AllocError>
    ensures added { OnOk result (string_bytes out.new ≡ string_bytes out.old ++ flat_map piece_text
        (in_style (role_style sheet.now look.entry.role) (option_copied look.entry.link) (chars word.now))) }
{
    let style = style_of(sheet, look.role);
    let plain = style.is_plain();
    begin_style(out, style, plain)?;
    begin_link(out, look.link)?;
    out.push_str(word)?;
    end_link(out, look.link)?;
    end_style(out, style, plain)
}

/// Adds the code that opens a style, if it has one.
#[inline(always)]
fn begin_style(out: &mut String, style: Style, plain: bool) -> Result<(), AllocError>
    requires plain { plain ≡ is_plain_style style }
    ensures text { OnOk result (string_bytes out.new ≡ string_bytes out.old ++ encode_utf8_all (opening style)) }
{
    if plain {
        return Ok(());
    }
    write_opening(out, style)
}

/// Adds the code that resets a style, if it has one.
#[inline(always)]
fn end_style(out: &mut String, style: Style, plain: bool) -> Result<(), AllocError>
    requires plain { plain ≡ is_plain_style style }
    ensures text { OnOk result (string_bytes out.new ≡ string_bytes out.old ++ encode_utf8_all (reset style)) }
{
    if plain {
        return Ok(());
    }
    out.push_str("\u{1b}[0m")
}

/// Adds the code that begins a link, if there is one.
#[inline(always)]
fn begin_link(out: &mut String, link: Option<&str>) -> Result<(), AllocError>
    ensures added { OnOk result (string_bytes out.new
        ≡ string_bytes out.old ++ flat_map piece_text (link_codes_before (option_copied link.entry))) }
{
    let Some(url) = link else {
        return Ok(());
    };
    out.push_str("\u{1b}]8;;")?;
    out.push_str(url)?;
    out.push_str("\u{1b}\\")?;
    Ok(())
}

/// Adds the code that ends a link, if there is one.
#[inline(always)]
fn end_link(out: &mut String, link: Option<&str>) -> Result<(), AllocError>
    ensures added { OnOk result (string_bytes out.new
        ≡ string_bytes out.old ++ flat_map piece_text (link_codes_after (option_copied link.entry))) }
{
    if link.is_some() {
        out.push_str("\u{1b}]8;;\u{1b}\\")?;
    }
    Ok(())
}

/// The style of a role. Which level the group has is nothing to a role of this form.
fn style_of(sheet: &Stylesheet, role: ElementStyle) -> Style
    ensures value { result ≡ role_style sheet.now role }
{
    sheet.style_of(LevelInner::Note, role)
}
