//! The codes that open a sheet's styles. Those of usual styles are known from the start, and take no memory.
ghost use Rattle.std.specs.Prelude.{◌≡◌, ◌≢◌, ◌<◌, ◌++◌, true, false, slice_index_or, OnOk};
ghost use Rattle.std.specs.Prelude.{encode_utf8_all, string_bytes};
ghost use Rattle.std.specs.List.{AllZip};
ghost use Rattle.snippet_grid.specs.SheetCodes.{opening_bytes, style_at, styles_in};
ghost use Rattle.snippet_grid.specs.UsualCodes.{IsCodeOf};
ghost use Rattle.snippet_style.specs.Codes.{reset};
ghost use Rattle.snippet_style.specs.Style.{is_plain_style};
ghost use Rattle.snippet_style.specs.Stylesheet as spec;
ghost use Rattle.snippet_style.specs.declared.style.Style.{Style};
ghost use Rattle.snippet_style.specs.declared.stylesheet.Stylesheet.{Stylesheet};

use crate::usual_codes::{StyleCode, code_of};
use snippet_style::{ElementStyle, LevelInner, Style, Stylesheet, write_opening};
use std::alloc::AllocError;
use std::marker::Model;

/// A sheet of styles, with the codes that open them. Both are found by the place of a style among the sheet's fields.
#[derive(Drop)]
pub struct SheetCodes {
    sheet: Stylesheet,
    /// The styles of the sheet, in the order of its fields, and what opens each.
    styles: [Style; 11],
    codes: [StyleCode; 11],
}

impl Model for SheetCodes {
    ghost use Rattle.std.specs.Prelude.{◌≡◌};
    ghost use Rattle.std.specs.List.{AllZip};
    ghost use Rattle.snippet_grid.specs.SheetCodes.{styles_in};
    ghost use Rattle.snippet_grid.specs.UsualCodes.{IsCodeOf};
    ghost use Rattle.snippet_style.specs.declared.stylesheet.Stylesheet.{Stylesheet};

    ghost Value = { Stylesheet };

    ghost view = { λ c. c.sheet };

    ghost invariant = { λ c. record {
      styles : c.styles ≡ styles_in c.sheet;
      codes : AllZip IsCodeOf c.codes (styles_in c.sheet);
    } };
}

impl SheetCodes {
    /// The codes of a sheet.
    pub fn new(sheet: &Stylesheet) -> SheetCodes
        ensures sheet { result ≡ sheet.now }
    {
        SheetCodes {
            sheet: *sheet,
            styles: styles(sheet),
            codes: codes(sheet),
        }
    }

    /// The style at a place.
    fn style_at(&self, place: usize) -> Style
        requires within { place < 11 }
        ensures value { result ≡ style_at self.now place }
    {
        self.styles[place]
    }

    /// Whether the style at a place is plain.
    #[inline(always)]
    fn is_plain(&self, place: usize) -> bool
        requires within { place < 11 }
        ensures value { result ≡ is_plain_style (style_at self.now place) }
    {
        matches!(self.codes[place], StyleCode::Nothing)
    }

    /// Whether the styles at two places differ.
    #[inline(always)]
    pub(crate) fn differ(&self, a: usize, b: usize) -> bool
        requires within { a < 11 × (b < 11) }
        ensures yes { result ≡ true → style_at self.now a ≢ style_at self.now b }
        ensures no { result ≡ false → style_at self.now a ≡ style_at self.now b }
    {
        if a == b {
            return false;
        }
        // Most that meet are a plain one and another: these are told apart without a look at colours and effects.
        if self.is_plain(a) {
            return !self.is_plain(b);
        }
        self.is_plain(b) || self.style_at(a) != self.style_at(b)
    }

    /// Adds the code that switches the style at a place off, if it has one.
    #[inline(always)]
    pub(crate) fn push_reset(&self, out: &mut String, place: usize) -> Result<(), AllocError>
        requires within { place < 11 }
        ensures text { OnOk result (string_bytes out.new ≡ string_bytes out.old
            ++ encode_utf8_all (reset (style_at self.now place))) }
    {
        if self.is_plain(place) {
            return Ok(());
        }
        out.push_str(RESET)
    }

    /// Adds the code that opens the style at a place.
    #[inline(always)]
    pub(crate) fn push_opening(&self, out: &mut String, place: usize) -> Result<(), AllocError>
        requires within { place < 11 }
        ensures text { OnOk result (string_bytes out.new ≡ string_bytes out.old
            ++ opening_bytes (style_at self.now place)) }
    {
        match self.code_at(place) {
            StyleCode::Nothing => Ok(()),
            StyleCode::Usual(code) => code.push(out),
            StyleCode::Other => write_opening(out, self.style_at(place)),
        }
    }

    /// What opens the style at a place.
    #[inline(always)]
    fn code_at(&self, place: usize) -> StyleCode
        requires within { place < 11 }
        ensures code { IsCodeOf result (style_at self.now place) }
    {
        self.codes[place]
    }
}

/// The styles of a sheet, in the order of its fields.
fn styles(sheet: &Stylesheet) -> [Style; 11]
    ensures value { result ≡ styles_in sheet.now }
{
    [
        sheet.error,
        sheet.warning,
        sheet.info,
        sheet.note,
        sheet.help,
        sheet.line_num,
        sheet.emphasis,
        sheet.none,
        sheet.context,
        sheet.addition,
        sheet.removal,
    ]
}

/// What opens each style of a sheet, in the order of its fields.
fn codes(sheet: &Stylesheet) -> [StyleCode; 11]
    ensures codes { AllZip IsCodeOf result (styles_in sheet.now) }
{
    [
        code_of(sheet.error),
        code_of(sheet.warning),
        code_of(sheet.info),
        code_of(sheet.note),
        code_of(sheet.help),
        code_of(sheet.line_num),
        code_of(sheet.emphasis),
        code_of(sheet.none),
        code_of(sheet.context),
        code_of(sheet.addition),
        code_of(sheet.removal),
    ]
}

/// The code that switches any style off.
const RESET: &str = "\u{1b}[0m";

/// The place of the style of what has no style of its own.
pub(crate) const NONE: usize = 7;

/// How a cell looks: the place of its style in the sheet, and where its link leads.
#[derive(Clone, Copy)]
pub(crate) struct WovenLook<'a> {
    pub(crate) place: usize,
    pub(crate) link: Option<&'a str>,
    ghost within: { place < 11 },
}

/// How a cell looks in which nothing stands.
pub(crate) const SPACE: WovenLook<'static> = WovenLook {
    place: NONE,
    link: None,
};

/// The place of the style of a cell of this role, in a group of this level.
#[inline(always)]
pub(crate) fn place_of(level: LevelInner, role: ElementStyle) -> usize
    ensures place { (sheet : Stylesheet) (d : Style) → slice_index_or (styles_in sheet) result d
        ≡ spec.style_of sheet level role }
    ensures within { result < 11 }
{
    match role {
        ElementStyle::UnderlinePrimary | ElementStyle::LabelPrimary => level_place(level),
        ElementStyle::Level(own) => level_place(own),
        ElementStyle::LineNumber => 5,
        ElementStyle::MainHeaderMsg => 6,
        ElementStyle::HeaderMsg
        | ElementStyle::LineAndColumn
        | ElementStyle::Quotation
        | ElementStyle::NoStyle => NONE,
        ElementStyle::UnderlineSecondary | ElementStyle::LabelSecondary => 8,
        ElementStyle::Addition => 9,
        ElementStyle::Removal => 10,
    }
}

/// Where the style of a level stands among them.
fn level_place(level: LevelInner) -> usize
    ensures place { (sheet : Stylesheet) (d : Style) → slice_index_or (styles_in sheet) result d
        ≡ spec.level_style sheet level }
    ensures within { result < 11 }
{
    match level {
        LevelInner::Error => 0,
        LevelInner::Warning => 1,
        LevelInner::Info => 2,
        LevelInner::Note => 3,
        LevelInner::Help => 4,
    }
}
