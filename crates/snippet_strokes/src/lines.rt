//! Glyphs that stand side by side in a row.
ghost use Rattle.std.specs.Prelude.{◌≡◌, ◌<◌, ◌≤◌, IfOk, IfSome, OnOk, replicate, string_bytes};
ghost use Rattle.std.specs.Cow.{cow_str_bytes};
ghost use Rattle.std.specs.Str.{chars};
ghost use Rattle.snippet_strokes.specs.Writes.{painted, stretch_of};
ghost use Rattle.snippet_style.specs.Bounds.{HasNext};

use snippet_grid::StyledBuffer;
use snippet_style::ElementStyle;
use snippet_text::CowStr;
use std::alloc::{AllocError, Global};
use std::ops::Range;

/// How many glyphs each of the strips below has: few marks are longer, and few lines have more bars beside them.
const STRIP: usize = 128;

const CARETS: &str = concat!(
    "^^^^^^^^^^^^^^^^^^^^^^^^^^^^^^^^^^^^^^^^^^^^^^^^^^^^^^^^^^^^^^^^",
    "^^^^^^^^^^^^^^^^^^^^^^^^^^^^^^^^^^^^^^^^^^^^^^^^^^^^^^^^^^^^^^^^",
);

const DASHES: &str = concat!(
    "----------------------------------------------------------------",
    "----------------------------------------------------------------",
);

const CONNECTORS: &str = concat!(
    "________________________________________________________________",
    "________________________________________________________________",
);

const BARS: &str = concat!(
    "||||||||||||||||||||||||||||||||||||||||||||||||||||||||||||||||",
    "||||||||||||||||||||||||||||||||||||||||||||||||||||||||||||||||",
);

const SLASHES: &str = concat!(
    "////////////////////////////////////////////////////////////////",
    "////////////////////////////////////////////////////////////////",
);

/// A strip of a glyph, if there is one.
fn strip_of(glyph: char) -> Option<&'static str>
    ensures value { IfSome result (λ strip. strip.now ≡ replicate 128 glyph) }
    ensures ascii { IfSome result (λ strip. glyph < 128) }
{
    match glyph {
        '^' => Some(CARETS),
        '-' => Some(DASHES),
        '_' => Some(CONNECTORS),
        '|' => Some(BARS),
        '/' => Some(SLASHES),
        _ => None,
    }
}

/// The first glyphs of a strip.
fn first_of(strip: &'static str, glyph: char, count: usize) -> &'static str
    requires strip { strip.now ≡ replicate 128 glyph }
    requires ascii { glyph < 128 }
    requires within { count ≤ 128 }
    ensures value { chars result.now ≡ replicate count glyph }
    ensures bytes { result.now ≡ replicate count glyph }
{
    &strip[..count]
}

/// A text that holds a glyph this many times: a part of a strip, where there is one that is long enough, or several.
///
/// # Errors
///
/// There is no memory for the text.
pub fn repeated(alloc: Global, glyph: char, count: usize) -> Result<CowStr<'static>, AllocError>
    ensures value { IfOk result (λ text. chars (cow_str_bytes text) ≡ replicate count glyph) }
{
    let Some(strip) = strip_of(glyph) else {
        return Ok(CowStr::Owned(made(alloc, glyph, count)?));
    };
    if count <= STRIP {
        return Ok(CowStr::Borrowed(first_of(strip, glyph, count)));
    }
    Ok(CowStr::Owned(joined_strips(alloc, strip, glyph, count)?))
}

/// A text that holds a glyph this many times, made of strips.
fn joined_strips(
    alloc: Global,
    strip: &'static str,
    glyph: char,
    count: usize,
) -> Result<String, AllocError>
    requires strip { strip.now ≡ replicate 128 glyph }
    requires ascii { glyph < 128 }
    ensures value { IfOk result (λ text. chars (string_bytes text) ≡ replicate count glyph) }
{
    let mut text = String::with_capacity(alloc, count)?;
    let mut left = count;
    while left > STRIP {
        text.push_str(strip)?;
        left -= STRIP;
    }
    text.push_str(first_of(strip, glyph, left))?;
    Ok(text)
}

/// A text that holds a glyph this many times.
fn made(alloc: Global, glyph: char, count: usize) -> Result<String, AllocError>
    ensures value { IfOk result (λ text. chars (string_bytes text) ≡ replicate count glyph) }
{
    let mut bytes = [0; 4];
    glyph.encode_utf8(&mut bytes).repeat(alloc, count)
}

/// Draws a glyph in each of these cells of a row.
///
/// ```text
///       |  ______
///          ^start^end
/// ```
///
/// # Errors
///
/// There is no memory for the cells.
pub fn draw_stretch(
    buffer: &mut StyledBuffer,
    row: usize,
    cells: Range<usize>,
    glyph: char,
    role: ElementStyle,
) -> Result<(), AllocError>
    requires row { HasNext row }
    ensures painted { OnOk result (buffer.new ≡ painted (stretch_of row cells.start cells.end glyph role) buffer.old) }
{
    let alloc = buffer.allocator();
    let (start, end) = (cells.start, cells.end);
    if end <= start {
        return Ok(());
    }
    let text = repeated(alloc, glyph, end - start)?;
    buffer.puts(row, start, text.as_str(), role)
}
