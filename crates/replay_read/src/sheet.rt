//! How sheets and their styles are read.

ghost use Rattle.std.specs.Prelude.{◌≡◌, [], ◌∷◌, Some, IfOk, codes};
ghost use Rattle.serde_json.specs.Find.{as_str};
ghost use Rattle.serde_json.specs.View.{view};
ghost use Rattle.json_lines.specs.Field.{MaySayAt, given};
ghost use Rattle.replay_read.specs.Sheet.{AreBytes, AreEffectsOf, AreSheetsOf, IsColorOf, IsOwnSheetOf, IsSheetOf};
ghost use Rattle.replay_read.specs.Sheet.{IsStyleOf, MayBeEffects, MayBeStyle};
ghost use Rattle.replay_read.specs.Sheet as spec;

use crate::effect::{EFFECTS, EffectName};
use crate::list::{Read, items_of};
use crate::shape::{FormatValue, Shape, has_shape};
use json_lines::expectation::Expectation;
use json_lines::fault::Fault;
use json_lines::node::Node;
use snippet_style::{AnsiColor, Color, Effects, Style, Stylesheet};

/// The sheets of a case: the plain one where none are given.
pub fn sheets_of(case: &Node<'_, '_>) -> Result<Vec<Stylesheet>, Fault>
    ensures value { IfOk result (λ sheets. AreSheetsOf (given (codes "sheets")
        (view case.now.value.now)) sheets.items) }
{
    match case.given("sheets") {
        Some(sheets) => items_of(&sheets),
        None => Ok(vec![in case.alloc; Stylesheet::plain()]?),
    }
}

impl<'v> Read<'v> for Stylesheet {
    ghost says = { IsSheetOf };

    ghost fits = { λ _. Unit {0} };

    fn read(node: &Node<'v, '_>) -> Result<Self, Fault> {
        match node.value.as_str() {
            Some("plain") => Ok(Stylesheet::plain()),
            Some("default") => Ok(Stylesheet::styled()),
            Some(_) => Err(node.unexpected(FormatValue::Sheet)),
            None => own_sheet(node),
        }
    }
}

/// The sheet of these fields, plain where one isn't given.
fn own_sheet(node: &Node<'_, '_>) -> Result<Stylesheet, Fault>
    ensures value { IfOk result (IsOwnSheetOf (view node.now.value.now)) }
{
    if !node.value.is_object() {
        return Err(node.unexpected(FormatValue::Sheet));
    }
    has_shape(node, Shape::Sheet)?;
    let levels = level_styles(node)?;
    let parts = part_styles(node)?;
    Ok(Stylesheet {
        line_num: parts.line_num,
        emphasis: parts.emphasis,
        none: parts.none,
        context: parts.context,
        addition: parts.addition,
        removal: parts.removal,
        ..levels
    })
}

/// The sheet of the styles of levels, plain in all else.
fn level_styles(sheet: &Node<'_, '_>) -> Result<Stylesheet, Fault>
    ensures error { IfOk result (λ styles. MayBeStyle (given (codes "error") (view sheet.now.value.now)) styles.error) }
    ensures warning { IfOk result (λ styles. MayBeStyle (given (codes "warning")
        (view sheet.now.value.now)) styles.warning) }
    ensures info { IfOk result (λ styles. MayBeStyle (given (codes "info") (view sheet.now.value.now)) styles.info) }
    ensures note { IfOk result (λ styles. MayBeStyle (given (codes "note") (view sheet.now.value.now)) styles.note) }
    ensures help { IfOk result (λ styles. MayBeStyle (given (codes "help") (view sheet.now.value.now)) styles.help) }
{
    Ok(Stylesheet {
        error: style_at(sheet, "error")?,
        warning: style_at(sheet, "warning")?,
        info: style_at(sheet, "info")?,
        note: style_at(sheet, "note")?,
        help: style_at(sheet, "help")?,
        ..Stylesheet::plain()
    })
}

/// The sheet of the other styles, plain in all else.
fn part_styles(sheet: &Node<'_, '_>) -> Result<Stylesheet, Fault>
    ensures line_num { IfOk result (λ styles. MayBeStyle (given (codes "line_num")
        (view sheet.now.value.now)) styles.line_num) }
    ensures emphasis { IfOk result (λ styles. MayBeStyle (given (codes "emphasis")
        (view sheet.now.value.now)) styles.emphasis) }
    ensures none { IfOk result (λ styles. MayBeStyle (given (codes "none") (view sheet.now.value.now)) styles.none) }
    ensures context { IfOk result (λ styles. MayBeStyle (given (codes "context")
        (view sheet.now.value.now)) styles.context) }
    ensures addition { IfOk result (λ styles. MayBeStyle (given (codes "addition")
        (view sheet.now.value.now)) styles.addition) }
    ensures removal { IfOk result (λ styles. MayBeStyle (given (codes "removal")
        (view sheet.now.value.now)) styles.removal) }
{
    Ok(Stylesheet {
        line_num: style_at(sheet, "line_num")?,
        emphasis: style_at(sheet, "emphasis")?,
        none: style_at(sheet, "none")?,
        context: style_at(sheet, "context")?,
        addition: style_at(sheet, "addition")?,
        removal: style_at(sheet, "removal")?,
        ..Stylesheet::plain()
    })
}

/// The style in the field of this name, plain where none is given.
fn style_at(sheet: &Node<'_, '_>, name: &str) -> Result<Style, Fault>
    ensures value { IfOk result (MayBeStyle (given name.now (view sheet.now.value.now))) }
{
    match sheet.given(name) {
        Some(style) => style_of(&style),
        None => Ok(Style::new()),
    }
}

/// The style that is described.
fn style_of(node: &Node<'_, '_>) -> Result<Style, Fault>
    ensures value { IfOk result (IsStyleOf (view node.now.value.now)) }
{
    has_shape(node, Shape::Style)?;
    Ok(Style {
        fg: color_at(node, "fg")?,
        bg: color_at(node, "bg")?,
        effects: effects_at(node)?,
    })
}

/// The effects of a style, none where no list is given.
fn effects_at(style: &Node<'_, '_>) -> Result<Effects, Fault>
    ensures value { IfOk result (MayBeEffects (given (codes "effects") (view style.now.value.now))) }
{
    match style.given("effects") {
        Some(effects) => effects_of(&effects),
        None => Ok(Effects::new()),
    }
}

/// The effects that are listed.
fn effects_of(node: &Node<'_, '_>) -> Result<Effects, Fault>
    ensures value { IfOk result (AreEffectsOf (view node.now.value.now)) }
{
    let Some(values) = node.value.as_array() else {
        return Err(node.unexpected(Expectation::List));
    };
    let mut effects = Effects::new();
    for (index, value) in values.iter().enumerate() {
        let name = effect_name(&node.item(index, value))?;
        effects = effects.insert(name.alone());
    }
    Ok(effects)
}

/// The effect of this name.
fn effect_name(node: &Node<'_, '_>) -> Result<EffectName, Fault>
    ensures value { IfOk result (λ effect. as_str (view node.now.value.now) ≡ Some (spec.effect_name effect)) }
{
    let name = node.value.as_str();
    for effect in &EFFECTS {
        if name == Some(effect.as_str()) {
            return Ok(*effect);
        }
    }
    Err(node.unexpected(FormatValue::Effect))
}

/// The colour in the field of this name, if one is given.
fn color_at(style: &Node<'_, '_>, name: &str) -> Result<Option<Color>, Fault>
    ensures value { IfOk result (MaySayAt IsColorOf name.now (view style.now.value.now)) }
{
    match style.given(name) {
        Some(color) => Ok(Some(color_of(&color)?)),
        None => Ok(None),
    }
}

/// The colour that is described.
fn color_of(node: &Node<'_, '_>) -> Result<Color, Fault>
    ensures value { IfOk result (IsColorOf (view node.now.value.now)) }
{
    if node.value.is_string() {
        return named_color(node);
    }
    if !node.has_one_field() {
        return Err(node.unexpected(FormatValue::Color));
    }
    has_shape(node, Shape::Color)?;
    if let Some(index) = node.only_field("ansi256") {
        return Ok(Color::Ansi256(index.as_byte()?));
    }
    match node.only_field("rgb") {
        Some(rgb) => {
            let (red, green, blue) = rgb_of(&rgb)?;
            Ok(Color::Rgb(red, green, blue))
        }
        None => Err(node.unexpected(FormatValue::Color)),
    }
}

/// The colours that a terminal's theme has.
const COLORS: [AnsiColor; 16] = [
    AnsiColor::Black,
    AnsiColor::Red,
    AnsiColor::Green,
    AnsiColor::Yellow,
    AnsiColor::Blue,
    AnsiColor::Magenta,
    AnsiColor::Cyan,
    AnsiColor::White,
    AnsiColor::BrightBlack,
    AnsiColor::BrightRed,
    AnsiColor::BrightGreen,
    AnsiColor::BrightYellow,
    AnsiColor::BrightBlue,
    AnsiColor::BrightMagenta,
    AnsiColor::BrightCyan,
    AnsiColor::BrightWhite,
];

/// The colour of this name.
fn named_color(node: &Node<'_, '_>) -> Result<Color, Fault>
    ensures value { IfOk result (IsColorOf (view node.now.value.now)) }
{
    let name = node.value.as_str();
    for color in &COLORS {
        if name == Some(color_name(*color)) {
            return Ok(Color::Ansi(*color));
        }
    }
    Err(node.unexpected(FormatValue::Color))
}

/// How a colour is written.
fn color_name(color: AnsiColor) -> &'static str
    ensures value { result.now ≡ spec.color_name color }
{
    match color {
        AnsiColor::Black => "Black",
        AnsiColor::Red => "Red",
        AnsiColor::Green => "Green",
        AnsiColor::Yellow => "Yellow",
        AnsiColor::Blue => "Blue",
        AnsiColor::Magenta => "Magenta",
        AnsiColor::Cyan => "Cyan",
        AnsiColor::White => "White",
        AnsiColor::BrightBlack => "BrightBlack",
        AnsiColor::BrightRed => "BrightRed",
        AnsiColor::BrightGreen => "BrightGreen",
        AnsiColor::BrightYellow => "BrightYellow",
        AnsiColor::BrightBlue => "BrightBlue",
        AnsiColor::BrightMagenta => "BrightMagenta",
        AnsiColor::BrightCyan => "BrightCyan",
        AnsiColor::BrightWhite => "BrightWhite",
    }
}

/// Red, green and blue. Each item has to be a byte before their number is looked at.
fn rgb_of(node: &Node<'_, '_>) -> Result<(u8, u8, u8), Fault>
    ensures value { IfOk result (λ rgb. AreBytes (view node.now.value.now) (rgb.0 ∷ rgb.1 ∷ rgb.2 ∷ [])) }
{
    let bytes: Vec<u8> = items_of(node)?;
    match bytes.as_slice() {
        [red, green, blue] => Ok((*red, *green, *blue)),
        _ => Err(node.unexpected(FormatValue::Rgb)),
    }
}
