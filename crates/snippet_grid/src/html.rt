//! The text of a grid's rows as HTML: characters, escaped, with tags between them.
//!
//! Tags stand where two neighbouring cells differ in their class or their link. What is open ends there, and what the
//! next cell stands in begins; a row ends with nothing open:
//!
//! ```text
//! a cell  </a></span>  <span class="snippet-error"><a href="https://..">  the next cell
//! ```
ghost use Rattle.std.specs.Prelude.{◌≡◌, ◌++◌, OnOk, string_bytes, encode_utf8_all};
ghost use Rattle.std.specs.Option.{option_copied};
ghost use Rattle.std.specs.Str.{chars};
ghost use Rattle.snippet_grid.specs.Html as spec;
ghost use Rattle.snippet_grid.specs.Html.{AddsHtml, anchor_ended, anchor_started, tags_between, ended, escape};
ghost use Rattle.snippet_grid.specs.Html.{look_at, span_ended, span_started, started};
ghost use Rattle.snippet_grid.specs.HtmlLooks.{look_seen};

use snippet_style::{ElementStyle, LevelInner};
use snippet_text::is_link_address;
use std::alloc::AllocError;

/// What a cell stands in: the class of its role, and the address that it links to. Each is empty where there is none.
#[derive(Clone, Copy)]
pub(crate) struct TagLook<'a> {
    class: &'static str,
    address: &'a str,
}

/// What a cell stands in that has neither.
pub(crate) const PLAIN: TagLook<'static> = TagLook {
    class: "",
    address: "",
};

/// Adds a text, with what HTML gives a meaning escaped.
pub fn push_escaped(out: &mut String, text: &str) -> Result<(), AllocError>
    ensures added { OnOk result
        (string_bytes out.new ≡ string_bytes out.old ++ encode_utf8_all (spec.escaped (chars text.now))) }
{
    for ch in text.chars() {
        push_character(out, ch)?;
    }
    Ok(())
}

/// Adds a character, escaped where HTML gives it a meaning.
fn push_character(out: &mut String, ch: char) -> Result<(), AllocError>
    ensures added { OnOk result
        (string_bytes out.new ≡ string_bytes out.old ++ encode_utf8_all (escape ch)) }
{
    match ch {
        '&' => out.push_str("&amp;"),
        '<' => out.push_str("&lt;"),
        '>' => out.push_str("&gt;"),
        '"' => out.push_str("&quot;"),
        '\'' => out.push_str("&#39;"),
        _ => out.push(ch),
    }
}

/// The class of a cell of this role, in a group of this level; empty where the role has no style of its own.
fn class_of(level: LevelInner, role: ElementStyle) -> &'static str
    ensures value { result.now ≡ spec.class_of level role }
{
    match role {
        ElementStyle::UnderlinePrimary | ElementStyle::LabelPrimary => level_class(level),
        ElementStyle::Level(own) => level_class(own),
        ElementStyle::LineNumber => "snippet-line-number",
        ElementStyle::MainHeaderMsg => "snippet-emphasis",
        ElementStyle::HeaderMsg
        | ElementStyle::LineAndColumn
        | ElementStyle::Quotation
        | ElementStyle::NoStyle => "",
        ElementStyle::UnderlineSecondary | ElementStyle::LabelSecondary => "snippet-context",
        ElementStyle::Addition => "snippet-addition",
        ElementStyle::Removal => "snippet-removal",
    }
}

/// The class of a level.
fn level_class(level: LevelInner) -> &'static str
    ensures value { result.now ≡ spec.level_class level }
{
    match level {
        LevelInner::Error => "snippet-error",
        LevelInner::Warning => "snippet-warning",
        LevelInner::Info => "snippet-info",
        LevelInner::Note => "snippet-note",
        LevelInner::Help => "snippet-help",
    }
}

/// The address that a link leads to in HTML; empty where it leads nowhere.
fn link_address(link: Option<&str>) -> &str
    ensures value { result.now ≡ spec.link_address (option_copied link.entry) }
{
    match link {
        Some(address) if is_link_address(address) => address,
        _ => "",
    }
}

/// What a cell of this role and link stands in, in a group of this level.
pub(crate) fn look_of<'a>(
    level: LevelInner,
    role: ElementStyle,
    link: Option<&'a str>,
) -> TagLook<'a>
    ensures value { look_seen result ≡ look_at level role (option_copied link.entry) }
{
    TagLook {
        class: class_of(level, role),
        address: link_address(link),
    }
}

/// Adds the tag that begins a stretch of this class, if it has one.
fn start_span(out: &mut String, class: &str) -> Result<(), AllocError>
    ensures added { OnOk result (AddsHtml (span_started class.now) (string_bytes out.old) (string_bytes out.new)) }
{
    if class.is_empty() {
        return Ok(());
    }
    out.push_str("<span class=\"")?;
    out.push_str(class)?;
    out.push_str("\">")
}

/// Adds the tag that begins a link to this address, if there is one.
fn start_anchor(out: &mut String, address: &str) -> Result<(), AllocError>
    ensures added { OnOk result (AddsHtml (anchor_started address.now) (string_bytes out.old) (string_bytes out.new)) }
{
    if address.is_empty() {
        return Ok(());
    }
    out.push_str("<a href=\"")?;
    push_escaped(out, address)?;
    out.push_str("\">")
}

/// Adds the tag that ends a stretch of this class, if it has one.
fn end_span(out: &mut String, class: &str) -> Result<(), AllocError>
    ensures added { OnOk result (AddsHtml (span_ended class.now) (string_bytes out.old) (string_bytes out.new)) }
{
    if class.is_empty() {
        return Ok(());
    }
    out.push_str("</span>")
}

/// Adds the tag that ends a link to this address, if there is one.
fn end_anchor(out: &mut String, address: &str) -> Result<(), AllocError>
    ensures added { OnOk result (AddsHtml (anchor_ended address.now) (string_bytes out.old) (string_bytes out.new)) }
{
    if address.is_empty() {
        return Ok(());
    }
    out.push_str("</a>")
}

/// Adds the tags that end what is open.
pub(crate) fn end_look(out: &mut String, look: TagLook<'_>) -> Result<(), AllocError>
    ensures added { OnOk result (AddsHtml (ended (look_seen look.entry)) (string_bytes out.old)
        (string_bytes out.new)) }
{
    end_anchor(out, look.address)?;
    end_span(out, look.class)
}

/// Adds the tags that begin what comes next.
fn start_look(out: &mut String, look: TagLook<'_>) -> Result<(), AllocError>
    ensures added { OnOk result (AddsHtml (started (look_seen look.entry)) (string_bytes out.old)
        (string_bytes out.new)) }
{
    start_span(out, look.class)?;
    start_anchor(out, look.address)
}

/// Adds the tags between two neighbours: none where they stand in the same.
pub(crate) fn change_look(
    out: &mut String,
    last: TagLook<'_>,
    next: TagLook<'_>,
) -> Result<(), AllocError>
    ensures added { OnOk result (AddsHtml (tags_between (look_seen last.entry) (look_seen next.entry))
        (string_bytes out.old) (string_bytes out.new)) }
{
    if last.class == next.class && last.address == next.address {
        return Ok(());
    }
    end_look(out, last)?;
    start_look(out, next)
}
