//! The files that a log names by addresses.
ghost use Rattle.std.specs.Prelude.{◌≡◌, IfOk, OnOk, option_map, string_bytes};
ghost use Rattle.serde_json.specs.View.{view};
ghost use Rattle.json_lines.specs.Field.{lent_text};
ghost use Rattle.json_lines.specs.Lenient.{item_in};
ghost use Rattle.redraw_tools.specs.Path as path;
ghost use Rattle.redraw_tools.specs.Places as spec;

use crate::cut::{after, before};
use crate::expectation::SarifExpectation;
use json_lines::lenient::{LenientNode, Problems, field_at, item_at, text_at, text_field};
use percent_encoding::percent_decode;
use serde_json::Value;
use std::alloc::{AllocError, Global};

/// How many bases may stand on one another, and in how many files are looked for elsewhere. A log whose bases go in a
/// circle has no end of them.
const BASES: usize = 16;

/// The field of a run that has its bases.
const BASE_IDS: &str = "originalUriBaseIds";

/// The field of a location that names the base that it is relative to.
const BASE: &str = "uriBaseId";

/// An address, and the base that it is relative to.
#[derive(Clone, Copy)]
struct Address<'v> {
    uri: &'v str,
    base: Option<&'v str>,
}

/// The path of the file at the artifact's location in an object's field `artifactLocation`. It may be relative: to
/// where, the log doesn't say. `None` where the location isn't there, or has neither an address nor the number of an
/// artifact that has one; both are reported.
pub fn path_in(
    alloc: Global,
    object: &LenientNode<'_, '_>,
    run: &Value,
    problems: &mut Problems,
) -> Result<Option<String>, AllocError>
    ensures value { IfOk result (λ found. option_map string_bytes found
        ≡ spec.file_in (view run.now) (view object.now.value.now)) }
{
    let Some(location) = object.needed("artifactLocation", problems) else {
        return Ok(None);
    };
    match address_of(run, location.value) {
        Some(address) => Ok(Some(path_at(alloc, run, address)?)),
        None => {
            location.tell(problems, SarifExpectation::Artifact);
            Ok(None)
        }
    }
}

/// The address of an artifact's location: its own, or that of the artifact with its number.
fn address_of<'v>(run: &'v Value, location: &'v Value) -> Option<Address<'v>>
    ensures value { option_map path.address_view result ≡ spec.address_of (view run.now) (view location.now) }
{
    let named = match location.get("uri") {
        Some(_) => Some(location),
        None => artifact_location(run, location),
    };
    match text_at(named, "uri") {
        Some(uri) => Some(Address {
            uri,
            base: text_at(named, BASE),
        }),
        None => None,
    }
}

/// The location of the artifact whose number a location has.
fn artifact_location<'v>(run: &'v Value, location: &Value) -> Option<&'v Value>
    ensures value { option_map (λ v. view v.now) result ≡ spec.numbered (view run.now) (view location.now) }
{
    match location.get("index").and_then(Value::as_u64) {
        Some(index) => field_at(item_at(run.get("artifacts"), index), "location"),
        None => None,
    }
}

/// The path that an address names, after its base, which may have a base itself. A base without an address adds
/// nothing.
fn path_at(alloc: Global, run: &Value, address: Address<'_>) -> Result<String, AllocError>
    ensures value { IfOk result (λ found. string_bytes found
        ≡ path.path_at (view run.now) (path.address_view address.entry)) }
{
    let mut whole = String::from_str(alloc, address.uri)?;
    add_bases(alloc, run, address.base, &mut whole)?;
    decoded(alloc, local(whole.as_str()))
}

/// The path that an address names by itself.
pub fn path_of_uri(alloc: Global, uri: &str) -> Result<String, AllocError>
    ensures value { IfOk result (λ found. string_bytes found ≡ path.path_of uri.now) }
{
    decoded(alloc, local(uri))
}

/// Puts the base of this name before an address, and the base that it has itself before that.
fn add_bases(
    alloc: Global,
    run: &Value,
    base: Option<&str>,
    whole: &mut String,
) -> Result<(), AllocError>
    ensures value { OnOk result (string_bytes whole.new
        ≡ path.based BASES (view run.now) (lent_text base.entry) (string_bytes whole.old)) }
{
    let mut base = base;
    for _count in 0..BASES {
        let Some(location) = base_location(run, base) else {
            return Ok(());
        };
        *whole = after_base(alloc, location, whole.as_str())?;
        base = text_field(location, BASE);
    }
    Ok(())
}

/// An address after the one of this base.
fn after_base(alloc: Global, location: &Value, uri: &str) -> Result<String, AllocError>
    ensures value { IfOk result (λ whole. string_bytes whole ≡ path.after_base (view location.now) uri.now) }
{
    match text_field(location, "uri") {
        Some(base) => joined(alloc, base, uri),
        None => String::from_str(alloc, uri),
    }
}

/// The folders that addresses of a run are relative to, by absolute paths with a slash at their end: where one isn't
/// there, its files are looked for elsewhere.
pub fn bases_of(alloc: Global, run: &Value) -> Result<Vec<String>, AllocError> {
    let mut bases = Vec::new(alloc);
    if let Some(ids) = run.get(BASE_IDS).and_then(Value::as_object) {
        for id in ids.keys() {
            add_base(alloc, &mut bases, run, id.as_str())?;
        }
    }
    Ok(bases)
}

/// Adds the folder of the base of this name, if its path is absolute and there is room for it.
fn add_base(
    alloc: Global,
    bases: &mut Vec<String>,
    run: &Value,
    id: &str,
) -> Result<(), AllocError> {
    let address = Address {
        uri: "",
        base: Some(id),
    };
    let folder = path_at(alloc, run, address)?;
    if folder.starts_with('/') && bases.len() < BASES {
        bases.push(folder)?;
    }
    Ok(())
}

/// The location of the base of this name.
fn base_location<'v>(run: &'v Value, id: Option<&str>) -> Option<&'v Value>
    ensures value { option_map (λ v. view v.now) result ≡ path.base_location (view run.now) (lent_text id.entry) }
{
    match id {
        Some(id) => field_at(run.get(BASE_IDS), id),
        None => None,
    }
}

/// An address below another one.
fn joined(alloc: Global, base: &str, uri: &str) -> Result<String, AllocError>
    ensures value { IfOk result (λ whole. string_bytes whole ≡ path.joined base.now uri.now) }
{
    let slash = slash_after(base);
    format!(in alloc; "{base}{slash}{uri}")
}

/// The slash that is to stand after an address before another.
fn slash_after(base: &str) -> &str
    ensures value { result.now ≡ path.slash_after base.now }
{
    if base.is_empty() || before(base, "/").is_some() {
        ""
    } else {
        "/"
    }
}

/// An address of a file without `file:`, without an empty host, and without the slash before the letter of a drive;
/// another address without `./` before it.
fn local(uri: &str) -> &str
    ensures value { result.now ≡ path.local uri.now }
{
    match after(uri, "file:") {
        Some(rest) => without_slash(after(rest, "//").unwrap_or(rest)),
        None => after(uri, "./").unwrap_or(uri),
    }
}

/// A path without the slash before the letter of a drive.
fn without_slash(found: &str) -> &str
    ensures value { result.now ≡ path.without_slash found.now }
{
    match found.as_bytes() {
        [b'/', _, b':', ..] => after(found, "/").unwrap_or(found),
        _ => found,
    }
}

/// A path with characters for its escapes, unless these don't give characters.
fn decoded(alloc: Global, escaped: &str) -> Result<String, AllocError>
    ensures value { IfOk result (λ text. string_bytes text ≡ path.decoded escaped.now) }
{
    let mut bytes = Vec::new(alloc);
    percent_decode(escaped.as_bytes()).append_to(&mut bytes)?;
    String::from_str(alloc, text_or(bytes.as_slice(), escaped))
}

/// Some bytes, if they are a text, else another text.
fn text_or<'t>(bytes: &'t [u8], other: &'t str) -> &'t str
    ensures value { result.now ≡ path.if_text bytes.now other.now }
{
    match str::from_utf8(bytes) {
        Ok(text) => text,
        Err(_) => other,
    }
}
