//! Which addresses may be links, whoever wrote them.
ghost use Rattle.std.specs.Prelude.{◌≡◌, map};
ghost use Rattle.std.specs.Char.{to_ascii_lowercase};
ghost use Rattle.snippet_text.specs.LinkAddress as spec;

/// Whether an address may be a link, whoever wrote it: it is of the web or of mail (it begins with `http:`, `https:` or
/// `mailto:`, in letters of either case), and each of its bytes is an ASCII character that is seen. So no such address
/// runs a script, none holds a blank, a line feed or an escape code, and none hides what it leads to.
///
/// The address of an id is written to a terminal as it is given (`Id::url`, `Title::id_url`). So ask this of an address
/// that comes from a stranger, and leave the link out where it is none; in HTML that is done unasked.
pub fn is_link_address(address: &str) -> bool
    ensures value { result ≡ spec.is_link_address address.now }
{
    let is_known = has_scheme("http:", address)
        || has_scheme("https:", address)
        || has_scheme("mailto:", address);
    is_known && is_seen(address)
}

/// Whether each character of an address is an ASCII character that is seen.
fn is_seen(address: &str) -> bool
    ensures value { result ≡ spec.is_graphic_address address.now }
{
    address.as_bytes().iter().all(|b| b.is_ascii_graphic())
}

/// Whether an address begins with this scheme, in letters of either case.
fn has_scheme(scheme: &str, address: &str) -> bool
    requires lower { map to_ascii_lowercase scheme.now ≡ scheme.now }
    ensures value { result ≡ spec.has_scheme scheme.now address.now }
{
    let bytes = address.as_bytes();
    let len = scheme.len();
    len <= bytes.len() && bytes[..len].eq_ignore_ascii_case(scheme.as_bytes())
}
