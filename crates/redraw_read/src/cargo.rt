//! A message of cargo that has a diagnostic of rustc in it.

ghost use Rattle.std.specs.Prelude.{◌≡◌, IfOk};
ghost use Rattle.redraw_read.specs.Rustc.{IsPackagedAs};
ghost use Rattle.serde_json.specs.View.{view};

use crate::json::{given, given_text, owned};
use crate::reading::Reading;
use crate::rustc::diagnostic_by;
use json_lines::expectation::Expectation;
use json_lines::fault::Fault;
use json_lines::node::Node;
use redraw_report::diagnostic::Diagnostic;

/// The diagnostic in a message of cargo, by this reading, with the files of the package that it is of.
pub fn packaged_diagnostic_by(node: &Node<'_, '_>, reading: Reading) -> Result<Diagnostic, Fault>
    ensures read { IfOk result (IsPackagedAs (view node.now.value.now)) }
{
    let message = node.needed("message", Expectation::Object)?;
    let diagnostic = diagnostic_by(&message, reading)?;
    let packaged = with_homes(node, diagnostic)?;
    Ok(packaged)
}

/// A diagnostic in a message of cargo, with the files of the package.
fn with_homes(node: &Node<'_, '_>, diagnostic: Diagnostic) -> Result<Diagnostic, Fault>
    ensures kept { IfOk result (λ packaged. packaged ≡ record diagnostic { homes = packaged.homes }) }
{
    let mut homes = diagnostic.homes;
    add_home(node, "manifest_path", &mut homes)?;
    if let Some(target) = given(node, "target") {
        add_home(&target, "src_path", &mut homes)?;
    }
    Ok(Diagnostic {
        severity: diagnostic.severity,
        message: diagnostic.message,
        code: diagnostic.code,
        spans: diagnostic.spans,
        children: diagnostic.children,
        homes,
        shows_gone: diagnostic.shows_gone,
    })
}

/// The most bytes that the path of a file has on a machine.
const MOST_BYTES: usize = 4096;

/// Adds the file that is named in this field, if there is one. A name that is too long is that of no file: what is
/// looked for below its folders is then bounded, whatever a log says.
fn add_home(node: &Node<'_, '_>, name: &str, homes: &mut Vec<String>) -> Result<(), Fault> {
    match given_text(node, name)? {
        Some(path) if path.len() <= MOST_BYTES => Ok(homes.push(owned(node.alloc, path)?)?),
        _ => Ok(()),
    }
}
