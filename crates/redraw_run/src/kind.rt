//! What a value of JSON is, by its fields.
ghost use Rattle.std.specs.Prelude.{◌≡◌, ◌↔◌, IfSome, Some, false, IsTrue, codes, map};
ghost use Rattle.json_lines.specs.Field.{flag_field};
ghost use Rattle.serde_json.specs.View.{view};
ghost use Rattle.redraw_run.specs.Fates.{IsCargoKind, IsLspKind, IsOfKind};
ghost use Rattle.redraw_run.specs.Logged.{AreFiles, items_in};

use serde_json::Value;

/// What a value of JSON is.
#[derive(Clone, Copy)]
pub enum Kind {
    /// A diagnostic of rustc.
    Rustc,
    /// A message of cargo that has a diagnostic of rustc in it.
    Cargo,
    /// The last message of cargo, where the build failed.
    Failed,
    /// A message of rustc or cargo that has none.
    Other,
    /// A SARIF log.
    Sarif,
    /// Diagnostics of a document, as the Language Server Protocol has them.
    Lsp,
    /// A notification of it that has these.
    LspNotification,
}

/// What this value is; `None` where it is none of them.
pub fn kind_of(value: &Value) -> Option<Kind>
    ensures kind { IsOfKind (view value.now) result }
{
    if value.get("runs").is_some() {
        return Some(Kind::Sarif);
    }
    if let Some(reason) = value.get("reason").and_then(Value::as_str) {
        return Some(cargo_kind(reason, value));
    }
    if value.get("message").is_some() && value.get("spans").is_some() {
        return Some(Kind::Rustc);
    }
    if value.get("$message_type").is_some() {
        Some(Kind::Other)
    } else {
        lsp_kind(value)
    }
}

/// What a value is of the Language Server Protocol; `None` where it is nothing that is known.
fn lsp_kind(value: &Value) -> Option<Kind>
    ensures kind { IsLspKind (view value.now) result }
{
    if value.get("uri").is_some() && value.get("diagnostics").is_some() {
        Some(Kind::Lsp)
    } else if value.get("method").and_then(Value::as_str)
        == Some("textDocument/publishDiagnostics")
    {
        Some(Kind::LspNotification)
    } else {
        None
    }
}

/// What a message of cargo is, by its reason.
fn cargo_kind(reason: &str, value: &Value) -> Kind
    ensures kind { IsCargoKind reason.now (view value.now) result }
{
    if reason == "compiler-message" {
        Kind::Cargo
    } else if reason == "build-finished" && is_failed(value) {
        Kind::Failed
    } else {
        Kind::Other
    }
}

/// Whether cargo's last message says that the build failed.
fn is_failed(value: &Value) -> bool
    ensures failed { IsTrue result ↔ (flag_field (codes "success") (view value.now) ≡ Some false) }
{
    value.get("success").and_then(Value::as_bool) == Some(false)
}

/// The files of ESLint's log, if a list is one: its first item is an object with a path and messages.
pub fn eslint_files(value: &Value) -> Option<&[Value]>
    ensures files { IfSome result (λ files. (items_in (view value.now) ≡ map view files.now)
        × AreFiles (map view files.now)) }
{
    let files = value.as_array()?.as_slice();
    let first = files.first()?;
    if first.get("filePath").is_some() && first.get("messages").is_some() {
        Some(files)
    } else {
        None
    }
}
