//! A reader of configurations over `toml`: the place of its error becomes a span, and the path an origin.
ghost use Rattle.annotate_snippets.specs.Fits.{TextFits};

use annotate_snippets::level::ERROR;
use annotate_snippets::renderer::RenderError;
use annotate_snippets::text::text_fits;
use annotate_snippets::{AnnotationKind, Group, Origin, Renderer, Snippet};
use std::alloc::{AllocError, Global};
use toml::Value;
use toml::de::Error;

/// A report, or why there is none.
type Rendered = Result<String, RenderError>;

/// The report of a text that isn't TOML: it marks the bytes that the parser stumbled over.
fn not_toml<'a>(alloc: Global, path: &'a str, text: &'a str, error: &'a Error) -> Rendered
    requires path { TextFits path.now }
    requires text { TextFits text.now }
{
    // An error without a place is that the parser was out of memory. How long a reason may be no clause of `toml`
    // tells.
    let place = error.span().ok_or(RenderError::Memory(AllocError))?;
    let reason = error.message();
    let label = if text_fits(reason) { reason } else { "" };
    let mark = AnnotationKind::Primary.span(place);
    let snippet = Snippet::source(alloc, text)
        .path_str(path)
        .annotation(mark.label_str(label))?;
    let group: Group<'a> = ERROR
        .primary_title("the configuration isn't TOML")
        .snippet(alloc, snippet)?;
    Renderer::plain().render(alloc, &[group])
}

/// The report of a configuration without a port: there is no line to show, so the file alone is named, by an origin.
fn no_port<'a>(alloc: Global, path: &'a str) -> Rendered
    requires path { TextFits path.now }
{
    let group: Group<'a> = ERROR
        .primary_title("the configuration has no `port` that is an integer")
        .origin(alloc, Origin::path(path))?;
    Renderer::plain().render(alloc, &[group])
}

/// The port that a configuration names, as a text; else the report of what is wrong with it.
pub fn port(alloc: Global, path: &str, text: &str) -> Rendered
    requires path { TextFits path.now }
    requires text { TextFits text.now }
{
    match toml::table_from_str(alloc, text) {
        Err(error) => not_toml(alloc, &*path, &*text, &error), // both lent for as long as `error` stays
        Ok(table) => match table.get("port").and_then(Value::as_integer) {
            Some(port) => Ok(format!(in alloc; "port {port}")?),
            None => no_port(alloc, path),
        },
    }
}
