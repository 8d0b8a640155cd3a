//! How a case is read from the JSON of its line, and how its settings are: those of the plain renderer where they are
//! missing.

ghost use Rattle.std.specs.Prelude.{◌≡◌, Some, false, IfOk, codes};
ghost use Rattle.annotate_snippets.specs.Fits.{ReportFits};
ghost use Rattle.serde_json.specs.Find.{as_bool};
ghost use Rattle.serde_json.specs.View.{view};
ghost use Rattle.json_lines.specs.Field.{as_whole, given, given_or};
ghost use Rattle.replay_answer.specs.Case.{HasSettingsOf, IsCaseOf, MayHaveSettings};
ghost use Rattle.replay_answer.specs.Case as spec;
ghost use Rattle.replay_read.specs.Report.{AreSourcesOf};

use crate::case::Case;
use annotate_snippets::Renderer;
use annotate_snippets::renderer::{DEFAULT_TERM_WIDTH, DecorStyle, Stylesheet};
use json_lines::fault::Fault;
use json_lines::node::Node;
use json_lines::place::JsonPath;
use replay_read::list::parts_at;
use replay_read::shape::{Shape, has_shape};
use replay_read::sheet::sheets_of;
use replay_read::source::{NamedSource, sources_of};
use serde_json::Value;
use std::alloc::Global;

/// The sources that the case of a line names: their lines are found here, once.
pub fn case_sources<'v>(alloc: Global, line: &'v Value) -> Result<Vec<NamedSource<'v>>, Fault>
    ensures value { IfOk result (λ sources. AreSourcesOf (given (codes "sources") (view line.now)) sources.items) }
{
    sources_of(&whole_line(alloc, line))
}

/// A line, where nothing of it was read.
fn whole_line<'v>(alloc: Global, line: &'v Value) -> Node<'v, 'static>
    ensures value { result.value.now ≡ line.now }
{
    Node {
        alloc,
        value: line,
        place: JsonPath::Line,
    }
}

/// The case that a line describes, whose sources are these.
pub fn case_of<'v>(
    alloc: Global,
    line: &'v Value,
    sources: &'v [NamedSource<'_>],
) -> Result<Case<'v>, Fault>
    requires sources { AreSourcesOf (given (codes "sources") (view line.now)) sources.now }
    ensures value { IfOk result (IsCaseOf (view line.now)) }
    ensures fits { IfOk result (λ case. ReportFits case.groups.items) }
{
    let case = whole_line(alloc, line);
    has_shape(&case, Shape::Case)?;
    Ok(Case {
        id: case.text("id")?,
        renderer: renderer_of(&case)?,
        sheets: sheets_of(&case)?,
        html: case.flag_or("html", false)?,
        html_page: case.flag_or("html_page", false)?,
        markdown: case.flag_or("markdown", false)?,
        groups: parts_at(&case, "groups", sources)?,
    })
}

/// The settings of a case, which are those of the plain renderer where none are given.
fn renderer_of(case: &Node<'_, '_>) -> Result<Renderer, Fault>
    ensures value { IfOk result (MayHaveSettings (given (codes "settings") (view case.now.value.now))) }
{
    match case.given("settings") {
        Some(settings) => settings_of(&settings),
        None => Ok(Renderer::plain()),
    }
}

/// The renderer of these settings, which are those of the plain one where fields are left out.
fn settings_of(node: &Node<'_, '_>) -> Result<Renderer, Fault>
    ensures value { IfOk result (HasSettingsOf (view node.now.value.now)) }
{
    has_shape(node, Shape::Settings)?;
    let (no_graphics, short_message, hyperlink) = switches_of(node)?;
    let (anonymized_snippet, anonymized_origin) = anonymized_by(node)?;
    let term_width = node.number_or("term_width", DEFAULT_TERM_WIDTH)?;
    let unicode = node.flag_or("unicode", false)?;
    let show_line_feeds = node.flag_or("show_line_feeds", false)?;
    let (context_before, context_after) = context_of(node)?;
    let wrap = node.flag_or("wrap", false)?;
    let mask_controls = node.flag_or("mask_controls", false)?;
    let label_lines = node.flag_or("label_lines", false)?;
    Ok(Renderer {
        no_graphics,
        short_message,
        term_width,
        decor_style: decor_of(unicode),
        anonymized_snippet_line_numbers: anonymized_snippet,
        anonymized_origin_line_numbers: anonymized_origin,
        hyperlink,
        show_line_feeds,
        context_before,
        context_after,
        wrap,
        mask_controls,
        label_lines,
        stylesheet: Stylesheet::plain(),
    })
}

/// Whether there are graphics, whether there is one line alone, and whether there are links.
fn switches_of(settings: &Node<'_, '_>) -> Result<(bool, bool, bool), Fault>
    ensures no_graphics { IfOk result (λ switches.
        given_or as_bool false (codes "no_graphics") (view settings.now.value.now) ≡ Some switches.0) }
    ensures short_message { IfOk result (λ switches.
        given_or as_bool false (codes "short_message") (view settings.now.value.now) ≡ Some switches.1) }
    ensures hyperlink { IfOk result (λ switches.
        given_or as_bool false (codes "hyperlink") (view settings.now.value.now) ≡ Some switches.2) }
{
    let no_graphics = settings.flag_or("no_graphics", false)?;
    let short_message = settings.flag_or("short_message", false)?;
    let hyperlink = settings.flag_or("hyperlink", false)?;
    Ok((no_graphics, short_message, hyperlink))
}

/// Whether line numbers are hidden, those of snippets and those after paths.
fn anonymized_by(settings: &Node<'_, '_>) -> Result<(bool, bool), Fault>
    ensures snippet { IfOk result (λ anonymized.
        given_or as_bool false (codes "anonymized_snippet") (view settings.now.value.now) ≡ Some anonymized.0) }
    ensures origin { IfOk result (λ anonymized.
        given_or as_bool false (codes "anonymized_origin") (view settings.now.value.now) ≡ Some anonymized.1) }
{
    let snippet = settings.flag_or("anonymized_snippet", false)?;
    let origin = settings.flag_or("anonymized_origin", false)?;
    Ok((snippet, origin))
}

/// How many lines before and after those of spans are shown.
fn context_of(settings: &Node<'_, '_>) -> Result<(usize, usize), Fault>
    ensures before { IfOk result (λ context.
        given_or as_whole 0 (codes "context_before") (view settings.now.value.now) ≡ Some context.0) }
    ensures after { IfOk result (λ context.
        given_or as_whole 0 (codes "context_after") (view settings.now.value.now) ≡ Some context.1) }
{
    let before = settings.number_or("context_before", 0)?;
    let after = settings.number_or("context_after", 0)?;
    Ok((before, after))
}

/// The strokes that are asked for.
fn decor_of(unicode: bool) -> DecorStyle
    ensures value { result ≡ spec.decor_of unicode }
{
    if unicode {
        DecorStyle::Unicode
    } else {
        DecorStyle::Ascii
    }
}
