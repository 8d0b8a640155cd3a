//! A case with each field that the library has a call for, beside the same report built by hand.
ghost use Rattle.annotate_snippets.specs.Fits.{AnnotationFits, SnippetFits};

use annotate_snippets::level::WARNING;
use annotate_snippets::renderer::{
    AnsiColor, Color, DecorStyle, Effects, RenderError, Style, Stylesheet,
};
use annotate_snippets::{Annotation, AnnotationKind, Element, Group, OptionCow, Renderer, Snippet};
use replay_answer::outcome::{Outcome, name_of, outcome_of};
use replay_answer::read::{case_of, case_sources};
use serde_json::Value;
use std::alloc::Global;
use std::test::Fail;

/// A report with each field that the library has a call for.
const FULL: &str = r#"{"id": "full",
    "settings": {"term_width": 100, "unicode": true, "hyperlink": true, "no_graphics": false,
        "short_message": false, "anonymized_snippet": false, "anonymized_origin": false},
    "sheets": ["plain", "default", {"warning": {"fg": {"rgb": [1, 2, 255]}, "bg": {"ansi256": 7},
        "effects": ["ITALIC", "UNDERLINE"]}, "context": {"fg": "BrightCyan"}}],
    "groups": [{"title": {"level": {"kind": "warning"}, "text": "unused \u00e9", "primary": true,
            "id": "W1", "url": "https://a.example/W1"},
        "elements": [{"cause": {"source": "let x = 1;\nlet y = 2;\n", "line_start": 18446744073709551612,
            "line_numbering": true, "fold": true, "annotations": [
                {"kind": "context", "start": 15, "end": 16},
                {"kind": "primary", "start": 4, "end": 5, "label": "here", "highlight_source": true}]}}]}]}"#;

/// The sheet that is written out in it.
fn own_sheet() -> Stylesheet {
    Stylesheet {
        warning: Style::new()
            .fg_color(Some(Color::Rgb(1, 2, 255)))
            .bg_color(Some(Color::Ansi256(7)))
            .effects(Effects::ITALIC.insert(Effects::UNDERLINE)),
        context: Style::new().fg_color(Some(Color::Ansi(AnsiColor::BrightCyan))),
        ..Stylesheet::plain()
    }
}

/// The texts of a report of this snippet, with the other parts of the same report.
fn texts<'a>(
    alloc: Global,
    snippet: Snippet<'a, Annotation<'a>>,
) -> Result<Vec<String>, RenderError>
    requires snippet { SnippetFits AnnotationFits snippet }
{
    let renderer = Renderer::plain()
        .term_width(100)
        .decor_style(DecorStyle::Unicode)
        .hyperlink(true);
    let sheets = [Stylesheet::plain(), Stylesheet::styled(), own_sheet()];
    let group: Group<'a> = WARNING
        .primary_title("unused é")
        .id("W1")
        .id_url("https://a.example/W1")
        .element(alloc, Element::from(snippet))
        .map_err(RenderError::Memory)?;
    renderer.render_sheets(alloc, &[group], &sheets)
}

/// The texts of the same report, built by hand.
fn built(alloc: Global) -> Result<Vec<String>, Fail> {
    let here = AnnotationKind::Primary
        .span(4..5)
        .label(OptionCow::from("here"))
        .highlight_source(true);
    let snippet = Snippet::source(alloc, "let x = 1;\nlet y = 2;\n")
        .line_start(18446744073709551612)
        .annotation(AnnotationKind::Context.span(15..16))?
        .annotation(here)?;
    Ok(texts(alloc, snippet)?)
}

/// The texts of the case that a line describes.
fn drawn(alloc: Global, line: &str) -> Result<Vec<String>, Fail> {
    let value = Value::from_str(alloc, line)?;
    let Ok(sources) = case_sources(alloc, &value) else {
        return Err(Fail::new("no sources"));
    };
    let Ok(case) = case_of(alloc, &value, &sources) else {
        return Err(Fail::new("no case"));
    };
    match outcome_of(alloc, &case)? {
        Outcome::Texts(texts) => Ok(texts),
        Outcome::Refused(refusal, _, _) => Err(Fail::new(name_of(&refusal))),
    }
}

#[test]
fn reads_each_field(rt: HostRuntime) -> Result<(), Fail> {
    let wanted = built(rt.alloc())?;
    assert_eq!(rt; wanted.len(), 3);
    let texts = drawn(rt.alloc(), FULL)?;
    assert_eq!(rt; texts.as_slice(), wanted.as_slice());
    Ok(())
}
