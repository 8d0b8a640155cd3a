//! A first program, as the README shows it, a report under two sheets by two calls, and a switch that has two names.

use annotate_snippets::level::ERROR;
use annotate_snippets::renderer::RenderError;
use annotate_snippets::{AnnotationKind, Element, Group, OptionCow, Renderer, Snippet};
use std::alloc::{AllocError, Global};
use std::test::Fail;

/// What is wrong with a variable that isn't used, where it stands in a file.
fn first_program(alloc: Global) -> Result<String, RenderError> {
    let mark = AnnotationKind::Primary
        .span(4..5)
        .label(OptionCow::from("never read"));
    let snippet = Snippet::source(alloc, "let x = 1;\n")
        .path(OptionCow::from("src/main.rs"))
        .annotation(mark)
        .map_err(RenderError::Memory)?;
    let group: Group<'static> = ERROR
        .primary_title("unused variable")
        .element(alloc, Element::from(snippet))
        .map_err(RenderError::Memory)?;
    Renderer::plain().render(alloc, &[group])
}

#[test]
fn runs_the_first_program(rt: HostRuntime) -> Result<(), Fail> {
    let shown =
        "error: unused variable\n --> src/main.rs:1:5\n  |\n1 | let x = 1;\n  |     ^ never read";
    assert_eq!(rt; first_program(rt.alloc())?.as_str(), shown);
    Ok(())
}

/// A report of a marked line, drawn with these settings.
fn drawn_with(alloc: Global, renderer: &Renderer) -> Result<String, RenderError> {
    let mark = AnnotationKind::Primary
        .span(4..5)
        .label(OptionCow::from("never read"));
    let snippet = Snippet::source(alloc, "let x = 1;\n")
        .annotation(mark)
        .map_err(RenderError::Memory)?;
    let group: Group<'static> = ERROR
        .primary_title("unused variable")
        .element(alloc, Element::from(snippet))
        .map_err(RenderError::Memory)?;
    renderer.render(alloc, &[group])
}

/// A text without codes, each of which goes from U+001B to the next `m`.
fn without_codes(alloc: Global, text: &str) -> Result<String, AllocError> {
    let mut plain = String::new(alloc);
    for (index, part) in text.split('\u{1b}').enumerate() {
        match part.split_once('m') {
            Some((_, rest)) if index > 0 => plain.push_str(rest)?,
            _ => plain.push_str(part)?,
        }
    }
    Ok(plain)
}

#[test]
fn draws_one_text_under_two_sheets_by_two_calls(rt: HostRuntime) -> Result<(), Fail> {
    let plain = drawn_with(rt.alloc(), &Renderer::plain())?;
    let styled = drawn_with(rt.alloc(), &Renderer::styled())?;
    assert!(rt; !plain.as_str().contains('\u{1b}'));
    assert!(rt;
        styled
            .as_str()
            .contains("\u{1b}[1m\u{1b}[91merror\u{1b}[0m")
    );
    assert_eq!(rt;
        without_codes(rt.alloc(), styled.as_str())?.as_str(),
        plain.as_str()
    );
    Ok(())
}

#[test]
fn hides_line_numbers_by_either_switch(rt: HostRuntime) {
    let one = Renderer::plain().anonymized_line_numbers(true);
    let other = Renderer::plain().anonymized_snippet_line_numbers(true);
    assert!(rt; one.anonymized_snippet_line_numbers);
    assert!(rt; other.anonymized_snippet_line_numbers);
}
