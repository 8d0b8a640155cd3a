//! Calls of texts, styles, orders and settings that take no memory.

use crate::subject::print_subjects;
use annotate_snippets::level::{ERROR, HELP, Level, NOTE, WARNING};
use annotate_snippets::renderer::{
    AnsiColor, Color, DEFAULT_ERROR_STYLE, DecorStyle, Effects, Style, Stylesheet, reset_code,
};
use annotate_snippets::text::{char_width, is_one_line, str_width, text_fits};
use annotate_snippets::{AnnotationKind, Renderer};
use std::cmp::Ordering;
use std::io;

/// Makes the calls, and prints what came out right.
pub fn print(rt: &impl Print) -> io::Result<()> {
    print_subjects(
        rt,
        &[
            ("widths of characters", widths()),
            (
                "the width of a text, and what it is asked for",
                sizes("a\tb"),
            ),
            ("the parts of a style", style_parts()),
            ("the code that resets a style", resets()),
            ("the order of levels and kinds", orders()),
            ("switches of renderers", switches()),
            ("styles of renderers", sheets()),
        ],
    )
}

/// Whether characters have their widths.
fn widths() -> bool {
    char_width('\t') == 4 && char_width('日') == 2 && char_width('\u{200d}') == 0
}

/// Whether a text of two characters around a tab is one line that fits, six columns wide.
fn sizes(text: &str) -> bool {
    text_fits(text) && is_one_line(text) && str_width(text) == 6
}

/// Whether a style has the parts that it was given.
fn style_parts() -> bool {
    let ground = Some(Color::Ansi256(5));
    let style = AnsiColor::Red
        .on_default()
        .bg_color(ground)
        .effects(Effects::new().insert(Effects::BOLD));
    style.get_bg_color() == ground
        && style.get_effects().contains(Effects::BOLD)
        && style.fg_color(None).get_fg_color() == None
        && Style::new().is_plain()
}

/// Whether a style that isn't plain is reset, and the plain one isn't.
fn resets() -> bool {
    reset_code(DEFAULT_ERROR_STYLE) == "\u{1b}[0m" && reset_code(Style::new()) == ""
}

/// Whether levels and kinds of annotations have their order.
fn orders() -> bool {
    is_before(ERROR, WARNING)
        && is_before(HELP, HELP.no_name())
        && is_same(NOTE, NOTE)
        && AnnotationKind::Primary.cmp(&AnnotationKind::Visible) == Ordering::Less
}

/// Whether a level comes before another one.
fn is_before(level: Level<'_>, other: Level<'_>) -> bool {
    level.cmp(&other) == Ordering::Less
}

/// Whether two levels are equal.
fn is_same(level: Level<'_>, other: Level<'_>) -> bool {
    level == other
}

/// Whether a renderer has the settings that it was given.
fn switches() -> bool {
    let renderer = Renderer::plain()
        .no_graphics(true)
        .short_message(true)
        .term_width(80)
        .decor_style(DecorStyle::Unicode)
        .anonymized_snippet_line_numbers(true)
        .anonymized_line_numbers(true)
        .anonymized_origin_line_numbers(true)
        .hyperlink(true)
        .show_line_feeds(true)
        .context_lines(2, 1)
        .wrap(true)
        .mask_controls(true)
        .label_lines(true);
    is_switched(&renderer)
}

/// Whether a renderer has all switches on, is 80 columns wide, draws with the characters of Unicode, and shows two
/// lines before those of spans and one after.
fn is_switched(renderer: &Renderer) -> bool {
    renderer.no_graphics
        && renderer.short_message
        && renderer.term_width == 80
        && renderer.decor_style == DecorStyle::Unicode
        && renderer.anonymized_snippet_line_numbers
        && renderer.anonymized_origin_line_numbers
        && renderer.hyperlink
        && renderer.show_line_feeds
        && renderer.context_before == 2
        && renderer.context_after == 1
        && renderer.wrap
        && renderer.mask_controls
        && renderer.label_lines
}

/// Whether a renderer whose styles are taken away is as plain as the plain one.
fn sheets() -> bool {
    let renderer = Renderer::styled()
        .error(Style::new())
        .warning(Style::new())
        .info(Style::new())
        .note(Style::new())
        .help(Style::new())
        .line_num(Style::new())
        .emphasis(Style::new())
        .none(Style::new())
        .context(Style::new())
        .addition(Style::new())
        .removal(Style::new());
    renderer.stylesheet == Stylesheet::plain()
}
