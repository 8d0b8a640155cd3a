//! Reports that are written to writers which take a byte at a time, are interrupted or fail; spans by line and column.
use crate::slow::Slow;
use annotate_snippets::level::{ERROR, HELP};
use annotate_snippets::renderer::parts::{ColumnUnit, Position, span_at};
use annotate_snippets::renderer::{RenderError, RenderToError};
use annotate_snippets::snippet::report_fits;
use annotate_snippets::{AnnotationKind, Group, Renderer, Snippet};
use std::alloc::{AllocError, Global};
use std::test::Fail;

/// What the report below has to be.
const SHOWN: &str =
    "error: unused variable\n --> src/main.rs:1:5\n  |\n1 | let x = 1;\n  |     ^ never read\n  |\nhelp: call it `_x`";

/// A report of two groups.
fn report(alloc: Global) -> Result<[Group<'static>; 2], AllocError> {
    let mark = AnnotationKind::Primary.span(4..5).label_str("never read");
    let snippet = Snippet::source(alloc, "let x = 1;\n")
        .path_str("src/main.rs")
        .annotation(mark)?;
    let unused = ERROR
        .primary_title("unused variable")
        .snippet(alloc, snippet)?;
    let mended = Group::with_title(alloc, HELP.secondary_title("call it `_x`"));
    Ok([unused, mended])
}

/// A report of two groups, written to a writer.
fn written(alloc: Global, out: &mut Slow) -> Result<(), RenderToError> {
    let groups: [Group<'static>; 2] = report(alloc).map_err(RenderError::Memory)?;
    if report_fits(&groups) {
        Renderer::plain().render_to(alloc, &groups, out)?;
    }
    Ok(())
}

#[test]
fn writes_a_report_whole_or_a_first_part_of_it(rt: HostRuntime) -> Result<(), Fail> {
    let bytes = SHOWN.as_bytes();
    for room in [0, 1, 22, 23, 86, 87, 88, 89, 105, 106, 200] {
        let mut slow = Slow::with_room(rt.alloc(), room);
        let whole = written(rt.alloc(), &mut slow).is_ok();
        let count = room.min(bytes.len());
        assert_eq!(rt; whole, room >= bytes.len());
        assert_eq!(rt; slow.text.as_slice(), &bytes[..count]);
    }
    Ok(())
}

/// The span of one column of a line, and whether it is clamped.
fn column(source: &str, line: usize, column: usize, unit: ColumnUnit) -> (usize, usize, bool) {
    let to = Position {
        line,
        column: column.saturating_add(1),
    };
    let at = span_at(source, Position { line, column }, to, unit);
    (at.span.start, at.span.end, at.clamped)
}

#[test]
fn finds_places_by_line_and_column(rt: HostRuntime) {
    let source = "a\n\u{e9}=\u{1f600}\t\u{65e5}\r\nb";
    let chars = ColumnUnit::Chars;
    assert_eq!(rt; column(source, 1, 1, chars), (0, 1, false));
    assert_eq!(rt; column(source, 2, 1, chars), (2, 4, false));
    assert_eq!(rt; column(source, 2, 3, chars), (5, 9, false));
    // A place after the text of its line, and one after that.
    assert_eq!(rt; column(source, 2, 5, chars), (10, 13, false));
    assert_eq!(rt; column(source, 2, 6, chars), (13, 13, true));
    // Two units of UTF-16, and between them.
    assert_eq!(rt; column(source, 2, 5, ColumnUnit::Utf16), (9, 10, false));
    assert_eq!(rt; column(source, 2, 4, ColumnUnit::Utf16), (5, 9, true));
    // A tab is four columns wide.
    assert_eq!(rt; column(source, 2, 9, ColumnUnit::Columns), (10, 10, true));
    // No such line, or column.
    assert_eq!(rt; column(source, 4, 1, chars), (16, 16, true));
    assert_eq!(rt; column(source, 0, 1, chars), (0, 0, true));
    assert_eq!(rt; column(source, 3, 0, chars), (15, 15, true));
    // After a line feed that ends a text there is a line.
    assert_eq!(rt; column("a\n", 2, 1, chars), (2, 2, true));
}
