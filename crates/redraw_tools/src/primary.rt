//! Which of a result's places are the point of the report.
ghost use Rattle.std.specs.Prelude.{◌≡◌, map};
ghost use Rattle.std.specs.List.{list_all, list_any};
ghost use Rattle.redraw_tools.specs.Primary as spec;

use redraw_report::diagnostic::{FileSpan, Region};

/// Makes those places the point of the report that are one column, if there are such and all places are in one file:
/// the others help to see them. So writes clang: the column of the error, and the parts of the source around it.
pub fn choose_primary(spans: &mut [FileSpan])
    ensures value { spans.new ≡ spec.chosen spans.old }
{
    if is_one_file(spans) && has_caret(spans) {
        mark_carets(spans);
    }
}

/// Makes those places the point of the report that are one column.
fn mark_carets(spans: &mut [FileSpan])
    ensures value { spans.new ≡ map spec.by_caret spans.old }
{
    for span in spans.iter_mut() {
        span.is_primary = is_caret(span.region);
    }
}

/// Whether some places are all in one file.
fn is_one_file(spans: &[FileSpan]) -> bool
    ensures value { result ≡ spec.is_one_file spans.now }
{
    match spans {
        [first, rest @ ..] => are_in(rest, first.file.as_str()),
        [] => true,
    }
}

/// Whether some places are all in the file of this name.
fn are_in(spans: &[FileSpan], file: &str) -> bool
    ensures value { result ≡ list_all (spec.is_in file.now) spans.now }
{
    for span in spans {
        if !is_in(span, file) {
            return false;
        }
    }
    true
}

/// Whether a place is in the file of this name.
fn is_in(span: &FileSpan, file: &str) -> bool
    ensures value { result ≡ spec.is_in file.now span.now }
{
    span.file.as_str() == file
}

/// Whether one of some places is a column.
fn has_caret(spans: &[FileSpan]) -> bool
    ensures value { result ≡ list_any (λ span. spec.is_caret span.region) spans.now }
{
    for span in spans {
        if is_caret(span.region) {
            return true;
        }
    }
    false
}

/// Whether a region is one column of a line, and no part of it.
fn is_caret(region: Region) -> bool
    ensures value { result ≡ spec.is_caret region }
{
    match region {
        Region::Lines(lines) => {
            lines.start_line == lines.end_line
                && is_same_column(lines.start_column, lines.end_column)
        }
        _ => false,
    }
}

/// Whether two columns are given and the same.
fn is_same_column(start: Option<usize>, end: Option<usize>) -> bool
    ensures value { result ≡ spec.same_column start end }
{
    match (start, end) {
        (Some(start), Some(end)) => start == end,
        _ => false,
    }
}
