//! The parts that reports are drawn with, public so that their contracts can be read.

pub use snippet_grid::{SheetCodes, StyledBuffer, StyledChar};
pub use snippet_lines::{
    ColumnUnit, CursorLines, EndLine, Loc, Position, SpanAt, SpanFault, check_span, newline_count,
    span_at,
};
pub use snippet_parts::{
    AnnotatedLineInfo, Label, LineAnnotation, LineAnnotationType, LineInfo, SourceMap,
};
pub use snippet_splice::{
    LineRange, SplicedLines, SubstitutionHighlight, TrimmedPatch, as_substr, check_patches,
};
pub use snippet_style::{ElementStyle, LevelInner, Strokes};
pub use snippet_window::Margin;
