//! How far the lines of a snippet reach, with their spans and labels, and the margin for them.
ghost use Rattle.std.specs.Prelude.{◌≡◌, ◌≤◌, ◌++◌, ◌∷◌, [], All, List, IfSome, Some, map, max};
ghost use Rattle.std.specs.Option.{option_copied};
ghost use Rattle.std.specs.Prelude.{◌-◌};
ghost use Rattle.snippet_parts.specs.declared.entries.AnnotatedLineInfo.{AnnotatedLineInfo};
ghost use Rattle.snippet_parts.specs.declared.entries.LineAnnotation.{LineAnnotation};
ghost use Rattle.snippet_parts.specs.OnLine.{seen_kept};
ghost use Rattle.snippet_parts.specs.Entries.{is_bar};
ghost use Rattle.snippet_window.specs.Measures as spec;
ghost use Rattle.snippet_window.specs.Measures.{StandsClear, end_with, margin_of};
ghost use Rattle.snippet_window.specs.Extent.{ReachesEntries, ReachesLines};
ghost use Rattle.snippet_parts.specs.ShownLines.{kept_of};
ghost use Rattle.snippet_text.specs.TextBounds.{TextFits};

use crate::margin::Margin;
use crate::whitespace::leading_whitespace;
use snippet_parts::entries::{LineAnnotation, LineAnnotationType};
use snippet_parts::least::{lesser, lesser_of};
use snippet_parts::shown_line::ShownLine;
use snippet_text::str_width;

/// The margin for the lines of a snippet, in a room of this many columns: that of the lines that are kept. Bars take no
/// part.
pub fn margin_for(lines: &[ShownLine], room: usize) -> Margin
    requires texts { All (λ line. TextFits line.info.line.now) lines.now }
    requires labels { All (λ line. All (λ e. IfSome e.label TextFits) line.info.annotations.items)
        lines.now }
    ensures bounds { result ≡ margin_of room (map seen_kept (kept_of lines.now)) }
    ensures room { result.term_width ≡ room }
    ensures ordered { result.computed_left ≤ result.computed_right }
    ensures clear { All (λ info. All (StandsClear result) info.annotations.items) (kept_of lines.now) }
{
    let mut extent = Extent::NONE;
    for line in lines {
        if !line.between {
            extent.add_line(line);
        }
    }
    Margin::new(
        extent.whitespace.unwrap_or(0),
        extent.first.unwrap_or(0),
        extent.last,
        extent.label_end,
        room,
        extent.widest,
    )
}

/// How far some lines reach, in columns.
#[derive(Clone, Copy)]
struct Extent {
    /// The least width of whitespace that a line begins with, blank ones left out.
    whitespace: Option<usize>,
    /// The least column at which an entry starts or ends.
    first: Option<usize>,
    /// The greatest such column, or 0.
    last: usize,
    /// The greatest column after a label, or after a mark that has none, or 0.
    label_end: usize,
    /// The width of the widest line.
    widest: usize,
}

impl Extent {
    /// That of no lines.
    const NONE: Extent = Extent {
        whitespace: None,
        first: None,
        last: 0,
        label_end: 0,
        widest: 0,
    };

    /// Takes in a line, with its entries.
    fn add_line(&mut self, line: &ShownLine)
        requires text { TextFits line.now.info.line.now }
        requires labels { All (λ e. IfSome e.label TextFits) line.now.info.annotations.items }
        ensures adds { (before : List AnnotatedLineInfo) → ReachesLines before self.old
            → ReachesLines (before ++ line.now.info ∷ []) self.new }
    {
        self.whitespace = lesser_of(self.whitespace, leading_whitespace(line.info.line));
        self.widest = self.widest.max(line.width);
        for entry in &line.info.annotations {
            self.add_entry(entry);
        }
    }

    /// Takes in an entry.
    fn add_entry(&mut self, entry: &LineAnnotation)
        requires label { IfSome entry.now.label TextFits }
        ensures adds { (before : List LineAnnotation) → ReachesEntries before self.old
            → ReachesEntries (before ++ entry.now ∷ []) self.new }
        ensures lines { self.new ≡ record self.old {
          first = self.new.first;
          last = self.new.last;
          label_end =
              self.new.label_end;
        } }
    {
        if is_bar(entry.annotation_type) {
            return;
        }
        self.first = lesser(lesser(self.first, entry.start.display), entry.end.display);
        self.last = self.last.max(entry.start.display).max(entry.end.display);
        self.label_end = self.label_end.max(label_end(entry));
    }
}

/// Whether an entry stands for a bar.
fn is_bar(part: LineAnnotationType) -> bool
    ensures value { result ≡ is_bar part }
{
    matches!(part, LineAnnotationType::MultilineLine(_))
}

/// The column after an entry's label, or after its mark where it has none.
fn label_end(entry: &LineAnnotation) -> usize
    requires label { IfSome entry.now.label TextFits }
    ensures value { result ≡ end_with entry.now.end.display entry.now.label }
{
    match entry.label.text() {
        Some(text) => entry.end.display.saturating_add(str_width(text) + 1),
        None => entry.end.display,
    }
}
