//! How two entries of a line meet.
ghost use Rattle.std.specs.Prelude.{◌≡◌, ◌+◌, ◌&&◌, ◌||◌};
ghost use Rattle.snippet_labels.specs.Positions as spec;
ghost use Rattle.snippet_style.specs.Bounds.{IsColumn, IsUsize};

use crate::positions::{GAP, PlacedEntry};

/// Whether two marks overlap, unless they are one mark and only the first has a label.
pub(crate) fn crosses(entry: &PlacedEntry, other: &PlacedEntry) -> bool
    requires columns { IsColumn other.now.entry.end.display }
    ensures value { result ≡ spec.crosses entry.now other.now }
{
    overlap(other, 0, entry) && (other.has_label() || !is_same_place(entry, other))
}

/// Whether an entry farther left needs a row of its own: one of the two is a start or an end and the other is too, or
/// has a label; or its label would reach into this entry, which has a label too, or stands in the first row and ends no
/// earlier. The mark of this entry doesn't go past where labels are to end, or not in the first row.
pub(crate) fn crowds(position: usize, entry: &PlacedEntry, other: &PlacedEntry) -> bool
    requires columns { IsColumn other.now.entry.end.display }
    ensures value { result ≡ (spec.blocks entry.now other.now
        || (spec.has_label other.now && spec.is_near position entry.now other.now)) }
{
    blocks(entry, other) || reaches(position, entry, other)
}

/// The same where it does, in the first row: each label is crowded that would stand there.
pub(crate) fn stands_in_row(entry: &PlacedEntry, other: &PlacedEntry) -> bool
    ensures value { result ≡ (spec.blocks entry.now other.now || spec.has_label other.now) }
{
    other.has_label() || blocks(entry, other)
}

/// Whether one of two entries is a start or an end, and the other is too, or has a label.
fn blocks(entry: &PlacedEntry, other: &PlacedEntry) -> bool
    ensures value { result ≡ spec.blocks entry.now other.now }
{
    (entry.takes_space() && (other.has_label() || other.takes_space()))
        || (entry.has_label() && other.takes_space())
}

/// Whether the label of an entry farther left would reach into this entry, which has a label too, or stands in the
/// first row and ends no earlier. A label right of which nothing may stand reaches all that does.
fn reaches(position: usize, entry: &PlacedEntry, other: &PlacedEntry) -> bool
    requires columns { IsColumn other.now.entry.end.display }
    ensures value { result ≡ (spec.has_label other.now && spec.is_near position entry.now other.now) }
{
    other.has_label()
        && (other.label.stands_last() || overlap(other, other.label.width() + GAP, entry))
        && (entry.has_label() || (position == 0 && ends_no_later(other, entry)))
}

/// Whether one of two entries starts in the columns of the other, those of the first being this many more.
pub fn overlap(first: &PlacedEntry, more: usize, second: &PlacedEntry) -> bool
    requires room { IsUsize (first.now.entry.end.display + more) }
    ensures value { result ≡ spec.do_overlap first.now more second.now }
{
    let first_start = first.entry.start.display;
    let first_end = first.entry.end.display + more;
    let second_start = second.entry.start.display;
    let second_end = second.entry.end.display;
    (second_start <= first_start && first_start < second_end)
        || (first_start <= second_start && second_start < first_end)
}

/// Whether two entries have the same start and the same end, in columns and in characters.
fn is_same_place(first: &PlacedEntry, second: &PlacedEntry) -> bool
    ensures value { result ≡ spec.is_same_place first.now second.now }
{
    first.entry.start.display == second.entry.start.display
        && first.entry.start.char == second.entry.start.char
        && first.entry.end.display == second.entry.end.display
        && first.entry.end.char == second.entry.end.char
}

/// Whether an entry ends no later than another: at a lesser column, or at the same one and no greater character.
fn ends_no_later(first: &PlacedEntry, second: &PlacedEntry) -> bool
    ensures value { result ≡ spec.ends_no_later first.now second.now }
{
    let first = first.entry.end;
    let second = second.entry.end;
    first.display < second.display || (first.display == second.display && first.char <= second.char)
}
