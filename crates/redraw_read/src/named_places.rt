//! The places that a text names: its lines are sorted for the first one that is asked for, and never again.

ghost use Rattle.std.specs.Prelude.{◌≡◌, ◌==◌, IfOk, is_some};
ghost use Rattle.std.specs.List.{slice_split};
ghost use Rattle.std.specs.Option.{ForSome};
ghost use Rattle.redraw_read.specs.AsShown.{names_place};
ghost use Rattle.redraw_read.specs.ShownLines.{AreNumbersOf, number_of};
ghost use Rattle.redraw_read.specs.declared.rendered.Stand.TheVariants as stand;

use crate::rendered::Stand;
use crate::shown_lines::{LineNumbers, lines_of, numbers_of};
use std::alloc::{AllocError, Global};

/// A text, and what stands in its lines where a place may, once that was asked for.
#[derive(Drop)]
pub struct NamedPlaces<'t> {
    pub text: &'t str,
    names: Option<LineNumbers>,
    ghost named: { ForSome names (λ n. AreNumbersOf stand.Origin n (slice_split (λ b. b == 10) text.now)) },
}

impl<'t> NamedPlaces<'t> {
    /// Those of a text.
    pub fn new(text: &'t str) -> NamedPlaces<'t>
        ensures text { result.text.now ≡ text.now }
    {
        NamedPlaces { text, names: None }
    }

    /// Whether the text names this place.
    pub fn has(
        &mut self,
        alloc: Global,
        file: &str,
        line: usize,
        column: usize,
    ) -> Result<bool, AllocError>
        ensures text { self.new.text.now ≡ self.old.text.now }
        ensures value { IfOk result (λ is. is ≡ names_place self.old.text.now file.now line column) }
    {
        let place = format!(in alloc; "{file}:{line}:{column}")?;
        if let Some(names) = &self.names {
            return Ok(is_among(place.as_str(), names));
        }
        let names = names_in(alloc, self.text)?;
        let is_named = is_among(place.as_str(), &names);
        self.names = Some(names);
        Ok(is_named)
    }
}

/// What stands in the lines of a text where a place may.
fn names_in(alloc: Global, text: &str) -> Result<LineNumbers, AllocError>
    ensures each { IfOk result (λ names.
        AreNumbersOf stand.Origin names (slice_split (λ b. b == 10) text.now)) }
{
    let lines = lines_of(alloc, text)?;
    numbers_of(alloc, Stand::Origin, &lines)
}

/// Whether a place is one of some names.
fn is_among(place: &str, names: &LineNumbers) -> bool
    ensures value { result ≡ is_some (number_of names.now place.now) }
{
    names.contains_key(place)
}
