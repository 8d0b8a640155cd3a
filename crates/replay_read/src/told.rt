//! How many places the markers of a case tell in each unit: where there are many, the sources that it names are
//! measured. It says what reading costs, and nothing of what is read.

use crate::span::{SpanUnit, places_in};
use serde_json::Value;

/// How many markers a source may have for which it isn't measured.
const FEW_MARKERS: usize = 8;

/// Whether so many places are worth measuring their source first.
pub fn are_many(places: usize) -> bool {
    FEW_MARKERS < places
}

/// How many places are told in each unit, or in none.
#[derive(Clone, Copy)]
pub struct ToldPlaces {
    pub unsaid: usize,
    pub bytes: usize,
    pub chars: usize,
    pub utf16: usize,
}

impl ToldPlaces {
    /// Those that the snippets of a case tell of sources that the case names.
    pub fn of_case(case: &Value) -> ToldPlaces {
        let mut told = ToldPlaces {
            unsaid: 0,
            bytes: 0,
            chars: 0,
            utf16: 0,
        };
        for group in values_at(case, "groups") {
            told.add_elements(values_at(group, "elements"));
        }
        told
    }

    /// Adds those of the snippets among some elements.
    fn add_elements(&mut self, elements: &[Value]) {
        for element in elements {
            if let Some(cause) = element.get("cause") {
                self.add_snippet(cause, values_at(cause, "annotations"));
            }
            if let Some(suggestion) = element.get("suggestion") {
                self.add_snippet(suggestion, values_at(suggestion, "patches"));
            }
        }
    }

    /// Adds those of a snippet with these markers, if its source is one that the case names.
    fn add_snippet(&mut self, snippet: &Value, markers: &[Value]) {
        if !snippet
            .get("source")
            .is_some_and(|source| source.is_number())
        {
            return;
        }
        match snippet.get("unit").and_then(|unit| unit.as_str()) {
            None => {
                self.unsaid = self.unsaid.saturating_add(places_in(markers, None));
            }
            Some("char") => {
                let places = places_in(markers, Some(SpanUnit::Char));
                self.chars = self.chars.saturating_add(places);
            }
            Some("utf16") => {
                let places = places_in(markers, Some(SpanUnit::Utf16));
                self.utf16 = self.utf16.saturating_add(places);
            }
            Some(_) => {
                let places = places_in(markers, Some(SpanUnit::Byte));
                self.bytes = self.bytes.saturating_add(places);
            }
        }
    }
}

/// The values of the list in a field of this name; none where there is no such list.
fn values_at<'v>(value: &'v Value, name: &str) -> &'v [Value] {
    match value.get(name).and_then(|list| list.as_array()) {
        Some(values) => values,
        None => &[],
    }
}
