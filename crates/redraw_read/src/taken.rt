//! The parts of a file that edits change which are made together: a new edit is compared with few of them.

use std::alloc::{AllocError, Global};
use std::collections::{BTreeMap, BTreeSet};

/// A line and a column.
pub type LinePlace = (usize, Option<usize>);

/// Parts of a file, each from a place to another one. In a log the other may come first.
#[derive(Drop)]
pub struct TakenParts {
    parts: BTreeSet<(LinePlace, LinePlace)>,
    /// The ends of parts by their starts, both rising: a part that starts no earlier than another one and ends no later
    /// isn't here.
    ends: BTreeMap<LinePlace, LinePlace>,
}

impl TakenParts {
    /// No parts.
    pub fn new(alloc: Global) -> TakenParts {
        TakenParts {
            parts: BTreeSet::new(alloc),
            ends: BTreeMap::new(alloc),
        }
    }

    /// Whether one of the parts is this one, or neither ends before the other starts.
    pub fn meets(&self, from: LinePlace, to: LinePlace) -> bool {
        let part = (from, to);
        self.parts.contains(&part) || self.reaches(from, to)
    }

    /// Whether a part starts before `to` and ends after `from`. Of those that start before it the last ends last.
    fn reaches(&self, from: LinePlace, to: LinePlace) -> bool {
        match self.ends.range(..to).next_back() {
            Some((_, end)) => *end > from,
            None => false,
        }
    }

    /// Adds a part.
    pub fn add(&mut self, from: LinePlace, to: LinePlace) -> Result<(), AllocError> {
        self.parts.insert((from, to))?;
        if !self.covers(from, to) {
            self.drop_covered(from, to);
            self.ends.insert(from, to)?;
        }
        Ok(())
    }

    /// Whether a part starts no later and ends no earlier.
    fn covers(&self, from: LinePlace, to: LinePlace) -> bool {
        match self.ends.range(..=from).next_back() {
            Some((_, end)) => *end >= to,
            None => false,
        }
    }

    /// Drops the ends of parts that start no earlier and end no later.
    fn drop_covered(&mut self, from: LinePlace, to: LinePlace) {
        for _ in 0..self.ends.len() {
            match self.first_covered(from, to) {
                Some(start) => {
                    let _end = self.ends.remove(&start);
                }
                None => return,
            }
        }
    }

    /// Where the first part starts that starts no earlier, if it ends no later.
    fn first_covered(&self, from: LinePlace, to: LinePlace) -> Option<LinePlace> {
        match self.ends.range(from..).next() {
            Some((start, end)) if *end <= to => Some(*start),
            _ => None,
        }
    }
}
