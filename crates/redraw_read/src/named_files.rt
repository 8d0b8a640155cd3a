//! The files that rustc's own text of a diagnostic names: after the arrows, and beside later files of a group.

ghost use Rattle.std.specs.Prelude.{◌≡◌};
ghost use Rattle.std.specs.BTreeSet.{contains_text};

use std::alloc::{AllocError, Global};
use std::collections::BTreeSet;

/// The files that a text names.
#[derive(Drop)]
pub struct NamedFiles {
    names: BTreeSet<String>,
}

impl NamedFiles {
    /// Those that a text without styles names.
    pub fn new(alloc: Global, text: &str) -> Result<NamedFiles, AllocError> {
        let mut names = BTreeSet::new(alloc);
        for line in text.split('\n') {
            if let Some(name) = named_in(line) {
                names.insert(String::from_str(alloc, name)?)?;
            }
        }
        Ok(NamedFiles { names })
    }

    /// Whether the text names this file.
    pub fn has(&self, name: &str) -> bool
        ensures value { result ≡ contains_text self.now.names name.now }
    {
        self.names.contains(name)
    }
}

/// The file that a line names: what stands between its arrow and a line and a column.
fn named_in(line: &str) -> Option<&str> {
    let place = after_arrow(line.trim_start())?;
    let (rest, _column) = place.rsplit_once(':')?;
    let (name, _line) = rest.rsplit_once(':')?;
    Some(name)
}

/// What stands after the arrow with which this begins, or after the sign of a later file; in ASCII or Unicode.
fn after_arrow(text: &str) -> Option<&str> {
    text.strip_prefix("--> ")
        .or(text.strip_prefix("::: "))
        .or(text.strip_prefix("\u{256d}\u{25b8} "))
        .or(text.strip_prefix("\u{2b2c}  "))
}
