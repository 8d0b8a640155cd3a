//! What is said of an entry.
ghost use Rattle.std.specs.Prelude.{◌≡◌};
ghost use Rattle.std.specs.Option.{option_copied};

use std::marker::Model;

/// What is said of an entry: a text, or nothing.
#[derive(Debug, Drop)]
pub struct Label<'a> {
    text: Option<&'a str>,
}

impl<'a> Model for Label<'a> {
    ghost use Rattle.std.specs.Prelude.{ℕ, List, Option};
    ghost use Rattle.std.specs.Option.{option_copied};

    ghost Value = { Option (List ℕ) };

    ghost view = { λ label. option_copied label.text };
}

impl<'a> Label<'a> {
    /// The label of this text, or that of an entry of which nothing is said.
    pub fn new(text: Option<&'a str>) -> Label<'a>
        ensures value { result ≡ option_copied text.entry }
    {
        Label { text }
    }

    /// Its text; `None` where nothing is said.
    pub fn text(&self) -> Option<&'a str>
        ensures value { option_copied result ≡ self.now }
    {
        self.text
    }

    /// This label once more.
    pub fn copied(&self) -> Label<'a>
        ensures value { result ≡ self.now }
    {
        Label { text: self.text }
    }
}
