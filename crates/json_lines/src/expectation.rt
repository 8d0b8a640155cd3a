//! What may be expected of any value.

use std::fmt;

/// What has to stand at a place.
#[derive(Clone, Copy)]
pub enum Expectation {
    Object,
    List,
    /// A text within the library's limit.
    Text,
    /// A text of any length.
    AnyText,
    /// A whole number of 64 bits.
    Number,
    /// A whole number from 0, whatever else may be said of it.
    FromZero,
    /// A whole number from 1.
    FromOne,
    Byte,
    Flag,
}

impl fmt::Display for Expectation {
    fn fmt<W: fmt::Write>(&self, f: &mut fmt::Formatter<W>) -> fmt::Result {
        f.write_str(match self {
            Expectation::Object => "an object",
            Expectation::List => "a list",
            Expectation::Text => "a text of fewer than 2^56 bytes",
            Expectation::AnyText => "a text",
            Expectation::Number => "a whole number from 0 to 18446744073709551615",
            Expectation::FromZero => "a whole number from 0",
            Expectation::FromOne => "a whole number from 1",
            Expectation::Byte => "a whole number from 0 to 255",
            Expectation::Flag => "true or false",
        })
    }
}
