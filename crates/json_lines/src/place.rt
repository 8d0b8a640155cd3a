//! Where a value stands in its document.

use std::fmt;

/// The way to a value of JSON.
#[derive(Clone, Copy)]
pub enum JsonPath<'p> {
    /// The value that a line holds.
    Line,
    /// The value that a whole document holds.
    Document,
    /// A field of an object.
    Field(&'p JsonPath<'p>, &'p str),
    /// An item of a list, counted from 0.
    Item(&'p JsonPath<'p>, usize),
}

impl JsonPath<'_> {
    /// Whether a way begins here.
    fn is_start(&self) -> bool {
        matches!(self, JsonPath::Line | JsonPath::Document)
    }
}

impl fmt::Display for JsonPath<'_> {
    fn fmt<W: fmt::Write>(&self, f: &mut fmt::Formatter<W>) -> fmt::Result {
        match self {
            JsonPath::Line => f.write_str("the line"),
            JsonPath::Document => f.write_str("the document"),
            JsonPath::Field(object, name) => {
                if object.is_start() {
                    return f.write_str(name);
                }
                (*object).fmt(f)?;
                write!(f, ".{name}")
            }
            JsonPath::Item(list, index) => {
                (*list).fmt(f)?;
                write!(f, "[{index}]")
            }
        }
    }
}
