//! Lines of an input, and the values of JSON that they are.
//!
//! `line` takes a line of an input. `quick` reads a value in memory that is kept from one to the next: what
//! `Value::from_str` needs to read a text it makes anew for each, and for a short text that costs more than the
//! reading. What `quick` gives is what that would give. It gives up where it doesn't know, and then that is to be
//! asked: it also tells what is wrong with a text. `cut` reads a log without its results in the same way.
//!
//! The others go into a value with the way to it: what is wrong is told with the place where it stands, as
//! `groups[0].title.text`. `node` has the reader that stops at the first fault, for a format of our own, where each
//! value has to be what is expected. `lenient` has the one that goes on and tells all that is wrong, for what other
//! tools write, where a field may be missing or null.
#![tactic(auto)]

pub mod cut;
pub mod expectation;
pub mod fault;
pub mod lenient;
pub mod line;
pub mod node;
mod number;
pub mod place;
pub mod quick;
pub mod scalars;
