//! What stands in for standard streams that are closed.

use std::fs;
use std::rt::Files;

/// A file that is there on each machine, and that nothing can be written to where it is opened for reading.
const EMPTY: &str = "/dev/null";

/// What stands in for standard input, output and error, each where it is closed, for as long as this is held.
#[derive(Drop)]
pub struct StandIns<F> {
    first: Option<F>,
    second: Option<F>,
    third: Option<F>,
}

/// Sees to it that no file that is opened from now on is taken for a standard stream that is closed: the system gives
/// a file that is opened the lowest number that is free, and the three streams have the lowest three. Reading from what
/// stands in for a stream finds the end, and a write to it fails.
pub fn stand_in<R: Files>(rt: &R) -> StandIns<R::File> {
    StandIns {
        first: fs::open(rt, EMPTY).ok(),
        second: fs::open(rt, EMPTY).ok(),
        third: fs::open(rt, EMPTY).ok(),
    }
}
