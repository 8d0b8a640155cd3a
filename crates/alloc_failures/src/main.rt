//! Makes each call that takes memory, and makes it once more where it is out of memory, from what the caller still
//! holds.
//!
//! A line is printed for each subject that came out right, the same whatever was refused. Before the line `what follows
//! takes memory` no call takes any but those that build reports; `scripts/alloc-failures` runs the program with each
//! request refused in turn, and with all refused after the first line.
#![tactic(auto)]

mod drawn;
mod free;
mod free_model;
mod free_parts;
mod grid;
mod refusals;
mod reports;
mod retry;
mod set;
mod source;
mod styles;
mod subject;
mod texts;
mod texts_of_reports;

use annotate_snippets::renderer::parts::{SourceMap, newline_count};
use annotate_snippets::text::text_fits;
use retry::again;
use std::alloc::AllocError;
use std::io;
use std::process::ExitCode;

/// The status of a run that is out of memory, or whose output can't be written.
const STOPPED: u8 = 2;

/// Makes the calls that take no memory, on reports and a source map that are built before the first line.
fn print_free(rt: &(impl Print + AllocGlobal)) -> io::Result<()> {
    let source = free_parts::SOURCE;
    if !text_fits(source) || newline_count(source) > 9 {
        return println!(rt; "too long");
    }
    let map = again!(SourceMap::new(rt.alloc(), source, 1))?;
    refusals::print(rt)?;
    free::print(rt)?;
    free_model::print(rt)?;
    free_parts::print(rt, &map)
}

/// Makes the calls that take memory.
fn print_taking(rt: &(impl Print + AllocGlobal)) -> io::Result<()> {
    println!(rt; "what follows takes memory")?;
    drawn::print(rt)?;
    set::print(rt)?;
    texts::print(rt)?;
    styles::print(rt)?;
    source::print(rt)?;
    grid::print(rt)
}

/// Makes all calls.
fn print_all(rt: &(impl Print + AllocGlobal)) -> io::Result<()> {
    print_free(rt)?;
    print_taking(rt)
}

fn main(rt: HostRuntime) -> ExitCode {
    match print_all(&rt) {
        Ok(()) => ExitCode::from(0),
        Err(error) => {
            let _ = eprintln!(rt; "alloc_failures: {error}");
            ExitCode::from(STOPPED)
        }
    }
}
