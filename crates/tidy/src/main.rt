//! Looks through a file by three rules: no blanks at a line's end, no tabs, and a line feed at the file's end. It
//! prints what they find, and how to mend it; with LOG in colours, and without to LOG.
//!
//! `tidy [--log LOG] FILE`
#![tactic(auto)]

use program::exit::exit_code;
use program::input::{file_bytes, given_texts, texts_lent};
use program::standing_in::stand_in;
use std::alloc::AllocError;
use std::process::ExitCode;
use tidy_run::arguments::{file_word, log_word};
use tidy_run::final_line::FinalLine;
use tidy_run::log::Log;
use tidy_run::rule::Rule;
use tidy_run::run::run;
use tidy_run::tabs::Tabs;
use tidy_run::trailing_blanks::TrailingBlanks;

/// The status of a run that there was no memory for.
const STOPPED: u8 = 2;

/// Runs the program by its three rules, and answers the status to end with.
fn answer(rt: &HostRuntime) -> Result<u8, AllocError> {
    let alloc = rt.alloc();
    let given = given_texts(rt)?;
    let args = texts_lent(alloc, &given)?;
    let bytes = file_bytes(rt, file_word(&args));
    let file = bytes.as_ref().map(|bytes| bytes.as_slice());
    let mut rules: Vec<Box<dyn Rule>> = Vec::new(alloc);
    rules.push(Box::new(alloc, TrailingBlanks)?)?;
    rules.push(Box::new(alloc, Tabs)?)?;
    rules.push(Box::new(alloc, FinalLine)?)?;
    let mut out = rt.stdout();
    let mut err = rt.stderr();
    let mut log = Log::new(rt, log_word(&args));
    Ok(run(alloc, &rules, &args, file, &mut out, &mut err, &mut log))
}

fn main(rt: HostRuntime) -> ExitCode {
    let _held = stand_in(&rt);
    exit_code("tidy", answer(&rt), STOPPED, &mut rt.stderr())
}
