//! Reads reports as JSON lines, and prints their texts.
//!
//! `replay [--text] [--keep-going] [FILE ..]`, `replay --check EXPECTED FILE [EXPECTED FILE ..]`,
//! `replay --repeat N [FILE ..]`
#![tactic(auto)]

use output_stream::Stream;
use program::exit::exit_code;
use program::input::{given_arguments, texts_lent};
use program::standing_in::stand_in;
use replay_run::run::run;
use std::io::{self, BufWriter};
use std::process::ExitCode;

/// The status of a run that was stopped before it began.
const STOPPED: u8 = 2;

/// Runs the program, and answers the status to end with.
fn answer(rt: &HostRuntime) -> io::Result<u8> {
    let alloc = rt.alloc();
    let given = given_arguments(rt)?;
    let args = texts_lent(alloc, &given)?;
    let mut out = Stream::new(BufWriter::new(alloc, rt.stdout())?);
    let mut err = Stream::new(rt.stderr());
    Ok(run(rt, &args, &mut out, &mut err))
}

fn main(rt: HostRuntime) -> ExitCode {
    let _held = stand_in(&rt);
    exit_code("replay", answer(&rt), STOPPED, &mut rt.stderr())
}
