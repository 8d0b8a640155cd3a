//! Reads what other tools report, and prints what the library draws of it: `redraw [OPTIONS] [FILE]...`.
#![tactic(auto)]

use output_stream::Stream;
use program::exit::exit_code;
use program::input::{given_arguments, texts_lent};
use program::standing_in::stand_in;
use redraw_command::arguments::spelled;
use redraw_command::tally::FAILED;
use redraw_command::terminal::{Surroundings, columns_of, is_colorless};
use redraw_run::run::run;
use std::env;
use std::io::{self, BufWriter, IsTerminal};
use std::process::ExitCode;
use std::rt::Env;

/// What a variable of the environment is set to, where it is set to UTF-8.
fn variable(rt: &(impl Env + AllocGlobal), name: &str) -> Option<String> {
    env::var(rt, name).ok()
}

/// The text that there is, if there is one.
fn text_of(text: &Option<String>) -> Option<&str> {
    text.as_ref().map(|text| text.as_str())
}

/// Runs the program, and answers the status to end with.
fn answer(rt: &HostRuntime) -> io::Result<u8> {
    let alloc = rt.alloc();
    let given = given_arguments(rt)?;
    let lent = texts_lent(alloc, &given)?;
    let args = spelled(alloc, &lent)?;
    let no_color = variable(rt, "NO_COLOR");
    let term = variable(rt, "TERM");
    let columns = variable(rt, "COLUMNS");
    let folder = env::current_dir(rt).ok();
    let around = Surroundings {
        is_terminal: rt.stdout().is_terminal(),
        is_colorless: is_colorless(text_of(&no_color), text_of(&term)),
        columns: columns_of(text_of(&columns)),
        folder: folder.as_ref().map(|path| path.as_str()),
    };
    let mut out = Stream::new(BufWriter::new(alloc, rt.stdout())?);
    let mut err = Stream::new(rt.stderr());
    Ok(run(rt, &args, around, &mut out, &mut err))
}

fn main(rt: HostRuntime) -> ExitCode {
    let _held = stand_in(&rt);
    exit_code("redraw", answer(&rt), FAILED, &mut rt.stderr())
}
