//! The arguments of the command line, without the program's name.

ghost use Rattle.std.specs.Prelude.{◌≡◌, IfOk, false};
ghost use Rattle.clap.specs.Words.{FailsBy, app_of, fault_of, found_of, rows_of, rule_of};
ghost use Rattle.clap.specs.Simple.{matches_of as rows_for};
ghost use Rattle.replay_run.specs.Arguments.{arguments_at, inputs_rule, replay_app};

use clap::{Arg, ArgMatches, Command, Error};
use program::command_line::{files, flag, valued};
use std::alloc::{AllocError, Global};

/// What the program is for, as its help says it.
const ABOUT: &str = "Reads reports as lines of JSON, and draws them";

/// How its arguments are written, as its help and its messages say it.
const USAGE: &str = "replay [--text] [--keep-going] [FILE]...
       replay --check EXPECTED FILE [EXPECTED FILE]...
       replay --repeat N [FILE]...";

/// What its help says of the files.
const FILES: &str = "Lines of JSON, a report on each; - is standard input, except with --check";

/// The command, with a line of help for each option.
pub fn parser<'a>(alloc: Global) -> Result<Command<'a>, AllocError>
    ensures app { IfOk result (λ command. app_of command ≡ replay_app) }
{
    let text = flag(
        alloc,
        "text",
        "Print texts as they are, with an empty line between reports",
    );
    let keep_going = flag(
        alloc,
        "keep-going",
        "Tell what is wrong with a line that is no report, and go on",
    );
    let check = flag(
        alloc,
        "check",
        "Compare: each first file has the answers that are expected of the next one",
    );
    let repeat = valued(
        alloc,
        "repeat",
        "N",
        "Draw each report this many times, and print how long it took",
    );
    let command = Command::new(alloc, "replay")
        .about(ABOUT)
        .version("1.0.0")
        .override_usage(USAGE)
        .no_binary_name(true)
        .args_override_self(true)
        .arg(text)?
        .arg(keep_going)?
        .arg(check)?
        .arg(repeat)?
        .arg(inputs(alloc))?;
    Ok(command)
}

/// The files: as many as there are, and standard input where there is none.
fn inputs<'a>(alloc: Global) -> Arg<'a>
    ensures rule { rule_of result ≡ inputs_rule }
    ensures local { result.global ≡ false }
{
    files(alloc, "files", FILES).default_value("-")
}

/// What the arguments are matched with, or what is to be told in place of that: what is wrong with them, the help or
/// the version.
pub fn matches_of<'a>(alloc: Global, args: &'a [&'a str]) -> Result<ArgMatches<'a>, Error>
    ensures rows { IfOk result (λ matches. rows_of (found_of matches) ≡ rows_for replay_app (arguments_at args.now)) }
    ensures faults { FailsBy (fault_of replay_app (arguments_at args.now)) result }
{
    let command = parser(alloc)?;
    command.try_get_matches_from(args)
}
