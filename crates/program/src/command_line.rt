//! What may stand in a command line, as clap reads it, and what clap finds there.

ghost use Rattle.std.specs.Prelude.{◌≡◌, false};
ghost use Rattle.clap.specs.Words.{found_of, rows_of, rule_of};
ghost use Rattle.program.specs.CommandLine as spec;
ghost use Rattle.program.specs.CommandLine.{files_rule, flag_rule, valued_rule};

use clap::{Arg, ArgAction, ArgMatches};
use std::alloc::Global;

/// An option that stands alone: two hyphens and this name.
pub fn flag<'a>(alloc: Global, name: &'a str, help: &'a str) -> Arg<'a>
    ensures rule { rule_of result ≡ flag_rule name.entry.now }
    ensures local { result.global ≡ false }
{
    Arg::new(alloc, name)
        .long(name)
        .help(help)
        .action(ArgAction::SetTrue)
}

/// An option that has a value after it, which the help calls so.
pub fn valued<'a>(alloc: Global, name: &'a str, value: &'a str, help: &'a str) -> Arg<'a>
    ensures rule { rule_of result ≡ valued_rule name.entry.now }
    ensures local { result.global ≡ false }
{
    Arg::new(alloc, name)
        .long(name)
        .value_name(value)
        .help(help)
        .action(ArgAction::Set)
}

/// The files, which are found by this name: as many as there are.
pub fn files<'a>(alloc: Global, name: &'a str, help: &'a str) -> Arg<'a>
    ensures rule { rule_of result ≡ files_rule name.entry.now }
    ensures local { result.global ≡ false }
{
    Arg::new(alloc, name)
        .value_name("FILE")
        .help(help)
        .action(ArgAction::Append)
        .num_args(0..)
}

/// Whether an option that stands alone was given.
pub fn was_given(matches: &ArgMatches<'_>, name: &str) -> bool
    ensures value { result ≡ spec.was_given name.now (rows_of (found_of matches.now)) }
{
    match matches.get_str(name) {
        Some(value) => value == "true",
        None => false,
    }
}
