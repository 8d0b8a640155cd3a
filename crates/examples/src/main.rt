//! Programs in small that report through `annotate_snippets`, one a module, each to be copied: a compiler, a reader of
//! configurations, a test tool, a service that draws what strangers send, a linter of JSON, a printer of failed tests
//! in colour, a language server; and reports after the examples of annotate-snippets. A linter that is more than small
//! is `tidy`.
//!
//! `main` gives each of them something to report, and prints what it answers.
#![tactic(auto)]

mod compiler;
mod config;
mod failed_tests;
mod json_linter;
mod language_server;
mod originals;
mod price;
mod service;
mod test_tool;

use annotate_snippets::Renderer;
use annotate_snippets::renderer::RenderError;
use failed_tests::{Failure, Part};
use json_linter::Verdict;
use service::Request;
use std::io::{self, Write};

/// Prints a report's text, or why there is none.
fn print_text(rt: &impl Print, text: Result<String, RenderError>) -> io::Result<()> {
    match text {
        Ok(text) => println!(rt; "{text}"),
        Err(refusal) => println!(rt; "no report: {}", refusal.words()),
    }
}

/// Reads three configurations: one that is right, one that isn't TOML, and one that has no port.
fn read_configurations(rt: &(impl Print + AllocGlobal)) -> io::Result<()> {
    let right = "host = \"example.org\"\nport = 8080\n";
    let twice = "host = \"example.org\"\nport = 8080\nport = 8081\n";
    let none = "host = \"example.org\"\n";
    print_text(rt, config::port(rt.alloc(), "right.toml", right))?;
    print_text(rt, config::port(rt.alloc(), "twice.toml", twice))?;
    print_text(rt, config::port(rt.alloc(), "none.toml", none))
}

/// Tells of one failed assertion, as a terminal shows it and as an editor does.
fn fail_a_test(rt: &(impl Print + AllocGlobal)) -> io::Result<()> {
    let terminal = Renderer::plain();
    let editor = Renderer::plain().short_message(true);
    print_text(rt, test_tool::failure(rt.alloc(), &terminal))?;
    print_text(rt, test_tool::failure(rt.alloc(), &editor))
}

/// A request that is right, though its label tries to colour the terminal.
const RIGHT: Request<'static> = Request {
    source: "let x = 1;",
    start: 4,
    end: 5,
    label: "\u{1b}[31mhere",
};

/// Requests of strangers. The first and the last are drawn; the label of the last would look like a row of the report.
const REQUESTS: [Request<'static>; 5] = [
    RIGHT,
    Request { start: 6, ..RIGHT },
    Request { end: 99, ..RIGHT },
    Request {
        source: "let é = 1;",
        ..RIGHT
    },
    Request {
        label: "here\n2 | let y = 2;",
        ..RIGHT
    },
];

/// Answers strangers.
fn answer_requests(rt: &(impl Print + AllocGlobal)) -> io::Result<()> {
    for request in REQUESTS {
        match service::answer(rt.alloc(), &request) {
            Ok(text) => println!(rt; "{text}")?,
            Err(why) => println!(rt; "no report: {why}")?,
        }
    }
    Ok(())
}

/// Lints two files, of which one has nothing wrong.
fn lint_json(rt: &(impl Print + AllocGlobal)) -> io::Result<()> {
    let right = "[\"a,]\"]\n";
    let wrong = "{\n  \"host\": \"example.org\",\n  \"ports\": [80, 443,],\n}\n";
    for (path, text) in [("right.json", right), ("wrong.json", wrong)] {
        match json_linter::lint(rt.alloc(), path, text) {
            Ok(Verdict::Clean) => println!(rt; "{path}: nothing to say")?,
            Ok(Verdict::Wrong(report)) => println!(rt; "{report}")?,
            Ok(Verdict::TooLong) => println!(rt; "{path}: too long")?,
            Err(refusal) => println!(rt; "{path}: no report: {}", refusal.words())?,
        }
    }
    Ok(())
}

/// A test that failed.
const FAILURE: Failure<'static> = Failure {
    name: "sums::of_nothing",
    assertion: Part {
        path: "tests/sums.rs",
        text: "assert_eq!(mean(&[]), None);\n",
        start: 22,
        end: 26,
        label: "found `Some(0)`",
    },
    cause: Part {
        path: "src/lib.rs",
        text: "Some(sum / xs.len().max(1))\n",
        start: 11,
        end: 26,
        label: "never 0",
    },
};

/// Draws a hundred reports over one file, and prints the last of them.
fn serve(rt: &(impl Print + AllocGlobal)) -> io::Result<()> {
    match language_server::hundred(rt.alloc()) {
        Ok(reports) => {
            println!(rt; "{} reports, the last:", reports.len())?;
            if let Some(last) = reports.last() {
                println!(rt; "{last}")?;
            }
            Ok(())
        }
        Err(refusal) => println!(rt; "no report: {}", refusal.words()),
    }
}

/// Draws the four examples of annotate-snippets.
fn draw_originals(rt: &(impl Print + AllocGlobal)) -> io::Result<()> {
    print_text(rt, originals::expected_type(rt.alloc()))?;
    print_text(rt, originals::footer(rt.alloc()))?;
    print_text(rt, originals::format(rt.alloc()))?;
    print_text(rt, originals::multislice(rt.alloc()))
}

/// Runs all of them. The writer is that of standard output too.
fn run<W: Write>(rt: &(impl Print + AllocGlobal), out: &mut W) -> io::Result<()> {
    println!(rt; "== a compiler")?;
    print_text(rt, compiler::mismatched_types(rt.alloc()))?;
    print_text(rt, price::mismatched_price(rt.alloc()))?;
    println!(rt; "== a reader of configurations")?;
    read_configurations(rt)?;
    println!(rt; "== a test tool")?;
    fail_a_test(rt)?;
    println!(rt; "== a service")?;
    answer_requests(rt)?;
    println!(rt; "== a linter of JSON")?;
    lint_json(rt)?;
    println!(rt; "== a printer of failed tests")?;
    if let Err(why) = failed_tests::print(rt.alloc(), &[FAILURE], out) {
        println!(rt; "no report: {why}")?;
    }
    println!(rt; "== a language server")?;
    serve(rt)?;
    println!(rt; "== the examples of annotate-snippets")?;
    draw_originals(rt)
}

fn main(rt: HostRuntime) -> io::Result<()> {
    run(&rt, &mut rt.stdout())
}
