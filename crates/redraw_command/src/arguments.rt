//! The arguments of the command line, without the program's name.

ghost use Rattle.std.specs.Prelude.{◌≡◌, ◌&&◌, ◌||◌, codes, false, not, true, IfOk};
ghost use Rattle.clap.specs.Words.{FailsBy, app_of, fault_of, found_of, rows_of, rule_of};
ghost use Rattle.clap.specs.Walk.{all_of, first_of};
ghost use Rattle.clap.specs.Simple.{matches_of as rows_for};
ghost use Rattle.std.specs.Option.{option_and_then};
ghost use Rattle.program.specs.Numbers as numbers;
ghost use Rattle.redraw_command.specs.Arguments as spec;
ghost use Rattle.redraw_command.specs.Arguments.{IsChoiceOf, IsRedraw, IsRequestOf, form_rules, flag_rules, look_rules};
ghost use Rattle.redraw_command.specs.Arguments.{choice_rules, names_at, parsed_rule, when_of, with_rules};
ghost use Rattle.redraw_command.specs.Arguments.{argument_at, arguments_at};

use crate::choice::{Choice, Least, OutputForm};
use crate::terminal::{Look, Markup, When};
use clap::builder::ValueParser;
use clap::{Arg, ArgMatches, Command, Error};
use program::command_line::{files, flag, valued, was_given};
use program::number::number_after_plus;
use redraw_report::diagnostic::Unit;
use std::alloc::{AllocError, Global};

/// What a command line asks for.
#[derive(Clone, Copy)]
pub struct RedrawRequest<'w, 'a> {
    /// How reports look.
    pub look: Look,
    /// The folder that files are read below, where one is given.
    pub root: Option<&'a str>,
    /// Whether no files but those below the folder are read for lines of rustc and cargo.
    pub confines_lines: bool,
    /// Whether only files below the folder are read for SARIF logs.
    pub confines_logs: bool,
    /// Which findings are drawn, and in which form.
    pub choice: Choice<'a>,
    /// The inputs that are read; standard input where none are named.
    pub inputs: Option<&'w [&'a str]>,
}

/// What the program is for, as its help says it.
const ABOUT: &str = "Reads what other tools report, and draws it as rustc does";

/// What its help says of the files.
const INPUTS: &str =
    "Lines of rustc --error-format=json or of cargo build --message-format=json, or a SARIF 2.1.0 log; \
    - is standard input, which is read where no file is named";

/// The words that may stand after `--color`.
fn color_words() -> &'static [&'static str]
    ensures args { arguments_at result.now ≡ spec.color_words }
{
    &["auto", "always", "never"]
}

/// The words that may stand after `--level`.
fn level_words() -> &'static [&'static str]
    ensures args { arguments_at result.now ≡ spec.level_words }
{
    &["error", "warning", "note"]
}

/// The words that may stand after `--columns`.
fn column_words() -> &'static [&'static str]
    ensures args { arguments_at result.now ≡ spec.column_words }
{
    &["utf16", "chars", "bytes", "display"]
}

/// The command, with a line of help for each option.
fn command<'a>(alloc: Global) -> Result<Command<'a>, AllocError>
    ensures app { IfOk result (λ command. IsRedraw (app_of command)) }
{
    let command = Command::new(alloc, "redraw")
        .about(ABOUT)
        .version("1.0.0")
        .no_binary_name(true)
        .args_override_self(true);
    let formed = with_forms(alloc, command)?;
    let flagged = with_flags(alloc, formed)?;
    let looked = with_look(alloc, flagged)?;
    let chosen = with_choice(alloc, looked)?;
    let whole = chosen.arg(files(alloc, "inputs", INPUTS))?;
    Ok(whole)
}

/// A command with the options that say in which form reports are written, and that stand alone.
fn with_forms<'a>(alloc: Global, command: Command<'a>) -> Result<Command<'a>, AllocError>
    ensures app { IfOk result (λ added. app_of added ≡ with_rules (app_of command.entry) form_rules) }
{
    let unicode = flag(
        alloc,
        "unicode",
        "Draw strokes with line-drawing characters",
    );
    let text = flag(
        alloc,
        "text",
        "Write reports without graphics, as they are read aloud",
    );
    let short = flag(alloc, "short", "Write each report on one line");
    let fit = flag(alloc, "fit", "Break titles and labels that are too wide");
    let github = flag(
        alloc,
        "github",
        "Write each finding as a workflow command of GitHub, on one line",
    );
    let html = flag(alloc, "html", "Write one HTML document of all reports");
    let markdown = flag(alloc, "markdown", "Write all reports in Markdown");
    let verify = flag(
        alloc,
        "verify",
        "Count the reports that aren't the text that rustc has of them, and show the first",
    );
    let formed = command
        .arg(unicode)?
        .arg(text)?
        .arg(short)?
        .arg(fit)?
        .arg(github)?
        .arg(html)?
        .arg(markdown)?
        .arg(verify)?;
    Ok(formed)
}

/// A command with the other options that stand alone.
fn with_flags<'a>(alloc: Global, command: Command<'a>) -> Result<Command<'a>, AllocError>
    ensures app { IfOk result (λ added. app_of added ≡ with_rules (app_of command.entry) flag_rules) }
{
    let styled = flag(alloc, "styled", "The same as --color always");
    let links = flag(
        alloc,
        "links",
        "Link to the pages that explain errors, where colors are written",
    );
    let links_auto = flag(
        alloc,
        "links-auto",
        "Do so on a terminal; --links=auto is the same",
    );
    let duplicates = flag(
        alloc,
        "duplicates",
        "Draw a diagnostic again that cargo reports again",
    );
    let quiet = flag(alloc, "quiet", "Leave out the line that sums up");
    let confined = flag(
        alloc,
        "confined",
        "Show no files but those below the folder for cargo's and rustc's lines either",
    );
    let unconfined = flag(
        alloc,
        "unconfined",
        "Show files elsewhere for SARIF logs too: for logs of your own",
    );
    let lines = flag(
        alloc,
        "lines",
        "Draw lines FILE:LINE:COL: LEVEL: MESSAGE too, as most compilers write them",
    );
    let flagged = command
        .arg(styled)?
        .arg(links)?
        .arg(links_auto)?
        .arg(duplicates)?
        .arg(quiet)?
        .arg(confined)?
        .arg(unconfined)?
        .arg(lines)?;
    Ok(flagged)
}

/// A command with the options that have a value after them and say how reports look: their colors, their width, and the
/// folder that paths are shown from.
fn with_look<'a>(alloc: Global, command: Command<'a>) -> Result<Command<'a>, AllocError>
    ensures app { IfOk result (λ added. (colors : _) × (arguments_at colors.now ≡ spec.color_words)
        × (app_of added ≡ with_rules (app_of command.entry) (look_rules colors))) }
{
    let colors = color_words();
    let color = parsed(
        alloc,
        "color",
        "WHEN",
        ValueParser::Names(colors),
        "When colors are written: auto is on a terminal",
    );
    let width = parsed(
        alloc,
        "width",
        "COLUMNS",
        ValueParser::Unsigned(0, u64::MAX),
        "The width that lines are cut to; else that of COLUMNS, else 140",
    );
    let root = parsed(
        alloc,
        "root",
        "DIR",
        ValueParser::NonEmptyString,
        "The folder that files are read below, and that paths are shown from",
    );
    let looked = command.arg(color)?.arg(width)?.arg(root)?;
    Ok(looked)
}

/// A command with the options that have a value after them and say what is drawn: the findings of which level and in
/// which files, and at which columns.
fn with_choice<'a>(alloc: Global, command: Command<'a>) -> Result<Command<'a>, AllocError>
    ensures app { IfOk result (λ added. (levels columns : _) × (arguments_at levels.now ≡ spec.level_words)
        × (arguments_at columns.now ≡ spec.column_words)
        × (app_of added ≡ with_rules (app_of command.entry) (choice_rules levels columns))) }
{
    let levels = level_words();
    let columns = column_words();
    let level = parsed(
        alloc,
        "level",
        "LEVEL",
        ValueParser::Names(levels),
        "Draw only what is of this level or above",
    );
    let path = parsed(
        alloc,
        "path",
        "TEXT",
        ValueParser::NonEmptyString,
        "Draw only what lies in files whose paths hold this text",
    );
    let unit = parsed(
        alloc,
        "columns",
        "UNIT",
        ValueParser::Names(columns),
        "What columns count, in SARIF logs whatever they say: display is a terminal's columns",
    );
    let chosen = command.arg(level)?.arg(path)?.arg(unit)?;
    Ok(chosen)
}

/// An option that has a value after it, which has to be such a one.
fn parsed<'a>(
    alloc: Global,
    name: &'a str,
    value: &'a str,
    parser: ValueParser<'a>,
    help: &'a str,
) -> Arg<'a>
    ensures rule { rule_of result ≡ parsed_rule name.entry.now parser.entry }
    ensures local { result.global ≡ false }
{
    valued(alloc, name, value, help).value_parser(parser)
}

/// The words of a command line as the command has them: before `--` the option `--links=auto` is `--links-auto`, since
/// `--links` has no value.
pub fn spelled<'a>(alloc: Global, args: &[&'a str]) -> Result<Vec<&'a str>, AllocError>
    ensures value { IfOk result (λ words. arguments_at words.items ≡ spec.spelled true (arguments_at args.now)) }
{
    let mut words = Vec::new(alloc);
    let mut is_option = true;
    for arg in args {
        is_option = is_option && *arg != "--";
        words.push(spelled_word(is_option, *arg))?;
    }
    Ok(words)
}

/// A word as the command has it.
fn spelled_word(is_option: bool, word: &str) -> &str
    ensures value { result.now ≡ spec.spelled_word is_option word.now }
{
    if is_option && word == "--links=auto" {
        "--links-auto"
    } else {
        word
    }
}

/// What the arguments are matched with, or what is to be told in place of that: what is wrong with them, the help or
/// the version.
pub fn matches_of<'a>(alloc: Global, args: &'a [&'a str]) -> Result<ArgMatches<'a>, Error>
    ensures matches { (app : _) × IsRedraw app × FailsBy (fault_of app (arguments_at args.now)) result
        × IfOk result (λ matches. rows_of (found_of matches) ≡ rows_for app (arguments_at args.now)) }
{
    let command = command(alloc)?;
    command.try_get_matches_from(args)
}

/// What the arguments that are matched ask for.
pub fn request_of<'w, 'a>(matches: &'w ArgMatches<'a>) -> RedrawRequest<'w, 'a>
    ensures asked { IsRequestOf (rows_of (found_of matches.now)) result }
{
    RedrawRequest {
        look: look_of(matches),
        root: argument_after(matches, "root"),
        confines_lines: was_given(matches, "confined"),
        confines_logs: confines_logs(
            was_given(matches, "confined"),
            was_given(matches, "unconfined"),
        ),
        choice: choice_of(matches),
        inputs: inputs_of(matches),
    }
}

/// Whether no files but those below the folder are read for SARIF logs: unless that is lifted, and not asked for too.
fn confines_logs(is_confined: bool, is_unconfined: bool) -> bool
    ensures value { result ≡ is_confined || not is_unconfined }
{
    is_confined || !is_unconfined
}

/// The argument after an option, if that was given.
fn argument_after<'a>(matches: &ArgMatches<'a>, name: &str) -> Option<&'a str>
    ensures value { argument_at result ≡ first_of name.now (rows_of (found_of matches.now)) }
{
    matches.get_str(name)
}

/// The files that were named, if some were.
fn inputs_of<'w, 'a>(matches: &'w ArgMatches<'a>) -> Option<&'w [&'a str]>
    ensures value { names_at result ≡ all_of (codes "inputs") (rows_of (found_of matches.now)) }
{
    matches.get_strs("inputs")
}

/// How reports are to look.
fn look_of(matches: &ArgMatches<'_>) -> Look
    ensures value { result ≡ spec.look_of (rows_of (found_of matches.now)) }
{
    let color = argument_after(matches, "color");
    let width = argument_after(matches, "width");
    Look {
        unicode: was_given(matches, "unicode"),
        text: was_given(matches, "text"),
        short: was_given(matches, "short"),
        fit: was_given(matches, "fit"),
        markup: markup_of(
            was_given(matches, "html"),
            was_given(matches, "markdown"),
            !(was_given(matches, "github") || was_given(matches, "verify")),
        ),
        github: was_given(matches, "github"),
        colors: colors_of(color, was_given(matches, "styled")),
        links: was_given(matches, "links"),
        links_auto: was_given(matches, "links-auto"),
        width: width_of(width),
    }
}

/// The markup that all is written in: of reports alone, and HTML where Markdown is asked for too.
fn markup_of(is_html: bool, is_markdown: bool, is_report: bool) -> Markup
    ensures value { result ≡ spec.markup_of is_html is_markdown is_report }
{
    if is_html && is_report {
        Markup::Html
    } else if is_markdown && is_report {
        Markup::Markdown
    } else {
        Markup::Bare
    }
}

/// When colors are to be written, by the argument that says when, and whether they always are where none does.
fn colors_of(argument: Option<&str>, is_styled: bool) -> When
    ensures value { result ≡ when_of (argument_at argument.entry) is_styled }
{
    match argument {
        Some("always") => When::Always,
        Some("never") => When::Never,
        _ => { if is_styled { When::Always } else { When::Auto } }
    }
}

/// The width that lines are cut to, if one is given.
fn width_of(argument: Option<&str>) -> Option<usize>
    ensures value { result ≡ option_and_then numbers.number_after_plus (argument_at argument.entry) }
{
    number_after_plus(argument?)
}

/// Which findings are to be drawn, and in which form.
fn choice_of<'a>(matches: &ArgMatches<'a>) -> Choice<'a>
    ensures asked { IsChoiceOf (rows_of (found_of matches.now)) result }
{
    Choice {
        form: form_of(was_given(matches, "verify"), was_given(matches, "github")),
        least: least_of(argument_after(matches, "level")),
        path: argument_after(matches, "path"),
        has_duplicates: was_given(matches, "duplicates"),
        is_quiet: was_given(matches, "quiet"),
        reads_lines: was_given(matches, "lines"),
        columns: unit_of(argument_after(matches, "columns")),
        folder: None,
    }
}

/// The form of what is drawn.
fn form_of(is_verify: bool, is_github: bool) -> OutputForm
    ensures value { result ≡ spec.form_of is_verify is_github }
{
    if is_verify {
        OutputForm::Verify
    } else if is_github {
        OutputForm::Workflow
    } else {
        OutputForm::Report
    }
}

/// The least level that is to be drawn, by the argument that names it.
fn least_of(argument: Option<&str>) -> Least
    ensures value { result ≡ spec.least_of (argument_at argument.entry) }
{
    match argument {
        Some("error") => Least::Error,
        Some("warning") => Least::Warning,
        _ => Least::Any,
    }
}

/// What columns count, by the argument that says it.
fn unit_of(argument: Option<&str>) -> Option<Unit>
    ensures value { result ≡ option_and_then spec.unit_of (argument_at argument.entry) }
{
    match argument? {
        "utf16" => Some(Unit::Utf16),
        "chars" => Some(Unit::CodePoints),
        "bytes" => Some(Unit::Bytes),
        "display" => Some(Unit::Display),
        _ => None,
    }
}
