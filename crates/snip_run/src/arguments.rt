//! The arguments of the command line, without the program's name.

ghost use Rattle.std.specs.Prelude.{◌≡◌, ◌↔◌, ◌++◌, IsTrue, IsSome, IsNone, IfSome, IsSomeAnd, SomeIff, Contains, List};
ghost use Rattle.std.specs.Prelude.{is_some};
ghost use Rattle.snip_run.specs.Arguments.{Argument, arguments_at, Setting, arguments_of};
ghost use Rattle.snip_run.specs.Arguments.{option_names, IsSound};
ghost use Rattle.snip_run.specs.Arguments.{no_options, CommandLine, operands_of, line_without_options, HasOperands};
ghost use Rattle.snip_run.specs.Arguments.{AreLine, IsCommandLine};
ghost use Rattle.snip_run.specs.Arguments.{IsCommandOf, TakesOption, Says};

use program::number::number_of;
use program::options::Options;

/// What a command line asks for.
#[derive(Clone, Copy, Debug, PartialEq, Eq)]
pub struct SnipCommand<'a> {
    /// How the report is drawn.
    pub options: Options,
    /// The path of the file whose text is shown.
    pub file: &'a str,
    /// The byte of the text where the mark starts.
    pub start: usize,
    /// The byte after the mark.
    pub end: usize,
    /// The report's title.
    pub title: &'a str,
    /// What is said of the marked bytes.
    pub label: Option<&'a str>,
}

/// The arguments after the options.
#[derive(Clone, Copy)]
struct Operands<'a> {
    file: &'a str,
    start: &'a str,
    end: &'a str,
    title: &'a str,
    label: Option<&'a str>,
}

/// Whether an argument is the name of an option.
fn is_option_name(argument: &str) -> bool
    ensures value { IsTrue result ↔ Contains option_names argument.now }
{
    matches!(
        argument,
        "--unicode" | "--text" | "--short" | "--styled" | "--width"
    )
}

/// The options with the one that the arguments begin with, and how many arguments give it; `None` where they begin
/// with none.
fn take_option(mut options: Options, args: &[&str]) -> Option<(Options, usize)>
    ensures taken { IfSome result (λ taken. TakesOption args.now options taken.0 taken.1) }
    ensures none { IsNone result → (s : Setting) (rest : List Argument) → IsSound s
        → arguments_at args.now ≡ arguments_of s ++ rest → ⊥ }
{
    let mut count = 1;
    match args {
        ["--unicode", ..] => options.unicode = true,
        ["--text", ..] => options.text = true,
        ["--short", ..] => options.short = true,
        ["--styled", ..] => options.styled = true,
        ["--width", digits, ..] => {
            options.width = Some(number_of(digits)?);
            count = 2;
        }
        _ => return None,
    }
    Some((options, count))
}

/// The operands that the arguments are; `None` where there are too few or too many.
fn operands_in<'a>(args: &[&'a str]) -> Option<Operands<'a>>
    ensures whole { IfSome result (λ o. arguments_at args.now ≡ operands_of (line_without_options o)) }
    ensures none { IsNone result → (line : CommandLine) → arguments_at args.now ≡ operands_of line → ⊥ }
{
    match *args {
        [file, start, end, title] => Some(Operands {
            file,
            start,
            end,
            title,
            label: None,
        }),
        [file, start, end, title, label] => Some(Operands {
            file,
            start,
            end,
            title,
            label: Some(label),
        }),
        _ => None,
    }
}

/// The command of these options and operands; `None` where FILE is an option's name, or START or END is no number.
fn command_with<'a>(options: Options, operands: Operands<'a>) -> Option<SnipCommand<'a>>
    ensures says { IfSome result (Says options (line_without_options operands.entry)) }
    ensures form { IsSome result ↔ HasOperands (line_without_options operands.entry) }
{
    let Operands {
        file,
        start,
        end,
        title,
        label,
    } = operands;
    if is_option_name(file) {
        return None;
    }
    let start = number_of(start)?;
    let end = number_of(end)?;
    Some(SnipCommand {
        options,
        file,
        start,
        end,
        title,
        label,
    })
}

/// The command that the arguments ask for; `None` where they aren't of the form.
pub fn command_of<'a>(args: &[&'a str]) -> Option<SnipCommand<'a>>
    ensures command { IfSome result (IsCommandOf (arguments_at args.now)) }
    ensures each_line { (line : CommandLine) → AreLine (arguments_at args.now) line
        → IsSomeAnd result (Says no_options line) }
{
    let mut options = Options::default();
    let mut at = 0;
    while let Some((changed, count)) = take_option(options, &args[at..]) {
        options = changed;
        at += count;
    }
    command_with(options, operands_in(&args[at..])?)
}

/// The argument that names FILE; `None` where the arguments aren't of the form.
pub fn file_word<'a>(args: &[&'a str]) -> Option<&'a str>
    ensures form { IsSome result → IsCommandLine (arguments_at args.now) }
    ensures each_line { (line : CommandLine) → AreLine (arguments_at args.now) line
        → IsSomeAnd result (λ file. file.now ≡ line.file) }
{
    command_of(args).map(|command| command.file)
}
