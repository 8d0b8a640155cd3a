//! The arguments of the command line, without the program's name.
ghost use Rattle.std.specs.Prelude.{◌≡◌};
ghost use Rattle.std.specs.Option.{option_and_then, option_map};
ghost use Rattle.tidy_run.specs.Arguments.{command_line_of, said, arguments_at};

/// The argument before LOG.
const LOG_OPTION: &str = "--log";

/// What a command line asks for.
#[derive(Clone, Copy, Debug, PartialEq, Eq)]
pub struct TidyCommand<'a> {
    /// The path of the file that the plain text is written to, where one is given.
    pub log: Option<&'a str>,
    /// The path of the file that is looked through.
    pub file: &'a str,
}

/// The command that the arguments ask for: `--log LOG FILE` or `FILE`; `None` where they aren't of the form.
pub fn command_of<'a>(args: &[&'a str]) -> Option<TidyCommand<'a>>
    ensures command { option_map said result ≡ command_line_of (arguments_at args.now) }
{
    match *args {
        [file] => {
            if file == LOG_OPTION {
                None
            } else {
                Some(TidyCommand { log: None, file })
            }
        }
        [option, log, file] => {
            if option == LOG_OPTION {
                Some(TidyCommand {
                    log: Some(log),
                    file,
                })
            } else {
                None
            }
        }
        _ => None,
    }
}

/// The argument that names FILE; `None` where the arguments aren't of the form.
pub fn file_word<'a>(args: &[&'a str]) -> Option<&'a str>
    ensures file { option_map (λ file. file.now) result
        ≡ option_map (λ line. line.file) (command_line_of (arguments_at args.now)) }
{
    command_of(args).map(|command| command.file)
}

/// The argument that names LOG; `None` where there is none, or the arguments aren't of the form.
pub fn log_word<'a>(args: &[&'a str]) -> Option<&'a str>
    ensures log { option_map (λ log. log.now) result ≡ option_and_then (λ line.
        line.log) (command_line_of (arguments_at args.now)) }
{
    command_of(args).and_then(|command| command.log)
}
