//! How a program ends.

ghost use Rattle.std.specs.Prelude.{◌≡◌, OnOk};
ghost use Rattle.std.specs.Process.{exit_status};
ghost use Rattle.std.specs.Result.{result_unwrap_or};

use std::fmt::Display;
use std::io::Write;
use std::process::ExitCode;

/// The exit code of the program of this name, where it ended with a status, or was stopped by an error: then it is
/// `stopped`, and the error is told, if that can be written.
pub fn exit_code<E: Display + Drop, V: Write>(
    name: &str,
    ended: Result<u8, E>,
    stopped: u8,
    err: &mut V,
) -> ExitCode
    ensures status { exit_status result ≡ result_unwrap_or ended stopped }
    ensures silent { OnOk ended (err.new ≡ err.old) }
{
    match ended {
        Ok(status) => ExitCode::from(status),
        Err(error) => {
            let _ = err.writeln(format_args!("{name}: {error}"));
            ExitCode::from(stopped)
        }
    }
}
