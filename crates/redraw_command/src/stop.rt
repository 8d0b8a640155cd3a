//! Why a run can't go on.

ghost use Rattle.std.specs.Prelude.{◌≡◌};

use std::alloc::{AllocError, AllocFailed};
use std::{fmt, io};

/// Why a run can't go on.
#[derive(Drop)]
pub enum Stop {
    /// A growth of memory was refused.
    Memory,
    /// What was drawn couldn't be written.
    Unwritable(io::Error),
    /// The input couldn't be read to its end.
    Unreadable(io::Error),
    /// The input is written in UTF-16.
    Utf16,
}

impl From<AllocError> for Stop {
    ghost use Rattle.redraw_command.specs.declared.stop.Stop.{Stop};

    ghost from_gives = { λ refused stop. stop ≡ Stop.Memory };

    fn from(_refused: AllocError) -> Stop {
        Stop::Memory
    }
}

impl<T: Drop> From<AllocFailed<T>> for Stop {
    ghost use Rattle.redraw_command.specs.declared.stop.Stop.{Stop};

    ghost from_gives = { λ refused stop. stop ≡ Stop.Memory };

    fn from(_refused: AllocFailed<T>) -> Stop {
        Stop::Memory
    }
}

impl fmt::Display for Stop {
    fn fmt<W: fmt::Write>(&self, f: &mut fmt::Formatter<W>) -> fmt::Result {
        match self {
            Stop::Memory => f.write_str("out of memory"),
            Stop::Unwritable(error) => write!(f, "cannot write what is drawn: {error}"),
            Stop::Unreadable(error) => write!(f, "cannot read: {error}"),
            Stop::Utf16 => f.write_str("written in UTF-16, expected UTF-8"),
        }
    }
}
