//! Why bytes are no report.

ghost use Rattle.std.specs.Prelude.{◌≡◌};
ghost use Rattle.report_bytes.specs.declared.fault.ReadError.TheVariants.{Memory};

use std::alloc::{AllocError, AllocFailed};

/// What is wrong with bytes.
#[derive(Clone, Copy, Debug, PartialEq, Eq)]
pub enum Wrong {
    /// They end before what has to stand there does.
    Short,
    /// A byte that says yes or no is neither 0 nor 1.
    Flag,
    /// A byte names a kind that there isn't.
    Kind,
    /// A text has 2^56 bytes or more.
    Long,
    /// A text isn't UTF-8.
    NotText,
    /// Bytes stand after the report.
    Trailing,
}

/// What is wrong with bytes, and where.
#[derive(Clone, Copy, Debug, PartialEq, Eq)]
pub struct ByteFault {
    pub wrong: Wrong,
    /// How many bytes are left from there on: those of the field that is at fault, of a text those after its length,
    /// and all that follow.
    pub left: usize,
}

/// Why no report was read.
#[derive(Debug, Drop)]
pub enum ReadError {
    /// A growth of memory was refused.
    Memory,
    /// The bytes are no report.
    Fault(ByteFault),
}

impl ReadError {
    ghost use Rattle.report_bytes.specs.Reading.{fault_at};
    ghost use Rattle.report_bytes.specs.declared.fault.ReadError.TheVariants as errors;

    /// That this is wrong where these bytes are left.
    pub fn at(wrong: Wrong, left: &[u8]) -> ReadError
        ensures fault { result ≡ errors.Fault (fault_at wrong left.now) }
    {
        ReadError::Fault(ByteFault {
            wrong,
            left: left.len(),
        })
    }
}

impl From<AllocError> for ReadError {
    ghost from_gives = { λ _ e. e ≡ Memory };

    fn from(_refused: AllocError) -> ReadError {
        ReadError::Memory
    }
}

impl<T: Drop> From<AllocFailed<T>> for ReadError {
    ghost from_gives = { λ _ e. e ≡ Memory };

    fn from(_refused: AllocFailed<T>) -> ReadError {
        ReadError::Memory
    }
}
