//! Inputs: standard input and files, each by the argument that names it.

ghost use Rattle.std.specs.Prelude.{◌≡◌, IfOk};
ghost use Rattle.std.specs.Io.Buffered.{reader_inner, reader_remaining};
ghost use Rattle.either.specs.Either.{either};
ghost use Rattle.program.specs.Inputs as spec;
ghost use Rattle.program.specs.Inputs.{IsNamed, held_by, source_in};

use either::Either;
use std::fs;
use std::io::{self, BufReader};
use std::rt::Files;

/// The argument that names standard input.
pub const HYPHEN: &str = "-";

/// How standard input is called where something is told of it.
pub const STANDARD_INPUT: &str = "standard input";

/// How an input is called where something is told of it.
pub fn input_name<'a>(name: &'a str) -> &'a str
    ensures value { result.now ≡ spec.input_name name.now }
{
    if name == HYPHEN { STANDARD_INPUT } else { name }
}

/// The input of this name, to be read: standard input where it is a hyphen, and a file where it isn't.
pub fn opened<R: Files + Input + AllocGlobal>(
    rt: &R,
    name: &str,
) -> io::Result<BufReader<Either<R::File, R::Reader>>>
    ensures named { IfOk result (λ reader. IsNamed name.now (source_in reader)) }
    ensures bytes { IfOk result (λ reader. reader_remaining (either R.File.remaining R.Reader.remaining) reader
        ≡ held_by R.File.remaining R.Reader.remaining (source_in reader)) }
{
    let source = if name == HYPHEN {
        Either::Right(rt.reader())
    } else {
        Either::Left(fs::open(rt, name)?)
    };
    BufReader::new(rt.alloc(), source)
}

/// The file of this name, to be read.
pub fn opened_file<R: Files + AllocGlobal>(rt: &R, name: &str) -> io::Result<BufReader<R::File>>
    ensures bytes { IfOk result (λ reader.
        reader_remaining R.File.remaining reader ≡ R.File.remaining (reader_inner reader)) }
{
    BufReader::new(rt.alloc(), fs::open(rt, name)?)
}
