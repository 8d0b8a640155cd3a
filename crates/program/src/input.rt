//! The arguments of the command line, and what files hold.

ghost use Rattle.std.specs.Prelude.{◌≡◌, IfOk, map, string_bytes};
ghost use Rattle.program.specs.Arguments.{arguments_at};

use std::alloc::{AllocError, Global};
use std::rt::{Env, Files};
use std::{env, fs, io};

/// The arguments of the command line, without the program's name.
pub fn given_arguments(rt: &(impl Env + AllocGlobal)) -> io::Result<Vec<String>> {
    let mut args = Vec::new(rt.alloc());
    for argument in env::args(rt)?.skip(1) {
        args.push(argument)?;
    }
    Ok(args)
}

/// The arguments of a program, as UTF-8: there are none where one of them isn't.
pub fn given_texts(rt: &(impl Env + AllocGlobal)) -> Result<Vec<String>, AllocError> {
    match given_arguments(rt) {
        Ok(args) => Ok(args),
        Err(error) if error.kind() == io::ErrorKind::InvalidData => Ok(Vec::new(rt.alloc())),
        Err(_) => Err(AllocError),
    }
}

/// These texts, lent: a reference to each, in order.
pub fn texts_lent<'a>(alloc: Global, texts: &'a [String]) -> Result<Vec<&'a str>, AllocError>
    ensures texts { IfOk result (λ lent. arguments_at lent.items ≡ map string_bytes texts.now) }
{
    let mut lent = Vec::new(alloc);
    for text in texts {
        lent.push(text.as_str())?;
    }
    Ok(lent)
}

/// What the file of this path holds; `None` where it can't be read, or there is no path.
pub fn file_bytes(rt: &(impl Files + AllocGlobal), path: Option<&str>) -> Option<Vec<u8>> {
    fs::read(rt, path?).ok()
}
