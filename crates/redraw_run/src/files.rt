//! The files that a log may name.
ghost use Rattle.std.specs.Prelude.{◌≡◌};
ghost use Rattle.redraw_command.specs.Found.{IsBound};

use redraw_command::arguments::RedrawRequest;
use redraw_command::found::{Found, bound};
use redraw_read::sources::SourceFiles;
use std::alloc::AllocError;
use std::cell::Cell;
use std::rt::Files;

/// The files below a folder, or below the one that the program runs in.
#[derive(Drop)]
pub struct FilesUnder<'w, R> {
    rt: &'w R,
    /// The folder, where one is given.
    root: Option<&'w str>,
    /// Whether any file elsewhere is as one that isn't there.
    is_confined: bool,
    /// How many files weren't read, since they lie elsewhere.
    outside: &'w Cell<u64>,
}

impl<R: Files + AllocGlobal> SourceFiles for FilesUnder<'_, R> {
    fn bytes(&self, name: &str) -> Result<Option<Vec<u8>>, AllocError> {
        match self.root {
            Some(root) if !name.starts_with('/') => {
                let path = format!(in self.rt.alloc(); "{root}/{name}")?;
                Ok(self.read(path.as_str()))
            }
            _ => Ok(self.read(name)),
        }
    }
}

impl<'w, R: Files + AllocGlobal> FilesUnder<'w, R> {
    /// The files that lines of rustc and cargo may name.
    pub fn for_lines(
        rt: &'w R,
        request: &RedrawRequest<'_, 'w>,
        outside: &'w Cell<u64>,
    ) -> FilesUnder<'w, R>
        ensures confined { result.is_confined ≡ request.now.confines_lines }
    {
        FilesUnder {
            rt,
            root: request.root,
            is_confined: request.confines_lines,
            outside,
        }
    }

    /// The files that SARIF logs may name.
    pub fn for_logs(
        rt: &'w R,
        request: &RedrawRequest<'_, 'w>,
        outside: &'w Cell<u64>,
    ) -> FilesUnder<'w, R>
        ensures confined { result.is_confined ≡ request.now.confines_logs }
    {
        FilesUnder {
            rt,
            root: request.root,
            is_confined: request.confines_logs,
            outside,
        }
    }

    /// The bytes of a file by its path; `None` where it can't be read, or may not be.
    fn read(&self, path: &str) -> Option<Vec<u8>> {
        match self.found(path) {
            Found::File(file) => file.bytes(self.rt),
            Found::Outside => {
                self.outside.set(self.outside.get().saturating_add(1));
                None
            }
            Found::Nothing => None,
        }
    }

    /// What there is by a path.
    fn found(&self, path: &str) -> Found
        ensures bound { IsBound self.now.is_confined result }
    {
        Found::find(self.rt, bound(self.is_confined, self.root), path)
    }
}
