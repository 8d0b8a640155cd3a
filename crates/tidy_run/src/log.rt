//! The writer to LOG.

use std::fs;
use std::io::{self, Write};
use std::rt::Files;

/// A file that is opened when it is first written to, and made or emptied then. Where no path is given, each write
/// fails.
#[derive(Drop)]
pub struct Log<'a, R: Files> {
    rt: &'a R,
    path: Option<&'a str>,
    file: Option<R::File>,
}

impl<'a, R: Files> Log<'a, R> {
    /// The writer to the file of this path, which isn't opened yet.
    pub fn new(rt: &'a R, path: Option<&'a str>) -> Log<'a, R> {
        Log {
            rt,
            path,
            file: None,
        }
    }

    /// Opens the file, if it isn't open.
    fn open(&mut self) -> io::Result<()> {
        if self.file.is_none() {
            let path = self.path.ok_or(io::Error::from(io::ErrorKind::NotFound))?;
            self.file = Some(fs::create(self.rt, path)?);
        }
        Ok(())
    }
}

impl<'a, R: Files> Write for Log<'a, R> {
    fn write(&mut self, buf: &[u8]) -> io::Result<usize> {
        self.open()?;
        match &mut self.file {
            Some(file) => file.write(buf),
            None => Err(io::Error::from(io::ErrorKind::NotFound)),
        }
    }

    fn flush(&mut self) -> io::Result<()> {
        match &mut self.file {
            Some(file) => file.flush(),
            None => Ok(()),
        }
    }
}
