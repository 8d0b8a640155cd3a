//! A writer that takes a byte at a time, is interrupted, and fails.
use std::alloc::Global;
use std::io;
use std::io::Write;

/// A writer that takes a byte at a time until it has this many, and is interrupted before each.
#[derive(Drop)]
pub struct Slow {
    pub text: Vec<u8>,
    room: usize,
    is_interrupted: bool,
}

impl Slow {
    /// A writer that takes this many bytes.
    pub fn with_room(alloc: Global, room: usize) -> Slow {
        Slow {
            text: Vec::new(alloc),
            room,
            is_interrupted: false,
        }
    }
}

impl Write for Slow {
    fn write(&mut self, buf: &[u8]) -> io::Result<usize> {
        self.is_interrupted = !self.is_interrupted;
        if self.is_interrupted {
            return Err(io::Error::from(io::ErrorKind::Interrupted));
        }
        if self.text.len() >= self.room {
            return Err(io::Error::from(io::ErrorKind::Other));
        }
        match buf.first() {
            Some(byte) => {
                self.text.push(*byte)?;
                Ok(1)
            }
            None => Ok(0),
        }
    }

    fn flush(&mut self) -> io::Result<()> {
        Ok(())
    }
}
