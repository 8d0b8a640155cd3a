//! A writer that takes what it is given at once, is interrupted at first, has only so much room, and counts its calls.
use std::alloc::Global;
use std::io;
use std::io::Write;

/// What a watched writer holds, and how it was called.
#[derive(Drop)]
pub struct Watched {
    pub text: Vec<u8>,
    /// How many bytes it takes yet.
    room: usize,
    /// How often it is interrupted yet.
    interruptions: usize,
    pub calls: usize,
    /// The calls that failed for want of room.
    pub failures: usize,
}

impl Watched {
    /// A writer that takes this many bytes, and is interrupted this often before.
    pub fn new(alloc: Global, room: usize, interruptions: usize) -> Watched {
        Watched {
            text: Vec::new(alloc),
            room,
            interruptions,
            calls: 0,
            failures: 0,
        }
    }
}

impl Write for Watched {
    fn write(&mut self, buf: &[u8]) -> io::Result<usize> {
        self.calls = self.calls.saturating_add(1);
        if self.interruptions > 0 {
            self.interruptions -= 1;
            return Err(io::Error::from(io::ErrorKind::Interrupted));
        }
        let count = buf.len().min(self.room);
        if count == 0 {
            self.failures = self.failures.saturating_add(1);
            return Err(io::Error::from(io::ErrorKind::StorageFull));
        }
        self.text.extend_from_slice(&buf[..count])?;
        self.room -= count;
        Ok(count)
    }

    fn flush(&mut self) -> io::Result<()> {
        Ok(())
    }
}
