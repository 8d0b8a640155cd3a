//! Lines that are written to writers which take a byte at a time, are interrupted or fail.
use crate::slow::Slow;
use output_stream::Stream;
use program::line::write_line;
use std::io;
use std::io::Write;

#[test]
fn writes_a_line_whole_or_a_first_part_of_it(rt: HostRuntime) {
    for (room, text, is_whole) in [
        (3, "ab\n", true),
        (2, "ab", false),
        (1, "a", false),
        (0, "", false),
    ] {
        let mut slow = Slow::with_room(rt.alloc(), room);
        assert_eq!(rt; write_line("ab", &mut Stream::new(&mut slow)), is_whole);
        assert_eq!(rt; slow.text.as_slice(), text.as_bytes());
    }
}

/// A writer whose second write fails, and no other.
#[derive(Drop)]
struct Flaky {
    text: Vec<u8>,
    has_written: bool,
    has_failed: bool,
}

impl Write for Flaky {
    fn write(&mut self, buf: &[u8]) -> io::Result<usize> {
        if self.has_written && !self.has_failed {
            self.has_failed = true;
            return Err(io::Error::from(io::ErrorKind::Other));
        }
        self.has_written = true;
        self.text.extend_from_slice(buf)?;
        Ok(buf.len())
    }

    fn flush(&mut self) -> io::Result<()> {
        Ok(())
    }
}

#[test]
fn writes_nothing_once_a_write_has_failed(rt: HostRuntime) {
    let mut flaky = Flaky {
        text: Vec::new(rt.alloc()),
        has_written: false,
        has_failed: false,
    };
    let mut stream = Stream::new(&mut flaky);
    assert!(rt; !write_line("ab", &mut stream));
    assert!(rt; !write_line("c", &mut stream));
    assert!(rt; stream.flush().is_err());
    assert_eq!(rt; flaky.text.as_slice(), b"ab".as_slice());
}
