//! Readers and writers that give and take little, or fail.

use std::io;
use std::io::{ErrorKind, Read, Write};

/// Gives at most `step` bytes a read. After them a read fails once if there is a failure, and the
/// later ones find the end.
#[derive(Drop)]
pub(crate) struct Steps<'a> {
    pub(crate) bytes: &'a [u8],
    pub(crate) step: usize,
    pub(crate) failure: Option<ErrorKind>,
    /// How many bytes the last read had room for.
    pub(crate) room: usize,
}

impl Read for Steps<'_> {
    fn read(&mut self, buf: &mut [u8]) -> io::Result<usize> {
        self.room = buf.len();
        let count = self.step.min(self.bytes.len()).min(buf.len());
        if count == 0 {
            return match self.failure.take() {
                Some(kind) => Err(kind.into()),
                None => Ok(0),
            };
        }
        let (now, later) = self.bytes.split_at(count);
        buf[..count].copy_from_slice(now);
        self.bytes = later;
        Ok(count)
    }
}

/// Takes at most three bytes a write. After `room` bytes in all a write fails once, or takes no byte
/// if there is no failure, and the later ones take bytes again.
#[derive(Drop)]
pub(crate) struct Narrow {
    pub(crate) taken: Vec<u8>,
    pub(crate) room: usize,
    pub(crate) failure: Option<ErrorKind>,
}

impl Write for Narrow {
    fn write(&mut self, buf: &[u8]) -> io::Result<usize> {
        let count = self.room.min(buf.len()).min(3);
        if count == 0 {
            self.room = usize::MAX;
            return match self.failure {
                Some(kind) => Err(kind.into()),
                None => Ok(0),
            };
        }
        self.taken.extend_from_slice(&buf[..count])?;
        self.room -= count;
        Ok(count)
    }

    fn flush(&mut self) -> io::Result<()> {
        Ok(())
    }
}
