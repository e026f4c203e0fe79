//! A writer for tests with a limited number of bytes.

use std::alloc::Global;
use std::io;
use std::io::Write;

/// Takes at most `room` bytes, one a call.
#[derive(Drop)]
pub(crate) struct Narrow {
    taken: Vec<u8>,
    room: usize,
}

impl Narrow {
    pub(crate) fn new(alloc: Global, room: usize) -> Self {
        Narrow {
            taken: Vec::new(alloc),
            room,
        }
    }

    /// Returns the bytes that it has taken.
    pub(crate) fn taken(&self) -> &[u8] {
        self.taken.as_slice()
    }
}

impl Write for Narrow {
    fn write(&mut self, buf: &[u8]) -> io::Result<usize> {
        let Some(first) = buf.first() else {
            return Ok(0);
        };
        if self.taken.len() >= self.room {
            return Ok(0);
        }
        self.taken.push(*first)?;
        Ok(1)
    }

    fn flush(&mut self) -> io::Result<()> {
        Ok(())
    }
}
