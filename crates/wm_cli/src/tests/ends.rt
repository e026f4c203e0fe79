//! A reader and a writer that may fail at one of their calls.

use std::alloc::Global;
use std::io;
use std::io::{ErrorKind, Read, Write};

/// How a call fails.
#[derive(Clone, Copy)]
pub enum Fault {
    /// It returns this error.
    Error(ErrorKind),
    /// A write accepts no byte, and a flush fails with `WriteZero`.
    Nothing,
}

pub const BROKEN: Fault = Fault::Error(ErrorKind::BrokenPipe);

pub const INTERRUPTED: Fault = Fault::Error(ErrorKind::Interrupted);

/// How an end behaves: each call passes at most `most` bytes, and one call may fail.
#[derive(Clone, Copy)]
pub struct Mode {
    pub most: usize,
    pub fault: Fault,
    /// The number of the call that fails, from 1 up. 0 is none.
    pub at: u32,
}

impl Mode {
    /// Returns a mode in which no call fails.
    pub fn by(most: usize) -> Self {
        Mode {
            most,
            fault: Fault::Nothing,
            at: 0,
        }
    }

    /// Whether the failing call is among the first `calls` calls.
    fn has_come(self, calls: u32) -> bool {
        self.at > 0 && calls >= self.at
    }

    /// The most bytes that this call passes. Fails with the mode's error if it is the failing call.
    fn room(self, call: u32) -> io::Result<usize> {
        match self.fault {
            _ if call != self.at => Ok(self.most),
            Fault::Error(kind) => Err(io::Error::from(kind)),
            Fault::Nothing => Ok(0),
        }
    }
}

/// A reader of some bytes that records how it is read.
#[derive(Drop)]
pub struct Reader<'a> {
    rest: &'a [u8],
    mode: Mode,
    pub calls: u32,
    given: usize,
    /// The bytes that the last call gave.
    last: usize,
    /// The most bytes that one call asked for.
    pub asked: usize,
    /// Whether it has failed, or was read at its end.
    is_over: bool,
    /// Whether a call came after `is_over`.
    is_asked_again: bool,
}

impl<'a> Reader<'a> {
    pub fn new(rest: &'a [u8], mode: Mode) -> Self {
        Reader {
            rest,
            mode,
            calls: 0,
            given: 0,
            last: 0,
            asked: 0,
            is_over: false,
            is_asked_again: false,
        }
    }

    pub fn has_failed(&self) -> bool {
        self.mode.has_come(self.calls)
    }

    /// Whether reading stopped in time: in the piece with the deciding byte, or at the end or the fault if no byte
    /// decided. `settled` is the offset of the deciding byte.
    pub fn is_left_in_time(&self, settled: Option<usize>) -> bool {
        match settled {
            _ if self.is_asked_again => false,
            Some(place) if self.is_over => place == self.given,
            Some(place) => place <= self.given && self.given - place < self.last,
            None => self.is_over,
        }
    }
}

impl Read for Reader<'_> {
    fn read(&mut self, buf: &mut [u8]) -> io::Result<usize> {
        self.calls = self.calls.saturating_add(1);
        self.asked = self.asked.max(buf.len());
        self.is_asked_again = self.is_asked_again || self.is_over;
        self.is_over = self.rest.is_empty() || self.calls == self.mode.at;
        let n = self
            .mode
            .room(self.calls)?
            .min(self.rest.len())
            .min(buf.len());
        let (front, rest) = self.rest.split_at(n);
        buf[..n].copy_from_slice(front);
        self.rest = rest;
        self.last = n;
        self.given = self.given.saturating_add(n);
        Ok(n)
    }
}

/// A writer that keeps the bytes and counts its calls. A flush is a call too.
#[derive(Drop)]
pub struct Writer {
    pub taken: Vec<u8>,
    mode: Mode,
    pub calls: u32,
    flushes: u32,
    /// The bytes that it had at the last flush.
    flushed: usize,
}

impl Writer {
    pub fn new(alloc: Global, mode: Mode) -> Self {
        Writer {
            taken: Vec::new(alloc),
            mode,
            calls: 0,
            flushes: 0,
            flushed: 0,
        }
    }

    pub fn has_failed(&self) -> bool {
        self.mode.has_come(self.calls)
    }

    /// Whether the failing call was the last one.
    pub fn is_left_in_time(&self) -> bool {
        self.calls == self.mode.at
    }

    /// Whether it was flushed `flushes` times, and has taken no byte since.
    pub fn is_flushed(&self, flushes: u32) -> bool {
        self.flushes == flushes && (flushes == 0 || self.flushed == self.taken.len())
    }

    /// Counts a call, and returns the most bytes that it passes.
    fn room(&mut self) -> io::Result<usize> {
        self.calls = self.calls.saturating_add(1);
        self.mode.room(self.calls)
    }
}

impl Write for Writer {
    fn write(&mut self, buf: &[u8]) -> io::Result<usize> {
        let n = self.room()?.min(buf.len());
        self.taken.extend_from_slice(&buf[..n])?;
        Ok(n)
    }

    fn flush(&mut self) -> io::Result<()> {
        self.flushes = self.flushes.saturating_add(1);
        self.flushed = self.taken.len();
        match self.room()? {
            0 => Err(io::Error::from(ErrorKind::WriteZero)),
            _ => Ok(()),
        }
    }
}
