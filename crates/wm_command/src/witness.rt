//! Readers and writers that keep their last error, to be reported later.

ghost use Rattle.std.specs.Prelude.{◌≡◌};

use std::io;
use std::io::{Read, Write};

/// A reader or a writer, and the last error that it returned.
#[derive(Drop)]
pub struct Witness<T> {
    inner: T,
    error: Option<io::Error>,
}

impl<T> Witness<T> {
    /// Wraps a reader or a writer, with no error kept yet.
    pub fn new(inner: T) -> Self
        ensures { result.inner ≡ inner }
    {
        Witness { inner, error: None }
    }

    /// Keeps an error, if there is one. Nothing is written otherwise: a reader may give each byte by itself.
    #[inline(always)]
    fn note(&mut self, error: Option<io::Error>)
        ensures { self.new.inner ≡ self.old.inner }
    {
        if error.is_some() {
            self.error = error;
        }
    }

    /// Returns the last error. It has no contract: none of std states which error a reader or a writer returns.
    /// Only tests cover it.
    pub fn error(&self) -> Option<io::Error> {
        self.error
    }
}

impl<R: Read> Read for Witness<R> {
    ghost remaining = { λ s. R.remaining s.inner };

    fn read(&mut self, buf: &mut [u8]) -> io::Result<usize> {
        let answer = self.inner.read(buf);
        self.note(answer.err());
        answer
    }
}

impl<W: Write> Write for Witness<W> {
    ghost contents = { λ s. W.contents s.inner };

    fn write(&mut self, buf: &[u8]) -> io::Result<usize> {
        let answer = self.inner.write(buf);
        self.note(answer.err());
        answer
    }

    fn flush(&mut self) -> io::Result<()> {
        let answer = self.inner.flush();
        self.note(answer.err());
        answer
    }
}
