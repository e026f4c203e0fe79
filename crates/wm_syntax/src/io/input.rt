//! A `std` reader as a source.

ghost use Rattle.std.specs.Prelude.{◌≡◌, false};

use super::Source;
use std::io;
use std::io::Read;

/// A `std` reader as a source. `Interrupted` counts as an error like any other.
#[derive(Debug, Drop)]
pub struct Input<R> {
    inner: R,
    failed: bool,
}

impl<R: Read> Input<R> {
    ghost use Rattle.wm_syntax.specs.inner.Streams.{input_failed, input_inner};

    /// Wraps a reader.
    pub fn new(inner: R) -> Self
        ensures inner { input_inner result ≡ inner }
        ensures open { input_failed result ≡ false }
    {
        Input {
            inner,
            failed: false,
        }
    }

    /// Returns the wrapped reader.
    pub fn into_inner(self) -> R
        ensures { result ≡ input_inner self }
    {
        let Input { inner, failed: _ } = self;
        inner
    }
}

impl<R: Read> Source for Input<R> {
    ghost remaining = { λ s. R.remaining s.inner };

    ghost has_failed = { λ s. s.failed };

    fn get(&mut self, buf: &mut [u8]) -> io::Result<usize> {
        let answer = self.inner.read(buf);
        self.failed = self.failed || answer.is_err();
        answer
    }

    fn failed(&self) -> bool {
        self.failed
    }
}
