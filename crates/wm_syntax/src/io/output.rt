//! A `std` writer as a destination.

ghost use Rattle.std.specs.Prelude.{◌≡◌, ◌<◌, ◌||◌, false, is_err, length, IfOk};
ghost use Rattle.std.specs.Io.{WritesAtMost};
ghost use Rattle.std.specs.Io.KnownBytes.{WriteAppends};

use super::Dest;
use std::io;
use std::io::{ErrorKind, Write};

/// A `std` writer as a destination. A write of at least one byte that takes none is an error.
#[derive(Debug, Drop)]
pub struct Output<W> {
    inner: W,
    failed: bool,
    // whether the last call was a flush that succeeded
    flushed: bool,
}

impl<W: Write> Output<W> {
    ghost use Rattle.wm_syntax.specs.inner.Streams.{output_failed, output_inner};

    /// Wraps a writer.
    pub fn new(inner: W) -> Self
        ensures inner { output_inner result ≡ inner }
        ensures open { output_failed result ≡ false }
    {
        Output {
            inner,
            failed: false,
            flushed: false,
        }
    }

    /// Returns the wrapped writer.
    pub fn into_inner(self) -> W
        ensures { result ≡ output_inner self }
    {
        let Output {
            inner,
            failed: _,
            flushed: _,
        } = self;
        inner
    }
}

impl<W: Write> Dest for Output<W> {
    ghost contents = { λ s. W.contents s.inner };

    ghost has_failed = { λ s. s.failed };

    ghost is_flushed = { λ s. s.flushed };

    // The contract of `Dest::put`, and that the bytes are not passed on before a flush.
    fn put(&mut self, buf: &[u8]) -> io::Result<usize>
        ensures bound { WritesAtMost result buf.now }
        ensures some { IfOk result (λ n. 0 < length buf.now → 0 < n) }
        ensures bytes { WriteAppends (W.contents self.old.inner) (W.contents self.new.inner) result buf.now }
        ensures failed { self.new.failed ≡ (self.old.failed || is_err result) }
        ensures held { self.new.flushed ≡ false }
    {
        let answer = match self.inner.write(buf) {
            Ok(0) if !buf.is_empty() => Err(io::Error::from(ErrorKind::WriteZero)),
            answer => answer,
        };
        self.failed = self.failed || answer.is_err();
        self.flushed = false;
        answer
    }

    fn flush(&mut self) -> io::Result<()> {
        let answer = self.inner.flush();
        self.failed = self.failed || answer.is_err();
        self.flushed = answer.is_ok();
        answer
    }

    fn failed(&self) -> bool {
        self.failed
    }
}
