//! Byte readers and writers that record whether a call has failed.

ghost use Rattle.std.specs.Prelude.{◌≡◌, ℕ, ◌<◌, ◌||◌, Bool, false, true, List, Option, length, take, is_err};
ghost use Rattle.std.specs.Prelude.{IfOk, OnOk, IfErr, ◌≤◌};
ghost use Rattle.std.specs.Io.{ReadsAtMost, WritesAtMost};
ghost use Rattle.std.specs.Io.KnownBytes.{Appends, Keeps, ReadConsumes, WriteAppends};

use std::io;

pub mod input;
pub mod output;

/// A reader of bytes.
pub trait Source {
    // The bytes still to come, or `None` if the type does not determine them.
    ghost remaining: { Self → Option (List ℕ) };
    // Whether any call has returned an error.
    ghost has_failed: { Self → Bool };

    /// Reads into `buf`, and returns how many bytes were read. Returns 0 only at the end, or if `buf` is
    /// empty. An error, including `Interrupted`, consumes nothing.
    fn get(&mut self, buf: &mut [u8]) -> io::Result<usize>
        ensures bound { ReadsAtMost result buf.new }
        ensures bytes { ReadConsumes (remaining self.old) (remaining self.new) result buf.new }
        ensures failed { has_failed self.new ≡ (has_failed self.old || is_err result) };

    /// Whether any call has returned an error.
    fn failed(&self) -> bool
        ensures { result ≡ has_failed self.now };
}

/// A writer of bytes.
pub trait Dest {
    // The bytes written so far, or `None` if the type does not determine them.
    ghost contents: { Self → Option (List ℕ) };
    // Whether any call has returned an error.
    ghost has_failed: { Self → Bool };
    // Whether everything written has been passed on. It always has for a type that buffers nothing.
    ghost is_flushed: { Self → Bool } = { λ _. true };

    /// Writes the first bytes of `buf`, and returns how many. It is at least one, unless `buf` is empty. An
    /// error, including `Interrupted`, writes nothing.
    fn put(&mut self, buf: &[u8]) -> io::Result<usize>
        ensures bound { WritesAtMost result buf.now }
        ensures some { IfOk result (λ n. 0 < length buf.now → 0 < n) }
        ensures bytes { WriteAppends (contents self.old) (contents self.new) result buf.now }
        ensures failed { has_failed self.new ≡ (has_failed self.old || is_err result) };

    /// Passes on everything that is buffered.
    fn flush(&mut self) -> io::Result<()>
        ensures bytes { Keeps (contents self.old) (contents self.new) }
        ensures flushed { OnOk result (is_flushed self.new ≡ true) }
        ensures failed { has_failed self.new ≡ (has_failed self.old || is_err result) };

    /// Whether any call has returned an error.
    fn failed(&self) -> bool
        ensures { result ≡ has_failed self.now };
}

/// Writes all of `bytes`. Fails with the number of bytes that were written before the error.
pub fn put_all<W: Dest>(w: &mut W, bytes: &[u8]) -> Result<(), usize>
    requires { W.has_failed w.old ≡ false }
    ensures written { OnOk result (Appends (W.contents w.old) (W.contents w.new) bytes.now) }
    ensures beginning { IfErr result (λ n. (n ≤ length bytes.now)
        × Appends (W.contents w.old) (W.contents w.new) (take n bytes.now)) }
    ensures failed { W.has_failed w.new ≡ is_err result }
{
    let mut from = 0;
    while from < bytes.len() {
        match w.put(&bytes[from..]) {
            Ok(n) => from += n,
            Err(_) => return Err(from),
        }
    }
    Ok(())
}
