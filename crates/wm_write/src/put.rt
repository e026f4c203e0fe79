//! Writes bytes, numbers and lists to a writer, and computes their encoded lengths.

ghost use Rattle.std.specs.Prelude.{◌≡◌, List, flat_map, length, ℕ};
ghost use Rattle.wm_write.specs.Canon.{listed, sized, u32_bytes};
ghost use Rattle.wm_write.specs.exact.Writing.{Sent, capped};

use crate::encode::spell::number;
use wm_syntax::io::{Dest, put_all};
use wm_syntax::numbers::lengths::number_len;

/// A part of a module, written in the binary or the text format.
pub(crate) trait Part {
    type Value;

    // The bytes of a value.
    ghost bytes: { Self.Value → List ℕ };

    /// Writes the bytes of a value, and adds the number of bytes that went out to `written`. Nothing more goes out once
    /// the writer has failed.
    fn put<W: Dest>(w: &mut W, written: &mut u64, value: &Self::Value)
        ensures { Sent (bytes value.now) (W.has_failed w.old, W.contents w.old, written.old)
            (W.has_failed w.new, W.contents w.new, written.new) };
}

/// A part of the binary format whose length is computed without encoding it.
pub(crate) trait Counted: Part {
    /// The encoded length of a value in bytes, at most 2^64 - 1.
    fn len(value: &Self::Value) -> u64
        ensures { result ≡ capped (length (Self.bytes value.now)) };
}

/// Writes some bytes, and adds the number that went out to `written`. Nothing goes out if the writer has failed before.
pub(crate) fn put_bytes<W: Dest>(w: &mut W, written: &mut u64, bytes: &[u8])
    ensures { Sent bytes.now (W.has_failed w.old, W.contents w.old, written.old)
        (W.has_failed w.new, W.contents w.new, written.new) }
{
    if w.failed() {
        return;
    }
    match put_all(w, bytes) {
        Ok(()) => *written = written.saturating_add(bytes.len() as u64),
        Err(count) => *written = written.saturating_add(count as u64),
    }
}

/// Writes a number in the fewest bytes. Core spec 5.2.2.
pub(crate) fn put_number<W: Dest>(w: &mut W, written: &mut u64, value: u64)
    ensures { Sent (u32_bytes value) (W.has_failed w.old, W.contents w.old, written.old)
        (W.has_failed w.new, W.contents w.new, written.new) }
{
    put_bytes(w, written, number(value).as_slice());
}

/// Writes values one after another.
#[tactic(auto, using(crate::proofs::Writes::sent_none))]
pub(crate) fn put_each<P: Part, W: Dest>(w: &mut W, written: &mut u64, values: &[P::Value])
    ensures { Sent (flat_map P.bytes values.now) (W.has_failed w.old, W.contents w.old, written.old)
        (W.has_failed w.new, W.contents w.new, written.new) }
{
    for value in values {
        P::put(w, written, value);
    }
}

/// Writes a vector: the number of values, then each value. Core spec 5.1.3.
#[tactic(auto, using(crate::proofs::Writes::sent_then))]
pub(crate) fn put_list<P: Part, W: Dest>(w: &mut W, written: &mut u64, values: &[P::Value])
    ensures { Sent (listed P.bytes values.now) (W.has_failed w.old, W.contents w.old, written.old)
        (W.has_failed w.new, W.contents w.new, written.new) }
{
    put_number(w, written, values.len() as u64);
    put_each::<P, W>(w, written, values);
}

/// Writes a vector of bytes: the number of bytes, then the bytes. Core spec 5.1.3.
#[tactic(auto, using(crate::proofs::Writes::sent_then))]
pub(crate) fn put_sized<W: Dest>(w: &mut W, written: &mut u64, bytes: &[u8])
    ensures { Sent (sized bytes.now) (W.has_failed w.old, W.contents w.old, written.old)
        (W.has_failed w.new, W.contents w.new, written.new) }
{
    put_number(w, written, bytes.len() as u64);
    put_bytes(w, written, bytes);
}

// The total length of values in bytes, at most 2^64 - 1.
fn each_len<P: Counted>(values: &[P::Value]) -> u64
    ensures { result ≡ capped (length (flat_map P.bytes values.now)) }
{
    let mut sum = 0u64;
    for value in values {
        sum = sum.saturating_add(P::len(value));
    }
    sum
}

/// The number of bytes that `put_list` writes, at most 2^64 - 1.
pub(crate) fn list_len<P: Counted>(values: &[P::Value]) -> u64
    ensures { result ≡ capped (length (listed P.bytes values.now)) }
{
    each_len::<P>(values).saturating_add(number_len(values.len() as u64))
}

/// The number of bytes that `put_sized` writes, at most 2^64 - 1.
pub(crate) fn sized_len(bytes: &[u8]) -> u64
    ensures { result ≡ capped (length (sized bytes.now)) }
{
    let len = bytes.len() as u64;
    len.saturating_add(number_len(len))
}
