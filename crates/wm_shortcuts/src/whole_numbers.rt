//! Readers of LEB128 numbers that lie whole in a slice. Core spec 5.2.2.

ghost use Rattle.std.specs.Prelude.{◌≡◌, ◌<◌, ◌^◌, IfSome, length};
ghost use Rattle.wm_syntax.specs.exact.Reading.{signed_push, unsigned_push};
ghost use Rattle.wm_shortcuts.specs.exact.WholeOps.{LiesAt, one_signed};

use wm_syntax::numbers::{Int32, Int64, Num32, Step};

/// A number, and the index after its last byte.
#[derive(Clone, Copy)]
pub(crate) struct Whole<T> {
    pub(crate) value: T,
    pub(crate) next: usize,
}

/// Reads the u32 that begins at the index `at`. Returns `None` if none ends in the slice.
#[inline(always)]
#[tactic(auto, using(crate::proofs::WholeNumbers::u32_short, crate::proofs::WholeNumbers::u32_two))]
pub(crate) fn u32_at(bytes: &[u8], at: usize) -> Option<Whole<u32>>
    requires { at < length bytes.now }
    ensures { IfSome result (λ w. LiesAt (unsigned_push 32) bytes.now at w.next w.value) }
{
    let byte = bytes[at];
    if byte < 0x80 {
        Some(Whole {
            value: u32::from(byte),
            next: at + 1,
        })
    } else if at + 1 < bytes.len() && bytes[at + 1] < 0x80 {
        Some(Whole {
            value: u32::from(byte - 0x80) + u32::from(bytes[at + 1]) * 0x80,
            next: at + 2,
        })
    } else {
        let long = long_u32(bytes, at);
        if long.next > at { Some(long) } else { None }
    }
}

// Reads the same one byte at a time. If there is none, `next` is `at`
#[inline(never)]
fn long_u32(bytes: &[u8], at: usize) -> Whole<u32>
    requires { at < length bytes.now }
    ensures { at < result.next → LiesAt (unsigned_push 32) bytes.now at result.next result.value }
{
    let mut number = Num32::new();
    for i in at..bytes.len() {
        match number.push(bytes[i]) {
            Step::More => {}
            Step::Done(value) => return Whole { value, next: i + 1 },
            Step::Bad => break,
        }
    }
    Whole { value: 0, next: at }
}

// Returns the number that one byte spells
#[inline(always)]
fn signed(byte: u8) -> i8
    requires { byte < 2 ^ 7 }
    ensures { result ≡ one_signed byte }
{
    if byte < 0x40 {
        byte as i8
    } else {
        -1 - (0x7F - byte) as i8
    }
}

/// Reads the s32 that begins at the index `at`. Returns `None` if none ends in the slice.
#[inline(always)]
#[tactic(auto, using(crate::proofs::WholeNumbers::s32_short))]
pub(crate) fn s32_at(bytes: &[u8], at: usize) -> Option<Whole<i32>>
    requires { at < length bytes.now }
    ensures { IfSome result (λ w. LiesAt (signed_push 32) bytes.now at w.next w.value) }
{
    let byte = bytes[at];
    if byte < 0x80 {
        Some(Whole {
            value: i32::from(signed(byte)),
            next: at + 1,
        })
    } else {
        let long = long_s32(bytes, at);
        if long.next > at { Some(long) } else { None }
    }
}

// Reads the same one byte at a time. If there is none, `next` is `at`
#[inline(never)]
fn long_s32(bytes: &[u8], at: usize) -> Whole<i32>
    requires { at < length bytes.now }
    ensures { at < result.next → LiesAt (signed_push 32) bytes.now at result.next result.value }
{
    let mut number = Int32::new();
    for i in at..bytes.len() {
        match number.push(bytes[i]) {
            Step::More => {}
            Step::Done(value) => return Whole { value, next: i + 1 },
            Step::Bad => break,
        }
    }
    Whole { value: 0, next: at }
}

/// Reads the s64 that begins at the index `at`. Returns `None` if none ends in the slice.
#[inline(always)]
#[tactic(auto, using(crate::proofs::WholeNumbers::s64_short))]
pub(crate) fn s64_at(bytes: &[u8], at: usize) -> Option<Whole<i64>>
    requires { at < length bytes.now }
    ensures { IfSome result (λ w. LiesAt (signed_push 64) bytes.now at w.next w.value) }
{
    let byte = bytes[at];
    if byte < 0x80 {
        Some(Whole {
            value: i64::from(signed(byte)),
            next: at + 1,
        })
    } else {
        let long = long_s64(bytes, at);
        if long.next > at { Some(long) } else { None }
    }
}

// Reads the same one byte at a time. If there is none, `next` is `at`
#[inline(never)]
fn long_s64(bytes: &[u8], at: usize) -> Whole<i64>
    requires { at < length bytes.now }
    ensures { at < result.next → LiesAt (signed_push 64) bytes.now at result.next result.value }
{
    let mut number = Int64::new();
    for i in at..bytes.len() {
        match number.push(bytes[i]) {
            Step::More => {}
            Step::Done(value) => return Whole { value, next: i + 1 },
            Step::Bad => break,
        }
    }
    Whole { value: 0, next: at }
}
