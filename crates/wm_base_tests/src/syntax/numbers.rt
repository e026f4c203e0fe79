//! Tests of the readers of numbers.

use crate::scripts::{Scripted, play, shown, unknown, word_of};
use crate::syntax::scripts::bytes_of;
use std::alloc::Global;
use std::process::Abort;
use wm_syntax::numbers::{Int32, Int64, Leb128, Num32, Num64, Step, short_front};

// The answer of a new reader to the last of these bytes.
macro_rules! last_answer {
    ($reader:ident, $push:ident, $bytes:ident $(, $width:literal)?) => {{
        let mut reader = $reader::new();
        let mut answer = Step::More;
        for byte in $bytes {
            answer = reader.$push($($width,)? *byte);
        }
        answer
    }};
}

/// Reads bytes by a reader of the named kind, and returns its answer to the last byte.
#[derive(Drop)]
struct Numbers;

impl Scripted for Numbers {
    fn answer<A: Abort>(&mut self, rt: &A, alloc: Global, call: &str) -> String {
        let (word, with) = word_of(call);
        read(rt, alloc, word, &bytes_of(rt, alloc, with))
    }
}

fn read(rt: &impl Abort, alloc: Global, word: &str, bytes: &[u8]) -> String {
    match word {
        "u32" => shown(rt, alloc, last_answer!(Num32, push, bytes)),
        "u64" => shown(rt, alloc, last_answer!(Num64, push, bytes)),
        "s32" => shown(rt, alloc, last_answer!(Int32, push, bytes)),
        "s64" => shown(rt, alloc, last_answer!(Int64, push, bytes)),
        "unsigned7" => shown(rt, alloc, last_answer!(Leb128, push_unsigned, bytes, 7)),
        "signed33" => shown(rt, alloc, last_answer!(Leb128, push_signed, bytes, 33)),
        "short_front" => shown(rt, alloc, short_front(bytes)),
        _ => unknown(rt, word),
    }
}

#[test]
fn unsigned_numbers(rt: HostRuntime) {
    play(
        &rt,
        rt.alloc(),
        &mut Numbers,
        "u32 00 = Done(0)
u32 7F = Done(127)
u32 E5 8E 26 = Done(624485)
u32 E5 8E = More
u32 87 80 80 80 00 = Done(7)
u32 80 00 = Done(0)
u32 FF FF FF FF 0F = Done(4294967295)
u32 FF FF FF FF 10 = Bad
u32 87 80 80 80 80 = Bad
u32 07 07 = Bad
u32 FF FF FF FF 10 00 = Bad
u64 FF FF FF FF FF FF FF FF FF = More
u64 FF FF FF FF FF FF FF FF FF 01 = Done(18446744073709551615)
u64 80 80 80 80 80 80 80 80 80 02 = Bad
unsigned7 7F = Done(127)
unsigned7 80 = Bad
short_front 05 7F 80 01 = 2
short_front 80 01 = 0
short_front 00 01 02 = 3
short_front = 0",
    );
}

// The fifth byte of a 32-bit number is 00 to 07 or 78 to 7F. The tenth of a 64-bit number is 00 or 7F.
#[test]
fn signed_numbers(rt: HostRuntime) {
    play(
        &rt,
        rt.alloc(),
        &mut Numbers,
        "s32 3F = Done(63)
s32 40 = Done(-64)
s32 7F = Done(-1)
s32 C0 BB 78 = Done(-123456)
s32 FF FF FF FF 7F = Done(-1)
s32 82 00 = Done(2)
s32 80 80 80 80 00 = Done(0)
s32 80 80 80 80 07 = Done(1879048192)
s32 80 80 80 80 08 = Bad
s32 80 80 80 80 3F = Bad
s32 80 80 80 80 40 = Bad
s32 80 80 80 80 77 = Bad
s32 80 80 80 80 78 = Done(-2147483648)
s32 80 80 80 80 7F = Done(-268435456)
s32 80 80 80 80 80 = Bad
s32 7F 7F = Bad
s64 80 80 80 80 80 80 80 80 80 7F = Done(-9223372036854775808)
s64 FF FF FF FF FF FF FF FF FF 00 = Done(9223372036854775807)
s64 FF FF FF FF FF FF FF FF FF 01 = Bad
s64 80 80 80 80 80 80 80 80 80 7E = Bad
signed33 80 = More
signed33 80 7F = Done(-128)",
    );
}
