//! Tests of the shortest encodings of numbers.

use crate::scripts::{Scripted, number_of, play_each, unknown, word_of};
use crate::syntax::scripts::digits_of;
use std::alloc::Global;
use std::process::Abort;
use wm_syntax::chunk::{put_s32, put_s64, put_u32};

/// Encodes a number, and returns its bytes.
#[derive(Drop)]
struct Spelling;

impl Scripted for Spelling {
    fn answer<A: Abort>(&mut self, rt: &A, alloc: Global, call: &str) -> String {
        let (word, with) = word_of(call);
        match word {
            "put_u32" => spelled_u32(rt, alloc, number_of(rt, with)),
            "put_s32" => spelled_s32(rt, alloc, with),
            "put_s64" => spelled_s64(rt, alloc, with),
            _ => unknown(rt, call),
        }
    }
}

fn spelled_u32(rt: &impl Abort, alloc: Global, number: u32) -> String {
    let mut into = [0xAA; 5];
    let len = put_u32(number, &mut into);
    digits_of(rt, alloc, &into[..len])
}

fn spelled_s32(rt: &impl Abort, alloc: Global, number: &str) -> String {
    let number = number.parse::<i32>().expect(rt, "a number");
    let mut into = [0xAA; 5];
    let len = put_s32(number, &mut into);
    digits_of(rt, alloc, &into[..len])
}

fn spelled_s64(rt: &impl Abort, alloc: Global, number: &str) -> String {
    let number = number.parse::<i64>().expect(rt, "a number");
    let mut into = [0xAA; 10];
    let len = put_s64(number, &mut into);
    digits_of(rt, alloc, &into[..len])
}

#[test]
fn shortest_numbers(rt: HostRuntime) {
    play_each(
        &rt,
        rt.alloc(),
        &mut Spelling,
        "put_u32 0 = 00
put_u32 127 = 7F
put_u32 128 = 80 01
put_u32 624485 = E5 8E 26
put_u32 4294967295 = FF FF FF FF 0F
put_s32 0, put_s64 0 = 00
put_s32 63, put_s64 63 = 3F
put_s32 64, put_s64 64 = C0 00
put_s32 -1, put_s64 -1 = 7F
put_s32 -64, put_s64 -64 = 40
put_s32 -65, put_s64 -65 = BF 7F
put_s32 -2147483648, put_s64 -2147483648 = 80 80 80 80 78
put_s32 2147483647, put_s64 2147483647 = FF FF FF FF 07
put_s64 -9223372036854775808 = 80 80 80 80 80 80 80 80 80 7F",
    );
}
