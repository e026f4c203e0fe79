//! The operands in scripts of `wm_syntax`: bytes as two hexadecimal digits each, profiles and ops.

use crate::scripts::{number_of, unknown};
use std::alloc::Global;
use std::fmt::Write;
use std::process::Abort;
use wm_syntax::instructions::{Op, Simple};
use wm_syntax::profile::Profile;

pub(crate) fn byte_of(rt: &impl Abort, word: &str) -> u8 {
    u8::from_str_radix(word, 16).expect(rt, "a byte")
}

/// Reads bytes such as `E5 8E 26`.
pub(crate) fn bytes_of(rt: &impl Abort, alloc: Global, digits: &str) -> Vec<u8> {
    let mut bytes = Vec::new(alloc);
    for word in digits.split_whitespace() {
        bytes.push(byte_of(rt, word)).expect(rt, "memory");
    }
    bytes
}

/// Writes bytes as `bytes_of` reads them.
pub(crate) fn digits_of(rt: &impl Abort, alloc: Global, bytes: &[u8]) -> String {
    let mut digits = String::new(alloc);
    for byte in bytes {
        write!(digits, "{byte:02X} ").expect(rt, "memory");
    }
    digits.pop();
    digits
}

pub(crate) fn profile_of(rt: &impl Abort, word: &str) -> Profile {
    match word {
        "ONE" => Profile::ONE,
        "TWO" => Profile::TWO,
        "THREE" => Profile::THREE,
        "FOUR" => Profile::FOUR,
        _ => unknown(rt, word),
    }
}

/// Reads an op such as `Block`, or `Label:3` with a number.
pub(crate) fn op_of_word(rt: &impl Abort, word: &str) -> Op {
    match word.split_once(':') {
        Some((name, number)) => numbered_op(rt, name, number_of(rt, number)),
        None => plain_op(rt, word),
    }
}

fn plain_op(rt: &impl Abort, name: &str) -> Op {
    match name {
        "Block" => Op::Block(None),
        "If" => Op::If(None),
        "Else" => Op::Else,
        "End" => Op::End,
        "Nop" => Op::Simple(Simple::Nop),
        _ => unknown(rt, name),
    }
}

fn numbered_op(rt: &impl Abort, name: &str, number: u32) -> Op {
    match name {
        "Br" => Op::Simple(Simple::Br(number)),
        "BrTable" => Op::BrTable(number),
        "Label" => Op::Label(number),
        _ => unknown(rt, name),
    }
}
