//! Types and ops in scripts. Ops are written as in the text format, with commas between them. A float constant is its
//! bits.

use crate::scripts::{number_of, type_of, unknown, word_of};
use std::alloc::Global;
use std::process::Abort;
use wm_syntax::instructions::op_class::{Immediates, OpClass};
use wm_syntax::instructions::op_names::op_named;
use wm_syntax::instructions::{MemArg, Op, Simple};
use wm_syntax::profile::{Feature, Profile};
use wm_syntax::types::ValType;

/// Reads an optional type. An empty word is none.
pub(crate) fn given_of(rt: &impl Abort, word: &str) -> Option<ValType> {
    if word.is_empty() {
        return None;
    }
    Some(type_of(rt, word))
}

/// Reads types such as `i32 i64`.
pub(crate) fn types_of(rt: &impl Abort, alloc: Global, words: &str) -> Vec<ValType> {
    let mut types = Vec::new(alloc);
    for word in words.split_whitespace() {
        types.push(type_of(rt, word)).expect(rt, "memory");
    }
    types
}

/// Reads ops such as `block, local.get 7, end`.
pub(crate) fn ops_of(rt: &impl Abort, alloc: Global, text: &str) -> Vec<Op> {
    let mut ops = Vec::new(alloc);
    for op in text.split(", ") {
        ops.push(op_of(rt, op)).expect(rt, "memory");
    }
    ops
}

/// Reads an op such as `br_table 1`.
pub(crate) fn op_of(rt: &impl Abort, text: &str) -> Op {
    let (name, with) = word_of(text);
    let profile = Profile::THREE
        .with(Feature::Saturation)
        .with(Feature::Copies)
        .with(Feature::BulkMemory);
    match op_named(profile, name.as_bytes()) {
        OpClass::Plain(op) => op,
        OpClass::With(immediates) => op_with(rt, immediates, with),
        _ => label_of(rt, name, with),
    }
}

fn label_of(rt: &impl Abort, name: &str, with: &str) -> Op {
    if name != "label" {
        unknown(rt, name)
    }
    Op::Label(number_of(rt, with))
}

fn op_with(rt: &impl Abort, immediates: Immediates, with: &str) -> Op {
    match immediates {
        Immediates::Block(op) => op.op(given_of(rt, with)),
        Immediates::Index(op) => op.op(number_of(rt, with)),
        Immediates::CallIndirect => Op::Simple(Simple::CallIndirect(number_of(rt, with))),
        Immediates::Memory(op) => op.op(),
        Immediates::MemoryInit => Op::Simple(Simple::MemoryInit(number_of(rt, with))),
        Immediates::TableInit => Op::Simple(Simple::TableInit(number_of(rt, with))),
        Immediates::TableCopy => Op::Simple(Simple::TableCopy),
        Immediates::I32Const => int_of(rt, with),
        Immediates::I64Const => Op::Simple(Simple::I64Const(i64::from(number_of(rt, with)))),
        Immediates::F32Const => Op::Simple(Simple::F32Const(number_of(rt, with))),
        Immediates::F64Const => Op::Simple(Simple::F64Const(u64::from(number_of(rt, with)))),
        Immediates::Access(op) => op.op(access_of(rt, with)),
    }
}

fn int_of(rt: &impl Abort, with: &str) -> Op {
    Op::Simple(Simple::I32Const(with.parse::<i32>().expect(rt, "a number")))
}

// Reads the exponent of the alignment, and the offset.
fn access_of(rt: &impl Abort, with: &str) -> MemArg {
    let (align, offset) = word_of(with);
    let align = number_of(rt, align);
    let offset = number_of(rt, offset);
    MemArg { align, offset }
}
