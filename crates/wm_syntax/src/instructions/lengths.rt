//! The encoded length of an op, found without encoding it (Core spec 5.4).

ghost use Rattle.std.specs.Prelude.{◌≡◌, ◌+◌, ◌≤◌};
ghost use Rattle.wm_syntax.specs.Instructions.{names_segment};
ghost use Rattle.wm_syntax.specs.Lengths.{code_len, immediates_len, index_len, op_len};
ghost use Rattle.wm_syntax.specs.declared.instructions.Op.TheVariants as Op;

use crate::instructions::{MemArg, Numeric, Op, Simple};
use crate::numbers::lengths::{number_len, signed_len};

// Returns the encoded length of a memory argument, in bytes.
#[inline(always)]
fn access_len(at: MemArg) -> u64
    ensures value { result ≡ index_len at.align + index_len at.offset }
    ensures short { result ≤ 10 }
{
    number_len(u64::from(at.align)) + number_len(u64::from(at.offset))
}

// Returns how many bytes follow the first byte of an instruction, and whether it names a data segment: one jump finds both.
// The instruction is borrowed, since a copy would go through memory.
#[inline(always)]
fn following(simple: &Simple) -> (u64, bool)
    ensures value { 1 + result.0 ≡ code_len simple.now + immediates_len simple.now }
    ensures short { result.0 ≤ 10 }
    ensures names { result.1 ≡ names_segment (Op.Simple simple.now) }
{
    let len = match simple {
        Simple::Br(index)
        | Simple::BrIf(index)
        | Simple::Call(index)
        | Simple::LocalGet(index)
        | Simple::LocalSet(index)
        | Simple::LocalTee(index)
        | Simple::GlobalGet(index)
        | Simple::GlobalSet(index) => number_len(u64::from(*index)),
        Simple::CallIndirect(index) => number_len(u64::from(*index)) + 1,
        Simple::MemorySize | Simple::MemoryGrow => 1,
        Simple::MemoryCopy => 3,
        Simple::MemoryFill => 2,
        Simple::MemoryInit(index) => return (number_len(u64::from(*index)) + 2, true),
        Simple::DataDrop(index) => return (number_len(u64::from(*index)) + 1, true),
        Simple::TableInit(index) => number_len(u64::from(*index)) + 2,
        Simple::ElemDrop(index) => number_len(u64::from(*index)) + 1,
        Simple::TableCopy => 3,
        Simple::I32Const(value) => signed_len(i64::from(*value), 5),
        Simple::I64Const(value) => signed_len(*value, 10),
        Simple::F32Const(_) => 4,
        Simple::F64Const(_) => 8,
        Simple::Load(_, at) | Simple::Store(_, at) => access_len(*at),
        Simple::Numeric(Numeric::Saturate(_)) => 1,
        _ => 0,
    };
    (len, false)
}

/// Returns the encoded length of an instruction in bytes, and whether it names a data segment.
#[inline(always)]
pub(crate) fn simple_len(simple: &Simple) -> (u64, bool)
    ensures len { result.0 ≡ op_len (Op.Simple simple.now) }
    ensures names { result.1 ≡ names_segment (Op.Simple simple.now) }
{
    let (following, names_segment) = following(simple);
    (1 + following, names_segment)
}

/// Returns the encoded length of an op in bytes, each number in its shortest encoding. Inlined, so that a
/// call with a known op has little left to do.
#[inline(always)]
pub fn op_len(op: &Op) -> u64
    ensures { result ≡ op_len op.now }
{
    match op {
        Op::Simple(simple) => simple_len(simple).0,
        Op::Block(_) | Op::Loop(_) | Op::If(_) => 2,
        Op::Else | Op::End => 1,
        Op::BrTable(count) => 1 + number_len(u64::from(*count)),
        Op::Label(label) => number_len(u64::from(*label)),
    }
}
