//! The reader of one op, one byte at a time. The labels of a `br_table` are read in `expressions.rt`. Core spec 5.4.

ghost use Rattle.std.specs.Prelude.{◌≡◌};
ghost use Rattle.wm_machine.specs.exact.OpSteps.{after_table, align_step, begin_step, block_step, call_type_step};
ghost use Rattle.wm_machine.specs.exact.OpSteps.{class_step, closing_step, code_step, const_32_step, const_64_step};
ghost use Rattle.wm_machine.specs.exact.OpSteps.{first_zero_step, float_32_step, float_64_step, immediates};
ghost use Rattle.wm_machine.specs.exact.OpSteps.{init_element_step, init_segment_step, offset_step, op_index_step};
ghost use Rattle.wm_machine.specs.exact.OpSteps.{op_push, padding_step, pushed_32, pushed_64, table_feature, table_step};

use crate::step::reading::{Reading, number_reading};
use crate::step::values::value_type;
use wm_syntax::instructions::op_class::{
    BlockOp, Immediates, Indexed, LoadOrStore, MemoryOp, OpClass,
};
use wm_syntax::instructions::opcodes::{op_behind, op_of};
use wm_syntax::instructions::{MemArg, Op, Simple};
use wm_syntax::numbers::{Int32, Int64, Num32, Step};
use wm_syntax::profile::{Feature, Profile};
use wm_syntax::why::Why;

/// The op whose table index, which must be 0, is being read.
#[derive(Clone, Copy)]
pub enum TableOp {
    /// A `call_indirect` with this type index.
    Call(u32),
    /// A `table.init` with this element segment.
    Init(u32),
    /// A `table.copy`, at the first of its two table indices.
    CopyTo,
    /// A `table.copy`, at the second.
    CopyFrom,
}

impl TableOp {
    // Returns the feature with which the table index may have more than one byte
    fn feature(self) -> Feature
        ensures { result ≡ table_feature self }
    {
        match self {
            TableOp::Call(_) => Feature::LongIndex,
            TableOp::Init(_) | TableOp::CopyTo | TableOp::CopyFrom => Feature::BulkMemory,
        }
    }

    // Returns what follows the table index
    fn after(self) -> Reading<InOp, Op>
        ensures { result ≡ after_table self }
    {
        match self {
            TableOp::Call(ty) => Reading::Done(Op::Simple(Simple::CallIndirect(ty))),
            TableOp::Init(segment) => Reading::Done(Op::Simple(Simple::TableInit(segment))),
            TableOp::CopyTo => Reading::More(InOp::Table {
                op: TableOp::CopyFrom,
                left: 4,
            }),
            TableOp::CopyFrom => Reading::Done(Op::Simple(Simple::TableCopy)),
        }
    }
}

/// Parser state inside an op.
#[derive(Clone, Copy)]
pub enum InOp {
    /// Before its first byte.
    First,
    /// Behind the byte FC: before the first byte of a number.
    Code,
    /// Inside this number, which its first byte gives. A byte 00 ends it, and up to `left` bytes 80 may come before.
    Padding {
        number: u8,
        left: u8,
    },
    BlockType(BlockOp),
    Index {
        op: Indexed,
        number: Num32,
    },
    /// Inside the type index of a `call_indirect`.
    CallType(Num32),
    /// Inside a table index, which is 0: up to `left` bytes 80, and then a byte 00. A `call_indirect` may have bytes 80
    /// only under `Feature::LongIndex`.
    Table {
        op: TableOp,
        left: u8,
    },
    /// Inside the index of the element segment of a `table.init`.
    InitElement(Num32),
    /// Inside the index of the data segment of a `memory.init`.
    InitSegment(Num32),
    /// Before the byte 00 that ends the `memory.init` with this index.
    InitMemory(u32),
    /// Before the first of the two bytes 00 that end a `memory.copy`.
    FirstZero,
    /// Before the byte 00 that ends a memory instruction.
    Memory(MemoryOp),
    Const32(Int32),
    Const64(Int64),
    /// Inside a float; `left` bytes of it follow the next byte. The bytes so far are the highest of `bits`.
    Float32 {
        left: u8,
        bits: u32,
    },
    Float64 {
        left: u8,
        bits: u64,
    },
    Align {
        op: LoadOrStore,
        number: Num32,
    },
    Offset {
        op: LoadOrStore,
        align: u32,
        number: Num32,
    },
}

// Returns the state before the immediates of an op
fn before(kind: Immediates) -> InOp
    ensures { result ≡ immediates kind }
{
    match kind {
        Immediates::Block(op) => InOp::BlockType(op),
        Immediates::Index(op) => InOp::Index {
            op,
            number: Num32::new(),
        },
        Immediates::CallIndirect => InOp::CallType(Num32::new()),
        Immediates::MemoryInit => InOp::InitSegment(Num32::new()),
        Immediates::Memory(MemoryOp::MemoryCopy) => InOp::FirstZero,
        Immediates::Memory(op) => InOp::Memory(op),
        Immediates::TableInit => InOp::InitElement(Num32::new()),
        Immediates::TableCopy => InOp::Table {
            op: TableOp::CopyTo,
            left: 4,
        },
        Immediates::I32Const => InOp::Const32(Int32::new()),
        Immediates::I64Const => InOp::Const64(Int64::new()),
        Immediates::F32Const => InOp::Float32 { left: 3, bits: 0 },
        Immediates::F64Const => InOp::Float64 { left: 7, bits: 0 },
        Immediates::Access(op) => InOp::Align {
            op,
            number: Num32::new(),
        },
    }
}

fn first(profile: Profile, byte: u8) -> Reading<InOp, Op>
    ensures { result ≡ begin_step profile byte }
{
    if byte != 0xFC {
        behind_code(op_of(profile, byte))
    } else if profile.has_prefix() {
        Reading::More(InOp::Code)
    } else {
        Reading::Bad(Why::BadOpcode)
    }
}

// Returns what follows the code of an op of this class
fn behind_code(class: OpClass) -> Reading<InOp, Op>
    ensures { result ≡ class_step class }
{
    match class {
        OpClass::Plain(op) => Reading::Done(op),
        OpClass::With(kind) => Reading::More(before(kind)),
        OpClass::Float => Reading::Bad(Why::Float),
        OpClass::None => Reading::Bad(Why::BadOpcode),
    }
}

// Takes the first byte of the number behind FC. Its low seven bits are the number of an instruction, or no byte goes on
fn code(profile: Profile, byte: u8) -> Reading<InOp, Op>
    ensures { result ≡ code_step profile byte }
{
    if byte < 0x80 {
        return behind_code(op_behind(profile, u32::from(byte)));
    }
    let number = byte - 0x80;
    match behind_code(op_behind(profile, u32::from(number))) {
        Reading::Bad(why) => Reading::Bad(why),
        Reading::More(_) | Reading::Done(_) => Reading::More(InOp::Padding { number, left: 3 }),
    }
}

// Takes a further byte of the number behind FC
fn padding(profile: Profile, number: u8, left: u8, byte: u8) -> Reading<InOp, Op>
    ensures { result ≡ padding_step profile number left byte }
{
    if byte == 0x00 {
        return behind_code(op_behind(profile, u32::from(number)));
    }
    if byte != 0x80 || left == 0 {
        return Reading::Bad(Why::BadOpcode);
    }
    let left = left - 1;
    Reading::More(InOp::Padding { number, left })
}

fn block_type(profile: Profile, op: BlockOp, byte: u8) -> Reading<InOp, Op>
    ensures { result ≡ block_step profile op byte }
{
    if byte == 0x40 {
        return Reading::Done(op.op(None));
    }
    match value_type(profile, byte) {
        Ok(ty) => Reading::Done(op.op(Some(ty))),
        Err(why) => Reading::Bad(why),
    }
}

// Each reader of a number has its own function: in `push` its state would be in memory that each byte clears.

fn index(op: Indexed, mut number: Num32, byte: u8) -> Reading<InOp, Op>
    ensures { result ≡ op_index_step op number byte }
{
    number_reading!(number.push(byte), InOp::Index { op, number }, n => Reading::Done(op.op(n)))
}

fn call_type(mut number: Num32, byte: u8) -> Reading<InOp, Op>
    ensures { result ≡ call_type_step number byte }
{
    number_reading!(
        number.push(byte),
        InOp::CallType(number),
        ty => Reading::More(InOp::Table { op: TableOp::Call(ty), left: 4 })
    )
}

fn init_element(mut number: Num32, byte: u8) -> Reading<InOp, Op>
    ensures { result ≡ init_element_step number byte }
{
    number_reading!(
        number.push(byte),
        InOp::InitElement(number),
        segment => Reading::More(InOp::Table { op: TableOp::Init(segment), left: 4 })
    )
}

fn init_segment(mut number: Num32, byte: u8) -> Reading<InOp, Op>
    ensures { result ≡ init_segment_step number byte }
{
    number_reading!(
        number.push(byte),
        InOp::InitSegment(number),
        segment => Reading::More(InOp::InitMemory(segment))
    )
}

fn align(op: LoadOrStore, mut number: Num32, byte: u8) -> Reading<InOp, Op>
    ensures { result ≡ align_step op number byte }
{
    number_reading!(
        number.push(byte),
        InOp::Align { op, number },
        align => Reading::More(InOp::Offset { op, align, number: Num32::new() })
    )
}

fn offset(op: LoadOrStore, align: u32, mut number: Num32, byte: u8) -> Reading<InOp, Op>
    ensures { result ≡ offset_step op align number byte }
{
    number_reading!(
        number.push(byte),
        InOp::Offset { op, align, number },
        offset => Reading::Done(op.op(MemArg { align, offset }))
    )
}

fn const_32(mut number: Int32, byte: u8) -> Reading<InOp, Op>
    ensures { result ≡ const_32_step number byte }
{
    number_reading!(
        number.push(byte),
        InOp::Const32(number),
        value => Reading::Done(Op::Simple(Simple::I32Const(value)))
    )
}

fn const_64(mut number: Int64, byte: u8) -> Reading<InOp, Op>
    ensures { result ≡ const_64_step number byte }
{
    number_reading!(
        number.push(byte),
        InOp::Const64(number),
        value => Reading::Done(Op::Simple(Simple::I64Const(value)))
    )
}

// Takes the byte 00 that ends an op
fn closing(op: Op, byte: u8) -> Reading<InOp, Op>
    ensures { result ≡ closing_step op byte }
{
    match byte {
        0x00 => Reading::Done(op),
        _ => Reading::Bad(Why::BadByte),
    }
}

// Takes the first of the two bytes 00 of a `memory.copy`
fn first_zero(byte: u8) -> Reading<InOp, Op>
    ensures { result ≡ first_zero_step byte }
{
    match byte {
        0x00 => Reading::More(InOp::Memory(MemoryOp::MemoryCopy)),
        _ => Reading::Bad(Why::BadByte),
    }
}

// Takes a byte of a table index
fn table(profile: Profile, op: TableOp, left: u8, byte: u8) -> Reading<InOp, Op>
    ensures { result ≡ table_step profile op left byte }
{
    if byte == 0x00 {
        return op.after();
    }
    if !profile.has(op.feature()) {
        return Reading::Bad(Why::BadByte);
    }
    if left == 0 || byte != 0x80 {
        return Reading::Bad(Why::BadNumber);
    }
    let left = left - 1;
    Reading::More(InOp::Table { op, left })
}

/// Adds a byte to the bits of a float: it becomes the highest byte, and those before it move down by one. After all
/// bytes, the first is the lowest.
#[inline(always)]
pub fn push_32(bits: u32, byte: u8) -> u32
    ensures { result ≡ pushed_32 bits byte }
{
    bits / 0x100 + u32::from(byte) * 0x100_0000
}

/// Does the same as `push_32` for 64 bits.
#[inline(always)]
pub fn push_64(bits: u64, byte: u8) -> u64
    ensures { result ≡ pushed_64 bits byte }
{
    bits / 0x100 + u64::from(byte) * 0x100_0000_0000_0000
}

fn float_32(left: u8, bits: u32, byte: u8) -> Reading<InOp, Op>
    ensures { result ≡ float_32_step left bits byte }
{
    let bits = push_32(bits, byte);
    if left == 0 {
        Reading::Done(Op::Simple(Simple::F32Const(bits)))
    } else {
        let left = left - 1;
        Reading::More(InOp::Float32 { left, bits })
    }
}

fn float_64(left: u8, bits: u64, byte: u8) -> Reading<InOp, Op>
    ensures { result ≡ float_64_step left bits byte }
{
    let bits = push_64(bits, byte);
    if left == 0 {
        Reading::Done(Op::Simple(Simple::F64Const(bits)))
    } else {
        let left = left - 1;
        Reading::More(InOp::Float64 { left, bits })
    }
}

impl InOp {
    /// Takes one more byte of the op. Fails with `BadOpcode`, `Float`, `BadByte` or `BadNumber`.
    pub fn push(self, profile: Profile, byte: u8) -> Reading<InOp, Op>
        ensures { result ≡ op_push profile self byte }
    {
        match self {
            InOp::First => first(profile, byte),
            InOp::Code => code(profile, byte),
            InOp::Padding { number, left } => padding(profile, number, left, byte),
            InOp::BlockType(op) => block_type(profile, op, byte),
            InOp::Index { op, number } => index(op, number, byte),
            InOp::CallType(number) => call_type(number, byte),
            InOp::Table { op, left } => table(profile, op, left, byte),
            InOp::InitElement(number) => init_element(number, byte),
            InOp::InitSegment(number) => init_segment(number, byte),
            InOp::InitMemory(segment) => closing(Op::Simple(Simple::MemoryInit(segment)), byte),
            InOp::FirstZero => first_zero(byte),
            InOp::Memory(op) => closing(op.op(), byte),
            InOp::Const32(number) => const_32(number, byte),
            InOp::Const64(number) => const_64(number, byte),
            InOp::Float32 { left, bits } => float_32(left, bits, byte),
            InOp::Float64 { left, bits } => float_64(left, bits, byte),
            InOp::Align { op, number } => align(op, number, byte),
            InOp::Offset { op, align, number } => offset(op, align, number, byte),
        }
    }
}
