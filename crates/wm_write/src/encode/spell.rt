//! Encodes instructions (Core spec 5.4) and types (Core spec 5.3), with the shortest numbers.

ghost use Rattle.std.specs.Prelude.{◌≡◌, ◌++◌, ◌∷◌, [], length, ◌≤◌, ◌+◌, pos};
ghost use Rattle.wm_write.specs.Canon.{desc_bytes, global_type_bytes, limits_bytes, immediates};
ghost use Rattle.wm_write.specs.Canon.{start_bytes, op_bytes, u32_bytes};
ghost use Rattle.wm_machine.specs.Sections.{kind_byte};
ghost use Rattle.wm_syntax.specs.declared.instructions.Op.{Op};
ghost use Rattle.wm_syntax.specs.Encodings.{float_bytes};
ghost use Rattle.wm_syntax.specs.Leb128.{signed_bytes};
ghost use Rattle.wm_syntax.specs.Modules.{constant, index_of};
ghost use Rattle.wm_syntax.specs.Opcodes.{opcode};
ghost use Rattle.wm_syntax.specs.Types.{block_byte, type_byte};

use crate::batch::Batch;
use wm_syntax::chunk::Chunk;
use wm_syntax::instructions::opcodes::code;
use wm_syntax::instructions::{Numeric, Op, Simple};
use wm_syntax::modules::{ExportKind, ImportDesc, SegmentMode};
use wm_syntax::types::{Const, GlobalType, Limits, ValType};

/// Returns the byte of a value type. Core spec 5.3.1.
pub(crate) fn value_byte(ty: ValType) -> u8
    ensures { result ≡ type_byte ty }
{
    match ty {
        ValType::I32 => 0x7F,
        ValType::I64 => 0x7E,
        ValType::F32 => 0x7D,
        ValType::F64 => 0x7C,
    }
}

fn block_byte(ty: Option<ValType>) -> u8
    ensures { result ≡ block_byte ty }
{
    match ty {
        None => 0x40,
        Some(ty) => value_byte(ty),
    }
}

/// Returns a chunk of one byte.
pub(crate) fn one(byte: u8) -> Chunk
    ensures { result ≡ byte ∷ [] }
{
    let mut chunk = Chunk::new();
    chunk.push(byte);
    chunk
}

fn two(first: u8, second: u8) -> Chunk
    ensures { result ≡ first ∷ second ∷ [] }
{
    let mut chunk = one(first);
    chunk.push(second);
    chunk
}

/// Returns a number in the fewest bytes, at most five. Core spec 5.2.2.
pub(crate) fn number(value: u64) -> Chunk
    ensures { result ≡ u32_bytes value }
{
    let mut chunk = Chunk::new();
    chunk.push_unsigned(value, 5);
    chunk
}

fn with_number(byte: u8, value: u32) -> Chunk
    ensures value { result ≡ byte ∷ u32_bytes value }
    ensures short { length result ≤ 6 }
{
    let mut chunk = one(byte);
    chunk.push_unsigned(u64::from(value), 5);
    chunk
}

// Appends a number in the fewest bytes.
#[inline(always)]
fn push_number(batch: &mut Batch, value: u32)
    requires { length batch.old + 5 ≤ 64 }
    ensures text { batch.new ≡ batch.old ++ u32_bytes value }
    ensures short { length batch.new ≤ length batch.old + 5 }
{
    if value < 0x80 {
        batch.push_byte(value as u8);
    } else {
        push_long_number(batch, value);
    }
}

// The slow path of `push_number`, for any number.
#[inline(never)]
fn push_long_number(batch: &mut Batch, value: u32)
    requires { length batch.old + 5 ≤ 64 }
    ensures text { batch.new ≡ batch.old ++ u32_bytes value }
    ensures short { length batch.new ≤ length batch.old + 5 }
{
    batch.push(number(u64::from(value)).as_slice());
}

// Appends a signed number in the fewest bytes, at most `most`.
fn push_signed(batch: &mut Batch, value: i64, most: usize)
    requires most { most ≤ 10 }
    requires room { length batch.old + most ≤ 64 }
    ensures text { batch.new ≡ batch.old ++ signed_bytes most value }
    ensures short { length batch.new ≤ length batch.old + most }
{
    let mut chunk = Chunk::new();
    chunk.push_signed(value, most);
    batch.push(chunk.as_slice());
}

// Appends the bits of a float in `width` bytes, lowest byte first. Core spec 5.2.3.
fn push_float(batch: &mut Batch, bits: u64, width: usize)
    requires { length batch.old + width ≤ 64 }
    ensures text { batch.new ≡ batch.old ++ float_bytes width bits }
    ensures short { length batch.new ≤ length batch.old + width }
{
    let mut rest = bits;
    for _ in 0..width {
        batch.push_byte((rest % 0x100) as u8);
        rest /= 0x100;
    }
}

// Appends a byte and a number. A number of one byte takes a fast path.
#[inline(always)]
fn push_indexed(batch: &mut Batch, byte: u8, index: u32)
    requires { length batch.old + 11 ≤ 64 }
    ensures text { batch.new ≡ batch.old ++ byte ∷ u32_bytes index }
    ensures short { length batch.new ≤ length batch.old + 11 }
{
    if index < 0x80 {
        batch.push_two(byte, index as u8);
    } else {
        batch.push_byte(byte);
        push_long_number(batch, index);
    }
}

// Appends an `i32.const` that is not negative. A number of one byte takes a fast path.
#[inline(always)]
fn push_positive_const(batch: &mut Batch, value: u32)
    requires { length batch.old + 11 ≤ 64 }
    ensures text { batch.new ≡ batch.old ++ 0x41 ∷ signed_bytes 5 (pos value) }
    ensures short { length batch.new ≤ length batch.old + 11 }
{
    if value < 0x40 {
        batch.push_two(0x41, value as u8);
    } else {
        batch.push_byte(0x41);
        push_signed(batch, i64::from(value), 5);
    }
}

#[inline(always)]
fn push_i32_const(batch: &mut Batch, value: i32)
    requires { length batch.old + 11 ≤ 64 }
    ensures text { batch.new ≡ batch.old ++ 0x41 ∷ signed_bytes 5 value }
    ensures short { length batch.new ≤ length batch.old + 11 }
{
    if value >= 0 {
        push_positive_const(batch, value as u32);
    } else {
        batch.push_byte(0x41);
        push_signed(batch, i64::from(value), 5);
    }
}

// Appends the immediates of an instruction, which follow its code. They are at most ten bytes.
fn push_immediates(batch: &mut Batch, simple: Simple)
    requires { length batch.old + 10 ≤ 64 }
    ensures text { batch.new ≡ batch.old ++ immediates simple }
    ensures short { length batch.new ≤ length batch.old + 10 }
{
    match simple {
        Simple::Br(index)
        | Simple::BrIf(index)
        | Simple::Call(index)
        | Simple::LocalGet(index)
        | Simple::LocalSet(index)
        | Simple::LocalTee(index)
        | Simple::GlobalGet(index)
        | Simple::GlobalSet(index)
        | Simple::DataDrop(index)
        | Simple::ElemDrop(index) => push_number(batch, index),
        Simple::CallIndirect(index) | Simple::MemoryInit(index) | Simple::TableInit(index) => {
            push_number(batch, index);
            batch.push_byte(0x00);
        }
        Simple::MemorySize | Simple::MemoryGrow | Simple::MemoryFill => batch.push_byte(0x00),
        Simple::MemoryCopy | Simple::TableCopy => batch.push_two(0x00, 0x00),
        Simple::I32Const(value) => push_signed(batch, i64::from(value), 5),
        Simple::I64Const(value) => push_signed(batch, value, 10),
        Simple::F32Const(bits) => push_float(batch, u64::from(bits), 4),
        Simple::F64Const(bits) => push_float(batch, bits, 8),
        Simple::Load(_, at) | Simple::Store(_, at) => {
            push_number(batch, at.align);
            push_number(batch, at.offset);
        }
        _ => {}
    }
}

/// Returns the instruction of a constant expression. Core spec 3.3.7.
pub(crate) fn instruction_of(value: Const) -> Simple
    ensures { result ≡ constant value }
{
    match value {
        Const::I32(number) => Simple::I32Const(number),
        Const::I64(number) => Simple::I64Const(number),
        Const::F32(bits) => Simple::F32Const(bits),
        Const::F64(bits) => Simple::F64Const(bits),
        Const::Global(index) => Simple::GlobalGet(index),
    }
}

// Appends the first byte of a block and its result type. Core spec 5.3.2.
fn push_block(batch: &mut Batch, byte: u8, ty: Option<ValType>)
    requires { length batch.old + 2 ≤ 64 }
    ensures text { batch.new ≡ batch.old ++ byte ∷ block_byte ty ∷ [] }
    ensures short { length batch.new ≤ length batch.old + 2 }
{
    batch.push_byte(byte);
    batch.push_byte(block_byte(ty));
}

// The slow path of `push_simple`, for any instruction.
#[inline(never)]
fn push_rare(batch: &mut Batch, simple: Simple)
    requires { length batch.old + 11 ≤ 64 }
    ensures text { batch.new ≡ batch.old ++ op_bytes (Op.Simple simple) }
    ensures short { length batch.new ≤ length batch.old + 11 }
{
    let code = code(simple);
    if code < 0x100 {
        batch.push_byte(code as u8);
        push_immediates(batch, simple);
    } else {
        push_prefixed(batch, code, simple);
    }
}

// Appends an instruction behind the prefix FC, whose code this is: at most eight bytes.
fn push_prefixed(batch: &mut Batch, code: u16, simple: Simple)
    requires room { length batch.old + 11 ≤ 64 }
    requires prefixed { 0x100 ≤ code }
    requires value { code ≡ (opcode simple).0 }
    ensures text { batch.new ≡ batch.old ++ op_bytes (Op.Simple simple) }
    ensures short { length batch.new ≤ length batch.old + 11 }
{
    batch.push_two(0xFC, (code - 0x100) as u8);
    match simple {
        Simple::MemoryCopy | Simple::TableCopy => batch.push_two(0x00, 0x00),
        Simple::MemoryFill => batch.push_byte(0x00),
        Simple::MemoryInit(index) | Simple::TableInit(index) => {
            push_number(batch, index);
            batch.push_byte(0x00);
        }
        Simple::DataDrop(index) | Simple::ElemDrop(index) => push_number(batch, index),
        _ => {}
    }
}

// Appends an instruction. Common ones take fast paths.
#[inline(always)]
fn push_simple(batch: &mut Batch, simple: &Simple)
    requires { length batch.old + 11 ≤ 64 }
    ensures text { batch.new ≡ batch.old ++ op_bytes (Op.Simple simple.now) }
    ensures short { length batch.new ≤ length batch.old + 11 }
{
    match simple {
        Simple::Br(index) => push_indexed(batch, 0x0C, *index),
        Simple::BrIf(index) => push_indexed(batch, 0x0D, *index),
        Simple::Call(index) => push_indexed(batch, 0x10, *index),
        Simple::LocalGet(index) => push_indexed(batch, 0x20, *index),
        Simple::LocalSet(index) => push_indexed(batch, 0x21, *index),
        Simple::LocalTee(index) => push_indexed(batch, 0x22, *index),
        Simple::GlobalGet(index) => push_indexed(batch, 0x23, *index),
        Simple::GlobalSet(index) => push_indexed(batch, 0x24, *index),
        Simple::I32Const(value) => push_i32_const(batch, *value),
        Simple::Load(_, at) | Simple::Store(_, at) => {
            batch.push_byte(code(*simple) as u8);
            push_number(batch, at.align);
            push_number(batch, at.offset);
        }
        Simple::Numeric(Numeric::Saturate(_)) => push_rare(batch, *simple),
        Simple::Numeric(_) => batch.push_byte(code(*simple) as u8),
        _ => push_rare(batch, *simple),
    }
}

/// Appends an op, at most eleven bytes. Core spec 5.4. The op is borrowed, since a copy would go through memory. Most
/// ops are simple instructions.
#[inline(always)]
pub(crate) fn push_op(batch: &mut Batch, op: &Op)
    requires { length batch.old + 11 ≤ 64 }
    ensures text { batch.new ≡ batch.old ++ op_bytes op.now }
    ensures short { length batch.new ≤ length batch.old + 11 }
{
    match op {
        Op::Simple(simple) => push_simple(batch, simple),
        _ => push_any_op(batch, op),
    }
}

// The slow path of `push_op`, for any op.
#[inline(never)]
fn push_any_op(batch: &mut Batch, op: &Op)
    requires { length batch.old + 11 ≤ 64 }
    ensures text { batch.new ≡ batch.old ++ op_bytes op.now }
    ensures short { length batch.new ≤ length batch.old + 11 }
{
    match op {
        Op::Simple(simple) => push_rare(batch, *simple),
        Op::Block(ty) => push_block(batch, 0x02, *ty),
        Op::Loop(ty) => push_block(batch, 0x03, *ty),
        Op::If(ty) => push_block(batch, 0x04, *ty),
        Op::Else => batch.push_byte(0x05),
        Op::End => batch.push_byte(0x0B),
        Op::BrTable(count) => {
            batch.push_byte(0x0E);
            push_number(batch, *count);
        }
        Op::Label(label) => push_number(batch, *label),
    }
}

/// Appends limits, at most eleven bytes. Core spec 5.3.4.
pub(crate) fn push_limits(chunk: &mut Chunk, limits: Limits)
    requires { length chunk.old + 11 ≤ 16 }
    ensures { chunk.new ≡ chunk.old ++ limits_bytes limits }
{
    match limits.max {
        None => {
            chunk.push(0x00);
            chunk.push_unsigned(u64::from(limits.min), 5);
        }
        Some(max) => {
            chunk.push(0x01);
            chunk.push_unsigned(u64::from(limits.min), 5);
            chunk.push_unsigned(u64::from(max), 5);
        }
    }
}

/// Appends a global type. Core spec 5.3.7.
pub(crate) fn push_global_type(chunk: &mut Chunk, ty: GlobalType)
    requires { length chunk.old + 2 ≤ 16 }
    ensures { chunk.new ≡ chunk.old ++ global_type_bytes ty }
{
    chunk.push(value_byte(ty.ty));
    chunk.push(if ty.var { 0x01 } else { 0x00 });
}

/// Returns the bytes of an import descriptor. Core spec 5.5.5.
pub(crate) fn spell_desc(desc: ImportDesc) -> Chunk
    ensures { result ≡ desc_bytes desc }
{
    match desc {
        ImportDesc::Func(index) => with_number(0x00, index),
        ImportDesc::Table(limits) => {
            let mut chunk = two(0x01, 0x70);
            push_limits(&mut chunk, limits);
            chunk
        }
        ImportDesc::Memory(limits) => {
            let mut chunk = one(0x02);
            push_limits(&mut chunk, limits);
            chunk
        }
        ImportDesc::Global(ty) => {
            let mut chunk = one(0x03);
            push_global_type(&mut chunk, ty);
            chunk
        }
    }
}

fn kind_byte(kind: ExportKind) -> u8
    ensures { result ≡ kind_byte kind }
{
    match kind {
        ExportKind::Func => 0x00,
        ExportKind::Table => 0x01,
        ExportKind::Memory => 0x02,
        ExportKind::Global => 0x03,
    }
}

/// Returns the bytes of an export descriptor. Core spec 5.5.10.
pub(crate) fn spell_item(kind: ExportKind, index: u32) -> Chunk
    ensures { result ≡ kind_byte kind ∷ u32_bytes index }
{
    with_number(kind_byte(kind), index)
}

/// Returns the front of a segment, without flags or with them.
pub(crate) fn spell_start(flagged: bool, mode: SegmentMode) -> Chunk
    ensures { result ≡ start_bytes flagged (index_of mode) }
{
    match mode {
        SegmentMode::Passive => number(1),
        SegmentMode::Active { index, offset: _ } if !flagged || index == 0 => {
            number(u64::from(index))
        }
        SegmentMode::Active { index, offset: _ } => with_number(0x02, index),
    }
}

/// Returns the bytes of a run of locals of one type. Core spec 5.5.13.
pub(crate) fn spell_run(count: u32, ty: ValType) -> Chunk
    ensures { result ≡ u32_bytes count ++ type_byte ty ∷ [] }
{
    let mut chunk = Chunk::new();
    chunk.push_unsigned(u64::from(count), 5);
    chunk.push(value_byte(ty));
    chunk
}
