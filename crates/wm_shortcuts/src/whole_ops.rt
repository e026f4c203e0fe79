//! Fast path for the ops of a code entry that lie whole in a piece. Core spec 5.4.
//!
//! Rare ops, and bytes that the format refuses, take the slow path.

ghost use Rattle.std.specs.Prelude.{◌≡◌, ◌+◌, ◌<◌, ◌≤◌, ◌^◌, ℕ, IfSome, IsTrue, Some, length};
ghost use Rattle.std.specs.Prelude.{slice_index, slice_range};
ghost use Rattle.wm_syntax.specs.declared.profile.Profile.{Profile};
ghost use Rattle.wm_syntax.specs.Profiles.{has};
ghost use Rattle.wm_syntax.specs.exact.Reading.{fresh, unsigned_push};
ghost use Rattle.wm_machine.specs.declared.step.reading.Reading.TheVariants.{More};
ghost use Rattle.wm_machine.specs.declared.step.ops.InOp.TheVariants.{BlockType, Const32, Table};
ghost use Rattle.wm_machine.specs.declared.step.ops.TableOp.TheVariants.{Call};
ghost use Rattle.wm_machine.specs.declared.step.ops.InOp.TheVariants.{Const64, Memory};
ghost use Rattle.wm_machine.specs.exact.OpSteps.{call_op, fresh_index};
ghost use Rattle.wm_syntax.specs.exact.OpShapes.{index_op};
ghost use Rattle.wm_machine.specs.exact.ExpressionSteps.{after_op, at_next_op};
ghost use Rattle.wm_shortcuts.specs.exact.WholeOps.{GaveAs, HasNumeric, IsDrop, IsOp, LiesAt, OpFrom, OpUnder};
ghost use Rattle.wm_shortcuts.specs.exact.WholeOps.{RanTo, TookAs, WholeOp, class_at, class_row, first_read};

use crate::op_groups::{
    binary, comparison, conversion, float_binary, float_comparison, float_unary, narrow_load,
    narrow_store, saturation, sign_extension, unary,
};
use crate::whole_numbers::{Whole, s32_at, s64_at, u32_at};
use wm_machine::item::Item;
use wm_machine::sink::Sink;
use wm_machine::step::ops::{push_32, push_64};
use wm_syntax::instructions::FloatType::{F32, F64};
use wm_syntax::instructions::IntType::{I32, I64};
use wm_syntax::instructions::Numeric::{
    Binary, Compare, Convert, ExtendS, ExtendU, FloatUnary, SignExtend, Test, Unary, Wrap,
};
use wm_syntax::instructions::op_class::LoadOrStore::{Load, Store};
use wm_syntax::instructions::op_class::{
    BlockOp, Immediates, Indexed, LoadOrStore, MemoryOp, OpClass,
};
use wm_syntax::instructions::{LoadOp, MemArg, Numeric, Op, Saturation, Simple, StoreOp};
use wm_syntax::profile::{Feature, Profile};
use wm_syntax::types::ValType;
use wm_syntax::why::Why;

/// The start of an op: the profile, the bytes, its index in them, and the number of open blocks. The profile is
/// borrowed, since a copy would be loaded for each op.
#[derive(Clone, Copy)]
struct OpStart<'a> {
    profile: &'a Profile,
    bytes: &'a [u8],
    at: usize,
    depth: u32,
}

/// An op, the index after it, and how many blocks are open there.
#[derive(Clone, Copy)]
pub(crate) struct Read {
    pub(crate) op: Op,
    pub(crate) next: usize,
    pub(crate) depth: u32,
}

macro_rules! read {
    ($op:expr, $next:expr, $depth:expr) => {
        Some(Read {
            op: $op,
            next: $next,
            depth: $depth,
        })
    };
}

/// The result for one op.
#[derive(Clone, Copy)]
enum Took {
    /// The sink took it: the index of the next op, and how many blocks are open there.
    Next(usize, u32),
    /// The op takes the slow path.
    Left,
    /// The sink refused it: the reason, and the index after its last byte.
    Refused(Why, usize),
}

// Goes on after an op, or ends the loop over ops.
macro_rules! go_on {
    ($took:expr, $used:ident, $depth:ident) => {
        match $took {
            Took::Next(next, inside) => {
                $used = next;
                $depth = inside;
            }
            Took::Left => break,
            Took::Refused(why, next) => return refused(next, $depth, why),
        }
    };
}

/// The result for consecutive ops.
#[derive(Clone, Copy)]
pub(crate) struct Ran {
    /// The number of bytes of the ops that the sink took, and of the one that it refused.
    pub(crate) used: u32,
    /// How many blocks are open after the ops that the sink took.
    pub(crate) depth: u32,
    pub(crate) refused: Option<Why>,
}

// Readers of ops by their immediates: none, an index, a type, one number or two. A reader with a profile, mostly in an
// `OpStart`, reads ops of this profile (`OpUnder`, `OpFrom`); the others read ops of every profile (`WholeOp`).

#[inline(always)]
#[tactic(auto, using(crate::proofs::OpLists::under_alone))]
fn alone(here: OpStart<'_>, op: Op) -> Option<Read>
    requires within { here.at < length here.bytes.now }
    requires class { class_at here ≡ OpClass.Plain op }
    requires opens { after_op here.depth op ≡ at_next_op here.depth }
    ensures { IfSome result (OpFrom here.entry) }
{
    prove!(here.at < here.bytes.len());
    read!(op, here.at + 1, here.depth)
}

#[inline(always)]
fn end(here: OpStart<'_>) -> Option<Read>
    requires within { here.at < length here.bytes.now }
    requires class { class_at here ≡ OpClass.Plain Op.End }
    ensures { IfSome result (OpFrom here.entry) }
{
    prove!(here.at < here.bytes.len());
    if here.depth == 0 {
        return None;
    }
    read!(Op::End, here.at + 1, here.depth - 1)
}

#[inline(always)]
fn numeric(here: OpStart<'_>, op: Numeric) -> Option<Read>
    requires within { here.at < length here.bytes.now }
    requires class { class_at here ≡ OpClass.Plain (Op.Simple (Simple.Numeric op)) }
    ensures { IfSome result (OpFrom here.entry) }
{
    alone(here, Op::Simple(Simple::Numeric(op)))
}

#[inline(always)]
#[tactic(auto, using(crate::proofs::OpLists::whole_index))]
pub(crate) fn with_index(bytes: &[u8], at: usize, depth: u32, op: Indexed) -> Option<Read>
    requires within { at + 1 < length bytes.now }
    requires first { (p : Profile) → first_read p (slice_index bytes.now at) ≡ More (fresh_index op) }
    requires opens { (n : ℕ) → after_op depth (index_op op n) ≡ at_next_op depth }
    ensures { IfSome result (λ r. WholeOp bytes.now at r.next depth r.depth r.op) }
{
    let index = u32_at(bytes, at + 1)?;
    read!(op.op(index.value), index.next, depth)
}

// Reads a load or a store
#[inline(always)]
fn access(here: OpStart<'_>, op: LoadOrStore) -> Option<Read>
    requires within { here.at + 1 < length here.bytes.now }
    requires class { class_at here ≡ OpClass.With (Immediates.Access op) }
    ensures { IfSome result (OpFrom here.entry) }
{
    let align = u32_at(here.bytes, here.at + 1)?;
    if align.next >= here.bytes.len() {
        return None;
    }
    let offset = u32_at(here.bytes, align.next)?;
    let arg = MemArg {
        align: align.value,
        offset: offset.value,
    };
    read!(op.op(arg), offset.next, here.depth)
}

#[inline(always)]
#[tactic(auto, using(crate::proofs::OpLists::whole_const_32))]
pub(crate) fn const_32(bytes: &[u8], at: usize, depth: u32) -> Option<Read>
    requires within { at + 1 < length bytes.now }
    requires first { (p : Profile) → first_read p (slice_index bytes.now at) ≡ More (Const32 fresh) }
    ensures { IfSome result (λ r. WholeOp bytes.now at r.next depth r.depth r.op) }
{
    let number = s32_at(bytes, at + 1)?;
    read!(
        Op::Simple(Simple::I32Const(number.value)),
        number.next,
        depth
    )
}

#[inline(always)]
#[tactic(auto, using(crate::proofs::OpLists::whole_const_64))]
pub(crate) fn const_64(bytes: &[u8], at: usize, depth: u32) -> Option<Read>
    requires within { at + 1 < length bytes.now }
    requires first { (p : Profile) → first_read p (slice_index bytes.now at) ≡ More (Const64 fresh) }
    ensures { IfSome result (λ r. WholeOp bytes.now at r.next depth r.depth r.op) }
{
    let number = s64_at(bytes, at + 1)?;
    read!(
        Op::Simple(Simple::I64Const(number.value)),
        number.next,
        depth
    )
}

#[inline(always)]
#[tactic(auto, using(crate::proofs::OpLists::whole_block))]
fn with_type(bytes: &[u8], at: usize, depth: u32, op: BlockOp) -> Option<Read>
    requires within { at + 1 < length bytes.now }
    requires first { (p : Profile) → first_read p (slice_index bytes.now at) ≡ More (BlockType op) }
    ensures { IfSome result (λ r. WholeOp bytes.now at r.next depth r.depth r.op) }
{
    if depth == u32::MAX {
        return None;
    }
    let ty = match bytes[at + 1] {
        0x40 => None,
        0x7F => Some(ValType::I32),
        0x7E => Some(ValType::I64),
        _ => return None,
    };
    read!(op.op(ty), at + 2, depth + 1)
}

// Reads a `call_indirect`: a type index, and the table index 0
#[inline(always)]
fn call_indirect(here: OpStart<'_>) -> Option<Read>
    requires within { here.at + 1 < length here.bytes.now }
    requires class { class_at here ≡ OpClass.With Immediates.CallIndirect }
    ensures { IfSome result (OpFrom here.entry) }
{
    let ty = u32_at(here.bytes, here.at + 1)?;
    let next = table_end(*here.profile, here.bytes, ty.next)?;
    read!(Op::Simple(Simple::CallIndirect(ty.value)), next, here.depth)
}

// Returns the index after the table index of a `call_indirect`, which begins at the index `at`
#[inline(always)]
#[tactic(auto, using(crate::proofs::OpLists::table_of_one))]
fn table_end(profile: Profile, bytes: &[u8], at: usize) -> Option<usize>
    ensures within { IfSome result (λ next. (at < next) × (next ≤ length bytes.now)) }
    ensures table { IfSome result (λ next. (n : ℕ)
        → IsOp profile (Table (Call n) 4) (slice_range bytes.now at next) (call_op n)) }
{
    if at >= bytes.len() {
        return None;
    }
    if bytes[at] == 0x00 {
        return Some(at + 1);
    }
    long_table_end(profile, bytes, at)
}

// Does the same for a table index of five bytes, which compilers leave room for. All other encodings take the slow path
#[inline(never)]
#[tactic(auto, using(crate::proofs::OpLists::table_of_five))]
fn long_table_end(profile: Profile, bytes: &[u8], at: usize) -> Option<usize>
    requires { at < length bytes.now }
    ensures within { IfSome result (λ next. (at < next) × (next ≤ length bytes.now)) }
    ensures table { IfSome result (λ next. (n : ℕ)
        → IsOp profile (Table (Call n) 4) (slice_range bytes.now at next) (call_op n)) }
{
    if !profile.has(Feature::LongIndex) || bytes.len() - at < 5 {
        return None;
    }
    if bytes[at] != 0x80 || bytes[at + 1] != 0x80 || bytes[at + 2] != 0x80 {
        return None;
    }
    if bytes[at + 3] != 0x80 || bytes[at + 4] != 0x00 {
        return None;
    }
    Some(at + 5)
}

// Reads a memory instruction whose immediate is a byte 00
#[inline(always)]
fn memory(bytes: &[u8], at: usize, depth: u32, op: MemoryOp) -> Option<Read>
    requires within { at + 1 < length bytes.now }
    requires first { (p : Profile) → first_read p (slice_index bytes.now at) ≡ More (Memory op) }
    ensures { IfSome result (λ r. WholeOp bytes.now at r.next depth r.depth r.op) }
{
    if bytes[at + 1] != 0x00 {
        return None;
    }
    read!(op.op(), at + 2, depth)
}

// Readers of ops behind the byte FC whose number is one byte. Each asks whether the profile has the op

#[inline(always)]
fn saturating(here: OpStart<'_>, op: Saturation) -> Option<Read>
    requires within { here.at + 1 < length here.bytes.now }
    requires first { slice_index here.bytes.now here.at ≡ 0xFC }
    requires small { slice_index here.bytes.now (here.at + 1) < 0x80 }
    requires code { HasNumeric (0x100 + slice_index here.bytes.now (here.at + 1)) (Numeric.Saturate op) }
    ensures { IfSome result (OpFrom here.entry) }
{
    if !here.profile.has(Feature::Saturation) {
        return None;
    }
    let op = Numeric::Saturate(op);
    read!(Op::Simple(Simple::Numeric(op)), here.at + 2, here.depth)
}

#[inline(always)]
fn memory_fill(here: OpStart<'_>) -> Option<Read>
    requires within { here.at + 1 < length here.bytes.now }
    requires first { slice_index here.bytes.now here.at ≡ 0xFC }
    requires code { slice_index here.bytes.now (here.at + 1) ≡ 0x0B }
    ensures { IfSome result (OpFrom here.entry) }
{
    if !here.profile.has(Feature::Copies) || !has_zero(here.bytes, here.at + 2) {
        return None;
    }
    read!(Op::Simple(Simple::MemoryFill), here.at + 3, here.depth)
}

#[inline(always)]
fn memory_copy(here: OpStart<'_>) -> Option<Read>
    requires within { here.at + 1 < length here.bytes.now }
    requires first { slice_index here.bytes.now here.at ≡ 0xFC }
    requires code { slice_index here.bytes.now (here.at + 1) ≡ 0x0A }
    ensures { IfSome result (OpFrom here.entry) }
{
    if !here.profile.has(Feature::Copies) || !has_zeros(here.bytes, here.at + 2) {
        return None;
    }
    read!(Op::Simple(Simple::MemoryCopy), here.at + 4, here.depth)
}

#[inline(always)]
fn table_copy(here: OpStart<'_>) -> Option<Read>
    requires within { here.at + 1 < length here.bytes.now }
    requires first { slice_index here.bytes.now here.at ≡ 0xFC }
    requires code { slice_index here.bytes.now (here.at + 1) ≡ 0x0E }
    ensures { IfSome result (OpFrom here.entry) }
{
    if !here.profile.has(Feature::BulkMemory) || !has_zeros(here.bytes, here.at + 2) {
        return None;
    }
    read!(Op::Simple(Simple::TableCopy), here.at + 4, here.depth)
}

#[inline(always)]
fn segment_drop(here: OpStart<'_>, op: Indexed) -> Option<Read>
    requires within { here.at + 1 < length here.bytes.now }
    requires first { slice_index here.bytes.now here.at ≡ 0xFC }
    requires code { IsDrop (slice_index here.bytes.now (here.at + 1)) op }
    ensures { IfSome result (OpFrom here.entry) }
{
    let segment = segment_index(here)?;
    read!(op.op(segment.value), segment.next, here.depth)
}

#[inline(always)]
fn memory_init(here: OpStart<'_>) -> Option<Read>
    requires within { here.at + 1 < length here.bytes.now }
    requires first { slice_index here.bytes.now here.at ≡ 0xFC }
    requires code { slice_index here.bytes.now (here.at + 1) ≡ 0x08 }
    ensures { IfSome result (OpFrom here.entry) }
{
    let segment = segment_index(here)?;
    if !has_zero(here.bytes, segment.next) {
        return None;
    }
    let op = Simple::MemoryInit(segment.value);
    read!(Op::Simple(op), segment.next + 1, here.depth)
}

#[inline(always)]
fn table_init(here: OpStart<'_>) -> Option<Read>
    requires within { here.at + 1 < length here.bytes.now }
    requires first { slice_index here.bytes.now here.at ≡ 0xFC }
    requires code { slice_index here.bytes.now (here.at + 1) ≡ 0x0C }
    ensures { IfSome result (OpFrom here.entry) }
{
    let segment = segment_index(here)?;
    if !has_zero(here.bytes, segment.next) {
        return None;
    }
    let op = Simple::TableInit(segment.value);
    read!(Op::Simple(op), segment.next + 1, here.depth)
}

// Reads the index of a segment behind the two bytes of an op of bulk memory
#[inline(always)]
fn segment_index(here: OpStart<'_>) -> Option<Whole<u32>>
    requires { here.at + 1 < length here.bytes.now }
    ensures feature { IfSome result (λ w. IsTrue (has here.entry.profile.now Feature.BulkMemory)) }
    ensures index { IfSome result (λ w.
        LiesAt (unsigned_push 32) here.entry.bytes.now (here.entry.at + 2) w.next w.value) }
{
    let at = here.at + 2;
    if !here.profile.has(Feature::BulkMemory) || at >= here.bytes.len() {
        return None;
    }
    u32_at(here.bytes, at)
}

// Whether a byte 00 stands at the index `at`
#[inline(always)]
fn has_zero(bytes: &[u8], at: usize) -> bool
    ensures { IsTrue result → (at < length bytes.now) × (slice_index bytes.now at ≡ 0x00) }
{
    at < bytes.len() && bytes[at] == 0x00
}

// Whether two bytes 00 stand from the index `at` on
#[inline(always)]
fn has_zeros(bytes: &[u8], at: usize) -> bool
    ensures { IsTrue result → (at + 1 < length bytes.now) × (slice_index bytes.now at ≡ 0x00)
        × (slice_index bytes.now (at + 1) ≡ 0x00) }
{
    at < bytes.len() && bytes.len() - at > 1 && bytes[at] == 0x00 && bytes[at + 1] == 0x00
}

// Readers of float constants. The profile has them

fn float_32(profile: Profile, bytes: &[u8], at: usize, depth: u32) -> Option<Read>
    requires within { at < length bytes.now }
    requires class { class_row profile (slice_index bytes.now at) ≡ OpClass.With Immediates.F32Const }
    ensures { IfSome result (λ r. OpUnder profile bytes.now at r.next depth r.depth r.op) }
{
    if bytes.len() - at < 5 {
        return None;
    }
    let one = push_32(0, bytes[at + 1]);
    let two = push_32(one, bytes[at + 2]);
    let three = push_32(two, bytes[at + 3]);
    let bits = push_32(three, bytes[at + 4]);
    read!(Op::Simple(Simple::F32Const(bits)), at + 5, depth)
}

fn float_64(profile: Profile, bytes: &[u8], at: usize, depth: u32) -> Option<Read>
    requires within { at < length bytes.now }
    requires class { class_row profile (slice_index bytes.now at) ≡ OpClass.With Immediates.F64Const }
    ensures { IfSome result (λ r. OpUnder profile bytes.now at r.next depth r.depth r.op) }
{
    if bytes.len() - at < 9 {
        return None;
    }
    let one = push_64(0, bytes[at + 1]);
    let two = push_64(one, bytes[at + 2]);
    let three = push_64(two, bytes[at + 3]);
    let four = push_64(three, bytes[at + 4]);
    let five = push_64(four, bytes[at + 5]);
    let six = push_64(five, bytes[at + 6]);
    let seven = push_64(six, bytes[at + 7]);
    let bits = push_64(seven, bytes[at + 8]);
    read!(Op::Simple(Simple::F64Const(bits)), at + 9, depth)
}

// Passes an op that ends within the next `room` bytes of the entry
#[inline(always)]
fn give<S: Sink>(sink: &mut S, room: usize, read: Option<Read>) -> Took
    ensures { GaveAs S.after (S.held sink.old) room read result (S.held sink.new) }
{
    let Some(read) = read else {
        return Took::Left;
    };
    if read.next > room {
        return Took::Left;
    }
    match sink.take(Item::Op(read.op)) {
        Ok(()) => Took::Next(read.next, read.depth),
        Err(why) => Took::Refused(why, read.next),
    }
}

// Takes the op behind the byte FC at the index `at`. Out of line, since it is rare
#[inline(never)]
#[tactic(auto, using(crate::proofs::OpLists::gave_took, crate::proofs::OpLists::drops_data, crate::proofs::OpLists::drops_element))]
fn take_prefixed<S: Sink>(
    sink: &mut S,
    profile: &Profile,
    bytes: &[u8],
    at: usize,
    depth: u32,
    room: usize,
) -> Took
    requires within { at + 1 < length bytes.now }
    requires first { slice_index bytes.now at ≡ 0xFC }
    ensures { TookAs S.after profile.now (S.held sink.old) bytes.now at depth room result (S.held sink.new) }
{
    let here = OpStart {
        profile,
        bytes,
        at,
        depth,
    };
    let number = bytes[at + 1];
    match number {
        0x00..=0x07 => {
            let op = saturation(0x100 + u16::from(number));
            give(sink, room, saturating(here, op))
        }
        0x08 => give(sink, room, memory_init(here)),
        0x09 => give(sink, room, segment_drop(here, Indexed::DataDrop)),
        0x0A => give(sink, room, memory_copy(here)),
        0x0B => give(sink, room, memory_fill(here)),
        0x0C => give(sink, room, table_init(here)),
        0x0D => give(sink, room, segment_drop(here, Indexed::ElemDrop)),
        0x0E => give(sink, room, table_copy(here)),
        _ => Took::Left,
    }
}

// Takes the op at the index `at` if it is on floats. `take_uncommon` calls this alone: of two functions, the results
// would pass through its memory
#[inline(never)]
#[tactic(auto, using(crate::proofs::OpLists::gave_took))]
fn take_float<S: Sink>(
    sink: &mut S,
    profile: &Profile,
    bytes: &[u8],
    at: usize,
    depth: u32,
    room: usize,
) -> Took
    requires { at + 1 < length bytes.now }
    ensures { TookAs S.after profile.now (S.held sink.old) bytes.now at depth room result (S.held sink.new) }
{
    if !profile.has(Feature::Floats) {
        return Took::Left;
    }
    let here = OpStart {
        profile,
        bytes,
        at,
        depth,
    };
    let byte = bytes[at];
    match byte {
        0x2A => give(sink, room, access(here, Load(LoadOp::F32Load))),
        0x2B => give(sink, room, access(here, Load(LoadOp::F64Load))),
        0x38 => give(sink, room, access(here, Store(StoreOp::F32Store))),
        0x39 => give(sink, room, access(here, Store(StoreOp::F64Store))),
        0x43 => give(sink, room, float_32(*profile, bytes, at, depth)),
        0x44 => give(sink, room, float_64(*profile, bytes, at, depth)),
        0x5B..=0x60 => {
            let op = Numeric::FloatCompare(F32, float_comparison(byte));
            give(sink, room, numeric(here, op))
        }
        0x61..=0x66 => {
            let op = Numeric::FloatCompare(F64, float_comparison(byte));
            give(sink, room, numeric(here, op))
        }
        0x8B..=0x91 => {
            let op = Numeric::FloatUnary(F32, float_unary(byte));
            give(sink, room, numeric(here, op))
        }
        0x92..=0x98 => {
            let op = Numeric::FloatBinary(F32, float_binary(byte));
            give(sink, room, numeric(here, op))
        }
        0x99..=0x9F => {
            let op = Numeric::FloatUnary(F64, float_unary(byte));
            give(sink, room, numeric(here, op))
        }
        0xA0..=0xA6 => {
            let op = Numeric::FloatBinary(F64, float_binary(byte));
            give(sink, room, numeric(here, op))
        }
        0xA8..=0xAB => give(sink, room, numeric(here, Convert(conversion(byte)))),
        0xAE..=0xBF => give(sink, room, numeric(here, Convert(conversion(byte)))),
        _ => Took::Left,
    }
}

// Takes the op at the index `at`, if it is one of the most common. Each has its own code
#[inline(always)]
#[tactic(auto, using(crate::proofs::OpLists::gave_took, crate::proofs::OpLists::gave_whole))]
fn take_common<S: Sink>(
    sink: &mut S,
    profile: Profile,
    bytes: &[u8],
    at: usize,
    depth: u32,
    room: usize,
) -> Took
    requires { at + 1 < length bytes.now }
    ensures { TookAs S.after profile (S.held sink.old) bytes.now at depth room result (S.held sink.new) }
{
    let here = OpStart {
        profile: &profile,
        bytes,
        at,
        depth,
    };
    let byte = bytes[at];
    match byte {
        0x01 => give(sink, room, alone(here, Op::Simple(Simple::Nop))),
        0x02 => give(sink, room, with_type(bytes, at, depth, BlockOp::Block)),
        0x03 => give(sink, room, with_type(bytes, at, depth, BlockOp::Loop)),
        0x04 => give(sink, room, with_type(bytes, at, depth, BlockOp::If)),
        0x05 => give(sink, room, alone(here, Op::Else)),
        0x0B => give(sink, room, end(here)),
        0x0C => give(sink, room, with_index(bytes, at, depth, Indexed::Br)),
        0x0D => give(sink, room, with_index(bytes, at, depth, Indexed::BrIf)),
        0x0F => give(sink, room, alone(here, Op::Simple(Simple::Return))),
        0x10 => give(sink, room, with_index(bytes, at, depth, Indexed::Call)),
        0x1A => give(sink, room, alone(here, Op::Simple(Simple::Drop))),
        0x20 => give(sink, room, with_index(bytes, at, depth, Indexed::LocalGet)),
        0x21 => give(sink, room, with_index(bytes, at, depth, Indexed::LocalSet)),
        0x22 => give(sink, room, with_index(bytes, at, depth, Indexed::LocalTee)),
        0x23 => give(sink, room, with_index(bytes, at, depth, Indexed::GlobalGet)),
        0x24 => give(sink, room, with_index(bytes, at, depth, Indexed::GlobalSet)),
        0x28 => give(sink, room, access(here, Load(LoadOp::I32Load))),
        0x36 => give(sink, room, access(here, Store(StoreOp::I32Store))),
        0x41 => give(sink, room, const_32(bytes, at, depth)),
        0x42 => give(sink, room, const_64(bytes, at, depth)),
        0x45 => give(sink, room, numeric(here, Test(I32))),
        0x46..=0x4F => give(sink, room, numeric(here, Compare(I32, comparison(byte)))),
        0x6A..=0x78 => give(sink, room, numeric(here, Binary(I32, binary(byte)))),
        0x7C..=0x8A => give(sink, room, numeric(here, Binary(I64, binary(byte)))),
        _ => Took::Left,
    }
}

// Takes a less common op. Each has its own code too, but out of line: this keeps the loop over ops small enough for the
// most common ones to be inlined there
#[inline(never)]
#[tactic(auto, using(crate::proofs::OpLists::gave_took, crate::proofs::OpLists::gave_whole))]
fn take_uncommon<S: Sink>(
    sink: &mut S,
    profile: &Profile,
    bytes: &[u8],
    at: usize,
    depth: u32,
    room: usize,
) -> Took
    requires { at + 1 < length bytes.now }
    ensures { TookAs S.after profile.now (S.held sink.old) bytes.now at depth room result (S.held sink.new) }
{
    let here = OpStart {
        profile,
        bytes,
        at,
        depth,
    };
    let byte = bytes[at];
    match byte {
        0x00 => give(sink, room, alone(here, Op::Simple(Simple::Unreachable))),
        0x11 => give(sink, room, call_indirect(here)),
        0x1B => give(sink, room, alone(here, Op::Simple(Simple::Select))),
        0x29 => give(sink, room, access(here, Load(LoadOp::I64Load))),
        0x2C..=0x2F => give(sink, room, access(here, Load(narrow_load(byte)))),
        0x30..=0x35 => give(sink, room, access(here, Load(narrow_load(byte)))),
        0x37 => give(sink, room, access(here, Store(StoreOp::I64Store))),
        0x3A..=0x3E => give(sink, room, access(here, Store(narrow_store(byte)))),
        0x3F => give(sink, room, memory(bytes, at, depth, MemoryOp::MemorySize)),
        0x40 => give(sink, room, memory(bytes, at, depth, MemoryOp::MemoryGrow)),
        0x50 => give(sink, room, numeric(here, Test(I64))),
        0x51..=0x5A => give(sink, room, numeric(here, Compare(I64, comparison(byte)))),
        0x67..=0x69 => give(sink, room, numeric(here, Unary(I32, unary(byte)))),
        0x79..=0x7B => give(sink, room, numeric(here, Unary(I64, unary(byte)))),
        0xA7 => give(sink, room, numeric(here, Wrap)),
        0xAC => give(sink, room, numeric(here, ExtendS)),
        0xAD => give(sink, room, numeric(here, ExtendU)),
        0xC0..=0xC4 => {
            if !profile.has(Feature::SignExtension) {
                return Took::Left;
            }
            give(sink, room, numeric(here, SignExtend(sign_extension(byte))))
        }
        _ => take_float(sink, profile, bytes, at, depth, room),
    }
}

// The result after an op that the sink refused
#[inline(always)]
fn refused(used: usize, depth: u32, why: Why) -> Ran
    requires { used < 2 ^ 32 }
    ensures { result ≡ record { used = used; depth = depth; refused = Some why } }
{
    Ran {
        used: used as u32,
        depth,
        refused: Some(why),
    }
}

/// Takes ops as long as they lie whole in these bytes and in the next `room` bytes of the entry.
#[inline(never)]
pub(crate) fn take_ops<S: Sink>(
    sink: &mut S,
    profile: Profile,
    bytes: &[u8],
    start: u32,
    room: usize,
) -> Ran
    requires { room < 2 ^ 32 }
    ensures within { result.used ≤ room }
    ensures inside { result.used ≤ length bytes.now }
    ensures one { length bytes.now ≤ 1 → result.used ≡ 0 }
    ensures ran { RanTo S.after profile (S.held sink.old) bytes.now room start result.used result.depth
        result.refused (S.held sink.new) }
{
    let mut used = 0;
    let mut depth = start;
    let end = room.min(bytes.len().saturating_sub(1));
    while used < end {
        match take_common(sink, profile, bytes, used, depth, room) {
            Took::Next(next, inside) => {
                used = next;
                depth = inside;
                continue;
            }
            Took::Left => {}
            Took::Refused(why, next) => return refused(next, depth, why),
        }
        // called here, one by one, so that no result is copied
        if bytes[used] == 0xFC {
            go_on!(
                take_prefixed(sink, &profile, bytes, used, depth, room),
                used,
                depth
            );
            continue;
        }
        go_on!(
            take_uncommon(sink, &profile, bytes, used, depth, room),
            used,
            depth
        );
    }
    Ran {
        used: used as u32,
        depth,
        refused: None,
    }
}
