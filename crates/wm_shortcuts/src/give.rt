//! Passing items to the sink: names, data bytes and items without bytes.

ghost use Rattle.std.specs.Prelude.{◌≡◌, ◌≢◌, ◌⊎◌, ◌++◌, IfErr, MatchResult, Ok, OnOk, [], length, map};
ghost use Rattle.std.specs.Prelude.{slice_index};
ghost use Rattle.std.specs.Str.{is_utf8};
ghost use Rattle.wm_machine.specs.Sinks.{Taken, all_taken};
ghost use Rattle.wm_machine.specs.exact.Runs.{name_item, plain_item};
ghost use Rattle.wm_machine.specs.exact.Live.{MayRunOutAt, name_taken, effect_of_maybe};
ghost use Rattle.wm_syntax.specs.declared.why.Why.TheVariants.{Memory};
ghost use Rattle.wm_machine.specs.Items.{body, body_op, const_op, data_byte, export, global, import_desc, locals};
ghost use Rattle.wm_machine.specs.Items.{new_type};
ghost use Rattle.wm_machine.specs.Items.{one_result, param, result_count};
ghost use Rattle.wm_syntax.specs.declared.modules.ImportDesc.TheVariants as ImportDesc;
ghost use Rattle.wm_shortcuts.specs.exact.Indices.{index_item_in};
ghost use Rattle.wm_shortcuts.specs.exact.Completed.{LastMayRunOut, completed_part, last_taken};

use crate::indices::IndexList;
use wm_machine::item::Item;
use wm_machine::machine::{NameKind, Plain};
use wm_machine::sink::Sink;
use wm_syntax::instructions::Op;
use wm_syntax::modules::ExportKind;
use wm_syntax::names::is_name;
use wm_syntax::types::{GlobalType, ValType};
use wm_syntax::why::Why;

// Whether the bytes are UTF-8; the contract names `is_utf8`, as the exact answers do
fn is_text(bytes: &[u8]) -> bool
    ensures { result ≡ is_utf8 bytes.now }
{
    is_name(bytes)
}

// Passes a name to the sink, or fails with `BadUtf8`
pub(crate) fn give_name<S: Sink>(sink: &mut S, kind: NameKind, name: &[u8]) -> Result<(), Why>
    ensures given { Taken (name_taken S.after kind name.now (S.held sink.old)) result (S.held sink.new) }
    ensures room { IfErr result (λ w. w ≡ Memory
        → MayRunOutAt S.may_run_out (name_item kind name.now) (S.held sink.old)) }
{
    if !is_text(name) {
        return Err(Why::BadUtf8);
    }
    match kind {
        NameKind::Custom => Ok(()),
        NameKind::ImportModule => sink.take(Item::ImportModule(name)),
        NameKind::ImportName => sink.take(Item::ImportName(name)),
        NameKind::Export => sink.take(Item::ExportName(name)),
    }
}

/// Passes the name that begins in the buffer and ends with this part of the piece, then clears the buffer. Fails with
/// `BadUtf8`, with `Memory` if the buffer cannot grow, or as the sink does.
pub fn end_name<S: Sink>(
    sink: &mut S,
    buffer: &mut Vec<u8>,
    kind: NameKind,
    part: &[u8],
) -> Result<(), Why>
    ensures given { Taken (name_taken S.after kind (buffer.old.items ++ part.now) (S.held sink.old)) result
        (S.held sink.new) }
    ensures empty { OnOk result (buffer.new.items ≡ []) }
    ensures room { IfErr result (λ w. w ≡ Memory → (buffer.old.items ≢ [])
        ⊎ MayRunOutAt S.may_run_out (name_item kind (buffer.old.items ++ part.now)) (S.held sink.old)) }
{
    if buffer.is_empty() {
        give_name(sink, kind, part)
    } else {
        buffer.extend_from_slice(part)?;
        give_name(sink, kind, buffer)?;
        buffer.clear();
        Ok(())
    }
}

/// Passes an empty name.
pub fn give_empty<S: Sink>(sink: &mut S, kind: NameKind) -> Result<(), Why>
    ensures given { Taken (effect_of_maybe S.after (name_item kind []) (S.held sink.old)) result
        (S.held sink.new) }
    ensures room { IfErr result (λ w. w ≡ Memory
        → MayRunOutAt S.may_run_out (name_item kind []) (S.held sink.old)) }
{
    match kind {
        NameKind::Custom => Ok(()),
        NameKind::ImportModule => sink.take(Item::ImportModule(&[])),
        NameKind::ImportName => sink.take(Item::ImportName(&[])),
        NameKind::Export => sink.take(Item::ExportName(&[])),
    }
}

/// Passes an item without bytes.
pub fn give_plain<S: Sink>(sink: &mut S, part: Plain) -> Result<(), Why>
    ensures given { Taken (S.after (S.held sink.old) (plain_item part)) result (S.held sink.new) }
    ensures room { IfErr result (λ w. w ≡ Memory → S.may_run_out (S.held sink.old) (plain_item part)) }
{
    sink.take(part.item())
}

// Does the same inlined, for constant variants
#[inline(always)]
pub(crate) fn give<S: Sink>(sink: &mut S, part: Plain) -> Result<(), Why>
    ensures given { Taken (S.after (S.held sink.old) (plain_item part)) result (S.held sink.new) }
    ensures room { IfErr result (λ w. w ≡ Memory → S.may_run_out (S.held sink.old) (plain_item part)) }
{
    sink.take(part.item())
}

// Each item that comes in bulk has its own function. In `give` the variant is known only after inlining: for a sink
// with much code the call stays out of line, and the item is passed in memory.

#[inline(always)]
pub(crate) fn give_new_type<S: Sink>(sink: &mut S) -> Result<(), Why>
    ensures given { Taken (S.after (S.held sink.old) new_type) result (S.held sink.new) }
    ensures room { IfErr result (λ w. w ≡ Memory → S.may_run_out (S.held sink.old) new_type) }
{
    sink.take(Item::NewType)
}

#[inline(always)]
pub(crate) fn give_param<S: Sink>(sink: &mut S, ty: ValType) -> Result<(), Why>
    ensures given { Taken (S.after (S.held sink.old) (param ty)) result (S.held sink.new) }
    ensures room { IfErr result (λ w. w ≡ Memory → S.may_run_out (S.held sink.old) (param ty)) }
{
    sink.take(Item::Param(ty))
}

// Out of line: it has several callers, and each would get a copy
#[inline(never)]
pub(crate) fn give_result_count<S: Sink>(sink: &mut S, count: u32) -> Result<(), Why>
    ensures given { Taken (S.after (S.held sink.old) (result_count count)) result (S.held sink.new) }
    ensures room { IfErr result (λ w. w ≡ Memory → S.may_run_out (S.held sink.old) (result_count count)) }
{
    sink.take(Item::Results(count))
}

#[inline(never)]
pub(crate) fn give_result<S: Sink>(sink: &mut S, ty: ValType) -> Result<(), Why>
    ensures given { Taken (S.after (S.held sink.old) (one_result ty)) result (S.held sink.new) }
    ensures room { IfErr result (λ w. w ≡ Memory → S.may_run_out (S.held sink.old) (one_result ty)) }
{
    sink.take(Item::Result(ty))
}

#[inline(always)]
pub(crate) fn give_import<S: Sink>(sink: &mut S, function: u32) -> Result<(), Why>
    ensures given { Taken (S.after (S.held sink.old) (import_desc (ImportDesc.Func function))) result
        (S.held sink.new) }
    ensures room { IfErr result (λ w. w ≡ Memory
        → S.may_run_out (S.held sink.old) (import_desc (ImportDesc.Func function))) }
{
    sink.take(Item::ImportFunc(function))
}

#[inline(always)]
pub(crate) fn give_global<S: Sink>(sink: &mut S, ty: GlobalType) -> Result<(), Why>
    ensures given { Taken (S.after (S.held sink.old) (global ty)) result (S.held sink.new) }
    ensures room { IfErr result (λ w. w ≡ Memory → S.may_run_out (S.held sink.old) (global ty)) }
{
    sink.take(Item::Global(ty))
}

#[inline(always)]
pub(crate) fn give_constant<S: Sink>(sink: &mut S, op: Op) -> Result<(), Why>
    ensures given { Taken (S.after (S.held sink.old) (const_op op)) result (S.held sink.new) }
    ensures room { IfErr result (λ w. w ≡ Memory → S.may_run_out (S.held sink.old) (const_op op)) }
{
    sink.take(Item::ConstOp(op))
}

// Out of line: it has two callers, and each would get a copy
#[inline(never)]
pub(crate) fn give_export<S: Sink>(sink: &mut S, kind: ExportKind, index: u32) -> Result<(), Why>
    ensures given { Taken (S.after (S.held sink.old) (export kind index)) result (S.held sink.new) }
    ensures room { IfErr result (λ w. w ≡ Memory → S.may_run_out (S.held sink.old) (export kind index)) }
{
    sink.take(Item::Export(kind, index))
}

// Passes an item without bytes, if there is one
#[inline(always)]
pub(crate) fn give_part<S: Sink>(sink: &mut S, part: Option<Plain>) -> Result<(), Why>
    ensures given { Taken (last_taken S.after (completed_part part) (S.held sink.old)) result
        (S.held sink.new) }
    ensures room { IfErr result (λ w. w ≡ Memory
        → LastMayRunOut S.may_run_out (completed_part part) (S.held sink.old)) }
{
    let Some(part) = part else {
        return Ok(());
    };
    match part {
        Plain::Body => give_body(sink),
        Plain::Locals(count, ty) => give_locals(sink, count, ty),
        _ => give_plain(sink, part),
    }
}

// Each item of an entry's head, and its last `end`, has its own function. One for all would get the item in memory.

#[inline(never)]
pub(crate) fn give_body<S: Sink>(sink: &mut S) -> Result<(), Why>
    ensures given { Taken (S.after (S.held sink.old) body) result (S.held sink.new) }
    ensures room { IfErr result (λ w. w ≡ Memory → S.may_run_out (S.held sink.old) body) }
{
    sink.take(Item::Body)
}

#[inline(never)]
pub(crate) fn give_locals<S: Sink>(sink: &mut S, count: u32, ty: ValType) -> Result<(), Why>
    ensures given { Taken (S.after (S.held sink.old) (locals count ty)) result (S.held sink.new) }
    ensures room { IfErr result (λ w. w ≡ Memory → S.may_run_out (S.held sink.old) (locals count ty)) }
{
    sink.take(Item::Locals(count, ty))
}

#[inline(never)]
pub(crate) fn give_end<S: Sink>(sink: &mut S) -> Result<(), Why>
    ensures given { Taken (S.after (S.held sink.old) (body_op Op.End)) result (S.held sink.new) }
    ensures room { IfErr result (λ w. w ≡ Memory → S.may_run_out (S.held sink.old) (body_op Op.End)) }
{
    sink.take(Item::Op(Op::End))
}

// Passes an index of a list. Out of line: it has several callers
#[inline(never)]
pub(crate) fn give_index<S: Sink>(sink: &mut S, list: IndexList, index: u32) -> Result<(), Why>
    ensures given { Taken (S.after (S.held sink.old) (index_item_in list index)) result (S.held sink.new) }
    ensures room { IfErr result (λ w. w ≡ Memory
        → S.may_run_out (S.held sink.old) (index_item_in list index)) }
{
    match list {
        IndexList::Types => sink.take(Item::Func(index)),
        IndexList::Functions { .. } => sink.take(Item::ElemFunc(index)),
        IndexList::Labels { .. } => sink.take(Item::Op(Op::Label(index))),
    }
}

// Does the same for an index of one byte, inlined. `give_index` has further callers, so it would not be inlined in the
// loop over such indices
#[inline(always)]
pub(crate) fn give_short_index<S: Sink>(
    sink: &mut S,
    list: IndexList,
    short: u32,
) -> Result<(), Why>
    ensures given { Taken (S.after (S.held sink.old) (index_item_in list short)) result (S.held sink.new) }
    ensures room { IfErr result (λ w. w ≡ Memory
        → S.may_run_out (S.held sink.old) (index_item_in list short)) }
{
    match list {
        IndexList::Types => sink.take(Item::Func(short)),
        IndexList::Functions { .. } => sink.take(Item::ElemFunc(short)),
        IndexList::Labels { .. } => sink.take(Item::Op(Op::Label(short))),
    }
}

/// Passes one byte of a data segment.
#[inline(always)]
pub fn give_data<S: Sink>(sink: &mut S, byte: &[u8]) -> Result<(), Why>
    requires { length byte.now ≡ 1 }
    ensures given { Taken (S.after (S.held sink.old) (data_byte (slice_index byte.now 0))) result
        (S.held sink.new) }
    ensures room { IfErr result (λ w. w ≡ Memory
        → S.may_run_out (S.held sink.old) (data_byte (slice_index byte.now 0))) }
{
    sink.take(Item::DataBytes(byte))
}

// Passes bytes of a data segment in bulk; the sink refuses none, unless memory runs out
#[tactic(auto, using(wm_machine::proofs::TakenItems::slice_room))]
pub(crate) fn give_bytes<S: Sink>(sink: &mut S, bytes: &[u8]) -> Result<(), Why>
    ensures given { MatchResult result
        (λ u. all_taken S.after (S.held sink.old) (map data_byte bytes.now) ≡ Ok (S.held sink.new))
        (λ w. w ≡ Memory) }
    ensures room { length bytes.now ≡ 1 → IfErr result (λ w. w ≡ Memory
        → S.may_run_out (S.held sink.old) (data_byte (slice_index bytes.now 0))) }
{
    sink.take(Item::DataBytes(bytes))
}
