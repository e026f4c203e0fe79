//! Prints locals and instructions, an instruction on each line (Core spec 6.5).

ghost use Rattle.std.specs.Prelude.{◌≡◌, ◌+◌, ◌^◌, ◌≤◌, ◌++◌, IsTrue, Some, codes, length, map};
ghost use Rattle.std.specs.List.{list_all};
ghost use Rattle.wm_syntax.specs.declared.instructions.Op.{Op};
ghost use Rattle.wm_syntax.specs.OpClasses.{code};
ghost use Rattle.wm_syntax.specs.OpNames.{op_name};
ghost use Rattle.wm_syntax.specs.Runs.{runs_of};
ghost use Rattle.wm_syntax.specs.Modules.{locals_of};
ghost use Rattle.wm_write.specs.Layout.{access_words, body_line, body_words, const_words, head_words};
ghost use Rattle.wm_write.specs.Layout.{immediate_words, key_words, op_words, operand_words, result_words};
ghost use Rattle.wm_write.specs.Layout.{type_word, types_words, words_text};
ghost use Rattle.wm_write.specs.exact.Writing.{Sent};
ghost use Rattle.wm_write.specs.exact.Aligns.{is_printable, is_simple_printable};

use crate::batch::Batch;
use crate::encode::spell::instruction_of;
use crate::print::float_text::{push_f32, push_f64};
use crate::print::tokens::{push_type_use, put_run, type_bytes};
use crate::put::put_bytes;
use wm_syntax::instructions::accesses::{loaded, stored};
use wm_syntax::instructions::op_names::name_of;
use wm_syntax::instructions::opcodes::code;
use wm_syntax::instructions::{LoadOp, MemArg, Op, Simple, StoreOp};
use wm_syntax::io::Dest;
use wm_syntax::modules::locals::Locals;
use wm_syntax::types::{Const, ValType};

// Returns an alignment in bytes, given its exponent.
fn power(align: u32) -> u32
    requires { align ≤ 3 }
    ensures { result ≡ 2 ^ align }
{
    match align {
        0 => 1,
        1 => 2,
        2 => 4,
        _ => 8,
    }
}

// Appends a part of a memory argument, unless it has its default value.
fn push_key(line: &mut Batch, key: &[u8], usual: u32, n: u32)
    requires { length line.old + (length key.now + 11) ≤ 64 }
    ensures text { line.new ≡ line.old ++ words_text (key_words key.now usual n) }
    ensures short { length line.new ≤ length line.old + (length key.now + 11) }
{
    if n == usual {
        return;
    }
    line.push(b" ");
    line.push_counted(key, n);
}

// Appends the memory argument of an access of `width` bytes.
fn push_access(line: &mut Batch, width: u32, at: MemArg)
    requires usual { at.align ≤ 3 }
    requires room { length line.old + 36 ≤ 64 }
    ensures { line.new ≡ line.old ++ words_text (access_words width at) }
{
    push_key(line, b"offset=", 0, at.offset);
    push_key(line, b"align=", width, power(at.align));
}

// Returns the code of an op. A label has none.
#[inline(always)]
fn op_code(op: &Op) -> Option<u16>
    ensures { result ≡ code op.now }
{
    match op {
        Op::Simple(simple) => Some(code(*simple)),
        Op::Block(_) => Some(0x02),
        Op::Loop(_) => Some(0x03),
        Op::If(_) => Some(0x04),
        Op::Else => Some(0x05),
        Op::End => Some(0x0B),
        Op::BrTable(_) => Some(0x0E),
        Op::Label(_) => None,
    }
}

// Returns the name of the op with this code, at most 19 bytes.
fn name(wanted: u16) -> &'static [u8]
    ensures named { (op : Op) → code op ≡ Some wanted → op_name op ≡ Some result.now }
    ensures short { length result.now ≤ 19 }
{
    name_of(wanted)
}

// Appends the name of an op on a new line, at most 24 bytes. A label has no name.
#[inline(always)]
fn push_name(line: &mut Batch, op: &Op)
    requires { length line.old + 24 ≤ 64 }
    ensures text { line.new ≡ line.old ++ words_text (head_words (op_name op.now)) }
    ensures short { length line.new ≤ length line.old + 24 }
{
    if let Some(code) = op_code(op) {
        line.push(b"\n    ");
        line.push(name(code));
    }
}

// Appends the operands of an instruction, which is borrowed, since a copy would go through memory.
#[inline(always)]
fn push_immediates(line: &mut Batch, simple: &Simple)
    requires usual { IsTrue (is_simple_printable simple.now) }
    requires room { length line.old + 36 ≤ 64 }
    ensures { line.new ≡ line.old ++ words_text (immediate_words simple.now) }
{
    match simple {
        Simple::Br(index)
        | Simple::BrIf(index)
        | Simple::LocalGet(index)
        | Simple::LocalSet(index)
        | Simple::LocalTee(index)
        | Simple::MemoryInit(index)
        | Simple::DataDrop(index)
        | Simple::TableInit(index)
        | Simple::ElemDrop(index) => line.push_index(b" ", *index),
        Simple::Call(index) => line.push_index(b" $f", *index),
        Simple::CallIndirect(index) => push_type_use(line, *index),
        Simple::GlobalGet(index) | Simple::GlobalSet(index) => line.push_index(b" $g", *index),
        Simple::I32Const(value) => line.push_counted(b" ", *value),
        Simple::I64Const(value) => line.push_counted(b" ", *value),
        Simple::F32Const(bits) => push_f32(line, u64::from(*bits)),
        Simple::F64Const(bits) => push_f64(line, *bits),
        Simple::Load(op, at) => push_access(line, loaded(*op).width, *at),
        Simple::Store(op, at) => push_access(line, stored(*op).width, *at),
        _ => {}
    }
}

// Appends the result type of a block.
fn push_block_type(line: &mut Batch, ty: Option<ValType>)
    requires { length line.old + 36 ≤ 64 }
    ensures { line.new ≡ line.old ++ words_text (result_words ty) }
{
    match ty {
        None => {}
        Some(ty) => {
            line.push(b" (result");
            line.push(type_bytes(ty));
            line.push(b")");
        }
    }
}

// Appends the operands of an op, at most 36 bytes.
#[inline(always)]
fn push_operands(line: &mut Batch, op: &Op)
    requires usual { IsTrue (is_printable op.now) }
    requires room { length line.old + 36 ≤ 64 }
    ensures { line.new ≡ line.old ++ words_text (operand_words op.now) }
{
    match op {
        Op::Simple(simple) => push_immediates(line, simple),
        Op::Block(ty) | Op::Loop(ty) | Op::If(ty) => push_block_type(line, *ty),
        Op::Label(label) => line.push_index(b" ", *label),
        Op::Else | Op::End | Op::BrTable(_) => {}
    }
}

// Appends an op, at most 60 bytes: an instruction on a new line, or a label. The most common ops take a fast path, in
// which the name and the text around it are one constant. All other names are looked up.
#[inline(always)]
fn push_line(line: &mut Batch, op: &Op)
    requires usual { IsTrue (is_printable op.now) }
    requires room { length line.old + 60 ≤ 64 }
    ensures { line.new ≡ line.old ++ words_text (op_words op.now) }
{
    match op {
        Op::Simple(simple) => push_instruction(line, op, simple),
        Op::End => line.push(b"\n    end"),
        Op::Block(None) => line.push(b"\n    block"),
        Op::Loop(None) => line.push(b"\n    loop"),
        _ => push_any_line(line, op),
    }
}

// Does as `push_line`, for an `Op::Simple`.
#[inline(always)]
fn push_instruction(line: &mut Batch, op: &Op, simple: &Simple)
    requires simple { op.now ≡ Op.Simple simple.now }
    requires usual { IsTrue (is_printable op.now) }
    requires room { length line.old + 60 ≤ 64 }
    ensures { line.new ≡ line.old ++ words_text (op_words op.now) }
{
    match simple {
        Simple::LocalGet(index) => line.push_index(b"\n    local.get ", *index),
        Simple::LocalSet(index) => line.push_index(b"\n    local.set ", *index),
        Simple::LocalTee(index) => line.push_index(b"\n    local.tee ", *index),
        Simple::GlobalGet(index) => line.push_index(b"\n    global.get $g", *index),
        Simple::GlobalSet(index) => line.push_index(b"\n    global.set $g", *index),
        Simple::Call(index) => line.push_index(b"\n    call $f", *index),
        Simple::Br(label) => line.push_index(b"\n    br ", *label),
        Simple::BrIf(label) => line.push_index(b"\n    br_if ", *label),
        Simple::I32Const(value) => line.push_constant(b"\n    i32.const ", *value),
        Simple::Load(load, at) if *load == LoadOp::I32Load => {
            line.push(b"\n    i32.load");
            push_access(line, 4, *at);
        }
        Simple::Store(store, at) if *store == StoreOp::I32Store => {
            line.push(b"\n    i32.store");
            push_access(line, 4, *at);
        }
        _ => push_any_line(line, op),
    }
}

// The slow path of `push_line`, for any op.
#[inline(always)]
fn push_any_line(line: &mut Batch, op: &Op)
    requires usual { IsTrue (is_printable op.now) }
    requires room { length line.old + 60 ≤ 64 }
    ensures { line.new ≡ line.old ++ words_text (op_words op.now) }
{
    push_name(line, op);
    push_operands(line, op);
}

// Writes an op by one `put`.
#[inline(always)]
fn put_op<W: Dest>(w: &mut W, written: &mut u64, op: &Op)
    requires { IsTrue (is_printable op.now) }
    ensures { Sent (words_text (op_words op.now)) (W.has_failed w.old, W.contents w.old, written.old)
        (W.has_failed w.new, W.contents w.new, written.new) }
{
    let mut line = Batch::new();
    push_line(&mut line, op);
    put_bytes(w, written, line.as_slice());
}

/// Writes the lines of a body.
pub(crate) fn put_body<W: Dest>(w: &mut W, written: &mut u64, ops: &[Op])
    requires { IsTrue (list_all is_printable ops.now) }
    ensures { Sent (words_text (body_words ops.now)) (W.has_failed w.old, W.contents w.old, written.old)
        (W.has_failed w.new, W.contents w.new, written.new) }
{
    for op in ops {
        put_op(w, written, op);
    }
}

/// Writes all locals on one line, unless there are none.
pub(crate) fn put_locals<W: Dest>(w: &mut W, written: &mut u64, locals: &Locals)
    ensures { Sent (words_text (types_words body_line (codes "local") locals.now))
        (W.has_failed w.old, W.contents w.old, written.old)
        (W.has_failed w.new, W.contents w.new, written.new) }
{
    if locals.runs() == 0 {
        return;
    }
    put_bytes(w, written, b"\n    (local");
    put_local_types(w, written, locals);
    put_bytes(w, written, b")");
}

// Writes the type of each local, run by run.
fn put_local_types<W: Dest>(w: &mut W, written: &mut u64, locals: &Locals)
    ensures { Sent (words_text (map type_word (locals_of (runs_of locals.now))))
        (W.has_failed w.old, W.contents w.old, written.old)
        (W.has_failed w.new, W.contents w.new, written.new) }
{
    for index in 0..locals.runs() {
        let (count, ty) = locals.run(index).unwrap();
        put_run(w, written, count, ty);
    }
}

/// Writes a constant expression on the line of its field.
pub(crate) fn put_const<W: Dest>(w: &mut W, written: &mut u64, value: Const)
    ensures { Sent (words_text (const_words value)) (W.has_failed w.old, W.contents w.old, written.old)
        (W.has_failed w.new, W.contents w.new, written.new) }
{
    let instruction = instruction_of(value);
    let mut line = Batch::new();
    line.push(b" ");
    line.push(name(code(instruction)));
    push_immediates(&mut line, &instruction);
    put_bytes(w, written, line.as_slice());
}
