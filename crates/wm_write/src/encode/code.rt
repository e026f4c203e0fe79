//! Writes code entries (Core spec 5.5.13). The size of an entry comes first, so it is computed before the entry is
//! written.

ghost use Rattle.std.specs.Prelude.{◌≡◌, ◌+◌, ◌<◌, ◌≤◌, ◌^◌, flat_map, length};
ghost use Rattle.wm_syntax.specs.Instructions.{ops_of};
ghost use Rattle.wm_syntax.specs.Runs.{runs_of};
ghost use Rattle.wm_write.specs.Canon.{code_bytes, code_contents, listed, ops_bytes, run_bytes};
ghost use Rattle.wm_write.specs.exact.Writing.{Sent, SentBut, capped};

use crate::batch::{Batch, ROOM};
use crate::encode::spell::{push_op, spell_run};
use crate::put::{Counted, Part, put_bytes, put_number};
use wm_syntax::instructions::Op;
use wm_syntax::io::Dest;
use wm_syntax::modules::Function;
use wm_syntax::modules::body::Body;
use wm_syntax::modules::locals::Locals;
use wm_syntax::numbers::lengths::number_len;

// The most bytes of an op. A load with two immediates of five bytes each has as many.
const LONGEST_OP: usize = 11;

/// The contents of a code entry after its size: the locals and the body.
struct CodeContents;

#[tactic(auto, using(crate::proofs::Writes::sent_then))]
impl Part for CodeContents {
    ghost use Rattle.wm_write.specs.Canon.{code_contents};

    type Value = Function;

    ghost bytes = { code_contents };

    fn put<W: Dest>(w: &mut W, written: &mut u64, function: &Function) {
        put_number(w, written, function.locals.runs() as u64);
        put_runs(w, written, &function.locals);
        put_ops(w, written, function.body.ops());
        put_bytes(w, written, &[0x0B]);
    }
}

impl Counted for CodeContents {
    fn len(function: &Function) -> u64 {
        runs_len(&function.locals)
            .saturating_add(ops_len(&function.body))
            .saturating_add(1)
    }
}

// Writes each maximal run of locals of one type.
fn put_runs<W: Dest>(w: &mut W, written: &mut u64, locals: &Locals)
    ensures { Sent (flat_map run_bytes (runs_of locals.now))
        (W.has_failed w.old, W.contents w.old, written.old)
        (W.has_failed w.new, W.contents w.new, written.new) }
{
    for index in 0..locals.runs() {
        let (count, ty) = locals.run(index).unwrap();
        put_bytes(w, written, spell_run(count, ty).as_slice());
    }
}

// Writes ops in batches.
fn put_ops<W: Dest>(w: &mut W, written: &mut u64, ops: &[Op])
    ensures { Sent (ops_bytes ops.now) (W.has_failed w.old, W.contents w.old, written.old)
        (W.has_failed w.new, W.contents w.new, written.new) }
{
    let mut batch = Batch::new();
    for op in ops {
        put_full(w, written, &mut batch);
        push_op(&mut batch, op);
    }
    put_bytes(w, written, batch.as_slice());
}

// Writes and empties the batch if another op may not fit into it.
#[inline(always)]
fn put_full<W: Dest>(w: &mut W, written: &mut u64, batch: &mut Batch)
    ensures room { length batch.new + 11 ≤ 64 }
    ensures sent { SentBut batch.new batch.old (W.has_failed w.old, W.contents w.old, written.old)
        (W.has_failed w.new, W.contents w.new, written.new) }
{
    if batch.len() > ROOM - LONGEST_OP {
        put_bytes(w, written, batch.as_slice());
        batch.clear();
    }
}

// The encoded length of a body's ops in bytes, at most 2^64 - 1. It was counted while the body was built.
fn ops_len(body: &Body) -> u64
    ensures { result ≡ capped (length (ops_bytes (ops_of body.now))) }
{
    body.encoded_len()
}

// The encoded length of locals, as maximal runs of one type, in bytes; at most 2^64 - 1.
fn runs_len(locals: &Locals) -> u64
    ensures { result ≡ capped (length (listed run_bytes (runs_of locals.now))) }
{
    let mut sum = number_len(locals.runs() as u64);
    for index in 0..locals.runs() {
        let (count, _) = locals.run(index).unwrap();
        sum = sum.saturating_add(number_len(u64::from(count)) + 1);
    }
    sum
}

/// The length of the code section's contents in bytes, at most 2^64 - 1.
pub(crate) fn codes_len(functions: &[Function]) -> u64
    ensures { result ≡ capped (length (listed code_bytes functions.now)) }
{
    let mut sum = number_len(functions.len() as u64);
    for function in functions {
        sum = sum.saturating_add(code_len(function));
    }
    sum
}

// The encoded length of a code entry in bytes, its size field included; at most 2^64 - 1.
fn code_len(function: &Function) -> u64
    ensures { result ≡ capped (length (code_bytes function.now)) }
{
    let size = CodeContents::len(function);
    size.saturating_add(number_len(size))
}

/// Writes the contents of the code section.
pub(crate) fn put_codes<W: Dest>(w: &mut W, written: &mut u64, functions: &[Function])
    requires { length (listed code_bytes functions.now) < 2 ^ 32 }
    ensures { Sent (listed code_bytes functions.now) (W.has_failed w.old, W.contents w.old, written.old)
        (W.has_failed w.new, W.contents w.new, written.new) }
{
    put_number(w, written, functions.len() as u64);
    for function in functions {
        put_code(w, written, function);
    }
}

// Writes a code entry: its size and its contents.
fn put_code<W: Dest>(w: &mut W, written: &mut u64, function: &Function)
    requires { length (code_contents function.now) < 2 ^ 32 }
    ensures { Sent (code_bytes function.now) (W.has_failed w.old, W.contents w.old, written.old)
        (W.has_failed w.new, W.contents w.new, written.new) }
{
    put_number(w, written, CodeContents::len(function));
    CodeContents::put(w, written, function);
}
