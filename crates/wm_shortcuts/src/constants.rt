//! The reader of constant expressions of one instruction that lie whole in a piece. Core spec 3.3.7.
//!
//! Float constants, and bytes that the format refuses, take the slow path: the functions return `None` for them.

ghost use Rattle.std.specs.Prelude.{◌≡◌, ◌+◌, ◌<◌, IfSome, length, slice_index};
ghost use Rattle.wm_shortcuts.specs.exact.WholeOps.{WholeOp};

use crate::whole_ops::{Read, const_32, const_64, with_index};
use wm_syntax::instructions::Op;
use wm_syntax::instructions::op_class::Indexed;

/// The instruction of a constant expression, and the index of the `end` after it.
#[derive(Clone, Copy)]
pub(crate) struct Constant {
    pub(crate) op: Op,
    pub(crate) stop: usize,
}

// Reads an integer constant or a `global.get`
#[inline(always)]
fn constant_op(bytes: &[u8], at: usize) -> Option<Read>
    requires { at + 1 < length bytes.now }
    ensures { IfSome result (λ r. WholeOp bytes.now at r.next 0 r.depth r.op) }
{
    match bytes[at] {
        0x23 => with_index(bytes, at, 0, Indexed::GlobalGet),
        0x41 => const_32(bytes, at, 0),
        0x42 => const_64(bytes, at, 0),
        _ => None,
    }
}

/// Reads the constant expression at the index `at`, with its `end`.
#[inline(never)]
pub(crate) fn constant_at(bytes: &[u8], at: usize) -> Option<Constant>
    requires { at + 1 < length bytes.now }
    ensures op { IfSome result (λ c. WholeOp bytes.now at c.stop 0 0 c.op) }
    ensures end { IfSome result (λ c. slice_index bytes.now c.stop ≡ 0x0B) }
    ensures within { IfSome result (λ c. c.stop < length bytes.now) }
{
    let read = constant_op(bytes, at)?;
    let stop = read.next;
    if read.depth != 0 || stop >= bytes.len() || bytes[stop] != 0x0B {
        return None;
    }
    Some(Constant { op: read.op, stop })
}
