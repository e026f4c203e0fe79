//! Ops held with their encoded length (Core spec 5.4), and with whether one of them names a data segment. So no
//! pass over the ops is needed before they are written.

ghost use Rattle.std.specs.Prelude.{◌≡◌, ◌++◌, ◌∷◌, ◌-◌, ◌^◌, [], Some, OnErr, OnOk, false, min, true};
ghost use Rattle.wm_syntax.specs.Instructions.{name_segment, names_segment};
ghost use Rattle.wm_syntax.specs.Lengths.{op_len, ops_len};
ghost use Rattle.wm_syntax.specs.declared.instructions.Op.TheVariants.{Else, End};
ghost use Rattle.wm_syntax.specs.inner.Builders.{last_of, last_set};

use crate::instructions::Op;
use std::alloc::{AllocError, Global};
use std::marker::Model;
use std::{fmt, mem};

// A full list gets room for this many ops more, or for twice as many as it has. Most bodies then grow two or
// three times.
const FEW: usize = 64;

/// A list with room for at most this many ops is kept when they are taken, and reused for the next ones.
pub(crate) const MOST_KEPT: usize = 1024;

/// Ops, and their encoded length in bytes, which saturates at 2^64 - 1. `names_segment` is true if one of them names
/// a data segment.
#[derive(Drop)]
pub(crate) struct SizedOps {
    ops: Vec<Op>,
    len: u64,
    names_segment: bool,
}

impl Model for SizedOps {
    ghost use Rattle.std.specs.Prelude.{List, ◌≡◌, ◌-◌, ◌^◌, min};
    ghost use Rattle.wm_syntax.specs.Instructions.{name_segment};
    ghost use Rattle.wm_syntax.specs.Lengths.{ops_len};
    ghost use Rattle.wm_syntax.specs.declared.instructions.Op.{Op as OpValue};
    ghost use Rattle.wm_syntax.specs.inner.Codes.{ops_code};

    ghost Value = { List OpValue };

    ghost coded = { ops_code };

    ghost view = { λ o. o.ops.items };

    ghost invariant = { λ o. (o.len ≡ min (ops_len o.ops.items) (2 ^ 64 - 1))
        × (o.names_segment ≡ name_segment o.ops.items) };
}

// Leaves out the other fields, which the ops determine.
impl fmt::Debug for SizedOps {
    fn fmt<W: fmt::Write>(&self, f: &mut fmt::Formatter<W>) -> fmt::Result {
        fmt::Debug::fmt(&self.ops, f)
    }
}

impl SizedOps {
    /// Returns a list without ops.
    pub(crate) fn new(alloc: Global) -> Self
        ensures { result ≡ [] }
    {
        SizedOps {
            ops: Vec::new(alloc),
            len: 0,
            names_segment: false,
        }
    }

    pub(crate) fn as_slice(&self) -> &[Op]
        ensures { result.now ≡ self.now }
    {
        &self.ops
    }

    /// Returns the encoded length of the ops in bytes, which saturates at 2^64 - 1.
    pub(crate) fn len(&self) -> u64
        ensures { result ≡ min (ops_len self.now) (2 ^ 64 - 1) }
    {
        self.len
    }

    /// Whether one of the ops names a data segment.
    pub(crate) fn names_segment(&self) -> bool
        ensures { result ≡ name_segment self.now }
    {
        self.names_segment
    }

    /// Appends a borrowed op with this encoded length. `names` is whether it names a data segment.
    #[inline(always)]
    pub(crate) fn push(&mut self, op: &Op, len: u64, names: bool) -> Result<(), AllocError>
        requires len { len ≡ op_len op.now }
        requires names { names ≡ names_segment op.now }
        ensures ok { OnOk result (self.new ≡ self.old ++ op.now ∷ []) }
        ensures err { OnErr result (self.new ≡ self.old) }
    {
        // in two steps, so that no refused op is returned through memory
        if self.ops.len() >= self.ops.capacity() {
            self.ops.reserve(FEW)?;
        }
        self.ops.push_reserved(*op);
        self.len = self.len.saturating_add(len);
        if names {
            self.names_segment = true;
        }
        Ok(())
    }

    /// Appends a borrowed op that names no data segment, if there is room. Otherwise returns false and changes nothing.
    #[inline(always)]
    pub(crate) fn push_fast(&mut self, op: &Op, len: u64) -> bool
        requires len { len ≡ op_len op.now }
        requires names { names_segment op.now ≡ false }
        ensures taken { result ≡ true → self.new ≡ self.old ++ op.now ∷ [] }
        ensures left { result ≡ false → self.new ≡ self.old }
    {
        if self.ops.len() >= self.ops.capacity() {
            return false;
        }
        self.ops.push_reserved(*op);
        self.len = len.saturating_add(self.len);
        true
    }

    /// Replaces the last op, an `else`, by an `end`. Both have one byte.
    pub(crate) fn end_else(&mut self)
        requires { last_of self.old ≡ Some Else }
        ensures { self.new ≡ last_set End self.old }
    {
        let last = self.ops.len() - 1;
        self.ops[last] = Op::End;
    }

    /// Takes all ops out. Ops of a list with a small capacity are copied once into memory of their exact
    /// size, and the list is kept. Otherwise, or if that memory is refused, the list itself is taken.
    pub(crate) fn take(&mut self, alloc: Global) -> Self
        ensures taken { result ≡ self.old }
        ensures left { self.new ≡ [] }
    {
        if self.ops.capacity() <= MOST_KEPT {
            if let Ok(ops) = Vec::from_slice(alloc, &self.ops) {
                let (len, names_segment) = (self.len, self.names_segment);
                self.clear();
                return SizedOps {
                    ops,
                    len,
                    names_segment,
                };
            }
        }
        let mut all = mem::replace(self, SizedOps::new(alloc));
        all.shrink_to_fit();
        all
    }

    /// Removes all ops, but keeps their memory.
    pub(crate) fn clear(&mut self)
        ensures { self.new ≡ [] }
    {
        self.ops.clear();
        self.len = 0;
        self.names_segment = false;
    }

    /// Releases memory that no op fills.
    pub(crate) fn shrink_to_fit(&mut self)
        ensures { self.new ≡ self.old }
    {
        self.ops.shrink_to_fit();
    }
}
