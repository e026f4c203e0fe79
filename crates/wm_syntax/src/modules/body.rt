//! Function bodies, held as their ops.

ghost use Rattle.std.specs.Prelude.{◌≡◌, ◌-◌, ◌^◌, min};
ghost use Rattle.wm_syntax.specs.Instructions.{name_segment, ops_of};
ghost use Rattle.wm_syntax.specs.Lengths.{ops_len};
ghost use Rattle.wm_syntax.specs.inner.Building.{tree_of};

use crate::instructions::Op;
use crate::modules::sized_ops::SizedOps;
use std::marker::Model;

/// The body of a function.
#[derive(Debug, Drop)]
pub struct Body {
    ops: SizedOps,
}

impl Model for Body {
    ghost use Rattle.std.specs.Prelude.{◌≡◌};
    ghost use Rattle.wm_syntax.specs.Instructions.{Instructions, ops_of};
    ghost use Rattle.wm_syntax.specs.inner.Building.{tree_of};
    ghost use Rattle.wm_syntax.specs.inner.Codes.{instructions_code};

    ghost Value = { Instructions };

    ghost coded = { instructions_code };

    ghost view = { λ b. tree_of b.ops };

    ghost invariant = { λ b. b.ops ≡ ops_of (tree_of b.ops) };
}

impl Body {
    // Makes the body with these ops.
    pub(crate) fn from_ops(ops: SizedOps) -> Self
        requires { ops ≡ ops_of (tree_of ops) }
        ensures { result ≡ tree_of ops }
    {
        Body { ops }
    }

    /// Borrows the ops of the body, without the `end` that closes it.
    pub fn ops(&self) -> &[Op]
        ensures { result.now ≡ ops_of self.now }
    {
        self.ops.as_slice()
    }

    /// Returns the encoded length of the ops in bytes, each number in its shortest encoding (Core spec 5.4).
    /// It saturates at 2^64 - 1. It was counted while the body was built.
    pub fn encoded_len(&self) -> u64
        ensures { result ≡ min (ops_len (ops_of self.now)) (2 ^ 64 - 1) }
    {
        self.ops.len()
    }

    /// Whether an instruction of the body names a data segment (WebAssembly 2.0, 5.5.16). It was found while the body
    /// was built.
    pub fn names_segment(&self) -> bool
        ensures { result ≡ name_segment (ops_of self.now) }
    {
        self.ops.names_segment()
    }
}
