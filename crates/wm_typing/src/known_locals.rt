//! Locals of whole numbers whose types an earlier search found.

ghost use Rattle.std.specs.Prelude.{◌≡◌, ℕ, ◌⊎◌, IfSome};
ghost use Rattle.wm_syntax.specs.declared.types.ValType.{ValType as AType};
ghost use Rattle.wm_typing.specs.inner.DeclaredLocals.{Knows};

use wm_syntax::types::ValType;

// The number of locals that have a bit each.
const IN_BITS: u32 = 64;

// Bits for the first 64 locals: whether each is known, and whether its type is i64.
#[derive(Clone, Copy, Debug)]
pub(crate) struct KnownLocals {
    known: u64,
    wide: u64,
}

impl KnownLocals {
    // Returns a value in which no local is known.
    pub(crate) fn none() -> Self
        ensures { (i : ℕ) (t : AType) → Knows result i t → ⊥ }
    {
        KnownLocals { known: 0, wide: 0 }
    }

    // The type of the local with this index, if it is known.
    #[inline(always)]
    pub(crate) fn find(&self, index: u32) -> Option<ValType>
        ensures { IfSome result (Knows self.now index) }
    {
        if index >= IN_BITS || (self.known >> index) & 1 == 0 {
            return None;
        }
        if (self.wide >> index) & 1 == 0 {
            Some(ValType::I32)
        } else {
            Some(ValType::I64)
        }
    }

    // Remembers the type of a local if its index is below 64 and it is a whole number.
    pub(crate) fn note(&mut self, index: u32, ty: ValType)
        ensures { (i : ℕ) (t : AType) → Knows self.new i t → Knows self.old i t ⊎ ((i ≡ index) × (t ≡ ty)) }
    {
        if index >= IN_BITS {
            return;
        }
        let bit = 1 << index;
        match ty {
            ValType::I32 => {
                self.known |= bit;
                self.wide &= !bit;
            }
            ValType::I64 => {
                self.known |= bit;
                self.wide |= bit;
            }
            // float locals are rare: they are searched each time
            ValType::F32 | ValType::F64 => {}
        }
    }
}
