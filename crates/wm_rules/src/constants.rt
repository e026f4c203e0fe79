//! Constant expressions. Core spec 3.3.7.

ghost use Rattle.std.specs.Prelude.{◌≡◌, None, if◌then◌else◌};
ghost use Rattle.wm_rules.specs.exact.Constants.{constant_after, constant_expecting, first_only, of_global};
ghost use Rattle.wm_rules.specs.exact.Constants.{of_type, visible};

use wm_syntax::instructions::{Op, Simple};
use wm_syntax::types::{GlobalType, ValType};
use wm_syntax::why::Why;

/// A constant expression at hand.
#[derive(Clone, Copy, PartialEq, Eq, Debug)]
pub struct Constant {
    /// The type that it must have.
    pub expects: ValType,
    /// The number of globals that it may name, counted from the first one.
    pub sees: usize,
    /// Whether its one instruction came.
    pub seen: bool,
}

impl Constant {
    // Returns a constant expression before its first op.
    pub(crate) fn expecting(expects: ValType, sees: usize) -> Self
        ensures { result ≡ constant_expecting expects sees }
    {
        Constant {
            expects,
            sees,
            seen: false,
        }
    }

    // Takes one op. Returns `None` if the op ends the expression.
    pub(crate) fn take(self, globals: &[GlobalType], op: Op) -> Result<Option<Constant>, Why>
        ensures { result ≡ constant_after globals.now op self }
    {
        match op {
            Op::Simple(Simple::I32Const(_)) => self.number(ValType::I32),
            Op::Simple(Simple::I64Const(_)) => self.number(ValType::I64),
            Op::Simple(Simple::F32Const(_)) => self.number(ValType::F32),
            Op::Simple(Simple::F64Const(_)) => self.number(ValType::F64),
            Op::Simple(Simple::GlobalGet(index)) => self.global(globals, index),
            Op::End => self.end(),
            _ => Err(Why::NotConst),
        }
    }

    fn number(self, ty: ValType) -> Result<Option<Constant>, Why>
        ensures { result ≡ first_only self (of_type ty self) }
    {
        if self.seen {
            return Err(Why::Arity);
        }
        self.with_type(ty)
    }

    fn global(self, globals: &[GlobalType], index: u32) -> Result<Option<Constant>, Why>
        ensures { result ≡ first_only self (of_global (visible self.sees globals.now index) self) }
    {
        if self.seen {
            return Err(Why::Arity);
        }
        match named(globals, self.sees, index) {
            None => Err(Why::Index),
            Some(global) if global.var => Err(Why::NotConst),
            Some(global) => self.with_type(global.ty),
        }
    }

    fn end(self) -> Result<Option<Constant>, Why>
        ensures { result ≡ (if self.seen then Ok None else Err Why.Arity) }
    {
        if self.seen { Ok(None) } else { Err(Why::Arity) }
    }

    // Takes the instruction, which has this type.
    fn with_type(self, ty: ValType) -> Result<Option<Constant>, Why>
        ensures { result ≡ of_type ty self }
    {
        if ty != self.expects {
            return Err(Why::Mismatch);
        }
        Ok(Some(Constant { seen: true, ..self }))
    }
}

// The global with this index, if it is one of the first `sees` globals.
fn named(globals: &[GlobalType], sees: usize, index: u32) -> Option<GlobalType>
    ensures { result ≡ visible sees globals.now index }
{
    if (index as usize) < sees {
        globals.get(index as usize).copied()
    } else {
        None
    }
}
