//! Types (Core spec 2.3).

ghost use Rattle.std.specs.Prelude.{◌≡◌};
ghost use Rattle.wm_syntax.specs.Profiles.{type_feature};

use crate::profile::Feature;
use std::marker::Model;

/// A value type: an integer or a float, of 32 or 64 bits (Core spec 2.3.1).
#[derive(Clone, Copy, PartialEq, Eq, Debug)]
pub enum ValType {
    I32,
    I64,
    F32,
    F64,
}

impl ValType {
    /// Returns the feature that the type belongs to.
    #[inline(always)]
    pub fn feature(self) -> Feature
        ensures { result ≡ type_feature self }
    {
        match self {
            ValType::I32 | ValType::I64 => Feature::Base,
            ValType::F32 | ValType::F64 => Feature::Floats,
        }
    }
}

/// A function type: the types of the parameters and of the results (Core spec 2.3.3).
#[derive(Debug, Drop)]
pub struct FuncType {
    pub params: Vec<ValType>,
    pub results: Vec<ValType>,
}

impl Model for FuncType {
    ghost use Rattle.wm_syntax.specs.Types.{Signature};

    ghost Value = { Signature };

    ghost view = { λ f. record { params = f.params.items; results = f.results.items } };
}

/// The least and the greatest size of a table, in elements, or of a memory, in pages of 64 KiB
/// (Core spec 2.3.4).
#[derive(Clone, Copy, PartialEq, Eq, Debug)]
pub struct Limits {
    pub min: u32,
    pub max: Option<u32>,
}

/// The type of a global's value, and whether the global may be set (Core spec 2.3.7).
#[derive(Clone, Copy, PartialEq, Eq, Debug)]
pub struct GlobalType {
    pub ty: ValType,
    pub var: bool,
}

/// A constant expression: a number, or the value of the global with this index (Core spec 3.3.7).
#[derive(Clone, Copy, PartialEq, Eq, Debug)]
pub enum Const {
    I32(i32),
    I64(i64),
    /// A float is held as its bits.
    F32(u32),
    F64(u64),
    Global(u32),
}
