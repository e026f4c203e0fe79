//! Equality of modules and of their parts (Core spec 2.5): `==` holds if both are one value. Neither the
//! memory that they hold nor the runs in which their locals were given make a difference.

ghost use Rattle.std.specs.Prelude.{◌≡◌, ◌↔◌, true};
ghost use Rattle.wm_syntax.specs.Values.{value_of};
ghost use Rattle.wm_syntax.specs.declared.modules.Module.{Module};

use crate::instructions::{Numeric, Op, Simple};
use crate::modules::body::Body;
use crate::modules::locals::{Locals, Run};
use crate::modules::{Element, Export, Function, GlobalDef, Import, Module, Segment};
use crate::opcode_table;
use crate::types::{FuncType, Limits, ValType};

/// A type whose values can be compared.
pub trait Same {
    /// Whether both are the same value.
    fn same(&self, other: &Self) -> bool
        ensures { (result ≡ true) ↔ (self.now ≡ other.now) };
}

/// Whether both lists have the same values in the same order.
pub fn same_list<T: Same>(a: &[T], b: &[T]) -> bool
    ensures { (result ≡ true) ↔ (a.now ≡ b.now) }
{
    let mut left = a;
    let mut right = b;
    while let Some((x, more)) = left.split_first() {
        let Some((y, others)) = right.split_first() else {
            return false;
        };
        if !x.same(y) {
            return false;
        }
        left = more;
        right = others;
    }
    right.is_empty()
}

impl Same for ValType {
    fn same(&self, other: &ValType) -> bool {
        *self == *other
    }
}

impl Same for Limits {
    fn same(&self, other: &Limits) -> bool {
        *self == *other
    }
}

impl Same for Run {
    fn same(&self, other: &Run) -> bool {
        *self == *other
    }
}

// Compares ops kind by kind, since no comparison of all kinds at once is proved.
impl Same for Op {
    fn same(&self, other: &Op) -> bool {
        same_op(*self, *other)
    }
}

// Whether two values of an enum are the same. The lists have the variants without fields, those with one
// field, those with two, and those whose field a function compares.
macro_rules! same_variant {
    (
        $of:ident: $a:ident, $b:ident;
        $($none:ident)*; $($one:ident)*; $($two:ident)*; $($part:ident by $same:ident)*
    ) => {
        match $a {
            $($of::$none => matches!($b, $of::$none),)*
            $($of::$one(x) => match $b {
                $of::$one(y) => x == y,
                _ => false,
            },)*
            $($of::$two(x, m) => match $b {
                $of::$two(y, n) => x == y && m == n,
                _ => false,
            },)*
            $($of::$part(x) => match $b {
                $of::$part(y) => $same(x, y),
                _ => false,
            },)*
        }
    };
}

fn same_op(a: Op, b: Op) -> bool
    ensures { (result ≡ true) ↔ (a ≡ b) }
{
    same_variant!(Op: a, b; Else End; Block Loop If BrTable Label;; Simple by same_simple)
}

macro_rules! same_plain {
    ([$a:ident $b:ident] $({ $($code:literal => $name:literal, $op:ident $(($immediates:ident))?;)* })*) => {
        opcode_table!(number, same_number, $a, $b, ($($($op)*)*))
    };
}

macro_rules! same_number {
    (
        [$a:ident $b:ident ($($plain:ident)*)]
        $({ $($code:literal => $name:literal, $op:ident($immediates:ident);)* })*
    ) => {
        same_variant!(Simple: $a, $b; $($plain)*; $($($op)*)*; Load Store; Numeric by same_numeric)
    };
}

fn same_simple(a: Simple, b: Simple) -> bool
    ensures { (result ≡ true) ↔ (a ≡ b) }
{
    opcode_table!(plain, same_plain, a, b)
}

fn same_numeric(a: Numeric, b: Numeric) -> bool
    ensures { (result ≡ true) ↔ (a ≡ b) }
{
    same_variant!(
        Numeric: a, b; Wrap ExtendS ExtendU; Test Convert SignExtend Saturate;
        Compare Unary Binary FloatCompare FloatUnary FloatBinary;
    )
}

impl Same for Body {
    fn same(&self, other: &Body) -> bool {
        same_list(self.ops(), other.ops())
    }
}

impl Same for Locals {
    fn same(&self, other: &Locals) -> bool {
        same_list(self.as_runs(), other.as_runs())
    }
}

impl Same for FuncType {
    fn same(&self, other: &FuncType) -> bool {
        same_list(&self.params, &other.params) && same_list(&self.results, &other.results)
    }
}

impl Same for Import {
    fn same(&self, other: &Import) -> bool {
        self.module_name == other.module_name
            && self.item_name == other.item_name
            && self.desc == other.desc
    }
}

impl Same for Function {
    fn same(&self, other: &Function) -> bool {
        self.type_index == other.type_index
            && self.locals.same(&other.locals)
            && self.body.same(&other.body)
    }
}

impl Same for GlobalDef {
    fn same(&self, other: &GlobalDef) -> bool {
        self.ty == other.ty && self.init == other.init
    }
}

impl Same for Export {
    fn same(&self, other: &Export) -> bool {
        self.name == other.name && self.kind == other.kind && self.index == other.index
    }
}

impl Same for Element {
    fn same(&self, other: &Element) -> bool {
        self.mode == other.mode && self.functions == other.functions
    }
}

impl Same for Segment {
    fn same(&self, other: &Segment) -> bool {
        self.mode == other.mode && self.bytes == other.bytes
    }
}

impl PartialEq for Body {
    ghost use Rattle.wm_syntax.specs.inner.Equality.{body_code, same_by, same_laws};

    ghost eq = { same_by body_code };

    ghost laws = { same_laws body_code };

    fn eq(&self, other: &Body) -> bool {
        self.same(other)
    }
}

impl PartialEq for Locals {
    ghost use Rattle.wm_syntax.specs.inner.Equality.{locals_code, same_by, same_laws};

    ghost eq = { same_by locals_code };

    ghost laws = { same_laws locals_code };

    fn eq(&self, other: &Locals) -> bool {
        self.same(other)
    }
}

impl PartialEq for FuncType {
    ghost use Rattle.wm_syntax.specs.inner.Equality.{signature_code, same_by, same_laws};

    ghost eq = { same_by signature_code };

    ghost laws = { same_laws signature_code };

    fn eq(&self, other: &FuncType) -> bool {
        self.same(other)
    }
}

impl PartialEq for Import {
    ghost use Rattle.wm_syntax.specs.inner.Equality.{import_code, same_by, same_laws};

    ghost eq = { same_by import_code };

    ghost laws = { same_laws import_code };

    fn eq(&self, other: &Import) -> bool {
        self.same(other)
    }
}

impl PartialEq for Function {
    ghost use Rattle.wm_syntax.specs.inner.Equality.{entry_code, same_by, same_laws};

    ghost eq = { same_by entry_code };

    ghost laws = { same_laws entry_code };

    fn eq(&self, other: &Function) -> bool {
        self.same(other)
    }
}

impl PartialEq for GlobalDef {
    ghost use Rattle.wm_syntax.specs.inner.Equality.{global_code, same_by, same_laws};

    ghost eq = { same_by global_code };

    ghost laws = { same_laws global_code };

    fn eq(&self, other: &GlobalDef) -> bool {
        self.same(other)
    }
}

impl PartialEq for Export {
    ghost use Rattle.wm_syntax.specs.inner.Equality.{export_code, same_by, same_laws};

    ghost eq = { same_by export_code };

    ghost laws = { same_laws export_code };

    fn eq(&self, other: &Export) -> bool {
        self.same(other)
    }
}

impl PartialEq for Element {
    ghost use Rattle.wm_syntax.specs.inner.Equality.{element_code, same_by, same_laws};

    ghost eq = { same_by element_code };

    ghost laws = { same_laws element_code };

    fn eq(&self, other: &Element) -> bool {
        self.same(other)
    }
}

impl PartialEq for Segment {
    ghost use Rattle.wm_syntax.specs.inner.Equality.{segment_code, same_by, same_laws};

    ghost eq = { same_by segment_code };

    ghost laws = { same_laws segment_code };

    fn eq(&self, other: &Segment) -> bool {
        self.same(other)
    }
}

impl Module {
    // Whether both modules are one value (Core spec 2.5). The memory that they hold makes no difference.
    fn same(&self, other: &Module) -> bool
        ensures { (result ≡ true) ↔ (value_of self.now ≡ value_of other.now) }
    {
        same_list(&self.types, &other.types)
            && same_list(&self.imports, &other.imports)
            && same_list(&self.functions, &other.functions)
            && same_list(&self.tables, &other.tables)
            && same_list(&self.memories, &other.memories)
            && same_list(&self.globals, &other.globals)
            && same_list(&self.exports, &other.exports)
            && self.start == other.start
            && same_list(&self.elements, &other.elements)
            && same_list(&self.segments, &other.segments)
    }
}

impl PartialEq for Module {
    ghost use Rattle.wm_syntax.specs.inner.Equality.{module_code, same_by, value_laws};

    ghost eq = { λ a b. same_by module_code (value_of a) (value_of b) };

    ghost laws = { value_laws };

    fn eq(&self, other: &Module) -> bool {
        self.same(other)
    }
}

/// `==` holds for two modules if and only if they are one value (Core spec 2.5).
pub fn equal_modules_are_one_value()
    ensures { (m n : Module) → (⟦<Module as PartialEq>⟧.eq m n ≡ true) ↔ (value_of m ≡ value_of n) }
{}
