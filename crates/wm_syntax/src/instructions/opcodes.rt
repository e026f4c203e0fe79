//! The codes of instructions, in both directions (Core spec 5.4). A code below 0x100 is the first byte of the
//! instruction. The code 0x100 + n stands for the byte FC and the number n.

ghost use Rattle.std.specs.Prelude.{◌≡◌, ◌+◌, ◌<◌, ◌≤◌, ◌↔◌, IsTrue, IsFalse, slice_get};
ghost use Rattle.wm_syntax.specs.declared.instructions.Op.{Op};
ghost use Rattle.wm_syntax.specs.exact.ByteTable.{class_feature, class_in, class_under, classes, features, left_out};
ghost use Rattle.wm_syntax.specs.Opcodes.{numeric, opcode};
ghost use Rattle.wm_syntax.specs.Lengths.{code_len};
ghost use Rattle.wm_syntax.specs.OpClasses.{IsClassOfOp, class_of, code, is_float};
ghost use Rattle.wm_syntax.specs.Profiles.{IsOpOf, has};
ghost use Rattle.wm_syntax.specs.declared.profile.Feature.TheVariants.{Floats};

use crate::instructions::FloatType::{F32, F64};
use crate::instructions::IntType::{I32, I64};
use crate::instructions::Numeric::{
    Binary, Compare, Convert, ExtendS, ExtendU, FloatBinary, FloatCompare, FloatUnary, Saturate,
    SignExtend, Test, Unary, Wrap,
};
use crate::instructions::Simple::Numeric;
use crate::instructions::op_class::LoadOrStore::{Load, Store};
use crate::instructions::op_class::OpClass::{Plain, With};
use crate::instructions::op_class::{BlockOp, Immediates, Indexed, MemoryOp, OpClass};
use crate::instructions::{
    BinaryOp, Comparison, Conversion, FloatBinaryOp, FloatComparison, FloatUnaryOp, LoadOp,
    Numeric as NumericOp, Op, Saturation, SignExtension, Simple, StoreOp, UnaryOp,
};
use crate::opcode_table;
use crate::profile::{Feature, Profile};

/// Returns the class of the op whose code is this byte: an instruction, an `else` or an `end` (Core spec 5.4).
/// Returns `Float` if it begins a float instruction and the profile has no floats. Returns `None` if it is the
/// code of no op of the profile. This includes FC.
pub fn op_of(profile: Profile, byte: u8) -> OpClass
    // Each op of the profile whose code is the byte has this class. The class is that of an op of the profile
    // with this code.
    ensures found { (op : Op) → code op ≡ Some byte → IsOpOf profile op → result ≡ class_of op }
    ensures only { IsClassOfOp result → (op : Op) × (code op ≡ Some byte) × IsOpOf profile op
        × (class_of op ≡ result) }
    // `Float` means that the profile has no floats, and that the byte begins a float instruction.
    ensures float { IsFalse (has profile Floats) → (result ≡ OpClass.Float) ↔ IsTrue (is_float byte) }
    ensures floats { IsTrue (has profile Floats) → result ≡ OpClass.Float → ⊥ }
    ensures exact { result ≡ class_under profile byte }
{
    within(profile, class_at(byte), feature_at(byte))
}

/// Returns the class of the instruction whose bytes begin with FC and this number (WebAssembly 2.0, 5.4). Returns
/// `None` if the profile has no such instruction.
pub fn op_behind(profile: Profile, number: u32) -> OpClass
    ensures found { (op : Op) → code op ≡ Some (0x100 + number) → IsOpOf profile op → result ≡ class_of op }
    ensures only { IsClassOfOp result → (op : Op) × (code op ≡ Some (0x100 + number)) × IsOpOf profile op
        × (class_of op ≡ result) }
    ensures no_float { result ≡ OpClass.Float → ⊥ }
    ensures exact { result ≡ class_under profile (0x100 + number) }
{
    op_with(profile, 0x100 + number as usize)
}

/// Returns the class of the op with this code, as `op_of` does for a byte.
pub(crate) fn op_with(profile: Profile, wanted: usize) -> OpClass
    ensures { result ≡ class_under profile wanted }
{
    if wanted >= CLASSES.len() {
        return OpClass::None;
    }
    within(profile, CLASSES[wanted], FEATURES[wanted])
}

// Returns the class of a row under the profile. Most rows are of every profile, and then no feature is asked for.
#[inline(always)]
fn within(profile: Profile, class: OpClass, feature: Feature) -> OpClass
    requires { feature ≡ class_feature class }
    ensures { result ≡ class_in profile class }
{
    if matches!(feature, Feature::Base) || profile.has(feature) {
        class
    } else {
        without(feature)
    }
}

// The answer for the ops of a feature that the profile does not have.
fn without(feature: Feature) -> OpClass
    ensures { result ≡ left_out feature }
{
    match feature {
        Feature::Floats => OpClass::Float,
        _ => OpClass::None,
    }
}

// The class of a row, by its group.
macro_rules! class {
    ([reserved]) => {
        OpClass::None
    };
    ([structured] $op:ident) => {
        Plain(Op::$op)
    };
    ([plain] $op:ident) => {
        Plain(Op::Simple(Simple::$op))
    };
    ([load] $op:ident $($access:tt)*) => {
        With(Immediates::Access(Load(LoadOp::$op)))
    };
    ([store] $op:ident $($access:tt)*) => {
        With(Immediates::Access(Store(StoreOp::$op)))
    };
    ([structured] $op:ident block_type) => {
        With(Immediates::Block(BlockOp::$op))
    };
    ([$group:ident] $op:ident index) => {
        With(Immediates::Index(Indexed::$op))
    };
    ([plain] $op:ident zeros) => {
        With(Immediates::Memory(MemoryOp::$op))
    };
    ([plain] $op:ident tables) => {
        With(Immediates::$op)
    };
    ([number] $op:ident $immediates:ident) => {
        With(Immediates::$op)
    };
    ($group:tt $op:ident $($types:tt)*) => {
        Plain(Op::Simple(Numeric(numeric!($group $op))))
    };
}

// The numeric instruction of a row, by its group.
macro_rules! numeric {
    ([test $ty:ident] $op:ident) => {
        Test($ty)
    };
    ([compare $ty:ident] $op:ident) => {
        Compare($ty, Comparison::$op)
    };
    ([unary $ty:ident] $op:ident) => {
        Unary($ty, UnaryOp::$op)
    };
    ([binary $ty:ident] $op:ident) => {
        Binary($ty, BinaryOp::$op)
    };
    ([float_compare $ty:ident] $op:ident) => {
        FloatCompare($ty, FloatComparison::$op)
    };
    ([float_unary $ty:ident] $op:ident) => {
        FloatUnary($ty, FloatUnaryOp::$op)
    };
    ([float_binary $ty:ident] $op:ident) => {
        FloatBinary($ty, FloatBinaryOp::$op)
    };
    ([convert] $op:ident) => {
        Convert(Conversion::$op)
    };
    ([integer] $op:ident) => {
        NumericOp::$op
    };
    ([sign_extend] $op:ident) => {
        SignExtend(SignExtension::$op)
    };
    ([saturate] $op:ident) => {
        Saturate(Saturation::$op)
    };
}

macro_rules! class_table {
    ([] $($group:tt { $($code:literal $(=> $name:literal, $op:ident $(($($of:tt)*))?)?;)* })*) => {
        [$($(class!($group $($op $($($of)*)?)?),)*)*]
    };
}

// The class of each code under a profile that has all features.
static CLASSES: [OpClass; 271] = opcode_table!(all, class_table);

// The feature of a row, by its group.
macro_rules! feature {
    ([plain] MemoryCopy $zeros:ident) => {
        Feature::Copies
    };
    ([plain] MemoryFill $zeros:ident) => {
        Feature::Copies
    };
    ([number] MemoryInit $index:ident) => {
        Feature::BulkMemory
    };
    ([number] DataDrop $index:ident) => {
        Feature::BulkMemory
    };
    ([number] TableInit $index:ident) => {
        Feature::BulkMemory
    };
    ([number] ElemDrop $index:ident) => {
        Feature::BulkMemory
    };
    ([plain] TableCopy $tables:ident) => {
        Feature::BulkMemory
    };
    ([number] F32Const $bits:ident) => {
        Feature::Floats
    };
    ([number] F64Const $bits:ident) => {
        Feature::Floats
    };
    ([load] F32Load $($access:tt)*) => {
        Feature::Floats
    };
    ([load] F64Load $($access:tt)*) => {
        Feature::Floats
    };
    ([store] F32Store $($access:tt)*) => {
        Feature::Floats
    };
    ([store] F64Store $($access:tt)*) => {
        Feature::Floats
    };
    ([float_compare $ty:ident] $op:ident) => {
        Feature::Floats
    };
    ([float_unary $ty:ident] $op:ident) => {
        Feature::Floats
    };
    ([float_binary $ty:ident] $op:ident) => {
        Feature::Floats
    };
    ([convert] $($of:tt)*) => {
        Feature::Floats
    };
    ([sign_extend] $($of:tt)*) => {
        Feature::SignExtension
    };
    ([saturate] $($of:tt)*) => {
        Feature::Saturation
    };
    ($group:tt $($of:tt)*) => {
        Feature::Base
    };
}

macro_rules! feature_table {
    ([] $($group:tt { $($code:literal $(=> $name:literal, $op:ident $(($($of:tt)*))?)?;)* })*) => {
        [$($(feature!($group $($op $($($of)*)?)?),)*)*]
    };
}

// The feature of the ops with each code.
static FEATURES: [Feature; 271] = opcode_table!(all, feature_table);

// The feature of the ops with this code.
fn feature_at(byte: u8) -> Feature
    ensures { slice_get features byte ≡ Some result }
{
    FEATURES[byte as usize]
}

// The class of the byte under a profile that has all features.
fn class_at(byte: u8) -> OpClass
    ensures { slice_get classes byte ≡ Some result }
{
    CLASSES[byte as usize]
}

// The code of an op of a group whose ops are variants of one enum, before the arms for its other variants.
macro_rules! code_of {
    (
        [$ops:ident $op:ident $(($($others:tt)*))?]
        $({ $($code:literal => $name:literal, $variant:ident $(($($of:tt)*))?;)* })*
    ) => {
        match $op {
            $($($ops::$variant => $code,)*)*
            $($($others)*)?
        }
    };
}

// The code of an op of a group that also has a run for each of two types.
macro_rules! code_of_typed {
    (
        [$ops:ident $ty:ident $op:ident]
        $(($of:ident) { $($code:literal => $name:literal, $variant:ident;)* })*
    ) => {
        match $ty {
            $($of => match $op {
                $($ops::$variant => $code,)*
            },)*
        }
    };
}

// The code of the one op of a group, for each of two types.
macro_rules! code_of_type {
    ([$ty:ident] $(($of:ident) { $code:literal => $name:literal, $variant:ident; })*) => {
        match $ty {
            $($of => $code,)*
        }
    };
}

fn numeric_code(op: NumericOp) -> u16
    ensures { result ≡ (numeric op).code }
{
    match op {
        Test(ty) => opcode_table!(test, code_of_type, ty),
        Compare(ty, op) => opcode_table!(compare, code_of_typed, Comparison, ty, op),
        Unary(ty, op) => opcode_table!(unary, code_of_typed, UnaryOp, ty, op),
        Binary(ty, op) => opcode_table!(binary, code_of_typed, BinaryOp, ty, op),
        FloatCompare(ty, op) => {
            opcode_table!(float_compare, code_of_typed, FloatComparison, ty, op)
        }
        FloatUnary(ty, op) => opcode_table!(float_unary, code_of_typed, FloatUnaryOp, ty, op),
        FloatBinary(ty, op) => opcode_table!(float_binary, code_of_typed, FloatBinaryOp, ty, op),
        Convert(op) => opcode_table!(convert, code_of, Conversion, op),
        SignExtend(op) => opcode_table!(sign_extend, code_of, SignExtension, op),
        Saturate(op) => opcode_table!(saturate, code_of, Saturation, op),
        _ => opcode_table!(integer, code_of, NumericOp, op, (_ => unreachable!(),)),
    }
}

// The code of an instruction with a number.
macro_rules! code_of_number {
    ([$simple:ident] $({ $($code:literal => $name:literal, $op:ident($immediates:ident);)* })*) => {
        match $simple {
            $($(Simple::$op(_) => $code,)*)*
            _ => unreachable!(),
        }
    };
}

/// Returns the code of an instruction (Core spec 5.4). It is below 0x100 if it is one byte, and below 0x10F if two.
pub fn code(simple: Simple) -> u16
    ensures value { result ≡ (opcode simple).0 }
    ensures range { result < 0x10F }
    ensures byte { code_len simple ≡ 1 → result < 0x100 }
    ensures prefixed { code_len simple ≡ 2 → 0x100 ≤ result }
{
    simple_code(simple)
}

fn simple_code(simple: Simple) -> u16
    ensures { result ≡ (opcode simple).0 }
{
    opcode_table!(
        plain,
        code_of,
        Simple,
        simple,
        (
            Simple::Load(op, _) => opcode_table!(load, code_of, LoadOp, op),
            Simple::Store(op, _) => opcode_table!(store, code_of, StoreOp, op),
            Numeric(op) => numeric_code(op),
            _ => opcode_table!(number, code_of_number, simple),
        )
    )
}
