//! The op of a group that a first byte begins; ops of two types share one function. Core spec 5.4.4, 5.4.5.

ghost use Rattle.std.specs.Prelude.{◌≢◌, ◌≤◌, ◌⊎◌};
ghost use Rattle.wm_shortcuts.specs.exact.WholeOps.{HasAccess, HasNumeric};

use wm_syntax::instructions::op_class::LoadOrStore;
use wm_syntax::instructions::{
    BinaryOp, Comparison, Conversion, FloatBinaryOp, FloatComparison, FloatType, FloatUnaryOp,
    IntType, LoadOp, Numeric, Saturation, SignExtension, StoreOp, UnaryOp,
};
use wm_syntax::opcode_table;

// The op of a group with this code, by its row in the table.
macro_rules! op_by_code {
    (
        [$ops:ident $wanted:ident]
        $($(($ty:ident))? { $($code:literal => $name:literal, $variant:ident $(($($of:tt)*))?;)* })*
    ) => {
        match $wanted {
            $($($code => $ops::$variant,)*)*
            _ => unreachable!(),
        }
    };
}

#[inline(always)]
pub(crate) fn narrow_load(byte: u8) -> LoadOp
    requires from { 0x2C ≤ byte }
    requires to { byte ≤ 0x35 }
    ensures { HasAccess byte (LoadOrStore.Load result) }
{
    opcode_table!(load, op_by_code, LoadOp, byte)
}

#[inline(always)]
pub(crate) fn narrow_store(byte: u8) -> StoreOp
    requires from { 0x3A ≤ byte }
    requires to { byte ≤ 0x3E }
    ensures { HasAccess byte (LoadOrStore.Store result) }
{
    opcode_table!(store, op_by_code, StoreOp, byte)
}

#[inline(always)]
pub(crate) fn comparison(byte: u8) -> Comparison
    requires { ((0x46 ≤ byte) × (byte ≤ 0x4F)) ⊎ ((0x51 ≤ byte) × (byte ≤ 0x5A)) }
    ensures i32 { byte ≤ 0x4F → HasNumeric byte (Numeric.Compare IntType.I32 result) }
    ensures i64 { 0x51 ≤ byte → HasNumeric byte (Numeric.Compare IntType.I64 result) }
{
    opcode_table!(compare, op_by_code, Comparison, byte)
}

#[inline(always)]
pub(crate) fn unary(byte: u8) -> UnaryOp
    requires { ((0x67 ≤ byte) × (byte ≤ 0x69)) ⊎ ((0x79 ≤ byte) × (byte ≤ 0x7B)) }
    ensures i32 { byte ≤ 0x69 → HasNumeric byte (Numeric.Unary IntType.I32 result) }
    ensures i64 { 0x79 ≤ byte → HasNumeric byte (Numeric.Unary IntType.I64 result) }
{
    opcode_table!(unary, op_by_code, UnaryOp, byte)
}

#[inline(always)]
pub(crate) fn binary(byte: u8) -> BinaryOp
    requires { ((0x6A ≤ byte) × (byte ≤ 0x78)) ⊎ ((0x7C ≤ byte) × (byte ≤ 0x8A)) }
    ensures i32 { byte ≤ 0x78 → HasNumeric byte (Numeric.Binary IntType.I32 result) }
    ensures i64 { 0x7C ≤ byte → HasNumeric byte (Numeric.Binary IntType.I64 result) }
{
    opcode_table!(binary, op_by_code, BinaryOp, byte)
}

#[inline(always)]
pub(crate) fn float_comparison(byte: u8) -> FloatComparison
    requires from { 0x5B ≤ byte }
    requires to { byte ≤ 0x66 }
    ensures f32 { byte ≤ 0x60 → HasNumeric byte (Numeric.FloatCompare FloatType.F32 result) }
    ensures f64 { 0x61 ≤ byte → HasNumeric byte (Numeric.FloatCompare FloatType.F64 result) }
{
    opcode_table!(float_compare, op_by_code, FloatComparison, byte)
}

#[inline(always)]
pub(crate) fn float_unary(byte: u8) -> FloatUnaryOp
    requires { ((0x8B ≤ byte) × (byte ≤ 0x91)) ⊎ ((0x99 ≤ byte) × (byte ≤ 0x9F)) }
    ensures f32 { byte ≤ 0x91 → HasNumeric byte (Numeric.FloatUnary FloatType.F32 result) }
    ensures f64 { 0x99 ≤ byte → HasNumeric byte (Numeric.FloatUnary FloatType.F64 result) }
{
    opcode_table!(float_unary, op_by_code, FloatUnaryOp, byte)
}

#[inline(always)]
pub(crate) fn float_binary(byte: u8) -> FloatBinaryOp
    requires { ((0x92 ≤ byte) × (byte ≤ 0x98)) ⊎ ((0xA0 ≤ byte) × (byte ≤ 0xA6)) }
    ensures f32 { byte ≤ 0x98 → HasNumeric byte (Numeric.FloatBinary FloatType.F32 result) }
    ensures f64 { 0xA0 ≤ byte → HasNumeric byte (Numeric.FloatBinary FloatType.F64 result) }
{
    opcode_table!(float_binary, op_by_code, FloatBinaryOp, byte)
}

// All conversions from 0xA8 on, except 0xAC and 0xAD, which extend an i32
#[inline(always)]
pub(crate) fn conversion(byte: u8) -> Conversion
    requires from { 0xA8 ≤ byte }
    requires to { byte ≤ 0xBF }
    requires signed { byte ≢ 0xAC }
    requires unsigned { byte ≢ 0xAD }
    ensures { HasNumeric byte (Numeric.Convert result) }
{
    opcode_table!(convert, op_by_code, Conversion, byte)
}

#[inline(always)]
pub(crate) fn sign_extension(byte: u8) -> SignExtension
    requires from { 0xC0 ≤ byte }
    requires to { byte ≤ 0xC4 }
    ensures { HasNumeric byte (Numeric.SignExtend result) }
{
    opcode_table!(sign_extend, op_by_code, SignExtension, byte)
}

#[inline(always)]
pub(crate) fn saturation(code: u16) -> Saturation
    requires from { 0x100 ≤ code }
    requires to { code ≤ 0x107 }
    ensures { HasNumeric code (Numeric.Saturate result) }
{
    opcode_table!(saturate, op_by_code, Saturation, code)
}
