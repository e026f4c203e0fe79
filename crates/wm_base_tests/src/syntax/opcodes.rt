//! Tests of the table of codes.

use crate::scripts::{Scripted, play_each, shown, type_of, unknown, word_of};
use crate::syntax::scripts::{byte_of, profile_of};
use std::alloc::Global;
use std::process::Abort;
use wm_syntax::instructions::opcodes::{op_behind, op_of};
use wm_syntax::instructions::{FloatType, IntType};
use wm_syntax::profile::{Feature, Profile};
use wm_syntax::types::ValType;

/// Returns what a byte begins under a profile, what a number behind FC begins under one, the feature of a value type,
/// or the value type of an operand type.
#[derive(Drop)]
struct Opcodes;

impl Scripted for Opcodes {
    fn answer<A: Abort>(&mut self, rt: &A, alloc: Global, call: &str) -> String {
        let (word, with) = word_of(call);
        match word {
            "feature" => shown(rt, alloc, type_of(rt, with).feature()),
            "ty" => shown(rt, alloc, ty_of(rt, with)),
            "behind" => behind(rt, alloc, with),
            _ => begun(rt, alloc, word, with),
        }
    }
}

fn begun(rt: &impl Abort, alloc: Global, profile: &str, byte: &str) -> String {
    let profile = profile_of(rt, profile);
    shown(rt, alloc, op_of(profile, byte_of(rt, byte)))
}

// Returns the class of the op behind FC with the number in the second word, under the feature in the first word.
fn behind(rt: &impl Abort, alloc: Global, words: &str) -> String {
    let (feature, number) = word_of(words);
    let profile = match feature {
        "none" => Profile::FOUR,
        "saturation" => Profile::ONE.with(Feature::Saturation),
        "copies" => Profile::ONE.with(Feature::Copies),
        "bulk" => Profile::ONE.with(Feature::BulkMemory),
        _ => unknown(rt, feature),
    };
    let number = u32::from_str_radix(number, 16).expect(rt, "a number");
    shown(rt, alloc, op_behind(profile, number))
}

fn ty_of(rt: &impl Abort, word: &str) -> ValType {
    match word {
        "I32" => IntType::I32.ty(),
        "I64" => IntType::I64.ty(),
        "F32" => FloatType::F32.ty(),
        "F64" => FloatType::F64.ty(),
        _ => unknown(rt, word),
    }
}

// Profiles `TWO` and `FOUR` have sign extension; `THREE` and `FOUR` have floats.
#[test]
fn first_bytes(rt: HostRuntime) {
    play_each(
        &rt,
        rt.alloc(),
        &mut Opcodes,
        "ONE 00 = Plain(Simple(Unreachable))
ONE 05 = Plain(Else)
ONE 0B = Plain(End)
ONE 0E = With(Index(BrTable))
ONE 35 = With(Access(Load(I64Load32U)))
ONE 6A = Plain(Simple(Numeric(Binary(I32, Add))))
ONE 2A = Float
ONE 06 = None
feature I32, feature I64 = Base
feature F32, feature F64 = Floats
ty I32 = I32
ty I64 = I64
ty F32 = F32
ty F64 = F64
ONE C4 = None
TWO C4 = Plain(Simple(Numeric(SignExtend(I64From32))))
TWO C5 = None
ONE 43, TWO 43, ONE 8B, TWO 8B, ONE BF, TWO BF = Float
THREE C4, THREE C5, FOUR C5 = None
FOUR C4 = Plain(Simple(Numeric(SignExtend(I64From32))))
FOUR 43 = With(F32Const)
FOUR FC = None
behind none 0, behind copies 0, behind saturation 8, behind saturation A = None
behind none A, behind none B, behind copies 9, behind copies C, behind copies FFFFFFFF = None
behind none 8, behind none 9, behind copies 8, behind bulk 0, behind bulk A, behind bulk F = None
behind none C, behind none D, behind none E, behind copies E = None
behind saturation 0 = Plain(Simple(Numeric(Saturate(I32TruncSatF32S))))
behind saturation 7 = Plain(Simple(Numeric(Saturate(I64TruncSatF64U))))
behind copies A = With(Memory(MemoryCopy))
behind copies B = With(Memory(MemoryFill))
behind bulk 8 = With(MemoryInit)
behind bulk 9 = With(Index(DataDrop))
behind bulk C = With(TableInit)
behind bulk D = With(Index(ElemDrop))
behind bulk E = With(TableCopy)
FOUR 8B = Plain(Simple(Numeric(FloatUnary(F32, Abs))))
THREE 2A = With(Access(Load(F32Load)))
THREE 2B = With(Access(Load(F64Load)))
THREE 38 = With(Access(Store(F32Store)))
THREE 39 = With(Access(Store(F64Store)))
THREE 43 = With(F32Const)
THREE 44 = With(F64Const)
THREE 5B = Plain(Simple(Numeric(FloatCompare(F32, Eq))))
THREE 5C = Plain(Simple(Numeric(FloatCompare(F32, Ne))))
THREE 5D = Plain(Simple(Numeric(FloatCompare(F32, Lt))))
THREE 5E = Plain(Simple(Numeric(FloatCompare(F32, Gt))))
THREE 5F = Plain(Simple(Numeric(FloatCompare(F32, Le))))
THREE 60 = Plain(Simple(Numeric(FloatCompare(F32, Ge))))
THREE 61 = Plain(Simple(Numeric(FloatCompare(F64, Eq))))
THREE 62 = Plain(Simple(Numeric(FloatCompare(F64, Ne))))
THREE 63 = Plain(Simple(Numeric(FloatCompare(F64, Lt))))
THREE 64 = Plain(Simple(Numeric(FloatCompare(F64, Gt))))
THREE 65 = Plain(Simple(Numeric(FloatCompare(F64, Le))))
THREE 66 = Plain(Simple(Numeric(FloatCompare(F64, Ge))))
THREE 8B = Plain(Simple(Numeric(FloatUnary(F32, Abs))))
THREE 8C = Plain(Simple(Numeric(FloatUnary(F32, Neg))))
THREE 8D = Plain(Simple(Numeric(FloatUnary(F32, Ceil))))
THREE 8E = Plain(Simple(Numeric(FloatUnary(F32, Floor))))
THREE 8F = Plain(Simple(Numeric(FloatUnary(F32, Trunc))))
THREE 90 = Plain(Simple(Numeric(FloatUnary(F32, Nearest))))
THREE 91 = Plain(Simple(Numeric(FloatUnary(F32, Sqrt))))
THREE 92 = Plain(Simple(Numeric(FloatBinary(F32, Add))))
THREE 93 = Plain(Simple(Numeric(FloatBinary(F32, Sub))))
THREE 94 = Plain(Simple(Numeric(FloatBinary(F32, Mul))))
THREE 95 = Plain(Simple(Numeric(FloatBinary(F32, Div))))
THREE 96 = Plain(Simple(Numeric(FloatBinary(F32, Min))))
THREE 97 = Plain(Simple(Numeric(FloatBinary(F32, Max))))
THREE 98 = Plain(Simple(Numeric(FloatBinary(F32, Copysign))))
THREE 99 = Plain(Simple(Numeric(FloatUnary(F64, Abs))))
THREE 9A = Plain(Simple(Numeric(FloatUnary(F64, Neg))))
THREE 9B = Plain(Simple(Numeric(FloatUnary(F64, Ceil))))
THREE 9C = Plain(Simple(Numeric(FloatUnary(F64, Floor))))
THREE 9D = Plain(Simple(Numeric(FloatUnary(F64, Trunc))))
THREE 9E = Plain(Simple(Numeric(FloatUnary(F64, Nearest))))
THREE 9F = Plain(Simple(Numeric(FloatUnary(F64, Sqrt))))
THREE A0 = Plain(Simple(Numeric(FloatBinary(F64, Add))))
THREE A1 = Plain(Simple(Numeric(FloatBinary(F64, Sub))))
THREE A2 = Plain(Simple(Numeric(FloatBinary(F64, Mul))))
THREE A3 = Plain(Simple(Numeric(FloatBinary(F64, Div))))
THREE A4 = Plain(Simple(Numeric(FloatBinary(F64, Min))))
THREE A5 = Plain(Simple(Numeric(FloatBinary(F64, Max))))
THREE A6 = Plain(Simple(Numeric(FloatBinary(F64, Copysign))))
THREE A8 = Plain(Simple(Numeric(Convert(I32TruncF32S))))
THREE A9 = Plain(Simple(Numeric(Convert(I32TruncF32U))))
THREE AA = Plain(Simple(Numeric(Convert(I32TruncF64S))))
THREE AB = Plain(Simple(Numeric(Convert(I32TruncF64U))))
THREE AE = Plain(Simple(Numeric(Convert(I64TruncF32S))))
THREE AF = Plain(Simple(Numeric(Convert(I64TruncF32U))))
THREE B0 = Plain(Simple(Numeric(Convert(I64TruncF64S))))
THREE B1 = Plain(Simple(Numeric(Convert(I64TruncF64U))))
THREE B2 = Plain(Simple(Numeric(Convert(F32ConvertI32S))))
THREE B3 = Plain(Simple(Numeric(Convert(F32ConvertI32U))))
THREE B4 = Plain(Simple(Numeric(Convert(F32ConvertI64S))))
THREE B5 = Plain(Simple(Numeric(Convert(F32ConvertI64U))))
THREE B6 = Plain(Simple(Numeric(Convert(F32DemoteF64))))
THREE B7 = Plain(Simple(Numeric(Convert(F64ConvertI32S))))
THREE B8 = Plain(Simple(Numeric(Convert(F64ConvertI32U))))
THREE B9 = Plain(Simple(Numeric(Convert(F64ConvertI64S))))
THREE BA = Plain(Simple(Numeric(Convert(F64ConvertI64U))))
THREE BB = Plain(Simple(Numeric(Convert(F64PromoteF32))))
THREE BC = Plain(Simple(Numeric(Convert(I32ReinterpretF32))))
THREE BD = Plain(Simple(Numeric(Convert(I64ReinterpretF64))))
THREE BE = Plain(Simple(Numeric(Convert(F32ReinterpretI32))))
THREE BF = Plain(Simple(Numeric(Convert(F64ReinterpretI64))))",
    );
}
