//! Tests of the names of instructions.

use crate::scripts::{Scripted, play_each, shown, word_of};
use crate::syntax::scripts::{byte_of, profile_of};
use std::alloc::Global;
use std::process::Abort;
use std::str::from_utf8;
use wm_syntax::instructions::op_names::{name_of, op_named};
use wm_syntax::instructions::opcodes::{op_behind, op_of};
use wm_syntax::profile::{Feature, Profile};

/// Returns the name of a code, or what a keyword names under a profile.
#[derive(Drop)]
struct Names;

impl Scripted for Names {
    fn answer<A: Abort>(&mut self, rt: &A, alloc: Global, call: &str) -> String {
        let (word, with) = word_of(call);
        match word {
            "name_of" => named(rt, alloc, code_of(rt, with)),
            _ => naming(rt, alloc, word, with),
        }
    }
}

fn code_of(rt: &impl Abort, digits: &str) -> u16 {
    u16::from_str_radix(digits, 16).expect(rt, "a code")
}

fn named(rt: &impl Abort, alloc: Global, code: u16) -> String {
    let name = from_utf8(name_of(code)).expect(rt, "text");
    shown(rt, alloc, name)
}

fn naming(rt: &impl Abort, alloc: Global, profile: &str, word: &str) -> String {
    let profile = profile_of(rt, profile);
    shown(rt, alloc, op_named(profile, word.as_bytes()))
}

// Profiles `TWO` and `FOUR` have sign extension; `THREE` and `FOUR` have floats. An instruction that a profile lacks is
// `Float` if it is on floats, and else `None`.
#[test]
fn names_of_bytes_and_what_words_name(rt: HostRuntime) {
    play_each(
        &rt,
        rt.alloc(),
        &mut Names,
        r#"name_of 00 = "unreachable"
name_of 0B = "end"
name_of 6A = "i32.add"
name_of 2A = "f32.load"
name_of 44 = "f64.const"
name_of 98 = "f32.copysign"
name_of BF = "f64.reinterpret_i64"
name_of FF = ""
name_of 100 = "i32.trunc_sat_f32_s"
name_of 10B = "memory.fill"
name_of 108 = "memory.init"
name_of 109 = "data.drop"
name_of 10C = "table.init"
name_of 10D = "elem.drop"
name_of 10E = "table.copy"
name_of FC, name_of 10F, name_of FFFF = ""
ONE block = With(Block(Block))
ONE unreachable = Plain(Simple(Unreachable))
ONE i64.load32_u = With(Access(Load(I64Load32U)))
ONE end = Plain(End)
ONE = None
ONE i32.ad = None
ONE f32.add, TWO f32.add, ONE i32.trunc_f64_s, TWO f64.load = Float
ONE f32.ad, THREE f32.ad, FOUR f64 = None
ONE i64.extend32_s, THREE i64.extend32_s = None
TWO i64.extend32_s, FOUR i64.extend32_s = Plain(Simple(Numeric(SignExtend(I64From32))))
THREE f32.load = With(Access(Load(F32Load)))
THREE f64.load = With(Access(Load(F64Load)))
THREE f32.store = With(Access(Store(F32Store)))
THREE f64.store = With(Access(Store(F64Store)))
THREE f32.const = With(F32Const)
THREE f64.const = With(F64Const)
THREE f32.eq = Plain(Simple(Numeric(FloatCompare(F32, Eq))))
THREE f32.ne = Plain(Simple(Numeric(FloatCompare(F32, Ne))))
THREE f32.lt = Plain(Simple(Numeric(FloatCompare(F32, Lt))))
THREE f32.gt = Plain(Simple(Numeric(FloatCompare(F32, Gt))))
THREE f32.le = Plain(Simple(Numeric(FloatCompare(F32, Le))))
THREE f32.ge = Plain(Simple(Numeric(FloatCompare(F32, Ge))))
THREE f64.eq = Plain(Simple(Numeric(FloatCompare(F64, Eq))))
THREE f64.ne = Plain(Simple(Numeric(FloatCompare(F64, Ne))))
THREE f64.lt = Plain(Simple(Numeric(FloatCompare(F64, Lt))))
THREE f64.gt = Plain(Simple(Numeric(FloatCompare(F64, Gt))))
THREE f64.le = Plain(Simple(Numeric(FloatCompare(F64, Le))))
THREE f64.ge = Plain(Simple(Numeric(FloatCompare(F64, Ge))))
THREE f32.abs = Plain(Simple(Numeric(FloatUnary(F32, Abs))))
THREE f32.neg = Plain(Simple(Numeric(FloatUnary(F32, Neg))))
THREE f32.ceil = Plain(Simple(Numeric(FloatUnary(F32, Ceil))))
THREE f32.floor = Plain(Simple(Numeric(FloatUnary(F32, Floor))))
THREE f32.trunc = Plain(Simple(Numeric(FloatUnary(F32, Trunc))))
THREE f32.nearest = Plain(Simple(Numeric(FloatUnary(F32, Nearest))))
THREE f32.sqrt = Plain(Simple(Numeric(FloatUnary(F32, Sqrt))))
THREE f32.add = Plain(Simple(Numeric(FloatBinary(F32, Add))))
THREE f32.sub = Plain(Simple(Numeric(FloatBinary(F32, Sub))))
THREE f32.mul = Plain(Simple(Numeric(FloatBinary(F32, Mul))))
THREE f32.div = Plain(Simple(Numeric(FloatBinary(F32, Div))))
THREE f32.min = Plain(Simple(Numeric(FloatBinary(F32, Min))))
THREE f32.max = Plain(Simple(Numeric(FloatBinary(F32, Max))))
THREE f32.copysign = Plain(Simple(Numeric(FloatBinary(F32, Copysign))))
THREE f64.abs = Plain(Simple(Numeric(FloatUnary(F64, Abs))))
THREE f64.neg = Plain(Simple(Numeric(FloatUnary(F64, Neg))))
THREE f64.ceil = Plain(Simple(Numeric(FloatUnary(F64, Ceil))))
THREE f64.floor = Plain(Simple(Numeric(FloatUnary(F64, Floor))))
THREE f64.trunc = Plain(Simple(Numeric(FloatUnary(F64, Trunc))))
THREE f64.nearest = Plain(Simple(Numeric(FloatUnary(F64, Nearest))))
THREE f64.sqrt = Plain(Simple(Numeric(FloatUnary(F64, Sqrt))))
THREE f64.add = Plain(Simple(Numeric(FloatBinary(F64, Add))))
THREE f64.sub = Plain(Simple(Numeric(FloatBinary(F64, Sub))))
THREE f64.mul = Plain(Simple(Numeric(FloatBinary(F64, Mul))))
THREE f64.div = Plain(Simple(Numeric(FloatBinary(F64, Div))))
THREE f64.min = Plain(Simple(Numeric(FloatBinary(F64, Min))))
THREE f64.max = Plain(Simple(Numeric(FloatBinary(F64, Max))))
THREE f64.copysign = Plain(Simple(Numeric(FloatBinary(F64, Copysign))))
THREE i32.trunc_f32_s = Plain(Simple(Numeric(Convert(I32TruncF32S))))
THREE i32.trunc_f32_u = Plain(Simple(Numeric(Convert(I32TruncF32U))))
THREE i32.trunc_f64_s = Plain(Simple(Numeric(Convert(I32TruncF64S))))
THREE i32.trunc_f64_u = Plain(Simple(Numeric(Convert(I32TruncF64U))))
THREE i64.trunc_f32_s = Plain(Simple(Numeric(Convert(I64TruncF32S))))
THREE i64.trunc_f32_u = Plain(Simple(Numeric(Convert(I64TruncF32U))))
THREE i64.trunc_f64_s = Plain(Simple(Numeric(Convert(I64TruncF64S))))
THREE i64.trunc_f64_u = Plain(Simple(Numeric(Convert(I64TruncF64U))))
THREE f32.convert_i32_s = Plain(Simple(Numeric(Convert(F32ConvertI32S))))
THREE f32.convert_i32_u = Plain(Simple(Numeric(Convert(F32ConvertI32U))))
THREE f32.convert_i64_s = Plain(Simple(Numeric(Convert(F32ConvertI64S))))
THREE f32.convert_i64_u = Plain(Simple(Numeric(Convert(F32ConvertI64U))))
THREE f32.demote_f64 = Plain(Simple(Numeric(Convert(F32DemoteF64))))
THREE f64.convert_i32_s = Plain(Simple(Numeric(Convert(F64ConvertI32S))))
THREE f64.convert_i32_u = Plain(Simple(Numeric(Convert(F64ConvertI32U))))
THREE f64.convert_i64_s = Plain(Simple(Numeric(Convert(F64ConvertI64S))))
THREE f64.convert_i64_u = Plain(Simple(Numeric(Convert(F64ConvertI64U))))
THREE f64.promote_f32 = Plain(Simple(Numeric(Convert(F64PromoteF32))))
THREE i32.reinterpret_f32 = Plain(Simple(Numeric(Convert(I32ReinterpretF32))))
THREE i64.reinterpret_f64 = Plain(Simple(Numeric(Convert(I64ReinterpretF64))))
THREE f32.reinterpret_i32 = Plain(Simple(Numeric(Convert(F32ReinterpretI32))))
THREE f64.reinterpret_i64 = Plain(Simple(Numeric(Convert(F64ReinterpretI64))))"#,
    );
}

// The name of each instruction names the instruction.
#[test]
fn names_lead_back(rt: HostRuntime) {
    let profile = Profile::FOUR
        .with(Feature::Saturation)
        .with(Feature::Copies)
        .with(Feature::BulkMemory);
    for code in 0..0x200_u16 {
        let name = name_of(code);
        if !name.is_empty() {
            let class = if code < 0x100 {
                op_of(profile, code as u8)
            } else {
                op_behind(profile, u32::from(code) - 0x100)
            };
            assert!(rt; op_named(profile, name) == class);
        }
    }
}
