//! Tests of float literals. A row has a width, an atom, ` = `, and the bits that the atom writes, or `none`.

use crate::scripts::{Scripted, play, shown, unknown, word_of};
use std::alloc::Global;
use std::process::Abort;
use wm_floats::atoms::{float_of, has_form};
use wm_syntax::instructions::FloatType;

/// A hundred zeros, written `{z}` in a row.
const ZEROS: &str = "00000000000000000000000000000000000000000000000000\
    00000000000000000000000000000000000000000000000000";

// Halfway points between two floats, with and without a digit far after the point; the smallest and largest floats.
const DECIMALS: &str = "f32 0 = 0
f32 -0 = 80000000
f32 1 = 3F800000
f32 1. = 3F800000
f32 1.5 = 3FC00000
f32 +1.5 = 3FC00000
f32 -1.5 = BFC00000
f32 1_0.2_5 = 41240000
f32 1.5e1 = 41700000
f32 1.5E+1 = 41700000
f32 15e-1 = 3FC00000
f32 1_5e-0_1 = 3FC00000
f32 0.1 = 3DCCCCCD
f32 16777216 = 4B800000
f32 16777217 = 4B800000
f32 16777219 = 4B800002
f32 16777217.{z} = 4B800000
f32 16777217.{z}1 = 4B800001
f32 16777216.99 = 4B800000
f32 1e-45 = 1
f32 7.006492321624085e-46 = 0
f32 7e-46 = 0
f32 1.1754942e-38 = 7FFFFF
f32 1.17549435e-38 = 800000
f32 3.4028234e38 = 7F7FFFFF
f32 3.4028235677973366e38 = 7F7FFFFF
f32 340282356779733661637539395458142568447 = 7F7FFFFF
f32 340282356779733661637539395458142568448 = none
f32 1e39 = none
f32 1e-400 = 0
f32 1e999999999999999999999999 = none
f32 0e999999999999999999999999 = 0
f64 0 = 0
f64 0.1 = 3FB999999999999A
f64 1e23 = 44B52D02C7E14AF6
f64 9007199254740993 = 4340000000000000
f64 9007199254740993.{z}{z}{z}{z}{z}{z}{z}{z} = 4340000000000000
f64 9007199254740993.{z}{z}{z}{z}{z}{z}{z}{z}1 = 4340000000000001
f64 9_007_199_254_740_993.{z}{z}{z}{z}{z}{z}{z}{z}_1 = 4340000000000001
f64 4.9406564584124654e-324 = 1
f64 2.4703282292062327e-324 = 0
f64 2.4703282292062328e-324 = 1
f64 2.2250738585072011e-308 = FFFFFFFFFFFFF
f64 2.2250738585072014e-308 = 10000000000000
f64 1.7976931348623157e308 = 7FEFFFFFFFFFFFFF
f64 1.7976931348623158e308 = 7FEFFFFFFFFFFFFF
f64 1.7976931348623159e308 = none
f64 1e308 = 7FE1CCF385EBC8A0
f64 1e309 = none
f64 1e400 = none
f64 -1e400 = none
f64 1e-400 = 0
f64 {z}1 = 3FF0000000000000
f64 0.{z}1e1_01 = 3FF0000000000000
f64 1.e1 = 4024000000000000";

const HEXADECIMALS: &str = "f32 0x0 = 0
f32 0x1 = 3F800000
f32 0x1.8 = 3FC00000
f32 0xA.bp-1_0 = 3C2B0000
f32 -0x1P+3 = C1000000
f32 0x1.000001 = 3F800000
f32 0x1.000003 = 3F800002
f32 0x1.0000010{z}1 = 3F800001
f32 0x1p-149 = 1
f32 0x1p-150 = 0
f32 0x1.8p-150 = 1
f32 0x0.000002p-126 = 1
f32 0x1.fffffep127 = 7F7FFFFF
f32 0x1.fffffefp127 = 7F7FFFFF
f32 0x1.ffffffp127 = none
f32 0x1p128 = none
f64 0x1.fffffffffffffp1023 = 7FEFFFFFFFFFFFFF
f64 0x1.fffffffffffff7p1023 = 7FEFFFFFFFFFFFFF
f64 0x1.fffffffffffff8p1023 = none
f64 0x1p-1074 = 1
f64 0x1p-1075 = 0
f64 0x1.0000000000001p-1075 = 1
f64 0x1{z}p-400 = 3FF0000000000000
f64 0x0.{z}1p404 = 3FF0000000000000
f64 0x1_0.0_8p0 = 4030080000000000
f64 0x1p99999999999999999999 = none
f64 0x1p-99999999999999999999 = 0
f64 0x0.0p99999999999999999999 = 0
f64 0x0p-99999999999999999999 = 0
f64 0x1p72057594037927936 = none
f64 0x1p-72057594037927936 = 0
f64 0x1e1 = 407E100000000000
f64 0x1.p1 = 4000000000000000";

const OTHERS: &str = "f32 inf = 7F800000
f32 -inf = FF800000
f32 nan = 7FC00000
f32 -nan = FFC00000
f32 nan:0x1 = 7F800001
f32 nan:0x40_0000 = 7FC00000
f32 -nan:0x7fffff = FFFFFFFF
f32 nan:0x800000 = none
f32 nan:0x0 = none
f64 +inf = 7FF0000000000000
f64 nan = 7FF8000000000000
f64 nan:0xf_ffff_ffff_ffff = 7FFFFFFFFFFFFFFF
f64 nan:0x10_0000_0000_0000 = none
f64 nan:0x1_0000_0000_0000_0001 = none
f64 -nan:0x4 = FFF0000000000004
f64 nan:0x = none
f64 nan:0x_1 = none
f64 nan:1 = none
f64 infinity = none
f64 Inf = none
f64 .5 = none
f64 1e = none
f64 1e+ = none
f64 1._5 = none
f64 1_.5 = none
f64 1__0 = none
f64 _1 = none
f64 1_ = none
f64 1.5_ = none
f64 1e_1 = none
f64 1e1_ = none
f64 1.5.2 = none
f64 1e1.5 = none
f64 1e1e1 = none
f64 0x = none
f64 0x.8 = none
f64 0x1p = none
f64 0x1p1p1 = none
f64 0xg = none
f64 0X1 = none
f64 1p1 = none
f64 --1 = none
f64 +-1 = none
f64 + = none
f64 a = none";

const FORMS: &str = "form 0 = true
form 1e400 = true
form 1_0.5e-1_0 = true
form 0xAp99999999999999999999 = true
form inf = true
form nan = true
form nan:0x0 = true
form nan:0x1_0000_0000_0000_0000_0 = true
form +1 = false
form 1__0 = false
form 1e = false
form 0x = false
form 0x1.p_1 = false
form nan: = false
form infx = false";

const SCRIPTS: [&str; 4] = [DECIMALS, HEXADECIMALS, OTHERS, FORMS];

/// Calls on an atom.
#[derive(Drop)]
struct FloatAtoms;

impl Scripted for FloatAtoms {
    fn answer<A: Abort>(&mut self, rt: &A, alloc: Global, call: &str) -> String {
        let call = call.replace(alloc, "{z}", ZEROS).expect(rt, "memory");
        let (word, atom) = word_of(call.as_str());
        let atom = atom.as_bytes();
        match word {
            "f32" => bits_of(rt, alloc, FloatType::F32, atom),
            "f64" => bits_of(rt, alloc, FloatType::F64, atom),
            "form" => shown(rt, alloc, has_form(atom)),
            _ => unknown(rt, word),
        }
    }
}

fn bits_of(rt: &impl Abort, alloc: Global, width: FloatType, atom: &[u8]) -> String {
    match float_of(alloc, width, atom).expect(rt, "memory") {
        Some(bits) => format!(in alloc; "{bits:X}").expect(rt, "memory"),
        None => format!(in alloc; "none").expect(rt, "memory"),
    }
}

#[test]
fn atoms(rt: HostRuntime) {
    for script in SCRIPTS {
        play(&rt, rt.alloc(), &mut FloatAtoms, script);
    }
}
