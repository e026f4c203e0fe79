//! Tests of the typing of bodies, and of their statistics.

ghost use Rattle.std.specs.Prelude.{◌<◌, ◌^◌, length};

use crate::scripts::{Scripted, number_of, parts_of, play, shown, type_of};
use crate::typing::ops::{given_of, ops_of, types_of};
use std::alloc::Global;
use std::process::Abort;
use wm_syntax::instructions::Op;
use wm_syntax::types::{GlobalType, ValType};
use wm_syntax::why::Why;
use wm_typing::bodies::check_body;
use wm_typing::context::Context;
use wm_typing::func_types::FuncTypes;
use wm_typing::stats::BodyStats;

mod body_checker;
mod ops;

// Checks a body in a module with a memory, an element segment, two data segments and a constant global. Its function 0
// has three i32 parameters and no result.
fn check(
    alloc: Global,
    params: &[ValType],
    given: Option<ValType>,
    runs: &[(u32, ValType)],
    ops: &[Op],
) -> Result<BodyStats, Why>
    requires { length ops.now < 2 ^ 62 }
{
    let mut types = FuncTypes::new(alloc);
    types.push(params, given)?;
    types.push(&[ValType::I32, ValType::I32, ValType::I32], None)?;
    let globals = [GlobalType {
        ty: ValType::I32,
        var: false,
    }];
    let context = Context::new(&types, &[1], &globals, false, true, 1, 2);
    check_body(alloc, &context, 0, runs, ops)
}

/// Checks a function. `i32 -> i32 | 2*i64: local.get 0, end` has a parameter, a result and two declared locals.
#[derive(Drop)]
struct Checks;

impl Scripted for Checks {
    fn answer<A: Abort>(&mut self, rt: &A, alloc: Global, call: &str) -> String {
        let (head, ops) = parts_of(rt, call, ": ");
        let ops = ops_of(rt, alloc, ops);
        shown(rt, alloc, check_under(rt, alloc, head, &ops))
    }
}

fn check_under(rt: &impl Abort, alloc: Global, head: &str, ops: &[Op]) -> Result<BodyStats, Why> {
    assert!(rt; ops.len() < 100);
    let (params, rest) = parts_of(rt, head, "->");
    let (given, runs) = parts_of(rt, rest, "|");
    let params = types_of(rt, alloc, params);
    let runs = runs_of(rt, alloc, runs);
    check(alloc, &params, given_of(rt, given.trim()), &runs, ops)
}

// Reads runs of locals such as `2*i32 1*i64`.
fn runs_of(rt: &impl Abort, alloc: Global, text: &str) -> Vec<(u32, ValType)> {
    let mut runs = Vec::new(alloc);
    for run in text.split_whitespace() {
        runs.push(run_of(rt, run)).expect(rt, "memory");
    }
    runs
}

fn run_of(rt: &impl Abort, text: &str) -> (u32, ValType) {
    let (count, ty) = parts_of(rt, text, "*");
    (number_of(rt, count), type_of(rt, ty))
}

// Rows with unknown operands, at the floor and above it; then with parameters, locals and ifs; then with floats; then
// with instructions of later features.
#[test]
fn types_whole_bodies(rt: HostRuntime) {
    play(
        &rt,
        rt.alloc(),
        &mut Checks,
        "-> i32 |: unreachable, select, i64.eqz, end = Ok(BodyStats { moves: 7, operands: 1, controls: 1, probes: 0 })
-> i32 |: unreachable, select, end = Ok(BodyStats { moves: 5, operands: 1, controls: 1, probes: 0 })
-> i32 |: unreachable, br_if 0, end = Ok(BodyStats { moves: 5, operands: 1, controls: 1, probes: 0 })
-> |: unreachable, i32.const 1, call 0, drop, drop, end = Ok(BodyStats { moves: 7, operands: 1, controls: 1, probes: 0 })
i32 i32 -> i32 |: local.get 0, local.get 1, i32.add, end = Ok(BodyStats { moves: 8, operands: 2, controls: 1, probes: 0 })
-> | 4294967295*i32: local.get 4294967294, drop, end = Ok(BodyStats { moves: 4, operands: 1, controls: 1, probes: 1 })
-> i32 |: i32.const 1, if i32, i32.const 2, else, i32.const 3, end, end = Ok(BodyStats { moves: 14, operands: 1, controls: 2, probes: 0 })
-> |: i32.const 0, if, else, end, end = Ok(BodyStats { moves: 8, operands: 1, controls: 2, probes: 0 })
f32 f64 -> f64 |: local.get 0, f64.promote_f32, local.get 1, f64.add, end = Ok(BodyStats { moves: 10, operands: 2, controls: 1, probes: 0 })
-> f32 |: unreachable, select, f32.neg, end = Ok(BodyStats { moves: 7, operands: 1, controls: 1, probes: 0 })
-> f64 |: block f64, f64.const 1, end, end = Ok(BodyStats { moves: 8, operands: 1, controls: 2, probes: 0 })
-> | 2*f32 1*f64: local.get 2, local.get 0, drop, drop, end = Ok(BodyStats { moves: 6, operands: 2, controls: 1, probes: 2 })
f32 f32 -> f32 |: local.get 0, local.get 1, i32.const 0, select, end = Ok(BodyStats { moves: 10, operands: 3, controls: 1, probes: 0 })
f64 -> i32 |: local.get 0, i64.trunc_f64_u, i32.wrap_i64, end = Ok(BodyStats { moves: 8, operands: 1, controls: 1, probes: 0 })
f64 -> i64 |: local.get 0, i64.trunc_sat_f64_u, end = Ok(BodyStats { moves: 6, operands: 1, controls: 1, probes: 0 })
-> |: i32.const 0, i32.const 1, i32.const 2, memory.copy, end = Ok(BodyStats { moves: 8, operands: 3, controls: 1, probes: 0 })
-> |: i32.const 0, i32.const 1, i32.const 2, memory.fill, end = Ok(BodyStats { moves: 8, operands: 3, controls: 1, probes: 0 })
-> |: i32.const 0, i32.const 1, i32.const 2, memory.init 1, end = Ok(BodyStats { moves: 8, operands: 3, controls: 1, probes: 0 })
-> |: data.drop 1, end = Ok(BodyStats { moves: 2, operands: 0, controls: 1, probes: 0 })
-> |: elem.drop 0, end = Ok(BodyStats { moves: 2, operands: 0, controls: 1, probes: 0 })",
    );
}

/// Checks ops without the last one, and then with it, in a function with an i32 result.
#[derive(Drop)]
struct LastOps;

impl Scripted for LastOps {
    fn answer<A: Abort>(&mut self, rt: &A, alloc: Global, call: &str) -> String {
        let ops = ops_of(rt, alloc, call);
        before_and_after(rt, alloc, &ops)
    }
}

fn before_and_after(rt: &impl Abort, alloc: Global, ops: &[Op]) -> String {
    assert!(rt; 0 < ops.len());
    let before = check_under(rt, alloc, "-> i32 |", &ops[..ops.len() - 1]);
    let after = check_under(rt, alloc, "-> i32 |", ops);
    shown(rt, alloc, (before, after))
}

// In rows five and six, the labels of a `br_table` differ: in the number of results, and in their type.
// Errors of immediates come before errors of operands: indices, then immutable globals and alignments.
// The rows before the last ones have instructions of later features. The last rows have one float where another is
// expected.
#[test]
fn refuses_at_the_op_that_has_no_typing(rt: HostRuntime) {
    play(
        &rt,
        rt.alloc(),
        &mut LastOps,
        "unreachable, i64.const 0, i32.add = (Err(BodyEnd), Err(Mismatch))
unreachable, i32.const 0, i64.const 0, i32.const 1, select = (Err(BodyEnd), Err(Mismatch))
block, else = (Err(BodyEnd), Err(ElsePlace))
i32.const 0, i32.const 0, end = (Err(BodyEnd), Err(Arity))
unreachable, block, unreachable, br_table 1, label 0, label 1 = (Err(BodyEnd), Err(Mismatch))
block i32, block i64, unreachable, br_table 1, label 0, label 1 = (Err(BodyEnd), Err(Mismatch))
i32.const 0, if i32, i32.const 0, end = (Err(BodyEnd), Err(Mismatch))
local.get 0 = (Err(BodyEnd), Err(Index))
br 1 = (Err(BodyEnd), Err(Index))
call_indirect 0 = (Err(BodyEnd), Err(Index))
global.set 0 = (Err(BodyEnd), Err(Immutable))
i32.load 3 0 = (Err(BodyEnd), Err(Align))
i32.const 0, if i32, end = (Err(BodyEnd), Err(Mismatch))
i64.const 0, end = (Err(BodyEnd), Err(Mismatch))
f32.const 0, f64.neg = (Err(BodyEnd), Err(Mismatch))
f64.const 0, f32.neg = (Err(BodyEnd), Err(Mismatch))
f64.const 0, i64.eqz = (Err(BodyEnd), Err(Mismatch))
f32.const 0, i32.eqz = (Err(BodyEnd), Err(Mismatch))
i64.const 0, f64.neg = (Err(BodyEnd), Err(Mismatch))
f64.const 0, f32.const 0, f64.add = (Err(BodyEnd), Err(Mismatch))
i32.const 0, i32.const 0, i64.const 0, memory.copy = (Err(BodyEnd), Err(Mismatch))
i32.const 0, i32.const 0, memory.fill = (Err(BodyEnd), Err(Arity))
i32.const 0, i64.const 0, i32.const 0, memory.init 1 = (Err(BodyEnd), Err(Mismatch))
memory.init 1 = (Err(BodyEnd), Err(Arity))
memory.init 2 = (Err(BodyEnd), Err(Index))
data.drop 2 = (Err(BodyEnd), Err(Index))
elem.drop 1 = (Err(BodyEnd), Err(Index))
table.init 0 = (Err(BodyEnd), Err(Index))
table.copy = (Err(BodyEnd), Err(Index))
f32.const 0, i32.trunc_sat_f64_s = (Err(BodyEnd), Err(Mismatch))
f32.const 0, f64.const 0, i32.const 0, select = (Err(BodyEnd), Err(Mismatch))
block f32, block f64, unreachable, br_table 1, label 0, label 1 = (Err(BodyEnd), Err(Mismatch))
f32.const 0, end = (Err(BodyEnd), Err(Mismatch))
f64.load 4 0 = (Err(BodyEnd), Err(Align))
f32.load 3 0 = (Err(BodyEnd), Err(Align))",
    );
}

#[test]
fn refuses_whole_bodies(rt: HostRuntime) {
    play(
        &rt,
        rt.alloc(),
        &mut Checks,
        "-> | 4294967295*i32 1*i64: end = Err(TooManyLocals)
-> |: end, end = Err(BodyEnd)",
    );
}
