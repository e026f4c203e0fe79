//! Tests of `BodyChecker`, call by call.

use crate::scripts::{Scripted, number_of, play, shown, type_of, unknown, word_of};
use crate::typing::ops::op_of;
use std::alloc::Global;
use std::process::Abort;
use wm_syntax::instructions::Op;
use wm_typing::body_checker::BodyChecker;
use wm_typing::context::Context;
use wm_typing::func_types::FuncTypes;

impl Scripted for BodyChecker {
    fn answer<A: Abort>(&mut self, rt: &A, alloc: Global, call: &str) -> String {
        let (word, with) = word_of(call);
        match word {
            "begin" => begun(rt, alloc, self),
            "locals" => declared(rt, alloc, self, with),
            "step" => stepped(rt, alloc, self, op_of(rt, with)),
            "kept" => shown(rt, alloc, self.kept()),
            "stats" => shown(rt, alloc, self.stats()),
            _ => unknown(rt, call),
        }
    }
}

// Begins the body of a function without parameters and results.
fn begun(rt: &impl Abort, alloc: Global, checker: &mut BodyChecker) -> String {
    let mut types = FuncTypes::new(alloc);
    types.push(&[], None).expect(rt, "memory");
    let context = Context::new(&types, &[], &[], false, false, 0, 0);
    checker.begin(&context, 0);
    shown(rt, alloc, ())
}

// Declares locals such as `2 i32`.
fn declared(rt: &impl Abort, alloc: Global, checker: &mut BodyChecker, with: &str) -> String {
    let (count, ty) = word_of(with);
    let count = number_of(rt, count);
    shown(rt, alloc, checker.locals(count, type_of(rt, ty)))
}

fn stepped(rt: &impl Abort, alloc: Global, checker: &mut BodyChecker, op: Op) -> String {
    let mut types = FuncTypes::new(alloc);
    types.push(&[], None).expect(rt, "memory");
    let context = Context::new(&types, &[], &[], false, false, 0, 0);
    assert!(rt; !checker.may_be_closed());
    shown(rt, alloc, checker.step(&context, op))
}

fn played(rt: &impl Abort, alloc: Global, script: &str) {
    let mut checker = BodyChecker::new(alloc);
    play(rt, alloc, &mut checker, script);
}

#[test]
fn keeps_a_refusal_until_the_next_body(rt: HostRuntime) {
    played(
        &rt,
        rt.alloc(),
        "begin = ()
step else = Err(ElsePlace)
locals 1 i32 = Err(ElsePlace)
begin = ()
locals 1 i32 = Ok(())
kept = 2",
    );
}

#[test]
fn keeps_nothing_after_the_end(rt: HostRuntime) {
    played(
        &rt,
        rt.alloc(),
        "kept = 0
begin = ()
kept = 1
step end = Ok(Ended)
kept = 0
stats = BodyStats { moves: 2, operands: 0, controls: 1, probes: 0 }",
    );
}
