//! Tests of declared locals.

use crate::scripts::{Scripted, number_of, play_each, shown, type_of, unknown, word_of};
use std::alloc::Global;
use std::process::Abort;
use wm_syntax::modules::locals::Locals;
use wm_syntax::types::ValType;
use wm_syntax::why::Why;

impl Scripted for Locals {
    fn answer<A: Abort>(&mut self, rt: &A, alloc: Global, call: &str) -> String {
        let (word, with) = word_of(call);
        match word {
            "add" => added(rt, alloc, self, with),
            "len" => shown(rt, alloc, self.len()),
            "runs" => shown(rt, alloc, self.runs()),
            "run" => shown(rt, alloc, self.run(number_of(rt, with) as usize)),
            "clear" => {
                self.clear();
                shown(rt, alloc, ())
            }
            _ => unknown(rt, call),
        }
    }
}

// Adds a run of locals such as `2 I32`.
fn added(rt: &impl Abort, alloc: Global, locals: &mut Locals, with: &str) -> String {
    let (count, ty) = word_of(with);
    let count = number_of(rt, count);
    shown(rt, alloc, locals.add(count, type_of(rt, ty)))
}

fn played(rt: &impl Abort, alloc: Global, script: &str) {
    let mut locals = Locals::new(alloc);
    play_each(rt, alloc, &mut locals, script);
}

#[test]
fn runs_of_one_type_are_joined(rt: HostRuntime) {
    played(
        &rt,
        rt.alloc(),
        "add 2 I32, add 0 I64, add 3 I32, add 1 I64 = Ok(())
len = 6
runs = 2
run 0 = Some((5, I32))
run 1 = Some((1, I64))
run 2 = None
clear = ()
run 0 = None",
    );
}

#[test]
fn refuses_locals_from_2_to_the_32_on(rt: HostRuntime) {
    played(
        &rt,
        rt.alloc(),
        "add 4294967295 I32 = Ok(())
add 1 I64 = Err(TooManyLocals)
add 0 I64 = Ok(())
run 0 = Some((4294967295, I32))
runs = 1",
    );
}

// Adds a local of another type than the last. If memory is refused, nothing changes.
fn add_more(rt: &impl Abort, locals: &mut Locals) {
    let runs = locals.runs();
    assert!(rt; runs < 1000);
    let ty = if runs % 2 == 0 {
        ValType::I32
    } else {
        ValType::I64
    };
    if let Err(why) = locals.add(1, ty) {
        assert!(rt; why == Why::Memory);
        assert!(rt; locals.runs() == runs && locals.run(runs) == None);
    }
}

// Each add succeeds if no growth is refused. `rt try --test --fail-alloc N` refuses one: that call returns `Memory` and
// changes nothing, and the next one succeeds.
#[test]
fn a_refused_growth_changes_nothing(rt: HostRuntime) {
    let mut locals = Locals::new(rt.alloc());
    for _ in 0..400 {
        add_more(&rt, &mut locals);
    }
    let runs = locals.runs();
    assert!(rt; 399 <= runs && runs <= 400);
    assert!(rt; locals.run(398) == Some((1, ValType::I32)));
}
