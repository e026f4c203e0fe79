//! Tests of the equality of modules.

use crate::scripts::{Scripted, number_of, parts_of, play_each, shown, type_of};
use crate::syntax::scripts::op_of_word;
use std::alloc::Global;
use std::process::Abort;
use wm_syntax::modules::body::Body;
use wm_syntax::modules::body_builder::BodyBuilder;
use wm_syntax::modules::locals::Locals;
use wm_syntax::modules::{Function, Module};

/// Compares two modules by `==` and by `!=`.
#[derive(Drop)]
struct Equality;

impl Scripted for Equality {
    fn answer<A: Abort>(&mut self, rt: &A, alloc: Global, call: &str) -> String {
        let (one, other) = parts_of(rt, call, " | ");
        let one = module_of(rt, alloc, one);
        let other = module_of(rt, alloc, other);
        shown(rt, alloc, (one == other, one != other))
    }
}

/// Reads `empty`, or a module of one function with its locals and ops, such as `2*I32 1*I64: Nop`.
fn module_of(rt: &impl Abort, alloc: Global, text: &str) -> Module {
    let mut module = Module::new(alloc);
    if text != "empty" {
        let function = function_of(rt, alloc, text);
        module.functions.push(function).expect(rt, "memory");
    }
    module
}

fn function_of(rt: &impl Abort, alloc: Global, text: &str) -> Function {
    let (runs, ops) = parts_of(rt, text, ": ");
    Function {
        type_index: 0,
        locals: locals_of(rt, alloc, runs),
        body: body_of(rt, alloc, ops),
    }
}

fn locals_of(rt: &impl Abort, alloc: Global, runs: &str) -> Locals {
    let mut locals = Locals::new(alloc);
    for run in runs.split_whitespace() {
        let (count, ty) = parts_of(rt, run, "*");
        let answer = locals.add(number_of(rt, count), type_of(rt, ty));
        assert!(rt; answer == Ok(()));
    }
    locals
}

fn body_of(rt: &impl Abort, alloc: Global, ops: &str) -> Body {
    let mut builder = BodyBuilder::new(alloc);
    for op in ops.split_whitespace() {
        let answer = builder.push(op_of_word(rt, op));
        assert!(rt; answer == Ok(()));
    }
    builder.finish().expect(rt, "a body")
}

// In the last row, an empty else makes no difference.
#[test]
fn what_is_the_same_and_what_is_not(rt: HostRuntime) {
    play_each(
        &rt,
        rt.alloc(),
        &mut Equality,
        "2*I32 1*I32: Nop | 3*I32: Nop = (true, false)
2*I32 1*I32: Nop | 3*I64: Nop = (false, true)
2*I32 1*I32: Nop | 3*I32: Nop Nop = (false, true)
2*I32 1*I32: Nop | 3*I32: Br:7 = (false, true)
2*I32 1*I32: Nop | empty = (false, true)
2*F32 1*F64: Nop | 1*F32 1*F32 1*F64: Nop = (true, false)
1*F32: Nop | 1*F64: Nop, 1*F32: Nop | 1*I32: Nop = (false, true)
: If Else End | : If End = (true, false)",
    );
}
