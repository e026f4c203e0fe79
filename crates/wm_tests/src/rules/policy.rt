//! Inputs that are just within a policy, and inputs that go beyond it.

use super::scripts::play;
use super::{judge, loader, pieces};
use crate::script_words::{number_of, unknown, word_of};
use std::alloc::Global;
use std::process::Abort;
use wm_rules::Policy;

/// Returns the answer to a call under a policy. The text has the limits of functions, locals and depth, then the call.
pub(crate) fn within(rt: &impl Abort, alloc: Global, text: &'static str) -> String {
    let (functions, text) = word_of(text);
    let (locals, text) = word_of(text);
    let (depth, call) = word_of(text);
    let policy = Policy {
        functions: limit_of(rt, functions),
        locals: limit_of(rt, locals),
        depth: limit_of(rt, depth),
    };
    answer(rt, alloc, policy, call)
}

fn answer(rt: &impl Abort, alloc: Global, policy: Policy, call: &'static str) -> String {
    let (word, with) = word_of(call);
    match word {
        "judge" => judge(rt, alloc, policy, with),
        "validate" => pieces::validated(rt, alloc, policy, with),
        "from" => pieces::from(rt, alloc, policy, with),
        "load" => loader::load(rt, alloc, policy, with),
        "load_from" => loader::load_source(rt, alloc, policy, with),
        _ => unknown(rt, word),
    }
}

fn limit_of(rt: &impl Abort, word: &str) -> Option<u32> {
    if word == "none" {
        return None;
    }
    Some(number_of(rt, word))
}

// Imported functions are counted, and 0 is a limit too.
const FUNCTIONS: &str = "\
within 2 none none judge type, results 0, import_module m, import_name f, import_func 0, func 0 = taken
within 2 none none judge type, results 0, import_module m, import_name f, import_func 0, func 0, func 0 = ManyFunctions
within 1 none none judge type, results 0, import_func 0, import_func 0 = ManyFunctions
within 1 none none judge type, results 0, func 0, func 0 = ManyFunctions
within 0 none none judge type, results 0, import_global i32, table 0, memory 0 = taken
within 0 none none judge type, results 0, import_func 0 = ManyFunctions
within 0 none none judge type, results 0, func 0 = ManyFunctions";

// The locals of each function are counted by themselves, without parameters, at each run.
const LOCALS: &str = "\
within none 5 none judge type, results 0, func 0, body, locals 2 i32, locals 3 i64, op end = taken
within none 5 none judge type, results 0, func 0, body, locals 2 i32, locals 4 i64 = ManyLocals
within none 5 none judge type, results 0, func 0, body, locals 6 i32 = ManyLocals
within none 0 none judge type, results 0, func 0, body, locals 0 i32, op end = taken
within none 0 none judge type, results 0, func 0, body, locals 1 i32 = ManyLocals
within none 1 none judge type, param i32, param i64, results 0, func 0, body, locals 1 i32, op local.get 2, op drop, op end = taken
within none 1 none judge type, param i32, results 0, func 0, body, locals 2 i32 = ManyLocals
within none 2 none judge type, results 0, func 0, func 0, body, locals 2 i32, op end, body, locals 2 i64, op end = taken
within none 2 none judge type, results 0, func 0, func 0, body, locals 1 i32, op end, body, locals 2 i64, locals 1 i64 = ManyLocals
within none 4294967295 none judge type, results 0, func 0, body, locals 4294967295 i64, locals 0 i32, op end = taken";

// Open blocks, loops and ifs are counted, but not the function's own frame.
const DEPTH: &str = "\
within none none 1 judge type, results 0, func 0, body, op block, op end, op loop, op end, op i32.const, op if, op end, op end = taken
within none none 3 judge type, results 0, func 0, body, op block, op loop, op i32.const, op if, op end, op end, op end, op end = taken
within none none 2 judge type, results 0, func 0, body, op block, op loop, op i32.const, op if = Deep
within none none 1 judge type, results 0, func 0, body, op loop, op block = Deep
within none none 1 judge type, results 0, func 0, body, op i32.const, op if, op loop = Deep
within none none 1 judge type, results 0, func 0, body, op block, op end, op block, op block = Deep
within none none 2 judge type, results 0, func 0, body, op i32.const, op if, op else, op block, op end, op end, op end = taken
within none none 1 judge type, results 0, func 0, body, op i32.const, op if, op else, op block = Deep
within none none 0 judge type, results 0, func 0, body, op nop, op end = taken
within none none 0 judge type, results 0, func 0, body, op block = Deep
within none none 1 judge type, results 0, func 0, func 0, body, op block, op end, op end, body, op block, op end, op end = taken
within none none 1 judge type, results 0, func 0, func 0, body, op block, op end, op end, body, op block, op block = Deep";

// A rule is checked before the policy at the same item.
const RULES_FIRST: &str = "\
within 0 none none judge type, results 0, func 1 = Index
within 0 none none judge type, results 0, import_func 1 = Index
within none 4294967295 none judge type, results 0, func 0, body, locals 4294967295 i32, locals 1 i64 = TooManyLocals
within none 0 none judge locals 1 i32 = Index
within none none 0 judge type, results 0, func 0, body, op if = Arity
within none none 0 judge type, results 0, func 0, body, op i64.const, op if = Type";

// The offsets of refusals. At the same byte, the policy comes before `BodyEnd` and `SectionEnd`.
const INPUTS: &str = "\
within 0 none none validate 1000 by 1 ADD; within 0 none none validate 1000 ADD = Err(Refusal { at: 21, why: ManyFunctions })
within 0 none none from ADD = Err(Refused(Refusal { at: 21, why: ManyFunctions }, Found { byte: Some(0), place: Some(Place { section: 3, item: Some(0), awaits: Number }), imported: Imported { functions: 0, globals: 0 } }))
within 0 none none load ADD = Refusal { at: 21, why: ManyFunctions }
within 0 none none load_from ADD = Refused(Refusal { at: 21, why: ManyFunctions }, Found { byte: Some(0), place: Some(Place { section: 3, item: Some(0), awaits: Number }), imported: Imported { functions: 0, globals: 0 } })
within 1 0 0 validate 1000 ADD; within 1 0 0 validate 1000 by 1 ADD \
= Ok(Summary { functions: 1, moves: 8, operands: 2, controls: 1, probes: 0 })
within 3 2 1 validate 1000 EVERY = Ok(Summary { functions: 2, moves: 8, operands: 1, controls: 2, probes: 0 })
within 2 none none validate 1000 by 7 EVERY = Err(Refusal { at: 32, why: ManyFunctions })
within none 1 none validate 1000 by 7 EVERY = Err(Refusal { at: 79, why: ManyLocals })
within none none 0 validate 1000 by 7 EVERY = Err(Refusal { at: 83, why: Deep })
within none 4 none validate 1000 H 010401600000 03020100 0A050103 01057F = Err(Refusal { at: 25, why: ManyLocals })
within none 5 none validate 1000 H 010401600000 03020100 0A050103 01057F = Err(Refusal { at: 25, why: BodyEnd })
within 0 none none validate 1000 H 010401600000 03020200 = Err(Refusal { at: 18, why: ManyFunctions })
within 1 none none validate 1000 H 010401600000 03020200 = Err(Refusal { at: 18, why: SectionEnd })";

#[test]
fn policies(rt: HostRuntime) {
    for script in [FUNCTIONS, LOCALS, DEPTH, RULES_FIRST, INPUTS] {
        play(&rt, rt.alloc(), script);
    }
}
