//! Plays scripts. A line is a row: its calls, ` = `, and the answer to each of them.
//!
//! A call is a word and its argument: items separated by commas, or the pieces of an input. There is a `; ` between
//! two calls.

pub(crate) mod bytes;
pub(crate) mod items;

use super::{function_0, judge, loader, pieces, policy, validator};
use crate::script_words::{parts_of, unknown, word_of};
use std::alloc::Global;
use std::process::Abort;
use wm_rules::Policy;

/// Makes the calls of a script in order, and expects their answers.
pub(crate) fn play(rt: &impl Abort, alloc: Global, script: &'static str) {
    assert!(rt; !script.is_empty(), "an empty script");
    for line in script.lines() {
        play_line(rt, alloc, line);
    }
}

fn play_line(rt: &impl Abort, alloc: Global, line: &'static str) {
    let (calls, wanted) = parts_of(rt, line, " = ");
    for call in calls.split("; ") {
        play_call(rt, alloc, call, wanted);
    }
}

fn play_call(rt: &impl Abort, alloc: Global, call: &'static str, wanted: &str) {
    let (word, with) = word_of(call);
    let found = answer(rt, alloc, word, with);
    assert!(rt; found.as_str() == wanted, "{call} = {wanted}: {found}");
}

fn answer(rt: &impl Abort, alloc: Global, word: &str, with: &'static str) -> String {
    match word {
        "judge" => judge(rt, alloc, Policy::no_limits(), with),
        "within" => policy::within(rt, alloc, with),
        "function_0" => function_0(rt, alloc, with),
        "build" => loader::build(rt, alloc, with),
        "show" => loader::show(rt, alloc, with),
        "both" => loader::both(rt, alloc, with),
        "kept" => validator::kept(rt, alloc, with),
        "most" => validator::most(rt, alloc, with),
        "validate" => pieces::validated(rt, alloc, Policy::no_limits(), with),
        _ => answer_of_bytes(rt, alloc, word, with),
    }
}

fn answer_of_bytes(rt: &impl Abort, alloc: Global, word: &str, with: &str) -> String {
    match word {
        "read" => pieces::read(rt, alloc, with),
        "cut" => pieces::cut(rt, alloc, with),
        "from" => pieces::from(rt, alloc, Policy::no_limits(), with),
        "feed" => loader::feed(rt, alloc, with),
        "load" => loader::load(rt, alloc, Policy::no_limits(), with),
        "load_from" => loader::load_source(rt, alloc, Policy::no_limits(), with),
        "count" => loader::count(rt, alloc, with),
        _ => unknown(rt, word),
    }
}
