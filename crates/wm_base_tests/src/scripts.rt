//! Scripts for tests. Each line has a call, ` = `, and the answer as `Debug` writes it.

use std::alloc::Global;
use std::fmt::Debug;
use std::process::Abort;
use wm_syntax::types::ValType;

/// A value that a script makes calls on.
pub(crate) trait Scripted {
    /// Makes a call, and returns its answer as text.
    fn answer<A: Abort>(&mut self, rt: &A, alloc: Global, call: &str) -> String;
}

/// Makes the calls of a script in turn, and checks each answer.
pub(crate) fn play<S: Scripted>(rt: &impl Abort, alloc: Global, called: &mut S, script: &str) {
    assert!(rt; !script.is_empty(), "an empty script");
    for line in script.lines() {
        let (call, wanted) = parts_of(rt, line, " = ");
        play_call(rt, alloc, called, call, wanted);
    }
}

/// `play` for lines that may have several calls with one answer. `3 times push I32, close = Ok(())` makes both calls
/// three times in turn.
pub(crate) fn play_each<S: Scripted>(rt: &impl Abort, alloc: Global, called: &mut S, script: &str) {
    assert!(rt; !script.is_empty(), "an empty script");
    for line in script.lines() {
        play_line(rt, alloc, called, line);
    }
}

fn play_line<S: Scripted>(rt: &impl Abort, alloc: Global, called: &mut S, line: &str) {
    let (calls, wanted) = parts_of(rt, line, " = ");
    let (times, calls) = repeated(rt, calls);
    for _ in 0..times {
        play_calls(rt, alloc, called, calls, wanted);
    }
}

// Returns how often the calls of a line are made, and these calls.
fn repeated<'a>(rt: &impl Abort, calls: &'a str) -> (u32, &'a str) {
    let Some((times, calls)) = calls.split_once(" times ") else {
        return (1, calls);
    };
    let times = number_of(rt, times);
    assert!(rt; times > 0);
    (times, calls)
}

fn play_calls<S: Scripted>(
    rt: &impl Abort,
    alloc: Global,
    called: &mut S,
    calls: &str,
    wanted: &str,
) {
    for call in calls.split(", ") {
        play_call(rt, alloc, called, call, wanted);
    }
}

fn play_call<S: Scripted>(
    rt: &impl Abort,
    alloc: Global,
    called: &mut S,
    call: &str,
    wanted: &str,
) {
    let found = called.answer(rt, alloc, call);
    assert!(rt; found.as_str() == wanted, "{call} = {wanted}: {found}");
}

/// Returns an answer as `Debug` writes it.
pub(crate) fn shown<T: Debug + Drop>(rt: &impl Abort, alloc: Global, answer: T) -> String {
    format!(in alloc; "{answer:?}").expect(rt, "memory")
}

/// Fails the test at an unknown word of a script.
pub(crate) fn unknown(rt: &impl Abort, word: &str) -> ! {
    panic!(rt; "unknown in a script: {word:?}")
}

/// Splits a text after its first word.
pub(crate) fn word_of(text: &str) -> (&str, &str) {
    match text.split_once(' ') {
        Some(parts) => parts,
        None => (text, ""),
    }
}

/// Splits a text at a mark. Fails the test if the mark is missing.
pub(crate) fn parts_of<'a>(rt: &impl Abort, text: &'a str, mark: &str) -> (&'a str, &'a str) {
    match text.split_once(mark) {
        Some(parts) => parts,
        None => unknown(rt, text),
    }
}

pub(crate) fn number_of(rt: &impl Abort, word: &str) -> u32 {
    word.parse::<u32>().expect(rt, "a number")
}

/// Reads a type as the code or as the text format writes it.
pub(crate) fn type_of(rt: &impl Abort, word: &str) -> ValType {
    match word {
        "I32" | "i32" => ValType::I32,
        "I64" | "i64" => ValType::I64,
        "F32" | "f32" => ValType::F32,
        "F64" | "f64" => ValType::F64,
        _ => unknown(rt, word),
    }
}
