//! Helpers for the words and the answers of scripts.

use std::alloc::Global;
use std::fmt::Debug;
use std::process::Abort;

/// Returns an answer as `Debug` writes it.
pub(crate) fn shown<T: Debug + Drop>(rt: &impl Abort, alloc: Global, answer: T) -> String {
    format!(in alloc; "{answer:?}").expect(rt, "memory")
}

/// Fails the test at an unknown word of a script.
pub(crate) fn unknown(rt: &impl Abort, word: &str) -> ! {
    panic!(rt; "unknown in a script: {word:?}")
}

/// Splits a text after its first word.
pub(crate) fn word_of(text: &str) -> (&str, &str) {
    text.split_once(' ').unwrap_or((text, ""))
}

/// Splits a text at the first `mark`.
pub(crate) fn parts_of<'a>(rt: &impl Abort, text: &'a str, mark: &str) -> (&'a str, &'a str) {
    match text.split_once(mark) {
        Some(parts) => parts,
        None => unknown(rt, text),
    }
}

pub(crate) fn number_of(rt: &impl Abort, word: &str) -> u32 {
    word.parse::<u32>().expect(rt, "a number")
}
