//! Feeds a binary in pieces to a validator and to a loader.

use crate::row::Row;
use crate::text::{canonical, out_of_memory};
use std::alloc::{AllocError, Global};
use std::io;
use wm_decode::Refusal;
use wm_rules::{Checked, Loader, Summary, Validator};
use wm_syntax::why::Why;

/// The answer that a validator and a loader both give.
#[derive(Drop)]
pub enum Verdict {
    /// The figures, and the canonical binary.
    Valid(Summary, Vec<u8>),
    Refused(Refusal),
}

/// Returns a binary in pieces of one byte, each followed by an empty piece. It has no contract: only these rows use it,
/// and wrong pieces would change an answer in `stdout`.
pub fn spread(alloc: Global, binary: &[u8]) -> Result<Vec<&[u8]>, AllocError> {
    let mut pieces = Vec::new(alloc);
    for piece in binary.chunks(1) {
        pieces.push(piece)?;
        pieces.push(b"")?;
    }
    Ok(pieces)
}

/// Why a validator or a loader gives no module.
#[derive(Clone, Copy)]
enum Fault {
    Refused(Refusal),
    /// A later call did not return the first refusal again.
    Forgotten,
}

/// The answers to the pieces so far.
#[derive(Clone, Copy)]
struct Answers {
    first: Option<Refusal>,
    /// Whether each call after the first refusal has returned it again.
    is_kept: bool,
}

impl Answers {
    fn new() -> Self {
        Answers {
            first: None,
            is_kept: true,
        }
    }

    /// Records the answer to the next piece.
    fn take(&mut self, answer: Result<(), Refusal>) {
        match (self.first, answer) {
            (None, Ok(())) => {}
            (None, Err(refusal)) => self.first = Some(refusal),
            (Some(first), Err(refusal)) => self.is_kept = self.is_kept && refusal == first,
            (Some(_), Ok(())) => self.is_kept = false,
        }
    }
}

/// Returns the answer at the end. Fails with `Forgotten` if it is not the first refusal of the pieces.
fn end<T: Drop>(mut answers: Answers, last: Result<T, Refusal>) -> Result<T, Fault> {
    match last {
        Ok(value) => match answers.first {
            None => Ok(value),
            Some(_) => Err(Fault::Forgotten),
        },
        Err(refusal) => {
            answers.take(Err(refusal));
            if answers.is_kept {
                Err(Fault::Refused(refusal))
            } else {
                Err(Fault::Forgotten)
            }
        }
    }
}

/// Returns a validator's answer to pieces.
fn validate(alloc: Global, row: &Row, pieces: &[&[u8]]) -> Result<Summary, Fault> {
    let mut validator = Validator::new(alloc, row.profile, u64::from(row.limit), row.policy);
    let mut answers = Answers::new();
    for piece in pieces {
        answers.take(validator.feed(piece));
    }
    end(answers, validator.finish())
}

/// Returns a loader's answer to pieces.
fn load(alloc: Global, row: &Row, pieces: &[&[u8]]) -> Result<Checked, Fault> {
    let mut loader = Loader::new(alloc, row.profile, u64::from(row.limit), row.policy);
    let mut answers = Answers::new();
    for piece in pieces {
        answers.take(loader.feed(piece));
    }
    end(answers, loader.finish())
}

/// Returns the canonical binary of the module that a loader reads from pieces.
fn rewrite(alloc: Global, row: &Row, pieces: &[&[u8]]) -> io::Result<Result<Vec<u8>, Fault>> {
    match load(alloc, row, pieces) {
        Ok(checked) => Ok(Ok(canonical(alloc, checked.module())?)),
        Err(fault) => Ok(Err(fault)),
    }
}

/// Whether memory was refused.
fn is_memory<T>(answer: &Result<T, Fault>) -> bool {
    matches!(answer, Err(Fault::Refused(refusal)) if refusal.why == Why::Memory)
}

/// Returns the common answer of a validator and a loader. `None` if they differ, or if one did not keep its refusal.
fn both(judged: Result<Summary, Fault>, loaded: Result<Vec<u8>, Fault>) -> Option<Verdict> {
    match (judged, loaded) {
        (Ok(summary), Ok(binary)) => Some(Verdict::Valid(summary, binary)),
        (Err(Fault::Refused(first)), Err(Fault::Refused(second))) => {
            (first == second).then_some(Verdict::Refused(first))
        }
        _ => None,
    }
}

/// Returns the common answer of a validator and a loader to pieces. `None` if they differ, or if one does not keep its
/// refusal. It has no contract: `stdout` has the right answers.
pub fn judge(alloc: Global, row: &Row, pieces: &[&[u8]]) -> io::Result<Option<Verdict>> {
    let judged = validate(alloc, row, pieces);
    let loaded = rewrite(alloc, row, pieces)?;
    if is_memory(&judged) || is_memory(&loaded) {
        return Err(out_of_memory());
    }
    Ok(both(judged, loaded))
}

/// Whether pieces get this verdict.
pub fn is_answered(
    alloc: Global,
    row: &Row,
    pieces: &[&[u8]],
    wanted: &Verdict,
) -> io::Result<bool> {
    Ok(match (judge(alloc, row, pieces)?, wanted) {
        (Some(Verdict::Valid(summary, binary)), Verdict::Valid(figures, canonical)) => {
            summary == *figures && binary.as_slice() == canonical.as_slice()
        }
        (Some(Verdict::Refused(refusal)), Verdict::Refused(wanted)) => refusal == *wanted,
        _ => false,
    })
}
