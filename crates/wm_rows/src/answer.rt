//! Computes the answer to a row.

use crate::changes::answer_changes;
use crate::pieces::{Verdict, is_answered, judge, spread};
use crate::places::answer_place;
use crate::row::{Action, Row};
use crate::tally::{Tally, count};
use crate::text::{Built, build, is_given_back, read, refuse, say, show, spell};
use std::alloc::Global;
use std::io;
use wm_rules::Summary;

/// The most bytes of a text's binary that the answer writes in full and that is cut. A longer one gives its length.
const LONGEST: usize = 2048;

/// Returns the figures of a module's bodies.
fn figures(alloc: Global, summary: &Summary) -> io::Result<String> {
    let Summary {
        functions,
        moves,
        operands,
        controls,
        probes,
    } = summary;
    Ok(format!(in alloc;
        "functions {functions}, moves {moves}, operands {operands}, controls {controls}, probes {probes}"
    )?)
}

/// Returns the answer to a row with a valid binary.
fn accept(
    alloc: Global,
    row: &Row,
    binary: &[u8],
    summary: &Summary,
    canonical: &[u8],
) -> io::Result<String> {
    match row.action {
        Action::Check | Action::Place | Action::Change(_) | Action::Changes => say(alloc, "valid"),
        Action::Stats => figures(alloc, summary),
        Action::Canon | Action::Build | Action::Read => spell(alloc, canonical),
        Action::Show => show(alloc, row, binary),
    }
}

/// Whether the answer is the same in two pieces, wherever the binary is cut, with and without an empty piece between
/// them.
fn is_same_in_two(
    alloc: Global,
    row: &Row,
    binary: &[u8],
    whole: &Verdict,
    tally: &mut Tally,
) -> io::Result<bool> {
    for place in 0..binary.len() {
        let (front, back) = binary.split_at(place);
        if !is_answered(alloc, row, &[front, back], whole)?
            || !is_answered(alloc, row, &[front, b"", back], whole)?
        {
            return Ok(false);
        }
        count(&mut tally.cuts);
    }
    Ok(true)
}

/// Whether the answer is the same in pieces of `size` bytes.
fn is_same_by(
    alloc: Global,
    row: &Row,
    binary: &[u8],
    whole: &Verdict,
    size: usize,
) -> io::Result<bool> {
    let pieces = binary.chunks(size.max(1)).collect::<Vec<&[u8]>>(alloc)?;
    is_answered(alloc, row, &pieces, whole)
}

/// Whether the answer is the same in pieces of one byte, with and without empty pieces between them, and of seven
/// bytes.
fn is_same_in_chunks(alloc: Global, row: &Row, binary: &[u8], whole: &Verdict) -> io::Result<bool> {
    Ok(
        is_same_by(alloc, row, binary, whole, 1)?
            && is_same_by(alloc, row, binary, whole, 7)?
            && is_answered(alloc, row, &spread(alloc, binary)?, whole)?,
    )
}

/// Returns the answer to a row with a binary that has this verdict.
fn answer_judged(alloc: Global, row: &Row, binary: &[u8], whole: &Verdict) -> io::Result<String> {
    match whole {
        Verdict::Valid(summary, canonical) => {
            if is_given_back(alloc, row, binary, canonical)? {
                accept(alloc, row, binary, summary, canonical)
            } else {
                say(alloc, "not given back")
            }
        }
        Verdict::Refused(refusal) => refuse(alloc, "", refusal.at, refusal.why.name()),
    }
}

/// Returns the answer to a row with this binary, or a message if the answer depends on the pieces.
fn answer_binary(alloc: Global, row: &Row, binary: &[u8], tally: &mut Tally) -> io::Result<String> {
    let Some(whole) = judge(alloc, row, &[binary])? else {
        return say(alloc, "the validator and the loader differ");
    };
    if !is_same_in_chunks(alloc, row, binary, &whole)? {
        return say(alloc, "differs in small pieces");
    }
    if !is_same_in_two(alloc, row, binary, &whole, tally)? {
        return say(alloc, "differs in two pieces");
    }
    answer_judged(alloc, row, binary, &whole)
}

/// Returns the answer to a row with a text: its refusal, its canonical binary, or the length of a long one. Checks that
/// the binary is its own canonical binary.
fn answer_text(alloc: Global, row: &Row, tally: &mut Tally) -> io::Result<String> {
    let binary = match build(alloc, row, row.spellings, &row.input)? {
        Built::Binary(binary) => binary,
        Built::Refused(line) => return Ok(line),
    };
    if binary.len() > LONGEST {
        return Ok(format!(in alloc; "{} bytes", binary.len())?);
    }
    let answer = answer_binary(alloc, row, &binary, tally)?;
    if answer.as_str() == spell(alloc, &binary)?.as_str() {
        Ok(answer)
    } else {
        say(alloc, "no canonical binary")
    }
}

/// Returns the answer to the row's binary with `more` added to the byte at `place`, modulo 256.
fn answer_changed(
    alloc: Global,
    row: &Row,
    place: usize,
    more: u8,
    tally: &mut Tally,
) -> io::Result<String> {
    let mut binary = row.input.clone()?;
    match binary.get_mut(place) {
        Some(byte) => *byte = byte.wrapping_add(more),
        None => return say(alloc, "no such place"),
    }
    answer_binary(alloc, row, &binary, tally)
}

/// Returns a number that, added to the byte at `place`, gives another answer than this one.
fn other_answer(
    alloc: Global,
    row: &Row,
    place: usize,
    answer: &str,
    tally: &mut Tally,
) -> io::Result<Option<u8>> {
    for more in 2..=255 {
        if answer_changed(alloc, row, place, more, tally)?.as_str() != answer {
            return Ok(Some(more));
        }
    }
    Ok(None)
}

/// Returns the answer to all inputs with another byte at `place`, or a message if their answers differ.
fn answer_change(alloc: Global, row: &Row, place: usize, tally: &mut Tally) -> io::Result<String> {
    let answer = answer_changed(alloc, row, place, 1, tally)?;
    match other_answer(alloc, row, place, &answer, tally)? {
        Some(more) => Ok(format!(in alloc; "differs when {more} is added")?),
        None => Ok(answer),
    }
}

/// Returns the answer to a row. It has no contract: `stdout` has the right answers.
pub fn answer(alloc: Global, row: &Row, tally: &mut Tally) -> io::Result<String> {
    count(&mut tally.rows);
    match row.action {
        Action::Build => answer_text(alloc, row, tally),
        Action::Read => read(alloc, row),
        Action::Place => answer_place(alloc, row),
        Action::Change(place) => answer_change(alloc, row, place, tally),
        Action::Changes => answer_changes(alloc, row, tally),
        _ => answer_binary(alloc, row, &row.input, tally),
    }
}
