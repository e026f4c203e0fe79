//! The answer to all binaries that differ from a row's in one byte.

use crate::pieces::{Verdict, is_answered, judge, spread};
use crate::row::Row;
use crate::tally::{Tally, count};
use crate::text::is_given_back;
use std::alloc::Global;
use std::io;

/// Whether a binary has the verdict `whole` also byte by byte, and in two pieces cut at `place`. There are empty pieces
/// between the others.
fn is_same_in_pieces(
    alloc: Global,
    row: &Row,
    binary: &[u8],
    whole: &Verdict,
    place: usize,
) -> io::Result<bool> {
    let (front, back) = binary.split_at(place.min(binary.len()));
    Ok(
        is_answered(alloc, row, &spread(alloc, binary)?, whole)?
            && is_answered(alloc, row, &[front, b"", back], whole)?,
    )
}

/// Returns whether a binary is valid, or `None` if a test of it fails: the validator and the loader differ, the pieces
/// change the answer, or the module's text does not give it back.
fn is_valid(alloc: Global, row: &Row, binary: &[u8], place: usize) -> io::Result<Option<bool>> {
    let Some(whole) = judge(alloc, row, &[binary])? else {
        return Ok(None);
    };
    if !is_same_in_pieces(alloc, row, binary, &whole, place)? {
        return Ok(None);
    }
    match whole {
        Verdict::Valid(_, canonical) => {
            let is_well = is_given_back(alloc, row, binary, &canonical)?;
            Ok(is_well.then_some(true))
        }
        Verdict::Refused(_) => Ok(Some(false)),
    }
}

/// Tests the 255 binaries with another byte than `known` at `place`, and counts them. Returns whether all tests pass.
fn are_well(
    alloc: Global,
    row: &Row,
    binary: &mut Vec<u8>,
    (place, known): (usize, u8),
    tally: &mut Tally,
) -> io::Result<bool> {
    for more in 1..=255 {
        put(binary, place, known.wrapping_add(more));
        // over the 255 changes, a binary of at most 255 bytes is cut at each of its offsets
        let cut = usize::from(more) % binary.len().max(1);
        let Some(is_valid) = is_valid(alloc, row, binary, cut)? else {
            return Ok(false);
        };
        count(&mut tally.changes);
        count(&mut tally.cuts);
        if is_valid {
            count(&mut tally.valid);
        }
    }
    put(binary, place, known);
    Ok(true)
}

fn put(binary: &mut Vec<u8>, place: usize, byte: u8) {
    if let Some(there) = binary.get_mut(place) {
        *there = byte;
    }
}

/// Returns the first place with a change for which a test fails.
fn first_fault(alloc: Global, row: &Row, tally: &mut Tally) -> io::Result<Option<usize>> {
    let mut binary = row.input.clone()?;
    for (place, known) in row.input.iter().enumerate() {
        if !are_well(alloc, row, &mut binary, (place, *known), tally)? {
            return Ok(Some(place));
        }
    }
    Ok(None)
}

/// Returns how many binaries differ from a row's in one byte, and how many of them are valid. It has no contract:
/// `stdout` has the right answers.
pub fn answer_changes(alloc: Global, row: &Row, tally: &mut Tally) -> io::Result<String> {
    let before = *tally;
    if let Some(place) = first_fault(alloc, row, tally)? {
        return Ok(format!(in alloc; "differs when the byte at {place} is changed")?);
    }
    let changes = tally.changes.saturating_sub(before.changes);
    let valid = tally.valid.saturating_sub(before.valid);
    Ok(format!(in alloc; "changes {changes}, valid {valid}")?)
}
