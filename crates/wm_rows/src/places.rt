//! Finds where in a module an input is refused.

use crate::row::Row;
use crate::text::{out_of_memory, say};
use std::alloc::Global;
use std::fmt::Write;
use std::io;
use wm_decode::Refusal;
use wm_rules::{Found, FromFault, Loader, Validator, validate_from};
use wm_syntax::io::input::Input;
use wm_syntax::why::Why;

/// A refusal, and what is known of the byte that decided.
#[derive(Clone, Copy, PartialEq, Eq)]
struct Refused {
    refusal: Refusal,
    found: Found,
}

/// Returns a validator's refusal of pieces, if any.
fn by_validator(alloc: Global, row: &Row, pieces: &[&[u8]]) -> Option<Refused> {
    let mut validator = Validator::new(alloc, row.profile, u64::from(row.limit), row.policy);
    for piece in pieces {
        let before = validator.snapshot();
        if let Err(refusal) = validator.feed(piece) {
            let found = Found::in_piece(before, piece, refusal, validator.imported());
            return Some(Refused { refusal, found });
        }
    }
    let found = Found::at_end(validator.snapshot(), validator.imported());
    match validator.finish() {
        Ok(_) => None,
        Err(refusal) => Some(Refused { refusal, found }),
    }
}

/// Returns a loader's refusal of pieces, if any.
fn by_loader(alloc: Global, row: &Row, pieces: &[&[u8]]) -> Option<Refused> {
    let mut loader = Loader::new(alloc, row.profile, u64::from(row.limit), row.policy);
    for piece in pieces {
        let before = loader.snapshot();
        if let Err(refusal) = loader.feed(piece) {
            let found = Found::in_piece(before, piece, refusal, loader.imported());
            return Some(Refused { refusal, found });
        }
    }
    let found = Found::at_end(loader.snapshot(), loader.imported());
    match loader.finish() {
        Ok(_) => None,
        Err(refusal) => Some(Refused { refusal, found }),
    }
}

/// Returns the refusal of a source with these bytes, if any.
fn by_source(alloc: Global, row: &Row, binary: &[u8]) -> Option<Refused> {
    let mut source = Input::new(binary);
    let limit = u64::from(row.limit);
    match validate_from(alloc, &mut source, row.profile, limit, row.policy) {
        Err(FromFault::Refused(refusal, found)) => Some(Refused { refusal, found }),
        _ => None,
    }
}

/// Whether the two are the same refusal.
fn is_same(first: Option<Refused>, second: Option<Refused>) -> bool {
    match (first, second) {
        (None, None) => true,
        (Some(first), Some(second)) => first == second,
        _ => false,
    }
}

/// Whether memory was refused.
fn is_memory(refused: Option<Refused>) -> bool {
    matches!(refused, Some(refused) if refused.refusal.why == Why::Memory)
}

/// Whether a validator and a loader refuse these pieces so. Fails if memory is refused.
fn is_refused(
    alloc: Global,
    row: &Row,
    pieces: &[&[u8]],
    wanted: Option<Refused>,
) -> io::Result<bool> {
    let judged = by_validator(alloc, row, pieces);
    let loaded = by_loader(alloc, row, pieces);
    if is_memory(judged) || is_memory(loaded) {
        return Err(out_of_memory());
    }
    Ok(is_same(judged, wanted) && is_same(loaded, wanted))
}

/// Whether the refusal is the same in pieces of one byte, and in two pieces, wherever the binary is cut.
fn is_same_in_pieces(alloc: Global, row: &Row, wanted: Option<Refused>) -> io::Result<bool> {
    let pieces = row.input.chunks(1).collect::<Vec<&[u8]>>(alloc)?;
    if !is_refused(alloc, row, &pieces, wanted)? {
        return Ok(false);
    }
    for place in 0..row.input.len() {
        let (front, back) = row.input.split_at(place);
        if !is_refused(alloc, row, &[front, b"", back], wanted)? {
            return Ok(false);
        }
    }
    Ok(true)
}

/// Writes a refusal and its place.
fn line_of(alloc: Global, refused: &Refused) -> io::Result<String> {
    let Refused { refusal, found } = *refused;
    let mut line = format!(in alloc; "refused at {}: {}", refusal.at, refusal.why.name())?;
    write!(line, ", byte {:?}", found.byte)?;
    match found.place {
        None => write!(line, ", no section")?,
        Some(place) => write!(
            line,
            ", section {}, item {:?}, awaits {:?}",
            place.section, place.item, place.awaits
        )?,
    }
    let imported = found.imported;
    write!(
        line,
        ", imported {} and {}",
        imported.functions, imported.globals
    )?;
    Ok(line)
}

/// Returns where the row's input is refused, or a message if this depends on the pieces. It has no contract: `stdout`
/// has the right answers.
pub fn answer_place(alloc: Global, row: &Row) -> io::Result<String> {
    let whole = by_source(alloc, row, &row.input);
    if is_memory(whole) {
        return Err(out_of_memory());
    }
    if !is_refused(alloc, row, &[row.input.as_slice()], whole)? {
        return say(alloc, "differs from a source");
    }
    if !is_same_in_pieces(alloc, row, whole)? {
        return say(alloc, "differs in pieces");
    }
    match whole {
        Some(refused) => line_of(alloc, &refused),
        None => say(alloc, "valid"),
    }
}
