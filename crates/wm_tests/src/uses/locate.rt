use std::alloc::Global;
use wmod::{Found, Policy, Profile, Validator};

/// Returns what is known of the byte at which a module is refused: its section, its member, and what the
/// format expects there. Returns `None` if the module is valid.
pub fn locate(alloc: Global, pieces: &[&[u8]]) -> Option<Found> {
    let mut validator = Validator::new(alloc, Profile::ONE, 1_000_000, Policy::no_limits());
    for piece in pieces {
        let before = validator.snapshot();
        if let Err(refusal) = validator.feed(piece) {
            return Some(Found::in_piece(before, piece, refusal, validator.imported()));
        }
    }
    let end = Found::at_end(validator.snapshot(), validator.imported());
    match validator.finish() {
        Ok(_) => None,
        Err(_) => Some(end),
    }
}
