//! The byte that was refused and its place in the module, for a message to a user.

ghost use Rattle.std.specs.Prelude.{◌<◌, ◌≤◌, ◌++◌, ℕ, List, length};
ghost use Rattle.wm_syntax.specs.declared.profile.Profile.{Profile as AProfile};
ghost use Rattle.wm_rules.specs.inner.Finding.{IsAfterAny, IsFound, IsFoundAtEnd};

use wm_decode::{Place, Refusal, Snapshot};
use wm_syntax::why::Why;

/// The numbers of imported functions and globals. They have the lowest indices of their index spaces. Core spec 2.5.1.
#[derive(Clone, Copy, PartialEq, Eq, Debug)]
pub struct Imported {
    pub functions: u64,
    pub globals: u64,
}

/// The refused byte of a module, its place, and the imports before it.
#[derive(Clone, Copy, PartialEq, Eq, Debug)]
pub struct Found {
    /// The refused byte. `None` if the end of the input, the limit or memory decided.
    pub byte: Option<u8>,
    /// The place of the refused byte, or of the end of the input.
    pub place: Option<Place>,
    /// The imports so far. No contract pins this field; it is tested.
    pub imported: Imported,
}

impl Imported {
    /// Returns the numbers before the first byte.
    pub(crate) fn none() -> Imported {
        Imported {
            functions: 0,
            globals: 0,
        }
    }
}

impl Found {
    /// Returns what is known of the byte at which a piece was refused. `before` is the snapshot of the validator or the
    /// loader before the piece, and `imported` its imports after it. The piece is read again up to this byte.
    pub fn in_piece(
        before: Option<Snapshot>,
        piece: &[u8],
        refusal: Refusal,
        imported: Imported,
    ) -> Found
        ensures { (p : AProfile) (bytes : List ℕ) → IsAfterAny before p bytes → length bytes < refusal.at
            → refusal.at ≤ length (bytes ++ piece.now)
            → IsFound result p (bytes ++ piece.now) refusal }
    {
        let Some(before) = before else {
            return Found {
                byte: None,
                place: None,
                imported,
            };
        };
        let byte = match refusal.why {
            Why::TooLong | Why::Memory => None,
            _ => before.byte_in(piece, refusal.at),
        };
        Found {
            byte,
            place: before.place_in(piece, refusal.at),
            imported,
        }
    }

    /// Returns what is known at the end of the input. `last` is the last snapshot of the validator or the loader.
    pub fn at_end(last: Option<Snapshot>, imported: Imported) -> Found
        ensures { (p : AProfile) (bytes : List ℕ) → IsAfterAny last p bytes → IsFoundAtEnd result p bytes }
    {
        let place = match last {
            Some(last) => last.place(),
            None => None,
        };
        Found {
            byte: None,
            place,
            imported,
        }
    }
}
