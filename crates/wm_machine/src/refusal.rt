//! The refusal of an input.

use std::error::Error;
use std::fmt;
use wm_syntax::why::Why;

/// The refusal of an input: its offset and its reason.
#[derive(Clone, Copy, Debug, PartialEq, Eq)]
pub struct Refusal {
    /// The offset: the number of bytes read up to and including the deciding one.
    pub at: u64,
    pub why: Why,
}

impl fmt::Display for Refusal {
    fn fmt<W: fmt::Write>(&self, f: &mut fmt::Formatter<W>) -> fmt::Result {
        let Refusal { at, why } = self;
        write!(f, "refused at {at}: {} ({why})", why.name())
    }
}

impl Error for Refusal {}
