//! `Spellings`: the standard's keywords alone, or older ones too.

/// Which keywords a text may use.
#[derive(Clone, Copy, PartialEq, Eq, Debug)]
pub enum Spellings {
    /// The keywords of the standard.
    Standard,
    /// The keywords of the standard, and eleven of older texts, such as `get_local` for `local.get`.
    Older,
}
