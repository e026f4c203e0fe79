//! Counts the rows and runs.

/// Counts over all rows.
#[derive(Clone, Copy)]
pub struct Tally {
    pub rows: u32,
    /// Runs of a binary in two pieces.
    pub cuts: u32,
    /// Binaries that differ from a row's in one byte.
    pub changes: u32,
    /// The valid ones among these.
    pub valid: u32,
}

impl Tally {
    pub fn new() -> Self {
        Tally {
            rows: 0,
            cuts: 0,
            changes: 0,
            valid: 0,
        }
    }
}

/// Adds one.
pub fn count(number: &mut u32) {
    *number = number.saturating_add(1);
}
