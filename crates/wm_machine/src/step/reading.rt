//! The result of a value reader after one byte.

use wm_syntax::why::Why;

/// The result of a value reader after one more byte.
pub enum Reading<R, T> {
    /// The value needs more bytes.
    More(R),
    /// The byte completes the value.
    Done(T),
    /// No value continues with this byte.
    Bad(Why),
}

/// The reading after a byte of a number: `$more` if it needs more bytes, and `$done` of its value after the last one.
macro_rules! number_reading {
    ($step:expr, $more:expr, $value:pat => $done:expr) => {
        match $step {
            Step::More => Reading::More($more),
            Step::Done($value) => $done,
            Step::Bad => Reading::Bad(Why::BadNumber),
        }
    };
}

pub(crate) use number_reading;

/// The reading of a value that another one is part of: `$more` of its state, and `$done` of it once it is complete.
macro_rules! part_reading {
    ($reading:expr, $state:ident => $more:expr, $value:pat => $done:expr) => {
        match $reading {
            Reading::More($state) => Reading::More($more),
            Reading::Done($value) => Reading::Done($done),
            Reading::Bad(why) => Reading::Bad(why),
        }
    };
}

pub(crate) use part_reading;
