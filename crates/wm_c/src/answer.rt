//! The answer to an input, as C gets it.

ghost use Rattle.std.specs.Prelude.{◌≡◌};
ghost use Rattle.wm_c.specs.Answers.{in_numbers, misuse};

use crate::codes::{refused_status, why_number};
use wm_decode::Refusal;
use wm_rules::Summary;

/// `wmod_answer` of the header, which documents each field.
#[repr(C)]
#[derive(Clone, Copy, PartialEq, Eq, Debug)]
pub struct Answer {
    pub status: u32,
    pub why: u32,
    pub at: u64,
    pub functions: u64,
    pub moves: u64,
    pub operands: u64,
    pub controls: u64,
    pub probes: u64,
}

impl Answer {
    /// Returns a validator's answer in numbers.
    pub(crate) fn of(found: Result<Summary, Refusal>) -> Answer
        ensures { result ≡ in_numbers found }
    {
        match found {
            Ok(summary) => Answer {
                status: 0,
                why: 0,
                at: 0,
                functions: summary.functions,
                moves: summary.moves,
                operands: summary.operands,
                controls: summary.controls,
                probes: summary.probes,
            },
            Err(refusal) => Answer {
                status: refused_status(refusal.why),
                why: why_number(refusal.why),
                at: refusal.at,
                functions: 0,
                moves: 0,
                operands: 0,
                controls: 0,
                probes: 0,
            },
        }
    }

    /// Returns the answer to an argument that is out of range, or to an empty handle.
    pub(crate) fn misused() -> Answer
        ensures { result ≡ misuse }
    {
        Answer {
            status: 2,
            why: 0,
            at: 0,
            functions: 0,
            moves: 0,
            operands: 0,
            controls: 0,
            probes: 0,
        }
    }
}
