//! The result of a conversion, as C gets it.

ghost use Rattle.std.specs.Prelude.{◌≡◌, ◌<◌, ◌≤◌, length};
ghost use Rattle.wm_c.specs.Conversions.{Fills, misuse, no_room, refuses, unbuilt, unchecked, wrote};

use crate::codes::{refused_status, text_number, text_status, why_number};
use wm_decode::Refusal;
use wm_read::faults::TextRefusal;
use wm_syntax::why::Why;
use wm_write::check_module::CheckFault;

/// `wmod_output` of the header, which documents each field.
#[repr(C)]
#[derive(Clone, Copy, PartialEq, Eq, Debug)]
pub struct Output {
    pub status: u32,
    pub why: u32,
    pub at: u64,
    pub length: u64,
}

/// Why no binary is given for a text.
#[derive(Clone, Copy, PartialEq, Eq, Debug)]
pub enum Unbuilt {
    /// It is longer than the limit. The offset is the limit plus 1.
    TooLong(u64),
    /// It writes no module of the profile, or memory was refused.
    Text(TextRefusal),
    /// It writes a module for which no binary is given.
    Check(CheckFault),
}

/// The number of the refusal of a module with a section that is too large.
pub(crate) const TOO_LARGE: u32 = 100;

impl Output {
    /// Returns the output for an option that is out of range.
    pub(crate) fn misused() -> Output
        ensures { result ≡ misuse }
    {
        Output::ended(2, 0, 0)
    }

    /// Returns the output for a refusal of a module.
    pub(crate) fn refused(refusal: Refusal) -> Output
        ensures { result ≡ refuses refusal }
    {
        Output::ended(
            refused_status(refusal.why),
            why_number(refusal.why),
            refusal.at,
        )
    }

    /// Returns the output for a module for which no binary is given.
    pub(crate) fn unchecked(fault: CheckFault) -> Output
        ensures { result ≡ unchecked fault }
    {
        match fault {
            CheckFault::Refused(refusal) => Output::refused(refusal),
            CheckFault::TooLarge => Output::ended(1, TOO_LARGE, 0),
            CheckFault::Memory => Output::ended(4, why_number(Why::Memory), 0),
        }
    }

    /// Returns the output for a text for which no binary is given.
    pub(crate) fn unbuilt(found: Unbuilt) -> Output
        ensures { result ≡ unbuilt found }
    {
        match found {
            Unbuilt::TooLong(at) => Output::ended(1, why_number(Why::TooLong), at),
            Unbuilt::Text(refusal) => Output::ended(
                text_status(refusal.why),
                text_number(refusal.why),
                refusal.at as u64,
            ),
            Unbuilt::Check(fault) => Output::unchecked(fault),
        }
    }

    fn ended(status: u32, why: u32, at: u64) -> Output
        ensures status { result.status ≡ status }
        ensures why { result.why ≡ why }
        ensures at { result.at ≡ at }
        ensures length { result.length ≡ 0 }
    {
        Output {
            status,
            why,
            at,
            length: 0,
        }
    }
}

/// Copies `from` to the front of `out`. If there is no room, copies nothing and returns the length that is needed.
pub(crate) fn filled(from: &[u8], out: &mut [u8]) -> Output
    ensures whole { length from.now ≤ length out.old → (result ≡ wrote (length from.now))
        × Fills from.now out.old out.new }
    ensures room { length out.old < length from.now → (result ≡ no_room (length from.now))
        × (out.new ≡ out.old) }
{
    let n = from.len();
    let (status, length) = (if n <= out.len() { 0 } else { 5 }, n as u64);
    if status == 0 {
        let (front, _) = out.split_at_mut(n);
        front.copy_from_slice(from);
    }
    Output {
        status,
        why: 0,
        at: 0,
        length,
    }
}
