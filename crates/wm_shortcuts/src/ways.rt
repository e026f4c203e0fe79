//! The choice of a fast path by the state of the machine, and the result of a fast path.

ghost use Rattle.std.specs.Prelude.{◌≡◌, ◌<◌, None, Some, length, min};
ghost use Rattle.wm_shortcuts.specs.exact.Shortcuts.{Advances, why_refused};

use crate::byte_runs::{data, pass};
use crate::chains::Link;
use crate::code_entries::{Body, LastEnd, entries};
use crate::exports::exports;
use crate::frames::frames;
use crate::function_types::function_types;
use crate::globals::globals;
use crate::heads::runs;
use crate::imports::imports;
use crate::indices::indices;
use crate::limited::limited_member;
use crate::segments::segment_head;
use crate::short_bytes::short;
use wm_machine::machine::member::{InEntry, InMember, SectionKind};
use wm_machine::machine::{InCustom, Machine, refusal_of};
use wm_machine::sink::Sink;
use wm_machine::step::expressions::InExpression;
use wm_machine::step::values::{InGlobalType, InLimits, InTableType, InValue};
use wm_syntax::numbers::Num32;
use wm_syntax::profile::Profile;
use wm_syntax::why::Why;

/// The result of a fast path.
#[derive(Clone, Copy)]
pub struct Shortcut {
    /// The number of bytes taken, including a refused one; 0 if the fast path does not apply.
    pub used: usize,
    /// Why the last of these bytes was refused, if it was.
    pub refused: Option<Why>,
}

impl Shortcut {
    /// The result of a fast path that does not apply.
    #[inline(always)]
    pub(crate) fn none() -> Shortcut
        ensures used { result.used ≡ 0 }
        ensures refused { result.refused ≡ None }
    {
        Shortcut {
            used: 0,
            refused: None,
        }
    }

    /// The result after `used` bytes, the last of which was refused.
    #[inline(always)]
    pub(crate) fn out(used: usize, why: Why) -> Shortcut
        ensures used { result.used ≡ used }
        ensures refused { result.refused ≡ Some why }
    {
        Shortcut {
            used,
            refused: Some(why),
        }
    }

    /// The result after `used` bytes, the last of which completed an item: the sink or the machine may have refused.
    #[inline(always)]
    pub(crate) fn ended(used: usize, given: Result<(), Why>, machine: &Machine) -> Shortcut
        ensures used { result.used ≡ used }
        ensures refused { result.refused ≡ why_refused given machine.now }
    {
        let refused = match given {
            Ok(()) => refusal_of(*machine),
            Err(why) => Some(why),
        };
        Shortcut { used, refused }
    }
}

/// Returns the smaller of a count and a length.
pub fn min_len(count: u32, len: usize) -> u32
    ensures { result ≡ min count len }
{
    (count as usize).min(len) as u32
}

/// The fast path to try from a state, at its next byte. A wrong choice costs only time.
#[derive(Clone, Copy)]
enum Way {
    Type,
    Import,
    Limited,
    Global,
    Export,
    Entry,
    Runs,
    Ops,
    Indices,
    Short,
    Segment,
    Data,
    Pass,
    Frame,
    One,
}

#[inline(always)]
fn way_of(machine: Machine, next: u8) -> Way {
    let (of, at) = match machine {
        Machine::Section { of, at, .. } => (of, at),
        Machine::Custom {
            part: InCustom::Skip,
            ..
        } => return Way::Pass,
        Machine::Custom { .. } => return Way::One,
        // `frames` does not take these, or not to their end: the header after its first byte, custom sections, and the
        // size of a start section, whose last byte takes the slow path
        Machine::Header(1..) | Machine::CustomSize { .. } | Machine::Refused(_) => return Way::One,
        Machine::Between { .. } if next == 0x00 => return Way::One,
        Machine::Size {
            of: SectionKind::Start,
            ..
        } => return Way::One,
        _ => return Way::Frame,
    };
    match of {
        SectionKind::Type => Way::Type,
        SectionKind::Import => Way::Import,
        SectionKind::Table | SectionKind::Memory => way_in_limited(at),
        SectionKind::Global => way_in_globals(at),
        SectionKind::Export => Way::Export,
        SectionKind::Function | SectionKind::Element => way_in_indices(at),
        SectionKind::Code => way_in_code(at),
        SectionKind::Segment => way_in_data(at),
        _ => Way::One,
    }
}

fn way_in_limited(at: InMember) -> Way {
    match at {
        InMember::Value(at) => match at {
            InValue::Table(InTableType::ElementType) | InValue::Memory(InLimits::Flag) => {
                Way::Limited
            }
            _ => Way::One,
        },
        _ => Way::One,
    }
}

fn way_in_globals(at: InMember) -> Way {
    match at {
        InMember::GlobalType(InGlobalType::Type) => Way::Global,
        _ => Way::One,
    }
}

// Inside an index no fast path applies
fn way_at_index(number: Num32) -> Way {
    if !number.is_new() {
        return Way::One;
    }
    Way::Indices
}

fn way_in_indices(at: InMember) -> Way {
    match at {
        InMember::SegmentStart { .. } => Way::Segment,
        InMember::Index { number, .. } => way_at_index(number),
        _ => Way::One,
    }
}

fn way_in_data(at: InMember) -> Way {
    match at {
        InMember::SegmentStart { .. } => Way::Segment,
        InMember::Data { .. } => Way::Data,
        _ => Way::One,
    }
}

fn way_in_code(at: InMember) -> Way {
    let InMember::Entry { at, .. } = at else {
        return Way::Entry;
    };
    let at = match at {
        InEntry::Run { .. } => return Way::Runs,
        InEntry::Body(at) => at,
        _ => return Way::Short,
    };
    match at {
        InExpression::Op { .. } => Way::Ops,
        InExpression::Label { number, .. } => way_at_index(number),
        _ => Way::One,
    }
}

/// Takes the fast path that applies to the machine's state, if any. None applies inside a name.
#[tactic(auto, using(crate::proofs::Advances::advances_none))]
pub fn take_way<S: Sink>(
    sink: &mut S,
    machine: &mut Machine,
    profile: Profile,
    bytes: &[u8],
) -> Shortcut
    requires { 0 < length bytes.now }
    ensures { Advances S.after S.may_run_out profile bytes.now machine.old (S.held sink.old) result
        machine.new (S.held sink.new) }
{
    match way_of(*machine, bytes[0]) {
        Way::Type => {
            let taken = function_types(sink, machine, profile, bytes);
            if taken.used > 0 {
                return taken;
            }
        }
        Way::Entry => {
            let taken = entries(sink, machine, profile, bytes);
            if taken.used > 0 {
                return taken;
            }
        }
        Way::Runs => {
            let taken = runs(sink, machine, profile, bytes);
            if taken.used > 0 {
                return taken;
            }
        }
        Way::Ops => {
            // with a single byte, only the last `end` has a fast path: the others need two bytes
            if bytes.len() == 1 {
                return LastEnd::take(sink, machine, profile, bytes);
            }
            let taken = Body::take(sink, machine, profile, bytes);
            if taken.used > 0 {
                return taken;
            }
        }
        Way::Import => return imports(sink, machine, profile, bytes),
        Way::Limited => return limited_member(sink, machine, profile, bytes),
        Way::Global => return globals(sink, machine, profile, bytes),
        Way::Export => return exports(sink, machine, profile, bytes),
        Way::Indices => return indices(sink, machine, profile, bytes),
        Way::Short => {}
        Way::Segment => return segment_head(sink, machine, profile, bytes),
        Way::Data => return data(sink, machine, profile, bytes),
        Way::Pass => return pass(sink, machine, profile, bytes),
        Way::Frame => return frames(sink, machine, profile, bytes),
        Way::One => return Shortcut::none(),
    }
    short(sink, machine, profile, bytes)
}
