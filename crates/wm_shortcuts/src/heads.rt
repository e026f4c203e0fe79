//! Fast path for the head of a code entry: its size, the count of its runs of locals, and the runs that lie in the
//! piece. Core spec 5.5.13.
//!
//! Long numbers, and bytes that the format refuses, take the slow path.

ghost use Rattle.std.specs.Prelude.{◌≡◌, ◌+◌, ◌-◌, ◌<◌, ◌≤◌, ◌^◌, IfSome, Ok, length, slice_index};
ghost use Rattle.wm_shortcuts.specs.exact.Heads.{IsShort, head_after, in_head};
ghost use Rattle.wm_shortcuts.specs.exact.Shortcuts.{Advances};
ghost use Rattle.wm_machine.specs.exact.ValueSteps.{value_type_of};
ghost use Rattle.wm_shortcuts.specs.exact.WholeMembers.{before_member};

use crate::chains::Link;
use crate::give::{give_body, give_locals};
use crate::in_section::InSection;
use crate::ways::Shortcut;
use crate::whole_numbers::Whole;
use wm_machine::machine::member::{InEntry, InMember, SectionKind};
use wm_machine::machine::{Counts, Machine};
use wm_machine::sink::Sink;
use wm_machine::step::code_entries::runs_or_body;
use wm_machine::step::values::{InRun, value_type};
use wm_syntax::profile::Profile;
use wm_syntax::types::ValType;
use wm_syntax::why::Why;

// Returns the counts of the section if the machine is before the size of a code entry
#[inline(always)]
fn at_entry(machine: Machine) -> Option<InSection>
    ensures { IfSome result (λ i. machine ≡ before_member SectionKind.Code i) }
{
    let Some((SectionKind::Code, at, section)) = InSection::of(machine) else {
        return None;
    };
    let InMember::EntrySize(number) = at else {
        return None;
    };
    if !number.is_new() {
        return None;
    }
    Some(section)
}

/// The counts before a run of locals, or before the first op. `rest` is the number of bytes of the entry after the next
/// one, and `runs` the number of runs to come. The other fields are those of `Machine::Section`.
#[derive(Clone, Copy)]
pub(crate) struct InHead {
    pub(crate) counts: Counts,
    pub(crate) more: u32,
    pub(crate) left: u32,
    pub(crate) rest: u32,
    pub(crate) runs: u32,
}

impl InHead {
    /// Returns the counts if the machine is before a run.
    #[inline(always)]
    fn of(machine: Machine) -> Option<InHead>
        ensures { IfSome result (λ i. machine ≡ in_head i) }
    {
        let Some((SectionKind::Code, InMember::Entry { more: rest, at }, section)) = InSection::of(
            machine,
        ) else {
            return None;
        };
        let InEntry::Run { more: runs, at } = at else {
            return None;
        };
        let InRun::Count(number) = at else {
            return None;
        };
        if !number.is_new() || runs == u32::MAX {
            return None;
        }
        Some(InHead {
            counts: section.counts,
            more: section.more,
            left: section.left,
            rest,
            runs: runs + 1,
        })
    }

    /// Returns the machine after `used` more bytes, with `runs` runs to come.
    #[inline(always)]
    fn after(self, used: u32, runs: u32) -> Machine
        requires section { used ≤ self.more }
        requires entry { used ≤ self.rest }
        ensures { result ≡ in_head (head_after self used runs) }
    {
        Machine::Section {
            of: SectionKind::Code,
            counts: self.counts,
            more: self.more - used,
            left: self.left,
            at: InMember::Entry {
                more: self.rest - used,
                at: runs_or_body(runs),
            },
        }
    }
}

/// The size of an entry and its run count, once read: the number of bytes of the size, and the counts after both.
#[derive(Clone, Copy)]
struct Begun {
    sized: usize,
    at: InHead,
}

// Reads a number of one or two bytes
#[inline(always)]
#[tactic(auto, using(crate::proofs::HeadBytes::short_one, crate::proofs::HeadBytes::short_two))]
fn short_number(bytes: &[u8]) -> Option<Whole<u32>>
    requires { 1 < length bytes.now }
    ensures { IfSome result (λ w. IsShort bytes.now w.next w.value) }
{
    let byte = bytes[0];
    if byte < 0x80 {
        return Some(Whole {
            value: u32::from(byte),
            next: 1,
        });
    }
    let second = bytes[1];
    if second >= 0x80 {
        return None;
    }
    Some(Whole {
        value: u32::from(byte - 0x80) + u32::from(second) * 0x80,
        next: 2,
    })
}

// Reads the size of an entry and the count of its runs, if bytes of the entry and of the section come after them
#[inline(always)]
fn begin_head(bytes: &[u8], start: InSection) -> Option<Begun>
    ensures size { IfSome result (λ b. IsShort bytes.now b.sized (b.at.rest + 2)) }
    ensures within { IfSome result (λ b. b.sized < length bytes.now) }
    ensures section { IfSome result (λ b. b.sized < start.more) }
    ensures count { IfSome result (λ b. (slice_index bytes.now b.sized ≡ b.at.runs) × (b.at.runs < 2 ^ 7)) }
    ensures at { IfSome result (λ b. b.at ≡ record {
      counts = start.counts;
      more = start.more - (b.sized + 1);
      left = start.left;
      rest = b.at.rest;
      runs = b.at.runs;
    }) }
{
    if bytes.len() < 3 || start.more < 3 {
        return None;
    }
    let size = short_number(bytes)?;
    let runs = bytes[size.next];
    if runs >= 0x80 || size.value < 2 {
        return None;
    }
    Some(Begun {
        sized: size.next,
        at: InHead {
            counts: start.counts,
            more: start.more - 1 - size.next as u32,
            left: start.left,
            rest: size.value - 2,
            runs: u32::from(runs),
        },
    })
}

// Reads the count of a run and its type, if the count has one byte
#[inline(always)]
fn run_at(profile: Profile, bytes: &[u8], at: usize) -> Option<(u32, ValType)>
    requires { at + 1 < length bytes.now }
    ensures count { IfSome result (λ r. (r.0 ≡ slice_index bytes.now at) × (r.0 < 2 ^ 7)) }
    ensures typed { IfSome result (λ r. value_type_of profile (slice_index bytes.now (at + 1)) ≡ Ok r.1) }
{
    let count = bytes[at];
    if count >= 0x80 {
        return None;
    }
    match value_type(profile, bytes[at + 1]) {
        Ok(ty) => Some((u32::from(count), ty)),
        Err(_) => None,
    }
}

/// The result of passing runs: their number of bytes, the runs still to come, and why the last was refused, if it was.
#[derive(Clone, Copy)]
struct GivenRuns {
    used: usize,
    runs: u32,
    refused: Option<Why>,
}

// Passes the runs that lie in these bytes, as long as bytes of the entry and of the section come after them
#[inline(always)]
fn give_runs<S: Sink>(sink: &mut S, profile: Profile, bytes: &[u8], start: InHead) -> GivenRuns
    ensures section { result.used ≤ start.more }
    ensures entry { result.used ≤ start.rest }
    ensures advances { Advances S.after S.may_run_out profile bytes.now (in_head start) (S.held sink.old)
        (record {
          used = result.used;
          refused = result.refused;
        }) (in_head (head_after start result.used result.runs)) (S.held sink.new) }
{
    let end = bytes.len().min(start.more.min(start.rest) as usize);
    let mut runs = start.runs;
    let mut used = 0;
    while runs > 0 {
        if used + 2 > end {
            break;
        }
        let Some((count, ty)) = run_at(profile, bytes, used) else {
            break;
        };
        used += 2;
        runs -= 1;
        if let Err(why) = give_locals(sink, count, ty) {
            let refused = Some(why);
            return GivenRuns {
                used,
                runs,
                refused,
            };
        }
    }
    GivenRuns {
        used,
        runs,
        refused: None,
    }
}

/// Takes the runs of locals that lie in these bytes, as long as their counts have one byte.
#[tactic(auto, using(crate::proofs::Advances::advances_none))]
pub(crate) fn runs<S: Sink>(
    sink: &mut S,
    machine: &mut Machine,
    profile: Profile,
    bytes: &[u8],
) -> Shortcut
    ensures { Advances S.after S.may_run_out profile bytes.now machine.old (S.held sink.old) result
        machine.new (S.held sink.new) }
{
    let Some(start) = InHead::of(*machine) else {
        return Shortcut::none();
    };
    let given = give_runs(sink, profile, bytes, start);
    *machine = start.after(given.used as u32, given.runs);
    Shortcut {
        used: given.used,
        refused: given.refused,
    }
}

/// The head of a code entry, as far as its numbers are short and lie in the bytes.
pub(crate) struct Head;

#[tactic(auto, using(crate::proofs::Advances::advances_none))]
impl Link for Head {
    fn take<S: Sink>(
        sink: &mut S,
        machine: &mut Machine,
        profile: Profile,
        bytes: &[u8],
    ) -> Shortcut {
        let Some(start) = at_entry(*machine) else {
            return Shortcut::none();
        };
        let Some(begun) = begin_head(bytes, start) else {
            return Shortcut::none();
        };
        if let Err(why) = give_body(sink) {
            return Shortcut::out(begun.sized, why);
        }
        let first = begun.sized + 1;
        let given = give_runs(sink, profile, &bytes[first..], begun.at);
        *machine = begun.at.after(given.used as u32, given.runs);
        Shortcut {
            used: first + given.used,
            refused: given.refused,
        }
    }
}
