//! The slow path inside a code entry. Core spec 5.5.13.

ghost use Rattle.std.specs.Prelude.{◌≡◌};
ghost use Rattle.wm_machine.specs.exact.MemberSteps.{no_entry, runs_or_body, runs_count_step, run_step};
ghost use Rattle.wm_machine.specs.exact.MemberSteps.{entry_after_op, body_step, entry_step, member_in_entry};
ghost use Rattle.wm_machine.specs.exact.MemberSteps.{member_of_entry, entry_size_step};

use crate::machine::member::{InEntry, InMember};
use crate::machine::{Event, Plain};
use crate::step::expressions::{InExpression, expression_byte};
use crate::step::reading::Reading::{Bad, Done, More};
use crate::step::values::{InRun, run_byte};
use wm_syntax::numbers::{Num32, Step};
use wm_syntax::profile::Profile;
use wm_syntax::why::Why;

fn no_entry(why: Why) -> (InEntry, Event)
    ensures { result ≡ no_entry why }
{
    (InEntry::Failed(why), Event::Nothing)
}

/// Returns the state with `left` runs of locals to come: before the next one, or before the body.
pub fn runs_or_body(left: u32) -> InEntry
    ensures { result ≡ runs_or_body left }
{
    if left == 0 {
        InEntry::Body(InExpression::new())
    } else {
        InEntry::Run {
            more: left - 1,
            at: InRun::Count(Num32::new()),
        }
    }
}

fn run_count(mut number: Num32, byte: u8) -> (InEntry, Event)
    ensures { result ≡ runs_count_step number byte }
{
    match number.push(byte) {
        Step::More => (InEntry::RunCount(number), Event::Nothing),
        Step::Done(n) => (runs_or_body(n), Event::Nothing),
        Step::Bad => no_entry(Why::BadNumber),
    }
}

fn run(profile: Profile, more: u32, at: InRun, byte: u8) -> (InEntry, Event)
    ensures { result ≡ run_step profile more at byte }
{
    match run_byte(profile, at, byte) {
        More(at) => (InEntry::Run { more, at }, Event::Nothing),
        Done((count, ty)) => (
            runs_or_body(more),
            Event::Complete(Plain::Locals(count, ty)),
        ),
        Bad(why) => no_entry(why),
    }
}

fn after_op(at: InExpression) -> InEntry
    ensures { result ≡ entry_after_op at }
{
    match at {
        InExpression::Over => InEntry::Over,
        InExpression::Failed(why) => InEntry::Failed(why),
        _ => InEntry::Body(at),
    }
}

fn body(profile: Profile, at: InExpression, byte: u8) -> (InEntry, Event)
    ensures { result ≡ body_step profile at byte }
{
    let (next, op) = expression_byte(profile, at, byte);
    let event = match op {
        Some(op) => Event::Complete(Plain::BodyOp(op)),
        None => Event::Nothing,
    };
    (after_op(next), event)
}

fn entry_byte(profile: Profile, at: InEntry, byte: u8) -> (InEntry, Event)
    ensures { result ≡ entry_step profile at byte }
{
    match at {
        InEntry::RunCount(number) => run_count(number, byte),
        InEntry::Run { more, at } => run(profile, more, at, byte),
        InEntry::Body(at) => body(profile, at, byte),
        InEntry::Over | InEntry::Failed(_) => no_entry(Why::BodyEnd),
    }
}

/// Returns the state with `left` bytes of a code entry to come. Fails with `BodyEnd` if the entry is longer or shorter
/// than its size.
pub fn entry_framed(left: u32, at: InEntry) -> InMember
    ensures { result ≡ member_in_entry left at }
{
    match at {
        InEntry::Failed(why) => InMember::Failed(why),
        InEntry::Over if left == 0 => InMember::Over,
        InEntry::Over => InMember::Failed(Why::BodyEnd),
        _ if left == 0 => InMember::Failed(Why::BodyEnd),
        _ => InMember::Entry { more: left - 1, at },
    }
}

/// Takes a byte of the size of a code entry. Fails with `BadNumber`, or with `BodyEnd` if the size is 0.
pub(crate) fn entry_size(mut number: Num32, byte: u8) -> (InMember, Event)
    ensures { result ≡ entry_size_step number byte }
{
    match number.push(byte) {
        Step::More => (InMember::EntrySize(number), Event::Nothing),
        Step::Done(n) => {
            let at = InEntry::RunCount(Num32::new());
            (entry_framed(n, at), Event::Complete(Plain::Body))
        }
        Step::Bad => (InMember::Failed(Why::BadNumber), Event::Nothing),
    }
}

/// Takes a byte of a code entry, with `more` bytes of the entry after it.
pub fn entry(profile: Profile, more: u32, at: InEntry, byte: u8) -> (InMember, Event)
    ensures { result ≡ member_of_entry profile more at byte }
{
    let (at, event) = entry_byte(profile, at, byte);
    (entry_framed(more, at), event)
}
