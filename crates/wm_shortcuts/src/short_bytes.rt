//! Fast paths of one byte, in function types and in the head of a code entry.

ghost use Rattle.std.specs.Prelude.{◌≡◌, ◌<◌, IfSome, length, slice_index};
ghost use Rattle.wm_shortcuts.specs.exact.ShortSteps.{StepsTo, standing};
ghost use Rattle.wm_shortcuts.specs.exact.Shortcuts.{Advances};

use crate::give::give_part;
use crate::short_steps::{
    Place, Stepped, form_byte, local_count_byte, local_type_byte, param_byte, param_count_byte,
    result_byte, result_count_byte, run_count_byte, size_byte,
};
use crate::ways::Shortcut;
use wm_machine::machine::Machine;
use wm_machine::machine::member::{InEntry, InMember, SectionKind};
use wm_machine::sink::Sink;
use wm_machine::step::values::InRun;
use wm_syntax::profile::Profile;

// Takes one byte of a section that has a further byte; `found` is the effect of this byte, if it is known
#[inline(always)]
#[tactic(auto, using(crate::proofs::Advances::advances_none))]
fn stepped<S: Sink>(
    sink: &mut S,
    machine: &mut Machine,
    profile: Profile,
    bytes: &[u8],
    place: Place,
    found: Option<Stepped>,
) -> Shortcut
    requires some { 0 < length bytes.now }
    requires machine { machine.old ≡ standing place }
    requires more { 0 < place.more }
    requires found { IfSome found
        (λ s. StepsTo profile place.of place.left place.at (slice_index bytes.now 0) s) }
    ensures { Advances S.after S.may_run_out profile bytes.now machine.old (S.held sink.old) result
        machine.new (S.held sink.new) }
{
    let Some(next) = found else {
        return Shortcut::none();
    };
    *machine = Machine::Section {
        of: place.of,
        counts: place.counts,
        more: place.more - 1,
        left: next.left,
        at: next.at,
    };
    let refused = give_part(sink, next.part).err();
    Shortcut { used: 1, refused }
}

// Takes one byte of the type section
#[inline(always)]
#[tactic(auto, using(crate::proofs::Advances::advances_none))]
fn short_type<S: Sink>(
    sink: &mut S,
    machine: &mut Machine,
    profile: Profile,
    bytes: &[u8],
    place: Place,
) -> Shortcut
    requires some { 0 < length bytes.now }
    requires machine { machine.old ≡ standing place }
    requires more { 0 < place.more }
    requires of { place.of ≡ SectionKind.Type }
    ensures { Advances S.after S.may_run_out profile bytes.now machine.old (S.held sink.old) result
        machine.new (S.held sink.new) }
{
    let byte = bytes[0];
    let left = place.left;
    let member = place.at;
    match member {
        InMember::TypeForm => {
            let found = form_byte(profile, left, byte);
            stepped(sink, machine, profile, bytes, place, found)
        }
        InMember::ParamCount(number) => {
            let found = param_count_byte(profile, left, number, byte);
            stepped(sink, machine, profile, bytes, place, found)
        }
        InMember::Param { more } => {
            let found = param_byte(profile, left, more, byte);
            stepped(sink, machine, profile, bytes, place, found)
        }
        InMember::ResultCount(number) => {
            let found = result_count_byte(profile, left, number, byte);
            stepped(sink, machine, profile, bytes, place, found)
        }
        InMember::ResultType { more } => {
            let found = result_byte(profile, left, more, byte);
            stepped(sink, machine, profile, bytes, place, found)
        }
        _ => Shortcut::none(),
    }
}

// Takes one byte of the code section
#[inline(always)]
#[tactic(auto, using(crate::proofs::Advances::advances_none))]
fn short_code<S: Sink>(
    sink: &mut S,
    machine: &mut Machine,
    profile: Profile,
    bytes: &[u8],
    place: Place,
) -> Shortcut
    requires some { 0 < length bytes.now }
    requires machine { machine.old ≡ standing place }
    requires more { 0 < place.more }
    requires of { place.of ≡ SectionKind.Code }
    ensures { Advances S.after S.may_run_out profile bytes.now machine.old (S.held sink.old) result
        machine.new (S.held sink.new) }
{
    let byte = bytes[0];
    let left = place.left;
    let member = place.at;
    if let InMember::EntrySize(number) = member {
        let found = size_byte(profile, left, number, byte);
        return stepped(sink, machine, profile, bytes, place, found);
    }
    let InMember::Entry { more, at } = member else {
        return Shortcut::none();
    };
    match at {
        InEntry::RunCount(number) => {
            let found = run_count_byte(profile, left, more, number, byte);
            stepped(sink, machine, profile, bytes, place, found)
        }
        InEntry::Run { more: runs, at } => match at {
            InRun::Count(number) => {
                let found = local_count_byte(profile, left, more, runs, number, byte);
                stepped(sink, machine, profile, bytes, place, found)
            }
            InRun::Type { count } => {
                let found = local_type_byte(profile, left, more, runs, count, byte);
                stepped(sink, machine, profile, bytes, place, found)
            }
        },
        _ => Shortcut::none(),
    }
}

/// Takes one byte by a fast path, if there is one for it.
#[inline(always)]
#[tactic(auto, using(crate::proofs::Advances::advances_none))]
pub(crate) fn short<S: Sink>(
    sink: &mut S,
    machine: &mut Machine,
    profile: Profile,
    bytes: &[u8],
) -> Shortcut
    requires { 0 < length bytes.now }
    ensures { Advances S.after S.may_run_out profile bytes.now machine.old (S.held sink.old) result
        machine.new (S.held sink.new) }
{
    let Some(place) = Place::of(*machine) else {
        return Shortcut::none();
    };
    match place.of {
        SectionKind::Type => short_type(sink, machine, profile, bytes, place),
        SectionKind::Code => short_code(sink, machine, profile, bytes, place),
        _ => Shortcut::none(),
    }
}
