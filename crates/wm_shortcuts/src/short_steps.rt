//! The effect of one byte of a function type or of a code entry's head, with less work than on the slow path.
//!
//! A byte that ends a section, or that the format refuses, takes the slow path: the functions return `None` for it.

ghost use Rattle.std.specs.Prelude.{◌≡◌, ◌-◌, ◌<◌, IfSome};
ghost use Rattle.wm_shortcuts.specs.exact.ShortSteps.{StepsTo, standing};

use crate::in_section::InSection;
use wm_machine::machine::member::{InEntry, InMember, SectionKind};
use wm_machine::machine::{Counts, Machine, Plain};
use wm_machine::step::code_entries::runs_or_body;
use wm_machine::step::types::after_param;
use wm_machine::step::values::{InRun, value_type};
use wm_syntax::numbers::{Num32, Step};
use wm_syntax::profile::Profile;

/// The state after a byte: the members after this one, the state inside the member, and the item that was completed.
#[derive(Clone, Copy)]
pub(crate) struct Stepped {
    pub(crate) left: u32,
    pub(crate) at: InMember,
    pub(crate) part: Option<Plain>,
}

/// The state before a byte of a section that has a further byte. The fields are those of `Machine::Section`.
#[derive(Clone, Copy)]
pub(crate) struct Place {
    pub(crate) of: SectionKind,
    pub(crate) counts: Counts,
    pub(crate) more: u32,
    pub(crate) left: u32,
    pub(crate) at: InMember,
}

impl Place {
    /// Returns the state if the machine is in such a section.
    #[inline(always)]
    pub(crate) fn of(machine: Machine) -> Option<Place>
        ensures machine { IfSome result (λ p. machine ≡ standing p) }
        ensures more { IfSome result (λ p. 0 < p.more) }
    {
        let Some((of, at, section)) = InSection::of(machine) else {
            return None;
        };
        if section.more == 0 {
            return None;
        }
        Some(Place {
            of,
            counts: section.counts,
            more: section.more,
            left: section.left,
            at,
        })
    }
}

/// Takes a byte of the size of a code entry.
#[inline(always)]
pub(crate) fn size_byte(profile: Profile, left: u32, mut number: Num32, byte: u8) -> Option<Stepped>
    ensures { IfSome result (λ s. StepsTo profile SectionKind.Code left (InMember.EntrySize number) byte s) }
{
    match number.push(byte) {
        Step::More => Some(Stepped {
            left,
            at: InMember::EntrySize(number),
            part: None,
        }),
        Step::Done(0) | Step::Bad => None,
        Step::Done(size) => Some(Stepped {
            left,
            at: InMember::Entry {
                more: size - 1,
                at: InEntry::RunCount(Num32::new()),
            },
            part: Some(Plain::Body),
        }),
    }
}

/// Takes a byte of the count of an entry's runs of locals.
#[inline(always)]
pub(crate) fn run_count_byte(
    profile: Profile,
    left: u32,
    more: u32,
    mut number: Num32,
    byte: u8,
) -> Option<Stepped>
    ensures { IfSome result (λ s. StepsTo profile SectionKind.Code left
        (InMember.Entry more (InEntry.RunCount number)) byte s) }
{
    let Step::Done(runs) = number.push(byte) else {
        return None;
    };
    if more == 0 {
        return None;
    }
    let at = runs_or_body(runs);
    Some(Stepped {
        left,
        at: InMember::Entry { more: more - 1, at },
        part: None,
    })
}

/// Takes a byte of the count of a run of locals.
#[inline(always)]
pub(crate) fn local_count_byte(
    profile: Profile,
    left: u32,
    more: u32,
    runs: u32,
    mut number: Num32,
    byte: u8,
) -> Option<Stepped>
    ensures { IfSome result (λ s. StepsTo profile SectionKind.Code left
        (InMember.Entry more (InEntry.Run runs (InRun.Count number))) byte s) }
{
    if more == 0 {
        return None;
    }
    let at = match number.push(byte) {
        Step::More => InRun::Count(number),
        Step::Done(count) => InRun::Type { count },
        Step::Bad => return None,
    };
    Some(Stepped {
        left,
        at: InMember::Entry {
            more: more - 1,
            at: InEntry::Run { more: runs, at },
        },
        part: None,
    })
}

/// Takes the type of a run of `count` locals.
#[inline(always)]
pub(crate) fn local_type_byte(
    profile: Profile,
    left: u32,
    more: u32,
    runs: u32,
    count: u32,
    byte: u8,
) -> Option<Stepped>
    ensures { IfSome result (λ s. StepsTo profile SectionKind.Code left
        (InMember.Entry more (InEntry.Run runs (InRun.Type count))) byte s) }
{
    if more == 0 {
        return None;
    }
    let ty = value_type(profile, byte).ok()?;
    let at = runs_or_body(runs);
    Some(Stepped {
        left,
        at: InMember::Entry { more: more - 1, at },
        part: Some(Plain::Locals(count, ty)),
    })
}

/// Takes the form byte of a function type.
#[inline(always)]
pub(crate) fn form_byte(profile: Profile, left: u32, byte: u8) -> Option<Stepped>
    ensures { IfSome result (λ s. StepsTo profile SectionKind.Type left InMember.TypeForm byte s) }
{
    if byte != 0x60 {
        return None;
    }
    Some(Stepped {
        left,
        at: InMember::ParamCount(Num32::new()),
        part: Some(Plain::NewType),
    })
}

/// Takes a byte of the count of its parameters.
#[inline(always)]
pub(crate) fn param_count_byte(
    profile: Profile,
    left: u32,
    mut number: Num32,
    byte: u8,
) -> Option<Stepped>
    ensures { IfSome result (λ s. StepsTo profile SectionKind.Type left (InMember.ParamCount number) byte s) }
{
    let Step::Done(count) = number.push(byte) else {
        return None;
    };
    Some(Stepped {
        left,
        at: after_param(count),
        part: None,
    })
}

/// Takes a parameter, with `more` after it.
#[inline(always)]
pub(crate) fn param_byte(profile: Profile, left: u32, more: u32, byte: u8) -> Option<Stepped>
    ensures { IfSome result (λ s. StepsTo profile SectionKind.Type left (InMember.Param more) byte s) }
{
    let ty = value_type(profile, byte).ok()?;
    Some(Stepped {
        left,
        at: after_param(more),
        part: Some(Plain::Param(ty)),
    })
}

/// Takes a byte of the count of its results.
#[inline(always)]
pub(crate) fn result_count_byte(
    profile: Profile,
    left: u32,
    mut number: Num32,
    byte: u8,
) -> Option<Stepped>
    ensures { IfSome result
        (λ s. StepsTo profile SectionKind.Type left (InMember.ResultCount number) byte s) }
{
    let Step::Done(count) = number.push(byte) else {
        return None;
    };
    let part = Some(Plain::ResultCount(count));
    if count > 0 {
        let at = InMember::ResultType { more: count - 1 };
        return Some(Stepped { left, at, part });
    }
    next_type(left, part)
}

/// Takes a result, with `more` after it.
#[inline(always)]
pub(crate) fn result_byte(profile: Profile, left: u32, more: u32, byte: u8) -> Option<Stepped>
    ensures { IfSome result (λ s. StepsTo profile SectionKind.Type left (InMember.ResultType more) byte s) }
{
    let ty = value_type(profile, byte).ok()?;
    let part = Some(Plain::OneResult(ty));
    if more > 0 {
        let at = InMember::ResultType { more: more - 1 };
        return Some(Stepped { left, at, part });
    }
    next_type(left, part)
}

// Returns the state before the next function type, if there is one
#[inline(always)]
fn next_type(left: u32, part: Option<Plain>) -> Option<Stepped>
    ensures some { IfSome result (λ s. 0 < left) }
    ensures next { IfSome result (λ s. s ≡ record { left = left - 1; at = InMember.TypeForm; part = part }) }
{
    if left == 0 {
        return None;
    }
    Some(Stepped {
        left: left - 1,
        at: InMember::TypeForm,
        part,
    })
}
