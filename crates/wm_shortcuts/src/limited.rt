//! Fast path for tables and memories: limits, in a table after the element type. Core spec 5.3.4, 5.5.7, 5.5.8.
//!
//! Members that are split across pieces, and bytes that the format refuses, take the slow path.

ghost use Rattle.std.specs.Prelude.{◌≡◌, ◌<◌, ◌≤◌, IfSome, length};
ghost use Rattle.wm_shortcuts.specs.exact.Limited.{LimitsBegin, LimitsLie, limited_item, limited_section};
ghost use Rattle.wm_shortcuts.specs.exact.Shortcuts.{Advances};
ghost use Rattle.wm_shortcuts.specs.exact.WholeMembers.{before_member};

use crate::give::give;
use crate::in_section::InSection;
use crate::ways::Shortcut;
use crate::whole_numbers::u32_at;
use wm_machine::machine::member::{InMember, SectionKind};
use wm_machine::machine::{Machine, Plain};
use wm_machine::sink::Sink;
use wm_machine::step::values::{InLimits, InTableType, InValue};
use wm_syntax::profile::Profile;
use wm_syntax::types::Limits;

/// The kind of member that has limits.
#[derive(Clone, Copy)]
pub(crate) enum Limited {
    Table,
    Memory,
}

impl Limited {
    #[inline(always)]
    fn section(self) -> SectionKind
        ensures { result ≡ limited_section self }
    {
        match self {
            Limited::Table => SectionKind::Table,
            Limited::Memory => SectionKind::Memory,
        }
    }

    // Returns the item of these limits
    #[inline(always)]
    fn item(self, limits: Limits) -> Plain
        ensures { result ≡ limited_item self limits }
    {
        match self {
            Limited::Table => Plain::Table(limits),
            Limited::Memory => Plain::Memory(limits),
        }
    }

    // Returns the index at which the limits begin
    #[inline(always)]
    fn begin(self, bytes: &[u8]) -> Option<usize>
        requires { 0 < length bytes.now }
        ensures begin { IfSome result (λ from. LimitsBegin self bytes.now from) }
        ensures near { IfSome result (λ from. from ≤ 1) }
    {
        match self {
            Limited::Table if bytes[0] == 0x70 => Some(1),
            Limited::Table => None,
            Limited::Memory => Some(0),
        }
    }
}

/// The kind of the next member, and the counts of the section before it.
#[derive(Clone, Copy)]
struct BeforeLimited {
    of: Limited,
    place: InSection,
}

/// Limits, and the index after them.
#[derive(Clone, Copy)]
struct Found {
    limits: Limits,
    next: usize,
}

// Returns the kind and the counts if the machine is before a table or a memory
#[inline(always)]
fn at_limited(machine: Machine) -> Option<BeforeLimited>
    ensures { IfSome result (λ b. machine ≡ before_member (limited_section b.of) b.place) }
{
    let Some((section, InMember::Value(at), place)) = InSection::of(machine) else {
        return None;
    };
    let of = match (section, at) {
        (SectionKind::Table, InValue::Table(InTableType::ElementType)) => Limited::Table,
        (SectionKind::Memory, InValue::Memory(InLimits::Flag)) => Limited::Memory,
        _ => return None,
    };
    Some(BeforeLimited { of, place })
}

// Reads the limits at the index `from`, if they lie whole in these bytes
#[inline(always)]
fn limits_at(bytes: &[u8], from: usize) -> Option<Found>
    requires { from ≤ 1 }
    ensures lie { IfSome result (λ f. LimitsLie bytes.now from f.next f.limits) }
    ensures some { IfSome result (λ f. 0 < f.next) }
{
    if from + 1 >= bytes.len() {
        return None;
    }
    let min = u32_at(bytes, from + 1)?;
    if bytes[from] == 0x00 {
        return Some(Found {
            limits: Limits {
                min: min.value,
                max: None,
            },
            next: min.next,
        });
    }
    if bytes[from] != 0x01 || min.next >= bytes.len() {
        return None;
    }
    let max = u32_at(bytes, min.next)?;
    Some(Found {
        limits: Limits {
            min: min.value,
            max: Some(max.value),
        },
        next: max.next,
    })
}

/// Takes a table or a memory.
#[inline(never)]
#[tactic(auto, using(crate::proofs::Advances::advances_none))]
pub(crate) fn limited_member<S: Sink>(
    sink: &mut S,
    machine: &mut Machine,
    profile: Profile,
    bytes: &[u8],
) -> Shortcut
    requires { 0 < length bytes.now }
    ensures { Advances S.after S.may_run_out profile bytes.now machine.old (S.held sink.old) result
        machine.new (S.held sink.new) }
{
    let Some(start) = at_limited(*machine) else {
        return Shortcut::none();
    };
    let Some(from) = start.of.begin(bytes) else {
        return Shortcut::none();
    };
    let Some(found) = limits_at(bytes, from) else {
        return Shortcut::none();
    };
    let place = start.place;
    let last = found.next - 1;
    if last > place.more as usize {
        return Shortcut::none();
    }
    *machine = place.over(start.of.section(), last as u32);
    let given = give(sink, start.of.item(found.limits));
    Shortcut::ended(found.next, given, machine)
}
