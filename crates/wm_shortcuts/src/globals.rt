//! Fast path for consecutive globals, including the last of a section. Core spec 5.5.9.
//!
//! Globals with a float constant, and bytes that the format refuses, take the slow path.

ghost use Rattle.std.specs.Prelude.{◌≡◌, ◌<◌, IfSome, Ok, length, slice_index};
ghost use Rattle.wm_machine.specs.declared.step.reading.Reading.TheVariants.{Done};
ghost use Rattle.wm_shortcuts.specs.exact.Shortcuts.{Advances};
ghost use Rattle.wm_machine.specs.exact.ValueSteps.{value_type_of, var_step};
ghost use Rattle.wm_shortcuts.specs.exact.WholeMembers.{before_member};
ghost use Rattle.wm_shortcuts.specs.exact.WholeOps.{WholeOp};

use crate::chains::{Link, repeated};
use crate::constants::{Constant, constant_at};
use crate::give::{give_constant, give_global};
use crate::in_section::InSection;
use crate::ways::Shortcut;
use wm_machine::machine::Machine;
use wm_machine::machine::member::{InMember, SectionKind};
use wm_machine::sink::Sink;
use wm_machine::step::values::{InGlobalType, value_type};
use wm_syntax::instructions::Op;
use wm_syntax::profile::Profile;
use wm_syntax::types::GlobalType;

/// The type of a global, and its initialiser.
#[derive(Clone, Copy)]
struct Found {
    ty: GlobalType,
    value: Constant,
}

// Returns the counts of the section if the machine is before a global
#[inline(always)]
fn at_global(machine: Machine) -> Option<InSection>
    ensures { IfSome result (λ i. machine ≡ before_member SectionKind.Global i) }
{
    let Some((SectionKind::Global, InMember::GlobalType(InGlobalType::Type), section)) =
        InSection::of(machine) else {
        return None;
    };
    Some(section)
}

// Reads the global at the front of these bytes, if it lies whole in them
#[inline(always)]
fn global_at(profile: Profile, bytes: &[u8]) -> Option<Found>
    ensures ty { IfSome result (λ g. value_type_of profile (slice_index bytes.now 0) ≡ Ok g.ty.ty) }
    ensures var { IfSome result (λ g. var_step g.ty.ty (slice_index bytes.now 1) ≡ Done g.ty) }
    ensures op { IfSome result (λ g. WholeOp bytes.now 2 g.value.stop 0 0 g.value.op) }
    ensures end { IfSome result (λ g. slice_index bytes.now g.value.stop ≡ 0x0B) }
    ensures within { IfSome result (λ g. g.value.stop < length bytes.now) }
{
    if bytes.len() < 5 {
        return None;
    }
    let ty = value_type(profile, bytes[0]).ok()?;
    let var = match bytes[1] {
        0x00 => false,
        0x01 => true,
        _ => return None,
    };
    let value = constant_at(bytes, 2)?;
    Some(Found {
        ty: GlobalType { ty, var },
        value,
    })
}

/// One global, whatever follows it.
struct Global;

#[tactic(auto, using(crate::proofs::Advances::advances_none))]
impl Link for Global {
    #[inline(always)]
    fn take<S: Sink>(
        sink: &mut S,
        machine: &mut Machine,
        profile: Profile,
        bytes: &[u8],
    ) -> Shortcut {
        let Some(start) = at_global(*machine) else {
            return Shortcut::none();
        };
        let Some(found) = global_at(profile, bytes) else {
            return Shortcut::none();
        };
        let stop = found.value.stop;
        if stop > start.more as usize {
            return Shortcut::none();
        }
        if let Err(why) = give_global(sink, found.ty) {
            return Shortcut::out(2, why);
        }
        if let Err(why) = give_constant(sink, found.value.op) {
            return Shortcut::out(stop, why);
        }
        *machine = start.over(SectionKind::Global, stop as u32);
        let given = give_constant(sink, Op::End);
        Shortcut::ended(stop + 1, given, machine)
    }
}

/// Takes the globals that lie in these bytes.
#[inline(never)]
pub(crate) fn globals<S: Sink>(
    sink: &mut S,
    machine: &mut Machine,
    profile: Profile,
    bytes: &[u8],
) -> Shortcut
    ensures { Advances S.after S.may_run_out profile bytes.now machine.old (S.held sink.old) result
        machine.new (S.held sink.new) }
{
    repeated::<Global, S>(sink, machine, profile, bytes)
}
