//! Fast path for function types that lie in the piece. Core spec 5.5.4.
//!
//! Long counts, and bytes that the format refuses, take the slow path.

ghost use Rattle.std.specs.Prelude.{◌≡◌, ◌-◌, ◌<◌, ◌≤◌, ◌^◌, IfSome, Ok, length, slice_index};
ghost use Rattle.wm_shortcuts.specs.exact.Shortcuts.{Advances};
ghost use Rattle.wm_shortcuts.specs.exact.TypeStarts.{before_results, in_params, params_after};
ghost use Rattle.wm_machine.specs.exact.ValueSteps.{value_type_of};
ghost use Rattle.wm_shortcuts.specs.exact.WholeMembers.{before_member};

use crate::chains::{Link, repeated};
use crate::give::{give_new_type, give_param, give_result, give_result_count};
use crate::in_section::InSection;
use crate::ways::Shortcut;
use wm_machine::machine::member::{InMember, SectionKind};
use wm_machine::machine::{Counts, Machine};
use wm_machine::sink::Sink;
use wm_machine::step::types::after_param;
use wm_machine::step::values::value_type;
use wm_syntax::profile::Profile;
use wm_syntax::types::ValType;
use wm_syntax::why::Why;

// Returns the counts of the section if the machine is before a function type
#[inline(always)]
fn at_type(machine: Machine) -> Option<InSection>
    ensures { IfSome result (λ i. machine ≡ before_member SectionKind.Type i) }
{
    let Some((SectionKind::Type, InMember::TypeForm, section)) = InSection::of(machine) else {
        return None;
    };
    Some(section)
}

// Returns the counts of the section if the machine is before the result count of a function type
#[inline(always)]
fn at_results(machine: Machine) -> Option<InSection>
    ensures { IfSome result (λ i. machine ≡ before_results i) }
{
    let Some((SectionKind::Type, at, section)) = InSection::of(machine) else {
        return None;
    };
    let InMember::ResultCount(number) = at else {
        return None;
    };
    if !number.is_new() {
        return None;
    }
    Some(section)
}

/// The counts before a parameter, or before the result count. `params` is the number of parameters to come. The other
/// fields are those of `Machine::Section`.
#[derive(Clone, Copy)]
pub(crate) struct InParams {
    pub(crate) counts: Counts,
    pub(crate) more: u32,
    pub(crate) left: u32,
    pub(crate) params: u32,
}

impl InParams {
    // Returns the machine after `used` more bytes, with `params` parameters to come
    #[inline(always)]
    fn after(self, used: u32, params: u32) -> Machine
        requires { used ≤ self.more }
        ensures { result ≡ in_params (params_after self used params) }
    {
        Machine::Section {
            of: SectionKind::Type,
            counts: self.counts,
            more: self.more - used,
            left: self.left,
            at: after_param(params),
        }
    }
}

/// The result of passing parameters: their number of bytes, those to come, and why the last was refused, if it was.
#[derive(Clone, Copy)]
struct GivenParams {
    used: usize,
    params: u32,
    refused: Option<Why>,
}

// Reads the form byte of a type and the count of its parameters
#[inline(always)]
fn begin_type(bytes: &[u8], start: InSection) -> Option<InParams>
    ensures within { IfSome result (λ i. 1 < length bytes.now) }
    ensures section { IfSome result (λ i. 1 < start.more) }
    ensures form { IfSome result (λ i. slice_index bytes.now 0 ≡ 0x60) }
    ensures count { IfSome result (λ i. (slice_index bytes.now 1 ≡ i.params) × (i.params < 2 ^ 7)) }
    ensures at { IfSome result (λ i. i ≡ record {
      counts = start.counts;
      more = start.more - 2;
      left = start.left;
      params = i.params;
    }) }
{
    if bytes.len() < 2 || start.more < 2 {
        return None;
    }
    let count = bytes[1];
    if bytes[0] != 0x60 || count >= 0x80 {
        return None;
    }
    Some(InParams {
        counts: start.counts,
        more: start.more - 2,
        left: start.left,
        params: u32::from(count),
    })
}

// Passes the parameters that lie in these bytes, as long as bytes of the section come after them
#[inline(always)]
fn give_params<S: Sink>(
    sink: &mut S,
    profile: Profile,
    bytes: &[u8],
    start: InParams,
) -> GivenParams
    ensures section { result.used ≤ start.more }
    ensures advances { Advances S.after S.may_run_out profile bytes.now (in_params start) (S.held sink.old)
        (record {
          used = result.used;
          refused = result.refused;
        }) (in_params (params_after start result.used result.params)) (S.held sink.new) }
{
    let end = bytes.len().min(start.more as usize);
    let mut params = start.params;
    let mut used = 0;
    while params > 0 {
        if used >= end {
            break;
        }
        let Ok(ty) = value_type(profile, bytes[used]) else {
            break;
        };
        used += 1;
        params -= 1;
        if let Err(why) = give_param(sink, ty) {
            let refused = Some(why);
            return GivenParams {
                used,
                params,
                refused,
            };
        }
    }
    GivenParams {
        used,
        params,
        refused: None,
    }
}

/// A function type up to its result count.
struct Params;

#[tactic(auto, using(crate::proofs::Advances::advances_none))]
impl Link for Params {
    #[inline(always)]
    fn take<S: Sink>(
        sink: &mut S,
        machine: &mut Machine,
        profile: Profile,
        bytes: &[u8],
    ) -> Shortcut {
        let Some(start) = at_type(*machine) else {
            return Shortcut::none();
        };
        let Some(begun) = begin_type(bytes, start) else {
            return Shortcut::none();
        };
        if let Err(why) = give_new_type(sink) {
            return Shortcut::out(1, why);
        }
        let given = give_params(sink, profile, &bytes[2..], begun);
        *machine = begun.after(given.used as u32, given.params);
        Shortcut {
            used: 2 + given.used,
            refused: given.refused,
        }
    }
}

// Takes the result count 1 and the result, if another type follows
#[inline(always)]
fn one_result<S: Sink>(
    sink: &mut S,
    machine: &mut Machine,
    profile: Profile,
    bytes: &[u8],
    start: InSection,
    ty: ValType,
) -> Shortcut
    requires machine { machine.old ≡ before_results start }
    requires within { 1 < length bytes.now }
    requires section { 1 < start.more }
    requires types { 0 < start.left }
    requires count { slice_index bytes.now 0 ≡ 1 }
    requires typed { value_type_of profile (slice_index bytes.now 1) ≡ Ok ty }
    ensures { Advances S.after S.may_run_out profile bytes.now machine.old (S.held sink.old) result
        machine.new (S.held sink.new) }
{
    if let Err(why) = give_result_count(sink, 1) {
        return Shortcut::out(1, why);
    }
    *machine = start.next(SectionKind::Type, 2);
    let refused = give_result(sink, ty).err();
    Shortcut { used: 2, refused }
}

// Takes the result count 1 and the result, whatever follows
#[inline(never)]
fn last_result<S: Sink>(
    sink: &mut S,
    machine: &mut Machine,
    profile: Profile,
    bytes: &[u8],
    start: InSection,
    ty: ValType,
) -> Shortcut
    requires machine { machine.old ≡ before_results start }
    requires within { 1 < length bytes.now }
    requires section { 0 < start.more }
    requires count { slice_index bytes.now 0 ≡ 1 }
    requires typed { value_type_of profile (slice_index bytes.now 1) ≡ Ok ty }
    ensures { Advances S.after S.may_run_out profile bytes.now machine.old (S.held sink.old) result
        machine.new (S.held sink.new) }
{
    if let Err(why) = give_result_count(sink, 1) {
        return Shortcut::out(1, why);
    }
    *machine = start.over(SectionKind::Type, 1);
    let given = give_result(sink, ty);
    Shortcut::ended(2, given, machine)
}

// Takes the results of a type, at most one, whatever follows. The section may end there, or the machine may refuse
#[inline(never)]
#[tactic(auto, using(crate::proofs::Advances::advances_none))]
fn last_results<S: Sink>(
    sink: &mut S,
    machine: &mut Machine,
    profile: Profile,
    bytes: &[u8],
    start: InSection,
) -> Shortcut
    requires machine { machine.old ≡ before_results start }
    requires within { 1 < length bytes.now }
    ensures { Advances S.after S.may_run_out profile bytes.now machine.old (S.held sink.old) result
        machine.new (S.held sink.new) }
{
    if bytes[0] == 0 {
        *machine = start.over(SectionKind::Type, 0);
        let given = give_result_count(sink, 0);
        return Shortcut::ended(1, given, machine);
    }
    let Ok(ty) = value_type(profile, bytes[1]) else {
        return Shortcut::none();
    };
    if bytes[0] != 1 || start.more == 0 {
        return Shortcut::none();
    }
    last_result(sink, machine, profile, bytes, start, ty)
}

/// The results of a type, at most one, with less work if another type follows.
struct Results;

#[tactic(auto, using(crate::proofs::Advances::advances_none))]
impl Link for Results {
    #[inline(always)]
    fn take<S: Sink>(
        sink: &mut S,
        machine: &mut Machine,
        profile: Profile,
        bytes: &[u8],
    ) -> Shortcut {
        let Some(start) = at_results(*machine) else {
            return Shortcut::none();
        };
        if bytes.len() < 2 {
            return Shortcut::none();
        }
        if start.more < 2 || start.left == 0 {
            return last_results(sink, machine, profile, bytes, start);
        }
        let count = bytes[0];
        if count == 0 {
            *machine = start.next(SectionKind::Type, 1);
            let refused = give_result_count(sink, 0).err();
            return Shortcut { used: 1, refused };
        }
        let Ok(ty) = value_type(profile, bytes[1]) else {
            return Shortcut::none();
        };
        if count != 1 {
            return Shortcut::none();
        }
        one_result(sink, machine, profile, bytes, start, ty)
    }
}

/// Takes the function types that lie in these bytes, as far as their counts are short.
pub(crate) fn function_types<S: Sink>(
    sink: &mut S,
    machine: &mut Machine,
    profile: Profile,
    bytes: &[u8],
) -> Shortcut
    ensures { Advances S.after S.may_run_out profile bytes.now machine.old (S.held sink.old) result
        machine.new (S.held sink.new) }
{
    repeated::<(Params, Results), S>(sink, machine, profile, bytes)
}
