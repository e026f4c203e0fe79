//! The slow path inside a function type. Core spec 5.3.3.

ghost use Rattle.std.specs.Prelude.{◌≡◌};
ghost use Rattle.wm_machine.specs.exact.MemberSteps.{type_form_step, after_param, param_count_step};
ghost use Rattle.wm_machine.specs.exact.MemberSteps.{param_step, after_result, result_count_step, result_step};

use crate::machine::member::InMember;
use crate::machine::{Event, Plain};
use crate::step::values::value_type;
use wm_syntax::numbers::{Num32, Step};
use wm_syntax::profile::Profile;
use wm_syntax::why::Why;

/// Takes the byte 60 that begins a function type. Fails with `BadByte`.
pub(crate) fn type_form(byte: u8) -> (InMember, Event)
    ensures { result ≡ type_form_step byte }
{
    if byte == 0x60 {
        let number = Num32::new();
        (
            InMember::ParamCount(number),
            Event::Complete(Plain::NewType),
        )
    } else {
        (InMember::Failed(Why::BadByte), Event::Nothing)
    }
}

/// Returns the state with `left` parameters to come: before the next one, or before the result count.
pub fn after_param(left: u32) -> InMember
    ensures { result ≡ after_param left }
{
    if left == 0 {
        InMember::ResultCount(Num32::new())
    } else {
        InMember::Param { more: left - 1 }
    }
}

/// Takes a byte of the parameter count. Fails with `BadNumber`.
pub(crate) fn param_count(mut number: Num32, byte: u8) -> (InMember, Event)
    ensures { result ≡ param_count_step number byte }
{
    match number.push(byte) {
        Step::More => (InMember::ParamCount(number), Event::Nothing),
        Step::Done(n) => (after_param(n), Event::Nothing),
        Step::Bad => (InMember::Failed(Why::BadNumber), Event::Nothing),
    }
}

/// Takes a parameter, with `more` after it. Fails as `value_type` does.
pub fn param(profile: Profile, more: u32, byte: u8) -> (InMember, Event)
    ensures { result ≡ param_step profile more byte }
{
    match value_type(profile, byte) {
        Ok(ty) => (after_param(more), Event::Complete(Plain::Param(ty))),
        Err(why) => (InMember::Failed(why), Event::Nothing),
    }
}

fn after_result(left: u32) -> InMember
    ensures { result ≡ after_result left }
{
    if left == 0 {
        InMember::Over
    } else {
        InMember::ResultType { more: left - 1 }
    }
}

/// Takes a byte of the result count. Fails with `BadNumber`.
pub fn result_count(mut number: Num32, byte: u8) -> (InMember, Event)
    ensures { result ≡ result_count_step number byte }
{
    match number.push(byte) {
        Step::More => (InMember::ResultCount(number), Event::Nothing),
        Step::Done(n) => (after_result(n), Event::Complete(Plain::ResultCount(n))),
        Step::Bad => (InMember::Failed(Why::BadNumber), Event::Nothing),
    }
}

/// Takes a result, with `more` after it. Fails as `value_type` does.
pub fn result_type(profile: Profile, more: u32, byte: u8) -> (InMember, Event)
    ensures { result ≡ result_step profile more byte }
{
    match value_type(profile, byte) {
        Ok(ty) => (after_result(more), Event::Complete(Plain::OneResult(ty))),
        Err(why) => (InMember::Failed(why), Event::Nothing),
    }
}
