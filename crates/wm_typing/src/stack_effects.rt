//! The effect of instructions on the operands of the innermost frame.

ghost use Rattle.std.specs.Prelude.{◌≡◌, ◌+◌, ◌<◌, ◌≤◌, ◌^◌, [], ◌∷◌, ◌++◌, Ok, Err, false, true};
ghost use Rattle.std.specs.Prelude.{if◌then◌else◌};
ghost use Rattle.std.specs.Prelude.{option_map, option_to_list};
ghost use Rattle.wm_stacks.specs.exact.FastPaths.{DoneOrLeft, Replaces};
ghost use Rattle.wm_stacks.specs.exact.Stacks.{push};
ghost use Rattle.wm_syntax.specs.declared.types.ValType.TheVariants.{I32};
ghost use Rattle.wm_typing.specs.exact.Answers.{Acts, CanAct};
ghost use Rattle.wm_typing.specs.exact.OperandTypes.{join, entry_of_type};
ghost use Rattle.wm_typing.specs.exact.Ops.{drive_diverges, drive_drop, drive_fixed, drive_indirect};
ghost use Rattle.wm_typing.specs.exact.Ops.{drive_select, push_all};

use wm_stacks::stack_entries::{Entry, Reach};
use wm_stacks::stacks::Stacks;
use wm_syntax::profile::Feature;
use wm_syntax::types::ValType;
use wm_syntax::why::Why;

#[inline]
fn entry(ty: ValType) -> Entry
    ensures { result ≡ entry_of_type ty }
{
    match ty {
        ValType::I32 => Entry::I32,
        ValType::I64 => Entry::I64,
        ValType::F32 => Entry::F32,
        ValType::F64 => Entry::F64,
    }
}

#[inline(always)]
fn entry_given(given: Option<ValType>) -> Option<Entry>
    ensures { result ≡ option_map entry_of_type given }
{
    match given {
        Some(ty) => Some(entry(ty)),
        None => None,
    }
}

// Pushes a float. Out of line, since floats are rare. Returns `false` if memory runs out, so that the compiler
// knows the error where the two paths join.
#[tactic(auto, using(crate::proofs::Costs::pushed_adds))]
#[inline(never)]
fn push_float(stacks: &mut Stacks, ty: ValType) -> bool
    requires { CanAct stacks.old }
    ensures { Acts (Ok (push (entry_of_type ty) stacks.old)) 2 1 stacks.old stacks.new
        (if result then Ok (tt {0}) else Err Why.Memory) }
{
    if stacks.push_float_fast(entry(ty)) {
        true
    } else {
        push_float_apart(stacks, ty)
    }
}

// Pushes a float on the slow path: new words of the stacks may be needed.
#[inline(never)]
fn push_float_apart(stacks: &mut Stacks, ty: ValType) -> bool
    requires { CanAct stacks.old }
    ensures { Acts (Ok (push (entry_of_type ty) stacks.old)) 2 1 stacks.old stacks.new
        (if result then Ok (tt {0}) else Err Why.Memory) }
{
    match stacks.push(entry(ty)) {
        Ok(()) => true,
        Err(_) => false,
    }
}

#[inline(always)]
fn push_type(stacks: &mut Stacks, ty: ValType) -> Result<(), Why>
    requires { CanAct stacks.old }
    ensures { Acts (Ok (push (entry_of_type ty) stacks.old)) 2 1 stacks.old stacks.new result }
{
    if ty.feature() == Feature::Base {
        return stacks.push(entry(ty));
    }
    if push_float(stacks, ty) {
        Ok(())
    } else {
        Err(Why::Memory)
    }
}

#[inline(always)]
pub(crate) fn push_result(stacks: &mut Stacks, given: Option<ValType>) -> Result<(), Why>
    requires { CanAct stacks.old }
    ensures { Acts (Ok (push_all (option_to_list given) stacks.old)) 2 1 stacks.old stacks.new result }
{
    match given {
        Some(ty) => push_type(stacks, ty),
        None => Ok(()),
    }
}

// Takes operands of the types `params`, and pushes the result, if any.
#[tactic(auto, using(crate::proofs::Costs::take_adds))]
#[inline(always)]
fn apply(stacks: &mut Stacks, params: &[ValType], given: Option<ValType>) -> Result<(), Why>
    requires { CanAct stacks.old }
    ensures { Acts (drive_fixed params.now (option_to_list given) stacks.old) 3 1 stacks.old stacks.new
        result }
{
    stacks.take(params)?;
    push_result(stacks, given)
}

// Does as `apply`, but takes one operand after another.
#[tactic(auto, using(crate::proofs::Costs::take_adds))]
#[inline(always)]
pub(crate) fn apply_singly(
    stacks: &mut Stacks,
    params: &[ValType],
    given: Option<ValType>,
) -> Result<(), Why>
    requires { CanAct stacks.old }
    ensures { Acts (drive_fixed params.now (option_to_list given) stacks.old) 3 1 stacks.old stacks.new
        result }
{
    stacks.take_each(params)?;
    push_result(stacks, given)
}

// Does as `apply`, out of line, away from the fast paths.
#[inline(never)]
pub(crate) fn apply_apart(
    stacks: &mut Stacks,
    params: &[ValType],
    given: Option<ValType>,
) -> Result<(), Why>
    requires { CanAct stacks.old }
    ensures { Acts (drive_fixed params.now (option_to_list given) stacks.old) 3 1 stacks.old stacks.new
        result }
{
    apply_singly(stacks, params, given)
}

// Does as `apply` with one parameter, for common ops. Its fast path reads one word of the stacks.
#[inline(always)]
pub(crate) fn apply_one(
    stacks: &mut Stacks,
    only: ValType,
    given: Option<ValType>,
) -> Result<(), Why>
    requires { CanAct stacks.old }
    ensures { Acts (drive_fixed (only ∷ []) (option_to_list given) stacks.old) 3 1 stacks.old stacks.new
        result }
{
    if stacks.replace_fast(only, entry_given(given)) {
        Ok(())
    } else {
        apply_one_apart(stacks, only, given)
    }
}

// The slow path of `apply_one`. Floats mostly take a fast path of their own here.
#[inline(never)]
fn apply_one_apart(stacks: &mut Stacks, only: ValType, given: Option<ValType>) -> Result<(), Why>
    requires { CanAct stacks.old }
    ensures { Acts (drive_fixed (only ∷ []) (option_to_list given) stacks.old) 3 1 stacks.old stacks.new
        result }
{
    if only.feature() != Feature::Base && replaced_float(stacks, only, given) {
        Ok(())
    } else {
        apply_one_singly(stacks, only, given)
    }
}

// Replaces a float by one of the same type, or removes it. Returns `false` if it changed nothing. There are two
// calls, so that the compiler knows in each whether a result is pushed.
#[inline(always)]
fn replaced_float(stacks: &mut Stacks, only: ValType, given: Option<ValType>) -> bool
    requires { CanAct stacks.old }
    ensures { DoneOrLeft (Replaces (only ∷ []) (option_map entry_of_type given)) result stacks.old
        stacks.new }
{
    match given {
        Some(ty) => ty == only && stacks.replace_float_fast(only, Some(entry(ty))),
        None => stacks.replace_float_fast(only, None),
    }
}

// The last path of `apply_one`. Out of line, so that the faster paths save no registers.
#[inline(never)]
fn apply_one_singly(stacks: &mut Stacks, only: ValType, given: Option<ValType>) -> Result<(), Why>
    requires { CanAct stacks.old }
    ensures { Acts (drive_fixed (only ∷ []) (option_to_list given) stacks.old) 3 1 stacks.old stacks.new
        result }
{
    apply_singly(stacks, &[only], given)
}

// Does as `apply_one` with two parameters.
#[inline(always)]
pub(crate) fn apply_two(
    stacks: &mut Stacks,
    under: ValType,
    top: ValType,
    given: Option<ValType>,
) -> Result<(), Why>
    requires { CanAct stacks.old }
    ensures { Acts (drive_fixed (under ∷ top ∷ []) (option_to_list given) stacks.old) 3 1 stacks.old
        stacks.new result }
{
    if stacks.replace_two_fast(under, top, entry_given(given)) {
        return Ok(());
    }
    match given {
        Some(ty) if ty.feature() != Feature::Base => apply_two_apart(stacks, under, top, given),
        _ => apply_two_singly(stacks, under, top, given),
    }
}

// The slow path of `apply_two` to a float. Two floats that become one of their type mostly take a fast path of their own
// here.
#[inline(never)]
fn apply_two_apart(
    stacks: &mut Stacks,
    under: ValType,
    top: ValType,
    given: Option<ValType>,
) -> Result<(), Why>
    requires { CanAct stacks.old }
    ensures { Acts (drive_fixed (under ∷ top ∷ []) (option_to_list given) stacks.old) 3 1 stacks.old
        stacks.new result }
{
    let of_one_type =
        matches!(given, Some(ty) if ty.feature() != Feature::Base && ty == under && ty == top);
    if of_one_type && stacks.replace_two_floats_fast(under, top, entry_given(given)) {
        Ok(())
    } else {
        apply_two_singly(stacks, under, top, given)
    }
}

// The last path of `apply_two`, out of line.
#[inline(never)]
fn apply_two_singly(
    stacks: &mut Stacks,
    under: ValType,
    top: ValType,
    given: Option<ValType>,
) -> Result<(), Why>
    requires { CanAct stacks.old }
    ensures { Acts (drive_fixed (under ∷ top ∷ []) (option_to_list given) stacks.old) 3 1 stacks.old
        stacks.new result }
{
    apply_singly(stacks, &[under, top], given)
}

// Takes an i32, and then does as `apply`.
#[tactic(auto, using(crate::proofs::Costs::take_adds))]
#[inline(never)]
pub(crate) fn indirect(
    stacks: &mut Stacks,
    params: &[ValType],
    given: Option<ValType>,
) -> Result<(), Why>
    requires { CanAct stacks.old }
    ensures { Acts (drive_indirect params.now (option_to_list given) stacks.old) 4 1 stacks.old stacks.new
        result }
{
    stacks.take(&[ValType::I32])?;
    apply(stacks, params, given)
}

// Takes operands of these types, and all operands below them in the frame. The code after it is unreachable.
#[tactic(auto, using(crate::proofs::Costs::take_adds, crate::proofs::Costs::cut_adds))]
#[inline(never)]
pub(crate) fn stack_polymorphic(stacks: &mut Stacks, types: &[ValType]) -> Result<(), Why>
    requires { CanAct stacks.old }
    ensures { Acts (drive_diverges types.now stacks.old) 1 0 stacks.old stacks.new result }
{
    stacks.take(types)?;
    stacks.cut_to_floor();
    Ok(())
}

#[inline(never)]
pub(crate) fn branch(stacks: &mut Stacks, target: Option<ValType>) -> Result<(), Why>
    requires { CanAct stacks.old }
    ensures { Acts (drive_diverges (option_to_list target) stacks.old) 1 0 stacks.old stacks.new result }
{
    match target {
        Some(ty) => stack_polymorphic(stacks, &[ty]),
        None => stack_polymorphic(stacks, &[]),
    }
}

#[inline(never)]
pub(crate) fn branch_if(stacks: &mut Stacks, target: Option<ValType>) -> Result<(), Why>
    requires { CanAct stacks.old }
    ensures { Acts (drive_fixed (option_to_list target ++ I32 ∷ []) (option_to_list target) stacks.old) 3 1
        stacks.old stacks.new result }
{
    match target {
        Some(ty) => apply(stacks, &[ty, ValType::I32], target),
        None => apply(stacks, &[ValType::I32], None),
    }
}

#[tactic(auto, using(crate::proofs::Costs::any_adds))]
#[inline(never)]
pub(crate) fn drop_one(stacks: &mut Stacks) -> Result<(), Why>
    requires { CanAct stacks.old }
    ensures { Acts (drive_drop stacks.old) 1 0 stacks.old stacks.new result }
{
    stacks.take_any()?;
    Ok(())
}

fn joined(first: Entry, second: Entry) -> Option<Entry>
    ensures { result ≡ join first second }
{
    match (first, second) {
        (Entry::Unknown, other) => Some(other),
        (other, Entry::Unknown) => Some(other),
        (Entry::I32, Entry::I32) => Some(Entry::I32),
        (Entry::I64, Entry::I64) => Some(Entry::I64),
        (Entry::F32, Entry::F32) => Some(Entry::F32),
        (Entry::F64, Entry::F64) => Some(Entry::F64),
        _ => None,
    }
}

#[tactic(auto, using(crate::proofs::Costs::take_adds, crate::proofs::Costs::any_adds))]
#[inline(never)]
pub(crate) fn select(stacks: &mut Stacks) -> Result<(), Why>
    requires { CanAct stacks.old }
    ensures { Acts (drive_select stacks.old) 4 1 stacks.old stacks.new result }
{
    if stacks.take(&[ValType::I32])? == Reach::Floor {
        return stacks.push(Entry::Unknown);
    }
    let first = stacks.take_any()?;
    let second = stacks.take_any()?;
    match joined(first, second) {
        Some(entry) => stacks.push(entry),
        None => Err(Why::Mismatch),
    }
}
