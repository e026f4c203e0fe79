//! Types whole function bodies.

ghost use Rattle.std.specs.Prelude.{◌≡◌, ◌+◌, ◌*◌, ◌<◌, ◌≤◌, ◌^◌, ◌⊎◌, ℕ, List, [], ◌++◌, IfErr, IfOk};
ghost use Rattle.std.specs.Prelude.{MatchResult, OnOk, None, length};
ghost use Rattle.wm_stacks.specs.Stack.{height_sum};
ghost use Rattle.wm_syntax.specs.declared.types.ValType.{ValType as AType};
ghost use Rattle.wm_typing.specs.TypedBodies.{HasBodyOps, IsTypedBody};
ghost use Rattle.wm_typing.specs.inner.Checking.{BodyAfter};
ghost use Rattle.wm_typing.specs.Bodies.{Twice};
ghost use Rattle.wm_typing.specs.Contexts.{body_context};
ghost use Rattle.wm_syntax.specs.Modules.{locals_of};
ghost use Rattle.wm_typing.specs.Nesting.{nesting};
ghost use Rattle.wm_syntax.specs.Instructions.{Instructions};
ghost use Rattle.wm_typing.specs.Typing.{Context as ModuleContext};

use crate::body_checker::{BodyChecker, Progress};
use crate::context::Context;
use crate::stats::BodyStats;
use std::alloc::Global;
use wm_syntax::instructions::Op;
use wm_syntax::types::ValType;
use wm_syntax::why::Why;

/// Types the body of a function with this type index, and returns its figures. `runs` has its declared locals,
/// and `ops` ends with the last `end`. Unless memory runs out, it succeeds if and only if there are fewer than
/// 2^32 declared locals and the body has its type. Fails with `BodyEnd` if the ops end before the body or
/// continue after it. Core spec 3.4.1.
pub fn check_body(
    alloc: Global,
    context: &Context<'_>,
    type_index: u32,
    runs: &[(u32, ValType)],
    ops: &[Op],
) -> Result<BodyStats, Why>
    requires ty { type_index < length context.now.types }
    requires bounded { length ops.now < 2 ^ 62 }
    ensures typed { MatchResult result
        (λ _. (length (locals_of runs.now) < 2 ^ 32)
        × IsTypedBody (body_context context.now type_index (locals_of runs.now)) ops.now)
        (λ why. (why ≡ Why.Memory) ⊎ (2 ^ 32 ≤ length (locals_of runs.now))
        ⊎ (IsTypedBody (body_context context.now type_index (locals_of runs.now)) ops.now → ⊥)) }
    ensures moves { IfOk result (λ stats. stats.moves ≤ 4 * length ops.now + 2) }
    ensures operands { IfOk result (λ stats. stats.operands ≤ length ops.now + 1) }
    ensures controls { IfOk result
        (λ stats. (body : Instructions) → HasBodyOps body ops.now → stats.controls ≡ nesting body + 1) }
    ensures twice { IfOk result Twice }
    ensures probes { IfOk result (λ stats. stats.probes ≤ 32) }
{
    let mut checker = BodyChecker::new(alloc);
    checker.begin(context, type_index);
    declare_all(&mut checker, runs)?;
    step_all(&mut checker, context, ops)?;
    Ok(checker.stats())
}

fn declare_all(checker: &mut BodyChecker, runs: &[(u32, ValType)]) -> Result<(), Why>
    ensures after { (c : ModuleContext) (x : ℕ) → BodyAfter c x [] [] checker.old
        → OnOk result (BodyAfter c x (locals_of runs.now) [] checker.new) }
    ensures few { (c : ModuleContext) (x : ℕ) → BodyAfter c x [] [] checker.old
        → OnOk result (length (locals_of runs.now) < 2 ^ 32) }
    ensures too_many { (c : ModuleContext) (x : ℕ) → BodyAfter c x [] [] checker.old
        → IfErr result (λ why. (why ≡ Why.Memory) ⊎ (2 ^ 32 ≤ length (locals_of runs.now))) }
{
    for run in runs {
        checker.locals(run.0, run.1)?;
    }
    Ok(())
}

// Takes all ops. Fails with `BodyEnd` if the body does not end with the last op.
fn step_all(checker: &mut BodyChecker, context: &Context<'_>, ops: &[Op]) -> Result<(), Why>
    requires { BodyAfter context.now checker.old.type_index checker.old.declared [] checker.old }
    ensures typed { MatchResult result
        (λ _. IsTypedBody (body_context context.now checker.old.type_index checker.old.declared) ops.now)
        (λ why. (why ≡ Why.Memory)
        ⊎ (IsTypedBody (body_context context.now checker.old.type_index checker.old.declared) ops.now → ⊥)) }
    ensures after { OnOk result (BodyAfter context.now checker.old.type_index checker.old.declared ops.now
        checker.new) }
{
    for (i, op) in ops.iter().enumerate() {
        let progress = checker.step(context, *op)?;
        match progress {
            Progress::Inside => {}
            Progress::Ended => {
                return if i + 1 == ops.len() {
                    Ok(())
                } else {
                    Err(Why::BodyEnd)
                };
            }
        }
    }
    Err(Why::BodyEnd)
}
