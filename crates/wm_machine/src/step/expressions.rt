//! The reader of one expression, one byte at a time: ops up to the closing `end`. Core spec 5.4.6.

ghost use Rattle.std.specs.Prelude.{◌≡◌};
ghost use Rattle.wm_machine.specs.exact.ExpressionSteps.{after_label, after_op, ends, expression_step};
ghost use Rattle.wm_machine.specs.exact.ExpressionSteps.{expression_failed, label_step, op_step, at_next_op};
ghost use Rattle.wm_machine.specs.exact.ExpressionSteps.{start};

use crate::step::ops::InOp;
use crate::step::reading::Reading;
use wm_syntax::instructions::Op;
use wm_syntax::numbers::{Num32, Step};
use wm_syntax::profile::Profile;
use wm_syntax::why::Why;

/// Parser state inside an expression.
#[derive(Clone, Copy)]
pub enum InExpression {
    /// Inside an op; `depth` blocks are open inside the expression.
    Op {
        depth: u32,
        at: InOp,
    },
    /// Inside a label of a `br_table`; `left` labels follow it.
    Label {
        depth: u32,
        left: u32,
        number: Num32,
    },
    /// The expression is complete.
    Over,
    /// The byte was refused.
    Failed(Why),
}

/// Returns the state before an op, with `depth` blocks open.
pub fn opened(depth: u32) -> InExpression
    ensures { result ≡ at_next_op depth }
{
    let at = InOp::First;
    InExpression::Op { depth, at }
}

fn ends(depth: u32) -> InExpression
    ensures { result ≡ ends depth }
{
    if depth == 0 {
        InExpression::Over
    } else {
        opened(depth - 1)
    }
}

fn after_op(depth: u32, op: Op) -> InExpression
    ensures { result ≡ after_op depth op }
{
    match op {
        // no section is long enough to open more blocks than a u32 counts
        Op::Block(_) | Op::Loop(_) | Op::If(_) => opened(depth.saturating_add(1)),
        Op::End => ends(depth),
        Op::BrTable(left) => InExpression::Label {
            depth,
            left,
            number: Num32::new(),
        },
        Op::Simple(_) | Op::Else | Op::Label(_) => opened(depth),
    }
}

fn after_label(depth: u32, left: u32) -> InExpression
    ensures { result ≡ after_label depth left }
{
    if left == 0 {
        opened(depth)
    } else {
        InExpression::Label {
            depth,
            left: left - 1,
            number: Num32::new(),
        }
    }
}

fn failed(why: Why) -> (InExpression, Option<Op>)
    ensures { result ≡ expression_failed why }
{
    (InExpression::Failed(why), None)
}

fn label_byte(depth: u32, left: u32, mut number: Num32, byte: u8) -> (InExpression, Option<Op>)
    ensures { result ≡ label_step depth left number byte }
{
    match number.push(byte) {
        Step::More => {
            let at = InExpression::Label {
                depth,
                left,
                number,
            };
            (at, None)
        }
        Step::Done(label) => (after_label(depth, left), Some(Op::Label(label))),
        Step::Bad => failed(Why::BadNumber),
    }
}

fn op_byte(profile: Profile, depth: u32, at: InOp, byte: u8) -> (InExpression, Option<Op>)
    ensures { result ≡ op_step profile depth at byte }
{
    match at.push(profile, byte) {
        Reading::More(at) => (InExpression::Op { depth, at }, None),
        Reading::Done(op) => (after_op(depth, op), Some(op)),
        Reading::Bad(why) => failed(why),
    }
}

impl InExpression {
    /// Returns the state before the first op of an expression.
    pub fn new() -> Self
        ensures { result ≡ start }
    {
        opened(0)
    }
}

/// Returns the next state inside an expression, and the op or label that this byte completes.
pub(crate) fn expression_byte(
    profile: Profile,
    at: InExpression,
    byte: u8,
) -> (InExpression, Option<Op>)
    ensures { result ≡ expression_step profile at byte }
{
    match at {
        InExpression::Op { depth, at } => op_byte(profile, depth, at, byte),
        InExpression::Label {
            depth,
            left,
            number,
        } => label_byte(depth, left, number, byte),
        InExpression::Over | InExpression::Failed(_) => failed(Why::SectionEnd),
    }
}
