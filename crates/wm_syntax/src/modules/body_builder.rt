//! A builder of function bodies, which takes one op at a time.

ghost use Rattle.std.specs.Prelude.{◌≡◌, ◌≢◌, ◌+◌, ◌++◌, ◌∷◌, [], None, Some, Ok, Err, IfErr, IfOk};
ghost use Rattle.std.specs.Prelude.{List, MatchResult, OnErr, OnOk, false, true};
ghost use Rattle.wm_syntax.specs.inner.Building.{Place, at, placed, start};
ghost use Rattle.wm_syntax.specs.Instructions.{Instructions, names_segment};
ghost use Rattle.wm_syntax.specs.Lengths.{op_len};
ghost use Rattle.wm_syntax.specs.inner.Builders.{fits, fits_list, is_else, is_first, last_of, last_set};
ghost use Rattle.wm_syntax.specs.inner.Builders.{next_left, next_open, next_ops};

use crate::instructions::Op;
use crate::instructions::lengths::{op_len, simple_len};
use crate::modules::body::Body;
use crate::modules::sized_ops::{MOST_KEPT, SizedOps};
use std::alloc::Global;
use std::error::Error;
use std::fmt;
use std::marker::Model;

// How a list of instructions was opened.
#[derive(Clone, Copy, PartialEq, Eq, Debug)]
enum Opened {
    // by a block or a loop
    List,
    // by an if: its first branch
    First,
    // by an else: its second branch
    Second,
}

/// Why an op, or the end of a body, is not taken.
#[derive(Clone, Copy, PartialEq, Eq, Debug)]
pub enum BodyFault {
    /// No body has ops that begin so or, at the end, exactly these ops.
    Unbalanced,
    /// Memory was refused.
    Memory,
}

impl fmt::Display for BodyFault {
    fn fmt<W: fmt::Write>(&self, f: &mut fmt::Formatter<W>) -> fmt::Result {
        f.write_str(match self {
            BodyFault::Unbalanced => "these ops open and close no list of instructions",
            BodyFault::Memory => "memory ran out",
        })
    }
}

impl Error for BodyFault {}

// Whether an op is allowed in the innermost open list.
fn fits_list(begun: &[Opened], op: &Op) -> bool
    ensures { result ≡ fits_list begun.now op.now }
{
    match op {
        Op::Else => begun.last() == Some(&Opened::First),
        Op::End => !begun.is_empty(),
        Op::Label(_) => false,
        _ => true,
    }
}

// Whether an op is allowed while `left` labels of a br_table are still to come.
fn fits(begun: &[Opened], left: u64, op: &Op) -> bool
    ensures { result ≡ fits begun.now left op.now }
{
    if left == 0 {
        fits_list(begun, op)
    } else {
        matches!(op, Op::Label(_))
    }
}

fn ends_in_else(ops: &[Op]) -> bool
    ensures { result ≡ is_else (last_of ops.now) }
{
    match ops.last() {
        Some(op) => *op == Op::Else,
        None => false,
    }
}

// Appends an op with this encoded length. `names` is whether it names a data segment: a constant in most calls. The op
// is borrowed, since a copy would go through memory.
#[inline(always)]
fn push(ops: &mut SizedOps, op: &Op, len: u64, names: bool) -> Result<(), BodyFault>
    requires len { len ≡ op_len op.now }
    requires names { names ≡ names_segment op.now }
    ensures ok { OnOk result (ops.new ≡ ops.old ++ op.now ∷ []) }
    ensures err { IfErr result (λ fault. (fault ≡ BodyFault.Memory) × (ops.new ≡ ops.old)) }
{
    match ops.push(op, len, names) {
        Ok(()) => Ok(()),
        Err(_) => Err(BodyFault::Memory),
    }
}

// Appends an `end`, which replaces an `else` directly before it.
fn push_end(ops: &mut SizedOps) -> Result<(), BodyFault>
    ensures ok { OnOk result (ops.new ≡ next_ops Op.End ops.old) }
    ensures err { IfErr result (λ fault. (fault ≡ BodyFault.Memory) × (ops.new ≡ ops.old)) }
{
    if ends_in_else(ops.as_slice()) {
        ops.end_else();
        Ok(())
    } else {
        push(ops, &Op::End, 1, false)
    }
}

// Appends an op that opens a list.
fn push_open(
    ops: &mut SizedOps,
    begun: &mut Vec<Opened>,
    op: &Op,
    opened: Opened,
) -> Result<(), BodyFault>
    requires len { op_len op.now ≡ 2 }
    requires names { names_segment op.now ≡ false }
    ensures ok { OnOk result ((ops.new ≡ ops.old ++ op.now ∷ [])
        × (begun.new.items ≡ begun.old.items ++ opened ∷ [])) }
    ensures err { IfErr result (λ fault. (fault ≡ BodyFault.Memory) × (ops.new ≡ ops.old)
        × (begun.new.items ≡ begun.old.items)) }
{
    if begun.push(opened).is_err() {
        return Err(BodyFault::Memory);
    }
    // its own byte, and its block type's
    match push(ops, op, 2, false) {
        Ok(()) => Ok(()),
        Err(fault) => {
            begun.pop();
            Err(fault)
        }
    }
}

// The fast path for an instruction without a list, outside of a br_table, if there is room. The op is
// borrowed, since a copy would go through memory. One that names a data segment takes the slow path.
#[inline(always)]
fn push_fast(ops: &mut SizedOps, left: u64, op: &Op) -> bool
    ensures ops { result ≡ true → ops.new ≡ next_ops op.now ops.old }
    ensures begun { result ≡ true → (begun : List Opened) → next_open op.now begun ≡ begun }
    ensures labels { result ≡ true → next_left op.now left ≡ left }
    ensures fits { result ≡ true → (begun : List Opened) → fits begun left op.now ≡ true }
    ensures left { result ≡ false → ops.new ≡ ops.old }
{
    match op {
        Op::Simple(simple) if left == 0 => {
            let (len, names) = simple_len(simple);
            !names && ops.push_fast(op, len)
        }
        _ => false,
    }
}

// Takes an op if it is allowed. Out of line, since most ops take the fast path.
#[inline(never)]
fn push_any(
    ops: &mut SizedOps,
    begun: &mut Vec<Opened>,
    left: &mut u64,
    op: &Op,
) -> Result<(), BodyFault>
    ensures ok { OnOk result ((ops.new ≡ next_ops op.now ops.old)
        × (begun.new.items ≡ next_open op.now begun.old.items) × (left.new ≡ next_left op.now left.old)) }
    ensures err { OnErr result ((ops.new ≡ ops.old) × (begun.new.items ≡ begun.old.items)
        × (left.new ≡ left.old)) }
    ensures fits { fits begun.old.items left.old op.now ≡ true → result ≢ Err BodyFault.Unbalanced }
    ensures unbalanced { fits begun.old.items left.old op.now ≡ false → result ≡ Err BodyFault.Unbalanced }
{
    if !fits(begun, *left, op) {
        return Err(BodyFault::Unbalanced);
    }
    match op {
        Op::Simple(_) => push(ops, op, op_len(op), op.names_segment()),
        Op::Block(_) | Op::Loop(_) => push_open(ops, begun, op, Opened::List),
        Op::If(_) => push_open(ops, begun, op, Opened::First),
        Op::Else => {
            push(ops, op, 1, false)?;
            let last = begun.len() - 1;
            begun[last] = Opened::Second;
            Ok(())
        }
        Op::End => {
            push_end(ops)?;
            begun.pop();
            Ok(())
        }
        Op::BrTable(count) => {
            push(ops, op, op_len(op), false)?;
            *left = u64::from(*count) + 1;
            Ok(())
        }
        Op::Label(_) => {
            push(ops, op, op_len(op), false)?;
            *left -= 1;
            Ok(())
        }
    }
}

// Takes all ops out when no list is open. Their memory may be reused for the next ones. Out of line, so that
// only the check for open lists is inline.
#[inline(never)]
fn take_all(ops: &mut SizedOps, begun: &mut Vec<Opened>, alloc: Global) -> SizedOps
    requires { begun.old.items ≡ [] }
    ensures taken { result ≡ ops.old }
    ensures left { ops.new ≡ [] }
    ensures begun { begun.new.items ≡ [] }
{
    if begun.capacity() > MOST_KEPT {
        *begun = Vec::new(alloc);
    }
    ops.take(alloc)
}

/// Builds a body from its ops, one at a time. Contracts see the builder's state. The laws
/// `ops_lead_to_their_body` and `ops_lead_on` say which ops lead to which state.
#[derive(Debug, Drop)]
pub struct BodyBuilder {
    ops: SizedOps,
    // how the open lists were opened, the outermost first
    begun: Vec<Opened>,
    // how many labels of a br_table are still to come, the default included
    left: u64,
}

impl Model for BodyBuilder {
    ghost use Rattle.wm_syntax.specs.inner.Building.{Place, place_in};
    ghost use Rattle.wm_syntax.specs.inner.Codes.{place_code};
    ghost use Rattle.wm_syntax.specs.inner.Builders.{Keeps};

    ghost Value = { Place };

    ghost coded = { place_code };

    ghost view = { λ b. place_in b.ops };

    ghost invariant = { λ b. Keeps b.ops b.begun.items b.left (place_in b.ops) };
}

impl BodyBuilder {
    /// Returns a builder without ops.
    pub fn new(alloc: Global) -> Self
        ensures { result ≡ start }
    {
        BodyBuilder {
            ops: SizedOps::new(alloc),
            begun: Vec::new(alloc),
            left: 0,
        }
    }

    /// Removes all ops, but keeps their memory.
    pub fn clear(&mut self)
        ensures { self.new ≡ start }
    {
        self.ops.clear();
        self.begun.clear();
        self.left = 0;
    }

    /// Takes one more op. Fails with `Unbalanced` if no body has ops that begin so, and with `Memory` if
    /// memory is refused. An error changes nothing.
    pub fn push(&mut self, op: Op) -> Result<(), BodyFault>
        ensures ok { OnOk result (placed self.old op ≡ Some self.new) }
        ensures err { OnErr result (self.new ≡ self.old) }
        ensures stands { (p : Place) → placed self.old op ≡ Some p → result ≢ Err BodyFault.Unbalanced }
        ensures unbalanced { placed self.old op ≡ None → result ≡ Err BodyFault.Unbalanced }
    {
        self.push_borrowed(&op)
    }

    /// Does as `push`, but borrows the op, since a copy would go through memory.
    #[inline(always)]
    pub fn push_borrowed(&mut self, op: &Op) -> Result<(), BodyFault>
        ensures ok { OnOk result (placed self.old op.now ≡ Some self.new) }
        ensures err { OnErr result (self.new ≡ self.old) }
        ensures stands { (p : Place) → placed self.old op.now ≡ Some p → result ≢ Err BodyFault.Unbalanced }
        ensures unbalanced { placed self.old op.now ≡ None → result ≡ Err BodyFault.Unbalanced }
    {
        push_any(&mut self.ops, &mut self.begun, &mut self.left, op)
    }

    /// Takes a borrowed instruction if it contains no list, no label of a br_table is due, and no memory is
    /// needed. Otherwise returns false and changes nothing.
    #[inline(always)]
    pub fn push_fast(&mut self, op: &Op) -> bool
        ensures taken { result ≡ true → placed self.old op.now ≡ Some self.new }
        ensures left { result ≡ false → self.new ≡ self.old }
    {
        push_fast(&mut self.ops, self.left, op)
    }

    /// Returns the body. Fails with `Unbalanced` if a list is still open or a label is still due.
    pub fn finish(self) -> Result<Body, BodyFault>
        ensures ok { IfOk result (λ body. self ≡ at [] body) }
        ensures err { IfErr result (λ fault. (fault ≡ BodyFault.Unbalanced)
            × ((s : Instructions) → self ≡ at [] s → ⊥)) }
    {
        if self.left != 0 || !self.begun.is_empty() {
            return Err(BodyFault::Unbalanced);
        }
        let mut ops = self.ops;
        ops.shrink_to_fit();
        Ok(Body::from_ops(ops))
    }

    /// Returns the body, and leaves the builder without ops. Their memory may be reused for the next body.
    /// Fails with `Unbalanced` and changes nothing if a list is still open or a label is still due.
    #[inline(always)]
    pub fn take_body(&mut self, alloc: Global) -> Result<Body, BodyFault>
        ensures ok { IfOk result (λ body. (self.old ≡ at [] body) × (self.new ≡ start)) }
        ensures err { IfErr result (λ fault. (fault ≡ BodyFault.Unbalanced) × (self.new ≡ self.old)
            × ((s : Instructions) → self.old ≡ at [] s → ⊥)) }
    {
        let all_ended = self.begun.is_empty() && self.left == 0;
        if !all_ended {
            return Err(BodyFault::Unbalanced);
        }
        Ok(Body::from_ops(take_all(&mut self.ops, &mut self.begun, alloc)))
    }
}
