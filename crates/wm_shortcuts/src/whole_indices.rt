//! Fast path for indices of any length that lie whole in a piece. Core spec 5.5.1.

ghost use Rattle.std.specs.Prelude.{◌≡◌, ◌≤◌, IfSome, length};
ghost use Rattle.wm_syntax.specs.exact.Reading.{unsigned_push};
ghost use Rattle.wm_shortcuts.specs.exact.Shortcuts.{Advances};
ghost use Rattle.wm_shortcuts.specs.exact.Indices.{LiesIn, before_index, followed_indices};
ghost use Rattle.wm_shortcuts.specs.exact.WholeOps.{LiesAt};

use crate::give::give_index;
use crate::indices::InIndices;
use crate::ways::Shortcut;
use crate::whole_numbers::{Whole, u32_at};
use wm_machine::machine::Machine;
use wm_machine::sink::Sink;
use wm_syntax::profile::Profile;

// The loop over indices of any length ends after this many in a row with one byte each: the decoder's next turn takes
// such indices with fewer instructions each. A turn costs about what this many save. The lengths are checked only once
// in this many indices, which keeps longer indices fast. The first check is after the first index, since a long one
// leads here.
const MANY_SHORT: u32 = 8;

// Reads the index at `from`, if it ends by `end`
#[inline(always)]
fn index_at(bytes: &[u8], from: usize, end: usize) -> Option<Whole<u32>>
    requires { end ≤ length bytes.now }
    ensures lies { IfSome result (λ w. LiesAt (unsigned_push 32) bytes.now from w.next w.value) }
    ensures within { IfSome result (λ w. w.next ≤ end) }
{
    if from >= end {
        return None;
    }
    let index = u32_at(bytes, from)?;
    if index.next > end {
        return None;
    }
    Some(index)
}

// Takes the last index of a list, if it lies in these bytes. The section may end there, or the machine may refuse
#[inline(never)]
#[tactic(auto, using(crate::proofs::Advances::advances_none))]
fn last_index<S: Sink>(
    sink: &mut S,
    machine: &mut Machine,
    before: InIndices,
    profile: Profile,
    bytes: &[u8],
) -> Shortcut
    requires stands { machine.now ≡ before_index before }
    requires last { followed_indices before ≡ 0 }
    ensures { Advances S.after S.may_run_out profile bytes.now machine.old (S.held sink.old) result
        machine.new (S.held sink.new) }
{
    let end = bytes.len().min(before.room() as usize + 1);
    let Some(index) = index_at(bytes, 0, end) else {
        return Shortcut::none();
    };
    let used = index.next;
    *machine = before.ended((used - 1) as u32);
    let given = give_index(sink, before.list, index.value);
    Shortcut::ended(used, given, machine)
}

/// Takes indices that lie in these bytes: the last of a list, or those that another follows, until many have one byte
/// each. Out of line: there the loop keeps its values in registers.
#[inline(never)]
pub(crate) fn whole_indices<S: Sink>(
    sink: &mut S,
    machine: &mut Machine,
    before: InIndices,
    profile: Profile,
    bytes: &[u8],
) -> Shortcut
    requires stands { machine.now ≡ before_index before }
    requires lies { LiesIn before.of before.list }
    ensures { Advances S.after S.may_run_out profile bytes.now machine.old (S.held sink.old) result
        machine.new (S.held sink.new) }
{
    let followed = before.followed();
    if followed == 0 {
        return last_index(sink, machine, before, profile, bytes);
    }
    let end = bytes.len().min(before.room() as usize);
    let mut used: usize = 0;
    let mut count = 0;
    // where the last `MANY_SHORT` indices begin
    let mut from = 0;
    while count < followed {
        if count % MANY_SHORT == 1 {
            if used.wrapping_sub(from) == MANY_SHORT as usize {
                break;
            }
            from = used;
        }
        let Some(index) = index_at(bytes, used, end) else {
            break;
        };
        used = index.next;
        count += 1;
        if let Err(why) = give_index(sink, before.list, index.value) {
            return Shortcut::out(used, why);
        }
    }
    *machine = before.after(used as u32, count);
    let refused = None;
    Shortcut { used, refused }
}
