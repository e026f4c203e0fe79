//! The state of the machine before an op of a code entry.

ghost use Rattle.std.specs.Prelude.{◌≡◌, ◌-◌, ◌≤◌, IfSome};
ghost use Rattle.wm_shortcuts.specs.exact.WholeOps.{before_op};

use crate::in_section::InSection;
use wm_machine::machine::member::{InEntry, InMember, SectionKind};
use wm_machine::machine::{Counts, Machine};
use wm_machine::step::expressions::InExpression;
use wm_machine::step::ops::InOp;

/// The counts before an op of a code entry. `rest` is the number of bytes of the entry after the next one, and `depth`
/// the number of open blocks. The other fields are those of `Machine::Section`.
#[derive(Clone, Copy)]
pub(crate) struct InBody {
    pub(crate) of: SectionKind,
    pub(crate) counts: Counts,
    pub(crate) more: u32,
    pub(crate) left: u32,
    pub(crate) rest: u32,
    pub(crate) depth: u32,
}

impl InBody {
    /// Returns the counts if the machine is before an op.
    pub(crate) fn of(machine: Machine) -> Option<InBody>
        ensures { IfSome result (λ b. machine ≡ before_op b) }
    {
        let Some((of, InMember::Entry { more: rest, at }, section)) = InSection::of(machine) else {
            return None;
        };
        let InEntry::Body(
            InExpression::Op {
                depth,
                at: InOp::First,
            },
        ) = at
        else {
            return None;
        };
        Some(InBody {
            of,
            counts: section.counts,
            more: section.more,
            left: section.left,
            rest,
            depth,
        })
    }

    /// Returns the machine after `used` more bytes of the entry, with `depth` blocks open.
    pub(crate) fn after(self, used: u32, depth: u32) -> Machine
        requires section { used ≤ self.more }
        requires entry { used ≤ self.rest }
        ensures { result ≡ before_op (record self {
          more = self.more - used;
          rest = self.rest - used;
          depth = depth;
        }) }
    {
        let at = InOp::First;
        let at = InEntry::Body(InExpression::Op { depth, at });
        let at = InMember::Entry {
            more: self.rest - used,
            at,
        };
        Machine::Section {
            of: self.of,
            counts: self.counts,
            more: self.more - used,
            left: self.left,
            at,
        }
    }
}
