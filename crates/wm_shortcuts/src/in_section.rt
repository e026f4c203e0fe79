//! The state of the machine inside a section, as the fast paths for members read and write it.
//!
//! `InSection::of` takes the machine apart. The kind of section and the state in the member decide whether a fast path
//! applies. From an `InSection` it then makes the new state.

ghost use Rattle.std.specs.Prelude.{◌≡◌, ◌-◌, ◌<◌, ◌≤◌, IfSome};
ghost use Rattle.wm_machine.specs.exact.Steps.{machine_in_member};
ghost use Rattle.wm_shortcuts.specs.exact.WholeMembers.{before_member, in_member, section_after};

use wm_machine::machine::member::{InMember, SectionKind};
use wm_machine::machine::{Counts, Machine};
use wm_machine::step::framed;
use wm_machine::step::members::begin;

/// The counts of a section at a byte of a member. The fields are those of `Machine::Section`.
#[derive(Clone, Copy)]
pub(crate) struct InSection {
    pub(crate) counts: Counts,
    pub(crate) more: u32,
    pub(crate) left: u32,
}

impl InSection {
    /// Returns the kind of section, the state in the member and the counts, if the machine is in a member.
    #[inline(always)]
    pub(crate) fn of(machine: Machine) -> Option<(SectionKind, InMember, InSection)>
        ensures { IfSome result (λ r. machine ≡ in_member r.0 r.1 r.2) }
    {
        let Machine::Section {
            of,
            counts,
            more,
            left,
            at,
        } = machine
        else {
            return None;
        };
        let section = InSection { counts, more, left };
        Some((of, at, section))
    }

    /// Returns the counts after `used` more bytes, with `left` members to come after the next.
    #[inline(always)]
    pub(crate) fn after(self, used: u32, left: u32) -> InSection
        requires { used ≤ self.more }
        ensures { result ≡ section_after self used left }
    {
        InSection {
            counts: self.counts,
            more: self.more - used,
            left,
        }
    }

    /// Returns the machine with this state in a member of the section.
    #[inline(always)]
    pub(crate) fn at(self, of: SectionKind, at: InMember) -> Machine
        ensures { result ≡ in_member of at self }
    {
        Machine::Section {
            of,
            counts: self.counts,
            more: self.more,
            left: self.left,
            at,
        }
    }

    /// Returns the machine before a member.
    #[inline(always)]
    pub(crate) fn before(self, of: SectionKind) -> Machine
        ensures { result ≡ before_member of self }
    {
        self.at(of, begin(of))
    }

    /// Returns the machine before the next member, after `used` more bytes.
    #[inline(always)]
    pub(crate) fn next(self, of: SectionKind, used: u32) -> Machine
        requires section { used ≤ self.more }
        requires members { 0 < self.left }
        ensures { result ≡ before_member of (section_after self used (self.left - 1)) }
    {
        self.after(used, self.left - 1).before(of)
    }

    /// Returns the machine after the last byte of a member, which `used` more bytes precede. The section may end
    /// there, or the machine may refuse.
    #[inline(always)]
    pub(crate) fn over(self, of: SectionKind, used: u32) -> Machine
        requires { used ≤ self.more }
        ensures { result ≡ machine_in_member of self.counts (self.more - used) self.left InMember.Over }
    {
        framed(of, self.counts, self.more - used, self.left, InMember::Over)
    }
}
