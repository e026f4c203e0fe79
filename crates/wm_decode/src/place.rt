//! The section that a byte lies in, and its place there.

ghost use Rattle.std.specs.Prelude.{◌≡◌, ◌+◌, ◌-◌, ◌<◌, ◌≤◌, ◌++◌, ℕ, List, length, slice_get, take};
ghost use Rattle.wm_syntax.specs.declared.profile.Profile.{Profile as AProfile};
ghost use Rattle.wm_decode.specs.exact.Awaited.{machine_from, place_in};
ghost use Rattle.wm_decode.specs.inner.Places.{IsAfter, place_after};

use crate::place::awaits::{Awaits, in_custom, in_member};
use wm_machine::machine::Machine;
use wm_machine::step::step;
use wm_syntax::profile::Profile;

pub(crate) mod awaits;

/// Where a byte lies in a module.
#[derive(Clone, Copy, PartialEq, Eq, Debug)]
pub struct Place {
    /// The id of its section: 0 for a custom section, else 1 to 12. Core spec 5.5.2; WebAssembly 2.0, 5.5.2.
    pub section: u8,
    /// The number of members of the section before the one that it lies in. `None` in the size and the member count of
    /// a section, in a custom section, and in a data count section. The start function is the one member of its
    /// section.
    pub item: Option<u32>,
    /// The part of the format that it belongs to.
    pub awaits: Awaits,
}

/// The state of a decoder between two bytes, without its sink and without the bytes of an unfinished name.
#[derive(Clone, Copy)]
pub struct Snapshot {
    pub(crate) profile: Profile,
    pub(crate) machine: Machine,
    // the number of bytes read
    pub(crate) at: u64,
}

// Returns the place of the next byte, or `None` in the header and before the id of a section
fn place_in(machine: &Machine) -> Option<Place>
    ensures { result ≡ place_in machine.now }
{
    let (section, item, awaits) = match *machine {
        Machine::Header(_) | Machine::Between { .. } | Machine::Refused(_) => return None,
        Machine::CustomSize { .. } => (0, None, Awaits::Number),
        Machine::Custom { part, .. } => (0, None, in_custom(part)),
        Machine::Size { of, .. } | Machine::Count { of, .. } => (of.id(), None, Awaits::Number),
        Machine::Section {
            of,
            counts,
            left,
            at,
            ..
        } => {
            let item = counts.members.saturating_sub(left).saturating_sub(1);
            (of.id(), Some(item), in_member(at))
        }
    };
    Some(Place {
        section,
        item,
        awaits,
    })
}

impl Snapshot {
    /// Returns the place of the next byte. Returns `None` in the header, and before the id of a section.
    pub fn place(&self) -> Option<Place>
        ensures machine { result ≡ place_in self.now.machine }
        ensures after { (p : AProfile) (bytes : List ℕ) → IsAfter self.now p bytes → result ≡ place_after p bytes }
    {
        place_in(&self.machine)
    }

    // Returns the state after further bytes, which takes the slow path over them
    fn replayed(&self, piece: &[u8]) -> Snapshot
        ensures profile { result.profile ≡ self.now.profile }
        ensures machine { result.machine ≡ machine_from self.now.profile self.now.machine piece.now }
    {
        let mut machine = self.machine;
        for byte in piece {
            let _ = step(self.profile, &mut machine, *byte);
        }
        Snapshot {
            profile: self.profile,
            machine,
            at: self.at,
        }
    }

    // Returns the index in the next piece of the byte at this offset, or 0 if the piece begins after it
    fn index(&self, at: u64) -> u64
        ensures { result ≡ at - self.now.at - 1 }
    {
        at.saturating_sub(self.at).saturating_sub(1)
    }

    /// Returns the place of the byte at this offset of the input, if it is in the next piece. An offset is the number
    /// of bytes up to and including the byte.
    pub fn place_in(&self, piece: &[u8], at: u64) -> Option<Place>
        ensures { (p : AProfile) (bytes : List ℕ) → IsAfter self.now p bytes → length bytes < at
            → at ≤ length (bytes ++ piece.now)
            → result ≡ place_after p (take (at - 1) (bytes ++ piece.now)) }
    {
        let before = self.index(at).min(piece.len() as u64);
        self.replayed(&piece[..before as usize]).place()
    }

    /// Returns the byte at this offset of the input, or `None` if it is not in the next piece.
    pub fn byte_in(&self, piece: &[u8], at: u64) -> Option<u8>
        ensures { (p : AProfile) (bytes : List ℕ) → IsAfter self.now p bytes → length bytes < at
            → result ≡ slice_get (bytes ++ piece.now) (at - 1) }
    {
        if at <= self.at {
            return None;
        }
        piece.get(self.index(at) as usize).copied()
    }
}
