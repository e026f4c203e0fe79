//! Fast path for consecutive indices. Core spec 5.5.1.
//!
//! Two or more indices of one byte each are found together. Bytes that the format refuses take the slow path.

ghost use Rattle.std.specs.Prelude.{◌≡◌, ◌≤◌, IfSome, length};
ghost use Rattle.wm_shortcuts.specs.exact.Shortcuts.{Advances};
ghost use Rattle.wm_shortcuts.specs.exact.Indices.{GaveEach, LiesIn, at_index, before_index, index_item_in};
ghost use Rattle.wm_shortcuts.specs.exact.Indices.{followed_indices, index_room, indices_ended, indices_past};
ghost use Rattle.wm_shortcuts.specs.exact.Indices.{most_indices};

use crate::give::give_short_index;
use crate::in_section::InSection;
use crate::ways::{Shortcut, min_len};
use crate::whole_indices::whole_indices;
use wm_machine::machine::member::{InEntry, InMember, IndexOf, SectionKind};
use wm_machine::machine::{Counts, Machine};
use wm_machine::sink::Sink;
use wm_machine::step::code_entries::entry_framed;
use wm_machine::step::expressions::{InExpression, opened};
use wm_machine::step::framed;
use wm_syntax::numbers::{Num32, short_front};
use wm_syntax::profile::Profile;

/// The list of the next index.
#[derive(Clone, Copy)]
pub(crate) enum IndexList {
    /// The type indices of functions (Core spec 5.5.6): each is a member of its section.
    Types,
    /// The function indices of an element segment (Core spec 5.5.12); `rest` follow the next.
    Functions { rest: u32 },
    /// The labels of a `br_table` (Core spec 5.4.1); `labels` follow the next. `rest` is the number of bytes of the
    /// entry after the next byte, and `depth` the number of open blocks.
    Labels { rest: u32, depth: u32, labels: u32 },
}

/// The counts before an index, and the list of this index. The counts are those of `Machine::Section`.
#[derive(Clone, Copy)]
pub(crate) struct InIndices {
    pub(crate) of: SectionKind,
    pub(crate) counts: Counts,
    pub(crate) more: u32,
    pub(crate) left: u32,
    pub(crate) list: IndexList,
}

// Returns the list if the state in the entry is before a label of a `br_table`
fn labels(rest: u32, at: InEntry) -> Option<IndexList>
    ensures at { IfSome result (λ l. InMember.Entry rest at ≡ at_index l) }
    ensures of { IfSome result (λ l. (of : SectionKind) → LiesIn of l) }
{
    let InEntry::Body(at) = at else {
        return None;
    };
    let InExpression::Label {
        depth,
        left: labels,
        number,
    } = at
    else {
        return None;
    };
    if !number.is_new() {
        return None;
    }
    Some(IndexList::Labels {
        rest,
        depth,
        labels,
    })
}

impl IndexList {
    // Returns the list if the state in the member is before an index of one
    fn of(of: SectionKind, at: InMember) -> Option<IndexList>
        ensures at { IfSome result (λ l. at ≡ at_index l) }
        ensures of { IfSome result (λ l. LiesIn of l) }
    {
        let (list, number) = match at {
            InMember::Index { of: list, number } => (list, number),
            InMember::Entry { more, at } => return labels(more, at),
            _ => return None,
        };
        if !number.is_new() {
            return None;
        }
        match list {
            IndexOf::Function => match of {
                SectionKind::Function => Some(IndexList::Types),
                _ => None,
            },
            IndexOf::ElementFunction { more: rest } => Some(IndexList::Functions { rest }),
            _ => None,
        }
    }

    // Returns the state in the member before the next index of the list
    fn at(self) -> InMember
        ensures { result ≡ at_index self }
    {
        let number = Num32::new();
        match self {
            IndexList::Types => InMember::Index {
                of: IndexOf::Function,
                number,
            },
            IndexList::Functions { rest } => InMember::Index {
                of: IndexOf::ElementFunction { more: rest },
                number,
            },
            IndexList::Labels {
                rest,
                depth,
                labels,
            } => {
                let left = labels;
                let at = InExpression::Label {
                    depth,
                    left,
                    number,
                };
                InMember::Entry {
                    more: rest,
                    at: InEntry::Body(at),
                }
            }
        }
    }
}

impl InIndices {
    /// Returns the counts and the list if the machine is before an index.
    pub(crate) fn of(machine: Machine) -> Option<InIndices>
        ensures machine { IfSome result (λ i. machine ≡ before_index i) }
        ensures of { IfSome result (λ i. LiesIn i.of i.list) }
    {
        let Some((of, at, section)) = InSection::of(machine) else {
            return None;
        };
        let list = IndexList::of(of, at)?;
        Some(InIndices {
            of,
            counts: section.counts,
            more: section.more,
            left: section.left,
            list,
        })
    }

    /// Returns how many bytes come after the next in the section, and for labels in the entry too.
    pub(crate) fn room(self) -> u32
        ensures { result ≡ index_room self }
    {
        match self.list {
            IndexList::Types | IndexList::Functions { .. } => self.more,
            IndexList::Labels { rest, .. } => self.more.min(rest),
        }
    }

    /// Returns how many indices to come are followed by another of the list.
    pub(crate) fn followed(self) -> u32
        ensures { result ≡ followed_indices self }
    {
        match self.list {
            IndexList::Types => self.left,
            IndexList::Functions { rest } => rest,
            IndexList::Labels { labels, .. } => labels,
        }
    }

    /// Returns the greatest number of one-byte indices to take, such that another index follows each, and another byte
    /// of the section and of the entry.
    pub(crate) fn most(self) -> u32
        ensures { result ≡ most_indices self }
    {
        self.room().min(self.followed())
    }

    /// Returns the machine after `used` bytes, which were `count` indices.
    pub(crate) fn after(self, used: u32, count: u32) -> Machine
        requires room { used ≤ index_room self }
        requires followed { count ≤ followed_indices self }
        ensures { result ≡ before_index (indices_past self used count) }
    {
        let (left, list) = match self.list {
            IndexList::Types => (self.left - count, IndexList::Types),
            IndexList::Functions { rest } => {
                let rest = rest - count;
                (self.left, IndexList::Functions { rest })
            }
            IndexList::Labels {
                rest,
                depth,
                labels,
            } => {
                let rest = rest - used;
                let labels = labels - count;
                let list = IndexList::Labels {
                    rest,
                    depth,
                    labels,
                };
                (self.left, list)
            }
        };
        Machine::Section {
            of: self.of,
            counts: self.counts,
            more: self.more - used,
            left,
            at: list.at(),
        }
    }

    /// Returns the machine after the last index, which has `used` bytes before its last byte.
    pub(crate) fn ended(self, used: u32) -> Machine
        requires { used ≤ index_room self }
        ensures { result ≡ indices_ended self used }
    {
        let at = match self.list {
            IndexList::Types | IndexList::Functions { .. } => InMember::Over,
            IndexList::Labels { rest, depth, .. } => {
                entry_framed(rest - used, InEntry::Body(opened(depth)))
            }
        };
        framed(self.of, self.counts, self.more - used, self.left, at)
    }
}

// Passes each of these bytes as an index, up to one that the sink refuses. Out of line: there the loop keeps its
// values in registers
#[inline(never)]
fn give_indices<S: Sink>(sink: &mut S, list: IndexList, bytes: &[u8]) -> Shortcut
    ensures within { result.used ≤ length bytes.now }
    ensures given { GaveEach S.after (index_item_in list) bytes.now
        (S.held sink.old) result.used result.refused
        (S.held sink.new) }
{
    for (i, byte) in bytes.iter().enumerate() {
        if let Err(why) = give_short_index(sink, list, u32::from(*byte)) {
            return Shortcut {
                used: i + 1,
                refused: Some(why),
            };
        }
    }
    Shortcut {
        used: bytes.len(),
        refused: None,
    }
}

/// Takes the indices at the front of these bytes. If two or more have one byte each and another follows, it takes
/// these; otherwise it takes those of any length.
#[tactic(auto, using(crate::proofs::Advances::advances_none))]
pub(crate) fn indices<S: Sink>(
    sink: &mut S,
    machine: &mut Machine,
    profile: Profile,
    bytes: &[u8],
) -> Shortcut
    ensures { Advances S.after S.may_run_out profile bytes.now machine.old (S.held sink.old) result
        machine.new (S.held sink.new) }
{
    // a single byte that begins a longer index takes the slow path
    let single = bytes.len() == 1;
    if single && bytes[0] >= 0x80 {
        return Shortcut::none();
    }
    let Some(before) = InIndices::of(*machine) else {
        return Shortcut::none();
    };
    if single {
        return whole_indices(sink, machine, before, profile, bytes);
    }
    let most = min_len(before.most(), bytes.len());
    let count = short_front(&bytes[..most as usize]);
    if count < 2 {
        return whole_indices(sink, machine, before, profile, bytes);
    }
    let given = give_indices(sink, before.list, &bytes[..count]);
    let used = given.used as u32;
    *machine = before.after(used, used);
    given
}
