//! Fast path for the header (Core spec 5.5.15) and for section headers: ids, sizes and member counts (Core spec 5.5.2).
//!
//! Their bytes complete no item. The slow path takes custom sections, counts of several bytes, the last byte of a start
//! section's size, and refused bytes. It also takes a header if no id of a section, other than custom, follows in the
//! piece.

ghost use Rattle.std.specs.Prelude.{◌≡◌, ◌<◌, IfSome, length, slice_index, true, ℕ};
ghost use Rattle.wm_syntax.specs.exact.Reading.{fresh};
ghost use Rattle.wm_machine.specs.Sections.{header};
ghost use Rattle.wm_shortcuts.specs.exact.Frames.{IsFrameStep, LeadsTo};
ghost use Rattle.wm_shortcuts.specs.exact.Shortcuts.{Advances};

use crate::frame_bytes::{begun, count_end, frame_byte, size_end, size_more};
use crate::ways::Shortcut;
use wm_machine::machine::member::SectionKind;
use wm_machine::machine::{Counts, Machine};
use wm_machine::sink::Sink;
use wm_syntax::numbers::Num32;
use wm_syntax::profile::Profile;

/// The number of bytes before the member count, and the number of bytes of the section after its first.
#[derive(Clone, Copy)]
struct Sized {
    next: usize,
    more: u32,
}

// Reads the size of a section after its id, if it has one or two bytes
#[inline(always)]
fn short_size(
    machine: &Machine,
    profile: Profile,
    bytes: &[u8],
    of: SectionKind,
    counts: Counts,
) -> Option<Sized>
    requires some { 3 < length bytes.now }
    requires begun { IsFrameStep machine.now (slice_index bytes.now 0) (Machine.Size of counts fresh) }
    ensures leads { IfSome result (λ s. LeadsTo profile bytes.now machine.now s.next
        (Machine.Count of counts s.more fresh)) }
    ensures within { IfSome result (λ s. s.next < length bytes.now) }
{
    let number = Num32::new();
    if bytes[1] < 0x80 {
        let more = size_end(of, counts, number, bytes[1])?;
        return Some(Sized { next: 2, more });
    }
    let number = size_more(of, counts, number, bytes[1])?;
    let more = size_end(of, counts, number, bytes[2])?;
    Some(Sized { next: 3, more })
}

// Takes the id, size and count of a section, and returns their number of bytes. Takes none unless the size has one or
// two bytes and the count has one
#[inline(always)]
#[tactic(auto, using(crate::proofs::FrameBytes::frames_none))]
fn section_begin(machine: &mut Machine, profile: Profile, bytes: &[u8]) -> usize
    ensures { LeadsTo profile bytes.now machine.old result machine.new }
{
    let Machine::Between { last, counts } = *machine else {
        return 0;
    };
    if bytes.len() < 4 {
        return 0;
    }
    let Some(of) = begun(last, counts, bytes[0]) else {
        return 0;
    };
    let Some(size) = short_size(machine, profile, bytes, of, counts) else {
        return 0;
    };
    let count = bytes[size.next];
    let Some(next) = count_end(of, counts, size.more, Num32::new(), count) else {
        return 0;
    };
    *machine = next;
    size.next + 1
}

// Takes section headers, one after another
#[inline(always)]
#[tactic(auto, using(crate::proofs::FrameBytes::frames_none))]
fn sections(machine: &mut Machine, profile: Profile, bytes: &[u8]) -> usize
    ensures { LeadsTo profile bytes.now machine.old result machine.new }
{
    let mut used = 0;
    while used < bytes.len() {
        used += section_begin(machine, profile, &bytes[used..]);
        if used == bytes.len() || !frame_byte(machine, bytes[used]) {
            break;
        }
        used += 1;
    }
    used
}

// Whether these bytes begin with the header
#[inline(always)]
fn has_header(bytes: &[u8]) -> bool
    requires { 8 < length bytes.now }
    ensures { result ≡ true → (i : ℕ) → i < 8 → slice_index bytes.now i ≡ slice_index header i }
{
    let magic = bytes[0] == 0x00 && bytes[1] == 0x61 && bytes[2] == 0x73 && bytes[3] == 0x6D;
    magic && bytes[4] == 0x01 && bytes[5] == 0x00 && bytes[6] == 0x00 && bytes[7] == 0x00
}

// Takes the header, and the section headers after it
#[inline(never)]
#[tactic(auto, using(crate::proofs::Advances::advances_none))]
fn from_header<S: Sink>(sink: &S, machine: &mut Machine, profile: Profile, bytes: &[u8]) -> Shortcut
    requires { machine.old ≡ Machine.Header 0 }
    ensures { Advances S.after S.may_run_out profile bytes.now machine.old (S.held sink.now) result
        machine.new (S.held sink.now) }
{
    if bytes.len() <= 8 || !has_header(bytes) {
        return Shortcut::none();
    }
    let counts = Counts::none();
    *machine = Machine::Between { last: 0, counts };
    let used = sections(machine, profile, &bytes[8..]);
    // a fast path must take more than the header
    if used == 0 {
        *machine = Machine::Header(0);
        return Shortcut::none();
    }
    Shortcut {
        used: 8 + used,
        refused: None,
    }
}

/// Takes the header and bytes of section headers. Passes nothing to the sink.
#[tactic(auto, using(crate::proofs::Advances::advances_none))]
pub(crate) fn frames<S: Sink>(
    sink: &S,
    machine: &mut Machine,
    profile: Profile,
    bytes: &[u8],
) -> Shortcut
    ensures { Advances S.after S.may_run_out profile bytes.now machine.old (S.held sink.now) result
        machine.new (S.held sink.now) }
{
    match *machine {
        Machine::Header(0) => from_header(sink, machine, profile, bytes),
        Machine::Header(_) | Machine::Refused(_) => Shortcut::none(),
        _ => {
            let used = sections(machine, profile, bytes);
            let refused = None;
            Shortcut { used, refused }
        }
    }
}
