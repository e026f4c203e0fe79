//! Fast path for the head of an active element segment (Core spec 5.5.12) or data segment (5.5.14): a byte 00, its offset
//! expression, and its number of functions or bytes.
//!
//! The byte 00 is the index 0 of a table or memory, or the flag 0, whichever the profile reads. A segment with another
//! first byte, and bytes that the format refuses, take the slow path.

ghost use Rattle.std.specs.Prelude.{◌≡◌, ◌+◌, ◌<◌, IfSome, length, slice_index};
ghost use Rattle.wm_syntax.specs.exact.Reading.{unsigned_push};
ghost use Rattle.wm_machine.specs.exact.MemberSteps.{index_item, list_or_over, segment_index};
ghost use Rattle.wm_shortcuts.specs.exact.Segments.{section_of, size_of};
ghost use Rattle.wm_shortcuts.specs.exact.Shortcuts.{Advances};
ghost use Rattle.wm_shortcuts.specs.exact.WholeMembers.{before_member};
ghost use Rattle.wm_shortcuts.specs.exact.WholeOps.{LiesAt, WholeOp};

use crate::constants::{Constant, constant_at};
use crate::give::{give, give_constant};
use crate::in_section::InSection;
use crate::ways::Shortcut;
use crate::whole_numbers::u32_at;
use wm_machine::machine::member::{InMember, SectionKind, SegmentKind};
use wm_machine::machine::{Machine, Plain, refusal_of};
use wm_machine::sink::Sink;
use wm_machine::step::framed;
use wm_machine::step::members::{data_or_over, functions_or_over};
use wm_syntax::instructions::Op;
use wm_syntax::profile::Profile;

// Returns the section of the segments of this kind
#[inline(always)]
fn section_of(of: SegmentKind) -> SectionKind
    ensures { result ≡ section_of of }
{
    match of {
        SegmentKind::Element => SectionKind::Element,
        SegmentKind::Data => SectionKind::Segment,
    }
}

// Returns the item of an active segment of the table or memory 0
#[inline(always)]
fn first_item(of: SegmentKind) -> Plain
    ensures { result ≡ index_item (segment_index of) 0 }
{
    match of {
        SegmentKind::Element => Plain::Element(0),
        SegmentKind::Data => Plain::Segment(0),
    }
}

// Returns the state after the head, with `size` functions or bytes to come
#[inline(always)]
fn after_head(of: SegmentKind, size: u32) -> InMember
    ensures { result ≡ list_or_over (size_of of) size }
{
    match of {
        SegmentKind::Element => functions_or_over(size),
        SegmentKind::Data => data_or_over(size),
    }
}

/// The kind of the next segment, and the counts of the section before it.
#[derive(Clone, Copy)]
struct BeforeSegment {
    of: SegmentKind,
    place: InSection,
}

/// The head of a segment after its first byte; `next` is where it ends.
#[derive(Clone, Copy)]
struct SegmentHead {
    offset: Constant,
    size: u32,
    next: usize,
}

// Returns the kind and the counts if the machine is before a segment
#[inline(always)]
fn at_segment(machine: Machine) -> Option<BeforeSegment>
    ensures { IfSome result (λ b. machine ≡ before_member (section_of b.of) b.place) }
{
    let Some((section, at, place)) = InSection::of(machine) else {
        return None;
    };
    let InMember::SegmentStart { of, number } = at else {
        return None;
    };
    if !number.is_new() {
        return None;
    }
    match (section, of) {
        (SectionKind::Element, SegmentKind::Element) => Some(BeforeSegment { of, place }),
        (SectionKind::Segment, SegmentKind::Data) => Some(BeforeSegment { of, place }),
        _ => None,
    }
}

// Reads the head at the front of these bytes, if it lies whole in them
#[inline(always)]
fn head_at(bytes: &[u8]) -> Option<SegmentHead>
    ensures first { IfSome result (λ h. slice_index bytes.now 0 ≡ 0x00) }
    ensures op { IfSome result (λ h. WholeOp bytes.now 1 h.offset.stop 0 0 h.offset.op) }
    ensures end { IfSome result (λ h. slice_index bytes.now h.offset.stop ≡ 0x0B) }
    ensures size { IfSome result (λ h.
        LiesAt (unsigned_push 32) bytes.now (h.offset.stop + 1) h.next h.size) }
{
    if bytes.len() < 5 || bytes[0] != 0x00 {
        return None;
    }
    let offset = constant_at(bytes, 1)?;
    let from = offset.stop + 1;
    if from >= bytes.len() {
        return None;
    }
    let size = u32_at(bytes, from)?;
    Some(SegmentHead {
        offset,
        size: size.value,
        next: size.next,
    })
}

/// Takes the head of a segment. This completes the segment if it has no functions or bytes.
#[inline(never)]
#[tactic(auto, using(crate::proofs::Advances::advances_none))]
pub(crate) fn segment_head<S: Sink>(
    sink: &mut S,
    machine: &mut Machine,
    profile: Profile,
    bytes: &[u8],
) -> Shortcut
    ensures { Advances S.after S.may_run_out profile bytes.now machine.old (S.held sink.old) result
        machine.new (S.held sink.new) }
{
    let Some(start) = at_segment(*machine) else {
        return Shortcut::none();
    };
    let place = start.place;
    let Some(head) = head_at(bytes) else {
        return Shortcut::none();
    };
    let last = head.next - 1;
    if last > place.more as usize {
        return Shortcut::none();
    }
    if let Err(why) = give(sink, first_item(start.of)) {
        return Shortcut::out(1, why);
    }
    let stop = head.offset.stop;
    if let Err(why) = give_constant(sink, head.offset.op) {
        return Shortcut::out(stop, why);
    }
    if let Err(why) = give_constant(sink, Op::End) {
        return Shortcut::out(stop + 1, why);
    }
    let more = place.more - last as u32;
    let at = after_head(start.of, head.size);
    *machine = framed(section_of(start.of), place.counts, more, place.left, at);
    Shortcut {
        used: head.next,
        refused: refusal_of(*machine),
    }
}
