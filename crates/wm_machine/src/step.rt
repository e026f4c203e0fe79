//! The slow path, one byte at a time: the header, section headers, custom sections, and sizes and counts of sections.

ghost use Rattle.std.specs.Prelude.{◌≡◌};
ghost use Rattle.wm_machine.specs.exact.Steps.{custom_length_step, custom_name_step, custom_step};
ghost use Rattle.wm_machine.specs.exact.Steps.{machine_in_custom, machine_in_member, machine_refused};
ghost use Rattle.wm_machine.specs.exact.Steps.{section_start, machine_after_count, machine_after_paired_count};
ghost use Rattle.wm_machine.specs.exact.Steps.{count_event, count_step, after_size, size_step, custom_size};
ghost use Rattle.wm_machine.specs.exact.Steps.{custom_size_step, header_step, step_of};

use crate::machine::member::{InMember, SectionKind};
use crate::machine::{Counts, Event, InCustom, Machine, NameKind, Plain};
use crate::step::members::{begin, member_byte};
use wm_syntax::numbers::{Num32, Step};
use wm_syntax::profile::Profile;
use wm_syntax::why::Why;

pub mod code_entries;
pub mod expressions;
pub mod members;
pub mod ops;
pub mod reading;
pub mod types;
pub mod values;

fn no_custom(why: Why) -> (InCustom, Event)
    ensures { result ≡ (InCustom.Failed why, Event.Nothing) }
{
    (InCustom::Failed(why), Event::Nothing)
}

fn name_length(mut number: Num32, byte: u8) -> (InCustom, Event)
    ensures { result ≡ custom_length_step number byte }
{
    match number.push(byte) {
        Step::More => (InCustom::Length(number), Event::Nothing),
        Step::Done(0) => (InCustom::Skip, Event::EmptyName(NameKind::Custom)),
        Step::Done(n) => (InCustom::Name { more: n - 1 }, Event::Nothing),
        Step::Bad => no_custom(Why::BadNumber),
    }
}

fn name_byte(more: u32) -> (InCustom, Event)
    ensures { result ≡ custom_name_step more }
{
    if more == 0 {
        (InCustom::Skip, Event::EndsName(NameKind::Custom))
    } else {
        (InCustom::Name { more: more - 1 }, Event::InName)
    }
}

fn custom_byte(part: InCustom, byte: u8) -> (InCustom, Event)
    ensures { result ≡ custom_step part byte }
{
    match part {
        InCustom::Length(number) => name_length(number, byte),
        InCustom::Name { more } => name_byte(more),
        InCustom::Skip => (InCustom::Skip, Event::Nothing),
        InCustom::Failed(_) => no_custom(Why::SectionEnd),
    }
}

fn refused(why: Why) -> (Machine, Event)
    ensures { result ≡ machine_refused why }
{
    (Machine::Refused(why), Event::Nothing)
}

// Returns the state with `left` bytes of a custom section still to come
fn custom_framed(last: u8, counts: Counts, left: u32, part: InCustom) -> Machine
    ensures { result ≡ machine_in_custom last counts left part }
{
    match part {
        InCustom::Failed(why) => Machine::Refused(why),
        InCustom::Skip if left == 0 => Machine::Between { last, counts },
        _ if left == 0 => Machine::Refused(Why::SectionEnd),
        _ => {
            let more = left - 1;
            Machine::Custom {
                last,
                counts,
                more,
                part,
            }
        }
    }
}

/// Returns the state inside a member, with `bytes` bytes of the section and `left` further members to come. Refuses
/// with `SectionEnd` if the members are longer or shorter than the section's size.
pub fn framed(of: SectionKind, counts: Counts, bytes: u32, left: u32, at: InMember) -> Machine
    ensures { result ≡ machine_in_member of counts bytes left at }
{
    let (left, at) = match at {
        InMember::Failed(why) => return Machine::Refused(why),
        InMember::Over if left == 0 && bytes == 0 => {
            let last = of.rank();
            return Machine::Between { last, counts };
        }
        InMember::Over if left == 0 => return Machine::Refused(Why::SectionEnd),
        InMember::Over => (left - 1, begin(of)),
        _ => (left, at),
    };
    if bytes == 0 {
        return Machine::Refused(Why::SectionEnd);
    }
    let more = bytes - 1;
    Machine::Section {
        of,
        counts,
        more,
        left,
        at,
    }
}

// Returns the state after the member count of a section
fn listed(of: SectionKind, counts: Counts, bytes: u32, count: u32) -> Machine
    ensures { result ≡ machine_after_count of counts bytes count }
{
    if count == 0 {
        framed(of, counts, bytes, 0, InMember::Over)
    } else {
        framed(of, counts, bytes, count - 1, begin(of))
    }
}

/// Returns the state after the number at the front of a section. Keeps the count of the function section and the number
/// in the data count section. Refuses with `CodeCount` or `DataCount` if the code or data section has another count.
pub fn counted(of: SectionKind, counts: Counts, bytes: u32, count: u32) -> Machine
    ensures { result ≡ machine_after_paired_count of counts bytes count }
{
    match of {
        SectionKind::Code if count != counts.functions => Machine::Refused(Why::CodeCount),
        SectionKind::Segment if !counts.allows_segments(count) => Machine::Refused(Why::DataCount),
        SectionKind::DataCount => listed(of, counts.in_section(of, count), bytes, 0),
        _ => listed(of, counts.in_section(of, count), bytes, count),
    }
}

// Returns the effect of the last byte of the number at the front of a section
fn count_event(of: SectionKind, count: u32) -> Event
    ensures { result ≡ count_event of count }
{
    match of {
        SectionKind::DataCount => Event::Complete(Plain::DataCount(count)),
        _ => Event::Nothing,
    }
}

fn count(
    of: SectionKind,
    counts: Counts,
    more: u32,
    mut number: Num32,
    byte: u8,
) -> (Machine, Event)
    ensures { result ≡ count_step of counts more number byte }
{
    match number.push(byte) {
        Step::More if more == 0 => refused(Why::SectionEnd),
        Step::More => {
            let more = more - 1;
            (
                Machine::Count {
                    of,
                    counts,
                    more,
                    number,
                },
                Event::Nothing,
            )
        }
        Step::Done(n) => (counted(of, counts, more, n), count_event(of, n)),
        Step::Bad => refused(Why::BadNumber),
    }
}

fn section_start(profile: Profile, last: u8, counts: Counts, byte: u8) -> (Machine, Event)
    ensures { result ≡ section_start profile last counts byte }
{
    let number = Num32::new();
    if byte == 0 {
        return (
            Machine::CustomSize {
                last,
                counts,
                number,
            },
            Event::Nothing,
        );
    }
    match SectionKind::of(profile, byte) {
        None => refused(Why::SectionId),
        Some(of) if of.rank() <= last => refused(Why::SectionOrder),
        Some(SectionKind::Segment) if counts.functions > 0 => refused(Why::CodeCount),
        Some(of) => (Machine::Size { of, counts, number }, Event::Nothing),
    }
}

fn after_size(of: SectionKind, counts: Counts, size: u32) -> Machine
    ensures { result ≡ after_size of counts size }
{
    if size == 0 {
        return Machine::Refused(Why::SectionEnd);
    }
    let more = size - 1;
    match of {
        SectionKind::Start => {
            let at = begin(of);
            let counts = counts.in_section(of, 1);
            Machine::Section {
                of,
                counts,
                more,
                left: 0,
                at,
            }
        }
        _ => {
            let number = Num32::new();
            Machine::Count {
                of,
                counts,
                more,
                number,
            }
        }
    }
}

fn section_size(of: SectionKind, counts: Counts, mut number: Num32, byte: u8) -> (Machine, Event)
    ensures { result ≡ size_step of counts number byte }
{
    match number.push(byte) {
        Step::More => (Machine::Size { of, counts, number }, Event::Nothing),
        Step::Done(n) => (after_size(of, counts, n), Event::Nothing),
        Step::Bad => refused(Why::BadNumber),
    }
}

fn after_custom_size(last: u8, counts: Counts, size: u32) -> Machine
    ensures { result ≡ custom_size last counts size }
{
    custom_framed(last, counts, size, InCustom::Length(Num32::new()))
}

fn custom_size(last: u8, counts: Counts, mut number: Num32, byte: u8) -> (Machine, Event)
    ensures { result ≡ custom_size_step last counts number byte }
{
    match number.push(byte) {
        Step::More => (
            Machine::CustomSize {
                last,
                counts,
                number,
            },
            Event::Nothing,
        ),
        Step::Done(n) => (after_custom_size(last, counts, n), Event::Nothing),
        Step::Bad => refused(Why::BadNumber),
    }
}

const HEADER: [u8; 8] = [0x00, 0x61, 0x73, 0x6D, 0x01, 0x00, 0x00, 0x00];

fn in_header(at: u8, byte: u8) -> (Machine, Event)
    ensures { result ≡ header_step at byte }
{
    if at > 7 {
        return refused(Why::Version);
    }
    if byte != HEADER[at as usize] {
        refused(if at < 4 { Why::Magic } else { Why::Version })
    } else if at < 7 {
        (Machine::Header(at + 1), Event::Nothing)
    } else {
        let counts = Counts::none();
        (Machine::Between { last: 0, counts }, Event::Nothing)
    }
}

/// Takes one more byte and returns its effect. Updates the machine in place, which saves a copy.
#[inline(never)]
pub fn step(profile: Profile, machine: &mut Machine, byte: u8) -> Event
    ensures { (machine.new, result) ≡ step_of profile machine.old byte }
{
    let (next, event) = stepped(profile, *machine, byte);
    *machine = next;
    event
}

// Returns the state after one more byte, and the effect of this byte
#[inline(always)]
fn stepped(profile: Profile, machine: Machine, byte: u8) -> (Machine, Event)
    ensures { result ≡ step_of profile machine byte }
{
    match machine {
        Machine::Header(at) => in_header(at, byte),
        Machine::Between { last, counts } => section_start(profile, last, counts, byte),
        Machine::CustomSize {
            last,
            counts,
            number,
        } => custom_size(last, counts, number, byte),
        Machine::Custom {
            last,
            counts,
            more,
            part,
        } => {
            let (part, event) = custom_byte(part, byte);
            (custom_framed(last, counts, more, part), event)
        }
        Machine::Size { of, counts, number } => section_size(of, counts, number, byte),
        Machine::Count {
            of,
            counts,
            more,
            number,
        } => count(of, counts, more, number, byte),
        Machine::Section {
            of,
            counts,
            more,
            left,
            at,
        } => {
            let (at, event) = member_byte(profile, at, byte);
            (framed(of, counts, more, left, at), event)
        }
        Machine::Refused(why) => refused(why),
    }
}
