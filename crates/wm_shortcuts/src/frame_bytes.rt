//! One byte of a section header: of its id, its size or its member count. It completes no item.
//!
//! Rare bytes and refused bytes take the slow path: the functions return `None` or `false` for them.

ghost use Rattle.std.specs.Prelude.{◌≡◌, IfSome, false, true};
ghost use Rattle.wm_syntax.specs.exact.Reading.{fresh};
ghost use Rattle.wm_shortcuts.specs.exact.Frames.{IsFrameStep};

use wm_machine::machine::member::SectionKind;
use wm_machine::machine::{Counts, Machine};
use wm_machine::step::counted;
use wm_syntax::numbers::{Num32, Step};
use wm_syntax::profile::Profile;

/// Returns the kind of section that this id begins under every profile. The data count section takes the slow path.
#[inline(always)]
pub(crate) fn begun(last: u8, counts: Counts, byte: u8) -> Option<SectionKind>
    ensures { IfSome result (λ of. IsFrameStep (Machine.Between last counts) byte
        (Machine.Size of counts fresh)) }
{
    let of = SectionKind::of(Profile::ONE, byte)?;
    match of {
        SectionKind::Segment if counts.functions > 0 => None,
        _ if of.rank() <= last => None,
        _ => Some(of),
    }
}

/// Returns how many bytes of the section come after the next, if this byte ends its size.
#[inline(always)]
pub(crate) fn size_end(of: SectionKind, counts: Counts, mut number: Num32, byte: u8) -> Option<u32>
    ensures { IfSome result (λ more. IsFrameStep (Machine.Size of counts number) byte
        (Machine.Count of counts more fresh)) }
{
    let Step::Done(size) = number.push(byte) else {
        return None;
    };
    if size == 0 {
        return None;
    }
    match of {
        SectionKind::Start => None,
        _ => Some(size - 1),
    }
}

/// Returns the size so far, if it continues after this byte.
#[inline(always)]
pub(crate) fn size_more(
    of: SectionKind,
    counts: Counts,
    mut number: Num32,
    byte: u8,
) -> Option<Num32>
    ensures { IfSome result (λ n. IsFrameStep (Machine.Size of counts number) byte
        (Machine.Size of counts n)) }
{
    match number.push(byte) {
        Step::More => Some(number),
        _ => None,
    }
}

/// Returns the machine after the member count of a section, if this byte ends it. The number in the data count section
/// is an item, and takes the slow path.
#[inline(always)]
pub(crate) fn count_end(
    of: SectionKind,
    counts: Counts,
    more: u32,
    mut number: Num32,
    byte: u8,
) -> Option<Machine>
    ensures { IfSome result (λ n. IsFrameStep (Machine.Count of counts more number) byte n) }
{
    let Step::Done(n) = number.push(byte) else {
        return None;
    };
    match counted(of, counts, more, n) {
        Machine::Refused(_) => None,
        _ if matches!(of, SectionKind::DataCount) => None,
        next => Some(next),
    }
}

// Returns the machine after a byte of a section header
#[inline(always)]
fn after_byte(machine: Machine, byte: u8) -> Option<Machine>
    ensures { IfSome result (λ n. IsFrameStep machine byte n) }
{
    match machine {
        Machine::Between { last, counts } => {
            let of = begun(last, counts, byte)?;
            let number = Num32::new();
            Some(Machine::Size { of, counts, number })
        }
        Machine::Size { of, counts, number } => {
            if let Some(number) = size_more(of, counts, number, byte) {
                return Some(Machine::Size { of, counts, number });
            }
            let more = size_end(of, counts, number, byte)?;
            let number = Num32::new();
            Some(Machine::Count {
                of,
                counts,
                more,
                number,
            })
        }
        Machine::Count {
            of,
            counts,
            more,
            number,
        } => count_end(of, counts, more, number, byte),
        _ => None,
    }
}

/// Takes a byte of a section header, and returns whether it did.
#[inline(never)]
pub(crate) fn frame_byte(machine: &mut Machine, byte: u8) -> bool
    ensures taken { result ≡ true → IsFrameStep machine.old byte machine.new }
    ensures left { result ≡ false → machine.new ≡ machine.old }
{
    // mostly a member comes: this test needs no copy of the machine
    if let Machine::Section { .. } = *machine {
        return false;
    }
    let Some(next) = after_byte(*machine, byte) else {
        return false;
    };
    *machine = next;
    true
}
