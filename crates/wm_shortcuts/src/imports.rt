//! Fast path for consecutive imports of functions. Core spec 5.5.5.
//!
//! Empty names, long names, other imports, the last import of a section, and bytes that the format refuses take the
//! slow path.

ghost use Rattle.std.specs.Prelude.{◌≡◌, ◌+◌, ◌≤◌, IfSome, length, slice_index};
ghost use Rattle.wm_syntax.specs.exact.Reading.{unsigned_push};
ghost use Rattle.wm_shortcuts.specs.exact.Shortcuts.{Advances};
ghost use Rattle.wm_shortcuts.specs.exact.WholeMembers.{before_member};
ghost use Rattle.wm_shortcuts.specs.exact.WholeNames.{NameLies};
ghost use Rattle.wm_shortcuts.specs.exact.WholeOps.{LiesAt};

use crate::give::{give_import, give_name};
use crate::in_section::InSection;
use crate::ways::Shortcut;
use crate::whole_names::name_end;
use crate::whole_numbers::u32_at;
use wm_machine::machine::member::{InMember, SectionKind};
use wm_machine::machine::{Machine, NameKind};
use wm_machine::sink::Sink;
use wm_syntax::profile::Profile;

/// An import of a function: the index after each of its two names, the index after all of it, and its type index.
#[derive(Clone, Copy)]
struct Import {
    middle: usize,
    stop: usize,
    next: usize,
    index: u32,
}

// Returns the counts of the section if the machine is before an import
#[inline(always)]
fn at_import(machine: Machine) -> Option<InSection>
    ensures { IfSome result (λ i. machine ≡ before_member SectionKind.Import i) }
{
    let Some((SectionKind::Import, at, section)) = InSection::of(machine) else {
        return None;
    };
    let InMember::NameLength { of: kind, number } = at else {
        return None;
    };
    let NameKind::ImportModule = kind else {
        return None;
    };
    if !number.is_new() {
        return None;
    }
    Some(section)
}

// Reads the import of a function at the index `from`, if it ends by `end` and each name has 1 to 127 bytes
#[inline(always)]
fn import_at(bytes: &[u8], from: usize, end: usize) -> Option<Import>
    requires { end ≤ length bytes.now }
    ensures module { IfSome result (λ i. NameLies bytes.now from i.middle) }
    ensures name { IfSome result (λ i. NameLies bytes.now i.middle i.stop) }
    ensures kind { IfSome result (λ i. slice_index bytes.now i.stop ≡ 0) }
    ensures index { IfSome result (λ i. LiesAt (unsigned_push 32) bytes.now (i.stop + 1) i.next i.index) }
    ensures within { IfSome result (λ i. i.next ≤ end) }
{
    let middle = name_end(bytes, from, end)?;
    let stop = name_end(bytes, middle, end)?;
    if end - stop < 2 || bytes[stop] != 0x00 {
        return None;
    }
    let index = u32_at(bytes, stop + 1)?;
    if index.next > end {
        return None;
    }
    Some(Import {
        middle,
        stop,
        next: index.next,
        index: index.value,
    })
}

/// Takes the imports of functions that lie in these bytes and are not the last import of the section.
#[inline(never)]
#[tactic(auto, using(crate::proofs::Advances::advances_none))]
pub(crate) fn imports<S: Sink>(
    sink: &mut S,
    machine: &mut Machine,
    profile: Profile,
    bytes: &[u8],
) -> Shortcut
    ensures { Advances S.after S.may_run_out profile bytes.now machine.old (S.held sink.old) result
        machine.new (S.held sink.new) }
{
    let Some(start) = at_import(*machine) else {
        return Shortcut::none();
    };
    let end = bytes.len().min(start.more as usize);
    let mut left = start.left;
    let mut used = 0;
    while left > 0 {
        let Some(found) = import_at(bytes, used, end) else {
            break;
        };
        let module = &bytes[used + 1..found.middle];
        if let Err(why) = give_name(sink, NameKind::ImportModule, module) {
            return Shortcut::out(found.middle, why);
        }
        let name = &bytes[found.middle + 1..found.stop];
        if let Err(why) = give_name(sink, NameKind::ImportName, name) {
            return Shortcut::out(found.stop, why);
        }
        used = found.next;
        left -= 1;
        if let Err(why) = give_import(sink, found.index) {
            return Shortcut::out(used, why);
        }
    }
    *machine = start.after(used as u32, left).before(SectionKind::Import);
    let refused = None;
    Shortcut { used, refused }
}
