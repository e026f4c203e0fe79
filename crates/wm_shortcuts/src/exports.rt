//! Fast path for consecutive exports, including the last of a section. Core spec 5.5.10.
//!
//! Empty names, long names, and bytes that the format refuses take the slow path.

ghost use Rattle.std.specs.Prelude.{◌≡◌, ◌+◌, ◌<◌, ◌≤◌, IfSome, length, slice_index};
ghost use Rattle.wm_syntax.specs.exact.Reading.{unsigned_push};
ghost use Rattle.wm_shortcuts.specs.exact.Shortcuts.{Advances};
ghost use Rattle.wm_shortcuts.specs.exact.WholeMembers.{before_member};
ghost use Rattle.wm_shortcuts.specs.exact.WholeNames.{IsKindByte, NameLies};
ghost use Rattle.wm_shortcuts.specs.exact.WholeOps.{LiesAt};

use crate::chains::Link;
use crate::give::{give_export, give_name};
use crate::in_section::InSection;
use crate::ways::Shortcut;
use crate::whole_names::name_end;
use crate::whole_numbers::u32_at;
use wm_machine::machine::member::{InMember, SectionKind};
use wm_machine::machine::{Machine, NameKind};
use wm_machine::sink::Sink;
use wm_syntax::modules::ExportKind;
use wm_syntax::profile::Profile;

/// An export: the index after its name, the index after all of it, and its descriptor.
#[derive(Clone, Copy)]
struct Export {
    stop: usize,
    next: usize,
    kind: ExportKind,
    index: u32,
}

// Returns the counts of the section if the machine is before an export
#[inline(always)]
fn at_export(machine: Machine) -> Option<InSection>
    ensures { IfSome result (λ i. machine ≡ before_member SectionKind.Export i) }
{
    let Some((SectionKind::Export, at, section)) = InSection::of(machine) else {
        return None;
    };
    let InMember::NameLength { of: kind, number } = at else {
        return None;
    };
    let NameKind::Export = kind else {
        return None;
    };
    if !number.is_new() {
        return None;
    }
    Some(section)
}

// Returns the kind of export that this byte stands for
#[inline(always)]
fn kind_of(byte: u8) -> Option<ExportKind>
    ensures { IfSome result (λ kind. IsKindByte byte kind) }
{
    match byte {
        0x00 => Some(ExportKind::Func),
        0x01 => Some(ExportKind::Table),
        0x02 => Some(ExportKind::Memory),
        0x03 => Some(ExportKind::Global),
        _ => None,
    }
}

// Reads the export at the index `from`, if it ends by `end` and its name has 1 to 127 bytes
#[inline(always)]
fn export_at(bytes: &[u8], from: usize, end: usize) -> Option<Export>
    requires { end ≤ length bytes.now }
    ensures name { IfSome result (λ e. NameLies bytes.now from e.stop) }
    ensures kind { IfSome result (λ e. IsKindByte (slice_index bytes.now e.stop) e.kind) }
    ensures index { IfSome result (λ e. LiesAt (unsigned_push 32) bytes.now (e.stop + 1) e.next e.index) }
    ensures within { IfSome result (λ e. e.next ≤ end) }
{
    let stop = name_end(bytes, from, end)?;
    if end - stop < 2 {
        return None;
    }
    let kind = kind_of(bytes[stop])?;
    let index = u32_at(bytes, stop + 1)?;
    if index.next > end {
        return None;
    }
    Some(Export {
        stop,
        next: index.next,
        kind,
        index: index.value,
    })
}

/// The exports that lie in the bytes and are not the last of the section.
struct ExportsBeforeLast;

#[tactic(auto, using(crate::proofs::Advances::advances_none))]
impl Link for ExportsBeforeLast {
    #[inline(always)]
    fn take<S: Sink>(
        sink: &mut S,
        machine: &mut Machine,
        profile: Profile,
        bytes: &[u8],
    ) -> Shortcut {
        let Some(start) = at_export(*machine) else {
            return Shortcut::none();
        };
        let end = bytes.len().min(start.more as usize);
        let mut left = start.left;
        let mut used = 0;
        while left > 0 {
            let Some(found) = export_at(bytes, used, end) else {
                break;
            };
            let name = &bytes[used + 1..found.stop];
            if let Err(why) = give_name(sink, NameKind::Export, name) {
                return Shortcut::out(found.stop, why);
            }
            used = found.next;
            left -= 1;
            if let Err(why) = give_export(sink, found.kind, found.index) {
                return Shortcut::out(used, why);
            }
        }
        *machine = start.after(used as u32, left).before(SectionKind::Export);
        let refused = None;
        Shortcut { used, refused }
    }
}

/// The last export of a section.
struct LastExport;

#[tactic(auto, using(crate::proofs::Advances::advances_none))]
impl Link for LastExport {
    #[inline(always)]
    fn take<S: Sink>(
        sink: &mut S,
        machine: &mut Machine,
        profile: Profile,
        bytes: &[u8],
    ) -> Shortcut {
        let Some(start) = at_export(*machine) else {
            return Shortcut::none();
        };
        if start.left != 0 {
            return Shortcut::none();
        }
        let Some(found) = export_at(bytes, 0, bytes.len()) else {
            return Shortcut::none();
        };
        let last = found.next - 1;
        if last > start.more as usize {
            return Shortcut::none();
        }
        let name = &bytes[1..found.stop];
        if let Err(why) = give_name(sink, NameKind::Export, name) {
            return Shortcut::out(found.stop, why);
        }
        *machine = start.over(SectionKind::Export, last as u32);
        let given = give_export(sink, found.kind, found.index);
        Shortcut::ended(found.next, given, machine)
    }
}

/// Takes the exports that lie in these bytes.
#[inline(never)]
pub(crate) fn exports<S: Sink>(
    sink: &mut S,
    machine: &mut Machine,
    profile: Profile,
    bytes: &[u8],
) -> Shortcut
    requires { 0 < length bytes.now }
    ensures { Advances S.after S.may_run_out profile bytes.now machine.old (S.held sink.old) result
        machine.new (S.held sink.new) }
{
    <(ExportsBeforeLast, LastExport)>::take(sink, machine, profile, bytes)
}
