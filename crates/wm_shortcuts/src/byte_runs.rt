//! Fast paths for bytes without inner structure: those of a data segment (Core spec 5.5.14), and those of a custom
//! section after its name (Core spec 5.5.3).

ghost use Rattle.std.specs.Prelude.{◌≡◌, ◌-◌, ◌<◌, length, min};
ghost use Rattle.wm_shortcuts.specs.exact.Shortcuts.{Advances};

use crate::give::give_bytes;
use crate::in_section::InSection;
use crate::ways::{Shortcut, min_len};
use wm_machine::machine::member::InMember;
use wm_machine::machine::{InCustom, Machine, refusal_of};
use wm_machine::sink::Sink;
use wm_machine::step::framed;
use wm_machine::step::members::data_or_over;
use wm_syntax::profile::Profile;

/// Takes the bytes of a data segment and passes them to the sink in bulk.
#[tactic(auto, using(crate::proofs::Advances::advances_none))]
pub(crate) fn data<S: Sink>(
    sink: &mut S,
    machine: &mut Machine,
    profile: Profile,
    bytes: &[u8],
) -> Shortcut
    requires { 0 < length bytes.now }
    ensures { Advances S.after S.may_run_out profile bytes.now machine.old (S.held sink.old) result
        machine.new (S.held sink.new) }
{
    let Some((of, at, start)) = InSection::of(*machine) else {
        return Shortcut::none();
    };
    let InMember::Data { more: rest } = at else {
        return Shortcut::none();
    };
    let count = min_len(start.more.min(rest), bytes.len());
    let end = count as usize;
    let next = start.after(count, start.left);
    let rest = rest - count;
    if end == bytes.len() {
        *machine = next.at(of, InMember::Data { more: rest });
        let refused = give_bytes(sink, bytes).err();
        return Shortcut { used: end, refused };
    }
    // the next byte is the last of the segment or of the section
    *machine = framed(of, next.counts, next.more, next.left, data_or_over(rest));
    if let Err(why) = give_bytes(sink, &bytes[..=end]) {
        return Shortcut::out(end + 1, why);
    }
    Shortcut {
        used: end + 1,
        refused: refusal_of(*machine),
    }
}

/// Skips the bytes of a custom section after its name, except the last. Passes nothing to the sink.
#[tactic(auto, using(crate::proofs::Advances::advances_none))]
pub(crate) fn pass<S: Sink>(
    sink: &S,
    machine: &mut Machine,
    profile: Profile,
    bytes: &[u8],
) -> Shortcut
    ensures { Advances S.after S.may_run_out profile bytes.now machine.old (S.held sink.now) result
        machine.new (S.held sink.now) }
{
    match machine {
        Machine::Custom {
            more,
            part: InCustom::Skip,
            ..
        } => Shortcut {
            used: take_most(more, bytes.len()),
            refused: None,
        },
        _ => Shortcut::none(),
    }
}

// Lowers the count by the length, to 0 at least. Returns by how much.
#[inline(always)]
fn take_most(count: &mut u32, len: usize) -> usize
    ensures value { result ≡ min count.old len }
    ensures left { count.new ≡ count.old - result }
{
    let used = min_len(*count, len);
    *count -= used;
    used as usize
}
