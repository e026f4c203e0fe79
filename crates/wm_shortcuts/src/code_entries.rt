//! Fast paths for a code entry: its head, its ops, and its last `end`. Core spec 5.5.13.

ghost use Rattle.std.specs.Prelude.{◌<◌, length};
ghost use Rattle.wm_shortcuts.specs.exact.Shortcuts.{Advances};

use crate::chains::{Link, repeated};
use crate::give::give_end;
use crate::heads::Head;
use crate::in_body::InBody;
use crate::in_section::InSection;
use crate::ways::Shortcut;
use crate::whole_ops::take_ops;
use wm_machine::machine::Machine;
use wm_machine::machine::member::{InMember, SectionKind};
use wm_machine::sink::Sink;
use wm_machine::step::framed;
use wm_syntax::profile::Profile;

/// The ops of an entry that lie whole in the bytes.
struct Ops;

#[tactic(auto, using(crate::proofs::Advances::advances_none))]
impl Link for Ops {
    fn take<S: Sink>(
        sink: &mut S,
        machine: &mut Machine,
        profile: Profile,
        bytes: &[u8],
    ) -> Shortcut {
        let Some(body) = InBody::of(*machine) else {
            return Shortcut::none();
        };
        let room = body.more.min(body.rest);
        if room == 0 {
            return Shortcut::none();
        }
        let ran = take_ops(sink, profile, bytes, body.depth, room as usize);
        if ran.used == 0 {
            return Shortcut::none();
        }
        *machine = body.after(ran.used, ran.depth);
        Shortcut {
            used: ran.used as usize,
            refused: ran.refused,
        }
    }
}

// Takes the last `end` of an entry, whatever follows. The section may end there, or the machine may refuse
#[inline(never)]
#[tactic(auto, using(crate::proofs::Advances::advances_none))]
fn final_end<S: Sink>(
    sink: &mut S,
    machine: &mut Machine,
    profile: Profile,
    bytes: &[u8],
) -> Shortcut
    requires { 0 < length bytes.now }
    ensures { Advances S.after S.may_run_out profile bytes.now machine.old (S.held sink.old) result
        machine.new (S.held sink.new) }
{
    let Some(last) = InBody::of(*machine) else {
        return Shortcut::none();
    };
    if bytes[0] != 0x0B || last.depth != 0 || last.rest != 0 {
        return Shortcut::none();
    }
    *machine = framed(last.of, last.counts, last.more, last.left, InMember::Over);
    let given = give_end(sink);
    Shortcut::ended(1, given, machine)
}

/// The last `end` of an entry, with less work if another entry follows.
pub(crate) struct LastEnd;

#[tactic(auto, using(crate::proofs::Advances::advances_none))]
impl Link for LastEnd {
    #[inline(always)]
    fn take<S: Sink>(
        sink: &mut S,
        machine: &mut Machine,
        profile: Profile,
        bytes: &[u8],
    ) -> Shortcut {
        // tested first: any other byte then costs no look at the machine
        if bytes[0] != 0x0B {
            return Shortcut::none();
        }
        let Some(body) = InBody::of(*machine) else {
            return Shortcut::none();
        };
        let SectionKind::Code = body.of else {
            return Shortcut::none();
        };
        if body.depth != 0 || body.rest != 0 {
            return Shortcut::none();
        }
        if body.left == 0 || body.more == 0 {
            return final_end(sink, machine, profile, bytes);
        }
        let section = InSection {
            counts: body.counts,
            more: body.more,
            left: body.left,
        };
        *machine = section.next(SectionKind::Code, 1);
        let refused = give_end(sink).err();
        Shortcut { used: 1, refused }
    }
}

/// The ops of an entry that lie whole in the bytes, and its last `end`.
pub(crate) struct Body;

impl Link for Body {
    fn take<S: Sink>(
        sink: &mut S,
        machine: &mut Machine,
        profile: Profile,
        bytes: &[u8],
    ) -> Shortcut {
        <(Ops, LastEnd)>::take(sink, machine, profile, bytes)
    }
}

/// Takes the code entries that lie in these bytes, up to anything rare.
pub(crate) fn entries<S: Sink>(
    sink: &mut S,
    machine: &mut Machine,
    profile: Profile,
    bytes: &[u8],
) -> Shortcut
    ensures { Advances S.after S.may_run_out profile bytes.now machine.old (S.held sink.old) result
        machine.new (S.held sink.new) }
{
    repeated::<(Head, Body), S>(sink, machine, profile, bytes)
}
