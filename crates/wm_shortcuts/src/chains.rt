//! Combined fast paths: one after another, or one repeated.

ghost use Rattle.std.specs.Prelude.{◌<◌, length};
ghost use Rattle.wm_shortcuts.specs.exact.Shortcuts.{Advances};

use crate::ways::Shortcut;
use wm_machine::machine::Machine;
use wm_machine::sink::Sink;
use wm_syntax::profile::Profile;

/// A fast path that can be combined with others.
pub(crate) trait Link {
    /// Takes bytes in bulk, or none.
    fn take<S: Sink>(
        sink: &mut S,
        machine: &mut Machine,
        profile: Profile,
        bytes: &[u8],
    ) -> Shortcut
        requires { 0 < length bytes.now }
        ensures { Advances S.after S.may_run_out profile bytes.now machine.old (S.held sink.old) result
            machine.new (S.held sink.new) };
}

/// A pair takes the bytes of its first fast path, and then those of its second.
impl<A: Link, B: Link> Link for (A, B) {
    #[inline(always)]
    fn take<S: Sink>(
        sink: &mut S,
        machine: &mut Machine,
        profile: Profile,
        bytes: &[u8],
    ) -> Shortcut {
        let front = A::take(sink, machine, profile, bytes);
        if front.refused.is_some() || front.used == bytes.len() {
            return front;
        }
        let back = B::take(sink, machine, profile, &bytes[front.used..]);
        Shortcut {
            used: front.used + back.used,
            refused: back.refused,
        }
    }
}

/// Repeats a fast path as long as it takes bytes and none is refused.
#[inline(always)]
pub(crate) fn repeated<A: Link, S: Sink>(
    sink: &mut S,
    machine: &mut Machine,
    profile: Profile,
    bytes: &[u8],
) -> Shortcut
    ensures { Advances S.after S.may_run_out profile bytes.now machine.old (S.held sink.old) result
        machine.new (S.held sink.new) }
{
    let mut used = 0;
    while used < bytes.len() {
        let taken = A::take(sink, machine, profile, &bytes[used..]);
        used += taken.used;
        if taken.used == 0 || taken.refused.is_some() {
            let refused = taken.refused;
            return Shortcut { used, refused };
        }
    }
    let refused = None;
    Shortcut { used, refused }
}
