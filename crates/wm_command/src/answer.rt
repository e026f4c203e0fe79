//! Writes an answer.

ghost use Rattle.std.specs.Prelude.{◌≡◌, false};
ghost use Rattle.wm_command.specs.Answers.{IsAnswered};

use crate::status::Status;
use wm_syntax::io::{Dest, put_all};

/// Writes the text and flushes the writer. Returns `status`, or `Io` if the writer failed.
pub fn answer<W: Dest>(w: &mut W, text: &[u8], status: Status) -> Status
    requires { W.has_failed w.old ≡ false }
    ensures { IsAnswered text.now status (W.contents w.old) (W.contents w.new) (W.has_failed w.new)
        (W.is_flushed w.new) result }
{
    if put_all(w, text).is_err() || w.flush().is_err() {
        return Status::Io;
    }
    status
}
