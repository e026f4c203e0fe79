//! How a run ends, and its exit status.

use crate::arguments::LineFault;
use std::fmt;

/// How a run ended.
#[derive(Clone, Copy, PartialEq, Eq, Debug)]
pub enum Status {
    /// The answer was written.
    Done,
    /// The input was refused, and the refusal was written.
    Refused,
    /// The reader or the writer failed.
    Io,
    /// Memory was refused; nothing was written.
    Memory,
}

impl Status {
    ghost use Rattle.std.specs.Prelude.{◌≡◌};
    ghost use Rattle.wm_command.specs.Codes.{exit_status};

    /// Returns the exit status of the program: 0 done, 1 refused, 3 input or output failed, 4 out of memory.
    pub fn code(self) -> u8
        ensures { result ≡ exit_status self }
    {
        match self {
            Status::Done => 0,
            Status::Refused => 1,
            Status::Io => 3,
            Status::Memory => 4,
        }
    }
}

impl fmt::Display for Status {
    fn fmt<W: fmt::Write>(&self, f: &mut fmt::Formatter<W>) -> fmt::Result {
        f.write_str(match self {
            Status::Done => "done",
            Status::Refused => "the input is refused",
            Status::Io => "input or output failed",
            Status::Memory => "out of memory",
        })
    }
}

ghost use Rattle.std.specs.Prelude.{◌≡◌};
ghost use Rattle.wm_command.specs.Codes.{end_code};

/// Returns the exit status of the program for a run, or for arguments that describe no line.
pub fn exit_code(end: &Result<Status, LineFault>) -> u8
    ensures { result ≡ end_code end.now }
{
    match end {
        Ok(status) => status.code(),
        Err(fault) => fault.code(),
    }
}
