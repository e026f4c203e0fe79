//! Opens the files that a line names, and runs the line's action on them.

ghost use Rattle.std.specs.Prelude.{◌≡◌, ◌≢◌, ℕ, List, Option, Some, None, IfOk, IfSome, option_map};
ghost use Rattle.wm_command.specs.Several.{IsRightAt, IsRightOn};
ghost use Rattle.wm_command.specs.declared.status.Status.{Status};
ghost use Rattle.wm_command.specs.Outcome.{IsRightFor};

use crate::arguments::{Inputs, Line};
use crate::complaint::{complain, complain_of};
use crate::detail::complain_detail;
use crate::list::execute_list;
use crate::path::path_by;
use crate::run::run_line;
use crate::several::execute_each;
use crate::status::Status;
use crate::target::follow_to;
use crate::witness::Witness;
use std::io::{BufWriter, Read};
use std::rt::Files;
use std::{fs, io};
use wm_syntax::io::input::Input as InputOf;
use wm_syntax::io::output::Output as OutputOf;

/// Opens files by their paths.
pub trait Opens {
    type Opened: Read + Drop;

    // The bytes of the file at a path, or `None` if nothing is claimed of them.
    ghost held_at: { Self → List ℕ → Option (List ℕ) };

    /// Opens the file at this path, to be read from its first byte.
    fn open(&self, path: &str) -> io::Result<Self::Opened>
        ensures { IfOk result (λ file. IfSome (held_at self.now path.now)
            (λ bytes. Self.Opened.remaining file ≡ Some bytes)) };
}

/// The files of the system. No contract of std states their contents.
#[derive(Drop)]
pub struct System<'a, R>(pub &'a R);

impl<R: Files> Opens for System<'_, R> {
    type Opened = R::File;

    ghost held_at = { λ _ _. None };

    fn open(&self, path: &str) -> io::Result<R::File> {
        fs::open(self.0, path)
    }
}

/// Opens the inputs that the line names, and runs its action on each. Returns `Io` if a file cannot be opened, unless
/// another status is greater. No contract of std states what standard input gives.
pub fn execute<R: Files + Input + Print + Eprint + AllocGlobal, O: Opens>(
    rt: &R,
    files: &O,
    line: &Line<'_>,
) -> Status
    // The status is right for the bytes of the files that the line names.
    ensures { IsRightOn (O.held_at files.now) line.now line.now.inputs result }
{
    match &line.inputs {
        Inputs::One(name) => execute_one(rt, files, line, *name),
        Inputs::Several(names) => execute_each(rt, files, line, names.as_slice()),
        Inputs::Listed(list, ending) => execute_list(rt, files, line, list, *ending),
    }
}

/// Opens the input with this name, and runs the line's action on it. Returns `Io` if the file cannot be opened.
fn execute_one<R: Files + Input + Print + Eprint + AllocGlobal, O: Opens>(
    rt: &R,
    files: &O,
    line: &Line<'_>,
    name: Option<&str>,
) -> Status
    // The status is right for the bytes of the file.
    ensures { IsRightAt (O.held_at files.now) line.now (option_map (λ s. s.now) name.entry) result }
{
    match path_by(name) {
        None => follow_into(rt, line, "standard input", rt.reader()),
        Some(path) => match files.open(path) {
            Ok(file) => follow_into(rt, line, path, file),
            Err(error) => {
                complain_of(rt, &Status::Io, path, error);
                Status::Io
            }
        },
    }
}

/// Runs the action of the line on this reader, and writes to the line's output. A message on standard error calls the
/// reader `name`.
fn follow_into<R: Files + Print + Eprint + AllocGlobal, I: Read + Drop>(
    rt: &R,
    line: &Line<'_>,
    name: &str,
    reader: I,
) -> Status
    // The status is right for the bytes that the reader gives and for this line.
    ensures { result ≢ Status.Io → result ≢ Status.Memory → IfSome (I.remaining reader)
        (λ input. (left : Option (List ℕ)) × (text : List ℕ)
        × IsRightFor line.now.action line.now.profile line.now.limit line.now.policy line.now.spellings input
        left text result) }
{
    match path_by(line.output) {
        None => follow(rt, line, name, reader),
        Some(target) => follow_to(rt, line, name, reader, target),
    }
}

/// Runs the action of the line on this reader, and writes to standard output. A message on standard error calls
/// the reader `name`.
fn follow<R: Print + Eprint + AllocGlobal, I: Read + Drop>(
    rt: &R,
    line: &Line<'_>,
    name: &str,
    reader: I,
) -> Status
    // The status is right for the bytes that the reader gives and for this line. No contract of std states what
    // standard output got.
    ensures { result ≢ Status.Io → result ≢ Status.Memory → IfSome (I.remaining reader)
        (λ input. (left : Option (List ℕ)) × (text : List ℕ)
        × IsRightFor line.now.action line.now.profile line.now.limit line.now.policy line.now.spellings input
        left text result) }
{
    // a module is written instruction by instruction: the buffer hands it to the system some kilobytes at a time
    let Ok(writer) = BufWriter::new(rt.alloc(), io::writer(rt)) else {
        complain(rt, &Status::Memory);
        return Status::Memory;
    };
    let mut source = InputOf::new(Witness::new(reader));
    let mut dest = OutputOf::new(Witness::new(writer));
    let ended = run_line(rt.alloc(), line, &mut source, &mut dest);
    let status = ended.status;
    match status {
        Status::Done | Status::Refused => complain_detail(rt, line, name, &ended),
        Status::Memory => complain(rt, &status),
        Status::Io => match (source.into_inner().error(), dest.into_inner().error()) {
            (Some(error), _) => complain_of(rt, &status, name, error),
            (None, Some(error)) => complain_of(rt, &status, "standard output", error),
            // a write that accepted no byte is a failure without an error
            (None, None) => complain(rt, &status),
        },
    }
    status
}
