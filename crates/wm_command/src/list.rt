//! Runs an action on each file of a list of names.

ghost use Rattle.std.specs.Prelude.{◌≡◌, ◌⊎◌, IfOk, IfSome, Some};
ghost use Rattle.wm_command.specs.Lines.{path_of};
ghost use Rattle.wm_command.specs.Several.{IsOfEach, IsRightAt, greater};
ghost use Rattle.wm_command.specs.Lists.{ending_byte, names_in};
ghost use Rattle.wm_command.specs.declared.status.Status.{Status};

use crate::arguments::{Ending, Line};
use crate::complaint::{Escaped, complain, complain_about, complain_of};
use crate::execute::Opens;
use crate::path::path_by;
use crate::several::{OutputFailed, Progress, go_on, greater_of};
use crate::status::Status;
use std::io::{BufRead, BufReader, ErrorKind, Read};
use std::{fmt, io};

/// Runs the line's action on the file of a name that a list has. A name that is not UTF-8 counts as a file that cannot
/// be read. Fails if standard output fails.
fn go_on_by<R: Input + Print + Eprint + AllocGlobal, O: Opens>(
    rt: &R,
    files: &O,
    line: &Line<'_>,
    list: &str,
    name: &[u8],
    progress: Progress,
) -> Result<Progress, OutputFailed>
    ensures { IfOk result (λ next. (status : Status) × IsRightAt (O.held_at files.now) line.now (Some name.now) status
        × (next.worst ≡ greater progress.worst status)) }
{
    match str::from_utf8(name) {
        Ok(name) => go_on(rt, files, line, name, progress),
        Err(_) => {
            complain_about(rt, &Status::Io, list, "a name in this list is not UTF-8");
            Ok(Progress {
                worst: greater_of(progress.worst, Status::Io),
                is_input_read: progress.is_input_read,
            })
        }
    }
}

/// Returns the status of a list that cannot be read any further. Reports it on standard error.
fn end_of_list<R: Eprint>(rt: &R, list: &str, error: io::Error) -> Status
    ensures { (result ≡ Status.Io) ⊎ (result ≡ Status.Memory) }
{
    if error.kind() == ErrorKind::OutOfMemory {
        complain(rt, &Status::Memory);
        Status::Memory
    } else {
        complain_of(rt, &Status::Io, list, error);
        Status::Io
    }
}

/// A list that has no names.
#[derive(Clone, Copy)]
struct NoNames<'a>(&'a str);

impl fmt::Display for NoNames<'_> {
    fn fmt<W: fmt::Write>(&self, f: &mut fmt::Formatter<W>) -> fmt::Result {
        write!(f, "{}: the list has no names", Escaped(self.0))
    }
}

/// Reports on standard error a list whose end comes before all names.
fn note_if_empty<R: Eprint>(rt: &R, list: &str, names: u64) {
    if names == 0 {
        complain(rt, &NoNames(list));
    }
}

/// Runs the line's action on each file that the list names, and returns the greatest status. One name is in memory at a
/// time. If standard output or the list fails, the run ends, and that counts too. A list without names is reported.
fn follow_list<R: Input + Print + Eprint + AllocGlobal, O: Opens, B: BufRead + Drop>(
    rt: &R,
    files: &O,
    line: &Line<'_>,
    list: &str,
    reader: B,
    end: u8,
    progress: Progress,
) -> Status
    requires { progress.worst ≡ Status.Done }
    ensures { IfSome (B.remaining reader) (λ bytes.
        IsOfEach (λ name. IsRightAt (O.held_at files.now) line.now (Some name)) (names_in end bytes) result) }
{
    let mut progress = progress;
    let mut names = reader.split(rt.alloc(), end);
    for before in 0..u64::MAX {
        let name = match names.next() {
            Some(Ok(name)) => name,
            Some(Err(error)) => return greater_of(progress.worst, end_of_list(rt, list, error)),
            None => {
                note_if_empty(rt, list, before);
                return progress.worst;
            }
        };
        progress = match go_on_by(rt, files, line, list, &name, progress) {
            Ok(next) => next,
            Err(OutputFailed) => return greater_of(progress.worst, Status::Io),
        };
    }
    // not reached by any list that a machine can hold
    greater_of(progress.worst, Status::Io)
}

/// Reads the list from this reader through a buffer, and runs the line's action on each file that it names.
fn follow_list_of<R: Input + Print + Eprint + AllocGlobal, O: Opens, I: Read + Drop>(
    rt: &R,
    files: &O,
    line: &Line<'_>,
    list: &str,
    reader: I,
    end: u8,
    progress: Progress,
) -> Status
    requires { progress.worst ≡ Status.Done }
    ensures { IfSome (I.remaining reader) (λ bytes.
        IsOfEach (λ name. IsRightAt (O.held_at files.now) line.now (Some name)) (names_in end bytes) result) }
{
    match BufReader::new(rt.alloc(), reader) {
        Ok(reader) => follow_list(rt, files, line, list, reader, end, progress),
        Err(error) => end_of_list(rt, list, error),
    }
}

/// Runs the line's action on each file that this list names. Returns `Io` if the list cannot be opened.
pub fn execute_list<R: Input + Print + Eprint + AllocGlobal, O: Opens>(
    rt: &R,
    files: &O,
    line: &Line<'_>,
    list: &str,
    ending: Ending,
) -> Status
    ensures { IfSome (path_of (Some list.now)) (λ path. IfSome (O.held_at files.now path) (λ bytes.
        IsOfEach (λ name. IsRightAt (O.held_at files.now) line.now (Some name))
        (names_in (ending_byte ending) bytes) result)) }
{
    let end = ending.byte();
    match path_by(Some(list)) {
        None => follow_list_of(
            rt,
            files,
            line,
            "standard input",
            rt.reader(),
            end,
            Progress::new(true),
        ),
        Some(path) => match files.open(path) {
            Ok(file) => follow_list_of(rt, files, line, path, file, end, Progress::new(false)),
            Err(error) => end_of_list(rt, path, error),
        },
    }
}
