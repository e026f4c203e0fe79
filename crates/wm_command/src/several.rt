//! Runs an action on each of several files, and writes one line for each.

ghost use Rattle.std.specs.Prelude.{◌≡◌, ◌≢◌, ◌↔◌, ◌||◌, ℕ, List, Option, Some, None, IfOk, IfSome, false, length, map, true};
ghost use Rattle.std.specs.Char.{is_control};
ghost use Rattle.std.specs.List.{list_any};
ghost use Rattle.std.specs.Str.{chars};
ghost use Rattle.std.specs.String.{string_bytes};
ghost use Rattle.wm_command.specs.Answers.{IsAnswered};
ghost use Rattle.wm_command.specs.Outcome.{IsOutput, IsRightFor};
ghost use Rattle.wm_command.specs.Several.{IsOfEach, IsRightAt, IsShown, greater, line_for, one_line, spaced};
ghost use Rattle.wm_command.specs.declared.status.Status.{Status};

use crate::answer::answer;
use crate::arguments::Line;
use crate::complaint::{Escaped, complain, complain_about, complain_of, complain_of_output};
use crate::detail::{Ended, complain_detail};
use crate::execute::Opens;
use crate::path::path_by;
use crate::run::run_line;
use crate::status::Status;
use crate::witness::Witness;
use std::alloc::{AllocError, Global};
use std::io;
use std::io::Read;
use wm_syntax::io::input::Input as InputOf;
use wm_syntax::io::output::Output as OutputOf;
use wm_syntax::io::{Dest, Source};

/// The room for an answer before it is written. Each answer of `check` and `stats` fits.
const ROOM: usize = 256;

/// Why a run over several files ends before the last of them: standard output failed.
#[derive(Clone, Copy, PartialEq, Eq, Debug)]
pub struct OutputFailed;

/// The state of a run over several files.
#[derive(Clone, Copy, PartialEq, Eq, Debug)]
pub struct Progress {
    /// The greatest status so far.
    pub worst: Status,
    /// Whether standard input was read. It can be read once.
    pub is_input_read: bool,
}

impl Progress {
    /// Returns the state before the first file. `is_input_read` says whether standard input has the list of names.
    pub fn new(is_input_read: bool) -> Self
        ensures { result.worst ≡ Status.Done }
    {
        Progress {
            worst: Status::Done,
            is_input_read,
        }
    }
}

/// Returns the status with the greater exit status.
pub fn greater_of(one: Status, other: Status) -> Status
    ensures { result ≡ greater one other }
{
    if one.code() < other.code() {
        other
    } else {
        one
    }
}

/// Whether the text has a control character.
fn has_control(text: &str) -> bool
    ensures { result ≡ list_any is_control (chars text.now) }
{
    let mut found = false;
    for c in text.chars() {
        found = found || c.is_control();
    }
    found
}

/// Returns the name as a line shows it: control characters are escaped. No contract states how.
fn shown(alloc: Global, name: &str) -> Result<String, AllocError>
    ensures { IfOk result (λ text. IsShown name.now (string_bytes text)) }
{
    if has_control(name) {
        Escaped(name).to_string(alloc)
    } else {
        String::from_str(alloc, name)
    }
}

/// Returns a space for a line feed, and any other byte as it is.
fn spaced_of(byte: u8) -> u8
    ensures { result ≡ spaced byte }
{
    if byte == b'\n' { b' ' } else { byte }
}

/// Returns the text as one line: each line feed but that at the end is a space.
fn one_line_of(alloc: Global, text: &[u8]) -> Result<Vec<u8>, AllocError>
    ensures { IfOk result (λ line. line.items ≡ one_line text.now) }
{
    let mut line = Vec::with_capacity(alloc, ROOM)?;
    let front = &text[..text.len().saturating_sub(1)];
    for byte in front {
        line.push(spaced_of(*byte))?;
    }
    line.push(b'\n')?;
    Ok(line)
}

/// Returns the line for a file of this name.
fn line_of(alloc: Global, name: &str, text: &[u8]) -> Result<Vec<u8>, AllocError>
    ensures { IfOk result (λ line. (front : List ℕ) × IsShown name.now front × (line.items ≡ line_for front text.now)) }
{
    let mut line = shown(alloc, name)?.into_bytes();
    line.extend_from_slice(b": ")?;
    line.extend_from_slice(&one_line_of(alloc, text)?)?;
    Ok(line)
}

/// Runs the action of the line on this input, and writes the answer as the line of a file of this name. Returns `Io` if
/// the reader or the writer failed, and `Memory` if memory was refused. Writes nothing if memory was refused or the
/// reader failed.
pub fn run_named<R: Source, W: Dest>(
    alloc: Global,
    line: &Line<'_>,
    name: &str,
    r: &mut R,
    w: &mut W,
) -> Ended
    requires source { R.has_failed r.old ≡ false }
    requires dest { W.has_failed w.old ≡ false }
    // The whole line that is right for the input is written, or a prefix of it if the writer failed.
    ensures answered { R.has_failed r.new ≡ false → result.status ≢ Status.Memory → (text front : List ℕ)
        × (status : Status)
        × IsOutput line.now.action text status
        × IfSome (R.remaining r.old)
        (λ input. IsRightFor line.now.action line.now.profile line.now.limit line.now.policy
        line.now.spellings input
        (R.remaining r.new) text status)
        × IsShown name.now front
        × IsAnswered (line_for front text) status (W.contents w.old) (W.contents w.new) (W.has_failed w.new)
        (W.is_flushed w.new) result.status }
    ensures reader { R.has_failed r.new ≡ true → (result.status ≡ Status.Io) × (w.new ≡ w.old) }
    ensures memory { result.status ≡ Status.Memory → w.new ≡ w.old }
    ensures io { (result.status ≡ Status.Io) ↔ ((R.has_failed r.new || W.has_failed w.new) ≡ true) }
{
    let Ok(room) = Vec::with_capacity(alloc, ROOM) else {
        return Ended::with(Status::Memory);
    };
    let mut held = OutputOf::new(room);
    let Ended { status, detail } = run_line(alloc, line, r, &mut held);
    if r.failed() {
        return Ended::with(Status::Io);
    }
    // a vector fails only if memory is refused
    if held.failed() || status == Status::Memory {
        return Ended::with(Status::Memory);
    }
    match line_of(alloc, name, &held.into_inner()) {
        Ok(line) => Ended {
            status: answer(w, &line, status),
            detail,
        },
        Err(_) => Ended::with(Status::Memory),
    }
}

/// Runs the action of the line on this reader, and writes the answer to standard output as the line of a file of this
/// name. Fails if standard output fails. Failures are reported on standard error. No contract of std states what
/// standard output got: see `run_named`.
fn follow_named<R: Print + Eprint + AllocGlobal, I: Read + Drop>(
    rt: &R,
    line: &Line<'_>,
    name: &str,
    reader: I,
) -> Result<Status, OutputFailed>
    // The status is right for the bytes that the reader gives and for this line.
    ensures { IfOk result (λ status. status ≢ Status.Io → status ≢ Status.Memory → IfSome (I.remaining reader)
        (λ input. (left : Option (List ℕ)) × (text : List ℕ)
        × IsRightFor line.now.action line.now.profile line.now.limit line.now.policy line.now.spellings input
        left text status)) }
{
    let mut source = InputOf::new(Witness::new(reader));
    let mut dest = OutputOf::new(Witness::new(io::writer(rt)));
    let ended = run_named(rt.alloc(), line, name, &mut source, &mut dest);
    let status = ended.status;
    if dest.failed() {
        complain_of_output(rt, dest.into_inner().error());
        return Err(OutputFailed);
    }
    match (status, source.into_inner().error()) {
        (Status::Io, Some(error)) => complain_of(rt, &status, name_for_people(name), error),
        (Status::Memory | Status::Io, _) => complain_about(
            rt,
            &status,
            name_for_people(name),
            "no answer",
        ),
        (Status::Done | Status::Refused, _) => {
            complain_detail(rt, line, name_for_people(name), &ended);
        }
    }
    Ok(status)
}

/// Returns how a message calls the file of this name.
fn name_for_people(name: &str) -> &str {
    path_by(Some(name)).unwrap_or("standard input")
}

/// Opens the file of this name, and runs the line's action on it. Returns `Io` if the file cannot be opened, or if it is
/// standard input and that was read before. Fails if standard output fails.
fn execute_named<R: Input + Print + Eprint + AllocGlobal, O: Opens>(
    rt: &R,
    files: &O,
    line: &Line<'_>,
    name: &str,
    is_input_read: bool,
) -> Result<Status, OutputFailed>
    ensures { IfOk result (IsRightAt (O.held_at files.now) line.now (Some name.now)) }
{
    match path_by(Some(name)) {
        None if is_input_read => {
            complain_about(
                rt,
                &Status::Io,
                name_for_people(name),
                "it can be read once only",
            );
            Ok(Status::Io)
        }
        None => follow_named(rt, line, name, rt.reader()),
        Some(path) => match files.open(path) {
            Ok(file) => follow_named(rt, line, name, file),
            Err(error) => {
                complain_of(rt, &Status::Io, path, error);
                Ok(Status::Io)
            }
        },
    }
}

/// Runs the line's action on the file of this name, and adds its status to the state. Fails if standard output fails.
pub fn go_on<R: Input + Print + Eprint + AllocGlobal, O: Opens>(
    rt: &R,
    files: &O,
    line: &Line<'_>,
    name: &str,
    progress: Progress,
) -> Result<Progress, OutputFailed>
    ensures { IfOk result (λ next. (status : Status) × IsRightAt (O.held_at files.now) line.now (Some name.now) status
        × (next.worst ≡ greater progress.worst status)) }
{
    let status = execute_named(rt, files, line, name, progress.is_input_read)?;
    Ok(Progress {
        worst: greater_of(progress.worst, status),
        is_input_read: progress.is_input_read || name == "-",
    })
}

/// Runs the line's action on each of these files. Returns the greatest status. A refusal or a file that cannot be read
/// does not end the run. If standard output fails, the run ends, and `Io` counts too.
pub fn execute_each<R: Input + Print + Eprint + AllocGlobal, O: Opens>(
    rt: &R,
    files: &O,
    line: &Line<'_>,
    names: &[&str],
) -> Status
    ensures { IsOfEach (λ name. IsRightAt (O.held_at files.now) line.now (Some name)) (map (λ s. s.now) names.now)
        result }
{
    let mut progress = Progress::new(false);
    for name in names {
        progress = match go_on(rt, files, line, name, progress) {
            Ok(next) => next,
            Err(OutputFailed) => return greater_of(progress.worst, Status::Io),
        };
    }
    progress.worst
}
