//! Runs an action whose output goes to a file, which changes only if all of the output is written.

ghost use Rattle.std.specs.Prelude.{◌≡◌, ◌≢◌, ◌⊎◌, ◌↔◌, ℕ, List, Option, IfErr, IfSome, IsTrue};
ghost use Rattle.wm_command.specs.Outcome.{IsRightFor};
ghost use Rattle.wm_command.specs.declared.status.Status.{Status};

use crate::answer::answer;
use crate::arguments::Line;
use crate::complaint::{complain, complain_about, complain_of, complain_of_output};
use crate::detail::complain_detail;
use crate::run::run_line;
use crate::status::Status;
use crate::witness::Witness;
use std::fs::{File, OpenFile};
use std::io::{BufWriter, ErrorKind, Read, Write};
use std::rt::Files;
use std::{fs, io};
use wm_syntax::io::input::Input as InputOf;
use wm_syntax::io::output::Output as OutputOf;

/// The most names that are tried for the new file beside the file to write.
const TRIES: u32 = 100;

/// A writer whose flush does nothing. A refusal then stays in the buffer behind it.
#[derive(Drop)]
struct Unflushed<W>(W);

impl<W: Write> Write for Unflushed<W> {
    ghost contents = { λ s. W.contents s.0 };

    fn write(&mut self, buf: &[u8]) -> io::Result<usize> {
        self.0.write(buf)
    }

    fn flush(&mut self) -> io::Result<()> {
        Ok(())
    }
}

/// A new file beside the file to write, and its path.
#[derive(Drop)]
struct Fresh<F> {
    file: F,
    path: String,
}

/// Makes a new file beside the file to write. Its name is that of the file with `.wmod-tmp-` and a number behind it.
/// Returns the status if there is none, and reports that on standard error.
fn make_beside<R: Files + Eprint + AllocGlobal>(
    rt: &R,
    target: &str,
) -> Result<Fresh<R::File>, Status>
    ensures { IfErr result (λ status. (status ≡ Status.Io) ⊎ (status ≡ Status.Memory)) }
{
    for n in 0..TRIES {
        let Ok(path) = format!(in rt.alloc(); "{target}.wmod-tmp-{n}") else {
            complain(rt, &Status::Memory);
            return Err(Status::Memory);
        };
        match File::create_new(rt, path.as_str()) {
            Ok(file) => return Ok(Fresh { file, path }),
            Err(error) if error.kind() == ErrorKind::AlreadyExists && n + 1 < TRIES => {}
            Err(error) => {
                complain_of(rt, &Status::Io, target, error);
                return Err(Status::Io);
            }
        }
    }
    // not reached: the last iteration returns
    Err(Status::Io)
}

/// Whether a file of this name may be replaced: a device or a pipe has to stay. What cannot be looked at may be
/// replaced, such as a symbolic link to itself. The system refuses to replace a folder.
fn may_be_replaced<R: Files>(rt: &R, target: &str) -> bool {
    match fs::metadata(rt, target) {
        Ok(metadata) => metadata.is_file() || metadata.is_dir(),
        Err(_) => true,
    }
}

/// Writes the line of a refusal to standard output.
fn refuse<R: Print + Eprint>(rt: &R, line: &[u8]) -> Status
    ensures { (result ≡ Status.Refused) ⊎ (result ≡ Status.Io) }
{
    let mut dest = OutputOf::new(Witness::new(io::writer(rt)));
    let status = answer(&mut dest, line, Status::Refused);
    if status == Status::Io {
        complain_of_output(rt, dest.into_inner().error());
    }
    status
}

/// Passes on what the buffer has, to the disk.
fn finish<F: Write + OpenFile + Drop>(writer: &mut BufWriter<F>) -> io::Result<()> {
    writer.flush()?;
    writer.get_ref().sync_all()
}

/// Runs the action of the line on this reader, and writes the output to this file, or the line of a refusal to standard
/// output. Messages on standard error call them `name` and `target`. No contract of std states what a file got.
fn fill<R: Print + Eprint + AllocGlobal, I: Read + Drop, F: Write + OpenFile + Drop>(
    rt: &R,
    line: &Line<'_>,
    name: &str,
    reader: I,
    target: &str,
    file: F,
) -> Status
    ensures { result ≢ Status.Io → result ≢ Status.Memory → IfSome (I.remaining reader)
        (λ input. (left : Option (List ℕ)) × (text : List ℕ)
        × IsRightFor line.now.action line.now.profile line.now.limit line.now.policy line.now.spellings input
        left text result) }
{
    let Ok(mut writer) = BufWriter::new(rt.alloc(), file) else {
        complain(rt, &Status::Memory);
        return Status::Memory;
    };
    let mut source = InputOf::new(Witness::new(reader));
    let mut dest = OutputOf::new(Witness::new(Unflushed(&mut writer)));
    let ended = run_line(rt.alloc(), line, &mut source, &mut dest);
    let status = ended.status;
    let errors = (source.into_inner().error(), dest.into_inner().error());
    match (status, errors) {
        (Status::Refused, _) => {
            let status = refuse(rt, writer.buffer());
            if status == Status::Refused {
                complain_detail(rt, line, name, &ended);
            }
            return status;
        }
        (Status::Done, _) => {
            if let Err(error) = finish(&mut writer) {
                complain_of(rt, &Status::Io, target, error);
                return Status::Io;
            }
        }
        (Status::Io, (Some(error), _)) => complain_of(rt, &status, name, error),
        (Status::Io, (None, Some(error))) => complain_of(rt, &status, target, error),
        (Status::Memory | Status::Io, _) => complain(rt, &status),
    }
    status
}

/// Whether the new file gets the name of the file to write after a run with this status.
fn takes_the_name(status: Status) -> bool
    ensures { IsTrue result ↔ (status ≡ Status.Done) }
{
    status == Status::Done
}

/// Gives the new file the name of the file to write if the run is done, and removes it otherwise. Returns the status.
fn settle<R: Files + Eprint>(rt: &R, path: &str, target: &str, status: Status) -> Status
    ensures { (result ≡ status) ⊎ (result ≡ Status.Io) }
{
    let mut status = status;
    if takes_the_name(status) {
        match fs::rename(rt, path, target) {
            Ok(()) => return status,
            Err(error) => {
                complain_of(rt, &Status::Io, target, error);
                status = Status::Io;
            }
        }
    }
    if let Err(error) = fs::remove_file(rt, path) {
        complain_of(rt, &Status::Io, path, error);
        return Status::Io;
    }
    status
}

/// Runs the action of the line on this reader, and writes the output to the file `target`. That file stays as it was
/// unless all of the output is written. A refusal goes to standard output. Messages on standard error call the reader
/// `name`. No contract of std states what a file got.
pub fn follow_to<R: Files + Print + Eprint + AllocGlobal, I: Read + Drop>(
    rt: &R,
    line: &Line<'_>,
    name: &str,
    reader: I,
    target: &str,
) -> Status
    // The status is right for the bytes that the reader gives and for this line.
    ensures { result ≢ Status.Io → result ≢ Status.Memory → IfSome (I.remaining reader)
        (λ input. (left : Option (List ℕ)) × (text : List ℕ)
        × IsRightFor line.now.action line.now.profile line.now.limit line.now.policy line.now.spellings input
        left text result) }
{
    if target.is_empty() {
        complain_of(
            rt,
            &Status::Io,
            target,
            io::Error::from(ErrorKind::InvalidInput),
        );
        return Status::Io;
    }
    if !may_be_replaced(rt, target) {
        complain_about(
            rt,
            &Status::Io,
            target,
            "it is no regular file: write > FILE instead",
        );
        return Status::Io;
    }
    match make_beside(rt, target) {
        Ok(Fresh { file, path }) => {
            let status = fill(rt, line, name, reader, target, file);
            settle(rt, path.as_str(), target, status)
        }
        Err(status) => status,
    }
}
