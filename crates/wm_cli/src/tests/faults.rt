//! Runs in which the reader or the writer fails, once for each call that it gets in a run without a fault.

ghost use Rattle.std.specs.Prelude.{◌≤◌, ◌^◌};

use super::ends::{BROKEN, Fault, INTERRUPTED, Mode, Reader, Writer};
use std::alloc::Global;
use wm_command::arguments::{Action, Line};
use wm_command::run::run;
use wm_command::status::Status;
use wm_decode::Refusal;
use wm_read::spellings::Spellings;
use wm_rules::{Checked, FromFault, Policy, load_from, validate_from};
use wm_syntax::io::input::Input;
use wm_syntax::io::output::Output;
use wm_syntax::profile::Profile;
use wm_write::encode::{WriteFault, encode};
use wm_write::print::print;

/// The function under test.
#[derive(Clone, Copy)]
pub enum Call {
    /// `run` with this action.
    Run(Action),
    /// `validate_from`.
    Validate,
    /// `load_from`, then `encode`.
    Encode,
    /// `load_from`, then `print`.
    Print,
}

/// The functions that take a binary.
const OF_BINARIES: [Call; 7] = [
    Call::Run(Action::Check),
    Call::Run(Action::Stats),
    Call::Run(Action::Canon),
    Call::Run(Action::Show),
    Call::Validate,
    Call::Encode,
    Call::Print,
];

/// The functions that take a text.
const OF_TEXTS: [Call; 1] = [Call::Run(Action::Build)];

impl Call {
    /// The number of flushes of a writer that does not fail.
    fn flushes(self) -> u32 {
        match self {
            Call::Run(_) => 1,
            Call::Validate | Call::Encode | Call::Print => 0,
        }
    }
}

/// A call with its input. It has the profile, the limit, the policy and the spellings of a line.
#[derive(Clone, Copy)]
pub struct Task<'a> {
    pub alloc: Global,
    pub call: Call,
    pub profile: Profile,
    pub limit: u64,
    pub policy: Policy,
    pub spellings: Spellings,
    pub input: &'a [u8],
    ghost in_range: { limit ≤ 2 ^ 62 },
}

impl<'a> Task<'a> {
    /// Returns the task of this call under this line.
    fn new(alloc: Global, call: Call, line: &Line<'_>, input: &'a [u8]) -> Self {
        Task {
            alloc,
            call,
            profile: line.profile,
            limit: line.limit,
            policy: line.policy,
            spellings: line.spellings,
            input,
        }
    }

    /// Returns the task of `run` with the action of this line.
    pub fn of_line(alloc: Global, line: &Line<'_>, input: &'a [u8]) -> Self {
        Task::new(alloc, Call::Run(line.action), line, input)
    }
}

/// The end that fails.
#[derive(Clone, Copy)]
pub enum End {
    Reader,
    Writer,
}

/// The most bytes of a call, and how the failing call fails.
type Way = (usize, Fault);

/// `Nothing` is missing: a reader that gives no byte is at its end.
const READERS: [Way; 4] = [
    (usize::MAX, BROKEN),
    (usize::MAX, INTERRUPTED),
    (1, BROKEN),
    (1, INTERRUPTED),
];

const WRITERS: [Way; 6] = [
    (usize::MAX, BROKEN),
    (usize::MAX, INTERRUPTED),
    (usize::MAX, Fault::Nothing),
    (1, BROKEN),
    (1, INTERRUPTED),
    (1, Fault::Nothing),
];

/// The answer of a call.
#[derive(Clone, Copy)]
pub struct Answer {
    pub status: Status,
    /// The refusal that the library returned. `run` writes it instead.
    refusal: Option<Refusal>,
    /// The number of bytes that `encode` claims to have written.
    written: Option<u64>,
}

impl Answer {
    fn new(status: Status) -> Self {
        Answer {
            status,
            refusal: None,
            written: None,
        }
    }

    /// Returns the answer for a fault of `validate_from` or `load_from`.
    fn of_fault(fault: FromFault) -> Self {
        match fault {
            FromFault::Refused(refusal, _) => Answer {
                status: Status::Refused,
                refusal: Some(refusal),
                written: None,
            },
            FromFault::Io => Answer::new(Status::Io),
        }
    }

    /// Returns the answer for the length that `encode` gave.
    fn of_length(status: Status, length: u64) -> Self {
        Answer {
            status,
            refusal: None,
            written: Some(length),
        }
    }

    /// Whether the writer has as many bytes as `encode` claims.
    fn is_length_of(&self, writer: &Writer) -> bool {
        match self.written {
            Some(written) => written == writer.taken.len() as u64,
            None => true,
        }
    }
}

/// The answer of a call, with the reader and the writer after it.
pub type Run<'a> = (Answer, Reader<'a>, Writer);

fn follow_run<'a>(task: &Task<'a>, action: Action, reading: Mode, writing: Mode) -> Run<'a> {
    let line = task;
    let mut source = Input::new(Reader::new(task.input, reading));
    let mut dest = Output::new(Writer::new(task.alloc, writing));
    let ended = run(
        task.alloc,
        action,
        line.profile,
        line.limit,
        line.policy,
        line.spellings,
        &mut source,
        &mut dest,
    );
    (
        Answer::new(ended.status),
        source.into_inner(),
        dest.into_inner(),
    )
}

fn validate<'a>(task: &Task<'a>, reading: Mode) -> (Answer, Reader<'a>) {
    let line = task;
    let mut source = Input::new(Reader::new(task.input, reading));
    let judged = validate_from(
        task.alloc,
        &mut source,
        line.profile,
        line.limit,
        line.policy,
    );
    let answer = match judged {
        Ok(_) => Answer::new(Status::Done),
        Err(fault) => Answer::of_fault(fault),
    };
    (answer, source.into_inner())
}

fn load<'a>(task: &Task<'a>, reading: Mode) -> (Result<Checked, FromFault>, Reader<'a>) {
    let line = task;
    let mut source = Input::new(Reader::new(task.input, reading));
    let loaded = load_from(
        task.alloc,
        &mut source,
        line.profile,
        line.limit,
        line.policy,
    );
    (loaded, source.into_inner())
}

fn write_binary(alloc: Global, checked: &Checked, writing: Mode) -> (Answer, Writer) {
    let mut dest = Output::new(Writer::new(alloc, writing));
    let answer = match encode(checked.module(), &mut dest) {
        Ok(length) => Answer::of_length(Status::Done, length),
        Err(WriteFault::Io { written }) => Answer::of_length(Status::Io, written),
        Err(WriteFault::TooLarge) => Answer::new(Status::Refused),
    };
    (answer, dest.into_inner())
}

fn write_text(alloc: Global, checked: &Checked, writing: Mode) -> (Answer, Writer) {
    let mut dest = Output::new(Writer::new(alloc, writing));
    let status = match print(checked, &mut dest) {
        Ok(()) => Status::Done,
        Err(_) => Status::Io,
    };
    (Answer::new(status), dest.into_inner())
}

/// Calls `load_from`, and then `encode` or `print`.
fn follow_load<'a>(task: &Task<'a>, reading: Mode, writing: Mode) -> Run<'a> {
    let (loaded, reader) = load(task, reading);
    let (answer, writer) = match (loaded, task.call) {
        (Ok(checked), Call::Encode) => write_binary(task.alloc, &checked, writing),
        (Ok(checked), _) => write_text(task.alloc, &checked, writing),
        (Err(fault), _) => (Answer::of_fault(fault), Writer::new(task.alloc, writing)),
    };
    (answer, reader, writer)
}

/// Makes the call of a task, with a reader and a writer in these modes.
pub fn follow<'a>(task: &Task<'a>, reading: Mode, writing: Mode) -> Run<'a> {
    match task.call {
        Call::Run(action) => follow_run(task, action, reading, writing),
        Call::Validate => {
            let (answer, reader) = validate(task, reading);
            (answer, reader, Writer::new(task.alloc, writing))
        }
        Call::Encode | Call::Print => follow_load(task, reading, writing),
    }
}

/// Makes the call of a task, with one end in this mode and the other without limit or fault.
pub fn follow_failing<'a>(task: &Task<'a>, end: End, failing: Mode) -> Run<'a> {
    let whole = Mode::by(usize::MAX);
    match end {
        End::Reader => follow(task, failing, whole),
        End::Writer => follow(task, whole, failing),
    }
}

/// Returns the offset of the refusal of the input, or `None` if it was not refused.
fn settled((answer, _, writer): &Run) -> Option<usize> {
    if let Some(refusal) = answer.refusal {
        return Some(refusal.at as usize);
    }
    let line = str::from_utf8(&writer.taken).ok()?;
    let (place, _) = line.strip_prefix("refused at ")?.split_once(':')?;
    place.parse::<usize>().ok()
}

/// Whether a run whose reader failed ended as it must: with `Io`, and nothing written.
fn is_reader_told((answer, reader, writer): &Run) -> bool {
    answer.status == Status::Io && reader.is_left_in_time(None) && writer.calls == 0
}

/// Whether a run whose writer failed ended as it must: with `Io`, and a prefix written. `plain` is the run without a
/// fault.
fn is_writer_told((answer, reader, writer): &Run, plain: &Run) -> bool {
    answer.status == Status::Io
        && answer.is_length_of(writer)
        && reader.is_left_in_time(settled(plain))
        && writer.is_left_in_time()
        && plain.2.taken.starts_with(&writer.taken)
}

/// Whether a run without a fault ended as `plain`, with this number of flushes.
fn is_same((answer, reader, writer): &Run, plain: &Run, flushes: u32) -> bool {
    answer.status == plain.0.status
        && answer.refusal == plain.0.refusal
        && answer.is_length_of(writer)
        && reader.is_left_in_time(settled(plain))
        && writer.is_flushed(flushes)
        && writer.taken.as_slice() == plain.2.taken.as_slice()
}

/// Whether the run ends as it must for each of the first `calls` calls at which the end may fail. Nothing is read after
/// a refusal, and no end is called again after its fault.
fn are_told(task: &Task, plain: &Run, end: End, (most, fault): Way, calls: u32) -> bool {
    for at in 1..=calls {
        let run = follow_failing(task, end, Mode { most, fault, at });
        let is_told = match (run.1.has_failed(), run.2.has_failed()) {
            (true, _) => is_reader_told(&run),
            (false, true) => is_writer_told(&run, plain),
            (false, false) => false,
        };
        if !is_told {
            return false;
        }
    }
    true
}

/// Returns the number of runs in which an end fails in this way: one for each call that it gets without a fault.
/// Returns `None` if a run ends wrongly.
fn count_way(task: &Task, plain: &Run, end: End, way: Way) -> Option<u32> {
    let unfailing = follow_failing(task, end, Mode::by(way.0));
    let calls = match end {
        End::Reader => unfailing.1.calls,
        End::Writer => unfailing.2.calls,
    };
    let is_well = is_same(&unfailing, plain, task.call.flushes())
        && are_told(task, plain, end, way, calls);
    is_well.then_some(calls)
}

/// Returns the number of runs in which an end fails in one of these ways, or `None` if a run ends wrongly.
fn count_ways(task: &Task, plain: &Run, end: End, ways: &[Way]) -> Option<u32> {
    let mut count = 0u32;
    for way in ways {
        count = count.saturating_add(count_way(task, plain, end, *way)?);
    }
    Some(count)
}

/// The number of readers and writers that failed.
#[derive(Clone, Copy)]
pub struct Faults {
    pub readers: u32,
    pub writers: u32,
}

/// Whether a task ends as it must for each call at which its reader or its writer may fail.
fn is_call_right(task: &Task, faults: &mut Faults) -> bool {
    let whole = Mode::by(usize::MAX);
    let plain = follow(task, whole, whole);
    let readers = count_ways(task, &plain, End::Reader, &READERS);
    let writers = count_ways(task, &plain, End::Writer, &WRITERS);
    let (Some(readers), Some(writers)) = (readers, writers) else {
        return false;
    };
    faults.readers = faults.readers.saturating_add(readers);
    faults.writers = faults.writers.saturating_add(writers);
    true
}

/// Whether each function that takes this input ends as it must. The input is a text if the line's action is `build`.
pub fn are_faults_told(alloc: Global, line: &Line<'_>, input: &[u8], faults: &mut Faults) -> bool {
    let calls: &[Call] = match line.action {
        Action::Build => &OF_TEXTS,
        _ => &OF_BINARIES,
    };
    for call in calls {
        let task = Task::new(alloc, *call, line, input);
        if !is_call_right(&task, faults) {
            return false;
        }
    }
    true
}
