//! Rows: lines with a call and its answer.
//!
//! ```text
//! read WORDS = ACTION PROFILE LIMIT FUNCTIONS LOCALS DEPTH SPELLINGS INPUTS OUTPUT QUIET, or `explain` and NAME, or
//!     `help`, or `features`, or the fault's kind and exit status. INPUTS is FILE and its path if there is one file at most. OUTPUT and
//!     QUIET are left out if the words name no output and are not quiet.
//! wrong WORDS = the message for the first wrong word
//! wmod WORDS < INPUT = the exit status, and the output
//! detail wmod WORDS < INPUT = the line of detail without the file, or `none`
//! in N WORDS < INPUT = both, if the reader gives N bytes, one a call, and then fails
//! out N WORDS < INPUT = both, if the writer takes N bytes, one a call, and then fails, at the flush if that is next
//! labels TEXT = the labels at the front, three at most, or the fault; and the number of bytes left
//! earlier N TEXT = the first fault before the last N bytes if two locals are allowed, or none
//! ```
//!
//! The word `""` is the empty one. INPUT is a text for `build`. Otherwise it is bytes in hexadecimal digits, with
//! H for the header of a module. A row with exit status 0 is also run under a larger profile, with the same answer.
//!
//! Rows for readers and writers that fail have no answer: `wmod WORDS < INPUT`. There `build` means that action, and
//! `check` all functions that take a binary. A text may be written as `bytes` and its bytes.

use super::HEADER;
use super::ends::{BROKEN, Mode};
use super::faults::{End, Faults, Task, are_faults_told, follow, follow_failing};
use std::alloc::Global;
use std::process::Abort;
use std::test::Fail;
use wm_bodies::blocks::OpenBlocks;
use wm_bodies::named::earlier_fault;
use wm_bodies::pieces::labels;
use wm_command::arguments::{Action, Inputs, Line, LineFault, Request};
use wm_command::line::{request, wrong_word};
use wm_command::path::path_by;
use wm_command::run::run_line;
use wm_command::status::{Status, exit_code};
use wm_rules::Policy;
use wm_syntax::io::input::Input;
use wm_syntax::io::output::Output;
use wm_syntax::profile::{Feature, Profile};
use wm_tokens::faults::TextFault;

/// Splits a command into its words.
fn words_of(alloc: Global, command: &str) -> Result<Vec<&str>, Fail> {
    Ok(
        command
            .split(' ')
            .map(|word| word.trim_matches('"'))
            .collect(alloc)?,
    )
}

/// Parses bytes in hexadecimal digits, with H for the header.
fn bytes_of(alloc: Global, words: &str) -> Result<Vec<u8>, Fail> {
    let mut bytes = Vec::new(alloc);
    for word in words.split_whitespace() {
        match word {
            "H" => bytes.extend_from_slice(&HEADER)?,
            _ => bytes.push(u8::from_str_radix(word, 16)?)?,
        }
    }
    Ok(bytes)
}

// The constant that a profile is without the features of later standards.
fn constant_of(profile: Profile) -> &'static str {
    match (
        profile.has(Feature::Floats),
        profile.has(Feature::SignExtension),
    ) {
        (false, false) => "ONE",
        (false, true) => "TWO",
        (true, false) => "THREE",
        (true, true) => "FOUR",
    }
}

// The word, if the profile has the feature.
fn word_of(profile: Profile, feature: Feature, word: &'static str) -> &'static str {
    if profile.has(feature) { word } else { "" }
}

/// Tells a profile: a constant, and the features that are added to it.
fn tell_profile(alloc: Global, profile: Profile) -> Result<String, Fail> {
    Ok(format!(in alloc;
        "{}{}{}{}{}",
        constant_of(profile),
        word_of(profile, Feature::LongIndex, "+long"),
        word_of(profile, Feature::Saturation, "+saturation"),
        word_of(profile, Feature::Copies, "+copies"),
        word_of(profile, Feature::BulkMemory, "+bulk")
    )?)
}

fn tell_inputs(alloc: Global, inputs: &Inputs<'_>) -> Result<String, Fail> {
    match inputs {
        Inputs::One(file) => Ok(format!(in alloc; "{file:?} {:?}", path_by(*file))?),
        Inputs::Several(files) => Ok(format!(in alloc; "several {files:?}")?),
        Inputs::Listed(list, ending) => Ok(format!(in alloc; "from {list:?} {ending:?}")?),
    }
}

/// Tells the output and whether the line is quiet. Empty if the line has neither.
fn tell_rest(alloc: Global, line: &Line<'_>) -> Result<String, Fail> {
    let quiet = if line.quiet { " quiet" } else { "" };
    match line.output {
        Some(output) => Ok(format!(in alloc; " to {output:?} {:?}{quiet}", path_by(line.output))?),
        None => Ok(String::from_str(alloc, quiet)?),
    }
}

fn tell_line(alloc: Global, line: &Line<'_>) -> Result<String, Fail> {
    let Line {
        action,
        profile,
        limit,
        policy,
        spellings,
        inputs,
        ..
    } = line;
    let Policy {
        functions,
        locals,
        depth,
    } = policy;
    Ok(format!(in alloc;
        "{action:?} {} {limit} {functions:?} {locals:?} {depth:?} {spellings:?} {}{}",
        tell_profile(alloc, *profile)?,
        tell_inputs(alloc, inputs)?,
        tell_rest(alloc, line)?
    )?)
}

fn tell_fault(alloc: Global, fault: &LineFault) -> Result<String, Fail> {
    let kind = match fault {
        LineFault::Parser(_) => "parser",
        LineFault::Words => "words",
        LineFault::Memory => "memory",
    };
    Ok(format!(in alloc; "{kind} {}", fault.code())?)
}

/// Returns what a command asks for, or its fault.
fn read(alloc: Global, command: &str) -> Result<String, Fail> {
    match request(alloc, words_of(alloc, command)?.as_slice()) {
        Ok(Request::Run(line)) => tell_line(alloc, &line),
        Ok(Request::Explain(name)) => Ok(format!(in alloc; "explain {name:?}")?),
        Ok(Request::Help) => Ok(format!(in alloc; "help")?),
        Ok(Request::Features) => Ok(format!(in alloc; "features")?),
        Err(fault) => tell_fault(alloc, &fault),
    }
}

/// Returns the line of a command's words. Fails if they ask for something else.
fn line_of<'a>(alloc: Global, words: &'a [&'a str]) -> Result<Line<'a>, Fail> {
    match request(alloc, words)? {
        Request::Run(line) => Ok(line),
        Request::Explain(_) | Request::Help | Request::Features => Err(Fail::new("no line")),
    }
}

/// Returns the message for the first wrong word of a command.
fn wrong(alloc: Global, command: &str) -> Result<String, Fail> {
    match wrong_word(alloc, words_of(alloc, command)?.as_slice())? {
        Some(word) => Ok(format!(in alloc; "{word}")?),
        None => Ok(format!(in alloc; "none")?),
    }
}

/// Returns the exit status and the output. Returns a message if a read asked for more than 4,096 bytes, or if the
/// output was not flushed once at its end.
fn tell(alloc: Global, line: &Line, input: &[u8], most: usize) -> Result<String, Fail> {
    let task = Task::of_line(alloc, line, input);
    let (answer, reader, writer) = follow(&task, Mode::by(most), Mode::by(usize::MAX));
    if reader.asked > 4096 {
        return Ok(format!(in alloc; "asked for {} bytes", reader.asked)?);
    }
    if !writer.is_flushed(1) {
        return Ok(format!(in alloc; "not flushed once, at the end")?);
    }
    Ok(format!(in alloc;
        "{} {}",
        exit_code(&Ok(answer.status)),
        writer.taken.escape_ascii()
    )?)
}

/// Returns the exit status and the output of a line, or a message if they differ for some size of the pieces.
fn obey_line(alloc: Global, line: &Line, input: &[u8]) -> Result<String, Fail> {
    let told = tell(alloc, line, input, 4096)?;
    let sizes = if input.len() < 200 { input.len() } else { 7 };
    for most in 1..=sizes {
        if tell(alloc, line, input, most)?.as_str() != told.as_str() {
            return Ok(format!(in alloc; "differs in pieces of {most}")?);
        }
    }
    Ok(told)
}

/// Whether a line with exit status 0 has the same output under a larger profile.
fn is_same_under_more(alloc: Global, line: &Line, input: &[u8], told: &str) -> Result<bool, Fail> {
    if !told.starts_with("0 ") {
        return Ok(true);
    }
    let profile = if line.profile == Profile::ONE {
        Profile::TWO
    } else {
        Profile::FOUR
    };
    let more = Line {
        action: line.action,
        profile,
        limit: line.limit,
        policy: line.policy,
        spellings: line.spellings,
        inputs: Inputs::One(None),
        output: None,
        quiet: false,
    };
    Ok(tell(alloc, &more, input, 4096)?.as_str() == told)
}

/// Returns the exit status and the output of a command for an input, or the fault of the command.
pub fn obey(alloc: Global, command: &str, input: &[u8]) -> Result<String, Fail> {
    let words = words_of(alloc, command)?;
    let line = match request(alloc, words.as_slice()) {
        Ok(Request::Run(line)) => line,
        Ok(Request::Explain(_) | Request::Help | Request::Features) => {
            return Err(Fail::new("no line"));
        }
        Err(fault) => return tell_fault(alloc, &fault),
    };
    let told = obey_line(alloc, &line, input)?;
    if !is_same_under_more(alloc, &line, input, &told)? {
        return Ok(format!(in alloc; "differs under more")?);
    }
    Ok(told)
}

/// Returns the output of a command for an input. Fails if its status is not `Done`.
fn written(alloc: Global, command: &str, input: &[u8]) -> Result<Vec<u8>, Fail> {
    let words = words_of(alloc, command)?;
    let line = line_of(alloc, &words)?;
    let whole = Mode::by(usize::MAX);
    let (answer, _, writer) = follow(&Task::of_line(alloc, &line, input), whole, whole);
    if answer.status == Status::Done {
        Ok(writer.taken)
    } else {
        Err(Fail::new("not done"))
    }
}

/// Whether `build` makes the canonical binary of a module from the text that `show` writes of it.
pub fn is_given_back(alloc: Global, module: &[u8]) -> Result<bool, Fail> {
    let text = written(alloc, "wmod show", module)?;
    let built = written(alloc, "wmod build", &text)?;
    Ok(built.as_slice() == written(alloc, "wmod canon", module)?.as_slice())
}

/// Splits a call at `<` into the command and the input.
fn parts_of(alloc: Global, call: &str) -> Result<(&str, Vec<u8>), Fail> {
    let Some((command, input)) = call.split_once(" <") else {
        return Err(Fail::new("no input"));
    };
    let input = input.trim_start();
    let bytes = match (input.strip_prefix("bytes "), command.contains("build")) {
        (Some(words), true) => bytes_of(alloc, words)?,
        (None, true) => input.as_bytes().to_vec(alloc)?,
        _ => bytes_of(alloc, input)?,
    };
    Ok((command, bytes))
}

/// Returns the exit status and the output of a call.
fn obey_row(alloc: Global, call: &str) -> Result<String, Fail> {
    let (command, input) = parts_of(alloc, call)?;
    obey(alloc, command, &input)
}

/// Returns the exit status and the output of a call if this end passes the given number of bytes, one a call, and then
/// fails.
fn cut_row(alloc: Global, end: End, row: &str) -> Result<String, Fail> {
    let Some((passed, call)) = row.split_once(' ') else {
        return Err(Fail::new("no command"));
    };
    let failing = Mode {
        most: 1,
        fault: BROKEN,
        at: passed.parse::<u32>()?.saturating_add(1),
    };
    let (command, input) = parts_of(alloc, call)?;
    let words = words_of(alloc, command)?;
    let line = line_of(alloc, &words)?;
    let (answer, _, writer) = follow_failing(&Task::of_line(alloc, &line, &input), end, failing);
    Ok(format!(in alloc;
        "{} \"{}\"",
        exit_code(&Ok(answer.status)),
        writer.taken.escape_ascii()
    )?)
}

/// Returns the detail of a call that is refused, or `none` if it is not.
fn detail_row(alloc: Global, call: &str) -> Result<String, Fail> {
    let (command, input) = parts_of(alloc, call)?;
    let words = words_of(alloc, command)?;
    let line = line_of(alloc, &words)?;
    let mut source = Input::new(input.as_slice());
    let mut dest = Output::new(Vec::new(alloc));
    match run_line(alloc, &line, &mut source, &mut dest).detail {
        Some(detail) => Ok(format!(in alloc; "{detail}")?),
        None => Ok(format!(in alloc; "none")?),
    }
}

fn tell_text_fault(alloc: Global, fault: TextFault) -> Result<String, Fail> {
    Ok(format!(in alloc; "{:?}, {} left", fault.why, fault.left)?)
}

/// Reads at most three labels of a br_table outside of all blocks.
fn three_labels(alloc: Global, text: &str) -> Result<String, Fail> {
    let blocks = OpenBlocks::new(alloc);
    match labels(alloc, &blocks, 3, text.as_bytes()) {
        Ok((labels, rest)) => Ok(format!(in alloc; "{labels:?}, {} left", rest.len())?),
        Err(fault) => tell_text_fault(alloc, fault),
    }
}

/// Returns the first fault of parameters and locals before the last bytes, with two locals allowed.
fn two_locals(alloc: Global, row: &str) -> Result<String, Fail> {
    let Some((left, text)) = row.split_once(' ') else {
        return Err(Fail::new("no text"));
    };
    match earlier_fault(alloc, text.as_bytes(), left.parse::<usize>()?, 2)? {
        Some(fault) => tell_text_fault(alloc, fault),
        None => Ok(format!(in alloc; "none")?),
    }
}

/// Returns the answer to a call.
fn answer(alloc: Global, call: &str) -> Result<String, Fail> {
    match call.split_once(' ') {
        Some(("read", command)) => read(alloc, command),
        Some(("wrong", command)) => wrong(alloc, command),
        Some(("wmod", _)) => obey_row(alloc, call),
        Some(("in", row)) => cut_row(alloc, End::Reader, row),
        Some(("out", row)) => cut_row(alloc, End::Writer, row),
        Some(("detail", call)) => detail_row(alloc, call),
        Some(("labels", text)) => three_labels(alloc, text),
        Some(("earlier", row)) => two_locals(alloc, row),
        _ => Ok(format!(in alloc; "no such call")?),
    }
}

/// Expects that each line of a script has the answer to its call.
pub fn play(rt: &impl Abort, alloc: Global, script: &str) -> Result<(), Fail> {
    assert!(rt; !script.is_empty());
    for row in script.lines() {
        let Some((call, wanted)) = row.split_once(" = ") else {
            panic!(rt; "no answer: {row}");
        };
        let found = answer(alloc, call)?;
        assert!(rt; found.as_str() == wanted, "{row}: {found}");
    }
    Ok(())
}

/// Whether each function that takes a row's input ends as it must if its reader or its writer fails.
fn is_row_told(alloc: Global, row: &str, faults: &mut Faults) -> Result<bool, Fail> {
    let (command, input) = parts_of(alloc, row)?;
    let words = words_of(alloc, command)?;
    let line = line_of(alloc, &words)?;
    Ok(are_faults_told(alloc, &line, &input, faults))
}

/// Runs the inputs of these rows with readers and writers that fail. Returns how many failed.
pub fn fail_ends(rt: &impl Abort, alloc: Global, rows: &str) -> Result<String, Fail> {
    let mut faults = Faults {
        readers: 0,
        writers: 0,
    };
    for row in rows.lines() {
        let is_told = is_row_told(alloc, row, &mut faults)?;
        assert!(rt; is_told, "{row}");
    }
    let Faults { readers, writers } = faults;
    Ok(format!(in alloc; "{readers} readers and {writers} writers that failed")?)
}
