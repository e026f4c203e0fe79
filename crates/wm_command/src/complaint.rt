//! Messages on standard error.

ghost use Rattle.std.specs.Prelude.{◌≡◌, IfOk, IfErr};
ghost use Rattle.wm_command.specs.Codes.{fault_code};
ghost use Rattle.wm_command.specs.declared.status.Status.{Status};

use crate::arguments::LineFault;
use crate::features::{NoFeature, nearest};
use crate::line::{WrongWord, wrong_word};
use crate::status::Status;
use clap::error::ErrorKind;
use std::fmt::{Display, Write};
use std::{fmt, io};

/// The beginning of the tip of `clap` to pass an unknown option as a value. It is not shown: a misspelled option is
/// likelier than a file whose name begins with a hyphen.
const VALUE_TIP: &str = "\n  tip: to pass '";

/// A text with its control characters escaped, such as `\n` and `\u{1b}`.
#[derive(Clone, Copy)]
pub struct Escaped<'a>(pub &'a str);

impl fmt::Display for Escaped<'_> {
    fn fmt<W: fmt::Write>(&self, f: &mut fmt::Formatter<W>) -> fmt::Result {
        for c in self.0.chars() {
            if c.is_control() {
                write!(f, "{}", c.escape_debug())?;
            } else {
                write!(f, "{c}")?;
            }
        }
        Ok(())
    }
}

/// A word that has a control character.
#[derive(Clone, Copy)]
struct ControlWord<'a>(&'a str);

impl fmt::Display for ControlWord<'_> {
    fn fmt<W: fmt::Write>(&self, f: &mut fmt::Formatter<W>) -> fmt::Result {
        write!(f, "'{}' has a control character", Escaped(self.0))
    }
}

/// A writer that passes a message of `clap` on, except the line of the tip. It allocates no memory.
#[derive(Drop)]
struct WithoutTip<'a, W> {
    out: &'a mut W,
    /// The end of `VALUE_TIP` that has not come. Its front is held back.
    due: &'static str,
    is_in_tip: bool,
}

impl<W: fmt::Write> WithoutTip<'_, W> {
    /// Passes on the front of the tip that is held back.
    fn flush(&mut self) -> fmt::Result {
        let held = VALUE_TIP.strip_suffix(self.due).unwrap_or("");
        self.due = VALUE_TIP;
        self.out.write_str(held)
    }

    /// Takes the next character.
    fn take(&mut self, c: char) -> fmt::Result {
        if self.is_in_tip {
            self.is_in_tip = c != '\n';
            return Ok(());
        }
        if !self.due.starts_with(c) {
            self.flush()?;
        }
        match self.due.strip_prefix(c) {
            None => self.out.write_char(c),
            Some("") => {
                self.due = VALUE_TIP;
                self.is_in_tip = true;
                Ok(())
            }
            Some(due) => {
                self.due = due;
                Ok(())
            }
        }
    }
}

impl<W: fmt::Write> fmt::Write for WithoutTip<'_, W> {
    fn write_str(&mut self, text: &str) -> fmt::Result {
        for c in text.chars() {
            self.take(c)?;
        }
        Ok(())
    }
}

/// A fault of `clap`, whose message is written without the tip.
#[derive(Clone, Copy)]
struct Fault<'a>(&'a clap::Error);

impl fmt::Display for Fault<'_> {
    fn fmt<W: fmt::Write>(&self, f: &mut fmt::Formatter<W>) -> fmt::Result {
        let mut out = WithoutTip {
            out: f,
            due: VALUE_TIP,
            is_in_tip: false,
        };
        write!(&mut out, "{}", self.0)?;
        out.flush()
    }
}

/// Writes `what` as a line on standard error. It has no contract: none of std states what standard error gets.
pub fn complain<R: Eprint, D: Display>(rt: &R, what: &D) {
    // if standard error fails, there is nowhere left to report it
    let _ = eprintln!(rt; "wmod: {what}");
}

/// Writes `what`, and then the file and the cause, as two lines on standard error. The second line has no cause if
/// the name of the file is empty. It has no contract, as `complain`.
pub fn complain_of<R: Eprint, D: Display>(rt: &R, what: &D, file: &str, cause: io::Error) {
    complain(rt, what);
    if file.is_empty() {
        complain(rt, &"the name of the file is empty");
    } else {
        let _ = eprintln!(rt; "wmod: {}: {cause}", Escaped(file));
    }
}

/// Writes `what`, and then the file and a sentence about it, as two lines on standard error. It has no contract, as
/// `complain`.
pub fn complain_about<R: Eprint, D: Display>(rt: &R, what: &D, file: &str, sentence: &str) {
    complain(rt, what);
    let _ = eprintln!(rt; "wmod: {}: {sentence}", Escaped(file));
}

/// Reports that standard output failed, with its error. It has no contract, as `complain`.
pub fn complain_of_output<R: Eprint>(rt: &R, error: Option<io::Error>) {
    match error {
        Some(error) => complain_of(rt, &Status::Io, "standard output", error),
        // a write that accepted no byte is a failure without an error
        None => complain(rt, &Status::Io),
    }
}

/// Reports a fault of `clap` on standard error. It has no contract, as `complain`.
fn complain_of_parse<R: Eprint + AllocGlobal>(rt: &R, words: &[String], error: &clap::Error) {
    if let Some(word) = words
        .iter()
        .find(|word| word.as_str().contains(char::is_control))
    {
        complain(rt, &LineFault::Words);
        complain(rt, &ControlWord(word.as_str()));
    } else {
        let _ = eprint!(rt; "{}", Fault(error));
    }
}

/// Reports a word of `--features` that names no feature, with the nearest one that does. Reports nothing if memory is
/// refused. It has no contract, as `complain`.
fn complain_of_feature<R: Eprint + AllocGlobal>(rt: &R, word: &str) {
    if let Ok(nearest) = nearest(rt.alloc(), word) {
        complain(
            rt,
            &NoFeature {
                word,
                nearest: Some(nearest),
            },
        );
    }
}

/// Reports why these arguments ask for nothing. Prints help or the version if an option asks for it. Returns `Ok(Io)`
/// if standard output fails for help or the version, and the fault otherwise.
pub fn explain_fault<R: Print + Eprint + AllocGlobal>(
    rt: &R,
    words: &[String],
    fault: LineFault,
) -> Result<Status, LineFault>
    // `Ok` comes only for help or the version: their exit status is 0 otherwise.
    ensures ok { IfOk result (λ status. (status ≡ Status.Io) × (fault_code fault ≡ 0)) }
    ensures err { IfErr result (λ e. e ≡ fault) }
{
    match &fault {
        LineFault::Parser(error) if error.kind() != ErrorKind::OutOfMemory => {
            if error.use_stderr() {
                complain_of_parse(rt, words, error);
            } else if let Err(cause) = error.print(rt) {
                complain_of(rt, &Status::Io, "standard output", cause);
                return Ok(Status::Io);
            }
        }
        LineFault::Parser(_) | LineFault::Memory => complain(rt, &LineFault::Memory),
        LineFault::Words => {
            complain(rt, &fault);
            match wrong_word(rt.alloc(), words) {
                Ok(Some(WrongWord::Feature(word))) => complain_of_feature(rt, word),
                Ok(Some(word)) => complain(rt, &word),
                _ => {}
            }
        }
    }
    Err(fault)
}
