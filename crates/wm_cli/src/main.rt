//! The program `wmod`: reads a file, or standard input, and writes to standard output.
#![tactic(auto)]

use std::process::ExitCode;
use std::rt::{Env, Files};
use std::{env, io};
use wm_command::arguments::{LineFault, Request};
use wm_command::complaint::{complain, complain_of, explain_fault};
use wm_command::execute::{System, execute};
use wm_command::explain::{explain, features, help};
use wm_command::line::request;
use wm_command::status::{Status, exit_code};

/// std gives no argument that is not UTF-8, and opens no file of such a name.
const NOT_UTF8: &str = "an argument is not UTF-8: give such a file on standard input, or rename it";

/// Returns the arguments, the first of which is the program's name. Reports a failure on standard error: `Memory` if
/// memory is refused, and `Words` if an argument is not UTF-8 or the system gives no arguments.
fn read_words<R: Env + Eprint + AllocGlobal>(rt: &R) -> Result<Vec<String>, LineFault> {
    let fault = match env::args(rt) {
        Ok(words) => match words.collect(rt.alloc()) {
            Ok(words) => return Ok(words),
            Err(_) => LineFault::Memory,
        },
        Err(error) if error.kind() == io::ErrorKind::OutOfMemory => LineFault::Memory,
        Err(error) if error.kind() == io::ErrorKind::InvalidData => {
            complain(rt, &LineFault::Words);
            complain(rt, &NOT_UTF8);
            return Err(LineFault::Words);
        }
        Err(error) => {
            complain_of(rt, &LineFault::Words, "the arguments", error);
            return Err(LineFault::Words);
        }
    };
    complain(rt, &fault);
    Err(fault)
}

/// Does what the arguments ask. Failures are reported on standard error.
fn obey<R: Env + Files + Input + Print + Eprint + AllocGlobal>(
    rt: &R,
) -> Result<Status, LineFault> {
    let words = read_words(rt)?;
    match request(rt.alloc(), words.as_slice()) {
        Ok(Request::Run(line)) => Ok(execute(rt, &System(rt), &line)),
        Ok(Request::Explain(name)) => explain(rt, name),
        Ok(Request::Help) => help(rt),
        Ok(Request::Features) => features(rt),
        Err(fault) => explain_fault(rt, words.as_slice(), fault),
    }
}

/// Does what the arguments ask, and returns the exit status.
fn end<R: Env + Files + Input + Print + Eprint + AllocGlobal>(rt: &R) -> ExitCode {
    ExitCode::from(exit_code(&obey(rt)))
}

fn main(rt: HostRuntime) -> ExitCode {
    end(&rt)
}

#[cfg(test)]
mod tests;
