//! `wmod explain NAME` writes what the NAME of a refusal means, `wmod help` writes the help, and `--features help` writes the
//! words of that option.

ghost use Rattle.std.specs.Prelude.{◌≡◌, ◌<◌, ◌⊎◌, ℕ, List, [], Err, IfErr, IfOk, IfSome, None, false, length};
ghost use Rattle.wm_command.specs.Answers.{IsAnswered};
ghost use Rattle.wm_command.specs.declared.status.Status.{Status};
ghost use Rattle.wm_command.specs.declared.arguments.LineFault.TheVariants.{Memory, Words};

use crate::answer::answer;
use crate::arguments::LineFault;
use crate::complaint::{Escaped, complain, complain_of_output};
use crate::features::listed;
use crate::line::help_text;
use crate::status::Status;
use crate::witness::Witness;
use std::alloc::{AllocError, Global};
use std::{fmt, io};
use wm_refusals::rows::Row;
use wm_refusals::tables::{OF_MODULES, OF_TEXTS, OTHERS};
use wm_syntax::io::Dest;
use wm_syntax::io::output::Output as OutputOf;

/// Why `explain` has nothing to explain.
#[derive(Drop)]
pub(crate) enum Wrong<'a> {
    /// There is not exactly one NAME, or it is empty.
    Count,
    /// No refusal has this NAME. The second text has the nearest ones.
    Name(&'a str, &'a str),
}

impl fmt::Display for Wrong<'_> {
    fn fmt<W: fmt::Write>(&self, f: &mut fmt::Formatter<W>) -> fmt::Result {
        match self {
            Wrong::Count => f.write_str("explain takes one NAME of a refusal, such as Index"),
            Wrong::Name(name, nearest) => {
                write!(
                    f,
                    "no refusal has the NAME '{}'; nearest:{nearest}",
                    Escaped(name)
                )
            }
        }
    }
}

/// Writes what a NAME means to standard output. Fails with `Words` if there is no NAME, it is empty or no refusal has
/// it, and with `Memory` if memory is refused. Returns `Ok(Io)` if standard output fails. Each failure is reported on
/// standard error. No contract of std states what standard output got: see `explain_to`.
pub fn explain<R: Print + Eprint + AllocGlobal>(
    rt: &R,
    name: Option<&str>,
) -> Result<Status, LineFault>
    ensures missing { name.entry ≡ None → result ≡ Err Words }
    ensures empty { IfSome name.entry (λ s. s.now ≡ [] → result ≡ Err Words) }
    ensures ok { IfOk result (λ status. (status ≡ Status.Done) ⊎ (status ≡ Status.Io)) }
    ensures fault { IfErr result (λ e. (e ≡ Words) ⊎ (e ≡ Memory)) }
{
    let name = match name {
        Some(name) if !name.is_empty() => name,
        _ => return complain_of_words(rt, &Wrong::Count),
    };
    let mut dest = OutputOf::new(Witness::new(io::writer(rt)));
    let ended = explain_to(rt, name, &mut dest);
    if let Ok(Status::Io) = ended {
        complain_of_output(rt, dest.into_inner().error());
    }
    ended
}

/// Writes the help to standard output. Fails with `Memory` if memory is refused. Returns `Ok(Io)` if standard output
/// fails. Both are reported on standard error. No contract of std states what standard output got.
pub fn help<R: Print + Eprint + AllocGlobal>(rt: &R) -> Result<Status, LineFault>
    ensures ok { IfOk result (λ status. (status ≡ Status.Done) ⊎ (status ≡ Status.Io)) }
    ensures fault { IfErr result (λ e. e ≡ Memory) }
{
    match help_text(rt.alloc()) {
        Ok(text) => Ok(print_all(rt, text.as_str())),
        Err(_) => out_of_memory(rt),
    }
}

/// Writes the words of `--features` to standard output, with what each admits. Fails with `Memory` if memory is refused.
/// Returns `Ok(Io)` if standard output fails. Both are reported on standard error. No contract of std states what
/// standard output got.
pub fn features<R: Print + Eprint + AllocGlobal>(rt: &R) -> Result<Status, LineFault>
    ensures ok { IfOk result (λ status. (status ≡ Status.Done) ⊎ (status ≡ Status.Io)) }
    ensures fault { IfErr result (λ e. e ≡ Memory) }
{
    match listed(rt.alloc()) {
        Ok(text) => Ok(print_all(rt, text.as_str())),
        Err(_) => out_of_memory(rt),
    }
}

/// Writes a text to standard output. Returns `Io` if that fails, and reports it on standard error.
fn print_all<R: Print + Eprint>(rt: &R, text: &str) -> Status
    ensures { (result ≡ Status.Done) ⊎ (result ≡ Status.Io) }
{
    let mut dest = OutputOf::new(Witness::new(io::writer(rt)));
    let status = answer(&mut dest, text.as_bytes(), Status::Done);
    if status == Status::Io {
        complain_of_output(rt, dest.into_inner().error());
    }
    status
}

/// Writes what a NAME means. Fails with `Words` if no refusal has it, and with `Memory` if memory is refused. Both
/// are reported on standard error, and leave the writer unchanged.
fn explain_to<R: Eprint + AllocGlobal, W: Dest>(
    rt: &R,
    name: &str,
    w: &mut W,
) -> Result<Status, LineFault>
    requires { W.has_failed w.old ≡ false }
    // Some text is written whole, or a prefix of it if the writer failed.
    ensures written { IfOk result (λ status. (text : List ℕ) × (0 < length text)
        × IsAnswered text Status.Done (W.contents w.old) (W.contents w.new) (W.has_failed w.new)
        (W.is_flushed w.new) status) }
    ensures fault { IfErr result (λ e. ((e ≡ Words) ⊎ (e ≡ Memory)) × (w.new ≡ w.old)) }
{
    let Ok(text) = explained(rt.alloc(), name) else {
        return out_of_memory(rt);
    };
    if !text.is_empty() {
        return Ok(answer(w, text.as_bytes(), Status::Done));
    }
    match nearest(rt.alloc(), name) {
        Ok(names) => complain_of_words(rt, &Wrong::Name(name, names.as_str())),
        Err(_) => out_of_memory(rt),
    }
}

fn complain_of_words<R: Eprint>(rt: &R, what: &Wrong<'_>) -> Result<Status, LineFault>
    ensures { result ≡ Err Words }
{
    complain(rt, &LineFault::Words);
    complain(rt, what);
    Err(LineFault::Words)
}

fn out_of_memory<R: Eprint>(rt: &R) -> Result<Status, LineFault>
    ensures { result ≡ Err Memory }
{
    complain(rt, &LineFault::Memory);
    Err(LineFault::Memory)
}

/// Returns the explanations of this NAME, one for each of its rows. ASCII case is ignored. Empty if no refusal has
/// it.
fn explained(alloc: Global, name: &str) -> Result<String, AllocError> {
    let mut text = String::new(alloc);
    for line in OF_MODULES
        .lines()
        .chain(OF_TEXTS.lines())
        .chain(OTHERS.lines())
    {
        match Row::of(line) {
            Some(row) if row.name.eq_ignore_ascii_case(name) => {
                let said = format!(in alloc; "{row}")?;
                text.push_str(said.as_str())?;
            }
            _ => {}
        }
    }
    Ok(text)
}

/// Returns the NAMEs that share the longest prefix with this word, each once and after a space. ASCII case is
/// ignored.
fn nearest(alloc: Global, word: &str) -> Result<String, AllocError> {
    let mut names = String::new(alloc);
    let mut longest = 0;
    for line in OF_MODULES
        .lines()
        .chain(OF_TEXTS.lines())
        .chain(OTHERS.lines())
    {
        let Some(row) = Row::of(line) else {
            continue;
        };
        let shared = shared_front(row.name, word);
        if shared > longest {
            longest = shared;
            names.clear();
        }
        if shared == longest && !names.as_str().split(' ').any(|name| name == row.name) {
            names.push(' ')?;
            names.push_str(row.name)?;
        }
    }
    Ok(names)
}

/// The length in bytes of the common prefix of two words. ASCII case is ignored.
fn shared_front(one: &str, other: &str) -> usize {
    one.bytes()
        .zip(other.bytes())
        .take_while(|(a, b)| a.eq_ignore_ascii_case(b))
        .count()
}
