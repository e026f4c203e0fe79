//! Converts modules from binary to text and back.

use crate::row::{HEADER, Row};
use std::alloc::Global;
use std::fmt::Write;
use std::io;
use std::io::ErrorKind;
use wm_read::faults::{TextRefusal, TextWhy};
use wm_read::spellings::Spellings;
use wm_read::text::read_text;
use wm_rules::{Checked, FromFault, load_from};
use wm_syntax::io::input::Input;
use wm_syntax::io::output::Output;
use wm_syntax::modules::Module;
use wm_syntax::why::Why;
use wm_write::check_module::{CheckFault, check, checked_bytes};
use wm_write::encode::encode;
use wm_write::print::print;

/// The most locals of a function for which the module is printed and read back.
const LOCALS: u32 = 65_536;

/// The result of building a text.
#[derive(Drop)]
pub enum Built {
    /// The canonical binary of its module.
    Binary(Vec<u8>),
    /// The line of the refusal.
    Refused(String),
}

/// The error for memory that was refused. It ends the program.
pub fn out_of_memory() -> io::Error {
    io::Error::from(ErrorKind::OutOfMemory)
}

/// Returns `words` as an answer.
pub fn say(alloc: Global, words: &str) -> io::Result<String> {
    Ok(String::from_str(alloc, words)?)
}

/// Returns the canonical binary of a module.
pub fn canonical(alloc: Global, module: &Module) -> io::Result<Vec<u8>> {
    let mut dest = Output::new(Vec::new(alloc));
    match encode(module, &mut dest) {
        Ok(_) => Ok(dest.into_inner()),
        Err(_) => Err(out_of_memory()),
    }
}

/// Returns the text of a module.
fn text_of(alloc: Global, checked: &Checked) -> io::Result<Vec<u8>> {
    let mut dest = Output::new(Vec::new(alloc));
    match print(checked, &mut dest) {
        Ok(()) => Ok(dest.into_inner()),
        Err(_) => Err(out_of_memory()),
    }
}

/// Whether the text of a module is short enough to be read back: it has a keyword for each local.
fn is_short_in_text(checked: &Checked) -> bool {
    let mut functions = checked.module().functions.iter();
    functions.all(|function| function.locals.len() <= LOCALS)
}

/// Returns the answer for a refusal. `whose` is `module `, `text ` or empty.
pub fn refuse(alloc: Global, whose: &str, at: u64, name: &str) -> io::Result<String> {
    Ok(format!(in alloc; "{whose}refused at {at}: {name}")?)
}

/// Checks a module value, and returns its canonical binary or the fault.
fn bytes_of(alloc: Global, row: &Row, module: &Module) -> io::Result<Result<Vec<u8>, CheckFault>> {
    match check(alloc, row.profile, row.policy, module) {
        Ok(checked) => Ok(Ok(canonical(alloc, checked.module())?)),
        Err(CheckFault::Memory) => Err(out_of_memory()),
        Err(fault) => Ok(Err(fault)),
    }
}

/// Checks a module value with `check` and with `checked_bytes`, and returns its canonical binary or the line of its
/// refusal. If the two differ, the line says that.
fn build_module(alloc: Global, row: &Row, module: &Module) -> io::Result<Built> {
    let bytes = bytes_of(alloc, row, module)?;
    let alone = checked_bytes(alloc, row.profile, row.policy, module);
    if let Err(CheckFault::Memory) = alone {
        return Err(out_of_memory());
    }
    if bytes != alone {
        return Ok(Built::Refused(say(alloc, "the two checks of a module differ")?));
    }
    let line = match bytes {
        Ok(bytes) => return Ok(Built::Binary(bytes)),
        Err(CheckFault::Refused(refusal)) => {
            refuse(alloc, "module ", refusal.at, refusal.why.name())?
        }
        Err(_) => say(alloc, "module refused: TooLarge")?,
    };
    Ok(Built::Refused(line))
}

/// Returns the answer for a refusal of a text.
fn refuse_text(alloc: Global, refusal: TextRefusal) -> io::Result<String> {
    if refusal.why == TextWhy::Memory {
        return Err(out_of_memory());
    }
    refuse(alloc, "text ", refusal.at as u64, refusal.why.name())
}

/// Builds a text with these spellings.
pub fn build(alloc: Global, row: &Row, spellings: Spellings, text: &[u8]) -> io::Result<Built> {
    match read_text(alloc, row.profile, spellings, text) {
        Ok(module) => build_module(alloc, row, &module),
        Err(refusal) => Ok(Built::Refused(refuse_text(alloc, refusal)?)),
    }
}

/// Returns the canonical binary of the module that a row's text writes, valid or not.
pub fn read(alloc: Global, row: &Row) -> io::Result<String> {
    match read_text(alloc, row.profile, row.spellings, &row.input) {
        Ok(module) => spell(alloc, &canonical(alloc, &module)?),
        Err(refusal) => refuse_text(alloc, refusal),
    }
}

/// Whether the result is this canonical binary.
fn is_built(built: &Built, canonical: &[u8]) -> bool {
    match built {
        Built::Binary(binary) => binary.as_slice() == canonical,
        Built::Refused(_) => false,
    }
}

/// Whether a module gives this canonical binary when it is checked as a value, and when its text is built.
fn is_module_given_back(
    alloc: Global,
    row: &Row,
    checked: &Checked,
    canonical: &[u8],
) -> io::Result<bool> {
    if !is_built(&build_module(alloc, row, checked.module())?, canonical) {
        return Ok(false);
    }
    if !is_short_in_text(checked) {
        return Ok(true);
    }
    let text = text_of(alloc, checked)?;
    Ok(is_built(&build(alloc, row, Spellings::Standard, &text)?, canonical))
}

/// Returns the module of a binary, or `None` if it is refused.
fn module_of(alloc: Global, row: &Row, binary: &[u8]) -> io::Result<Option<Checked>> {
    let mut source = Input::new(binary);
    match load_from(
        alloc,
        &mut source,
        row.profile,
        u64::from(row.limit),
        row.policy,
    ) {
        Ok(checked) => Ok(Some(checked)),
        Err(FromFault::Refused(refusal, _)) if refusal.why == Why::Memory => Err(out_of_memory()),
        Err(_) => Ok(None),
    }
}

/// Whether a binary's module gives this canonical binary when it is checked as a value, and when its text is built. It
/// has no contract: `stdout` has the right answers.
pub fn is_given_back(
    alloc: Global,
    row: &Row,
    binary: &[u8],
    canonical: &[u8],
) -> io::Result<bool> {
    match module_of(alloc, row, binary)? {
        Some(checked) => is_module_given_back(alloc, row, &checked, canonical),
        None => Ok(false),
    }
}

/// Returns the text of a binary, or `None` if it is refused.
fn shown(alloc: Global, row: &Row, binary: &[u8]) -> io::Result<Option<Vec<u8>>> {
    match module_of(alloc, row, binary)? {
        Some(checked) => Ok(Some(text_of(alloc, &checked)?)),
        None => Ok(None),
    }
}

/// Returns the lines of a binary's text, followed by an empty one.
pub fn show(alloc: Global, row: &Row, binary: &[u8]) -> io::Result<String> {
    let text = shown(alloc, row, binary)?.unwrap_or(Vec::new(alloc));
    match str::from_utf8(&text) {
        Ok(lines) => Ok(format!(in alloc; "text:\n{lines}")?),
        Err(_) => say(alloc, "a text that is not UTF-8"),
    }
}

/// Returns the bytes of a module as BYTES of a row.
pub fn spell(alloc: Global, module: &[u8]) -> io::Result<String> {
    let Some(rest) = module.strip_prefix(&HEADER) else {
        return say(alloc, "no header");
    };
    let mut words = String::from_str(alloc, "H")?;
    for byte in rest {
        write!(words, " {byte:02X}")?;
    }
    Ok(words)
}
