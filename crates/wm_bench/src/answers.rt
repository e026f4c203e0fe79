//! Calls of the library on one input, whose answers go into the digest.

use crate::digest::{Digest, Digester};
use std::alloc::Global;
use std::io;
use std::io::{BufWriter, ErrorKind};
use wm_decode::Refusal;
use wm_read::faults::TextRefusal;
use wm_read::spellings::Spellings;
use wm_read::text::read_text;
use wm_rules::{Checked, Loader, Policy, Summary, Validator, validate};
use wm_syntax::io::Dest;
use wm_syntax::io::output::Output;
use wm_syntax::modules::Module;
use wm_syntax::profile::Profile;
use wm_write::check_module::{CheckFault, check, checked_bytes};
use wm_write::encode::encode;
use wm_write::print::print;

/// The limit of an input, in bytes.
pub const LIMIT: u64 = 1 << 32;

/// The profile, the policy and the size of pieces for an input.
#[derive(Clone, Copy)]
pub struct Terms {
    pub profile: Profile,
    pub policy: Policy,
    /// The size of a piece, in bytes.
    pub piece: usize,
}

/// The error that ends the program: memory was refused, or a writer failed.
fn broken() -> io::Error {
    io::Error::from(ErrorKind::OutOfMemory)
}

fn judge(alloc: Global, terms: Terms, binary: &[u8]) -> Result<Summary, Refusal> {
    let mut validator = Validator::new(alloc, terms.profile, LIMIT, terms.policy);
    for piece in binary.chunks(terms.piece.max(1)) {
        validator.feed(piece)?;
    }
    validator.finish()
}

fn take_verdict(verdict: Result<Summary, Refusal>, digest: &mut Digest) {
    match verdict {
        Ok(summary) => digest.summary(&summary),
        Err(refusal) => digest.refusal(&refusal),
    }
}

/// Validates a binary in pieces.
pub fn judge_pieces(alloc: Global, terms: Terms, binary: &[u8], digest: &mut Digest) {
    take_verdict(judge(alloc, terms, binary), digest);
}

/// Validates a binary as one piece.
pub fn judge_whole(alloc: Global, terms: Terms, binary: &[u8], digest: &mut Digest) {
    let verdict = validate(alloc, terms.profile, LIMIT, terms.policy, &[binary]);
    take_verdict(verdict, digest);
}

/// Loads a binary in pieces.
pub fn load(alloc: Global, terms: Terms, binary: &[u8]) -> Result<Checked, Refusal> {
    let mut loader = Loader::new(alloc, terms.profile, LIMIT, terms.policy);
    for piece in binary.chunks(terms.piece.max(1)) {
        loader.feed(piece)?;
    }
    loader.finish()
}

/// Writes the canonical binary of a module, through a buffer.
fn write_module(alloc: Global, module: &Module, digest: &mut Digest) -> io::Result<()> {
    let writer = BufWriter::new(alloc, Digester { digest })?;
    let mut dest = Output::new(writer);
    let written = encode(module, &mut dest).map_err(|_| broken())?;
    dest.flush()?;
    drop(dest);
    digest.number(written);
    Ok(())
}

/// Writes a module as text, through a buffer.
fn write_text(alloc: Global, checked: &Checked, digest: &mut Digest) -> io::Result<()> {
    let writer = BufWriter::new(alloc, Digester { digest })?;
    let mut dest = Output::new(writer);
    print(checked, &mut dest).map_err(|_| broken())?;
    dest.flush()
}

/// Loads a binary, and writes its canonical form.
pub fn convert(alloc: Global, terms: Terms, binary: &[u8], digest: &mut Digest) -> io::Result<()> {
    match load(alloc, terms, binary) {
        Ok(checked) => write_module(alloc, checked.module(), digest),
        Err(refusal) => {
            digest.refusal(&refusal);
            Ok(())
        }
    }
}

/// Loads a binary, and writes its text.
pub fn show(alloc: Global, terms: Terms, binary: &[u8], digest: &mut Digest) -> io::Result<()> {
    match load(alloc, terms, binary) {
        Ok(checked) => write_text(alloc, &checked, digest),
        Err(refusal) => {
            digest.refusal(&refusal);
            Ok(())
        }
    }
}

fn take_text_refusal(refusal: &TextRefusal, digest: &mut Digest) {
    digest.refused = digest.refused.wrapping_add(1);
    digest.number(refusal.at as u64);
    digest.bytes(refusal.why.name().as_bytes());
}

fn take_fault(fault: &CheckFault, digest: &mut Digest) {
    match fault {
        CheckFault::Refused(refusal) => digest.refusal(refusal),
        CheckFault::TooLarge => digest.bytes(b"TooLarge"),
        CheckFault::Memory => digest.bytes(b"Memory"),
    }
}

/// Makes the canonical binary of the module that a text writes, as `wmod build` does.
pub fn build(alloc: Global, terms: Terms, text: &[u8], digest: &mut Digest) {
    match read_text(alloc, terms.profile, Spellings::Standard, text) {
        Err(refusal) => take_text_refusal(&refusal, digest),
        Ok(module) => match checked_bytes(alloc, terms.profile, terms.policy, &module) {
            Ok(bytes) => digest.bytes(&bytes),
            Err(fault) => take_fault(&fault, digest),
        },
    }
}

/// `build` with `check`, which keeps the module.
pub fn build_checked(
    alloc: Global,
    terms: Terms,
    text: &[u8],
    digest: &mut Digest,
) -> io::Result<()> {
    let module = match read_text(alloc, terms.profile, Spellings::Standard, text) {
        Ok(module) => module,
        Err(refusal) => {
            take_text_refusal(&refusal, digest);
            return Ok(());
        }
    };
    match check(alloc, terms.profile, terms.policy, &module) {
        Ok(checked) => write_module(alloc, checked.module(), digest),
        Err(fault) => {
            take_fault(&fault, digest);
            Ok(())
        }
    }
}
