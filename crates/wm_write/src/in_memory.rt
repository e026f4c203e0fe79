//! Writes a module's canonical binary or its text to memory.

ghost use Rattle.std.specs.Prelude.{◌≡◌, ◌≢◌, ◌↔◌, [], Err, IfOk, false};
ghost use Rattle.wm_rules.specs.inner.Loaders.{module_in};
ghost use Rattle.wm_syntax.specs.Values.{value_of};
ghost use Rattle.wm_write.specs.Canon.{Fits, FitsWith, canon, canon_with};
ghost use Rattle.wm_write.specs.Layout.{layout};
ghost use Rattle.wm_write.specs.declared.in_memory.MakeFault.TheVariants as fault;

use crate::encode::{WriteFault, encode_with};
use crate::print::print;
use std::alloc::Global;
use std::io;
use std::io::ErrorKind;
use thiserror::Error;
use wm_rules::Checked;
use wm_syntax::io::Dest;
use wm_syntax::modules::Module;

/// Why a module was not written to memory.
#[derive(Clone, Copy, PartialEq, Eq, Debug, Error)]
pub enum MakeFault {
    /// The contents of a section have 2^32 bytes or more.
    #[error("a section would have 2^32 bytes or more")]
    TooLarge,
    /// Memory was refused.
    #[error("out of memory")]
    Memory,
}

// A writer that keeps the bytes. It fails if memory is refused.
#[derive(Drop)]
struct Bytes {
    bytes: Vec<u8>,
    failed: bool,
}

impl Bytes {
    fn new(alloc: Global) -> Bytes
        ensures nothing { result.bytes.items ≡ [] }
        ensures open { result.failed ≡ false }
    {
        Bytes {
            bytes: Vec::new(alloc),
            failed: false,
        }
    }
}

impl Dest for Bytes {
    ghost use Rattle.std.specs.Prelude.{Some};

    ghost contents = { λ b. Some b.bytes.items };

    ghost has_failed = { λ b. b.failed };

    fn put(&mut self, buf: &[u8]) -> io::Result<usize> {
        match self.bytes.extend_from_slice(buf) {
            Ok(()) => Ok(buf.len()),
            Err(_) => {
                self.failed = true;
                Err(io::Error::from(ErrorKind::OutOfMemory))
            }
        }
    }

    fn flush(&mut self) -> io::Result<()> {
        Ok(())
    }

    fn failed(&self) -> bool {
        self.failed
    }
}

/// Returns the canonical binary of a module. Core spec 5.5.15.
/// Fails with `TooLarge` if and only if the contents of a section have 2^32 bytes or more. Its only other error is
/// `Memory`.
pub fn encoded(alloc: Global, m: &Module) -> Result<Vec<u8>, MakeFault>
    ensures written { IfOk result (λ b. b.items ≡ canon (value_of m.now)) }
    ensures too_large { (result ≡ Err fault.TooLarge) ↔ (¬ Fits (value_of m.now)) }
{
    encoded_with(alloc, false, m)
}

/// As `encoded`, with flags before segments or without them.
pub(crate) fn encoded_with(alloc: Global, flagged: bool, m: &Module) -> Result<Vec<u8>, MakeFault>
    ensures written { IfOk result (λ b. b.items ≡ canon_with flagged (value_of m.now)) }
    ensures too_large { (result ≡ Err fault.TooLarge) ↔ (¬ FitsWith flagged (value_of m.now)) }
{
    let mut written = Bytes::new(alloc);
    match encode_with(flagged, m, &mut written) {
        Ok(_) => Ok(written.bytes),
        Err(WriteFault::TooLarge) => Err(MakeFault::TooLarge),
        Err(WriteFault::Io { written: _ }) => Err(MakeFault::Memory),
    }
}

/// Returns the text of a loaded module. Core spec 6.6.13. Fails with `Memory` only.
/// A module of thirty bytes can declare 2^32 - 1 locals, whose text has 17 GB. Load a stranger's module under a policy
/// that bounds its locals.
pub fn printed(alloc: Global, checked: &Checked) -> Result<Vec<u8>, MakeFault>
    ensures written { IfOk result (λ b. b.items ≡ layout (value_of (module_in checked.now))) }
    ensures sized { result ≢ Err fault.TooLarge }
{
    let mut written = Bytes::new(alloc);
    match print(checked, &mut written) {
        Ok(()) => Ok(written.bytes),
        Err(_) => Err(MakeFault::Memory),
    }
}
