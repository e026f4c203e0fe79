//! Writes modules in the binary format (Core spec 5.5.15).

ghost use Rattle.std.specs.Prelude.{◌≡◌, ◌≤◌, ◌↔◌, ℕ, Err, IfOk, length, take, false, true};
ghost use Rattle.std.specs.Io.KnownBytes.{Appends};
ghost use Rattle.wm_syntax.specs.Values.{value_of};
ghost use Rattle.wm_write.specs.Canon.{Fits, FitsWith, canon, canon_with};
ghost use Rattle.wm_write.specs.exact.Measures.{Measures};
ghost use Rattle.wm_write.specs.exact.Writing.{Sent};

use crate::encode::parts::{
    ExportEntry, FunctionEntry, GlobalEntry, ImportEntry, MemoryEntry, TableEntry, TypeEntry,
    put_elements, put_segments,
};
use crate::encode::sections::{
    put_code_section, put_data_count_section, put_section, put_start_section,
};
use crate::encode::sizes::Sizes;
use crate::put::put_bytes;
use thiserror::Error;
use wm_syntax::io::Dest;
use wm_syntax::modules::Module;

pub(crate) mod code;
pub(crate) mod lengths;
pub(crate) mod parts;
pub(crate) mod sections;
pub(crate) mod sizes;
pub(crate) mod spell;

/// Why a module was not written.
#[derive(Clone, Copy, PartialEq, Eq, Debug, Error)]
pub enum WriteFault {
    /// The contents of a section have 2^32 bytes or more. Nothing was written.
    #[error("a section would have 2^32 bytes or more")]
    TooLarge,
    /// The writer failed after `written` bytes.
    #[error("the writer failed after {written} bytes")]
    Io { written: u64 },
}

/// Writes the canonical binary of a module, and returns its length in bytes. Core spec 5.5.15. It allocates no memory.
/// Fails with `TooLarge` if and only if a section does not fit, and with `Io` if the writer fails.
/// Each number, name or type is one `put`, and instructions go out in batches. A slow writer needs a buffer.
pub fn encode<W: Dest>(m: &Module, w: &mut W) -> Result<u64, WriteFault>
    requires open { W.has_failed w.old ≡ false }
    ensures written { IfOk result (λ n. (n ≡ length (canon (value_of m.now)))
        × Appends (W.contents w.old) (W.contents w.new) (canon (value_of m.now))) }
    ensures beginning { (n : ℕ) → result ≡ Err (WriteFault.Io n) → (n ≤ length (canon (value_of m.now)))
        × Appends (W.contents w.old) (W.contents w.new) (take n (canon (value_of m.now))) }
    ensures too_large { (result ≡ Err WriteFault.TooLarge) ↔ (¬ Fits (value_of m.now)) }
    ensures untouched { result ≡ Err WriteFault.TooLarge → w.new ≡ w.old }
    ensures failed { ((n : ℕ) × (result ≡ Err (WriteFault.Io n))) ↔ (W.has_failed w.new ≡ true) }
{
    encode_with(false, m, w)
}

/// As `encode`, with flags before segments or without them.
pub(crate) fn encode_with<W: Dest>(flagged: bool, m: &Module, w: &mut W) -> Result<u64, WriteFault>
    requires open { W.has_failed w.old ≡ false }
    ensures written { IfOk result (λ n. (n ≡ length (canon_with flagged (value_of m.now)))
        × Appends (W.contents w.old) (W.contents w.new) (canon_with flagged (value_of m.now))) }
    ensures beginning { (n : ℕ) → result ≡ Err (WriteFault.Io n)
        → (n ≤ length (canon_with flagged (value_of m.now)))
        × Appends (W.contents w.old) (W.contents w.new) (take n (canon_with flagged (value_of m.now))) }
    ensures too_large { (result ≡ Err WriteFault.TooLarge) ↔ (¬ FitsWith flagged (value_of m.now)) }
    ensures untouched { result ≡ Err WriteFault.TooLarge → w.new ≡ w.old }
    ensures failed { ((n : ℕ) × (result ≡ Err (WriteFault.Io n))) ↔ (W.has_failed w.new ≡ true) }
{
    let Some(sizes) = Sizes::of(flagged, m) else {
        return Err(WriteFault::TooLarge);
    };
    let mut written = 0;
    put_module(w, &mut written, flagged, m, &sizes);
    if w.failed() {
        Err(WriteFault::Io { written })
    } else {
        Ok(written)
    }
}

// Writes a module, given the sizes of its sections.
fn put_module<W: Dest>(w: &mut W, written: &mut u64, flagged: bool, m: &Module, sizes: &Sizes)
    requires measured { Measures flagged sizes.now (value_of m.now) }
    requires fits { FitsWith flagged (value_of m.now) }
    ensures { Sent (canon_with flagged (value_of m.now)) (W.has_failed w.old, W.contents w.old, written.old)
        (W.has_failed w.new, W.contents w.new, written.new) }
{
    put_bytes(w, written, b"\0asm\x01\0\0\0");
    put_section::<TypeEntry, W>(w, written, 1, sizes.types, &m.types);
    put_section::<ImportEntry, W>(w, written, 2, sizes.imports, &m.imports);
    put_section::<FunctionEntry, W>(w, written, 3, sizes.functions, &m.functions);
    put_section::<TableEntry, W>(w, written, 4, sizes.tables, &m.tables);
    put_section::<MemoryEntry, W>(w, written, 5, sizes.memories, &m.memories);
    put_section::<GlobalEntry, W>(w, written, 6, sizes.globals, &m.globals);
    put_section::<ExportEntry, W>(w, written, 7, sizes.exports, &m.exports);
    put_start_section(w, written, m.start);
    put_elements(w, written, flagged, sizes.elements, &m.elements);
    put_data_count_section(w, written, &m.functions, &m.segments);
    put_code_section(w, written, sizes.codes, &m.functions);
    put_segments(w, written, flagged, sizes.segments, &m.segments);
}
