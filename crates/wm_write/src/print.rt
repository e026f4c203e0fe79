//! Prints modules in the text format (Core spec chapter 6).

ghost use Rattle.std.specs.Prelude.{◌≡◌, ◌≤◌, ◌++◌, ℕ, IsTrue, OnErr, OnOk, codes, false, is_err, length};
ghost use Rattle.std.specs.Prelude.{take};
ghost use Rattle.std.specs.Io.KnownBytes.{Appends};
ghost use Rattle.std.specs.List.{list_all};
ghost use Rattle.wm_syntax.specs.Values.{value_of};
ghost use Rattle.wm_rules.specs.inner.Loaders.{module_in};
ghost use Rattle.wm_write.specs.Layout.{field_words, last_line, layout, words_text};
ghost use Rattle.wm_write.specs.exact.Aligns.{is_function_printable};
ghost use Rattle.wm_write.specs.exact.Printing.{is_empty_module};
ghost use Rattle.wm_write.specs.exact.Writing.{Sent};

use crate::print::fields::{
    ElementField, ExportField, FunctionField, GlobalField, MemoryField, SegmentField, TableField,
    TypeField, put_fields, put_imports, put_start,
};
use crate::put::{put_bytes, put_each};
use thiserror::Error;
use wm_rules::Checked;
use wm_syntax::io::Dest;
use wm_syntax::modules::Module;

pub(crate) mod body_lines;
pub(crate) mod fields;
pub(crate) mod float_text;
pub(crate) mod tokens;

/// Why a module was not printed whole.
#[derive(Clone, Copy, PartialEq, Eq, Debug, Error)]
pub enum PrintFault {
    /// The writer failed.
    #[error("the writer failed")]
    Io,
}

/// Writes the text of a loaded module. Core spec 6.6.13. It allocates no memory. Fails with `Io` if the writer fails.
/// Each instruction is one `put`, a string of n bytes is n + 2, and any other word is at most two. A slow writer needs
/// a buffer.
pub fn print<W: Dest>(checked: &Checked, w: &mut W) -> Result<(), PrintFault>
    requires open { W.has_failed w.old ≡ false }
    ensures written { OnOk result (Appends (W.contents w.old) (W.contents w.new)
        (layout (value_of (module_in checked.now)))) }
    // A prefix of the text went out.
    ensures beginning { OnErr result ((n : ℕ) × (n ≤ length (layout (value_of (module_in checked.now))))
        × Appends (W.contents w.old) (W.contents w.new)
        (take n (layout (value_of (module_in checked.now))))) }
    ensures failed { W.has_failed w.new ≡ is_err result }
{
    let mut written = 0;
    put_module(w, &mut written, checked.module());
    if w.failed() {
        Err(PrintFault::Io)
    } else {
        Ok(())
    }
}

// Writes a module and a line feed.
fn put_module<W: Dest>(w: &mut W, written: &mut u64, m: &Module)
    requires { IsTrue (list_all is_function_printable (value_of m.now).functions) }
    ensures { Sent (layout (value_of m.now)) (W.has_failed w.old, W.contents w.old, written.old)
        (W.has_failed w.new, W.contents w.new, written.new) }
{
    put_bytes(w, written, b"(module");
    put_all_fields(w, written, m);
    put_bytes(w, written, ending(m));
}

// Writes the fields of a module.
fn put_all_fields<W: Dest>(w: &mut W, written: &mut u64, m: &Module)
    requires { IsTrue (list_all is_function_printable (value_of m.now).functions) }
    ensures { Sent (words_text (field_words (value_of m.now)))
        (W.has_failed w.old, W.contents w.old, written.old)
        (W.has_failed w.new, W.contents w.new, written.new) }
{
    put_fields::<TypeField, W>(w, written, 0, &m.types);
    let imported = put_imports(w, written, &m.imports);
    put_fields::<FunctionField, W>(w, written, imported.functions, &m.functions);
    put_fields::<TableField, W>(w, written, imported.tables, &m.tables);
    put_fields::<MemoryField, W>(w, written, imported.memories, &m.memories);
    put_fields::<GlobalField, W>(w, written, imported.globals, &m.globals);
    put_each::<ExportField, W>(w, written, &m.exports);
    put_start(w, written, m.start);
    put_each::<ElementField, W>(w, written, &m.elements);
    put_each::<SegmentField, W>(w, written, &m.segments);
}

// Returns the text after the fields of a module.
fn ending(m: &Module) -> &'static [u8]
    ensures { result.now ≡ last_line (field_words (value_of m.now)) ++ codes ")\n" }
{
    if is_empty(m) { b")\n" } else { b"\n)\n" }
}

// Whether a module has no fields.
fn is_empty(m: &Module) -> bool
    ensures { result ≡ is_empty_module (value_of m.now) }
{
    m.types.is_empty()
        && m.imports.is_empty()
        && m.functions.is_empty()
        && m.tables.is_empty()
        && m.memories.is_empty()
        && m.globals.is_empty()
        && m.exports.is_empty()
        && m.start.is_none()
        && m.elements.is_empty()
        && m.segments.is_empty()
}
