//! Writes sections (Core spec 5.5.2).

ghost use Rattle.std.specs.Prelude.{◌≡◌, ◌<◌, ◌^◌, ◌∷◌, length};
ghost use Rattle.wm_syntax.specs.Modules.{bodies_name_segment};
ghost use Rattle.wm_write.specs.Canon.{code_bytes, data_count_section, list_section, listed, start_section};
ghost use Rattle.wm_write.specs.Canon.{u32_bytes};
ghost use Rattle.wm_write.specs.exact.Writing.{Sent};

use crate::encode::code::put_codes;
use crate::encode::spell::{number, one};
use crate::put::{Part, put_bytes, put_list};
use wm_syntax::io::Dest;
use wm_syntax::modules::{Function, Segment};

/// Writes the section of a list, unless the list is empty. `size` is the length of the section's contents, in bytes.
pub(crate) fn put_section<P: Part, W: Dest>(
    w: &mut W,
    written: &mut u64,
    id: u8,
    size: u64,
    values: &[P::Value],
)
    requires { size ≡ length (listed P.bytes values.now) }
    ensures { Sent (list_section id P.bytes values.now) (W.has_failed w.old, W.contents w.old, written.old)
        (W.has_failed w.new, W.contents w.new, written.new) }
{
    if values.is_empty() {
        return;
    }
    put_head(w, written, id, size);
    put_list::<P, W>(w, written, values);
}

/// Writes the code section, unless there are no functions. Core spec 5.5.13.
pub(crate) fn put_code_section<W: Dest>(
    w: &mut W,
    written: &mut u64,
    size: u64,
    functions: &[Function],
)
    requires size { size ≡ length (listed code_bytes functions.now) }
    requires few { size < 2 ^ 32 }
    ensures { Sent (list_section 10 code_bytes functions.now)
        (W.has_failed w.old, W.contents w.old, written.old)
        (W.has_failed w.new, W.contents w.new, written.new) }
{
    if functions.is_empty() {
        return;
    }
    put_head(w, written, 10, size);
    put_codes(w, written, functions);
}

/// Writes the start section, unless there is no start function. Core spec 5.5.11.
pub(crate) fn put_start_section<W: Dest>(w: &mut W, written: &mut u64, start: Option<u32>)
    ensures { Sent (start_section start) (W.has_failed w.old, W.contents w.old, written.old)
        (W.has_failed w.new, W.contents w.new, written.new) }
{
    let Some(index) = start else {
        return;
    };
    let index = number(u64::from(index));
    put_head(w, written, 8, index.as_slice().len() as u64);
    put_bytes(w, written, index.as_slice());
}

/// Writes the data count section, if a body names one of the data segments. WebAssembly 2.0, 5.5.15 and 5.5.16.
pub(crate) fn put_data_count_section<W: Dest>(
    w: &mut W,
    written: &mut u64,
    functions: &[Function],
    segments: &[Segment],
)
    ensures { Sent (data_count_section (bodies_name_segment functions.now) (length segments.now))
        (W.has_failed w.old, W.contents w.old, written.old)
        (W.has_failed w.new, W.contents w.new, written.new) }
{
    if !name_segment(functions) {
        return;
    }
    let count = number(segments.len() as u64);
    put_head(w, written, 12, count.as_slice().len() as u64);
    put_bytes(w, written, count.as_slice());
}

/// Whether the body of a function names a data segment. It was found while the body was built.
pub(crate) fn name_segment(functions: &[Function]) -> bool
    ensures { result ≡ bodies_name_segment functions.now }
{
    functions
        .iter()
        .any(|function| function.body.names_segment())
}

// Writes a section header: the id and the size of the contents.
fn put_head<W: Dest>(w: &mut W, written: &mut u64, id: u8, size: u64)
    ensures { Sent (id ∷ u32_bytes size) (W.has_failed w.old, W.contents w.old, written.old)
        (W.has_failed w.new, W.contents w.new, written.new) }
{
    let mut chunk = one(id);
    chunk.push_unsigned(size, 5);
    put_bytes(w, written, chunk.as_slice());
}
