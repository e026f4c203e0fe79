//! Prints the fields of a module, each on a new line (Core spec 6.6).

ghost use Rattle.std.specs.Prelude.{◌≡◌, ◌++◌, ◌∷◌, ℕ, Bool, IsTrue, List, [], codes, flat_map};
ghost use Rattle.std.specs.List.{enumerate_from, list_all};
ghost use Rattle.wm_write.specs.Layout.{Word, desc_words, field_line, import_field, import_fields};
ghost use Rattle.wm_write.specs.Layout.{item_words, data_mode_words, offset_words, places, start_field};
ghost use Rattle.wm_write.specs.Layout.{element_mode_words, words_text};
ghost use Rattle.wm_write.specs.exact.Printing.{item_front};
ghost use Rattle.wm_write.specs.exact.Writing.{Sent};

use crate::print::body_lines::{put_body, put_const, put_locals};
use crate::print::tokens::{
    put_counted, put_global_type, put_limits, put_string, put_table_type, put_type_use, put_types,
};
use crate::put::{Part, put_bytes, put_each};
use wm_syntax::io::Dest;
use wm_syntax::modules::{
    Element, Export, ExportKind, Function, GlobalDef, Import, ImportDesc, Segment, SegmentMode,
};
use wm_syntax::types::{Const, FuncType, Limits};

/// A kind of field that defines an item. The item's identifier is made from its index.
pub(crate) trait Field {
    type Value;

    // The words of the field for an index and a value.
    ghost words: { ℕ × Self.Value → List Word };

    // Whether a value can be printed.
    ghost is_printable: { Self.Value → Bool };

    /// Writes the field of a value with this index. Nothing more goes out once the writer has failed.
    fn put<W: Dest>(w: &mut W, written: &mut u64, place: u128, value: &Self::Value)
        requires { IsTrue (is_printable value.now) }
        ensures { Sent (words_text (words (place, value.now)))
            (W.has_failed w.old, W.contents w.old, written.old)
            (W.has_failed w.new, W.contents w.new, written.new) };
}

/// Writes a field for each value, with indices from `first` on.
pub(crate) fn put_fields<F: Field, W: Dest>(
    w: &mut W,
    written: &mut u64,
    first: u64,
    values: &[F::Value],
)
    requires { IsTrue (list_all F.is_printable values.now) }
    ensures { Sent (words_text (flat_map F.words (enumerate_from first values.now)))
        (W.has_failed w.old, W.contents w.old, written.old)
        (W.has_failed w.new, W.contents w.new, written.new) }
{
    // A u128, since the sum of `first` and the length may exceed a u64.
    let mut place = u128::from(first);
    for value in values {
        F::put(w, written, place, value);
        place += 1;
    }
}

/// A type.
pub(crate) struct TypeField;

impl Field for TypeField {
    ghost use Rattle.std.specs.Prelude.{true};
    ghost use Rattle.wm_write.specs.Layout.{type_field};

    type Value = FuncType;

    ghost words = { type_field };

    ghost is_printable = { λ _. true };

    fn put<W: Dest>(w: &mut W, written: &mut u64, place: u128, ty: &FuncType) {
        put_counted(w, written, b"\n  (type $t", place);
        put_bytes(w, written, b" (func");
        put_types(w, written, b" (param", &ty.params);
        put_types(w, written, b" (result", &ty.results);
        put_bytes(w, written, b")");
        put_bytes(w, written, b")");
    }
}

/// A function.
pub(crate) struct FunctionField;

impl Field for FunctionField {
    ghost use Rattle.wm_write.specs.Layout.{function_field};
    ghost use Rattle.wm_write.specs.exact.Aligns.{is_function_printable};

    type Value = Function;

    ghost words = { function_field };

    ghost is_printable = { is_function_printable };

    fn put<W: Dest>(w: &mut W, written: &mut u64, place: u128, function: &Function) {
        put_counted(w, written, b"\n  (func $f", place);
        put_type_use(w, written, function.type_index);
        put_locals(w, written, &function.locals);
        put_body(w, written, function.body.ops());
        put_bytes(w, written, b"\n  )");
    }
}

/// A table.
pub(crate) struct TableField;

impl Field for TableField {
    ghost use Rattle.std.specs.Prelude.{true};
    ghost use Rattle.wm_write.specs.Layout.{table_field};

    type Value = Limits;

    ghost words = { table_field };

    ghost is_printable = { λ _. true };

    fn put<W: Dest>(w: &mut W, written: &mut u64, place: u128, limits: &Limits) {
        put_counted(w, written, b"\n  (table $tab", place);
        put_table_type(w, written, *limits);
        put_bytes(w, written, b")");
    }
}

/// A memory.
pub(crate) struct MemoryField;

impl Field for MemoryField {
    ghost use Rattle.std.specs.Prelude.{true};
    ghost use Rattle.wm_write.specs.Layout.{memory_field};

    type Value = Limits;

    ghost words = { memory_field };

    ghost is_printable = { λ _. true };

    fn put<W: Dest>(w: &mut W, written: &mut u64, place: u128, limits: &Limits) {
        put_counted(w, written, b"\n  (memory $mem", place);
        put_limits(w, written, *limits);
        put_bytes(w, written, b")");
    }
}

/// A global.
pub(crate) struct GlobalField;

impl Field for GlobalField {
    ghost use Rattle.std.specs.Prelude.{true};
    ghost use Rattle.wm_write.specs.Layout.{global_field};

    type Value = GlobalDef;

    ghost words = { global_field };

    ghost is_printable = { λ _. true };

    fn put<W: Dest>(w: &mut W, written: &mut u64, place: u128, global: &GlobalDef) {
        put_counted(w, written, b"\n  (global $g", place);
        put_global_type(w, written, global.ty);
        put_const(w, written, global.init);
        put_bytes(w, written, b")");
    }
}

/// The number of imports of each kind.
#[derive(Clone, Copy)]
pub(crate) struct Places {
    pub(crate) functions: u64,
    pub(crate) tables: u64,
    pub(crate) memories: u64,
    pub(crate) globals: u64,
}

impl Places {
    ghost use Rattle.wm_write.specs.exact.Printing.{IsCountable, one_more};

    fn none() -> Places
        ensures { result ≡ places [] }
    {
        Places {
            functions: 0,
            tables: 0,
            memories: 0,
            globals: 0,
        }
    }

    // Counts an import.
    fn count(&mut self, desc: ImportDesc)
        requires { IsCountable self.old }
        ensures { self.new ≡ one_more desc self.old }
    {
        match desc {
            ImportDesc::Func(_) => self.functions += 1,
            ImportDesc::Table(_) => self.tables += 1,
            ImportDesc::Memory(_) => self.memories += 1,
            ImportDesc::Global(_) => self.globals += 1,
        }
    }
}

/// Writes the imports, and returns the number of each kind.
pub(crate) fn put_imports<W: Dest>(w: &mut W, written: &mut u64, imports: &[Import]) -> Places
    ensures sent { Sent (words_text (import_fields [] imports.now))
        (W.has_failed w.old, W.contents w.old, written.old)
        (W.has_failed w.new, W.contents w.new, written.new) }
    ensures places { result ≡ places imports.now }
{
    let mut before = Places::none();
    for import in imports {
        put_import(w, written, before, import);
        before.count(import.desc);
    }
    before
}

// Writes an import, given the number of earlier ones of each kind.
fn put_import<W: Dest>(w: &mut W, written: &mut u64, before: Places, import: &Import)
    ensures { Sent (words_text (import_field before import.now))
        (W.has_failed w.old, W.contents w.old, written.old)
        (W.has_failed w.new, W.contents w.new, written.new) }
{
    put_bytes(w, written, b"\n  (import");
    put_string(w, written, import.module_name.as_bytes());
    put_string(w, written, import.item_name.as_bytes());
    put_desc(w, written, before, import.desc);
    put_bytes(w, written, b")");
}

// Writes an import descriptor.
fn put_desc<W: Dest>(w: &mut W, written: &mut u64, before: Places, desc: ImportDesc)
    ensures { Sent (words_text (desc_words before desc)) (W.has_failed w.old, W.contents w.old, written.old)
        (W.has_failed w.new, W.contents w.new, written.new) }
{
    match desc {
        ImportDesc::Func(index) => {
            put_counted(w, written, b" (func $f", before.functions);
            put_type_use(w, written, index);
            put_bytes(w, written, b")");
        }
        ImportDesc::Table(limits) => {
            put_counted(w, written, b" (table $tab", before.tables);
            put_table_type(w, written, limits);
            put_bytes(w, written, b")");
        }
        ImportDesc::Memory(limits) => {
            put_counted(w, written, b" (memory $mem", before.memories);
            put_limits(w, written, limits);
            put_bytes(w, written, b")");
        }
        ImportDesc::Global(ty) => {
            put_counted(w, written, b" (global $g", before.globals);
            put_global_type(w, written, ty);
            put_bytes(w, written, b")");
        }
    }
}

/// An export.
pub(crate) struct ExportField;

impl Part for ExportField {
    ghost use Rattle.wm_write.specs.Layout.{export_field, words_text};

    type Value = Export;

    ghost bytes = { λ e. words_text (export_field e) };

    fn put<W: Dest>(w: &mut W, written: &mut u64, export: &Export) {
        put_bytes(w, written, b"\n  (export");
        put_string(w, written, export.name.as_bytes());
        put_item(w, written, export.kind, export.index);
        put_bytes(w, written, b")");
    }
}

fn item_front(kind: ExportKind) -> &'static [u8]
    ensures { result.now ≡ item_front kind }
{
    match kind {
        ExportKind::Func => b" (func $f",
        ExportKind::Table => b" (table $tab",
        ExportKind::Memory => b" (memory $mem",
        ExportKind::Global => b" (global $g",
    }
}

// Writes an export descriptor.
fn put_item<W: Dest>(w: &mut W, written: &mut u64, kind: ExportKind, index: u32)
    ensures { Sent (words_text (item_words kind index)) (W.has_failed w.old, W.contents w.old, written.old)
        (W.has_failed w.new, W.contents w.new, written.new) }
{
    put_counted(w, written, item_front(kind), index);
    put_bytes(w, written, b")");
}

/// Writes the start field, if there is a start function.
pub(crate) fn put_start<W: Dest>(w: &mut W, written: &mut u64, start: Option<u32>)
    ensures { Sent (words_text (start_field start)) (W.has_failed w.old, W.contents w.old, written.old)
        (W.has_failed w.new, W.contents w.new, written.new) }
{
    let Some(index) = start else {
        return;
    };
    put_counted(w, written, b"\n  (start $f", index);
    put_bytes(w, written, b")");
}

// Writes the offset of a segment in its table or memory.
fn put_offset<W: Dest>(w: &mut W, written: &mut u64, offset: Const)
    ensures { Sent (words_text (offset_words offset)) (W.has_failed w.old, W.contents w.old, written.old)
        (W.has_failed w.new, W.contents w.new, written.new) }
{
    put_bytes(w, written, b" (offset");
    put_const(w, written, offset);
    put_bytes(w, written, b")");
}

/// The identifier of a function in an element segment.
struct FunctionName;

impl Part for FunctionName {
    ghost use Rattle.wm_write.specs.Layout.{function_name, word_text};

    type Value = u32;

    ghost bytes = { λ x. word_text (function_name x) };

    fn put<W: Dest>(w: &mut W, written: &mut u64, index: &u32) {
        put_counted(w, written, b" $f", *index);
    }
}

// Writes the front of an element segment: the table and the offset of an active one, the element kind of a passive one.
fn put_element_front<W: Dest>(w: &mut W, written: &mut u64, mode: SegmentMode)
    ensures { Sent ((field_line ++ 40 ∷ codes "elem") ++ words_text (element_mode_words mode))
        (W.has_failed w.old, W.contents w.old, written.old)
        (W.has_failed w.new, W.contents w.new, written.new) }
{
    match mode {
        SegmentMode::Passive => put_bytes(w, written, b"\n  (elem func"),
        SegmentMode::Active { index, offset } => {
            put_counted(w, written, b"\n  (elem $tab", index);
            put_offset(w, written, offset);
        }
    }
}

/// An element segment.
pub(crate) struct ElementField;

impl Part for ElementField {
    ghost use Rattle.wm_write.specs.Layout.{element_field, words_text};

    type Value = Element;

    ghost bytes = { λ e. words_text (element_field e) };

    fn put<W: Dest>(w: &mut W, written: &mut u64, element: &Element) {
        put_element_front(w, written, element.mode);
        put_each::<FunctionName, W>(w, written, &element.functions);
        put_bytes(w, written, b")");
    }
}

// Writes the front of a data segment, with the memory and the offset of an active one.
fn put_data_front<W: Dest>(w: &mut W, written: &mut u64, mode: SegmentMode)
    ensures { Sent ((field_line ++ 40 ∷ codes "data") ++ words_text (data_mode_words mode))
        (W.has_failed w.old, W.contents w.old, written.old)
        (W.has_failed w.new, W.contents w.new, written.new) }
{
    match mode {
        SegmentMode::Passive => put_bytes(w, written, b"\n  (data"),
        SegmentMode::Active { index, offset } => {
            put_counted(w, written, b"\n  (data $mem", index);
            put_offset(w, written, offset);
        }
    }
}

/// A data segment.
pub(crate) struct SegmentField;

impl Part for SegmentField {
    ghost use Rattle.wm_write.specs.Layout.{segment_field, words_text};

    type Value = Segment;

    ghost bytes = { λ s. words_text (segment_field s) };

    fn put<W: Dest>(w: &mut W, written: &mut u64, segment: &Segment) {
        put_data_front(w, written, segment.mode);
        put_string(w, written, &segment.bytes);
        put_bytes(w, written, b")");
    }
}
