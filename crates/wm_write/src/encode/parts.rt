//! Encodes the members of sections (Core spec 5.5).

ghost use Rattle.std.specs.Prelude.{◌≡◌, ◌∷◌, [], length, if◌then◌else◌};
ghost use Rattle.wm_syntax.specs.Modules.{index_of};
ghost use Rattle.wm_write.specs.Canon.{element_bytes, element_kind_bytes, list_section, listed, offset_bytes, segment_bytes};
ghost use Rattle.wm_write.specs.exact.Writing.{Sent, capped};

use crate::batch::Batch;
use crate::encode::lengths::{constant_len, desc_len, limits_len, offset_len};
use crate::encode::sections::put_section;
use crate::encode::spell::{
    instruction_of, one, push_global_type, push_limits, push_op, spell_desc, spell_item,
    spell_start, value_byte,
};
use crate::put::{Counted, Part, list_len, put_bytes, put_list, put_number, put_sized, sized_len};
use wm_syntax::chunk::Chunk;
use wm_syntax::instructions::Op;
use wm_syntax::io::Dest;
use wm_syntax::modules::{Element, Export, Function, GlobalDef, Import, Segment, SegmentMode};
use wm_syntax::numbers::lengths::number_len;
use wm_syntax::types::{Const, FuncType, Limits, ValType};

/// A value type. Core spec 5.3.1.
struct ValueType;

impl Part for ValueType {
    ghost use Rattle.wm_write.specs.Canon.{value_type_bytes};

    type Value = ValType;

    ghost bytes = { value_type_bytes };

    fn put<W: Dest>(w: &mut W, written: &mut u64, ty: &ValType) {
        put_bytes(w, written, one(value_byte(*ty)).as_slice());
    }
}

impl Counted for ValueType {
    fn len(_ty: &ValType) -> u64 {
        1
    }
}

/// An index. Core spec 5.5.1.
struct Index;

impl Part for Index {
    ghost use Rattle.wm_write.specs.Canon.{u32_bytes};

    type Value = u32;

    ghost bytes = { u32_bytes };

    fn put<W: Dest>(w: &mut W, written: &mut u64, index: &u32) {
        put_number(w, written, u64::from(*index));
    }
}

impl Counted for Index {
    fn len(index: &u32) -> u64 {
        number_len(u64::from(*index))
    }
}

/// A constant expression. Core spec 5.4.6.
struct ConstantExpression;

#[tactic(auto, using(crate::proofs::Writes::sent_then))]
impl Part for ConstantExpression {
    ghost use Rattle.wm_write.specs.Canon.{constant_bytes};

    type Value = Const;

    ghost bytes = { constant_bytes };

    fn put<W: Dest>(w: &mut W, written: &mut u64, value: &Const) {
        let mut batch = Batch::new();
        push_op(&mut batch, &Op::Simple(instruction_of(*value)));
        push_op(&mut batch, &Op::End);
        put_bytes(w, written, batch.as_slice());
    }
}

impl Counted for ConstantExpression {
    fn len(value: &Const) -> u64 {
        constant_len(*value)
    }
}

/// A function type. Core spec 5.3.3.
pub(crate) struct TypeEntry;

#[tactic(auto, using(crate::proofs::Writes::sent_byte, crate::proofs::Writes::sent_then))]
impl Part for TypeEntry {
    ghost use Rattle.wm_write.specs.Canon.{signature_bytes};

    type Value = FuncType;

    ghost bytes = { signature_bytes };

    fn put<W: Dest>(w: &mut W, written: &mut u64, ty: &FuncType) {
        put_bytes(w, written, &[0x60]);
        put_list::<ValueType, W>(w, written, &ty.params);
        put_list::<ValueType, W>(w, written, &ty.results);
    }
}

impl Counted for TypeEntry {
    fn len(ty: &FuncType) -> u64 {
        list_len::<ValueType>(&ty.params)
            .saturating_add(list_len::<ValueType>(&ty.results))
            .saturating_add(1)
    }
}

/// An import. Core spec 5.5.5.
pub(crate) struct ImportEntry;

#[tactic(auto, using(crate::proofs::Writes::sent_then))]
impl Part for ImportEntry {
    ghost use Rattle.wm_write.specs.Canon.{import_bytes};

    type Value = Import;

    ghost bytes = { import_bytes };

    fn put<W: Dest>(w: &mut W, written: &mut u64, import: &Import) {
        put_sized(w, written, import.module_name.as_bytes());
        put_sized(w, written, import.item_name.as_bytes());
        put_bytes(w, written, spell_desc(import.desc).as_slice());
    }
}

impl Counted for ImportEntry {
    fn len(import: &Import) -> u64 {
        sized_len(import.module_name.as_bytes())
            .saturating_add(sized_len(import.item_name.as_bytes()))
            .saturating_add(desc_len(import.desc))
    }
}

/// A function in the function section: the index of its type. Core spec 5.5.6.
pub(crate) struct FunctionEntry;

impl Part for FunctionEntry {
    ghost use Rattle.wm_write.specs.Canon.{u32_bytes};

    type Value = Function;

    ghost bytes = { λ f. u32_bytes f.type_index };

    fn put<W: Dest>(w: &mut W, written: &mut u64, function: &Function) {
        put_number(w, written, u64::from(function.type_index));
    }
}

impl Counted for FunctionEntry {
    fn len(function: &Function) -> u64 {
        number_len(u64::from(function.type_index))
    }
}

/// A table. Core spec 5.5.7.
pub(crate) struct TableEntry;

impl Part for TableEntry {
    ghost use Rattle.wm_write.specs.Canon.{table_bytes};

    type Value = Limits;

    ghost bytes = { table_bytes };

    fn put<W: Dest>(w: &mut W, written: &mut u64, limits: &Limits) {
        let mut chunk = one(0x70);
        push_limits(&mut chunk, *limits);
        put_bytes(w, written, chunk.as_slice());
    }
}

impl Counted for TableEntry {
    fn len(limits: &Limits) -> u64 {
        limits_len(*limits) + 1
    }
}

/// A memory. Core spec 5.5.8.
pub(crate) struct MemoryEntry;

impl Part for MemoryEntry {
    ghost use Rattle.wm_write.specs.Canon.{limits_bytes};

    type Value = Limits;

    ghost bytes = { limits_bytes };

    fn put<W: Dest>(w: &mut W, written: &mut u64, limits: &Limits) {
        let mut chunk = Chunk::new();
        push_limits(&mut chunk, *limits);
        put_bytes(w, written, chunk.as_slice());
    }
}

impl Counted for MemoryEntry {
    fn len(limits: &Limits) -> u64 {
        limits_len(*limits)
    }
}

/// A global. Core spec 5.5.9.
pub(crate) struct GlobalEntry;

#[tactic(auto, using(crate::proofs::Writes::sent_then))]
impl Part for GlobalEntry {
    ghost use Rattle.wm_write.specs.Canon.{global_bytes};

    type Value = GlobalDef;

    ghost bytes = { global_bytes };

    fn put<W: Dest>(w: &mut W, written: &mut u64, global: &GlobalDef) {
        let mut chunk = Chunk::new();
        push_global_type(&mut chunk, global.ty);
        put_bytes(w, written, chunk.as_slice());
        ConstantExpression::put(w, written, &global.init);
    }
}

impl Counted for GlobalEntry {
    fn len(global: &GlobalDef) -> u64 {
        ConstantExpression::len(&global.init).saturating_add(2)
    }
}

/// An export. Core spec 5.5.10.
pub(crate) struct ExportEntry;

#[tactic(auto, using(crate::proofs::Writes::sent_then))]
impl Part for ExportEntry {
    ghost use Rattle.wm_write.specs.Canon.{export_bytes};

    type Value = Export;

    ghost bytes = { export_bytes };

    fn put<W: Dest>(w: &mut W, written: &mut u64, export: &Export) {
        put_sized(w, written, export.name.as_bytes());
        put_bytes(w, written, spell_item(export.kind, export.index).as_slice());
    }
}

impl Counted for ExportEntry {
    fn len(export: &Export) -> u64 {
        sized_len(export.name.as_bytes()).saturating_add(number_len(u64::from(export.index)) + 1)
    }
}

/// An element segment without a flag. Core spec 5.5.12.
pub(crate) struct ElementEntry;

impl Part for ElementEntry {
    ghost use Rattle.std.specs.Prelude.{false};
    ghost use Rattle.wm_write.specs.Canon.{element_bytes};

    type Value = Element;

    ghost bytes = { element_bytes false };

    fn put<W: Dest>(w: &mut W, written: &mut u64, element: &Element) {
        put_element(w, written, false, element);
    }
}

impl Counted for ElementEntry {
    fn len(element: &Element) -> u64 {
        element_len(false, element)
    }
}

/// An element segment with a flag. WebAssembly 2.0, 5.5.12.
pub(crate) struct FlaggedElementEntry;

impl Part for FlaggedElementEntry {
    ghost use Rattle.std.specs.Prelude.{true};
    ghost use Rattle.wm_write.specs.Canon.{element_bytes};

    type Value = Element;

    ghost bytes = { element_bytes true };

    fn put<W: Dest>(w: &mut W, written: &mut u64, element: &Element) {
        put_element(w, written, true, element);
    }
}

impl Counted for FlaggedElementEntry {
    fn len(element: &Element) -> u64 {
        element_len(true, element)
    }
}

#[tactic(auto, using(crate::proofs::Writes::sent_then))]
fn put_element<W: Dest>(w: &mut W, written: &mut u64, flagged: bool, element: &Element)
    ensures { Sent (element_bytes flagged element.now) (W.has_failed w.old, W.contents w.old, written.old)
        (W.has_failed w.new, W.contents w.new, written.new) }
{
    put_bytes(w, written, spell_start(flagged, element.mode).as_slice());
    put_offset(w, written, element.mode);
    put_element_kind(w, written, flagged, element.mode);
    put_list::<Index, W>(w, written, &element.functions);
}

fn element_len(flagged: bool, element: &Element) -> u64
    ensures { result ≡ capped (length (element_bytes flagged element.now)) }
{
    let front = spell_start(flagged, element.mode).as_slice().len() as u64;
    list_len::<Index>(&element.functions)
        .saturating_add(u64::from(has_element_kind(flagged, element.mode)))
        .saturating_add(offset_len(element.mode))
        .saturating_add(front)
}

// Whether an element segment has an element kind: a passive one, and with flags one of another table than 0.
fn has_element_kind(flagged: bool, mode: SegmentMode) -> bool
    ensures { element_kind_bytes flagged (index_of mode) ≡ (if result then 0x00 ∷ [] else []) }
{
    match mode {
        SegmentMode::Passive => true,
        SegmentMode::Active { index, offset: _ } => flagged && index != 0,
    }
}

// Writes the element kind of an element segment that has one.
fn put_element_kind<W: Dest>(w: &mut W, written: &mut u64, flagged: bool, mode: SegmentMode)
    ensures { Sent (element_kind_bytes flagged (index_of mode)) (W.has_failed w.old, W.contents w.old, written.old)
        (W.has_failed w.new, W.contents w.new, written.new) }
{
    if has_element_kind(flagged, mode) {
        put_bytes(w, written, b"\0");
    }
}

/// A data segment without a flag. Core spec 5.5.14.
pub(crate) struct SegmentEntry;

impl Part for SegmentEntry {
    ghost use Rattle.std.specs.Prelude.{false};
    ghost use Rattle.wm_write.specs.Canon.{segment_bytes};

    type Value = Segment;

    ghost bytes = { segment_bytes false };

    fn put<W: Dest>(w: &mut W, written: &mut u64, segment: &Segment) {
        put_segment(w, written, false, segment);
    }
}

impl Counted for SegmentEntry {
    fn len(segment: &Segment) -> u64 {
        segment_len(false, segment)
    }
}

/// A data segment with a flag. WebAssembly 2.0, 5.5.14.
pub(crate) struct FlaggedSegmentEntry;

impl Part for FlaggedSegmentEntry {
    ghost use Rattle.std.specs.Prelude.{true};
    ghost use Rattle.wm_write.specs.Canon.{segment_bytes};

    type Value = Segment;

    ghost bytes = { segment_bytes true };

    fn put<W: Dest>(w: &mut W, written: &mut u64, segment: &Segment) {
        put_segment(w, written, true, segment);
    }
}

impl Counted for FlaggedSegmentEntry {
    fn len(segment: &Segment) -> u64 {
        segment_len(true, segment)
    }
}

#[tactic(auto, using(crate::proofs::Writes::sent_then))]
fn put_segment<W: Dest>(w: &mut W, written: &mut u64, flagged: bool, segment: &Segment)
    ensures { Sent (segment_bytes flagged segment.now) (W.has_failed w.old, W.contents w.old, written.old)
        (W.has_failed w.new, W.contents w.new, written.new) }
{
    put_bytes(w, written, spell_start(flagged, segment.mode).as_slice());
    put_offset(w, written, segment.mode);
    put_sized(w, written, &segment.bytes);
}

fn segment_len(flagged: bool, segment: &Segment) -> u64
    ensures { result ≡ capped (length (segment_bytes flagged segment.now)) }
{
    let front = spell_start(flagged, segment.mode).as_slice().len() as u64;
    sized_len(&segment.bytes)
        .saturating_add(offset_len(segment.mode))
        .saturating_add(front)
}

// Writes the offset of an active segment.
fn put_offset<W: Dest>(w: &mut W, written: &mut u64, mode: SegmentMode)
    ensures { Sent (offset_bytes mode) (W.has_failed w.old, W.contents w.old, written.old)
        (W.has_failed w.new, W.contents w.new, written.new) }
{
    match mode {
        SegmentMode::Passive => {}
        SegmentMode::Active { index: _, offset } => ConstantExpression::put(w, written, &offset),
    }
}

/// Writes the element section, unless there are no element segments.
pub(crate) fn put_elements<W: Dest>(
    w: &mut W,
    written: &mut u64,
    flagged: bool,
    size: u64,
    elements: &[Element],
)
    requires { size ≡ length (listed (element_bytes flagged) elements.now) }
    ensures { Sent (list_section 9 (element_bytes flagged) elements.now)
        (W.has_failed w.old, W.contents w.old, written.old)
        (W.has_failed w.new, W.contents w.new, written.new) }
{
    if flagged {
        put_section::<FlaggedElementEntry, W>(w, written, 9, size, elements);
    } else {
        put_section::<ElementEntry, W>(w, written, 9, size, elements);
    }
}

/// The number of bytes of the element section's contents, at most 2^64 - 1.
pub(crate) fn elements_len(flagged: bool, elements: &[Element]) -> u64
    ensures { result ≡ capped (length (listed (element_bytes flagged) elements.now)) }
{
    if flagged {
        list_len::<FlaggedElementEntry>(elements)
    } else {
        list_len::<ElementEntry>(elements)
    }
}

/// Writes the data section, unless there are no data segments.
pub(crate) fn put_segments<W: Dest>(
    w: &mut W,
    written: &mut u64,
    flagged: bool,
    size: u64,
    segments: &[Segment],
)
    requires { size ≡ length (listed (segment_bytes flagged) segments.now) }
    ensures { Sent (list_section 11 (segment_bytes flagged) segments.now)
        (W.has_failed w.old, W.contents w.old, written.old)
        (W.has_failed w.new, W.contents w.new, written.new) }
{
    if flagged {
        put_section::<FlaggedSegmentEntry, W>(w, written, 11, size, segments);
    } else {
        put_section::<SegmentEntry, W>(w, written, 11, size, segments);
    }
}

/// The number of bytes of the data section's contents, at most 2^64 - 1.
pub(crate) fn segments_len(flagged: bool, segments: &[Segment]) -> u64
    ensures { result ≡ capped (length (listed (segment_bytes flagged) segments.now)) }
{
    if flagged {
        list_len::<FlaggedSegmentEntry>(segments)
    } else {
        list_len::<SegmentEntry>(segments)
    }
}
