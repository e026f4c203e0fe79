//! The items (decoder events) that a decoder passes to its sink.

use wm_syntax::instructions::Op;
use wm_syntax::modules::ExportKind;
use wm_syntax::types::{GlobalType, Limits, ValType};

/// An item (decoder event): a part of a module, passed to the sink once its last byte is read. Names and data bytes
/// are borrowed from the piece that was fed, or from the decoder if a name was split across pieces.
#[derive(Clone, Copy, Debug)]
pub enum Item<'a> {
    /// A function type begins.
    NewType,
    Param(ValType),
    /// The number of results of the function type being read.
    Results(u32),
    Result(ValType),
    ImportModule(&'a [u8]),
    ImportName(&'a [u8]),
    /// An imported function: the index of its type.
    ImportFunc(u32),
    ImportTable(Limits),
    ImportMemory(Limits),
    ImportGlobal(GlobalType),
    /// A function of the module: the index of its type.
    Func(u32),
    Table(Limits),
    Memory(Limits),
    Global(GlobalType),
    /// An op of a constant expression; its closing `end` is one too.
    ConstOp(Op),
    ExportName(&'a [u8]),
    Export(ExportKind, u32),
    /// The index of the start function.
    Start(u32),
    /// An active element segment begins: the index of its table.
    Elem(u32),
    /// A passive element segment begins.
    PassiveElem,
    /// A function index in an element segment.
    ElemFunc(u32),
    /// The number in the data count section.
    DataCount(u32),
    /// A code entry begins.
    Body,
    /// A run of locals: their number and their type.
    Locals(u32, ValType),
    /// An op of a code entry; its closing `end` is one too.
    Op(Op),
    /// An active data segment begins: the index of its memory.
    Segment(u32),
    /// A passive data segment begins.
    PassiveSegment,
    /// The next bytes of a data segment, at least one.
    DataBytes(&'a [u8]),
}
