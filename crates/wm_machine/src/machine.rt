//! The state of the decoder state machine between two bytes, and what one byte completes.

ghost use Rattle.std.specs.Prelude.{◌≡◌, ◌∷◌, []};
ghost use Rattle.wm_machine.specs.Sinks.{items_for};
ghost use Rattle.wm_machine.specs.exact.Runs.{plain_item};
ghost use Rattle.wm_machine.specs.exact.Steps.{counts_in, is_given, no_counts};
ghost use Rattle.wm_machine.specs.exact.Live.{refusal_in_machine};

use crate::item::Item;
use crate::machine::member::{InMember, SectionKind};
use wm_syntax::instructions::Op;
use wm_syntax::modules::{ExportKind, ImportDesc};
use wm_syntax::numbers::Num32;
use wm_syntax::types::{GlobalType, Limits, ValType};
use wm_syntax::why::Why;

pub mod member;

/// The kind of name being read.
#[derive(Clone, Copy)]
pub enum NameKind {
    Custom,
    ImportModule,
    ImportName,
    Export,
}

/// An item that borrows no bytes of the input: neither a name nor data bytes.
#[derive(Clone, Copy)]
pub enum Plain {
    NewType,
    Param(ValType),
    ResultCount(u32),
    OneResult(ValType),
    Import(ImportDesc),
    Function(u32),
    Table(Limits),
    Memory(Limits),
    Global(GlobalType),
    ConstOp(Op),
    Export(ExportKind, u32),
    Start(u32),
    Element(u32),
    PassiveElement,
    ElementFunction(u32),
    DataCount(u32),
    Body,
    Locals(u32, ValType),
    BodyOp(Op),
    Segment(u32),
    PassiveSegment,
}

#[inline(always)]
fn import(desc: ImportDesc) -> Item<'static>
    ensures { items_for result ≡ plain_item (Plain.Import desc) ∷ [] }
{
    match desc {
        ImportDesc::Func(index) => Item::ImportFunc(index),
        ImportDesc::Table(limits) => Item::ImportTable(limits),
        ImportDesc::Memory(limits) => Item::ImportMemory(limits),
        ImportDesc::Global(ty) => Item::ImportGlobal(ty),
    }
}

impl Plain {
    /// Returns the `Item` to pass to a sink.
    #[inline(always)]
    pub fn item(self) -> Item<'static>
        ensures { items_for result ≡ plain_item self ∷ [] }
    {
        match self {
            Plain::NewType => Item::NewType,
            Plain::Param(ty) => Item::Param(ty),
            Plain::ResultCount(n) => Item::Results(n),
            Plain::OneResult(ty) => Item::Result(ty),
            Plain::Import(desc) => import(desc),
            Plain::Function(index) => Item::Func(index),
            Plain::Table(limits) => Item::Table(limits),
            Plain::Memory(limits) => Item::Memory(limits),
            Plain::Global(ty) => Item::Global(ty),
            Plain::ConstOp(op) => Item::ConstOp(op),
            Plain::Export(kind, index) => Item::Export(kind, index),
            Plain::Start(index) => Item::Start(index),
            Plain::Element(index) => Item::Elem(index),
            Plain::PassiveElement => Item::PassiveElem,
            Plain::ElementFunction(index) => Item::ElemFunc(index),
            Plain::DataCount(n) => Item::DataCount(n),
            Plain::Body => Item::Body,
            Plain::Locals(count, ty) => Item::Locals(count, ty),
            Plain::BodyOp(op) => Item::Op(op),
            Plain::Segment(index) => Item::Segment(index),
            Plain::PassiveSegment => Item::PassiveSegment,
        }
    }
}

/// Parser state inside a custom section. Core spec 5.5.3.
#[derive(Clone, Copy)]
pub enum InCustom {
    Length(Num32),
    /// Inside the name; `more` bytes of it follow the next byte.
    Name { more: u32 },
    /// After the name, where any bytes may follow.
    Skip,
    /// The byte was refused; the same step turns this state into `Machine::Refused`.
    Failed(Why),
}

/// The counts that a machine retains of the sections so far.
#[derive(Clone, Copy)]
pub struct Counts {
    /// The number of functions declared, until the count of the code section is read; then 0.
    pub functions: u32,
    /// The number in the data count section, until the count of the data section is read; then `None`.
    pub segments: Option<u32>,
    /// The member count of the last section whose count was read, or 1 after the size of the start section. 0 before
    /// the first, and after the number in the data count section.
    pub members: u32,
}

impl Counts {
    /// Returns the counts before the first section.
    #[inline(always)]
    pub fn none() -> Counts
        ensures { result ≡ no_counts }
    {
        Counts {
            functions: 0,
            segments: None,
            members: 0,
        }
    }

    /// Returns the counts in a section after the number at its front: that of its members, or of all data segments in
    /// the data count section.
    #[inline(always)]
    pub fn in_section(self, of: SectionKind, number: u32) -> Counts
        ensures { result ≡ counts_in of self number }
    {
        let mut counts = Counts {
            members: number,
            ..self
        };
        match of {
            SectionKind::Function => counts.functions = number,
            SectionKind::DataCount => {
                counts.segments = Some(number);
                counts.members = 0;
            }
            SectionKind::Code => counts.functions = 0,
            SectionKind::Segment => counts.segments = None,
            _ => {}
        }
        counts
    }

    /// Whether a data section may have this many members. It must have as many as the data count section gives, if
    /// there is one.
    #[inline(always)]
    pub fn allows_segments(self, members: u32) -> bool
        ensures { result ≡ is_given self.segments members }
    {
        match self.segments {
            Some(segments) => members == segments,
            None => true,
        }
    }
}

/// The state of the decoder state machine between two bytes. It holds all that is retained of the bytes so far, except
/// the bytes of a name that is split across pieces.
///
/// `last` is the rank of the last section that was not custom, or 0. `more` is the number of bytes of the section after
/// the next byte.
#[derive(Clone, Copy)]
pub enum Machine {
    /// Inside the header, after this many bytes of it.
    Header(u8),
    /// Before the id of a section.
    Between {
        last: u8,
        counts: Counts,
    },
    /// Inside the size of a custom section.
    CustomSize {
        last: u8,
        counts: Counts,
        number: Num32,
    },
    Custom {
        last: u8,
        counts: Counts,
        more: u32,
        part: InCustom,
    },
    /// Inside the size of any other section.
    Size {
        of: SectionKind,
        counts: Counts,
        number: Num32,
    },
    /// Inside the number at the front of the section: its member count, or the number in the data count section.
    Count {
        of: SectionKind,
        counts: Counts,
        more: u32,
        number: Num32,
    },
    /// Inside a member of the section; `left` members follow it.
    Section {
        of: SectionKind,
        counts: Counts,
        more: u32,
        left: u32,
        at: InMember,
    },
    Refused(Why),
}

/// Returns the reason if the machine has refused the input.
pub fn refusal_of(machine: Machine) -> Option<Why>
    ensures { result ≡ refusal_in_machine machine }
{
    match machine {
        Machine::Refused(why) => Some(why),
        _ => None,
    }
}

/// The effect of one byte: the item that it completes, or its part in a name or in data.
#[derive(Clone, Copy)]
pub enum Event {
    Nothing,
    Complete(Plain),
    /// The byte belongs to a data segment.
    DataByte,
    /// The byte belongs to a name, and is not its last.
    InName,
    /// The byte is the last of a name.
    EndsName(NameKind),
    /// The byte ends the length 0 of a name.
    EmptyName(NameKind),
}
