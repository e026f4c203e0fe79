//! The kinds of sections, and the parser state inside a member of a section.

ghost use Rattle.std.specs.Prelude.{◌≡◌};
ghost use Rattle.wm_machine.specs.exact.Members.{id_of, rank_of, section_kind_of};

use crate::machine::NameKind;
use crate::step::expressions::InExpression;
use crate::step::values::{InGlobalType, InRun, InValue};
use wm_syntax::numbers::Num32;
use wm_syntax::profile::{Feature, Profile};
use wm_syntax::why::Why;

/// The kind of a section that is not custom. The start section counts as one member. Core spec 5.5.2.
#[derive(Clone, Copy)]
pub enum SectionKind {
    Type,
    Import,
    Function,
    Table,
    Memory,
    Global,
    Export,
    Start,
    Element,
    /// WebAssembly 2.0, 5.5.15. It has no members.
    DataCount,
    Code,
    Segment,
}

impl SectionKind {
    /// Returns the rank of the section, from 1 to 12. Sections other than custom ones stand in this order.
    pub fn rank(self) -> u8
        ensures { result ≡ rank_of self }
    {
        match self {
            SectionKind::Type => 1,
            SectionKind::Import => 2,
            SectionKind::Function => 3,
            SectionKind::Table => 4,
            SectionKind::Memory => 5,
            SectionKind::Global => 6,
            SectionKind::Export => 7,
            SectionKind::Start => 8,
            SectionKind::Element => 9,
            SectionKind::DataCount => 10,
            SectionKind::Code => 11,
            SectionKind::Segment => 12,
        }
    }

    /// Returns the id of the section.
    pub fn id(self) -> u8
        ensures { result ≡ id_of self }
    {
        match self {
            SectionKind::DataCount => 12,
            SectionKind::Code => 10,
            SectionKind::Segment => 11,
            _ => self.rank(),
        }
    }

    /// Returns the kind of section with this id, or `None` if the profile has none.
    pub fn of(profile: Profile, id: u8) -> Option<SectionKind>
        ensures { result ≡ section_kind_of profile id }
    {
        match id {
            1 => Some(SectionKind::Type),
            2 => Some(SectionKind::Import),
            3 => Some(SectionKind::Function),
            4 => Some(SectionKind::Table),
            5 => Some(SectionKind::Memory),
            6 => Some(SectionKind::Global),
            7 => Some(SectionKind::Export),
            8 => Some(SectionKind::Start),
            9 => Some(SectionKind::Element),
            10 => Some(SectionKind::Code),
            11 => Some(SectionKind::Segment),
            12 if profile.has(Feature::BulkMemory) => Some(SectionKind::DataCount),
            _ => None,
        }
    }
}

/// The role of the index being read.
#[derive(Clone, Copy)]
pub enum IndexOf {
    /// The type index of a function.
    Function,
    Start,
    /// The table index of an element segment, behind a flag.
    Element,
    /// A function index of an element segment; `more` indices follow it.
    ElementFunction { more: u32 },
    /// The memory index of a data segment, behind a flag.
    Segment,
}

/// The owner of the constant expression being read: a global, an element segment or a data segment.
#[derive(Clone, Copy)]
pub enum ConstantOf {
    Global,
    Element,
    /// An element segment whose table index was behind a flag. Its element kind follows.
    IndexedElement,
    Segment,
}

/// Whether a segment is an element segment or a data segment.
#[derive(Clone, Copy)]
pub enum SegmentKind {
    Element,
    Data,
}

/// The list whose length is being read, the last part of a segment.
#[derive(Clone, Copy)]
pub enum LengthOf {
    Functions,
    Bytes,
}

/// Parser state inside a code entry. Core spec 5.5.13.
#[derive(Clone, Copy)]
pub enum InEntry {
    RunCount(Num32),
    /// Inside a run of locals; `more` runs follow it.
    Run { more: u32, at: InRun },
    Body(InExpression),
    /// The entry is complete.
    Over,
    /// The byte was refused; the same step turns this state into `Machine::Refused`.
    Failed(Why),
}

/// Parser state inside a member of a section. A count excludes the part being read, so any `u32` is a valid count.
#[derive(Clone, Copy)]
pub enum InMember {
    TypeForm,
    ParamCount(Num32),
    Param { more: u32 },
    ResultCount(Num32),
    ResultType { more: u32 },
    NameLength { of: NameKind, number: Num32 },
    /// Inside a name; `more` bytes of it follow the next byte.
    Name { of: NameKind, more: u32 },
    Value(InValue),
    Index { of: IndexOf, number: Num32 },
    /// Inside the number at the front of a segment: the index of its table or memory or, with `Feature::BulkMemory`, a
    /// flag.
    SegmentStart { of: SegmentKind, number: Num32 },
    /// Before the byte 00, the element kind of a segment: functions. WebAssembly 2.0, 5.5.12.
    ElementKind,
    GlobalType(InGlobalType),
    Constant { of: ConstantOf, at: InExpression },
    Length { of: LengthOf, number: Num32 },
    /// Inside the bytes of a data segment; `more` of them follow the next byte.
    Data { more: u32 },
    EntrySize(Num32),
    /// Inside a code entry; `more` bytes of it follow the next byte.
    Entry { more: u32, at: InEntry },
    /// The member is complete.
    Over,
    /// The byte was refused; the same step turns this state into `Machine::Refused`.
    Failed(Why),
}
