//! The reasons why an input is refused.

ghost use Rattle.std.specs.Prelude.{◌≡◌};
ghost use Rattle.wm_syntax.specs.Refusals.{name_of};
ghost use Rattle.wm_syntax.specs.declared.why.Why.TheVariants.{Memory};

use std::alloc::{AllocError, AllocFailed};
use std::error::Error;
use std::fmt;

/// The reason why an input is refused.
#[derive(Clone, Copy, PartialEq, Eq, Debug)]
pub enum Why {
    /// One of the first four bytes differs from the magic.
    Magic,
    /// One of the next four bytes differs from the version.
    Version,
    /// No section of the profile has this id.
    SectionId,
    /// A section that is not custom comes twice, or after a section that must follow it.
    SectionOrder,
    /// A section's size and its contents do not agree.
    SectionEnd,
    /// No number begins with these bytes.
    BadNumber,
    /// A name is not UTF-8.
    BadUtf8,
    /// Another byte is required here.
    BadByte,
    /// A float type or a float instruction, under a profile without floats.
    Float,
    /// No instruction of the profile begins with this byte.
    BadOpcode,
    /// The input ends inside the header or a section.
    Truncated,
    /// The number of code entries differs from the number of declared functions.
    CodeCount,
    /// The data count section gives another number than that of the data segments.
    DataCount,
    /// A code entry's size and its contents do not agree.
    BodyEnd,
    /// A function declares 2^32 locals or more.
    TooManyLocals,
    /// An index that refers to nothing.
    Index,
    /// An operand, a label or a constant has another type, or an `if` with a result has no `else`. Printed as
    /// `Type`.
    Mismatch,
    /// Too many results, a missing operand, or operands left at an `else` or `end`. Also a constant
    /// expression that is not one instruction.
    Arity,
    /// The limits of a table or a memory are out of range.
    Limits,
    /// A second table or memory.
    Second,
    /// Two exports have the same name.
    DuplicateExport,
    /// The start function has a parameter or a result.
    StartType,
    /// An instruction that is not allowed in a constant expression.
    NotConst,
    /// An immutable global is set.
    Immutable,
    /// An alignment above the width of the access.
    Align,
    /// An `else` outside the first branch of an `if`.
    ElsePlace,
    /// The input is longer than the limit.
    TooLong,
    /// Memory was refused.
    Memory,
    /// More functions than the policy allows.
    ManyFunctions,
    /// A function declares more locals than the policy allows.
    ManyLocals,
    /// More blocks, loops and ifs are open at once than the policy allows.
    Deep,
}

impl Why {
    /// Returns the printed name of the refusal.
    pub fn name(self) -> &'static str
        ensures { result.now ≡ name_of self }
    {
        match self {
            Why::Magic => "Magic",
            Why::Version => "Version",
            Why::SectionId => "SectionId",
            Why::SectionOrder => "SectionOrder",
            Why::SectionEnd => "SectionEnd",
            Why::BadNumber => "BadNumber",
            Why::BadUtf8 => "BadUtf8",
            Why::BadByte => "BadByte",
            Why::Float => "Float",
            Why::BadOpcode => "BadOpcode",
            Why::Truncated => "Truncated",
            Why::CodeCount => "CodeCount",
            Why::DataCount => "DataCount",
            Why::BodyEnd => "BodyEnd",
            Why::TooManyLocals => "TooManyLocals",
            Why::Index => "Index",
            Why::Mismatch => "Type",
            Why::Arity => "Arity",
            Why::Limits => "Limits",
            Why::Second => "Second",
            Why::DuplicateExport => "DuplicateExport",
            Why::StartType => "StartType",
            Why::NotConst => "NotConst",
            Why::Immutable => "Immutable",
            Why::Align => "Align",
            Why::ElsePlace => "ElsePlace",
            Why::TooLong => "TooLong",
            Why::Memory => "Memory",
            Why::ManyFunctions => "ManyFunctions",
            Why::ManyLocals => "ManyLocals",
            Why::Deep => "Deep",
        }
    }
}

impl Why {
    /// Returns one sentence on the fault, without a full stop.
    fn sentence(self) -> &'static str {
        match self {
            Why::Magic => "a module begins with the bytes 00 61 73 6D",
            Why::Version => "the version must be 1, the bytes 01 00 00 00",
            Why::SectionId => "a section's id is above 11",
            Why::SectionOrder => "a section appears twice, or after one that must follow it",
            Why::SectionEnd => "a section's contents do not fill its size exactly",
            Why::BadNumber => "a number has too many bytes, or does not fit its type",
            Why::BadUtf8 => "a name is not UTF-8",
            Why::BadByte => "another byte must stand here",
            Why::Float => "the profile has no floating-point types and instructions",
            Why::BadOpcode => "no instruction of the profile begins with this byte",
            Why::Truncated => "the input ends inside the header or a section",
            Why::CodeCount => "there are not as many function bodies as declared functions",
            Why::DataCount => "the data count section does not give the number of data segments",
            Why::BodyEnd => "a function body does not fill its size exactly",
            Why::TooManyLocals => "a function declares 2^32 locals or more",
            Why::Index => "an index names nothing",
            Why::Mismatch => "a value, a label or a constant has the wrong type",
            Why::Arity => "there are too few or too many values",
            Why::Limits => "the limits of a table or a memory are out of range",
            Why::Second => "a module has at most one table and one memory",
            Why::DuplicateExport => "two exports have the same name",
            Why::StartType => "the start function has a parameter or a result",
            Why::NotConst => "a constant expression cannot hold this instruction",
            Why::Immutable => "a global that cannot change is set",
            Why::Align => "an alignment is above the width of the access",
            Why::ElsePlace => "an else stands outside the first branch of an if",
            Why::TooLong => "the input is longer than the limit",
            Why::Memory => "memory ran out",
            Why::ManyFunctions => "there are more functions than the policy allows",
            Why::ManyLocals => "a function declares more locals than the policy allows",
            Why::Deep => "more blocks are open at once than the policy allows",
        }
    }
}

impl fmt::Display for Why {
    fn fmt<W: fmt::Write>(&self, f: &mut fmt::Formatter<W>) -> fmt::Result {
        f.write_str(self.sentence())
    }
}

impl Error for Why {}

impl From<AllocError> for Why {
    ghost from_gives = { λ _ why. why ≡ Memory };

    fn from(_error: AllocError) -> Self {
        Why::Memory
    }
}

impl<T: Drop> From<AllocFailed<T>> for Why {
    ghost from_gives = { λ _ why. why ≡ Memory };

    fn from(_error: AllocFailed<T>) -> Self {
        Why::Memory
    }
}
