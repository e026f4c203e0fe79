//! The refusals of a text: their reasons and offsets.

ghost use Rattle.std.specs.Prelude.{◌≡◌, ◌+◌, ◌≤◌, ◌<◌, IsTrue, length};
ghost use Rattle.wm_tokens.specs.Faults.{text_name_of};
ghost use Rattle.wm_tokens.specs.declared.faults.TextWhy.TheVariants.{Memory};
ghost use Rattle.wm_tokens.specs.inner.Ends.{can_end};

use std::alloc::{AllocError, AllocFailed};
use std::error::Error;
use std::fmt;

/// Why a text is refused.
#[derive(Clone, Copy, Debug, PartialEq, Eq)]
pub enum TextWhy {
    /// The text is not UTF-8.
    NotUtf8,
    /// A character or an atom that is no token, or a control character in a string.
    BadToken,
    /// The text ends inside a block comment.
    OpenComment,
    /// The text ends inside a string.
    OpenString,
    /// An escape of a string that is malformed, or that means no scalar value.
    BadEscape,
    /// Another token is needed here.
    Expected,
    /// A keyword that names no field or no instruction, where one is expected.
    UnknownWord,
    /// A malformed integer, or one out of range.
    BadInteger,
    /// A malformed float, or one beyond the largest of its width.
    BadFloat,
    /// A name that is not UTF-8.
    BadName,
    /// An identifier without a definition.
    UnknownId,
    /// A second definition of an identifier in one index space.
    RepeatedId,
    /// A type use that names no type, or has parameters or results other than those of its type.
    TypeUse,
    /// An import after a function, table, memory or global.
    ImportPlace,
    /// A second start function.
    SecondStart,
    /// A constant expression of a form that is not allowed.
    NotConst,
    /// An alignment that is not a power of two.
    BadAlign,
    /// An identifier after `else` or `end` that is not that of its block.
    LabelEnd,
    /// A function declares 2^32 locals or more.
    TooManyLocals,
    /// A floating-point type or instruction under a profile without floats.
    Float,
    /// Memory ran out.
    Memory,
}

impl TextWhy {
    /// Returns the name as it is printed.
    pub fn name(self) -> &'static str
        ensures { result.now ≡ text_name_of self }
    {
        match self {
            TextWhy::NotUtf8 => "NotUtf8",
            TextWhy::BadToken => "BadToken",
            TextWhy::OpenComment => "OpenComment",
            TextWhy::OpenString => "OpenString",
            TextWhy::BadEscape => "BadEscape",
            TextWhy::Expected => "Expected",
            TextWhy::UnknownWord => "UnknownWord",
            TextWhy::BadInteger => "BadInteger",
            TextWhy::BadFloat => "BadFloat",
            TextWhy::BadName => "BadName",
            TextWhy::UnknownId => "UnknownId",
            TextWhy::RepeatedId => "RepeatedId",
            TextWhy::TypeUse => "TypeUse",
            TextWhy::ImportPlace => "ImportPlace",
            TextWhy::SecondStart => "SecondStart",
            TextWhy::NotConst => "NotConst",
            TextWhy::BadAlign => "BadAlign",
            TextWhy::LabelEnd => "LabelEnd",
            TextWhy::TooManyLocals => "TooManyLocals",
            TextWhy::Float => "Float",
            TextWhy::Memory => "Memory",
        }
    }

    /// Returns the error as a sentence without a full stop.
    fn sentence(self) -> &'static str {
        match self {
            TextWhy::NotUtf8 => "the text is not UTF-8",
            TextWhy::BadToken => "no token can be read here",
            TextWhy::OpenComment => "the text ends inside a block comment",
            TextWhy::OpenString => "the text ends inside a string",
            TextWhy::BadEscape => "a string has a malformed escape",
            TextWhy::Expected => "another token must stand here",
            TextWhy::UnknownWord => "this word names no field or instruction",
            TextWhy::BadInteger => "an integer is malformed or out of range",
            TextWhy::BadFloat => "a float is malformed or out of range",
            TextWhy::BadName => "a name is not UTF-8",
            TextWhy::UnknownId => "an identifier is not defined",
            TextWhy::RepeatedId => "an identifier is defined twice",
            TextWhy::TypeUse => "a type use does not agree with its type",
            TextWhy::ImportPlace => "an import stands after a function, table, memory or global",
            TextWhy::SecondStart => "a module has at most one start function",
            TextWhy::NotConst => "a constant expression cannot hold this instruction",
            TextWhy::BadAlign => "an alignment is not a power of two",
            TextWhy::LabelEnd => "this identifier is not the one of its block",
            TextWhy::TooManyLocals => "a function declares 2^32 locals or more",
            TextWhy::Float => "the profile has no floats",
            TextWhy::Memory => "memory ran out",
        }
    }
}

impl fmt::Display for TextWhy {
    fn fmt<W: fmt::Write>(&self, f: &mut fmt::Formatter<W>) -> fmt::Result {
        f.write_str(self.sentence())
    }
}

impl Error for TextWhy {}

/// A refusal of a text.
#[derive(Clone, Copy, Debug, PartialEq, Eq)]
pub struct TextRefusal {
    /// The number of bytes before the deciding token, or the length of the text if its end decided.
    pub at: usize,
    pub why: TextWhy,
}

impl fmt::Display for TextRefusal {
    fn fmt<W: fmt::Write>(&self, f: &mut fmt::Formatter<W>) -> fmt::Result {
        let TextRefusal { at, why } = self;
        write!(f, "text refused at {at}: {} ({why})", why.name())
    }
}

impl Error for TextRefusal {}

/// The error of a reader of tokens. `left` is the number of bytes from the deciding token to the end of the
/// text.
#[derive(Clone, Copy, Debug, PartialEq, Eq)]
pub struct TextFault {
    pub why: TextWhy,
    pub left: usize,
    /// If nothing is left, another token is needed or memory ran out.
    ghost ended: { left ≡ 0 → IsTrue (can_end why) },
}

impl TextFault {
    /// Memory ran out, at no token.
    pub const MEMORY: TextFault = TextFault {
        why: TextWhy::Memory,
        left: 0,
    };

    /// Returns the refusal with its offset in `text`, the whole text.
    pub fn refusal(self, text: &[u8]) -> TextRefusal
        ensures why { result.why ≡ self.why }
        ensures at { result.at ≤ length text.now }
        ensures left { self.left ≤ length text.now → result.at + self.left ≡ length text.now }
        ensures end { 0 < length text.now → result.at ≡ length text.now → IsTrue (can_end self.why) }
    {
        TextRefusal {
            at: text.len().saturating_sub(self.left),
            why: self.why,
        }
    }
}

impl From<AllocError> for TextFault {
    ghost from_gives = { λ _ e. e.why ≡ Memory };

    fn from(_e: AllocError) -> TextFault {
        TextFault::MEMORY
    }
}

impl<T: Drop> From<AllocFailed<T>> for TextFault {
    ghost from_gives = { λ _ e. e.why ≡ Memory };

    fn from(_e: AllocFailed<T>) -> TextFault {
        TextFault::MEMORY
    }
}
