//! The table of features after WebAssembly 1.0, a line for each way in which one of them is refused. The table of
//! `docs/LIMITS.md` has these lines as its rows.

ghost use Rattle.std.specs.Prelude.{◌≡◌, Contains, IfSome};
ghost use Rattle.std.specs.Str.Lines.{lines};
ghost use Rattle.wm_syntax.specs.Refusals.{name_of};
ghost use Rattle.wm_refusals.specs.Hints.{hint_line};

use std::fmt;
use wm_decode::Awaits;
use wm_syntax::why::Why;

/// A line has the NAME of the refusal, the section, the awaited part, the bytes, what begins there, the feature and
/// how to avoid it. The first line that fits decides. `any` fits everything, and `value type` a block type too.
pub const OF_FEATURES: &str = "\
    Float | any | any | any | a floating-point type or instruction | floats | use --profile 3, or 4 \
        with sign extension\n\
    BadOpcode | any | opcode | c0 to c4 | a sign-extension instruction | sign-ext | use --features \
        sign-ext, or compile with -mno-sign-ext\n\
    BadOpcode | any | opcode | fc | a saturating conversion, or an instruction on a whole memory or \
        table | nontrapping-fptoint, bulk-memory | use --features nontrapping-fptoint,bulk-memory, or \
        compile with -mcpu=mvp\n\
    BadOpcode | any | opcode number | 00 to 07 | a saturating conversion | nontrapping-fptoint | use --features \
        nontrapping-fptoint, or compile with -mno-nontrapping-fptoint\n\
    BadOpcode | any | opcode number | 08 to 09 | memory.init or data.drop | bulk-memory | use --features \
        bulk-memory, or compile with -mno-bulk-memory\n\
    BadOpcode | any | opcode number | 0a to 0b | memory.copy or memory.fill | bulk-memory-opt | use --features \
        bulk-memory-opt, or compile with -mcpu=mvp\n\
    BadOpcode | any | opcode number | 0c to 0e | table.init, elem.drop or table.copy | bulk-memory | use --features \
        bulk-memory, or compile with -mcpu=mvp\n\
    BadOpcode | any | opcode number | 0f to 11 | table.grow, table.size or table.fill | reference-types | compile with \
        -mno-reference-types\n\
    SectionId | any | any | 0c | a data count section | bulk-memory | use --features bulk-memory, or compile with \
        -mno-bulk-memory\n\
    Index | data | number | 01 to 02 | no such index; if it is the first number of a segment, a later \
        form | bulk-memory | use --features bulk-memory, or compile with -mno-bulk-memory\n\
    Index | element | number | 01 to 02 | no such index; if it is the first number of a segment, a later \
        form | bulk-memory | use --features bulk-memory, or compile with -mcpu=mvp\n\
    Index | element | number | 03 to 07 | no such index; if it is the first number of a segment, a later \
        form | reference-types | compile with -mcpu=mvp\n\
    BadNumber | element | number | 03 to 07 | if it is the first number of a segment, a declarative one or one \
        of expressions | reference-types | compile with -mno-reference-types\n\
    BadByte | code | table byte | 80 | a table index of more than one byte | \
        call-indirect-overlong | use --features call-indirect-overlong, or compile with -mcpu=mvp\n\
    BadByte | code | table byte | 01 to 7f | a table other than the first | reference-types | \
        compile with -mno-reference-types\n\
    BadByte | code | table byte | 81 to ff | a table other than the first | reference-types | \
        compile with -mno-reference-types\n\
    BadNumber | code | table byte | 01 to 7f | a table other than the first | reference-types | \
        compile with -mno-reference-types\n\
    BadNumber | code | table byte | 81 to ff | a table other than the first | reference-types | \
        compile with -mno-reference-types\n\
    BadOpcode | any | opcode | d0 to d2 | an instruction on references | reference-types | compile \
        with -mno-reference-types\n\
    BadOpcode | any | opcode | 25 to 26 | an access to a table | reference-types | compile with \
        -mno-reference-types\n\
    BadOpcode | any | opcode | 1c | a select with its type | reference-types | compile with \
        -mno-reference-types\n\
    BadByte | any | value type | 6f to 70 | a reference type | reference-types | compile with \
        -mno-reference-types\n\
    BadByte | any | element type | 6f | the type externref | reference-types | compile with \
        -mno-reference-types\n\
    Second | table | any | any | a second table | reference-types | compile with \
        -mno-reference-types\n\
    Arity | type | number | any | a function type with several results | multivalue | compile \
        with -mno-multivalue\n\
    BadByte | any | block type | 00 to 3f | a type index as a block type | multivalue | compile with \
        -mno-multivalue\n\
    BadByte | any | block type | 80 to ff | a type index as a block type | multivalue | compile with \
        -mno-multivalue\n\
    BadOpcode | any | opcode | fd | a vector instruction | simd128 | compile with -mno-simd128\n\
    BadByte | any | value type | 7b | the vector type v128 | simd128 | compile with -mno-simd128\n\
    BadOpcode | any | opcode | fe | an atomic instruction | atomics | compile without -pthread\n\
    BadByte | memory | limits flag | 02 to 03 | a shared memory | atomics | compile without -pthread\n\
    BadByte | import | limits flag | 02 to 03 | a shared memory, or a flag that no table has | atomics | \
        compile without -pthread\n\
    BadOpcode | any | opcode | 12 to 13 | a tail call | tail-call | compile with -mno-tail-call\n\
    BadOpcode | any | opcode | 06 to 0a | an instruction on exceptions | exception-handling | \
        compile without -fwasm-exceptions\n\
    BadOpcode | any | opcode | 18 to 19 | an instruction on exceptions | exception-handling | \
        compile without -fwasm-exceptions\n\
    BadOpcode | any | opcode | 1f | an instruction on exceptions | exception-handling | compile \
        without -fwasm-exceptions\n\
    BadByte | any | value type | 69 | the type exnref | exception-handling | compile without \
        -fwasm-exceptions\n\
    BadByte | import | kind | 04 | a tag | exception-handling | compile without -fwasm-exceptions\n\
    BadByte | export | kind | 04 | a tag | exception-handling | compile without -fwasm-exceptions\n\
    SectionId | any | any | 0d | a tag section | exception-handling | compile without \
        -fwasm-exceptions\n\
    Arity | global | number | any | a second instruction in a constant expression | extended-const | \
        compile with -mno-extended-const\n\
    Arity | element | number | any | a second instruction in a constant expression | extended-const \
        | compile with -mno-extended-const\n\
    Arity | data | number | any | a second instruction in a constant expression | extended-const | \
        compile with -mno-extended-const\n\
    NotConst | any | opcode | 6a to 6c | arithmetic in a constant expression | extended-const | \
        compile with -mno-extended-const\n\
    NotConst | any | opcode | 7c to 7e | arithmetic in a constant expression | extended-const | \
        compile with -mno-extended-const\n\
    BadByte | any | limits flag | 04 to 07 | a memory or a table with 64-bit addresses | memory64 | \
        compile with --target=wasm32\n\
    BadByte | code | memory byte | 01 to ff | a memory other than the first | multimemory | compile \
        with -mno-multimemory\n\
    Second | memory | any | any | a second memory | multimemory | compile with -mno-multimemory\n\
    Second | import | any | any | a second table or memory | reference-types, multimemory | compile \
        with -mcpu=mvp\n\
    BadOpcode | any | opcode | 14 to 15 | a call of a function reference | function-references | \
        compile to WebAssembly 1.0\n\
    BadOpcode | any | opcode | d4 to d6 | an instruction on references | function-references | \
        compile to WebAssembly 1.0\n\
    BadByte | any | value type | 63 to 64 | a typed reference | function-references | compile to \
        WebAssembly 1.0\n\
    BadByte | any | element type | 63 to 64 | a typed reference | function-references | compile to \
        WebAssembly 1.0\n\
    BadByte | table | element type | 40 | a table with an initial value | function-references | \
        compile to WebAssembly 1.0\n\
    BadOpcode | any | opcode | fb | an instruction on structs and arrays | gc | compile to \
        WebAssembly 1.0\n\
    BadOpcode | any | opcode | d3 | a comparison of references | gc | compile to WebAssembly 1.0\n\
    BadByte | type | type form | 4e to 50 | a recursive type or a subtype | gc | compile to \
        WebAssembly 1.0\n\
    BadByte | type | type form | 5e to 5f | an array type or a struct type | gc | compile to \
        WebAssembly 1.0\n\
    BadByte | any | value type | 6a to 73 | a reference type | gc | compile to WebAssembly 1.0\n\
    BadByte | any | element type | 6a to 73 | a reference type | gc | compile to WebAssembly 1.0\n\
    Version | any | any | 0a to 0d | a component, not a module | component model | check the core \
        modules inside it";

/// A line of the table, which speaks of refused bytes. In `section`, `awaited` and `bytes`, `any` fits everything.
#[derive(Clone, Copy)]
pub struct Hint<'a> {
    /// The NAME of the refusal.
    pub name: &'a str,
    /// The section that a byte lies in, such as `code`.
    pub section: &'a str,
    /// The part of the format that it belongs to, such as `opcode`.
    pub awaited: &'a str,
    /// The byte, such as `fc`, or the first and the last one, such as `c0 to c4`.
    pub bytes: &'a str,
    /// Names the construct that the byte begins in a later version of the standard.
    pub begins: &'a str,
    /// The features that this needs, with commas between them: the words of `--features`, or else LLVM's.
    pub feature: &'a str,
    /// Says how to admit it, or how to avoid it.
    pub remedy: &'a str,
}

/// The end of the line of detail.
impl fmt::Display for Hint<'_> {
    fn fmt<W: fmt::Write>(&self, f: &mut fmt::Formatter<W>) -> fmt::Result {
        write!(f, "{} ({}); {}", self.begins, self.feature, self.remedy)
    }
}

/// Whether a cell of the table fits this word.
fn fits(cell: &str, word: &str) -> bool {
    cell == "any" || cell == word
}

/// Parses a byte in two hexadecimal digits.
fn byte_of(digits: &str) -> Option<u8> {
    u8::from_str_radix(digits, 16).ok()
}

/// Whether a cell such as `fc` or `c0 to c4` has this byte.
fn has_byte(cell: &str, byte: u8) -> bool {
    if cell == "any" {
        return true;
    }
    let (first, last) = cell.split_once(" to ").unwrap_or((cell, cell));
    match (byte_of(first), byte_of(last)) {
        (Some(first), Some(last)) => first <= byte && byte <= last,
        _ => false,
    }
}

impl<'a> Hint<'a> {
    /// Reads a line of the table. Returns `None` if it has fewer than seven parts.
    pub fn of(line: &'a str) -> Option<Hint<'a>>
        ensures { IfSome result (λ hint. line.now ≡ hint_line hint) }
    {
        let (name, rest) = line.split_once(" | ")?;
        let (section, rest) = rest.split_once(" | ")?;
        let (awaited, rest) = rest.split_once(" | ")?;
        let (bytes, rest) = rest.split_once(" | ")?;
        let (begins, rest) = rest.split_once(" | ")?;
        let (feature, remedy) = rest.split_once(" | ")?;
        Some(Hint {
            name,
            section,
            awaited,
            bytes,
            begins,
            feature,
            remedy,
        })
    }

    /// Whether the line is about this byte in this section and part of the format. A block type may be a value type.
    fn is_for(&self, byte: u8, spot: Option<(u8, Awaits)>) -> bool {
        let (section, awaited) = match spot {
            Some((id, awaits)) => (section_name(id), awaited_name(awaits)),
            None => ("none", "none"),
        };
        fits(self.section, section)
            && (fits(self.awaited, awaited)
                || (self.awaited == "value type" && awaited == "block type"))
            && has_byte(self.bytes, byte)
    }
}

/// Returns the first line of the table for a byte that is refused by this NAME, in this section and part of the format.
/// Returns `None` if the byte begins nothing of a later feature there.
pub fn hint_for(why: Why, byte: u8, spot: Option<(u8, Awaits)>) -> Option<Hint<'static>>
    ensures named { IfSome result (λ hint. hint.name.now ≡ name_of why) }
    ensures line { IfSome result (λ hint. Contains (lines OF_FEATURES.now) (hint_line hint)) }
{
    let name = why.name();
    for line in OF_FEATURES.lines() {
        match Hint::of(line) {
            Some(hint) if hint.name == name && hint.is_for(byte, spot) => return Some(hint),
            _ => {}
        }
    }
    None
}

/// Returns the name of the section with this id. Core spec 5.5.2.
pub fn section_name(id: u8) -> &'static str {
    match id {
        0 => "custom",
        1 => "type",
        2 => "import",
        3 => "function",
        4 => "table",
        5 => "memory",
        6 => "global",
        7 => "export",
        8 => "start",
        9 => "element",
        10 => "code",
        11 => "data",
        12 => "data count",
        _ => "unknown",
    }
}

fn awaited_name(awaits: Awaits) -> &'static str {
    match awaits {
        Awaits::Number => "number",
        Awaits::Name => "name",
        Awaits::ValueType => "value type",
        Awaits::BlockType => "block type",
        Awaits::TypeForm => "type form",
        Awaits::LimitsFlag => "limits flag",
        Awaits::ElementType => "element type",
        Awaits::Mutability => "mutability",
        Awaits::Opcode => "opcode",
        Awaits::OpcodeNumber => "opcode number",
        Awaits::TableByte => "table byte",
        Awaits::MemoryByte => "memory byte",
        Awaits::Kind => "kind",
        Awaits::Any => "byte",
    }
}
