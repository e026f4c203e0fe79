//! Instructions (Core spec 2.4).

ghost use Rattle.std.specs.Prelude.{◌≡◌};
ghost use Rattle.wm_syntax.specs.Instructions.{names_segment};
ghost use Rattle.wm_syntax.specs.Opcodes.{float_type, int_type};

use crate::types::ValType;

pub mod accesses;
pub mod lengths;
pub mod op_class;
pub mod op_names;
pub mod opcodes;
pub mod table;

/// The integer type that an instruction works on.
#[derive(Clone, Copy, PartialEq, Eq, Debug)]
pub enum IntType {
    I32,
    I64,
}

impl IntType {
    /// Returns it as a value type.
    #[inline(always)]
    pub fn ty(self) -> ValType
        ensures { result ≡ int_type self }
    {
        match self {
            IntType::I32 => ValType::I32,
            IntType::I64 => ValType::I64,
        }
    }
}

/// The floating-point type that an instruction works on.
#[derive(Clone, Copy, PartialEq, Eq, Debug)]
pub enum FloatType {
    F32,
    F64,
}

impl FloatType {
    /// Returns it as a value type.
    #[inline(always)]
    pub fn ty(self) -> ValType
        ensures { result ≡ float_type self }
    {
        match self {
            FloatType::F32 => ValType::F32,
            FloatType::F64 => ValType::F64,
        }
    }
}

/// An integer comparison (Core spec 2.4.1).
#[derive(Clone, Copy, PartialEq, Eq, Debug)]
pub enum Comparison {
    Eq,
    Ne,
    LtS,
    LtU,
    GtS,
    GtU,
    LeS,
    LeU,
    GeS,
    GeU,
}

/// An integer operator with one operand (Core spec 2.4.1).
#[derive(Clone, Copy, PartialEq, Eq, Debug)]
pub enum UnaryOp {
    Clz,
    Ctz,
    Popcnt,
}

/// An integer operator with two operands (Core spec 2.4.1).
#[derive(Clone, Copy, PartialEq, Eq, Debug)]
pub enum BinaryOp {
    Add,
    Sub,
    Mul,
    DivS,
    DivU,
    RemS,
    RemU,
    And,
    Or,
    Xor,
    Shl,
    ShrS,
    ShrU,
    Rotl,
    Rotr,
}

/// An operator that sign-extends the low 8, 16 or 32 bits of an integer. WebAssembly 1.0 has none of these.
#[derive(Clone, Copy, PartialEq, Eq, Debug)]
pub enum SignExtension {
    I32From8,
    I32From16,
    I64From8,
    I64From16,
    I64From32,
}

/// A floating-point comparison (Core spec 2.4.1).
#[derive(Clone, Copy, PartialEq, Eq, Debug)]
pub enum FloatComparison {
    Eq,
    Ne,
    Lt,
    Gt,
    Le,
    Ge,
}

/// A floating-point operator with one operand (Core spec 2.4.1).
#[derive(Clone, Copy, PartialEq, Eq, Debug)]
pub enum FloatUnaryOp {
    Abs,
    Neg,
    Ceil,
    Floor,
    Trunc,
    Nearest,
    Sqrt,
}

/// A floating-point operator with two operands (Core spec 2.4.1).
#[derive(Clone, Copy, PartialEq, Eq, Debug)]
pub enum FloatBinaryOp {
    Add,
    Sub,
    Mul,
    Div,
    Min,
    Max,
    Copysign,
}

/// A conversion whose operand or result, or both, is a float (Core spec 2.4.1).
#[derive(Clone, Copy, PartialEq, Eq, Debug)]
pub enum Conversion {
    I32TruncF32S,
    I32TruncF32U,
    I32TruncF64S,
    I32TruncF64U,
    I64TruncF32S,
    I64TruncF32U,
    I64TruncF64S,
    I64TruncF64U,
    F32ConvertI32S,
    F32ConvertI32U,
    F32ConvertI64S,
    F32ConvertI64U,
    F32DemoteF64,
    F64ConvertI32S,
    F64ConvertI32U,
    F64ConvertI64S,
    F64ConvertI64U,
    F64PromoteF32,
    I32ReinterpretF32,
    I64ReinterpretF64,
    F32ReinterpretI32,
    F64ReinterpretI64,
}

/// A truncation of a float to an integer that saturates instead of trapping (WebAssembly 2.0, 2.4.1).
/// WebAssembly 1.0 has none of these.
#[derive(Clone, Copy, PartialEq, Eq, Debug)]
pub enum Saturation {
    I32TruncSatF32S,
    I32TruncSatF32U,
    I32TruncSatF64S,
    I32TruncSatF64U,
    I64TruncSatF32S,
    I64TruncSatF32U,
    I64TruncSatF64S,
    I64TruncSatF64U,
}

/// A numeric instruction other than a constant (Core spec 2.4.1).
#[derive(Clone, Copy, PartialEq, Eq, Debug)]
pub enum Numeric {
    Test(IntType),
    Compare(IntType, Comparison),
    Unary(IntType, UnaryOp),
    Binary(IntType, BinaryOp),
    FloatCompare(FloatType, FloatComparison),
    FloatUnary(FloatType, FloatUnaryOp),
    FloatBinary(FloatType, FloatBinaryOp),
    Convert(Conversion),
    Wrap,
    ExtendS,
    ExtendU,
    SignExtend(SignExtension),
    Saturate(Saturation),
}

/// A load instruction without its memory argument (Core spec 2.4.4).
#[derive(Clone, Copy, PartialEq, Eq, Debug)]
pub enum LoadOp {
    I32Load,
    I64Load,
    F32Load,
    F64Load,
    I32Load8S,
    I32Load8U,
    I32Load16S,
    I32Load16U,
    I64Load8S,
    I64Load8U,
    I64Load16S,
    I64Load16U,
    I64Load32S,
    I64Load32U,
}

/// A store instruction without its memory argument (Core spec 2.4.4).
#[derive(Clone, Copy, PartialEq, Eq, Debug)]
pub enum StoreOp {
    I32Store,
    I64Store,
    F32Store,
    F64Store,
    I32Store8,
    I32Store16,
    I64Store8,
    I64Store16,
    I64Store32,
}

/// The memory argument of a load or a store: its alignment as an exponent of 2, and its offset
/// (Core spec 2.4.4).
#[derive(Clone, Copy, PartialEq, Eq, Debug)]
pub struct MemArg {
    pub align: u32,
    pub offset: u32,
}

/// An instruction that contains no other instruction and no list: all but `block`, `loop`, `if` and
/// `br_table`.
#[derive(Clone, Copy, PartialEq, Eq, Debug)]
pub enum Simple {
    Unreachable,
    Nop,
    Return,
    Drop,
    Select,
    Br(u32),
    BrIf(u32),
    Call(u32),
    CallIndirect(u32),
    LocalGet(u32),
    LocalSet(u32),
    LocalTee(u32),
    GlobalGet(u32),
    GlobalSet(u32),
    MemorySize,
    MemoryGrow,
    /// `memory.copy` and `memory.fill` are of WebAssembly 2.0 (2.4.7).
    MemoryCopy,
    MemoryFill,
    /// `memory.init` and `data.drop` of WebAssembly 2.0 (2.4.7) name a data segment.
    MemoryInit(u32),
    DataDrop(u32),
    /// `table.init` and `elem.drop` of WebAssembly 2.0 (2.4.6) name an element segment. The table of `table.init` is 0.
    TableInit(u32),
    ElemDrop(u32),
    /// `table.copy` of WebAssembly 2.0 (2.4.6), from the table 0 to itself.
    TableCopy,
    I32Const(i32),
    I64Const(i64),
    /// A float is held as its bits.
    F32Const(u32),
    F64Const(u64),
    Load(LoadOp, MemArg),
    Store(StoreOp, MemArg),
    Numeric(Numeric),
}

/// An op: an instruction in the flat form of a body. `else`, `end` and each label of a `br_table` are ops
/// too.
#[derive(Clone, Copy, PartialEq, Eq, Debug)]
pub enum Op {
    Simple(Simple),
    Block(Option<ValType>),
    Loop(Option<ValType>),
    If(Option<ValType>),
    Else,
    End,
    /// How many labels come before the default. Each of them, and then the default, is a `Label`.
    BrTable(u32),
    Label(u32),
}

impl Op {
    /// Whether the op names a data segment (WebAssembly 2.0, 2.4.7).
    #[inline(always)]
    pub fn names_segment(&self) -> bool
        ensures { result ≡ names_segment self.now }
    {
        match self {
            Op::Simple(simple) => matches!(simple, Simple::MemoryInit(_) | Simple::DataDrop(_)),
            _ => false,
        }
    }
}
