//! The part of the format that comes next, in a state of the decoder state machine.

ghost use Rattle.std.specs.Prelude.{◌≡◌};
ghost use Rattle.wm_decode.specs.exact.Awaited.{awaits_in_entry, awaits_in_export, awaits_in_expression};
ghost use Rattle.wm_decode.specs.exact.Awaited.{awaits_in_global_type, awaits_in_import, awaits_in_limits};
ghost use Rattle.wm_decode.specs.exact.Awaited.{awaits_in_member, awaits_in_op, awaits_in_run};
ghost use Rattle.wm_decode.specs.exact.Awaited.{awaits_in_custom, awaits_in_table_type, awaits_in_value};

use wm_machine::machine::InCustom;
use wm_machine::machine::member::{InEntry, InMember};
use wm_machine::step::expressions::InExpression;
use wm_machine::step::ops::InOp;
use wm_machine::step::values::{
    InExportDesc, InGlobalType, InImportDesc, InLimits, InRun, InTableType, InValue,
};

/// The part of the format that a byte of a section belongs to.
#[derive(Clone, Copy, PartialEq, Eq, Debug)]
pub enum Awaits {
    /// A number in LEB128: a size, a count, an index or an immediate. Core spec 5.2.2.
    Number,
    /// A byte of a name. Core spec 5.2.4.
    Name,
    /// A value type. Core spec 5.3.1.
    ValueType,
    /// A block type. Core spec 5.3.2.
    BlockType,
    /// The byte 60 that begins a function type. Core spec 5.3.3.
    TypeForm,
    /// The flag of limits. Core spec 5.3.4.
    LimitsFlag,
    /// The element type of a table. Core spec 5.3.6.
    ElementType,
    /// The mutability of a global. Core spec 5.3.7.
    Mutability,
    /// The first byte of an instruction. Core spec 5.4.
    Opcode,
    /// A table index, which is 0: of a `call_indirect` (Core spec 5.4.1), a `table.init` or a `table.copy` (WebAssembly
    /// 2.0, 5.4.5).
    TableByte,
    /// The number behind the byte FC of an instruction: its first byte. WebAssembly 2.0, 5.4.
    OpcodeNumber,
    /// A byte 00 of a memory instruction. Core spec 5.4.4, WebAssembly 2.0 5.4.6.
    MemoryByte,
    /// The kind of an import or an export (Core spec 5.5.5, 5.5.10), or of the elements of a segment (WebAssembly 2.0,
    /// 5.5.12).
    Kind,
    /// Any byte: of a float constant, of a data segment, or after the name of a custom section.
    Any,
}

fn in_limits(at: InLimits) -> Awaits
    ensures { result ≡ awaits_in_limits at }
{
    match at {
        InLimits::Flag => Awaits::LimitsFlag,
        InLimits::Min { .. } | InLimits::Max { .. } => Awaits::Number,
    }
}

fn in_table_type(at: InTableType) -> Awaits
    ensures { result ≡ awaits_in_table_type at }
{
    match at {
        InTableType::ElementType => Awaits::ElementType,
        InTableType::Limits(at) => in_limits(at),
    }
}

fn in_global_type(at: InGlobalType) -> Awaits
    ensures { result ≡ awaits_in_global_type at }
{
    match at {
        InGlobalType::Type => Awaits::ValueType,
        InGlobalType::Var(_) => Awaits::Mutability,
    }
}

fn in_import(at: InImportDesc) -> Awaits
    ensures { result ≡ awaits_in_import at }
{
    match at {
        InImportDesc::Kind => Awaits::Kind,
        InImportDesc::Func(_) => Awaits::Number,
        InImportDesc::Table(at) => in_table_type(at),
        InImportDesc::Memory(at) => in_limits(at),
        InImportDesc::Global(at) => in_global_type(at),
    }
}

fn in_export(at: InExportDesc) -> Awaits
    ensures { result ≡ awaits_in_export at }
{
    match at {
        InExportDesc::Kind => Awaits::Kind,
        InExportDesc::Index { .. } => Awaits::Number,
    }
}

fn in_value(at: InValue) -> Awaits
    ensures { result ≡ awaits_in_value at }
{
    match at {
        InValue::Import(at) => in_import(at),
        InValue::Table(at) => in_table_type(at),
        InValue::Memory(at) => in_limits(at),
        InValue::Export(at) => in_export(at),
    }
}

fn in_op(at: InOp) -> Awaits
    ensures { result ≡ awaits_in_op at }
{
    match at {
        InOp::First => Awaits::Opcode,
        InOp::Code => Awaits::OpcodeNumber,
        InOp::BlockType(_) => Awaits::BlockType,
        InOp::Table { .. } => Awaits::TableByte,
        InOp::FirstZero | InOp::Memory(_) | InOp::InitMemory(_) => Awaits::MemoryByte,
        InOp::Float32 { .. } | InOp::Float64 { .. } => Awaits::Any,
        InOp::Padding { .. } | InOp::Index { .. } | InOp::CallType(_) => Awaits::Number,
        InOp::InitSegment(_) | InOp::InitElement(_) => Awaits::Number,
        InOp::Const32(_) | InOp::Const64(_) => Awaits::Number,
        InOp::Align { .. } | InOp::Offset { .. } => Awaits::Number,
    }
}

fn in_expression(at: InExpression) -> Awaits
    ensures { result ≡ awaits_in_expression at }
{
    match at {
        InExpression::Op { depth: _, at } => in_op(at),
        InExpression::Label { .. } => Awaits::Number,
        InExpression::Over | InExpression::Failed(_) => Awaits::Any,
    }
}

fn in_run(at: InRun) -> Awaits
    ensures { result ≡ awaits_in_run at }
{
    match at {
        InRun::Count(_) => Awaits::Number,
        InRun::Type { .. } => Awaits::ValueType,
    }
}

fn in_entry(at: InEntry) -> Awaits
    ensures { result ≡ awaits_in_entry at }
{
    match at {
        InEntry::RunCount(_) => Awaits::Number,
        InEntry::Run { more: _, at } => in_run(at),
        InEntry::Body(at) => in_expression(at),
        InEntry::Over | InEntry::Failed(_) => Awaits::Any,
    }
}

/// Returns the part that comes next inside a member of a section.
pub(crate) fn in_member(at: InMember) -> Awaits
    ensures { result ≡ awaits_in_member at }
{
    match at {
        InMember::TypeForm => Awaits::TypeForm,
        InMember::ParamCount(_) | InMember::ResultCount(_) => Awaits::Number,
        InMember::Param { .. } | InMember::ResultType { .. } => Awaits::ValueType,
        InMember::Name { .. } => Awaits::Name,
        InMember::Value(at) => in_value(at),
        InMember::NameLength { .. } | InMember::Index { .. } | InMember::SegmentStart { .. } =>
            Awaits::Number,
        InMember::ElementKind => Awaits::Kind,
        InMember::GlobalType(at) => in_global_type(at),
        InMember::Constant { of: _, at } => in_expression(at),
        InMember::Length { .. } | InMember::EntrySize(_) => Awaits::Number,
        InMember::Entry { more: _, at } => in_entry(at),
        InMember::Data { .. } | InMember::Over | InMember::Failed(_) => Awaits::Any,
    }
}

/// Returns the part that comes next inside a custom section.
pub(crate) fn in_custom(part: InCustom) -> Awaits
    ensures { result ≡ awaits_in_custom part }
{
    match part {
        InCustom::Length(_) => Awaits::Number,
        InCustom::Name { .. } => Awaits::Name,
        InCustom::Skip | InCustom::Failed(_) => Awaits::Any,
    }
}
