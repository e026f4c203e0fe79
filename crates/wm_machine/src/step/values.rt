//! Readers of values, one byte at a time: limits, types of tables and globals, import and export descriptors, runs.

ghost use Rattle.std.specs.Prelude.{◌≡◌};
ghost use Rattle.wm_machine.specs.exact.ValueSteps.{desc_push, global_type_push, limits_push, run_push};
ghost use Rattle.wm_machine.specs.exact.ValueSteps.{table_type_push, target_push, type_under, value_push};
ghost use Rattle.wm_machine.specs.exact.ValueSteps.{value_type_of};

use crate::machine::Plain;
use crate::step::reading::Reading::{self, Bad, Done, More};
use crate::step::reading::{number_reading, part_reading};
use wm_syntax::modules::{ExportKind, ImportDesc};
use wm_syntax::numbers::{Num32, Step};
use wm_syntax::profile::Profile;
use wm_syntax::types::{GlobalType, Limits, ValType};
use wm_syntax::why::Why;

/// Parser state inside limits. Core spec 5.3.4.
#[derive(Clone, Copy)]
pub enum InLimits {
    Flag,
    /// Inside the minimum; a maximum follows if `bounded`.
    Min { bounded: bool, number: Num32 },
    Max { min: u32, number: Num32 },
}

fn limits_byte(at: InLimits, byte: u8) -> Reading<InLimits, Limits>
    ensures { result ≡ limits_push at byte }
{
    match at {
        InLimits::Flag => match byte {
            0x00 | 0x01 => More(InLimits::Min {
                bounded: byte == 0x01,
                number: Num32::new(),
            }),
            _ => Bad(Why::BadByte),
        },
        InLimits::Min {
            bounded,
            mut number,
        } => number_reading!(
            number.push(byte),
            InLimits::Min { bounded, number },
            min => if bounded {
                More(InLimits::Max { min, number: Num32::new() })
            } else {
                Done(Limits { min, max: None })
            }
        ),
        InLimits::Max { min, mut number } => number_reading!(
            number.push(byte),
            InLimits::Max { min, number },
            max => Done(Limits { min, max: Some(max) })
        ),
    }
}

/// Parser state inside a table type. Core spec 5.3.6.
#[derive(Clone, Copy)]
pub enum InTableType {
    ElementType,
    Limits(InLimits),
}

fn table_type_byte(at: InTableType, byte: u8) -> Reading<InTableType, Limits>
    ensures { result ≡ table_type_push at byte }
{
    match at {
        InTableType::ElementType => match byte {
            0x70 => More(InTableType::Limits(InLimits::Flag)),
            _ => Bad(Why::BadByte),
        },
        InTableType::Limits(at) => part_reading!(
            limits_byte(at, byte),
            at => InTableType::Limits(at),
            limits => limits
        ),
    }
}

// Returns the value type, or fails with `Float` if the profile lacks it
#[inline(always)]
fn of_profile(profile: Profile, ty: ValType) -> Result<ValType, Why>
    ensures { result ≡ type_under profile ty }
{
    if profile.has(ty.feature()) {
        Ok(ty)
    } else {
        Err(Why::Float)
    }
}

/// Returns the value type of this byte. Fails with `Float` if the profile lacks the type, and with `BadByte` if no
/// value type has this byte. Core spec 5.3.1.
pub fn value_type(profile: Profile, byte: u8) -> Result<ValType, Why>
    ensures { result ≡ value_type_of profile byte }
{
    match byte {
        0x7F => of_profile(profile, ValType::I32),
        0x7E => of_profile(profile, ValType::I64),
        0x7D => of_profile(profile, ValType::F32),
        0x7C => of_profile(profile, ValType::F64),
        _ => Err(Why::BadByte),
    }
}

/// Parser state inside a global type. Core spec 5.3.7.
#[derive(Clone, Copy)]
pub enum InGlobalType {
    Type,
    Var(ValType),
}

/// Takes a byte of a global type. Fails as `value_type` does, or with `BadByte` for its mutability.
pub(crate) fn global_type_byte(
    profile: Profile,
    at: InGlobalType,
    byte: u8,
) -> Reading<InGlobalType, GlobalType>
    ensures { result ≡ global_type_push profile at byte }
{
    match at {
        InGlobalType::Type => match value_type(profile, byte) {
            Ok(ty) => More(InGlobalType::Var(ty)),
            Err(why) => Bad(why),
        },
        InGlobalType::Var(ty) => match byte {
            0x00 => Done(GlobalType { ty, var: false }),
            0x01 => Done(GlobalType { ty, var: true }),
            _ => Bad(Why::BadByte),
        },
    }
}

/// Parser state inside an import descriptor. Core spec 5.5.5.
#[derive(Clone, Copy)]
pub enum InImportDesc {
    Kind,
    Func(Num32),
    Table(InTableType),
    Memory(InLimits),
    Global(InGlobalType),
}

fn desc_byte(profile: Profile, at: InImportDesc, byte: u8) -> Reading<InImportDesc, ImportDesc>
    ensures { result ≡ desc_push profile at byte }
{
    match at {
        InImportDesc::Kind => match byte {
            0x00 => More(InImportDesc::Func(Num32::new())),
            0x01 => More(InImportDesc::Table(InTableType::ElementType)),
            0x02 => More(InImportDesc::Memory(InLimits::Flag)),
            0x03 => More(InImportDesc::Global(InGlobalType::Type)),
            _ => Bad(Why::BadByte),
        },
        InImportDesc::Func(mut number) => number_reading!(
            number.push(byte),
            InImportDesc::Func(number),
            index => Done(ImportDesc::Func(index))
        ),
        InImportDesc::Table(at) => part_reading!(
            table_type_byte(at, byte),
            at => InImportDesc::Table(at),
            limits => ImportDesc::Table(limits)
        ),
        InImportDesc::Memory(at) => part_reading!(
            limits_byte(at, byte),
            at => InImportDesc::Memory(at),
            limits => ImportDesc::Memory(limits)
        ),
        InImportDesc::Global(at) => part_reading!(
            global_type_byte(profile, at, byte),
            at => InImportDesc::Global(at),
            ty => ImportDesc::Global(ty)
        ),
    }
}

/// Parser state inside an export descriptor. Core spec 5.5.10.
#[derive(Clone, Copy)]
pub enum InExportDesc {
    Kind,
    Index { kind: ExportKind, number: Num32 },
}

fn target_byte(at: InExportDesc, byte: u8) -> Reading<InExportDesc, (ExportKind, u32)>
    ensures { result ≡ target_push at byte }
{
    let kind = match at {
        InExportDesc::Index { kind, mut number } => {
            return number_reading!(
                number.push(byte),
                InExportDesc::Index { kind, number },
                index => Done((kind, index))
            );
        }
        InExportDesc::Kind => match byte {
            0x00 => ExportKind::Func,
            0x01 => ExportKind::Table,
            0x02 => ExportKind::Memory,
            0x03 => ExportKind::Global,
            _ => return Bad(Why::BadByte),
        },
    };
    More(InExportDesc::Index {
        kind,
        number: Num32::new(),
    })
}

/// Parser state inside a run of locals. Core spec 5.5.13.
#[derive(Clone, Copy)]
pub enum InRun {
    Count(Num32),
    Type { count: u32 },
}

/// Takes a byte of a run of locals. Fails with `BadNumber`, or as `value_type` does.
pub(crate) fn run_byte(profile: Profile, at: InRun, byte: u8) -> Reading<InRun, (u32, ValType)>
    ensures { result ≡ run_push profile at byte }
{
    match at {
        InRun::Count(mut number) => number_reading!(
            number.push(byte),
            InRun::Count(number),
            count => More(InRun::Type { count })
        ),
        InRun::Type { count } => match value_type(profile, byte) {
            Ok(ty) => Done((count, ty)),
            Err(why) => Bad(why),
        },
    }
}

/// Parser state inside the value that ends an import, a table, a memory or an export.
#[derive(Clone, Copy)]
pub enum InValue {
    Import(InImportDesc),
    Table(InTableType),
    Memory(InLimits),
    Export(InExportDesc),
}

/// Takes a byte of such a value. Fails with `BadByte`, `BadNumber` or `Float`.
pub fn value_byte(profile: Profile, at: InValue, byte: u8) -> Reading<InValue, Plain>
    ensures { result ≡ value_push profile at byte }
{
    match at {
        InValue::Import(at) => part_reading!(
            desc_byte(profile, at, byte),
            at => InValue::Import(at),
            desc => Plain::Import(desc)
        ),
        InValue::Table(at) => part_reading!(
            table_type_byte(at, byte),
            at => InValue::Table(at),
            limits => Plain::Table(limits)
        ),
        InValue::Memory(at) => part_reading!(
            limits_byte(at, byte),
            at => InValue::Memory(at),
            limits => Plain::Memory(limits)
        ),
        InValue::Export(at) => part_reading!(
            target_byte(at, byte),
            at => InValue::Export(at),
            (kind, index) => Plain::Export(kind, index)
        ),
    }
}
