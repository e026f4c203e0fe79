//! Computes encoded lengths of constants, limits and import descriptors without encoding them.

ghost use Rattle.std.specs.Prelude.{◌≡◌, ◌≤◌, length};
ghost use Rattle.wm_write.specs.Canon.{constant_bytes, desc_bytes, limits_bytes, offset_bytes};

use wm_syntax::modules::{ImportDesc, SegmentMode};
use wm_syntax::numbers::lengths::{number_len, signed_len};
use wm_syntax::types::{Const, Limits};

/// The encoded length of a constant expression, in bytes. Core spec 5.4.6.
pub(crate) fn constant_len(value: Const) -> u64
    ensures value { result ≡ length (constant_bytes value) }
    ensures short { result ≤ 12 }
{
    match value {
        Const::I32(number) => signed_len(i64::from(number), 5) + 2,
        Const::I64(number) => signed_len(number, 10) + 2,
        Const::F32(_) => 6,
        Const::F64(_) => 10,
        Const::Global(index) => number_len(u64::from(index)) + 2,
    }
}

/// The encoded length of the offset of an active segment, in bytes.
pub(crate) fn offset_len(mode: SegmentMode) -> u64
    ensures value { result ≡ length (offset_bytes mode) }
    ensures short { result ≤ 12 }
{
    match mode {
        SegmentMode::Passive => 0,
        SegmentMode::Active { index: _, offset } => constant_len(offset),
    }
}

/// The encoded length of limits, in bytes. Core spec 5.3.4.
pub(crate) fn limits_len(limits: Limits) -> u64
    ensures value { result ≡ length (limits_bytes limits) }
    ensures short { result ≤ 11 }
{
    match limits.max {
        None => 1 + number_len(u64::from(limits.min)),
        Some(max) => 1 + number_len(u64::from(limits.min)) + number_len(u64::from(max)),
    }
}

/// The encoded length of an import descriptor, in bytes. Core spec 5.5.5.
pub(crate) fn desc_len(desc: ImportDesc) -> u64
    ensures { result ≡ length (desc_bytes desc) }
{
    match desc {
        ImportDesc::Func(index) => 1 + number_len(u64::from(index)),
        ImportDesc::Table(limits) => 2 + limits_len(limits),
        ImportDesc::Memory(limits) => 1 + limits_len(limits),
        ImportDesc::Global(_) => 3,
    }
}
