//! The two widths of floats (Core spec 2.2.3).

ghost use Rattle.std.specs.Prelude.{◌≡◌, ◌+◌, ◌-◌, ◌^◌};
ghost use Rattle.wm_syntax.specs.Floats.{expon, signif};
ghost use Rattle.wm_floats.specs.Nearest.{infinity, least};

use wm_syntax::instructions::FloatType;

/// Returns the number of bits below the exponent's field.
pub fn fraction_bits(width: FloatType) -> u64
    ensures { result ≡ signif width }
{
    match width {
        FloatType::F32 => 23,
        FloatType::F64 => 52,
    }
}

/// Returns the bits of infinity, without a sign.
pub fn infinity_bits(width: FloatType) -> u64
    ensures { result ≡ infinity width }
{
    match width {
        FloatType::F32 => 0x7f80_0000,
        FloatType::F64 => 0x7ff0_0000_0000_0000,
    }
}

/// Returns n for the least float above 0, which is 2^-n.
pub fn lowest(width: FloatType) -> u64
    ensures { result ≡ least width }
{
    match width {
        FloatType::F32 => 149,
        FloatType::F64 => 1074,
    }
}

/// Returns the sign bit.
pub fn sign_bit(width: FloatType) -> u64
    ensures { result ≡ 2 ^ (signif width + expon width) }
{
    match width {
        FloatType::F32 => 0x8000_0000,
        FloatType::F64 => 0x8000_0000_0000_0000,
    }
}

/// Returns the bits of the canonical NaN, without a sign.
pub fn canonical_nan(width: FloatType) -> u64
    ensures { result ≡ infinity width + 2 ^ (signif width - 1) }
{
    match width {
        FloatType::F32 => 0x7fc0_0000,
        FloatType::F64 => 0x7ff8_0000_0000_0000,
    }
}
