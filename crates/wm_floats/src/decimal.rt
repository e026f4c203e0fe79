//! The float nearest to a decimal numeral (Core spec 4.3.3).

ghost use Rattle.std.specs.Prelude.{◌≡◌, ℕ, ◌*◌, ◌^◌, MatchOption};
ghost use Rattle.core.specs.Dec2flt.Rounding.{IsNearestBits};
ghost use Rattle.fast_float.specs.Text.{scan, digits_of, tens_up, tens_down};
ghost use Rattle.wm_floats.specs.Nearest.{IsNearest};
ghost use Rattle.wm_floats.specs.inner.Kit.{format_of};

use crate::widths::infinity_bits;
use fast_float::Numeral;
use wm_syntax::instructions::FloatType;

// The bits of the nearest float, or those of infinity.
fn nearest_bits(width: FloatType, text: &[u8]) -> u64
    ensures { IsNearestBits (format_of width) (digits_of (scan text.now) * 10 ^ tens_up (scan text.now))
        (10 ^ tens_down (scan text.now)) result }
{
    let numeral = Numeral::scan(text);
    match width {
        FloatType::F32 => {
            let x: f32 = numeral.to_float(false);
            u64::from(x.to_bits())
        }
        FloatType::F64 => {
            let x: f64 = numeral.to_float(false);
            x.to_bits()
        }
    }
}

/// Returns the bits of the float nearest to a decimal numeral, or `None` if that is no finite float.
pub fn nearest_decimal(width: FloatType, text: &[u8]) -> Option<u64>
    ensures { MatchOption result
        ((b : ℕ) → IsNearest width (digits_of (scan text.now) * 10 ^ tens_up (scan text.now))
        (10 ^ tens_down (scan text.now)) b → ⊥)
        (λ b. IsNearest width (digits_of (scan text.now) * 10 ^ tens_up (scan text.now))
        (10 ^ tens_down (scan text.now)) b) }
{
    let bits = nearest_bits(width, text);
    if bits < infinity_bits(width) {
        Some(bits)
    } else {
        None
    }
}
