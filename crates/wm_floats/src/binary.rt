//! The float nearest to a number in binary digits (Core spec 4.3.3).

ghost use Rattle.std.specs.Prelude.{◌≡◌, ℕ, ◌+◌, ◌-◌, ◌*◌, ◌/◌, ◌%◌, ◌^◌, ◌<◌, ◌≤◌, true, min};
ghost use Rattle.std.specs.Prelude.{MatchOption, if◌then◌else◌};
ghost use Rattle.std.specs.Ordering.{MatchOrdering};
ghost use Rattle.core.specs.Dec2flt.Rounding.{IsNearestBits};
ghost use Rattle.wm_syntax.specs.Floats.{signif};
ghost use Rattle.wm_floats.specs.Nearest.{IsBinary, IsNearest, infinity, least};
ghost use Rattle.wm_floats.specs.inner.Kit.{format_of};

use crate::widths::{fraction_bits, infinity_bits, lowest};
use std::cmp::Ordering;
use wm_syntax::instructions::FloatType;

// Drops the lowest `dropped` digits. Returns the other digits, and how the dropped part compares to half a
// unit of the last digit kept.
fn cut(digits: u64, dropped: u64) -> (u64, Ordering)
    requires { 0 < dropped }
    ensures kept { result.0 ≡ digits / 2 ^ dropped }
    ensures side { MatchOrdering result.1
        (2 * digits < (2 * (digits / 2 ^ dropped) + 1) * 2 ^ dropped)
        (2 * digits ≡ (2 * (digits / 2 ^ dropped) + 1) * 2 ^ dropped)
        ((2 * (digits / 2 ^ dropped) + 1) * 2 ^ dropped < 2 * digits) }
{
    if dropped > 64 {
        return (0, Ordering::Less);
    }
    let unit = 1u128 << dropped;
    let wide = u128::from(digits);
    let kept = wide / unit;
    let rest = wide % unit;
    (kept as u64, (2 * rest).cmp(&unit))
}

// Rounds the significand. A tie goes to the even one, unless `more` digits follow.
fn rounded(kept: u64, side: Ordering, more: bool) -> u64
    requires { kept < 2 ^ 53 }
    ensures near { result ≤ kept + 1 }
    ensures value { MatchOrdering side (result ≡ kept)
        (result ≡ (if more then kept + 1 else kept + kept % 2)) (result ≡ kept + 1) }
{
    match side {
        Ordering::Less => kept,
        Ordering::Greater => kept + 1,
        Ordering::Equal if more => kept + 1,
        Ordering::Equal => kept + kept % 2,
    }
}

// The exponent's field plus the significand, or the bits of infinity if that is more.
fn scaled(width: FloatType, significand: u64, exponent: u64) -> u64
    requires { significand ≤ 2 ^ 53 }
    ensures { result ≡ min (exponent * 2 ^ signif width + significand) (infinity width) }
{
    if exponent > 2046 {
        return infinity_bits(width);
    }
    ((exponent << fraction_bits(width)) + significand).min(infinity_bits(width))
}

// Appends zeros to the digits.
fn with_zeros(digits: u64, zeros: u64) -> u64
    requires some { 0 < digits }
    requires few { digits * 2 ^ zeros < 2 ^ 53 }
    ensures { result ≡ digits * 2 ^ zeros }
{
    digits << zeros
}

// The number of binary digits of a number.
fn length_of(digits: u64) -> u64
    requires { 0 < digits }
    ensures some { (0 < result) × (result ≤ 64) }
    ensures reaches { 2 ^ (result - 1) ≤ digits }
    ensures below { digits < 2 ^ result }
{
    64 - u64::from(digits.leading_zeros())
}

// The bits of the nearest float, or those of infinity.
fn nearest_bits(width: FloatType, digits: u64, more: bool, up: u64, down: u64) -> u64
    requires sizes { (up ≤ 2 ^ 62) × (down ≤ 2 ^ 62) }
    requires cut { more ≡ true → 2 ^ 60 ≤ digits }
    ensures { (num den : ℕ) → 0 < den → IsBinary num den digits more up down
        → IsNearestBits (format_of width) num den result }
{
    if digits == 0 {
        return 0;
    }
    let left = up + lowest(width);
    let exponent = (length_of(digits) + left).saturating_sub(fraction_bits(width) + 1 + down);
    let right = down + exponent;
    if left >= right {
        return scaled(width, with_zeros(digits, left - right), exponent);
    }
    let (kept, side) = cut(digits, right - left);
    scaled(width, rounded(kept, side, more), exponent)
}

/// Returns the bits of the float nearest to `digits` * 2^`up` / 2^`down`, or `None` if that is no finite
/// float. If `more` is set, the number has more digits after these, not all of them 0.
pub fn nearest_binary(width: FloatType, digits: u64, more: bool, up: u64, down: u64) -> Option<u64>
    requires sizes { (up ≤ 2 ^ 62) × (down ≤ 2 ^ 62) }
    requires cut { more ≡ true → 2 ^ 60 ≤ digits }
    ensures { (num den : ℕ) → 0 < den → IsBinary num den digits more up down
        → MatchOption result ((b : ℕ) → IsNearest width num den b → ⊥)
        (λ b. IsNearest width num den b) }
{
    let bits = nearest_bits(width, digits, more, up, down);
    if bits < infinity_bits(width) {
        Some(bits)
    } else {
        None
    }
}
