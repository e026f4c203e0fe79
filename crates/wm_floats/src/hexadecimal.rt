//! The float nearest to a hexadecimal number (Core spec 6.3.2).

ghost use Rattle.std.specs.Prelude.{◌≡◌, ℕ, ◌+◌, ◌*◌, ◌^◌, ◌<◌, ◌≤◌, [], ◌∷◌, ◌++◌, false, length};
ghost use Rattle.std.specs.Prelude.{MatchOption, if◌then◌else◌};
ghost use Rattle.std.specs.Str.Parse.{AllDigits, digits_value, digits_value_after};
ghost use Rattle.wm_floats.specs.Nearest.{IsNearest};
ghost use Rattle.wm_floats.specs.exact.Atoms as atoms;
ghost use Rattle.wm_floats.specs.exact.Atoms.{plain};
ghost use Rattle.wm_floats.specs.inner.Leading.{Leads};
ghost use Rattle.wm_floats.specs.inner.Parts.{HasDigits, parts_of};

use crate::binary::nearest_binary;
use crate::digits::{HELD, count, digit_of, held};
use crate::parts::Parts;
use wm_syntax::instructions::FloatType;

// The digits so far. The first ones are held in 64 bits. For the later ones, only their count and whether any
// is not 0 are kept.
#[derive(Clone, Copy)]
pub struct Leading {
    digits: u64,
    more: bool,
    left: u64,
}

fn one_more(so_far: Leading, digit: u64) -> Leading
    requires digit { digit < 16 }
    requires left { so_far.left < 2 ^ 60 }
    ensures leads { (n : ℕ) → Leads n so_far → Leads (n * 16 + digit) result }
    ensures left { result.left ≤ so_far.left + 1 }
{
    if so_far.digits < 1 << 60 {
        return Leading {
            digits: so_far.digits * 16 + digit,
            more: so_far.more,
            left: so_far.left,
        };
    }
    Leading {
        digits: so_far.digits,
        more: so_far.more || digit != 0,
        left: so_far.left + 1,
    }
}

// Reads one byte. An underscore changes nothing.
fn one_byte(so_far: Leading, byte: u8) -> Leading
    requires digit { AllDigits 16 (plain (byte ∷ [])) }
    requires left { so_far.left < 2 ^ 60 }
    ensures leads { (n : ℕ) → Leads n so_far → Leads (digits_value_after 16 n (plain (byte ∷ []))) result }
    ensures left { result.left ≤ so_far.left + 1 }
{
    if byte == b'_' {
        return so_far;
    }
    one_more(so_far, digit_of(byte))
}

fn read(start: Leading, bytes: &[u8]) -> Leading
    requires digits { AllDigits 16 (plain bytes.now) }
    requires left { start.left + length bytes.now ≤ 2 ^ 60 }
    ensures leads { (n : ℕ) → Leads n start → Leads (digits_value_after 16 n (plain bytes.now)) result }
    ensures left { result.left ≤ start.left + length bytes.now }
{
    let mut so_far = start;
    for byte in bytes {
        so_far = one_byte(so_far, *byte);
    }
    so_far
}

// Reads the digits before a point and after it.
fn read_both(whole: &[u8], part: &[u8]) -> Leading
    requires whole { AllDigits 16 (plain whole.now) }
    requires part { AllDigits 16 (plain part.now) }
    requires short { length whole.now + length part.now ≤ 2 ^ 60 }
    ensures leads { Leads (digits_value 16 (plain whole.now ++ plain part.now)) result }
    ensures left { result.left ≤ length whole.now + length part.now }
{
    let none = Leading {
        digits: 0,
        more: false,
        left: 0,
    };
    let first = read(none, whole);
    read(first, part)
}

/// Returns the bits of the float nearest to hexadecimal digits with a point among them, times 2^`up` /
/// 2^`down`. Returns `None` if that is no finite float.
pub fn nearest_hexadecimal(
    width: FloatType,
    whole: &[u8],
    part: &[u8],
    up: u64,
    down: u64,
) -> Option<u64>
    requires whole { AllDigits 16 (plain whole.now) }
    requires part { AllDigits 16 (plain part.now) }
    requires sizes { (up ≤ 2 ^ 60) × (down ≤ 2 ^ 60) × (length whole.now + length part.now ≤ 2 ^ 58) }
    ensures { MatchOption result
        ((b : ℕ) → IsNearest width (digits_value 16 (plain whole.now ++ plain part.now) * 2 ^ up)
        (16 ^ length (plain part.now) * 2 ^ down) b → ⊥)
        (λ b. IsNearest width (digits_value 16 (plain whole.now ++ plain part.now) * 2 ^ up)
        (16 ^ length (plain part.now) * 2 ^ down) b) }
{
    let all = read_both(whole, part);
    let places = 4 * count(part);
    nearest_binary(
        width,
        all.digits,
        all.more,
        up + 4 * all.left,
        places + down,
    )
}

fn up_and_down(negative: bool, size: u64) -> (u64, u64)
    ensures up { result.0 ≡ (if negative then 0 else size) }
    ensures down { result.1 ≡ (if negative then size else 0) }
    ensures sizes { (result.0 ≤ size) × (result.1 ≤ size) }
{
    if negative { (0, size) } else { (size, 0) }
}

// Reads a number whose exponent reached the limit of `held`, so that it outweighs all digits. The number is
// 0, nearest to 0, or too large.
fn far(width: FloatType, number: Parts) -> Option<u64>
    requires digits { HasDigits 16 (parts_of number) }
    requires short { length number.whole.now + length number.part.now ≤ 2 ^ 50 }
    requires far { 2 ^ 56 ≤ atoms.size_of (parts_of number) }
    ensures { result ≡ atoms.hexadecimal_bits width (parts_of number.entry) }
{
    let negative = number.negative;
    let digits = read_both(number.whole, number.part).digits;
    if negative {
        return Some(0);
    }
    if digits == 0 {
        return Some(0);
    }
    None
}

/// Returns the bits of the float nearest to a hexadecimal number, or `None` if that is no finite float.
#[tactic(auto, using(crate::proofs::Far::near_laws))]
pub fn hexadecimal_bits(width: FloatType, number: Parts) -> Option<u64>
    requires digits { HasDigits 16 (parts_of number) }
    requires short { length number.whole.now + length number.part.now ≤ 2 ^ 50 }
    ensures { result ≡ atoms.hexadecimal_bits width (parts_of number.entry) }
{
    let size = held(10, number.exponent);
    if size >= HELD {
        return far(width, number);
    }
    let (up, down) = up_and_down(number.negative, size);
    nearest_hexadecimal(width, number.whole, number.part, up, down)
}
