//! Prints floats from their bits. The text is hexadecimal, and therefore exact (Core spec 6.3.2).

ghost use Rattle.std.specs.Prelude.{◌≡◌, ◌+◌, ◌<◌, ◌≤◌, ◌^◌, [], ◌∷◌, ◌++◌, codes, decimal, length};
ghost use Rattle.wm_syntax.specs.declared.instructions.FloatType.TheVariants as float;
ghost use Rattle.wm_write.specs.FloatText.{exponent_text, finite_text, float_text, fraction_text};
ghost use Rattle.wm_write.specs.FloatText.{hexadecimal, places, scaled_text, sign_text, special_text};
ghost use Rattle.wm_write.specs.Layout.{spaced, words_text};

use crate::batch::Batch;
use crate::print::tokens::hex_digit;

// The most hexadecimal digits of a fraction.
const DIGITS: usize = 13;

// The weight of the first of these digits: 16^12.
const PLACE: u64 = 0x1_0000_0000_0000;

/// Appends a space and an f32.
pub(crate) fn push_f32(line: &mut Batch, bits: u64)
    requires { length line.old + 36 ≤ 64 }
    ensures { line.new ≡ line.old ++ words_text (spaced (float_text float.F32 bits) ∷ []) }
{
    let exponent = (bits / 0x80_0000 % 0x100) as u32;
    let fraction = bits % 0x80_0000;
    line.push(front(bits, 0x8000_0000));
    if exponent == 0xFF {
        push_special(line, fraction);
    } else {
        push_finite(line, fraction * 0x2000_0000, 127, exponent);
    }
}

/// Appends a space and an f64.
pub(crate) fn push_f64(line: &mut Batch, bits: u64)
    requires { length line.old + 36 ≤ 64 }
    ensures { line.new ≡ line.old ++ words_text (spaced (float_text float.F64 bits) ∷ []) }
{
    let exponent = (bits / 0x10_0000_0000_0000 % 0x800) as u32;
    let fraction = bits % 0x10_0000_0000_0000;
    line.push(front(bits, 0x8000_0000_0000_0000));
    if exponent == 0x7FF {
        push_special(line, fraction);
    } else {
        push_finite(line, fraction, 1023, exponent);
    }
}

// Returns a space, with a minus if the sign bit is set. `half` is the weight of that bit.
fn front(bits: u64, half: u64) -> &'static [u8]
    ensures text { result.now ≡ 32 ∷ sign_text half bits }
    ensures short { length result.now ≤ 2 }
{
    if bits < half { b" " } else { b" -" }
}

// Appends an infinity, or a NaN with its payload.
fn push_special(line: &mut Batch, payload: u64)
    requires { length line.old + 22 ≤ 64 }
    ensures { line.new ≡ line.old ++ special_text payload }
{
    if payload == 0 {
        line.push(b"inf");
    } else {
        push_nan(line, payload);
    }
}

// Appends a NaN with its payload.
fn push_nan(line: &mut Batch, payload: u64)
    requires { length line.old + 22 ≤ 64 }
    ensures { line.new ≡ line.old ++ (codes "nan:0x" ++ hexadecimal 16 payload) }
{
    line.push(b"nan:0x");
    push_hexadecimal(line, payload, 16);
}

// Appends the hexadecimal digits of a number, at most the last `most`; none for 0.
fn push_hexadecimal(line: &mut Batch, n: u64, most: usize)
    requires { length line.old + most ≤ 64 }
    ensures text { line.new ≡ line.old ++ hexadecimal most n }
    ensures short { length line.new ≤ length line.old + most }
{
    if most == 0 {
        return;
    }
    if n == 0 {
        return;
    }
    push_hexadecimal(line, n / 16, most - 1);
    line.push_byte(hex_digit((n % 16) as u8));
}

// Appends a finite number. Its fraction is n / 16^13, and `exponent` is its biased exponent.
fn push_finite(line: &mut Batch, n: u64, bias: u32, exponent: u32)
    requires few { n < 16 ^ 13 }
    requires room { length line.old + 29 ≤ 64 }
    ensures { line.new ≡ line.old ++ finite_text n bias exponent }
{
    if exponent == 0 {
        push_small(line, n, bias);
    } else {
        push_scaled(line, b"0x1", n, bias, exponent);
    }
}

// Appends zero or a subnormal number. Subnormals are printed with the least exponent of normal numbers.
fn push_small(line: &mut Batch, n: u64, bias: u32)
    requires few { n < 16 ^ 13 }
    requires room { length line.old + 29 ≤ 64 }
    ensures { line.new ≡ line.old ++ finite_text n bias 0 }
{
    if n == 0 {
        line.push(b"0x0p+0");
    } else {
        push_scaled(line, b"0x0", n, bias, 1);
    }
}

// Appends a first digit, a fraction and an exponent.
fn push_scaled(line: &mut Batch, first: &[u8], n: u64, bias: u32, exponent: u32)
    requires few { n < 16 ^ 13 }
    requires room { length line.old + (length first.now + 26) ≤ 64 }
    ensures { line.new ≡ line.old ++ scaled_text first.now n bias exponent }
{
    line.push(first);
    push_fraction(line, n);
    push_exponent(line, bias, exponent);
}

// Appends a point and the digits of n / 16^13, unless that is 0.
fn push_fraction(line: &mut Batch, n: u64)
    requires few { n < 16 ^ 13 }
    requires room { length line.old + 14 ≤ 64 }
    ensures text { line.new ≡ line.old ++ fraction_text n }
    ensures short { length line.new ≤ length line.old + 14 }
{
    if n == 0 {
        return;
    }
    line.push_byte(b'.');
    push_places(line, n);
}

// Appends the digits of n / 16^13, without trailing zeros.
fn push_places(line: &mut Batch, n: u64)
    requires few { n < 16 ^ 13 }
    requires room { length line.old + 13 ≤ 64 }
    ensures text { line.new ≡ line.old ++ places 13 n }
    ensures short { length line.new ≤ length line.old + 13 }
{
    let mut rest = n;
    for _ in 0..DIGITS {
        if rest == 0 {
            return;
        }
        line.push_byte(hex_digit((rest / PLACE) as u8));
        rest = rest % PLACE * 16;
    }
}

// Appends the exponent, with its sign, given the biased one.
fn push_exponent(line: &mut Batch, bias: u32, exponent: u32)
    requires { length line.old + 12 ≤ 64 }
    ensures { line.new ≡ line.old ++ exponent_text bias exponent }
{
    if exponent < bias {
        line.push_counted(b"p-", bias - exponent);
    } else {
        push_above(line, exponent - bias);
    }
}

// Appends an exponent that is not negative.
fn push_above(line: &mut Batch, exponent: u32)
    requires { length line.old + 12 ≤ 64 }
    ensures { line.new ≡ line.old ++ (codes "p+" ++ decimal exponent) }
{
    line.push_counted(b"p+", exponent);
}
