//! The parts of a number without a sign (Core spec 6.3.2).

ghost use Rattle.std.specs.Prelude.{◌≡◌, ◌≤◌, Some, None, MatchOption, length, take, drop};
ghost use Rattle.wm_floats.specs.exact.Atoms as atoms;
ghost use Rattle.wm_floats.specs.inner.Parts.{parts_of};

use crate::digits::{are_digits, are_digits_or_none};

/// The digits of a number before its point and after it, and the sign and the digits of its exponent.
/// Underscores are included.
#[derive(Clone, Copy)]
pub struct Parts<'a> {
    pub whole: &'a [u8],
    pub part: &'a [u8],
    pub negative: bool,
    pub exponent: &'a [u8],
}

fn is_mark(x: u8, y: u8, byte: u8) -> bool
    ensures { result ≡ atoms.is_mark x y byte }
{
    byte == x || byte == y
}

/// The index of the first byte that is one of these two, or the length if there is none.
fn mark_at(x: u8, y: u8, text: &[u8]) -> usize
    ensures within { result ≤ length text.now }
    ensures front { (atoms.cut x y text.now).0 ≡ take result text.now }
    ensures back { (atoms.cut x y text.now).1 ≡ drop result text.now }
{
    for (i, c) in text.iter().enumerate() {
        if is_mark(x, y, *c) {
            return i;
        }
    }
    text.len()
}

fn tail(text: &[u8]) -> &[u8]
    ensures { result.now ≡ atoms.tail text.now }
{
    match text {
        [] => text,
        [_, rest @ ..] => rest,
    }
}

/// The digits before a point and after it, or `None` if they are malformed.
fn both_sides<'a>(base: u32, whole: &'a [u8], part: &'a [u8]) -> Option<(&'a [u8], &'a [u8])>
    requires { (2 ≤ base) × (base ≤ 16) }
    ensures { MatchOption result (atoms.both_sides base whole.now part.now ≡ None)
        (λ x. atoms.both_sides base whole.now part.now ≡ Some (x.0.now, x.1.now)) }
{
    if are_digits(base, whole) {
        if are_digits_or_none(base, part) {
            Some((whole, part))
        } else {
            None
        }
    } else {
        None
    }
}

/// The digits before a point and after it, or all of them if there is no point. `None` if they are malformed.
fn around_point(base: u32, text: &[u8]) -> Option<(&[u8], &[u8])>
    requires { (2 ≤ base) × (base ≤ 16) }
    ensures { MatchOption result (atoms.around_point base text.now ≡ None)
        (λ x. atoms.around_point base text.now ≡ Some (x.0.now, x.1.now)) }
{
    let (whole, behind) = text.split_at(mark_at(b'.', b'.', text));
    both_sides(base, whole, tail(behind))
}

/// Whether a number is negative, and its digits.
fn signed(text: &[u8]) -> (bool, &[u8])
    ensures { atoms.signed text.now ≡ (result.0, result.1.now) }
{
    match text {
        [] => (false, text),
        [c, rest @ ..] => match *c {
            b'+' => (false, rest),
            b'-' => (true, rest),
            _ => (false, text),
        },
    }
}

/// Whether an exponent, which begins with its letter, is negative, and its digits. An empty text is no
/// exponent, with no digits. `None` if the digits are malformed.
fn exponent_of(text: &[u8]) -> Option<(bool, &[u8])>
    ensures { MatchOption result (atoms.exponent_of text.now ≡ None)
        (λ x. atoms.exponent_of text.now ≡ Some (x.0, x.1.now)) }
{
    match text {
        [] => Some((false, text)),
        [_, rest @ ..] => {
            let (negative, digits) = signed(rest);
            if are_digits(10, digits) {
                Some((negative, digits))
            } else {
                None
            }
        }
    }
}

/// Splits a number without a sign into its parts. Its exponent begins with either of the two letters. Returns
/// `None` if the text is no such number.
pub fn numeral_of(base: u32, lower: u8, upper: u8, text: &[u8]) -> Option<Parts>
    requires { (2 ≤ base) × (base ≤ 16) }
    ensures { MatchOption result (atoms.numeral_of base lower upper text.now ≡ None)
        (λ p. atoms.numeral_of base lower upper text.now ≡ Some (parts_of p)) }
{
    let (number, behind) = text.split_at(mark_at(lower, upper, text));
    let (whole, part) = around_point(base, number)?;
    let (negative, exponent) = exponent_of(behind)?;
    Some(Parts {
        whole,
        part,
        negative,
        exponent,
    })
}
