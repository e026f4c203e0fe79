//! Atoms that denote floats (Core spec 6.3.2).

ghost use Rattle.std.specs.Prelude.{◌≡◌, None, Some, IfOk, MatchOption};
ghost use Rattle.std.specs.Option.{option_map};
ghost use Rattle.wm_floats.specs.exact.Atoms as atoms;

use crate::digits::{are_digits, held};
use crate::hexadecimal::hexadecimal_bits;
use crate::numerals::decimal_bits;
use crate::parts::numeral_of;
use crate::widths::{canonical_nan, fraction_bits, infinity_bits, sign_bit};
use std::alloc::{AllocError, Global};
use wm_syntax::instructions::FloatType;

// The most hexadecimal digits before a point, and after it: 2^49, more than any memory holds.
const MOST: usize = 0x2_0000_0000_0000;

/// The text after this prefix, or `None` if the text does not begin with it.
fn behind<'a>(word: &[u8], text: &'a [u8]) -> Option<&'a [u8]>
    ensures { MatchOption result (atoms.behind word.now text.now ≡ None)
        (λ r. atoms.behind word.now text.now ≡ Some r.now) }
{
    text.strip_prefix(word)
}

/// Whether the text is exactly this word.
fn is_just(word: &[u8], text: &[u8]) -> bool
    ensures { result ≡ atoms.is_just word.now text.now }
{
    match behind(word, text) {
        Some(rest) => match rest {
            [] => true,
            [_, ..] => false,
        },
        None => false,
    }
}

/// The bits of a NaN with this payload. `None` if it is out of range or not in digits.
#[tactic(auto, using(crate::proofs::Held::payload_laws))]
fn nan_bits(width: FloatType, digits: &[u8]) -> Option<u64>
    ensures { result ≡ atoms.nan_bits width digits.now }
{
    if !are_digits(16, digits) {
        return None;
    }
    payload_bits(width, held(16, digits))
}

/// The bits of a NaN with this payload, or `None` if it is out of range.
fn payload_bits(width: FloatType, payload: u64) -> Option<u64>
    ensures { result ≡ atoms.payload_bits width payload }
{
    if payload == 0 {
        return None;
    }
    if payload < 1 << fraction_bits(width) {
        Some(infinity_bits(width) + payload)
    } else {
        None
    }
}

/// The bits of a hexadecimal number, given the text after its 0x.
#[tactic(auto, using(crate::proofs::NumeralParts::numeral_laws))]
fn hexadecimal(width: FloatType, digits: &[u8]) -> Result<Option<u64>, AllocError>
    ensures { IfOk result (λ o. o ≡ atoms.hexadecimal_of width digits.now) }
{
    match numeral_of(16, b'p', b'P', digits) {
        Some(number) => {
            if number.whole.len() > MOST || number.part.len() > MOST {
                return Err(AllocError);
            }
            Ok(hexadecimal_bits(width, number))
        }
        None => Ok(None),
    }
}

/// The bits of a decimal number.
#[tactic(auto, using(crate::proofs::NumeralParts::numeral_laws))]
fn decimal(alloc: Global, width: FloatType, text: &[u8]) -> Result<Option<u64>, AllocError>
    ensures { IfOk result (λ o. o ≡ atoms.decimal_of width text.now) }
{
    match numeral_of(10, b'e', b'E', text) {
        Some(number) => decimal_bits(alloc, width, number),
        None => Ok(None),
    }
}

/// The bits of a number without a sign.
fn number(alloc: Global, width: FloatType, text: &[u8]) -> Result<Option<u64>, AllocError>
    ensures { IfOk result (λ o. o ≡ atoms.number_bits width text.now) }
{
    match behind(b"0x", text) {
        Some(digits) => hexadecimal(width, digits),
        None => decimal(alloc, width, text),
    }
}

/// The bits of a float without a sign.
fn magnitude(alloc: Global, width: FloatType, text: &[u8]) -> Result<Option<u64>, AllocError>
    ensures { IfOk result (λ o. o ≡ atoms.magnitude_of width text.now) }
{
    if is_just(b"inf", text) {
        return Ok(Some(infinity_bits(width)));
    }
    if is_just(b"nan", text) {
        return Ok(Some(canonical_nan(width)));
    }
    match behind(b"nan:0x", text) {
        Some(digits) => Ok(nan_bits(width, digits)),
        None => number(alloc, width, text),
    }
}

/// The bits of a float, given the text after its minus.
#[tactic(auto, using(crate::proofs::Ranges::range_laws))]
fn negative(alloc: Global, width: FloatType, text: &[u8]) -> Result<Option<u64>, AllocError>
    ensures { IfOk result (λ o. o ≡ option_map (atoms.below_zero width)
        (atoms.magnitude_of width text.now)) }
{
    match magnitude(alloc, width, text)? {
        Some(bits) => Ok(Some(sign_bit(width) + bits)),
        None => Ok(None),
    }
}

/// Returns the bits of the float that an atom denotes (Core spec 6.3.2). Returns `None` if it denotes none of
/// this width, which includes a number nearest to an infinity. Fails if memory is refused for a copy of the
/// digits, or if a hexadecimal number has more digits than memory could hold.
#[tactic(auto, unfolding(crate::specs::exact::Atoms::float_of))]
pub fn float_of(alloc: Global, width: FloatType, atom: &[u8]) -> Result<Option<u64>, AllocError>
    ensures { IfOk result (λ o. o ≡ atoms.float_of width atom.now) }
{
    match atom {
        [] => Ok(None),
        [c, rest @ ..] => match *c {
            b'+' => magnitude(alloc, width, rest),
            b'-' => negative(alloc, width, rest),
            _ => magnitude(alloc, width, atom),
        },
    }
}

/// Whether an atom is a number without a sign. An integer is one.
fn is_number(text: &[u8]) -> bool
    ensures { result ≡ atoms.is_number text.now }
{
    match behind(b"0x", text) {
        Some(digits) => numeral_of(16, b'p', b'P', digits).is_some(),
        None => numeral_of(10, b'e', b'E', text).is_some(),
    }
}

/// Whether an atom has the form of a float without a sign, at any width (Core spec 6.3.2). An integer has it.
#[tactic(auto, unfolding(crate::specs::exact::Atoms::has_form))]
pub fn has_form(text: &[u8]) -> bool
    ensures { result ≡ atoms.has_form text.now }
{
    if is_just(b"inf", text) {
        return true;
    }
    if is_just(b"nan", text) {
        return true;
    }
    match behind(b"nan:0x", text) {
        Some(digits) => are_digits(16, digits),
        None => is_number(text),
    }
}
