//! The float nearest to a decimal number, which may have underscores (Core spec 6.3.2).

ghost use Rattle.std.specs.Prelude.{◌≡◌, ◌∷◌, ◌++◌, ◌<◌, length, IfOk, OnOk};
ghost use Rattle.std.specs.Fmt.{sign_text};
ghost use Rattle.fast_float.specs.Text.{exponent_text};
ghost use Rattle.wm_floats.specs.exact.Atoms as atoms;
ghost use Rattle.wm_floats.specs.exact.Atoms.{plain};
ghost use Rattle.wm_floats.specs.inner.Parts.{HasDigits, kit_text, parts_of};

use crate::decimal::nearest_decimal;
use crate::parts::Parts;
use std::alloc::{AllocError, Global};
use wm_syntax::instructions::FloatType;

/// Appends the digits of a text, without the underscores.
#[tactic(auto, using(crate::proofs::Underscores::plain_laws))]
fn push_digits(text: &mut Vec<u8>, digits: &[u8]) -> Result<(), AllocError>
    ensures { OnOk result (text.new.items ≡ text.old.items ++ plain digits.now) }
{
    let mut rest = digits;
    while let [c, more @ ..] = rest {
        rest = more;
        if *c != b'_' {
            text.push(*c)?;
        }
    }
    Ok(())
}

/// The text before the digits of an exponent.
fn mark(negative: bool) -> &'static [u8]
    ensures { result.now ≡ 101 ∷ sign_text negative }
{
    if negative { b"e-" } else { b"e" }
}

/// Appends an exponent, unless it has no digits.
#[tactic(auto, using(crate::proofs::Kit::exponent_laws))]
fn push_exponent(text: &mut Vec<u8>, negative: bool, digits: &[u8]) -> Result<(), AllocError>
    requires { 0 < length digits.now → 0 < length (plain digits.now) }
    ensures { OnOk result (text.new.items ≡ text.old.items ++ exponent_text negative (plain digits.now)) }
{
    if digits.is_empty() {
        return Ok(());
    }
    text.extend_from_slice(mark(negative))?;
    push_digits(text, digits)
}

/// The number in the form that fast_float reads: with a point, and without underscores.
#[tactic(auto, using(crate::proofs::Kit::text_laws))]
fn numeral_text(alloc: Global, number: Parts) -> Result<Vec<u8>, AllocError>
    requires { 0 < length number.exponent.now → 0 < length (plain number.exponent.now) }
    ensures { IfOk result (λ v. v.items ≡ kit_text (parts_of number.entry)) }
{
    let mut text = Vec::new(alloc);
    push_digits(&mut text, number.whole)?;
    text.push(b'.')?;
    push_digits(&mut text, number.part)?;
    push_exponent(&mut text, number.negative, number.exponent)?;
    Ok(text)
}

/// Returns the bits of the float nearest to a decimal number, or `None` if that is no finite float. Fails if
/// memory for a copy of its digits is refused.
#[tactic(auto, using(crate::proofs::Kit::decimal_laws))]
pub fn decimal_bits(
    alloc: Global,
    width: FloatType,
    number: Parts,
) -> Result<Option<u64>, AllocError>
    requires { HasDigits 10 (parts_of number) }
    ensures { IfOk result (λ o. o ≡ atoms.decimal_bits width (parts_of number.entry)) }
{
    let text = numeral_text(alloc, number)?;
    Ok(nearest_decimal(width, &text))
}
