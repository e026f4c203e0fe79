//! Values of atoms: numbers (Core spec 6.3.1 and 6.3.2), identifiers and keywords.

ghost use Rattle.std.specs.Prelude.{◌≡◌, ◌≤◌, ◌<◌, ◌+◌, ◌^◌, ℕ, Some, None};
ghost use Rattle.std.specs.Prelude.{MatchOption, IfOk, IfSome, pos, neg_ℤ, ◌≤ℤ◌, ◌<ℤ◌};
ghost use Rattle.wm_floats.specs.exact.Atoms as atoms;
ghost use Rattle.wm_bodies.specs.exact.Reading as reading;
ghost use Rattle.wm_syntax.specs.declared.instructions.FloatType.TheVariants as float;

use std::alloc::{AllocError, Global};
use wm_floats::atoms::float_of;
use wm_syntax::instructions::FloatType;
use wm_tokens::scan::{magnitude, short_decimal};

/// Whether an atom is this keyword.
#[tactic(auto, using(crate::proofs::Readers::same_laws))]
pub fn is(atom: &[u8], word: &[u8]) -> bool
    ensures { result ≡ reading.same_bytes atom.now word.now }
{
    atom == word
}

/// Whether an atom is an identifier. Core spec 6.3.5.
pub fn is_id(atom: &[u8]) -> bool
    ensures { result ≡ reading.is_id atom.now }
{
    matches!(atom, [b'$', _, ..])
}

/// Whether an atom begins with a lower-case letter, as a keyword does. Core spec 6.2.2. Also true for `inf` and `nan`.
pub fn is_word(atom: &[u8]) -> bool
    ensures { result ≡ reading.is_word atom.now }
{
    matches!(atom, [b'a'..=b'z', ..])
}

/// Whether an atom looks like the name of a floating-point type or instruction. No instruction on integers alone has
/// such a name. No contract: it decides only which name a refusal gets.
pub fn is_float(atom: &[u8]) -> bool {
    if is(atom, b"f32") || is(atom, b"f64") {
        return true;
    }
    match atom {
        [b'f', ..] => atom.starts_with(b"f32.") || atom.starts_with(b"f64."),
        [b'i', ..] => {
            (atom.starts_with(b"i32.") || atom.starts_with(b"i64."))
                && atom
                    .windows(4)
                    .any(|part| is(part, b"_f32") || is(part, b"_f64"))
        }
        _ => false,
    }
}

/// Returns the value of an unsigned number below 2^32, else `None`. Core spec 6.3.1.
#[tactic(auto, using(crate::proofs::Numbers::short_unsigned))]
pub fn unsigned(atom: &[u8]) -> Option<u32>
    ensures { result ≡ reading.unsigned_of atom.now }
{
    match short_decimal(atom) {
        Some(n) => Some(n),
        None => any_unsigned(atom),
    }
}

/// The slow path of `unsigned`: a number in any form.
#[tactic(auto, using(crate::proofs::Numbers::number_laws))]
fn any_unsigned(atom: &[u8]) -> Option<u32>
    ensures { result ≡ reading.unsigned_of atom.now }
{
    u32::try_from(magnitude(atom)?).ok()
}

/// Returns the signed value of an integer literal, where `whole` is 2^N and `half` is 2^(N-1). Without a sign, a number
/// from `half` up to `whole` means itself minus `whole`. `None` if it is out of range. Core spec 6.3.1.
fn integer(half: u64, whole: u128, atom: &[u8]) -> Option<i128>
    requires whole { whole ≤ 2 ^ 64 }
    requires half { 0 < half }
    requires halves { whole ≡ half + half }
    ensures value { result ≡ reading.integer_by half whole atom.now }
    ensures range { IfSome result (λ z. (neg_ℤ (pos half) ≤ℤ z) × (z <ℤ pos half)) }
{
    match atom {
        [b'+', rest @ ..] => plus(half, rest),
        [b'-', rest @ ..] => minus(half, rest),
        _ => plain(half, whole, atom),
    }
}

/// `integer` for the number after a `+`.
#[tactic(auto, using(crate::proofs::Numbers::number_laws))]
fn plus(half: u64, atom: &[u8]) -> Option<i128>
    ensures value { result ≡ reading.plus_of half atom.now }
    ensures range { IfSome result (λ z. (neg_ℤ (pos half) ≤ℤ z) × (z <ℤ pos half)) }
{
    match magnitude(atom) {
        Some(n) if n < u128::from(half) => Some(n as i128),
        _ => None,
    }
}

/// `integer` for the number after a `-`.
#[tactic(auto, using(crate::proofs::Numbers::number_laws))]
fn minus(half: u64, atom: &[u8]) -> Option<i128>
    requires { 0 < half }
    ensures value { result ≡ reading.minus_of half atom.now }
    ensures range { IfSome result (λ z. (neg_ℤ (pos half) ≤ℤ z) × (z <ℤ pos half)) }
{
    match magnitude(atom) {
        Some(n) if n <= u128::from(half) => Some(-(n as i128)),
        _ => None,
    }
}

/// `integer` for a number without a sign.
#[tactic(auto, using(crate::proofs::Numbers::number_laws))]
fn plain(half: u64, whole: u128, atom: &[u8]) -> Option<i128>
    requires whole { whole ≤ 2 ^ 64 }
    requires halves { whole ≡ half + half }
    ensures value { result ≡ reading.plain_of half whole atom.now }
    ensures range { IfSome result (λ z. (neg_ℤ (pos half) ≤ℤ z) × (z <ℤ pos half)) }
{
    match magnitude(atom) {
        Some(n) if n < u128::from(half) => Some(n as i128),
        Some(n) if n < whole => Some(n as i128 - whole as i128),
        _ => None,
    }
}

/// Returns the constant of an `i32.const` as a signed number, written unsigned or signed. Core spec 6.3.1.
pub(crate) fn constant32(atom: &[u8]) -> Option<i32>
    ensures { result ≡ reading.integer_of 32 atom.now }
{
    match short_decimal(atom) {
        Some(short) => Some(short as i32),
        None => any_constant32(atom),
    }
}

/// The slow path of `constant32`: an integer in any form.
#[tactic(auto, unfolding(crate::specs::exact::Reading::integer_of))]
fn any_constant32(atom: &[u8]) -> Option<i32>
    ensures { result ≡ reading.integer_of 32 atom.now }
{
    let n = integer(0x8000_0000, 0x1_0000_0000, atom)?;
    Some(n as i32)
}

/// Returns the constant of an `i64.const` as a signed number, written unsigned or signed. Core spec 6.3.1.
#[tactic(auto, unfolding(crate::specs::exact::Reading::integer_of))]
pub(crate) fn constant64(atom: &[u8]) -> Option<i64>
    ensures { result ≡ reading.integer_of 64 atom.now }
{
    let n = integer(0x8000_0000_0000_0000, 0x1_0000_0000_0000_0000, atom)?;
    Some(n as i64)
}

/// Returns the bits of an f32. Core spec 6.3.2. `None` if the atom is no f32, or rounds to an infinity.
#[tactic(auto, using(crate::proofs::Floats::word_laws))]
pub(crate) fn float32(alloc: Global, atom: &[u8]) -> Result<Option<u32>, AllocError>
    ensures { IfOk result (λ o. o ≡ atoms.float_of float.F32 atom.now) }
{
    match float_of(alloc, FloatType::F32, atom)? {
        Some(bits) => Ok(Some(bits as u32)),
        None => Ok(None),
    }
}

/// Returns the bits of an f64. Core spec 6.3.2. `None` if the atom is no f64, or rounds to an infinity.
pub(crate) fn float64(alloc: Global, atom: &[u8]) -> Result<Option<u64>, AllocError>
    ensures { IfOk result (λ o. o ≡ atoms.float_of float.F64 atom.now) }
{
    float_of(alloc, FloatType::F64, atom)
}

/// Returns the rest of an atom after a key such as `offset=`. `None` if it does not begin with the key.
pub(crate) fn after_key<'a>(key: &[u8], atom: &'a [u8]) -> Option<&'a [u8]>
    ensures { MatchOption result (reading.after_key key.now atom.now ≡ None)
        (λ r. reading.after_key key.now atom.now ≡ Some r.now) }
{
    atom.strip_prefix(key)
}

/// Returns the exponent of a power of two, else `None`. Accesses are 1, 2, 4 or 8 bytes wide, so most numbers take the
/// fast path.
#[inline(always)]
#[tactic(auto, unfolding(crate::specs::exact::Reading::exponent_of))]
pub fn exponent(n: u32) -> Option<u32>
    ensures { result ≡ reading.exponent_of n }
{
    match n {
        1 => Some(0),
        2 => Some(1),
        4 => Some(2),
        8 => Some(3),
        _ => any_exponent(n),
    }
}

/// The slow path of `exponent`: any number.
#[inline(never)]
fn any_exponent(n: u32) -> Option<u32>
    ensures { result ≡ reading.exponent_of n }
{
    let mut e = 32;
    while e > 0 {
        e -= 1;
        if 1 << e == n {
            return Some(e);
        }
    }
    None
}
