//! Readers of instruction operands. A reader takes the rest of the text, and returns a value and the text after it.

ghost use Rattle.std.specs.Prelude.{◌≡◌, ◌≢◌, ◌≤◌, ◌<◌, [], Some, None, Option};
ghost use Rattle.std.specs.Prelude.{IfErr, IfOk, IsTrue, length, true, ℕ};
ghost use Rattle.wm_floats.specs.exact.Atoms as atoms;
ghost use Rattle.wm_tokens.specs.declared.faults.TextWhy.TheVariants.{Expected};
ghost use Rattle.wm_bodies.specs.exact.Reading as reading;
ghost use Rattle.wm_tokens.specs.exact.Scan.{lexed};
ghost use Rattle.wm_bodies.specs.exact.TypeUses as uses;
ghost use Rattle.wm_tokens.specs.inner.Ends.{can_end};
ghost use Rattle.wm_bodies.specs.inner.Ids.{id_of};
ghost use Rattle.wm_bodies.specs.inner.Pieces.{labels};
ghost use Rattle.wm_bodies.specs.inner.Views.{IsRefusal, Reads};
ghost use Rattle.wm_bodies.specs.inner.Firsts.{BeginsWord};
ghost use Rattle.wm_syntax.specs.declared.instructions.FloatType.TheVariants as float;

use crate::blocks::OpenBlocks;
use crate::identifiers::{Space, is_same_id};
use crate::literals::{
    after_key, constant32, constant64, exponent, float32, float64, is, is_float, is_id, is_word,
    unsigned,
};
use std::alloc::Global;
use wm_syntax::instructions::MemArg;
use wm_syntax::profile::{Feature, Profile};
use wm_syntax::types::ValType;
use wm_tokens::faults::{TextFault, TextWhy};
use wm_tokens::lexeme::{Lexeme, first_token, next_token, skip_space};
use wm_tokens::scan::after_spaces;

/// Returns a refusal at the first token of the text. `why` must be `Expected` or `Memory` if no token is left.
#[tactic(auto, using(crate::proofs::Ends::nothing_left))]
pub fn refuse(why: TextWhy, text: &[u8]) -> TextFault
    requires { lexed text.now ≡ [] → IsTrue (can_end why) }
    ensures why { result.why ≡ why }
    ensures left { result.left ≤ length text.now }
{
    TextFault {
        why,
        left: skip_space(text).len(),
    }
}

/// Returns the index or depth that an atom writes as a number. The atom is the first token of `text`.
/// Fails with `Expected` for a keyword or an identifier, with `BadInteger` for another atom that is no `u32`.
#[inline(always)]
pub fn number(atom: &[u8], text: &[u8]) -> Result<u32, TextFault>
    requires { lexed text.now ≢ [] }
    ensures { Reads (λ n. n) result (reading.unsigned_of atom.now) }
{
    match unsigned(atom) {
        Some(n) => Ok(n),
        None => Err(no_integer(atom, text)),
    }
}

/// Converts what an identifier resolved to into an index or a depth. The identifier is the first token of `text`.
/// Fails with `UnknownId` for `None`, and for 2^32 or more.
pub fn known(place: Option<usize>, text: &[u8]) -> Result<u32, TextFault>
    requires { lexed text.now ≢ [] }
    ensures { Reads (λ n. n) result (reading.small_place place) }
{
    match place {
        Some(x) if x < 0x1_0000_0000 => Ok(x as u32),
        _ => Err(refuse(TextWhy::UnknownId, text)),
    }
}

/// Applies `make` to an operand that was read. The text after it stays.
#[inline(always)]
pub fn with<'a, T, U, F: FnOnce(T) -> U>(make: F, read: (T, &'a [u8])) -> (U, &'a [u8])
    requires { F.pre make read.0 }
    ensures made { F.post make read.entry.0 result.0 }
    ensures rest { result.1.now ≡ read.entry.1.now }
{
    let (operand, rest) = read;
    (make(operand), rest)
}

/// Reads an atom as a value. `$no` is the refusal of an atom that is no such value.
#[macro_export]
macro_rules! value_in {
    ($token:expr, $text:expr, $atom:ident => $value:expr, $no:expr) => {
        match $token {
            Some((Lexeme::Atom($atom), rest)) => match $value {
                Some(value) => Ok((value, rest)),
                None => Err($no),
            },
            _ => Err(refuse(TextWhy::Expected, $text)),
        }
    };
}

/// Reads an index: a number, or an identifier of this index space. Core spec 6.6.1.
/// Fails with `UnknownId` if the space lacks the identifier, with `BadInteger` for a numeral that is no `u32`,
/// and else with `Expected`.
pub fn index<'a>(space: &Space, text: &'a [u8]) -> Result<(u32, &'a [u8]), TextFault>
    ensures { Reads (λ x. (x.0, lexed x.1.now)) result
        (reading.atom_at (reading.index_of space.now) (lexed text.now)) }
{
    match first_token(text) {
        Some((Lexeme::Atom(atom), rest)) if is_id(atom) => {
            Ok((known(space.place(atom), text)?, rest))
        }
        Some((Lexeme::Atom(atom), rest)) => Ok((number(atom, text)?, rest)),
        _ => Err(refuse(TextWhy::Expected, text)),
    }
}

/// Reads a number below 2^32, such as the index of a segment.
/// Fails with `BadInteger` for a numeral that is no `u32`, and else with `Expected`.
pub fn natural(text: &[u8]) -> Result<(u32, &[u8]), TextFault>
    ensures { Reads (λ x. (x.0, lexed x.1.now)) result
        (reading.atom_at reading.unsigned_of (lexed text.now)) }
{
    match next_token(text) {
        Some((Lexeme::Atom(atom), rest)) => Ok((number(atom, text)?, rest)),
        _ => Err(refuse(TextWhy::Expected, text)),
    }
}

/// Reads the constant of an `i32.const`, signed or unsigned. Core spec 6.3.1.
/// Fails with `BadInteger` for a numeral that is no such integer, and else with `Expected`.
pub fn integer_32(text: &[u8]) -> Result<(i32, &[u8]), TextFault>
    ensures { Reads (λ x. (x.0, lexed x.1.now)) result
        (reading.atom_at (reading.integer_of 32) (lexed text.now)) }
{
    value_in!(first_token(text), text, atom => constant32(atom), no_integer(atom, text))
}

/// Reads the constant of an `i64.const`, signed or unsigned. Core spec 6.3.1. It fails as `integer_32` does.
pub fn integer_64(text: &[u8]) -> Result<(i64, &[u8]), TextFault>
    ensures { Reads (λ x. (x.0, lexed x.1.now)) result
        (reading.atom_at (reading.integer_of 64) (lexed text.now)) }
{
    value_in!(next_token(text), text, atom => constant64(atom), no_integer(atom, text))
}

/// Reads the constant of an `f32.const`, and returns its bits. Core spec 6.3.2.
/// Fails with `BadFloat` for a literal that is no f32, else with `Expected`, and with `Memory`.
pub fn float_32(alloc: Global, text: &[u8]) -> Result<(u32, &[u8]), TextFault>
    ensures { Reads (λ x. (x.0, lexed x.1.now)) result
        (reading.atom_at (atoms.float_of float.F32) (lexed text.now)) }
{
    value_in!(next_token(text), text, atom => float32(alloc, atom)?, no_float(atom, text))
}

/// Reads the constant of an `f64.const`, and returns its bits. Core spec 6.3.2. It fails as `float_32` does.
pub fn float_64(alloc: Global, text: &[u8]) -> Result<(u64, &[u8]), TextFault>
    ensures { Reads (λ x. (x.0, lexed x.1.now)) result
        (reading.atom_at (atoms.float_of float.F64) (lexed text.now)) }
{
    value_in!(next_token(text), text, atom => float64(alloc, atom)?, no_float(atom, text))
}

/// Returns the refusal of an atom that is no float, where one is expected. The atom is the first token of `text`.
fn no_float(atom: &[u8], text: &[u8]) -> TextFault
    requires { lexed text.now ≢ [] }
    ensures { IsRefusal result.why }
{
    // `nan:` begins a NaN with a payload
    if is_id(atom) || (is_word(atom) && !atom.starts_with(b"nan:")) {
        refuse(TextWhy::Expected, text)
    } else {
        refuse(TextWhy::BadFloat, text)
    }
}

/// Returns the refusal of an atom that is no integer, where one is expected. The atom is the first token of `text`.
#[inline(never)]
fn no_integer(atom: &[u8], text: &[u8]) -> TextFault
    requires { lexed text.now ≢ [] }
    ensures { IsRefusal result.why }
{
    if is_word(atom) || is_id(atom) {
        refuse(TextWhy::Expected, text)
    } else {
        refuse(TextWhy::BadInteger, text)
    }
}

/// Whether the first token is an atom other than a keyword, as each index is.
pub fn begins_index(text: &[u8]) -> bool
    ensures { result ≡ reading.begins_index (lexed text.now) }
{
    matches!(next_token(text), Some((Lexeme::Atom(atom), _)) if !is_word(atom))
}

/// Reads a label: a number, or the identifier of an open block. Core spec 6.5.1 and 6.6.1.
/// Returns a depth: 0 is the innermost block. It fails as `index` does.
pub fn label<'a>(blocks: &OpenBlocks, text: &'a [u8]) -> Result<(u32, &'a [u8]), TextFault>
    ensures shorter { IfOk result (λ x. length x.1.now < length text.now) }
    ensures read { Reads (λ x. (x.0, lexed x.1.now)) result
        (reading.atom_at (reading.index_of (labels blocks.now)) (lexed text.now)) }
{
    match first_token(text) {
        Some((Lexeme::Atom(atom), rest)) if is_id(atom) => {
            Ok((known(blocks.depth(atom), text)?, rest))
        }
        Some((Lexeme::Atom(atom), rest)) => Ok((number(atom, text)?, rest)),
        _ => Err(refuse(TextWhy::Expected, text)),
    }
}

/// Returns the text after its leading white space; comments stay. Optional parts are searched from there, so that
/// white space is passed over once if they are absent.
#[inline(always)]
#[tactic(auto, using(wm_tokens::proofs::Whole::spaces_lexed))]
fn unspaced(text: &[u8]) -> &[u8]
    ensures { lexed result.now ≡ lexed text.now }
{
    after_spaces(text)
}

/// Whether the first byte begins a keyword. Most optional identifiers are absent. Then this test saves reading the
/// next keyword to its end.
#[inline(always)]
#[tactic(auto, using(crate::proofs::Keys::word_begins))]
fn begins_word(text: &[u8]) -> bool
    ensures { result ≡ true → BeginsWord (lexed text.now) }
{
    matches!(text, [b'a'..=b'z', ..])
}

/// Reads an optional identifier. Core spec 6.3.5.
#[tactic(auto, using(crate::proofs::Keys::word_id))]
pub fn id(text: &[u8]) -> (Option<&[u8]>, &[u8])
    ensures { Some (id_of result.0, lexed result.1.now) ≡ reading.id_at (lexed text.now) }
{
    let first = unspaced(text);
    if begins_word(first) {
        return (None, first);
    }
    match next_token(first) {
        Some((Lexeme::Atom(atom), rest)) if is_id(atom) => (Some(atom), rest),
        _ => (None, first),
    }
}

/// Reads the identifier of a block, which may be repeated after its `else` or `end`. Core spec 6.5.2.
/// Fails with `LabelEnd` for another identifier.
#[tactic(auto, using(crate::proofs::Keys::word_again))]
pub fn again<'a>(id: Option<&[u8]>, text: &'a [u8]) -> Result<&'a [u8], TextFault>
    ensures { Reads (λ r. (tt, lexed r.now)) result (reading.again_at (id_of id.entry) (lexed text.now)) }
{
    let first = unspaced(text);
    if begins_word(first) {
        return Ok(text);
    }
    match next_token(first) {
        Some((Lexeme::Atom(atom), rest)) => {
            if !is_id(atom) {
                Ok(text)
            } else if is_same_id(id, atom) {
                Ok(rest)
            } else {
                Err(refuse(TextWhy::LabelEnd, first))
            }
        }
        _ => Ok(text),
    }
}

/// Reads an opening parenthesis. Fails with `Expected` for anything else.
pub fn open(text: &[u8]) -> Result<&[u8], TextFault>
    ensures read { Reads (λ r. (tt, lexed r.now)) result (reading.open_at (lexed text.now)) }
    ensures nothing { lexed text.now ≡ [] → IfErr result (λ e. e.why ≡ Expected) }
{
    match next_token(text) {
        Some((Lexeme::Open, rest)) => Ok(rest),
        _ => Err(refuse(TextWhy::Expected, text)),
    }
}

/// Whether the first token is an opening parenthesis.
pub fn begins_open(text: &[u8]) -> bool
    ensures { result ≡ uses.begins_open (lexed text.now) }
{
    matches!(next_token(text), Some((Lexeme::Open, _)))
}

/// Reads a closing parenthesis. Fails with `Expected` for anything else.
pub fn close(text: &[u8]) -> Result<&[u8], TextFault>
    ensures { Reads (λ r. (tt, lexed r.now)) result (reading.close_at (lexed text.now)) }
{
    match next_token(text) {
        Some((Lexeme::Close, rest)) => Ok(rest),
        _ => Err(refuse(TextWhy::Expected, text)),
    }
}

/// Reads a closing parenthesis where a form could come too. Fails with `Expected` for anything else.
/// If a form begins there, the refusal is at the token after its opening parenthesis.
pub fn close_forms(text: &[u8]) -> Result<&[u8], TextFault>
    ensures { Reads (λ r. (tt, lexed r.now)) result (reading.close_at (lexed text.now)) }
{
    match next_token(text) {
        Some((Lexeme::Close, rest)) => Ok(rest),
        Some((Lexeme::Open, inner)) => Err(refuse(TextWhy::Expected, inner)),
        _ => Err(refuse(TextWhy::Expected, text)),
    }
}

/// Reads this keyword. Fails with `Expected` for anything else.
pub fn word<'a>(word: &[u8], text: &'a [u8]) -> Result<&'a [u8], TextFault>
    ensures { Reads (λ r. (tt, lexed r.now)) result
        (reading.atom_at (reading.word_of word.now) (lexed text.now)) }
{
    match next_token(text) {
        Some((Lexeme::Atom(atom), rest)) if is(atom, word) => Ok(rest),
        _ => Err(refuse(TextWhy::Expected, text)),
    }
}

/// Returns the value whose keyword is this atom, if any.
#[macro_export]
macro_rules! named {
    ($atom:expr, $($word:literal => $value:expr,)*) => {
        $(if is($atom, $word) { Some($value) } else)* { None }
    };
}

/// Returns the value type that an atom names, if any. Core spec 6.4.1.
pub(crate) fn type_named(atom: &[u8]) -> Option<ValType>
    ensures { result ≡ reading.type_named atom.now }
{
    named!(
        atom,
        b"i32" => ValType::I32,
        b"i64" => ValType::I64,
        b"f32" => ValType::F32,
        b"f64" => ValType::F64,
    )
}

/// Returns the value type that an atom names, if any and if the profile has it.
#[tactic(auto, using(crate::proofs::Immediates::type_laws))]
pub fn type_of(profile: Profile, atom: &[u8]) -> Option<ValType>
    ensures { result ≡ reading.type_of profile atom.now }
{
    let ty = type_named(atom)?;
    profile.has(ty.feature()).then_some(ty)
}

/// Whether an atom looks like a floating-point type or instruction, and the profile has no floats. No contract: it
/// decides only which name a refusal gets.
fn is_left_out(profile: Profile, atom: &[u8]) -> bool {
    !profile.has(Feature::Floats) && is_float(atom)
}

/// Returns the refusal of an atom that is no value type of the profile: `Float` or `Expected`. The atom is the first
/// token of `text`.
pub(crate) fn no_type(profile: Profile, atom: &[u8], text: &[u8]) -> TextFault
    requires { lexed text.now ≢ [] }
    ensures { IsRefusal result.why }
{
    if is_left_out(profile, atom) {
        refuse(TextWhy::Float, text)
    } else {
        refuse(TextWhy::Expected, text)
    }
}

/// Returns the refusal of an atom that names no instruction of the profile: `Float`, `UnknownWord` or `Expected`. The
/// atom is the first token of `text`.
pub fn no_instruction(profile: Profile, atom: &[u8], text: &[u8]) -> TextFault
    requires { lexed text.now ≢ [] }
    ensures { IsRefusal result.why }
{
    if is_left_out(profile, atom) {
        refuse(TextWhy::Float, text)
    } else if is_word(atom) {
        refuse(TextWhy::UnknownWord, text)
    } else {
        refuse(TextWhy::Expected, text)
    }
}

/// Reads a value type of the profile. Core spec 6.4.1.
/// Fails with `Float` for a name of floats that the profile lacks, and else with `Expected`.
pub fn val_type(profile: Profile, text: &[u8]) -> Result<(ValType, &[u8]), TextFault>
    ensures { Reads (λ x. (x.0, lexed x.1.now)) result
        (reading.atom_at (reading.type_of profile) (lexed text.now)) }
{
    value_in!(next_token(text), text, atom => type_of(profile, atom), no_type(profile, atom, text))
}

/// Reads `( name valtype )`, where `name` is the keyword.
pub fn paren_type<'a>(
    profile: Profile,
    name: &[u8],
    text: &'a [u8],
) -> Result<(ValType, &'a [u8]), TextFault>
    ensures { Reads (λ x. (x.0, lexed x.1.now)) result
        (reading.paren_at name.now (reading.atom_at (reading.type_of profile)) (lexed text.now)) }
{
    let rest = open(text)?;
    let rest = word(name, rest)?;
    let (ty, rest) = val_type(profile, rest)?;
    let rest = close(rest)?;
    Ok((ty, rest))
}

/// Reads the optional result type of a block. Core spec 6.4.2 and 6.5.2.
#[tactic(auto, using(crate::proofs::Keys::word_type))]
pub fn block_type(profile: Profile, text: &[u8]) -> Result<(Option<ValType>, &[u8]), TextFault>
    ensures { Reads (λ x. (x.0, lexed x.1.now)) result (reading.block_type_at profile (lexed text.now)) }
{
    let first = unspaced(text);
    if begins_word(first) {
        return Ok((None, first));
    }
    match next_token(first) {
        Some((Lexeme::Open, _)) => {
            let (ty, rest) = paren_type(profile, b"result", first)?;
            Ok((Some(ty), rest))
        }
        _ => Ok((None, first)),
    }
}

/// Whether the first byte begins a keyword, and differs from the key's. Then the key is absent, and the keyword need
/// not be read to its end.
#[inline(always)]
#[tactic(auto, using(crate::proofs::Keys::other_key))]
fn begins_other_word(key: &[u8], text: &[u8]) -> bool
    ensures { result ≡ true → (usual : ℕ)
        → reading.key_at key.now usual (lexed text.now) ≡ Some (usual, lexed text.now) }
{
    match text {
        [c @ b'a'..=b'z', ..] => match key {
            [first, ..] => *first != *c,
            [] => false,
        },
        _ => false,
    }
}

/// Reads a key such as `offset=` with its number, or returns `usual` if the key is absent. Core spec 6.5.5.
/// Fails with `BadInteger` if no `u32` follows the key.
pub fn key<'a>(key: &[u8], usual: u32, text: &'a [u8]) -> Result<(u32, &'a [u8]), TextFault>
    ensures { Reads (λ x. (x.0, lexed x.1.now)) result (reading.key_at key.now usual (lexed text.now)) }
{
    let first = unspaced(text);
    if begins_other_word(key, first) {
        return Ok((usual, first));
    }
    match first_token(first) {
        Some((Lexeme::Atom(atom), rest)) => match after_key(key, atom) {
            Some(digits) => match unsigned(digits) {
                Some(n) => Ok((n, rest)),
                None => Err(refuse(TextWhy::BadInteger, first)),
            },
            None => Ok((usual, first)),
        },
        _ => Ok((usual, first)),
    }
}

/// Reads the memory argument of a load or store of `width` bytes. Core spec 6.5.5.
/// Fails with `BadInteger` as `key` does, and with `BadAlign` if the alignment is no power of two.
#[tactic(auto, using(crate::proofs::Ends::align_stands))]
pub fn access(width: u32, text: &[u8]) -> Result<(MemArg, &[u8]), TextFault>
    requires { reading.exponent_of width ≢ None }
    ensures { Reads (λ x. (x.0, lexed x.1.now)) result (reading.access_at width (lexed text.now)) }
{
    let (offset, rest) = key(b"offset=", 0, text)?;
    let (bytes, after) = key(b"align=", width, rest)?;
    match exponent(bytes) {
        Some(align) => Ok((MemArg { align, offset }, after)),
        None => Err(refuse(TextWhy::BadAlign, rest)),
    }
}
