//! Overwrites the older keywords of a text by those of the standard.

ghost use Rattle.std.specs.Map.{lookup};
ghost use Rattle.std.specs.Prelude.{◌≡◌, ◌-◌, ◌<◌, ◌≤◌, ◌++◌, ℕ, List, IfOk, IfErr, IfSome, MatchOption};
ghost use Rattle.std.specs.Prelude.{length, take};
ghost use Rattle.std.specs.Option.{option_copied};
ghost use Rattle.std.specs.Str.{bytes_eq};
ghost use Rattle.wm_tokens.specs.inner.Lexemes.{token_of};
ghost use Rattle.wm_read.specs.inner.Renewed.{Renewed, filled_words, part_for};

use std::alloc::{AllocError, Global};
use wm_tokens::lexeme::{Found, Lexeme, ahead};

/// Whether an atom is this keyword.
fn is(atom: &[u8], word: &[u8]) -> bool
    ensures { result ≡ bytes_eq atom.now word.now }
{
    atom == word
}

/// Returns the standard keyword for an older one, padded with spaces to the same length. `None` for any other atom.
fn standard_word(atom: &[u8]) -> Option<&'static [u8]>
    ensures { option_copied result ≡ lookup (bytes_eq atom.now) filled_words }
{
    if is(atom, b"get_local") {
        Some(b"local.get")
    } else if is(atom, b"set_local") {
        Some(b"local.set")
    } else if is(atom, b"tee_local") {
        Some(b"local.tee")
    } else if is(atom, b"get_global") {
        Some(b"global.get")
    } else if is(atom, b"set_global") {
        Some(b"global.set")
    } else if is(atom, b"current_memory") {
        Some(b"memory.size   ")
    } else if is(atom, b"grow_memory") {
        Some(b"memory.grow")
    } else if is(atom, b"i32.wrap/i64") {
        Some(b"i32.wrap_i64")
    } else if is(atom, b"i64.extend_s/i32") {
        Some(b"i64.extend_i32_s")
    } else if is(atom, b"i64.extend_u/i32") {
        Some(b"i64.extend_i32_u")
    } else if is(atom, b"anyfunc") {
        Some(b"funcref")
    } else {
        None
    }
}

/// Returns the bytes to write for a token, given its own bytes.
fn part_of<'a>(token: Lexeme<'a>, text: &'a [u8]) -> &'a [u8]
    ensures { result.now ≡ part_for (token_of token.entry) text.now }
{
    match token {
        Lexeme::Atom(atom) => match standard_word(atom) {
            Some(word) => word,
            None => text,
        },
        _ => text,
    }
}

/// Returns the bytes of a text before its suffix `rest`.
fn before<'a>(text: &'a [u8], rest: &[u8]) -> &'a [u8]
    requires { length rest.now < length text.now }
    ensures { result.now ≡ take (length text.now - length rest.now) text.now }
{
    let (part, _) = text.split_at(text.len() - rest.len());
    part
}

/// Returns the bytes to write for the first token or white space, and the text after it. `None` if there is none.
#[tactic(auto, using(crate::proofs::OlderWords::part_laws))]
fn next_part(text: &[u8]) -> Option<(&[u8], &[u8])>
    ensures part { MatchOption result (Renewed text.now text.now)
        (λ x. (out : List ℕ) → Renewed x.1.now out → Renewed text.now (x.0.now ++ out)) }
    ensures shorter { IfSome result (λ x. length x.1.now < length text.now) }
{
    match ahead(text) {
        Found::Nothing | Found::Fault(_) => None,
        Found::Blank(rest) => Some((before(text, rest), rest)),
        Found::First(token, rest) => Some((part_of(token, before(text, rest)), rest)),
    }
}

/// Returns a copy of a text in which each older keyword is overwritten by that of the standard. Each token keeps its
/// offset. Fails only if memory is refused.
pub fn renewed(alloc: Global, text: &[u8]) -> Result<Vec<u8>, AllocError>
    ensures { IfOk result (λ v. Renewed text.now v.items) }
{
    let mut bytes = Vec::with_capacity(alloc, text.len())?;
    let mut rest = text;
    while let Some((part, more)) = next_part(rest) {
        bytes.extend_from_slice(part)?;
        rest = more;
    }
    bytes.extend_from_slice(rest)?;
    Ok(bytes)
}
