//! Reads the tokens of a text, one at a time. Core spec 6.2 and 6.3.

ghost use Rattle.std.specs.Prelude.{◌≡◌, ◌≢◌, ◌<◌, ◌≤◌, length, MatchOption, MatchResult, true, false, OnOk};
ghost use Rattle.std.specs.Prelude.{OnErr, IfSome, IfErr, IsUtf8, ◌↔◌, ◌⊎◌, List, [], ◌∷◌, ◌++◌};
ghost use Rattle.std.specs.Prelude.{IsTrue, IfNone, IfOk, None, encode_utf8, ℕ};
ghost use Rattle.std.specs.Str.{IsValidUpTo};
ghost use Rattle.wm_tokens.specs.exact.Scan as scan;
ghost use Rattle.wm_tokens.specs.TokenFaults.{FirstFault, IsPlace};
ghost use Rattle.wm_tokens.specs.Tokens as tokens;
ghost use Rattle.wm_tokens.specs.declared.faults.TextWhy.TheVariants.{NotUtf8, BadToken, OpenComment};
ghost use Rattle.wm_tokens.specs.declared.scan.Mode.TheVariants as mode;
ghost use Rattle.wm_tokens.specs.inner.Lexemes.{token_of, bytes_of, ahead_of, IsTold};
ghost use Rattle.wm_tokens.specs.inner.Places.{HasNoFloat, IsFault, IsFloat};

use crate::faults::{TextRefusal, TextWhy};
use crate::plain_spans::after_spans;
use crate::scan::{
    Class, Mode, Step, after_comment, after_line, after_spaces, after_string, atom_len, class_of,
    given_first, is_atom, is_float_alone, plain_atom, string_step,
};
use std::alloc::{AllocError, Global};

/// A token as it is in the text. Core spec 6.2.2.
#[derive(Clone, Copy, Debug)]
pub enum Lexeme<'a> {
    /// `(`
    Open,
    /// `)`
    Close,
    /// The text between the quotation marks of a string. `string_bytes` returns the bytes that it means.
    String(&'a [u8]),
    /// An identifier, a number, a float or a keyword.
    Atom(&'a [u8]),
}

/// The start of a text, and the text after it.
#[derive(Clone, Copy)]
pub enum Found<'a> {
    /// The text is empty.
    Nothing,
    /// White space or a comment.
    Blank(&'a [u8]),
    First(Lexeme<'a>, &'a [u8]),
    Fault(TextWhy),
}

/// Returns the start of the text, and the text after it.
#[inline(always)]
#[tactic(auto, unfolding(crate::specs::exact::Scan::ahead, crate::specs::exact::Scan::told))]
pub fn ahead(text: &[u8]) -> Found
    ensures found { ahead_of result ≡ scan.ahead text.now }
    ensures why { IsTold (scan.told text.now) result }
{
    match text {
        [] => Found::Nothing,
        [c, more @ ..] => match class_of(*c) {
            Class::Space => Found::Blank(more),
            Class::Semicolon => semicolon(more),
            Class::Opening => opening(more),
            Class::Closing => Found::First(Lexeme::Close, more),
            Class::Quote => quote(more),
            Class::Atom => atom(text),
            Class::Other => Found::Fault(TextWhy::BadToken),
        },
    }
}

/// Does as `ahead` for a text that begins with a semicolon, given the text after it.
fn semicolon(text: &[u8]) -> Found
    ensures found { ahead_of result ≡ scan.ahead_semicolon text.now }
    ensures why { IsTold BadToken result }
{
    match text {
        [b';', line @ ..] => Found::Blank(after_line(line)),
        _ => Found::Fault(TextWhy::BadToken),
    }
}

/// Does as `ahead` for a text that begins with an opening parenthesis, given the text after it.
fn opening(text: &[u8]) -> Found
    ensures found { ahead_of result ≡ scan.ahead_opening text.now }
    ensures why { IsTold OpenComment result }
{
    match text {
        [b';', inner @ ..] => match after_comment(inner) {
            Some(rest) => Found::Blank(rest),
            None => Found::Fault(TextWhy::OpenComment),
        },
        _ => Found::First(Lexeme::Open, text),
    }
}

/// Does as `ahead` for a text that begins with a quotation mark, given the text after it.
#[tactic(auto, using(crate::proofs::Strings::string_laws))]
fn quote(text: &[u8]) -> Found
    ensures found { ahead_of result ≡ scan.string_or_fault (scan.string_in mode.Plain text.now) }
    ensures why { IsTold (scan.why_in mode.Plain text.now) result }
{
    match after_string(text) {
        Ok(rest) => {
            let (inside, _) = text.split_at(text.len() - rest.len() - 1);
            Found::First(Lexeme::String(inside), rest)
        }
        Err(why) => Found::Fault(why),
    }
}

/// Does as `ahead` for a text that begins with a character of atoms.
fn atom(text: &[u8]) -> Found
    requires { scan.starts_atom text.now }
    ensures found { ahead_of result ≡ scan.ahead text.now }
    ensures why { IsTold BadToken result }
{
    let (atom, rest) = text.split_at(atom_len(text));
    if is_atom(atom) {
        Found::First(Lexeme::Atom(atom), rest)
    } else {
        Found::Fault(TextWhy::BadToken)
    }
}

/// Returns the parenthesis at the start of the text, and the text after it. Returns `None` only if the text
/// begins with no parenthesis. A block comment begins with none.
#[inline(always)]
fn parenthesis(text: &[u8]) -> Option<(Lexeme, &[u8])>
    ensures found { IfSome result (λ x. scan.first (token_of x.0) x.1.now ≡ scan.ahead text.now) }
    ensures none { IfNone result ((rest : List ℕ) → (scan.first tokens.open_paren rest ≢ scan.ahead text.now)
        × (scan.first tokens.close_paren rest ≢ scan.ahead text.now)) }
{
    let [c, more @ ..] = text else {
        return None;
    };
    match *c {
        b')' => Some((Lexeme::Close, more)),
        b'(' => opening_alone(more),
        _ => None,
    }
}

/// Returns an opening parenthesis and the text after it, which it is given. Returns `None` if and only if the
/// two begin a block comment.
#[inline(always)]
fn opening_alone(text: &[u8]) -> Option<(Lexeme, &[u8])>
    ensures found { IfSome result (λ x. scan.first (token_of x.0) x.1.now ≡ scan.ahead_opening text.now) }
    ensures none { IfNone result ((rest : List ℕ)
        → scan.first tokens.open_paren rest ≢ scan.ahead_opening text.now) }
{
    match text {
        [b';', ..] => None,
        _ => Some((Lexeme::Open, text)),
    }
}

/// Returns the first token, and the text after it. Returns `None` at the end of the text, or at a lexical
/// error, which `check_tokens` finds. Most tokens that are read here are parentheses, which have an inline fast
/// path.
#[tactic(auto, using(crate::proofs::Whole::ahead_laws))]
pub fn next_token(text: &[u8]) -> Option<(Lexeme, &[u8])>
    ensures token { MatchOption result (scan.lexed text.now ≡ [])
        (λ x. scan.lexed text.now ≡ token_of x.0 ∷ scan.lexed x.1.now) }
    ensures shorter { IfSome result (λ x. length x.1.now < length text.now) }
{
    let rest = after_spaces(text);
    match parenthesis(rest) {
        Some((token, more)) => Some((token, more)),
        None => unspaced_token(rest),
    }
}

/// Does as `next_token`, for the loops that read most tokens: it finds a plain atom without a call.
#[inline(always)]
#[tactic(auto, using(crate::proofs::Whole::ahead_laws))]
pub fn first_token(text: &[u8]) -> Option<(Lexeme, &[u8])>
    ensures token { MatchOption result (scan.lexed text.now ≡ [])
        (λ x. scan.lexed text.now ≡ token_of x.0 ∷ scan.lexed x.1.now) }
    ensures shorter { IfSome result (λ x. length x.1.now < length text.now) }
{
    unspaced_token(after_spaces(text))
}

/// Does as `first_token`, after the white space bytes were skipped.
#[inline(always)]
#[tactic(auto, using(crate::proofs::Whole::ahead_laws))]
fn unspaced_token(text: &[u8]) -> Option<(Lexeme, &[u8])>
    ensures token { MatchOption result (scan.lexed text.now ≡ [])
        (λ x. scan.lexed text.now ≡ token_of x.0 ∷ scan.lexed x.1.now) }
    ensures shorter { IfSome result (λ x. length x.1.now < length text.now) }
{
    match plain_atom(text) {
        Some((atom, more)) => Some((Lexeme::Atom(atom), more)),
        None => any_token(text),
    }
}

/// Does as `first_token`, for any start of the text. The slow path.
#[inline(never)]
#[tactic(auto, using(crate::proofs::Whole::ahead_laws))]
fn any_token(text: &[u8]) -> Option<(Lexeme, &[u8])>
    ensures token { MatchOption result (scan.lexed text.now ≡ [])
        (λ x. scan.lexed text.now ≡ token_of x.0 ∷ scan.lexed x.1.now) }
    ensures shorter { IfSome result (λ x. length x.1.now < length text.now) }
{
    let mut rest = text;
    loop {
        match ahead(rest) {
            Found::Nothing | Found::Fault(_) => return None,
            Found::Blank(more) => rest = after_spaces(more),
            Found::First(token, more) => return Some((token, more)),
        }
    }
}

/// Does as `ahead`, but finds a plain atom without a call.
fn first_found(text: &[u8]) -> Found
    ensures { ahead_of result ≡ scan.ahead text.now }
{
    match plain_atom(text) {
        Some((atom, more)) => Found::First(Lexeme::Atom(atom), more),
        None => ahead(text),
    }
}

/// Returns the offset of the first atom that is a token only as a float. Returns `None` if there is none before
/// the first lexical error.
#[tactic(auto, using(crate::proofs::Places::float_laws))]
pub fn first_float(text: &[u8]) -> Option<usize>
    ensures { MatchOption result (HasNoFloat text.now) (λ at. IsFloat text.now at) }
{
    let mut rest = after_spaces(text);
    loop {
        match first_found(rest) {
            Found::Nothing | Found::Fault(_) => return None,
            Found::Blank(more) => rest = after_spaces(more),
            Found::First(Lexeme::Atom(atom), more) => {
                if is_float_alone(atom) {
                    return Some(text.len() - rest.len());
                }
                rest = after_spaces(more);
            }
            Found::First(_, more) => rest = after_spaces(more),
        }
    }
}

/// Returns the text from its first token on, after white space and comments. The result begins with no white
/// space, and is not a line comment alone.
#[tactic(auto, using(crate::proofs::Whole::ahead_laws, crate::proofs::Whole::spaced_laws))]
pub fn skip_space(text: &[u8]) -> &[u8]
    ensures same { scan.lexed result.now ≡ scan.lexed text.now }
    ensures within { length result.now ≤ length text.now }
    ensures passed { (space : List ℕ) × (text.now ≡ space ++ result.now) × tokens.LastSpace space
        × (result.now ≢ [] → tokens.Space space) }
    ensures no_blank { (part rest : List ℕ) → result.now ≡ part ++ rest → ¬ (tokens.Blank part) }
    ensures no_line { ¬ (tokens.LineComment result.now) }
{
    let mut rest = after_spaces(text);
    loop {
        match ahead(rest) {
            Found::Blank(more) => rest = after_spaces(more),
            _ => return rest,
        }
    }
}

/// Checks that a text is UTF-8 and has tokens. `next_token` then finds these tokens, one after another.
/// Core spec 6.2 and 6.3.
///
/// Fails with `NotUtf8` if the text is not UTF-8; the offset is the length of its longest front that is.
/// Otherwise fails with the first lexical error. Its offset is the first byte of the wrong token, or the length
/// of the text if a comment or a string does not end.
#[tactic(auto, using(crate::proofs::Whole::stand_has))]
pub fn check_tokens(text: &[u8]) -> Result<(), TextRefusal>
    ensures ok { OnOk result (tokens.Tokens text.now (scan.lexed text.now)) }
    ensures err { OnErr result ((k : List tokens.Token) → tokens.Tokens text.now k → ⊥) }
    ensures utf8 { IfErr result (λ e. (e.why ≡ NotUtf8) ↔ (¬ (IsUtf8 text.now))) }
    ensures fault { IfErr result (λ e. e.why ≢ NotUtf8 → FirstFault true text.now e.why e.at) }
    ensures at { IfErr result (λ e. e.at ≤ length text.now) }
    ensures utf8_at { IfErr result (λ e. e.why ≡ NotUtf8 → IsValidUpTo text.now e.at) }
{
    match std::str::from_utf8(text) {
        Ok(_) => check_whole(text),
        Err(error) => Err(TextRefusal {
            at: error.valid_up_to(),
            why: TextWhy::NotUtf8,
        }),
    }
}

/// Checks that a text has tokens. Fails with the first lexical error, if the text is UTF-8.
#[tactic(auto, using(crate::proofs::Whole::stand_laws, crate::proofs::Places::step_laws, crate::proofs::PlainSpans::kept_laws))]
fn check_whole(text: &[u8]) -> Result<(), TextRefusal>
    ensures tokens { MatchResult result (λ _. scan.has_tokens text.now ≡ true)
        (λ _. scan.has_tokens text.now ≡ false) }
    ensures fault { IfErr result (λ e. IsFault text.now e) }
{
    let mut rest = after_spans(text);
    loop {
        match plain_atom(rest) {
            Some((_, more)) => rest = after_spaces(more),
            None => match ahead(rest) {
                Found::Nothing => return Ok(()),
                Found::Fault(why) => return Err(fault(text, rest, why)),
                Found::Blank(more) => rest = after_spans(more),
                Found::First(Lexeme::Open, more) => rest = after_spaces(more),
                Found::First(_, more) => rest = after_spans(more),
            },
        }
    }
}

/// Returns the refusal for a lexical error at the start of `rest`, with its offset in `text`.
#[tactic(auto, using(crate::proofs::Places::place_front))]
fn fault(text: &[u8], rest: &[u8], why: TextWhy) -> TextRefusal
    requires within { length rest.now ≤ length text.now }
    ensures why { result.why ≡ why }
    ensures at { IsPlace why text.now rest.now result.at }
{
    let at = match why {
        TextWhy::OpenComment | TextWhy::OpenString => text.len(),
        _ => text.len() - rest.len(),
    };
    TextRefusal { at, why }
}

/// Returns the bytes of a string, given the text between its quotation marks. Fails if memory runs out.
/// Core spec 6.3.3.
#[tactic(auto, using(crate::proofs::Strings::given_laws))]
pub fn string_bytes(alloc: Global, text: &[u8]) -> Result<Vec<u8>, AllocError>
    ensures { IfOk result (λ v. v.items ≡ bytes_of text.now) }
{
    let mut bytes = Vec::new(alloc);
    let mut rest = push_given(&mut bytes, text)?;
    let mut mode = Mode::Plain;
    while let [c, more @ ..] = rest {
        rest = more;
        match string_step(mode, *c) {
            Step::On(next) => mode = next,
            Step::Byte(byte) => {
                bytes.push(byte)?;
                rest = push_given(&mut bytes, more)?;
                mode = Mode::Plain;
            }
            Step::Scalar(n) => {
                push_scalar(&mut bytes, n)?;
                rest = push_given(&mut bytes, more)?;
                mode = Mode::Plain;
            }
            Step::End | Step::Bad => return Ok(bytes),
        }
    }
    Ok(bytes)
}

/// Appends the first bytes of a string, as long as `given_first` finds them, and returns the rest.
fn push_given<'a>(bytes: &mut Vec<u8>, text: &'a [u8]) -> Result<&'a [u8], AllocError>
    ensures given { IfOk result (λ r. bytes.new.items ++ scan.given_in mode.Plain r.now
        ≡ bytes.old.items ++ scan.given_in mode.Plain text.now) }
    ensures within { IfOk result (λ r. length r.now ≤ length text.now) }
    ensures none { IfOk result (λ r. scan.byte_at 3 mode.Plain r.now ≡ None) }
{
    let mut rest = text;
    while let Some((byte, more)) = given_first(rest) {
        bytes.push(byte)?;
        rest = more;
    }
    Ok(rest)
}

/// Appends the UTF-8 of a scalar value.
fn push_scalar(bytes: &mut Vec<u8>, n: u32) -> Result<(), AllocError>
    requires { IsTrue (tokens.is_scalar n) }
    ensures { OnOk result (bytes.new.items ≡ bytes.old.items ++ encode_utf8 n) }
{
    match char::from_u32(n) {
        Some(c) => {
            let mut buffer = [0; 4];
            let text = c.encode_utf8(&mut buffer);
            bytes.extend_from_slice(text.as_bytes())
        }
        None => Ok(()),
    }
}
