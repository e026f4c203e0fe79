//! Scans the bytes of a text: white space, comments, strings, atoms and numbers.

ghost use Rattle.std.specs.Prelude.{◌≡◌, ◌≤◌, ◌+◌, zero, length, take, drop, false, Some, None, MatchOption};
ghost use Rattle.std.specs.Prelude.{IfNone, IfSome, IfErr, MatchResult, ◌*◌, ◌<◌, ◌∷◌, get_or, min, true, ℕ};
ghost use Rattle.std.specs.Option.{option_map};
ghost use Rattle.wm_tokens.specs.exact.Scan as scan;
ghost use Rattle.wm_tokens.specs.declared.scan.Mode.TheVariants.{Plain, Escape, Digits};
ghost use Rattle.wm_tokens.specs.Tokens as tokens;
ghost use Rattle.wm_tokens.specs.inner.Lexemes.{part_of, IsMode, IsStep};

use crate::faults::TextWhy;
use wm_floats::atoms::has_form;

/// The kind of thing that a byte begins, between tokens.
#[derive(Clone, Copy, Debug, PartialEq, Eq)]
pub enum Class {
    Space,
    Semicolon,
    Opening,
    Closing,
    Quote,
    /// A character of atoms.
    Atom,
    /// The byte begins nothing.
    Other,
}

/// The state inside a string, before its next byte.
#[derive(Clone, Copy, Debug, PartialEq, Eq)]
pub enum Mode {
    /// Outside escapes.
    Plain,
    /// After a backslash.
    Escape,
    /// After the first digit of `\hh`, which has this value.
    Low(u8),
    /// After `\u`.
    Brace,
    /// Inside the braces: the value so far, at most 0x110000, and whether the last character is a digit.
    Digits(u32, bool),
}

/// The effect of a byte of a string.
#[derive(Clone, Copy, Debug, PartialEq, Eq)]
pub enum Step {
    /// It gives no byte yet.
    On(Mode),
    /// It gives this byte.
    Byte(u8),
    /// It gives the UTF-8 of this scalar value.
    Scalar(u32),
    /// It ends the string.
    End,
    /// It is not allowed here.
    Bad,
}

/// Returns the kind of thing that this byte begins.
#[inline(always)]
#[tactic(auto, unfolding(crate::specs::exact::Scan::class_of))]
pub fn class_of(byte: u8) -> Class
    ensures { result ≡ scan.class_of byte }
{
    match byte {
        b' ' | b'\t' | b'\n' | b'\r' => Class::Space,
        b';' => Class::Semicolon,
        b'(' => Class::Opening,
        b')' => Class::Closing,
        b'"' => Class::Quote,
        _ => {
            if is_id_char(byte) {
                Class::Atom
            } else {
                Class::Other
            }
        }
    }
}

// Each character of atoms is at its own index. All others have a comma, which is no character of atoms.
static ID_CHARS: [u8; 256] = *b"\
    ,,,,,,,,,,,,,,,,,,,,,,,,,,,,,,,,\
    ,!,#$%&',,*+,-./0123456789:,<=>?\
    @ABCDEFGHIJKLMNOPQRSTUVWXYZ,\\,^_\
    `abcdefghijklmnopqrstuvwxyz,|,~,\
    ,,,,,,,,,,,,,,,,,,,,,,,,,,,,,,,,\
    ,,,,,,,,,,,,,,,,,,,,,,,,,,,,,,,,\
    ,,,,,,,,,,,,,,,,,,,,,,,,,,,,,,,,\
    ,,,,,,,,,,,,,,,,,,,,,,,,,,,,,,,,";

/// Whether this byte is a character of atoms, `idchar`. Core spec 6.3.5.
#[inline(always)]
pub(crate) fn is_id_char(byte: u8) -> bool
    ensures { result ≡ tokens.is_id_char byte }
{
    ID_CHARS[byte as usize] != b','
}

/// Whether this byte is a decimal digit.
#[inline(always)]
fn is_digit(byte: u8) -> bool
    ensures { result ≡ tokens.is_digit byte }
{
    b'0' <= byte && byte <= b'9'
}

/// Whether this byte alone is white space. Core spec 6.2.3.
#[inline(always)]
fn is_space(byte: u8) -> bool
    ensures { result ≡ tokens.is_space byte }
{
    matches!(byte, b' ' | b'\t' | b'\n' | b'\r')
}

/// Returns the text from its first byte on that is not white space; comments stay. At most one such byte is
/// between most tokens, and it is skipped inline. A longer run is skipped out of line.
#[inline(always)]
pub fn after_spaces(text: &[u8]) -> &[u8]
    ensures { result.now ≡ scan.after_spaces text.now }
{
    match text {
        [first, more @ ..] if is_space(*first) => match more {
            [second, ..] if is_space(*second) => after_run(more),
            _ => more,
        },
        _ => text,
    }
}

/// Does as `after_spaces`, for a run of white space bytes.
#[inline(never)]
fn after_run(text: &[u8]) -> &[u8]
    ensures { result.now ≡ scan.after_spaces text.now }
{
    let mut rest = within_run(text);
    while let [c, more @ ..] = rest {
        if !is_space(*c) {
            return rest;
        }
        rest = more;
    }
    rest
}

/// Returns the text from near the end of the white space at its start, in steps of four bytes. It may return
/// the text unchanged: only speed depends on that.
#[inline(always)]
fn within_run(text: &[u8]) -> &[u8]
    ensures { scan.after_spaces result.now ≡ scan.after_spaces text.now }
{
    let mut rest = text;
    while let [a, b, c, d, more @ ..] = rest {
        if !(is_space(*a) && is_space(*b) && is_space(*c) && is_space(*d)) {
            return rest;
        }
        rest = more;
    }
    rest
}

/// Returns the text after a line comment, given the text after its `;;`. Core spec 6.2.4.
pub(crate) fn after_line(text: &[u8]) -> &[u8]
    ensures { result.now ≡ scan.after_line text.now }
{
    let mut rest = within_line(text);
    while let [c, more @ ..] = rest {
        rest = more;
        if *c == b'\n' {
            return rest;
        }
    }
    rest
}

/// Returns the text from near the end of a line comment, in steps of four bytes. It may return the text
/// unchanged: only speed depends on that.
#[inline(always)]
fn within_line(text: &[u8]) -> &[u8]
    ensures { scan.after_line result.now ≡ scan.after_line text.now }
{
    let mut rest = text;
    while let [a, b, c, d, more @ ..] = rest {
        if *a == b'\n' || *b == b'\n' || *c == b'\n' || *d == b'\n' {
            return rest;
        }
        rest = more;
    }
    rest
}

/// The start of the text inside a block comment, and the text after it.
enum Part<'a> {
    /// `;)`
    Close(&'a [u8]),
    /// `(;`
    Open(&'a [u8]),
    /// Another byte.
    On(&'a [u8]),
    /// The end of the text.
    End,
}

/// Returns the start of the text inside a block comment.
#[tactic(auto, unfolding(crate::specs::exact::Scan::comment_part))]
fn comment_part(text: &[u8]) -> Part
    ensures { part_of result ≡ scan.comment_part text.now }
{
    match text {
        [b';', b')', rest @ ..] => Part::Close(rest),
        [b'(', b';', rest @ ..] => Part::Open(rest),
        [_, rest @ ..] => Part::On(rest),
        [] => Part::End,
    }
}

/// Returns the text after a block comment, given the text after its `(;`. Returns `None` if the comment does
/// not end. Core spec 6.2.4.
#[tactic(auto, using(crate::proofs::Parts::part_laws))]
pub(crate) fn after_comment(text: &[u8]) -> Option<&[u8]>
    ensures { MatchOption result (scan.after_comment zero text.now ≡ None)
        (λ r. scan.after_comment zero text.now ≡ Some r.now) }
{
    let mut rest = text;
    let mut open = 0usize;
    loop {
        match comment_part(rest) {
            Part::Close(more) => {
                if open == 0 {
                    return Some(more);
                }
                open -= 1;
                rest = more;
            }
            Part::Open(more) => {
                open += 1;
                rest = more;
            }
            Part::On(more) => rest = more,
            Part::End => return None,
        }
    }
}

// Each hexadecimal digit has its value at its index. All others have 16.
static DIGITS: [u8; 256] = [
    16, 16, 16, 16, 16, 16, 16, 16, 16, 16, 16, 16, 16, 16, 16, 16, 16, 16, 16, 16, 16, 16, 16, 16,
    16, 16, 16, 16, 16, 16, 16, 16, 16, 16, 16, 16, 16, 16, 16, 16, 16, 16, 16, 16, 16, 16, 16, 16,
    0, 1, 2, 3, 4, 5, 6, 7, 8, 9, 16, 16, 16, 16, 16, 16, 16, 10, 11, 12, 13, 14, 15, 16, 16, 16,
    16, 16, 16, 16, 16, 16, 16, 16, 16, 16, 16, 16, 16, 16, 16, 16, 16, 16, 16, 16, 16, 16, 16, 10,
    11, 12, 13, 14, 15, 16, 16, 16, 16, 16, 16, 16, 16, 16, 16, 16, 16, 16, 16, 16, 16, 16, 16, 16,
    16, 16, 16, 16, 16, 16, 16, 16, 16, 16, 16, 16, 16, 16, 16, 16, 16, 16, 16, 16, 16, 16, 16, 16,
    16, 16, 16, 16, 16, 16, 16, 16, 16, 16, 16, 16, 16, 16, 16, 16, 16, 16, 16, 16, 16, 16, 16, 16,
    16, 16, 16, 16, 16, 16, 16, 16, 16, 16, 16, 16, 16, 16, 16, 16, 16, 16, 16, 16, 16, 16, 16, 16,
    16, 16, 16, 16, 16, 16, 16, 16, 16, 16, 16, 16, 16, 16, 16, 16, 16, 16, 16, 16, 16, 16, 16, 16,
    16, 16, 16, 16, 16, 16, 16, 16, 16, 16, 16, 16, 16, 16, 16, 16, 16, 16, 16, 16, 16, 16, 16, 16,
    16, 16, 16, 16, 16, 16, 16, 16, 16, 16, 16, 16, 16, 16,
];

/// The value of a hexadecimal digit; `None` for another byte. Core spec 6.3.1.
#[inline(always)]
pub fn digit_value(byte: u8) -> Option<u8>
    ensures { result ≡ tokens.digit_value byte }
{
    let value = DIGITS[byte as usize];
    if value < 16 { Some(value) } else { None }
}

/// Returns the effect of the next byte of a string. Core spec 6.3.3.
#[inline(always)]
#[tactic(auto, unfolding(crate::specs::exact::Scan::string_step))]
pub(crate) fn string_step(mode: Mode, byte: u8) -> Step
    requires { IsMode mode }
    ensures step { result ≡ scan.string_step mode byte }
    ensures next { IsStep result }
{
    match mode {
        Mode::Plain => match byte {
            b'"' => Step::End,
            b'\\' => Step::On(Mode::Escape),
            _ => {
                if byte >= 0x20 && byte != 0x7F {
                    Step::Byte(byte)
                } else {
                    Step::Bad
                }
            }
        },
        Mode::Escape => escape_step(byte),
        Mode::Low(high) => match digit_value(byte) {
            Some(low) => Step::Byte(high * 16 + low),
            None => Step::Bad,
        },
        Mode::Brace => {
            if byte == b'{' {
                Step::On(Mode::Digits(0, false))
            } else {
                Step::Bad
            }
        }
        Mode::Digits(n, after) => digits_step(n, after, byte),
    }
}

/// Returns the effect of the byte after a backslash.
#[tactic(auto, unfolding(crate::specs::exact::Scan::string_step))]
fn escape_step(byte: u8) -> Step
    ensures step { result ≡ scan.string_step Escape byte }
    ensures next { IsStep result }
{
    match byte {
        b't' => Step::Byte(0x09),
        b'n' => Step::Byte(0x0A),
        b'r' => Step::Byte(0x0D),
        b'"' => Step::Byte(0x22),
        b'\'' => Step::Byte(0x27),
        b'\\' => Step::Byte(0x5C),
        b'u' => Step::On(Mode::Brace),
        _ => match digit_value(byte) {
            Some(high) => Step::On(Mode::Low(high)),
            None => Step::Bad,
        },
    }
}

/// Returns the effect of a byte after `\u{`.
#[tactic(auto, unfolding(crate::specs::exact::Scan::string_step))]
fn digits_step(n: u32, after: bool, byte: u8) -> Step
    requires { n ≤ 0x11_0000 }
    ensures step { result ≡ scan.string_step (Digits n after) byte }
    ensures next { IsStep result }
{
    if byte == b'_' && after {
        return Step::On(Mode::Digits(n, false));
    }
    if byte == b'}' && after && is_scalar(n) {
        return Step::Scalar(n);
    }
    match digit_value(byte) {
        Some(d) => Step::On(Mode::Digits((n * 16 + u32::from(d)).min(0x11_0000), true)),
        None => Step::Bad,
    }
}

/// Whether a number is a scalar value of Unicode.
fn is_scalar(n: u32) -> bool
    ensures { result ≡ tokens.is_scalar n }
{
    n < 0xD800 || (0xE000 <= n && n < 0x11_0000)
}

/// Returns the first byte that a string gives, and the text after it. Returns `None` only if the string begins
/// with something else, or with an escape of more than three characters.
#[inline(always)]
#[tactic(auto, using(crate::proofs::Strings::rest_laws, crate::proofs::Strings::why_laws, crate::proofs::Strings::given_laws, crate::proofs::Strings::none_laws))]
pub(crate) fn given_first(text: &[u8]) -> Option<(u8, &[u8])>
    ensures rest { IfSome result (λ x. scan.rest_of (scan.string_in Plain text.now)
        ≡ scan.rest_of (scan.string_in Plain x.1.now)) }
    ensures why { IfSome result (λ x. scan.why_in Plain text.now ≡ scan.why_in Plain x.1.now) }
    ensures given { IfSome result (λ x. scan.given_in Plain text.now ≡ x.0 ∷ scan.given_in Plain x.1.now) }
    ensures shorter { IfSome result (λ x. length x.1.now < length text.now) }
    ensures none { IfNone result (scan.byte_at 3 Plain text.now ≡ None) }
{
    let [c, more @ ..] = text else {
        return None;
    };
    match string_step(Mode::Plain, *c) {
        Step::Byte(byte) => Some((byte, more)),
        Step::On(mode) => given_within(mode, more),
        Step::Scalar(_) | Step::End | Step::Bad => None,
    }
}

/// Does as `given_first` inside an escape, after its first character.
#[inline(always)]
#[tactic(auto, using(crate::proofs::Strings::rest_laws, crate::proofs::Strings::why_laws, crate::proofs::Strings::given_laws, crate::proofs::Strings::none_laws))]
fn given_within(mode: Mode, text: &[u8]) -> Option<(u8, &[u8])>
    requires { IsMode mode }
    ensures rest { IfSome result (λ x. scan.rest_of (scan.string_in mode text.now)
        ≡ scan.rest_of (scan.string_in Plain x.1.now)) }
    ensures why { IfSome result (λ x. scan.why_in mode text.now ≡ scan.why_in Plain x.1.now) }
    ensures given { IfSome result (λ x. scan.given_in mode text.now ≡ x.0 ∷ scan.given_in Plain x.1.now) }
    ensures shorter { IfSome result (λ x. length x.1.now < length text.now) }
    ensures none { IfNone result (scan.byte_at 2 mode text.now ≡ None) }
{
    let [c, more @ ..] = text else {
        return None;
    };
    match string_step(mode, *c) {
        Step::Byte(byte) => Some((byte, more)),
        Step::On(next) => given_last(next, more),
        Step::Scalar(_) | Step::End | Step::Bad => None,
    }
}

/// Does as `given_first` inside an escape, after its second character.
#[inline(always)]
#[tactic(auto, using(crate::proofs::Strings::rest_laws, crate::proofs::Strings::why_laws, crate::proofs::Strings::given_laws, crate::proofs::Strings::none_laws))]
fn given_last(mode: Mode, text: &[u8]) -> Option<(u8, &[u8])>
    requires { IsMode mode }
    ensures rest { IfSome result (λ x. scan.rest_of (scan.string_in mode text.now)
        ≡ scan.rest_of (scan.string_in Plain x.1.now)) }
    ensures why { IfSome result (λ x. scan.why_in mode text.now ≡ scan.why_in Plain x.1.now) }
    ensures given { IfSome result (λ x. scan.given_in mode text.now ≡ x.0 ∷ scan.given_in Plain x.1.now) }
    ensures shorter { IfSome result (λ x. length x.1.now < length text.now) }
    ensures none { IfNone result (scan.byte_at 1 mode text.now ≡ None) }
{
    let [c, more @ ..] = text else {
        return None;
    };
    match string_step(mode, *c) {
        Step::Byte(byte) => Some((byte, more)),
        Step::On(_) | Step::Scalar(_) | Step::End | Step::Bad => None,
    }
}

/// Returns the string after all the bytes at its start that `given_first` finds.
fn after_given(text: &[u8]) -> &[u8]
    ensures rest { scan.rest_of (scan.string_in Plain result.now)
        ≡ scan.rest_of (scan.string_in Plain text.now) }
    ensures why { scan.why_in Plain result.now ≡ scan.why_in Plain text.now }
    ensures within { length result.now ≤ length text.now }
    ensures none { scan.byte_at 3 Plain result.now ≡ None }
{
    let mut rest = text;
    while let Some((_, more)) = given_first(rest) {
        rest = more;
    }
    rest
}

/// Returns the text after a string, given the text after its opening quotation mark. Fails with `OpenString` if
/// the string does not end, and with `BadEscape` or `BadToken` at a byte that is not allowed. Core spec 6.3.3.
#[inline(never)]
#[tactic(auto, using(crate::proofs::Strings::rest_laws, crate::proofs::Strings::why_laws))]
pub(crate) fn after_string(text: &[u8]) -> Result<&[u8], TextWhy>
    ensures rest { MatchResult result (λ r. scan.rest_of (scan.string_in Plain text.now) ≡ Some r.now)
        (λ _. scan.rest_of (scan.string_in Plain text.now) ≡ None) }
    ensures why { IfErr result (λ w. w ≡ scan.why_in Plain text.now) }
{
    let mut rest = after_given(text);
    let mut mode = Mode::Plain;
    while let [c, more @ ..] = rest {
        match string_step(mode, *c) {
            Step::On(next) => {
                mode = next;
                rest = more;
            }
            Step::Byte(_) | Step::Scalar(_) => {
                mode = Mode::Plain;
                rest = after_given(more);
            }
            Step::End => return Ok(more),
            Step::Bad => return Err(bad_in(mode)),
        }
    }
    Err(TextWhy::OpenString)
}

/// Returns the error for a byte that is not allowed in a string. Outside escapes, such a byte is a control
/// character.
fn bad_in(mode: Mode) -> TextWhy
    ensures { result ≡ scan.bad_in mode }
{
    match mode {
        Mode::Plain => TextWhy::BadToken,
        _ => TextWhy::BadEscape,
    }
}

/// The number of characters of atoms at the start of the text. It tests four a step, while four are left.
#[inline(always)]
pub(crate) fn atom_len(text: &[u8]) -> usize
    ensures within { result ≤ length text.now }
    ensures atom { scan.atom_in text.now ≡ (take result text.now, drop result text.now) }
{
    let mut i = 0;
    while text.len() - i >= 4 {
        if !is_id_char(text[i]) {
            return i;
        }
        if !is_id_char(text[i + 1]) {
            return i + 1;
        }
        if !is_id_char(text[i + 2]) {
            return i + 2;
        }
        if !is_id_char(text[i + 3]) {
            return i + 3;
        }
        i += 4;
    }
    atom_end(i, text)
}

/// Does as `atom_len`, if the first `known` bytes are characters of atoms.
fn atom_end(known: usize, text: &[u8]) -> usize
    requires within { known ≤ length text.now }
    requires known { (k : ℕ) → k < known → tokens.is_id_char (get_or text.now k 0) ≡ true }
    ensures within { result ≤ length text.now }
    ensures atom { scan.atom_in text.now ≡ (take result text.now, drop result text.now) }
{
    let mut i = known;
    while i < text.len() {
        if !is_id_char(text[i]) {
            return i;
        }
        i += 1;
    }
    i
}

/// Returns the plain atom at the start of the text, and the text after it. A plain atom is a keyword, an
/// identifier, or decimal digits alone. Returns `None` if the text begins with anything else. It may return
/// `None` in any case: only speed depends on that.
#[inline(always)]
pub fn plain_atom(text: &[u8]) -> Option<(&[u8], &[u8])>
    ensures { IfSome result (λ x. scan.first (tokens.atom x.0.now) x.1.now ≡ scan.ahead text.now) }
{
    match text {
        [b'a'..=b'z', ..] => Some(text.split_at(atom_len(text))),
        [b'0'..=b'9', ..] => plain_number(text),
        [b'$', ..] => plain_id(text),
        _ => None,
    }
}

/// The number of decimal digits at the start of the text, or fewer: only speed depends on that.
#[inline(always)]
fn digits_len(text: &[u8]) -> usize
    ensures within { result ≤ length text.now }
    ensures digits { (k : ℕ) → k < result → tokens.is_digit (get_or text.now k 0) ≡ true }
{
    let mut i = 0;
    while i < text.len() {
        if !is_digit(text[i]) {
            return i;
        }
        i += 1;
    }
    i
}

/// Returns the decimal digits at the start of the text, and the text after them, if no character of atoms
/// follows. It may return `None` in any case.
#[inline(always)]
fn plain_number(text: &[u8]) -> Option<(&[u8], &[u8])>
    ensures { IfSome result (λ x. scan.first (tokens.atom x.0.now) x.1.now ≡ scan.ahead text.now) }
{
    let n = digits_len(text);
    if n == 0 {
        return None;
    }
    if n < text.len() && is_id_char(text[n]) {
        return None;
    }
    Some(text.split_at(n))
}

/// Returns the identifier at the start of the text, with its `$`, and the text after it. It may return `None`
/// in any case.
#[inline(always)]
fn plain_id(text: &[u8]) -> Option<(&[u8], &[u8])>
    requires { get_or text.now 0 0 ≡ 36 }
    ensures { IfSome result (λ x. scan.first (tokens.atom x.0.now) x.1.now ≡ scan.ahead text.now) }
{
    let n = atom_len(text);
    if n < 2 { None } else { Some(text.split_at(n)) }
}

/// Whether characters of atoms are an identifier (Core spec 6.3.5), a number (Core spec 6.3.1), a float
/// (Core spec 6.3.2) or a keyword (Core spec 6.2.2).
pub(crate) fn is_atom(atom: &[u8]) -> bool
    ensures { result ≡ scan.is_atom atom.now }
{
    match atom {
        [b'$', rest @ ..] => !rest.is_empty(),
        [b'a'..=b'z', ..] => true,
        _ => is_number(atom) || is_literal(atom),
    }
}

/// Whether an atom is a number, with or without a sign.
fn is_number(atom: &[u8]) -> bool
    ensures { result ≡ scan.is_number atom.now }
{
    match atom {
        [b'+' | b'-', rest @ ..] => magnitude(rest).is_some(),
        _ => magnitude(atom).is_some(),
    }
}

/// Whether an atom has the form of a float, with or without a sign.
fn is_literal(atom: &[u8]) -> bool
    ensures { result ≡ scan.is_literal atom.now }
{
    match atom {
        [] => false,
        [b'+' | b'-', rest @ ..] => has_form(rest),
        _ => has_form(atom),
    }
}

/// Whether an atom is a token only as a float, and so no token without floats. Core spec 6.3.2.
pub(crate) fn is_float_alone(atom: &[u8]) -> bool
    ensures { result ≡ scan.is_float_alone atom.now }
{
    match atom.first() {
        None | Some(b'$' | b'a'..=b'z') => false,
        Some(_) => is_literal(atom) && !is_number(atom),
    }
}

/// The value of a number without a sign, or 2^64 if it is greater; `None` if the text is no number.
/// Core spec 6.3.1.
pub fn magnitude(text: &[u8]) -> Option<u128>
    ensures { result ≡ option_map (λ n. min n 0x1_0000_0000_0000_0000) (scan.magnitude_of text.now) }
{
    match short_decimal(text) {
        Some(n) => Some(u128::from(n)),
        None => any_magnitude(text),
    }
}

/// The value of a number below 10^9 that is decimal digits alone, as most numbers are. It may return `None` in
/// any case: only speed depends on that.
#[inline(always)]
#[tactic(auto, using(crate::proofs::Atoms::decimal_laws))]
pub fn short_decimal(text: &[u8]) -> Option<u32>
    ensures value { IfSome result (λ n. scan.magnitude_of text.now ≡ Some n) }
    ensures small { IfSome result (λ n. n < 1_000_000_000) }
{
    let mut rest = text;
    let mut n = 0u32;
    let mut after = false;
    while let [c, more @ ..] = rest {
        if *c < b'0' || *c > b'9' || n >= 100_000_000 {
            return None;
        }
        n = n * 10 + u32::from(*c - b'0');
        after = true;
        rest = more;
    }
    if after { Some(n) } else { None }
}

/// The value of a number without a sign, in any form, or 2^64 if it is greater.
fn any_magnitude(text: &[u8]) -> Option<u128>
    ensures { result ≡ option_map (λ n. min n 0x1_0000_0000_0000_0000) (scan.magnitude_of text.now) }
{
    match text {
        [b'0', b'x', rest @ ..] => digits(16, rest),
        _ => digits(10, text),
    }
}

/// The value of digits with single underscores between them, or 2^64 if it is greater; `None` if the text is
/// something else.
#[tactic(auto, using(crate::proofs::Atoms::number_laws))]
pub fn digits(base: u8, text: &[u8]) -> Option<u128>
    requires low { 2 ≤ base }
    requires high { base ≤ 16 }
    ensures { result ≡ scan.number_in base 0 false text.now }
{
    let mut rest = text;
    let mut n = 0u128;
    let mut after = false;
    while let Some((c, more)) = rest.split_first() {
        (n, after) = number_next(base, n, after, *c)?;
        rest = more;
    }
    if after { Some(n) } else { None }
}

/// The value of digits with one more byte, and whether this byte is a digit. Returns `None` if the byte cannot
/// follow.
#[tactic(auto, unfolding(crate::specs::exact::Scan::number_next))]
fn number_next(base: u8, n: u128, after: bool, byte: u8) -> Option<(u128, bool)>
    requires high { base ≤ 16 }
    requires small { n ≤ 0x1_0000_0000_0000_0000 }
    ensures next { result ≡ scan.number_next base n after byte }
    ensures small { IfSome result (λ x. x.0 ≤ 0x1_0000_0000_0000_0000) }
{
    if byte == b'_' && after {
        return Some((n, false));
    }
    match digit_value(byte) {
        Some(d) if d < base => Some((with_digit(base, n, d), true)),
        _ => None,
    }
}

/// A number with one more digit, or 2^64 if that is greater.
fn with_digit(base: u8, n: u128, d: u8) -> u128
    requires { (base ≤ 16) × (n ≤ 0x1_0000_0000_0000_0000) }
    ensures next { result ≡ min (n * base + d) 0x1_0000_0000_0000_0000 }
    ensures small { result ≤ 0x1_0000_0000_0000_0000 }
{
    (n * u128::from(base) + u128::from(d)).min(1 << 64)
}
