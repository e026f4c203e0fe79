//! Digits with single underscores between them (Core spec 6.3.1).

ghost use Rattle.std.specs.Prelude.{◌≡◌, ◌+◌, ◌*◌, ◌^◌, ◌<◌, ◌≤◌, [], ◌∷◌, false, length, min};
ghost use Rattle.std.specs.Char.{digit_value};
ghost use Rattle.std.specs.Str.Parse.{AllDigits, digits_value, digits_value_after};
ghost use Rattle.wm_floats.specs.exact.Atoms as atoms;
ghost use Rattle.wm_floats.specs.exact.Atoms.{plain};

/// The limit of `held`, 2^56, which also represents every greater number.
pub const HELD: u64 = 0x100_0000_0000_0000;

/// Whether the text ends in a digit after one more byte, or `None` if this byte is not allowed.
#[tactic(auto, unfolding(crate::specs::exact::Atoms::next_after))]
fn next_after(base: u32, after: bool, byte: u8) -> Option<bool>
    requires { (2 ≤ base) × (base ≤ 16) }
    ensures { result ≡ atoms.next_after base after byte }
{
    if byte == b'_' && after {
        return Some(false);
    }
    if (byte as char).is_digit(base) {
        Some(true)
    } else {
        None
    }
}

/// Whether the text is one or more digits, with single underscores allowed between them.
#[tactic(auto, using(crate::proofs::Underscores::digit_laws))]
pub fn are_digits(base: u32, text: &[u8]) -> bool
    requires { (2 ≤ base) × (base ≤ 16) }
    ensures { result ≡ atoms.are_digits base false text.now }
{
    let mut rest = text;
    let mut after = false;
    while let Some((c, more)) = rest.split_first() {
        match next_after(base, after, *c) {
            Some(next) => after = next,
            None => return false,
        }
        rest = more;
    }
    after
}

/// Whether the text is empty, or digits as for `are_digits`.
pub fn are_digits_or_none(base: u32, text: &[u8]) -> bool
    requires { (2 ≤ base) × (base ≤ 16) }
    ensures { result ≡ atoms.are_digits_or_none base text.now }
{
    match text {
        [] => true,
        [_, ..] => are_digits(base, text),
    }
}

/// Returns the value of a digit.
pub fn digit_of(byte: u8) -> u64
    requires { digit_value byte < 16 }
    ensures { result ≡ digit_value byte }
{
    match (byte as char).to_digit(16) {
        Some(digit) => u64::from(digit),
        None => unreachable!(),
    }
}

/// The number of digits in a byte: 0 for an underscore, else 1.
fn counted(byte: u8) -> u64
    ensures count { result ≡ length (plain (byte ∷ [])) }
    ensures most { result ≤ 1 }
{
    if byte == b'_' { 0 } else { 1 }
}

/// Returns the number of digits in a text, without the underscores.
pub fn count(text: &[u8]) -> u64
    ensures count { result ≡ length (plain text.now) }
    ensures most { result ≤ length text.now }
{
    let mut n = 0u64;
    for byte in text {
        n += counted(*byte);
    }
    n
}

/// The number with one more byte after its digits, at most 2^56. An underscore changes nothing.
#[tactic(auto, using(crate::proofs::Held::held_laws))]
fn one_held(base: u64, n: u64, byte: u8) -> u64
    requires base { (2 ≤ base) × (base ≤ 16) }
    requires small { n ≤ 2 ^ 56 }
    requires digit { AllDigits base (plain (byte ∷ [])) }
    ensures value { result ≡ min (digits_value_after base n (plain (byte ∷ []))) (2 ^ 56) }
    ensures small { result ≤ 2 ^ 56 }
{
    if byte == b'_' {
        return n;
    }
    (n * base + digit_of(byte)).min(HELD)
}

/// Returns the number that the digits denote, or 2^56 if it is greater.
pub fn held(base: u64, text: &[u8]) -> u64
    requires base { (2 ≤ base) × (base ≤ 16) }
    requires digits { AllDigits base (plain text.now) }
    ensures { result ≡ min (digits_value base (plain text.now)) (2 ^ 56) }
{
    let mut n = 0u64;
    for byte in text {
        n = one_held(base, n, *byte);
    }
    n
}
