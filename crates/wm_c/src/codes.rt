//! The numbers of refusals, statuses and profiles in the C interface.

ghost use Rattle.std.specs.Prelude.{◌≡◌, ◌≢◌, MatchOption};
ghost use Rattle.wm_syntax.specs.declared.why.Why.{Why as AWhy};
ghost use Rattle.wm_syntax.specs.declared.profile.Profile.{Profile as AProfile};
ghost use Rattle.wm_c.specs.Codes.{AddsBits, IsProfileCode, NumbersProfile};
ghost use Rattle.wm_c.specs.Codes.{status_code, text_code, text_status_code, why_code};
ghost use Rattle.wm_tokens.specs.declared.faults.TextWhy.{TextWhy as ATextWhy};

use wm_read::faults::TextWhy;
use wm_syntax::profile::{Feature, Profile};
use wm_syntax::why::Why;

/// Passes the refusals of a module, with their numbers, to the macro `$reader`. Its arguments come first, in brackets.
macro_rules! of_modules {
    ($reader:ident, $($args:ident),*) => {
        $reader! { [$($args)*],
            Magic => 1; Version => 2; SectionId => 3; SectionOrder => 4; SectionEnd => 5;
            BadNumber => 6; BadUtf8 => 7; BadByte => 8; Float => 9; BadOpcode => 10;
            Truncated => 11; CodeCount => 12; BodyEnd => 13; TooManyLocals => 14; Index => 15;
            Mismatch => 16; Arity => 17; Limits => 18; Second => 19; DuplicateExport => 20;
            StartType => 21; NotConst => 22; Immutable => 23; Align => 24; ElsePlace => 25;
            TooLong => 26; Memory => 27; ManyFunctions => 28; ManyLocals => 29; Deep => 30;
            DataCount => 31;
        }
    };
}

/// Does the same with the refusals of a text.
macro_rules! of_texts {
    ($reader:ident, $($args:ident),*) => {
        $reader! { [$($args)*],
            NotUtf8 => 101; BadToken => 102; OpenComment => 103; OpenString => 104;
            BadEscape => 105; Expected => 106; UnknownWord => 107; BadInteger => 108;
            BadName => 109; UnknownId => 110; RepeatedId => 111; TypeUse => 112;
            ImportPlace => 113; SecondStart => 114; NotConst => 115; BadAlign => 116;
            LabelEnd => 117; TooManyLocals => 118; Float => 119; Memory => 120; BadFloat => 121;
        }
    };
}

// The number of a refusal of this enum.
macro_rules! number_of {
    ([$refusals:ident $why:ident], $($variant:ident => $number:literal;)*) => {
        match $why {
            $($refusals::$variant => $number,)*
        }
    };
}

// The refusal with a number.
macro_rules! of_number {
    ([$refusals:ident $wanted:ident], $($variant:ident => $number:literal;)*) => {
        match $wanted {
            $($number => Some($refusals::$variant),)*
            _ => None,
        }
    };
}

/// The number of a refusal, 1 to 31.
pub(crate) fn why_number(why: Why) -> u32
    ensures { result ≡ why_code why }
{
    of_modules!(number_of, Why, why)
}

/// The status of a call that ends with this refusal: 4 for `Memory`, and 1 for any other.
pub(crate) fn refused_status(why: Why) -> u32
    ensures { result ≡ status_code why }
{
    match why {
        Why::Memory => 4,
        _ => 1,
    }
}

/// Returns the refusal with this number.
pub(crate) fn why_of(number: u32) -> Option<Why>
    ensures { MatchOption result ((why : AWhy) → number ≢ why_code why) (λ why. number ≡ why_code why) }
{
    of_modules!(of_number, Why, number)
}

/// The number of a text's refusal, 101 to 121.
pub(crate) fn text_number(why: TextWhy) -> u32
    ensures { result ≡ text_code why }
{
    of_texts!(number_of, TextWhy, why)
}

/// The status of a call that ends with this refusal of a text: 4 for `Memory`, and 1 for any other.
pub(crate) fn text_status(why: TextWhy) -> u32
    ensures { result ≡ text_status_code why }
{
    match why {
        TextWhy::Memory => 4,
        _ => 1,
    }
}

/// Returns the refusal of a text with this number.
pub(crate) fn text_of(number: u32) -> Option<TextWhy>
    ensures { MatchOption result ((why : ATextWhy) → number ≢ text_code why) (λ why. number ≡ text_code why) }
{
    of_texts!(of_number, TextWhy, number)
}

/// The feature of each bit of a profile's number, from the bit 0x100 up: `WMOD_SIGN_EXT` and those after it.
const FEATURES: [Feature; 6] = [
    Feature::SignExtension,
    Feature::LongIndex,
    Feature::Saturation,
    Feature::Copies,
    Feature::BulkMemory,
    Feature::Floats,
];

/// Returns the profile with this number: 1 to 4, and the bits of features that are added to it.
pub(crate) fn profile_of(number: u64) -> Option<Profile>
    ensures { MatchOption result ((p : AProfile) → IsProfileCode number p → ⊥) (IsProfileCode number) }
{
    let base = numbered(number % 256)?;
    with_bits(base, number / 256, &FEATURES)
}

/// Returns the profile with the features added whose bits are 1, the lowest bit first. Returns `None` if a bit past the
/// last feature is 1.
fn with_bits(base: Profile, bits: u64, features: &[Feature]) -> Option<Profile>
    ensures { MatchOption result ((other p : AProfile) → AddsBits features.now other bits p → ⊥)
        (AddsBits features.now base bits) }
{
    let mut profile = base;
    let mut rest = bits;
    for feature in features {
        if rest % 2 == 1 {
            profile = profile.with(*feature);
        }
        rest /= 2;
    }
    if rest == 0 { Some(profile) } else { None }
}

/// Returns the profile with this number, 1 to 4.
fn numbered(number: u64) -> Option<Profile>
    ensures { MatchOption result ((p : AProfile) → NumbersProfile number p → ⊥) (NumbersProfile number) }
{
    match number {
        1 => Some(Profile::ONE),
        2 => Some(Profile::TWO),
        3 => Some(Profile::THREE),
        4 => Some(Profile::FOUR),
        _ => None,
    }
}
