//! The types of tables, memories and globals (Core spec 6.4.4 to 6.4.7).

ghost use Rattle.std.specs.Prelude.{◌≡◌};
ghost use Rattle.wm_read.specs.exact.FieldTypes as fields;
ghost use Rattle.wm_bodies.specs.exact.Reading as reading;
ghost use Rattle.wm_tokens.specs.exact.Scan.{lexed};
ghost use Rattle.wm_bodies.specs.inner.Views.{Reads};

use wm_bodies::literals::{is_id, is_word};
use wm_bodies::op_immediates::{natural, number, paren_type, refuse, val_type, word};
use wm_syntax::profile::Profile;
use wm_syntax::types::{GlobalType, Limits};
use wm_tokens::faults::{TextFault, TextWhy};
use wm_tokens::lexeme::{Lexeme, next_token};

/// Reads an optional number below 2^32.
fn maximum(text: &[u8]) -> Result<(Option<u32>, &[u8]), TextFault>
    ensures { Reads (λ x. (x.0, lexed x.1.now)) result (fields.max_at (lexed text.now)) }
{
    match next_token(text) {
        Some((Lexeme::Atom(atom), rest)) if !is_word(atom) && !is_id(atom) => {
            Ok((Some(number(atom, text)?), rest))
        }
        _ => Ok((None, text)),
    }
}

/// Reads `u32 u32?`. Core spec 6.4.4. Fails with `BadInteger` for a numeral that is no `u32`, and else with `Expected`.
pub fn limits(text: &[u8]) -> Result<(Limits, &[u8]), TextFault>
    ensures { Reads (λ x. (x.0, lexed x.1.now)) result (fields.limits_at (lexed text.now)) }
{
    let (min, rest) = natural(text)?;
    let (max, rest) = maximum(rest)?;
    Ok((Limits { min, max }, rest))
}

/// Reads `limits funcref`. Core spec 6.4.6. It fails as `limits` does, and with `Expected` if `funcref` is missing.
pub fn table_type(text: &[u8]) -> Result<(Limits, &[u8]), TextFault>
    ensures { Reads (λ x. (x.0, lexed x.1.now)) result (fields.table_type_at (lexed text.now)) }
{
    let (limits, rest) = limits(text)?;
    let rest = word(b"funcref", rest)?;
    Ok((limits, rest))
}

/// Reads `valtype` or `( mut valtype )`. Core spec 6.4.7.
pub fn global_type(profile: Profile, text: &[u8]) -> Result<(GlobalType, &[u8]), TextFault>
    ensures { Reads (λ x. (x.0, lexed x.1.now)) result (fields.global_type_at profile (lexed text.now)) }
{
    match next_token(text) {
        Some((Lexeme::Open, _)) => {
            let (ty, rest) = paren_type(profile, b"mut", text)?;
            Ok((GlobalType { ty, var: true }, rest))
        }
        _ => {
            let (ty, rest) = val_type(profile, text)?;
            Ok((GlobalType { ty, var: false }, rest))
        }
    }
}
