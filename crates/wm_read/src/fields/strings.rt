//! Strings of fields: names (Core spec 6.3.4), and the bytes of data segments.

ghost use Rattle.std.specs.Prelude.{◌≡◌};
ghost use Rattle.std.specs.String as string;
ghost use Rattle.wm_read.specs.exact.Fields as fields;
ghost use Rattle.wm_tokens.specs.exact.Scan.{lexed};
ghost use Rattle.wm_bodies.specs.inner.Views.{Reads};

use std::alloc::Global;
use wm_bodies::op_immediates::refuse;
use wm_tokens::faults::{TextFault, TextWhy};
use wm_tokens::lexeme::{Lexeme, next_token, string_bytes};

/// Reads a name: a string whose bytes are UTF-8. Fails with `BadName` if they are not, and with `Expected` if the first
/// token is no string.
#[tactic(auto, using(crate::proofs::FieldCode::name_laws))]
pub fn name(alloc: Global, text: &[u8]) -> Result<(String, &[u8]), TextFault>
    ensures { Reads (λ x. (string.string_bytes x.0, lexed x.1.now)) result (fields.name_at (lexed text.now)) }
{
    match next_token(text) {
        Some((Lexeme::String(inside), rest)) => {
            let bytes = string_bytes(alloc, inside)?;
            match str::from_utf8(&bytes) {
                Ok(name) => Ok((String::from_str(alloc, name)?, rest)),
                Err(_) => Err(refuse(TextWhy::BadName, text)),
            }
        }
        _ => Err(refuse(TextWhy::Expected, text)),
    }
}

/// Reads strings up to another token, and returns their bytes, joined. Core spec 6.6.12.
#[tactic(auto, using(crate::proofs::FieldCode::bytes_laws))]
pub fn bytes(alloc: Global, text: &[u8]) -> Result<(Vec<u8>, &[u8]), TextFault>
    ensures { Reads (λ x. (x.0.items, lexed x.1.now)) result (fields.bytes_at (lexed text.now)) }
{
    let mut bytes = Vec::new(alloc);
    let mut rest = text;
    loop {
        match next_token(rest) {
            Some((Lexeme::String(inside), more)) => {
                let part = string_bytes(alloc, inside)?;
                bytes.extend_from_slice(&part)?;
                rest = more;
            }
            _ => return Ok((bytes, rest)),
        }
    }
}
