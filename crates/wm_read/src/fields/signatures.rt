//! The function type of a type field (Core spec 6.4.3).

ghost use Rattle.std.specs.Prelude.{◌≡◌};
ghost use Rattle.wm_read.specs.exact.Signatures.{signature_at};
ghost use Rattle.wm_tokens.specs.exact.Scan.{lexed};
ghost use Rattle.wm_bodies.specs.inner.Views.{Reads};

use std::alloc::Global;
use wm_bodies::named;
use wm_bodies::named_uses::types_of;
use wm_bodies::op_immediates::{close_forms, open, word};
use wm_bodies::type_uses::groups;
use wm_syntax::profile::Profile;
use wm_syntax::types::FuncType;
use wm_tokens::faults::TextFault;

/// Reads `( func param* result* )`. Identifiers of parameters are allowed, and ignored.
#[tactic(auto, unfolding(crate::specs::exact::Signatures::signature_at, wm_bodies::specs::exact::NamedUses::results_at))]
pub fn signature(
    alloc: Global,
    profile: Profile,
    text: &[u8],
) -> Result<(FuncType, &[u8]), TextFault>
    ensures { Reads (λ x. (x.0, lexed x.1.now)) result (signature_at profile (lexed text.now)) }
{
    let rest = open(text)?;
    let rest = word(b"func", rest)?;
    let (params, rest) = named::groups(alloc, profile, b"param", rest)?;
    let (results, rest) = groups(alloc, profile, b"result", rest)?;
    let rest = close_forms(rest)?;
    let params = types_of(alloc, &params)?;
    Ok((FuncType { params, results }, rest))
}
