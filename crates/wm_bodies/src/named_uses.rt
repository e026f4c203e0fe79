//! Type uses of functions and imports (Core spec 6.6.3), whose parameters may have identifiers.

ghost use Rattle.std.specs.Prelude.{◌≡◌, ◌≤◌, ◌++◌, IfErr, IfOk, OnOk, replicate, length};
ghost use Rattle.std.specs.Option.{option_map};
ghost use Rattle.wm_tokens.specs.Written as written;
ghost use Rattle.wm_bodies.specs.exact.NamedUses as uses;
ghost use Rattle.wm_tokens.specs.exact.Scan.{lexed};
ghost use Rattle.wm_bodies.specs.inner.Blocks.{names_of};
ghost use Rattle.wm_bodies.specs.inner.Named.{named_list, params_of};
ghost use Rattle.wm_bodies.specs.inner.Views.{IsOfReaders, IsRefusal, NotMemory, Reads};

use crate::identifiers::Names;
use crate::named;
use crate::named::NamedRun;
use crate::type_uses::{
    begins_group, fits, groups, no_form, nothing, refuse_index, type_at, type_index,
};
use std::alloc::{AllocError, Global};
use wm_syntax::profile::Profile;
use wm_syntax::types::{FuncType, ValType};
use wm_tokens::faults::{TextFault, TextWhy};

/// The parameters of a type use: those of its type, without identifiers, or the written ones.
#[derive(Drop)]
pub enum Params<'n, 'a> {
    OfType(&'n [ValType]),
    Written(Vec<NamedRun<'a>>),
}

/// A type use: the index of the type, and one parameter for each of the type's, with the written identifiers.
#[derive(Drop)]
pub struct NamedUse<'n, 'a> {
    pub index: u32,
    pub params: Params<'n, 'a>,
}

/// Appends a type `count` times.
#[tactic(auto, using(crate::proofs::NamedUses::times_laws))]
fn push_times(types: &mut Vec<ValType>, count: u32, ty: ValType) -> Result<(), AllocError>
    ensures { OnOk result (types.new.items ≡ types.old.items ++ replicate count ty) }
{
    for _ in 0..count {
        types.push(ty)?;
    }
    Ok(())
}

/// Returns the types of parameters, one for each.
#[tactic(auto, using(crate::proofs::NamedUses::types_laws))]
pub fn types_of(alloc: Global, params: &[NamedRun]) -> Result<Vec<ValType>, AllocError>
    ensures { IfOk result (λ ts. ts.items ≡ written.types_of (named_list params.now)) }
{
    let mut types = Vec::new(alloc);
    for run in params {
        let (count, ty) = run.count_and_type();
        push_times(&mut types, count, ty)?;
    }
    Ok(types)
}

/// Returns the parameters of a type use. They are the type's if no parameter and no result is written; these are
/// borrowed, so they take no time. They are the written ones if parameters and results equal the type's. Else `None`.
#[tactic(auto, using(crate::proofs::NamedUses::used_laws))]
fn used<'n, 'a>(
    alloc: Global,
    ty: &'n FuncType,
    params: Vec<NamedRun<'a>>,
    results: &[ValType],
) -> Result<Option<Params<'n, 'a>>, AllocError>
    ensures { IfOk result (λ o. option_map params_of o
        ≡ uses.used_of ty.now (named_list params.entry.items) results.now) }
{
    let written = types_of(alloc, &params)?;
    if !fits(ty, &written, results) {
        Ok(None)
    } else if nothing(&written) && nothing(results) {
        Ok(Some(Params::OfType(&ty.params)))
    } else {
        Ok(Some(Params::Written(params)))
    }
}

/// Returns the refusal of a type use whose parameters or results differ from its type's. `text` begins at the type
/// use, `rest` after it. If a misplaced form follows, that is refused, else the index. `(local ..)` is no misplaced
/// form if `locals` is set.
fn misfit(locals: bool, text: &[u8], rest: &[u8]) -> TextFault
    requires { 3 ≤ length (lexed text.now) }
    ensures { IsRefusal result.why }
{
    if locals && begins_group(b"local", rest) {
        return refuse_index(TextWhy::TypeUse, text);
    }
    match no_form(rest) {
        Ok(()) => refuse_index(TextWhy::TypeUse, text),
        Err(fault) => fault,
    }
}

/// Reads a type use: `( type idx )`, then all parameters and results that follow. Core spec 6.6.3. `locals` is whether
/// locals may follow.
/// Fails with `TypeUse` at the index if no type has it, or if parameters or results differ from the type's. In the
/// second case a misplaced form after them is `Expected` instead.
#[tactic(auto, using(crate::proofs::NamedUses::named_laws, crate::proofs::Ends::index_stands))]
pub fn named_use<'n, 'a>(
    alloc: Global,
    profile: Profile,
    names: &'n Names,
    locals: bool,
    text: &'a [u8],
) -> Result<(NamedUse<'n, 'a>, &'a [u8]), TextFault>
    ensures { Reads (λ x. ((x.0.index, params_of x.0.params), lexed x.1.now)) result
        (uses.named_use_at profile (names_of names.now) (lexed text.now)) }
{
    let (index, rest) = type_index(names, text)?;
    match type_at(names, index) {
        Some(ty) => {
            let (params, rest) = named::groups(alloc, profile, b"param", rest)?;
            let (results, rest) = groups(alloc, profile, b"result", rest)?;
            match used(alloc, ty, params, &results)? {
                Some(params) => Ok((NamedUse { index, params }, rest)),
                None => Err(misfit(locals, text, rest)),
            }
        }
        None => Err(refuse_index(TextWhy::TypeUse, text)),
    }
}

/// Refines the refusal of a `call_indirect`'s type use, whose parameters may have no identifiers. The type use is read
/// again with identifiers allowed. An error at or before `fault` replaces it; else `fault` is at an identifier, and
/// becomes `TypeUse`. A refusal at the end of the text stays, and so does `Memory`.
pub(crate) fn call_fault(
    alloc: Global,
    profile: Profile,
    names: &Names,
    fault: TextFault,
    text: &[u8],
) -> TextFault
    ensures memory { NotMemory result.why → NotMemory fault.why }
    ensures readers { IsOfReaders fault.why → IsOfReaders result.why }
{
    if fault.why == TextWhy::Memory || fault.left == 0 {
        return fault;
    }
    match with_ids(alloc, profile, names, text) {
        Err(other) if other.why == TextWhy::Memory || other.left >= fault.left => other,
        _ => TextFault {
            why: TextWhy::TypeUse,
            left: fault.left,
        },
    }
}

/// Reads a type use whose parameters may have identifiers. Fails with `Expected` if a form follows it.
#[tactic(auto, using(crate::proofs::Groups::fails_read, crate::proofs::Groups::expected_read))]
fn with_ids(alloc: Global, profile: Profile, names: &Names, text: &[u8]) -> Result<(), TextFault>
    ensures { IfErr result (λ e. IsOfReaders e.why) }
{
    match named_use(alloc, profile, names, false, text) {
        Ok((_used, rest)) => no_form(rest),
        Err(other) => Err(other),
    }
}
