//! Type uses (Core spec 6.6.3): the index of a type, and optional parameters and results. Parameters have no
//! identifiers here.

ghost use Rattle.std.specs.Prelude.{◌≡◌, ◌≢◌, ◌≤◌, [], IfErr, MatchOption, None, Some, OnOk, codes, false, length};
ghost use Rattle.std.specs.Prelude.{slice_get, true};
ghost use Rattle.wm_tokens.specs.declared.faults.TextWhy.TheVariants.{Expected};
ghost use Rattle.wm_bodies.specs.exact.Reading as reading;
ghost use Rattle.wm_tokens.specs.exact.Scan.{lexed};
ghost use Rattle.wm_bodies.specs.exact.TypeUses as uses;
ghost use Rattle.wm_bodies.specs.inner.Blocks.{names_of};
ghost use Rattle.wm_bodies.specs.inner.Views.{IsRefusal, Reads};

use crate::identifiers::Names;
use crate::literals::is;
use crate::op_immediates::{close, index, no_type, open, refuse, type_of, word};
use std::alloc::Global;
use wm_syntax::modules::equality::same_list;
use wm_syntax::profile::Profile;
use wm_syntax::types::{FuncType, ValType};
use wm_tokens::faults::{TextFault, TextWhy};
use wm_tokens::lexeme::{Lexeme, next_token};

/// Appends value types up to a token that is no atom.
#[tactic(auto, using(crate::proofs::Groups::types_laws))]
fn value_types<'a>(
    types: &mut Vec<ValType>,
    profile: Profile,
    text: &'a [u8],
) -> Result<&'a [u8], TextFault>
    ensures { Reads (λ r. (types.new.items, lexed r.now)) result
        (uses.adding types.old.items (uses.types_at profile (lexed text.now))) }
{
    let mut rest = text;
    loop {
        match next_token(rest) {
            Some((Lexeme::Atom(atom), more)) => match type_of(profile, atom) {
                Some(ty) => {
                    types.push(ty)?;
                    rest = more;
                }
                None => return Err(no_type(profile, atom, rest)),
            },
            _ => return Ok(rest),
        }
    }
}

/// Whether the first two tokens are `( name`.
pub(crate) fn begins_group(name: &[u8], text: &[u8]) -> bool
    ensures { result ≡ uses.begins_group name.now (lexed text.now) }
{
    match next_token(text) {
        Some((Lexeme::Open, rest)) => match next_token(rest) {
            Some((Lexeme::Atom(atom), _)) => is(atom, name),
            _ => false,
        },
        _ => false,
    }
}

/// Appends the value types of one group.
#[tactic(auto, using(crate::proofs::Groups::group_laws))]
fn group<'a>(
    types: &mut Vec<ValType>,
    profile: Profile,
    name: &[u8],
    text: &'a [u8],
) -> Result<&'a [u8], TextFault>
    ensures { Reads (λ r. (types.new.items, lexed r.now)) result
        (uses.adding types.old.items (reading.paren_at name.now (uses.types_at profile) (lexed text.now))) }
{
    let rest = open(text)?;
    let rest = word(name, rest)?;
    let rest = value_types(types, profile, rest)?;
    close(rest)
}

/// Reads all groups `( name valtype* )` up to another token, and returns their value types. Core spec 6.4.3.
#[tactic(auto, using(crate::proofs::Groups::groups_laws))]
pub fn groups<'a>(
    alloc: Global,
    profile: Profile,
    name: &[u8],
    text: &'a [u8],
) -> Result<(Vec<ValType>, &'a [u8]), TextFault>
    ensures { Reads (λ x. (x.0.items, lexed x.1.now)) result
        (reading.made uses.joined (uses.groups_at profile name.now (lexed text.now))) }
{
    let mut types = Vec::new(alloc);
    let mut rest = text;
    while begins_group(name, rest) {
        rest = group(&mut types, profile, name, rest)?;
    }
    Ok((types, rest))
}

/// Whether two lists of value types are equal.
#[tactic(auto, using(crate::proofs::Groups::same_of))]
fn same(written: &[ValType], types: &[ValType]) -> bool
    ensures { result ≡ uses.same_types written.now types.now }
{
    same_list(written, types)
}

/// Whether no value types are written.
#[tactic(auto, using(crate::proofs::Groups::no_type_laws))]
pub fn nothing(written: &[ValType]) -> bool
    ensures { result ≡ uses.no_types written.now }
{
    written.is_empty()
}

/// Whether written parameters and results are both empty, or equal those of the type.
#[tactic(auto, unfolding(crate::specs::exact::TypeUses::fits))]
pub fn fits(ty: &FuncType, params: &[ValType], results: &[ValType]) -> bool
    ensures { result ≡ uses.fits ty.now params.now results.now }
{
    (nothing(params) && nothing(results))
        || (same(params, &ty.params) && same(results, &ty.results))
}

/// Fails with `Expected` if a form comes first. The refusal is at the token after its opening parenthesis.
pub fn no_form(text: &[u8]) -> Result<(), TextFault>
    ensures none { OnOk result (uses.begins_open (lexed text.now) ≡ false) }
    ensures form { IfErr result (λ e. (e.why ≡ Expected) × (uses.begins_open (lexed text.now) ≡ true)) }
{
    match next_token(text) {
        Some((Lexeme::Open, inner)) => Err(refuse(TextWhy::Expected, inner)),
        _ => Ok(()),
    }
}

/// Returns the refusal of `( type idx` without its closing parenthesis. It is at the index if no type has it, else at
/// the token where the parenthesis is missing.
fn unclosed(names: &Names, x: u32, at_index: &[u8], rest: &[u8]) -> TextFault
    requires { lexed at_index.now ≢ [] }
    ensures { IsRefusal result.why }
{
    match type_at(names, x) {
        Some(_) => refuse(TextWhy::Expected, rest),
        None => refuse(TextWhy::TypeUse, at_index),
    }
}

/// Reads `( type idx )`, even if no type has the index. Fails with `TypeUse` at the index if no type has it and no `)`
/// follows.
#[tactic(auto, using(crate::proofs::Ends::atom_stands))]
pub fn type_index<'a>(names: &Names, text: &'a [u8]) -> Result<(u32, &'a [u8]), TextFault>
    ensures { Reads (λ x. (x.0, lexed x.1.now)) result
        (reading.paren_at (codes "type") (reading.atom_at (reading.index_of (names_of names.now).types))
        (lexed text.now)) }
{
    let rest = open(text)?;
    let at_index = word(b"type", rest)?;
    let (x, rest) = index(&names.types, at_index)?;
    match next_token(rest) {
        Some((Lexeme::Close, rest)) => Ok((x, rest)),
        _ => Err(unclosed(names, x, at_index, rest)),
    }
}

/// Returns the type with this index, if any.
pub fn type_at<'n>(names: &'n Names, x: u32) -> Option<&'n FuncType>
    ensures { MatchOption result (slice_get (names_of names.now).signatures x ≡ None)
        (λ ty. slice_get (names_of names.now).signatures x ≡ Some ty.now) }
{
    names.signatures.get(x as usize)
}

/// Reads the type use of a `call_indirect`, whose parameters have no identifiers. Core spec 6.5.2 and 6.6.3.
/// Fails with `TypeUse` at the index if no type has it, or if parameters or results differ from the type's. Fails
/// with `Expected` if another form follows.
#[tactic(auto, using(crate::proofs::Groups::use_laws, crate::proofs::Ends::index_stands))]
pub fn type_use<'a>(
    alloc: Global,
    profile: Profile,
    names: &Names,
    text: &'a [u8],
) -> Result<(u32, &'a [u8]), TextFault>
    ensures { Reads (λ x. (x.0, lexed x.1.now)) result
        (uses.call_use_at profile (names_of names.now) (lexed text.now)) }
{
    let (x, rest) = type_index(names, text)?;
    match type_at(names, x) {
        Some(ty) => {
            let (params, rest) = groups(alloc, profile, b"param", rest)?;
            let (results, rest) = groups(alloc, profile, b"result", rest)?;
            no_form(rest)?;
            if fits(ty, &params, &results) {
                Ok((x, rest))
            } else {
                Err(refuse_index(TextWhy::TypeUse, text))
            }
        }
        None => Err(refuse_index(TextWhy::TypeUse, text)),
    }
}

/// Returns a refusal at the index of a type use, which is the third token of `text`.
pub(crate) fn refuse_index(why: TextWhy, text: &[u8]) -> TextFault
    requires { 3 ≤ length (lexed text.now) }
    ensures { result.why ≡ why }
{
    let mut rest = text;
    for _ in 0..2 {
        if let Some((_, more)) = next_token(rest) {
            rest = more;
        }
    }
    refuse(why, rest)
}
