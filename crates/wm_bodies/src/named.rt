//! Parameters and locals with their identifiers (Core spec 6.4.3 and 6.6.5).

ghost use Rattle.std.specs.Prelude.{◌≡◌, ◌++◌, ◌∷◌, ◌⊎◌, [], IfOk, IfSome, None, OnOk, replicate};
ghost use Rattle.wm_tokens.specs.Written.{types_of};
ghost use Rattle.wm_tokens.specs.declared.faults.TextWhy.TheVariants.{RepeatedId, TooManyLocals};
ghost use Rattle.wm_bodies.specs.exact.Reading as reading;
ghost use Rattle.wm_tokens.specs.exact.Scan.{lexed};
ghost use Rattle.wm_bodies.specs.exact.TypeUses as uses;
ghost use Rattle.wm_bodies.specs.inner.Named.{named_list, named_of};
ghost use Rattle.wm_bodies.specs.inner.Views.{Reads};

use crate::identifiers::Space;
use crate::literals::{is, is_id};
use crate::op_immediates::{close, no_type, open, refuse, type_named, type_of, val_type, word};
use crate::type_uses::begins_group;
use std::alloc::{AllocError, Global};
use wm_syntax::profile::Profile;
use wm_syntax::types::ValType;
use wm_tokens::faults::{TextFault, TextWhy};
use wm_tokens::lexeme::{Lexeme, next_token, skip_space};

/// A run of parameters or locals: one with an identifier, or any number of one type without identifiers.
#[derive(Clone, Copy)]
pub enum NamedRun<'a> {
    One(&'a [u8], ValType),
    Unnamed(u32, ValType),
}

impl<'a> NamedRun<'a> {
    /// Returns the number of items and their type.
    #[tactic(auto, using(crate::proofs::NamedGroups::types_of_run))]
    pub fn count_and_type(self) -> (u32, ValType)
        ensures { types_of (named_of self.entry) ≡ replicate result.0 result.1 }
    {
        match self {
            NamedRun::One(_, ty) => (1, ty),
            NamedRun::Unnamed(count, ty) => (count, ty),
        }
    }

    // Returns the run with one more item of this type. `None` if the run has an identifier, another type, or 2^32 - 1
    // items.
    fn longer(self, ty: ValType) -> Option<NamedRun<'a>>
        ensures { IfSome result (λ run. named_of run ≡ named_of self.entry ++ (None, ty) ∷ []) }
    {
        let NamedRun::Unnamed(count, of) = self else {
            return None;
        };
        if of != ty {
            return None;
        }
        Some(NamedRun::Unnamed(count.checked_add(1)?, of))
    }
}

/// Appends an item without an identifier. It lengthens the last run if that allows it.
#[tactic(auto, using(crate::proofs::NamedGroups::push_laws))]
fn push_unnamed(runs: &mut Vec<NamedRun>, ty: ValType) -> Result<(), AllocError>
    ensures { OnOk result (named_list runs.new.items ≡ named_list runs.old.items ++ (None, ty) ∷ []) }
{
    if let Some(last) = runs.pop() {
        if let Some(run) = last.longer(ty) {
            runs.push(run)?;
            return Ok(());
        }
        runs.push(last)?;
    }
    runs.push(NamedRun::Unnamed(1, ty))?;
    Ok(())
}

/// Appends items without identifiers, up to a token that is no atom.
#[tactic(auto, using(crate::proofs::NamedGroups::unnamed_laws))]
fn unnamed<'a>(
    named: &mut Vec<NamedRun<'a>>,
    profile: Profile,
    text: &'a [u8],
) -> Result<&'a [u8], TextFault>
    ensures { Reads (λ r. (named_list named.new.items, lexed r.now)) result
        (uses.adding_named (named_list named.old.items)
        (reading.made uses.unnamed (uses.types_at profile (lexed text.now)))) }
{
    let mut rest = text;
    loop {
        match next_token(rest) {
            Some((Lexeme::Atom(atom), more)) => match type_of(profile, atom) {
                Some(ty) => {
                    push_unnamed(named, ty)?;
                    rest = more;
                }
                None => return Err(no_type(profile, atom, rest)),
            },
            _ => return Ok(rest),
        }
    }
}

/// Appends the items between a group's keyword and its closing parenthesis: an identifier and its type, or types.
#[tactic(auto, using(crate::proofs::NamedGroups::inside_laws))]
fn inside<'a>(
    named: &mut Vec<NamedRun<'a>>,
    profile: Profile,
    text: &'a [u8],
) -> Result<&'a [u8], TextFault>
    ensures { Reads (λ r. (named_list named.new.items, lexed r.now)) result
        (uses.adding_named (named_list named.old.items) (uses.inside_at profile (lexed text.now))) }
{
    match next_token(text) {
        Some((Lexeme::Atom(atom), rest)) => {
            if is_id(atom) {
                let (ty, rest) = val_type(profile, rest)?;
                named.push(NamedRun::One(atom, ty))?;
                Ok(rest)
            } else {
                unnamed(named, profile, text)
            }
        }
        _ => unnamed(named, profile, text),
    }
}

/// Appends the items of one group.
#[tactic(auto, using(crate::proofs::NamedGroups::group_none))]
fn group<'a>(
    named: &mut Vec<NamedRun<'a>>,
    profile: Profile,
    name: &[u8],
    text: &'a [u8],
) -> Result<&'a [u8], TextFault>
    ensures { Reads (λ r. (named_list named.new.items, lexed r.now)) result
        (uses.adding_named (named_list named.old.items)
        (reading.paren_at name.now (uses.inside_at profile) (lexed text.now))) }
{
    let rest = open(text)?;
    let rest = word(name, rest)?;
    let rest = inside(named, profile, rest)?;
    close(rest)
}

/// Reads all groups `( name id valtype )` or `( name valtype* )` up to another token, and returns their items.
/// `name` is `param` or `local`. Core spec 6.4.3 and 6.6.5.
#[tactic(auto, using(crate::proofs::NamedGroups::named_laws))]
pub fn groups<'a>(
    alloc: Global,
    profile: Profile,
    name: &[u8],
    text: &'a [u8],
) -> Result<(Vec<NamedRun<'a>>, &'a [u8]), TextFault>
    ensures { Reads (λ x. (named_list x.0.items, lexed x.1.now)) result
        (uses.named_at profile name.now (lexed text.now)) }
{
    let mut named = Vec::new(alloc);
    let mut rest = text;
    while begins_group(name, rest) {
        rest = group(&mut named, profile, name, rest)?;
    }
    Ok((named, rest))
}

/// Returns the first error among the tokens of parameters and locals: `RepeatedId` for a repeated identifier, or
/// `TooManyLocals` for the local after the first `most`. Only tokens with more than `left` bytes left are searched.
///
/// Rows of `wm_cli` test the name and the offset with a small `most`, since a text with 2^32 locals is too long.
pub fn earlier_fault(
    alloc: Global,
    text: &[u8],
    left: usize,
    most: u32,
) -> Result<Option<TextFault>, AllocError>
    ensures { IfOk result (λ o. IfSome o (λ e. (e.why ≡ RepeatedId) ⊎ (e.why ≡ TooManyLocals))) }
{
    let mut seen = Space::new(alloc);
    let mut in_locals = false;
    let mut room = most;
    let mut rest = text;
    loop {
        match next_token(rest) {
            Some((Lexeme::Atom(atom), more)) => {
                if skip_space(rest).len() <= left {
                    return Ok(None);
                }
                if is_id(atom) {
                    if seen.place(atom).is_some() {
                        return Ok(Some(refuse(TextWhy::RepeatedId, rest)));
                    }
                    seen.push(Some(atom))?;
                } else if is(atom, b"local") {
                    in_locals = true;
                } else if in_locals && type_named(atom).is_some() {
                    if room == 0 {
                        return Ok(Some(refuse(TextWhy::TooManyLocals, rest)));
                    }
                    room -= 1;
                }
                rest = more;
            }
            Some((_, more)) => rest = more,
            None => return Ok(None),
        }
    }
}
