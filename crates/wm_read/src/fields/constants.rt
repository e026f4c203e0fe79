//! Constant expressions (Core spec 3.3.7): one instruction, for a number or the value of a global. It may be in
//! parentheses (Core spec 6.5.7).

ghost use Rattle.std.specs.Prelude.{◌≡◌, ◌≢◌, []};
ghost use Rattle.wm_read.specs.exact.Fields as fields;
ghost use Rattle.wm_bodies.specs.exact.Reading as reading;
ghost use Rattle.wm_syntax.specs.exact.NameTable.{class_named};
ghost use Rattle.wm_tokens.specs.exact.Scan.{lexed};
ghost use Rattle.wm_bodies.specs.inner.Blocks.{names_of};
ghost use Rattle.wm_bodies.specs.inner.Views.{IsRefusal, Reads};

use std::alloc::Global;
use wm_bodies::identifiers::Names;
use wm_bodies::literals::is;
use wm_bodies::op_immediates::{
    float_32, float_64, index, integer_32, integer_64, no_instruction, open, refuse, with,
};
use wm_syntax::instructions::Op;
use wm_syntax::instructions::op_class::{Immediates, Indexed, OpClass};
use wm_syntax::instructions::op_names::op_named;
use wm_syntax::profile::Profile;
use wm_syntax::types::Const;
use wm_tokens::faults::{TextFault, TextWhy};
use wm_tokens::lexeme::{Lexeme, next_token};

/// The token before a constant's instruction. It decides which name a refusal gets.
#[derive(Clone, Copy)]
enum Front {
    /// Another token than an opening parenthesis.
    Bare,
    /// An opening parenthesis.
    Paren,
    /// The opening parenthesis of an offset, where the keyword `offset` could come too.
    Offset,
}

/// Whether an atom is the keyword of a form that is no instruction. No contract: it decides only which name a refusal
/// gets.
fn is_form(atom: &[u8]) -> bool {
    is(atom, b"type")
        || is(atom, b"param")
        || is(atom, b"result")
        || is(atom, b"local")
        || is(atom, b"import")
        || is(atom, b"export")
        || is(atom, b"func")
        || is(atom, b"mut")
        || is(atom, b"offset")
        || is(atom, b"then")
        || is(atom, b"else")
}

/// Returns the refusal of an atom that names no instruction of the profile, or is `else` or `end`. The atom is the
/// first token of `text`.
fn no_op(profile: Profile, front: Front, atom: &[u8], text: &[u8]) -> TextFault
    requires { lexed text.now ≢ [] }
    ensures { IsRefusal result.why }
{
    match front {
        Front::Offset => refuse(TextWhy::Expected, text),
        Front::Paren if is_form(atom) => refuse(TextWhy::Expected, text),
        _ => no_instruction(profile, atom, text),
    }
}

/// Returns the refusal of an atom that begins no constant. The atom is the first token of `text`.
fn no_constant(profile: Profile, front: Front, atom: &[u8], text: &[u8]) -> TextFault
    requires { lexed text.now ≢ [] }
    ensures { IsRefusal result.why }
{
    match op_named(profile, atom) {
        OpClass::Plain(Op::Else) | OpClass::Plain(Op::End) | OpClass::None => {
            no_op(profile, front, atom, text)
        }
        OpClass::Plain(_) | OpClass::With(_) => refuse(TextWhy::NotConst, text),
        OpClass::Float => refuse(TextWhy::Float, text),
    }
}

/// Reads the instruction of a constant expression, where `here` begins at its keyword `atom` and `text` after it. Fails
/// with `NotConst` for any other instruction of the profile.
fn instruction<'a>(
    alloc: Global,
    profile: Profile,
    names: &Names,
    front: Front,
    atom: &[u8],
    here: &[u8],
    text: &'a [u8],
) -> Result<(Const, &'a [u8]), TextFault>
    requires { lexed here.now ≢ [] }
    ensures { Reads (λ x. (x.0, lexed x.1.now)) result
        (fields.const_class (names_of names.now) (class_named profile atom.now) (lexed text.now)) }
{
    match op_named(profile, atom) {
        OpClass::With(Immediates::I32Const) => Ok(with(Const::I32, integer_32(text)?)),
        OpClass::With(Immediates::I64Const) => Ok(with(Const::I64, integer_64(text)?)),
        OpClass::With(Immediates::F32Const) => Ok(with(Const::F32, float_32(alloc, text)?)),
        OpClass::With(Immediates::F64Const) => Ok(with(Const::F64, float_64(alloc, text)?)),
        OpClass::With(Immediates::Index(Indexed::GlobalGet)) => {
            Ok(with(Const::Global, index(&names.globals, text)?))
        }
        _ => Err(no_constant(profile, front, atom, here)),
    }
}

/// Reads an instruction and a closing parenthesis. An opening one came before. Core spec 6.5.7.
fn folded<'a>(
    alloc: Global,
    profile: Profile,
    names: &Names,
    front: Front,
    text: &'a [u8],
) -> Result<(Const, &'a [u8]), TextFault>
    ensures { Reads (λ x. (x.0, lexed x.1.now)) result
        (fields.folded_at profile (names_of names.now) (lexed text.now)) }
{
    match next_token(text) {
        Some((Lexeme::Atom(atom), rest)) => {
            let (constant, rest) = instruction(alloc, profile, names, front, atom, text, rest)?;
            let rest = constant_end(profile, rest)?;
            Ok((constant, rest))
        }
        _ => Err(refuse(TextWhy::Expected, text)),
    }
}

/// Reads a constant expression: an instruction, without parentheses or within them. Fails with `NotConst` for any other
/// instruction of the profile, and with `Float` or `UnknownWord` for another keyword. After an opening parenthesis, the
/// keyword of a form that is no instruction is `Expected`.
pub fn constant<'a>(
    alloc: Global,
    profile: Profile,
    names: &Names,
    text: &'a [u8],
) -> Result<(Const, &'a [u8]), TextFault>
    ensures { Reads (λ x. (x.0, lexed x.1.now)) result
        (fields.const_at profile (names_of names.now) (lexed text.now)) }
{
    match next_token(text) {
        Some((Lexeme::Open, inner)) => folded(alloc, profile, names, Front::Paren, inner),
        Some((Lexeme::Atom(atom), rest)) => {
            instruction(alloc, profile, names, Front::Bare, atom, text, rest)
        }
        _ => Err(refuse(TextWhy::Expected, text)),
    }
}

/// Returns the refusal of an instruction after a constant. It follows an opening parenthesis, and `text` begins at
/// it.
fn no_second(profile: Profile, text: &[u8]) -> TextFault
    ensures { IsRefusal result.why }
{
    match next_token(text) {
        Some((Lexeme::Atom(atom), _)) => no_constant(profile, Front::Paren, atom, text),
        _ => refuse(TextWhy::Expected, text),
    }
}

/// Reads the closing parenthesis after a constant. Fails with `NotConst` for a further instruction, which may be in
/// parentheses. Fails with `Expected` for a token that is no atom. Such a refusal is at the token after an opening
/// parenthesis, if there is one.
pub fn constant_end(profile: Profile, text: &[u8]) -> Result<&[u8], TextFault>
    ensures { Reads (λ r. (tt, lexed r.now)) result (reading.close_at (lexed text.now)) }
{
    match next_token(text) {
        Some((Lexeme::Close, rest)) => Ok(rest),
        Some((Lexeme::Open, inner)) => Err(no_second(profile, inner)),
        Some((Lexeme::Atom(atom), _)) => Err(no_constant(profile, Front::Bare, atom, text)),
        _ => Err(refuse(TextWhy::Expected, text)),
    }
}

/// Reads a constant expression and a closing parenthesis.
fn closed_constant<'a>(
    alloc: Global,
    profile: Profile,
    names: &Names,
    text: &'a [u8],
) -> Result<(Const, &'a [u8]), TextFault>
    ensures { Reads (λ x. (x.0, lexed x.1.now)) result
        (fields.closed_const_at profile (names_of names.now) (lexed text.now)) }
{
    let (constant, rest) = constant(alloc, profile, names, text)?;
    let rest = constant_end(profile, rest)?;
    Ok((constant, rest))
}

/// Reads the offset of a segment: `( offset const )`, or an instruction in parentheses. Core spec 6.6.11 and 6.6.12.
/// Fails with `Expected` at a keyword that is neither `offset` nor an instruction, and at a sign extension that the
/// profile lacks.
pub fn offset<'a>(
    alloc: Global,
    profile: Profile,
    names: &Names,
    text: &'a [u8],
) -> Result<(Const, &'a [u8]), TextFault>
    ensures { Reads (λ x. (x.0, lexed x.1.now)) result
        (fields.offset_at profile (names_of names.now) (lexed text.now)) }
{
    let inner = open(text)?;
    match next_token(inner) {
        Some((Lexeme::Atom(atom), rest)) if is(atom, b"offset") => {
            closed_constant(alloc, profile, names, rest)
        }
        _ => folded(alloc, profile, names, Front::Offset, inner),
    }
}
