//! The second pass: reads fields (Core spec 6.6), given what all fields of the module define.

ghost use Rattle.std.specs.Prelude.{◌≡◌};
ghost use Rattle.wm_read.specs.exact.Fields as fields;
ghost use Rattle.wm_bodies.specs.exact.Reading as reading;
ghost use Rattle.wm_tokens.specs.exact.Scan.{lexed};
ghost use Rattle.wm_bodies.specs.inner.Blocks.{names_of};
ghost use Rattle.wm_bodies.specs.inner.Ids.{id_of};
ghost use Rattle.wm_read.specs.inner.Fields.{field_of};
ghost use Rattle.wm_read.specs.inner.Tails.{IsTail};
ghost use Rattle.wm_bodies.specs.inner.Views.{Reads};

use crate::fields::constants::{constant, constant_end, offset};
use crate::fields::functions::function;
use crate::fields::items::{desc, item};
use crate::fields::keywords::{FieldKind, field_kind};
use crate::fields::signatures::signature;
use crate::fields::strings::{bytes, name};
use crate::fields::types::{global_type, limits, table_type};
use std::alloc::Global;
use wm_bodies::identifiers::{Names, Space, is_new};
use wm_bodies::literals::{is, is_id};
use wm_bodies::op_immediates::{begins_index, begins_open, close, id, index, known, open};
use wm_syntax::modules::{Element, Export, Function, GlobalDef, Import, Segment, SegmentMode};
use wm_syntax::profile::{Feature, Profile};
use wm_syntax::types::{FuncType, Limits};
use wm_tokens::faults::TextFault;
use wm_tokens::lexeme::{Lexeme, next_token};

pub(crate) mod constants;
pub(crate) mod functions;
pub(crate) mod items;
pub(crate) mod keywords;
pub(crate) mod lists;
pub(crate) mod signatures;
pub(crate) mod strings;
pub(crate) mod types;

/// A field, with the identifier that it defines.
#[derive(Drop)]
pub enum Field<'a> {
    Type(Option<&'a [u8]>, FuncType),
    Import(Option<&'a [u8]>, Import),
    Function(Option<&'a [u8]>, Function),
    Table(Option<&'a [u8]>, Limits),
    Memory(Option<&'a [u8]>, Limits),
    Global(Option<&'a [u8]>, GlobalDef),
    Export(Export),
    Start(u32),
    Element(Element),
    Segment(Segment),
}

/// Reads the two names and the descriptor of an import. Core spec 6.6.4.
fn import<'a>(
    alloc: Global,
    profile: Profile,
    names: &Names,
    text: &'a [u8],
) -> Result<(Field<'a>, &'a [u8]), TextFault>
    ensures { Reads (λ x. (field_of x.0, lexed x.1.now)) result
        (fields.import_at profile (names_of names.now) (lexed text.now)) }
{
    let (module_name, rest) = name(alloc, text)?;
    let (item_name, rest) = name(alloc, rest)?;
    let (id, desc, rest) = desc(alloc, profile, names, rest)?;
    let import = Import {
        module_name,
        item_name,
        desc,
    };
    Ok((Field::Import(id, import), rest))
}

/// Reads a global's identifier, type and initialiser. Core spec 6.6.8.
fn global<'a>(
    alloc: Global,
    profile: Profile,
    names: &Names,
    text: &'a [u8],
) -> Result<(Field<'a>, &'a [u8]), TextFault>
    ensures { Reads (λ x. (field_of x.0, lexed x.1.now)) result
        (fields.global_at profile (names_of names.now) (lexed text.now)) }
{
    let (id, rest) = id(text);
    let (ty, rest) = global_type(profile, rest)?;
    let (init, rest) = constant(alloc, profile, names, rest)?;
    Ok((Field::Global(id, GlobalDef { ty, init }), rest))
}

/// Reads the name and the descriptor of an export. Core spec 6.6.9.
fn export<'a>(
    alloc: Global,
    names: &Names,
    text: &'a [u8],
) -> Result<(Field<'a>, &'a [u8]), TextFault>
    ensures { Reads (λ x. (field_of x.0, lexed x.1.now)) result
        (fields.export_at (names_of names.now) (lexed text.now)) }
{
    let (name, rest) = name(alloc, text)?;
    let (kind, index, rest) = item(names, rest)?;
    Ok((Field::Export(Export { name, kind, index }), rest))
}

/// Reads indices up to another token. Core spec 6.6.11.
#[tactic(auto, using(wm_bodies::proofs::Tables::labels_laws, crate::proofs::FieldCode::atom_shrinks))]
fn indices<'a>(
    alloc: Global,
    space: &Space,
    text: &'a [u8],
) -> Result<(Vec<u32>, &'a [u8]), TextFault>
    ensures { Reads (λ x. (x.0.items, lexed x.1.now)) result (reading.labels_at space.now (lexed text.now)) }
{
    let mut indices = Vec::new(alloc);
    let mut rest = text;
    while begins_index(rest) {
        let (x, more) = index(space, rest)?;
        indices.push(x)?;
        rest = more;
    }
    Ok((indices, rest))
}

/// Reads the index of a segment's table or memory (Core spec 6.6.11 and 6.6.12). It is 0 if an offset's parenthesis
/// comes first, or comes after an identifier that the space lacks. This identifier is the segment's own.
fn target<'a>(space: &Space, text: &'a [u8]) -> Result<(u32, &'a [u8]), TextFault>
    ensures { Reads (λ x. (x.0, lexed x.1.now)) result (fields.target_at space.now (lexed text.now)) }
{
    match next_token(text) {
        Some((Lexeme::Atom(atom), rest)) if is_id(atom) => match space.place(atom) {
            None if begins_open(rest) => Ok((0, rest)),
            place => Ok((known(place, text)?, rest)),
        },
        Some((Lexeme::Open, _)) => Ok((0, text)),
        _ => index(space, text),
    }
}

/// Returns the text after the keyword `func`, if it comes first.
fn after_func(text: &[u8]) -> &[u8]
    ensures { lexed result.now ≡ fields.after_func (lexed text.now) }
{
    match next_token(text) {
        Some((Lexeme::Atom(atom), rest)) if is(atom, b"func") => rest,
        _ => text,
    }
}

/// Whether the first token is the keyword `func`.
fn begins_func(text: &[u8]) -> bool
    ensures { result ≡ fields.begins_func (lexed text.now) }
{
    matches!(next_token(text), Some((Lexeme::Atom(atom), _)) if is(atom, b"func"))
}

/// Whether the first token is a string or a closing parenthesis.
fn begins_strings(text: &[u8]) -> bool
    ensures { result ≡ fields.begins_strings (lexed text.now) }
{
    matches!(
        next_token(text),
        Some((Lexeme::String(_) | Lexeme::Close, _))
    )
}

/// Whether a segment is passive (WebAssembly 2.0, 6.6.11 and 6.6.12). `own` is its identifier, which no item of the
/// space may have. `listed`: its list of functions or strings comes next.
fn is_passive(profile: Profile, space: &Space, own: Option<&[u8]>, listed: bool) -> bool
    ensures { result ≡ fields.is_passive profile space.now (id_of own.entry) listed }
{
    profile.has(Feature::BulkMemory) && listed && is_new(space, own)
}

/// Reads the mode of an active segment: the index of a table or memory of this space, and an offset. Core spec 6.6.11
/// and 6.6.12.
fn active<'a>(
    alloc: Global,
    profile: Profile,
    names: &Names,
    space: &Space,
    text: &'a [u8],
) -> Result<(SegmentMode, &'a [u8]), TextFault>
    ensures { Reads (λ x. (x.0, lexed x.1.now)) result
        (fields.active_at profile (names_of names.now) space.now (lexed text.now)) }
{
    let (index, rest) = target(space, text)?;
    let (offset, rest) = offset(alloc, profile, names, rest)?;
    Ok((SegmentMode::Active { index, offset }, rest))
}

/// Reads an element segment: its mode and functions. Core spec 6.6.11.
fn element<'a>(
    alloc: Global,
    profile: Profile,
    names: &Names,
    text: &'a [u8],
) -> Result<(Field<'a>, &'a [u8]), TextFault>
    ensures { Reads (λ x. (field_of x.0, lexed x.1.now)) result
        (fields.element_at profile (names_of names.now) (lexed text.now)) }
{
    let (own, rest) = id(text);
    let (mode, rest) = if is_passive(profile, &names.tables, own, begins_func(rest)) {
        (SegmentMode::Passive, rest)
    } else {
        active(alloc, profile, names, &names.tables, text)?
    };
    let (functions, rest) = indices(alloc, &names.functions, after_func(rest))?;
    Ok((Field::Element(Element { mode, functions }), rest))
}

/// Reads a data segment: its mode and strings. Core spec 6.6.12.
fn segment<'a>(
    alloc: Global,
    profile: Profile,
    names: &Names,
    text: &'a [u8],
) -> Result<(Field<'a>, &'a [u8]), TextFault>
    ensures { Reads (λ x. (field_of x.0, lexed x.1.now)) result
        (fields.segment_at profile (names_of names.now) (lexed text.now)) }
{
    let (own, rest) = id(text);
    let (mode, rest) = if is_passive(profile, &names.memories, own, begins_strings(rest)) {
        (SegmentMode::Passive, rest)
    } else {
        active(alloc, profile, names, &names.memories, text)?
    };
    let (bytes, rest) = bytes(alloc, rest)?;
    Ok((Field::Segment(Segment { mode, bytes }), rest))
}

/// Reads the contents of a field: all between its keyword and its closing parenthesis.
#[tactic(auto, using(crate::proofs::Tails::tail_id))]
fn inside<'a>(
    alloc: Global,
    profile: Profile,
    names: &Names<'a>,
    kind: FieldKind,
    text: &'a [u8],
) -> Result<(Field<'a>, &'a [u8]), TextFault>
    requires { IsTail (lexed text.now) }
    ensures { Reads (λ x. (field_of x.0, lexed x.1.now)) result
        (fields.inside_at profile (names_of names.now) kind (lexed text.now)) }
{
    match kind {
        FieldKind::Type => {
            let (id, rest) = id(text);
            let (ty, rest) = signature(alloc, profile, rest)?;
            Ok((Field::Type(id, ty), rest))
        }
        FieldKind::Import => import(alloc, profile, names, text),
        FieldKind::Func => {
            let (id, rest) = id(text);
            let (function, rest) = function(alloc, profile, names, rest)?;
            Ok((Field::Function(id, function), rest))
        }
        FieldKind::Table => {
            let (id, rest) = id(text);
            let (limits, rest) = table_type(rest)?;
            Ok((Field::Table(id, limits), rest))
        }
        FieldKind::Memory => {
            let (id, rest) = id(text);
            let (limits, rest) = limits(rest)?;
            Ok((Field::Memory(id, limits), rest))
        }
        FieldKind::Global => global(alloc, profile, names, text),
        FieldKind::Export => export(alloc, names, text),
        FieldKind::Start => {
            let (x, rest) = index(&names.functions, text)?;
            Ok((Field::Start(x), rest))
        }
        FieldKind::Elem => element(alloc, profile, names, text),
        FieldKind::Data => segment(alloc, profile, names, text),
    }
}

/// Reads the closing parenthesis of a field of this kind.
fn field_end(profile: Profile, kind: FieldKind, text: &[u8]) -> Result<&[u8], TextFault>
    ensures { Reads (λ r. (tt, lexed r.now)) result (reading.close_at (lexed text.now)) }
{
    match kind {
        FieldKind::Global => constant_end(profile, text),
        _ => close(text),
    }
}

/// Reads a field. Core spec 6.6.13.
#[tactic(auto, using(crate::proofs::Tails::tail_laws), unfolding(crate::specs::exact::Fields::field_at))]
pub fn read_field<'a>(
    alloc: Global,
    profile: Profile,
    names: &Names<'a>,
    text: &'a [u8],
) -> Result<(Field<'a>, &'a [u8]), TextFault>
    requires { IsTail (lexed text.now) }
    ensures { Reads (λ x. (field_of x.0, lexed x.1.now)) result
        (fields.field_at profile (names_of names.now) (lexed text.now)) }
{
    let rest = open(text)?;
    let (kind, rest) = field_kind(rest)?;
    let (field, rest) = inside(alloc, profile, names, kind, rest)?;
    let rest = field_end(profile, kind, rest)?;
    Ok((field, rest))
}
