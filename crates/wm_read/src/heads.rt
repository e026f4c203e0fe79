//! The first pass over a module (Core spec 6.6): it collects what the fields define. It reads the head of each field,
//! and skips the rest by counting parentheses.

ghost use Rattle.std.specs.Prelude.{◌≡◌, ◌≢◌, ◌≤◌, [], OnOk};
ghost use Rattle.wm_read.specs.exact.FirstReading as first;
ghost use Rattle.wm_tokens.specs.exact.Scan.{lexed};
ghost use Rattle.wm_bodies.specs.inner.Blocks.{names_of};
ghost use Rattle.wm_read.specs.inner.Heads.{noted_of};
ghost use Rattle.wm_bodies.specs.inner.Ids.{id_of};
ghost use Rattle.wm_bodies.specs.inner.Views.{Reads};

use crate::fields::items::space_of;
use crate::fields::keywords::{FieldKind, field_kind, item_kind};
use crate::fields::signatures::signature;
use crate::fields::strings::name;
use std::alloc::{AllocError, Global};
use wm_bodies::identifiers::{Names, Space, is_new};
use wm_bodies::op_immediates::{begins_open, close, id, open, refuse};
use wm_syntax::modules::ExportKind;
use wm_syntax::profile::Profile;
use wm_tokens::faults::{TextFault, TextWhy};
use wm_tokens::lexeme::{Lexeme, next_token};
use wm_tokens::plain_spans::after_spans;
use wm_tokens::scan::{after_spaces, plain_atom};

/// The definitions in the heads up to here.
#[derive(Drop)]
struct Noted<'a> {
    names: Names<'a>,
    /// Whether a function, table, memory or global was defined.
    defined: bool,
    /// Whether a start field was read.
    started: bool,
}

/// Appends an item to the index space of its kind.
fn push_item<'a>(
    names: &mut Names<'a>,
    kind: ExportKind,
    id: Option<&'a [u8]>,
) -> Result<(), AllocError>
    ensures { OnOk result (names_of names.new ≡ first.with_item (names_of names.old) kind (id_of id.entry)) }
{
    match kind {
        ExportKind::Func => names.functions.push(id),
        ExportKind::Table => names.tables.push(id),
        ExportKind::Memory => names.memories.push(id),
        ExportKind::Global => names.globals.push(id),
    }
}

/// Reads an optional identifier. Fails with `RepeatedId` if an item of the space has it already.
#[tactic(auto, using(crate::proofs::Frames::id_stands))]
fn free_id<'a>(space: &Space, text: &'a [u8]) -> Result<(Option<&'a [u8]>, &'a [u8]), TextFault>
    ensures { Reads (λ x. (id_of x.0, lexed x.1.now)) result (first.free_id_at space.now (lexed text.now)) }
{
    let (id, rest) = id(text);
    if is_new(space, id) {
        Ok((id, rest))
    } else {
        Err(refuse(TextWhy::RepeatedId, text))
    }
}

/// Skips tokens until `depth` open parentheses are closed. Fails with `Expected` at the end of the text.
#[tactic(auto, using(crate::proofs::HeadSteps::skip_laws, crate::proofs::Skips::skip_laws))]
fn skip(depth: usize, text: &[u8]) -> Result<&[u8], TextFault>
    requires { depth ≤ 2 }
    ensures { Reads (λ r. lexed r.now) result (first.skip depth (lexed text.now)) }
{
    let mut open = depth;
    let mut rest = text;
    while open > 0 {
        match plain_atom(rest) {
            Some((_, more)) => rest = after_spaces(more),
            None => match next_token(rest) {
                Some((Lexeme::Open, more)) => {
                    open += 1;
                    rest = more;
                }
                Some((Lexeme::Close, more)) => {
                    open -= 1;
                    rest = more;
                }
                Some((Lexeme::String(_), more)) => rest = after_spans(more),
                Some((Lexeme::Atom(_), more)) => rest = after_spans(more),
                None => return Err(refuse(TextWhy::Expected, rest)),
            },
        }
    }
    Ok(rest)
}

/// Reads the rest of a type field to its end, since type uses need its type.
fn type_head<'a>(
    alloc: Global,
    profile: Profile,
    noted: &mut Noted<'a>,
    text: &'a [u8],
) -> Result<&'a [u8], TextFault>
    ensures { Reads (λ r. (noted_of noted.new, lexed r.now)) result
        (first.type_head_at profile (noted_of noted.old) (lexed text.now)) }
{
    let (id, rest) = free_id(&noted.names.types, text)?;
    let (ty, rest) = signature(alloc, profile, rest)?;
    let rest = close(rest)?;
    noted.names.types.push(id)?;
    noted.names.signatures.push(ty)?;
    Ok(rest)
}

/// Reads an import descriptor up to its identifier.
fn desc_head<'a>(noted: &mut Noted<'a>, text: &'a [u8]) -> Result<&'a [u8], TextFault>
    ensures { Reads (λ r. (noted_of noted.new, lexed r.now)) result
        (first.desc_head_at (noted_of noted.old) (lexed text.now)) }
{
    let rest = open(text)?;
    let (kind, rest) = item_kind(rest)?;
    let (id, rest) = free_id(space_of(&noted.names, kind), rest)?;
    push_item(&mut noted.names, kind, id)?;
    Ok(rest)
}

/// Reads the names and the descriptor's head of an import, and skips the rest.
fn import_head<'a>(
    alloc: Global,
    noted: &mut Noted<'a>,
    text: &'a [u8],
) -> Result<&'a [u8], TextFault>
    ensures { Reads (λ r. (noted_of noted.new, lexed r.now)) result
        (first.import_head_at (noted_of noted.old) (lexed text.now)) }
{
    let (_module, rest) = name(alloc, text)?;
    let (_item, rest) = name(alloc, rest)?;
    let rest = desc_head(noted, rest)?;
    skip(2, rest)
}

/// Reads the identifier of a function, table, memory or global, and skips the rest.
fn item_head<'a>(
    noted: &mut Noted<'a>,
    kind: ExportKind,
    text: &'a [u8],
) -> Result<&'a [u8], TextFault>
    ensures { Reads (λ r. (noted_of noted.new, lexed r.now)) result
        (first.item_head_at kind (noted_of noted.old) (lexed text.now)) }
{
    let (id, rest) = free_id(space_of(&noted.names, kind), text)?;
    let rest = skip(1, rest)?;
    push_item(&mut noted.names, kind, id)?;
    noted.defined = true;
    Ok(rest)
}

/// Reads the head of a field after its keyword, and skips the rest. `word` begins at the keyword.
#[tactic(auto, unfolding(crate::specs::exact::FirstReading::head_by))]
fn head_of<'a>(
    alloc: Global,
    profile: Profile,
    noted: &mut Noted<'a>,
    kind: FieldKind,
    word: &'a [u8],
    text: &'a [u8],
) -> Result<&'a [u8], TextFault>
    requires { lexed word.now ≢ [] }
    ensures { Reads (λ r. (noted_of noted.new, lexed r.now)) result
        (first.head_by profile kind (noted_of noted.old) (lexed text.now)) }
{
    match kind {
        FieldKind::Type => type_head(alloc, profile, noted, text),
        FieldKind::Import => {
            if noted.defined {
                Err(refuse(TextWhy::ImportPlace, word))
            } else {
                import_head(alloc, noted, text)
            }
        }
        FieldKind::Func => item_head(noted, ExportKind::Func, text),
        FieldKind::Table => item_head(noted, ExportKind::Table, text),
        FieldKind::Memory => item_head(noted, ExportKind::Memory, text),
        FieldKind::Global => item_head(noted, ExportKind::Global, text),
        FieldKind::Start => {
            if noted.started {
                return Err(refuse(TextWhy::SecondStart, word));
            }
            let rest = skip(1, text)?;
            noted.started = true;
            Ok(rest)
        }
        FieldKind::Export | FieldKind::Elem | FieldKind::Data => skip(1, text),
    }
}

/// Reads the head of a field, and skips the rest.
#[tactic(auto, using(wm_bodies::proofs::Ends::atom_stands), unfolding(crate::specs::exact::FirstReading::head_at))]
fn head<'a>(
    alloc: Global,
    profile: Profile,
    noted: &mut Noted<'a>,
    text: &'a [u8],
) -> Result<&'a [u8], TextFault>
    ensures { Reads (λ r. (noted_of noted.new, lexed r.now)) result
        (first.head_at profile (noted_of noted.old) (lexed text.now)) }
{
    let word = open(text)?;
    let (kind, rest) = field_kind(word)?;
    head_of(alloc, profile, noted, kind, word, rest)
}

/// Reads the heads of all fields up to another token. Returns what they define, and the text after them.
/// Fails with `RepeatedId` at an identifier that is defined a second time. Fails at the keyword of a field with
/// `ImportPlace`, for an import after a function, table, memory or global, and with `SecondStart`.
#[tactic(auto, using(crate::proofs::HeadSteps::heads_laws))]
pub fn read_heads<'a>(
    alloc: Global,
    profile: Profile,
    text: &'a [u8],
) -> Result<(Names<'a>, &'a [u8]), TextFault>
    ensures { Reads (λ x. (names_of x.0, lexed x.1.now)) result (first.names_at profile (lexed text.now)) }
{
    let mut noted = Noted {
        names: Names {
            signatures: Vec::new(alloc),
            types: Space::new(alloc),
            functions: Space::new(alloc),
            tables: Space::new(alloc),
            memories: Space::new(alloc),
            globals: Space::new(alloc),
        },
        defined: false,
        started: false,
    };
    let mut rest = text;
    while begins_open(rest) {
        rest = head(alloc, profile, &mut noted, rest)?;
    }
    Ok((noted.names, rest))
}
