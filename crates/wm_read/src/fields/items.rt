//! Descriptors of imports (Core spec 6.6.4) and of exports (Core spec 6.6.9).

ghost use Rattle.std.specs.Prelude.{◌≡◌};
ghost use Rattle.wm_read.specs.exact.Fields as fields;
ghost use Rattle.wm_tokens.specs.exact.Scan.{lexed};
ghost use Rattle.wm_bodies.specs.inner.Blocks.{names_of};
ghost use Rattle.wm_bodies.specs.inner.Ids.{id_of};
ghost use Rattle.wm_bodies.specs.inner.Views.{Reads};

use crate::fields::keywords::item_kind;
use crate::fields::types::{global_type, limits, table_type};
use std::alloc::Global;
use wm_bodies::identifiers::{Names, Space};
use wm_bodies::named_uses::named_use;
use wm_bodies::op_immediates::{close, close_forms, id, index, open, with};
use wm_syntax::modules::{ExportKind, ImportDesc};
use wm_syntax::profile::Profile;
use wm_tokens::faults::TextFault;

/// Reads the type of an import, after its identifier.
fn desc_type<'a>(
    alloc: Global,
    profile: Profile,
    names: &Names,
    kind: ExportKind,
    text: &'a [u8],
) -> Result<(ImportDesc, &'a [u8]), TextFault>
    ensures { Reads (λ x. (x.0, lexed x.1.now)) result
        (fields.desc_kind profile (names_of names.now) kind (lexed text.now)) }
{
    match kind {
        ExportKind::Func => {
            let (used, rest) = named_use(alloc, profile, names, false, text)?;
            Ok((ImportDesc::Func(used.index), rest))
        }
        ExportKind::Table => Ok(with(ImportDesc::Table, table_type(text)?)),
        ExportKind::Memory => Ok(with(ImportDesc::Memory, limits(text)?)),
        ExportKind::Global => Ok(with(ImportDesc::Global, global_type(profile, text)?)),
    }
}

/// Reads an import descriptor: its kind, its optional identifier, and its type. Core spec 6.6.4.
pub fn desc<'a>(
    alloc: Global,
    profile: Profile,
    names: &Names,
    text: &'a [u8],
) -> Result<(Option<&'a [u8]>, ImportDesc, &'a [u8]), TextFault>
    ensures { Reads (λ x. ((id_of x.0, x.1), lexed x.2.now)) result
        (fields.desc_at profile (names_of names.now) (lexed text.now)) }
{
    let rest = open(text)?;
    let (kind, rest) = item_kind(rest)?;
    let (id, rest) = id(rest);
    let (desc, rest) = desc_type(alloc, profile, names, kind, rest)?;
    let rest = match kind {
        ExportKind::Func => close_forms(rest)?,
        _ => close(rest)?,
    };
    Ok((id, desc, rest))
}

/// Returns the index space of a kind.
pub(crate) fn space_of<'n, 'a>(names: &'n Names<'a>, kind: ExportKind) -> &'n Space<'a>
    ensures { result.now ≡ fields.space_of (names_of names.now) kind }
{
    match kind {
        ExportKind::Func => &names.functions,
        ExportKind::Table => &names.tables,
        ExportKind::Memory => &names.memories,
        ExportKind::Global => &names.globals,
    }
}

/// Reads an export descriptor: its kind and its index. Core spec 6.6.9.
pub fn item<'a>(names: &Names, text: &'a [u8]) -> Result<(ExportKind, u32, &'a [u8]), TextFault>
    ensures { Reads (λ x. ((x.0, x.1), lexed x.2.now)) result
        (fields.item_at (names_of names.now) (lexed text.now)) }
{
    let rest = open(text)?;
    let (kind, rest) = item_kind(rest)?;
    let (x, rest) = index(space_of(names, kind), rest)?;
    let rest = close(rest)?;
    Ok((kind, x, rest))
}
