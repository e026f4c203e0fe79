//! The keywords of fields, and of the descriptors of imports and exports (Core spec 6.6).

ghost use Rattle.std.specs.Prelude.{◌≡◌, ◌≢◌, []};
ghost use Rattle.wm_read.specs.exact.Fields.{field_named, item_named};
ghost use Rattle.wm_bodies.specs.exact.Reading as reading;
ghost use Rattle.wm_tokens.specs.exact.Scan.{lexed};
ghost use Rattle.wm_bodies.specs.inner.Views.{IsRefusal, Reads};

use wm_bodies::literals::{is, is_word};
use wm_bodies::op_immediates::refuse;
use wm_bodies::{named, value_in};
use wm_syntax::modules::ExportKind;
use wm_tokens::faults::{TextFault, TextWhy};
use wm_tokens::lexeme::{Lexeme, next_token};

/// The kind of a field.
#[derive(Clone, Copy, PartialEq, Eq)]
pub enum FieldKind {
    Type,
    Import,
    Func,
    Table,
    Memory,
    Global,
    Export,
    Start,
    Elem,
    Data,
}

/// Returns the kind of field that has this keyword, if any.
fn field_with(atom: &[u8]) -> Option<FieldKind>
    ensures { result ≡ field_named atom.now }
{
    named!(
        atom,
        b"type" => FieldKind::Type,
        b"import" => FieldKind::Import,
        b"func" => FieldKind::Func,
        b"table" => FieldKind::Table,
        b"memory" => FieldKind::Memory,
        b"global" => FieldKind::Global,
        b"export" => FieldKind::Export,
        b"start" => FieldKind::Start,
        b"elem" => FieldKind::Elem,
        b"data" => FieldKind::Data,
    )
}

/// Returns the kind of import or export that has this keyword, if any.
fn item_with(atom: &[u8]) -> Option<ExportKind>
    ensures { result ≡ item_named atom.now }
{
    named!(
        atom,
        b"func" => ExportKind::Func,
        b"table" => ExportKind::Table,
        b"memory" => ExportKind::Memory,
        b"global" => ExportKind::Global,
    )
}

/// Returns the refusal of an atom that is no keyword of a field. The atom is the first token of `text`.
fn no_form(atom: &[u8], text: &[u8]) -> TextFault
    requires { lexed text.now ≢ [] }
    ensures { IsRefusal result.why }
{
    if is_word(atom) {
        refuse(TextWhy::UnknownWord, text)
    } else {
        refuse(TextWhy::Expected, text)
    }
}

/// Reads the keyword of a field. Fails with `UnknownWord` for another keyword, and else with `Expected`.
pub fn field_kind(text: &[u8]) -> Result<(FieldKind, &[u8]), TextFault>
    ensures { Reads (λ x. (x.0, lexed x.1.now)) result (reading.atom_at field_named (lexed text.now)) }
{
    value_in!(next_token(text), text, atom => field_with(atom), no_form(atom, text))
}

/// Reads the keyword of a descriptor: `func`, `table`, `memory` or `global`. Fails with `Expected` for anything else.
pub fn item_kind(text: &[u8]) -> Result<(ExportKind, &[u8]), TextFault>
    ensures { Reads (λ x. (x.0, lexed x.1.now)) result (reading.atom_at item_named (lexed text.now)) }
{
    value_in!(next_token(text), text, atom => item_with(atom), refuse(TextWhy::Expected, text))
}
