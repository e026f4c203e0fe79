//! All fields of a module (Core spec 6.6.13), given what they define.

ghost use Rattle.std.specs.Prelude.{◌≡◌, OnOk};
ghost use Rattle.wm_tokens.specs.Fields.{module_of};
ghost use Rattle.wm_read.specs.exact.Fields as fields;
ghost use Rattle.wm_bodies.specs.exact.Reading as reading;
ghost use Rattle.wm_tokens.specs.exact.Scan.{lexed};
ghost use Rattle.wm_bodies.specs.inner.Blocks.{names_of};
ghost use Rattle.wm_read.specs.inner.Fields.{field_of, with_field};
ghost use Rattle.wm_read.specs.inner.Tails.{IsTail};
ghost use Rattle.wm_bodies.specs.inner.Views.{Reads};
ghost use Rattle.wm_syntax.specs.Values.{value_of};

use crate::fields::{Field, read_field};
use std::alloc::{AllocError, Global};
use wm_bodies::identifiers::Names;
use wm_bodies::op_immediates::begins_open;
use wm_syntax::modules::Module;
use wm_syntax::profile::Profile;
use wm_tokens::faults::TextFault;

/// Adds a field to the module. If several fields are a start, the first counts.
fn add(whole: &mut Module, field: Field) -> Result<(), AllocError>
    ensures { OnOk result (value_of whole.new ≡ with_field (value_of whole.old) (field_of field.entry)) }
{
    match field {
        Field::Type(_, ty) => whole.types.push(ty)?,
        Field::Import(_, import) => whole.imports.push(import)?,
        Field::Function(_, function) => whole.functions.push(function)?,
        Field::Table(_, limits) => whole.tables.push(limits)?,
        Field::Memory(_, limits) => whole.memories.push(limits)?,
        Field::Global(_, global) => whole.globals.push(global)?,
        Field::Export(export) => whole.exports.push(export)?,
        Field::Start(x) => {
            if whole.start.is_none() {
                whole.start = Some(x);
            }
        }
        Field::Element(element) => whole.elements.push(element)?,
        Field::Segment(segment) => whole.segments.push(segment)?,
    }
    Ok(())
}

/// Reads all fields up to another token. Returns their module, and the text after them. If identifiers are distinct in
/// their spaces, `fields_are_read_as_written` says which fields are read.
#[tactic(auto, using(crate::proofs::ModuleFields::fields_laws, crate::proofs::Tails::tail_field))]
pub fn read_fields<'a>(
    alloc: Global,
    profile: Profile,
    names: &Names<'a>,
    text: &'a [u8],
) -> Result<(Module, &'a [u8]), TextFault>
    requires { IsTail (lexed text.now) }
    ensures { Reads (λ x. (value_of x.0, lexed x.1.now)) result
        (reading.made module_of (fields.fields_at profile (names_of names.now) (lexed text.now))) }
{
    let mut whole = Module::new(alloc);
    let mut rest = text;
    while begins_open(rest) {
        let (field, more) = read_field(alloc, profile, names, rest)?;
        add(&mut whole, field)?;
        rest = more;
    }
    Ok((whole, rest))
}
