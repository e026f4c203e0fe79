//! Functions (Core spec 6.6.5).

ghost use Rattle.std.specs.Prelude.{◌≡◌, ◌≢◌, ◌++◌, ◌<◌, ◌≤◌, ◌⊎◌, ◌^◌, [], IfErr, IfOk, MatchOption};
ghost use Rattle.std.specs.Prelude.{false, length, true};
ghost use Rattle.wm_tokens.specs.Written as written;
ghost use Rattle.wm_tokens.specs.declared.faults.TextWhy.TheVariants.{Memory, TooManyLocals};
ghost use Rattle.wm_read.specs.exact.Fields as fields;
ghost use Rattle.wm_tokens.specs.exact.Scan.{lexed};
ghost use Rattle.wm_bodies.specs.inner.Blocks.{names_of};
ghost use Rattle.wm_read.specs.inner.Fields.{head_at};
ghost use Rattle.wm_bodies.specs.inner.Named.{named_list, named_of, params_of};
ghost use Rattle.wm_read.specs.inner.Tails.{IsTail};
ghost use Rattle.wm_bodies.specs.inner.Views.{IsOfReaders, NotMemory, Reads};

use std::alloc::{AllocError, Global};
use wm_bodies::bodies::read_body;
use wm_bodies::identifiers::{Names, Scope, Space, is_new};
use wm_bodies::named;
use wm_bodies::named::NamedRun;
use wm_bodies::named_uses::{NamedUse, Params, named_use};
use wm_bodies::op_immediates::refuse;
use wm_bodies::type_uses::{no_form, type_index};
use wm_syntax::modules::Function;
use wm_syntax::modules::locals::Locals;
use wm_syntax::profile::Profile;
use wm_syntax::why::Why;
use wm_tokens::faults::{TextFault, TextWhy};

/// Appends the items of a run to a space. Returns `false` if the run has an identifier that is in the space already.
#[tactic(auto, using(crate::proofs::FunctionCode::run_laws))]
fn add_run<'a>(space: &mut Space<'a>, run: NamedRun<'a>) -> Result<bool, AllocError>
    ensures new { IfOk result (λ b. b ≡ fields.all_new space.old (written.ids_of (named_of run.entry))) }
    ensures added { IfOk result (λ b. b ≡ true
        → space.new ≡ space.old ++ written.ids_of (named_of run.entry)) }
{
    match run {
        NamedRun::One(id, _) => {
            if !is_new(space, Some(id)) {
                return Ok(false);
            }
            space.push(Some(id))?;
        }
        NamedRun::Unnamed(count, _) => space.push_unnamed(count)?,
    }
    Ok(true)
}

/// Appends parameters or locals to a space. `None` if an identifier repeats or is in the space already.
#[tactic(auto, using(crate::proofs::FunctionCode::ids_laws))]
fn with_ids<'a>(
    mut space: Space<'a>,
    items: &[NamedRun<'a>],
) -> Result<Option<Space<'a>>, AllocError>
    ensures { IfOk result (λ o. MatchOption o
        (fields.all_new space.entry (written.ids_of (named_list items.now)) ≡ false)
        (λ s. (s ≡ space.entry ++ written.ids_of (named_list items.now))
        × (fields.all_new space.entry (written.ids_of (named_list items.now)) ≡ true))) }
{
    for run in items {
        if !add_run(&mut space, *run)? {
            return Ok(None);
        }
    }
    Ok(Some(space))
}

/// Returns the index space of a function's parameters. `None` if an identifier repeats. Parameters that are not written
/// take constant time.
#[tactic(auto, using(crate::proofs::FunctionCode::params_laws))]
fn params_space<'a>(alloc: Global, params: &Params<'_, 'a>) -> Result<Option<Space<'a>>, AllocError>
    ensures { IfOk result (λ o. MatchOption o
        (fields.all_new [] (written.ids_of (params_of params.now)) ≡ false)
        (λ s. (s ≡ written.ids_of (params_of params.now))
        × (fields.all_new [] (written.ids_of (params_of params.now)) ≡ true))) }
{
    match params {
        Params::OfType(types) => Ok(Some(Space::of_unnamed(alloc, types))),
        Params::Written(params) => with_ids(Space::new(alloc), params),
    }
}

/// Returns the index space of a function's parameters and locals. `None` if an identifier repeats.
#[tactic(auto, using(crate::proofs::FunctionCode::space_laws))]
fn locals_space<'a>(
    alloc: Global,
    params: &Params<'_, 'a>,
    locals: &[NamedRun<'a>],
) -> Result<Option<Space<'a>>, AllocError>
    ensures { IfOk result (λ o. MatchOption o
        (fields.all_new [] (written.ids_of (params_of params.now ++ named_list locals.now)) ≡ false)
        (λ s. (s ≡ written.ids_of (params_of params.now ++ named_list locals.now))
        × (fields.all_new [] (written.ids_of (params_of params.now ++ named_list locals.now)) ≡ true))) }
{
    match params_space(alloc, params)? {
        Some(space) => with_ids(space, locals),
        None => Ok(None),
    }
}

/// Returns the types of locals, as runs. Fails with `TooManyLocals` if they are 2^32 or more. `text` begins after them;
/// the refusal is at its first token.
#[tactic(auto, using(crate::proofs::FunctionCode::types_laws))]
fn local_types(alloc: Global, locals: &[NamedRun], text: &[u8]) -> Result<Locals, TextFault>
    requires { lexed text.now ≢ [] }
    ensures types { IfOk result (λ ts. (ts ≡ written.types_of (named_list locals.now))
        × (length ts < 2 ^ 32)) }
    ensures many { IfErr result (λ e. (e.why ≡ Memory)
        ⊎ ((e.why ≡ TooManyLocals) × (2 ^ 32 ≤ length (written.types_of (named_list locals.now))))) }
{
    let mut types = Locals::new(alloc);
    let mut rest = locals;
    while let [run, more @ ..] = rest {
        let (count, ty) = run.count_and_type();
        match types.add(count, ty) {
            Ok(()) => rest = more,
            Err(Why::TooManyLocals) => return Err(refuse(TextWhy::TooManyLocals, text)),
            Err(_) => return Err(TextFault::MEMORY),
        }
    }
    Ok(types)
}

/// Reads a type use, and the locals after it.
fn read_head<'n, 'a>(
    alloc: Global,
    profile: Profile,
    names: &'n Names,
    text: &'a [u8],
) -> Result<(NamedUse<'n, 'a>, Vec<NamedRun<'a>>, &'a [u8]), TextFault>
    ensures { Reads (λ x. (((x.0.index, params_of x.0.params), named_list x.1.items), lexed x.2.now)) result
        (head_at profile (names_of names.now) (lexed text.now)) }
{
    let (used, rest) = named_use(alloc, profile, names, true, text)?;
    let (locals, rest) = named::groups(alloc, profile, b"local", rest)?;
    Ok((used, locals, rest))
}

/// Returns the first error in a function's head, given an error there or right after it. A repeated identifier, or a
/// local too many, replaces `fault` if it comes before. `text` begins at the type use.
#[tactic(auto, using(crate::proofs::FunctionCode::earlier_read))]
fn first_fault(alloc: Global, names: &Names, fault: TextFault, text: &[u8]) -> TextFault
    ensures memory { NotMemory result.why → NotMemory fault.why }
    ensures readers { IsOfReaders fault.why → IsOfReaders result.why }
{
    if fault.why == TextWhy::Memory {
        return fault;
    }
    let Ok((_, rest)) = type_index(names, text) else {
        return fault;
    };
    match named::earlier_fault(alloc, rest, fault.left, u32::MAX) {
        Ok(Some(other)) => other,
        Ok(None) => fault,
        Err(_) => TextFault::MEMORY,
    }
}

/// Reads a function after its identifier: its type use, its locals and its body. Core spec 6.6.5.
/// Fails with `RepeatedId` if an identifier of parameters and locals repeats, and with `TooManyLocals` for 2^32 locals
/// or more. Fails with `Expected` if another form follows the locals.
#[tactic(auto, using(crate::proofs::FunctionCode::function_laws, crate::proofs::Tails::head_stands))]
pub fn function<'a>(
    alloc: Global,
    profile: Profile,
    names: &Names<'a>,
    text: &'a [u8],
) -> Result<(Function, &'a [u8]), TextFault>
    requires { IsTail (lexed text.now) }
    ensures { Reads (λ x. (x.0, lexed x.1.now)) result
        (fields.function_at profile (names_of names.now) (lexed text.now)) }
{
    let (used, locals, rest) = match read_head(alloc, profile, names, text) {
        Ok(head) => head,
        Err(fault) => return Err(first_fault(alloc, names, fault, text)),
    };
    if let Err(fault) = no_form(rest) {
        return Err(first_fault(alloc, names, fault, text));
    }
    let scope = match locals_space(alloc, &used.params, &locals)? {
        Some(space) => Scope {
            names,
            locals: space,
        },
        None => {
            let fault = refuse(TextWhy::RepeatedId, rest);
            return Err(first_fault(alloc, names, fault, text));
        }
    };
    let types = match local_types(alloc, &locals, rest) {
        Ok(types) => types,
        Err(fault) => return Err(first_fault(alloc, names, fault, text)),
    };
    let (body, rest) = read_body(alloc, profile, &scope, rest)?;
    let function = Function {
        type_index: used.index,
        locals: types,
        body,
    };
    Ok((function, rest))
}
