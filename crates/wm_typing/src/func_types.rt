//! The function types of a module, stored in two lists.

ghost use Rattle.std.specs.Prelude.{◌≡◌, ◌+◌, ◌-◌, ◌<◌, [], ◌∷◌, ◌++◌, None, Some, MatchOption, MatchResult};
ghost use Rattle.std.specs.Prelude.{OnErr, OnOk, length, option_to_list, slice_get};
ghost use Rattle.wm_typing.specs.Contexts.{params_in};
ghost use Rattle.wm_typing.specs.inner.FuncTypes.{with_last};

use std::alloc::{AllocError, Global};
use std::marker::Model;
use wm_syntax::types::ValType;

/// Function types with at most one result. The parameters of all types are in one list, so that a type needs no
/// allocation of its own. Contracts see the list of types. Core spec 2.3.3.
#[derive(Debug, Drop)]
pub struct FuncTypes {
    params: Vec<ValType>,
    entries: Vec<TypeEntry>,
}

/// A borrowed function type.
#[derive(Clone, Copy, Debug)]
pub struct FuncTypeRef<'a> {
    pub params: &'a [ValType],
    pub result: Option<ValType>,
}

// The start and the number of a type's parameters, and its result.
#[derive(Clone, Copy, Debug, PartialEq, Eq)]
struct TypeEntry {
    start: usize,
    count: usize,
    result: Option<ValType>,
}

impl Model for FuncTypes {
    ghost use Rattle.std.specs.Prelude.{List, length};
    ghost use Rattle.wm_syntax.specs.Types.{Signature};
    ghost use Rattle.wm_typing.specs.inner.FuncTypes.{AreEntries, signatures_in};

    ghost Value = { List Signature };

    ghost view = { λ t. signatures_in t.params.items t.entries.items };

    ghost invariant = { λ t. AreEntries (length t.params.items) t.entries.items };
}

impl FuncTypes {
    /// Returns an empty list of types.
    pub fn new(alloc: Global) -> Self
        ensures { result ≡ [] }
    {
        FuncTypes {
            params: Vec::new(alloc),
            entries: Vec::new(alloc),
        }
    }

    /// The number of types.
    pub fn len(&self) -> usize
        ensures { result ≡ length self.now }
    {
        self.entries.len()
    }

    /// The type with this index, or `None` if there is none.
    #[inline]
    pub fn get(&self, index: usize) -> Option<FuncTypeRef<'_>>
        ensures { MatchOption result (slice_get self.now index ≡ None)
            (λ f. slice_get self.now index ≡ Some (record {
              params = f.params.now;
              results = option_to_list f.result;
            })) }
    {
        let entry = *self.entries.get(index)?;
        Some(FuncTypeRef {
            params: &self.params[entry.start..entry.start + entry.count],
            result: entry.result,
        })
    }

    // The parameter of a type with this index. Fails with `index` less the number of parameters if there is
    // none.
    #[inline(always)]
    pub(crate) fn param(&self, ty: usize, index: u32) -> Result<ValType, u32>
        ensures { MatchResult result
            (λ t. slice_get (params_in (slice_get self.now ty)) index ≡ Some t)
            (λ past. index ≡ length (params_in (slice_get self.now ty)) + past) }
    {
        let Some(entry) = self.entries.get(ty) else {
            return Err(index);
        };
        let params = self.params.as_slice();
        let at = index as usize;
        if at < entry.count {
            Ok(params[entry.start + at])
        } else {
            Err((at - entry.count) as u32)
        }
    }

    /// The last type, or `None` if there is none.
    pub fn last(&self) -> Option<FuncTypeRef<'_>>
        ensures { MatchOption result (slice_get self.now (length self.now - 1) ≡ None)
            (λ f. slice_get self.now (length self.now - 1) ≡ Some (record {
              params = f.params.now;
              results = option_to_list f.result;
            })) }
    {
        self.get(self.len().saturating_sub(1))
    }

    /// Adds a type. Fails if memory runs out, and changes nothing then.
    pub fn push(&mut self, params: &[ValType], given: Option<ValType>) -> Result<(), AllocError>
        ensures ok { OnOk result (self.new ≡ self.old ++ record {
          params = params.now;
          results = option_to_list given;
        } ∷ []) }
        ensures err { OnErr result (self.new ≡ self.old) }
    {
        push_entry(&mut self.params, &mut self.entries, params, given)?;
        Ok(())
    }

    /// Adds a parameter to the last type, which must exist. Fails if memory runs out, and changes nothing then.
    pub fn push_param(&mut self, ty: ValType) -> Result<(), AllocError>
        requires { 0 < length self.old }
        ensures ok { OnOk result
            (self.new ≡ with_last (λ f. record f { params = f.params ++ ty ∷ [] }) self.old) }
        ensures err { OnErr result (self.new ≡ self.old) }
    {
        self.params.push(ty)?;
        // no test: its contract bounds the number of all parameters, and so the count of this type
        let _total = self.params.len();
        let last = self.entries.len() - 1;
        self.entries[last].count += 1;
        Ok(())
    }

    /// Sets the result of the last type, which must exist.
    pub fn set_result(&mut self, ty: ValType)
        requires { 0 < length self.old }
        ensures { self.new ≡ with_last (λ f. record f { results = ty ∷ [] }) self.old }
    {
        let last = self.entries.len() - 1;
        self.entries[last].result = Some(ty);
    }
}

// Adds the parameters and the entry of a type. A failure changes nothing.
fn push_entry(
    all: &mut Vec<ValType>,
    entries: &mut Vec<TypeEntry>,
    params: &[ValType],
    given: Option<ValType>,
) -> Result<(), AllocError>
    ensures params { OnOk result (all.new.items ≡ all.old.items ++ params.now) }
    ensures entries { OnOk result (entries.new.items ≡ entries.old.items ++ record {
      start = length all.old.items;
      count = length params.now;
      result = given;
    } ∷ []) }
    ensures err { OnErr result ((all.new.items ≡ all.old.items) × (entries.new.items ≡ entries.old.items)) }
{
    let start = all.len();
    all.extend_from_slice(params)?;
    let entry = TypeEntry {
        start,
        count: params.len(),
        result: given,
    };
    if entries.push(entry).is_err() {
        all.truncate(start);
        return Err(AllocError);
    }
    Ok(())
}
