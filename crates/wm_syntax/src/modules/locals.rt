//! The types of a function's locals, as runs of one type.

ghost use Rattle.std.specs.Prelude.{◌≡◌, ◌+◌, ◌-◌, ◌^◌, ◌<◌, ◌≤◌, ◌⊎◌, ◌↔◌, IsTrue, [], ◌++◌, None, Some, Ok};
ghost use Rattle.std.specs.Prelude.{IfErr, OnErr, OnOk, MatchResult, length, replicate, slice_get};
ghost use Rattle.wm_syntax.specs.Runs.{run_count, runs_of};
ghost use Rattle.wm_syntax.specs.exact.Runs.{add_run};
ghost use Rattle.wm_syntax.specs.inner.Runs.{AreRuns, last_end, last_type, start_at, types_in};

use crate::types::ValType;
use crate::why::Why;
use std::alloc::Global;
use std::marker::Model;

/// The types of a function's locals (Core spec 5.5.13). It holds one entry for each maximal run of one type,
/// however many locals there are. Contracts see the list of types.
#[derive(Debug, Drop)]
pub struct Locals {
    runs: Vec<Run>,
}

/// A run of locals of one type. The local with index `end` is the first one after it.
#[derive(Clone, Copy, Debug, PartialEq, Eq)]
pub struct Run {
    pub end: u32,
    pub ty: ValType,
}

impl Model for Locals {
    ghost use Rattle.std.specs.Prelude.{List, None};
    ghost use Rattle.wm_syntax.specs.declared.types.ValType.{ValType};
    ghost use Rattle.wm_syntax.specs.inner.Runs.{AreRuns, types_in};

    ghost Value = { List ValType };

    ghost view = { λ t. types_in 0 t.runs.items };

    ghost invariant = { λ t. AreRuns None 0 t.runs.items };
}

impl Locals {
    /// Returns an empty list of locals.
    pub fn new(alloc: Global) -> Self
        ensures { result ≡ [] }
    {
        Locals {
            runs: Vec::new(alloc),
        }
    }

    /// Removes all locals, but keeps their memory.
    pub fn clear(&mut self)
        ensures { self.new ≡ [] }
    {
        self.runs.clear();
    }

    /// Returns how many locals there are.
    pub fn len(&self) -> u32
        ensures { result ≡ length self.now }
    {
        last_end_of(&self.runs)
    }

    /// Returns how many maximal runs of one type there are.
    pub fn runs(&self) -> usize
        ensures count { result ≡ run_count self.now }
        ensures of { result ≡ length (runs_of self.now) }
    {
        self.runs.len()
    }

    /// Returns the length and the type of the maximal run with this index, or `None` if there is no such run.
    pub fn run(&self, index: usize) -> Option<(u32, ValType)>
        ensures { result ≡ slice_get (runs_of self.now) index }
    {
        match self.runs.get(index) {
            Some(run) => Some((run.end - start_of(&self.runs, index), run.ty)),
            None => None,
        }
    }

    /// Borrows the maximal runs, each with its end, for a binary search.
    pub fn as_runs(&self) -> &[Run]
        ensures types { types_in 0 result.now ≡ self.now }
        ensures runs { AreRuns None 0 result.now }
    {
        &self.runs
    }

    /// Adds `count` locals of one type. Fails with `TooManyLocals` if there would be 2^32 or more. Fails with
    /// `Memory` only if there would be one more maximal run. An error changes nothing.
    pub fn add(&mut self, count: u32, ty: ValType) -> Result<(), Why>
        ensures ok { OnOk result (self.new ≡ self.old ++ replicate count ty) }
        ensures err { OnErr result (self.new ≡ self.old) }
        ensures too_many { (result ≡ Err Why.TooManyLocals) ↔ (2 ^ 32 ≤ length self.old + count) }
        ensures refusals { IfErr result (λ why. (why ≡ Why.TooManyLocals) ⊎ (why ≡ Why.Memory)) }
        ensures new_run { result ≡ Err Why.Memory
            → run_count self.old < run_count (self.old ++ replicate count ty) }
        ensures exact { MatchResult result (λ _. add_run count ty self.old ≡ Ok self.new)
            (λ why. (why ≡ Why.Memory) ⊎ (add_run count ty self.old ≡ Err why)) }
    {
        let Some(total) = self.len().checked_add(count) else {
            return Err(Why::TooManyLocals);
        };
        if count == 0 {
            return Ok(());
        }
        self.append(total, ty)
    }

    // Adds locals of one type until there are `end`.
    fn append(&mut self, end: u32, ty: ValType) -> Result<(), Why>
        requires { length self.old < end }
        ensures ok { OnOk result (self.new ≡ self.old ++ replicate (end - length self.old) ty) }
        ensures err { IfErr result (λ why. (why ≡ Why.Memory) × (self.new ≡ self.old)) }
        ensures new_run { OnErr result
            (run_count self.old < run_count (self.old ++ replicate (end - length self.old) ty)) }
    {
        if ends_with(&self.runs, ty) {
            let last = self.runs.len() - 1;
            self.runs[last].end = end;
            return Ok(());
        }
        let Ok(()) = self.runs.push(Run { end, ty }) else {
            return Err(Why::Memory);
        };
        Ok(())
    }
}

// The number of locals before a run.
fn start_of(runs: &[Run], index: usize) -> u32
    requires { index < length runs.now }
    ensures { result ≡ start_at 0 runs.now index }
{
    if index == 0 { 0 } else { runs[index - 1].end }
}

// The end of the last run, or 0 if there is no run.
fn last_end_of(runs: &[Run]) -> u32
    ensures { result ≡ last_end 0 runs.now }
{
    match runs.last() {
        Some(run) => run.end,
        None => 0,
    }
}

// Whether the last local has this type.
fn ends_with(runs: &[Run], ty: ValType) -> bool
    ensures { IsTrue result ↔ (last_type None runs.now ≡ Some ty) }
{
    match runs.last() {
        Some(run) => run.ty == ty,
        None => false,
    }
}
