//! The declared locals of a function, and the search for one.

ghost use Rattle.std.specs.Prelude.{◌≡◌, ◌+◌, ◌^◌, ◌<◌, ◌≤◌, ◌⊎◌, [], ◌++◌, Ok, Err, OnErr, OnOk};
ghost use Rattle.std.specs.Prelude.{MatchResult, length, replicate, slice_get};
ghost use Rattle.wm_stacks.specs.Probes.{probes_for};
ghost use Rattle.wm_syntax.specs.Runs.{run_count};
ghost use Rattle.wm_syntax.specs.exact.Runs.{add_run};
ghost use Rattle.wm_typing.specs.inner.DeclaredLocals.{with_probes};

use crate::known_locals::KnownLocals;
use std::alloc::Global;
use std::marker::Model;
use wm_stacks::run_table::RunTable;
use wm_syntax::types::ValType;
use wm_syntax::why::Why;

/// The declared locals, the types that searches found, and the greatest number of runs that one search read.
///
/// Among the first 64 of them, a local of a whole number that a search found is not searched again. The search
/// would read the same runs.
#[derive(Debug, Drop)]
pub(crate) struct DeclaredLocals {
    table: RunTable,
    known: KnownLocals,
    probes: u64,
}

impl Model for DeclaredLocals {
    ghost use Rattle.std.specs.Prelude.{◌≡◌, ◌≤◌, ℕ, Some, slice_get};
    ghost use Rattle.wm_stacks.specs.Probes.{probes_for};
    ghost use Rattle.wm_syntax.specs.declared.types.ValType.{ValType as AType};
    ghost use Rattle.wm_typing.specs.inner.DeclaredLocals.{Declared, Knows};

    ghost Value = { Declared };

    ghost view = { λ d. record { types = d.table; probes = d.probes } };

    ghost invariant = { λ d. (i : ℕ) (t : AType) → Knows d.known i t
        → (slice_get d.table i ≡ Some t) × (probes_for d.table i ≤ d.probes) };
}

impl DeclaredLocals {
    // Returns no locals, before any search.
    pub(crate) fn new(alloc: Global) -> Self
        ensures { result ≡ record { types = []; probes = 0 } }
    {
        DeclaredLocals {
            table: RunTable::new(alloc),
            known: KnownLocals::none(),
            probes: 0,
        }
    }

    // Forgets the locals and the searches. It frees no memory.
    pub(crate) fn restart(&mut self)
        ensures { self.new ≡ record { types = []; probes = 0 } }
    {
        self.clear();
        self.probes = 0;
    }

    // Forgets the locals; `probes` stays.
    pub(crate) fn clear(&mut self)
        ensures { self.new ≡ record { types = []; probes = self.old.probes } }
    {
        self.table.clear();
        self.known = KnownLocals::none();
    }

    // The number of maximal runs of one type.
    pub(crate) fn runs(&self) -> usize
        ensures { result ≡ run_count self.now.types }
    {
        self.table.runs()
    }

    // The greatest number of runs that one search read.
    pub(crate) fn probes(&self) -> u64
        ensures { result ≡ self.now.probes }
    {
        self.probes
    }

    // Adds `count` locals of one type. Fails with `TooManyLocals` if there would be 2^32 or more, or with
    // `Memory`. A failure changes nothing.
    pub(crate) fn add(&mut self, count: u32, ty: ValType) -> Result<(), Why>
        ensures ok { OnOk result (self.new ≡ record {
          types = self.old.types ++ replicate count ty;
          probes = self.old.probes;
        }) }
        ensures err { OnErr result (self.new ≡ self.old) }
        ensures too_many { MatchResult result (λ _. length self.old.types + count < 2 ^ 32)
            (λ why. (why ≡ Why.Memory) ⊎ (2 ^ 32 ≤ length self.old.types + count)) }
        ensures exact { MatchResult result (λ _. add_run count ty self.old.types ≡ Ok self.new.types)
            (λ why. (why ≡ Why.Memory) ⊎ (add_run count ty self.old.types ≡ Err why)) }
    {
        // more runs may make a search read more
        self.known = KnownLocals::none();
        self.table.add(count, ty)
    }

    // The type of the declared local with this index; `None` if there is none.
    #[inline(always)]
    pub(crate) fn find(&mut self, index: u32) -> Option<ValType>
        ensures ty { result ≡ slice_get self.old.types index }
        ensures searched { self.new ≡ with_probes (probes_for self.old.types index) self.old }
    {
        match self.known.find(index) {
            Some(ty) => Some(ty),
            None => self.search(index),
        }
    }

    #[inline(always)]
    fn search(&mut self, index: u32) -> Option<ValType>
        ensures ty { result ≡ slice_get self.old.types index }
        ensures searched { self.new ≡ with_probes (probes_for self.old.types index) self.old }
    {
        let found = self.table.find(index);
        self.probes = self.probes.max(u64::from(found.probes));
        if let Some(ty) = found.ty {
            self.known.note(index, ty);
        }
        found.ty
    }
}
