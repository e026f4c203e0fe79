//! Index spaces with the identifiers of their items (Core spec 6.6): those of a module, and the locals of a function.

ghost use Rattle.std.specs.Prelude.{◌≡◌, ◌++◌, ◌∷◌, [], ℕ, List, None, OnErr, OnOk, length, replicate};
ghost use Rattle.wm_bodies.specs.exact.Reading.{is_new as new, is_same_id as same_id, place_of};
ghost use Rattle.wm_bodies.specs.inner.Ids.{defined, id_of, place_in};

use crate::literals::is;
use std::alloc::{AllocError, Global};
use std::collections::BTreeMap;
use std::marker::Model;
use wm_syntax::types::{FuncType, ValType};

/// An item with an identifier, after `before` items without one.
#[derive(Clone, Copy)]
pub struct Identified<'a> {
    before: usize,
    id: &'a [u8],
}

/// The identifiers of an index space, in the order of its items. Items without one take no memory.
#[derive(Drop)]
pub struct Space<'a> {
    /// The number of items.
    count: usize,
    /// The items with an identifier.
    identified: Vec<Identified<'a>>,
    /// The number of items without an identifier after the last one with an identifier.
    unnamed: usize,
    /// The index of the first item with each identifier.
    places: BTreeMap<&'a [u8], usize>,
}

impl<'a> Model for Space<'a> {
    ghost use Rattle.wm_tokens.specs.Identifiers.{Ids};
    ghost use Rattle.std.specs.Prelude.{◌≡◌, length};
    ghost use Rattle.wm_bodies.specs.inner.Ids.{HasPlaces, spaced};

    ghost Value = { Ids };

    ghost view = { λ s. spaced s.identified.items s.unnamed };

    ghost invariant = { λ s. HasPlaces s.places (spaced s.identified.items s.unnamed)
        × (s.count ≡ length (spaced s.identified.items s.unnamed)) };
}

impl<'a> Space<'a> {
    /// Returns a space without items.
    pub fn new(alloc: Global) -> Self
        ensures { result ≡ [] }
    {
        Space {
            count: 0,
            identified: Vec::new(alloc),
            unnamed: 0,
            places: BTreeMap::new(alloc),
        }
    }

    /// Returns a space with one item for each of these types, without identifiers, in constant time.
    #[tactic(auto, using(crate::proofs::Spaces::of_laws))]
    pub fn of_unnamed(alloc: Global, types: &[ValType]) -> Self
        ensures { result ≡ replicate (length types.now) None }
    {
        Space {
            count: types.len(),
            identified: Vec::new(alloc),
            unnamed: types.len(),
            places: BTreeMap::new(alloc),
        }
    }

    /// Appends `count` items without identifiers, in constant time. An error adds nothing.
    #[tactic(auto, using(crate::proofs::Spaces::unnamed_laws))]
    pub fn push_unnamed(&mut self, count: u32) -> Result<(), AllocError>
        ensures added { OnOk result (self.new ≡ self.old ++ replicate count None) }
        ensures unchanged { OnErr result (self.new ≡ self.old) }
    {
        let more = count as usize;
        let Some(total) = self.count.checked_add(more) else {
            return Err(AllocError);
        };
        self.count = total;
        self.unnamed += more;
        Ok(())
    }

    /// Appends an item with this identifier. An error adds nothing.
    #[tactic(auto, using(crate::proofs::Spaces::identified_laws))]
    fn push_id(&mut self, id: &'a [u8]) -> Result<(), AllocError>
        ensures added { OnOk result (self.new ≡ self.old ++ Some id.now ∷ []) }
        ensures unchanged { OnErr result (self.new ≡ self.old) }
    {
        let at = self.count;
        let before = self.unnamed;
        let Some(total) = at.checked_add(1) else {
            return Err(AllocError);
        };
        self.identified.push(Identified { before, id })?;
        match define(&mut self.places, id, at) {
            Ok(()) => {
                self.unnamed = 0;
                self.count = total;
                Ok(())
            }
            Err(fault) => {
                let _taken = self.identified.pop();
                Err(fault)
            }
        }
    }

    /// Appends an item with or without an identifier. An error adds nothing.
    pub fn push(&mut self, id: Option<&'a [u8]>) -> Result<(), AllocError>
        ensures added { OnOk result (self.new ≡ self.old ++ id_of id.entry ∷ []) }
        ensures unchanged { OnErr result (self.new ≡ self.old) }
    {
        match id {
            Some(id) => self.push_id(id),
            None => self.push_unnamed(1),
        }
    }

    /// The index of the first item with this identifier, in time logarithmic in the number of identifiers.
    pub fn place(&self, name: &[u8]) -> Option<usize>
        ensures { result ≡ place_of self.now name.now }
    {
        self.places.get(name).copied()
    }
}

/// Maps an identifier to its index, unless it has one already. An error changes nothing.
fn define<'a>(
    places: &mut BTreeMap<&'a [u8], usize>,
    id: &'a [u8],
    at: usize,
) -> Result<(), AllocError>
    ensures noted { OnOk result ((name : List ℕ)
        → place_in places.new name ≡ defined (place_in places.old name) (Some id.now) at name) }
    ensures unchanged { OnErr result ((name : List ℕ) → place_in places.new name ≡ place_in places.old name) }
{
    if places.get(id).is_none() {
        places.insert(id, at)?;
    }
    Ok(())
}

/// The types of a module and the identifiers of its index spaces, which fields may refer to.
#[derive(Drop)]
pub struct Names<'a> {
    pub signatures: Vec<FuncType>,
    pub types: Space<'a>,
    pub functions: Space<'a>,
    pub tables: Space<'a>,
    pub memories: Space<'a>,
    pub globals: Space<'a>,
}

/// The names that a function's body may refer to, except its labels.
#[derive(Drop)]
pub struct Scope<'n, 'a> {
    pub names: &'n Names<'a>,
    pub locals: Space<'a>,
}

/// Whether an optional identifier is this one.
pub(crate) fn is_same_id(id: Option<&[u8]>, name: &[u8]) -> bool
    ensures { result ≡ same_id (id_of id.entry) name.now }
{
    match id {
        Some(id) => is(name, id),
        None => false,
    }
}

/// Whether no item of the space has this identifier. `true` for `None`.
pub fn is_new(space: &Space, id: Option<&[u8]>) -> bool
    ensures { result ≡ new space.now (id_of id.entry) }
{
    match id {
        Some(name) => space.place(name).is_none(),
        None => true,
    }
}
