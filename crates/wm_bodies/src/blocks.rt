//! The open blocks of a body.

ghost use Rattle.std.specs.Prelude.{◌≡◌, ◌∷◌, [], ℕ, IfNone, IfSome, List, MatchOption, OnErr, OnOk, drop};
ghost use Rattle.wm_bodies.specs.exact.Reading.{place_of};
ghost use Rattle.wm_bodies.specs.inner.Blocks.{IsMissing, changed, open_of, opened};
ghost use Rattle.wm_bodies.specs.inner.Ids.{id_of, place_in};
ghost use Rattle.wm_bodies.specs.inner.Pieces.{labels};

use std::alloc::{AllocError, Global};
use std::collections::BTreeMap;
use std::marker::Model;

/// An open block: its identifier, and whether an `else` may still follow.
#[derive(Clone, Copy)]
pub struct Block<'a> {
    pub id: Option<&'a [u8]>,
    pub may_else: bool,
    /// The position of the nearest enclosing block with its identifier; the outermost block has position 0.
    outer: Option<usize>,
}

/// The open blocks of a body, the innermost last.
#[derive(Drop)]
pub struct OpenBlocks<'a> {
    blocks: Vec<Block<'a>>,
    /// The position of the innermost block with each identifier.
    places: BTreeMap<&'a [u8], usize>,
}

impl<'a> Model for OpenBlocks<'a> {
    ghost use Rattle.std.specs.Prelude.{reverse};
    ghost use Rattle.wm_bodies.specs.inner.Blocks.{HasInnermost, HasOuter, blocks_of};
    ghost use Rattle.wm_bodies.specs.inner.Pieces.{Opened};

    ghost Value = { Opened };

    ghost view = { λ o. blocks_of o.blocks.items };

    ghost invariant = { λ o. HasInnermost o.places (reverse o.blocks.items)
        × HasOuter (reverse o.blocks.items) };
}

impl<'a> OpenBlocks<'a> {
    /// Returns an empty list.
    pub fn new(alloc: Global) -> Self
        ensures { result ≡ [] }
    {
        OpenBlocks {
            blocks: Vec::new(alloc),
            places: BTreeMap::new(alloc),
        }
    }

    /// The depth of the nearest block with this identifier, in time logarithmic in the number of identifiers. The
    /// innermost block has depth 0.
    pub fn depth(&self, name: &[u8]) -> Option<usize>
        ensures { result ≡ place_of (labels self.now) name.now }
    {
        match self.places.get(name).copied() {
            Some(place) => {
                let depth = self.blocks.len() - 1 - place;
                Some(depth)
            }
            None => None,
        }
    }

    /// Returns the innermost open block, if any.
    #[tactic(auto, using(crate::proofs::OpenBlocks::last_laws))]
    pub fn innermost(&self) -> Option<Block<'a>>
        ensures { MatchOption result (self.now ≡ []) (λ b. self.now ≡ open_of b ∷ drop 1 self.now) }
    {
        if self.blocks.is_empty() {
            None
        } else {
            Some(self.blocks[self.blocks.len() - 1])
        }
    }

    /// Opens a block. An error opens none.
    #[tactic(auto, using(crate::proofs::OpenBlocks::blocks_push))]
    pub fn open(&mut self, id: Option<&'a [u8]>, may_else: bool) -> Result<(), AllocError>
        ensures opened { OnOk result (self.new ≡ opened (id_of id.entry) may_else ∷ self.old) }
        ensures unchanged { OnErr result (self.new ≡ self.old) }
    {
        let place = self.blocks.len();
        let outer = match id {
            Some(name) => self.places.get(name).copied(),
            None => None,
        };
        self.blocks.push(Block {
            id,
            may_else,
            outer,
        })?;
        match put(&mut self.places, id, Some(place)) {
            Ok(()) => Ok(()),
            Err(fault) => {
                let _taken = self.blocks.pop();
                Err(fault)
            }
        }
    }

    /// Closes the innermost block and returns it. `None` if no block is open.
    #[tactic(auto, using(crate::proofs::OpenBlocks::pop_laws))]
    pub fn close(&mut self) -> Option<Block<'a>>
        ensures none { IfNone result ((self.old ≡ []) × (self.new ≡ [])) }
        ensures some { IfSome result (λ b. self.old ≡ open_of b ∷ self.new) }
    {
        match self.blocks.pop() {
            Some(block) => match put(&mut self.places, block.id, block.outer) {
                Ok(()) => Some(block),
                Err(_) => unreachable!(),
            },
            None => None,
        }
    }
}

/// Sets or removes the position of an identifier. Fails only if the identifier has no position yet. An error changes
/// nothing.
fn put<'a>(
    places: &mut BTreeMap<&'a [u8], usize>,
    id: Option<&'a [u8]>,
    place: Option<usize>,
) -> Result<(), AllocError>
    ensures put { OnOk result ((name : List ℕ)
        → place_in places.new name ≡ changed (id_of id.entry) place (place_in places.old) name) }
    ensures missing { OnErr result (IsMissing (place_in places.old) (id_of id.entry)) }
    ensures unchanged { OnErr result ((name : List ℕ) → place_in places.new name ≡ place_in places.old name) }
{
    if let Some(name) = id {
        match place {
            Some(place) => {
                places.insert(name, place)?;
            }
            None => {
                let _removed = places.remove(name);
            }
        }
    }
    Ok(())
}
