//! The names of a module's exports.

ghost use Rattle.std.specs.Prelude.{◌≡◌, [], OnErr};
ghost use Rattle.wm_machine.specs.Sinks.{Taken};
ghost use Rattle.wm_rules.specs.exact.Checking.{names_with};
ghost use Rattle.wm_rules.specs.Kept.{capped_count, name_entries};
ghost use Rattle.wm_rules.specs.exact.Names.{AreHashed, bytes_of, hash_of as hash_of_bytes};

use std::alloc::Global;
use std::collections::BTreeSet;
use std::marker::Model;
use wm_syntax::why::Why;

// A name and its hash. Names are ordered by hash first, so comparing two hashes mostly decides.
#[derive(Debug, Drop, PartialEq, Eq, PartialOrd, Ord)]
struct HashedName {
    hash: u64,
    name: Vec<u8>,
}

// The export names so far. They are in a tree and not in a hash table, since a stranger chooses the names. If
// all names have one hash, their bytes are compared, and a search still compares only as many names as the tree
// is deep.
#[derive(Debug, Drop)]
pub(crate) struct ExportNames {
    alloc: Global,
    names: BTreeSet<HashedName>,
    kept: u64,
}

impl Model for ExportNames {
    ghost use Rattle.std.specs.Prelude.{◌≡◌, ℕ, List};
    ghost use Rattle.wm_rules.specs.Kept.{capped_count, name_entries};
    ghost use Rattle.wm_rules.specs.exact.Names.{AreHashed, bytes_of};

    ghost Value = { List (List ℕ) };

    ghost view = { λ n. bytes_of n.names };

    ghost invariant = { λ n. (n.kept ≡ capped_count (name_entries (bytes_of n.names)))
        × AreHashed n.names.keys };
}

impl ExportNames {
    pub(crate) fn new(alloc: Global) -> Self
        ensures { result ≡ [] }
    {
        ExportNames {
            alloc,
            names: BTreeSet::new(alloc),
            kept: 0,
        }
    }

    // The number of names and their bytes, or 2^64 - 1 if there are more.
    pub(crate) fn kept(&self) -> u64
        ensures { result ≡ capped_count (name_entries self.now) }
    {
        self.kept
    }

    // Adds a name. Fails with `DuplicateExport` if it was added before, and with `Memory` if memory runs out.
    pub(crate) fn add(&mut self, name: &[u8]) -> Result<(), Why>
        ensures { Taken (names_with name.now self.old) result self.new }
    {
        put(self.alloc, &mut self.names, name)?;
        self.kept = self
            .kept
            .saturating_add(1)
            .saturating_add(name.len() as u64);
        Ok(())
    }
}

fn put(alloc: Global, names: &mut BTreeSet<HashedName>, name: &[u8]) -> Result<(), Why>
    requires { AreHashed names.old.keys }
    ensures taken { Taken (names_with name.now (bytes_of names.old)) result (bytes_of names.new) }
    ensures err { OnErr result (bytes_of names.new ≡ bytes_of names.old) }
    ensures hashed { AreHashed names.new.keys }
{
    let Ok(owned) = Vec::from_slice(alloc, name) else {
        return Err(Why::Memory);
    };
    let hashed = HashedName {
        hash: hash_of(name),
        name: owned,
    };
    match names.insert(hashed) {
        Ok(true) => Ok(()),
        Ok(false) => Err(Why::DuplicateExport),
        Err(_) => Err(Why::Memory),
    }
}

// The 64-bit FNV-1a hash. Any function of the bytes would do.
fn hash_of(name: &[u8]) -> u64
    ensures { result ≡ hash_of_bytes name.now }
{
    let mut hash: u64 = 0xCBF2_9CE4_8422_2325;
    for byte in name {
        hash = (hash ^ u64::from(*byte)).wrapping_mul(0x100_0000_01B3);
    }
    hash
}
