//! Computes the sizes of sections (Core spec 5.5.2).

ghost use Rattle.std.specs.Prelude.{◌<◌, ◌^◌, ◌↔◌, IfSome, IsSome, IsTrue};
ghost use Rattle.wm_syntax.specs.Values.{value_of};
ghost use Rattle.wm_write.specs.Canon.{FitsWith};

use crate::encode::code::codes_len;
use crate::encode::parts::{
    ExportEntry, FunctionEntry, GlobalEntry, ImportEntry, MemoryEntry, TableEntry, TypeEntry,
    elements_len, segments_len,
};
use crate::put::list_len;
use wm_syntax::modules::Module;

/// The length of each section's contents, in bytes.
#[derive(Drop)]
pub(crate) struct Sizes {
    pub(crate) types: u64,
    pub(crate) imports: u64,
    pub(crate) functions: u64,
    pub(crate) tables: u64,
    pub(crate) memories: u64,
    pub(crate) globals: u64,
    pub(crate) exports: u64,
    pub(crate) elements: u64,
    pub(crate) codes: u64,
    pub(crate) segments: u64,
}

impl Sizes {
    ghost use Rattle.wm_write.specs.exact.Measures.{Measures};

    /// Returns the sizes of a module's sections. `None` if and only if one is 2^32 or more.
    pub(crate) fn of(flagged: bool, m: &Module) -> Option<Self>
        ensures fits { IsSome result ↔ FitsWith flagged (value_of m.now) }
        ensures measured { IfSome result (λ s. Measures flagged s (value_of m.now)) }
    {
        let sizes = Sizes {
            types: list_len::<TypeEntry>(&m.types),
            imports: list_len::<ImportEntry>(&m.imports),
            functions: list_len::<FunctionEntry>(&m.functions),
            tables: list_len::<TableEntry>(&m.tables),
            memories: list_len::<MemoryEntry>(&m.memories),
            globals: list_len::<GlobalEntry>(&m.globals),
            exports: list_len::<ExportEntry>(&m.exports),
            elements: elements_len(flagged, &m.elements),
            codes: codes_len(&m.functions),
            segments: segments_len(flagged, &m.segments),
        };
        if sizes.fit() { Some(sizes) } else { None }
    }

    // Whether each size is below 2^32.
    fn fit(&self) -> bool
        ensures { IsTrue result ↔ ((self.now.types < 2 ^ 32) × (self.now.imports < 2 ^ 32)
            × (self.now.functions < 2 ^ 32)
            × (self.now.tables < 2 ^ 32) × (self.now.memories < 2 ^ 32) × (self.now.globals < 2 ^ 32)
            × (self.now.exports < 2 ^ 32) × (self.now.elements < 2 ^ 32) × (self.now.codes < 2 ^ 32)
            × (self.now.segments < 2 ^ 32)) }
    {
        fits(self.types)
            && fits(self.imports)
            && fits(self.functions)
            && fits(self.tables)
            && fits(self.memories)
            && fits(self.globals)
            && fits(self.exports)
            && fits(self.elements)
            && fits(self.codes)
            && fits(self.segments)
    }
}

// Whether a size is below 2^32, since it is written as a `u32`. Core spec 5.5.2.
fn fits(size: u64) -> bool
    ensures { IsTrue result ↔ (size < 2 ^ 32) }
{
    size <= u64::from(u32::MAX)
}
