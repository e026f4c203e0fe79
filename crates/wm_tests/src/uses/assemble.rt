use std::alloc::Global;
use wmod::{Checked, Policy, Profile, Spellings, check, read_text};

/// Returns the valid module that a text writes: `None` if it writes none, if the module is not valid, or if
/// memory ran out.
pub fn assemble(alloc: Global, text: &[u8]) -> Option<Checked> {
    let Ok(module) = read_text(alloc, Profile::ONE, Spellings::Standard, text) else {
        return None;
    };
    check(alloc, Profile::ONE, Policy::no_limits(), &module).ok()
}
