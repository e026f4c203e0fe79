//! wmod for a Rust host: the validator, the loader, the writers and the text reader under one name.
//!
//! Everything here is defined and documented in the crate that it comes from. A host depends on `wmod` alone,
//! and its paths stay as they are when a crate behind it is split. `docs/LIBRARY.md` has a sample of each call.
#![tactic(auto)]

// judging a module
pub use wm_decode::{Awaits, Place, Refusal, Snapshot};
pub use wm_rules::{
    Found, FromFault, Imported, Policy, Summary, Validator, validate, validate_from,
};
pub use wm_syntax::profile::{Feature, Profile};
pub use wm_syntax::why::Why;

// a module as a value
pub use wm_rules::{Checked, Loader, load_from};
pub use wm_syntax::{instructions, modules, types};
pub use wm_write::check_module::{CheckFault, check, checked_bytes};

// writing it, as bytes and as text
pub use wm_write::encode::{WriteFault, encode};
pub use wm_write::in_memory::{MakeFault, encoded, printed};
pub use wm_write::print::{PrintFault, print};

// reading a text
pub use wm_read::spellings::Spellings;
pub use wm_read::text::read_text;
pub use wm_tokens::faults::{TextRefusal, TextWhy};

// readers and writers
pub use wm_syntax::io::input::Input;
pub use wm_syntax::io::output::Output;
pub use wm_syntax::io::{Dest, Source};
