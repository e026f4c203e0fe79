//! The C interface. `include/wmod.h` documents each call.
#![tactic(auto)]

pub mod answer;
mod codes;
pub mod convert;
pub mod handle;
mod loose;
pub mod names;
pub mod options;
pub mod output;
pub mod pieces;
pub mod place;
pub mod session;
pub mod whole;
