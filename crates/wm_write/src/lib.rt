//! Writes a module as its canonical binary or as text. `check` validates a module value: it encodes the value and
//! validates the bytes.
#![tactic(auto)]

mod batch;
pub mod check_module;
pub mod encode;
pub mod in_memory;
pub mod laws;
pub mod print;
mod put;
