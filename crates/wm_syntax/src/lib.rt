//! The types that every other crate of wmod shares: numbers, names, types, instructions and modules of
//! WebAssembly 1.0. It also has the readers and writers of bytes.
#![tactic(auto)]

pub mod chunk;
pub mod instructions;
pub mod io;
pub mod laws;
pub mod modules;
pub mod names;
pub mod numbers;
pub mod profile;
pub mod types;
pub mod why;
