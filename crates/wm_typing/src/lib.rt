//! Types function bodies in one pass. Core spec, chapter 3.
#![tactic(auto)]

mod blocks;
pub mod bodies;
pub mod body_checker;
pub mod context;
mod declared_locals;
pub mod func_types;
mod instructions;
mod known_locals;
pub mod labels;
pub mod laws;
mod ops;
mod stack_effects;
pub mod stats;
