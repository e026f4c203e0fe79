//! Reads the text of functions (Core spec chapter 6): type uses, parameters, locals and instructions. It also
//! resolves their identifiers.
//!
//! Contracts say which tokens a reader accepts, and with which value. The name of a refusal is mostly tested, not
//! proved.
#![tactic(auto)]

pub mod blocks;
pub mod bodies;
pub mod identifiers;
pub mod laws;
pub mod literals;
pub mod named;
pub mod named_uses;
pub mod op_immediates;
pub mod op_keywords;
pub mod pieces;
pub mod type_uses;
