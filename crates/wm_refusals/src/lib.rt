//! The meaning of each NAME of a refusal, and what a refused byte begins in later versions of the standard, for the
//! command and for the calls for C.
#![tactic(auto)]

pub mod hints;
pub mod rows;
pub mod tables;
