//! The decoder state machine: it takes a module one byte at a time, and returns what the byte completes or why it is
//! refused. The grammar of modules that the machine is proved to meet is in `specs/`. Core spec, chapter 5.
#![tactic(auto)]

pub mod item;
pub mod laws;
pub mod machine;
pub mod refusal;
pub mod sink;
pub mod step;
