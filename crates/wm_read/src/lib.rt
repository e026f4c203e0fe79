//! Reads a module in the text format (Core spec chapter 6) in two passes: the heads of all fields, then all fields.
//! `text::read_text` reads a whole text.
#![tactic(auto)]

pub mod faults;
mod fields;
mod heads;
pub mod laws;
mod renewed;
pub mod spellings;
pub mod text;
