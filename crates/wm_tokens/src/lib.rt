//! The lexer of the text format. It skips white space and comments, and finds parentheses, strings and atoms.
//! It also has the reasons and the offsets of refusals of a text. Core spec 6.2 and 6.3.
#![tactic(auto)]

pub mod faults;
pub mod laws;
pub mod lexeme;
pub mod plain_spans;
pub mod scan;
