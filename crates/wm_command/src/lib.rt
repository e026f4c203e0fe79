//! The command `wmod`: its arguments, and what each action does. The program and the tests are in `wm_cli`.
//! `run`, `detail`, `expected` and `witness` are public for the tests only.
#![tactic(auto)]

mod answer;
pub mod arguments;
mod build;
pub mod complaint;
pub mod detail;
pub mod execute;
pub mod expected;
pub mod explain;
mod features;
pub mod laws;
pub mod line;
mod list;
pub mod path;
mod position;
pub mod run;
mod several;
pub mod status;
mod target;
pub mod witness;
