//! Tests of `wm_decode`, `wm_rules` and `wm_write`, through their public items. They are in a crate of their own
//! because a crate with tests is proved twice, with the tests and without. `wm_base_tests` has the tests of
//! `wm_syntax`, `wm_floats`, `wm_stacks` and `wm_typing`.
#![tactic(auto)]

#[cfg(test)]
mod decode;
#[cfg(test)]
mod rules;
#[cfg(test)]
mod script_words;
#[cfg(test)]
mod uses;
#[cfg(test)]
mod write;
