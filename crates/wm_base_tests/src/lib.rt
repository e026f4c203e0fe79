//! Tests of the public items of `wm_syntax`, `wm_floats`, `wm_stacks` and `wm_typing`. A crate with tests is proved
//! twice, with and without them. To save that, the tests are in a crate of their own. They are apart from `wm_tests`,
//! which can start only after `wm_write` is proved.
#![tactic(auto)]

#[cfg(test)]
mod floats;
#[cfg(test)]
mod scripts;
#[cfg(test)]
mod stacks;
#[cfg(test)]
mod syntax;
#[cfg(test)]
mod typing;
