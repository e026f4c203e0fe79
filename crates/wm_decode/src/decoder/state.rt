//! The fields of a decoder.

ghost use Rattle.std.specs.Prelude.{◌≤◌, ◌^◌};

use std::fmt;
use wm_machine::machine::Machine;
use wm_syntax::profile::Profile;

/// A decoder: takes a module in pieces (input chunks), and passes its items (decoder events) to a sink.
#[derive(Drop)]
pub struct Decoder<S> {
    pub(crate) sink: S,
    pub(crate) machine: Machine,
    pub(crate) name: Vec<u8>,
    pub(crate) at: u64,
    pub(crate) max_bytes: u64,
    pub(crate) profile: Profile,
    ghost in_range: { max_bytes ≤ 2 ^ 62 },
}

// Leaves out the machine and the unfinished name, which are internal
impl<S: fmt::Debug> fmt::Debug for Decoder<S> {
    fn fmt<F: fmt::Write>(&self, f: &mut fmt::Formatter<F>) -> fmt::Result {
        f.debug_struct("Decoder")
            .field("sink", &self.sink)
            .field("at", &self.at)
            .field("max_bytes", &self.max_bytes)
            .field("profile", &self.profile)
            .finish_non_exhaustive()
    }
}
