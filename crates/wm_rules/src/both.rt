//! A sink that is made of two sinks.

ghost use Rattle.std.specs.Prelude.{◌≡◌};
ghost use Rattle.wm_machine.specs.exact.TwoSinks.{after_both, both_take_data, either_runs_out};

use wm_decode::{Item, Sink};
use wm_syntax::why::Why;

/// Two sinks that receive the same items. `first` takes each item before `second`.
#[derive(Debug, Drop)]
pub struct Both<A, B> {
    pub first: A,
    pub second: B,
}

impl<A: Sink, B: Sink> Both<A, B> {
    /// Returns a sink of the two.
    pub fn new(first: A, second: B) -> Self
        ensures first { result.first ≡ first }
        ensures second { result.second ≡ second }
    {
        Both { first, second }
    }
}

impl<A: Sink, B: Sink> Sink for Both<A, B> {
    ghost Held = { A.Held × B.Held };

    ghost held = { λ s. (A.held s.first, B.held s.second) };

    ghost after = { after_both A.after B.after };

    ghost may_run_out = { either_runs_out A.after A.may_run_out B.may_run_out };

    // Inline, so that the kind of the item is known at each call.
    #[inline(always)]
    fn take(&mut self, item: Item) -> Result<(), Why> {
        match self.first.take(item) {
            Ok(()) => self.second.take(item),
            Err(why) => Err(why),
        }
    }

    ghost takes_data = { λ h c. both_take_data A.after B.after A.takes_data B.takes_data h c };
}
