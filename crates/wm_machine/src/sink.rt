//! The receiver of the items (decoder events) of a module.

ghost use Rattle.std.specs.Prelude.{IsOk, Result, ℕ};
ghost use Rattle.wm_syntax.specs.declared.why.Why.{Why};
ghost use Rattle.wm_machine.specs.Items.{Item as AnItem, data_byte};
ghost use Rattle.wm_machine.specs.Sinks.{RunsOut, Took, items_for};

use crate::item::Item;
use wm_syntax::why::Why;

/// A receiver of the items (decoder events) of a module, in the order of their bytes.
pub trait Sink: Drop {
    // the state of a sink, as contracts see it
    ghost Held: { Type 0 };

    ghost held: { Self → Held };

    // the state after one more item, or why the sink refuses the item
    ghost after: { Held → AnItem → Result Held Why };

    // whether memory may run out at this item: only then may the sink refuse it as `Memory`
    ghost may_run_out: { Held → AnItem → Type 0 };

    /// Takes one item, or returns why the sink refuses it. A slice of data bytes counts as its bytes one at a time.
    fn take(&mut self, item: Item) -> Result<(), Why>
        ensures took { Took after (held self.old) (items_for item.entry) result (held self.new) }
        ensures room { RunsOut may_run_out (held self.old) (items_for item.entry) result };

    // No sink refuses data bytes, unless memory runs out. This excludes any other refusal inside a slice of data bytes.
    ghost takes_data: { (h : Held) (c : ℕ) → IsOk (after h (data_byte c)) };
}
