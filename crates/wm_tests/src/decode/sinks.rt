//! Sinks for the tests of the decoder, which record, count or refuse items.

ghost use Rattle.std.specs.Prelude.{◌≡◌, Err, IfErr, Ok, refl};
ghost use Rattle.wm_machine.specs.Items.{data_byte};
ghost use Rattle.wm_syntax.specs.declared.why.Why.TheVariants.{Arity, Memory};

use std::alloc::{AllocError, Global};
use wm_decode::{Item, Sink};
use wm_syntax::why::Why;

/// Records each item as `Debug` writes it, and each byte of data as an item of its own.
#[derive(Drop)]
pub struct Recorder {
    alloc: Global,
    pub seen: Vec<String>,
}

pub fn nothing_seen(alloc: Global) -> Recorder {
    Recorder {
        alloc,
        seen: Vec::new(alloc),
    }
}

fn text_of(alloc: Global, item: &Item) -> Result<String, AllocError> {
    let mut text = String::new(alloc);
    write!(text, "{item:?}")?;
    Ok(text)
}

impl Recorder {
    fn write(&mut self, item: Item) -> Result<(), Why>
        ensures { IfErr result (λ w. w ≡ Memory) }
    {
        let Ok(text) = text_of(self.alloc, &item) else {
            return Err(Why::Memory);
        };
        if self.seen.push(text).is_err() {
            return Err(Why::Memory);
        }
        Ok(())
    }

    fn write_data(&mut self, bytes: &[u8]) -> Result<(), Why>
        ensures { IfErr result (λ w. w ≡ Memory) }
    {
        for byte in bytes.chunks(1) {
            match self.write(Item::DataBytes(byte)) {
                Ok(()) => {}
                Err(why) => return Err(why),
            }
        }
        Ok(())
    }

    fn write_item(&mut self, item: Item) -> Result<(), Why>
        ensures { IfErr result (λ w. w ≡ Memory) }
    {
        match item {
            Item::DataBytes(bytes) => self.write_data(bytes),
            _ => self.write(item),
        }
    }
}

impl Sink for Recorder {
    ghost Held = { Unit {0} };

    ghost held = { λ s. tt };

    ghost after = { λ h x. Ok h };

    ghost may_run_out = { λ h x. Unit {0} };

    fn take(&mut self, item: Item) -> Result<(), Why> {
        self.write_item(item)
    }

    ghost takes_data = { λ h c. refl };
}

/// Counts the items other than data, the bytes of data, and the slices of data.
#[derive(Drop)]
pub struct Counter {
    pub items: u64,
    pub data: u64,
    pub slices: u64,
}

pub const NONE: Counter = Counter {
    items: 0,
    data: 0,
    slices: 0,
};

impl Sink for Counter {
    ghost Held = { Unit {0} };

    ghost held = { λ s. tt };

    ghost after = { λ h x. Ok h };

    ghost may_run_out = { λ h x. ⊥ };

    fn take(&mut self, item: Item) -> Result<(), Why> {
        if let Item::DataBytes(bytes) = item {
            self.data = self.data.saturating_add(bytes.len() as u64);
            self.slices = self.slices.saturating_add(1);
        } else {
            self.items = self.items.saturating_add(1);
        }
        Ok(())
    }

    ghost takes_data = { λ h c. refl };
}

/// Refuses data as `Memory`, and every other item as `Arity`.
#[derive(Drop)]
pub struct Full {}

impl Sink for Full {
    ghost Held = { Unit {0} };

    ghost held = { λ s. tt };

    ghost after = { λ h. elim [ data_byte c ↦ Ok h | x ↦ Err Arity ] };

    ghost may_run_out = { λ h x. Unit {0} };

    fn take(&mut self, item: Item) -> Result<(), Why> {
        match item {
            Item::DataBytes(_) => Err(Why::Memory),
            _ => Err(Why::Arity),
        }
    }

    ghost takes_data = { λ h c. refl };
}
