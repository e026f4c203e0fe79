//! Every value in a module is in the range of its type: 32-bit numbers, constants, bytes and names
//! (Core spec 2.2, 2.5). The Rust types ensure it, and reading each value once proves it for the whole
//! module.

ghost use Rattle.std.specs.List.{AllByRecursion};
ghost use Rattle.std.specs.Prelude.{IsUtf8};
ghost use Rattle.wm_syntax.specs.Modules.{AreLimits, IsConst, IsDesc, IsMode, IsModule};
ghost use Rattle.wm_syntax.specs.inner.Ranges.{IsInRange};
ghost use Rattle.wm_syntax.specs.Spelling.{AreBytes};
ghost use Rattle.wm_syntax.specs.Values.{value_of};

use crate::instructions::Op;
use crate::modules::body::Body;
use crate::modules::{
    Element, Export, Function, GlobalDef, Import, ImportDesc, Module, Segment, SegmentMode,
};
use crate::types::{Const, Limits};

// A value whose type restricts its range.
trait Ranged {
    ghost holds: { Self → Type 0 };

    // Reads the value, which proves that it is in the range of its type.
    fn read(&self)
        ensures { holds self.now };
}

fn read_all<T: Ranged>(values: &[T])
    ensures { AllByRecursion T.holds values.now }
{
    let mut rest = values;
    while let Some((value, more)) = rest.split_first() {
        value.read();
        rest = more;
    }
}

fn bytes(values: &[u8])
    ensures { AreBytes values.now }
{
    read_all(values);
}

fn limits(value: Limits)
    ensures { AreLimits value }
{}

fn constant(value: Const)
    ensures { IsConst value }
{}

fn description(value: ImportDesc)
    ensures { IsDesc value }
{}

fn mode(value: SegmentMode)
    ensures { IsMode value }
{
    if let SegmentMode::Active { index, offset } = value {
        index.read();
        constant(offset);
    }
}

fn instruction(value: Op)
    ensures { IsInRange value }
{}

fn name(value: &str)
    ensures { IsUtf8 value.now }
{}

impl Ranged for u8 {
    ghost use Rattle.std.specs.Prelude.{◌<◌};

    ghost holds = { λ b. b < 256 };

    fn read(&self) {
        let _value = *self;
    }
}

impl Ranged for u32 {
    ghost use Rattle.wm_syntax.specs.Modules.{IsU32};

    ghost holds = { IsU32 };

    fn read(&self) {
        let _value = *self;
    }
}

impl Ranged for Limits {
    ghost use Rattle.wm_syntax.specs.Modules.{AreLimits};

    ghost holds = { AreLimits };

    fn read(&self) {
        limits(*self);
    }
}

impl Ranged for Export {
    ghost use Rattle.std.specs.Prelude.{IsUtf8};
    ghost use Rattle.wm_syntax.specs.Modules.{IsU32};

    ghost holds = { λ e. IsUtf8 e.name × IsU32 e.index };

    fn read(&self) {
        name(&self.name);
        self.index.read();
    }
}

impl Ranged for Import {
    ghost use Rattle.std.specs.Prelude.{IsUtf8};
    ghost use Rattle.wm_syntax.specs.Modules.{IsDesc};

    ghost holds = { λ i. IsUtf8 i.module_name × IsUtf8 i.item_name × IsDesc i.desc };

    fn read(&self) {
        name(&self.module_name);
        name(&self.item_name);
        description(self.desc);
    }
}

impl Ranged for GlobalDef {
    ghost use Rattle.wm_syntax.specs.Modules.{IsConst};

    ghost holds = { λ g. IsConst g.init };

    fn read(&self) {
        constant(self.init);
    }
}

impl Ranged for Element {
    ghost use Rattle.std.specs.List.{AllByRecursion};
    ghost use Rattle.wm_syntax.specs.Modules.{IsMode, IsU32};

    ghost holds = { λ e. IsMode e.mode × AllByRecursion IsU32 e.functions };

    fn read(&self) {
        mode(self.mode);
        read_all(&self.functions);
    }
}

impl Ranged for Segment {
    ghost use Rattle.wm_syntax.specs.Modules.{IsMode};
    ghost use Rattle.wm_syntax.specs.Spelling.{AreBytes};

    ghost holds = { λ s. IsMode s.mode × AreBytes s.bytes };

    fn read(&self) {
        mode(self.mode);
        bytes(&self.bytes);
    }
}

impl Ranged for Op {
    ghost use Rattle.wm_syntax.specs.inner.Ranges.{IsInRange};

    ghost holds = { IsInRange };

    fn read(&self) {
        instruction(*self);
    }
}

impl Ranged for Body {
    ghost use Rattle.wm_syntax.specs.Modules.{AreInstructions};

    ghost holds = { AreInstructions };

    fn read(&self) {
        read_all(self.ops());
    }
}

impl Ranged for Function {
    ghost use Rattle.std.specs.Prelude.{◌<◌, ◌^◌, length};
    ghost use Rattle.wm_syntax.specs.Modules.{AreInstructions, IsU32};

    ghost holds = { λ f. IsU32 f.type_index × (length f.locals < 2 ^ 32) × AreInstructions f.body };

    fn read(&self) {
        self.type_index.read();
        self.locals.len().read();
        self.body.read();
    }
}

impl Module {
    /// Reads each value of the module, which proves that each is in its range (Core spec 2.5).
    pub fn in_range(&self)
        ensures { IsModule (value_of self.now) }
    {
        read_all(&self.imports);
        read_all(&self.functions);
        read_all(&self.tables);
        read_all(&self.memories);
        read_all(&self.globals);
        read_all(&self.exports);
        if let Some(start) = self.start {
            start.read();
        }
        read_all(&self.elements);
        read_all(&self.segments);
    }
}
