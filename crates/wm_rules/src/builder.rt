//! Builds a module item by item.

ghost use Rattle.std.specs.Prelude.{◌≡◌, ◌∷◌, [], ◌++◌, IfErr, IfOk, Ok, refl};
ghost use Rattle.std.specs.String.{string_bytes};
ghost use Rattle.wm_machine.specs.Sinks.{RunsOut, Taken, Took, items_for};
ghost use Rattle.wm_machine.specs.Items.{body, export, import_desc, new_type, start};
ghost use Rattle.wm_rules.specs.exact.Built.{Built, after, body_ended, change_last, constant_ended};
ghost use Rattle.wm_rules.specs.exact.Built.{constant_taken, expecting, locals_taken, name_from, nothing};
ghost use Rattle.wm_rules.specs.exact.Built.{op_taken, valued, with_elements, with_segments};
ghost use Rattle.wm_rules.specs.inner.Builders.{built};
ghost use Rattle.wm_syntax.specs.Instructions.{Instructions};
ghost use Rattle.wm_syntax.specs.Values.{value_of};
ghost use Rattle.wm_syntax.specs.inner.Building.{at};

use std::alloc::Global;
use std::{fmt, mem};
use wm_decode::{Item, Sink};
use wm_syntax::instructions::{Op, Simple};
use wm_syntax::modules::body::Body;
use wm_syntax::modules::body_builder::{BodyBuilder, BodyFault};
use wm_syntax::modules::locals::Locals;
use wm_syntax::modules::{
    Element, Export, ExportKind, Function, GlobalDef, Import, ImportDesc, Module, Segment,
    SegmentMode,
};
use wm_syntax::types::{Const, FuncType, GlobalType, ValType};
use wm_syntax::why::Why;

/// The purpose of a constant expression: the initialiser of a global, or the offset of a segment of a table or
/// a memory.
#[derive(Clone, Copy, PartialEq, Eq, Debug)]
pub enum Purpose {
    Global(GlobalType),
    Element(u32),
    Segment(u32),
}

/// A constant expression at hand: its purpose, and its value once its instruction came.
#[derive(Clone, Copy, PartialEq, Eq, Debug)]
pub struct Pending {
    purpose: Purpose,
    value: Option<Const>,
}

// The code entry at hand as `Debug` prints it: its locals and its body so far.
#[derive(Clone, Copy, Debug)]
struct Code<'a> {
    locals: &'a Locals,
    body: &'a BodyBuilder,
}

/// Builds a module from its items, valid or not. It refuses a name that is not UTF-8, a constant expression of
/// another form, a misplaced op of a body, and 2^32 locals. Items in an order that no decoder sends may be
/// refused with any name.
#[derive(Drop)]
pub struct Builder {
    alloc: Global,
    module_value: Module,
    // The type index of each function.
    indices: Vec<u32>,
    // The names of the import and of the export at hand.
    module_name: String,
    item_name: String,
    exported: String,
    constant: Option<Pending>,
    // The locals of the code entry at hand.
    locals: Option<Locals>,
    // The body so far of the code entry at hand. It stays here between entries, so that the next body reuses
    // its memory.
    body: BodyBuilder,
}

// Prints the body builder only if a code entry is at hand: otherwise it is not part of the state.
impl fmt::Debug for Builder {
    fn fmt<W: fmt::Write>(&self, f: &mut fmt::Formatter<W>) -> fmt::Result {
        let body = &self.body;
        let code = self.locals.as_ref().map(|locals| Code { locals, body });
        f.debug_struct("Builder")
            .field("alloc", &self.alloc)
            .field("module_value", &self.module_value)
            .field("indices", &self.indices)
            .field("module_name", &self.module_name)
            .field("item_name", &self.item_name)
            .field("exported", &self.exported)
            .field("constant", &self.constant)
            .field("code", &code)
            .finish()
    }
}

fn push<T: Drop>(items: &mut Vec<T>, item: T) -> Result<(), Why>
    ensures { Taken (Ok (items.old.items ++ item ∷ [])) result items.new.items }
{
    items.push(item)?;
    Ok(())
}

fn push_param(last: &mut FuncType, ty: ValType) -> Result<(), Why>
    ensures { Taken (Ok (record last.old { params = last.old.params ++ ty ∷ [] })) result last.new }
{
    push(&mut last.params, ty)
}

// Adds a parameter to the last type.
fn add_param(types: &mut Vec<FuncType>, ty: ValType) -> Result<(), Why>
    ensures { Taken (Ok (change_last (λ s. record s { params = s.params ++ ty ∷ [] }) types.old.items)) result
        types.new.items }
{
    let Some(last) = types.last_mut() else {
        return Ok(());
    };
    push_param(last, ty)
}

fn push_result(last: &mut FuncType, ty: ValType) -> Result<(), Why>
    ensures { Taken (Ok (record last.old { results = last.old.results ++ ty ∷ [] })) result last.new }
{
    push(&mut last.results, ty)
}

fn add_result(types: &mut Vec<FuncType>, ty: ValType) -> Result<(), Why>
    ensures { Taken (Ok (change_last (λ s. record s { results = s.results ++ ty ∷ [] }) types.old.items))
        result types.new.items }
{
    let Some(last) = types.last_mut() else {
        return Ok(());
    };
    push_result(last, ty)
}

fn push_function(last: &mut Element, index: u32) -> Result<(), Why>
    ensures { Taken (Ok (record last.old { functions = last.old.functions ++ index ∷ [] })) result last.new }
{
    push(&mut last.functions, index)
}

// Adds a function to the last element segment.
fn add_element(elements: &mut Vec<Element>, index: u32) -> Result<(), Why>
    ensures { Taken (Ok (change_last (λ e. record e { functions = e.functions ++ index ∷ [] })
        elements.old.items)) result elements.new.items }
{
    let Some(last) = elements.last_mut() else {
        return Ok(());
    };
    push_function(last, index)
}

fn extend_bytes(last: &mut Segment, bytes: &[u8]) -> Result<(), Why>
    ensures { Taken (Ok (record last.old { bytes = last.old.bytes ++ bytes.now })) result last.new }
{
    last.bytes.extend_from_slice(bytes)?;
    Ok(())
}

// Adds bytes to the last data segment.
fn add_bytes(segments: &mut Vec<Segment>, bytes: &[u8]) -> Result<(), Why>
    ensures { Taken (Ok (change_last (λ s. record s { bytes = s.bytes ++ bytes.now }) segments.old.items))
        result segments.new.items }
{
    let Some(last) = segments.last_mut() else {
        return Ok(());
    };
    extend_bytes(last, bytes)
}

// Replaces a name by the one with these bytes. Fails with `BadUtf8` if they are not UTF-8.
fn set_name(alloc: Global, name: &mut String, bytes: &[u8]) -> Result<(), Why>
    ensures { Taken (name_from bytes.now) result (string_bytes name.new) }
{
    let Ok(text) = str::from_utf8(bytes) else {
        return Err(Why::BadUtf8);
    };
    match String::from_str(alloc, text) {
        Ok(new) => {
            *name = new;
            Ok(())
        }
        Err(_) => Err(Why::Memory),
    }
}

impl Sink for Builder {
    ghost Held = { Built };

    ghost held = { built };

    ghost after = { after };

    // Any item may be refused with `Memory`.
    ghost may_run_out = { λ h x. Unit {0} };

    // Inline, so that the kind of the item is known at each call: ops come in bulk.
    #[inline(always)]
    fn take(&mut self, item: Item) -> Result<(), Why> {
        match item {
            Item::Op(op) => self.take_op(&op),
            _ => self.take_other(item),
        }
    }

    ghost takes_data = { λ h c. refl };
}

impl Builder {
    // Takes an item as `take` does. Out of line, for items that are not ops of a body.
    #[inline(never)]
    #[tactic(auto, using(crate::proofs::BuiltData::bytes_took, crate::proofs::BuiltData::bytes_room, crate::proofs::LastLemmas::taken_then))]
    fn take_other(&mut self, item: Item) -> Result<(), Why>
        ensures took { Took after (built self.old) (items_for item.entry) result (built self.new) }
        ensures room { RunsOut (λ h x. Unit {0}) (built self.old) (items_for item.entry) result }
    {
        match item {
            Item::NewType => self.begin_type(),
            Item::Param(ty) => add_param(&mut self.module_value.types, ty),
            Item::Results(_) | Item::DataCount(_) => Ok(()),
            Item::Result(ty) => add_result(&mut self.module_value.types, ty),
            Item::ImportModule(name) => set_name(self.alloc, &mut self.module_name, name),
            Item::ImportName(name) => set_name(self.alloc, &mut self.item_name, name),
            Item::ImportFunc(index) => self.import(ImportDesc::Func(index)),
            Item::ImportTable(limits) => self.import(ImportDesc::Table(limits)),
            Item::ImportMemory(limits) => self.import(ImportDesc::Memory(limits)),
            Item::ImportGlobal(ty) => self.import(ImportDesc::Global(ty)),
            Item::Func(index) => push(&mut self.indices, index),
            Item::Table(limits) => push(&mut self.module_value.tables, limits),
            Item::Memory(limits) => push(&mut self.module_value.memories, limits),
            Item::Global(ty) => self.expect(Purpose::Global(ty)),
            Item::ConstOp(op) => self.take_constant(op),
            Item::ExportName(name) => set_name(self.alloc, &mut self.exported, name),
            Item::Export(kind, index) => self.export(kind, index),
            Item::Start(index) => self.set_start(index),
            Item::Elem(index) => self.expect(Purpose::Element(index)),
            Item::PassiveElem => self.add_element_segment(SegmentMode::Passive),
            Item::ElemFunc(index) => add_element(&mut self.module_value.elements, index),
            Item::Body => self.begin_body(),
            Item::Locals(count, ty) => self.add_locals(count, ty),
            Item::Op(op) => self.take_op(&op),
            Item::Segment(index) => self.expect(Purpose::Segment(index)),
            Item::PassiveSegment => self.add_segment(SegmentMode::Passive),
            Item::DataBytes(bytes) => add_bytes(&mut self.module_value.segments, bytes),
        }
    }

    /// Returns a builder before the first item.
    pub fn new(alloc: Global) -> Self
        ensures { built result ≡ nothing }
    {
        Builder {
            alloc,
            module_value: Module::new(alloc),
            indices: Vec::new(alloc),
            module_name: String::new(alloc),
            item_name: String::new(alloc),
            exported: String::new(alloc),
            constant: None,
            locals: None,
            body: BodyBuilder::new(alloc),
        }
    }

    /// Returns the module so far.
    pub fn into_module(self) -> Module
        ensures { value_of result ≡ (built self).value }
    {
        let Builder { module_value, .. } = self;
        module_value
    }

    fn begin_type(&mut self) -> Result<(), Why>
        ensures { Taken (after (built self.old) new_type) result (built self.new) }
    {
        let ty = FuncType {
            params: Vec::new(self.alloc),
            results: Vec::new(self.alloc),
        };
        push(&mut self.module_value.types, ty)
    }

    fn import(&mut self, desc: ImportDesc) -> Result<(), Why>
        ensures { Taken (after (built self.old) (import_desc desc)) result (built self.new) }
    {
        let module_name = mem::replace(&mut self.module_name, String::new(self.alloc));
        let item_name = mem::replace(&mut self.item_name, String::new(self.alloc));
        push(
            &mut self.module_value.imports,
            Import {
                module_name,
                item_name,
                desc,
            },
        )
    }

    fn export(&mut self, kind: ExportKind, index: u32) -> Result<(), Why>
        ensures { Taken (after (built self.old) (export kind index)) result (built self.new) }
    {
        let name = mem::replace(&mut self.exported, String::new(self.alloc));
        push(&mut self.module_value.exports, Export { name, kind, index })
    }

    fn set_start(&mut self, index: u32) -> Result<(), Why>
        ensures { Taken (after (built self.old) (start index)) result (built self.new) }
    {
        self.module_value.start = Some(index);
        Ok(())
    }

    // Begins a constant expression.
    fn expect(&mut self, purpose: Purpose) -> Result<(), Why>
        ensures { Taken (Ok (expecting purpose (built self.old))) result (built self.new) }
    {
        self.constant = Some(Pending {
            purpose,
            value: None,
        });
        Ok(())
    }

    fn take_constant(&mut self, op: Op) -> Result<(), Why>
        ensures { Taken (constant_taken op (built self.old) self.old.constant) result (built self.new) }
    {
        let Some(pending) = self.constant else {
            return Err(Why::Index);
        };
        match op {
            Op::Simple(Simple::I32Const(value)) => self.give(pending, Const::I32(value)),
            Op::Simple(Simple::I64Const(value)) => self.give(pending, Const::I64(value)),
            Op::Simple(Simple::F32Const(bits)) => self.give(pending, Const::F32(bits)),
            Op::Simple(Simple::F64Const(bits)) => self.give(pending, Const::F64(bits)),
            Op::Simple(Simple::GlobalGet(index)) => self.give(pending, Const::Global(index)),
            Op::End => self.end_constant(pending),
            _ => Err(Why::NotConst),
        }
    }

    // Stores the value of the constant expression. Fails with `Arity` if it has one.
    fn give(&mut self, pending: Pending, value: Const) -> Result<(), Why>
        ensures { Taken (valued value (built self.old) pending pending.value) result (built self.new) }
    {
        if pending.value.is_some() {
            return Err(Why::Arity);
        }
        self.constant = Some(Pending {
            value: Some(value),
            ..pending
        });
        Ok(())
    }

    // Ends the constant expression, and adds its global or segment. The contents of a segment come later.
    fn end_constant(&mut self, pending: Pending) -> Result<(), Why>
        ensures { Taken (constant_ended (built self.old) pending pending.value) result (built self.new) }
    {
        let Some(value) = pending.value else {
            return Err(Why::Arity);
        };
        self.constant = None;
        match pending.purpose {
            Purpose::Global(ty) => push(
                &mut self.module_value.globals,
                GlobalDef { ty, init: value },
            ),
            Purpose::Element(index) => {
                let offset = value;
                self.add_element_segment(SegmentMode::Active { index, offset })
            }
            Purpose::Segment(index) => {
                let offset = value;
                self.add_segment(SegmentMode::Active { index, offset })
            }
        }
    }

    // Adds an element segment without functions. These come later.
    fn add_element_segment(&mut self, mode: SegmentMode) -> Result<(), Why>
        ensures { Taken (Ok (with_elements (built self.old)
            ((built self.old).value.elements ++ record { mode = mode; functions = [] } ∷ []))) result
            (built self.new) }
    {
        let element = Element {
            mode,
            functions: Vec::new(self.alloc),
        };
        push(&mut self.module_value.elements, element)
    }

    // Adds a data segment without bytes. These come later.
    fn add_segment(&mut self, mode: SegmentMode) -> Result<(), Why>
        ensures { Taken (Ok (with_segments (built self.old)
            ((built self.old).value.segments ++ record { mode = mode; bytes = [] } ∷ []))) result
            (built self.new) }
    {
        let segment = Segment {
            mode,
            bytes: Vec::new(self.alloc),
        };
        push(&mut self.module_value.segments, segment)
    }

    fn begin_body(&mut self) -> Result<(), Why>
        ensures { Taken (after (built self.old) body) result (built self.new) }
    {
        if self.locals.is_some() {
            // free the memory of a body that did not end
            self.body = BodyBuilder::new(self.alloc);
        }
        self.body.clear();
        self.locals = Some(Locals::new(self.alloc));
        Ok(())
    }

    fn add_locals(&mut self, count: u32, ty: ValType) -> Result<(), Why>
        ensures { Taken (locals_taken count ty (built self.old) (built self.old).code) result
            (built self.new) }
    {
        match &mut self.locals {
            None => Err(Why::Index),
            Some(locals) => locals.add(count, ty),
        }
    }

    // Out of line, so that the loop over ops is small enough for the common ones to be inlined there. The op is
    // borrowed: a copy would go through memory. `push_fast` is the fast path of most ops.
    #[inline(never)]
    fn take_op(&mut self, op: &Op) -> Result<(), Why>
        ensures { Taken (op_taken op.now (built self.old) (built self.old).code) result (built self.new) }
    {
        if self.locals.is_some() && self.body.push_fast(op) {
            return Ok(());
        }
        self.take_any_op(op)
    }

    // Takes any op. An `end` is tried first as the end of the body: it ends the body if no list is open inside
    // it.
    #[inline(never)]
    fn take_any_op(&mut self, op: &Op) -> Result<(), Why>
        ensures { Taken (op_taken op.now (built self.old) (built self.old).code) result (built self.new) }
    {
        if self.locals.is_none() {
            return Err(Why::Index);
        }
        if let Op::End = op {
            if let Ok(body) = self.body.take_body(self.alloc) {
                return self.end_body(body);
            }
        }
        match self.body.push_borrowed(op) {
            Ok(()) => Ok(()),
            Err(BodyFault::Memory) => Err(Why::Memory),
            Err(BodyFault::Unbalanced) => {
                // free the memory of this body
                self.locals = None;
                self.body = BodyBuilder::new(self.alloc);
                Err(Why::ElsePlace)
            }
        }
    }

    // Ends the code entry at hand with this body.
    fn end_body(&mut self, body: Body) -> Result<(), Why>
        ensures { Taken (body_ended body (built self.old) (built self.old).code) result (built self.new) }
    {
        let Some(locals) = self.locals.take() else {
            return Err(Why::Index);
        };
        let next = self.module_value.functions.len();
        let type_index = self.indices.get(next).copied().unwrap_or(0);
        let function = Function {
            type_index,
            locals,
            body,
        };
        push(&mut self.module_value.functions, function)
    }
}
