//! Modules (Core spec 2.5).

ghost use Rattle.std.specs.Prelude.{◌≡◌};
ghost use Rattle.wm_syntax.specs.Modules.{empty_module};
ghost use Rattle.wm_syntax.specs.Values.{value_of};

use crate::modules::body::Body;
use crate::modules::locals::Locals;
use crate::types::{Const, FuncType, GlobalType, Limits};
use std::alloc::Global;
use std::marker::Model;

pub mod body;
pub mod body_builder;
pub mod equality;
pub mod locals;
pub mod ranges;
mod sized_ops;

/// The description of an import (Core spec 2.5.11). A function is described by the index of its type.
#[derive(Clone, Copy, PartialEq, Eq, Debug)]
pub enum ImportDesc {
    Func(u32),
    Table(Limits),
    Memory(Limits),
    Global(GlobalType),
}

/// The kind of an exported item (Core spec 2.5.10).
#[derive(Clone, Copy, PartialEq, Eq, Debug)]
pub enum ExportKind {
    Func,
    Table,
    Memory,
    Global,
}

/// An import: the names of a module and of an item in it, and its description (Core spec 2.5.11).
#[derive(Debug, Drop)]
pub struct Import {
    pub module_name: String,
    pub item_name: String,
    pub desc: ImportDesc,
}

impl Model for Import {
    ghost use Rattle.std.specs.String.{string_bytes};
    ghost use Rattle.wm_syntax.specs.Modules.{Import as ImportValue};

    ghost Value = { ImportValue };

    ghost view = { λ i. record {
      module_name = string_bytes i.module_name;
      item_name = string_bytes i.item_name;
      desc = i.desc;
    } };
}

/// A function: the index of its type, its declared locals, and its body (Core spec 2.5.3).
#[derive(Debug, Drop)]
pub struct Function {
    pub type_index: u32,
    pub locals: Locals,
    pub body: Body,
}

impl Model for Function {
    ghost use Rattle.wm_syntax.specs.Modules.{Function as FunctionValue};
    ghost use Rattle.wm_syntax.specs.inner.Codes.{function_code};

    ghost Value = { FunctionValue };

    ghost coded = { function_code };

    ghost view = { λ f. record { type_index = f.type_index; locals = f.locals; body = f.body } };
}

/// A global: its type and its initialiser (Core spec 2.5.6).
#[derive(Debug, Drop)]
pub struct GlobalDef {
    pub ty: GlobalType,
    pub init: Const,
}

impl Model for GlobalDef {
    ghost use Rattle.wm_syntax.specs.Modules.{GlobalDef as GlobalValue};

    ghost Value = { GlobalValue };

    ghost view = { λ g. record { ty = g.ty; init = g.init } };
}

/// An export: its name, and the kind and the index of an item (Core spec 2.5.10).
#[derive(Debug, Drop)]
pub struct Export {
    pub name: String,
    pub kind: ExportKind,
    pub index: u32,
}

impl Model for Export {
    ghost use Rattle.std.specs.String.{string_bytes};
    ghost use Rattle.wm_syntax.specs.Modules.{Export as ExportValue};

    ghost Value = { ExportValue };

    ghost view = { λ e. record { name = string_bytes e.name; kind = e.kind; index = e.index } };
}

/// The mode of a segment. An active one is copied at instantiation, to an offset in the table or the memory with this
/// index (Core spec 2.5.7, 2.5.8). A passive one is copied by instructions only (WebAssembly 2.0, 2.5.7, 2.5.8).
#[derive(Clone, Copy, PartialEq, Eq, Debug)]
pub enum SegmentMode {
    Passive,
    Active { index: u32, offset: Const },
}

/// An element segment: its mode, and function indices (Core spec 2.5.7).
#[derive(Debug, Drop)]
pub struct Element {
    pub mode: SegmentMode,
    pub functions: Vec<u32>,
}

impl Model for Element {
    ghost use Rattle.wm_syntax.specs.Modules.{Element as ElementValue};

    ghost Value = { ElementValue };

    ghost view = { λ e. record { mode = e.mode; functions = e.functions.items } };
}

/// A data segment: its mode, and bytes (Core spec 2.5.8).
#[derive(Debug, Drop)]
pub struct Segment {
    pub mode: SegmentMode,
    pub bytes: Vec<u8>,
}

impl Model for Segment {
    ghost use Rattle.wm_syntax.specs.Modules.{Segment as SegmentValue};

    ghost Value = { SegmentValue };

    ghost view = { λ s. record { mode = s.mode; bytes = s.bytes.items } };
}

/// A module, valid or not (Core spec 2.5). Tables and memories are lists, to represent an invalid module with
/// two.
#[derive(Debug, Drop)]
pub struct Module {
    pub types: Vec<FuncType>,
    pub imports: Vec<Import>,
    pub functions: Vec<Function>,
    pub tables: Vec<Limits>,
    pub memories: Vec<Limits>,
    pub globals: Vec<GlobalDef>,
    pub exports: Vec<Export>,
    pub start: Option<u32>,
    pub elements: Vec<Element>,
    pub segments: Vec<Segment>,
}

impl Module {
    /// Returns the empty module.
    pub fn new(alloc: Global) -> Self
        ensures { value_of result ≡ empty_module }
    {
        Module {
            types: Vec::new(alloc),
            imports: Vec::new(alloc),
            functions: Vec::new(alloc),
            tables: Vec::new(alloc),
            memories: Vec::new(alloc),
            globals: Vec::new(alloc),
            exports: Vec::new(alloc),
            start: None,
            elements: Vec::new(alloc),
            segments: Vec::new(alloc),
        }
    }
}
