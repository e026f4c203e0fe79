//! Parses items, such as `param i32`, `export func 0` and `op local.get 1`.

use crate::script_words::{number_of, parts_of, unknown, word_of};
use std::alloc::Global;
use std::fmt::Write;
use std::process::Abort;
use wm_decode::{Item, Sink};
use wm_syntax::instructions::{Op, Simple};
use wm_syntax::modules::ExportKind;
use wm_syntax::types::{GlobalType, Limits, ValType};

/// Passes items to a sink. Returns `taken`, or the name of the first refusal and the items after it.
pub(crate) fn given<S: Sink>(
    rt: &impl Abort,
    alloc: Global,
    sink: &mut S,
    items: &'static str,
) -> String {
    let mut answer = String::new(alloc);
    for words in items.split(", ") {
        give(rt, sink, &mut answer, words);
    }
    if answer.as_str().is_empty() {
        answer.push_str("taken").expect(rt, "memory");
    }
    answer
}

fn give<S: Sink>(rt: &impl Abort, sink: &mut S, answer: &mut String, words: &'static str) {
    if !answer.as_str().is_empty() {
        write!(answer, ", {words}").expect(rt, "memory");
    } else if let Err(why) = sink.take(item_of(rt, words)) {
        answer.push_str(why.name()).expect(rt, "memory");
    }
}

/// Parses an item.
pub(crate) fn item_of(rt: &impl Abort, words: &'static str) -> Item<'static> {
    let (word, rest) = word_of(words);
    match word {
        "type" => Item::NewType,
        "body" => Item::Body,
        "passive_elem" => Item::PassiveElem,
        "passive_segment" => Item::PassiveSegment,
        "import_module" => Item::ImportModule(rest.as_bytes()),
        "import_name" => Item::ImportName(rest.as_bytes()),
        "export_name" => Item::ExportName(rest.as_bytes()),
        "export_not_utf8" => Item::ExportName(&[0xFF]),
        "data" => Item::DataBytes(rest.as_bytes()),
        _ => numbered(rt, word, rest),
    }
}

// Parses an item with a number.
fn numbered(rt: &impl Abort, word: &str, rest: &str) -> Item<'static> {
    match word {
        "results" => Item::Results(number_of(rt, rest)),
        "import_func" => Item::ImportFunc(number_of(rt, rest)),
        "func" => Item::Func(number_of(rt, rest)),
        "start" => Item::Start(number_of(rt, rest)),
        "elem" => Item::Elem(number_of(rt, rest)),
        "elem_func" => Item::ElemFunc(number_of(rt, rest)),
        "segment" => Item::Segment(number_of(rt, rest)),
        _ => typed(rt, word, rest),
    }
}

// Parses an item with a type.
fn typed(rt: &impl Abort, word: &str, rest: &str) -> Item<'static> {
    match word {
        "param" => Item::Param(type_of(rt, rest)),
        "result" => Item::Result(type_of(rt, rest)),
        "import_global" => Item::ImportGlobal(global_of(rt, rest)),
        "global" => Item::Global(global_of(rt, rest)),
        "locals" => locals_of(rt, rest),
        _ => with_parts(rt, word, rest),
    }
}

// Parses an item with limits or an op, or an export.
fn with_parts(rt: &impl Abort, word: &str, rest: &str) -> Item<'static> {
    match word {
        "import_table" => Item::ImportTable(limits_of(rt, rest)),
        "table" => Item::Table(limits_of(rt, rest)),
        "import_memory" => Item::ImportMemory(limits_of(rt, rest)),
        "memory" => Item::Memory(limits_of(rt, rest)),
        "const" => Item::ConstOp(op_of(rt, rest)),
        "op" => Item::Op(op_of(rt, rest)),
        "export" => export_of(rt, rest),
        _ => unknown(rt, word),
    }
}

fn locals_of(rt: &impl Abort, words: &str) -> Item<'static> {
    let (count, ty) = parts_of(rt, words, " ");
    Item::Locals(number_of(rt, count), type_of(rt, ty))
}

fn export_of(rt: &impl Abort, words: &str) -> Item<'static> {
    let (kind, index) = parts_of(rt, words, " ");
    Item::Export(kind_of(rt, kind), number_of(rt, index))
}

fn type_of(rt: &impl Abort, word: &str) -> ValType {
    match word {
        "i32" => ValType::I32,
        "i64" => ValType::I64,
        "f32" => ValType::F32,
        "f64" => ValType::F64,
        _ => unknown(rt, word),
    }
}

fn kind_of(rt: &impl Abort, word: &str) -> ExportKind {
    match word {
        "func" => ExportKind::Func,
        "table" => ExportKind::Table,
        "memory" => ExportKind::Memory,
        "global" => ExportKind::Global,
        _ => unknown(rt, word),
    }
}

// Parses limits: the minimum, and the maximum if there is one.
fn limits_of(rt: &impl Abort, words: &str) -> Limits {
    let (min, max) = word_of(words);
    Limits {
        min: number_of(rt, min),
        max: greatest_of(rt, max),
    }
}

fn greatest_of(rt: &impl Abort, word: &str) -> Option<u32> {
    if word.is_empty() {
        return None;
    }
    Some(number_of(rt, word))
}

// Parses the type of a global: `i32` if it is constant, `var i32` if it is mutable.
fn global_of(rt: &impl Abort, words: &str) -> GlobalType {
    let (var, word) = words.split_once(' ').unwrap_or(("", words));
    GlobalType {
        ty: type_of(rt, word),
        var: var == "var",
    }
}

fn op_of(rt: &impl Abort, words: &str) -> Op {
    match words {
        "i32.const" => Op::Simple(Simple::I32Const(1)),
        "i64.const" => Op::Simple(Simple::I64Const(1)),
        "f32.const" => Op::Simple(Simple::F32Const(1)),
        "f64.const" => Op::Simple(Simple::F64Const(1)),
        "nop" => Op::Simple(Simple::Nop),
        "drop" => Op::Simple(Simple::Drop),
        "block" => Op::Block(None),
        "loop" => Op::Loop(None),
        "if" => Op::If(None),
        "else" => Op::Else,
        "end" => Op::End,
        _ => op_with_index(rt, words),
    }
}

fn op_with_index(rt: &impl Abort, words: &str) -> Op {
    let (word, index) = parts_of(rt, words, " ");
    let index = number_of(rt, index);
    match word {
        "global.get" => Op::Simple(Simple::GlobalGet(index)),
        "global.set" => Op::Simple(Simple::GlobalSet(index)),
        "local.get" => Op::Simple(Simple::LocalGet(index)),
        "call" => Op::Simple(Simple::Call(index)),
        _ => unknown(rt, word),
    }
}
