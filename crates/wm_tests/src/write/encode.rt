//! Modules and their canonical binaries. A row has bytes that spell a module, the module as `Debug` writes it, and its
//! canonical binary.

use crate::write::narrow::Narrow;
use std::alloc::Global;
use std::process::Abort;
use wm_decode::Decoder;
use wm_rules::Builder;
use wm_syntax::io::output::Output;
use wm_syntax::modules::Module;
use wm_syntax::profile::Profile;
use wm_write::encode::{WriteFault, encode};

type Row = (&'static [u8], &'static str, &'static [u8]);

const EMPTY: Row = (
    b"\0asm\x01\0\0\0",
    "Module { types: [], imports: [], functions: [], tables: [], memories: [], globals: [], exports: [], \
start: None, elements: [], segments: [] }",
    b"\0asm\x01\0\0\0",
);

/// A module of 32 bytes with a function that adds its two parameters.
const ADDING: &[u8] = b"\0asm\x01\0\0\0\x01\x07\x01\x60\x02\x7F\x7F\x01\x7F\x03\x02\x01\x00\
    \x0A\x09\x01\x07\x00\x20\x00\x20\x01\x6A\x0B";

const ADDS: Row = (
    ADDING,
    "Module { types: [FuncType { params: [I32, I32], results: [I32] }], imports: [], \
functions: [Function { type_index: 0, locals: Locals { runs: [] }, \
body: Body { ops: [Simple(LocalGet(0)), Simple(LocalGet(1)), Simple(Numeric(Binary(I32, Add)))] } }], \
tables: [], memories: [], globals: [], exports: [], start: None, elements: [], segments: [] }",
    ADDING,
);

// Runs of one i32, no i64 and two i32 become one run.
const LOCALS: Row = (
    b"\0asm\x01\0\0\0\x01\x04\x01\x60\x00\x00\x03\x02\x01\x00\x0A\x0A\x01\x08\x03\x01\x7F\x00\x7E\x02\x7F\x0B",
    "Module { types: [FuncType { params: [], results: [] }], imports: [], \
functions: [Function { type_index: 0, locals: Locals { runs: [Run { end: 3, ty: I32 }] }, body: Body { ops: [] } }], \
tables: [], memories: [], globals: [], exports: [], start: None, elements: [], segments: [] }",
    b"\0asm\x01\0\0\0\x01\x04\x01\x60\x00\x00\x03\x02\x01\x00\x0A\x06\x01\x04\x01\x03\x7F\x0B",
);

// An `if` with a result and an `else`. The numbers have two bytes each.
const BRANCHES: Row = (
    b"\0asm\x01\0\0\0\x01\x05\x01\x60\x00\x01\x7F\x03\x02\x01\x00\
    \x0A\x11\x01\x0F\x00\x41\x81\x00\x04\x7F\x41\x82\x00\x05\x41\x83\x00\x0B\x0B",
    "Module { types: [FuncType { params: [], results: [I32] }], imports: [], \
functions: [Function { type_index: 0, locals: Locals { runs: [] }, body: Body { ops: [Simple(I32Const(1)), If(Some(I32)), \
Simple(I32Const(2)), Else, Simple(I32Const(3)), End] } }], \
tables: [], memories: [], globals: [], exports: [], start: None, elements: [], segments: [] }",
    b"\0asm\x01\0\0\0\x01\x05\x01\x60\x00\x01\x7F\x03\x02\x01\x00\
    \x0A\x0E\x01\x0C\x00\x41\x01\x04\x7F\x41\x02\x05\x41\x03\x0B\x0B",
);

// A NaN with a payload, and -0. An empty run between two others is dropped.
const FLOATS: Row = (
    b"\0asm\x01\0\0\0\x01\x06\x01\x60\x01\x7D\x01\x7C\x03\x02\x01\x00\
    \x06\x09\x01\x7D\x00\x43\x01\x00\xA0\xFF\x0B\
    \x0A\x13\x01\x11\x03\x01\x7D\x00\x7F\x02\x7C\x44\x00\x00\x00\x00\x00\x00\x00\x80\x0B",
    "Module { types: [FuncType { params: [F32], results: [F64] }], imports: [], \
functions: [Function { type_index: 0, locals: Locals { runs: [Run { end: 1, ty: F32 }, Run { end: 3, ty: F64 }] }, \
body: Body { ops: [Simple(F64Const(9223372036854775808))] } }], \
tables: [], memories: [], globals: [GlobalDef { ty: GlobalType { ty: F32, var: false }, init: F32(4288675841) }], \
exports: [], start: None, elements: [], segments: [] }",
    b"\0asm\x01\0\0\0\x01\x06\x01\x60\x01\x7D\x01\x7C\x03\x02\x01\x00\
    \x06\x09\x01\x7D\x00\x43\x01\x00\xA0\xFF\x0B\
    \x0A\x11\x01\x0F\x02\x01\x7D\x02\x7C\x44\x00\x00\x00\x00\x00\x00\x00\x80\x0B",
);

const SECTIONS_BYTES: &[u8] = b"\0asm\x01\0\0\0\x01\x06\x01\x60\x01\x7F\x01\x7E\
    \x02\x0D\x02\x01m\x01f\x00\x00\x01m\x00\x03\x7E\x01\
    \x03\x02\x01\x00\x04\x04\x01\x70\x00\x01\x05\x04\x01\x01\x01\x02\
    \x06\x06\x01\x7F\x00\x41\x7F\x0B\x07\x05\x01\x01e\x02\x00\x08\x01\x01\
    \x09\x09\x01\x00\x41\x00\x0B\x02\x00\xC8\x01\x0A\x05\x01\x03\x00\x01\x0B\
    \x0B\x08\x01\x00\x23\x00\x0B\x02\x00\xFF";

// A module with each kind of section that is not valid.
const SECTIONS: Row = (
    SECTIONS_BYTES,
    "Module { types: [FuncType { params: [I32], results: [I64] }], \
imports: [Import { module_name: \"m\", item_name: \"f\", desc: Func(0) }, \
Import { module_name: \"m\", item_name: \"\", desc: Global(GlobalType { ty: I64, var: true }) }], \
functions: [Function { type_index: 0, locals: Locals { runs: [] }, body: Body { ops: [Simple(Nop)] } }], \
tables: [Limits { min: 1, max: None }], memories: [Limits { min: 1, max: Some(2) }], \
globals: [GlobalDef { ty: GlobalType { ty: I32, var: false }, init: I32(-1) }], \
exports: [Export { name: \"e\", kind: Memory, index: 0 }], start: Some(1), \
elements: [Element { mode: Active { index: 0, offset: I32(0) }, functions: [0, 200] }], \
segments: [Segment { mode: Active { index: 0, offset: Global(0) }, bytes: [0, 255] }] }",
    SECTIONS_BYTES,
);

/// Returns the module that the bytes spell, valid or not.
fn module_of(rt: &impl Abort, alloc: Global, input: &[u8]) -> Module {
    let mut decoder = Decoder::new(alloc, Builder::new(alloc), Profile::THREE, 1000);
    decoder.feed(input).expect(rt, "what begins a module");
    let builder = decoder.finish().expect(rt, "a whole module");
    builder.into_module()
}

fn expect(rt: &impl Abort, alloc: Global, row: Row) {
    let (input, shown, wanted) = row;
    let module = module_of(rt, alloc, input);
    let text = format!(in alloc; "{module:?}").expect(rt, "memory");
    assert!(rt; text.as_str() == shown, "{text}");
    expect_bytes(rt, alloc, &module, wanted);
}

fn expect_bytes(rt: &impl Abort, alloc: Global, module: &Module, wanted: &[u8]) {
    let mut dest = Output::new(Vec::new(alloc));
    let length = encode(module, &mut dest);
    assert!(rt; dest.into_inner().as_slice() == wanted);
    assert!(rt; length == Ok(wanted.len() as u64), "{length:?}");
}

#[test]
fn modules(rt: HostRuntime) {
    for row in [EMPTY, ADDS, LOCALS, BRANCHES, FLOATS, SECTIONS] {
        expect(&rt, rt.alloc(), row);
    }
}

fn expect_fault(rt: &impl Abort, alloc: Global, module: &Module, room: usize) {
    let mut dest = Output::new(Narrow::new(alloc, room));
    let answer = encode(module, &mut dest);
    let written = room as u64;
    assert!(rt;
        answer == Err(WriteFault::Io { written }),
        "{room}: {answer:?}"
    );
    assert!(rt;
        Some(dest.into_inner().taken()) == ADDING.get(..room),
        "{room}"
    );
}

#[test]
fn a_writer_that_fails_was_given_what_is_counted(rt: HostRuntime) {
    let module = module_of(&rt, rt.alloc(), ADDING);
    for room in 0..ADDING.len() {
        expect_fault(&rt, rt.alloc(), &module, room);
    }
}
