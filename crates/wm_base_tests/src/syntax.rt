//! Tests of `wm_syntax`.

use wm_syntax::modules::Module;
use wm_syntax::names::is_name;

mod body_builder;
mod chunk;
mod equality;
mod io;
mod locals;
mod numbers;
mod op_names;
mod opcodes;
mod profile;
mod scripts;
mod why;

#[test]
fn names(rt: HostRuntime) {
    assert!(rt; is_name(b""));
    assert!(rt; is_name(&[0x61, 0xC3, 0xA9]));
    assert!(rt; !is_name(&[0xFF]));
    assert!(rt; !is_name(&[0xED, 0xA0, 0x80]), "a surrogate");
}

#[test]
fn a_module_without_parts_takes_no_memory(rt: HostRuntime) {
    let module = Module::new(rt.alloc());
    let sections = [
        module.types.capacity(),
        module.imports.capacity(),
        module.functions.capacity(),
    ];
    assert!(rt; sections == [0; 3] && module.start.is_none());
    let sections = [
        module.tables.capacity(),
        module.memories.capacity(),
        module.globals.capacity(),
    ];
    assert!(rt; sections == [0; 3]);
    let sections = [
        module.exports.capacity(),
        module.elements.capacity(),
        module.segments.capacity(),
    ];
    assert!(rt; sections == [0; 3]);
}
