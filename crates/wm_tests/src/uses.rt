//! The samples of README.md and docs/LIBRARY.md, as a host writes them. `.ci/readme.py` compares the pages
//! with these files.

mod admit;
mod assemble;
mod locate;
mod rewrite;

use admit::admit;
use assemble::assemble;
use locate::locate;
use rewrite::rewrite;
use std::alloc::Global;
use wmod::{Awaits, Place};

/// The bytes of `examples/add.wasm`.
const ADD: [u8; 41] = [
    0x00, 0x61, 0x73, 0x6D, 0x01, 0x00, 0x00, 0x00, 0x01, 0x07, 0x01, 0x60, 0x02, 0x7F, 0x7F, 0x01,
    0x7F, 0x03, 0x02, 0x01, 0x00, 0x07, 0x07, 0x01, 0x03, 0x61, 0x64, 0x64, 0x00, 0x00, 0x0A, 0x09,
    0x01, 0x07, 0x00, 0x20, 0x00, 0x20, 0x01, 0x6A, 0x0B,
];

/// Whether the module is admitted in two pieces, and refused if the second is missing.
fn admits(alloc: Global) -> bool {
    let (front, rest) = ADD.split_at(20);
    admit(alloc, &[front, rest]).is_ok() && admit(alloc, &[front]).is_err()
}

/// Whether the end of a module without its last instructions is located in its one body, and a whole module nowhere.
fn locates(alloc: Global) -> bool {
    let end = locate(alloc, &[&ADD[..37]]);
    let in_body = Some(Place {
        section: 10,
        item: Some(0),
        awaits: Awaits::Opcode,
    });
    let in_body = end.is_some_and(|end| end.byte.is_none() && end.place == in_body);
    in_body && locate(alloc, &[&ADD]).is_none()
}

/// Whether the module is written again, with its one function.
fn rewrites(alloc: Global) -> bool {
    matches!(rewrite(alloc, &ADD[..], Vec::new(alloc)), Ok(Some(1)))
}

/// Whether a valid text gives a module, and a text with an invalid module gives none.
fn assembles(alloc: Global) -> bool {
    assemble(alloc, b"(module)").is_some() && assemble(alloc, b"(module (start 0))").is_none()
}

#[test]
fn samples_of_the_pages(rt: HostRuntime) {
    assert!(rt; admits(rt.alloc()), "admit");
    assert!(rt; locates(rt.alloc()), "locate");
    assert!(rt; rewrites(rt.alloc()), "rewrite");
    assert!(rt; assembles(rt.alloc()), "assemble");
}
