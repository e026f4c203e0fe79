//! Modules whose shapes cost a reader more than usual.

use crate::binary::Binary;
use crate::random::Random;
use std::alloc::AllocError;

const I32: u8 = 0x7f;

const I64: u8 = 0x7e;

const LOCAL_GET: u8 = 0x20;

const LOCAL_SET: u8 = 0x21;

/// The content that a module mostly has.
#[derive(Clone, Copy)]
pub enum Shape {
    /// Indices of two bytes in an element segment.
    Elements,
    /// Globals whose initialisers have numbers of several bytes.
    Globals,
    /// Labels of two bytes in `br_table` instructions.
    Labels,
    /// Locals in few runs, most with an index of two bytes.
    Locals,
    /// Exports whose long names share a prefix.
    Exports,
    /// Function types, and imports of functions of them.
    Types,
    /// Nested blocks.
    Blocks,
}

pub const SHAPES: [Shape; 7] = [
    Shape::Elements,
    Shape::Globals,
    Shape::Labels,
    Shape::Locals,
    Shape::Exports,
    Shape::Types,
    Shape::Blocks,
];

fn below(random: &mut Random, end: u32) -> u32 {
    if end == 0 { 0 } else { random.number() % end }
}

/// Appends a type section with one type, of no parameters and no result.
fn put_type(binary: &mut Binary) -> Result<(), AllocError> {
    binary.raw(&[1, 0x60, 0, 0])?;
    binary.section(1)
}

/// Appends a function section of `count` functions of the first type.
fn put_functions(binary: &mut Binary, count: u32) -> Result<(), AllocError> {
    binary.number(count)?;
    for _ in 0..count {
        binary.raw(&[0])?;
    }
    binary.section(3)
}

/// Appends a code section of `count` empty bodies.
fn put_bodies(binary: &mut Binary, count: u32) -> Result<(), AllocError> {
    binary.number(count)?;
    for _ in 0..count {
        binary.raw(&[2, 0, 0x0b])?;
    }
    binary.section(10)
}

fn make_elements(binary: &mut Binary, random: &mut Random, size: u32) -> Result<(), AllocError> {
    put_type(binary)?;
    put_functions(binary, size / 8 + 200)?;
    binary.raw(&[1, 0x70, 0, 0])?;
    binary.section(4)?;
    binary.raw(&[1, 0, 0x41, 0, 0x0b])?;
    binary.number(size)?;
    for _ in 0..size {
        let index = below(random, size / 8 + 200);
        binary.number(index)?;
    }
    binary.section(9)?;
    put_bodies(binary, size / 8 + 200)
}

fn make_globals(binary: &mut Binary, random: &mut Random, size: u32) -> Result<(), AllocError> {
    binary.number(size / 4)?;
    for _ in 0..size / 4 {
        binary.raw(&[I32, 0, 0x41])?;
        // Numbers of one to five bytes, none of them negative.
        let bits = below(random, 32);
        let number = random.number().wrapping_shr(bits);
        binary.constant(number)?;
        binary.raw(&[0x0b])?;
    }
    binary.section(6)
}

fn make_labels(binary: &mut Binary, random: &mut Random, size: u32) -> Result<(), AllocError> {
    put_type(binary)?;
    put_functions(binary, 1)?;
    for _ in 0..300 {
        binary.raw(&[2, 0x40])?;
    }
    for _ in 0..size / 100 {
        binary.raw(&[0x41, 0, 0x0e])?;
        binary.number(99)?;
        for _ in 0..100 {
            let label = below(random, 300);
            binary.number(label)?;
        }
    }
    for _ in 0..301 {
        binary.raw(&[0x0b])?;
    }
    binary.one_body(&[])
}

fn make_locals(binary: &mut Binary, random: &mut Random, size: u32) -> Result<(), AllocError> {
    put_type(binary)?;
    put_functions(binary, 1)?;
    for _ in 0..size / 2 {
        let wide = below(random, 8) == 0;
        let (first, count) = if wide { (4000, 2000) } else { (0, 4000) };
        let source = below(random, count);
        let target = below(random, count);
        binary.raw(&[LOCAL_GET])?;
        binary.number(source.wrapping_add(first))?;
        binary.raw(&[LOCAL_SET])?;
        binary.number(target.wrapping_add(first))?;
    }
    binary.raw(&[0x0b])?;
    binary.one_body(&[(4000, I32), (2000, I64), (3000, I32)])
}

fn make_exports(binary: &mut Binary, random: &mut Random, size: u32) -> Result<(), AllocError> {
    put_type(binary)?;
    put_functions(binary, 1000)?;
    binary.number(size / 8)?;
    for index in 0..size / 8 {
        binary.raw(&[51])?;
        binary.raw(b"_ZN4wmod5bench7awkward6export10of_a_name")?;
        for _ in 0..3 {
            binary.raw(&[b'a' + random.byte() % 26])?;
        }
        for shift in [28u32, 24, 20, 16, 12, 8, 4, 0] {
            let digit = (index.wrapping_shr(shift) & 15) as u8;
            binary.raw(&[b'a' + digit])?;
        }
        binary.raw(&[0])?;
        let function = below(random, 1000);
        binary.number(function)?;
    }
    binary.section(7)?;
    put_bodies(binary, 1000)
}

fn put_types(binary: &mut Binary, random: &mut Random, count: u32) -> Result<(), AllocError> {
    binary.number(count)?;
    for _ in 0..count {
        let params = random.byte() % 8;
        binary.raw(&[0x60, params])?;
        for _ in 0..params {
            binary.raw(&[I64 + random.byte() % 2])?;
        }
        if random.byte() % 2 == 0 {
            binary.raw(&[0])?;
        } else {
            binary.raw(&[1, I32])?;
        }
    }
    binary.section(1)
}

fn make_types(binary: &mut Binary, random: &mut Random, size: u32) -> Result<(), AllocError> {
    put_types(binary, random, size / 8 + 1)?;
    binary.number(size / 8)?;
    for _ in 0..size / 8 {
        binary.raw(b"\x03env\x08")?;
        for _ in 0..8 {
            binary.raw(&[b'a' + random.byte() % 26])?;
        }
        binary.raw(&[0])?;
        let index = below(random, size / 8 + 1);
        binary.number(index)?;
    }
    binary.section(2)
}

fn make_blocks(binary: &mut Binary, random: &mut Random, size: u32) -> Result<(), AllocError> {
    put_type(binary)?;
    put_functions(binary, 1)?;
    for _ in 0..size {
        binary.raw(&[2 + random.byte() % 2, 0x40])?;
    }
    for _ in 0..size.wrapping_add(1) {
        binary.raw(&[0x0b])?;
    }
    binary.one_body(&[])
}

/// Makes a valid module of a shape. It replaces the module in `binary`, and its length grows with `size`.
pub fn make(
    binary: &mut Binary,
    shape: Shape,
    random: &mut Random,
    size: u32,
) -> Result<(), AllocError> {
    binary.clear()?;
    match shape {
        Shape::Elements => make_elements(binary, random, size),
        Shape::Globals => make_globals(binary, random, size),
        Shape::Labels => make_labels(binary, random, size),
        Shape::Locals => make_locals(binary, random, size),
        Shape::Exports => make_exports(binary, random, size),
        Shape::Types => make_types(binary, random, size),
        Shape::Blocks => make_blocks(binary, random, size),
    }
}
