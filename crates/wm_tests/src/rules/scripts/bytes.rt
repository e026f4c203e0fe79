//! Parses the bytes of inputs and their pieces.
//!
//! Bytes are hexadecimal digits. `H` is the header, `ADD` and `EVERY` are whole modules, and `ADD:0-20` is the first 20
//! bytes of `ADD`. `020B*3` means six bytes. There `nn` is the number of the repetition, from 0. An input may also be
//! `BAD_TYPE`, `WIDE`, `MANY` or `LARGE`.

ghost use Rattle.std.specs.Prelude.{◌<◌};

use crate::script_words::{number_of, parts_of, word_of};
use std::alloc::Global;
use std::process::Abort;

const HEADER: &str = "0061736D01000000";

// A module with a function that adds two numbers.
const ADD: &str = "0061736D01000000\
    010701\
    60027F7F017F\
    03020100\
    0A090107\
    00200020016A0B";

// A module with an entry in each section: the types () and (i32); the import m.f of type 0; functions of types 1 and
// 0; a table of at least 3, and a memory of at least 1; a mutable i64 of 5; the export of function 1 as é; the start
// function 2; the elements 2 and 1 at offset 1; a body with two locals and an `if` with an empty first branch, and a
// body with a block; four bytes of data at offset -1.
const EVERY: &str = "0061736D01000000\
    01080260000060017F00\
    020701016D01660000\
    0303020100\
    0404017000030503010001\
    0606017E0142050B\
    07060102C3A900\
    01080102\
    0908010041010B020201\
    0A13020B01027E2000044005010B0B0500\
    02400B0B\
    0B0A0100417F0B0400C3A922";

// Four functions. The type of the third does not exist.
const BAD_TYPE: &str = "H 010401600000 03050400000100";

// An imported function with 100,000 parameters, and a function that calls it 50,000 times after `unreachable`.
const WIDE: &str = "H 01A98D0602 60A08D06 7F*100000 00 600000 02050100000000 03020101 \
    0AA78D0601 A38D060000 1000*50000 0B";

// A custom section and an export with a name of 300 bytes each, and 1,100 functions with empty bodies.
const MANY: &str = "H 00AE02AC02 63*300 010401600000 03CE08CC08 00*1100 07B10201AC02 65*300 0000 \
    0AE619CC08 02000B*1100";

// 301 imported functions and 1,100 others, one of them with 5,000 ops; 513 exports; names of 300 bytes; an element
// segment of 4,000 functions; a data segment of 6,000 bytes.
const LARGE: &str = "H 010401600000 02E812AD02 016D01660000*300 AC02 6D*300 AC02 66*300 0000 \
    03CE08CC08 00*1100 040401700000 0503010000 \
    07B2168104 0261nn0000*128 0262nn0000*128 0263nn0000*128 0264nn0000*128 AC02 65*300 0000 \
    09A71F 010041000BA01F 00*4000 0AEF40CC08 02000B*1099 8A2700 01*5000 0B \
    0BF72E 010041000BF02E 5A*6000";

/// Parses the pieces of an input, separated by ` / `. `by 7` before the bytes cuts them into pieces of 7 bytes.
/// `apart 7` also puts an empty piece after each.
pub(crate) fn pieces_of(rt: &impl Abort, alloc: Global, text: &str) -> Vec<Vec<u8>> {
    let (word, rest) = word_of(text);
    match word {
        "by" => pieces_by(rt, alloc, rest, false),
        "apart" => pieces_by(rt, alloc, rest, true),
        _ => pieces_between(rt, alloc, text),
    }
}

fn pieces_between(rt: &impl Abort, alloc: Global, text: &str) -> Vec<Vec<u8>> {
    let mut pieces = Vec::new(alloc);
    for piece in text.split(" / ") {
        pieces.push(bytes_of(rt, alloc, piece)).expect(rt, "memory");
    }
    pieces
}

fn pieces_by(rt: &impl Abort, alloc: Global, text: &str, apart: bool) -> Vec<Vec<u8>> {
    let (size, text) = word_of(text);
    let size = number_of(rt, size) as usize;
    assert!(rt; size > 0);
    let mut pieces = Vec::new(alloc);
    for piece in bytes_of(rt, alloc, text).chunks(size) {
        add_piece(rt, alloc, &mut pieces, piece, apart);
    }
    pieces
}

fn add_piece(rt: &impl Abort, alloc: Global, pieces: &mut Vec<Vec<u8>>, piece: &[u8], apart: bool) {
    let piece = piece.to_vec(alloc).expect(rt, "memory");
    pieces.push(piece).expect(rt, "memory");
    if apart {
        pieces.push(Vec::new(alloc)).expect(rt, "memory");
    }
}

/// Parses the bytes of an input.
pub(crate) fn bytes_of(rt: &impl Abort, alloc: Global, text: &str) -> Vec<u8> {
    let mut bytes = Vec::new(alloc);
    for word in input_of(text).split_whitespace() {
        add_word(rt, &mut bytes, word);
    }
    bytes
}

// Returns the words of an input. Any other text is words itself.
fn input_of(text: &str) -> &str {
    match text {
        "BAD_TYPE" => BAD_TYPE,
        "WIDE" => WIDE,
        "MANY" => MANY,
        "LARGE" => LARGE,
        _ => text,
    }
}

fn add_word(rt: &impl Abort, bytes: &mut Vec<u8>, word: &str) {
    let (word, times) = word.split_once('*').unwrap_or((word, "1"));
    let digits = digits_of(rt, word);
    for turn in 0..number_of(rt, times) {
        add_digits(rt, bytes, digits, turn);
    }
}

fn add_digits(rt: &impl Abort, bytes: &mut Vec<u8>, digits: &str, turn: u32) {
    for pair in digits.as_bytes().chunks(2) {
        bytes.push(byte_of(rt, pair, turn)).expect(rt, "memory");
    }
}

fn byte_of(rt: &impl Abort, pair: &[u8], turn: u32) -> u8 {
    if pair == b"nn".as_slice() {
        return u8::try_from(turn).expect(rt, "a byte");
    }
    let pair = str::from_utf8(pair).expect(rt, "digits");
    u8::from_str_radix(pair, 16).expect(rt, "a byte")
}

// Returns the digits of a word. It may be a range of a module.
fn digits_of<'a>(rt: &impl Abort, word: &'a str) -> &'a str {
    let Some((name, range)) = word.split_once(':') else {
        return module_of(word);
    };
    let (from, to) = parts_of(rt, range, "-");
    let (from, to) = (place_of(rt, from), place_of(rt, to));
    module_of(name).get(from..to).expect(rt, "a range")
}

// The index of the first digit of this byte.
fn place_of(rt: &impl Abort, word: &str) -> usize {
    usize::from(word.parse::<u8>().expect(rt, "a number")) * 2
}

// Returns the digits of a module. Any other word is digits itself.
fn module_of(word: &str) -> &str {
    match word {
        "H" => HEADER,
        "ADD" => ADD,
        "EVERY" => EVERY,
        _ => word,
    }
}
