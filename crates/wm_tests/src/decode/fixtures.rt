//! Parses the bytes of rows.

use std::alloc::{AllocError, Global};

pub const HEADER: [u8; 8] = [0x00, 0x61, 0x73, 0x6D, 0x01, 0x00, 0x00, 0x00];

fn digit(c: u8) -> u8 {
    match c {
        b'0'..=b'9' => c - b'0',
        b'A'..=b'F' => c - b'A' + 10,
        _ => 0,
    }
}

/// Parses bytes in hexadecimal digits, with H for the header. It has no contract: only tests use it, and their rows
/// cover it.
pub fn bytes_of(alloc: Global, words: &str) -> Result<Vec<u8>, AllocError> {
    let mut bytes = Vec::new(alloc);
    for word in words.split_whitespace() {
        match word.as_bytes() {
            b"H" => bytes.extend_from_slice(&HEADER)?,
            [high, low] => bytes.push(digit(*high).wrapping_mul(16).wrapping_add(digit(*low)))?,
            _ => {}
        }
    }
    Ok(bytes)
}
