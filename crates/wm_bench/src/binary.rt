//! Builds a module in the binary format, section by section.

use std::alloc::{AllocError, Global};

const HEADER: &[u8] = &[0, 0x61, 0x73, 0x6d, 1, 0, 0, 0];

/// Appends an unsigned number in the fewest bytes. Core spec 5.2.2.
fn put_number(bytes: &mut Vec<u8>, number: u32) -> Result<(), AllocError> {
    let mut left = number;
    for _ in 0..4 {
        if left < 0x80 {
            break;
        }
        bytes.push((left & 0x7f) as u8 | 0x80)?;
        left >>= 7;
    }
    bytes.push((left & 0x7f) as u8)?;
    Ok(())
}

/// The bytes of a module, and the contents of the open section.
#[derive(Drop)]
pub struct Binary {
    pub bytes: Vec<u8>,
    contents: Vec<u8>,
}

impl Binary {
    pub fn new(alloc: Global) -> Self {
        Binary {
            bytes: Vec::new(alloc),
            contents: Vec::new(alloc),
        }
    }

    /// Starts a new module.
    pub fn clear(&mut self) -> Result<(), AllocError> {
        self.bytes.clear();
        self.contents.clear();
        self.bytes.extend_from_slice(HEADER)
    }

    pub fn number(&mut self, number: u32) -> Result<(), AllocError> {
        put_number(&mut self.contents, number)
    }

    /// Appends a constant that is not negative, from the low 30 bits of `number`.
    pub fn constant(&mut self, number: u32) -> Result<(), AllocError> {
        // A last byte of 64 or more would make the constant negative, so it is halved.
        let high = number & 0x3fff_ffff;
        for shift in [7u32, 14, 21, 28] {
            if high.wrapping_shr(shift) == 0 && high.wrapping_shr(shift.wrapping_sub(1)) & 1 == 1 {
                return put_number(&mut self.contents, high.wrapping_shr(1));
            }
        }
        put_number(&mut self.contents, high)
    }

    pub fn raw(&mut self, bytes: &[u8]) -> Result<(), AllocError> {
        self.contents.extend_from_slice(bytes)
    }

    /// Ends the open section, which gets this id.
    pub fn section(&mut self, id: u8) -> Result<(), AllocError> {
        self.bytes.push(id)?;
        let size = u32::try_from(self.contents.len()).unwrap_or(u32::MAX);
        put_number(&mut self.bytes, size)?;
        self.bytes.extend_from_slice(&self.contents)?;
        self.contents.clear();
        Ok(())
    }

    /// Ends the open section as a code section of one entry, with these locals. The contents become its body.
    pub fn one_body(&mut self, locals: &[(u32, u8)]) -> Result<(), AllocError> {
        let mut body = std::mem::replace(&mut self.contents, Vec::new(*self.bytes.allocator()));
        self.number(u32::try_from(locals.len()).unwrap_or(0))?;
        for (count, kind) in locals {
            self.number(*count)?;
            self.raw(&[*kind])?;
        }
        self.contents.extend_from_slice(&body)?;
        body.clear();
        let size = u32::try_from(self.contents.len()).unwrap_or(u32::MAX);
        put_number(&mut body, 1)?;
        put_number(&mut body, size)?;
        body.extend_from_slice(&self.contents)?;
        self.contents = body;
        self.section(10)
    }
}
