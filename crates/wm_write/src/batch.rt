//! A small buffer for output, which one `put` writes out.

ghost use Rattle.std.specs.Prelude.{◌≡◌, ◌+◌, ◌<◌, ◌≤◌, [], ◌∷◌, ◌++◌, decimal, length};
ghost use Rattle.std.specs.Fmt.{signed_decimal};

use itoa::{Buffer, Integer};
use std::marker::Model;

/// The capacity of a batch, in bytes.
pub(crate) const ROOM: usize = 64;

/// A buffer of at most 64 bytes. Contracts see it as a list of bytes.
#[derive(Drop)]
pub(crate) struct Batch {
    bytes: [u8; ROOM],
    len: usize,
}

impl Model for Batch {
    ghost use Rattle.std.specs.Prelude.{ℕ, List, take, ◌≤◌};

    ghost Value = { List ℕ };

    ghost view = { λ b. take b.len b.bytes };

    ghost invariant = { λ b. b.len ≤ 64 };
}

impl Batch {
    pub(crate) fn new() -> Self
        ensures { result ≡ [] }
    {
        Batch {
            bytes: [0; ROOM],
            len: 0,
        }
    }

    pub(crate) fn as_slice(&self) -> &[u8]
        ensures { result.now ≡ self.now }
    {
        &self.bytes[..self.len]
    }

    pub(crate) fn len(&self) -> usize
        ensures { result ≡ length self.now }
    {
        self.len
    }

    pub(crate) fn clear(&mut self)
        ensures { self.new ≡ [] }
    {
        self.len = 0;
    }

    pub(crate) fn push(&mut self, bytes: &[u8])
        requires { length self.old + length bytes.now ≤ 64 }
        ensures { self.new ≡ self.old ++ bytes.now }
    {
        let end = self.len + bytes.len();
        self.bytes[self.len..end].copy_from_slice(bytes);
        self.len = end;
    }

    pub(crate) fn push_byte(&mut self, byte: u8)
        requires { length self.old < 64 }
        ensures { self.new ≡ self.old ++ byte ∷ [] }
    {
        self.bytes[self.len] = byte;
        self.len += 1;
    }

    #[inline(always)]
    pub(crate) fn push_two(&mut self, first: u8, second: u8)
        requires { length self.old + 2 ≤ 64 }
        ensures { self.new ≡ self.old ++ first ∷ second ∷ [] }
    {
        let len = self.len;
        self.bytes[len] = first;
        self.bytes[len + 1] = second;
        self.len = len + 2;
    }

    // Appends a number in decimal.
    fn push_digits<I: Integer>(&mut self, n: I)
        requires { length self.old + I.MAX_STR_LEN ≤ 64 }
        ensures text { self.new ≡ self.old ++ I.text n }
        ensures short { length self.new ≤ length self.old + I.MAX_STR_LEN }
    {
        let mut buffer = Buffer::new();
        self.push(buffer.format(n).as_bytes());
    }

    /// Appends some bytes and an index in decimal. An index below 100 takes a fast path.
    #[inline(always)]
    pub(crate) fn push_index(&mut self, front: &[u8], n: u32)
        requires { length self.old + (length front.now + 10) ≤ 64 }
        ensures text { self.new ≡ self.old ++ (front.now ++ decimal n) }
        ensures short { length self.new ≤ length self.old + (length front.now + 10) }
    {
        self.push(front);
        if n < 10 {
            self.push_byte(b'0' + n as u8);
        } else if n < 100 {
            self.push_two(b'0' + (n / 10) as u8, b'0' + (n % 10) as u8);
        } else {
            self.push_digits(n);
        }
    }

    /// Appends some bytes and a constant in decimal. A constant from 0 to 99 takes a fast path.
    #[inline(always)]
    pub(crate) fn push_constant(&mut self, front: &[u8], value: i32)
        requires { length self.old + (length front.now + 11) ≤ 64 }
        ensures text { self.new ≡ self.old ++ (front.now ++ signed_decimal value) }
        ensures short { length self.new ≤ length self.old + (length front.now + 11) }
    {
        if value >= 0 && value < 100 {
            self.push_index(front, value as u32);
        } else {
            self.push_counted(front, value);
        }
    }

    /// Appends some bytes and a number in decimal. It is inlined, since the length of `front` is a constant at each
    /// call.
    #[inline(always)]
    pub(crate) fn push_counted<I: Integer>(&mut self, front: &[u8], n: I)
        requires { length self.old + (length front.now + I.MAX_STR_LEN) ≤ 64 }
        ensures text { self.new ≡ self.old ++ (front.now ++ I.text n) }
        ensures short { length self.new ≤ length self.old + (length front.now + I.MAX_STR_LEN) }
    {
        self.push(front);
        self.push_digits(n);
    }
}
