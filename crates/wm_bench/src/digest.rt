//! A digest of all answers.

use std::io;
use std::io::Write;
use wm_decode::Refusal;
use wm_rules::Summary;

/// A 64-bit digest of bytes and numbers in their order. It does not depend on how the bytes are cut.
#[derive(Clone, Copy, Drop)]
pub struct Digest {
    state: u64,
    /// The bytes that do not fill a word yet, the first one lowest.
    part: u64,
    /// The number of bits in `part`.
    bits: u32,
    /// The number of refusals.
    pub refused: u64,
}

impl Digest {
    pub fn new() -> Self {
        Digest {
            state: 0,
            part: 0,
            bits: 0,
            refused: 0,
        }
    }

    fn word(&mut self, word: u64) {
        self.state = (self.state ^ word)
            .wrapping_mul(0x9e37_79b9_7f4a_7c15)
            .rotate_left(29);
    }

    fn byte(&mut self, byte: u8) {
        self.part |= u64::from(byte).wrapping_shl(self.bits);
        if self.bits == 56 {
            let word = self.part;
            self.word(word);
            self.part = 0;
            self.bits = 0;
        } else {
            self.bits = self.bits.wrapping_add(8);
        }
    }

    fn eight(&mut self, word: u64) {
        if self.bits == 0 {
            self.word(word);
        } else {
            self.word(self.part | word.wrapping_shl(self.bits));
            self.part = word.wrapping_shr(64u32.wrapping_sub(self.bits));
        }
    }

    /// Appends bytes to the input.
    pub fn bytes(&mut self, bytes: &[u8]) {
        for chunk in bytes.chunks(8) {
            match chunk {
                [a, b, c, d, e, f, g, h] => {
                    self.eight(u64::from_le_bytes([*a, *b, *c, *d, *e, *f, *g, *h]));
                }
                short => {
                    for byte in short {
                        self.byte(*byte);
                    }
                }
            }
        }
    }

    pub fn number(&mut self, number: u64) {
        self.eight(number);
    }

    pub fn refusal(&mut self, refusal: &Refusal) {
        self.refused = self.refused.wrapping_add(1);
        self.number(refusal.at);
        self.bytes(refusal.why.name().as_bytes());
    }

    pub fn summary(&mut self, summary: &Summary) {
        let Summary {
            functions,
            moves,
            operands,
            controls,
            probes,
        } = summary;
        for figure in [*functions, *moves, *operands, *controls, *probes] {
            self.number(figure);
        }
    }

    /// Returns the digest of the input up to here.
    pub fn value(&self) -> u64 {
        let Digest { part, bits, .. } = *self;
        let mut last = *self;
        last.word(part);
        last.word(u64::from(bits));
        last.state
    }
}

/// A writer that appends all bytes to a digest.
#[derive(Drop)]
pub struct Digester<'a> {
    pub digest: &'a mut Digest,
}

impl Write for Digester<'_> {
    fn write(&mut self, buf: &[u8]) -> io::Result<usize> {
        self.digest.bytes(buf);
        Ok(buf.len())
    }

    fn flush(&mut self) -> io::Result<()> {
        Ok(())
    }
}
