//! Pseudo-random numbers.

/// A sequence of numbers that the seed determines: SplitMix64 of Steele, Lea and Flood (2014).
#[derive(Clone, Copy)]
pub struct Random {
    state: u64,
}

impl Random {
    pub fn new(seed: u64) -> Self {
        Random { state: seed }
    }

    pub fn word(&mut self) -> u64 {
        self.state = self.state.wrapping_add(0x9e37_79b9_7f4a_7c15);
        let mixed = (self.state ^ (self.state >> 30)).wrapping_mul(0xbf58_476d_1ce4_e5b9);
        let mixed = (mixed ^ (mixed >> 27)).wrapping_mul(0x94d0_49bb_1331_11eb);
        mixed ^ (mixed >> 31)
    }

    /// Returns a number below `end`, or 0 if `end` is 0.
    pub fn below(&mut self, end: usize) -> usize {
        let word = self.word() as usize;
        if end == 0 { 0 } else { word % end }
    }

    /// Returns a number of 32 bits.
    pub fn number(&mut self) -> u32 {
        (self.word() & 0xffff_ffff) as u32
    }

    pub fn byte(&mut self) -> u8 {
        (self.word() & 0xff) as u8
    }
}
