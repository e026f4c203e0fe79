//! The widths of the floats among the operands.

ghost use Rattle.std.specs.Prelude.{◌≡◌, ◌≢◌, ℕ, ◌/◌, ◌%◌, ◌<◌, ◌≤◌, true, false, [], IfErr, OnErr, OnOk};
ghost use Rattle.std.specs.Prelude.{length, nat_eq, slice_index};
ghost use Rattle.std.specs.Int.{bit_at};
ghost use Rattle.wm_stacks.specs.inner.Widths.{Written, is_wide, words_of};

use std::alloc::Global;
use wm_syntax::why::Why;

// The number of operands with a bit in one word.
const BITS: usize = 64;

/// The number of operands with a bit in the first word.
pub(crate) const IN_FIRST: usize = BITS;

/// For each operand that is a float, whether it is an f64. The bits of other operands mean nothing.
///
/// Operand i has bit i % 64 of word i / 64. Words are made when an f64 is pushed. A word that was not made
/// has no bit set.
#[derive(Debug, Drop)]
pub(crate) struct Widths {
    // Word 0, which is inline.
    first: u64,
    // The words from word 1 on.
    rest: Vec<u64>,
}

impl Widths {
    /// Returns widths with the first word only.
    pub fn new(alloc: Global) -> Self
        ensures { result.rest.items ≡ [] }
    {
        Widths {
            first: 0,
            rest: Vec::new(alloc),
        }
    }

    /// Removes all words but the first. Their memory is kept.
    pub fn forget(&mut self)
        ensures { self.new.rest.items ≡ [] }
    {
        self.rest.clear();
    }

    /// Whether the operand with this index is an f64, if it is a float.
    #[inline(always)]
    pub fn is_wide(&self, at: usize) -> bool
        ensures { result ≡ is_wide self.now at }
    {
        let bits = self.word(at / BITS);
        (bits >> (at % BITS)) & 1 == 1
    }

    /// Records that the operand with this index is an f32.
    #[inline(always)]
    pub fn narrow(&mut self, at: usize)
        ensures { Written at false self.old self.new }
    {
        let index = at / BITS;
        let made = self.rest.len();
        if made < index {
            return;
        }
        self.put(at, false);
    }

    /// Records that the operand with this index is an f64. Fails with `Memory` only if a word is needed that
    /// is not inline. An error changes no width.
    #[inline(always)]
    pub fn widen(&mut self, at: usize) -> Result<(), Why>
        ensures ok { OnOk result (Written at true self.old self.new) }
        ensures err { IfErr result (λ why. (why ≡ Why.Memory)
            × ((i : ℕ) → is_wide self.new i ≡ is_wide self.old i)) }
        ensures near { OnErr result (64 ≤ at) }
    {
        match lengthen(&mut self.rest, at / BITS) {
            Ok(()) => {
                self.put(at, true);
                Ok(())
            }
            Err(why) => Err(why),
        }
    }

    /// Writes the bit of an operand into its word, which must exist.
    #[inline(always)]
    pub fn put(&mut self, at: usize, wide: bool)
        requires { at / 64 ≤ length self.old.rest.items }
        ensures { Written at wide self.old self.new }
    {
        let index = at / BITS;
        let old = self.word(index);
        let word = with_bit(old, at, wide);
        if index == 0 {
            self.first = word;
            return;
        }
        self.rest[index - 1] = word;
    }

    // The word with this index, or 0 if it was not made.
    #[inline(always)]
    fn word(&self, index: usize) -> u64
        ensures { result ≡ slice_index (words_of self.now) index }
    {
        if index == 0 {
            self.first
        } else {
            word_in(&self.rest, index - 1)
        }
    }
}

#[inline(never)]
fn word_in(words: &[u64], index: usize) -> u64
    ensures { result ≡ slice_index words.now index }
{
    words.get(index).copied().unwrap_or(0)
}

// The word with the bit of an operand set or cleared.
#[inline(always)]
fn with_bit(word: u64, at: usize, wide: bool) -> u64
    ensures there { nat_eq (bit_at result (at % 64)) 1 ≡ wide }
    ensures others { (i : ℕ) → i < 64 → i ≢ at % 64 → bit_at result i ≡ bit_at word i }
{
    let bit = 1 << (at % BITS);
    if wide { word | bit } else { word & !bit }
}

// Makes words with no bit set, until there are at least `count`.
#[inline(always)]
fn lengthen(words: &mut Vec<u64>, count: usize) -> Result<(), Why>
    ensures same { (i : ℕ) → slice_index words.new.items i ≡ slice_index words.old.items i }
    ensures ok { OnOk result (count ≤ length words.new.items) }
    ensures err { IfErr result (λ why. why ≡ Why.Memory) }
    ensures near { OnErr result (0 < count) }
{
    if count <= words.len() {
        return Ok(());
    }
    make_words(words, count)
}

// Makes the words that are missing. Out of line.
#[inline(never)]
fn make_words(words: &mut Vec<u64>, count: usize) -> Result<(), Why>
    requires { length words.old.items < count }
    ensures same { (i : ℕ) → slice_index words.new.items i ≡ slice_index words.old.items i }
    ensures ok { OnOk result (length words.new.items ≡ count) }
    ensures err { IfErr result (λ why. why ≡ Why.Memory) }
{
    words.resize(count, 0)?;
    Ok(())
}
