//! Numbers in LEB128, read one byte at a time (Core spec 5.2.2).

ghost use Rattle.wm_syntax.specs.Leb128.{FitsBits, Signed, Unsigned};
ghost use Rattle.std.specs.Prelude.{ℕ, List, [], ◌∷◌, ◌++◌, pos, ◌-ℤ◌, ◌≡◌, ◌+◌, ◌-◌, ◌*◌, ◌^◌, ◌<◌, ◌≤◌};
ghost use Rattle.std.specs.Prelude.{◌↔◌, true, nat_lt, nat_le, length};
ghost use Rattle.std.specs.List.{prefix_len};
ghost use Rattle.wm_syntax.specs.Reading.{Answers, IfDone};
ghost use Rattle.wm_syntax.specs.exact.Reading.{fresh, go_on, last_signed, signed_push, unsigned_push};
ghost use Rattle.wm_syntax.specs.inner.Numbers.{SignedAfter, UnsignedAfter};

use std::marker::Model;

pub mod lengths;

/// The answer of a number reader to one byte.
#[derive(Clone, Copy, PartialEq, Eq, Debug)]
pub enum Step<T> {
    /// The number needs more bytes.
    More,
    /// The number ends with this byte.
    Done(T),
    /// No number begins with these bytes.
    Bad,
}

/// Reads a number of any width up to 64 bits (Core spec 5.2.2). It retains none of the bytes. Each of the
/// other readers of this module is this one at a fixed width.
#[derive(Clone, Copy, Debug)]
pub struct Leb128 {
    low: u64,
    count: u8,
}

impl Model for Leb128 {
    ghost use Rattle.std.specs.Prelude.{◌≤◌, ◌<◌, ◌^◌, ◌*◌};
    ghost use Rattle.wm_syntax.specs.inner.Numbers.{Partial};

    ghost Value = { Partial };

    ghost view = { λ r. record { low = r.low; count = r.count } };

    ghost inverse = { λ r. record { low = r.low; count = r.count } };

    ghost invariant = { λ r. (r.count ≤ 10) × (r.low < 2 ^ (7 * r.count)) };
}

// The state after the last byte: 10 bytes are the most that a number of 64 bits has.
const OVER: Leb128 = Leb128 { low: 0, count: 10 };

/// The weight of the lowest bit of the byte with this index, the first being 0.
fn weight(place: u8) -> u64
    requires { place < 10 }
    ensures { result ≡ 2 ^ (7 * place) }
{
    1 << (7 * place)
}

/// Whether the last byte of an unsigned number fits the `bits` bits that are left.
fn fits(bits: u8, byte: u8) -> bool
    requires { byte < 2 ^ 7 }
    ensures { result ≡ nat_lt byte (2 ^ bits) }
{
    bits > 6 || byte < 1 << bits
}

/// Whether the last byte of a negative number fits: it counts as `byte` - 2^7, which must be at least
/// -2^`bits`.
fn fits_below(bits: u8, byte: u8) -> bool
    requires from { 2 ^ 6 ≤ byte }
    requires below { byte < 2 ^ 7 }
    ensures { result ≡ nat_le (2 ^ 7) (byte + 2 ^ bits) }
{
    bits > 5 || 0x80 <= byte + (1 << bits)
}

impl Leb128 {
    /// Returns a reader that has read no byte.
    pub fn new() -> Self
        ensures unsigned { (bits : ℕ) → 0 < bits → UnsignedAfter bits result [] }
        ensures signed { (bits : ℕ) → 0 < bits → SignedAfter bits result [] }
        ensures fresh { result ≡ fresh }
    {
        Leb128 { low: 0, count: 0 }
    }

    fn is_new(self) -> bool
        ensures { (result ≡ true) ↔ (self ≡ fresh) }
    {
        self.count == 0
    }

    /// Takes a byte that is not the last one.
    fn more<T>(self, bits: u8, byte: u8) -> (Step<T>, Self)
        requires bits { bits ≤ 64 }
        requires byte { 2 ^ 7 ≤ byte }
        ensures { result ≡ go_on bits self byte }
    {
        if 7 * self.count + 7 < bits {
            let low = self.low + u64::from(byte - 0x80) * weight(self.count);
            let count = self.count + 1;
            (Step::More, Leb128 { low, count })
        } else {
            (Step::Bad, OVER)
        }
    }

    #[tactic(auto, unfolding(crate::specs::exact::Reading::unsigned_push))]
    fn advance_unsigned(self, bits: u8, byte: u8) -> (Step<u64>, Self)
        requires { bits ≤ 64 }
        ensures { result ≡ unsigned_push bits self byte }
    {
        if 7 * self.count >= bits {
            (Step::Bad, OVER)
        } else if byte >= 0x80 {
            self.more(bits, byte)
        } else if fits(bits - 7 * self.count, byte) {
            (
                Step::Done(self.low + u64::from(byte) * weight(self.count)),
                OVER,
            )
        } else {
            (Step::Bad, OVER)
        }
    }

    /// Returns the number that ends with this byte, whose sign bit is clear.
    #[inline(always)]
    fn positive(self, byte: u8) -> i64
        requires place { self.count < 10 }
        requires room { (byte + 1) * 2 ^ (7 * self.count) ≤ 2 ^ 63 }
        ensures { result ≡ last_signed self (pos byte) }
    {
        (self.low + u64::from(byte) * weight(self.count)) as i64
    }

    /// Returns the number that ends with this byte, whose sign bit is set: -1 minus the number with all bits
    /// inverted.
    #[inline(always)]
    fn negative(self, byte: u8) -> i64
        requires place { self.count < 10 }
        requires byte { byte < 2 ^ 7 }
        requires room { (2 ^ 7 - byte) * 2 ^ (7 * self.count) ≤ 2 ^ 63 }
        ensures { result ≡ last_signed self (pos byte -ℤ pos (2 ^ 7)) }
    {
        let weight = weight(self.count);
        let inverted = u64::from(0x7F - byte) * weight + (weight - 1 - self.low);
        -1 - inverted as i64
    }

    #[inline(always)]
    #[tactic(auto, unfolding(crate::specs::exact::Reading::signed_push))]
    fn advance_signed(self, bits: u8, byte: u8) -> (Step<i64>, Self)
        requires { bits ≤ 64 }
        ensures { result ≡ signed_push bits self byte }
    {
        if 7 * self.count >= bits {
            return (Step::Bad, OVER);
        }
        let left = bits - 7 * self.count - 1;
        if byte >= 0x80 {
            self.more(bits, byte)
        } else if byte < 0x40 && fits(left, byte) {
            (Step::Done(self.positive(byte)), OVER)
        } else if byte >= 0x40 && fits_below(left, byte) {
            (Step::Done(self.negative(byte)), OVER)
        } else {
            (Step::Bad, OVER)
        }
    }

    /// Takes the next byte of an unsigned number of `bits` bits, at most 64.
    pub fn push_unsigned(&mut self, bits: u8, byte: u8) -> Step<u64>
        requires { bits ≤ 64 }
        ensures answers { (before : List ℕ) → UnsignedAfter bits self.old before
            → Answers (Unsigned bits) result (before ++ byte ∷ []) }
        ensures after { (before : List ℕ) → UnsignedAfter bits self.old before
            → UnsignedAfter bits self.new (before ++ byte ∷ []) }
        ensures pushed { (result, self.new) ≡ unsigned_push bits self.old byte }
        ensures range { IfDone result (λ n. n < 2 ^ bits) }
    {
        // Reads a field, so that the proof can use the invariant.
        let _ = &self.low;
        let (step, next) = self.advance_unsigned(bits, byte);
        *self = next;
        step
    }

    /// Takes the next byte of a signed number of `bits` bits, at most 64.
    #[inline(always)]
    pub fn push_signed(&mut self, bits: u8, byte: u8) -> Step<i64>
        requires { bits ≤ 64 }
        ensures answers { (before : List ℕ) → SignedAfter bits self.old before
            → Answers (Signed bits) result (before ++ byte ∷ []) }
        ensures after { (before : List ℕ) → SignedAfter bits self.old before
            → SignedAfter bits self.new (before ++ byte ∷ []) }
        ensures pushed { (result, self.new) ≡ signed_push bits self.old byte }
        ensures range { IfDone result (FitsBits bits) }
    {
        // Reads a field, so that the proof can use the invariant.
        let _ = &self.low;
        let (step, next) = self.advance_signed(bits, byte);
        *self = next;
        step
    }
}

/// Narrows the answer to a u32.
fn narrow(step: Step<u64>) -> Step<u32>
    requires { IfDone step (λ n. n < 2 ^ 32) }
    ensures { result ≡ step }
{
    match step {
        Step::More => Step::More,
        Step::Done(n) => Step::Done(n as u32),
        Step::Bad => Step::Bad,
    }
}

/// Narrows the answer to an i32.
#[inline(always)]
fn narrow_signed(step: Step<i64>) -> Step<i32>
    requires { IfDone step (FitsBits 32) }
    ensures { result ≡ step }
{
    match step {
        Step::More => Step::More,
        Step::Done(n) => Step::Done(n as i32),
        Step::Bad => Step::Bad,
    }
}

/// Reads one u32, one byte at a time (Core spec 5.2.2). It retains none of the bytes.
#[derive(Clone, Copy, Debug)]
pub struct Num32 {
    bytes: Leb128,
}

impl Model for Num32 {
    ghost use Rattle.wm_syntax.specs.inner.Numbers.{Partial};

    ghost Value = { Partial };

    ghost view = { λ r. r.bytes };

    ghost inverse = { λ r. record { bytes = r } };
}

impl Num32 {
    /// Returns a reader that has read no byte.
    pub fn new() -> Self
        ensures after { UnsignedAfter 32 result [] }
        ensures fresh { result ≡ fresh }
    {
        let bytes = Leb128::new();
        Num32 { bytes }
    }

    /// Whether the reader has read no byte.
    pub fn is_new(&self) -> bool
        ensures { (result ≡ true) ↔ (self.now ≡ fresh) }
    {
        self.bytes.is_new()
    }

    /// Returns the least number that begins with the bytes so far.
    pub fn least(&self) -> u64
        ensures { result ≡ self.now.low }
    {
        self.bytes.low
    }

    /// Takes the next byte. After `Done` and `Bad` the answer is always `Bad`.
    pub fn push(&mut self, byte: u8) -> Step<u32>
        ensures answers { (before : List ℕ) → UnsignedAfter 32 self.old before
            → Answers (Unsigned 32) result (before ++ byte ∷ []) }
        ensures after { (before : List ℕ) → UnsignedAfter 32 self.old before
            → UnsignedAfter 32 self.new (before ++ byte ∷ []) }
        ensures pushed { (result, self.new) ≡ unsigned_push 32 self.old byte }
    {
        narrow(self.bytes.push_unsigned(32, byte))
    }
}

/// Returns how many bytes at the front are below 2^7. Each of them is a whole u32 (Core spec 5.2.2).
pub fn short_front(bytes: &[u8]) -> usize
    ensures value { result ≡ prefix_len (λ c. nat_lt c (2 ^ 7)) bytes.now }
    ensures within { result ≤ length bytes.now }
{
    bytes.iter().take_while(|b| **b < 0x80).count()
}

/// Reads one u64, one byte at a time (Core spec 5.2.2). It retains none of the bytes.
#[derive(Clone, Copy, Debug)]
pub struct Num64 {
    bytes: Leb128,
}

impl Model for Num64 {
    ghost use Rattle.wm_syntax.specs.inner.Numbers.{Partial};

    ghost Value = { Partial };

    ghost view = { λ r. r.bytes };

    ghost inverse = { λ r. record { bytes = r } };
}

impl Num64 {
    /// Returns a reader that has read no byte.
    pub fn new() -> Self
        ensures after { UnsignedAfter 64 result [] }
        ensures fresh { result ≡ fresh }
    {
        let bytes = Leb128::new();
        Num64 { bytes }
    }

    /// Takes the next byte. After `Done` and `Bad` the answer is always `Bad`.
    pub fn push(&mut self, byte: u8) -> Step<u64>
        ensures answers { (before : List ℕ) → UnsignedAfter 64 self.old before
            → Answers (Unsigned 64) result (before ++ byte ∷ []) }
        ensures after { (before : List ℕ) → UnsignedAfter 64 self.old before
            → UnsignedAfter 64 self.new (before ++ byte ∷ []) }
        ensures pushed { (result, self.new) ≡ unsigned_push 64 self.old byte }
    {
        self.bytes.push_unsigned(64, byte)
    }
}

/// Reads one s32, one byte at a time (Core spec 5.2.2). It retains none of the bytes.
#[derive(Clone, Copy, Debug)]
pub struct Int32 {
    bytes: Leb128,
}

impl Model for Int32 {
    ghost use Rattle.wm_syntax.specs.inner.Numbers.{Partial};

    ghost Value = { Partial };

    ghost view = { λ r. r.bytes };

    ghost inverse = { λ r. record { bytes = r } };
}

impl Int32 {
    /// Returns a reader that has read no byte.
    pub fn new() -> Self
        ensures after { SignedAfter 32 result [] }
        ensures fresh { result ≡ fresh }
    {
        let bytes = Leb128::new();
        Int32 { bytes }
    }

    /// Takes the next byte. After `Done` and `Bad` the answer is always `Bad`.
    #[inline(always)]
    pub fn push(&mut self, byte: u8) -> Step<i32>
        ensures answers { (before : List ℕ) → SignedAfter 32 self.old before
            → Answers (Signed 32) result (before ++ byte ∷ []) }
        ensures after { (before : List ℕ) → SignedAfter 32 self.old before
            → SignedAfter 32 self.new (before ++ byte ∷ []) }
        ensures pushed { (result, self.new) ≡ signed_push 32 self.old byte }
    {
        narrow_signed(self.bytes.push_signed(32, byte))
    }
}

/// Reads one s64, one byte at a time (Core spec 5.2.2). It retains none of the bytes.
#[derive(Clone, Copy, Debug)]
pub struct Int64 {
    bytes: Leb128,
}

impl Model for Int64 {
    ghost use Rattle.wm_syntax.specs.inner.Numbers.{Partial};

    ghost Value = { Partial };

    ghost view = { λ r. r.bytes };

    ghost inverse = { λ r. record { bytes = r } };
}

impl Int64 {
    /// Returns a reader that has read no byte.
    pub fn new() -> Self
        ensures after { SignedAfter 64 result [] }
        ensures fresh { result ≡ fresh }
    {
        let bytes = Leb128::new();
        Int64 { bytes }
    }

    /// Takes the next byte. After `Done` and `Bad` the answer is always `Bad`.
    #[inline(always)]
    pub fn push(&mut self, byte: u8) -> Step<i64>
        ensures answers { (before : List ℕ) → SignedAfter 64 self.old before
            → Answers (Signed 64) result (before ++ byte ∷ []) }
        ensures after { (before : List ℕ) → SignedAfter 64 self.old before
            → SignedAfter 64 self.new (before ++ byte ∷ []) }
        ensures pushed { (result, self.new) ≡ signed_push 64 self.old byte }
    {
        self.bytes.push_signed(64, byte)
    }
}
