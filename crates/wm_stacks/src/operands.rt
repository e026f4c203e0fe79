//! The operands of a body, and the floor above which they may be taken.

ghost use Rattle.std.specs.Prelude.{◌≡◌, ◌≢◌, ◌-◌, ◌%◌, ◌^◌, ◌<◌, ◌≤◌, IsTrue, Bool, [], ◌∷◌, Some, IfErr};
ghost use Rattle.std.specs.Prelude.{OnErr, OnOk, IfSome, MatchOption, true, drop, length, option_map};
ghost use Rattle.wm_stacks.specs.Stack.{fits};
ghost use Rattle.wm_stacks.specs.exact.Stacks.{first, rest};
ghost use Rattle.wm_stacks.specs.exact.FastPaths.{DoneOrLeft};
ghost use Rattle.wm_stacks.specs.inner.Operands.{IsTold, PushesEntry, ReplacesEntries, entry_of, kind_of};
ghost use Rattle.wm_stacks.specs.inner.Widths.{is_wide};

use crate::packed::Packed;
use crate::stack_entries::Entry;
use crate::widths::{IN_FIRST, Widths};
use crate::words::Kind;
use std::alloc::Global;
use std::marker::Model;
use wm_syntax::types::ValType;
use wm_syntax::why::Why;

/// The operands of a body, and the floor of its innermost frame.
///
/// Two bits for each operand give its kind: i32, i64, a float, or unknown. The width of a float is held
/// separately, so that a body without floats needs only those bits. Contracts see the list of the operands,
/// the topmost first, and the floor.
#[derive(Debug, Drop)]
pub(crate) struct Operands {
    packed: Packed,
    widths: Widths,
}

impl Model for Operands {
    ghost use Rattle.wm_stacks.specs.inner.Operands.{Floored, operands_of};

    ghost Value = { Floored };

    ghost view = { λ o. operands_of o.packed o.widths };
}

impl Operands {
    /// Returns a stack without operands, with the floor at 0.
    pub fn new(alloc: Global) -> Self
        ensures { result ≡ record { entries = []; floor = 0 } }
    {
        let packed = Packed::new(alloc);
        let widths = Widths::new(alloc);
        Operands { packed, widths }
    }

    /// Removes all operands, and sets the floor to 0.
    pub fn clear(&mut self)
        ensures { self.new ≡ record { entries = []; floor = 0 } }
    {
        self.packed.clear();
        self.widths.forget();
    }

    /// Returns the number of operands, at most 2^62.
    #[inline(always)]
    pub fn height(&self) -> usize
        ensures height { result ≡ length self.now.entries }
        ensures bounded { result ≤ 2 ^ 62 }
    {
        self.packed.height()
    }

    #[inline(always)]
    pub fn floor(&self) -> usize
        ensures { result ≡ self.now.floor }
    {
        self.packed.floor()
    }

    #[inline(always)]
    pub fn set_floor(&mut self, floor: usize)
        ensures { self.new ≡ record { entries = self.old.entries; floor = floor } }
    {
        self.packed.set_floor(floor);
    }

    /// Pushes an operand. Fails with `Memory` only if a word is needed that is not inline: for kinds, or for
    /// the width of an f64. An error changes nothing.
    #[inline(always)]
    pub fn push(&mut self, entry: Entry) -> Result<(), Why>
        requires { length self.old.entries < 2 ^ 63 }
        ensures ok { OnOk result (self.new ≡ record {
          entries = entry ∷ self.old.entries;
          floor = self.old.floor;
        }) }
        ensures err { IfErr result (λ why. (why ≡ Why.Memory) × (self.new ≡ self.old)) }
        ensures near { OnErr result (64 ≤ length self.old.entries) }
        ensures between { entry ≢ Entry.F64 → OnErr result (length self.old.entries % 32 ≡ 0) }
    {
        let kind = match entry {
            Entry::I32 => Kind::I32,
            Entry::I64 => Kind::I64,
            Entry::Unknown => Kind::Unknown,
            Entry::F32 | Entry::F64 => return self.push_float(entry),
        };
        self.packed.push(kind)
    }

    // Pushes a float. Out of line, so that other operands are pushed faster.
    #[inline(never)]
    fn push_float(&mut self, entry: Entry) -> Result<(), Why>
        requires float { kind_of entry ≡ Kind.Float }
        requires bounded { length self.old.entries < 2 ^ 63 }
        ensures ok { OnOk result (self.new ≡ record {
          entries = entry ∷ self.old.entries;
          floor = self.old.floor;
        }) }
        ensures err { IfErr result (λ why. (why ≡ Why.Memory) × (self.new ≡ self.old)) }
        ensures near { OnErr result (64 ≤ length self.old.entries) }
        ensures between { entry ≢ Entry.F64 → OnErr result (length self.old.entries % 32 ≡ 0) }
    {
        match entry {
            Entry::F64 => self.push_f64(),
            _ => self.push_f32(),
        }
    }

    // Pushes an f32. It clears the bit that an earlier f64 may have left at this index.
    fn push_f32(&mut self) -> Result<(), Why>
        requires { length self.old.entries < 2 ^ 63 }
        ensures ok { OnOk result (self.new ≡ record {
          entries = Entry.F32 ∷ self.old.entries;
          floor = self.old.floor;
        }) }
        ensures err { IfErr result (λ why. (why ≡ Why.Memory) × (self.new ≡ self.old)) }
        ensures near { OnErr result (64 ≤ length self.old.entries) }
        ensures between { OnErr result (length self.old.entries % 32 ≡ 0) }
    {
        let at = self.packed.height();
        self.widths.narrow(at);
        self.packed.push(Kind::Float)
    }

    // Pushes an f64. Its bit is written first, since the bit means nothing if the push of the kind then
    // fails.
    fn push_f64(&mut self) -> Result<(), Why>
        requires { length self.old.entries < 2 ^ 63 }
        ensures ok { OnOk result (self.new ≡ record {
          entries = Entry.F64 ∷ self.old.entries;
          floor = self.old.floor;
        }) }
        ensures err { IfErr result (λ why. (why ≡ Why.Memory) × (self.new ≡ self.old)) }
        ensures near { OnErr result (64 ≤ length self.old.entries) }
    {
        let at = self.packed.height();
        match self.widths.widen(at) {
            Ok(()) => self.packed.push(Kind::Float),
            Err(why) => Err(why),
        }
    }

    /// Pushes this float if the current word has a place for its kind, and the first word of widths has one
    /// for its bit. Otherwise, or if it is no float, returns false and changes nothing.
    #[inline(always)]
    pub fn push_float_fast(&mut self, float: Entry) -> bool
        ensures { DoneOrLeft (PushesEntry float) result self.old self.new }
    {
        let height = self.packed.height();
        if height >= IN_FIRST {
            return false;
        }
        let wide = float == Entry::F64;
        if !is_float(float, wide) {
            return false;
        }
        self.widths.put(height, wide);
        self.packed.push_fast(Kind::Float)
    }

    /// Removes the top operand and pushes the given one, if any. Returns false and changes nothing unless one
    /// word shows that the top operand is above the floor and fits. It also returns false if either is a
    /// float, whose width is in another word.
    #[inline(always)]
    pub fn replace_fast(&mut self, expected: ValType, given: Option<Entry>) -> bool
        ensures { DoneOrLeft (ReplacesEntries (expected ∷ []) given) result self.old self.new }
    {
        let Some(top) = whole_kind(expected) else {
            return false;
        };
        if !has_no_width(given) {
            return false;
        }
        self.packed.replace_fast(top, kind_given(given))
    }

    /// As `replace_fast`, for the two topmost operands.
    #[inline(always)]
    pub fn replace_two_fast(&mut self, under: ValType, top: ValType, given: Option<Entry>) -> bool
        ensures { DoneOrLeft (ReplacesEntries (top ∷ under ∷ []) given) result self.old self.new }
    {
        let Some(second) = whole_kind(under) else {
            return false;
        };
        let Some(first) = whole_kind(top) else {
            return false;
        };
        if !has_no_width(given) {
            return false;
        }
        self.packed
            .replace_two_fast(second, first, kind_given(given))
    }

    /// As `replace_fast`, for a float whose width is in the first word of widths, so that no function has to
    /// be called. If a float is pushed, it must have the type `expected`.
    #[inline(always)]
    pub fn replace_float_fast(&mut self, expected: ValType, given: Option<Entry>) -> bool
        ensures { DoneOrLeft (ReplacesEntries (expected ∷ []) given) result self.old self.new }
    {
        let height = self.packed.height();
        if height == 0 || height > IN_FIRST {
            return false;
        }
        if !is_of_width(expected, self.widths.is_wide(height - 1)) || !is_as_wide(given, expected) {
            return false;
        }
        self.packed.replace_fast(Kind::Float, kind_given(given))
    }

    /// As `replace_float_fast`, for two floats. If a float is pushed, it must have the type of the lower one.
    #[inline(always)]
    pub fn replace_two_floats_fast(
        &mut self,
        under: ValType,
        top: ValType,
        given: Option<Entry>,
    ) -> bool
        ensures { DoneOrLeft (ReplacesEntries (top ∷ under ∷ []) given) result self.old self.new }
    {
        let height = self.packed.height();
        if height < 2 || height > IN_FIRST {
            return false;
        }
        if !is_of_width(top, self.widths.is_wide(height - 1)) {
            return false;
        }
        if !is_of_width(under, self.widths.is_wide(height - 2)) || !is_as_wide(given, under) {
            return false;
        }
        self.packed
            .replace_two_fast(Kind::Float, Kind::Float, kind_given(given))
    }

    /// Returns the top operand, or `None` if there is none above the floor.
    #[inline(always)]
    pub fn top(&self) -> Option<Entry>
        ensures { MatchOption result (length self.now.entries ≤ self.now.floor)
            (λ entry. (self.now.floor < length self.now.entries) × (first self.now.entries ≡ Some entry)) }
    {
        match self.packed.top() {
            Some(kind) => {
                let at = self.packed.height() - 1;
                Some(entry_at(&self.widths, at, kind))
            }
            None => None,
        }
    }

    /// Removes the top operand, if there is one.
    #[inline(always)]
    pub fn pop(&mut self)
        ensures { self.new ≡ record { entries = rest self.old.entries; floor = self.old.floor } }
    {
        self.packed.pop();
    }

    /// Removes the operands above a height.
    #[inline(always)]
    pub fn truncate(&mut self, height: usize)
        ensures { self.new ≡ record {
          entries = drop (length self.old.entries - height) self.old.entries;
          floor = self.old.floor;
        } }
    {
        self.packed.truncate(height);
    }
}

// The kind of the operand to push, if any.
#[inline(always)]
fn kind_given(given: Option<Entry>) -> Option<Kind>
    ensures { result ≡ option_map kind_of given }
{
    match given {
        Some(Entry::I32) => Some(Kind::I32),
        Some(Entry::I64) => Some(Kind::I64),
        Some(Entry::F32 | Entry::F64) => Some(Kind::Float),
        Some(Entry::Unknown) => Some(Kind::Unknown),
        None => None,
    }
}

// The kind of an operand of this type, or `None` for a float.
#[inline(always)]
fn whole_kind(ty: ValType) -> Option<Kind>
    ensures { IfSome result (λ kind. (wide : Bool) → IsTrue (fits (entry_of kind wide) ty)) }
{
    match ty {
        ValType::I32 => Some(Kind::I32),
        ValType::I64 => Some(Kind::I64),
        ValType::F32 | ValType::F64 => None,
    }
}

// The operand with this index, given its kind.
#[inline(always)]
fn entry_at(widths: &Widths, at: usize, kind: Kind) -> Entry
    ensures { result ≡ entry_of kind (is_wide widths.now at) }
{
    match kind {
        Kind::I32 => Entry::I32,
        Kind::I64 => Entry::I64,
        Kind::Unknown => Entry::Unknown,
        Kind::Float => float(widths.is_wide(at)),
    }
}

// Whether this entry is the float of this width.
#[inline(always)]
fn is_float(float: Entry, wide: bool) -> bool
    ensures { result ≡ true → entry_of Kind.Float wide ≡ float }
{
    match float {
        Entry::F64 => wide,
        Entry::F32 => !wide,
        _ => false,
    }
}

// Whether a float of this width has this type.
#[inline(always)]
fn is_of_width(ty: ValType, wide: bool) -> bool
    ensures { result ≡ true → IsTrue (fits (entry_of Kind.Float wide) ty) }
{
    match ty {
        ValType::F64 => wide,
        ValType::F32 => !wide,
        ValType::I32 | ValType::I64 => false,
    }
}

// Whether the operand to push has the width of this type. Also true for non-floats and for none.
#[inline(always)]
fn is_as_wide(given: Option<Entry>, ty: ValType) -> bool
    ensures { result ≡ true → (wide : Bool) → IsTrue (fits (entry_of Kind.Float wide) ty)
        → IsTold given wide }
{
    match given {
        Some(Entry::F64) => ty == ValType::F64,
        Some(Entry::F32) => ty == ValType::F32,
        Some(Entry::I32 | Entry::I64 | Entry::Unknown) => true,
        None => true,
    }
}

// Whether the operand to push is no float. Also true for none.
#[inline(always)]
fn has_no_width(given: Option<Entry>) -> bool
    ensures { result ≡ true → (wide : Bool) → IsTold given wide }
{
    match given {
        Some(Entry::F32 | Entry::F64) => false,
        Some(Entry::I32 | Entry::I64 | Entry::Unknown) => true,
        None => true,
    }
}

fn float(wide: bool) -> Entry
    ensures { result ≡ entry_of Kind.Float wide }
{
    if wide { Entry::F64 } else { Entry::F32 }
}
