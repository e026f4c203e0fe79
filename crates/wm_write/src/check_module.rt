//! Checks a module that was built as a value.

ghost use Rattle.std.specs.List.{list_any};
ghost use Rattle.std.specs.Prelude.{◌≡◌, ◌≢◌, ◌≤◌, ◌^◌, ◌↔◌, Err, IfOk, OnOk, length};
ghost use Rattle.wm_machine.specs.declared.refusal.Refusal.{Refusal};
ghost use Rattle.wm_write.specs.declared.check_module.CheckFault.TheVariants as fault;
ghost use Rattle.wm_rules.specs.Loading.{Loads};
ghost use Rattle.wm_rules.specs.Meanings.{Meaning};
ghost use Rattle.wm_rules.specs.Policies.{Within};
ghost use Rattle.wm_rules.specs.Validation.{Accepted, Valid};
ghost use Rattle.wm_rules.specs.inner.Loaders.{module_in};
ghost use Rattle.wm_rules.specs.inner.Validators.{verdict};
ghost use Rattle.wm_syntax.specs.Profiles.{IsOf};
ghost use Rattle.wm_syntax.specs.Values.{value_of};
ghost use Rattle.wm_syntax.specs.declared.modules.SegmentMode.{SegmentMode as AMode};
ghost use Rattle.wm_syntax.specs.declared.profile.Profile.{Profile};
ghost use Rattle.wm_syntax.specs.declared.why.Why.TheVariants.{Memory};
ghost use Rattle.wm_write.specs.Canon.{FitsUnder, canon, canon_under, has_passive, is_passive, with_flags};
ghost use Rattle.wm_write.specs.declared.in_memory.MakeFault.TheVariants as made;
ghost use Rattle.wm_write.specs.exact.Checking.{SpelledFor};

use crate::encode::sections::name_segment;
use crate::in_memory;
use crate::in_memory::MakeFault;
use std::alloc::Global;
use thiserror::Error;
use wm_decode::Refusal;
use wm_rules::{Checked, Loader, Policy, Validator};
use wm_syntax::modules::{Element, Module, Segment, SegmentMode};
use wm_syntax::profile::{Feature, Profile};
use wm_syntax::why::Why;

// An upper bound on the length of a canonical binary, in bytes.
const MOST: u64 = 1 << 62;

/// Why a module was not checked.
#[derive(Clone, Copy, PartialEq, Eq, Debug, Error)]
pub enum CheckFault {
    /// The module is not valid, not of the profile or not within the policy. The offset is in its
    /// canonical binary as the profile reads it (`canon_under`).
    #[error("{0}")]
    Refused(Refusal),
    /// The contents of a section of that binary have 2^32 bytes or more.
    #[error("a section would have 2^32 bytes or more")]
    TooLarge,
    /// Memory was refused.
    #[error("out of memory")]
    Memory,
}

/// Checks a module value, and returns a loaded module that equals it.
/// Fails with `TooLarge` if and only if the contents of a section would have 2^32 bytes or more. Otherwise, unless
/// memory is refused, it succeeds if and only if the module is valid (Core spec 3.4.10), of the profile and within the
/// policy.
pub fn check(
    alloc: Global,
    profile: Profile,
    policy: Policy,
    m: &Module,
) -> Result<Checked, CheckFault>
    ensures given { IfOk result (λ c. (value_of (module_in c) ≡ value_of m.now)
        × IsOf profile (value_of m.now) × Valid (value_of m.now)
        × Within policy (value_of m.now)) }
    ensures refused { (r : Refusal) → result ≡ Err (fault.Refused r) → IsOf profile (value_of m.now)
        → Valid (value_of m.now)
        → Within policy (value_of m.now) → ⊥ }
    // The refusal is the validator's for the profile's canonical binary, with its name and offset.
    ensures same { (r : Refusal) → result ≡ Err (fault.Refused r)
        → verdict profile (2 ^ 62) policy (canon_under profile (value_of m.now)) ≡ Err r }
    // The meaning of the refusal's name holds for the profile's canonical binary.
    ensures means { (r : Refusal) → result ≡ Err (fault.Refused r)
        → Meaning profile (2 ^ 62) policy (canon_under profile (value_of m.now)) r }
    ensures place { (r : Refusal) → result ≡ Err (fault.Refused r) → (r.why ≢ Memory)
        × (r.at ≤ length (canon_under profile (value_of m.now))) }
    ensures too_large { (result ≡ Err fault.TooLarge) ↔ (¬ FitsUnder profile (value_of m.now)) }
{
    let bytes = encoded(alloc, profile, m)?;
    load(alloc, profile, policy, &bytes)
}

/// Checks a module value, and returns its canonical binary. It fails as `check` does, but builds no second module.
pub fn checked_bytes(
    alloc: Global,
    profile: Profile,
    policy: Policy,
    m: &Module,
) -> Result<Vec<u8>, CheckFault>
    ensures given { IfOk result (λ b. (b.items ≡ canon (value_of m.now)) × IsOf profile (value_of m.now)
        × Valid (value_of m.now)
        × Within policy (value_of m.now)) }
    ensures refused { (r : Refusal) → result ≡ Err (fault.Refused r) → IsOf profile (value_of m.now)
        → Valid (value_of m.now)
        → Within policy (value_of m.now) → ⊥ }
    // The refusal is the validator's for the profile's canonical binary, with its name and offset.
    ensures same { (r : Refusal) → result ≡ Err (fault.Refused r)
        → verdict profile (2 ^ 62) policy (canon_under profile (value_of m.now)) ≡ Err r }
    // The meaning of the refusal's name holds for the profile's canonical binary.
    ensures means { (r : Refusal) → result ≡ Err (fault.Refused r)
        → Meaning profile (2 ^ 62) policy (canon_under profile (value_of m.now)) r }
    ensures place { (r : Refusal) → result ≡ Err (fault.Refused r) → (r.why ≢ Memory)
        × (r.at ≤ length (canon_under profile (value_of m.now))) }
    ensures too_large { (result ≡ Err fault.TooLarge) ↔ (¬ FitsUnder profile (value_of m.now)) }
{
    let bytes = encoded(alloc, profile, m)?;
    judge(alloc, profile, policy, &bytes)?;
    Ok(bytes)
}

// Returns the canonical binary of a module as the profile reads it.
fn encoded(alloc: Global, profile: Profile, m: &Module) -> Result<Vec<u8>, CheckFault>
    ensures written { IfOk result (λ b. SpelledFor profile (value_of m.now) b.items) }
    ensures too_large { (result ≡ Err fault.TooLarge) ↔ (¬ FitsUnder profile (value_of m.now)) }
    ensures judged { (r : Refusal) → result ≢ Err (fault.Refused r) }
{
    m.in_range();
    match encoded_under(alloc, profile, m) {
        Ok(bytes) => Ok(bytes),
        Err(MakeFault::TooLarge) => Err(CheckFault::TooLarge),
        Err(MakeFault::Memory) => Err(CheckFault::Memory),
    }
}

/// Returns the canonical binary of a module as the profile reads it.
pub fn encoded_under(alloc: Global, profile: Profile, m: &Module) -> Result<Vec<u8>, MakeFault>
    ensures written { IfOk result (λ b. b.items ≡ canon_under profile (value_of m.now)) }
    ensures too_large { (result ≡ Err made.TooLarge) ↔ (¬ FitsUnder profile (value_of m.now)) }
{
    let flagged = reads_flags(profile, m);
    in_memory::encoded_with(alloc, flagged, m)
}

// Whether the profile reads the segments of a module with flags.
fn reads_flags(profile: Profile, m: &Module) -> bool
    ensures { result ≡ with_flags profile (value_of m.now) }
{
    profile.has(Feature::BulkMemory) || has_passive(m) || name_segment(&m.functions)
}

// Whether a segment of the module is passive.
fn has_passive(m: &Module) -> bool
    ensures { result ≡ has_passive (value_of m.now) }
{
    some_passive(&m.elements) || some_passive(&m.segments)
}

// A segment of either kind.
trait AnySegment {
    ghost mode_of: { Self → AMode };

    fn mode(&self) -> SegmentMode
        ensures { result ≡ mode_of self.now };
}

impl AnySegment for Element {
    ghost mode_of = { λ e. e.mode };

    fn mode(&self) -> SegmentMode {
        self.mode
    }
}

impl AnySegment for Segment {
    ghost mode_of = { λ s. s.mode };

    fn mode(&self) -> SegmentMode {
        self.mode
    }
}

// Whether one of these segments is passive.
fn some_passive<S: AnySegment>(segments: &[S]) -> bool
    ensures { result ≡ list_any (λ s. is_passive (S.mode_of s)) segments.now }
{
    let mut found = false;
    for segment in segments {
        found = found || matches!(segment.mode(), SegmentMode::Passive);
    }
    found
}

// Loads the module that these bytes spell.
fn load(
    alloc: Global,
    profile: Profile,
    policy: Policy,
    bytes: &[u8],
) -> Result<Checked, CheckFault>
    ensures loaded { IfOk result (λ c. Loads profile (2 ^ 62) policy bytes.now (value_of (module_in c))) }
    ensures refused { (r : Refusal) → result ≡ Err (fault.Refused r)
        → Accepted profile (2 ^ 62) policy bytes.now → ⊥ }
    ensures same { (r : Refusal) → result ≡ Err (fault.Refused r)
        → verdict profile (2 ^ 62) policy bytes.now ≡ Err r }
    ensures means { (r : Refusal) → result ≡ Err (fault.Refused r)
        → Meaning profile (2 ^ 62) policy bytes.now r }
    ensures place { (r : Refusal) → result ≡ Err (fault.Refused r) → (r.why ≢ Memory)
        × (r.at ≤ length bytes.now) }
    ensures sized { result ≢ Err fault.TooLarge }
{
    let mut loader = Loader::new(alloc, profile, MOST, policy);
    match loader.feed(bytes) {
        Ok(()) => match loader.finish() {
            Ok(checked) => Ok(checked),
            Err(refusal) => Err(fault_of(refusal)),
        },
        Err(refusal) => Err(fault_of(refusal)),
    }
}

// Validates these bytes without building a module.
fn judge(alloc: Global, profile: Profile, policy: Policy, bytes: &[u8]) -> Result<(), CheckFault>
    ensures accepted { OnOk result (Accepted profile (2 ^ 62) policy bytes.now) }
    ensures refused { (r : Refusal) → result ≡ Err (fault.Refused r)
        → Accepted profile (2 ^ 62) policy bytes.now → ⊥ }
    ensures same { (r : Refusal) → result ≡ Err (fault.Refused r)
        → verdict profile (2 ^ 62) policy bytes.now ≡ Err r }
    ensures means { (r : Refusal) → result ≡ Err (fault.Refused r)
        → Meaning profile (2 ^ 62) policy bytes.now r }
    ensures place { (r : Refusal) → result ≡ Err (fault.Refused r) → (r.why ≢ Memory)
        × (r.at ≤ length bytes.now) }
    ensures sized { result ≢ Err fault.TooLarge }
{
    let mut validator = Validator::new(alloc, profile, MOST, policy);
    match validator.feed(bytes) {
        Ok(()) => match validator.finish() {
            Ok(_) => Ok(()),
            Err(refusal) => Err(fault_of(refusal)),
        },
        Err(refusal) => Err(fault_of(refusal)),
    }
}

fn fault_of(refusal: Refusal) -> CheckFault
    ensures refused { (r : Refusal) → result ≡ fault.Refused r → (r ≡ refusal) × (r.why ≢ Memory) }
    ensures sized { result ≢ fault.TooLarge }
{
    match refusal.why {
        Why::Memory => CheckFault::Memory,
        _ => CheckFault::Refused(refusal),
    }
}
