//! The options of a call from C, and which of them are in range.

ghost use Rattle.std.specs.Prelude.{◌≡◌, ◌<◌, ◌≤◌, MatchOption};
ghost use Rattle.wm_syntax.specs.declared.profile.Profile.{Profile as AProfile};
ghost use Rattle.wm_c.specs.Options.{Asks, limit_of, plain_options, policy_of, spellings_by, spellings_of};

use crate::codes::profile_of;
use wm_read::spellings::Spellings;
use wm_rules::Policy;
use wm_syntax::profile::Profile;

/// `wmod_options` of the header, which documents each field.
#[repr(C)]
#[derive(Clone, Copy, PartialEq, Eq, Debug)]
pub struct Options {
    pub size: u64,
    pub profile: u64,
    pub max_bytes: u64,
    pub functions: u64,
    pub locals: u64,
    pub depth: u64,
    pub old_words: u64,
}

/// The size of `Options` in bytes.
const SIZE: u64 = 56;

/// The greatest limit of an input, in bytes.
const MOST: u64 = 1 << 62;

/// The least number that means no limit in a policy.
const NO_LIMIT: u64 = 1 << 32;

/// Options that are in range, parsed.
#[derive(Clone, Copy)]
pub(crate) struct Asked {
    pub(crate) profile: Profile,
    pub(crate) max_bytes: u64,
    pub(crate) policy: Policy,
    pub(crate) spellings: Spellings,
}

impl Options {
    /// Returns options with this profile and this limit, no policy and the standard spellings.
    pub(crate) fn plain(profile: u32, max_bytes: u64) -> Options
        ensures { result ≡ plain_options profile max_bytes }
    {
        Options {
            size: SIZE,
            profile: profile as u64,
            max_bytes,
            functions: NO_LIMIT,
            locals: NO_LIMIT,
            depth: NO_LIMIT,
            old_words: 0,
        }
    }

    /// Returns the parsed options, or `None` if one is out of range.
    pub(crate) fn asked(&self) -> Option<Asked>
        ensures { MatchOption result ((p : AProfile) → Asks self.now p → ⊥) (λ a. Asks self.now a.profile
            × (a.max_bytes ≡ self.now.max_bytes) × (a.policy ≡ policy_of self.now)
            × (a.spellings ≡ spellings_of self.now)) }
    {
        if self.size != SIZE || self.max_bytes > MOST {
            return None;
        }
        let profile = profile_of(self.profile)?;
        let spellings = spellings_of(self.old_words)?;
        Some(Asked {
            profile,
            max_bytes: self.max_bytes,
            policy: self.policy(),
            spellings,
        })
    }

    fn policy(&self) -> Policy
        ensures { result ≡ policy_of self.now }
    {
        Policy {
            functions: limit(self.functions),
            locals: limit(self.locals),
            depth: limit(self.depth),
        }
    }
}

/// Returns the spellings for the field `old_words`, or `None` if it is above 1.
fn spellings_of(old_words: u64) -> Option<Spellings>
    ensures { MatchOption result (1 < old_words) (λ s. (old_words ≤ 1) × (s ≡ spellings_by old_words)) }
{
    match old_words {
        0 => Some(Spellings::Standard),
        1 => Some(Spellings::Older),
        _ => None,
    }
}

fn limit(n: u64) -> Option<u32>
    ensures { result ≡ limit_of n }
{
    if n < NO_LIMIT { Some(n as u32) } else { None }
}
