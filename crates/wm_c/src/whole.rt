//! The calls that judge a whole input at once.

ghost use Rattle.std.specs.Prelude.{◌≡◌, ◌≢◌, ◌≤◌, ◌^◌};
ghost use Rattle.wm_c.specs.Answers.{IsAnswerOf, misuse};
ghost use Rattle.wm_c.specs.Codes.{why_code};
ghost use Rattle.wm_c.specs.Options.{Asking, Asks, plain_options};
ghost use Rattle.wm_rules.specs.Validation.{Accepted};
ghost use Rattle.wm_rules.specs.inner.Validators.{HasRead};
ghost use Rattle.wm_syntax.specs.declared.profile.Profile.{Profile as AProfile};
ghost use Rattle.wm_syntax.specs.declared.why.Why.TheVariants.{Memory};

use crate::answer::Answer;
use crate::options::{Asked, Options};
use crate::session::found;
use std::alloc::Global;
use wm_rules::Validator;

/// Judges a whole input under no policy, writes the answer and returns its status. `max_bytes` is at most 2^62.
#[unsafe(no_mangle)]
pub extern "C" fn wmod_validate(
    alloc: Global,
    bytes: &[u8],
    profile: u32,
    max_bytes: u64,
    answer: &mut Answer,
) -> u32
    // The answer is one that a validator may give.
    ensures answered { result ≢ 2 → Asking (plain_options profile max_bytes) (λ p limit q.
        IsAnswerOf p limit q bytes.now answer.new) }
    // Status 0 comes only for an accepted input.
    ensures valid { result ≡ 0 → Asking (plain_options profile max_bytes) (λ p limit q.
        Accepted p limit q bytes.now) }
    // Status 1 comes only for an input that is not accepted.
    ensures refused { result ≡ 1 → Asking (plain_options profile max_bytes) (λ p limit q.
        Accepted p limit q bytes.now → ⊥) }
    // The profile or the limit is out of range.
    ensures misused { result ≡ 2 → (answer.new ≡ misuse)
        × ((p : AProfile) → Asks (plain_options profile max_bytes) p → ⊥) }
    ensures memory { result ≡ 4 → answer.new.why ≡ why_code Memory }
    ensures status { result ≡ answer.new.status }
{
    *answer = judged(alloc, bytes, &Options::plain(profile, max_bytes));
    answer.status
}

/// Judges a whole input by options, writes the answer and returns its status.
#[unsafe(no_mangle)]
pub extern "C" fn wmod_validate_with(
    alloc: Global,
    bytes: &[u8],
    options: &Options,
    answer: &mut Answer,
) -> u32
    // The answer is one that a validator may give.
    ensures answered { result ≢ 2 → Asking options.now (λ p limit q.
        IsAnswerOf p limit q bytes.now answer.new) }
    // Status 0 comes only for an accepted input.
    ensures valid { result ≡ 0 → Asking options.now (λ p limit q. Accepted p limit q bytes.now) }
    // Status 1 comes only for an input that is not accepted.
    ensures refused { result ≡ 1 → Asking options.now (λ p limit q. Accepted p limit q bytes.now → ⊥) }
    // An option is out of range.
    ensures misused { result ≡ 2 → (answer.new ≡ misuse) × ((p : AProfile) → Asks options.now p → ⊥) }
    ensures memory { result ≡ 4 → answer.new.why ≡ why_code Memory }
    ensures status { result ≡ answer.new.status }
{
    *answer = judged(alloc, bytes, options);
    answer.status
}

fn judged(alloc: Global, bytes: &[u8], options: &Options) -> Answer
    ensures answered { result.status ≢ 2 → Asking options.now (λ p limit q.
        IsAnswerOf p limit q bytes.now result) }
    ensures valid { result.status ≡ 0 → Asking options.now (λ p limit q. Accepted p limit q bytes.now) }
    ensures refused { result.status ≡ 1 → Asking options.now (λ p limit q.
        Accepted p limit q bytes.now → ⊥) }
    ensures misused { result.status ≡ 2 → (result ≡ misuse) × ((p : AProfile) → Asks options.now p → ⊥) }
    ensures memory { result.status ≡ 4 → result.why ≡ why_code Memory }
{
    match options.asked() {
        Some(asked) => Answer::of(found(read(alloc, bytes, asked))),
        None => Answer::misused(),
    }
}

fn read(alloc: Global, bytes: &[u8], asked: Asked) -> Validator
    requires { asked.max_bytes ≤ 2 ^ 62 }
    ensures { HasRead result asked.profile asked.max_bytes asked.policy bytes.now }
{
    let mut validator = Validator::new(alloc, asked.profile, asked.max_bytes, asked.policy);
    // the validator keeps a refusal, and `finish` returns it
    let _ = validator.feed(bytes);
    validator
}
