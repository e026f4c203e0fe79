//! The calls for an input in pieces.

ghost use Rattle.std.specs.Prelude.{◌≡◌, ◌≢◌, ◌-◌, ◌++◌, ◌↔◌, ◌⊎◌, ℕ, List, [], Err, None, take};
ghost use Rattle.wm_c.specs.Answers.{IsAnswerOf, in_numbers, misuse};
ghost use Rattle.wm_c.specs.Codes.{status_code};
ghost use Rattle.wm_c.specs.Handles.{Holds, HoldsAnswer, HoldsRefusal, HoldsPlace, RanOut};
ghost use Rattle.wm_c.specs.Handles.{TakesNothing, TakesPieces};
ghost use Rattle.wm_c.specs.Options.{Asking, Asks, plain_options};
ghost use Rattle.wm_c.specs.Places.{nowhere, numbers_after, numbers_in};
ghost use Rattle.wm_c.specs.declared.answer.Answer.{Answer as AnAnswer};
ghost use Rattle.wm_machine.specs.declared.refusal.Refusal.{Refusal as ARefusal};
ghost use Rattle.wm_rules.specs.Validation.{Accepted};
ghost use Rattle.wm_rules.specs.declared.policy.Policy.{Policy as APolicy};
ghost use Rattle.wm_syntax.specs.declared.profile.Profile.{Profile as AProfile};

use crate::answer::Answer;
use crate::handle::Handle;
use crate::loose::Loose;
use crate::options::Options;
use crate::place::Place;
use crate::session::Session;
use std::alloc::Global;
use std::mem;

/// Begins an input that is judged under no policy. Returns 0, 2 if the profile or the limit is out of range, or 4 if
/// memory is refused. Unless it returns 2, it frees what the handle held.
#[unsafe(no_mangle)]
pub extern "C" fn wmod_begin(alloc: Global, v: &mut Handle, profile: u32, max_bytes: u64) -> u32
    ensures begun { result ≡ 0 → Asking (plain_options profile max_bytes) (λ p limit q.
        Holds v.new.held p limit q []) }
    ensures ready { result ≡ 0 → TakesPieces v.new.held }
    ensures unrefused { result ≡ 0 → (r : ARefusal) → HoldsRefusal v.new.held r → ⊥ }
    ensures misused { result ≡ 2 → (v.new.held ≡ v.old.held)
        × ((p : AProfile) → Asks (plain_options profile max_bytes) p → ⊥) }
    // Any other status comes only for options in range.
    ensures asked { result ≢ 2 → (p : AProfile) × Asks (plain_options profile max_bytes) p }
    ensures memory { result ≡ 4 → v.new.held ≡ None }
    ensures status { (result ≡ 0) ⊎ (result ≡ 2) ⊎ (result ≡ 4) }
{
    begin(alloc, v, &Options::plain(profile, max_bytes))
}

/// Begins an input that is judged by options. Returns 0, 2 if an option is out of range, or 4 if memory is refused.
#[unsafe(no_mangle)]
pub extern "C" fn wmod_begin_with(alloc: Global, v: &mut Handle, options: &Options) -> u32
    ensures begun { result ≡ 0 → Asking options.now (λ p limit q. Holds v.new.held p limit q []) }
    ensures ready { result ≡ 0 → TakesPieces v.new.held }
    ensures unrefused { result ≡ 0 → (r : ARefusal) → HoldsRefusal v.new.held r → ⊥ }
    ensures misused { result ≡ 2 → (v.new.held ≡ v.old.held) × ((p : AProfile) → Asks options.now p → ⊥) }
    // Any other status comes only for options in range.
    ensures asked { result ≢ 2 → (p : AProfile) × Asks options.now p }
    ensures memory { result ≡ 4 → v.new.held ≡ None }
    ensures status { (result ≡ 0) ⊎ (result ≡ 2) ⊎ (result ≡ 4) }
{
    begin(alloc, v, options)
}

fn begin(alloc: Global, v: &mut Handle, options: &Options) -> u32
    ensures begun { result ≡ 0 → Asking options.now (λ p limit q. Holds v.new.held p limit q []) }
    ensures ready { result ≡ 0 → TakesPieces v.new.held }
    ensures unrefused { result ≡ 0 → (r : ARefusal) → HoldsRefusal v.new.held r → ⊥ }
    ensures misused { result ≡ 2 → (v.new.held ≡ v.old.held) × ((p : AProfile) → Asks options.now p → ⊥) }
    ensures asked { result ≢ 2 → (p : AProfile) × Asks options.now p }
    ensures memory { result ≡ 4 → v.new.held ≡ None }
    ensures status { (result ≡ 0) ⊎ (result ≡ 2) ⊎ (result ≡ 4) }
{
    let Some(asked) = options.asked() else {
        return 2;
    };
    let session = Session::new(alloc, asked);
    wmod_end(alloc, v);
    match Box::new(alloc, session) {
        Ok(b) => {
            put(alloc, v, Handle::of(Loose::of(b)));
            0
        }
        Err(_) => 4,
    }
}

/// Takes the next piece. Returns 0 if nothing is refused so far, and 1 or 4 for a refusal. Returns 2 if the handle is
/// empty or its input was finished.
#[unsafe(no_mangle)]
pub extern "C" fn wmod_feed(alloc: Global, v: &mut Handle, piece: &[u8]) -> u32
    ensures taken { result ≢ 2 → (p : AProfile) (limit : ℕ) (q : APolicy) (before : List ℕ)
        → Holds v.old.held p limit q before → Holds v.new.held p limit q (before ++ piece.now) }
    // No input that begins with these bytes is accepted.
    ensures refused { result ≡ 1 → (p : AProfile) (limit : ℕ) (q : APolicy) (before : List ℕ)
        → Holds v.old.held p limit q before
        → (more : List ℕ) → Accepted p limit q ((before ++ piece.now) ++ more) → ⊥ }
    // Status 2 comes if and only if the handle is empty or its input was finished. It changes nothing.
    ensures over { (result ≡ 2) ↔ TakesNothing v.old.held }
    ensures misused { result ≡ 2 → v.new.held ≡ v.old.held }
    // After any other status, also after a refusal, the handle takes pieces.
    ensures ready { result ≢ 2 → TakesPieces v.new.held }
    ensures unrefused { result ≡ 0 → (r : ARefusal) → HoldsRefusal v.new.held r → ⊥ }
    ensures memory { result ≡ 4 → RanOut v.new.held }
    // The handle keeps the first refusal, and later pieces get its status.
    ensures first { result ≢ 0 → result ≢ 2 → (r : ARefusal) × (result ≡ status_code r.why)
        × HoldsRefusal v.new.held r }
    ensures stays { (r : ARefusal) → HoldsRefusal v.old.held r → (result ≡ status_code r.why)
        × HoldsRefusal v.new.held r }
    // The handle keeps the section of the byte at the offset of a first refusal, and the part of the format there.
    ensures spot { result ≡ 1 → ((r : ARefusal) → HoldsRefusal v.old.held r → ⊥)
        → (p : AProfile) (limit : ℕ) (q : APolicy) (before : List ℕ) → Holds v.old.held p limit q before
        → (r : ARefusal) → HoldsRefusal v.new.held r
        → HoldsPlace v.new.held (numbers_after p (take (r.at - 1) (before ++ piece.now))) }
    ensures still { (n : ℕ × ℕ × ℕ) → HoldsPlace v.old.held n → HoldsPlace v.new.held n }
{
    match emptied(v).take(alloc) {
        None => 2,
        Some(loose) => {
            let mut session = loose.into_box();
            let status = session.feed(piece);
            put(alloc, v, Handle::of(Loose::of(session)));
            status
        }
    }
}

/// Ends the input, writes the answer and returns its status: 2 if the handle is empty.
#[unsafe(no_mangle)]
pub extern "C" fn wmod_finish(alloc: Global, v: &mut Handle, answer: &mut Answer) -> u32
    ensures answers { (p : AProfile) (limit : ℕ) (q : APolicy) (input : List ℕ)
        → Holds v.old.held p limit q input → IsAnswerOf p limit q input answer.new }
    // A refusal that the handle holds is the answer.
    ensures told { (r : ARefusal) → HoldsRefusal v.old.held r → answer.new ≡ in_numbers (Err r) }
    // A second call gives the same answer and changes nothing.
    ensures again { (a : AnAnswer) → HoldsAnswer v.old.held a
        → (answer.new ≡ a) × (v.new.held ≡ v.old.held) }
    ensures ended { v.old.held ≢ None → HoldsAnswer v.new.held answer.new }
    ensures none { v.old.held ≡ None → (answer.new ≡ misuse) × (v.new.held ≡ None) }
    ensures status { result ≡ answer.new.status }
    // The handle keeps those of a refusal, or those of the end of the input if no piece was refused.
    ensures still { (n : ℕ × ℕ × ℕ) → HoldsPlace v.old.held n → HoldsPlace v.new.held n }
    ensures spot { TakesPieces v.old.held → ((r : ARefusal) → HoldsRefusal v.old.held r → ⊥)
        → (p : AProfile) (limit : ℕ) (q : APolicy) (input : List ℕ) → Holds v.old.held p limit q input
        → HoldsPlace v.new.held (numbers_after p input) }
{
    *answer = answered(alloc, v);
    answer.status
}

/// Writes the place of the byte that was refused; if none was, that of the next byte or of the end of the input. Returns
/// 0, or 2 if the handle is empty. Contracts pin `section`, `item` and `awaits`; `index` and `byte` are tested.
#[unsafe(no_mangle)]
pub extern "C" fn wmod_place(alloc: Global, v: &mut Handle, place: &mut Place) -> u32
    ensures spot { (n : ℕ × ℕ × ℕ) → HoldsPlace v.old.held n → numbers_in place.new ≡ n }
    // If nothing is refused so far, they are those of the next byte.
    ensures next { TakesPieces v.old.held → ((r : ARefusal) → HoldsRefusal v.old.held r → ⊥)
        → (p : AProfile) (limit : ℕ) (q : APolicy) (bytes : List ℕ) → Holds v.old.held p limit q bytes
        → numbers_in place.new ≡ numbers_after p bytes }
    ensures same { v.new.held ≡ v.old.held }
    ensures status { v.old.held ≢ None → result ≡ 0 }
    ensures none { v.old.held ≡ None → (result ≡ 2) × (place.new ≡ nowhere) }
{
    match emptied(v).take(alloc) {
        None => {
            *place = Place::nowhere();
            2
        }
        Some(loose) => {
            let session = loose.into_box();
            *place = session.place();
            put(alloc, v, Handle::of(Loose::of(session)));
            0
        }
    }
}

/// Frees what the handle holds, and leaves it empty.
#[unsafe(no_mangle)]
pub extern "C" fn wmod_end(alloc: Global, v: &mut Handle)
    ensures { v.new.held ≡ None }
{
    if let Some(loose) = emptied(v).take(alloc) {
        drop(loose.into_box());
    }
}

fn answered(alloc: Global, v: &mut Handle) -> Answer
    ensures answers { (p : AProfile) (limit : ℕ) (q : APolicy) (input : List ℕ)
        → Holds v.old.held p limit q input → IsAnswerOf p limit q input result }
    ensures told { (r : ARefusal) → HoldsRefusal v.old.held r → result ≡ in_numbers (Err r) }
    ensures again { (a : AnAnswer) → HoldsAnswer v.old.held a → (result ≡ a) × (v.new.held ≡ v.old.held) }
    ensures ended { v.old.held ≢ None → HoldsAnswer v.new.held result }
    ensures none { v.old.held ≡ None → (result ≡ misuse) × (v.new.held ≡ None) }
    ensures still { (n : ℕ × ℕ × ℕ) → HoldsPlace v.old.held n → HoldsPlace v.new.held n }
    ensures spot { TakesPieces v.old.held → ((r : ARefusal) → HoldsRefusal v.old.held r → ⊥)
        → (p : AProfile) (limit : ℕ) (q : APolicy) (input : List ℕ) → Holds v.old.held p limit q input
        → HoldsPlace v.new.held (numbers_after p input) }
{
    match emptied(v).take(alloc) {
        None => Answer::misused(),
        Some(loose) => {
            let mut session = loose.into_box();
            let found = session.finish();
            put(alloc, v, Handle::of(Loose::of(session)));
            found
        }
    }
}

fn emptied(v: &mut Handle) -> Handle
    ensures was { result.held ≡ v.old.held }
    ensures now { v.new.held ≡ None }
{
    mem::replace(v, Handle::empty())
}

fn put(alloc: Global, v: &mut Handle, full: Handle)
    ensures { v.new.held ≡ full.held }
{
    if let Some(loose) = mem::replace(v, full).take(alloc) {
        drop(loose.into_box());
    }
}
