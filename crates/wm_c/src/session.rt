//! A session: a validator, or the answer and the place after the end of the input.

ghost use Rattle.std.specs.Prelude.{◌≡◌, ◌≢◌, ◌<◌, ◌≤◌, ◌^◌, ◌-◌, ◌++◌, ◌↔◌, ℕ, List, [], Err, IfSome, None, Some, length, take};
ghost use Rattle.wm_c.specs.Answers.{IsAnswerOf, IsRight, in_numbers};
ghost use Rattle.wm_c.specs.Codes.{status_code};
ghost use Rattle.wm_c.specs.Places.{numbers_after, numbers_in};
ghost use Rattle.wm_c.specs.Sessions.{HasTaken, HasEnded, IsAt, IsReading, IsOver};
ghost use Rattle.wm_c.specs.Sessions.{StateRanOut, StateRefused, StateTaken};
ghost use Rattle.wm_c.specs.declared.session.State.TheVariants.{Ended};
ghost use Rattle.wm_machine.specs.declared.refusal.Refusal.{Refusal as ARefusal};
ghost use Rattle.wm_rules.specs.Validation.{Accepted};
ghost use Rattle.wm_rules.specs.declared.policy.Policy.{Policy as APolicy};
ghost use Rattle.wm_rules.specs.inner.Finding.{IsAfterAny};
ghost use Rattle.wm_rules.specs.inner.Validators.{HasRead, HavingRead, refusal_in};
ghost use Rattle.wm_syntax.specs.declared.profile.Profile.{Profile as AProfile};
ghost use Rattle.wm_syntax.specs.declared.why.Why.TheVariants.{Memory};

use crate::answer::Answer;
use crate::codes::refused_status;
use crate::options::Asked;
use crate::place::Place;
use std::alloc::Global;
use std::mem;
use wm_decode::{Refusal, Snapshot};
use wm_rules::{Found, Imported, Summary, Validator};

/// Judges an input that comes in pieces, and keeps the answer and its place.
#[derive(Drop)]
pub struct Session {
    pub state: State,
    // set by a refusal, and by the end of the input
    pub place: Place,
}

/// The state of a session: it reads, or it has its answer.
#[derive(Drop)]
pub enum State {
    Reading(Validator),
    Ended(Answer),
}

impl Session {
    /// Returns a session that has taken no byte. Allocates nothing.
    #[tactic(auto, using(crate::proofs::Begun::nothing_refused))]
    pub(crate) fn new(alloc: Global, asked: Asked) -> Session
        requires { asked.max_bytes ≤ 2 ^ 62 }
        ensures taken { HasTaken result asked.profile asked.max_bytes asked.policy [] }
        ensures ready { IsReading result.state }
        ensures unrefused { (r : ARefusal) → StateRefused result.state r → ⊥ }
    {
        let validator = Validator::new(alloc, asked.profile, asked.max_bytes, asked.policy);
        Session {
            state: State::Reading(validator),
            place: Place::nowhere(),
        }
    }

    /// Takes the next piece. Returns 0 if nothing is refused so far, the status of the refusal if there is one, and 2
    /// if the session has its answer.
    pub fn feed(&mut self, piece: &[u8]) -> u32
        ensures taken { result ≢ 2 → (p : AProfile) (limit : ℕ) (q : APolicy) (before : List ℕ)
            → HasTaken self.old p limit q before → HasTaken self.new p limit q (before ++ piece.now) }
        // No input that begins with these bytes is accepted.
        ensures refused { result ≡ 1 → (p : AProfile) (limit : ℕ) (q : APolicy) (before : List ℕ)
            → HasTaken self.old p limit q before
            → (more : List ℕ) → Accepted p limit q ((before ++ piece.now) ++ more) → ⊥ }
        ensures over { (result ≡ 2) ↔ IsOver self.old.state }
        ensures misused { result ≡ 2 → self.new ≡ self.old }
        // A piece never ends a session that reads, even if it is refused.
        ensures ready { result ≢ 2 → IsReading self.new.state }
        ensures unrefused { result ≡ 0 → (r : ARefusal) → StateRefused self.new.state r → ⊥ }
        ensures memory { result ≡ 4 → StateRanOut self.new.state }
        // The session keeps the first refusal, and later pieces get its status.
        ensures first { result ≢ 0 → result ≢ 2 → (r : ARefusal) × (result ≡ status_code r.why)
            × StateRefused self.new.state r }
        ensures stays { (r : ARefusal) → StateRefused self.old.state r → (result ≡ status_code r.why)
            × StateRefused self.new.state r }
        // The session is at the byte at the offset of a first refusal, and stays there.
        ensures spot { result ≡ 1 → ((r : ARefusal) → StateRefused self.old.state r → ⊥)
            → (p : AProfile) (limit : ℕ) (q : APolicy) (before : List ℕ) → HasTaken self.old p limit q before
            → (r : ARefusal) → StateRefused self.new.state r
            → IsAt self.new (numbers_after p (take (r.at - 1) (before ++ piece.now))) }
        ensures still { (n : ℕ × ℕ × ℕ) → IsAt self.old n → IsAt self.new n }
    {
        match &mut self.state {
            State::Reading(validator) => {
                let AfterPiece { status, place } = fed(validator, self.place, piece);
                self.place = place;
                status
            }
            State::Ended(_) => 2,
        }
    }

    /// Returns the answer to the bytes taken so far, and ends the session. Another call returns it again.
    pub fn finish(&mut self) -> Answer
        ensures answers { (p : AProfile) (limit : ℕ) (q : APolicy) (input : List ℕ)
            → HasTaken self.old p limit q input → IsAnswerOf p limit q input result }
        // A refusal that the session holds is the answer.
        ensures told { (r : ARefusal) → StateRefused self.old.state r → result ≡ in_numbers (Err r) }
        ensures ended { HasEnded self.new result }
        ensures again { (a : _) → HasEnded self.old a → (result ≡ a) × (self.new ≡ self.old) }
        ensures still { (n : ℕ × ℕ × ℕ) → IsAt self.old n → IsAt self.new n }
        // If no piece was refused, the session is at the end of the input.
        ensures spot { IsReading self.old.state → ((r : ARefusal) → StateRefused self.old.state r → ⊥)
            → (p : AProfile) (limit : ℕ) (q : APolicy) (input : List ℕ) → HasTaken self.old p limit q input
            → IsAt self.new (numbers_after p input) }
    {
        self.place = self.place();
        let answer = answer_of(mem::replace(&mut self.state, State::Ended(Answer::misused())));
        self.state = State::Ended(answer);
        answer
    }

    /// Returns the place of the byte that was refused. If none was, returns that of the next byte, or of the end of the
    /// input once the session has its answer.
    pub fn place(&self) -> Place
        ensures spot { (n : ℕ × ℕ × ℕ) → IsAt self.now n → numbers_in result ≡ n }
        ensures next { IsReading self.now.state → ((r : ARefusal) → StateRefused self.now.state r → ⊥)
            → (p : AProfile) (limit : ℕ) (q : APolicy) (bytes : List ℕ) → HasTaken self.now p limit q bytes
            → numbers_in result ≡ numbers_after p bytes }
        ensures ended { IsOver self.now.state → result ≡ self.now.place }
    {
        match &self.state {
            State::Reading(validator) => next_place(validator, self.place),
            State::Ended(_) => self.place,
        }
    }
}

/// The status of a piece, and the place of the session after it.
#[derive(Clone, Copy)]
struct AfterPiece {
    status: u32,
    place: Place,
}

/// Feeds the validator a piece. The status is 0 or that of its refusal. The place is that of a first refusal, and else
/// the one that the session had.
#[tactic(auto, using(crate::proofs::Statuses::not_none))]
fn fed(validator: &mut Validator, place: Place, piece: &[u8]) -> AfterPiece
    ensures read { HavingRead validator.old (λ p limit q before.
        HasRead validator.new p limit q (before ++ piece.now)) }
    ensures refused { result.status ≡ 1 → HavingRead validator.old (λ p limit q before. (more : List ℕ)
        → Accepted p limit q ((before ++ piece.now) ++ more) → ⊥) }
    ensures status { result.status ≢ 2 }
    ensures unrefused { result.status ≡ 0 → (r : ARefusal) → refusal_in validator.new ≡ Some r → ⊥ }
    ensures memory { result.status ≡ 4 → IfSome (refusal_in validator.new) (λ r. r.why ≡ Memory) }
    ensures first { result.status ≢ 0 → (r : ARefusal) × (result.status ≡ status_code r.why)
        × (refusal_in validator.new ≡ Some r) }
    ensures stays { (r : ARefusal) → refusal_in validator.old ≡ Some r → (result.status ≡ status_code r.why)
        × (refusal_in validator.new ≡ Some r) }
    ensures spot { result.status ≡ 1 → refusal_in validator.old ≡ None → HavingRead validator.old
        (λ p limit q before. (r : ARefusal) → refusal_in validator.new ≡ Some r
        → numbers_in result.place ≡ numbers_after p (take (r.at - 1) (before ++ piece.now))) }
    ensures still { (r : ARefusal) → refusal_in validator.old ≡ Some r → result.place ≡ place }
{
    let before = validator.snapshot();
    match validator.feed(piece) {
        Ok(()) => AfterPiece { status: 0, place },
        Err(refusal) => AfterPiece {
            status: refused_status(refusal.why),
            place: refused_place(before, piece, refusal, validator.imported(), place),
        },
    }
}

/// Returns the place of the byte at which a piece was refused. `before` is the validator's snapshot before the piece.
/// Without one the validator had refused a byte already, at the place `earlier`.
fn refused_place(
    before: Option<Snapshot>,
    piece: &[u8],
    refusal: Refusal,
    imported: Imported,
    earlier: Place,
) -> Place
    ensures found { (p : AProfile) (bytes : List ℕ) → IsAfterAny before p bytes → length bytes < refusal.at
        → refusal.at ≤ length (bytes ++ piece.now)
        → numbers_in result ≡ numbers_after p (take (refusal.at - 1) (bytes ++ piece.now)) }
    ensures kept { before ≡ None → result ≡ earlier }
{
    match before {
        Some(_) => Place::of(Found::in_piece(before, piece, refusal, imported)),
        None => earlier,
    }
}

/// Returns the place of the next byte. If the validator has refused a byte, returns the place `refused` of this one.
fn next_place(validator: &Validator, refused: Place) -> Place
    ensures next { refusal_in validator.now ≡ None → HavingRead validator.now
        (λ p limit q bytes. numbers_in result ≡ numbers_after p bytes) }
    ensures kept { (r : ARefusal) → refusal_in validator.now ≡ Some r → result ≡ refused }
{
    let next = validator.snapshot();
    match next {
        Some(_) => Place::of(Found::at_end(next, validator.imported())),
        None => refused,
    }
}

fn answer_of(state: State) -> Answer
    ensures answers { (p : AProfile) (limit : ℕ) (q : APolicy) (input : List ℕ)
        → StateTaken state p limit q input → IsAnswerOf p limit q input result }
    ensures told { (r : ARefusal) → StateRefused state r → result ≡ in_numbers (Err r) }
    ensures again { (a : _) → state ≡ Ended a → result ≡ a }
{
    match state {
        State::Reading(validator) => Answer::of(found(validator)),
        State::Ended(answer) => answer,
    }
}

/// Returns the validator's answer at the end of the input.
pub(crate) fn found(validator: Validator) -> Result<Summary, Refusal>
    ensures right { HavingRead validator (λ p limit q input. IsRight p limit q input result) }
    ensures told { (r : ARefusal) → refusal_in validator ≡ Some r → result ≡ Err r }
{
    match validator.finish() {
        Ok(summary) => Ok(summary),
        Err(refusal) => Err(refusal),
    }
}
