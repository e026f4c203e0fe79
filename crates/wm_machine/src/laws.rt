//! Laws that the definitions satisfy. Each law is the contract of a function that does nothing.

ghost use Rattle.std.specs.Prelude.{◌≡◌, ◌+◌, ◌≤◌, ◌++◌, ◌↔◌, Err, ℕ, List, length, map};
ghost use Rattle.std.specs.List.{AllByRecursion};
ghost use Rattle.wm_syntax.specs.declared.profile.Profile.{Profile};
ghost use Rattle.wm_syntax.specs.Spelling.{AreBytes};
ghost use Rattle.wm_syntax.specs.Modules.{Module as ModuleValue, index_of};
ghost use Rattle.wm_syntax.specs.Profiles.{Extends, IsOf, every};
ghost use Rattle.wm_machine.specs.Flat.{FlatModule, IsFlatOf, SpellsFlat, flat_items};
ghost use Rattle.wm_machine.specs.Items.{Marks, data_byte, items_at};
ghost use Rattle.wm_machine.specs.Sections.{SpellsModule};
ghost use Rattle.wm_machine.specs.Sinks.{all_taken, and_then};
ghost use Rattle.wm_machine.specs.Grammar.{Items};
ghost use Rattle.wm_machine.specs.BetweenProfiles.{EncodeAlike, FrontsAlike, HasItem, ReadSegmentsAlike};
ghost use Rattle.wm_machine.specs.BetweenProfiles.{SameUpToProfile};
ghost use Rattle.wm_machine.specs.Decoding.{Setting};
ghost use Rattle.wm_machine.specs.Meanings.{AtItem, GivesRuleNames, IsRuleName, MeaningOfFormat, Meant};
ghost use Rattle.wm_machine.specs.Meanings.{RefusesBy};
ghost use Rattle.wm_machine.specs.declared.refusal.Refusal.{Refusal};
ghost use Rattle.wm_machine.specs.inner.Answers.{answer_of};
ghost use Rattle.wm_machine.specs.Fronts.{IsFront, entry_bytes, inside_bytes, outside_bytes};

use crate::sink::Sink;

/// Bytes have at most one reading as a whole input: the marks beside them are unique.
pub fn one_reading()
    ensures { (p : Profile) (b : List ℕ) (j k : Marks) → Items p b j → Items p b k → j ≡ k }
{}

/// The front of an input has at most one reading too, whatever bytes may follow it.
pub fn one_front()
    ensures { (p : Profile) (b : List ℕ) (j k : Marks) → IsFront p b j → IsFront p b k → j ≡ k }
{}

/// Each byte lies either inside or outside code entries. The bytes of an unfinished code entry lie inside.
pub fn bytes_are_in_zones()
    ensures all { (k : Marks) → outside_bytes k + inside_bytes k ≡ length k }
    ensures at_hand { (k : Marks) → entry_bytes k ≤ inside_bytes k }
{}

/// A slice of data bytes has the same effect on a sink as the slice in two parts.
pub fn slices_join<S: Sink>()
    ensures { (h : S.Held) (a b : List ℕ) → all_taken S.after h (map data_byte (a ++ b))
        ≡ and_then (all_taken S.after h (map data_byte a)) (λ g. all_taken S.after g (map data_byte b)) }
{}

/// Bytes are a whole input if and only if they spell a flat value. The items are those of that value.
pub fn items_are_flat()
    ensures read { (p : Profile) (b : List ℕ) (k : Marks) → Items p b k
        → (v : FlatModule) × SpellsFlat p v b × (items_at k ≡ flat_items v) }
    ensures spelled { (p : Profile) (v : FlatModule) (b : List ℕ) → SpellsFlat p v b
        → (k : Marks) × Items p b k × (items_at k ≡ flat_items v) }
{}

/// Bytes spell a module of the profile if and only if they spell a flat value of that module.
pub fn module_is_flat()
    ensures flat { (p : Profile) (m : ModuleValue) (b : List ℕ) → SpellsModule p m b → IsOf p m
        → (v : FlatModule) × IsFlatOf m v × SpellsFlat p v b }
    ensures nested { (p : Profile) (m : ModuleValue) (v : FlatModule) (b : List ℕ) → IsFlatOf m v
        → SpellsFlat p v b
        → SpellsModule p m b × IsOf p m }
{}

/// Bytes spell a module of the profile if and only if they are a whole input with the items of one of its flat values.
pub fn items_are_module()
    ensures items { (p : Profile) (m : ModuleValue) (b : List ℕ) → SpellsModule p m b → IsOf p m
        → (k : Marks) × (v : FlatModule) × Items p b k × IsFlatOf m v × (items_at k ≡ flat_items v) }
    ensures nested { (p : Profile) (m : ModuleValue) (v : FlatModule) (b : List ℕ) (k : Marks)
        → Items p b k → IsFlatOf m v → items_at k ≡ flat_items v → SpellsModule p m b × IsOf p m }
{}

/// The items determine the flat value and the module.
pub fn items_determine_module()
    ensures flat { (v w : FlatModule) → flat_items v ≡ flat_items w → v ≡ w }
    ensures nested { (m n : ModuleValue) (v w : FlatModule) → IsFlatOf m v → IsFlatOf n w
        → flat_items v ≡ flat_items w
        → m ≡ n }
{}

/// Every module is of the profile `every`, which has all features.
pub fn all_features_have_all()
    ensures { (m : ModuleValue) → IsOf every m }
{}

/// Bytes that spell a module under a profile spell it under every profile that extends this one, if the fronts of its
/// segments have the same bytes under both.
pub fn more_features_spell_as_much()
    ensures { (p q : Profile) (m : ModuleValue) (b : List ℕ) → Extends q p
        → FrontsAlike p q (map (λ e. index_of e.mode) m.elements)
        → FrontsAlike p q (map (λ s. index_of s.mode) m.segments)
        → SpellsModule p m b → SpellsModule q m b }
{}

/// A whole input consists of bytes (numbers below 256), and so does the spelling of a module.
pub fn input_is_bytes()
    ensures whole { (p : Profile) (b : List ℕ) (k : Marks) → Items p b k → AreBytes b }
    ensures spelled { (p : Profile) (m : ModuleValue) (b : List ℕ) → SpellsModule p m b → AreBytes b }
{}

/// No bytes spell two different modules, even under two profiles that read the fronts of segments alike. Core spec 5.5.15.
pub fn one_spelling_one_module()
    ensures { (p q : Profile) (m n : ModuleValue) (b : List ℕ) → ReadSegmentsAlike p q → SpellsModule p m b
        → SpellsModule q n b → m ≡ n }
{}

/// The name of a refusal means what `MeaningOfFormat` says about the bytes up to its offset. This holds over any sink
/// that gives names of rules only, so the names of the format come from the decoder itself.
pub fn format_names_mean<S: Sink>()
    ensures { (s : Setting S.Held) (input : List ℕ) (r : Refusal) → AreBytes input
        → GivesRuleNames S.after s.first
        → answer_of S.after s input ≡ Err r → MeaningOfFormat s.profile s.limit input r }
{}

/// A refusal with the name of a rule comes from the sink. The sink took all items before, and then refused the item
/// that the deciding byte completes.
pub fn rule_names_are_of_items<S: Sink>()
    ensures { (s : Setting S.Held) (input : List ℕ) (r : Refusal) → AreBytes input → IsRuleName r.why
        → answer_of S.after s input ≡ Err r
        → Meant (λ used rest w. AtItem s.profile (RefusesBy S.after s.first w) used) input r }
{}

/// A profile and one that extends it, of which both or neither has `BulkMemory`, give the same answer to an input, with
/// one exception. The first may refuse a byte as `Float` or `BadOpcode`, or as `BadByte` if it lacks the `LongIndex` of
/// the second. Then the second refuses no earlier, if at all.
pub fn profiles_answer_alike<S: Sink>()
    ensures { (p q : Profile) (limit : ℕ) (first : S.Held) (input : List ℕ) → Extends q p
        → ReadSegmentsAlike p q → SameUpToProfile p q
        (answer_of S.after (record { profile = p; limit = limit; first = first }) input)
        (answer_of S.after (record { profile = q; limit = limit; first = first }) input) }
{}

/// Bytes that spell a flat value under a profile spell it under each profile that extends this one, if the fronts of its
/// segments have the same bytes under both, and this profile has each item of the value. The converse holds of two
/// profiles that encode instructions alike and read the fronts alike.
pub fn items_tell_the_profile()
    ensures more { (p q : Profile) (v : FlatModule) (b : List ℕ) → Extends q p
        → FrontsAlike p q (map (λ e. e.table) v.elements) → FrontsAlike p q (map (λ s. s.memory) v.segments)
        → SpellsFlat p v b
        → SpellsFlat q v b × AllByRecursion (HasItem p) (flat_items v) }
    ensures less { (p q : Profile) (v : FlatModule) (b : List ℕ) → Extends q p → EncodeAlike p q
        → ReadSegmentsAlike p q → SpellsFlat q v b → AllByRecursion (HasItem p) (flat_items v) → SpellsFlat p v b }
{}
