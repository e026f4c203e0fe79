//! Theorems about the definitions of this crate, as contracts of functions with empty bodies.

ghost use Rattle.std.specs.Prelude.{◌≡◌, ◌∷◌, ◌++◌, [], ℕ, List, Some, codes};
ghost use Rattle.std.specs.Prelude.{false};
ghost use Rattle.std.specs.List.{AllByRecursion};
ghost use Rattle.wm_tokens.specs.Fields.{HasDistinct};
ghost use Rattle.wm_tokens.specs.Identifiers.{AreDistinct};
ghost use Rattle.wm_tokens.specs.Tokens.{Token, close_paren};
ghost use Rattle.wm_tokens.specs.Written.{Named, Names, Scope, TypeUse, UnnamedTypeUse, WritesGroups};
ghost use Rattle.wm_tokens.specs.Written.{WritesInstructions, types_of};
ghost use Rattle.wm_bodies.specs.exact.NamedUses.{named_use_at};
ghost use Rattle.wm_bodies.specs.exact.TypeUses.{begins_group, begins_open, call_use_at, instructions_at};
ghost use Rattle.wm_bodies.specs.exact.TypeUses.{named_at};
ghost use Rattle.wm_syntax.specs.Instructions.{Instructions};
ghost use Rattle.wm_syntax.specs.Profiles.{HasInstructions, HasSignature, HasType};
ghost use Rattle.wm_syntax.specs.declared.profile.Profile.{Profile};

/// A body is read exactly as its tokens write it, if identifiers are distinct in their spaces. `read`: the tokens
/// before a closing parenthesis write the instructions that were read, which are of the profile. `written`: such
/// instructions are read if the tokens write them, and the profile has the types of the text.
pub fn bodies_are_read_as_written()
    ensures read { (p : Profile) (sc : Scope) (k rest : List Token) (s : Instructions)
        → HasDistinct sc.names → AreDistinct sc.locals → instructions_at p sc k ≡ Some (s, rest)
        → (front more : List Token) × (k ≡ front ++ close_paren ∷ more) × (rest ≡ close_paren ∷ more)
        × WritesInstructions sc [] s front × HasInstructions p s }
    ensures written { (p : Profile) (sc : Scope) (front more : List Token) (s : Instructions)
        → HasDistinct sc.names → AreDistinct sc.locals → AllByRecursion (HasSignature p) sc.names.signatures
        → WritesInstructions sc [] s front → HasInstructions p s
        → instructions_at p sc (front ++ close_paren ∷ more) ≡ Some (s, close_paren ∷ more) }
{}

/// Tokens write at most one list of instructions of the profile. Identifiers must be distinct in their spaces, and the
/// profile must have the types of the text.
pub fn one_body()
    ensures { (p : Profile) (sc : Scope) (front : List Token) (s t : Instructions)
        → HasDistinct sc.names → AreDistinct sc.locals → AllByRecursion (HasSignature p) sc.names.signatures
        → WritesInstructions sc [] s front → HasInstructions p s
        → WritesInstructions sc [] t front → HasInstructions p t → s ≡ t }
{}

/// Groups of parameters or locals are read exactly as their tokens write them, with types of the profile. `written`
/// needs that no further group follows.
pub fn groups_are_read_as_written()
    ensures read { (p : Profile) (word : List ℕ) (k : List Token) (all : List Named) (rest : List Token)
        → named_at p word k ≡ Some (all, rest)
        → (front : List Token) × (k ≡ front ++ rest)
        × (WritesGroups word all front × AllByRecursion (HasType p) (types_of all)) }
    ensures written { (p : Profile) (word : List ℕ) (all : List Named) (front rest : List Token)
        → WritesGroups word all front × AllByRecursion (HasType p) (types_of all)
        → begins_group word rest ≡ false → named_at p word (front ++ rest) ≡ Some (all, rest) }
{}

/// Type uses are read exactly as their tokens write them. `written` and `call_written` need distinct identifiers of
/// types, and types of the profile. No group of parameters or results may follow; after a `call_indirect`, no form.
pub fn type_uses_are_read_as_written()
    ensures read { (p : Profile) (names : Names) (k : List Token) (u : ℕ × List Named) (rest : List Token)
        → named_use_at p names k ≡ Some (u, rest)
        → (front : List Token) × (k ≡ front ++ rest) × TypeUse names u.0 u.1 front }
    ensures written { (p : Profile) (names : Names) → AreDistinct names.types
        → AllByRecursion (HasSignature p) names.signatures → (u : ℕ × List Named) (front rest : List Token)
        → TypeUse names u.0 u.1 front
        → (begins_group (codes "param") rest ≡ false) × (begins_group (codes "result") rest ≡ false)
        → named_use_at p names (front ++ rest) ≡ Some (u, rest) }
    ensures call_read { (p : Profile) (names : Names) (k : List Token) (x : ℕ) (rest : List Token)
        → call_use_at p names k ≡ Some (x, rest)
        → (front : List Token) × (k ≡ front ++ rest) × UnnamedTypeUse names x front }
    ensures call_written { (p : Profile) (names : Names) → AreDistinct names.types
        → AllByRecursion (HasSignature p) names.signatures → (x : ℕ) (front rest : List Token)
        → UnnamedTypeUse names x front → begins_open rest ≡ false
        → call_use_at p names (front ++ rest) ≡ Some (x, rest) }
{}
