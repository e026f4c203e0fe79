//! Laws of the definitions. Each law is the contract of a function that does nothing.

ghost use Rattle.std.specs.Prelude.{◌≡◌, ◌↔◌, ℕ, List, Some, true};
ghost use Rattle.wm_floats.specs.FloatText.{HasForm, IsFloat};
ghost use Rattle.wm_floats.specs.Nearest.{IsNearest};
ghost use Rattle.wm_floats.specs.exact.Atoms.{float_of, has_form};
ghost use Rattle.wm_syntax.specs.declared.instructions.FloatType.{FloatType};

/// `float_of` finds bits in an atom if and only if the atom denotes them.
pub fn floats_are_read_as_written()
    ensures { (w : FloatType) (bits : ℕ) (a : List ℕ) → (float_of w a ≡ Some bits) ↔ IsFloat w bits a }
{}

/// An atom denotes at most one float of each width.
pub fn one_float()
    ensures { (w : FloatType) (b c : ℕ) (a : List ℕ) → IsFloat w b a → IsFloat w c a → b ≡ c }
{}

/// A fraction has at most one nearest float of each width.
pub fn one_nearest()
    ensures { (w : FloatType) (num den b c : ℕ) → IsNearest w num den b → IsNearest w num den c → b ≡ c }
{}

/// `has_form` holds for an atom if and only if it has the form of a float without a sign.
pub fn forms_are_found()
    ensures { (a : List ℕ) → (has_form a ≡ true) ↔ HasForm a }
{}
