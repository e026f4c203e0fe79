//! Laws that the definitions satisfy. Each law is the contract of a function that does nothing.

ghost use Rattle.std.specs.Prelude.{◌≡◌, ℕ, List, Some};
ghost use Rattle.wm_syntax.specs.Spelling.{AreBytes};
ghost use Rattle.wm_syntax.specs.declared.profile.Profile.{Profile};
ghost use Rattle.wm_decode.specs.InSections.{LiesIn, LiesInMember};
ghost use Rattle.wm_decode.specs.declared.place.Place.{Place};
ghost use Rattle.wm_decode.specs.inner.Places.{GoesOn, place_after};

/// A place names the section that its byte lies in.
pub fn places_are_in_their_sections()
    ensures { (p : Profile) (bytes : List ℕ) (place : Place) → AreBytes bytes
        → place_after p bytes ≡ Some place → LiesIn place.section bytes }
{}

/// A place that has an item names the member that its byte lies in, unless the format refuses an earlier byte.
pub fn items_are_members()
    ensures { (p : Profile) (bytes : List ℕ) (place : Place) (k : ℕ) → AreBytes bytes → GoesOn p bytes
        → place_after p bytes ≡ Some place → place.item ≡ Some k → LiesInMember p place.section k bytes }
{}
