//! A theorem about printing and reading back, stated as the contract of a function that does nothing.

ghost use Rattle.std.specs.Prelude.{◌≡◌, ℕ, List};
ghost use Rattle.wm_rules.specs.Loading.{Loads};
ghost use Rattle.wm_rules.specs.declared.policy.Policy.{Policy};
ghost use Rattle.wm_syntax.specs.Modules.{Module};
ghost use Rattle.wm_syntax.specs.declared.profile.Profile.{Profile};
ghost use Rattle.wm_tokens.specs.Fields.{Writes};
ghost use Rattle.wm_tokens.specs.Tokens.{Token, Tokens};
ghost use Rattle.wm_write.specs.Layout.{layout};

/// The printed text of a loaded module writes no other module. `wm_write` proves that it writes this one.
pub fn printed_texts_write_no_other()
    ensures { (p : Profile) (limit : ℕ) (q : Policy) (b : List ℕ) (m n : Module) (k : List Token)
        → Loads p limit q b m
        → Tokens (layout m) k → Writes p k n → n ≡ m }
{}
