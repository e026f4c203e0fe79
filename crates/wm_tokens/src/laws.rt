//! Laws of the definitions. Each law is the contract of an empty function.

ghost use Rattle.std.specs.Prelude.{◌≡◌, Bool, ℕ, List, true};
ghost use Rattle.wm_tokens.specs.TokenFaults.{BeginsFault, BeginsNothing, FirstFault};
ghost use Rattle.wm_tokens.specs.Tokens.{Token, Tokens};
ghost use Rattle.wm_tokens.specs.declared.faults.TextWhy.{TextWhy};

/// A text has at most one list of tokens.
pub fn one_list_of_tokens()
    ensures { (text : List ℕ) (j k : List Token) → Tokens text j → Tokens text k → j ≡ k }
{}

/// A text has at most one first lexical error, with floats and without. If it has one with floats, it has no
/// tokens.
pub fn one_first_fault()
    ensures one { (floats : Bool) (text : List ℕ) (v w : TextWhy) (m n : ℕ) → FirstFault floats text v m
        → FirstFault floats text w n → (v ≡ w) × (m ≡ n) }
    ensures none { (text : List ℕ) (w : TextWhy) (n : ℕ) (k : List Token) → FirstFault true text w n
        → Tokens text k → ⊥ }
{}

/// Neither white space nor a token begins where a lexical error begins.
pub fn faults_begin_no_token()
    ensures { (floats : Bool) (w : TextWhy) (b : List ℕ) → BeginsFault floats w b → BeginsNothing floats b }
{}
