//! The loader and its result.

ghost use Rattle.wm_syntax.specs.Values.{value_of};
ghost use Rattle.wm_rules.specs.Loading.{IsLoaded};
ghost use Rattle.wm_rules.specs.inner.Loading.{HasReadSome};

use crate::both::Both;
use crate::builder::Builder;
use crate::checker::Checker;
use crate::found::Imported;
use wm_decode::{Decoder, Refusal};
use wm_syntax::modules::Module;

/// A module that was loaded: it is valid, and its encoding is not too large. Core spec 3.4.10.
#[derive(Debug, Drop)]
pub struct Checked {
    pub(crate) module_value: Module,
    ghost loaded: { ∥ IsLoaded (value_of module_value) ∥₁ },
}

/// Loads a module that comes in pieces. After a refusal it holds only the refusal, and how much
/// was imported.
#[derive(Debug, Drop)]
pub struct Loader {
    pub(crate) state: Result<Decoder<Both<Checker, Builder>>, Refusal>,
    // the imports before a refusal
    pub(crate) imported: Imported,
    ghost read: { ∥ HasReadSome state ∥₁ },
}
