//! Reads whole texts (Core spec 6.6.13).

ghost use Rattle.std.specs.Prelude.{◌≡◌, ◌≢◌, ◌<◌, ◌≤◌, ◌↔◌, [], ◌∷◌, ◌++◌, IfErr, IfOk, IsTrue, IsUtf8, List};
ghost use Rattle.std.specs.Prelude.{length, map, true, Some};
ghost use Rattle.std.specs.Str.{IsValidUpTo};
ghost use Rattle.wm_tokens.specs.Fields.{Writes};
ghost use Rattle.wm_read.specs.Spellings.{replaced};
ghost use Rattle.wm_tokens.specs.TokenFaults.{IsOfEnd, TellsFault};
ghost use Rattle.wm_tokens.specs.Tokens.{Token, Tokens, close_paren};
ghost use Rattle.wm_tokens.specs.Written as words;
ghost use Rattle.wm_tokens.specs.declared.faults.TextWhy.TheVariants.{BadToken, Expected, Memory, NotUtf8};
ghost use Rattle.wm_tokens.specs.exact.Scan.{lexed};
ghost use Rattle.wm_read.specs.exact.FirstReading.{names_at};
ghost use Rattle.wm_read.specs.exact.TextModules as modules;
ghost use Rattle.wm_bodies.specs.inner.Blocks.{names_of};
ghost use Rattle.wm_tokens.specs.inner.Ends.{can_end};
ghost use Rattle.wm_read.specs.inner.Tails.{IsTail};
ghost use Rattle.wm_bodies.specs.inner.Views.{Reads};
ghost use Rattle.wm_syntax.specs.Modules as values;
ghost use Rattle.wm_syntax.specs.Profiles.{has};
ghost use Rattle.wm_syntax.specs.Values.{value_of};
ghost use Rattle.wm_syntax.specs.declared.profile.Feature.TheVariants.{Floats};

use crate::fields::lists::read_fields;
use crate::heads::read_heads;
use crate::renewed::renewed;
use crate::spellings::Spellings;
use std::alloc::Global;
use wm_bodies::identifiers::Names;
use wm_bodies::op_immediates::{close, id, open, refuse, word};
use wm_syntax::modules::Module;
use wm_syntax::profile::{Feature, Profile};
use wm_tokens::faults::{TextFault, TextRefusal, TextWhy};
use wm_tokens::lexeme::{check_tokens, first_float, next_token};

/// Reads `( module id?`. The identifier is ignored.
#[tactic(auto, using(wm_bodies::proofs::Ends::open_stands))]
fn frame(text: &[u8]) -> Result<&[u8], TextFault>
    ensures read { Reads (λ r. lexed r.now) result (modules.frame_at (lexed text.now)) }
    ensures nothing { lexed text.now ≡ [] → IfErr result (λ e. e.why ≡ Expected) }
{
    let rest = open(text)?;
    let rest = word(b"module", rest)?;
    let (_id, rest) = id(rest);
    Ok(rest)
}

/// Fails with `Expected` if a token is left.
fn end(text: &[u8]) -> Result<(), TextFault>
    ensures read { Reads (λ _. tt) result (modules.end_at (lexed text.now)) }
    ensures name { IfErr result (λ e. e.why ≡ Expected) }
{
    match next_token(text) {
        None => Ok(()),
        Some(_) => Err(refuse(TextWhy::Expected, text)),
    }
}

/// Returns what the fields of a module define. After them, only its closing parenthesis may be left.
fn all_names<'a>(alloc: Global, profile: Profile, text: &'a [u8]) -> Result<Names<'a>, TextFault>
    ensures read { Reads (λ n. names_of n) result (modules.all_names_at profile (lexed text.now)) }
    ensures followed { IfErr result (λ e. e.why ≢ Memory → (names : words.Names) (k : List Token)
        → names_at profile (lexed text.now) ≡ Some (names, close_paren ∷ k) → e.why ≡ Expected) }
{
    let (names, rest) = read_heads(alloc, profile, text)?;
    let rest = close(rest)?;
    end(rest)?;
    Ok(names)
}

/// Reads fields and a closing parenthesis, and returns the module of these fields.
fn module_within<'a>(
    alloc: Global,
    profile: Profile,
    names: &Names<'a>,
    text: &'a [u8],
) -> Result<Module, TextFault>
    requires { IsTail (lexed text.now) }
    ensures { Reads value_of result (modules.module_within profile (names_of names.now) (lexed text.now)) }
{
    let (module, rest) = read_fields(alloc, profile, names, text)?;
    close(rest)?;
    Ok(module)
}

/// Reads the module of a whole text in two passes: first what its fields define, then the fields.
#[tactic(auto, using(crate::proofs::Frames::frame_stands), unfolding(crate::specs::exact::TextModules::module_at))]
fn read_module(alloc: Global, profile: Profile, text: &[u8]) -> Result<Module, TextFault>
    ensures read { Reads value_of result (modules.module_at profile (lexed text.now)) }
    ensures nothing { lexed text.now ≡ [] → IfErr result (λ e. e.why ≡ Expected) }
    ensures followed { IfErr result (λ e. e.why ≢ Memory
        → modules.IsFollowed profile (lexed text.now) → e.why ≡ Expected) }
{
    let inner = frame(text)?;
    let names = all_names(alloc, profile, inner)?;
    module_within(alloc, profile, &names, inner)
}

/// `read_module` in these spellings. Under `Older` it reads a copy in which older keywords are overwritten.
#[tactic(auto, using(crate::proofs::TextLaws::spelled_laws))]
fn read_spelled(
    alloc: Global,
    profile: Profile,
    spellings: Spellings,
    text: &[u8],
) -> Result<Module, TextFault>
    ensures read { Reads value_of result
        (modules.module_at profile (map (replaced spellings) (lexed text.now))) }
    ensures empty { length text.now ≡ 0 → IfErr result (λ e. IsTrue (can_end e.why)) }
    ensures followed { IfErr result (λ e. e.why ≢ Memory
        → modules.IsFollowed profile (map (replaced spellings) (lexed text.now)) → e.why ≡ Expected) }
{
    match spellings {
        Spellings::Standard => read_module(alloc, profile, text),
        Spellings::Older => {
            let copy = renewed(alloc, text)?;
            read_module(alloc, profile, &copy)
        }
    }
}

/// Reads the module that a text writes, which must be of the profile. Core spec chapter 6. Under `Older`, each older
/// keyword counts as that of the standard. Offsets are bytes of the text as it was given.
///
/// Unless memory is refused, it returns the first error of the earliest kind.
/// 1. Bytes that are no UTF-8.
/// 2. Lexical errors; one is a float literal under a profile without floats.
/// 3. Errors in what the fields define.
/// 4. Other errors in fields.
///
/// At the end of the text, an error is `Expected`, `OpenComment`, `OpenString` or `Memory`. If tokens follow a module,
/// the error is `Expected`, unless it is `Memory`, or `BadToken` for a float literal that the profile lacks.
pub fn read_text(
    alloc: Global,
    profile: Profile,
    spellings: Spellings,
    text: &[u8],
) -> Result<Module, TextRefusal>
    ensures written { IfOk result (λ m. (k : List Token) × Tokens text.now k
        × Writes profile (map (replaced spellings) k) (value_of m)) }
    ensures refused { IfErr result (λ e. e.why ≢ Memory → (k : List Token) (m : values.Module)
        → Tokens text.now k → Writes profile (map (replaced spellings) k) m → ⊥) }
    ensures at { IfErr result (λ e. e.at ≤ length text.now) }
    ensures end { IfErr result (λ e. e.at ≡ length text.now → IsOfEnd e.why) }
    ensures utf8 { IfErr result (λ e. (e.why ≡ NotUtf8) ↔ (¬ (IsUtf8 text.now))) }
    ensures utf8_at { IfErr result (λ e. e.why ≡ NotUtf8 → IsValidUpTo text.now e.at) }
    ensures fault { IfErr result (λ e. e.why ≢ Memory
        → TellsFault (has profile Floats) text.now e.why e.at) }
    ensures followed { IfErr result (λ e. e.why ≢ Memory → e.why ≢ BadToken → (j k : List Token) (t : Token)
        (m : values.Module) → Tokens text.now (j ++ t ∷ k) → Writes profile (map (replaced spellings) j) m
        → e.why ≡ Expected) }
{
    match check_tokens(text) {
        Ok(()) => read_tokens(alloc, profile, spellings, text),
        Err(refusal) => match refusal.why {
            TextWhy::NotUtf8 => Err(refusal),
            _ => Err(told_first(profile, text, refusal)),
        },
    }
}

/// `read_text` for a text that has tokens, if float literals count as tokens under each profile.
#[tactic(auto, using(crate::proofs::TextLaws::text_laws))]
fn read_tokens(
    alloc: Global,
    profile: Profile,
    spellings: Spellings,
    text: &[u8],
) -> Result<Module, TextRefusal>
    requires { Tokens text.now (lexed text.now) }
    ensures written { IfOk result (λ m. (k : List Token) × Tokens text.now k
        × Writes profile (map (replaced spellings) k) (value_of m)) }
    ensures refused { IfErr result (λ e. e.why ≢ Memory → (k : List Token) (m : values.Module)
        → Tokens text.now k → Writes profile (map (replaced spellings) k) m → ⊥) }
    ensures at { IfErr result (λ e. e.at ≤ length text.now) }
    ensures end { IfErr result (λ e. e.at ≡ length text.now → IsOfEnd e.why) }
    ensures fault { IfErr result (λ e. e.why ≢ Memory
        → TellsFault (has profile Floats) text.now e.why e.at) }
    ensures utf8 { IfErr result (λ e. e.why ≢ NotUtf8) }
    ensures followed { IfErr result (λ e. e.why ≢ Memory → e.why ≢ BadToken → (j k : List Token) (t : Token)
        (m : values.Module) → Tokens text.now (j ++ t ∷ k) → Writes profile (map (replaced spellings) j) m
        → e.why ≡ Expected) }
{
    match read_spelled(alloc, profile, spellings, text) {
        Ok(module) => Ok(module),
        Err(fault) => Err(told_first(profile, text, fault.refusal(text))),
    }
}

/// Returns the refusal of a UTF-8 text, given the one that it has if float literals are tokens. Under a profile without
/// floats, a literal such as `1.5` is no token. The first one before any lexical error is then refused as `BadToken`,
/// unless memory was refused.
fn told_first(profile: Profile, text: &[u8], refusal: TextRefusal) -> TextRefusal
    requires at { refusal.at ≤ length text.now }
    requires end { refusal.at ≡ length text.now → IsOfEnd refusal.why }
    requires utf8 { IsUtf8 text.now }
    requires fault { TellsFault true text.now refusal.why refusal.at }
    ensures at { result.at ≤ length text.now }
    ensures end { result.at ≡ length text.now → IsOfEnd result.why }
    ensures memory { refusal.why ≡ Memory → result.why ≡ Memory }
    ensures same { result.why ≢ BadToken → result.why ≡ refusal.why }
    ensures utf8 { refusal.why ≢ NotUtf8 → result.why ≢ NotUtf8 }
    ensures fault { result.why ≢ Memory → TellsFault (has profile Floats) text.now result.why result.at }
{
    if profile.has(Feature::Floats) {
        return refusal;
    }
    match refusal.why {
        TextWhy::Memory => refusal,
        _ => match first_float(text) {
            Some(at) => TextRefusal {
                at,
                why: TextWhy::BadToken,
            },
            None => refusal,
        },
    }
}
