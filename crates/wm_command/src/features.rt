//! The words of `--features`: their table, what they add to a profile, and the list of them.

ghost use Rattle.std.specs.Prelude.{◌≡◌, ◌<◌, ℕ, List, Contains, IfErr, IfOk, IfSome, MatchOption, length, option_map};
ghost use Rattle.std.specs.Prelude.{[], ◌∷◌};
ghost use Rattle.std.specs.Option.{option_map_or};
ghost use Rattle.wm_command.specs.Lines.{AddsFeatures, AddsWords, HasFeatures, NamesFeatures, words_in};
ghost use Rattle.wm_syntax.specs.declared.profile.Feature.{Feature as AFeature};
ghost use Rattle.wm_syntax.specs.declared.profile.Profile.{Profile as AProfile};

use crate::complaint::Escaped;
use std::alloc::{AllocError, Global};
use std::fmt;
use strsim::jaro_winkler;
use wm_syntax::profile::{Feature, Profile};

/// Passes the rows of the one table of words to the macro `$reader`, after its own arguments. A row has a word, the features
/// that it adds, and what they admit. Each word but the last is LLVM's. `specs/Lines.antt` says what is right.
macro_rules! feature_words {
    ($reader:ident $(, $args:tt)*) => {
        $reader! {
            [$($args)*]
            "sign-ext" => [SignExtension], "the five sign-extension instructions, such as i32.extend8_s";
            "call-indirect-overlong" => [LongIndex], "a table index of several bytes in call_indirect, as clang writes it";
            "nontrapping-fptoint" => [Saturation], "the eight truncations that saturate, such as i32.trunc_sat_f64_s";
            "bulk-memory-opt" => [Copies], "memory.copy and memory.fill";
            "bulk-memory" => [Copies, BulkMemory], "bulk-memory-opt, passive segments, and their instructions, such as memory.init";
            "compilers" => [Floats, SignExtension, LongIndex, Saturation, Copies, BulkMemory], "all of the above, and floats: what clang and rustc emit by default";
        }
    };
}

macro_rules! features_by {
    ([$wanted:ident] $($word:literal => [$($feature:ident),*], $means:literal;)*) => {
        match $wanted {
            $($word => Some(&[$(Feature::$feature),*]),)*
            _ => None,
        }
    };
}

macro_rules! words_with_meanings {
    ([] $($word:literal => [$($feature:ident),*], $means:literal;)*) => {
        &[$(($word, $means)),*]
    };
}

/// Each word, and what its features admit.
const WORDS: &[(&str, &str)] = feature_words!(words_with_meanings);

/// Returns the features that this word names, or `None` if it names none.
fn features_named(word: &str) -> Option<&'static [Feature]>
    ensures { MatchOption result ((features : List AFeature) → NamesFeatures word.now features → ⊥)
        (λ features. NamesFeatures word.now features.now) }
{
    feature_words!(features_by, word)
}

/// Returns the profile with these features added.
fn with_each(base: Profile, features: &[Feature]) -> Profile
    ensures { AddsFeatures base features.now result }
{
    let mut profile = base;
    for feature in features {
        profile = profile.with(*feature);
    }
    profile
}

/// Splits the first word off a list. Returns it, and what is behind its comma if there is one.
fn first_word(list: &str) -> (&str, Option<&str>)
    ensures words { words_in list.now
        ≡ result.0.now ∷ option_map_or (λ rest. words_in rest.now) result.1 [] }
    ensures shorter { IfSome result.1 (λ rest. length rest.now < length list.now) }
{
    match list.split_once(',') {
        Some((word, rest)) => (word, Some(rest)),
        None => (list, None),
    }
}

/// Returns the profile with the features of all words of this list added. Fails with the first word that names none.
pub(crate) fn with_words(base: Profile, list: &str) -> Result<Profile, &str>
    ensures ok { IfOk result (AddsWords base (words_in list.now)) }
    ensures err { IfErr result (λ word. Contains (words_in list.now) word.now
        × ((features : List AFeature) → NamesFeatures word.now features → ⊥)) }
{
    let mut profile = base;
    let mut rest = Some(list);
    'words: while let Some(left) = rest {
        let (word, after) = first_word(left);
        let Some(features) = features_named(word) else {
            return Err(word);
        };
        profile = with_each(profile, features);
        rest = after;
    }
    Ok(profile)
}

/// Returns the profile that a value of `--features` makes of this one: the same if the option is absent, and `None` if a
/// word of the value names no feature.
pub(crate) fn with_features(base: Profile, list: Option<&str>) -> Option<Profile>
    ensures { let said = option_map (λ s. s.now) list.entry in
        MatchOption result ((other p : AProfile) → HasFeatures said other p → ⊥) (HasFeatures said base) }
{
    match list {
        None => Some(base),
        Some(list) => match with_words(base, list) {
            Ok(profile) => Some(profile),
            Err(_) => None,
        },
    }
}

/// Returns a line for each word of `--features`, with what it admits. Fails with `AllocError` if memory is refused.
pub(crate) fn listed(alloc: Global) -> Result<String, AllocError> {
    let longest = WORDS.iter().map(|(word, _)| word.len()).max().unwrap_or(0);
    let mut text = String::new(alloc);
    for (word, means) in WORDS {
        text.push_str(word)?;
        for _ in word.len()..longest {
            text.push(' ')?;
        }
        text.push_str("  ")?;
        text.push_str(means)?;
        text.push('\n')?;
    }
    Ok(text)
}

/// Returns the word of `--features` that is most like this one. Fails with `AllocError` if memory is refused.
pub(crate) fn nearest(alloc: Global, word: &str) -> Result<&'static str, AllocError> {
    nearest_in(alloc, word, WORDS)
}

/// Returns the first of the words that are most like this one. Empty if there are none.
fn nearest_in(
    alloc: Global,
    word: &str,
    words: &[(&'static str, &'static str)],
) -> Result<&'static str, AllocError> {
    let mut found = "";
    let mut greatest = 0.0;
    for (other, _) in words {
        let likeness = jaro_winkler(alloc, word, other)?;
        if found.is_empty() || likeness > greatest {
            found = other;
            greatest = likeness;
        }
    }
    Ok(found)
}

/// A word of a value of `--features` that names no feature, with the nearest word that does, if it is known.
#[derive(Clone, Copy)]
pub(crate) struct NoFeature<'a> {
    pub(crate) word: &'a str,
    pub(crate) nearest: Option<&'a str>,
}

impl fmt::Display for NoFeature<'_> {
    fn fmt<W: fmt::Write>(&self, f: &mut fmt::Formatter<W>) -> fmt::Result {
        let NoFeature { word, nearest } = self;
        if word.is_empty() {
            return f.write_str(
                "--features has an empty word: give words with commas between them, such as sign-ext",
            );
        }
        write!(f, "'{}' is no feature", Escaped(word))?;
        if let Some(nearest) = nearest {
            write!(f, "; nearest: {nearest}")?;
        }
        f.write_str("; wmod check --features help lists all")
    }
}
