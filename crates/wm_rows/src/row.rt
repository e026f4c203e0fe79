//! Parses rows. A row is one of these lines:
//!
//! ```text
//! ACTION [OPTIONS] BYTES
//! place [OPTIONS] BYTES
//! change PLACE [OPTIONS] BYTES
//! changes [OPTIONS] BYTES
//! build [OPTIONS] TEXT
//! build [OPTIONS] many PARTS
//! build [OPTIONS] bytes BYTES
//! ```
//!
//! ACTION is `check`, `stats`, `canon` or `show`. OPTIONS are those of `wmod` without their dashes, in
//! this order: `profile 2` (or another one), `limit N`, `max-functions N`, `max-locals N`, `max-open N` and
//! `old-words`. `profile 3+sign-ext` is `--profile 3 --features sign-ext`. The word `BulkMemory` adds that
//! feature of the library alone.
//! BYTES are words: `H` is the header of a module, and any other is a byte in two hexadecimal digits.
//! In a TEXT, `␊` means a line feed. PARTS are a text too, in which `3*a|b` means `aaab`.
//! `read` instead of `build` allows a text with an invalid module.
//! `place` means where in the module the input is refused.
//! `change` means the 255 inputs with another byte at that place, and `changes` those with another byte at
//! any place.

use std::alloc::Global;
use std::io;
use std::io::ErrorKind;
use wm_read::spellings::Spellings;
use wm_rules::Policy;
use wm_syntax::profile::{Feature, Profile};

pub const HEADER: [u8; 8] = *b"\0asm\x01\0\0\0";

/// The action on an input, by its answer.
#[derive(Clone, Copy)]
pub enum Action {
    /// Whether it is valid.
    Check,
    /// The figures of its bodies.
    Stats,
    /// Its canonical binary.
    Canon,
    /// Its text.
    Show,
    /// Where it is refused, and the byte that decided.
    Place,
    /// The canonical binary of the valid module that the input, a text, writes.
    Build,
    /// The canonical binary of the module that the input, a text, writes, valid or not.
    Read,
    /// The common answer to the inputs with another byte at this place.
    Change(usize),
    /// How many of the inputs with one other byte are valid.
    Changes,
}

/// A parsed row.
#[derive(Drop)]
pub struct Row {
    pub action: Action,
    pub profile: Profile,
    /// The most bytes that a binary may have.
    pub limit: u32,
    pub policy: Policy,
    /// The keywords that a text may use.
    pub spellings: Spellings,
    pub input: Vec<u8>,
}

/// The error for a line that is no row. It ends the program.
fn no_row() -> io::Error {
    io::Error::from(ErrorKind::InvalidData)
}

/// Splits off the first word, and returns it and the rest.
fn first_word(text: &str) -> (&str, &str) {
    text.split_once(' ').unwrap_or((text, ""))
}

/// Parses a number, and returns it and the rest.
fn number(text: &str) -> io::Result<(u32, &str)> {
    let (word, rest) = first_word(text);
    match word.parse::<u32>() {
        Ok(number) => Ok((number, rest)),
        Err(_) => Err(no_row()),
    }
}

/// Parses the action, and returns it and the rest.
fn action_of(line: &str) -> io::Result<(Action, &str)> {
    let (word, rest) = first_word(line);
    match word {
        "check" => Ok((Action::Check, rest)),
        "stats" => Ok((Action::Stats, rest)),
        "canon" => Ok((Action::Canon, rest)),
        "show" => Ok((Action::Show, rest)),
        "place" => Ok((Action::Place, rest)),
        "build" => Ok((Action::Build, rest)),
        "read" => Ok((Action::Read, rest)),
        "changes" => Ok((Action::Changes, rest)),
        "change" => {
            let (place, rest) = number(rest)?;
            Ok((Action::Change(place as usize), rest))
        }
        _ => Err(no_row()),
    }
}

/// Returns the profile with this number, or `None` if there is none.
fn profile_by(number: &str) -> Option<Profile> {
    match number {
        "1" => Some(Profile::ONE),
        "2" => Some(Profile::TWO),
        "3" => Some(Profile::THREE),
        "4" => Some(Profile::FOUR),
        _ => None,
    }
}

/// Returns the features that a word adds, or `None` if it is no word. A word is one of `--features`, or `BulkMemory`.
fn features_by(word: &str) -> Option<&'static [Feature]> {
    match word {
        "sign-ext" => Some(&[Feature::SignExtension]),
        "call-indirect-overlong" => Some(&[Feature::LongIndex]),
        "nontrapping-fptoint" => Some(&[Feature::Saturation]),
        "bulk-memory-opt" => Some(&[Feature::Copies]),
        "bulk-memory" => Some(&[Feature::Copies, Feature::BulkMemory]),
        "compilers" => Some(&[
            Feature::Floats,
            Feature::SignExtension,
            Feature::LongIndex,
            Feature::Saturation,
            Feature::Copies,
            Feature::BulkMemory,
        ]),
        "BulkMemory" => Some(&[Feature::BulkMemory]),
        _ => None,
    }
}

/// Returns the profile of a word: a number, and features that are added to it, each after a `+`.
fn profile_of(word: &str) -> Option<Profile> {
    let mut parts = word.split('+');
    let mut profile = profile_by(parts.next()?)?;
    for part in parts {
        for feature in features_by(part)? {
            profile = profile.with(*feature);
        }
    }
    Some(profile)
}

/// Parses the profile, `ONE` if there is none, and returns it and the rest.
fn profile(text: &str) -> io::Result<(Profile, &str)> {
    let Some(rest) = text.strip_prefix("profile ") else {
        return Ok((Profile::ONE, text));
    };
    let (word, rest) = first_word(rest);
    match profile_of(word) {
        Some(profile) => Ok((profile, rest)),
        None => Err(no_row()),
    }
}

/// Parses the limit, the default of `wmod` if there is none, and returns it and the rest.
fn limit(text: &str) -> io::Result<(u32, &str)> {
    match text.strip_prefix("limit ") {
        Some(rest) => number(rest),
        None => Ok((u32::MAX, text)),
    }
}

/// Parses a limit of the policy, no limit if the option is missing, and returns it and the rest.
fn most<'a>(option: &str, text: &'a str) -> io::Result<(Option<u32>, &'a str)> {
    let (word, rest) = first_word(text);
    if word == option {
        let (most, rest) = number(rest)?;
        Ok((Some(most), rest))
    } else {
        Ok((None, text))
    }
}

/// Parses the policy, and returns it and the rest.
fn policy(text: &str) -> io::Result<(Policy, &str)> {
    let (functions, rest) = most("max-functions", text)?;
    let (locals, rest) = most("max-locals", rest)?;
    let (depth, rest) = most("max-open", rest)?;
    let policy = Policy {
        functions,
        locals,
        depth,
    };
    Ok((policy, rest))
}

/// Parses the spellings, `Standard` if `old-words` is missing, and returns them and the rest.
fn spellings(text: &str) -> (Spellings, &str) {
    match text.strip_prefix("old-words ") {
        Some(rest) => (Spellings::Older, rest),
        None => (Spellings::Standard, text),
    }
}

/// Parses a byte in two hexadecimal digits.
fn byte(word: &str) -> io::Result<u8> {
    match u8::from_str_radix(word, 16) {
        Ok(byte) if word.len() == 2 => Ok(byte),
        _ => Err(no_row()),
    }
}

/// Parses BYTES.
fn bytes(alloc: Global, words: &str) -> io::Result<Vec<u8>> {
    let mut bytes = Vec::new(alloc);
    for word in words.split_whitespace() {
        match word {
            "H" => bytes.extend_from_slice(&HEADER)?,
            _ => bytes.push(byte(word)?)?,
        }
    }
    Ok(bytes)
}

/// Returns the text of PARTS: each part as often as its number says, once if it has none.
fn repeated(alloc: Global, parts: &str) -> io::Result<Vec<u8>> {
    let mut text = Vec::new(alloc);
    for part in parts.split('|') {
        let (times, part) = part.split_once('*').unwrap_or(("1", part));
        let (times, _) = number(times)?;
        for _ in 0..times {
            text.extend_from_slice(part.as_bytes())?;
        }
    }
    Ok(text)
}

/// Parses the text after the action and the options.
fn text(alloc: Global, rest: &str) -> io::Result<Vec<u8>> {
    if let Some(words) = rest.strip_prefix("bytes ") {
        return bytes(alloc, words);
    }
    let text = rest.replace(alloc, "␊", "\n")?;
    match text.as_str().strip_prefix("many ") {
        Some(parts) => repeated(alloc, parts),
        None => Ok(text.as_bytes().to_vec(alloc)?),
    }
}

/// Parses the input after the action and the options.
fn input(alloc: Global, action: Action, rest: &str) -> io::Result<Vec<u8>> {
    match action {
        Action::Build | Action::Read => text(alloc, rest),
        _ => bytes(alloc, rest),
    }
}

/// Parses a line. Fails with `InvalidData` if it is no row.
pub fn read_row(alloc: Global, line: &str) -> io::Result<Row> {
    let (action, rest) = action_of(line)?;
    let (profile, rest) = profile(rest)?;
    let (limit, rest) = limit(rest)?;
    let (policy, rest) = policy(rest)?;
    let (spellings, rest) = spellings(rest);
    let input = input(alloc, action, rest)?;
    Ok(Row {
        action,
        profile,
        limit,
        policy,
        spellings,
        input,
    })
}
