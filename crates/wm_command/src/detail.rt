//! The line on standard error that says more about a refusal: its place, what was found there, and what is wrong.

ghost use Rattle.std.specs.Prelude.{◌≡◌, ◌≤◌, None, drop, length, take};

use crate::arguments::Line;
use crate::complaint::{Escaped, complain};
use crate::expected::{Expected, expected_at};
use crate::position::{Position, is_first, locate};
use crate::status::Status;
use std::fmt;
use wm_decode::{Place, Refusal};
use wm_read::faults::{TextRefusal, TextWhy};
use wm_refusals::hints::{hint_for, section_name};
use wm_refusals::rows::{Row, row_of_module, row_of_text};
use wm_rules::Found;
use wm_syntax::why::Why;

/// The most bytes of a token that are shown.
const MOST: usize = 40;

/// How a run ended.
#[derive(Clone, Copy)]
pub struct Ended {
    pub status: Status,
    /// `None` if the input is not refused.
    pub detail: Option<Detail>,
}

impl Ended {
    /// Returns the end of a run without a refusal.
    pub fn with(status: Status) -> Ended
        ensures status { result.status ≡ status }
        ensures detail { result.detail ≡ None }
    {
        Ended {
            status,
            detail: None,
        }
    }
}

/// A refusal, with its place.
#[derive(Clone, Copy)]
pub enum Detail {
    /// A binary is refused. `found` is `None` if it is not known what decides, and for a text longer than the limit.
    Input {
        refusal: Refusal,
        found: Option<Found>,
    },
    /// A text is refused.
    Text(TextDetail),
    /// The module of a text is refused. The offset and what was found are those of its canonical binary. `found` is
    /// `None` if memory was refused when it was looked for.
    Built {
        refusal: Refusal,
        found: Option<Found>,
    },
    /// A section of the canonical binary of a text's module is too large.
    TooLarge,
}

/// The refusal of a text, with its line, its column and its token.
#[derive(Clone, Copy)]
pub struct TextDetail {
    pub at: usize,
    pub why: TextWhy,
    pub line: usize,
    pub column: usize,
    pub token: Token,
    /// The only kind of token that may come here. `None` if several may, if the tokens before it begin no module, or if
    /// `why` is not `Expected`.
    pub expected: Option<Expected>,
}

/// The start of the token that decides a refusal.
#[derive(Clone, Copy)]
pub struct Token {
    bytes: [u8; MOST],
    // the number of bytes that are in use
    used: usize,
    // whether the token has more bytes
    is_cut: bool,
    ghost within: { used ≤ 40 },
}

/// Whether a byte ends a token that it does not begin.
fn ends_token(byte: u8) -> bool {
    matches!(
        byte,
        b' ' | b'\t' | b'\n' | b'\r' | b'(' | b')' | b'"' | b';'
    )
}

/// Returns the length of the string at the front of this text, with its quotation marks. A string that does not end
/// has the length of the text. A string that is too long to be shown has any length above `MOST`.
fn string_length(text: &[u8]) -> usize
    ensures { result ≤ length text.now }
{
    // the first quotation mark opens the string
    let mut is_escaped = true;
    for (i, byte) in text.iter().enumerate() {
        if i > MOST {
            return i;
        }
        if is_escaped {
            is_escaped = false;
        } else if *byte == b'"' {
            return i + 1;
        } else {
            is_escaped = *byte == b'\\';
        }
    }
    text.len()
}

/// Returns the length of the token at the front of this text, or 0 if the text is empty. A token that is too long to be
/// shown has any length above `MOST`.
fn token_length(text: &[u8]) -> usize
    ensures { result ≤ length text.now }
{
    match text {
        [] => 0,
        [b'"', ..] => string_length(text),
        [b'(' | b')', ..] => 1,
        _ => {
            for (i, byte) in text.iter().enumerate() {
                if i > MOST || i > 0 && ends_token(*byte) {
                    return i;
                }
            }
            text.len()
        }
    }
}

/// Returns the length of the front of a token that is shown. It ends before a character if the token is UTF-8.
fn shown_length(token: &[u8]) -> usize
    ensures whole { result ≤ length token.now }
    ensures most { result ≤ 40 }
{
    if token.len() <= MOST {
        return token.len();
    }
    match (
        is_first(token[MOST]),
        is_first(token[MOST - 1]),
        is_first(token[MOST - 2]),
    ) {
        (true, _, _) => MOST,
        (_, true, _) => MOST - 1,
        (_, _, true) => MOST - 2,
        _ => MOST - 3,
    }
}

impl Token {
    ghost use Rattle.wm_command.specs.Details.{shown_of};

    /// Returns the token at this offset of a text, cut after 40 bytes. It is empty at the end of the text.
    pub fn at(text: &[u8], at: usize) -> Token
        requires { at ≤ length text.now }
        ensures { shown_of result ≡ take result.used (drop at text.now) }
    {
        let rest = &text[at..];
        let all = token_length(rest);
        let length = shown_length(&rest[..all]);
        let mut bytes = [0u8; MOST];
        bytes[..length].copy_from_slice(&rest[..length]);
        Token {
            bytes,
            used: length,
            is_cut: length < all,
        }
    }

    /// Returns the bytes that are shown.
    pub fn shown(&self) -> &[u8]
        ensures { result.now ≡ shown_of self.now }
    {
        &self.bytes[..self.used]
    }
}

impl fmt::Display for Token {
    fn fmt<W: fmt::Write>(&self, f: &mut fmt::Formatter<W>) -> fmt::Result {
        if self.used == 0 {
            return f.write_str("the end of the text");
        }
        f.write_str("`")?;
        for chunk in self.shown().utf8_chunks() {
            write!(f, "{}", Escaped(chunk.valid()))?;
            for byte in chunk.invalid() {
                write!(f, "\\x{byte:02x}")?;
            }
        }
        f.write_str(if self.is_cut { "...`" } else { "`" })
    }
}

/// The first sentence on what a NAME means, with a small letter and no full stop. It is empty if there is no row.
#[derive(Clone, Copy)]
struct Meaning<'a>(Option<Row<'a>>);

impl fmt::Display for Meaning<'_> {
    fn fmt<W: fmt::Write>(&self, f: &mut fmt::Formatter<W>) -> fmt::Result {
        let Some(row) = &self.0 else {
            return Ok(());
        };
        let sentence = match row.means.split_once(". ") {
            Some((first, _)) => first,
            None => row.means.strip_suffix('.').unwrap_or(row.means),
        };
        let mut chars = sentence.chars();
        match chars.next() {
            Some(first) => write!(f, "{}{}", first.to_ascii_lowercase(), chars.as_str()),
            None => Ok(()),
        }
    }
}

impl TextDetail {
    ghost use Rattle.wm_command.specs.Details.{text_told};
    ghost use Rattle.wm_command.specs.Refused.{text_line};

    /// Returns what is known of the refusal of a text.
    pub fn of(text: &[u8], refusal: TextRefusal) -> TextDetail
        requires { refusal.at ≤ length text.now }
        ensures why { result.why ≡ refusal.why }
        ensures told { text_told result ≡ text_line text.now refusal.at refusal.why }
    {
        let TextRefusal { at, why } = refusal;
        let Position { line, column } = locate(text, at);
        let expected = match why {
            TextWhy::Expected | TextWhy::NotConst => expected_at(text, at),
            _ => None,
        };
        TextDetail {
            at,
            why,
            line,
            column,
            token: Token::at(text, at),
            expected,
        }
    }
}

impl fmt::Display for TextDetail {
    fn fmt<W: fmt::Write>(&self, f: &mut fmt::Formatter<W>) -> fmt::Result {
        let TextDetail {
            at: _,
            why,
            line,
            column,
            token,
            expected,
        } = self;
        write!(f, "{line}:{column}: found {token}")?;
        match expected {
            Some(expected) => write!(f, ", expected {expected}"),
            None => write!(f, ": {}", Meaning(row_of_text(why.name()))),
        }
    }
}

/// The sentence on a refusal of a binary.
fn meaning_of(why: Why) -> Meaning<'static> {
    Meaning(row_of_module(why.name()))
}

/// The item of a section that a refusal is in: its kind and its index.
#[derive(Clone, Copy)]
struct Item(Found, Place);

impl fmt::Display for Item {
    fn fmt<W: fmt::Write>(&self, f: &mut fmt::Formatter<W>) -> fmt::Result {
        let Item(found, place) = self;
        let section = section_name(place.section);
        let Some(item) = place.item else {
            return match place.section {
                0 => f.write_str("a custom section"),
                _ => write!(f, "the size or the count of the {section} section"),
            };
        };
        let (kind, before) = match place.section {
            3 | 10 => ("function", found.imported.functions),
            6 => ("global", found.imported.globals),
            8 => return f.write_str("the start section"),
            9 => ("element segment", 0),
            11 => ("data segment", 0),
            _ => (section, 0),
        };
        let index = before.saturating_add(u64::from(item));
        write!(f, "{kind} {index} ({section} section)")
    }
}

/// A refusal of a binary, with what was found.
#[derive(Clone, Copy)]
struct Refused(Refusal, Found);

impl Refused {
    /// Writes the deciding byte, or the end of the input, and the item that it is in.
    fn place<W: fmt::Write>(&self, f: &mut fmt::Formatter<W>) -> fmt::Result {
        let Refused(refusal, found) = self;
        match found.byte {
            Some(byte) => write!(f, "byte {byte:#04x} at {:#x}", refusal.at.saturating_sub(1))?,
            None => write!(f, "the input ends at {:#x}", refusal.at)?,
        }
        match (found.place, found.byte) {
            (Some(place), Some(_)) => write!(f, ", {}", Item(*found, place)),
            (Some(place), None) => write!(f, ", in {}", Item(*found, place)),
            (None, _) if refusal.at <= 8 => f.write_str(", in the header"),
            (None, Some(_)) => f.write_str(", a section id"),
            (None, None) => Ok(()),
        }
    }
}

impl fmt::Display for Refused {
    fn fmt<W: fmt::Write>(&self, f: &mut fmt::Formatter<W>) -> fmt::Result {
        let Refused(Refusal { at: _, why }, found) = self;
        self.place(f)?;
        let spot = found.place.map(|place| (place.section, place.awaits));
        match found.byte.and_then(|byte| hint_for(*why, byte, spot)) {
            Some(hint) => write!(f, ": {hint}"),
            // the line says already that the input ends
            None if *why == Why::Truncated => Ok(()),
            None => write!(f, ": {}", meaning_of(*why)),
        }
    }
}

impl fmt::Display for Detail {
    fn fmt<W: fmt::Write>(&self, f: &mut fmt::Formatter<W>) -> fmt::Result {
        match self {
            Detail::Input { refusal, found: _ } if refusal.why == Why::TooLong => {
                let limit = refusal.at.saturating_sub(1);
                write!(f, "longer than the limit of {limit} bytes")
            }
            Detail::Input { refusal, found } => match found {
                Some(found) => write!(f, "{}", Refused(*refusal, *found)),
                None => write!(f, "{}", meaning_of(refusal.why)),
            },
            Detail::Text(detail) => write!(f, "{detail}"),
            Detail::Built { refusal, found } => {
                f.write_str("in the canonical binary")?;
                match found {
                    Some(found) => {
                        f.write_str(": ")?;
                        Refused(*refusal, *found).place(f)?;
                    }
                    None => write!(f, " at {:#x}", refusal.at.saturating_sub(1))?,
                }
                write!(f, ": {}", meaning_of(refusal.why))
            }
            Detail::TooLarge => {
                f.write_str("in the canonical binary: a section has 2^32 bytes or more")
            }
        }
    }
}

/// A detail and the name of its file.
#[derive(Clone, Copy)]
struct Named<'a>(&'a str, &'a Detail);

impl fmt::Display for Named<'_> {
    fn fmt<W: fmt::Write>(&self, f: &mut fmt::Formatter<W>) -> fmt::Result {
        write!(f, "{}: {}", Escaped(self.0), self.1)
    }
}

/// Writes a line on standard error for the refusal with which a run of this command line ended, and nothing for another
/// end. A quiet command line has none. It has no contract: none of std states what standard error gets.
pub fn complain_detail<R: Eprint>(rt: &R, line: &Line<'_>, file: &str, ended: &Ended) {
    match (ended.status, &ended.detail) {
        (Status::Refused, Some(detail)) if !line.quiet => complain(rt, &Named(file, detail)),
        _ => {}
    }
}
