//! The calls for the name of a refusal, for its meaning, for what a refused byte begins, and for the version.

ghost use Rattle.std.specs.Prelude.{◌≡◌, ◌≢◌, ◌<◌, ◌++◌, ◌∷◌, ℕ, List, [], IfSome, None, length};
ghost use Rattle.wm_c.specs.Names.{HasHint, HasName, HasRow, IsWritten, explanation, hint_text};
ghost use Rattle.wm_refusals.specs.declared.hints.Hint.{Hint as AHint};
ghost use Rattle.wm_refusals.specs.declared.rows.Row.{Row as ARow};

use crate::codes::{text_of, why_of};
use crate::output::TOO_LARGE;
use crate::place::Place;
use wm_refusals::hints::{Hint, hint_for};
use wm_refusals::rows::{Row, row_of_module, row_of_text};

/// The most bytes of a part of a hint. No part in the table is as long: the bound shows that each hint fits into
/// `WMOD_EXPLAIN_ROOM`.
const MOST: usize = 340;

/// Writes the name of a refusal and a 0, as far as there is room. Returns the length of the name in bytes, or 0 if
/// no refusal has this number.
#[unsafe(no_mangle)]
pub extern "C" fn wmod_why_name(why: u32, name: &mut [u8]) -> usize
    ensures named { (word : List ℕ) → HasName why word → (result ≡ length word)
        × IsWritten word name.old name.new }
    ensures none { ((word : List ℕ) → HasName why word → ⊥) → (result ≡ 0)
        × IsWritten [] name.old name.new }
{
    let word = word_of(why);
    write(word, name);
    word.len()
}

fn word_of(why: u32) -> &'static [u8]
    ensures named { (word : List ℕ) → HasName why word → result.now ≡ word }
    ensures none { ((word : List ℕ) → HasName why word → ⊥) → result.now ≡ [] }
{
    if let Some(why) = why_of(why) {
        return why.name().as_bytes();
    }
    if let Some(why) = text_of(why) {
        return why.name().as_bytes();
    }
    if why == TOO_LARGE { b"TooLarge" } else { b"" }
}

fn write(word: &[u8], to: &mut [u8])
    ensures { IsWritten word.now to.old to.new }
{
    let room = to.len();
    if room == 0 {
        return;
    }
    let n = word.len().min(room - 1);
    let (front, rest) = to.split_at_mut(n);
    front.copy_from_slice(&word[..n]);
    rest[0] = 0;
}

/// Writes the empty text. Returns its length.
fn write_nothing(to: &mut [u8]) -> usize
    ensures written { IsWritten [] to.old to.new }
    ensures length { result ≡ 0 }
{
    write(b"", to);
    0
}

/// Writes what a refusal means, a line feed, what to do about it and a 0, as far as there is room. Returns the length of
/// the text in bytes, or 0 if no refusal has this number.
#[unsafe(no_mangle)]
pub extern "C" fn wmod_explain(why: u32, text: &mut [u8]) -> usize
    // The text is that of a row for this number.
    ensures written { result ≢ 0 → (row : ARow) × HasRow why row × (result ≡ length (explanation row))
        × IsWritten (explanation row) text.old text.new }
    ensures empty { result ≡ 0 → IsWritten [] text.old text.new }
    ensures none { ((word : List ℕ) → HasName why word → ⊥) → result ≡ 0 }
{
    let Some(row) = row_of(why) else {
        return write_nothing(text);
    };
    write_lines(row.means.as_bytes(), row.advice.as_bytes(), text);
    row.means.len() + 1 + row.advice.len()
}

/// Returns the row of the refusal with this number in the tables of `wmod explain`.
fn row_of(why: u32) -> Option<Row<'static>>
    ensures row { IfSome result (λ row. HasRow why row) }
    ensures none { ((word : List ℕ) → HasName why word → ⊥) → result ≡ None }
{
    if let Some(why) = why_of(why) {
        return row_of_module(why.name());
    }
    if let Some(why) = text_of(why) {
        return row_of_text(why.name());
    }
    if why == TOO_LARGE {
        row_of_module("TooLarge")
    } else {
        None
    }
}

/// Writes what the byte of a place begins in a later version of the standard, the features that this needs, and what to
/// do. Between them are line feeds, and behind them a 0, as far as there is room. Returns the length of the text in
/// bytes, or 0 if the byte begins nothing of a later version there.
#[unsafe(no_mangle)]
pub extern "C" fn wmod_hint(why: u32, place: &Place, text: &mut [u8]) -> usize
    // The text is that of a line of the table for this number.
    ensures written { result ≢ 0 → (hint : AHint) × HasHint why hint × (result ≡ length (hint_text hint))
        × IsWritten (hint_text hint) text.old text.new }
    ensures empty { result ≡ 0 → IsWritten [] text.old text.new }
    // `WMOD_EXPLAIN_ROOM` suffices.
    ensures room { result < 1024 }
{
    match hint_of(why, place) {
        Some(hint) => write_hint(&hint, text),
        None => write_nothing(text),
    }
}

/// Returns the line of the table for the byte of this place, which the refusal with this number refuses.
fn hint_of(why: u32, place: &Place) -> Option<Hint<'static>>
    ensures { IfSome result (λ hint. HasHint why hint) }
{
    let why = why_of(why)?;
    let byte = u8::try_from(place.byte).ok()?;
    hint_for(why, byte, place.spot())
}

/// Writes the three lines of a hint, as `write` writes a word. Returns their length in bytes, or 0 if a part is longer
/// than `MOST`.
fn write_hint(hint: &Hint<'_>, to: &mut [u8]) -> usize
    ensures written { result ≢ 0 → (result ≡ length (hint_text hint.now))
        × IsWritten (hint_text hint.now) to.old to.new }
    ensures empty { result ≡ 0 → IsWritten [] to.old to.new }
    ensures room { result < 1024 }
{
    if hint.begins.len() > MOST || hint.feature.len() > MOST || hint.remedy.len() > MOST {
        return write_nothing(to);
    }
    let before = hint.begins.len() + 1 + hint.feature.len();
    write_lines(hint.begins.as_bytes(), hint.feature.as_bytes(), to);
    append(before, b"\n", to);
    append(before + 1, hint.remedy.as_bytes(), to);
    before + 1 + hint.remedy.len()
}

/// Writes two lines with a line feed between them, as `write` writes a word.
fn write_lines(one: &[u8], other: &[u8], to: &mut [u8])
    ensures { IsWritten ((one.now ++ 10 ∷ []) ++ other.now) to.old to.new }
{
    write(one, to);
    append(one.len(), b"\n", to);
    append(one.len() + 1, other, to);
}

/// Writes a word behind another one, which was written and has `n` bytes.
fn append(n: usize, word: &[u8], to: &mut [u8])
    ensures { (front : List ℕ) (before : List ℕ) → n ≡ length front → IsWritten front before to.old
        → IsWritten (front ++ word.now) before to.new }
{
    if n < to.len() {
        write(word, &mut to[n..]);
    }
}

/// Returns the version of the interface, as `WMOD_VERSION` of the header: major * 65536 + minor.
#[unsafe(no_mangle)]
pub extern "C" fn wmod_version() -> u32
    ensures { result ≡ 65539 }
{
    (1 << 16) + 3
}
