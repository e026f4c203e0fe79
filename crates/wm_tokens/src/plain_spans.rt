//! Spans of a text that consist of white space bytes and plain atoms: keywords, identifiers and decimal digits.
//! A shift-based DFA, as Per Vognsen described it, skips such a span without a branch on any byte.

ghost use Rattle.std.specs.Prelude.{◌≡◌, ◌≤◌, ◌%◌, length};
ghost use Rattle.wm_tokens.specs.inner.PlainSpans.{AtHand, Passes, after_byte, place_of};

use crate::scan::after_spaces;

// The transitions of the DFA: a row for each byte. A state is a bit position in a row, and the five bits there
// are the next state. State 0 is outside atoms, 5 in a keyword or an identifier, 10 in digits, and 15 after the
// `$` of an identifier. A byte that no span has leads to state 20, which is never left.
const NOTHING: u32 = 0;

const STOPPED: u32 = 20;

const SPACE: u32 = 0x14A_0000;

const LOWER: u32 = 0x142_D0A5;

const DIGIT: u32 = 0x142_A8AA;

const DOLLAR: u32 = 0x142_D0AF;

/// A character of atoms that begins no plain atom.
const OTHER: u32 = 0x142_D0B4;

const STOPS: u32 = 0x14A_5294;

static ROWS: [u32; 256] = [
    STOPS, STOPS, STOPS, STOPS, STOPS, STOPS, STOPS, STOPS, STOPS, SPACE, SPACE, STOPS, STOPS,
    SPACE, STOPS, STOPS, STOPS, STOPS, STOPS, STOPS, STOPS, STOPS, STOPS, STOPS, STOPS, STOPS,
    STOPS, STOPS, STOPS, STOPS, STOPS, STOPS, SPACE, OTHER, STOPS, OTHER, DOLLAR, OTHER, OTHER,
    OTHER, STOPS, STOPS, OTHER, OTHER, STOPS, OTHER, OTHER, OTHER, DIGIT, DIGIT, DIGIT, DIGIT,
    DIGIT, DIGIT, DIGIT, DIGIT, DIGIT, DIGIT, OTHER, STOPS, OTHER, OTHER, OTHER, OTHER, OTHER,
    OTHER, OTHER, OTHER, OTHER, OTHER, OTHER, OTHER, OTHER, OTHER, OTHER, OTHER, OTHER, OTHER,
    OTHER, OTHER, OTHER, OTHER, OTHER, OTHER, OTHER, OTHER, OTHER, OTHER, OTHER, OTHER, OTHER,
    STOPS, OTHER, STOPS, OTHER, OTHER, OTHER, LOWER, LOWER, LOWER, LOWER, LOWER, LOWER, LOWER,
    LOWER, LOWER, LOWER, LOWER, LOWER, LOWER, LOWER, LOWER, LOWER, LOWER, LOWER, LOWER, LOWER,
    LOWER, LOWER, LOWER, LOWER, LOWER, LOWER, STOPS, OTHER, STOPS, OTHER, STOPS, STOPS, STOPS,
    STOPS, STOPS, STOPS, STOPS, STOPS, STOPS, STOPS, STOPS, STOPS, STOPS, STOPS, STOPS, STOPS,
    STOPS, STOPS, STOPS, STOPS, STOPS, STOPS, STOPS, STOPS, STOPS, STOPS, STOPS, STOPS, STOPS,
    STOPS, STOPS, STOPS, STOPS, STOPS, STOPS, STOPS, STOPS, STOPS, STOPS, STOPS, STOPS, STOPS,
    STOPS, STOPS, STOPS, STOPS, STOPS, STOPS, STOPS, STOPS, STOPS, STOPS, STOPS, STOPS, STOPS,
    STOPS, STOPS, STOPS, STOPS, STOPS, STOPS, STOPS, STOPS, STOPS, STOPS, STOPS, STOPS, STOPS,
    STOPS, STOPS, STOPS, STOPS, STOPS, STOPS, STOPS, STOPS, STOPS, STOPS, STOPS, STOPS, STOPS,
    STOPS, STOPS, STOPS, STOPS, STOPS, STOPS, STOPS, STOPS, STOPS, STOPS, STOPS, STOPS, STOPS,
    STOPS, STOPS, STOPS, STOPS, STOPS, STOPS, STOPS, STOPS, STOPS, STOPS, STOPS, STOPS, STOPS,
    STOPS, STOPS, STOPS, STOPS, STOPS, STOPS, STOPS, STOPS, STOPS, STOPS, STOPS, STOPS, STOPS,
    STOPS, STOPS, STOPS, STOPS, STOPS, STOPS, STOPS, STOPS, STOPS,
];

/// The state after one more byte, in the lowest five bits. The bits above mean nothing.
#[inline(always)]
fn after(hand: u32, byte: u8) -> u32
    ensures { (h : AtHand) → hand % 32 ≡ place_of h → result % 32 ≡ place_of (after_byte h byte) }
{
    ROWS[byte as usize] >> (hand % 32)
}

/// Returns the text after a span at its start, or after a part of the span. It takes eight bytes a step, and a
/// step may end inside an atom. It may return the text unchanged: only speed depends on that.
#[inline(never)]
fn after_span(text: &[u8]) -> &[u8]
    ensures passes { Passes text.now result.now }
    ensures within { length result.now ≤ length text.now }
{
    let mut hand = NOTHING;
    let mut i = 0;
    let mut end = 0;
    while text.len() - i >= 8 {
        hand = after(hand, text[i]);
        hand = after(hand, text[i + 1]);
        hand = after(hand, text[i + 2]);
        hand = after(hand, text[i + 3]);
        hand = after(hand, text[i + 4]);
        hand = after(hand, text[i + 5]);
        hand = after(hand, text[i + 6]);
        hand = after(hand, text[i + 7]);
        if hand % 32 == STOPPED {
            break;
        }
        i += 8;
        if hand % 32 == NOTHING {
            end = i;
        }
    }
    let (_, rest) = text.split_at(end);
    rest
}

/// Returns the text after white space bytes and a span at its start, or after a part of these. A span is tried
/// only where a plain atom begins, since parentheses are close to each other. It may return the text unchanged:
/// only speed depends on that.
#[inline(always)]
#[tactic(auto, using(crate::proofs::PlainSpans::span_laws))]
pub fn after_spans(text: &[u8]) -> &[u8]
    ensures passes { Passes text.now result.now }
    ensures within { length result.now ≤ length text.now }
{
    let rest = after_spaces(text);
    match rest {
        [b'a'..=b'z' | b'0'..=b'9' | b'$', ..] => after_spaces(after_span(rest)),
        _ => rest,
    }
}
