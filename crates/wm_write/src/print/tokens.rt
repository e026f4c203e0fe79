//! Prints words: tokens, each with the white space before it (Core spec chapter 6).

ghost use Rattle.std.specs.Prelude.{◌≡◌, ◌+◌, ◌<◌, ◌≤◌, ◌++◌, ◌∷◌, ℕ, List, length, map, replicate};
ghost use Rattle.wm_write.specs.FloatText.{hex_digit};
ghost use Rattle.wm_write.specs.Layout.{global_type_words, is_plain, limits_words};
ghost use Rattle.wm_syntax.specs.Types.{type_text};
ghost use Rattle.wm_write.specs.Layout.{max_words, quoted, table_words, type_use, type_word};
ghost use Rattle.wm_write.specs.Layout.{types_words, word_text, words_text};
ghost use Rattle.wm_write.specs.exact.Writing.{Sent};

use crate::batch::Batch;
use crate::put::{Part, put_bytes, put_each};
use itoa::{Buffer, Integer};
use wm_syntax::io::Dest;
use wm_syntax::types::{GlobalType, Limits, ValType};

/// Writes some bytes and a number in decimal.
pub(crate) fn put_counted<I: Integer, W: Dest>(w: &mut W, written: &mut u64, front: &[u8], n: I)
    ensures { Sent (front.now ++ I.text n) (W.has_failed w.old, W.contents w.old, written.old)
        (W.has_failed w.new, W.contents w.new, written.new) }
{
    let mut buffer = Buffer::new();
    put_bytes(w, written, front);
    put_bytes(w, written, buffer.format(n).as_bytes());
}

/// A value type.
struct TypeWord;

impl Part for TypeWord {
    ghost use Rattle.wm_write.specs.Layout.{type_word, word_text};

    type Value = ValType;

    ghost bytes = { λ t. word_text (type_word t) };

    fn put<W: Dest>(w: &mut W, written: &mut u64, ty: &ValType) {
        put_bytes(w, written, type_bytes(*ty));
    }
}

/// Returns a space and the keyword of a value type.
pub(crate) fn type_bytes(ty: ValType) -> &'static [u8]
    ensures { result.now ≡ 32 ∷ type_text ty }
{
    match ty {
        ValType::I32 => b" i32",
        ValType::I64 => b" i64",
        ValType::F32 => b" f32",
        ValType::F64 => b" f64",
    }
}

/// Writes `head`, the value types and a closing parenthesis, unless there are no types. `head` has white space, an
/// opening parenthesis and a keyword.
pub(crate) fn put_types<W: Dest>(w: &mut W, written: &mut u64, head: &[u8], types: &[ValType])
    ensures { (before word : List ℕ) → head.now ≡ before ++ 40 ∷ word
        → Sent (words_text (types_words before word types.now))
        (W.has_failed w.old, W.contents w.old, written.old)
        (W.has_failed w.new, W.contents w.new, written.new) }
{
    if types.is_empty() {
        return;
    }
    put_bytes(w, written, head);
    put_each::<TypeWord, W>(w, written, types);
    put_bytes(w, written, b")");
}

/// Writes a value type `count` times.
pub(crate) fn put_run<W: Dest>(w: &mut W, written: &mut u64, count: u32, ty: ValType)
    ensures { Sent (words_text (map type_word (replicate count ty)))
        (W.has_failed w.old, W.contents w.old, written.old)
        (W.has_failed w.new, W.contents w.new, written.new) }
{
    for _ in 0..count {
        // Up to 2^32 words may follow. None of them goes out once the writer has failed.
        if w.failed() {
            return;
        }
        TypeWord::put(w, written, &ty);
    }
}

/// Writes limits. Core spec 6.4.4.
pub(crate) fn put_limits<W: Dest>(w: &mut W, written: &mut u64, limits: Limits)
    ensures { Sent (words_text (limits_words limits)) (W.has_failed w.old, W.contents w.old, written.old)
        (W.has_failed w.new, W.contents w.new, written.new) }
{
    put_counted(w, written, b" ", limits.min);
    put_max(w, written, limits.max);
}

// Writes the maximum, if there is one.
fn put_max<W: Dest>(w: &mut W, written: &mut u64, max: Option<u32>)
    ensures { Sent (words_text (max_words max)) (W.has_failed w.old, W.contents w.old, written.old)
        (W.has_failed w.new, W.contents w.new, written.new) }
{
    match max {
        None => {}
        Some(max) => put_counted(w, written, b" ", max),
    }
}

/// Writes a table type. Core spec 6.4.6.
pub(crate) fn put_table_type<W: Dest>(w: &mut W, written: &mut u64, limits: Limits)
    ensures { Sent (words_text (table_words limits)) (W.has_failed w.old, W.contents w.old, written.old)
        (W.has_failed w.new, W.contents w.new, written.new) }
{
    put_limits(w, written, limits);
    put_bytes(w, written, b" funcref");
}

/// Writes a global type. Core spec 6.4.7.
pub(crate) fn put_global_type<W: Dest>(w: &mut W, written: &mut u64, ty: GlobalType)
    ensures { Sent (words_text (global_type_words ty)) (W.has_failed w.old, W.contents w.old, written.old)
        (W.has_failed w.new, W.contents w.new, written.new) }
{
    if ty.var {
        put_bytes(w, written, b" (mut");
        TypeWord::put(w, written, &ty.ty);
        put_bytes(w, written, b")");
    } else {
        TypeWord::put(w, written, &ty.ty);
    }
}

/// Writes a type use. Core spec 6.6.3.
pub(crate) fn put_type_use<W: Dest>(w: &mut W, written: &mut u64, index: u32)
    ensures { Sent (words_text (type_use index)) (W.has_failed w.old, W.contents w.old, written.old)
        (W.has_failed w.new, W.contents w.new, written.new) }
{
    let mut line = Batch::new();
    push_type_use(&mut line, index);
    put_bytes(w, written, line.as_slice());
}

/// Appends a type use to a line.
pub(crate) fn push_type_use(line: &mut Batch, index: u32)
    requires { length line.old + 20 ≤ 64 }
    ensures { line.new ≡ line.old ++ words_text (type_use index) }
{
    line.push_counted(b" (type $t", index);
    line.push(b")");
}

/// Returns a hexadecimal digit, in lower case.
pub(crate) fn hex_digit(n: u8) -> u8
    requires { n < 16 }
    ensures { result ≡ hex_digit n }
{
    if n < 10 { b'0' + n } else { b'a' - 10 + n }
}

fn is_plain(byte: u8) -> bool
    ensures { result ≡ is_plain byte }
{
    byte >= 0x20 && byte <= 0x7E && byte != b'"' && byte != b'\\'
}

/// A byte of a string, escaped if need be. Core spec 6.3.3.
struct Escaped;

impl Part for Escaped {
    ghost use Rattle.wm_write.specs.Layout.{escaped};

    type Value = u8;

    ghost bytes = { escaped };

    fn put<W: Dest>(w: &mut W, written: &mut u64, byte: &u8) {
        if is_plain(*byte) {
            put_bytes(w, written, &[*byte]);
        } else {
            put_bytes(
                w,
                written,
                &[b'\\', hex_digit(*byte / 16), hex_digit(*byte % 16)],
            );
        }
    }
}

/// Writes a space and a string.
pub(crate) fn put_string<W: Dest>(w: &mut W, written: &mut u64, bytes: &[u8])
    ensures { Sent (word_text (quoted bytes.now)) (W.has_failed w.old, W.contents w.old, written.old)
        (W.has_failed w.new, W.contents w.new, written.new) }
{
    put_bytes(w, written, b" \"");
    put_each::<Escaped, W>(w, written, bytes);
    put_bytes(w, written, b"\"");
}
