//! The line and the column of an offset in a text, as editors count them.

ghost use Rattle.std.specs.List.{list_any};
ghost use Rattle.std.specs.Prelude.{◌≡◌, ◌≤◌, ◌==◌, ℕ, Bool, drop, false, filter, length};
ghost use Rattle.wm_command.specs.Refused.{begins_character, behind_last, column_at, line_at};

/// A line and a column, both from 1.
#[derive(Clone, Copy, PartialEq, Eq, Debug)]
pub struct Position {
    pub line: usize,
    pub column: usize,
}

/// Whether a byte of UTF-8 begins a character.
pub(crate) fn is_first(byte: u8) -> bool
    ensures { result ≡ begins_character byte }
{
    byte < 0x80 || byte >= 0xC0
}

/// A kind of byte that is counted.
trait Kind {
    ghost holds: { ℕ → Bool };

    fn has(byte: u8) -> bool
        ensures { result ≡ holds byte };
}

/// A line feed.
struct Feed;

impl Kind for Feed {
    ghost use Rattle.std.specs.Prelude.{◌==◌};

    ghost holds = { λ c. c == 10 };

    #[inline(always)]
    fn has(byte: u8) -> bool {
        byte == b'\n'
    }
}

/// The first byte of a character.
struct First;

impl Kind for First {
    ghost use Rattle.wm_command.specs.Refused.{begins_character};

    ghost holds = { begins_character };

    #[inline(always)]
    fn has(byte: u8) -> bool {
        is_first(byte)
    }
}

/// The number of bytes that are counted at once. It is below 256, so that the count is a byte.
const SPAN: usize = 128;

/// Returns how many of a few bytes are of a kind. The loop counts in a byte and does nothing else, so that it is
/// compiled to instructions on many bytes at once.
fn count_in<K: Kind>(span: &[u8]) -> u8
    requires { length span.now ≤ 128 }
    ensures count { result ≡ length (filter K.holds span.now) }
    ensures few { result ≤ length span.now }
{
    let mut count = 0;
    for byte in span {
        if K::has(*byte) {
            count += 1;
        }
    }
    count
}

/// Returns how many bytes are of a kind.
fn count<K: Kind>(bytes: &[u8]) -> usize
    ensures count { result ≡ length (filter K.holds bytes.now) }
    ensures few { result ≤ length bytes.now }
{
    let mut sum = 0;
    let mut rest = bytes;
    while rest.len() > SPAN {
        let (span, more) = rest.split_at(SPAN);
        sum += usize::from(count_in::<K>(span));
        rest = more;
    }
    sum + usize::from(count_in::<K>(rest))
}

/// Returns an index behind the last line feed. It goes back span by span, and stops in a span that has one.
fn behind_feeds(before: &[u8]) -> usize
    ensures within { result ≤ length before.now }
    ensures none { list_any (λ y. y == 10) (drop result before.now) ≡ false }
{
    let mut from = before.len();
    while from > SPAN && count_in::<Feed>(&before[from - SPAN..from]) == 0 {
        from -= SPAN;
    }
    from
}

/// Returns the bytes after the last line feed, or all bytes if there is none. It reads no line but the last.
fn last_line(before: &[u8]) -> &[u8]
    ensures { result.now ≡ behind_last 10 before.now }
{
    let mut from = behind_feeds(before);
    while from > 0 && before[from - 1] != b'\n' {
        from -= 1;
    }
    &before[from..]
}

/// Returns the line and the column of an offset. The byte 0A alone ends a line, and a column is one character.
pub fn locate(text: &[u8], at: usize) -> Position
    requires { at ≤ length text.now }
    ensures line { result.line ≡ line_at text.now at }
    ensures column { result.column ≡ column_at text.now at }
{
    let before = &text[..at];
    Position {
        line: 1 + count::<Feed>(before),
        column: 1 + count::<First>(last_line(before)),
    }
}
