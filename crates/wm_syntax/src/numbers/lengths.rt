//! The length of a number's shortest LEB128 encoding, found without encoding it (Core spec 5.2.2).

ghost use Rattle.std.specs.Prelude.{◌≡◌, ◌≤◌, ◌<◌, length, pos};
ghost use Rattle.wm_syntax.specs.Leb128.{signed_bytes, unsigned_bytes};

/// Returns the length of the shortest encoding of a number, in at most five bytes. Most numbers have one
/// byte.
#[inline(always)]
pub fn number_len(value: u64) -> u64
    ensures value { result ≡ length (unsigned_bytes 5 value) }
    ensures short { result ≤ 5 }
{
    if value < 0x80 {
        1
    } else {
        long_number_len(value)
    }
}

// Out of line: the length for a number of more than one byte.
#[inline(never)]
fn long_number_len(value: u64) -> u64
    requires { 128 ≤ value }
    ensures value { result ≡ length (unsigned_bytes 5 value) }
    ensures short { result ≤ 5 }
{
    match value {
        0..=0x3FFF => 2,
        0x4000..=0x1F_FFFF => 3,
        0x20_0000..=0xFFF_FFFF => 4,
        _ => 5,
    }
}

/// Returns the length of the shortest encoding of a signed number, in at most `most` bytes. Most numbers have
/// one byte.
#[inline(always)]
pub fn signed_len(value: i64, most: u64) -> u64
    requires some { 0 < most }
    requires ten { most ≤ 10 }
    ensures value { result ≡ length (signed_bytes most value) }
    ensures short { result ≤ most }
{
    if value >= -0x40 && value < 0x40 {
        1
    } else {
        long_signed_len(value, most)
    }
}

// Out of line: the length for any number.
#[inline(never)]
#[tactic(auto, using(crate::proofs::Lengths::negative_len))]
fn long_signed_len(value: i64, most: u64) -> u64
    requires { most ≤ 10 }
    ensures value { result ≡ length (signed_bytes most value) }
    ensures short { result ≤ most }
{
    if value >= 0 {
        positive_len(value as u64, most)
    } else {
        // -1 - n has as many bytes as n
        positive_len(!value as u64, most)
    }
}

// Returns the length of the shortest encoding of a number that is not negative, as a signed one in at most
// `most` bytes.
fn positive_len(value: u64, most: u64) -> u64
    requires { most ≤ 10 }
    ensures value { result ≡ length (signed_bytes most (pos value)) }
    ensures short { result ≤ most }
{
    let mut rest = value;
    for before in 0..most {
        if rest < 0x40 {
            return before + 1;
        }
        rest /= 0x80;
    }
    most
}
