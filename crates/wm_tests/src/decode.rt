//! Tests of the decoder with sinks that record, count or refuse items.

ghost use Rattle.std.specs.Prelude.{◌<◌};

mod expressions;
mod fixtures;
mod rows;
mod sinks;

use fixtures::{HEADER, bytes_of};
use rows::{ALL, CODE_REFUSALS, FLOATS, ITEMS, REFUSALS};
use sinks::{Full, NONE, Recorder, nothing_seen};
use std::alloc::{AllocError, Global};
use std::process::Abort;
use std::test::Fail;
use wm_decode::{Decoder, Refusal};
use wm_machine::laws;
use wm_syntax::profile::Profile;
use wm_syntax::why::Why;

// The lengths of the pieces of an input.
const SIZES: [usize; 2] = [1, 7];

// Returns the recorded items, and `taken` or the refusal.
fn told_by(alloc: Global, decoder: Decoder<Recorder>) -> Result<String, AllocError> {
    let mut told = String::new(alloc);
    for item in decoder.sink().seen.iter() {
        write!(told, "{item}, ")?;
    }
    match decoder.finish() {
        Ok(_recorder) => write!(told, "taken")?,
        Err(refusal) => write!(told, "{} {}", refusal.at, refusal.why.name())?,
    }
    Ok(told)
}

// Decodes an input, and returns what `told_by` does. The first piece has `first` bytes, the others `size`. An empty
// piece follows each of these.
fn told(
    alloc: Global,
    profile: Profile,
    bytes: &[u8],
    first: usize,
    size: usize,
) -> Result<String, AllocError>
    requires { 0 < size }
{
    let mut decoder = Decoder::new(alloc, nothing_seen(alloc), profile, 1000);
    let (front, back) = bytes.split_at(first.min(bytes.len()));
    let _ = decoder.feed(front);
    for piece in back.chunks(size) {
        let _ = decoder.feed(piece);
        let _ = decoder.feed(&[]);
    }
    told_by(alloc, decoder)
}

// Returns the items of an input, each after the number of bytes that complete it.
fn places(alloc: Global, profile: Profile, bytes: &[u8]) -> Result<String, AllocError> {
    let mut decoder = Decoder::new(alloc, nothing_seen(alloc), profile, 1000);
    let mut placed = String::new(alloc);
    let mut at: u64 = 0;
    for piece in bytes.chunks(1) {
        let known = decoder.sink().seen.len();
        let _ = decoder.feed(piece);
        at = at.saturating_add(1);
        for item in decoder.sink().seen.iter().skip(known) {
            write!(placed, "{at} {item}, ")?;
        }
    }
    Ok(placed)
}

// Returns the offset and the name of an input's refusal, or nothing if it is taken.
fn refusal(alloc: Global, profile: Profile, bytes: &[u8]) -> Result<String, AllocError> {
    let mut decoder = Decoder::new(alloc, NONE, profile, 1000);
    let _ = decoder.feed(bytes);
    let mut told = String::new(alloc);
    if let Err(refusal) = decoder.finish() {
        write!(told, "{} {}", refusal.at, refusal.why.name())?;
    }
    Ok(told)
}

// Returns the input of a row. For `body` and `unfinished` the row has only an expression.
fn input_of(
    rt: &impl Abort,
    alloc: Global,
    call: &str,
    words: &str,
) -> Result<Vec<u8>, AllocError> {
    match call {
        "body" => expressions::in_a_body(rt, alloc, words, 0),
        "unfinished" => expressions::in_a_body(rt, alloc, words, 9),
        _ => bytes_of(alloc, words),
    }
}

// Returns the answer to a call: the recorded items, the refusal, or the ops of a body.
fn answer(alloc: Global, profile: Profile, call: &str, bytes: &[u8]) -> Result<String, AllocError> {
    match call {
        "items" => told(alloc, profile, bytes, 0, 1000),
        "places" => places(alloc, profile, bytes),
        "refusal" => refusal(alloc, profile, bytes),
        "body" => expressions::body(alloc, profile, bytes),
        "unfinished" => expressions::unfinished(alloc, profile, bytes),
        _ => Ok(String::new(alloc)),
    }
}

// Expects the same items and the same end, however the input is cut.
fn expect_any_cut(
    rt: &impl Abort,
    alloc: Global,
    profile: Profile,
    row: &str,
    bytes: &[u8],
) -> Result<(), Fail> {
    let whole = told(alloc, profile, bytes, 0, 1000)?;
    for size in SIZES {
        let cut = told(alloc, profile, bytes, 0, size)?;
        assert!(rt;
            cut.as_str() == whole.as_str(),
            "in pieces of {size}: {row}: {cut}"
        );
    }
    for first in 0..bytes.len() {
        let cut = told(alloc, profile, bytes, first, 1000)?;
        assert!(rt;
            cut.as_str() == whole.as_str(),
            "cut at {first}: {row}: {cut}"
        );
    }
    Ok(())
}

// Plays a row, `what is special: CALL BYTES = ANSWER`. The part up to the colon is optional.
fn play_row(rt: &impl Abort, alloc: Global, profile: Profile, row: &str) -> Result<(), Fail> {
    let (left, wanted) = row.split_once(" = ").unwrap_or((row, "no answer"));
    let (_, call) = left.split_once(": ").unwrap_or(("", left));
    let (call, words) = call.split_once(' ').unwrap_or((call, ""));
    let bytes = input_of(rt, alloc, call, words)?;
    let found = answer(alloc, profile, call, bytes.as_slice())?;
    assert!(rt; found.as_str() == wanted, "{row}: {found}");
    expect_any_cut(rt, alloc, profile, row, bytes.as_slice())
}

// Plays rows under a profile, and expects `wanted` of them.
fn play(
    rt: &impl Abort,
    alloc: Global,
    profile: Profile,
    rows: &str,
    wanted: usize,
) -> Result<(), Fail> {
    let mut played = 0_usize;
    for row in rows.lines() {
        play_row(rt, alloc, profile, row)?;
        played = played.saturating_add(1);
    }
    assert_eq!(rt; played, wanted);
    Ok(())
}

// A body with a sign-extension instruction: `TWO` and `FOUR` have it.
const EXTENDED: &str = "H 01 04 01 60 00 00 03 02 01 00 0A 05 01 03 00 C0 0B";

#[test]
fn items_and_their_places(rt: HostRuntime) -> Result<(), Fail> {
    play(&rt, rt.alloc(), Profile::ONE, ITEMS, 17)?;
    play(&rt, rt.alloc(), Profile::FOUR, ITEMS, 17)
}

#[test]
fn what_is_refused(rt: HostRuntime) -> Result<(), Fail> {
    play(&rt, rt.alloc(), Profile::ONE, REFUSALS, 48)?;
    play(&rt, rt.alloc(), Profile::TWO, REFUSALS, 48)
}

#[test]
fn code_that_is_refused(rt: HostRuntime) -> Result<(), Fail> {
    play(&rt, rt.alloc(), Profile::ONE, CODE_REFUSALS, 19)
}

#[test]
fn floats(rt: HostRuntime) -> Result<(), Fail> {
    play(&rt, rt.alloc(), Profile::THREE, FLOATS, 12)?;
    play(&rt, rt.alloc(), Profile::FOUR, FLOATS, 12)
}

#[test]
fn sign_extensions(rt: HostRuntime) -> Result<(), Fail> {
    let bytes = bytes_of(rt.alloc(), EXTENDED)?;
    for profile in [Profile::ONE, Profile::THREE] {
        let found = refusal(rt.alloc(), profile, bytes.as_slice())?;
        assert_eq!(rt; found.as_str(), "24 BadOpcode");
    }
    for profile in [Profile::TWO, Profile::FOUR] {
        let found = refusal(rt.alloc(), profile, bytes.as_slice())?;
        assert_eq!(rt; found.as_str(), "");
    }
    Ok(())
}

#[test]
fn a_sink_that_counts(rt: HostRuntime) -> Result<(), Fail> {
    let mut decoder = Decoder::new(rt.alloc(), NONE, Profile::ONE, 1000);
    for piece in bytes_of(rt.alloc(), ALL)?.chunks(7) {
        let _ = decoder.feed(piece);
    }
    let counter = decoder.finish()?;
    assert_eq!(rt; counter.items, 27);
    assert_eq!(rt; counter.data, 1);
    Ok(())
}

// Two segments, of seven bytes and of none.
const SEGMENTS: &str = "H 0B 12 02 00 41 00 0B 07 01 02 03 04 05 06 07 00 41 00 0B 00";

// The bytes of a segment come in at most one slice for each piece.
#[test]
fn data_come_in_slices(rt: HostRuntime) -> Result<(), Fail> {
    let bytes = bytes_of(rt.alloc(), SEGMENTS)?;
    for cut in 0..=bytes.len() {
        let mut decoder = Decoder::new(rt.alloc(), NONE, Profile::ONE, 1000);
        for piece in [&bytes[..cut], &bytes[cut..]] {
            let before = decoder.sink().slices;
            assert_eq!(rt; decoder.feed(piece), Ok(()));
            assert!(rt;
                decoder.sink().slices <= before.saturating_add(1),
                "cut at {cut}"
            );
        }
        let counter = decoder.finish()?;
        assert_eq!(rt; counter.data, 7, "cut at {cut}");
        let slices = if cut > 16 && cut < 23 { 2 } else { 1 };
        assert_eq!(rt; counter.slices, slices, "cut at {cut}");
    }
    Ok(())
}

// Expects that after this piece the decoder holds `name` bytes of a name, and has passed `items` items to the sink.
fn expect_held(
    rt: &impl Abort,
    decoder: &mut Decoder<Recorder>,
    piece: &[u8],
    name: u64,
    items: usize,
) {
    assert!(rt; decoder.feed(piece).is_ok());
    assert!(rt; decoder.name_len() == name && decoder.sink().seen.len() == items);
}

#[test]
fn a_name_that_goes_on(rt: HostRuntime) {
    let mut decoder = Decoder::new(rt.alloc(), nothing_seen(rt.alloc()), Profile::ONE, 1000);
    expect_held(&rt, &mut decoder, &HEADER, 0, 0);
    expect_held(&rt, &mut decoder, b"\x00\x04\x03ab", 2, 0);
    expect_held(&rt, &mut decoder, b"c\x01\x04\x01\x60", 0, 1);
}

// Returns the refusal of a header under a limit of seven bytes. The first piece has `first` bytes, the others `size`.
fn past_the_limit(alloc: Global, first: usize, size: usize) -> Option<Refusal>
    requires { 0 < size }
{
    let mut decoder = Decoder::new(alloc, NONE, Profile::ONE, 7);
    let (front, back) = HEADER.split_at(first.min(HEADER.len()));
    let _ = decoder.feed(front);
    let _ = decoder.feed(&[]);
    for piece in back.chunks(size) {
        let _ = decoder.feed(piece);
    }
    decoder.feed(&[]).err()
}

#[test]
fn a_limit(rt: HostRuntime) {
    let refusal = Some(Refusal {
        at: 8,
        why: Why::TooLong,
    });
    assert!(rt; past_the_limit(rt.alloc(), 8, 1) == refusal);
    assert!(rt; past_the_limit(rt.alloc(), 7, 1) == refusal);
    assert!(rt; past_the_limit(rt.alloc(), 0, 1) == refusal);
}

// The limit is in the middle of a custom section.
#[test]
fn a_limit_within_custom_bytes(rt: HostRuntime) -> Result<(), Fail> {
    let refusal = Refusal {
        at: 21,
        why: Why::TooLong,
    };
    let mut bytes = bytes_of(rt.alloc(), "H 00 7F 01 61")?;
    bytes.extend_from_slice(&[0; 125])?;
    for size in SIZES {
        let mut decoder = Decoder::new(rt.alloc(), NONE, Profile::ONE, 20);
        for piece in bytes.chunks(size) {
            let _ = decoder.feed(piece);
        }
        assert_eq!(rt; decoder.feed(&[]), Err(refusal), "in pieces of {size}");
    }
    for cut in 0..=bytes.len() {
        let mut decoder = Decoder::new(rt.alloc(), NONE, Profile::ONE, 20);
        let _ = decoder.feed(&bytes[..cut]);
        assert_eq!(rt; decoder.feed(&bytes[cut..]), Err(refusal), "cut at {cut}");
    }
    Ok(())
}

// Returns the refusals of `feed` and of `finish` with a sink that refuses all items.
fn refused_by_full(alloc: Global, bytes: &[u8]) -> (Option<Refusal>, Option<Refusal>) {
    let mut decoder = Decoder::new(alloc, Full {}, Profile::ONE, 1000);
    let answer = decoder.feed(bytes).err();
    (answer, decoder.finish().err())
}

#[test]
fn a_sink_that_refuses(rt: HostRuntime) -> Result<(), Fail> {
    let refusal = Refusal {
        at: 12,
        why: Why::Arity,
    };
    for row in "H 01 04 01 60 00 00\nH 03 04 03 00 00 00".lines() {
        let bytes = bytes_of(rt.alloc(), row)?;
        let found = refused_by_full(rt.alloc(), bytes.as_slice());
        assert!(rt; found == (Some(refusal), Some(refusal)), "{row}");
    }
    Ok(())
}

// From the bytes so far, a decoder keeps a few words and an unfinished name.
#[test]
fn a_decoder_is_small(rt: HostRuntime) {
    assert!(rt; std::mem::size_of::<Decoder<Full>>() <= 136);
}

#[test]
fn laws_are_called(rt: HostRuntime) -> Result<(), Fail> {
    laws::one_reading();
    laws::one_front();
    laws::bytes_are_in_zones();
    laws::items_are_flat();
    laws::module_is_flat();
    laws::items_are_module();
    laws::items_determine_module();
    laws::all_features_have_all();
    laws::more_features_spell_as_much();
    laws::input_is_bytes();
    laws::one_spelling_one_module();
    laws::slices_join::<Recorder>();
    laws::format_names_mean::<Recorder>();
    laws::rule_names_are_of_items::<Recorder>();
    laws::profiles_answer_alike::<Recorder>();
    laws::items_tell_the_profile();
    let told = told(rt.alloc(), Profile::ONE, &HEADER, 0, 1)?;
    assert_eq!(rt; told.as_str(), "taken");
    Ok(())
}
