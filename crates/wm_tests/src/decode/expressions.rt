//! Expressions (Core spec 5.4.6), as bodies of a function of type [] to [] without locals.

use super::fixtures::bytes_of;
use super::play;
use super::sinks::nothing_seen;
use std::alloc::{AllocError, Global};
use std::process::Abort;
use std::test::Fail;
use wm_decode::{Decoder, Refusal};
use wm_syntax::profile::Profile;

// The bytes of a module with one function, up to the code section.
const ONE_FUNCTION: &str = "H 01 04 01 60 00 00 03 02 01 00";

/// Returns a module with these bytes as its one body, at most a hundred. The size of its code entry counts `more` bytes
/// that are missing.
pub fn in_a_body(
    rt: &impl Abort,
    alloc: Global,
    words: &str,
    more: u8,
) -> Result<Vec<u8>, AllocError> {
    let expression = bytes_of(alloc, words)?;
    let len = u8::try_from(expression.len()).expect(rt, "a short expression");
    let size = len.saturating_add(more).saturating_add(1);
    let mut bytes = bytes_of(alloc, ONE_FUNCTION)?;
    bytes.extend_from_slice(&[0x0A, size.saturating_add(2), 1, size, 0])?;
    bytes.extend_from_slice(expression.as_slice())?;
    Ok(bytes)
}

/// Returns the ops of the body, or the name of the refusal.
pub fn body(alloc: Global, profile: Profile, bytes: &[u8]) -> Result<String, AllocError> {
    let (mut told, refusal) = read(alloc, profile, bytes)?;
    if let Some(refusal) = refusal {
        told.clear();
        write!(told, "{}", refusal.why.name())?;
    }
    Ok(told)
}

/// Returns the ops of the body so far, and the name of the refusal.
pub fn unfinished(alloc: Global, profile: Profile, bytes: &[u8]) -> Result<String, AllocError> {
    let (mut told, refusal) = read(alloc, profile, bytes)?;
    if let Some(refusal) = refusal {
        write!(told, " {}", refusal.why.name())?;
    }
    Ok(told)
}

// Returns the ops that the bytes complete, and the refusal if there is one.
fn read(
    alloc: Global,
    profile: Profile,
    bytes: &[u8],
) -> Result<(String, Option<Refusal>), AllocError> {
    let mut decoder = Decoder::new(alloc, nothing_seen(alloc), profile, 1000);
    let _ = decoder.feed(bytes);
    let ops = ops_in(alloc, decoder.sink().seen.as_slice())?;
    Ok((ops, decoder.finish().err()))
}

// Returns the ops among recorded items.
fn ops_in(alloc: Global, seen: &[String]) -> Result<String, AllocError> {
    let mut ops = String::new(alloc);
    let mut between = "";
    for item in seen {
        if let Some(op) = op_in(item.as_str()) {
            write!(ops, "{between}{op}")?;
            between = ", ";
        }
    }
    format!(in alloc; "[{ops}]")
}

fn op_in(item: &str) -> Option<&str> {
    item.strip_prefix("Op(")?.strip_suffix(")")
}

// In turn: nested blocks; a `br_table` with two labels and the default; instructions with immediates; a constant of ten
// bytes.
const WHOLE: &str =
    "body 02 40 03 7F 0C 01 0B 0B 0B = [Block(None), Loop(Some(I32)), Simple(Br(1)), End, End, End]
body 0E 02 00 81 00 0B 0B = [BrTable(2), Label(0), Label(1), Label(11), End]
body 28 02 80 01 11 03 00 3F 00 0B = [Simple(Load(I32Load, MemArg { align: 2, offset: 128 })), Simple(CallIndirect(3)), Simple(MemorySize), End]
body 42 80 80 80 80 80 80 80 80 80 7F 0B = [Simple(I64Const(-9223372036854775808)), End]
";

// C0 is a sign-extension instruction, which profile `ONE` lacks.
const REFUSED: &str = "body 43 = Float
body 44 = Float
body 2A = Float
body A0 = Float
body 02 7D = Float
body 04 7C = Float
body 02 70 = BadByte
body 06 = BadOpcode
body C0 = BadOpcode
body 3F 01 = BadByte
body 11 00 01 = BadByte
body 41 80 80 80 80 10 = BadNumber
body 0E 80 80 80 80 10 = BadNumber
body 0B 0B = BodyEnd
";

// Rows for profiles with floats: whole and cut constants, and float types.
const FLOATS: &str = "body 43 00 00 C0 7F 0B = [Simple(F32Const(2143289344)), End]
body 43 01 02 03 84 0B = [Simple(F32Const(2214789633)), End]
body 44 01 02 03 04 05 06 07 88 0B = [Simple(F64Const(9801809732607083009)), End]
unfinished 43 00 00 C0 = [] Truncated
body 43 00 00 C0 = BodyEnd
unfinished 44 00 00 00 00 00 00 00 = [] Truncated
body 44 00 00 00 00 00 00 00 = BodyEnd
body 02 7D 0B 0B = [Block(Some(F32)), End, End]
body 04 7C 05 0B 0B = [If(Some(F64)), Else, End, End]
body 2B 03 08 8C 0B = [Simple(Load(F64Load, MemArg { align: 3, offset: 8 })), Simple(Numeric(FloatUnary(F32, Neg))), End]
body 02 7B = BadByte
body 06 = BadOpcode
body C0 = BadOpcode
";

// Bodies that are cut: an `if` that ends before the body does, and a `br_table` without its default label. With the
// missing bytes each is a body.
const CUT: &str = "unfinished 04 40 05 0B = [If(None), Else, End] Truncated
body 04 40 05 0B = BodyEnd
body 04 40 05 0B 0B = [If(None), Else, End, End]
unfinished 0E 02 00 01 = [BrTable(2), Label(0), Label(1)] Truncated
body 0E 02 00 01 = BodyEnd
body 0E 02 00 01 00 0B = [BrTable(2), Label(0), Label(1), Label(0), End]
";

#[test]
fn whole_and_refused(rt: HostRuntime) -> Result<(), Fail> {
    play(&rt, rt.alloc(), Profile::ONE, WHOLE, 4)?;
    play(&rt, rt.alloc(), Profile::FOUR, WHOLE, 4)?;
    play(&rt, rt.alloc(), Profile::ONE, REFUSED, 14)?;
    play(&rt, rt.alloc(), Profile::ONE, CUT, 6)
}

#[test]
fn floats(rt: HostRuntime) -> Result<(), Fail> {
    play(&rt, rt.alloc(), Profile::THREE, FLOATS, 13)
}
