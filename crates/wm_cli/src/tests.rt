//! Tests of the program's output and exit statuses.

mod details;
pub(crate) mod ends;
mod expected;
pub(crate) mod faults;
mod inputs;
mod lines;
pub(crate) mod rows;
mod texts;

use details::DETAILS;
use ends::{BROKEN, INTERRUPTED, Mode, Reader, Writer};
use inputs::INPUTS;
use rows::{fail_ends, is_given_back, obey, play};
use std::alloc::Global;
use std::fmt::Display;
use std::io;
use std::io::ErrorKind;
use std::process::Abort;
use std::test::Fail;
use wm_command::arguments::{Action, Inputs, Line, LineFault};
use wm_command::run::run_line;
use wm_command::status::{Status, exit_code};
use wm_command::witness::Witness;
use wm_decode::Refusal;
use wm_read::spellings::Spellings;
use wm_rules::{Found, FromFault, Imported, Policy};
use wm_syntax::io::input::Input;
use wm_syntax::io::output::Output;
use wm_syntax::profile::Profile;
use wm_syntax::why::Why;

const HEADER: [u8; 8] = [0x00, 0x61, 0x73, 0x6D, 0x01, 0x00, 0x00, 0x00];

const LIMIT: u64 = 4294967295;

/// Rows for each action. In two of them a function has 2^32 - 1 locals. Its text has a keyword for each local, so
/// `show` has no row with it.
const COMMANDS: &str = r#"wmod check < H = 0 valid\n
wmod check < = 1 refused at 0: Truncated\n
wmod check --limit 7 < H = 1 refused at 8: TooLong\n
wmod check --limit 8 < H = 0 valid\n
wmod check < H 01 01 00 01 = 1 refused at 12: SectionOrder\n
wmod check < H 01 07 01 60 02 7F 7F 01 7F 03 02 01 00 0A 09 01 07 00 20 00 20 01 6A 0B = 0 valid\n
wmod check < H 01 05 01 60 00 01 7F 03 02 01 00 0A 08 01 06 00 41 FF 01 C0 0B = 1 refused at 28: BadOpcode\n
wmod check --profile 2 < H 01 05 01 60 00 01 7F 03 02 01 00 0A 08 01 06 00 41 FF 01 C0 0B = 0 valid\n
wmod check --profile 2 < H 01 05 01 60 00 01 7F 03 02 01 00 0A 08 01 06 00 41 FF 01 C4 0B = 1 refused at 28: Type\n
wmod check < H 01 04 01 60 00 00 03 02 01 00 0A 11 01 0F 01 FF FF FF FF 0F 7F 20 FE FF FF FF 0F 1A 0B = 0 valid\n
wmod check --profile 3 < H 06 09 01 7D 00 43 01 00 C0 7F 0B = 0 valid\n
wmod check < H 06 09 01 7D 00 43 01 00 C0 7F 0B = 1 refused at 12: Float\n
wmod stats < H = 0 functions 0\nmoves 0\noperands 0\ncontrols 0\nprobes 0\n
wmod stats < H 01 07 01 60 02 7F 7F 01 7F 03 02 01 00 0A 09 01 07 00 20 00 20 01 6A 0B = 0 functions 1\nmoves 8\noperands 2\ncontrols 1\nprobes 0\n
wmod stats < H 01 05 01 60 00 01 7F 03 02 01 00 0A 08 01 06 00 00 0D 00 50 0B = 1 refused at 28: Type\n
wmod stats --profile 2 < H 01 05 01 60 00 01 7F 03 02 01 00 0A 08 01 06 00 41 FF 01 C0 0B = 0 functions 1\nmoves 6\noperands 1\ncontrols 1\nprobes 0\n
wmod stats < H 01 04 01 60 00 00 03 02 01 00 0A 11 01 0F 01 FF FF FF FF 0F 7F 20 FE FF FF FF 0F 1A 0B = 0 functions 1\nmoves 4\noperands 1\ncontrols 1\nprobes 1\n
wmod canon < H 00 05 04 6E 61 6D 65 = 0 \x00asm\x01\x00\x00\x00
wmod canon < H 06 08 01 7F 00 41 FF FF 7F 0B = 0 \x00asm\x01\x00\x00\x00\x06\x06\x01\x7f\x00A\x7f\x0b
wmod canon < H 01 01 00 01 = 1 refused at 12: SectionOrder\n
wmod canon < H 01 04 01 60 00 00 03 02 01 00 0A 05 01 03 00 05 0B = 1 refused at 24: ElsePlace\n
wmod canon --profile 3 < H 06 09 01 7D 00 43 01 00 C0 7F 0B = 0 \x00asm\x01\x00\x00\x00\x06\t\x01}\x00C\x01\x00\xc0\x7f\x0b
wmod show < H = 0 (module)\n
wmod show < H 01 07 01 60 02 7F 7F 01 7F 03 02 01 00 0A 09 01 07 00 20 00 20 01 6A 0B = 0 (module\n  (type $t0 (func (param i32 i32) (result i32)))\n  (func $f0 (type $t0)\n    local.get 0\n    local.get 1\n    i32.add\n  )\n)\n
wmod show < H 05 03 01 00 01 0B 0A 01 00 41 00 0B 04 00 C3 A9 22 = 0 (module\n  (memory $mem0 1)\n  (data $mem0 (offset i32.const 0) \"\\00\\c3\\a9\\22\")\n)\n
wmod show < H 01 04 01 60 00 00 03 02 01 00 0A 05 01 03 00 05 0B = 1 refused at 24: ElsePlace\n
wmod show --profile 2 < H 01 05 01 60 00 01 7F 03 02 01 00 0A 08 01 06 00 41 FF 01 C0 0B = 0 (module\n  (type $t0 (func (result i32)))\n  (func $f0 (type $t0)\n    i32.const 255\n    i32.extend8_s\n  )\n)\n
wmod show --profile 4 < H 06 09 01 7D 00 43 00 00 00 80 0B = 0 (module\n  (global $g0 f32 f32.const -0x0p+0)\n)\n
wmod build < (module) = 0 \x00asm\x01\x00\x00\x00
wmod build < (module (memory $mem0 1) (data $mem0 (offset i32.const 0) "\00\u{e9}\"")) = 0 \x00asm\x01\x00\x00\x00\x05\x03\x01\x00\x01\x0b\n\x01\x00A\x00\x0b\x04\x00\xc3\xa9\"
wmod build < (module (func (type $a))) = 1 text refused at 20 (1:21): UnknownId\n
wmod build < = 1 text refused at 0 (1:1): Expected\n
wmod build < (module (type (func)) (func (type 0) drop)) = 1 module refused at 24: Arity\n
wmod build --profile 2 < (module (type (func (result i32))) (func (type 0) i32.const 255 i32.extend8_s)) = 0 \x00asm\x01\x00\x00\x00\x01\x05\x01`\x00\x01\x7f\x03\x02\x01\x00\n\x08\x01\x06\x00A\xff\x01\xc0\x0b
wmod build < (module (type (func (result i32))) (func (type 0) i32.const 255 i32.extend8_s)) = 1 text refused at 64 (1:65): UnknownWord\n
wmod build --profile 3 < (module (type (func (param f32) (result f64))) (func (type 0) local.get 0 f64.promote_f32)) = 0 \x00asm\x01\x00\x00\x00\x01\x06\x01`\x01}\x01|\x03\x02\x01\x00\n\x07\x01\x05\x00 \x00\xbb\x0b
wmod build --profile 4 < (module (global f64 f64.const 0)) = 0 \x00asm\x01\x00\x00\x00\x06\r\x01|\x00D\x00\x00\x00\x00\x00\x00\x00\x00\x0b
wmod build --limit 7 < (module) = 1 refused at 8: TooLong\n
wmod build --limit 8 < (module) = 0 \x00asm\x01\x00\x00\x00"#;

/// Rows for each action within a policy and beyond it, and for texts with older keywords.
const POLICIES: &str =
    r#"wmod --max-functions 0 check < H 01 07 01 60 02 7F 7F 01 7F 03 02 01 00 0A 09 01 07 00 20 00 20 01 6A 0B = 1 refused at 21: ManyFunctions\n
wmod --max-functions 1 check < H 01 07 01 60 02 7F 7F 01 7F 03 02 01 00 0A 09 01 07 00 20 00 20 01 6A 0B = 0 valid\n
wmod --max-locals 4294967294 check < H 01 04 01 60 00 00 03 02 01 00 0A 11 01 0F 01 FF FF FF FF 0F 7F 20 FE FF FF FF 0F 1A 0B = 1 refused at 29: ManyLocals\n
wmod --max-locals 4294967295 check < H 01 04 01 60 00 00 03 02 01 00 0A 11 01 0F 01 FF FF FF FF 0F 7F 20 FE FF FF FF 0F 1A 0B = 0 valid\n
wmod --max-open 0 check < H 01 04 01 60 00 00 03 02 01 00 0A 0A 01 08 00 41 00 04 40 05 0B 0B = 1 refused at 27: Deep\n
wmod --max-open 1 check < H 01 04 01 60 00 00 03 02 01 00 0A 0A 01 08 00 41 00 04 40 05 0B 0B = 0 valid\n
wmod --max-functions 0 stats < H 01 04 01 60 00 00 03 02 01 00 0A 04 01 02 00 0B = 1 refused at 18: ManyFunctions\n
wmod --max-functions 1 --max-locals 0 --max-open 0 stats < H 01 04 01 60 00 00 03 02 01 00 0A 04 01 02 00 0B = 0 functions 1\nmoves 2\noperands 0\ncontrols 1\nprobes 0\n
wmod --max-locals 0 canon < H 01 04 01 60 00 00 03 02 01 00 0A 06 01 04 01 01 7F 0B = 1 refused at 25: ManyLocals\n
wmod --max-locals 1 canon < H 01 04 01 60 00 00 03 02 01 00 0A 06 01 04 01 01 7F 0B = 0 \x00asm\x01\x00\x00\x00\x01\x04\x01`\x00\x00\x03\x02\x01\x00\n\x06\x01\x04\x01\x01\x7f\x0b
wmod --max-open 0 show < H 01 04 01 60 00 00 03 02 01 00 0A 07 01 05 00 02 40 0B 0B = 1 refused at 25: Deep\n
wmod --max-open 1 show < H 01 04 01 60 00 00 03 02 01 00 0A 07 01 05 00 02 40 0B 0B = 0 (module\n  (type $t0 (func))\n  (func $f0 (type $t0)\n    block\n    end\n  )\n)\n
wmod --max-functions 0 build < (module (type (func)) (func (type 0))) = 1 module refused at 18: ManyFunctions\n
wmod --max-functions 0 build < (module (func (type $a))) = 1 text refused at 20 (1:21): UnknownId\n
wmod --max-functions 1 build < (module (type (func)) (func (type 0))) = 0 \x00asm\x01\x00\x00\x00\x01\x04\x01`\x00\x00\x03\x02\x01\x00\n\x04\x01\x02\x00\x0b
wmod build < (module (type (func (param i32) (result i32))) (func (type 0) get_local 0)) = 1 text refused at 62 (1:63): UnknownWord\n
wmod --old-words build < (module (type (func (param i32) (result i32))) (func (type 0) get_local 0)) = 0 \x00asm\x01\x00\x00\x00\x01\x06\x01`\x01\x7f\x01\x7f\x03\x02\x01\x00\n\x06\x01\x04\x00 \x00\x0b
wmod build < (module (table 1 anyfunc)) = 1 text refused at 17 (1:18): Expected\n
wmod --old-words build < (module (table 1 anyfunc)) = 0 \x00asm\x01\x00\x00\x00\x04\x04\x01p\x00\x01
wmod --old-words build < (module (table 1 funcref)) = 0 \x00asm\x01\x00\x00\x00\x04\x04\x01p\x00\x01
wmod --old-words check < H = words 2"#;

#[test]
fn commands(rt: HostRuntime) -> Result<(), Fail> {
    play(&rt, rt.alloc(), COMMANDS)?;
    play(&rt, rt.alloc(), POLICIES)
}

/// Returns a module with an imported function of 100,000 parameters, and a function that calls it 50,000 times after
/// `unreachable`.
fn wide_calls(alloc: Global) -> Result<Vec<u8>, Fail> {
    let mut bytes = HEADER.to_vec(alloc)?;
    bytes.extend_from_slice(&[0x01, 0xA9, 0x8D, 0x06, 0x02, 0x60, 0xA0, 0x8D, 0x06])?;
    for _ in 0..100_000 {
        bytes.push(0x7F)?;
    }
    bytes.extend_from_slice(&[0x00, 0x60, 0x00, 0x00])?;
    bytes.extend_from_slice(&[
        0x02, 0x05, 0x01, 0x00, 0x00, 0x00, 0x00, 0x03, 0x02, 0x01, 0x01,
    ])?;
    bytes.extend_from_slice(&[0x0A, 0xA7, 0x8D, 0x06, 0x01, 0xA3, 0x8D, 0x06, 0x00, 0x00])?;
    for _ in 0..50_000 {
        bytes.extend_from_slice(&[0x10, 0x00])?;
    }
    bytes.push(0x0B)?;
    Ok(bytes)
}

fn expect_figures(rt: &impl Abort, alloc: Global, module: &[u8]) -> Result<(), Fail> {
    let figures = obey(alloc, "wmod stats", module)?;
    let wanted = r"0 functions 1\nmoves 50002\noperands 0\ncontrols 1\nprobes 0\n";
    assert!(rt; figures.as_str() == wanted, "{figures}");
    Ok(())
}

#[test]
fn figures_of_wide_calls(rt: HostRuntime) -> Result<(), Fail> {
    expect_figures(&rt, rt.alloc(), &wide_calls(rt.alloc())?)
}

#[test]
fn texts_of_wide_calls(rt: HostRuntime) -> Result<(), Fail> {
    assert!(rt; is_given_back(rt.alloc(), &wide_calls(rt.alloc())?)?);
    Ok(())
}

/// Rows for readers and writers that fail after some bytes.
const CUT_OFF: &str = r#"in 0 wmod check < H = 3 ""
in 8 wmod show < H = 3 ""
out 0 wmod check < = 3 ""
out 3 wmod check < H = 3 "val"
out 6 wmod check < H = 3 "valid\n"
out 3 wmod show < H = 3 "(mo""#;

/// The number of runs of `INPUTS` in which an end fails: one for each call that an end gets in a run without a fault.
/// CI prints it.
const FAILED: &str = "40122 readers and 64593 writers that failed";

#[test]
fn readers_and_writers_that_fail(rt: HostRuntime) -> Result<(), Fail> {
    play(&rt, rt.alloc(), CUT_OFF)?;
    let failed = fail_ends(&rt, rt.alloc(), INPUTS)?;
    assert!(rt; failed.as_str() == FAILED, "{failed}");
    Ok(())
}

#[test]
fn details_of_refusals(rt: HostRuntime) -> Result<(), Fail> {
    play(&rt, rt.alloc(), DETAILS)
}

#[test]
fn exit_statuses(rt: HostRuntime) {
    assert!(rt; exit_code(&Ok(Status::Refused)) == 1);
    assert!(rt; exit_code(&Err(LineFault::Words)) == 2);
    let codes = [Status::Done, Status::Refused, Status::Io, Status::Memory].map(Status::code);
    assert!(rt; codes == [0, 1, 3, 4]);
}

/// Returns the line of `wmod check`, with no file.
fn plain_line() -> Line<'static> {
    Line {
        action: Action::Check,
        profile: Profile::ONE,
        limit: LIMIT,
        policy: Policy::no_limits(),
        spellings: Spellings::Standard,
        inputs: Inputs::One(None),
        output: None,
        quiet: false,
    }
}

fn expect_kind(rt: &impl Abort, error: Option<io::Error>, wanted: ErrorKind) {
    match error {
        Some(error) => assert!(rt; error.kind() == wanted, "{error}"),
        None => assert!(rt; false, "no error"),
    }
}

#[test]
fn errors_of_readers_are_kept(rt: HostRuntime) {
    let failing = Mode {
        most: 1,
        fault: INTERRUPTED,
        at: 1,
    };
    let mut source = Input::new(Witness::new(Reader::new(HEADER.as_slice(), failing)));
    let mut dest = Output::new(Vec::new(rt.alloc()));
    let ended = run_line(rt.alloc(), &plain_line(), &mut source, &mut dest);
    assert!(rt; ended.status == Status::Io);
    expect_kind(&rt, source.into_inner().error(), ErrorKind::Interrupted);
}

/// Expects that a witness keeps the error of a writer that fails at this call.
fn expect_kept(rt: &impl Abort, alloc: Global, at: u32) {
    let failing = Mode {
        most: 1,
        fault: BROKEN,
        at,
    };
    let mut source = Input::new(Witness::new(HEADER.as_slice()));
    let mut dest = Output::new(Witness::new(Writer::new(alloc, failing)));
    let ended = run_line(alloc, &plain_line(), &mut source, &mut dest);
    assert!(rt; ended.status == Status::Io);
    assert!(rt; source.into_inner().error().is_none());
    expect_kind(rt, dest.into_inner().error(), ErrorKind::BrokenPipe);
}

#[test]
fn errors_of_writers_are_kept(rt: HostRuntime) {
    expect_kept(&rt, rt.alloc(), 4);
    // the flush fails, after six writes of one byte: `valid` and a line feed
    expect_kept(&rt, rt.alloc(), 7);
}

fn expect_text(
    rt: &impl Abort,
    alloc: Global,
    what: &(impl Display + Drop),
    wanted: &str,
) -> Result<(), Fail> {
    let text = what.to_string(alloc)?;
    assert!(rt; text.as_str() == wanted, "{text}");
    Ok(())
}

#[test]
fn texts_of_refusals(rt: HostRuntime) -> Result<(), Fail> {
    let wanted =
        "refused at 12: SectionOrder (a section appears twice, or after one that must follow it)";
    let refusal = Refusal {
        at: 12,
        why: Why::SectionOrder,
    };
    expect_text(&rt, rt.alloc(), &refusal, wanted)?;
    let imported = Imported {
        functions: 0,
        globals: 0,
    };
    let found = Found {
        byte: None,
        place: None,
        imported,
    };
    expect_text(&rt, rt.alloc(), &FromFault::Refused(refusal, found), wanted)?;
    expect_text(&rt, rt.alloc(), &FromFault::Io, "the reader failed")?;
    expect_text(&rt, rt.alloc(), &Status::Io, "input or output failed")
}
