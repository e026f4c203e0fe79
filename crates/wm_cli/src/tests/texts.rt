//! Tests of `wm_tokens`, `wm_bodies` and `wm_read` where no row of `wm_rows` covers them: the line of a refused text,
//! and the name of its fault. Also calls of their laws, and of the one of `wm_command`.

use super::rows::play;
use std::alloc::Global;
use std::process::Abort;
use std::test::Fail;
use wm_bodies::laws as body_laws;
use wm_command::laws::printed_texts_write_no_other;
use wm_read::faults::{TextRefusal, TextWhy};
use wm_read::laws;
use wm_tokens::laws as token_laws;

/// A refusal with a short text, and the two that are in no row: `TooManyLocals` needs a text of gigabytes, and the
/// command never prints `Memory`.
const REFUSALS: [(TextWhy, &str); 3] = [
    (
        TextWhy::BadToken,
        "text refused at 7: BadToken (no token can be read here)",
    ),
    (
        TextWhy::TooManyLocals,
        "text refused at 7: TooManyLocals (a function declares 2^32 locals or more)",
    ),
    (
        TextWhy::Memory,
        "text refused at 7: Memory (memory ran out)",
    ),
];

/// Labels and locals beyond a small limit. In a text the limit is 2^32, which takes gigabytes.
const TOO_MANY: &str = r#"labels 0 1 2 3 4) = Expected, 4 left
labels 0 1 2 $a) = Expected, 3 left
labels 0 1 $a 3) = UnknownId, 5 left
labels 0 1 2 nop = [0, 1, 2], 4 left
earlier 5 (param i32 i32 i32) (local i32) (local $a i64)) nop = none
earlier 0 (local i32 i32) (local $a i64) (local) = TooManyLocals, 12 left
earlier 12 (local i32 i32) (local $a i64) (local) = none
earlier 11 (local i32 i32) (local $a i64) (local) = TooManyLocals, 12 left
earlier 0 (local i32 i64 i32 i32) = TooManyLocals, 8 left
earlier 0 (local $a i32) (local $a i32) (local i32) = RepeatedId, 19 left
earlier 0 (local $a i32) (local i32 i32) (local $a i32) = TooManyLocals, 19 left"#;

fn expect_line(
    rt: &impl Abort,
    alloc: Global,
    why: TextWhy,
    line: &'static str,
) -> Result<(), Fail> {
    let found = format!(in alloc; "{}", TextRefusal { at: 7, why })?;
    assert!(rt; found.as_str() == line, "{found}");
    Ok(())
}

#[test]
fn refusals_are_printed(rt: HostRuntime) -> Result<(), Fail> {
    for (why, line) in REFUSALS {
        expect_line(&rt, rt.alloc(), why, line)?;
    }
    Ok(())
}

#[test]
fn too_many_labels_and_locals(rt: HostRuntime) -> Result<(), Fail> {
    play(&rt, rt.alloc(), TOO_MANY)
}

#[test]
fn laws_are_called(_rt: HostRuntime) {
    laws::standard_words_stay();
    token_laws::one_list_of_tokens();
    token_laws::one_first_fault();
    token_laws::faults_begin_no_token();
    laws::faulty_texts_write_no_module();
    body_laws::bodies_are_read_as_written();
    body_laws::one_body();
    body_laws::groups_are_read_as_written();
    body_laws::type_uses_are_read_as_written();
    laws::heads_are_read_as_written();
    laws::fields_are_read_as_written();
    laws::modules_are_read_as_written();
    laws::one_module();
    laws::modules_tell_their_profiles();
    printed_texts_write_no_other();
}
