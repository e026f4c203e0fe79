//! Tests the expected token in the line of detail. At each token of the texts below, the text before it is read again
//! with other tokens in its place. A kind of token is claimed if and only if it alone is not refused there.

use std::alloc::Global;
use std::process::Abort;
use std::test::Fail;
use wm_command::expected::{Expected, Keyword, expected_at};
use wm_read::spellings::Spellings;
use wm_read::text::read_text;
use wm_syntax::profile::{Feature, Profile};
use wm_tokens::lexeme::{next_token, skip_space};

// The texts have each form. In each, `$x` names an item of every index space that an index there may be of, and `$y` none.

const TYPES: &str = "(module $m (type $x (func)) \
    (type (func (param $a i32) (param i32 i64) (result i32) (result))) (type (func (result i32)))) (; ;)";

const IMPORTS: &str = "(module (type $x (func)) (type (func (param i32) (result i32))) \
    (import \"a\" \"b\" (func $x (type $x))) (import \"a\" \"b\" (func (type 1) (param i32) (result i32))) \
    (import \"a\" \"b\" (table $x 1 2 funcref)) (import \"a\" \"b\" (table 1 funcref)) \
    (import \"a\" \"b\" (memory $x 1 2)) (import \"a\" \"b\" (memory 1)) \
    (import \"a\" \"b\" (global $x (mut i32))) (import \"a\" \"b\" (global f64)))";

const FUNCTIONS: &str = "(module (type $x (func (param i32) (result i32))) (func $x (type 0)) \
    (global $x i32 i32.const 1) (func $f (type $x) (param $x i32) (result i32) (local $l i32) (local i64 f32) \
    block $x (result i32) i32.const 1 loop (result i64) i64.const -2 end if $x nop else nop end br $x \
    br_table 0 $x end i32.load offset=4 align=4 f32.const 1.5 local.get $x call $x \
    call_indirect (type $x) (param i32) (result i32) return) \
    (func (type 0) (param i32) (result i32) (local)) (func (type 0) call_indirect (type 0)))";

const ITEMS: &str =
    "(module (type $x (func)) (func $x (type 0)) (table $x 1 2 funcref) (table 1 funcref) \
    (memory $x 1 2) (memory 1) (global $x (mut i32) i32.const 1) (global i64 (i64.const 2)) \
    (global f32 f32.const 1.5) (global i32 global.get $x) (export \"a\" (func 0)) (export \"a\" (table $x)) \
    (export \"a\" (memory 0)) (export \"a\" (global 0)) (start $x))";

const SEGMENTS: &str =
    "(module (type $x (func)) (func $x (type 0)) (table $x 1 funcref) (memory $x 1) \
    (global $x i32 i32.const 0) (elem $x (offset i32.const 0) func 0 $x) \
    (elem 0 (offset (global.get $x)) 0) (elem (i32.const 0) $x) (data $x (offset i64.const 0) \"a\" \"b\") \
    (data 0 (f32.const 1.5) \"a\") (data (i32.const 0)))";

const PASSIVE: &str =
    "(module (type $x (func)) (func $x (type 0) memory.init 0 data.drop 1 table.init 0 elem.drop 1 \
    table.copy memory.fill) (table $x 1 funcref) (memory $x 1) (elem func 0 $x) (elem func) (elem $x (i32.const 0) func) \
    (data \"a\" \"b\") (data) (data $x (i32.const 0) \"a\") (data \"a\"))";

/// Tokens of each kind. Those of one kind are neighbours.
const TOKENS: [&str; 45] = [
    ")",
    "\"a\"",
    "0",
    "1",
    "1.5",
    "$x",
    "$y",
    "module",
    "type",
    "func",
    "param",
    "result",
    "import",
    "export",
    "table",
    "memory",
    "global",
    "mut",
    "start",
    "elem",
    "data",
    "offset",
    "local",
    "funcref",
    "i32",
    "i64",
    "f32",
    "offset=4",
    "align=4",
    "nop",
    "i32.const",
    "i64.const",
    "f32.const",
    "global.get",
    "local.get",
    "i32.load",
    "block",
    "loop",
    "if",
    "else",
    "end",
    "br_table",
    "call_indirect",
    "then",
    "quux",
];

/// Returns the kind of a token. A parenthesis and a keyword are their own kinds.
fn kind_of(token: &str) -> &str {
    match token.as_bytes() {
        [] => "the end",
        [b'"', ..] => "a string",
        [b'$', ..] => "an identifier",
        [b'0'..=b'9', b'.', ..] => "a float",
        [b'0'..=b'9', ..] => "an integer",
        _ => token,
    }
}

/// Returns the kind of an expected token, and the keyword that must follow it.
fn claimed(expected: Expected) -> (&'static str, Option<&'static str>) {
    match expected {
        Expected::Open(keyword) => ("(", keyword.map(Keyword::word)),
        Expected::Close => (")", None),
        Expected::Keyword(keyword) => (keyword.word(), None),
        Expected::String => ("a string", None),
        Expected::Integer => ("an integer", None),
        Expected::End => ("the end", None),
    }
}

/// Appends a closing parenthesis for each open form, so that the first pass over the text reaches its end.
fn close(text: &mut String) -> Result<(), Fail> {
    let mut depth = 0u32;
    for byte in text.as_bytes() {
        match *byte {
            b'(' => depth = depth.saturating_add(1),
            b')' => depth = depth.saturating_sub(1),
            _ => {}
        }
    }
    for _ in 0..depth {
        text.push(')')?;
    }
    Ok(())
}

/// Returns the offset at which a text is refused.
fn refused_at(alloc: Global, text: &str) -> Option<usize> {
    let profile = Profile::FOUR
        .with(Feature::Copies)
        .with(Feature::BulkMemory);
    match read_text(alloc, profile, Spellings::Standard, text.as_bytes()) {
        Ok(_) => None,
        Err(refusal) => Some(refusal.at),
    }
}

/// Whether a text with this token next is not refused at the token.
fn passes(alloc: Global, before: &str, token: &str) -> Result<bool, Fail> {
    let mut text = format!(in alloc; "{before} {token}")?;
    close(&mut text)?;
    Ok(refused_at(alloc, &text) != Some(before.len().saturating_add(1)))
}

/// Whether a text with a form next is refused neither at the form's parenthesis nor at its keyword.
fn passes_form(alloc: Global, before: &str, keyword: &str) -> Result<bool, Fail> {
    let mut text = format!(in alloc; "{before} ({keyword}")?;
    close(&mut text)?;
    Ok(match refused_at(alloc, &text) {
        Some(at) => at < before.len().saturating_add(1) || at > before.len().saturating_add(2),
        None => true,
    })
}

/// Returns the kinds of tokens that may come next.
fn kinds(alloc: Global, before: &str) -> Result<Vec<&'static str>, Fail> {
    let mut found: Vec<&'static str> = Vec::new(alloc);
    for token in TOKENS {
        if passes(alloc, before, token)? && found.last() != Some(&kind_of(token)) {
            found.push(kind_of(token))?;
        }
    }
    if refused_at(alloc, before) != Some(before.len()) {
        found.push("the end")?;
    }
    Ok(found)
}

/// Returns the keywords of forms that may come next.
fn keywords(alloc: Global, before: &str) -> Result<Vec<&'static str>, Fail> {
    let mut found = Vec::new(alloc);
    for token in TOKENS {
        if passes_form(alloc, before, token)? {
            found.push(token)?;
        }
    }
    Ok(found)
}

/// Returns the kind that alone may come next, and the keyword that alone may follow it.
fn alone(
    alloc: Global,
    before: &str,
) -> Result<Option<(&'static str, Option<&'static str>)>, Fail> {
    let kinds = kinds(alloc, before)?;
    let words = keywords(alloc, before)?;
    Ok(match (kinds.as_slice(), words.as_slice()) {
        ([kind], []) => Some((*kind, None)),
        ([], [word]) => Some(("(", Some(*word))),
        ([], [_, _, ..]) => Some(("(", None)),
        _ => None,
    })
}

/// Appends a line to `report` if a wrong token is expected after this front of a text.
fn judge(alloc: Global, before: &str, report: &mut String) -> Result<(), Fail> {
    let wanted = alone(alloc, before)?;
    let found = expected_at(before.as_bytes(), before.len()).map(claimed);
    if found != wanted {
        let line = format!(in alloc; "{before}: {found:?}, and not {wanted:?}\n")?;
        report.push_str(&line)?;
    }
    Ok(())
}

/// Expects that the right token is expected at each token of a text, and at its end.
fn judge_each(rt: &impl Abort, alloc: Global, text: &str) -> Result<(), Fail> {
    assert!(rt; refused_at(alloc, text).is_none(), "{text}");
    let mut report = String::new(alloc);
    let mut rest = text.as_bytes();
    // each token has at least one byte
    for _ in 0..=text.len() {
        let at = text.len().saturating_sub(skip_space(rest).len());
        let Some(before) = text.get(..at) else {
            return Err(Fail::new("inside a character"));
        };
        judge(alloc, before, &mut report)?;
        match next_token(rest) {
            Some((_, more)) => rest = more,
            None => break,
        }
    }
    assert!(rt; report.is_empty(), "{report}");
    Ok(())
}

#[test]
fn in_types(rt: HostRuntime) -> Result<(), Fail> {
    judge_each(&rt, rt.alloc(), TYPES)
}

#[test]
fn in_imports(rt: HostRuntime) -> Result<(), Fail> {
    judge_each(&rt, rt.alloc(), IMPORTS)
}

#[test]
fn in_functions(rt: HostRuntime) -> Result<(), Fail> {
    judge_each(&rt, rt.alloc(), FUNCTIONS)
}

#[test]
fn in_items(rt: HostRuntime) -> Result<(), Fail> {
    judge_each(&rt, rt.alloc(), ITEMS)
}

#[test]
fn in_segments(rt: HostRuntime) -> Result<(), Fail> {
    judge_each(&rt, rt.alloc(), SEGMENTS)
}

#[test]
fn in_passive_segments(rt: HostRuntime) -> Result<(), Fail> {
    judge_each(&rt, rt.alloc(), PASSIVE)
}
