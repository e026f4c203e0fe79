//! Tests of the names and sentences of refusals.

use crate::scripts::{Scripted, play_each, shown, unknown, word_of};
use std::alloc::Global;
use std::process::Abort;
use wm_syntax::why::Why;

const ALL: [Why; 31] = [
    Why::Magic,
    Why::Version,
    Why::SectionId,
    Why::SectionOrder,
    Why::SectionEnd,
    Why::BadNumber,
    Why::BadUtf8,
    Why::BadByte,
    Why::Float,
    Why::BadOpcode,
    Why::Truncated,
    Why::CodeCount,
    Why::BodyEnd,
    Why::TooManyLocals,
    Why::Index,
    Why::Mismatch,
    Why::Arity,
    Why::Limits,
    Why::Second,
    Why::DuplicateExport,
    Why::StartType,
    Why::NotConst,
    Why::Immutable,
    Why::Align,
    Why::ElsePlace,
    Why::TooLong,
    Why::Memory,
    Why::ManyFunctions,
    Why::ManyLocals,
    Why::Deep,
    Why::DataCount,
];

/// Returns the printed name or sentence of a refusal.
#[derive(Drop)]
struct Printed;

impl Scripted for Printed {
    fn answer<A: Abort>(&mut self, rt: &A, alloc: Global, call: &str) -> String {
        let (word, with) = word_of(call);
        let why = why_of(rt, alloc, with);
        match word {
            "name" => shown(rt, alloc, why.name()),
            "sentence" => sentence_of(rt, alloc, why),
            "full_stop" => full_stop_of(rt, alloc, why),
            _ => unknown(rt, call),
        }
    }
}

fn sentence_of(rt: &impl Abort, alloc: Global, why: Why) -> String {
    format!(in alloc; "{why}").expect(rt, "memory")
}

fn full_stop_of(rt: &impl Abort, alloc: Global, why: Why) -> String {
    let sentence = sentence_of(rt, alloc, why);
    shown(rt, alloc, sentence.as_str().ends_with('.'))
}

// Returns the refusal that `Debug` writes as this word.
fn why_of(rt: &impl Abort, alloc: Global, word: &str) -> Why {
    for why in ALL {
        let name = shown(rt, alloc, why);
        if name.as_str() == word {
            return why;
        }
    }
    unknown(rt, word)
}

#[test]
fn printed_names_and_sentences(rt: HostRuntime) {
    play_each(
        &rt,
        rt.alloc(),
        &mut Printed,
        r#"name Magic = "Magic"
name Version = "Version"
name SectionId = "SectionId"
name SectionOrder = "SectionOrder"
name SectionEnd = "SectionEnd"
name BadNumber = "BadNumber"
name BadUtf8 = "BadUtf8"
name BadByte = "BadByte"
name Float = "Float"
name BadOpcode = "BadOpcode"
name Truncated = "Truncated"
name CodeCount = "CodeCount"
name BodyEnd = "BodyEnd"
name TooManyLocals = "TooManyLocals"
name Index = "Index"
name Mismatch = "Type"
name Arity = "Arity"
name Limits = "Limits"
name Second = "Second"
name DuplicateExport = "DuplicateExport"
name StartType = "StartType"
name NotConst = "NotConst"
name Immutable = "Immutable"
name Align = "Align"
name ElsePlace = "ElsePlace"
name TooLong = "TooLong"
name Memory = "Memory"
name ManyFunctions = "ManyFunctions"
name ManyLocals = "ManyLocals"
name Deep = "Deep"
name DataCount = "DataCount"
sentence Magic = a module begins with the bytes 00 61 73 6D
sentence Memory = memory ran out
full_stop SectionOrder, full_stop Mismatch, full_stop ElsePlace, full_stop Deep = false"#,
    );
}

fn grown(list: &mut Vec<u8>) -> Result<(), Why> {
    list.push(0)?;
    Ok(())
}

#[test]
fn memory_by_a_question_mark(rt: HostRuntime) {
    let mut list = Vec::new(rt.alloc());
    assert!(rt; grown(&mut list) == Ok(()));
    assert!(rt; Why::from(std::alloc::AllocError) == Why::Memory);
}
