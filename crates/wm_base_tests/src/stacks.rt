//! Tests of the two stacks of a body, and of the table of its locals.

use crate::scripts::{Scripted, number_of, play_each, shown, type_of, unknown, word_of};
use std::alloc::Global;
use std::process::Abort;
use std::test::Fail;
use wm_stacks::run_table::RunTable;
use wm_stacks::stack_entries::{Entry, FrameKind};
use wm_stacks::stacks::Stacks;
use wm_syntax::types::ValType;
use wm_syntax::why::Why;

fn entry_of(rt: &impl Abort, word: &str) -> Entry {
    match word {
        "I32" => Entry::I32,
        "I64" => Entry::I64,
        "F32" => Entry::F32,
        "F64" => Entry::F64,
        "Unknown" => Entry::Unknown,
        _ => unknown(rt, word),
    }
}

fn kind_of(rt: &impl Abort, word: &str) -> FrameKind {
    match word {
        "Func" => FrameKind::Func,
        "Block" => FrameKind::Block,
        _ => unknown(rt, word),
    }
}

impl Scripted for RunTable {
    fn answer<A: Abort>(&mut self, rt: &A, alloc: Global, call: &str) -> String {
        let (word, with) = word_of(call);
        match word {
            "add" => added(rt, alloc, self, with),
            "runs" => shown(rt, alloc, self.runs()),
            "find" => shown(rt, alloc, self.find(number_of(rt, with))),
            "clear" => {
                self.clear();
                shown(rt, alloc, ())
            }
            _ => unknown(rt, call),
        }
    }
}

// Adds a run of locals such as `2 I32`.
fn added(rt: &impl Abort, alloc: Global, table: &mut RunTable, with: &str) -> String {
    let (count, ty) = word_of(with);
    let count = number_of(rt, count);
    shown(rt, alloc, table.add(count, type_of(rt, ty)))
}

impl Scripted for Stacks {
    fn answer<A: Abort>(&mut self, rt: &A, alloc: Global, call: &str) -> String {
        let (word, with) = word_of(call);
        match word {
            "heights" => shown(rt, alloc, self.heights()),
            "moves" => shown(rt, alloc, self.moves()),
            "label" => shown(rt, alloc, self.label(number_of(rt, with))),
            "open" => opened(rt, alloc, self, with),
            "clear" => {
                self.clear();
                shown(rt, alloc, ())
            }
            _ => moved(rt, alloc, self, call),
        }
    }
}

// Opens a frame such as `Block I64`.
fn opened(rt: &impl Abort, alloc: Global, stacks: &mut Stacks, with: &str) -> String {
    let (operands, frames) = stacks.heights();
    assert!(rt; operands < 1000 && frames < 1000);
    let (kind, result) = word_of(with);
    shown(
        rt,
        alloc,
        stacks.open(kind_of(rt, kind), result_of(rt, result)),
    )
}

fn result_of(rt: &impl Abort, word: &str) -> Option<ValType> {
    if word.is_empty() {
        return None;
    }
    Some(type_of(rt, word))
}

// Makes a call that needs an open frame.
fn moved(rt: &impl Abort, alloc: Global, stacks: &mut Stacks, call: &str) -> String {
    let (operands, frames) = stacks.heights();
    assert!(rt; operands < 1000 && 0 < frames && frames < 1000);
    let (word, with) = word_of(call);
    match word {
        "push" => shown(rt, alloc, stacks.push(entry_of(rt, with))),
        "take" => shown(rt, alloc, stacks.take(&types_of(rt, alloc, with))),
        "push_float" => shown(rt, alloc, stacks.push_float_fast(entry_of(rt, with))),
        "take_float" => shown(
            rt,
            alloc,
            stacks.replace_float_fast(type_of(rt, with), None),
        ),
        "keep_float" => {
            let (ty, given) = (type_of(rt, with), Some(entry_of(rt, with)));
            shown(rt, alloc, stacks.replace_float_fast(ty, given))
        }
        "merge_floats" => {
            let (ty, given) = (type_of(rt, with), Some(entry_of(rt, with)));
            shown(rt, alloc, stacks.replace_two_floats_fast(ty, ty, given))
        }
        "take_any" => shown(rt, alloc, stacks.take_any()),
        "close" => shown(rt, alloc, stacks.close()),
        "cut_to_floor" => {
            stacks.cut_to_floor();
            shown(rt, alloc, ())
        }
        _ => unknown(rt, call),
    }
}

// Reads types such as `I32 I64`.
fn types_of(rt: &impl Abort, alloc: Global, words: &str) -> Vec<ValType> {
    let mut types = Vec::new(alloc);
    for word in words.split_whitespace() {
        types.push(type_of(rt, word)).expect(rt, "memory");
    }
    types
}

#[test]
fn finds_locals_by_halving(rt: HostRuntime) {
    let mut table = RunTable::new(rt.alloc());
    play_each(
        &rt,
        rt.alloc(),
        &mut table,
        "add 2 I32, add 0 I64, add 3 I32, add 1 I64 = Ok(())
runs = 2
find 0 = Found { ty: Some(I32), probes: 2 }
find 5 = Found { ty: Some(I64), probes: 2 }
find 6 = Found { ty: None, probes: 1 }
clear = ()
runs = 0
find 0 = Found { ty: None, probes: 0 }",
    );
}

// Plays a script on two empty stacks.
fn played(rt: &impl Abort, alloc: Global, script: &str) {
    let mut stacks = Stacks::new(alloc);
    play_each(rt, alloc, &mut stacks, script);
}

#[test]
fn takes_at_the_floor_of_an_unreachable_frame(rt: HostRuntime) {
    played(
        &rt,
        rt.alloc(),
        "open Func = Ok(())
cut_to_floor = ()
push I32 = Ok(())
take I32 I32 = Ok(Floor)
heights = (0, 1)
moves = 4",
    );
}

#[test]
fn refuses_another_type_at_once(rt: HostRuntime) {
    played(
        &rt,
        rt.alloc(),
        "open Func, push I64 = Ok(())
take I32 = Err(Mismatch)
heights = (1, 1)
moves = 2",
    );
}

#[test]
fn keeps_what_it_took_before_a_refusal(rt: HostRuntime) {
    played(
        &rt,
        rt.alloc(),
        "open Func, push I64, push I32 = Ok(())
take I32 I32 = Err(Mismatch)
heights = (1, 1)
moves = 4",
    );
}

#[test]
fn refuses_to_go_below_a_reachable_floor(rt: HostRuntime) {
    played(
        &rt,
        rt.alloc(),
        "open Func = Ok(())
take_any = Err(Arity)
moves = 1",
    );
}

// The bit of a popped float's width stays where the next operand goes, below and above the 64th.
#[test]
fn tells_floats_apart(rt: HostRuntime) {
    played(
        &rt,
        rt.alloc(),
        "open Func, push F64, push F32 = Ok(())
take F32 = Ok(Whole)
take F32 = Err(Mismatch)
take I64 = Err(Mismatch)
take F64 = Ok(Whole)
push F32, push F64, push I32, push Unknown = Ok(())
take F64 I32 F32 = Ok(Whole)
take F64 = Err(Mismatch)
take F32 = Ok(Whole)
heights = (0, 1)
moves = 13
100 times push F32 = Ok(())
push F64, push F32 = Ok(())
take F64 F32 = Ok(Whole)
push F32, push F64 = Ok(())
take_any = Ok(F64)
take_any = Ok(F32)
100 times take F32 = Ok(Whole)
heights = (0, 1)",
    );
}

// The fast paths read one word, and one bit for each operand. They do not apply across the edge of a word, or above the
// 64th operand.
#[test]
fn takes_floats_at_once(rt: HostRuntime) {
    played(
        &rt,
        rt.alloc(),
        "open Func, push F64, push F32 = Ok(())
take_float F64, keep_float F64, merge_floats F32, merge_floats F64, take_float I32 = false
keep_float F32 = true
moves = 5
take_float F32 = true
push F64 = Ok(())
merge_floats F64 = true
merge_floats F64 = false
heights = (1, 1)
moves = 10
open Block = Ok(())
take_float F64, keep_float F64 = false
push F64 = Ok(())
merge_floats F64 = false
keep_float F64, take_float F64 = true
push Unknown = Ok(())
take_float F64, keep_float F64, take_float F32 = false
take_any = Ok(Unknown)
close = Ok(Frame { kind: Block, result: None, floor: 1, unreachable: false })
30 times push F64 = Ok(())
push F32, push F32, push F64 = Ok(())
merge_floats F64, merge_floats F32 = false
take F64 = Ok(Whole)
merge_floats F32 = false
keep_float F32 = true
30 times push F32 = Ok(())
30 times merge_floats F32 = true
heights = (33, 1)
31 times push F64 = Ok(())
keep_float F64 = true
push F32 = Ok(())
keep_float F32, take_float F32 = false
take F32 = Ok(Whole)
keep_float F64 = false
take F64 = Ok(Whole)
merge_floats F64 = true
push F64, push F64, push F64 = Ok(())
merge_floats F64 = false
heights = (65, 1)",
    );
}

// The fast path of a push does not apply if a word is full, or above the 64th operand.
#[test]
fn puts_floats_at_once(rt: HostRuntime) {
    played(
        &rt,
        rt.alloc(),
        "open Func, push F64 = Ok(())
take_float F64 = true
push_float F32 = true
take_any = Ok(F32)
push_float I64, push_float Unknown = false
moves = 5
31 times push_float F64 = true
push_float F32 = true
push_float F32 = false
heights = (32, 1)
moves = 37
push F32 = Ok(())
31 times push_float F64 = true
push_float F64 = false
push F64 = Ok(())
push_float F32 = false
take F64 F64 = Ok(Whole)
30 times take F64 = Ok(Whole)
take F32 F32 = Ok(Whole)
heights = (31, 1)",
    );
}

// The 32 lowest operands share a word; the next one is in another.
#[test]
fn takes_across_the_edge_of_a_word(rt: HostRuntime) {
    played(
        &rt,
        rt.alloc(),
        "open Func = Ok(())
31 times push I32 = Ok(())
heights = (31, 1)
push I64, push Unknown = Ok(())
take_any = Ok(Unknown)
take_any = Ok(I64)
take_any = Ok(I32)
heights = (30, 1)",
    );
}

#[test]
fn holds_more_than_it_has_room_for_inline(rt: HostRuntime) {
    played(
        &rt,
        rt.alloc(),
        "40 times open Block I64, push I64, push I32 = Ok(())
heights = (80, 40)
moves = 120
label 0 = Some(Frame { kind: Block, result: Some(I64), floor: 78, unreachable: false })
label 39 = Some(Frame { kind: Block, result: Some(I64), floor: 0, unreachable: false })
label 40 = None
take I64 I32 = Ok(Whole)
close = Ok(Frame { kind: Block, result: Some(I64), floor: 78, unreachable: false })
heights = (78, 39)
take_any = Ok(I32)
close = Err(Arity)
moves = 124
heights = (77, 39)
cut_to_floor = ()
heights = (76, 39)
moves = 125
label 0 = Some(Frame { kind: Block, result: Some(I64), floor: 76, unreachable: true })
take_any = Ok(Unknown)
moves = 126
clear = ()
heights = (0, 0)
moves = 0",
    );
}

/// The `Debug` text does not depend on how kinds are packed into words, or on bits that are not in use.
#[test]
fn shows_kinds_and_floor(rt: HostRuntime) {
    let mut stacks = Stacks::new(rt.alloc());
    play_each(
        &rt,
        rt.alloc(),
        &mut stacks,
        "open Func, push F64, push I32, open Block = Ok(())
30 times push I64 = Ok(())
push Unknown, push F32 = Ok(())
take_any = Ok(F32)",
    );
    let text = shown(&rt, rt.alloc(), stacks);
    assert!(rt;
        text.contains(
            "Packed { kinds: [Float, I32, I64, I64, I64, I64, I64, I64, I64, I64, I64, I64, I64, I64, I64, I64, I64, I64, I64, I64, I64, I64, I64, I64, I64, I64, I64, I64, I64, I64, I64, I64, Unknown], floor: 2 }"
        ),
        "{text}"
    );
}

fn looks(rt: &impl Abort, stacks: &Stacks, heights: (usize, usize), moves: u64) {
    assert!(rt; stacks.heights() == heights);
    assert!(rt; stacks.moves() == moves);
}

// Pushes an f64, which takes no memory.
fn push_inline(rt: &impl Abort, stacks: &mut Stacks) -> Result<(), Why> {
    let (operands, frames) = stacks.heights();
    assert!(rt; operands < 64 && frames == 1);
    stacks.push(Entry::F64)
}

// Pushes the 65th operand. If memory is refused, the others stay as they are.
fn push_further(rt: &impl Abort, stacks: &mut Stacks) {
    let (operands, frames) = stacks.heights();
    assert!(rt; operands == 64 && frames == 1);
    let Err(why) = stacks.push(Entry::F64) else {
        looks(rt, stacks, (65, 1), 66);
        return;
    };
    assert!(rt; why == Why::Memory);
    looks(rt, stacks, (64, 1), 65);
    assert!(rt; stacks.take_any() == Ok(Entry::F64));
}

// Sixty-four operands need no growth. This is also run with a refused growth, as below.
#[test]
fn needs_no_growth_below_the_65th_operand(rt: HostRuntime) -> Result<(), Fail> {
    let mut stacks = Stacks::new(rt.alloc());
    stacks.open(FrameKind::Func, None)?;
    for _ in 0..64 {
        push_inline(&rt, &mut stacks)?;
    }
    push_further(&rt, &mut stacks);
    Ok(())
}

// Opens a frame. If memory is refused, nothing changes.
fn open_more(rt: &impl Abort, stacks: &mut Stacks) {
    let (operands, frames) = stacks.heights();
    assert!(rt; operands < 1000 && frames < 1000);
    let moves = stacks.moves();
    if let Err(why) = stacks.open(FrameKind::Loop, None) {
        assert!(rt; why == Why::Memory && frames >= 32);
        looks(rt, stacks, (operands, frames), moves);
    }
}

// Pushes an operand. If memory is refused, nothing changes.
fn push_more(rt: &impl Abort, stacks: &mut Stacks) {
    let (operands, frames) = stacks.heights();
    assert!(rt; operands < 1000 && frames < 1000 && frames >= 59);
    let moves = stacks.moves();
    let entry = if operands % 2 == 0 {
        Entry::F64
    } else {
        Entry::I32
    };
    if let Err(why) = stacks.push(entry) {
        assert!(rt; why == Why::Memory && operands >= 64);
        looks(rt, stacks, (operands, frames), moves);
    }
}

// Each push and each open succeeds if no growth is refused. `rt try --test --fail-alloc N` refuses one: that call
// returns `Memory` and changes nothing, and the next one succeeds.
#[test]
fn a_refused_growth_changes_nothing(rt: HostRuntime) {
    let mut stacks = Stacks::new(rt.alloc());
    for _ in 0..60 {
        open_more(&rt, &mut stacks);
    }
    for _ in 0..100 {
        push_more(&rt, &mut stacks);
    }
    assert!(rt; stacks.heights().0 >= 99);
}
