//! The slow path inside a member of a section: names, values, indices, constant expressions and data.

ghost use Rattle.std.specs.Prelude.{◌≡◌};
ghost use Rattle.wm_machine.specs.exact.Members.{member_at_start};
ghost use Rattle.wm_machine.specs.exact.MemberSteps.{member_failed, after_name, name_length_step, name_step};
ghost use Rattle.wm_machine.specs.exact.MemberSteps.{value_step, functions_or_over, index_item, after_index};
ghost use Rattle.wm_machine.specs.exact.MemberSteps.{index_step, global_type_step, constant_over};
ghost use Rattle.wm_machine.specs.exact.MemberSteps.{after_constant, constant_step, length_step, data_or_over};
ghost use Rattle.wm_machine.specs.exact.MemberSteps.{active_begun, element_kind_step, member_step, passive_begun};
ghost use Rattle.wm_machine.specs.exact.MemberSteps.{segment_begun, segment_index, segment_step, segment_unfinished};

use crate::machine::member::{ConstantOf, InMember, IndexOf, LengthOf, SectionKind, SegmentKind};
use crate::machine::{Event, NameKind, Plain};
use crate::step::code_entries::{entry, entry_size};
use crate::step::expressions::{InExpression, expression_byte};
use crate::step::reading::Reading::{Bad, Done, More};
use crate::step::types::{param, param_count, result_count, result_type, type_form};
use crate::step::values::{
    InExportDesc, InGlobalType, InImportDesc, InLimits, InTableType, InValue, global_type_byte,
    value_byte,
};
use wm_syntax::numbers::{Num32, Step};
use wm_syntax::profile::{Feature, Profile};
use wm_syntax::why::Why;

/// Returns the state before the first byte of a member. The data count section has none, and the state does not matter.
pub fn begin(of: SectionKind) -> InMember
    ensures { result ≡ member_at_start of }
{
    let number = Num32::new();
    match of {
        SectionKind::Type => InMember::TypeForm,
        SectionKind::Import => {
            let of = NameKind::ImportModule;
            InMember::NameLength { of, number }
        }
        SectionKind::Function => InMember::Index {
            of: IndexOf::Function,
            number,
        },
        SectionKind::Table => InMember::Value(InValue::Table(InTableType::ElementType)),
        SectionKind::Memory => InMember::Value(InValue::Memory(InLimits::Flag)),
        SectionKind::Global => InMember::GlobalType(InGlobalType::Type),
        SectionKind::Export => {
            let of = NameKind::Export;
            InMember::NameLength { of, number }
        }
        SectionKind::Start | SectionKind::DataCount => InMember::Index {
            of: IndexOf::Start,
            number,
        },
        SectionKind::Element => {
            let of = SegmentKind::Element;
            InMember::SegmentStart { of, number }
        }
        SectionKind::Code => InMember::EntrySize(number),
        SectionKind::Segment => {
            let of = SegmentKind::Data;
            InMember::SegmentStart { of, number }
        }
    }
}

fn failed(why: Why) -> (InMember, Event)
    ensures { result ≡ member_failed why }
{
    (InMember::Failed(why), Event::Nothing)
}

// names

fn after_name(of: NameKind) -> InMember
    ensures { result ≡ after_name of }
{
    match of {
        NameKind::ImportModule => InMember::NameLength {
            of: NameKind::ImportName,
            number: Num32::new(),
        },
        NameKind::ImportName => InMember::Value(InValue::Import(InImportDesc::Kind)),
        NameKind::Export => InMember::Value(InValue::Export(InExportDesc::Kind)),
        NameKind::Custom => InMember::Over,
    }
}

fn name_length(of: NameKind, mut number: Num32, byte: u8) -> (InMember, Event)
    ensures { result ≡ name_length_step of number byte }
{
    match number.push(byte) {
        Step::More => (InMember::NameLength { of, number }, Event::Nothing),
        Step::Done(0) => (after_name(of), Event::EmptyName(of)),
        Step::Done(n) => (InMember::Name { of, more: n - 1 }, Event::Nothing),
        Step::Bad => failed(Why::BadNumber),
    }
}

fn name_byte(of: NameKind, more: u32) -> (InMember, Event)
    ensures { result ≡ name_step of more }
{
    if more == 0 {
        (after_name(of), Event::EndsName(of))
    } else {
        (InMember::Name { of, more: more - 1 }, Event::InName)
    }
}

// values and indices

fn value(profile: Profile, at: InValue, byte: u8) -> (InMember, Event)
    ensures { result ≡ value_step profile at byte }
{
    match value_byte(profile, at, byte) {
        More(at) => (InMember::Value(at), Event::Nothing),
        Done(part) => (InMember::Over, Event::Complete(part)),
        Bad(why) => failed(why),
    }
}

/// Returns the state with `left` function indices of an element segment to come, or `Over` if there are none.
pub fn functions_or_over(left: u32) -> InMember
    ensures { result ≡ functions_or_over left }
{
    if left == 0 {
        InMember::Over
    } else {
        InMember::Index {
            of: IndexOf::ElementFunction { more: left - 1 },
            number: Num32::new(),
        }
    }
}

fn index_item(of: IndexOf, index: u32) -> Plain
    ensures { result ≡ index_item of index }
{
    match of {
        IndexOf::Function => Plain::Function(index),
        IndexOf::Start => Plain::Start(index),
        IndexOf::Element => Plain::Element(index),
        IndexOf::ElementFunction { .. } => Plain::ElementFunction(index),
        IndexOf::Segment => Plain::Segment(index),
    }
}

fn after_index(of: IndexOf) -> InMember
    ensures { result ≡ after_index of }
{
    let at = InExpression::new();
    match of {
        IndexOf::Function | IndexOf::Start => InMember::Over,
        IndexOf::Element => InMember::Constant {
            of: ConstantOf::IndexedElement,
            at,
        },
        IndexOf::ElementFunction { more } => functions_or_over(more),
        IndexOf::Segment => InMember::Constant {
            of: ConstantOf::Segment,
            at,
        },
    }
}

fn index(of: IndexOf, mut number: Num32, byte: u8) -> (InMember, Event)
    ensures { result ≡ index_step of number byte }
{
    match number.push(byte) {
        Step::More => (InMember::Index { of, number }, Event::Nothing),
        Step::Done(n) => (after_index(of), Event::Complete(index_item(of, n))),
        Step::Bad => failed(Why::BadNumber),
    }
}

// the front of a segment

/// The greatest flag of a segment (WebAssembly 2.0, 5.5.12 and 5.5.14, without expressions as elements).
const MOST_FLAG: u64 = 2;

fn segment_index(of: SegmentKind) -> IndexOf
    ensures { result ≡ segment_index of }
{
    match of {
        SegmentKind::Element => IndexOf::Element,
        SegmentKind::Data => IndexOf::Segment,
    }
}

fn segment_unfinished(flagged: bool, of: SegmentKind, number: Num32) -> InMember
    ensures { result ≡ segment_unfinished flagged of number }
{
    if flagged && number.least() > MOST_FLAG {
        InMember::Failed(Why::BadNumber)
    } else {
        InMember::SegmentStart { of, number }
    }
}

/// Returns the state after the first number of an active segment without a further number, and the effect of its last
/// byte. `index` is that of its table or memory.
fn active_begun(of: SegmentKind, index: u32) -> (InMember, Event)
    ensures { result ≡ active_begun of index }
{
    let at = InExpression::new();
    let (of, item) = match of {
        SegmentKind::Element => (ConstantOf::Element, Plain::Element(index)),
        SegmentKind::Data => (ConstantOf::Segment, Plain::Segment(index)),
    };
    (InMember::Constant { of, at }, Event::Complete(item))
}

/// Returns the state after the flag of a passive segment, and the effect of its last byte.
fn passive_begun(of: SegmentKind) -> (InMember, Event)
    ensures { result ≡ passive_begun of }
{
    match of {
        SegmentKind::Element => (
            InMember::ElementKind,
            Event::Complete(Plain::PassiveElement),
        ),
        SegmentKind::Data => {
            let of = LengthOf::Bytes;
            let number = Num32::new();
            (
                InMember::Length { of, number },
                Event::Complete(Plain::PassiveSegment),
            )
        }
    }
}

/// Returns the state after the number at the front of a segment, and the effect of its last byte.
fn segment_begun(flagged: bool, of: SegmentKind, number: u32) -> (InMember, Event)
    ensures { result ≡ segment_begun flagged of number }
{
    if !flagged || number == 0 {
        active_begun(of, number)
    } else if number == 1 {
        passive_begun(of)
    } else if number == 2 {
        let of = segment_index(of);
        let number = Num32::new();
        (InMember::Index { of, number }, Event::Nothing)
    } else {
        failed(Why::BadNumber)
    }
}

/// Reads the number at the front of a segment. With the feature it is a flag, and the first byte that no flag has there
/// is refused.
fn segment_start(
    profile: Profile,
    of: SegmentKind,
    mut number: Num32,
    byte: u8,
) -> (InMember, Event)
    ensures { result ≡ segment_step profile of number byte }
{
    let flagged = profile.has(Feature::BulkMemory);
    match number.push(byte) {
        Step::More => (segment_unfinished(flagged, of, number), Event::Nothing),
        Step::Done(n) => segment_begun(flagged, of, n),
        Step::Bad => failed(Why::BadNumber),
    }
}

fn element_kind(byte: u8) -> (InMember, Event)
    ensures { result ≡ element_kind_step byte }
{
    if byte == 0x00 {
        let of = LengthOf::Functions;
        let number = Num32::new();
        (InMember::Length { of, number }, Event::Nothing)
    } else {
        failed(Why::BadByte)
    }
}

fn global_type(profile: Profile, at: InGlobalType, byte: u8) -> (InMember, Event)
    ensures { result ≡ global_type_step profile at byte }
{
    match global_type_byte(profile, at, byte) {
        More(at) => (InMember::GlobalType(at), Event::Nothing),
        Done(ty) => {
            let of = ConstantOf::Global;
            let at = InExpression::new();
            (
                InMember::Constant { of, at },
                Event::Complete(Plain::Global(ty)),
            )
        }
        Bad(why) => failed(why),
    }
}

// constant expressions, and the lists after them

fn constant_over(of: ConstantOf) -> InMember
    ensures { result ≡ constant_over of }
{
    let number = Num32::new();
    match of {
        ConstantOf::Global => InMember::Over,
        ConstantOf::Element => InMember::Length {
            of: LengthOf::Functions,
            number,
        },
        ConstantOf::IndexedElement => InMember::ElementKind,
        ConstantOf::Segment => InMember::Length {
            of: LengthOf::Bytes,
            number,
        },
    }
}

fn after_constant(of: ConstantOf, at: InExpression) -> InMember
    ensures { result ≡ after_constant of at }
{
    match at {
        InExpression::Over => constant_over(of),
        InExpression::Failed(why) => InMember::Failed(why),
        _ => InMember::Constant { of, at },
    }
}

fn constant(profile: Profile, of: ConstantOf, at: InExpression, byte: u8) -> (InMember, Event)
    ensures { result ≡ constant_step profile of at byte }
{
    let (next, op) = expression_byte(profile, at, byte);
    let event = match op {
        Some(op) => Event::Complete(Plain::ConstOp(op)),
        None => Event::Nothing,
    };
    (after_constant(of, next), event)
}

/// Returns the state with `left` bytes of a data segment to come, or `Over` if there are none.
pub fn data_or_over(left: u32) -> InMember
    ensures { result ≡ data_or_over left }
{
    if left == 0 {
        InMember::Over
    } else {
        InMember::Data { more: left - 1 }
    }
}

fn length(of: LengthOf, mut number: Num32, byte: u8) -> (InMember, Event)
    ensures { result ≡ length_step of number byte }
{
    match number.push(byte) {
        Step::More => (InMember::Length { of, number }, Event::Nothing),
        Step::Done(n) => match of {
            LengthOf::Functions => (functions_or_over(n), Event::Nothing),
            LengthOf::Bytes => (data_or_over(n), Event::Nothing),
        },
        Step::Bad => failed(Why::BadNumber),
    }
}

/// Returns the state inside a member after one more byte, and the effect of this byte.
pub(crate) fn member_byte(profile: Profile, at: InMember, byte: u8) -> (InMember, Event)
    ensures { result ≡ member_step profile at byte }
{
    match at {
        InMember::TypeForm => type_form(byte),
        InMember::ParamCount(number) => param_count(number, byte),
        InMember::Param { more } => param(profile, more, byte),
        InMember::ResultCount(number) => result_count(number, byte),
        InMember::ResultType { more } => result_type(profile, more, byte),
        InMember::NameLength { of, number } => name_length(of, number, byte),
        InMember::Name { of, more } => name_byte(of, more),
        InMember::Value(at) => value(profile, at, byte),
        InMember::Index { of, number } => index(of, number, byte),
        InMember::SegmentStart { of, number } => segment_start(profile, of, number, byte),
        InMember::ElementKind => element_kind(byte),
        InMember::GlobalType(at) => global_type(profile, at, byte),
        InMember::Constant { of, at } => constant(profile, of, at, byte),
        InMember::Length { of, number } => length(of, number, byte),
        InMember::Data { more } => (data_or_over(more), Event::DataByte),
        InMember::EntrySize(number) => entry_size(number, byte),
        InMember::Entry { more, at } => entry(profile, more, at, byte),
        InMember::Over | InMember::Failed(_) => failed(Why::SectionEnd),
    }
}
