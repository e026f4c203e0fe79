//! The names of instructions in the text format (Core spec 6.5).

ghost use Rattle.std.specs.Prelude.{◌≡◌, ◌<◌, [], Option, Some, get_or, slice_index_or};
ghost use Rattle.wm_syntax.specs.OpClasses.{IsClassOfOp, class_of, code};
ghost use Rattle.wm_syntax.specs.OpNames.{op_name};
ghost use Rattle.wm_syntax.specs.Profiles.{IsOpOf};
ghost use Rattle.wm_syntax.specs.declared.instructions.Op.{Op};
ghost use Rattle.wm_syntax.specs.exact.NameTable.{by_name, class_named, names};

use crate::instructions::op_class::OpClass;
use crate::instructions::opcodes::op_with;
use crate::opcode_table;
use crate::profile::Profile;
use std::cmp::Ordering;

// The codes of all instructions, of `else` and of `end`, sorted by name.
const BY_NAME: [u16; 192] = [
    0x02, 0x0C, 0x0D, 0x0E, 0x10, 0x11, 0x109, 0x1A, 0x10D, 0x05, 0x0B, 0x8B, 0x92, 0x8D, 0x43,
    0xB2, 0xB3, 0xB4, 0xB5, 0x98, 0xB6, 0x95, 0x5B, 0x8E, 0x60, 0x5E, 0x5F, 0x2A, 0x5D, 0x97, 0x96,
    0x94, 0x5C, 0x90, 0x8C, 0xBE, 0x91, 0x38, 0x93, 0x8F, 0x99, 0xA0, 0x9B, 0x44, 0xB7, 0xB8, 0xB9,
    0xBA, 0xA6, 0xA3, 0x61, 0x9C, 0x66, 0x64, 0x65, 0x2B, 0x63, 0xA5, 0xA4, 0xA2, 0x62, 0x9E, 0x9A,
    0xBB, 0xBF, 0x9F, 0x39, 0xA1, 0x9D, 0x23, 0x24, 0x6A, 0x71, 0x67, 0x41, 0x68, 0x6D, 0x6E, 0x46,
    0x45, 0xC1, 0xC0, 0x4E, 0x4F, 0x4A, 0x4B, 0x4C, 0x4D, 0x28, 0x2E, 0x2F, 0x2C, 0x2D, 0x48, 0x49,
    0x6C, 0x47, 0x72, 0x69, 0xBC, 0x6F, 0x70, 0x77, 0x78, 0x74, 0x75, 0x76, 0x36, 0x3B, 0x3A, 0x6B,
    0xA8, 0xA9, 0xAA, 0xAB, 0x100, 0x101, 0x102, 0x103, 0xA7, 0x73, 0x7C, 0x83, 0x79, 0x42, 0x7A,
    0x7F, 0x80, 0x51, 0x50, 0xC3, 0xC4, 0xC2, 0xAC, 0xAD, 0x59, 0x5A, 0x55, 0x56, 0x57, 0x58, 0x29,
    0x32, 0x33, 0x34, 0x35, 0x30, 0x31, 0x53, 0x54, 0x7E, 0x52, 0x84, 0x7B, 0xBD, 0x81, 0x82, 0x89,
    0x8A, 0x86, 0x87, 0x88, 0x37, 0x3D, 0x3E, 0x3C, 0x7D, 0xAE, 0xAF, 0xB0, 0xB1, 0x104, 0x105,
    0x106, 0x107, 0x85, 0x04, 0x20, 0x21, 0x22, 0x03, 0x10A, 0x10B, 0x40, 0x108, 0x3F, 0x01, 0x0F,
    0x1B, 0x10E, 0x10C, 0x00,
];

/// Returns the name of the op with this code, or an empty one if there is none.
pub fn name_of(wanted: u16) -> &'static [u8]
    ensures named { (op : Op) → code op ≡ Some wanted → op_name op ≡ Some result.now }
    ensures exact { result.now ≡ slice_index_or names wanted [] }
{
    if wanted >= 0x10F {
        return b"";
    }
    name_at(wanted)
}

// The name of a row of the table, or an empty one for a code that no op has.
macro_rules! row_name {
    () => {
        b""
    };
    ($name:literal) => {
        $name
    };
}

macro_rules! name_by_code {
    (
        [$wanted:ident]
        $($group:tt { $($code:literal $(=> $name:literal, $op:ident $(($($of:tt)*))?)?;)* })*
    ) => {
        match $wanted {
            $($($code => row_name!($($name)?),)*)*
            _ => b"",
        }
    };
}

fn name_at(wanted: u16) -> &'static [u8]
    requires { wanted < 0x10F }
    ensures { result.now ≡ slice_index_or names wanted [] }
{
    opcode_table!(all, name_by_code, wanted)
}

// The code at this index of `BY_NAME`, or 0 past its end.
fn code_at(rank: usize) -> u16
    ensures { result ≡ get_or by_name rank 0 }
{
    match BY_NAME.get(rank) {
        Some(code) => *code,
        None => 0,
    }
}

/// Returns the class of the op with this name: an instruction, an `else` or an `end`. Returns `Float` if the
/// name is a float instruction's and the profile has no floats. Returns `None` if the profile has no op of
/// this name.
#[tactic(auto, using(crate::proofs::NameSearch::search_laws))]
pub fn op_named(profile: Profile, word: &[u8]) -> OpClass
    // Each op of the profile with this name has this class. The class is that of an op of the profile with
    // this name.
    ensures found { (op : Op) → op_name op ≡ Some word.now → IsOpOf profile op → result ≡ class_of op }
    ensures only { IsClassOfOp result → (op : Op) × (op_name op ≡ Some word.now) × IsOpOf profile op
        × (class_of op ≡ result) }
    ensures exact { result ≡ class_named profile word.now }
{
    let mut low = 0;
    let mut high = BY_NAME.len();
    while low < high {
        let middle = low + (high - low) / 2;
        let code = code_at(middle);
        match name_of(code).cmp(word) {
            Ordering::Less => low = middle + 1,
            Ordering::Greater => high = middle,
            Ordering::Equal => return op_with(profile, code as usize),
        }
    }
    OpClass::None
}
