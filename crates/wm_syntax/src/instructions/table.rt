//! The code's one table of instructions, in the order of their codes. `specs/Opcodes.antt` says what is
//! right, and each reader of the table is proved against it. `0x100 + n` is the code of an instruction whose
//! bytes begin with FC and the number n.
//!
//! The table consists of runs. A run is `GROUP { ROWS }`, or `GROUP(TYPE) { ROWS }` for a numeric group that
//! has a run for each of two types. Ops of the group `plain` hold no number, those of `number` hold one.
//!
//! | Row | For |
//! |---|---|
//! | `CODE;` | a code that no op has |
//! | `CODE => NAME, OP;` | an op without immediates |
//! | `CODE => NAME, OP(SHAPE);` | an op with immediates of this shape, which gives its class (`op_class.rt`) |
//! | `CODE => NAME, OP(WIDTH, TYPE);` | a load or a store: its width in bytes, and the type of its value |
//! | `CODE => NAME, OP(OPERAND -> RESULT);` | a conversion |

/// Passes the runs of a group to the macro `$reader`, or all runs if the group is `all`. The arguments of the
/// reader come first, in brackets. Each run of a group follows as `{ ROWS }` or `(TYPE) { ROWS }`. For the
/// group `all`, each run follows as `[GROUP] { ROWS }` or `[GROUP TYPE] { ROWS }`.
#[macro_export]
macro_rules! opcode_table {
    ($group:ident, $reader:ident $(, $args:tt)*) => {
        $crate::pick_runs! { $group [$reader $($args)*] []

            plain {
                0x00 => b"unreachable", Unreachable;
                0x01 => b"nop", Nop;
            }
            structured {
                0x02 => b"block", Block(block_type);
                0x03 => b"loop", Loop(block_type);
                0x04 => b"if", If(block_type);
                0x05 => b"else", Else;
            }
            reserved { 0x06; 0x07; 0x08; 0x09; 0x0A; }
            structured { 0x0B => b"end", End; }
            number {
                0x0C => b"br", Br(index);
                0x0D => b"br_if", BrIf(index);
            }
            structured { 0x0E => b"br_table", BrTable(index); }
            plain { 0x0F => b"return", Return; }
            number {
                0x10 => b"call", Call(index);
                0x11 => b"call_indirect", CallIndirect(index_zero);
            }
            reserved { 0x12; 0x13; 0x14; 0x15; 0x16; 0x17; 0x18; 0x19; }
            plain {
                0x1A => b"drop", Drop;
                0x1B => b"select", Select;
            }
            reserved { 0x1C; 0x1D; 0x1E; 0x1F; }
            number {
                0x20 => b"local.get", LocalGet(index);
                0x21 => b"local.set", LocalSet(index);
                0x22 => b"local.tee", LocalTee(index);
                0x23 => b"global.get", GlobalGet(index);
                0x24 => b"global.set", GlobalSet(index);
            }
            reserved { 0x25; 0x26; 0x27; }
            load {
                0x28 => b"i32.load", I32Load(4, I32);
                0x29 => b"i64.load", I64Load(8, I64);
                0x2A => b"f32.load", F32Load(4, F32);
                0x2B => b"f64.load", F64Load(8, F64);
                0x2C => b"i32.load8_s", I32Load8S(1, I32);
                0x2D => b"i32.load8_u", I32Load8U(1, I32);
                0x2E => b"i32.load16_s", I32Load16S(2, I32);
                0x2F => b"i32.load16_u", I32Load16U(2, I32);
                0x30 => b"i64.load8_s", I64Load8S(1, I64);
                0x31 => b"i64.load8_u", I64Load8U(1, I64);
                0x32 => b"i64.load16_s", I64Load16S(2, I64);
                0x33 => b"i64.load16_u", I64Load16U(2, I64);
                0x34 => b"i64.load32_s", I64Load32S(4, I64);
                0x35 => b"i64.load32_u", I64Load32U(4, I64);
            }
            store {
                0x36 => b"i32.store", I32Store(4, I32);
                0x37 => b"i64.store", I64Store(8, I64);
                0x38 => b"f32.store", F32Store(4, F32);
                0x39 => b"f64.store", F64Store(8, F64);
                0x3A => b"i32.store8", I32Store8(1, I32);
                0x3B => b"i32.store16", I32Store16(2, I32);
                0x3C => b"i64.store8", I64Store8(1, I64);
                0x3D => b"i64.store16", I64Store16(2, I64);
                0x3E => b"i64.store32", I64Store32(4, I64);
            }
            plain {
                0x3F => b"memory.size", MemorySize(zeros);
                0x40 => b"memory.grow", MemoryGrow(zeros);
            }
            number {
                0x41 => b"i32.const", I32Const(s32);
                0x42 => b"i64.const", I64Const(s64);
                0x43 => b"f32.const", F32Const(bits32);
                0x44 => b"f64.const", F64Const(bits64);
            }
            test(I32) { 0x45 => b"i32.eqz", Test; }
            compare(I32) {
                0x46 => b"i32.eq", Eq;
                0x47 => b"i32.ne", Ne;
                0x48 => b"i32.lt_s", LtS;
                0x49 => b"i32.lt_u", LtU;
                0x4A => b"i32.gt_s", GtS;
                0x4B => b"i32.gt_u", GtU;
                0x4C => b"i32.le_s", LeS;
                0x4D => b"i32.le_u", LeU;
                0x4E => b"i32.ge_s", GeS;
                0x4F => b"i32.ge_u", GeU;
            }
            test(I64) { 0x50 => b"i64.eqz", Test; }
            compare(I64) {
                0x51 => b"i64.eq", Eq;
                0x52 => b"i64.ne", Ne;
                0x53 => b"i64.lt_s", LtS;
                0x54 => b"i64.lt_u", LtU;
                0x55 => b"i64.gt_s", GtS;
                0x56 => b"i64.gt_u", GtU;
                0x57 => b"i64.le_s", LeS;
                0x58 => b"i64.le_u", LeU;
                0x59 => b"i64.ge_s", GeS;
                0x5A => b"i64.ge_u", GeU;
            }
            float_compare(F32) {
                0x5B => b"f32.eq", Eq;
                0x5C => b"f32.ne", Ne;
                0x5D => b"f32.lt", Lt;
                0x5E => b"f32.gt", Gt;
                0x5F => b"f32.le", Le;
                0x60 => b"f32.ge", Ge;
            }
            float_compare(F64) {
                0x61 => b"f64.eq", Eq;
                0x62 => b"f64.ne", Ne;
                0x63 => b"f64.lt", Lt;
                0x64 => b"f64.gt", Gt;
                0x65 => b"f64.le", Le;
                0x66 => b"f64.ge", Ge;
            }
            unary(I32) {
                0x67 => b"i32.clz", Clz;
                0x68 => b"i32.ctz", Ctz;
                0x69 => b"i32.popcnt", Popcnt;
            }
            binary(I32) {
                0x6A => b"i32.add", Add;
                0x6B => b"i32.sub", Sub;
                0x6C => b"i32.mul", Mul;
                0x6D => b"i32.div_s", DivS;
                0x6E => b"i32.div_u", DivU;
                0x6F => b"i32.rem_s", RemS;
                0x70 => b"i32.rem_u", RemU;
                0x71 => b"i32.and", And;
                0x72 => b"i32.or", Or;
                0x73 => b"i32.xor", Xor;
                0x74 => b"i32.shl", Shl;
                0x75 => b"i32.shr_s", ShrS;
                0x76 => b"i32.shr_u", ShrU;
                0x77 => b"i32.rotl", Rotl;
                0x78 => b"i32.rotr", Rotr;
            }
            unary(I64) {
                0x79 => b"i64.clz", Clz;
                0x7A => b"i64.ctz", Ctz;
                0x7B => b"i64.popcnt", Popcnt;
            }
            binary(I64) {
                0x7C => b"i64.add", Add;
                0x7D => b"i64.sub", Sub;
                0x7E => b"i64.mul", Mul;
                0x7F => b"i64.div_s", DivS;
                0x80 => b"i64.div_u", DivU;
                0x81 => b"i64.rem_s", RemS;
                0x82 => b"i64.rem_u", RemU;
                0x83 => b"i64.and", And;
                0x84 => b"i64.or", Or;
                0x85 => b"i64.xor", Xor;
                0x86 => b"i64.shl", Shl;
                0x87 => b"i64.shr_s", ShrS;
                0x88 => b"i64.shr_u", ShrU;
                0x89 => b"i64.rotl", Rotl;
                0x8A => b"i64.rotr", Rotr;
            }
            float_unary(F32) {
                0x8B => b"f32.abs", Abs;
                0x8C => b"f32.neg", Neg;
                0x8D => b"f32.ceil", Ceil;
                0x8E => b"f32.floor", Floor;
                0x8F => b"f32.trunc", Trunc;
                0x90 => b"f32.nearest", Nearest;
                0x91 => b"f32.sqrt", Sqrt;
            }
            float_binary(F32) {
                0x92 => b"f32.add", Add;
                0x93 => b"f32.sub", Sub;
                0x94 => b"f32.mul", Mul;
                0x95 => b"f32.div", Div;
                0x96 => b"f32.min", Min;
                0x97 => b"f32.max", Max;
                0x98 => b"f32.copysign", Copysign;
            }
            float_unary(F64) {
                0x99 => b"f64.abs", Abs;
                0x9A => b"f64.neg", Neg;
                0x9B => b"f64.ceil", Ceil;
                0x9C => b"f64.floor", Floor;
                0x9D => b"f64.trunc", Trunc;
                0x9E => b"f64.nearest", Nearest;
                0x9F => b"f64.sqrt", Sqrt;
            }
            float_binary(F64) {
                0xA0 => b"f64.add", Add;
                0xA1 => b"f64.sub", Sub;
                0xA2 => b"f64.mul", Mul;
                0xA3 => b"f64.div", Div;
                0xA4 => b"f64.min", Min;
                0xA5 => b"f64.max", Max;
                0xA6 => b"f64.copysign", Copysign;
            }
            integer { 0xA7 => b"i32.wrap_i64", Wrap(I64 -> I32); }
            convert {
                0xA8 => b"i32.trunc_f32_s", I32TruncF32S(F32 -> I32);
                0xA9 => b"i32.trunc_f32_u", I32TruncF32U(F32 -> I32);
                0xAA => b"i32.trunc_f64_s", I32TruncF64S(F64 -> I32);
                0xAB => b"i32.trunc_f64_u", I32TruncF64U(F64 -> I32);
            }
            integer {
                0xAC => b"i64.extend_i32_s", ExtendS(I32 -> I64);
                0xAD => b"i64.extend_i32_u", ExtendU(I32 -> I64);
            }
            convert {
                0xAE => b"i64.trunc_f32_s", I64TruncF32S(F32 -> I64);
                0xAF => b"i64.trunc_f32_u", I64TruncF32U(F32 -> I64);
                0xB0 => b"i64.trunc_f64_s", I64TruncF64S(F64 -> I64);
                0xB1 => b"i64.trunc_f64_u", I64TruncF64U(F64 -> I64);
                0xB2 => b"f32.convert_i32_s", F32ConvertI32S(I32 -> F32);
                0xB3 => b"f32.convert_i32_u", F32ConvertI32U(I32 -> F32);
                0xB4 => b"f32.convert_i64_s", F32ConvertI64S(I64 -> F32);
                0xB5 => b"f32.convert_i64_u", F32ConvertI64U(I64 -> F32);
                0xB6 => b"f32.demote_f64", F32DemoteF64(F64 -> F32);
                0xB7 => b"f64.convert_i32_s", F64ConvertI32S(I32 -> F64);
                0xB8 => b"f64.convert_i32_u", F64ConvertI32U(I32 -> F64);
                0xB9 => b"f64.convert_i64_s", F64ConvertI64S(I64 -> F64);
                0xBA => b"f64.convert_i64_u", F64ConvertI64U(I64 -> F64);
                0xBB => b"f64.promote_f32", F64PromoteF32(F32 -> F64);
                0xBC => b"i32.reinterpret_f32", I32ReinterpretF32(F32 -> I32);
                0xBD => b"i64.reinterpret_f64", I64ReinterpretF64(F64 -> I64);
                0xBE => b"f32.reinterpret_i32", F32ReinterpretI32(I32 -> F32);
                0xBF => b"f64.reinterpret_i64", F64ReinterpretI64(I64 -> F64);
            }
            sign_extend {
                0xC0 => b"i32.extend8_s", I32From8(I32 -> I32);
                0xC1 => b"i32.extend16_s", I32From16(I32 -> I32);
                0xC2 => b"i64.extend8_s", I64From8(I64 -> I64);
                0xC3 => b"i64.extend16_s", I64From16(I64 -> I64);
                0xC4 => b"i64.extend32_s", I64From32(I64 -> I64);
            }
            reserved {
                0xC5; 0xC6; 0xC7; 0xC8; 0xC9; 0xCA; 0xCB; 0xCC; 0xCD; 0xCE; 0xCF; 0xD0;
                0xD1; 0xD2; 0xD3; 0xD4; 0xD5; 0xD6; 0xD7; 0xD8; 0xD9; 0xDA; 0xDB; 0xDC;
                0xDD; 0xDE; 0xDF; 0xE0; 0xE1; 0xE2; 0xE3; 0xE4; 0xE5; 0xE6; 0xE7; 0xE8;
                0xE9; 0xEA; 0xEB; 0xEC; 0xED; 0xEE; 0xEF; 0xF0; 0xF1; 0xF2; 0xF3; 0xF4;
                0xF5; 0xF6; 0xF7; 0xF8; 0xF9; 0xFA; 0xFB; 0xFC; 0xFD; 0xFE; 0xFF;
            }
            saturate {
                0x100 => b"i32.trunc_sat_f32_s", I32TruncSatF32S(F32 -> I32);
                0x101 => b"i32.trunc_sat_f32_u", I32TruncSatF32U(F32 -> I32);
                0x102 => b"i32.trunc_sat_f64_s", I32TruncSatF64S(F64 -> I32);
                0x103 => b"i32.trunc_sat_f64_u", I32TruncSatF64U(F64 -> I32);
                0x104 => b"i64.trunc_sat_f32_s", I64TruncSatF32S(F32 -> I64);
                0x105 => b"i64.trunc_sat_f32_u", I64TruncSatF32U(F32 -> I64);
                0x106 => b"i64.trunc_sat_f64_s", I64TruncSatF64S(F64 -> I64);
                0x107 => b"i64.trunc_sat_f64_u", I64TruncSatF64U(F64 -> I64);
            }
            number {
                0x108 => b"memory.init", MemoryInit(index_zero);
                0x109 => b"data.drop", DataDrop(index);
            }
            plain {
                0x10A => b"memory.copy", MemoryCopy(zeros);
                0x10B => b"memory.fill", MemoryFill(zeros);
            }
            number {
                0x10C => b"table.init", TableInit(index_table);
                0x10D => b"elem.drop", ElemDrop(index);
            }
            plain { 0x10E => b"table.copy", TableCopy(tables); }
        }
    };
}

/// Picks the runs of a group, for `opcode_table`. The second brackets hold the runs found so far.
#[macro_export]
macro_rules! pick_runs {
    (all [$reader:ident $($args:tt)*] [] $($group:ident $(($ty:ident))? { $($row:tt)* })*) => {
        $reader! { [$($args)*] $([$group $($ty)?] { $($row)* })* }
    };
    ($group:ident [$reader:ident $($args:tt)*] [$($found:tt)*]) => {
        $reader! { [$($args)*] $($found)* }
    };
    (plain $to:tt [$($found:tt)*] plain $(($ty:ident))? { $($row:tt)* } $($more:tt)*) => {
        $crate::pick_runs! { plain $to [$($found)* $(($ty))? { $($row)* }] $($more)* }
    };
    (number $to:tt [$($found:tt)*] number $(($ty:ident))? { $($row:tt)* } $($more:tt)*) => {
        $crate::pick_runs! { number $to [$($found)* $(($ty))? { $($row)* }] $($more)* }
    };
    (load $to:tt [$($found:tt)*] load $(($ty:ident))? { $($row:tt)* } $($more:tt)*) => {
        $crate::pick_runs! { load $to [$($found)* $(($ty))? { $($row)* }] $($more)* }
    };
    (store $to:tt [$($found:tt)*] store $(($ty:ident))? { $($row:tt)* } $($more:tt)*) => {
        $crate::pick_runs! { store $to [$($found)* $(($ty))? { $($row)* }] $($more)* }
    };
    (test $to:tt [$($found:tt)*] test $(($ty:ident))? { $($row:tt)* } $($more:tt)*) => {
        $crate::pick_runs! { test $to [$($found)* $(($ty))? { $($row)* }] $($more)* }
    };
    (compare $to:tt [$($found:tt)*] compare $(($ty:ident))? { $($row:tt)* } $($more:tt)*) => {
        $crate::pick_runs! { compare $to [$($found)* $(($ty))? { $($row)* }] $($more)* }
    };
    (unary $to:tt [$($found:tt)*] unary $(($ty:ident))? { $($row:tt)* } $($more:tt)*) => {
        $crate::pick_runs! { unary $to [$($found)* $(($ty))? { $($row)* }] $($more)* }
    };
    (binary $to:tt [$($found:tt)*] binary $(($ty:ident))? { $($row:tt)* } $($more:tt)*) => {
        $crate::pick_runs! { binary $to [$($found)* $(($ty))? { $($row)* }] $($more)* }
    };
    (float_compare $to:tt [$($found:tt)*] float_compare $(($ty:ident))? { $($row:tt)* } $($more:tt)*) => {
        $crate::pick_runs! { float_compare $to [$($found)* $(($ty))? { $($row)* }] $($more)* }
    };
    (float_unary $to:tt [$($found:tt)*] float_unary $(($ty:ident))? { $($row:tt)* } $($more:tt)*) => {
        $crate::pick_runs! { float_unary $to [$($found)* $(($ty))? { $($row)* }] $($more)* }
    };
    (float_binary $to:tt [$($found:tt)*] float_binary $(($ty:ident))? { $($row:tt)* } $($more:tt)*) => {
        $crate::pick_runs! { float_binary $to [$($found)* $(($ty))? { $($row)* }] $($more)* }
    };
    (convert $to:tt [$($found:tt)*] convert $(($ty:ident))? { $($row:tt)* } $($more:tt)*) => {
        $crate::pick_runs! { convert $to [$($found)* $(($ty))? { $($row)* }] $($more)* }
    };
    (integer $to:tt [$($found:tt)*] integer $(($ty:ident))? { $($row:tt)* } $($more:tt)*) => {
        $crate::pick_runs! { integer $to [$($found)* $(($ty))? { $($row)* }] $($more)* }
    };
    (sign_extend $to:tt [$($found:tt)*] sign_extend $(($ty:ident))? { $($row:tt)* } $($more:tt)*) => {
        $crate::pick_runs! { sign_extend $to [$($found)* $(($ty))? { $($row)* }] $($more)* }
    };
    (saturate $to:tt [$($found:tt)*] saturate $(($ty:ident))? { $($row:tt)* } $($more:tt)*) => {
        $crate::pick_runs! { saturate $to [$($found)* $(($ty))? { $($row)* }] $($more)* }
    };
    ($group:ident $to:tt $found:tt $other:ident $(($ty:ident))? { $($row:tt)* } $($more:tt)*) => {
        $crate::pick_runs! { $group $to $found $($more)* }
    };
}
