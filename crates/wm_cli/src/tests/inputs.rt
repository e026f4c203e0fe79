//! Inputs for readers and writers that fail.

/// The smallest input and the smallest text of each refusal, then others. Some are valid, and some are refused before
/// their last byte. `rows` describes the rows.
pub const INPUTS: &str = r#"wmod check < 01
wmod check < 00 61 73 6D 02
wmod check --limit 8 < H 00
wmod check < H 00
wmod check < H 0C
wmod check < H 01 01 00 01
wmod check < H 00 00
wmod check < H 0A 01 01
wmod check --features bulk-memory < H 0C 01 01
wmod check < H 00 80 80 80 80 10
wmod check < H 00 02 01 80
wmod check < H 01 02 01 00
wmod check < H 06 02 01 7D
wmod check < H 08 01 00
wmod check < H 05 04 01 01 01 00
wmod check < H 05 05 02 00 00 00 00
wmod check < H 05 03 01 00 00 07 07 02 00 02 00 00
wmod check < H 01 05 01 60 00 01 7F 03 02 01 00 08 01 00
wmod check < H 06 04 01 7F 00 06
wmod check < H 06 04 01 7F 00 00
wmod check < H 06 04 01 7F 00 0B
wmod check < H 06 06 01 7F 00 42 00
wmod check < H 01 04 01 60 00 00 03 02 01 00 0A 02 01 00
wmod check < H 01 04 01 60 00 00 03 02 01 00 0A 0B 01 09 02 FF FF FF FF 0F 7F 01 7F
wmod check < H 01 04 01 60 00 00 03 02 01 00 0A 04 01 02 00 05
wmod check < H 01 04 01 60 00 00 03 02 01 00 05 03 01 00 00 0A 06 01 04 00 28 03 00
wmod check < H 01 04 01 60 00 00 02 06 01 00 00 03 7F 00 03 02 01 00 0A 05 01 03 00 24 00
wmod check --max-functions 0 < H 01 04 01 60 00 00 03 02 01 00
wmod check --max-locals 0 < H 01 04 01 60 00 00 03 02 01 00 0A 05 01 03 01 01 7F
wmod check --max-open 0 < H 01 04 01 60 00 00 03 02 01 00 0A 05 01 03 00 02 40
wmod build < bytes 80
wmod build < ,
wmod build < (;
wmod build < "
wmod build < "\x
wmod build <
wmod build < (module(a
wmod build < (module(func)(import
wmod build < (module(start)(start
wmod build < (module(func $a)(func $a
wmod build < (module(data -1))
wmod build --profile 3 < (module(data(f32.const 1e39)))
wmod build < (module(import"\ff"
wmod build < (module(data $a))
wmod build < (module(func(type 0)))
wmod build < (module(data(if)))
wmod build < (module(global f32))
wmod build < (module(type(func))(func(type 0)i32.load align=0))
wmod build < (module(type(func))(func(type 0)if end $a))
wmod check < H
wmod check <
wmod check --limit 7 < H
wmod check < 00 61 73 6D 02 00 00 00
wmod check < H 01 01 00 01 01
wmod check --limit 8 < H 00 01 00
wmod check --max-functions 0 < H 01 07 01 60 02 7F 7F 01 7F 03 02 01 00 0A 09 01 07 00 20 00 20 01 6A 0B
wmod check --max-locals 0 < H 01 04 01 60 00 00 03 02 01 00 0A 06 01 04 01 00 7F 0B
wmod check --max-open 1 < H 01 04 01 60 00 00 03 02 01 00 0A 0A 01 08 00 02 40 02 40 0B 0B 0B
wmod check --max-functions 1 --max-locals 0 --max-open 0 < H 01 07 01 60 02 7F 7F 01 7F 03 02 01 00 0A 09 01 07 00 20 00 20 01 6A 0B
wmod check < H 00 05 04 6E 61 6D 65
wmod check < H 00 05 01 61 FF 00 FE
wmod check < H 01 01 00 02 01 00 03 01 00 04 01 00 05 01 00 06 01 00 07 01 00 09 01 00 0A 01 00 0B 01 00
wmod check < H 01 87 80 80 80 00 01 60 02 7F 7F 01 7F 03 02 01 00 0A 09 01 07 00 20 00 20 01 6A 0B
wmod check < H 01 04 01 60 00 00 02 07 01 01 61 01 62 00 00
wmod check < H 04 04 01 70 00 01 09 06 01 00 41 00 0B 00
wmod check --profile 2 < H 01 05 01 60 00 01 7F 03 02 01 00 0A 08 01 06 00 41 FF 01 C0 0B
wmod check --profile 2 < H 01 05 01 60 00 01 7F 03 02 01 00 0A 08 01 06 00 41 FF 01 C4 0B
wmod check --profile 3 < H 06 09 01 7D 00 43 01 00 C0 7F 0B
wmod check --profile 4 < H 06 0D 01 7C 00 44 00 00 00 00 00 00 F8 BF 0B
wmod build --profile 3 < (module (global f32 f32.const 0))
wmod check < H 01 04 01 60 00 00 03 02 01 00 0A 0A 01 08 00 41 00 04 40 05 0B 0B
wmod check < H 01 05 01 60 00 01 7F 03 02 01 00 0A 0E 01 0C 00 41 01 04 7F 41 02 05 41 03 0B 0B
wmod check < H 06 0A 01 7F 00 41 80 80 80 80 78 0B
wmod check < H 06 0F 01 7E 01 42 80 80 80 80 80 80 80 80 80 00 0B
wmod check < H 01 04 01 60 00 00 03 02 01 00 0A 0A 01 08 03 01 7F 00 7E 02 7F 0B
wmod check < H 01 04 01 60 00 00 03 02 01 00 0A 0B 01 09 00 41 00 04 40 05 01 0B 0B
wmod check < H 01 08 02 60 00 00 60 00 01 7E 03 03 02 00 01 0A 0B 02 03 00 01 0B 05 00 42 80 00 0B
wmod check < H 01 04 01 60 00 00 03 02 01 00 05 03 01 00 01 0A 16 01 14 00 41 00 28 02 08 1A 41 00 28 00 00 1A 41 00 28 02 00 1A 0B
wmod check < H 05 03 01 00 01 0B 0A 01 00 41 00 0B 04 00 C3 A9 22
wmod build < (module)
wmod build < (module (type $t (func)) (func (type $t) block $a block $a br $a end end))
wmod build < (module (type (func (param i32))) (func (type 0) (param)))
wmod build < (module (memory $mem0 1) (data $mem0 (offset i32.const 0) "\00\u{e9}\""))
wmod build < (module (type (func)) (func (type 0) drop))
wmod build --old-words < (module (type (func (param i32) (result i32))) (func (type 0) get_local 0))
wmod build --old-words < (module (table 1 anyfunc))
wmod build --max-functions 0 < (module (type (func)) (func (type 0)))
wmod build --max-functions 1 --max-locals 0 --max-open 0 --old-words < (module (type (func)) (func (type 0) (local i32) get_local 0 drop))
wmod check < H 00 02 01 FF
wmod check < H 00 02 02 61
wmod check < H 01 01 00
wmod check < H 03 01 00 0A 01 00
wmod check < H 02
wmod check < H 01 00
wmod check < H 01 02 00 00
wmod check < H 01 02 01 60
wmod check < H 03 01 00 01
wmod check < H 01 84 80 80 80 00 01 60 00 00
wmod check < H 01 84 80 80 80 80 00
wmod check < H 01 87 80 80 80 80 00 01 60 02 7F 7F 01 7F 03 02 01 00 0A 09 01 07 00 20 00 20 01 6A 0B
wmod check < H 01 04 01 60 00 00 03 02 01 00
wmod check < H 01 04 01 60 00 00 03 02 01 00 0B
wmod check < H 0A 04 01 02 00 0B
wmod check < H 01 04 01 60 00
wmod check < H 01 06 FF FF FF FF 0F 60
wmod check < H 01 04 01 60 00 00 03 05 04 00 00 01 00
wmod check < H 01 05 01 60 00 02 7F
wmod check < H 01 05 01 60 01 7D 00
wmod check < H 01 05 01 60 01 70 00
wmod check < H 02 05 01 00 00 00 00
wmod check < H 01 04 01 60 00 00 02 07 01 01 61 01 62 00 00 08 01 00
wmod check < H 01 05 01 60 00 01 7F 02 07 01 01 61 01 62 00 00 08 01 00
wmod check < H 07 05 01 01 61 00 00
wmod check < H 05 03 01 00 01 07 09 02 01 61 02 00 01 61 02 00
wmod check < H 05 03 01 00 01 07 0D 03 01 61 02 00 01 62 02 00 01 61 02 00
wmod check < H 05 05 01 00 80 80 04
wmod check < H 05 05 01 00 81 80 04
wmod check < H 05 05 02 00 01 00 01
wmod check < H 06 0A 01 7F 00 41 80 80 80 80 08 0B
wmod check < H 06 0B 02 7F 00 41 00 0B 7F 00 23 00 0B
wmod check < H 06 07 01 7F 00 41 01 1A 0B
wmod check < H 06 08 01 7F 00 41 01 41 02 0B
wmod check < H 06 06 01 7F 00 42 00 0B
wmod check < H 01 04 01 60 00 00 03 02 01 00 06 06 01 7F 00 41 00 0B 0A 08 01 06 00 41 00 24 00 0B
wmod check < H 04 04 01 70 00 01 09 07 01 00 41 00 0B 01 00
wmod check < H 09 06 01 00 41 00 0B 00
wmod check < H 0B 07 01 00 41 00 0B 01 61
wmod check < H 05 03 01 00 01 06 06 01 7F 00 41 00 0B 0B 07 01 00 23 00 0B 01 41
wmod check < H 01 04 01 60 00 00 03 02 01 00 0A 04 01 02 00 0B
wmod check < H 01 04 01 60 00 00 03 02 01 00 0A 07 02 02 00 0B 02 00 0B
wmod check < H 01 04 01 60 00 00 03 02 01 00 0A 05 01 03 00 0B 0B
wmod check < H 01 04 01 60 00 00 03 02 01 00 0A 04 01 7F 00 0B
wmod check < H 01 04 01 60 00 00 03 02 01 00 0A 04 01 7F 00 01
wmod check < H 01 04 01 60 00 00 03 02 01 00 0A 13 01 11 02 FF FF FF FF 0F 7F 01 7E 20 FE FF FF FF 0F 1A 0B
wmod check < H 01 05 01 60 00 01 7F 03 02 01 00 0A 09 01 07 00 43 00 00 00 00 0B
wmod check < H 01 05 01 60 00 01 7F 03 02 01 00 0A 09 01 07 00 C0 00 00 00 00 0B
wmod check < H 01 04 01 60 00 00 03 02 01 00 0A 05 01 03 00 1A 0B
wmod check < H 01 05 01 60 00 01 7F 03 02 01 00 0A 06 01 04 00 00 1B 0B
wmod check < H 01 05 01 60 00 01 7F 03 02 01 00 0A 08 01 06 00 00 42 00 6A 0B
wmod check < H 01 05 01 60 00 01 7F 03 02 01 00 0A 07 01 05 00 00 0D 00 0B
wmod check < H 01 05 01 60 00 01 7F 03 02 01 00 0A 08 01 06 00 00 0D 00 50 0B
wmod check < H 01 05 01 60 00 01 7F 03 02 01 00 0A 0D 01 0B 00 02 40 00 0E 01 00 01 0B 00 0B
wmod check < H 01 05 01 60 00 01 7F 03 02 01 00 0A 0D 01 0B 00 02 7E 00 0E 01 00 01 0B 00 0B
wmod check < H 01 05 01 60 00 01 7F 03 02 01 00 0A 0B 01 09 00 41 00 04 7F 41 00 0B 0B
wmod check < H 01 07 01 60 02 7F 7F 01 7F 03 02 01 00 0A 09 01 07 00 20 00 20 01 6A 0B
wmod check < H 01 0A 02 60 03 7F 7F 7F 00 60 00 00 03 03 02 00 01 0A 0E 02 02 00 0B 09 00 00 41 01 10 00 1A 1A 0B
wmod check < H 01 04 01 60 00 00 03 02 01 00 05 03 01 00 01 0A 0A 01 08 00 41 00 28 03 00 1A 0B
wmod check < H 01 04 01 60 00 00 03 02 01 00 0A 0A 01 08 00 41 00 28 03 00 1A 0B
wmod build < (module (func (type $a)))
wmod build < (module (func (type 5 $x)))
wmod build < (module (type $a (func)) (type $a (func)))
wmod build < (module (memory 1) (import "a" "b" (memory 1)))
wmod build < (module (type (func)) (func (type 0)) (start 0) (start 0))
wmod build < (module (type (func)) (func (type 0) (param $x i32) (param $x i32)))
wmod build < (module (type (func (param f32))))
wmod build < (module (type (func (param i32 f32))))
wmod build < (module (func)) x
wmod build < (module (memory (export "a") 1))
wmod build < (module (global i32 nop))
wmod build < (module (global i32 i32.const 0 i32.const 0))
wmod build < (module (global i32))
wmod build < (module (global i32 (i32.const 0)))
wmod build < (module (global i32 i32.extend8_s))
wmod build < (module (memory 4294967296))
wmod build < (module (memory -1))
wmod build < (module (memory 1 +2))
wmod build < (module (type $t (func)) (func (type $t) block $a end $b))
wmod build < (module (type (func)) (func (type 0) (nop)))
wmod build < (module (type (func)) (func (type 0) end))
wmod build < (module (type (func)) (func (type 0) 5))
wmod build < (module (type (func)) (func (type 0) nop $a))
wmod build < (module (type (func)) (func (type 0) f32.const 1.5 drop))
wmod build < (module (type (func)) (func (type 0) f32.const 1 drop))
wmod build < (module (type (func)) (func (type 0) i32.const 0 i32.load align=0 drop))
wmod build < (module (type (func)) (func (type 0) i32.const 0 i32.load align=2 offset=1 drop))"#;
