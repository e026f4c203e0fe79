//! Rows for the line of detail: one for each line of the table of later features, and one for each kind of place.

pub const DETAILS: &str =
    r#"detail wmod check < H 01 04 01 60 00 00 03 02 01 00 0A 07 01 05 00 41 00 C4 0B = byte 0xc4 at 0x19, function 0 (code section): a sign-extension instruction (sign-ext); use --features sign-ext, or compile with -mno-sign-ext
detail wmod check < H 06 02 01 7D = byte 0x7d at 0xb, global 0 (global section): a floating-point type or instruction (floats); use --profile 3, or 4 with sign extension
detail wmod check < H 01 04 01 60 00 00 03 02 01 00 0A 06 01 04 00 FC 00 0B = byte 0xfc at 0x17, function 0 (code section): a saturating conversion, or an instruction on a whole memory or table (nontrapping-fptoint, bulk-memory); use --features nontrapping-fptoint,bulk-memory, or compile with -mcpu=mvp
detail wmod check --features bulk-memory-opt < H 01 04 01 60 00 00 03 02 01 00 0A 06 01 04 00 FC 00 0B = byte 0x00 at 0x18, function 0 (code section): a saturating conversion (nontrapping-fptoint); use --features nontrapping-fptoint, or compile with -mno-nontrapping-fptoint
detail wmod check --features bulk-memory-opt < H 01 04 01 60 00 00 03 02 01 00 0A 08 01 06 00 FC 08 00 00 0B = byte 0x08 at 0x18, function 0 (code section): memory.init or data.drop (bulk-memory); use --features bulk-memory, or compile with -mno-bulk-memory
detail wmod check --features nontrapping-fptoint < H 01 04 01 60 00 00 03 02 01 00 0A 08 01 06 00 FC 0A 00 00 0B = byte 0x0a at 0x18, function 0 (code section): memory.copy or memory.fill (bulk-memory-opt); use --features bulk-memory-opt, or compile with -mcpu=mvp
detail wmod check --features bulk-memory-opt < H 01 04 01 60 00 00 03 02 01 00 0A 08 01 06 00 FC 0C 00 00 0B = byte 0x0c at 0x18, function 0 (code section): table.init, elem.drop or table.copy (bulk-memory); use --features bulk-memory, or compile with -mcpu=mvp
detail wmod check --features bulk-memory-opt < H 01 04 01 60 00 00 03 02 01 00 0A 07 01 05 00 FC 10 00 0B = byte 0x10 at 0x18, function 0 (code section): table.grow, table.size or table.fill (reference-types); compile with -mno-reference-types
detail wmod check --features nontrapping-fptoint < H 01 04 01 60 00 00 03 02 01 00 0A 07 01 05 00 FC 80 01 0B = byte 0x01 at 0x19, function 0 (code section): no instruction of the profile begins with this byte
detail wmod check < H 0C = byte 0x0c at 0x8, a section id: a data count section (bulk-memory); use --features bulk-memory, or compile with -mno-bulk-memory
detail wmod check < H 05 03 01 00 01 0B 04 01 01 01 61 = byte 0x01 at 0x10, data segment 0 (data section): no such index; if it is the first number of a segment, a later form (bulk-memory); use --features bulk-memory, or compile with -mno-bulk-memory
detail wmod check < H 04 04 01 70 00 01 09 04 01 01 00 00 = byte 0x01 at 0x11, element segment 0 (element section): no such index; if it is the first number of a segment, a later form (bulk-memory); use --features bulk-memory, or compile with -mcpu=mvp
detail wmod check < H 04 04 01 70 00 01 09 04 01 03 00 00 = byte 0x03 at 0x11, element segment 0 (element section): no such index; if it is the first number of a segment, a later form (reference-types); compile with -mcpu=mvp
detail wmod check --features bulk-memory < H 04 04 01 70 00 01 09 04 01 03 00 00 = byte 0x03 at 0x11, element segment 0 (element section): if it is the first number of a segment, a declarative one or one of expressions (reference-types); compile with -mno-reference-types
detail wmod check < H 01 04 01 60 00 00 03 02 01 00 04 04 01 70 00 01 0A 0D 01 0B 00 41 00 11 00 80 80 80 80 00 0B = byte 0x80 at 0x21, function 0 (code section): a table index of more than one byte (call-indirect-overlong); use --features call-indirect-overlong, or compile with -mcpu=mvp
detail wmod check < H 01 04 01 60 00 00 03 02 01 00 04 04 01 70 00 01 0A 09 01 07 00 41 00 11 00 01 0B = byte 0x01 at 0x21, function 0 (code section): a table other than the first (reference-types); compile with -mno-reference-types
detail wmod check < H 01 04 01 60 00 00 03 02 01 00 04 04 01 70 00 01 0A 09 01 07 00 41 00 11 00 81 0B = byte 0x81 at 0x21, function 0 (code section): a table other than the first (reference-types); compile with -mno-reference-types
detail wmod check --features call-indirect-overlong < H 01 04 01 60 00 00 03 02 01 00 04 04 01 70 00 01 0A 09 01 07 00 41 00 11 00 01 0B = byte 0x01 at 0x21, function 0 (code section): a table other than the first (reference-types); compile with -mno-reference-types
detail wmod check --features call-indirect-overlong < H 01 04 01 60 00 00 03 02 01 00 04 04 01 70 00 01 0A 09 01 07 00 41 00 11 00 81 0B = byte 0x81 at 0x21, function 0 (code section): a table other than the first (reference-types); compile with -mno-reference-types
detail wmod check < H 01 04 01 60 00 00 03 02 01 00 0a 07 01 05 00 d0 70 1a 0b = byte 0xd0 at 0x17, function 0 (code section): an instruction on references (reference-types); compile with -mno-reference-types
detail wmod check < H 01 04 01 60 00 00 03 02 01 00 0A 07 01 05 00 25 00 1A 0B = byte 0x25 at 0x17, function 0 (code section): an access to a table (reference-types); compile with -mno-reference-types
detail wmod check < H 01 04 01 60 00 00 03 02 01 00 0A 07 01 05 00 1C 01 7F 0B = byte 0x1c at 0x17, function 0 (code section): a select with its type (reference-types); compile with -mno-reference-types
detail wmod check < H 01 05 01 60 01 70 00 = byte 0x70 at 0xd, type 0 (type section): a reference type (reference-types); compile with -mno-reference-types
detail wmod check < H 04 04 01 6F 00 00 = byte 0x6f at 0xb, table 0 (table section): the type externref (reference-types); compile with -mno-reference-types
detail wmod check < H 04 07 02 70 00 01 70 00 01 = byte 0x01 at 0x10, table 1 (table section): a second table (reference-types); compile with -mno-reference-types
detail wmod check < H 01 06 01 60 00 02 7F 7F = byte 0x02 at 0xd, type 0 (type section): a function type with several results (multivalue); compile with -mno-multivalue
detail wmod check < H 01 04 01 60 00 00 03 02 01 00 0A 07 01 05 00 02 00 0B 0B = byte 0x00 at 0x18, function 0 (code section): a type index as a block type (multivalue); compile with -mno-multivalue
detail wmod check < H 01 04 01 60 00 00 03 02 01 00 0A 08 01 06 00 02 80 00 0B 0B = byte 0x80 at 0x18, function 0 (code section): a type index as a block type (multivalue); compile with -mno-multivalue
detail wmod check < H 01 04 01 60 00 00 03 02 01 00 0A 06 01 04 00 FD 00 0B = byte 0xfd at 0x17, function 0 (code section): a vector instruction (simd128); compile with -mno-simd128
detail wmod check < H 01 05 01 60 01 7B 00 = byte 0x7b at 0xd, type 0 (type section): the vector type v128 (simd128); compile with -mno-simd128
detail wmod check < H 01 04 01 60 00 00 03 02 01 00 0A 07 01 05 00 02 7B 0B 0B = byte 0x7b at 0x18, function 0 (code section): the vector type v128 (simd128); compile with -mno-simd128
detail wmod check < H 01 04 01 60 00 00 03 02 01 00 0A 07 01 05 00 FE 03 00 0B = byte 0xfe at 0x17, function 0 (code section): an atomic instruction (atomics); compile without -pthread
detail wmod check < H 05 04 01 03 01 02 = byte 0x03 at 0xb, memory 0 (memory section): a shared memory (atomics); compile without -pthread
detail wmod check < H 02 09 01 01 61 01 61 02 03 01 02 = byte 0x03 at 0x10, import 0 (import section): a shared memory, or a flag that no table has (atomics); compile without -pthread
detail wmod check < H 01 04 01 60 00 00 03 02 01 00 0A 06 01 04 00 12 00 0B = byte 0x12 at 0x17, function 0 (code section): a tail call (tail-call); compile with -mno-tail-call
detail wmod check < H 01 04 01 60 00 00 03 02 01 00 0A 07 01 05 00 06 40 0B 0B = byte 0x06 at 0x17, function 0 (code section): an instruction on exceptions (exception-handling); compile without -fwasm-exceptions
detail wmod check < H 01 04 01 60 00 00 03 02 01 00 0A 05 01 03 00 19 0B = byte 0x19 at 0x17, function 0 (code section): an instruction on exceptions (exception-handling); compile without -fwasm-exceptions
detail wmod check < H 01 04 01 60 00 00 03 02 01 00 0A 08 01 06 00 1F 40 00 0B 0B = byte 0x1f at 0x17, function 0 (code section): an instruction on exceptions (exception-handling); compile without -fwasm-exceptions
detail wmod check < H 01 05 01 60 01 69 00 = byte 0x69 at 0xd, type 0 (type section): the type exnref (exception-handling); compile without -fwasm-exceptions
detail wmod check < H 02 05 01 00 00 04 00 = byte 0x04 at 0xd, import 0 (import section): a tag (exception-handling); compile without -fwasm-exceptions
detail wmod check < H 07 05 01 01 61 04 00 = byte 0x04 at 0xd, export 0 (export section): a tag (exception-handling); compile without -fwasm-exceptions
detail wmod check --features bulk-memory < H 09 04 01 01 04 00 = byte 0x04 at 0xc, element segment 0 (element section): this byte is not allowed here
detail wmod check < H 0D = byte 0x0d at 0x8, a section id: a tag section (exception-handling); compile without -fwasm-exceptions
detail wmod check < H 06 09 01 7F 00 41 01 41 02 6A 0B = byte 0x02 at 0x10, global 0 (global section): a second instruction in a constant expression (extended-const); compile with -mno-extended-const
detail wmod check < H 05 03 01 00 01 0B 08 01 00 41 01 41 02 6A 0B 00 = byte 0x02 at 0x14, data segment 0 (data section): a second instruction in a constant expression (extended-const); compile with -mno-extended-const
detail wmod check < H 04 04 01 70 00 01 09 0A 01 00 41 01 41 02 6A 0B 00 00 = byte 0x02 at 0x15, element segment 0 (element section): a second instruction in a constant expression (extended-const); compile with -mno-extended-const
detail wmod check < H 06 06 01 7F 00 6A 0B = byte 0x6a at 0xd, global 0 (global section): arithmetic in a constant expression (extended-const); compile with -mno-extended-const
detail wmod check < H 06 06 01 7E 00 7C 0B = byte 0x7c at 0xd, global 0 (global section): arithmetic in a constant expression (extended-const); compile with -mno-extended-const
detail wmod check < H 05 03 01 04 01 = byte 0x04 at 0xb, memory 0 (memory section): a memory or a table with 64-bit addresses (memory64); compile with --target=wasm32
detail wmod check < H 01 04 01 60 00 00 03 02 01 00 05 03 01 00 01 0A 07 01 05 00 3F 01 1A 0B = byte 0x01 at 0x1d, function 0 (code section): a memory other than the first (multimemory); compile with -mno-multimemory
detail wmod check < H 05 05 02 00 00 00 00 = byte 0x00 at 0xe, memory 1 (memory section): a second memory (multimemory); compile with -mno-multimemory
detail wmod check < H 02 0B 02 00 00 02 00 00 00 00 02 00 00 = byte 0x00 at 0x14, import 1 (import section): a second table or memory (reference-types, multimemory); compile with -mcpu=mvp
detail wmod check < H 01 04 01 60 00 00 03 02 01 00 0A 06 01 04 00 14 00 0B = byte 0x14 at 0x17, function 0 (code section): a call of a function reference (function-references); compile to WebAssembly 1.0
detail wmod check < H 01 04 01 60 00 00 03 02 01 00 0a 05 01 03 00 d4 0b = byte 0xd4 at 0x17, function 0 (code section): an instruction on references (function-references); compile to WebAssembly 1.0
detail wmod check < H 01 06 01 60 01 63 00 00 = byte 0x63 at 0xd, type 0 (type section): a typed reference (function-references); compile to WebAssembly 1.0
detail wmod check < H 04 05 01 64 00 00 00 = byte 0x64 at 0xb, table 0 (table section): a typed reference (function-references); compile to WebAssembly 1.0
detail wmod check < H 04 05 01 40 00 70 00 = byte 0x40 at 0xb, table 0 (table section): a table with an initial value (function-references); compile to WebAssembly 1.0
detail wmod check < H 01 04 01 60 00 00 03 02 01 00 0A 06 01 04 00 FB 00 0B = byte 0xfb at 0x17, function 0 (code section): an instruction on structs and arrays (gc); compile to WebAssembly 1.0
detail wmod check < H 01 04 01 60 00 00 03 02 01 00 0a 05 01 03 00 d3 0b = byte 0xd3 at 0x17, function 0 (code section): a comparison of references (gc); compile to WebAssembly 1.0
detail wmod check < H 01 03 01 4E 00 = byte 0x4e at 0xb, type 0 (type section): a recursive type or a subtype (gc); compile to WebAssembly 1.0
detail wmod check < H 01 03 01 5F 00 = byte 0x5f at 0xb, type 0 (type section): an array type or a struct type (gc); compile to WebAssembly 1.0
detail wmod check < H 01 05 01 60 01 6E 00 = byte 0x6e at 0xd, type 0 (type section): a reference type (gc); compile to WebAssembly 1.0
detail wmod check < H 04 04 01 6E 00 00 = byte 0x6e at 0xb, table 0 (table section): a reference type (gc); compile to WebAssembly 1.0
detail wmod check < 00 61 73 6D 0D 00 01 00 = byte 0x0d at 0x4, in the header: a component, not a module (component model); check the core modules inside it
detail wmod check < H 01 04 01 60 00 00 03 02 01 00 0A 05 01 = the input ends at 0x15, in function 0 (code section)
detail wmod check < H 01 04 01 60 00 00 03 02 01 00 = the input ends at 0x12: the number of function bodies differs from the number of declared functions
detail wmod check < H 01 80 80 80 80 10 = byte 0x10 at 0xd, the size or the count of the type section: an integer has more bytes than its type allows, or its value does not fit the type
detail wmod check < H 00 01 80 = byte 0x80 at 0xa, a custom section: a section's contents do not match its size: they need more bytes, or bytes are left over
detail wmod check < H 01 04 01 60 00 00 01 04 01 60 00 00 = byte 0x01 at 0xe, a section id: a section appears twice, or after a section that must follow it
detail wmod check < H 01 04 01 60 00 00 02 07 01 01 61 01 62 00 00 03 02 01 00 0A 05 01 03 00 05 0B = byte 0x05 at 0x20, function 1 (code section): an `else` is not in the first branch of an `if`
detail wmod check < H 02 06 01 00 00 03 7F 00 06 06 01 7F 00 42 00 0B = byte 0x00 at 0x16, global 1 (global section): an operand, a label or a constant has the wrong type, or an `if` with a result has no `else`
detail wmod check < H 01 04 01 60 00 00 08 01 00 = byte 0x00 at 0x10, the start section: an index is out of range: there is no such type, function, table, memory, global, local, label or segment
detail wmod check < H 05 03 01 00 01 07 09 02 01 61 02 00 01 61 02 00 = byte 0x61 at 0x15, export 1 (export section): two exports have the same name
detail wmod check < H = none
detail wmod check --limit 7 < H = longer than the limit of 7 bytes
detail wmod build --limit 7 < (module) = longer than the limit of 7 bytes
detail wmod build < (module) = none
detail wmod build < (module (start 0)) = in the canonical binary: byte 0x00 at 0xa, the start section: an index is out of range: there is no such type, function, table, memory, global, local, label or segment
detail wmod build < = 1:1: found the end of the text, expected `(module`
detail wmod build < (func) = 1:2: found `func`, expected `module`
detail wmod build < (module (export "a" 1)) = 1:21: found `1`, expected `(`
detail wmod build < (module (export 1)) = 1:17: found `1`, expected a string
detail wmod build < (module (memory $m)) = 1:19: found `)`, expected an integer
detail wmod build < (module (memory 1 2 3)) = 1:21: found `3`, expected `)`
detail wmod build < (module) ) = 1:10: found `)`, expected the end of the text
detail wmod build --features bulk-memory < (module (data "a") (memory 1 2 3)) = 1:32: found `3`, expected `)`
detail wmod build --features bulk-memory < (module (type (func)) (func (type 0) data.drop $d)) = 1:48: found `$d`, expected an integer
detail wmod build --features bulk-memory < (module (memory $m 1) (data $m "a")) = 1:32: found `"a"`, expected `(`
detail wmod build < (module (memory)) = 1:16: found `)`: another token must come here, such as an instruction and not a number, string or identifier
detail wmod build < (module (memory 1) (memory 1)) = in the canonical binary: byte 0x01 at 0xe, memory 1 (memory section): the module has a second table or a second memory"#;
