//! The tables of refusals, a line for each: the NAME, what it means, the standard's section, a smallest input
//! and what to do. The tables of `docs/REFUSALS.md` have these lines as their rows.

/// Refusals of a module.
pub const OF_MODULES: &str = "\
    Magic | One of the first four bytes is not that of the magic, `00 61 73 6D`. | 5.5.15 | with no \
        header `01`: refused at 1 | This is not a binary module. Use `wmod build` for text (`.wat`); \
        unpack a compressed file.\n\
    Version | One of the next four bytes is not that of version 1, `01 00 00 00`. | 5.5.15 | with no \
        header `00 61 73 6D 02`: refused at 5 | Build a core module of version 1. A component has \
        another version.\n\
    TooLong | The input is longer than the limit. The first byte past the limit decides. | none | \
        with `--limit 8` `00`: refused at 9 | Set a greater `--limit`, or give a smaller input.\n\
    Truncated | The input ends inside the header or a section. | 5.5.2, 5.5.15 | `00`: refused at 9 \
        | The file was cut off. Write or fetch it again.\n\
    SectionId | A section's id is above 11, or above 12 with the feature `bulk-memory`. | 5.5.2 | \
        `0C`: refused at 9 | For the id 12 (data count) use `--features bulk-memory`. The id 13 \
        (tag) is later: turn exception handling off.\n\
    SectionOrder | A section appears twice, or after a section that must follow it. The order is \
        type, import, function, table, memory, global, export, start, element, data count, code, \
        data. Custom sections may appear anywhere. | 5.5.2, 5.5.15 | `01 01 00 01`: refused at 12 | \
        Write each section once, in this order.\n\
    SectionEnd | A section's contents do not match its size: they need more bytes, or bytes are left \
        over. | 5.5.2 | `00 00`: refused at 10 | Correct the size in the section header.\n\
    CodeCount | The number of function bodies differs from the number of declared functions. Or \
        functions are declared, but the data section or the end of the input comes without a code \
        section before it. | 5.5.15 | `0A 01 01`: refused at 11 | Give the function section and the \
        code section the same count.\n\
    DataCount | The number of data segments differs from that in the data count section. Or the \
        section gives a number above 0, and the input ends without a data section. | WebAssembly 2.0 \
        5.5.15 | with `--features bulk-memory` `0C 01 01`: refused at 11 | Write the number of data \
        segments into the data count section.\n\
    BadNumber | An integer has more bytes than its type allows, or its value does not fit the type. \
        Or a table index in an instruction is not 0, or the flag of a segment is above 2. | 5.2.2 | \
        `00 80 80 80 80 10`: refused at 14 | Write the integer in LEB128, in at most 5 bytes for 32 \
        bits and 10 for 64. For another table or a later form of an element segment, turn reference \
        types off.\n\
    BadUtf8 | A name is not UTF-8. Its last byte decides. | 5.2.4 | `00 02 01 80`: refused at 12 | \
        Encode names in UTF-8.\n\
    BadByte | This byte is not allowed here. One of these must come: `60` for a function type, a \
        value type, a block type, the element type `70`, the element kind `00`, a kind, a flag, or a \
        `00` of some instructions. | 5.3, 5.4, 5.5 | `01 02 01 00`: refused at 12 | The module may \
        use a later feature, such as reference types, shared memories or several memories. Turn it \
        off.\n\
    Float | The module uses a floating-point type or instruction, but the profile has none. | 5.3.1, \
        5.4 | `06 02 01 7D`: refused at 12 | The module may be valid. Use `--profile 3`, or \
        `--profile 4` for sign extension too.\n\
    BadOpcode | No instruction of the profile begins with this byte. Or it follows `FC`, and no \
        instruction of the profile has it there. | 5.4 | `06 04 01 7F 00 06`: refused at 14 | For \
        instructions that compilers use by default, such as sign extension (`C0` to `C4`), use \
        `--features compilers`. Turn other later features off.\n\
    Index | An index is out of range: there is no such type, function, table, memory, global, local, \
        label or segment. The initial value of a global may name imported globals only. | 3.1.1, \
        3.3, 3.4 | `08 01 00`: refused at 11 | Declare the item, or correct the index. Instructions \
        on a memory and active data segments need a memory; those on a table and active element \
        segments need a table. An instruction that names a data segment needs a data count \
        section.\n\
    Limits | The limits of a table or memory are out of range: the minimum is above the maximum, or \
        a memory has more than 65,536 pages. | 3.2.1, 3.2.3, 3.2.4 | `05 04 01 01 01 00`: refused at \
        14 | Correct the minimum or the maximum.\n\
    Second | The module has a second table or a second memory. Imported ones count. | 3.4.10 | `05 \
        05 02 00 00 00 00`: refused at 15 | Keep at most one of each.\n\
    DuplicateExport | Two exports have the same name. The last byte of the second name decides, or \
        the last byte of its length if the name is empty. | 3.4.10 | `05 03 01 00 00 07 07 02 00 02 \
        00 00`: refused at 20 | Rename one of them.\n\
    StartType | The start function has a parameter or a result. | 3.4.7 | `01 05 01 60 00 01 7F 03 \
        02 01 00 08 01 00`: refused at 22 | Start at a function with no parameters and no results.\n\
    NotConst | A constant expression has an instruction that is not constant, or a `global.get` of a \
        mutable global. | 3.3.7 | `06 04 01 7F 00 00`: refused at 14 | Use one constant, or one \
        `global.get` of an immutable global.\n\
    Immutable | A `global.set` sets an immutable global. | 3.3.3 | `01 04 01 60 00 00 02 06 01 00 00 \
        03 7F 00 03 02 01 00 0A 05 01 03 00 24 00`: refused at 33 | Declare the global as mutable \
        (`mut`).\n\
    Align | The alignment of a load or store is greater than the width of its access. | 3.3.4 | `01 \
        04 01 60 00 00 03 02 01 00 05 03 01 00 00 0A 06 01 04 00 28 03 00`: refused at 31 | Lower \
        it. The binary holds its exponent: at most 0, 1, 2 or 3 for an access of 1, 2, 4 or 8 \
        bytes.\n\
    Type | An operand, a label or a constant has the wrong type, or an `if` with a result has no \
        `else`. Operands are checked from the top of the stack: a wrong one above a missing one is \
        `Type`, not `Arity`. | 3.3 | `06 06 01 7F 00 42 00`: refused at 15 | Correct the instruction \
        or the declared type.\n\
    Arity | The number of values is wrong: an operand is missing, operands are left at an `else` or \
        `end`, or a constant expression is not one instruction. Or a function type has two or more \
        results; their count decides. | 3.2.2, 3.3 | `06 04 01 7F 00 0B`: refused at 14 | Push the \
        missing operands, or drop the others. For a function type with more results, turn \
        multi-value off.\n\
    ElsePlace | An `else` is not in the first branch of an `if`. | 5.4.1 | `01 04 01 60 00 00 03 02 \
        01 00 0A 04 01 02 00 05`: refused at 24 | Give each `if` at most one `else`, and write \
        `else` nowhere else.\n\
    BodyEnd | A function body does not match its size: it needs more bytes, or bytes are left over. \
        | 5.5.13 | `01 04 01 60 00 00 03 02 01 00 0A 02 01 00`: refused at 22 | Correct the size \
        before the body.\n\
    TooManyLocals | A function declares 2^32 locals or more. | 5.5.13 | `01 04 01 60 00 00 03 02 01 \
        00 0A 0B 01 09 02 FF FF FF FF 0F 7F 01 7F`: refused at 31 | Declare fewer locals.\n\
    ManyFunctions | The module has more functions than the policy allows. Imported functions count. \
        The first function over the limit decides. | none | with `--max-functions 0` `01 04 01 60 00 \
        00 03 02 01 00`: refused at 18 | The module may be valid. Set a greater `--max-functions`, \
        or leave it out.\n\
    ManyLocals | A function declares more locals than the policy allows. Parameters do not count. \
        The run of locals that passes the limit decides. | none | with `--max-locals 0` `01 04 01 60 \
        00 00 03 02 01 00 0A 05 01 03 01 01 7F`: refused at 25 | The module may be valid. Set a \
        greater `--max-locals`, or leave it out.\n\
    Deep | More blocks, loops and ifs are open at once than the policy allows. The first one over \
        the limit decides. | none | with `--max-open 0` `01 04 01 60 00 00 03 02 01 00 0A 05 01 03 \
        00 02 40`: refused at 25 | The module may be valid. Set a greater `--max-open`, or leave it \
        out.";

/// Refusals of a text.
pub const OF_TEXTS: &str = "\
    NotUtf8 | The text is not UTF-8. N is the length of its longest prefix that is UTF-8. | 6.2.1 | \
        the byte `80`: at 0 | Save the text as UTF-8.\n\
    BadToken | A character, or a run of identifier characters, is no token. Without floats in the \
        profile, a literal such as `1.5` is no token either. For a control character in a string, N \
        is the offset of the opening quote. | 6.2.2, 6.3 | `,`: at 0 | Remove a byte order mark and \
        escape control characters. For floats use `--profile 3`. For a binary module use another \
        action.\n\
    OpenComment | The text ends inside a block comment. | 6.2.4 | `(;`: at 2 | Close each `(;` with \
        its own `;)`.\n\
    OpenString | The text ends inside a string, or inside an escape of one. | 6.3.3 | `\"`: at 1 | \
        Close the string.\n\
    BadEscape | A string has a malformed escape, or one that is no Unicode scalar value. N is the \
        offset of the string's opening quote. | 6.3.3 | `\"\\x`: at 0 | Use `\\t \\n \\r \\\" \\' \
        \\\\`, a backslash and two hexadecimal digits, or `\\u{..}`.\n\
    Expected | Another token must come here, such as an instruction and not a number, string or \
        identifier. A form may be wrong after a type use, parameters, results, locals or a constant, \
        or in place of a constant or an offset. N is then the offset of the token after its \
        parenthesis. | 6.4 to 6.6 | the empty text: at 0 | Write `(module ..)`, each instruction of \
        a body without parentheses, each type use with its `(type ..)`, and each export as a \
        field.\n\
    UnknownWord | A keyword names no field, or no instruction of the profile. An `else` or `end` \
        without a block is also refused by this name. | 6.5, 6.6 | `(module(a`: at 8 | Look up the \
        keyword in 6.5 and 6.6. `wmod build --features help` lists the features that add \
        instructions. For old names such as `get_local` use `--old-words`.\n\
    BadInteger | A number is not an integer of the wanted range: it is a float, out of range, or has \
        a sign that is not allowed. Also an `offset=` or `align=` without such an integer. | 6.3.1 | \
        `(module(data -1))`: at 13 | Write an integer in range. An index or a limit is below 2^32 \
        and has no sign.\n\
    BadFloat | A number or a NaN is no float of the wanted width: it is malformed, rounds to an \
        infinity, or has a payload that is 0 or out of range. | 6.3.2 | with `--profile 3` \
        `(module(data(f32.const 1e39)))`: at 23 | Write a number that fits the width, or `inf`.\n\
    BadName | The name of an import or export is not UTF-8. N is the offset of its string. | 6.3.4 | \
        `(module(import\"\\ff\"`: at 14 | Encode names in UTF-8.\n\
    UnknownId | An identifier names nothing in its index space, or no open block. N is its offset. | \
        6.1.3, 6.6.1 | `(module(data $a))`: at 13 | Define the identifier, or write the index.\n\
    RepeatedId | An identifier is defined twice in one index space, or among the parameters and \
        locals of one function. N is the offset of the second one. | 6.1.3 | `(module(func $a)(func \
        $a`: at 22 | Rename one of them.\n\
    TypeUse | A type use names no type, whatever follows it, or its parameters or results differ \
        from those of its type. N is the offset of the index. Or a parameter of a `call_indirect` \
        has an identifier. N is then its offset. | 6.6.3 | `(module(func(type 0)))`: at 18 | Name a \
        type that exists. Repeat its parameters and results, or leave out both.\n\
    ImportPlace | An import comes after a function, table, memory or global. N is the offset of the \
        keyword `import`. | 6.6.13 | `(module(func)(import`: at 14 | Write the imports first.\n\
    SecondStart | The module has a second start function. N is the offset of the second keyword \
        `start`. | 6.6.13 | `(module(start)(start`: at 15 | Keep one start function.\n\
    NotConst | A constant expression has an instruction that is not constant, or a second \
        instruction. N is the offset of its keyword. | 3.3.7, 6.5.8 | `(module(data(if)))`: at 13 | \
        Write one constant, or one `global.get`.\n\
    BadAlign | An alignment is not a power of two. N is the offset of `align=`. | 6.5.5 | \
        `(module(type(func))(func(type 0)i32.load align=0))`: at 41 | Write 1, 2, 4 or 8.\n\
    LabelEnd | The identifier after an `else` or `end` is not that of its block. N is the offset of \
        this identifier. | 6.5.1, 6.5.2 | `(module(type(func))(func(type 0)if end $a))`: at 39 | \
        Repeat the block's identifier, or write none.\n\
    TooManyLocals | A function declares 2^32 locals or more. N is the offset of the value type that \
        reaches 2^32. | 6.6.5 | none below 17 GB, so only with a greater `--limit` | Declare fewer \
        locals.\n\
    Float | The text uses a floating-point type or instruction, but the profile has none. | 6.4.1, \
        6.5 | `(module(global f32))`: at 15 | The text may be right. Use `--profile 3`, or \
        `--profile 4` for sign extension too.";

/// Refusals that no small input gives. `Memory` is one of a module and of a text.
pub const OTHERS: &str = "\
    TooLarge | The contents of a section of the built module have 2^32 bytes or more. | 5.5.2 | none \
        below 4 GB | Write less code or data, or split the module.\n\
    Memory | Memory was refused: nothing is known about the input. | none | none | Give a smaller \
        input, or more memory.";
