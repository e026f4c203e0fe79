//! The rows of the decoder: `what is special: CALL BYTES = ANSWER`.

/// A module with each section that holds items.
pub const ALL: &str =
    "H 01 04 01 60 00 00 02 07 01 01 61 01 62 00 00 03 02 01 00 04 05 01 70 01 01 02 05 03 01 00 01 06 06 01 7E 01 42 7F 0B 07 05 01 01 63 03 00 08 01 00 09 07 01 00 41 00 0B 01 00 0A 0B 01 09 02 01 7F 02 7E 02 40 0B 0B 0B 07 01 00 23 00 0B 01 61";

pub const ITEMS: &str =
    "a function type: items H 01 07 01 60 02 7F 7E 01 7F = NewType, Param(I32), Param(I64), Results(1), Result(I32), taken
one function of type [i32 i32] to [i32], which adds: places H 01 07 01 60 02 7F 7F 01 7F 03 02 01 00 0A 09 01 07 00 20 00 20 01 6A 0B = 12 NewType, 14 Param(I32), 15 Param(I32), 16 Results(1), 17 Result(I32), 21 Func(0), 25 Body, 28 Op(Simple(LocalGet(0))), 30 Op(Simple(LocalGet(1))), 31 Op(Simple(Numeric(Binary(I32, Add)))), 32 Op(End), 
a memory, and four bytes for it: places H 05 03 01 00 01 0B 0A 01 00 41 00 0B 04 00 C3 A9 22 = 13 Memory(Limits { min: 1, max: None }), 17 Segment(0), 19 ConstOp(Simple(I32Const(0))), 20 ConstOp(End), 22 DataBytes([0]), 23 DataBytes([195]), 24 DataBytes([169]), 25 DataBytes([34]), 
three functions, some numbers in two bytes: places H 01 04 01 60 00 00 03 04 03 00 00 00 0A 1A 03 82 00 00 0B 11 02 01 7F 81 00 7E 02 40 41 00 0E 01 00 80 00 0B 0B 02 00 0B = 12 NewType, 14 Results(0), 18 Func(0), 19 Func(0), 20 Func(0), 25 Body, 27 Op(End), 28 Body, 31 Locals(1, I32), 34 Locals(1, I64), 36 Op(Block(None)), 38 Op(Simple(I32Const(0))), 40 Op(BrTable(1)), 41 Op(Label(0)), 43 Op(Label(0)), 44 Op(End), 45 Op(End), 46 Body, 48 Op(End), 
every section that holds items: items H 01 04 01 60 00 00 02 07 01 01 61 01 62 00 00 03 02 01 00 04 05 01 70 01 01 02 05 03 01 00 01 06 06 01 7E 01 42 7F 0B 07 05 01 01 63 03 00 08 01 00 09 07 01 00 41 00 0B 01 00 0A 0B 01 09 02 01 7F 02 7E 02 40 0B 0B 0B 07 01 00 23 00 0B 01 61 = NewType, Results(0), ImportModule([97]), ImportName([98]), ImportFunc(0), Func(0), Table(Limits { min: 1, max: Some(2) }), Memory(Limits { min: 1, max: None }), Global(GlobalType { ty: I64, var: true }), ConstOp(Simple(I64Const(-1))), ConstOp(End), ExportName([99]), Export(Global, 0), Start(0), Elem(0), ConstOp(Simple(I32Const(0))), ConstOp(End), ElemFunc(0), Body, Locals(1, I32), Locals(2, I64), Op(Block(None)), Op(End), Op(End), Segment(0), ConstOp(Simple(GlobalGet(0))), ConstOp(End), DataBytes([97]), taken
indices of one byte and of two: items H 03 06 04 00 01 81 00 02 09 0D 01 00 41 00 0B 06 04 03 02 81 00 01 00 0A 15 04 0A 00 0E 04 00 01 82 00 03 00 0B 02 00 0B 02 00 0B 02 00 0B = Func(0), Func(1), Func(1), Func(2), Elem(0), ConstOp(Simple(I32Const(0))), ConstOp(End), ElemFunc(4), ElemFunc(3), ElemFunc(2), ElemFunc(1), ElemFunc(1), ElemFunc(0), Body, Op(BrTable(4)), Op(Label(0)), Op(Label(1)), Op(Label(2)), Op(Label(3)), Op(Label(0)), Op(End), Body, Op(End), Body, Op(End), Body, Op(End), taken
names of an import: items H 02 09 01 02 C3 A9 02 62 63 00 00 = ImportModule([195, 169]), ImportName([98, 99]), ImportFunc(0), taken
no section: items H = taken
no types: items H 01 01 00 = taken
sizes in two bytes and in three: items H 01 84 00 01 60 00 00 05 83 80 00 01 00 01 = NewType, Results(0), Memory(Limits { min: 1, max: None }), taken
a size in five bytes: items H 01 84 80 80 80 00 01 60 00 00 = NewType, Results(0), taken
a custom section of no data: items H 00 05 04 6E 61 6D 65 = taken
a custom section, and then no types: items H 00 06 03 61 C3 A9 00 01 01 01 00 = taken
custom sections of no name around no types: items H 00 01 00 01 01 00 00 01 00 = taken
no functions and no code: items H 03 01 00 0A 01 00 = taken
no functions and no data: items H 03 01 00 0B 01 00 = taken
a constant in five bytes: items H 06 0A 01 7F 00 41 80 80 80 80 78 0B = Global(GlobalType { ty: I32, var: false }), ConstOp(Simple(I32Const(-2147483648))), ConstOp(End), taken
";

pub const REFUSALS: &str = "nothing: refusal  = 0 Truncated
half a header: refusal 00 61 73 6D = 4 Truncated
another magic: refusal 00 61 73 6C 01 = 4 Magic
another version: refusal 00 61 73 6D 02 = 5 Version
an id that no section has: refusal H 0C = 9 SectionId
a section that ends at its id: refusal H 02 = 9 Truncated
types twice: refusal H 01 01 00 01 = 12 SectionOrder
types after functions: refusal H 03 01 00 01 = 12 SectionOrder
a size of 0: refusal H 01 00 = 10 SectionEnd
a custom section of size 0: refusal H 00 00 = 10 SectionEnd
a name that passes its section: refusal H 00 02 02 61 = 12 SectionEnd
a byte after the types: refusal H 01 02 00 00 = 11 SectionEnd
a type that passes its section: refusal H 01 02 01 60 = 12 SectionEnd
a count that passes its section: refusal H 01 06 FF FF FF FF 0F 60 = 16 SectionEnd
a size in six bytes: refusal H 01 84 80 80 80 80 00 = 14 BadNumber
a name of one bad byte: refusal H 00 02 01 FF = 12 BadUtf8
a name with a surrogate: refusal H 00 04 03 ED A0 80 = 14 BadUtf8
a type with another form: refusal H 01 02 01 61 = 12 BadByte
a parameter of type f32: refusal H 01 05 01 60 01 7D 00 = 14 Float
a result of type f64: refusal H 01 05 01 60 00 01 7C = 15 Float
an imported global of type f64: refusal H 02 08 01 01 61 01 62 03 7C 00 = 17 Float
a type that the input cuts: refusal H 01 04 01 60 00 = 13 Truncated
a name that the input cuts: refusal H 00 05 04 6E = 12 Truncated
a kind of import: refusal H 02 04 01 00 00 04 = 14 BadByte
a kind of export: refusal H 07 05 01 01 61 04 00 = 14 BadByte
an element type: refusal H 04 04 01 6F 00 01 = 12 BadByte
a flag of limits: refusal H 05 03 01 02 01 = 12 BadByte
a constant of type f32: refusal H 06 09 01 7F 00 43 00 00 C0 7F 0B = 14 Float
a flag of a global: refusal H 06 06 01 7F 02 41 00 0B = 13 BadByte
a global of type f64: refusal H 06 06 01 7C 00 41 00 0B = 12 Float
a module name of a bad byte: refusal H 02 05 01 01 FF 00 00 = 13 BadUtf8
the fifth byte of an i32: refusal H 06 0A 01 7F 00 41 80 80 80 80 08 0B = 19 BadNumber
the tenth byte of an i64: refusal H 06 0F 01 7E 00 42 80 80 80 80 80 80 80 80 80 01 0B = 24 BadNumber
data that pass their section: refusal H 0B 07 01 00 41 00 0B 02 61 = 17 SectionEnd
a byte after the data: refusal H 0B 07 01 00 41 00 0B 00 61 = 16 SectionEnd
functions that their section cuts: refusal H 03 03 02 81 00 = 13 SectionEnd
an index that passes its section: refusal H 03 04 02 81 00 81 = 14 SectionEnd
a byte after the functions: refusal H 03 05 02 81 00 00 00 = 14 SectionEnd
an index in six bytes: refusal H 03 0A 02 81 80 80 80 80 00 81 00 00 = 16 BadNumber
a byte after the last type: refusal H 01 05 01 60 00 00 00 = 14 SectionEnd
a byte after the last result: refusal H 01 06 01 60 00 01 7F 00 = 15 SectionEnd
a result that its section cuts: refusal H 01 04 01 60 00 01 7F = 14 SectionEnd
two results that their section cuts: refusal H 01 05 01 60 00 02 7F = 15 SectionEnd
a byte after the memory: refusal H 05 04 01 00 01 00 = 13 SectionEnd
limits that their section cuts: refusal H 05 02 01 00 01 = 12 SectionEnd
a greatest size that its section cuts: refusal H 04 05 01 70 01 80 01 02 = 15 SectionEnd
a memory that the input cuts: refusal H 05 04 01 01 01 = 13 Truncated
a size in three bytes, and a byte after its section: refusal H 05 83 80 00 01 00 01 0C = 16 SectionId
";

/// Modules with one function of type [] to [].
pub const CODE_REFUSALS: &str = "no code: refusal H 01 04 01 60 00 00 03 02 01 00 = 18 CodeCount
data before the code: refusal H 01 04 01 60 00 00 03 02 01 00 0B = 19 CodeCount
no code after a custom section: refusal H 01 04 01 60 00 00 03 02 01 00 00 01 00 0B = 22 CodeCount
two entries for one function: refusal H 01 04 01 60 00 00 03 02 01 00 0A 07 02 02 00 0B 02 00 0B = 21 CodeCount
no entry for one function: refusal H 01 04 01 60 00 00 03 02 01 00 0A 01 00 = 21 CodeCount
an entry of size 0: refusal H 01 04 01 60 00 00 03 02 01 00 0A 02 01 00 = 22 BodyEnd
a byte after the last end: refusal H 01 04 01 60 00 00 03 02 01 00 0A 05 01 03 00 0B 0B = 24 BodyEnd
a size that passes its section: refusal H 01 04 01 60 00 00 03 02 01 00 0A 04 01 7F 00 0B = 24 BodyEnd
an entry that its section cuts: refusal H 01 04 01 60 00 00 03 02 01 00 0A 04 01 7F 00 01 = 24 SectionEnd
an entry without an end: refusal H 01 04 01 60 00 00 03 02 01 00 0A 04 01 02 00 01 = 24 BodyEnd
an instruction on floats: refusal H 01 04 01 60 00 00 03 02 01 00 0A 09 01 07 00 43 00 00 00 00 0B = 24 Float
locals of type f32: refusal H 01 04 01 60 00 00 03 02 01 00 0A 06 01 04 01 01 7D 0B = 25 Float
an empty run of type f64: refusal H 01 04 01 60 00 00 03 02 01 00 0A 06 01 04 01 00 7C 0B = 25 Float
a block of type f32: refusal H 01 04 01 60 00 00 03 02 01 00 0A 07 01 05 00 02 7D 0B 0B = 25 Float
no instruction: refusal H 01 04 01 60 00 00 03 02 01 00 0A 09 01 07 00 C0 00 00 00 00 0B = 24 BadOpcode
labels that end their entry: refusal H 01 04 01 60 00 00 03 02 01 00 0A 08 01 06 00 0E 01 81 00 00 = 28 BodyEnd
a label that passes its entry: refusal H 01 04 01 60 00 00 03 02 01 00 0A 0B 01 06 00 0E 01 81 00 81 00 0B 0B = 28 BodyEnd
a padded index of a table: refusal H 01 04 01 60 00 00 03 02 01 00 0A 09 01 07 00 11 00 80 80 00 0B = 26 BadByte
a byte after the last entry: refusal H 01 04 01 60 00 00 03 02 01 00 0A 05 01 02 00 0B 0B = 24 SectionEnd
";

/// Rows for profiles with floats.
pub const FLOATS: &str =
    "a type of floats: items H 01 07 01 60 02 7D 7C 01 7D = NewType, Param(F32), Param(F64), Results(1), Result(F32), taken
an imported global: items H 02 08 01 01 61 01 62 03 7C 00 = ImportModule([97]), ImportName([98]), ImportGlobal(GlobalType { ty: F64, var: false }), taken
a global of type f32: items H 06 09 01 7D 00 43 01 02 C3 7F 0B = Global(GlobalType { ty: F32, var: false }), ConstOp(Simple(F32Const(2143486465))), ConstOp(End), taken
a global of type f64: items H 06 0D 01 7C 01 44 01 00 00 00 00 00 F0 7F 0B = Global(GlobalType { ty: F64, var: true }), ConstOp(Simple(F64Const(9218868437227405313))), ConstOp(End), taken
the eight bytes of a constant: places H 06 0D 01 7C 01 44 01 02 03 04 05 06 07 88 0B = 13 Global(GlobalType { ty: F64, var: true }), 22 ConstOp(Simple(F64Const(9801809732607083009))), 23 ConstOp(End), 
locals, a block and constants: items H 01 04 01 60 00 00 03 02 01 00 0A 1C 01 1A 02 01 7D 02 7C 02 7D 43 00 00 80 3F 0B 1A 44 00 00 00 00 00 00 F0 3F 9A 1A 0B = NewType, Results(0), Func(0), Body, Locals(1, F32), Locals(2, F64), Op(Block(Some(F32))), Op(Simple(F32Const(1065353216))), Op(End), Op(Simple(Drop)), Op(Simple(F64Const(4607182418800017408))), Op(Simple(Numeric(FloatUnary(F64, Neg)))), Op(Simple(Drop)), Op(End), taken
other ops: items H 01 04 01 60 00 00 03 02 01 00 0A 0E 01 0C 00 2A 02 00 39 03 88 01 A8 5B A0 0B = NewType, Results(0), Func(0), Body, Op(Simple(Load(F32Load, MemArg { align: 2, offset: 0 }))), Op(Simple(Store(F64Store, MemArg { align: 3, offset: 136 }))), Op(Simple(Numeric(Convert(I32TruncF32S)))), Op(Simple(Numeric(FloatCompare(F32, Eq)))), Op(Simple(Numeric(FloatBinary(F64, Add)))), Op(End), taken
an empty run: items H 01 04 01 60 00 00 03 02 01 00 0A 06 01 04 01 00 7C 0B = NewType, Results(0), Func(0), Body, Locals(0, F64), Op(End), taken
no value type: refusal H 01 05 01 60 01 7B 00 = 14 BadByte
a constant that the input cuts: refusal H 06 09 01 7D 00 43 00 00 C0 = 17 Truncated
a constant that its section cuts: refusal H 06 06 01 7D 00 43 00 00 C0 7F 0B = 16 SectionEnd
a constant that its entry cuts: refusal H 01 04 01 60 00 00 03 02 01 00 0A 06 01 04 00 43 00 00 0B = 26 BodyEnd
";
