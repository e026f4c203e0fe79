//! Reads the pieces of a body. A piece is an instruction, or opens, divides or closes a block.

ghost use Rattle.std.specs.Prelude.{◌≡◌, ◌≢◌, ◌≤◌, [], Some, IfOk, length};
ghost use Rattle.wm_tokens.specs.exact.Scan.{lexed};
ghost use Rattle.wm_bodies.specs.inner.Blocks.{names_of, scope_of};
ghost use Rattle.wm_bodies.specs.exact.TypeUses.{call_use_at};
ghost use Rattle.wm_bodies.specs.inner.CodePieces.{FitsPiece, HasOperand, IsFloatOrAccess, piece_of};
ghost use Rattle.wm_bodies.specs.inner.Pieces as flat;
ghost use Rattle.wm_bodies.specs.exact.Reading as reading;
ghost use Rattle.wm_bodies.specs.inner.Views.{Reads};
ghost use Rattle.wm_syntax.specs.declared.instructions.Simple.TheVariants as Simple;
ghost use Rattle.wm_syntax.specs.declared.instructions.op_class.Indexed.TheVariants as Indexed;

use crate::blocks::OpenBlocks;
use crate::identifiers::{Names, Scope};
use crate::named_uses::call_fault;
use crate::op_immediates::{
    access, again, begins_index, block_type, float_32, float_64, id, index, integer_32, integer_64,
    label, natural, no_instruction, refuse, with,
};
use crate::op_keywords::op_keyword;
use crate::type_uses::type_use;
use std::alloc::Global;
use wm_syntax::instructions::accesses::{loaded, stored};
use wm_syntax::instructions::op_class::{
    BlockOp, Immediates, Indexed, LoadOrStore, MemoryOp, OpClass,
};
use wm_syntax::instructions::{Op, Simple};
use wm_syntax::profile::Profile;
use wm_syntax::types::ValType;
use wm_tokens::faults::{TextFault, TextWhy};

/// A piece of a body: an instruction without nested lists, a `br_table`, or the start, `else` or `end` of a block.
#[derive(Drop)]
pub enum Piece<'a> {
    Plain(Simple),
    Table(Vec<u32>, u32),
    Opens(BlockOp, Option<&'a [u8]>, Option<ValType>),
    Middle,
    Closes,
}

fn opens(profile: Profile, opening: BlockOp, text: &[u8]) -> Result<(Piece, &[u8]), TextFault>
    ensures fits { IfOk result (λ x. FitsPiece (piece_of x.0)) }
    ensures read { Reads (λ x. (piece_of x.0, lexed x.1.now)) result
        (reading.opens_at profile opening (lexed text.now)) }
{
    let (id, rest) = id(text);
    let (ty, rest) = block_type(profile, rest)?;
    Ok((Piece::Opens(opening, id, ty), rest))
}

/// Reads all labels up to another token, at most `most`. Core spec 6.5.2.
/// Fails with `Expected` at a label after the first `most`, and as `label` does.
#[tactic(auto, using(crate::proofs::Tables::few_laws))]
pub fn labels<'a>(
    alloc: Global,
    blocks: &OpenBlocks,
    most: usize,
    text: &'a [u8],
) -> Result<(Vec<u32>, &'a [u8]), TextFault>
    ensures few { IfOk result (λ x. length x.0.items ≤ most) }
    ensures read { Reads (λ x. (x.0.items, lexed x.1.now)) result
        (reading.few_labels_at (flat.labels blocks.now) most (lexed text.now)) }
{
    let mut labels = Vec::new(alloc);
    let mut rest = text;
    while begins_index(rest) {
        if labels.len() >= most {
            return Err(refuse(TextWhy::Expected, rest));
        }
        let (l, more) = label(blocks, rest)?;
        labels.push(l)?;
        rest = more;
    }
    Ok((labels, rest))
}

/// Reads the labels of a `br_table`, of which the last is the default. Core spec 6.5.2.
#[tactic(auto, using(crate::proofs::Tables::table_laws))]
fn table<'a>(
    alloc: Global,
    blocks: &OpenBlocks,
    text: &'a [u8],
) -> Result<(Piece<'a>, &'a [u8]), TextFault>
    ensures fits { IfOk result (λ x. FitsPiece (piece_of x.0)) }
    ensures read { Reads (λ x. (piece_of x.0, lexed x.1.now)) result
        (reading.table_at (flat.labels blocks.now) (lexed text.now)) }
{
    let (mut labels, rest) = labels(alloc, blocks, 0x1_0000_0000, text)?;
    match labels.pop() {
        Some(default) => Ok((Piece::Table(labels, default), rest)),
        None => Err(refuse(TextWhy::Expected, rest)),
    }
}

fn middle<'a>(
    blocks: &OpenBlocks,
    here: &[u8],
    text: &'a [u8],
) -> Result<(Piece<'a>, &'a [u8]), TextFault>
    requires { lexed here.now ≢ [] }
    ensures fits { IfOk result (λ x. FitsPiece (piece_of x.0)) }
    ensures read { Reads (λ x. (piece_of x.0, lexed x.1.now)) result
        (reading.middle_at blocks.now (lexed text.now)) }
{
    match blocks.innermost() {
        Some(block) if block.may_else => Ok((Piece::Middle, again(block.id, text)?)),
        _ => Err(refuse(TextWhy::UnknownWord, here)),
    }
}

fn closes<'a>(
    blocks: &OpenBlocks,
    here: &[u8],
    text: &'a [u8],
) -> Result<(Piece<'a>, &'a [u8]), TextFault>
    requires { lexed here.now ≢ [] }
    ensures fits { IfOk result (λ x. FitsPiece (piece_of x.0)) }
    ensures read { Reads (λ x. (piece_of x.0, lexed x.1.now)) result
        (reading.closes_at blocks.now (lexed text.now)) }
{
    match blocks.innermost() {
        Some(block) => Ok((Piece::Closes, again(block.id, text)?)),
        None => Err(refuse(TextWhy::UnknownWord, here)),
    }
}

/// Reads the index of an instruction with one, but not of a `br_table`.
fn indexed<'a>(
    scope: &Scope,
    blocks: &OpenBlocks,
    op: Indexed,
    text: &'a [u8],
) -> Result<(Piece<'a>, &'a [u8]), TextFault>
    requires { op ≢ Indexed.BrTable }
    ensures fits { IfOk result (λ x. FitsPiece (piece_of x.0)) }
    ensures read { Reads (λ x. (piece_of x.0, lexed x.1.now)) result
        (reading.index_at (scope_of scope.now) blocks.now op (lexed text.now)) }
{
    let (number, rest) = match op {
        Indexed::Br | Indexed::BrIf => label(blocks, text)?,
        Indexed::BrTable => unreachable!(),
        Indexed::Call => index(&scope.names.functions, text)?,
        Indexed::LocalGet | Indexed::LocalSet | Indexed::LocalTee => index(&scope.locals, text)?,
        Indexed::GlobalGet | Indexed::GlobalSet => index(&scope.names.globals, text)?,
        Indexed::DataDrop | Indexed::ElemDrop => natural(text)?,
    };
    match op.op(number) {
        Op::Simple(simple) => Ok((Piece::Plain(simple), rest)),
        _ => unreachable!(),
    }
}

/// Reads the operand of an integer constant, and of an instruction on a whole memory, table or segment. Some of these
/// have none.
fn operand(kind: Immediates, text: &[u8]) -> Result<(Piece, &[u8]), TextFault>
    requires { HasOperand kind }
    ensures fits { IfOk result (λ x. FitsPiece (piece_of x.0)) }
    ensures read { Reads (λ x. (piece_of x.0, lexed x.1.now)) result (reading.operand_at kind (lexed text.now)) }
{
    let (simple, rest) = match kind {
        Immediates::MemoryInit => with(Simple::MemoryInit, natural(text)?),
        Immediates::TableInit => with(Simple::TableInit, natural(text)?),
        Immediates::TableCopy => (Simple::TableCopy, text),
        Immediates::Memory(MemoryOp::MemorySize) => (Simple::MemorySize, text),
        Immediates::Memory(MemoryOp::MemoryGrow) => (Simple::MemoryGrow, text),
        Immediates::Memory(MemoryOp::MemoryCopy) => (Simple::MemoryCopy, text),
        Immediates::Memory(MemoryOp::MemoryFill) => (Simple::MemoryFill, text),
        Immediates::I32Const => with(Simple::I32Const, integer_32(text)?),
        Immediates::I64Const => with(Simple::I64Const, integer_64(text)?),
        _ => return Err(refuse(TextWhy::UnknownWord, text)),
    };
    Ok((Piece::Plain(simple), rest))
}

/// Reads the operand of a float constant, a load or a store. Out of line, so that `operand` has fewer results in memory.
#[inline(never)]
#[tactic(auto, using(crate::proofs::Ends::load_width, crate::proofs::Ends::store_width))]
fn float_or_access<'a>(
    alloc: Global,
    kind: Immediates,
    text: &'a [u8],
) -> Result<(Piece<'a>, &'a [u8]), TextFault>
    requires { IsFloatOrAccess kind }
    ensures fits { IfOk result (λ x. FitsPiece (piece_of x.0)) }
    ensures read { Reads (λ x. (piece_of x.0, lexed x.1.now)) result (reading.float_or_access_at kind (lexed text.now)) }
{
    let (simple, rest) = match kind {
        Immediates::F32Const => with(Simple::F32Const, float_32(alloc, text)?),
        Immediates::F64Const => with(Simple::F64Const, float_64(alloc, text)?),
        Immediates::Access(LoadOrStore::Load(op)) => {
            let (at, rest) = access(loaded(op).width, text)?;
            (Simple::Load(op, at), rest)
        }
        Immediates::Access(LoadOrStore::Store(op)) => {
            let (at, rest) = access(stored(op).width, text)?;
            (Simple::Store(op, at), rest)
        }
        _ => return Err(refuse(TextWhy::UnknownWord, text)),
    };
    Ok((Piece::Plain(simple), rest))
}

/// Reads the type use of a `call_indirect`.
#[tactic(auto, using(crate::proofs::Groups::fails_read, crate::proofs::Groups::fails_carried))]
fn indirect<'a>(
    alloc: Global,
    profile: Profile,
    names: &Names,
    text: &'a [u8],
) -> Result<(Piece<'a>, &'a [u8]), TextFault>
    ensures fits { IfOk result (λ x. FitsPiece (piece_of x.0)) }
    ensures read { Reads (λ x. (piece_of x.0, lexed x.1.now)) result
        (reading.simple_at Simple.CallIndirect (call_use_at profile (names_of names.now)) (lexed text.now)) }
{
    match type_use(alloc, profile, names, text) {
        Ok((x, rest)) => Ok((Piece::Plain(Simple::CallIndirect(x)), rest)),
        Err(fault) => Err(call_fault(alloc, profile, names, fault, text)),
    }
}

/// Reads the piece that begins with the keyword `word`. Core spec 6.5. `here` begins at the keyword, `text` after it.
/// Fails with `Float` for a name of floats that the profile lacks. Fails with `UnknownWord` for another keyword that is
/// no instruction of the profile, and for an `else` or `end` without its block. Another atom is `Expected`.
#[tactic(auto, unfolding(crate::specs::exact::Reading::piece_at))]
pub(crate) fn read_piece<'a>(
    alloc: Global,
    profile: Profile,
    scope: &Scope,
    blocks: &OpenBlocks,
    word: &[u8],
    here: &[u8],
    text: &'a [u8],
) -> Result<(Piece<'a>, &'a [u8]), TextFault>
    requires { lexed here.now ≢ [] }
    ensures fits { IfOk result (λ x. FitsPiece (piece_of x.0)) }
    ensures read { Reads (λ x. (piece_of x.0, lexed x.1.now)) result
        (reading.piece_at (call_use_at profile (names_of scope.now.names.now)) profile (scope_of scope.now)
        blocks.now word.now (lexed text.now)) }
{
    match op_keyword(profile, word) {
        OpClass::Plain(Op::Simple(simple)) => Ok((Piece::Plain(simple), text)),
        OpClass::Plain(Op::Else) => middle(blocks, here, text),
        OpClass::Plain(Op::End) => closes(blocks, here, text),
        OpClass::Plain(_) => Err(refuse(TextWhy::UnknownWord, here)),
        OpClass::With(Immediates::Block(opening)) => opens(profile, opening, text),
        OpClass::With(Immediates::Index(Indexed::BrTable)) => table(alloc, blocks, text),
        OpClass::With(Immediates::Index(op)) => indexed(scope, blocks, op, text),
        OpClass::With(Immediates::CallIndirect) => indirect(alloc, profile, scope.names, text),
        OpClass::With(kind) => match kind {
            Immediates::F32Const | Immediates::F64Const | Immediates::Access(_) => {
                float_or_access(alloc, kind, text)
            }
            _ => operand(kind, text),
        },
        OpClass::Float => Err(refuse(TextWhy::Float, here)),
        OpClass::None => Err(no_instruction(profile, word, here)),
    }
}
