//! Reads function bodies: the tokens up to the parenthesis that closes the function.

ghost use Rattle.std.specs.Prelude.{◌≡◌, ◌∷◌, ◌<◌, ◌^◌, [], IfErr, OnOk, Some, length, map};
ghost use Rattle.wm_tokens.specs.declared.faults.TextWhy.TheVariants.{Memory};
ghost use Rattle.wm_tokens.specs.exact.Scan.{lexed};
ghost use Rattle.wm_bodies.specs.exact.TypeUses.{instructions_at};
ghost use Rattle.wm_bodies.specs.inner.Blocks.{scope_of};
ghost use Rattle.wm_bodies.specs.inner.Bodies.{CanTake};
ghost use Rattle.wm_bodies.specs.inner.CodePieces.{FitsPiece, piece_of};
ghost use Rattle.wm_bodies.specs.inner.Pieces as flat;
ghost use Rattle.wm_bodies.specs.inner.Views.{Reads};
ghost use Rattle.wm_syntax.specs.inner.Building.{at, place_after};
ghost use Rattle.wm_syntax.specs.Instructions.{Instructions};
ghost use Rattle.wm_syntax.specs.declared.instructions.Op.TheVariants as Op;

use crate::blocks::OpenBlocks;
use crate::identifiers::Scope;
use crate::op_immediates::refuse;
use crate::pieces::{Piece, read_piece};
use std::alloc::Global;
use wm_syntax::instructions::op_class::BlockOp;
use wm_syntax::instructions::{Op, Simple};
use wm_syntax::modules::body::Body;
use wm_syntax::modules::body_builder::{BodyBuilder, BodyFault};
use wm_syntax::profile::Profile;
use wm_tokens::faults::{TextFault, TextWhy};
use wm_tokens::lexeme::{Lexeme, first_token};

/// A body that is being read: its ops up to here, and its open blocks.
#[derive(Drop)]
struct OpenBody<'a> {
    builder: BodyBuilder,
    blocks: OpenBlocks<'a>,
}

/// Appends an op that may come next. Fails with `Memory` only.
#[inline(never)]
#[tactic(auto, using(crate::proofs::BuiltBodies::op_laws))]
fn push(builder: &mut BodyBuilder, op: Op) -> Result<(), TextFault>
    requires { CanTake builder.old (op ∷ []) }
    ensures memory { IfErr result (λ e. e.why ≡ Memory) }
    ensures taken { OnOk result (place_after builder.old (op ∷ []) ≡ Some builder.new) }
{
    match builder.push_borrowed(&op) {
        Ok(()) => Ok(()),
        Err(BodyFault::Memory) => Err(TextFault::MEMORY),
        Err(BodyFault::Unbalanced) => unreachable!(),
    }
}

/// Appends an instruction without a nested list, as most ops are. Takes the fast path where there is room for it.
#[inline(always)]
#[tactic(auto, using(crate::proofs::BuiltBodies::op_laws))]
fn push_simple(builder: &mut BodyBuilder, simple: Simple) -> Result<(), TextFault>
    requires { CanTake builder.old (Op.Simple simple ∷ []) }
    ensures memory { IfErr result (λ e. e.why ≡ Memory) }
    ensures taken { OnOk result (place_after builder.old (Op.Simple simple ∷ []) ≡ Some builder.new) }
{
    if builder.push_fast(&Op::Simple(simple)) {
        Ok(())
    } else {
        push(builder, Op::Simple(simple))
    }
}

/// Appends the labels of a `br_table`, without the default.
#[tactic(auto, using(crate::proofs::BuiltBodies::label_laws))]
fn push_labels(builder: &mut BodyBuilder, labels: &[u32]) -> Result<(), TextFault>
    requires { CanTake builder.old (map Op.Label labels.now) }
    ensures memory { IfErr result (λ e. e.why ≡ Memory) }
    ensures taken { OnOk result (place_after builder.old (map Op.Label labels.now) ≡ Some builder.new) }
{
    for l in labels {
        push(builder, Op::Label(*l))?;
    }
    Ok(())
}

/// Appends a `br_table` with its labels.
#[tactic(auto, using(crate::proofs::BuiltBodies::table_laws))]
fn push_table(builder: &mut BodyBuilder, labels: &[u32], default: u32) -> Result<(), TextFault>
    requires few { length labels.now < 2 ^ 32 }
    requires stands { CanTake builder.old (flat.piece_ops (flat.jump labels.now default)) }
    ensures memory { IfErr result (λ e. e.why ≡ Memory) }
    ensures taken { OnOk result (place_after builder.old (flat.piece_ops (flat.jump labels.now default))
        ≡ Some builder.new) }
{
    push(builder, Op::BrTable(labels.len() as u32))?;
    push_labels(builder, labels)?;
    push(builder, Op::Label(default))
}

/// Whether the block is an `if`, so that an `else` may follow.
fn is_if(opening: BlockOp) -> bool
    ensures { result ≡ flat.is_if opening }
{
    matches!(opening, BlockOp::If)
}

/// Appends a piece that may come next. After an error the body is unspecified. Most pieces are instructions. The others
/// are taken out of line, so that their results need no memory here.
#[inline(always)]
fn add<'a>(body: &mut OpenBody<'a>, piece: Piece<'a>) -> Result<(), TextFault>
    requires fits { FitsPiece (piece_of piece) }
    requires stands { CanTake body.old.builder (flat.piece_ops (piece_of piece)) }
    ensures memory { IfErr result (λ e. e.why ≡ Memory) }
    ensures ops { OnOk result (place_after body.old.builder (flat.piece_ops (piece_of piece.entry))
        ≡ Some body.new.builder) }
    ensures blocks { OnOk result (body.new.blocks ≡ flat.after body.old.blocks (piece_of piece.entry)) }
{
    match piece {
        Piece::Plain(simple) => push_simple(&mut body.builder, simple),
        _ => add_any(body, piece),
    }
}

/// Does as `add`.
#[inline(never)]
fn add_any<'a>(body: &mut OpenBody<'a>, piece: Piece<'a>) -> Result<(), TextFault>
    requires fits { FitsPiece (piece_of piece) }
    requires stands { CanTake body.old.builder (flat.piece_ops (piece_of piece)) }
    ensures memory { IfErr result (λ e. e.why ≡ Memory) }
    ensures ops { OnOk result (place_after body.old.builder (flat.piece_ops (piece_of piece.entry))
        ≡ Some body.new.builder) }
    ensures blocks { OnOk result (body.new.blocks ≡ flat.after body.old.blocks (piece_of piece.entry)) }
{
    match piece {
        Piece::Plain(simple) => push_simple(&mut body.builder, simple)?,
        Piece::Table(labels, default) => push_table(&mut body.builder, &labels, default)?,
        Piece::Opens(opening, id, ty) => {
            push(&mut body.builder, opening.op(ty))?;
            body.blocks.open(id, is_if(opening))?;
        }
        Piece::Middle => {
            push(&mut body.builder, Op::Else)?;
            if let Some(block) = body.blocks.close() {
                body.blocks.open(block.id, false)?;
            }
        }
        Piece::Closes => {
            push(&mut body.builder, Op::End)?;
            let _closed = body.blocks.close();
        }
    }
    Ok(())
}

/// Returns the body of a builder without open lists.
fn finish(builder: BodyBuilder) -> Body
    requires { (s : Instructions) × (builder ≡ at [] s) }
    ensures { builder ≡ at [] result }
{
    match builder.finish() {
        Ok(body) => body,
        Err(_) => unreachable!(),
    }
}

/// Reads a body up to the closing parenthesis of its function, and returns the text from there on. Core spec 6.5.
/// Fails as `read_piece` does. Fails with `Expected` if a block is open there, and at an opening parenthesis, a string
/// or the end of the text.
#[tactic(auto, using(crate::proofs::BodyLoop::body_laws))]
pub fn read_body<'a>(
    alloc: Global,
    profile: Profile,
    scope: &Scope,
    text: &'a [u8],
) -> Result<(Body, &'a [u8]), TextFault>
    ensures { Reads (λ x. (x.0, lexed x.1.now)) result
        (instructions_at profile (scope_of scope.now) (lexed text.now)) }
{
    let mut body = OpenBody {
        builder: BodyBuilder::new(alloc),
        blocks: OpenBlocks::new(alloc),
    };
    let mut rest = text;
    loop {
        match first_token(rest) {
            Some((Lexeme::Atom(word), more)) => {
                let (piece, more) = read_piece(
                    alloc,
                    profile,
                    scope,
                    &body.blocks,
                    word,
                    rest,
                    more,
                )?;
                add(&mut body, piece)?;
                rest = more;
            }
            Some((Lexeme::Close, _)) => match body.blocks.innermost() {
                None => return Ok((finish(body.builder), rest)),
                Some(_) => return Err(refuse(TextWhy::Expected, rest)),
            },
            _ => return Err(refuse(TextWhy::Expected, rest)),
        }
    }
}
