//! Pieces of templates at a node.

ghost use Rattle.std.specs.Prelude.{◌≡◌, ◌++◌, ◌∷◌, [], IfOk, OnOk};
ghost use Rattle.sl_faithful_code.specs.Operations as o;
ghost use Rattle.sl_build_emit.specs.Views.{frame_of, setting_of};
ghost use Rattle.sl_build_template.specs.Placed as p;
ghost use Rattle.sl_build_template.specs.Views.{piece_of, pieces_of};
ghost use Rattle.sl_build_template.specs.declared.piece.Piece.TheVariants as variant;

use crate::bits::operand_bits;
use crate::extract::extract;
use crate::insert::{Bits, Put, insert};
use crate::operations::Operations;
use crate::site::Site;
use crate::slots::{operand_put, operand_stored, slot_into, slot_read, value};
use sl_build_template::{Insert, NewBits, Piece, Slot, amount};
use sl_word::UserId;
use std::alloc::AllocError;

/// A user operation with its arguments.
fn user_call(
    site: &Site<'_>,
    out: &mut Operations,
    op: UserId,
    arguments: &[Slot],
) -> Result<(), AllocError>
    ensures { OnOk result (out.new ≡ out.old
        ++ o.call_user op.0 (p.values site.now.top (setting_of site.now) (frame_of site.now)
        arguments.now) ∷ []) }
{
    let mut inputs = Vec::new(out.alloc());
    inputs.push(amount(u64::from(op.0)))?;
    'arguments: for index in 0..arguments.len() {
        let input = value(site, arguments[index])?;
        inputs.push(input)?;
    }
    out.call(&inputs)
}

/// Bits that are put, by their varnode.
fn new_bits(site: &Site<'_>, new: NewBits) -> Result<Put, AllocError>
    ensures value { IfOk result (λ put. put.value
        ≡ p.value site.now.top (setting_of site.now) (frame_of site.now) new.value) }
    ensures below { IfOk result (λ put. put.below ≡ new.below) }
    ensures span { IfOk result (λ put. put.span ≡ new.span) }
{
    let value = value(site, new.value)?;
    let (below, span) = (new.below, new.span);
    Ok(Put { value, below, span })
}

/// A value with other bits is put into a varnode. Templates have the temporary values up to 4; a
/// greater number would be want of memory.
fn inserted(
    site: &Site<'_>,
    out: &mut Operations,
    t: u32,
    bits: Insert,
    to: Slot,
) -> Result<(), AllocError>
    ensures { OnOk result (out.new ≡ out.old ++ p.piece_code site.now.top (setting_of site.now)
        (frame_of site.now) (piece_of (variant.Insert t bits to))) }
{
    if 4 < t {
        return Err(AllocError);
    }
    let old = value(site, bits.old)?;
    let new = new_bits(site, bits.new)?;
    let to = value(site, to)?;
    let size = bits.size;
    insert(site, out, t, Bits { size, old, new }, to)
}

/// A piece.
fn piece(site: &Site<'_>, out: &mut Operations, a: &Piece) -> Result<(), AllocError>
    ensures { OnOk result (out.new ≡ out.old
        ++ p.piece_code site.now.top (setting_of site.now) (frame_of site.now) (piece_of a.now)) }
{
    match a {
        Piece::Read(v) => slot_read(site, out, *v),
        Piece::Into(v, to) => {
            let to = value(site, *to)?;
            slot_into(site, out, *v, to)
        }
        Piece::Unary(op, to, a) => {
            let to = value(site, *to)?;
            let a = value(site, *a)?;
            out.unary(*op, to, a)
        }
        Piece::Binary(op, to, a, b) => {
            let to = value(site, *to)?;
            let a = value(site, *a)?;
            let b = value(site, *b)?;
            out.binary(*op, to, a, b)
        }
        Piece::Load(to, space, pointer) => {
            let to = value(site, *to)?;
            let pointer = value(site, *pointer)?;
            out.load(to, *space, pointer)
        }
        Piece::Store(space, pointer, v) => {
            let pointer = value(site, *pointer)?;
            let v = value(site, *v)?;
            out.store(*space, pointer, v)
        }
        Piece::User(op, arguments) => user_call(site, out, *op, arguments.as_slice()),
        Piece::Exit(code, target) => {
            let target = value(site, *target)?;
            out.exit(*code, target)
        }
        Piece::ExitIf(target, condition) => {
            let target = value(site, *target)?;
            let condition = value(site, *condition)?;
            out.exit_if(target, condition)
        }
        Piece::Put(i, v) => operand_put(site, out, *i, *v),
        Piece::Stored(i, n) => operand_stored(site, out, *i, *n),
        Piece::PutBits(i, new) => {
            let new = new_bits(site, *new)?;
            operand_bits(site, out, *i, new)
        }
        Piece::Extract(t, from, span, to) => {
            let from = value(site, *from)?;
            let to = value(site, *to)?;
            extract(site, out, *t, from, *span, to)
        }
        Piece::Insert(t, bits, to) => inserted(site, out, *t, *bits, *to),
    }
}

/// Pieces, one behind the other.
pub(crate) fn pieces(
    site: &Site<'_>,
    out: &mut Operations,
    pieces: &[Piece],
) -> Result<(), AllocError>
    ensures { OnOk result (out.new ≡ out.old
        ++ p.pieces_code site.now.top (setting_of site.now) (frame_of site.now)
        (pieces_of pieces.now)) }
{
    'pieces: for index in 0..pieces.len() {
        piece(site, out, &pieces[index])?;
    }
    Ok(())
}
