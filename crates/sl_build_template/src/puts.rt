//! One more piece.

ghost use Rattle.std.specs.Prelude.{◌≡◌, ◌++◌, ◌∷◌, [], OnOk};
ghost use Rattle.sl_build_template.specs.Pieces as p;
ghost use Rattle.sl_build_template.specs.Views.{piece_of, pieces_of};

use crate::piece::Piece;
use crate::sizes::same_size;
use crate::slot::{Slot, Whole};
use crate::varnodes::{amount, in_space};
use sl_section_flat::{Order, Storage};
use sl_word::Op2;
use std::alloc::AllocError;

pub(crate) fn put(out: &mut Vec<Piece>, piece: Piece) -> Result<(), AllocError>
    ensures { OnOk result (pieces_of out.new.items ≡ pieces_of out.old.items ++ piece_of piece ∷ []) }
{
    out.push(piece)?;
    Ok(())
}

/// A number of four bytes.
pub(crate) fn number(v: u64) -> Slot
    ensures { result ≡ p.number v }
{
    Slot::Fixed(amount(v))
}

/// A register as a whole.
pub(crate) fn register(r: Storage) -> Slot
    ensures { result ≡ p.register r.space.0 r.offset r.size.bytes }
{
    Slot::Fixed(in_space(r.space, r.offset, same_size(r.size)))
}

/// A value is made ready to be read.
pub(crate) fn put_reads(out: &mut Vec<Piece>, v: Slot) -> Result<(), AllocError>
    ensures { OnOk result (pieces_of out.new.items ≡ pieces_of out.old.items ++ p.reads v) }
{
    match v {
        Slot::Given(_, _, _) => put(out, Piece::Read(v)),
        Slot::View(_, Whole::Given(_, _), _) => put(out, Piece::Read(v)),
        Slot::View(_, Whole::Fixed(_), _) => Ok(()),
        Slot::View(_, Whole::Local(_, _), _) => Ok(()),
        Slot::Fixed(_) => Ok(()),
        Slot::Local(_, _) => Ok(()),
        Slot::Temporary(_, _) => Ok(()),
        Slot::Written(_, _) => Ok(()),
        Slot::Target(_, _) => Ok(()),
    }
}

/// An operation on two values, in this order.
pub(crate) fn put_ordered(
    out: &mut Vec<Piece>,
    op: Op2,
    order: Order,
    to: Slot,
    a: Slot,
    b: Slot,
) -> Result<(), AllocError>
    ensures { OnOk result (pieces_of out.new.items
        ≡ pieces_of out.old.items ++ p.two_pieces op order to a b ∷ []) }
{
    match order {
        Order::AsWritten => put(out, Piece::Binary(op, to, a, b)),
        Order::Exchanged => put(out, Piece::Binary(op, to, b, a)),
    }
}
