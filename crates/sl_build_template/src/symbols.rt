//! What names stand for is read.

ghost use Rattle.std.specs.Prelude.{◌≡◌, ◌++◌, ◌∷◌, ◌%◌, ◌^◌, [], OnOk};
ghost use Rattle.sl_section_flat.specs.Views.{symbol_of};
ghost use Rattle.sl_build_template.specs.Pieces as p;
ghost use Rattle.sl_build_template.specs.Views.{pieces_of};
ghost use Rattle.sl_build_template.specs.declared.slot.Slot.TheVariants as variant;

use crate::piece::Piece;
use crate::puts::{put, register};
use crate::slot::{Given, Slot, Whole, slot_size};
use crate::varnodes::{constant, cut, in_space};
use sl_section_flat::Symbol;
use sl_word::{Op1, Size};
use std::alloc::AllocError;

/// An integer as a constant.
pub(crate) fn integer(v: u64, n: Size) -> Slot
    ensures { result ≡ p.integer v n }
{
    Slot::Fixed(constant(cut(v, n), n))
}

/// What a name stands for as a whole, where that isn't bits of it.
pub(crate) fn symbol_whole(a: Symbol, n: Size) -> Option<Whole>
    ensures { result ≡ p.symbol_whole (symbol_of a) n }
{
    match a {
        Symbol::Register(r) => Some(Whole::Fixed(in_space(r.space, r.offset, n))),
        Symbol::BitRange(_, _) => None,
        Symbol::Local(x) => Some(Whole::Local(x, n)),
        Symbol::Table(i) => Some(Whole::Given(Given::Operand(i), n)),
        Symbol::Attached(i, _) => Some(Whole::Given(Given::Operand(i), n)),
        Symbol::Value(i) => Some(Whole::Given(Given::Operand(i), n)),
        Symbol::Start => Some(Whole::Given(Given::Start, n)),
        Symbol::Next => Some(Whole::Given(Given::Next, n)),
        Symbol::Integer(v) => Some(Whole::Fixed(constant(cut(v, n), n))),
    }
}

/// The slot of a name, where it is one.
pub(crate) fn symbol_slot(t: u32, a: Symbol, n: Size) -> Option<Slot>
    ensures { result ≡ p.symbol_slot t (symbol_of a) n }
{
    match symbol_whole(a, n) {
        Some(Whole::Fixed(v)) => Some(Slot::Fixed(v)),
        Some(Whole::Local(x, n)) => Some(Slot::Local(x, n)),
        Some(Whole::Given(a, n)) => Some(Slot::Given(a, t, n)),
        None => None,
    }
}

/// The slot of its lowest bytes.
pub(crate) fn view_of(t: u32, whole: Option<Whole>, n: Size) -> Option<Slot>
    ensures { result ≡ p.view_of t whole n }
{
    match whole {
        Some(whole) => Some(Slot::View(t, whole, n)),
        None => None,
    }
}

/// What is given is put into a varnode.
fn put_given(out: &mut Vec<Piece>, t: u32, a: Given, to: Slot) -> Result<(), AllocError>
    ensures { OnOk result (pieces_of out.new.items ≡ pieces_of out.old.items
        ++ p.into (variant.Given a t (p.slot_size to)) to ∷ []) }
{
    put(out, Piece::Into(Slot::Given(a, t, slot_size(to)), to))
}

/// What a name stands for is put into a varnode.
pub(crate) fn symbol_into(
    out: &mut Vec<Piece>,
    t: u32,
    a: Symbol,
    to: Slot,
) -> Result<(), AllocError>
    ensures { OnOk result (pieces_of out.new.items ≡ pieces_of out.old.items
        ++ p.symbol_into t (symbol_of a) to) }
{
    match a {
        Symbol::Register(r) => {
            let from = Slot::Fixed(in_space(r.space, r.offset, slot_size(to)));
            put(out, Piece::Unary(Op1::Copy, to, from))
        }
        Symbol::BitRange(r, span) => put(out, Piece::Extract(t, register(r), span, to)),
        Symbol::Local(x) => {
            let from = Slot::Local(x, slot_size(to));
            put(out, Piece::Unary(Op1::Copy, to, from))
        }
        Symbol::Table(i) => put_given(out, t, Given::Operand(i), to),
        Symbol::Attached(i, _) => put_given(out, t, Given::Operand(i), to),
        Symbol::Value(i) => put_given(out, t, Given::Operand(i), to),
        Symbol::Start => put_given(out, t, Given::Start, to),
        Symbol::Next => put_given(out, t, Given::Next, to),
        Symbol::Integer(v) => put(out, Piece::Unary(Op1::Copy, to, integer(v, slot_size(to)))),
    }
}
