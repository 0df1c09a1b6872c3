//! Expressions.

ghost use Rattle.std.specs.Prelude.{◌≡◌, ◌++◌, ◌∷◌, [], IfOk, OnOk};
ghost use Rattle.sl_section_flat.specs.Views.{term_of, terms_of};
ghost use Rattle.sl_section_flat.specs.Chains.{chain};
ghost use Rattle.sl_build_template.specs.Pieces as p;
ghost use Rattle.sl_build_template.specs.Views.{form_of, pieces_of, size_in};

use crate::form::{Form, size_of, space_in};
use crate::piece::Piece;
use crate::puts::{number, put, put_ordered, put_reads};
use crate::sizes::size_of_variable;
use crate::slot::{Slot, Whole};
use crate::symbols::{integer, symbol_into, symbol_slot, symbol_whole, view_of};
use crate::varnodes::next_temp;
use sl_section_flat::Term;
use sl_word::{Op1, Op2, UserId};
use std::alloc::{AllocError, Global};

/// What a name in an expression stands for.
fn term_whole(form: &Form<'_>, e: &Term) -> Option<Whole>
    ensures { result ≡ p.term_whole (form_of form.now) (term_of e.now) }
{
    match e {
        Term::Name(a, x) => symbol_whole(*a, size_of_variable(form.sizes, *x)),
        Term::Paren(e, _) => term_whole(form, e),
        Term::Number(_, _) | Term::Sized(_, _, _) | Term::Kept(_, _, _) => None,
        Term::Dropped(_, _, _) | Term::Bits(_, _, _) | Term::Load(_, _, _, _) => None,
        Term::One(_, _, _) | Term::Two(_, _, _, _, _) | Term::User(_, _, _) => None,
    }
}

/// The slot of the lowest bytes of what a name stands for.
fn kept_slot(form: &Form<'_>, t: u32, e: &Term, x: u32) -> Option<Slot>
    ensures { result ≡ p.view_of t (p.term_whole (form_of form.now) (term_of e.now))
        (size_in form.now.sizes.now x) }
{
    view_of(t, term_whole(form, e), size_of_variable(form.sizes, x))
}

/// The slot that an expression has, where it is one.
pub(crate) fn term_slot(form: &Form<'_>, t: u32, e: &Term) -> Option<Slot>
    ensures { result ≡ p.term_slot (form_of form.now) t (term_of e.now) }
{
    match e {
        Term::Number(v, x) => Some(integer(*v, size_of_variable(form.sizes, *x))),
        Term::Sized(v, _, x) => Some(integer(*v, size_of_variable(form.sizes, *x))),
        Term::Name(a, x) => symbol_slot(t, *a, size_of_variable(form.sizes, *x)),
        Term::Paren(e, _) => term_slot(form, t, e),
        Term::Kept(e, _, x) => kept_slot(form, t, e, *x),
        Term::Dropped(_, _, _) => None,
        Term::Bits(_, _, _) => None,
        Term::Load(_, _, _, _) => None,
        Term::One(_, _, _) => None,
        Term::Two(_, _, _, _, _) => None,
        Term::User(_, _, _) => None,
    }
}

/// Where the value of an expression is put to be read.
pub(crate) fn temp_of(form: &Form<'_>, t: u32, e: &Term) -> Slot
    ensures { result ≡ p.temp_of (form_of form.now) t (term_of e.now) }
{
    Slot::Temporary(t, size_of(form, e))
}

/// An expression is put into a varnode.
#[cycle(terms)]
pub(crate) fn term_into(
    alloc: Global,
    form: &Form<'_>,
    out: &mut Vec<Piece>,
    t: u32,
    e: &Term,
    to: Slot,
) -> Result<(), AllocError>
    ensures { OnOk result (pieces_of out.new.items ≡ pieces_of out.old.items
        ++ p.term_into (form_of form.now) t (term_of e.now) to) }
{
    match e {
        Term::Number(v, x) => {
            let v = integer(*v, size_of_variable(form.sizes, *x));
            put(out, Piece::Unary(Op1::Copy, to, v))
        }
        Term::Sized(v, _, x) => {
            let v = integer(*v, size_of_variable(form.sizes, *x));
            put(out, Piece::Unary(Op1::Copy, to, v))
        }
        Term::Name(a, _) => symbol_into(out, t, *a, to),
        Term::Paren(e, _) => term_into(alloc, form, out, t, e, to),
        Term::Kept(e, _, x) => match kept_slot(form, t, e, *x) {
            Some(v) => put(out, Piece::Into(v, to)),
            None => {
                let a = term_value(alloc, form, out, t, e)?;
                put(out, Piece::Binary(Op2::Subpiece, to, a, number(0)))
            }
        },
        Term::Dropped(e, n, _) => {
            let a = term_value(alloc, form, out, t, e)?;
            let dropped = number(u64::from(*n));
            put(out, Piece::Binary(Op2::Subpiece, to, a, dropped))
        }
        Term::Bits(e, span, _) => {
            let a = term_value(alloc, form, out, t, e)?;
            put(out, Piece::Extract(t, a, *span, to))
        }
        Term::Load(space, _, e, _) => {
            let a = term_value(alloc, form, out, t, e)?;
            put(out, Piece::Load(to, space_in(form, *space), a))
        }
        Term::One(op, e, _) => {
            let a = term_value(alloc, form, out, t, e)?;
            put(out, Piece::Unary(*op, to, a))
        }
        Term::Two(op, order, a, b, _) => {
            let above = next_temp(t)?;
            let a = term_value(alloc, form, out, t, a)?;
            let b = term_value(alloc, form, out, above, b)?;
            put_ordered(out, *op, *order, to, a, b)
        }
        Term::User(op, es, _) => user_into(alloc, form, out, t, *op, es),
    }
}

/// An expression is read: the pieces before, and the slot that has its value.
#[cycle(terms)]
pub(crate) fn term_value(
    alloc: Global,
    form: &Form<'_>,
    out: &mut Vec<Piece>,
    t: u32,
    e: &Term,
) -> Result<Slot, AllocError>
    ensures code { OnOk result (pieces_of out.new.items ≡ pieces_of out.old.items
        ++ p.term_before (form_of form.now) t (term_of e.now)) }
    ensures value { IfOk result (λ v. v ≡ p.term_value (form_of form.now) t (term_of e.now)) }
{
    match term_slot(form, t, e) {
        Some(a) => {
            put_reads(out, a)?;
            Ok(a)
        }
        None => {
            let a = temp_of(form, t, e);
            term_into(alloc, form, out, t, e, a)?;
            Ok(a)
        }
    }
}

/// A user operation, behind the pieces of its arguments.
#[cycle(terms)]
pub(crate) fn user_into(
    alloc: Global,
    form: &Form<'_>,
    out: &mut Vec<Piece>,
    t: u32,
    op: UserId,
    es: &[Term],
) -> Result<(), AllocError>
    ensures { OnOk result (pieces_of out.new.items ≡ pieces_of out.old.items
        ++ p.user_pieces (form_of form.now) t op.0 (chain (terms_of es.now))) }
{
    let mut inputs = Vec::new(alloc);
    let mut free = t;
    'arguments: for index in 0..es.len() {
        let a = term_value(alloc, form, out, free, &es[index])?;
        inputs.push(a)?;
        free = next_temp(free)?;
    }
    put(out, Piece::User(op, inputs))
}
