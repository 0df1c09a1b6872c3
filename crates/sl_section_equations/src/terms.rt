//! The equations of expressions.

ghost use Rattle.std.specs.Prelude.{◌≡◌, ◌++◌, OnOk};
ghost use Rattle.sl_section_flat.specs.Sections as s;
ghost use Rattle.sl_section_flat.specs.Views.{term_of, terms_of};
ghost use Rattle.sl_section_flat.specs.Chains.{chain};
ghost use Rattle.sl_section_equations.specs.Equations as q;
ghost use Rattle.sl_section_equations.specs.Known.{address_size, operand_size};

use crate::class::{Class, class_of};
use crate::known::KnownSizes;
use crate::put::{put, put_if_bare, put_is, put_symbol, put_written, span_size};
use sl_section_flat::{Term, variable, written_size};
use sl_sizes::Equation;
use sl_word::{Op1, Op2};
use std::alloc::AllocError;

fn put_one(out: &mut Vec<Equation>, op: Op1, a: &Term, x: u32) -> Result<(), AllocError>
    ensures { OnOk result (out.new.items
        ≡ out.old.items ++ q.one_equations op (term_of a.now) x) }
{
    match op {
        Op1::Copy | Op1::IntNegate | Op1::Int2Comp => put(out, Equation::Equal(x, variable(a))),
        Op1::BoolNegate => {
            put_is(out, variable(a), written_size(1))?;
            put_is(out, x, written_size(1))
        }
        Op1::IntZext | Op1::IntSext | Op1::PopCount | Op1::LzCount => Ok(()),
    }
}

fn put_two(out: &mut Vec<Equation>, op: Op2, a: &Term, b: &Term, x: u32) -> Result<(), AllocError>
    ensures { OnOk result (out.new.items
        ≡ out.old.items ++ q.class_equations (q.class_of op) (term_of a.now) (term_of b.now) x) }
{
    match class_of(op) {
        Class::Alike => {
            put(out, Equation::Equal(variable(a), variable(b)))?;
            put(out, Equation::Equal(x, variable(a)))
        }
        Class::Shift => {
            put_if_bare(out, b, written_size(4))?;
            put(out, Equation::Equal(x, variable(a)))
        }
        Class::Test => {
            put(out, Equation::Equal(variable(a), variable(b)))?;
            put_is(out, x, written_size(1))
        }
        Class::Boolean => {
            put_is(out, variable(a), written_size(1))?;
            put_is(out, variable(b), written_size(1))?;
            put_is(out, x, written_size(1))
        }
    }
}

/// The equations of an expression, those of its parts first.
pub(crate) fn put_term(
    known: &KnownSizes<'_>,
    out: &mut Vec<Equation>,
    t: &Term,
) -> Result<(), AllocError>
    ensures { OnOk result (out.new.items ≡ out.old.items
        ++ q.term_equations (address_size known.now) (operand_size known.now) (term_of t.now)) }
{
    match t {
        Term::Number(_, _) => Ok(()),
        Term::Sized(_, n, x) => put_is(out, *x, *n),
        Term::Name(a, x) => put_symbol(known, out, *a, *x),
        Term::Paren(t, x) => {
            put_term(known, out, t)?;
            put(out, Equation::Equal(*x, variable(t)))
        }
        Term::Kept(t, n, x) => {
            put_term(known, out, t)?;
            put_is(out, *x, *n)
        }
        Term::Dropped(t, n, x) => {
            put_term(known, out, t)?;
            put(out, Equation::Less(*x, variable(t), *n))
        }
        Term::Bits(t, span, x) => {
            put_term(known, out, t)?;
            put_is(out, *x, span_size(*span))
        }
        Term::Load(space, n, t, x) => {
            put_term(known, out, t)?;
            put_if_bare(out, t, known.address(*space))?;
            put_written(out, *n, *x)
        }
        Term::One(op, t, x) => {
            put_term(known, out, t)?;
            put_one(out, *op, t, *x)
        }
        Term::Two(op, _, a, b, x) => {
            put_term(known, out, a)?;
            put_term(known, out, b)?;
            put_two(out, *op, a, b, *x)
        }
        Term::User(_, ts, _) => {
            let ts = ts.as_slice();
            'arguments: for index in 0..ts.len() {
                put_term(known, out, &ts[index])?;
                put_if_bare(out, &ts[index], written_size(8))?;
            }
            Ok(())
        }
    }
}

/// The equations of the arguments of a user operation.
pub(crate) fn put_arguments(
    known: &KnownSizes<'_>,
    out: &mut Vec<Equation>,
    ts: &[Term],
) -> Result<(), AllocError>
    ensures { OnOk result (out.new.items ≡ out.old.items
        ++ q.arguments_equations (address_size known.now) (operand_size known.now)
        (chain (terms_of ts.now))) }
{
    'arguments: for index in 0..ts.len() {
        put_term(known, out, &ts[index])?;
        put_if_bare(out, &ts[index], written_size(8))?;
    }
    Ok(())
}
