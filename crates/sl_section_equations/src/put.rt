//! One more equation.

ghost use Rattle.std.specs.Prelude.{◌≡◌, ◌++◌, ◌∷◌, [], OnOk, option_map};
ghost use Rattle.sl_section_flat.specs.Views.{symbol_of, term_of};
ghost use Rattle.sl_section_flat.specs.Chains.{bytes_of};
ghost use Rattle.sl_section_equations.specs.Equations as q;
ghost use Rattle.sl_section_equations.specs.Known.{operand_size};

use crate::known::KnownSizes;
use sl_section_flat::{Span, Symbol, Term, variable};
use sl_sizes::Equation;
use sl_word::Size;
use std::alloc::AllocError;

pub(crate) fn put(out: &mut Vec<Equation>, e: Equation) -> Result<(), AllocError>
    ensures { OnOk result (out.new.items ≡ out.old.items ++ e ∷ []) }
{
    out.push(e)?;
    Ok(())
}

/// The variable has this size.
pub(crate) fn put_is(out: &mut Vec<Equation>, x: u32, n: Size) -> Result<(), AllocError>
    ensures { OnOk result (out.new.items ≡ out.old.items ++ q.is x n.bytes) }
{
    put(out, Equation::Is(x, n))
}

/// The variable has this size, where one is written.
pub(crate) fn put_written(
    out: &mut Vec<Equation>,
    n: Option<Size>,
    x: u32,
) -> Result<(), AllocError>
    ensures { OnOk result (out.new.items ≡ out.old.items ++ q.written (option_map bytes_of n) x) }
{
    match n {
        None => Ok(()),
        Some(n) => put_is(out, x, n),
    }
}

/// As many bytes as the bits take.
pub(crate) fn span_size(span: Span) -> Size
    ensures { result.bytes ≡ q.bit_bytes span.count }
{
    Size::new((span.count + 7) / 8).unwrap()
}

/// The variable has the size of what the name stands for.
pub(crate) fn put_symbol(
    known: &KnownSizes<'_>,
    out: &mut Vec<Equation>,
    a: Symbol,
    x: u32,
) -> Result<(), AllocError>
    ensures { OnOk result (out.new.items
        ≡ out.old.items ++ q.symbol_equations (operand_size known.now) (symbol_of a) x) }
{
    match a {
        Symbol::Register(r) => put_is(out, x, r.size),
        Symbol::BitRange(_, span) => put_is(out, x, span_size(span)),
        Symbol::Local(y) => put(out, Equation::Equal(x, y)),
        Symbol::Table(i) => put_written(out, known.operand(i), x),
        Symbol::Attached(_, n) => put_is(out, x, n),
        Symbol::Value(_) | Symbol::Start | Symbol::Next | Symbol::Integer(_) => Ok(()),
    }
}

fn is_bare_symbol(a: Symbol) -> bool
    ensures { result ≡ q.is_bare_symbol (symbol_of a) }
{
    match a {
        Symbol::Value(_) | Symbol::Start | Symbol::Next | Symbol::Integer(_) => true,
        Symbol::Register(_) | Symbol::BitRange(_, _) | Symbol::Local(_) => false,
        Symbol::Table(_) | Symbol::Attached(_, _) => false,
    }
}

/// Whether the expression is a number by itself, without a size.
pub(crate) fn is_bare(t: &Term) -> bool
    ensures { result ≡ q.is_bare (term_of t.now) }
{
    match t {
        Term::Number(_, _) => true,
        Term::Name(a, _) => is_bare_symbol(*a),
        Term::Sized(_, _, _) => false,
        Term::Paren(_, _) => false,
        Term::Kept(_, _, _) => false,
        Term::Dropped(_, _, _) => false,
        Term::Bits(_, _, _) => false,
        Term::Load(_, _, _, _) => false,
        Term::One(_, _, _) => false,
        Term::Two(_, _, _, _, _) => false,
        Term::User(_, _, _) => false,
    }
}

/// The expression has this size, where it is a number by itself.
pub(crate) fn put_if_bare(out: &mut Vec<Equation>, t: &Term, n: Size) -> Result<(), AllocError>
    ensures { OnOk result (out.new.items
        ≡ out.old.items ++ q.if_bare (term_of t.now) n.bytes) }
{
    if is_bare(t) {
        put_is(out, variable(t), n)
    } else {
        Ok(())
    }
}
