//! The arguments of a macro's call.

ghost use Rattle.std.specs.Prelude.{◌≡◌, ◌+◌, [], length, map, IfOk, OnOk};
ghost use Rattle.sl_ast.specs.Views.{bytes, expression_of, expressions_of};
ghost use Rattle.sl_section_flat.specs.Sections as s;
ghost use Rattle.sl_section_flat.specs.Views.{symbol_of};
ghost use Rattle.sl_section_terms.specs.Scopes.{with_symbol};
ghost use Rattle.sl_section_resolve.specs.Seen.{Adds};
ghost use Rattle.sl_section_resolve.specs.Steps.{argument, argument_steps, argument_variables};
ghost use Rattle.sl_section_resolve.specs.Steps.{evaluated_steps, given, given_variables};
ghost use Rattle.sl_section_resolve.specs.Steps.{parameters};
ghost use Rattle.sl_section_terms.specs.Terms.{variables};

use crate::statements::put;
use sl_ast::expressions::Expr;
use sl_section_flat::{Step, Symbol};
use sl_section_terms::{NamedSymbol, Names, add_symbol, take, term};
use sl_spec::{Named, Tables};
use std::alloc::{AllocError, Global};

/// A local of the call that gets an argument's value.
fn evaluated<'a>(
    alloc: Global,
    t: &Tables<'a>,
    names: &Names<'a>,
    next: &mut u32,
    out: &mut Vec<Step<'a>>,
    e: &Expr<'a>,
) -> Result<Symbol, AllocError>
    ensures symbol { IfOk result (λ a. symbol_of a ≡ s.local next.old) }
    ensures steps { OnOk result (Adds out.old.items out.new.items
        (evaluated_steps t.now names.now next.old (expression_of e.now))) }
    ensures next { OnOk result (next.new ≡ next.old + (variables (expression_of e.now) + 1)) }
{
    let x = take(next)?;
    put(out, Step::Declare(x, None))?;
    let value = term(alloc, t, names, next, e)?;
    put(out, Step::Set(Symbol::Local(x), value))?;
    Ok(Symbol::Local(x))
}

/// What a parameter stands for.
fn argument<'a>(
    alloc: Global,
    t: &Tables<'a>,
    names: &Names<'a>,
    next: &mut u32,
    out: &mut Vec<Step<'a>>,
    e: &Expr<'a>,
) -> Result<Symbol, AllocError>
    ensures symbol { IfOk result (λ a. symbol_of a
        ≡ argument t.now names.now next.old (expression_of e.now)) }
    ensures steps { OnOk result (Adds out.old.items out.new.items
        (argument_steps t.now names.now next.old (expression_of e.now))) }
    ensures next { OnOk result (next.new ≡ next.old + argument_variables (expression_of e.now)) }
{
    match e {
        Expr::Name(name) => Ok(names.known_symbol(t, name)),
        Expr::Integer(n) => Ok(Symbol::Integer(*n)),
        Expr::Paren(_) => evaluated(alloc, t, names, next, out, e),
        Expr::Call(_, _) => evaluated(alloc, t, names, next, out, e),
        Expr::Sized(_, _) => evaluated(alloc, t, names, next, out, e),
        Expr::Dropped(_, _) => evaluated(alloc, t, names, next, out, e),
        Expr::Bits(_, _, _) => evaluated(alloc, t, names, next, out, e),
        Expr::Prefix(_, _) => evaluated(alloc, t, names, next, out, e),
        Expr::Star(_, _, _) => evaluated(alloc, t, names, next, out, e),
        Expr::Binary(_, _, _) => evaluated(alloc, t, names, next, out, e),
    }
}

/// Adds a parameter with what its argument stands for.
fn bind_one<'a>(
    alloc: Global,
    t: &Tables<'a>,
    names: &Names<'a>,
    next: &mut u32,
    out: &mut Vec<Step<'a>>,
    own: &mut Named<'a, NamedSymbol<'a>>,
    parameter: &'a [u8],
    e: &Expr<'a>,
) -> Result<(), AllocError>
    ensures own { OnOk result (own.new ≡ with_symbol own.old parameter.now
        (argument t.now names.now next.old (expression_of e.now))) }
    ensures steps { OnOk result (Adds out.old.items out.new.items
        (argument_steps t.now names.now next.old (expression_of e.now))) }
    ensures next { OnOk result (next.new ≡ next.old + argument_variables (expression_of e.now)) }
{
    let symbol = argument(alloc, t, names, next, out, e)?;
    add_symbol(own, parameter, symbol)
}

/// The parameters with what they stand for.
pub fn bind<'a>(
    alloc: Global,
    t: &Tables<'a>,
    names: &Names<'a>,
    next: &mut u32,
    out: &mut Vec<Step<'a>>,
    ps: &[&'a [u8]],
    es: &[Expr<'a>],
) -> Result<Named<'a, NamedSymbol<'a>>, AllocError>
    requires { length ps.now ≡ length es.now }
    ensures own { IfOk result (λ own. own ≡ parameters t.now names.now next.old []
        (map bytes ps.now) (expressions_of es.now)) }
    ensures steps { OnOk result (Adds out.old.items out.new.items
        (given t.now names.now next.old (expressions_of es.now))) }
    ensures next { OnOk result (next.new ≡ next.old + given_variables (expressions_of es.now)) }
{
    let mut own = Named::new(alloc);
    'pairs: for index in 0..es.len() {
        bind_one(alloc, t, names, next, out, &mut own, ps[index], &es[index])?;
    }
    Ok(own)
}
