//! The weights of statements and of macros.

ghost use Rattle.std.specs.Prelude.{◌≡◌, get_or, map, min, IfOk};
ghost use Rattle.sl_ast.specs.Views.{section_of, statement_of, statements_of};
ghost use Rattle.sl_section_resolve.specs.MacroViews.{bodies_of};
ghost use Rattle.sl_section_weights.specs.Weights.{body_weight, call_weight, macro_weights};
ghost use Rattle.sl_section_weights.specs.Weights.{section_weight};

use crate::sizes::{ENOUGH, sum};
use crate::statements::statement_size;
use sl_ast::constructors::Section;
use sl_ast::statements::Stmt;
use sl_section_resolve::MacroBody;
use sl_spec::Named;
use std::alloc::{AllocError, Global};

/// What is known of a number.
pub fn known(values: &[usize], index: usize) -> usize
    ensures { result ≡ get_or values.now index 0 }
{
    match values.get(index) {
        Some(value) => *value,
        None => 0,
    }
}

/// The weight of the macro that a statement calls.
fn call_weight<'s, 'a>(
    macros: &Named<'a, MacroBody<'s, 'a>>,
    weights: &[usize],
    of: &Stmt<'a>,
) -> usize
    ensures { result ≡ call_weight (bodies_of macros.now) weights.now (statement_of of.now) }
{
    match of {
        Stmt::Invoke(name, _) => match macros.index_of(name) {
            Some(index) => known(weights, index),
            None => 0,
        },
        Stmt::Local(_, _, _) => 0,
        Stmt::Declare(_, _, _) => 0,
        Stmt::Assign(_, _) => 0,
        Stmt::Goto(_) => 0,
        Stmt::Branch(_, _) => 0,
        Stmt::Call(_) => 0,
        Stmt::Return(_) => 0,
        Stmt::Build(_) => 0,
        Stmt::Export(_) => 0,
        Stmt::Label(_) => 0,
    }
}

/// The weight of statements, by the weights of the first macros.
fn body_weight<'s, 'a>(
    macros: &Named<'a, MacroBody<'s, 'a>>,
    weights: &[usize],
    body: &[Stmt<'a>],
) -> usize
    ensures { result ≡ min (body_weight (bodies_of macros.now) weights.now
        (statements_of body.now)) 65537 }
{
    let mut weight = 0;
    'statements: for index in 0..body.len() {
        let of = &body[index];
        let called = call_weight(macros, weights, of).min(ENOUGH);
        weight = sum(weight, sum(statement_size(of), called));
    }
    weight
}

/// The weights of all macros, in their order.
pub fn macro_weights<'s, 'a>(
    alloc: Global,
    macros: &Named<'a, MacroBody<'s, 'a>>,
) -> Result<Vec<usize>, AllocError>
    ensures { IfOk result (λ weights. weights.items
        ≡ map (λ n. min n 65537) (macro_weights (bodies_of macros.now))) }
{
    let mut weights = Vec::new(alloc);
    'macros: for index in 0..macros.len() {
        let m = macros.member(index);
        let of = m.of;
        let weight = body_weight(macros, weights.as_slice(), of.body.as_slice());
        weights.push(weight)?;
    }
    Ok(weights)
}

/// The weight of a section, by the weights of the macros.
pub fn section_weight<'s, 'a>(
    macros: &Named<'a, MacroBody<'s, 'a>>,
    weights: &[usize],
    section: &Section<'a>,
) -> usize
    requires { weights.now ≡ map (λ n. min n 65537) (macro_weights (bodies_of macros.now)) }
    ensures { result ≡ min (section_weight (bodies_of macros.now)
        (macro_weights (bodies_of macros.now))
        (section_of section.now)) 65537 }
{
    match section {
        Section::Statements(body) => body_weight(macros, weights, body.as_slice()),
        Section::Unimplemented => 0,
    }
}
