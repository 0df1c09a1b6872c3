//! The names of expressions.

ghost use Rattle.std.specs.Prelude.{◌≡◌, ◌++◌, ◌∷◌, [], map, OnOk, IfOk, option_map};
ghost use Rattle.sl_ast.specs.Views.{bytes, expression_of};
ghost use Rattle.sl_spec_actions.specs.ActionNames.{names_behind, names_in, with_space};

use sl_ast::expressions::Expr;
use std::alloc::{AllocError, Global};
use std::marker::Model;

/// Names in the order in which they were added. Contracts see the list of them.
#[derive(Drop)]
pub(crate) struct NameList<'a> {
    names: Vec<&'a [u8]>,
}

impl<'a> Model for NameList<'a> {
    ghost use Rattle.std.specs.Prelude.{List, ℕ, map};

    ghost Value = { List (List ℕ) };

    ghost view = { λ l. map (λ name. name.now) l.names.items };
}

impl<'a> NameList<'a> {
    fn new(alloc: Global) -> Self
        ensures { result ≡ [] }
    {
        NameList {
            names: Vec::new(alloc),
        }
    }

    fn push(&mut self, name: &'a [u8]) -> Result<(), AllocError>
        ensures { OnOk result (self.new ≡ self.old ++ name.now ∷ []) }
    {
        self.names.push(name)?;
        Ok(())
    }

    pub(crate) fn as_slice(&self) -> &[&'a [u8]]
        ensures { map (λ name. name.now) result.now ≡ self.now }
    {
        self.names.as_slice()
    }
}

/// Adds the space of a `*` that names one.
fn add_space<'a>(space: Option<&'a [u8]>, names: &mut NameList<'a>) -> Result<(), AllocError>
    ensures { OnOk result (names.new ≡ with_space names.old (option_map bytes space.entry)) }
{
    match space {
        Some(space) => names.push(space)?,
        None => {}
    }
    Ok(())
}

/// Adds the names of an expression.
#[tactic(auto, unfolding(crate::specs::ActionNames::names_behind))]
fn add_names<'a>(e: &Expr<'a>, names: &mut NameList<'a>) -> Result<(), AllocError>
    ensures { OnOk result (names.new ≡ names_behind names.old (expression_of e.now)) }
{
    match e {
        Expr::Integer(_) => {}
        Expr::Name(name) => names.push(name)?,
        Expr::Paren(inner) => add_names(inner, names)?,
        Expr::Call(name, given) => {
            let given = given.as_slice();
            names.push(name)?;
            'given: for inner in given {
                add_names(inner, names)?;
            }
        }
        Expr::Sized(inner, _) => add_names(inner, names)?,
        Expr::Dropped(inner, _) => add_names(inner, names)?,
        Expr::Bits(inner, _, _) => add_names(inner, names)?,
        Expr::Prefix(_, inner) => add_names(inner, names)?,
        Expr::Star(space, _, pointer) => {
            add_space(*space, names)?;
            add_names(pointer, names)?;
        }
        Expr::Binary(_, left, right) => {
            add_names(left, names)?;
            add_names(right, names)?;
        }
    }
    Ok(())
}

/// The names of an expression in the text's order.
pub(crate) fn names_in<'a>(alloc: Global, e: &Expr<'a>) -> Result<NameList<'a>, AllocError>
    ensures { IfOk result (λ names. names ≡ names_in (expression_of e.now)) }
{
    let mut names = NameList::new(alloc);
    add_names(e, &mut names)?;
    Ok(names)
}
