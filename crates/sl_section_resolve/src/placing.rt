//! The sections of tables that no `build` places.

ghost use Rattle.std.specs.Prelude.{◌≡◌, [], fold, map, IfOk, OnOk};
ghost use Rattle.sl_ast.specs.Views.{statement_of, statements_of};
ghost use Rattle.sl_section_flat.specs.Views.{steps_of};
ghost use Rattle.sl_section_resolve.specs.Seen.{Adds};
ghost use Rattle.sl_section_resolve.specs.Steps.{is_table, unplaced, unplaced_one, with_built};
ghost use Rattle.sl_section_resolve.specs.Steps.{with_name};

use crate::statements::put;
use sl_ast::statements::Stmt;
use sl_section_flat::Step;
use sl_section_terms::small;
use sl_spec::{Means, Operand};
use sl_spec_rules::NameSet;
use std::alloc::{AllocError, Global};

/// Adds a name, if it isn't there.
fn add_name<'a>(names: &mut NameSet<'a>, name: &'a [u8]) -> Result<(), AllocError>
    ensures { OnOk result (names.new ≡ with_name names.old name.now) }
{
    if names.has(name) {
        return Ok(());
    }
    names.add(name)
}

/// Adds the name that a statement builds.
fn add_built<'a>(names: &mut NameSet<'a>, x: &Stmt<'a>) -> Result<(), AllocError>
    ensures { OnOk result (names.new ≡ with_built names.old (statement_of x.now)) }
{
    match x {
        Stmt::Build(name) => add_name(names, name),
        Stmt::Local(_, _, _) => Ok(()),
        Stmt::Declare(_, _, _) => Ok(()),
        Stmt::Assign(_, _) => Ok(()),
        Stmt::Goto(_) => Ok(()),
        Stmt::Branch(_, _) => Ok(()),
        Stmt::Call(_) => Ok(()),
        Stmt::Return(_) => Ok(()),
        Stmt::Export(_) => Ok(()),
        Stmt::Invoke(_, _) => Ok(()),
        Stmt::Label(_) => Ok(()),
    }
}

/// The names that are built.
fn built<'a>(alloc: Global, body: &[Stmt<'a>]) -> Result<NameSet<'a>, AllocError>
    ensures { IfOk result (λ names. names ≡ fold with_built [] (statements_of body.now)) }
{
    let mut names = NameSet::new(alloc);
    'body: for index in 0..body.len() {
        add_built(&mut names, &body[index])?;
    }
    Ok(names)
}

fn is_table(means: Means) -> bool
    ensures { result ≡ is_table means }
{
    match means {
        Means::Table(_) => true,
        Means::Field(_) => false,
        Means::Action(_) => false,
    }
}

/// Builds an operand that is a table and isn't built elsewhere.
fn put_unplaced<'a>(
    out: &mut Vec<Step<'a>>,
    names: &NameSet<'a>,
    i: u32,
    operand: &Operand<'a>,
) -> Result<(), AllocError>
    ensures { OnOk result (Adds out.old.items out.new.items
        (unplaced_one names.now i operand.now)) }
{
    if is_table(operand.means) && !names.has(operand.name) {
        return put(out, Step::Build(i));
    }
    Ok(())
}

/// Builds the operands that are tables and aren't among these names.
fn unplaced_by<'a>(
    alloc: Global,
    names: &NameSet<'a>,
    operands: &[Operand<'a>],
) -> Result<Vec<Step<'a>>, AllocError>
    ensures { IfOk result (λ out. steps_of out.items ≡ unplaced names.now 0 operands.now) }
{
    let mut out = Vec::new(alloc);
    'operands: for index in 0..operands.len() {
        let number = small(index)?;
        put_unplaced(&mut out, names, number, &operands[index])?;
    }
    Ok(out)
}

/// Builds the operands that are tables and aren't built by a statement.
pub fn unplaced<'a>(
    alloc: Global,
    operands: &[Operand<'a>],
    body: &[Stmt<'a>],
) -> Result<Vec<Step<'a>>, AllocError>
    ensures { IfOk result (λ out. steps_of out.items
        ≡ unplaced (fold with_built [] (statements_of body.now)) 0 operands.now) }
{
    let names = built(alloc, body)?;
    unplaced_by(alloc, &names, operands)
}
