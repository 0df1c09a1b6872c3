//! What is built: rule 29.

ghost use Rattle.std.specs.Prelude.{◌≡◌, ◌++◌, IfOk, OnOk, map};
ghost use Rattle.sl_ast.specs.Views.{bytes, statement_of, statements_of};
ghost use Rattle.sl_spec_rules.specs.Gathered.{gathered};
ghost use Rattle.sl_spec_rules.specs.Names.{are_distinct};
ghost use Rattle.sl_section_rules.specs.SectionRules.{builds_table, built};

use crate::kinds::{is_table, kind_of};
use crate::scopes::Scope;
use sl_ast::statements::Stmt;
use sl_spec::Tables;
use sl_spec_rules::are_distinct;
use std::alloc::{AllocError, Global};

/// Rule 29, of a statement: `build` names a table operand.
pub fn builds_table(t: &Tables, scope: &Scope, x: &Stmt) -> bool
    ensures { result ≡ builds_table t.now scope.now (statement_of x.now) }
{
    match x {
        Stmt::Build(name) => is_table(kind_of(t, scope, name)),
        Stmt::Local(_, _, _) => true,
        Stmt::Declare(_, _, _) => true,
        Stmt::Assign(_, _) => true,
        Stmt::Goto(_) => true,
        Stmt::Branch(_, _) => true,
        Stmt::Call(_) => true,
        Stmt::Return(_) => true,
        Stmt::Export(_) => true,
        Stmt::Invoke(_, _) => true,
        Stmt::Label(_) => true,
    }
}

/// Adds the name that a `build` names.
fn add_built<'a>(names: &mut Vec<&'a [u8]>, x: &Stmt<'a>) -> Result<(), AllocError>
    ensures { OnOk result (map bytes names.new.items
        ≡ map bytes names.old.items ++ built (statement_of x.now)) }
{
    match x {
        Stmt::Build(name) => names.push(name)?,
        Stmt::Local(_, _, _) => {}
        Stmt::Declare(_, _, _) => {}
        Stmt::Assign(_, _) => {}
        Stmt::Goto(_) => {}
        Stmt::Branch(_, _) => {}
        Stmt::Call(_) => {}
        Stmt::Return(_) => {}
        Stmt::Export(_) => {}
        Stmt::Invoke(_, _) => {}
        Stmt::Label(_) => {}
    }
    Ok(())
}

/// The names that are built, in the order of the text.
fn built<'a>(alloc: Global, body: &[Stmt<'a>]) -> Result<Vec<&'a [u8]>, AllocError>
    ensures { IfOk result (λ names. map bytes names.items
        ≡ gathered built (statements_of body.now)) }
{
    let mut names = Vec::new(alloc);
    'body: for index in 0..body.len() {
        add_built(&mut names, &body[index])?;
    }
    Ok(names)
}

/// Whether each name is built at most once.
pub fn are_built_once(alloc: Global, body: &[Stmt]) -> Result<bool, AllocError>
    ensures { IfOk result (λ once. once ≡ are_distinct (gathered built (statements_of body.now))) }
{
    let names = built(alloc, body)?;
    are_distinct(alloc, names.as_slice())
}
