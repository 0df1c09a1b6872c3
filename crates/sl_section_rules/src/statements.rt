//! The names of statements.

ghost use Rattle.std.specs.Prelude.{◌≡◌, OnOk, option_map};
ghost use Rattle.std.specs.List.{list_all};
ghost use Rattle.sl_ast.specs.Trees as trees;
ghost use Rattle.sl_ast.specs.Views as a;
ghost use Rattle.sl_ast.specs.Views.{bytes, expression_of, expressions_of};
ghost use Rattle.sl_ast.specs.Views.{statement_of};
ghost use Rattle.sl_section_rules.specs.Known.{dest_knows, direct_knows, export_knows};
ghost use Rattle.sl_section_rules.specs.Known.{is_new_local, knows_names, left_after, left_knows};
ghost use Rattle.sl_section_rules.specs.Known.{names_after, statement_knows, target_knows};
ghost use Rattle.sl_section_rules.specs.Known.{value_knows, with_new};

use crate::expressions::{is_context, knows, knows_names};
use sl_ast::expressions::Expr;
use sl_ast::statements::{Dest, Direct, Exported, Left, Pointer, Stmt, Target};
use sl_section_flat::Symbol;
use sl_section_terms::{Names, add_symbol};
use sl_spec::{Named, Table, Tables};
use sl_spec_actions::is_global;
use std::alloc::AllocError;

fn value_knows(t: &Tables, context: Option<&[u8]>, names: &Names, value: &Option<Expr>) -> bool
    ensures { result ≡ value_knows t.now (option_map bytes context.entry) names.now
        (option_map expression_of value.now) }
{
    match value {
        Some(e) => knows_names(t, context, names, e),
        None => true,
    }
}

fn direct_knows(t: &Tables, context: Option<&[u8]>, names: &Names, to: &Direct) -> bool
    ensures { result ≡ direct_knows t.now (option_map bytes context.entry) names.now
        (a.direct_of to.now) }
{
    match to {
        Direct::Label(_) => true,
        Direct::Name(name) => knows(t, context, names, name),
        Direct::Integer(_) => true,
    }
}

fn dest_knows(t: &Tables, context: Option<&[u8]>, names: &Names, to: &Dest) -> bool
    ensures { result ≡ dest_knows t.now (option_map bytes context.entry) names.now
        (a.dest_of to.now) }
{
    match to {
        Dest::Direct(to) => direct_knows(t, context, names, to),
        Dest::Computed(e) => knows_names(t, context, names, e),
    }
}

fn target_knows(t: &Tables, context: Option<&[u8]>, names: &Names, to: &Target) -> bool
    ensures { result ≡ target_knows t.now (option_map bytes context.entry) names.now
        (a.target_of to.now) }
{
    match to {
        Target::Name(name) => knows(t, context, names, name),
        Target::Integer(_) => true,
        Target::Computed(e) => knows_names(t, context, names, e),
    }
}

fn export_knows(t: &Tables, context: Option<&[u8]>, names: &Names, what: &Exported) -> bool
    ensures { result ≡ export_knows t.now (option_map bytes context.entry) names.now
        (a.exported_of what.now) }
{
    match what {
        Exported::Name(name) => knows(t, context, names, name),
        Exported::Star(_, Pointer::Name(name)) => knows(t, context, names, name),
        Exported::Star(_, Pointer::Integer(_)) => true,
    }
}

/// Whether a local is no operand, no parameter, no global name, and not declared before.
fn is_new_local(all: &Named<Table>, t: &Tables, names: &Names, name: &[u8]) -> bool
    ensures { result ≡ is_new_local t.now names.now all.now name.now }
{
    !is_global(all, t, name) && !names.own.has(name)
}

fn left_knows(
    all: &Named<Table>,
    t: &Tables,
    context: Option<&[u8]>,
    names: &Names,
    left: &Left,
) -> bool
    ensures { result ≡ left_knows t.now (option_map bytes context.entry) names.now all.now
        (a.left_of left.now) }
{
    match left {
        Left::Name(name) => {
            if names.symbol_named(t, name).is_some() {
                !is_context(context, name)
            } else {
                is_new_local(all, t, names, name)
            }
        }
        Left::Bits(name, _, _) => knows(t, context, names, name),
        Left::Star(_, p) => knows_names(t, context, names, p),
    }
}

fn all_know(t: &Tables, context: Option<&[u8]>, names: &Names, es: &[Expr]) -> bool
    ensures { result ≡ list_all (knows_names t.now (option_map bytes context.entry) names.now)
        (expressions_of es.now) }
{
    'given: for index in 0..es.len() {
        if !knows_names(t, context, names, &es[index]) {
            return false;
        }
    }
    true
}

/// Rule 26, of a statement's names: each stands for something, by what is defined before its section
/// or macro, and not for the context's register; a local that it declares is new; a space that is
/// read is defined. `all` are all tables of the text, `context` is the name of the context's
/// register, `names` are the operands or parameters and the locals that are declared by now.
pub fn statement_knows(
    all: &Named<Table>,
    t: &Tables,
    context: Option<&[u8]>,
    names: &Names,
    x: &Stmt,
) -> bool
    ensures { result ≡ statement_knows t.now (option_map bytes context.entry) names.now all.now
        (statement_of x.now) }
{
    match x {
        Stmt::Local(name, _, value) => {
            value_knows(t, context, names, value) && is_new_local(all, t, names, name)
        }
        Stmt::Declare(name, _, e) => {
            knows_names(t, context, names, e) && is_new_local(all, t, names, name)
        }
        Stmt::Assign(left, e) => {
            left_knows(all, t, context, names, left) && knows_names(t, context, names, e)
        }
        Stmt::Goto(to) => dest_knows(t, context, names, to),
        Stmt::Branch(e, to) => {
            knows_names(t, context, names, e) && direct_knows(t, context, names, to)
        }
        Stmt::Call(to) => target_knows(t, context, names, to),
        Stmt::Return(e) => knows_names(t, context, names, e),
        Stmt::Build(name) => knows(t, context, names, name),
        Stmt::Export(what) => export_knows(t, context, names, what),
        Stmt::Invoke(_, es) => all_know(t, context, names, es.as_slice()),
        Stmt::Label(_) => true,
    }
}

/// Adds a local.
fn add_new<'a>(names: &mut Names<'a>, name: &'a [u8]) -> Result<(), AllocError>
    ensures { OnOk result (names.new ≡ with_new names.old name.now) }
{
    add_symbol(&mut names.own, name, Symbol::Local(0))
}

/// Adds the local that an assignment declares, if it declares one.
fn go_left<'a>(t: &Tables<'a>, names: &mut Names<'a>, left: &Left<'a>) -> Result<(), AllocError>
    ensures { OnOk result (names.new ≡ left_after t.now names.old (a.left_of left.now)) }
{
    match left {
        Left::Name(name) => {
            if names.symbol_named(t, name).is_some() {
                return Ok(());
            }
            add_new(names, name)
        }
        Left::Bits(_, _, _) => Ok(()),
        Left::Star(_, _) => Ok(()),
    }
}

/// Adds the local that a statement declares, if it declares one.
pub fn go_on<'a>(t: &Tables<'a>, names: &mut Names<'a>, x: &Stmt<'a>) -> Result<(), AllocError>
    ensures { OnOk result (names.new ≡ names_after t.now names.old (statement_of x.now)) }
{
    match x {
        Stmt::Local(name, _, _) => add_new(names, name),
        Stmt::Declare(name, _, _) => add_new(names, name),
        Stmt::Assign(left, _) => go_left(t, names, left),
        Stmt::Goto(_) => Ok(()),
        Stmt::Branch(_, _) => Ok(()),
        Stmt::Call(_) => Ok(()),
        Stmt::Return(_) => Ok(()),
        Stmt::Build(_) => Ok(()),
        Stmt::Export(_) => Ok(()),
        Stmt::Invoke(_, _) => Ok(()),
        Stmt::Label(_) => Ok(()),
    }
}
