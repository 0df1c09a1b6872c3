//! How many tokens statements have.

ghost use Rattle.std.specs.Prelude.{◌≡◌, ◌≤◌, min, option_map};
ghost use Rattle.sl_ast.specs.Views.{dest_of, direct_of, exported_of, expression_of, left_of};
ghost use Rattle.sl_ast.specs.Views.{statement_of, target_of};
ghost use Rattle.sl_section_weights.specs.Sizes.{dest_size, direct_size, exported_size, left_size};
ghost use Rattle.sl_section_weights.specs.Sizes.{if_written, statement_size, target_size};
ghost use Rattle.sl_section_weights.specs.Sizes.{value_size};

use crate::sizes::{arguments_size, expression_size, star_size, sum};
use sl_ast::expressions::Expr;
use sl_ast::statements::{Dest, Direct, Exported, Left, Stmt, Target};

fn value_size(value: &Option<Expr>) -> usize
    ensures { result ≡ min (value_size (option_map expression_of value.now)) 65537 }
{
    match value {
        Some(e) => sum(expression_size(e), 1),
        None => 0,
    }
}

fn written_size(size: Option<u64>) -> usize
    ensures value { result ≡ if_written 2 size }
    ensures few { result ≤ 2 }
{
    if size.is_some() { 2 } else { 0 }
}

fn left_size(left: &Left) -> usize
    ensures { result ≡ min (left_size (left_of left.now)) 65537 }
{
    match left {
        Left::Name(_) => 1,
        Left::Bits(_, _, _) => 6,
        Left::Star(form, e) => sum(expression_size(e), star_size(form.space, form.size)),
    }
}

fn direct_size(to: Direct) -> usize
    ensures value { result ≡ direct_size (direct_of to.entry) }
    ensures few { result ≤ 3 }
{
    match to {
        Direct::Label(_) => 3,
        Direct::Name(_) => 1,
        Direct::Integer(_) => 1,
    }
}

fn dest_size(to: &Dest) -> usize
    ensures { result ≡ min (dest_size (dest_of to.now)) 65537 }
{
    match to {
        Dest::Direct(to) => direct_size(*to),
        Dest::Computed(e) => sum(expression_size(e), 2),
    }
}

fn target_size(to: &Target) -> usize
    ensures { result ≡ min (target_size (target_of to.now)) 65537 }
{
    match to {
        Target::Name(_) => 1,
        Target::Integer(_) => 1,
        Target::Computed(e) => sum(expression_size(e), 2),
    }
}

fn exported_size(what: &Exported) -> usize
    ensures value { result ≡ exported_size (exported_of what.now) }
    ensures few { result ≤ 7 }
{
    match what {
        Exported::Name(_) => 1,
        Exported::Star(form, _) => 1 + star_size(form.space, form.size),
    }
}

/// The tokens of a statement.
pub fn statement_size(of: &Stmt) -> usize
    ensures { result ≡ min (statement_size (statement_of of.now)) 65537 }
{
    match of {
        Stmt::Local(_, size, value) => sum(value_size(value), 3 + written_size(*size)),
        Stmt::Declare(_, _, e) => sum(expression_size(e), 5),
        Stmt::Assign(left, e) => sum(left_size(left), sum(expression_size(e), 2)),
        Stmt::Goto(to) => sum(dest_size(to), 2),
        Stmt::Branch(e, to) => sum(expression_size(e), 3 + direct_size(*to)),
        Stmt::Call(to) => sum(target_size(to), 2),
        Stmt::Return(e) => sum(expression_size(e), 4),
        Stmt::Build(_) => 3,
        Stmt::Export(what) => exported_size(what) + 2,
        Stmt::Invoke(_, es) => sum(arguments_size(es.as_slice()).max(1), 3),
        Stmt::Label(_) => 3,
    }
}
