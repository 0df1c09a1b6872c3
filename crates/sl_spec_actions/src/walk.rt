//! Patterns as lists of their parts.

ghost use Rattle.std.specs.Prelude.{◌≡◌, ◌++◌, ◌∷◌, [], OnOk, IfOk};
ghost use Rattle.sl_ast.specs.Views.{pattern_of};
ghost use Rattle.sl_spec_actions.specs.Parts.{holds_table, is_table, parts, parts_of};
ghost use Rattle.sl_spec_actions.specs.Parts as spec;

use crate::part::Part;
use sl_ast::patterns::{Pattern, PatternOp};
use sl_spec::{Listed, Named, Table};
use std::alloc::{AllocError, Global};

/// Whether one of the tables has the name.
pub fn is_table<'a>(tables: &Named<'a, Table<'a>>, name: &[u8]) -> bool
    ensures { result ≡ is_table tables.now name.now }
{
    tables.has(name)
}

/// Whether the right side of an operator stands behind a table.
fn is_behind(op: PatternOp, behind: bool, holds: bool) -> bool
    ensures { result ≡ spec.is_behind op behind holds }
{
    match op {
        PatternOp::Then => behind || holds,
        PatternOp::And => behind,
        PatternOp::Or => behind,
    }
}

/// Whether the sides of an operator stand inside `|`.
fn is_in_choice(op: PatternOp, in_choice: bool) -> bool
    ensures { result ≡ spec.is_in_choice op in_choice }
{
    match op {
        PatternOp::Or => true,
        PatternOp::And => in_choice,
        PatternOp::Then => in_choice,
    }
}

/// Adds the parts of a pattern. Tells whether it holds a table.
#[tactic(auto, unfolding(crate::specs::Parts::parts))]
fn add_parts<'a>(
    tables: &Named<'a, Table<'a>>,
    in_choice: bool,
    behind_table: bool,
    pattern: &Pattern<'a>,
    all: &mut Listed<Part<'a>>,
) -> Result<bool, AllocError>
    ensures added { OnOk result (all.new ≡ all.old
        ++ parts (is_table tables.now) in_choice behind_table (pattern_of pattern.now)) }
    ensures holds { IfOk result (λ holds.
        holds ≡ holds_table (is_table tables.now) (pattern_of pattern.now)) }
{
    match pattern {
        Pattern::Name(name) => {
            all.push(Part {
                name,
                bare: true,
                in_choice,
                behind_table,
            })?;
            Ok(is_table(tables, name))
        }
        Pattern::Constraint(name, _, _) => {
            all.push(Part {
                name,
                bare: false,
                in_choice,
                behind_table,
            })?;
            Ok(false)
        }
        Pattern::Paren(inner) => add_parts(tables, in_choice, behind_table, inner, all),
        Pattern::Ellipsis(inner) => add_parts(tables, in_choice, behind_table, inner, all),
        Pattern::Joined(op, left, right) => {
            let inside = is_in_choice(*op, in_choice);
            let first = add_parts(tables, inside, behind_table, left, all)?;
            let next = is_behind(*op, behind_table, first);
            let second = add_parts(tables, inside, next, right, all)?;
            Ok(first || second)
        }
    }
}

/// The parts of a whole pattern. `tables` are all tables of the text.
pub fn parts_of<'a>(
    alloc: Global,
    tables: &Named<'a, Table<'a>>,
    pattern: &Pattern<'a>,
) -> Result<Listed<Part<'a>>, AllocError>
    ensures { IfOk result (λ all. all ≡ parts_of tables.now (pattern_of pattern.now)) }
{
    let mut all = Listed::new(alloc);
    add_parts(tables, false, false, pattern, &mut all)?;
    Ok(all)
}
