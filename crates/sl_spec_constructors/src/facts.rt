//! What rules 17 to 20 say of patterns, which is made once for each block.

ghost use Rattle.std.specs.Prelude.{◌≡◌, ◌∷◌, [], OnOk, IfOk};
ghost use Rattle.sl_ast.specs.Views.{expression_of, head_of, pattern_of};
ghost use Rattle.sl_spec_constructors.specs.Facts.{AreOfHead, both, facts_of, no_facts};
ghost use Rattle.sl_spec_constructors.specs.FactSteps.{with_head, with_part, with_pattern};
ghost use Rattle.sl_spec_constructors.specs.FactSteps.{with_value};
ghost use Rattle.sl_spec_actions.specs.Parts.{is_in_choice};
ghost use Rattle.sl_spec.specs.Numbers.{AreMadeFor, KeepsMade};
ghost use Rattle.sl_spec.specs.Unfolded.{placed};

use crate::constraints::constraint_value;
use crate::operands::add_bare;
use crate::patterns::{is_allowed_there, is_known};
use sl_ast::constructors::Head;
use sl_ast::expressions::Expr;
use sl_ast::patterns::{Pattern, PatternOp};
use sl_spec::{Around, ByBlock, Field, Named, Table, Unfolded};
use sl_spec_actions::Part;
use std::alloc::{AllocError, Global};
use std::marker::Model;

/// What rules 17 to 20 say of a pattern alone.
#[derive(Drop)]
pub struct PatternFacts<'a> {
    /// Rule 17.
    pub(crate) known: bool,
    /// Rule 19.
    pub(crate) allowed: bool,
    /// Rule 20.
    pub(crate) valued: bool,
    /// The bare names but `epsilon`, in the text's order: those of the operands and of rule 18.
    pub(crate) bare: Vec<&'a [u8]>,
}

impl<'a> Model for PatternFacts<'a> {
    ghost use Rattle.std.specs.Prelude.{map};
    ghost use Rattle.sl_spec_constructors.specs.Facts as spec;

    ghost Value = { spec.PatternFacts };

    ghost view = { λ f. record {
      known = f.known;
      allowed = f.allowed;
      valued = f.valued;
      bare = map (λ n. n.now) f.bare.items;
    } };
}

/// What is said of no pattern.
fn no_facts<'a>(alloc: Global) -> PatternFacts<'a>
    ensures { result ≡ no_facts }
{
    PatternFacts {
        known: true,
        allowed: true,
        valued: true,
        bare: Vec::new(alloc),
    }
}

/// Adds what is said of another pattern.
fn add_facts<'a>(all: &mut PatternFacts<'a>, more: &PatternFacts<'a>) -> Result<(), AllocError>
    ensures { OnOk result (all.new ≡ both all.old more.now) }
{
    all.known = all.known && more.known;
    all.allowed = all.allowed && more.allowed;
    all.valued = all.valued && more.valued;
    all.bare.extend_from_slice(more.bare.as_slice())
}

/// Adds what is said of a part.
fn add_part<'a>(
    fields: &Named<'a, Field<'a>>,
    tables: &Named<'a, Table<'a>>,
    part: &Part<'a>,
    all: &mut PatternFacts<'a>,
) -> Result<(), AllocError>
    ensures { OnOk result (all.new ≡ with_part fields.now tables.now all.old part.now) }
{
    all.known = all.known && is_known(fields, tables, part);
    all.allowed = all.allowed && is_allowed_there(part);
    add_bare(&mut all.bare, part)
}

/// Adds whether the expression of a constraint has a value.
fn add_value(value: &Expr, all: &mut PatternFacts)
    ensures { all.new ≡ with_value all.old (expression_of value.now) }
{
    all.valued = all.valued && constraint_value(value).is_some();
}

/// Whether the sides of an operator stand inside `|`.
fn is_in_choice(op: PatternOp, in_choice: bool) -> bool
    ensures { result ≡ is_in_choice op in_choice }
{
    in_choice || op == PatternOp::Or
}

/// Adds what is said of a pattern, part by part.
#[tactic(auto, unfolding(crate::specs::FactSteps::with_pattern))]
fn add_pattern<'a>(
    fields: &Named<'a, Field<'a>>,
    tables: &Named<'a, Table<'a>>,
    in_choice: bool,
    pattern: &Pattern<'a>,
    all: &mut PatternFacts<'a>,
) -> Result<(), AllocError>
    ensures { OnOk result (all.new
        ≡ with_pattern fields.now tables.now all.old in_choice (pattern_of pattern.now)) }
{
    match pattern {
        Pattern::Name(name) => {
            let part = Part {
                name,
                bare: true,
                in_choice,
                behind_table: false,
            };
            add_part(fields, tables, &part, all)
        }
        Pattern::Constraint(name, _, value) => {
            let part = Part {
                name,
                bare: false,
                in_choice,
                behind_table: false,
            };
            add_value(value, all);
            add_part(fields, tables, &part, all)
        }
        Pattern::Paren(inner) => add_pattern(fields, tables, in_choice, inner, all),
        Pattern::Ellipsis(inner) => add_pattern(fields, tables, in_choice, inner, all),
        Pattern::Joined(op, left, right) => {
            let inside = is_in_choice(*op, in_choice);
            add_pattern(fields, tables, inside, left, all)?;
            add_pattern(fields, tables, inside, right, all)
        }
    }
}

/// What is said of a pattern.
fn facts_of<'a>(
    alloc: Global,
    fields: &Named<'a, Field<'a>>,
    tables: &Named<'a, Table<'a>>,
    pattern: &Pattern<'a>,
) -> Result<PatternFacts<'a>, AllocError>
    ensures { IfOk result (λ facts. facts
        ≡ facts_of fields.now tables.now (pattern_of pattern.now)) }
{
    let mut all = no_facts(alloc);
    add_pattern(fields, tables, false, pattern, &mut all)?;
    Ok(all)
}

/// What is said of the pattern of a block, if it has one.
fn facts_of_head<'a>(
    alloc: Global,
    fields: &Named<'a, Field<'a>>,
    tables: &Named<'a, Table<'a>>,
    head: &Head<'a>,
) -> Result<PatternFacts<'a>, AllocError>
    ensures { IfOk result (AreOfHead fields.now tables.now (head_of head.now)) }
{
    match &head.pattern {
        Some(pattern) => facts_of(alloc, fields, tables, pattern),
        None => Ok(no_facts(alloc)),
    }
}

/// Adds what is said of the pattern of a block, which is made if it wasn't yet.
fn add_block<'s, 'a>(
    alloc: Global,
    fields: &Named<'a, Field<'a>>,
    tables: &Named<'a, Table<'a>>,
    around: Around<'s, 'a>,
    made: &mut ByBlock<PatternFacts<'a>>,
    all: &mut PatternFacts<'a>,
) -> Result<(), AllocError>
    requires { AreMadeFor (AreOfHead fields.now tables.now) (around ∷ []) made.old }
    ensures added { OnOk result
        (all.new ≡ with_head fields.now tables.now all.old (head_of around.entry.head.now)) }
    ensures kept { OnOk result
        (KeepsMade (AreOfHead fields.now tables.now) (around.entry ∷ []) made.old made.new) }
{
    match made.get(around.number) {
        Some(facts) => {
            add_facts(all, facts)?;
            Ok(())
        }
        None => {
            let facts = facts_of_head(alloc, fields, tables, around.head)?;
            add_facts(all, &facts)?;
            made.put(around.number, facts)?;
            Ok(())
        }
    }
}

/// What rules 17 to 20 say of the pattern of a constructor, with those of the blocks round it.
pub(crate) fn facts_of_unfolded<'s, 'a>(
    alloc: Global,
    fields: &Named<'a, Field<'a>>,
    tables: &Named<'a, Table<'a>>,
    of: &Unfolded<'s, 'a>,
    made: &mut ByBlock<PatternFacts<'a>>,
) -> Result<PatternFacts<'a>, AllocError>
    requires { AreMadeFor (AreOfHead fields.now tables.now) of.now.heads.items made.old }
    ensures facts { IfOk result (λ facts. facts
        ≡ facts_of fields.now tables.now (placed of.now).1.pattern) }
    ensures kept { IfOk result (λ _.
        KeepsMade (AreOfHead fields.now tables.now) of.now.heads.items made.old made.new) }
{
    let heads = of.heads.as_slice();
    let mut all = no_facts(alloc);
    'heads: for index in 0..heads.len() {
        add_block(alloc, fields, tables, heads[index], made, &mut all)?;
    }
    add_pattern(fields, tables, false, &of.own.pattern, &mut all)?;
    Ok(all)
}
