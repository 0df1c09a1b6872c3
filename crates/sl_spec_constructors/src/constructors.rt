//! Constructors: all rules by which one is judged, and what it adds.

ghost use Rattle.std.specs.Prelude.{◌≡◌, [], OnOk, IfOk};
ghost use Rattle.sl_spec_rules.specs.Demands.{Gives, first_broken};
ghost use Rattle.sl_spec_actions.specs.ActionNames.{action_names};
ghost use Rattle.sl_spec_actions.specs.ActionRules.{action_demands};
ghost use Rattle.sl_ast.specs.Unfolding.{written};
ghost use Rattle.sl_spec_constructors.specs.ConstructorRules.{is_of_root, may_begin};
ghost use Rattle.sl_spec_constructors.specs.ConstructorRules.{shows_operands};
ghost use Rattle.sl_spec_constructors.specs.FactSteps.{demands_before, demands_by};
ghost use Rattle.sl_spec_constructors.specs.FactSteps.{step_with};
ghost use Rattle.sl_spec_constructors.specs.Made.{IsMadeFor, StaysMade};
ghost use Rattle.sl_spec_constructors.specs.Operands.{operands};
ghost use Rattle.sl_spec_constructors.specs.Steps.{added, constructor_step, with_ctor};
ghost use Rattle.sl_spec_constructors.specs.WholeText.{table_name};
ghost use Rattle.sl_spec_actions.specs.Parts.{parts_of};
ghost use Rattle.sl_spec.specs.Unfolded.{placed};

use crate::displays::shows_operands;
use crate::facts::{PatternFacts, facts_of_unfolded};
use crate::made::MadeOfBlocks;
use crate::operands::{operand_names, operands, small, table_number};
use crate::patterns::are_few;
use crate::whole_text::table_name;
use sl_spec::{Ctor, CtorId, Named, Operand, Table, TableId, Tables, Unfolded};
use sl_spec_actions::{ActionFacts, judge_actions};
use sl_spec_registers::is_new;
use sl_spec_rules::{Fault, NameSet};
use std::alloc::{AllocError, Global};

/// Rule 3, of a table: it has a constructor before, or its name is new.
fn may_begin(t: &Tables, name: &[u8]) -> bool
    ensures { result ≡ may_begin t.now name.now }
{
    t.tables.has(name) || is_new(t, name)
}

/// Whether constructors of the table have mnemonics.
fn is_of_root(table: &[u8]) -> bool
    ensures { result ≡ is_of_root table.now }
{
    table == b"instruction".as_slice()
}

/// Rule 16 of a constructor of this table.
fn shows<'s, 'a>(t: &Tables<'a>, of: &Unfolded<'s, 'a>, names: &NameSet<'a>, table: &[u8]) -> bool
    ensures { result ≡ shows_operands t.now names.now (is_of_root table.now)
        (placed of.now).1.display }
{
    let own = of.own;
    shows_operands(t, names, is_of_root(table), own.display.as_slice())
}

/// The first rule that a pattern breaks, by what is said of it.
fn broken_in_pattern(
    alloc: Global,
    facts: &PatternFacts,
    names: &NameSet,
) -> Result<Option<u8>, AllocError>
    ensures { IfOk result (λ broken. broken ≡ first_broken (demands_by facts.now names.now [])) }
{
    if !facts.known {
        return Ok(Some(17));
    }
    if !are_few(alloc, facts.bare.as_slice(), names)? {
        return Ok(Some(18));
    }
    if !facts.allowed {
        return Ok(Some(19));
    }
    if !facts.valued {
        return Ok(Some(20));
    }
    Ok(None)
}

/// The first rule that a constructor breaks apart from its actions, by what is said of its pattern.
fn broken_before_actions<'s, 'a>(
    alloc: Global,
    t: &Tables<'a>,
    of: &Unfolded<'s, 'a>,
    facts: &PatternFacts<'a>,
    names: &NameSet<'a>,
) -> Result<Option<u8>, AllocError>
    ensures { IfOk result (λ broken. broken ≡ first_broken
        (demands_before t.now (placed of.now).1 facts.now names.now [])) }
{
    let table = table_name(of);
    if !may_begin(t, table) {
        return Ok(Some(3));
    }
    if !shows(t, of, names, table) {
        return Ok(Some(16));
    }
    broken_in_pattern(alloc, facts, names)
}

/// The operands of a constructor, by the bare names of its pattern and the names that its actions set.
fn operands_of<'a>(
    alloc: Global,
    tables: &Named<'a, Table<'a>>,
    t: &Tables<'a>,
    facts: &PatternFacts<'a>,
    given: &NameSet<'a>,
) -> Result<Vec<Operand<'a>>, AllocError>
    ensures { IfOk result (λ all. all.items
        ≡ operands t.now.fields tables.now facts.now.bare given.now) }
{
    operands(alloc, &t.fields, tables, facts.bare.as_slice(), given)
}

/// Adds a constructor to a table.
fn add<'a>(
    alloc: Global,
    t: &mut Tables<'a>,
    table: &'a [u8],
    constructor: Ctor<'a>,
) -> Result<(), AllocError>
    ensures { OnOk result (t.new ≡ with_ctor t.old table.now constructor.entry) }
{
    let number = small(t.constructors.len())?;
    t.tables.add_constructor(alloc, table, CtorId(number))?;
    t.constructors.push(constructor)?;
    Ok(())
}

/// Adds a constructor with these operands.
fn add_with<'s, 'a>(
    alloc: Global,
    tables: &Named<'a, Table<'a>>,
    t: &mut Tables<'a>,
    of: &Unfolded<'s, 'a>,
    operands: Vec<Operand<'a>>,
) -> Result<(), AllocError>
    ensures { OnOk result (t.new ≡ with_ctor t.old (table_name (placed of.now).1)
        (added tables.now (placed of.now).0 (placed of.now).1 operands.entry.items)) }
{
    let name = table_name(of);
    let number = table_number(tables, name)?;
    let added = Ctor {
        table: TableId(number),
        item: of.number,
        operands,
    };
    add(alloc, t, name, added)
}

/// Adds a constructor by what is said of its pattern and of its actions, or tells the first rule that
/// it breaks.
fn define_by<'s, 'a>(
    alloc: Global,
    tables: &Named<'a, Table<'a>>,
    t: &mut Tables<'a>,
    of: &Unfolded<'s, 'a>,
    facts: &PatternFacts<'a>,
    actions: &ActionFacts<'a>,
) -> Result<(), Fault>
    requires given { actions.now.given
        ≡ action_names t.old (written (placed of.now).1.actions) }
    requires broken { actions.now.broken ≡ first_broken (action_demands tables.now t.old
        (parts_of tables.now (placed of.now).1.pattern) (written (placed of.now).1.actions)) }
    ensures { Gives (λ _. t.new) result
        (step_with tables.now t.old (placed of.now).0 (placed of.now).1 facts.now) }
{
    let operands = operands_of(alloc, tables, t, facts, &actions.given)?;
    let names = operand_names(alloc, operands.as_slice())?;
    if let Some(rule) = broken_before_actions(alloc, t, of, facts, &names)? {
        return Err(Fault::Rule(rule));
    }
    if let Some(rule) = actions.broken {
        return Err(Fault::Rule(rule));
    }
    add_with(alloc, tables, t, of, operands)?;
    Ok(())
}

/// Defines a constructor (SLEIGH manual, "Constructors"). `tables` are all tables of the text.
/// `made` is what is made of the patterns and the actions of blocks, as long as nothing but
/// constructors is defined: of a block it is made once, and all constructors inside are judged by it.
/// The actions of a constructor are judged behind those of the blocks round it, by the names of the
/// whole pattern.
pub fn define_constructor<'s, 'a>(
    alloc: Global,
    tables: &Named<'a, Table<'a>>,
    t: &mut Tables<'a>,
    of: &Unfolded<'s, 'a>,
    made: &mut MadeOfBlocks<'a>,
) -> Result<(), Fault>
    requires { IsMadeFor tables.now t.old of.now.heads.items made.old }
    ensures gives { Gives (λ _. t.new) result
        (constructor_step tables.now t.old (placed of.now).0 (placed of.now).1) }
    ensures kept { IfOk result (λ _.
        StaysMade tables.now t.old of.now.heads.items made.old made.new) }
{
    let facts = facts_of_unfolded(alloc, &t.fields, tables, of, &mut made.facts)?;
    let actions = judge_actions(alloc, tables, t, of, &mut made.actions)?;
    define_by(alloc, tables, t, of, &facts, &actions)
}
