//! The operands of a constructor.

ghost use Rattle.std.specs.Prelude.{◌≡◌, ◌++◌, ◌∷◌, [], OnOk, IfOk};
ghost use Rattle.std.specs.Prelude.{map, drop, fold, length, unwrap_or, ◌<◌, ◌+◌};
ghost use Rattle.sl_spec_constructors.specs.Operands.{action_operands, bare_names, bare_operand};
ghost use Rattle.sl_spec_constructors.specs.Operands.{is_epsilon, is_operand, operand_names};
ghost use Rattle.sl_spec_constructors.specs.Operands.{operands};
ghost use Rattle.sl_spec_actions.specs.ActionNames.{with_name};
ghost use Rattle.sl_spec.specs.Named.{index_named};

use sl_spec::{Field, FieldId, Means, Named, Operand, Table, TableId};
use sl_spec_actions::Part;
use sl_spec_rules::NameSet;
use std::alloc::{AllocError, Global};

/// Whether it is the empty pattern.
pub fn is_epsilon(name: &[u8]) -> bool
    ensures { result ≡ is_epsilon name.now }
{
    name == b"epsilon".as_slice()
}

/// Whether a part stands alone, and not for the empty pattern.
fn is_operand(part: &Part) -> bool
    ensures { result ≡ is_operand part.now }
{
    part.bare && !is_epsilon(part.name)
}

/// Adds the name of a part, if it is bare and not `epsilon`.
pub fn add_bare<'a>(names: &mut Vec<&'a [u8]>, part: &Part<'a>) -> Result<(), AllocError>
    ensures { OnOk result (map (λ n. n.now) names.new.items
        ≡ map (λ n. n.now) names.old.items ++ bare_names (part.now ∷ [])) }
{
    if is_operand(part) {
        names.push(part.name)?;
    }
    Ok(())
}

/// A number of 32 bits. One that is larger would be want of memory.
pub fn small(number: usize) -> Result<u32, AllocError>
    ensures { IfOk result (λ n. n ≡ number) }
{
    match u32::try_from(number) {
        Ok(number) => Ok(number),
        Err(_) => Err(AllocError),
    }
}

/// The number of a table of the whole text; 0 where there is none.
pub fn table_number<'a>(tables: &Named<'a, Table<'a>>, name: &[u8]) -> Result<u32, AllocError>
    ensures { IfOk result (λ n.
        n ≡ unwrap_or (index_named (λ b. b.name) name.now tables.now) 0) }
{
    match tables.index_of(name) {
        Some(index) => small(index),
        None => Ok(0),
    }
}

/// The operand of a bare name: a field that is defined before, or else a table of the whole text.
fn bare_operand<'a>(
    fields: &Named<'a, Field<'a>>,
    tables: &Named<'a, Table<'a>>,
    name: &'a [u8],
) -> Result<Operand<'a>, AllocError>
    ensures { IfOk result (λ o. o ≡ bare_operand fields.now tables.now name.now) }
{
    match fields.index_of(name) {
        Some(field) => {
            let number = small(field)?;
            let means = Means::Field(FieldId(number));
            Ok(Operand { name, means })
        }
        None => {
            let number = table_number(tables, name)?;
            let means = Means::Table(TableId(number));
            Ok(Operand { name, means })
        }
    }
}

/// Adds the operands of bare names.
fn add_bare_operands<'a>(
    all: &mut Vec<Operand<'a>>,
    fields: &Named<'a, Field<'a>>,
    tables: &Named<'a, Table<'a>>,
    bare: &[&'a [u8]],
) -> Result<(), AllocError>
    ensures { OnOk result (all.new.items ≡ all.old.items
        ++ map (bare_operand fields.now tables.now) (map (λ n. n.now) bare.now)) }
{
    'bare: for index in 0..bare.len() {
        let operand = bare_operand(fields, tables, bare[index])?;
        all.push(operand)?;
    }
    Ok(())
}

/// Adds the operand of the action name at an index, if there is one.
fn add_action_operand<'a>(
    all: &mut Vec<Operand<'a>>,
    given: &NameSet<'a>,
    index: usize,
) -> Result<(), AllocError>
    requires { index < length given.now }
    ensures { OnOk result (all.new.items ++ action_operands (index + 1) (drop (index + 1) given.now)
        ≡ all.old.items ++ action_operands index (drop index given.now)) }
{
    if let Some(name) = given.at(index) {
        let number = small(index)?;
        let means = Means::Action(number);
        all.push(Operand { name, means })?;
    }
    Ok(())
}

/// Adds the operands of action names.
fn add_action_operands<'a>(
    all: &mut Vec<Operand<'a>>,
    given: &NameSet<'a>,
) -> Result<(), AllocError>
    ensures { OnOk result (all.new.items ≡ all.old.items ++ action_operands 0 given.now) }
{
    'given: for index in 0..given.len() {
        add_action_operand(all, given, index)?;
    }
    Ok(())
}

/// The operands of bare names, and then those of action names.
pub fn operands<'a>(
    alloc: Global,
    fields: &Named<'a, Field<'a>>,
    tables: &Named<'a, Table<'a>>,
    bare: &[&'a [u8]],
    given: &NameSet<'a>,
) -> Result<Vec<Operand<'a>>, AllocError>
    ensures { IfOk result (λ all. all.items
        ≡ operands fields.now tables.now (map (λ n. n.now) bare.now) given.now) }
{
    let mut all = Vec::new(alloc);
    add_bare_operands(&mut all, fields, tables, bare)?;
    add_action_operands(&mut all, given)?;
    Ok(all)
}

/// Adds the name of an operand, which stands once.
fn add_name<'a>(names: &mut NameSet<'a>, operand: &Operand<'a>) -> Result<(), AllocError>
    ensures { OnOk result (names.new ≡ with_name names.old operand.now.name) }
{
    if !names.has(operand.name) {
        names.add(operand.name)?;
    }
    Ok(())
}

/// The names of operands, each once.
pub fn operand_names<'a>(alloc: Global, operands: &[Operand<'a>]) -> Result<NameSet<'a>, AllocError>
    ensures { IfOk result (λ names. names ≡ operand_names operands.now) }
{
    let mut names = NameSet::new(alloc);
    'operands: for index in 0..operands.len() {
        add_name(&mut names, &operands[index])?;
    }
    Ok(names)
}
