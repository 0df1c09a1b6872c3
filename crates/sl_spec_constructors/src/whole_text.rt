//! What the whole text says of its tables.

ghost use Rattle.std.specs.Prelude.{◌≡◌, OnOk, IfOk, unwrap_or};
ghost use Rattle.sl_spec_constructors.specs.WholeText.{all_tables, bare_table, table_name};
ghost use Rattle.sl_spec_constructors.specs.WholeText.{with_table};
ghost use Rattle.sl_ast.specs.Views.{head_of};
ghost use Rattle.sl_spec_constructors.specs.Blocks.{table_inside};
ghost use Rattle.sl_spec.specs.Unfolded.{all_placed, placed};

use sl_ast::constructors::Head;
use sl_spec::{Named, Table, Unfolded};
use std::alloc::{AllocError, Global};

/// The table of a block's head, or else this one.
fn table_inside<'a>(head: &Head<'a>, table: &'a [u8]) -> &'a [u8]
    ensures { result.now ≡ table_inside (head_of head.now) table.now }
{
    match head.table {
        Some(own) => own,
        None => table,
    }
}

/// The table of a constructor: its own, or that of the innermost block round it that names one, or
/// `instruction`.
pub fn table_name<'s, 'a>(of: &Unfolded<'s, 'a>) -> &'a [u8]
    ensures { result.now ≡ table_name (placed of.now).1 }
{
    let heads = of.heads.as_slice();
    let mut table = b"instruction".as_slice();
    'heads: for index in 0..heads.len() {
        let head = heads[index].head;
        table = table_inside(head, table);
    }
    let own = of.own;
    match own.table {
        Some(own) => own,
        None => table,
    }
}

/// Adds a table, if it isn't there.
fn add_table<'a>(
    alloc: Global,
    tables: &mut Named<'a, Table<'a>>,
    name: &'a [u8],
) -> Result<(), AllocError>
    ensures { OnOk result (tables.new ≡ with_table tables.old name.now) }
{
    if !tables.has(name) {
        let constructors = Vec::new(alloc);
        tables.add(name, Table { name, constructors })?;
    }
    Ok(())
}

/// All tables of a text in the order of their first constructors, `instruction` first, without the
/// numbers of their constructors.
pub fn all_tables<'s, 'a>(
    alloc: Global,
    constructors: &[Unfolded<'s, 'a>],
) -> Result<Named<'a, Table<'a>>, AllocError>
    ensures { IfOk result (λ tables. tables ≡ all_tables (all_placed constructors.now)) }
{
    let mut tables = Named::new(alloc);
    add_table(alloc, &mut tables, b"instruction".as_slice())?;
    'constructors: for index in 0..constructors.len() {
        let name = table_name(&constructors[index]);
        add_table(alloc, &mut tables, name)?;
    }
    Ok(tables)
}
