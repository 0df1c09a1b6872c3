//! What is known before an item, and rule 1.

ghost use Rattle.std.specs.Prelude.{◌≡◌, IfErr, IfOk};
ghost use Rattle.sl_ast.specs.Views.{item_of};
ghost use Rattle.sl_spec_rules.specs.Demands.{Gives};
ghost use Rattle.sl_spec_rules.specs.declared.fault.Fault.{Fault};
ghost use Rattle.sl_spec_definitions.specs.Beginning.{begin, is_due, is_endian, no_tables, opening};

use sl_ast::definitions::Definition;
use sl_ast::items::{Item, ItemKind};
use sl_spec::{Attachments, Listed, Named, Table, Tables};
use sl_spec_rules::Fault;
use sl_word::Endian;
use std::alloc::{AllocError, Global};

/// The tables so far, and what the rules of later items ask about earlier ones. Contracts see it as
/// it stands here.
#[derive(Drop)]
pub struct Known<'a> {
    pub tables: Tables<'a>,
    /// Whether an item was taken.
    pub begun: bool,
    /// Whether a `define alignment` was taken.
    pub alignment_stands: bool,
}

/// The table `instruction` without constructors, and nothing else.
fn no_tables<'a>(alloc: Global) -> Result<Tables<'a>, AllocError>
    ensures { IfOk result (λ t. t ≡ no_tables) }
{
    let name = b"instruction".as_slice();
    let mut tables = Named::new(alloc);
    let constructors = Vec::new(alloc);
    tables.add(name, Table { name, constructors })?;
    Ok(Tables {
        endian: Endian::Little,
        alignment: 1,
        spaces: Named::new(alloc),
        registers: Named::new(alloc),
        bitranges: Named::new(alloc),
        tokens: Named::new(alloc),
        fields: Named::new(alloc),
        context: None,
        attached: Attachments::new(alloc),
        tables,
        constructors: Listed::new(alloc),
        macros: Named::new(alloc),
        userops: Named::new(alloc),
    })
}

/// What is known before the first item: little-endian, alignment 1, and the table `instruction`
/// without constructors.
pub fn opening<'a>(alloc: Global) -> Result<Known<'a>, AllocError>
    ensures { IfOk result (λ known. known ≡ opening) }
{
    let tables = no_tables(alloc)?;
    Ok(Known {
        tables,
        begun: false,
        alignment_stands: false,
    })
}

/// Whether the item is a `define endian`.
pub fn is_endian(item: &Item) -> bool
    ensures { result ≡ is_endian (item_of item.now) }
{
    matches!(&item.kind, ItemKind::Define(Definition::Endian(_)))
}

/// Rule 1: a `define endian` is the first item, and no later one.
fn is_due(begun: bool, gives_endian: bool) -> bool
    ensures { result ≡ is_due begun gives_endian }
{
    if begun { !gives_endian } else { gives_endian }
}

/// Begins an item: rule 1, the first one of every item, by whether it is a `define endian`.
pub fn begin(known: &mut Known, gives_endian: bool) -> Result<(), Fault>
    ensures step { Gives (λ _. known.new) result (begin known.old gives_endian) }
    ensures takes_no_memory { IfErr result (λ fault. fault ≡ Fault.Rule 1) }
{
    if !is_due(known.begun, gives_endian) {
        return Err(Fault::Rule(1));
    }
    known.begun = true;
    Ok(())
}
