//! Constructors with their flat sections.

ghost use Rattle.std.specs.Prelude.{◌≡◌, ◌++◌, map, option_to_list, slice_get, IfOk, OnOk};
ghost use Rattle.std.specs.List.{zip};
ghost use Rattle.sl_section_all.specs.Views.{flat_of, flats_of};
ghost use Rattle.sl_section_sizes.specs.Ordering.{in_order, with_section};
ghost use Rattle.sl_section_sizes.specs.Rows.{lists_meant, tables_meant};
ghost use Rattle.sl_section_sizes.specs.ConstructorViews.{constructor_of, constructors_of};

use crate::constructor::Constructor;
use sl_section_flat::Section;
use sl_spec::{Ctor, TableId};
use std::alloc::{AllocError, Global};

/// The number of a table.
fn number(table: TableId) -> u32
    ensures { result ≡ table }
{
    table.0
}

/// A constructor with its section. `operands` are the tables that its operands are.
fn with_section<'s, 'a: 's>(
    ctor: &Ctor<'a>,
    operands: &'s [Option<u32>],
    section: &'s Section<'a>,
) -> Constructor<'s, 'a>
    requires { operands.now ≡ tables_meant ctor.now.operands }
    ensures { constructor_of result ≡ with_section ctor.now (flat_of section.now) }
{
    Constructor {
        table: number(ctor.table),
        operands,
        section,
    }
}

/// The constructors with their sections, as far as there are sections. `operands` has the tables
/// that their operands are.
pub fn with_sections<'s, 'a: 's>(
    alloc: Global,
    ctors: &[Ctor<'a>],
    operands: &'s [Vec<Option<u32>>],
    sections: &'s [Section<'a>],
) -> Result<Vec<Constructor<'s, 'a>>, AllocError>
    requires { lists_meant operands.now ≡ map (λ c. tables_meant c.operands) ctors.now }
    ensures { IfOk result (λ v. constructors_of v.items
        ≡ map (λ r. with_section r.0 r.1) (zip ctors.now (flats_of sections.now))) }
{
    let mut all = Vec::new(alloc);
    'ctors: for index in 0..ctors.len().min(sections.len()) {
        let tables = operands[index].as_slice();
        all.push(with_section(&ctors[index], tables, &sections[index]))?;
    }
    Ok(all)
}

/// Adds the constructor of a number, if there is one.
fn add_at<'s, 'a: 's>(
    ordered: &mut Vec<Constructor<'s, 'a>>,
    all: &[Constructor<'s, 'a>],
    number: usize,
) -> Result<(), AllocError>
    ensures { OnOk result (constructors_of ordered.new.items ≡ constructors_of ordered.old.items
        ++ option_to_list (slice_get (constructors_of all.now) number)) }
{
    if number >= all.len() {
        return Ok(());
    }
    ordered.push(all[number])?;
    Ok(())
}

/// The constructors of these numbers, which are those of `all`.
pub fn in_order<'s, 'a: 's>(
    alloc: Global,
    all: &[Constructor<'s, 'a>],
    numbers: &[usize],
) -> Result<Vec<Constructor<'s, 'a>>, AllocError>
    ensures { IfOk result (λ v. constructors_of v.items
        ≡ in_order (constructors_of all.now) numbers.now) }
{
    let mut ordered = Vec::new(alloc);
    'numbers: for index in 0..numbers.len() {
        add_at(&mut ordered, all, numbers[index])?;
    }
    Ok(ordered)
}
