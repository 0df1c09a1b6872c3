//! Constructors with their sections.

ghost use Rattle.std.specs.Prelude.{◌≡◌, IfOk};
ghost use Rattle.std.specs.List.{zip};
ghost use Rattle.sl_spec_tables.specs.Views as all;
ghost use Rattle.sl_section_exports.specs.Views.{row_of, rows_of, sections_of};

use sl_section_flat::Section;
use sl_spec_tables::{Place, Row};
use std::alloc::{AllocError, Global};

/// A constructor with its section.
#[derive(Clone, Copy)]
pub struct Sectioned<'x, 's: 'x, 'a: 's> {
    pub row: Row<'x, 's, 'a>,
    pub section: &'x Section<'a>,
}

/// The constructors with their sections, as far as there are sections.
pub fn with_sections<'x, 's: 'x, 'a: 's>(
    alloc: Global,
    rows: &[Row<'x, 's, 'a>],
    sections: &'x [Section<'a>],
) -> Result<Vec<Sectioned<'x, 's, 'a>>, AllocError>
    ensures { IfOk result (λ v. rows_of v.items
        ≡ zip (all.rows_of rows.now) (sections_of sections.now)) }
{
    let mut out = Vec::new(alloc);
    'rows: for index in 0..rows.len().min(sections.len()) {
        let row = rows[index];
        let section = &sections[index];
        out.push(Sectioned { row, section })?;
    }
    Ok(out)
}

/// The place of a constructor.
pub fn place(of: &Sectioned) -> Place
    ensures { result ≡ Place.Item (row_of of.now).0.0.item }
{
    let row = of.row;
    let ctor = row.ctor;
    Place::Item(ctor.item)
}
