//! The flat sections of constructors.

ghost use Rattle.std.specs.Prelude.{◌≡◌, IfOk};
ghost use Rattle.sl_ast.specs.Views.{section_of};
ghost use Rattle.sl_section_all.specs.FlatSections as spec;
ghost use Rattle.sl_section_all.specs.Views.{flat_of, flats_of};
ghost use Rattle.sl_section_resolve.specs.MacroViews.{bodies_of};
ghost use Rattle.sl_spec.specs.Unfolded.{all_placed};
ghost use Rattle.sl_spec_tables.specs.Views.{row_of};

use sl_ast::constructors::Section as Written;
use sl_section_flat::Section;
use sl_section_resolve::{MacroBody, resolve};
use sl_section_terms::Reach;
use sl_spec::{Named, Operand, Tables, Unfolded};
use sl_spec_tables::{Row, all_rows};
use std::alloc::{AllocError, Global};

/// The flat section of a constructor; `unimpl` has no statements.
fn flat_section<'s, 'a>(
    alloc: Global,
    t: &Tables<'a>,
    macros: &Named<'a, MacroBody<'s, 'a>>,
    reach: Reach,
    operands: &[Operand<'a>],
    section: &'s Written<'a>,
) -> Result<Section<'a>, AllocError>
    ensures { IfOk result (λ s. flat_of s ≡ spec.flat_section t.now (bodies_of macros.now) reach
        operands.now (section_of section.now)) }
{
    match section {
        Written::Statements(body) => resolve(alloc, t, macros, reach, operands, body.as_slice()),
        Written::Unimplemented => Ok(Section {
            steps: Vec::new(alloc),
            variables: 0,
        }),
    }
}

/// The flat section of a constructor, by what is defined before it.
fn row_section<'s, 'a>(
    alloc: Global,
    t: &Tables<'a>,
    macros: &Named<'a, MacroBody<'s, 'a>>,
    row: &Row<'_, 's, 'a>,
    reach: Reach,
) -> Result<Section<'a>, AllocError>
    ensures { IfOk result (λ s. flat_of s
        ≡ spec.row_section t.now (bodies_of macros.now) (row_of row.now, reach)) }
{
    let ctor = row.ctor;
    let own = row.own;
    let constructor = own.own;
    let section = flat_section(
        alloc,
        t,
        macros,
        reach,
        ctor.operands.as_slice(),
        &constructor.section,
    )?;
    Ok(section)
}

/// The flat sections of the first constructors, in the order of the text: `reaches` has what is
/// defined before each of them. `constructors` are those of `t` as they are written, in the same
/// order, and `macros` has all macros of the text. The only error is want of memory.
pub fn flat_sections<'s, 'a>(
    alloc: Global,
    t: &Tables<'a>,
    macros: &Named<'a, MacroBody<'s, 'a>>,
    constructors: &[Unfolded<'s, 'a>],
    reaches: &[Reach],
) -> Result<Vec<Section<'a>>, AllocError>
    ensures { IfOk result (λ v. flats_of v.items ≡ spec.sections_by t.now (bodies_of macros.now)
        (all_placed constructors.now) reaches.now) }
{
    let rows = all_rows(alloc, t.constructors.as_slice(), constructors)?;
    let rows = rows.as_slice();
    let mut sections = Vec::new(alloc);
    'rows: for index in 0..rows.len().min(reaches.len()) {
        let row = rows[index];
        sections.push(row_section(alloc, t, macros, &row, reaches[index])?)?;
    }
    Ok(sections)
}
