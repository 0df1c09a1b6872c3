//! Rules 38 and 39, over flat sections.

ghost use Rattle.std.specs.Prelude.{◌≡◌, None, Some, IfOk};
ghost use Rattle.sl_section_all.specs.FlatSections.{sections_fault, up_to};
ghost use Rattle.sl_section_all.specs.Judging.{Judges};
ghost use Rattle.sl_section_all.specs.Views.{scopes_view};
ghost use Rattle.sl_spec.specs.Unfolded.{all_placed};
ghost use Rattle.sl_spec_tables.specs.TableRules.{late_fault};

use crate::scopes::Scopes;
use crate::sections::flat_sections;
use sl_section_flat::Section;
use sl_section_terms::Reach;
use sl_section_weights::first_heavy;
use sl_spec::{Tables, Unfolded};
use sl_spec_tables::LateFault;
use std::alloc::{AllocError, Global};

/// What rules 38 and 39 come to.
#[derive(Drop)]
pub enum Judged<'a> {
    /// The first broken one of the two.
    Broken(LateFault),
    /// Both hold; the flat sections of all constructors, in the order of the text.
    Kept(Vec<Section<'a>>),
}

/// What is told of the constructors before one, or of all.
fn up_to(reaches: &[Reach], index: Option<usize>) -> &[Reach]
    ensures { result.now ≡ up_to index reaches.now }
{
    match index {
        Some(index) if index < reaches.len() => &reaches[..index],
        Some(_) => reaches,
        None => reaches,
    }
}

/// The first broken one of rules 38 and 39, or the flat sections of all constructors. No section is
/// made flat from the first constructor on that weighs too much. `constructors` are those of `t` as
/// they are written, in the same order. The only error is want of memory.
pub fn judge_sections<'s, 'a>(
    alloc: Global,
    t: &Tables<'a>,
    scopes: &Scopes<'s, 'a>,
    constructors: &[Unfolded<'s, 'a>],
) -> Result<Judged<'a>, AllocError>
    requires { late_fault t.now (all_placed constructors.now) ≡ None }
    ensures { IfOk result (Judges t.now (scopes_view scopes.now) (all_placed constructors.now)) }
{
    let heavy = first_heavy(alloc, t, &scopes.macros, constructors)?;
    let reaches = up_to(scopes.reaches.as_slice(), heavy);
    let sections = flat_sections(alloc, t, &scopes.macros, constructors, reaches)?;
    let late = sl_section_exports::judge_sections(
        alloc,
        t,
        constructors,
        sections.as_slice(),
        heavy,
    )?;
    match late {
        Some(late) => Ok(Judged::Broken(late)),
        None => Ok(Judged::Kept(sections)),
    }
}
