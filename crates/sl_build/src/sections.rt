//! What is known of the sections of a specification, made once.

ghost use Rattle.std.specs.Prelude.{◌≡◌, position, IfOk};
ghost use Rattle.sl_ast.specs.Views.{items_of};
ghost use Rattle.sl_build.specs.Stands.{StandsFor};
ghost use Rattle.sl_section_all.specs.FlatSections.{flat_sections};
ghost use Rattle.sl_section_all.specs.Views.{scopes_view};
ghost use Rattle.sl_meaning_instruction.specs.Instructions.{default_space, specification_of};
ghost use Rattle.sl_section_sizes.specs.Sizings.{lists_of};
ghost use Rattle.sl_spec.specs.Numbers.{AreNumbered};
ghost use Rattle.sl_spec.specs.Unfolded.{all_placed};

use crate::slots::{Slot, all_slots};
use crate::templates::all_templates;
use crate::unimplemented::marks;
use crate::work::small;
use sl_bind::Bound;
use sl_build_template::Part;
use sl_section_all::{Text, flat_sections, text_of};
use sl_section_flat::Section;
use sl_section_sizes::address_sizes;
use sl_spec::Tables;
use sl_word::{AddressSize, Size, SpaceId};
use std::alloc::{AllocError, Global};

/// The sections of a specification's constructors: flat, with their sizes, their operands and their
/// templates.
#[derive(Drop)]
pub struct Sections<'b, 'a> {
    pub(crate) tables: &'b Tables<'a>,
    pub(crate) sizes: &'b [Vec<Size>],
    pub(crate) sections: Vec<Section<'a>>,
    pub(crate) slots: Vec<Vec<Slot>>,
    /// Which constructors are `unimpl`.
    pub(crate) marks: Vec<bool>,
    pub(crate) spaces: Vec<AddressSize>,
    pub(crate) default: SpaceId,
    /// The templates of all sections, statement by statement.
    pub(crate) templates: Vec<Vec<Part<'a>>>,
}

/// The number of the default space.
fn default_index(t: &Tables) -> Option<usize>
    ensures { result ≡ position (λ z. z.default) t.now.spaces }
{
    t.spaces.iter().position(|space| space.default)
}

/// The default space; the first one, where there is none.
fn default_space(t: &Tables) -> Result<SpaceId, AllocError>
    ensures { IfOk result (λ space. space.0 ≡ default_space t.now) }
{
    match default_index(t) {
        Some(index) => {
            let number = small(index)?;
            Ok(SpaceId(number))
        }
        None => Ok(SpaceId(0)),
    }
}

/// The sections of a text that has these tables and sizes.
fn sections_of<'b, 's, 'a>(
    alloc: Global,
    t: &'b Tables<'a>,
    sizes: &'b [Vec<Size>],
    text: &Text<'s, 'a>,
) -> Result<Sections<'b, 'a>, AllocError>
    requires { AreNumbered text.now.constructors.items }
    ensures { IfOk result (λ x. StandsFor x (record {
      tables = t.now;
      constructors = all_placed text.now.constructors.items;
      sections = flat_sections t.now (scopes_view text.now.scopes)
          (all_placed text.now.constructors.items);
      sizes = lists_of sizes.now;
    })) }
{
    let constructors = text.constructors.as_slice();
    let scopes = &text.scopes;
    let reaches = scopes.reaches.as_slice();
    let sections = flat_sections(alloc, t, &scopes.macros, constructors, reaches)?;
    let slots = all_slots(alloc, t, constructors)?;
    let marks = marks(alloc, constructors)?;
    let spaces = address_sizes(alloc, t)?;
    let default = default_space(t)?;
    let templates = all_templates(
        alloc,
        spaces.as_slice(),
        default,
        sizes,
        sections.as_slice(),
    )?;
    Ok(Sections {
        tables: t,
        sizes,
        sections,
        slots,
        marks,
        spaces,
        default,
        templates,
    })
}

impl<'b, 'a> Sections<'b, 'a> {
    /// The sections of a specification. The only error is want of memory.
    pub fn new(alloc: Global, bound: &'b Bound<'a>) -> Result<Self, AllocError>
        ensures { IfOk result (λ x. StandsFor x (specification_of (items_of bound.now.spec)
            bound.now.tables (lists_of bound.now.sizes.items))) }
    {
        let text = text_of(alloc, bound.spec.items.as_slice())?;
        let sections = sections_of(alloc, &bound.tables, bound.sizes.as_slice(), &text)?;
        Ok(sections)
    }
}
