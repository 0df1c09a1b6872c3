//! The templates of sections, made once for each constructor.

ghost use Rattle.std.specs.Prelude.{◌≡◌, [], slice_get, unwrap_or, IfOk};
ghost use Rattle.sl_build.specs.Views.{AreTemplates, form_of_sizes, templates_of};
ghost use Rattle.sl_section_all.specs.Views.{flats_of};
ghost use Rattle.sl_section_flat.specs.Views.{steps_of};
ghost use Rattle.sl_section_sizes.specs.Sizings.{lists_of};
ghost use Rattle.sl_build_template.specs.Views.{IsTemplateOf, parts_of};
ghost use Rattle.sl_word.specs.Sizes.{byte_counts};

use sl_build_template::{Form, Part, template};
use sl_section_flat::{Section, Step};
use sl_spec::CtorId;
use sl_word::{AddressSize, Size, SpaceId};
use std::alloc::{AllocError, Global};

/// The sizes of the section at an index; none where there is none.
fn sizes_at(sizes: &[Vec<Size>], index: usize) -> &[Size]
    ensures { result.now ≡ unwrap_or (slice_get (lists_of sizes.now) index) [] }
{
    match sizes.get(index) {
        Some(sizes) => sizes.as_slice(),
        None => &[],
    }
}

/// The sizes of a constructor's section.
pub(crate) fn sizes_in(sizes: &[Vec<Size>], ctor: CtorId) -> &[Size]
    ensures { result.now ≡ unwrap_or (slice_get (lists_of sizes.now) ctor) [] }
{
    sizes_at(sizes, ctor.0 as usize)
}

/// The template of statements whose variables have these sizes.
fn template_by<'a>(
    alloc: Global,
    spaces: &[AddressSize],
    default: SpaceId,
    sizes: &[Size],
    steps: &[Step<'a>],
) -> Result<Vec<Part<'a>>, AllocError>
    ensures { IfOk result (λ v. IsTemplateOf
        (form_of_sizes (byte_counts spaces.now) default.0 sizes.now) (steps_of steps.now)
        (parts_of v.items)) }
{
    let form = Form {
        spaces,
        default,
        sizes,
    };
    template(alloc, &form, steps)
}

/// The templates of sections that have these sizes.
pub(crate) fn all_templates<'a>(
    alloc: Global,
    spaces: &[AddressSize],
    default: SpaceId,
    sizes: &[Vec<Size>],
    sections: &[Section<'a>],
) -> Result<Vec<Vec<Part<'a>>>, AllocError>
    ensures { IfOk result (λ v. AreTemplates (byte_counts spaces.now) default.0
        (flats_of sections.now) (lists_of sizes.now) (templates_of v.items)) }
{
    let mut all = Vec::new(alloc);
    'sections: for index in 0..sections.len() {
        let steps = sections[index].steps.as_slice();
        let made = template_by(alloc, spaces, default, sizes_at(sizes, index), steps)?;
        all.push(made)?;
    }
    Ok(all)
}
