//! What is known of a section before its operands are.

ghost use Rattle.std.specs.Prelude.{◌≡◌, option_map};
ghost use Rattle.sl_section_flat.specs.Views.{number_of as space_number, term_of};
ghost use Rattle.sl_build_template.specs.Pieces as p;
ghost use Rattle.sl_build_template.specs.Views.{form_of};

use crate::sizes::size_of_variable;
use sl_section_flat::{Term, variable};
use sl_word::{AddressSize, Size, SpaceId};

/// What is known of a section before its operands are.
#[derive(Clone, Copy)]
pub struct Form<'a> {
    /// The sizes of addresses, space by space.
    pub spaces: &'a [AddressSize],
    /// The default space.
    pub default: SpaceId,
    /// The sizes of the section's variables.
    pub sizes: &'a [Size],
}

/// A space, the default one where none is named.
pub(crate) fn space_in(form: &Form<'_>, space: Option<SpaceId>) -> SpaceId
    ensures { result.0 ≡ p.space_in (form_of form.now) (option_map space_number space) }
{
    match space {
        Some(space) => space,
        None => form.default,
    }
}

/// The size of an expression's value.
pub(crate) fn size_of(form: &Form<'_>, e: &Term) -> Size
    ensures { result ≡ p.size_of (form_of form.now) (term_of e.now) }
{
    size_of_variable(form.sizes, variable(e))
}
