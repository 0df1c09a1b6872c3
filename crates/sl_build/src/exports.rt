//! What sections export.

ghost use Rattle.std.specs.Prelude.{◌≡◌, IfOk, option_map};
ghost use Rattle.sl_build_emit.specs.Views.{frame_of, reference_of, setting_of};
ghost use Rattle.sl_build.specs.Exports.{exports_in};
ghost use Rattle.sl_section_equations.specs.Equations.{size_at};
ghost use Rattle.sl_meaning_sections.specs.Nodes as meaning;
ghost use Rattle.sl_meaning_sections.specs.References as r;
ghost use Rattle.sl_meaning_sections.specs.Values.{space_of};
ghost use Rattle.sl_section_flat.specs.Sections as s;
ghost use Rattle.sl_section_flat.specs.Views.{export_of, number_of as space_number, step_of};
ghost use Rattle.sl_section_flat.specs.Views.{steps_of, term_of};

use crate::numbers::{cut_to, nothing};
use crate::references::{meant, same_size, variable_size};
use sl_build_emit::{Number, Reference, Site};
use sl_section_flat::{Export, Step, Term, variable};
use sl_word::{Size, SpaceId};
use std::alloc::{AllocError, Global};

/// What an exported pointer or constant stands for: a name or an integer.
fn term_reference(alloc: Global, site: &Site<'_>, t: &Term) -> Result<Reference, AllocError>
    ensures { IfOk result (λ c. reference_of c
        ≡ meaning.term_reference (setting_of site.now) (frame_of site.now) (term_of t.now)) }
{
    match t {
        Term::Number(v, _) => Ok(Reference::Plain(Number::Natural(*v))),
        Term::Name(a, _) => meant(alloc, site, *a),
        Term::Sized(_, _, _) => Ok(nothing()),
        Term::Paren(_, _) => Ok(nothing()),
        Term::Kept(_, _, _) => Ok(nothing()),
        Term::Dropped(_, _, _) => Ok(nothing()),
        Term::Bits(_, _, _) => Ok(nothing()),
        Term::Load(_, _, _, _) => Ok(nothing()),
        Term::One(_, _, _) => Ok(nothing()),
        Term::Two(_, _, _, _, _) => Ok(nothing()),
        Term::User(_, _, _) => Ok(nothing()),
    }
}

/// A space, the default one where none is named.
fn space_of(site: &Site<'_>, space: Option<SpaceId>) -> SpaceId
    ensures { result.0 ≡ space_of (setting_of site.now) (option_map space_number space) }
{
    match space {
        Some(space) => space,
        None => site.default,
    }
}

/// Memory of this size at an exported pointer.
fn memory(
    alloc: Global,
    site: &Site<'_>,
    space: Option<SpaceId>,
    n: Size,
    t: &Term,
) -> Result<Reference, AllocError>
    ensures { IfOk result (λ c. reference_of c ≡ r.memory
        (space_of (setting_of site.now) (option_map space_number space)) (size_at n.bytes)
        (meaning.term_reference (setting_of site.now) (frame_of site.now) (term_of t.now))
        ((frame_of site.now).size (s.variable_of (term_of t.now)))) }
{
    let pointer = term_reference(alloc, site, t)?;
    let pointer = Box::new(alloc, pointer)?;
    let width = variable_size(site, variable(t));
    Ok(Reference::Memory(space_of(site, space), same_size(n), pointer, width))
}

fn export_reference(alloc: Global, site: &Site<'_>, what: &Export) -> Result<Reference, AllocError>
    ensures { IfOk result (λ c. reference_of c
        ≡ meaning.export_reference (setting_of site.now) (frame_of site.now) (export_of what.now)) }
{
    match what {
        Export::Name(a, _) => meant(alloc, site, *a),
        Export::Constant(n, t, _) => {
            let r = term_reference(alloc, site, t)?;
            Ok(cut_to(r, *n))
        }
        Export::Memory(space, n, t, _) => memory(alloc, site, *space, *n, t),
    }
}

/// What a statement exports, if it is an `export`.
fn step_export<'s, 'a>(a: &'s Step<'a>) -> Option<&'s Export>
    ensures { option_map (λ what. export_of what.now) result ≡ exports_in (step_of a.now) }
{
    match a {
        Step::Export(what) => Some(what),
        Step::Declare(_, _) => None,
        Step::Set(_, _) => None,
        Step::SetBits(_, _, _) => None,
        Step::Store(_, _, _, _, _) => None,
        Step::User(_, _) => None,
        Step::Build(_) => None,
        Step::Label(_) => None,
        Step::Branch(_) => None,
        Step::BranchIf(_, _) => None,
        Step::BranchTo(_) => None,
        Step::Call(_) => None,
        Step::CallTo(_) => None,
        Step::Return(_) => None,
    }
}

/// What a section exports.
pub(crate) fn exported(
    alloc: Global,
    site: &Site<'_>,
    steps: &[Step<'_>],
) -> Result<Reference, AllocError>
    ensures { IfOk result (λ c. reference_of c
        ≡ meaning.exported (setting_of site.now) (frame_of site.now) (steps_of steps.now)) }
{
    'steps: for index in 0..steps.len() {
        if let Some(what) = step_export(&steps[index]) {
            return export_reference(alloc, site, what);
        }
    }
    Ok(nothing())
}
