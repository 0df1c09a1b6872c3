//! The sizes of all sections.

ghost use Rattle.std.specs.Prelude.{◌≡◌, length, IfErr, IfOk};
ghost use Rattle.sl_section_equations.specs.Known.{exports_of};
ghost use Rattle.sl_section_all.specs.Views.{flats_of};
ghost use Rattle.sl_base_graphs.specs.Orders.{NoneReaches};
ghost use Rattle.sl_spec_order.specs.Orders.{IsShapingOrder, graph};
ghost use Rattle.sl_section_sizes.specs.Ordering.{address_of};
ghost use Rattle.sl_section_sizes.specs.SectionSizes.{AreSizes, AreSizesOf, IsSizesError};
ghost use Rattle.sl_section_sizes.specs.SectionSizes.{IsSizesErrorOf, unknown};
ghost use Rattle.sl_section_sizes.specs.Telling.{Tells, TellsOf};
ghost use Rattle.sl_section_sizes.specs.ConstructorViews.{constructors_of};
ghost use Rattle.sl_section_sizes.specs.Sizings.{AreSized, IsError, lists_of};

use crate::addresses::{address_sizes, default_size};
use crate::constructor::Constructor;
use crate::faults::{SizeFault, SizesError};
use crate::operands::all_meant;
use crate::order::numbers;
use crate::putting::in_text_order;
use crate::rows::{in_order, with_sections};
use crate::sizing::{Sizes, all_sizes};
use crate::stop::SizingError;
use sl_section_flat::Section;
use sl_sizes::SizeError;
use sl_spec::Tables;
use sl_spec_order::shaping_order;
use sl_word::Size;
use std::alloc::{AllocError, Global};

/// A fault of the constructor that stands at this index among these numbers. One that doesn't stand
/// there would be want of memory.
fn fault_at(t: &Tables, numbers: &[usize], index: usize, fault: SizeFault) -> SizesError
    ensures { TellsOf t.now numbers.now index fault result }
{
    match numbers.get(index) {
        Some(number) => match t.constructors.get(*number) {
            Some(ctor) => SizesError::Fault(ctor.item, fault),
            None => SizesError::NoMemory,
        },
        None => SizesError::NoMemory,
    }
}

/// What is told of an error.
fn told(t: &Tables, numbers: &[usize], error: SizingError) -> SizesError
    ensures { Tells t.now numbers.now error result }
{
    match error {
        SizingError::Sizes(index, error) => match error {
            SizeError::Clash(_) => fault_at(t, numbers, index, SizeFault::Clash),
            SizeError::Unfixed(_) => fault_at(t, numbers, index, SizeFault::Unfixed),
            SizeError::NoMemory => SizesError::NoMemory,
        },
        SizingError::Rule(index) => fault_at(t, numbers, index, SizeFault::Rule),
        SizingError::NoMemory => SizesError::NoMemory,
    }
}

/// The number of tables. 2^32 tables would be want of memory.
fn count_of(t: &Tables) -> Result<u32, AllocError>
    ensures { IfOk result (λ n. n ≡ length t.now.tables) }
{
    match u32::try_from(t.tables.len()) {
        Ok(count) => Ok(count),
        Err(_) => Err(AllocError),
    }
}

/// The sizes of the sections of these constructors.
fn sized(alloc: Global, t: &Tables, ordered: &[Constructor<'_, '_>]) -> Result<Sizes, SizingError>
    ensures sizes { IfOk result (λ v. AreSized (address_of t.now) (unknown t.now)
        (constructors_of ordered.now) (lists_of v.sections.items) (exports_of v.exports.items)) }
    ensures error { IfErr result (IsError (address_of t.now) (unknown t.now)
        (constructors_of ordered.now)) }
{
    let Ok(count) = count_of(t) else {
        return Err(SizingError::NoMemory);
    };
    let Ok(spaces) = address_sizes(alloc, t) else {
        return Err(SizingError::NoMemory);
    };
    all_sizes(alloc, spaces.as_slice(), default_size(t), count, ordered)
}

/// The sizes of the sections of all constructors, tables being shaped in this order.
fn sizes_by(
    alloc: Global,
    t: &Tables,
    all: &[Constructor<'_, '_>],
    tables: &[usize],
) -> Result<Vec<Vec<Size>>, SizesError>
    requires { IsShapingOrder (length t.now.tables) t.now.constructors tables.now }
    ensures sizes { IfOk result (λ v.
        AreSizesOf t.now (constructors_of all.now) (lists_of v.items)) }
    ensures fault { IfErr result (IsSizesErrorOf t.now (constructors_of all.now)) }
{
    let numbers = numbers(alloc, t, all.len(), tables)?;
    let ordered = in_order(alloc, all, numbers.as_slice())?;
    match sized(alloc, t, ordered.as_slice()) {
        Ok(found) => {
            let all = in_text_order(alloc, all.len(), found.sections, numbers.as_slice())?;
            Ok(all)
        }
        Err(error) => Err(told(t, numbers.as_slice(), error)),
    }
}

/// The sizes of the variables of the sections of all constructors, in the order of the text, or the
/// first constructor, in the order in which constructors are shaped, whose section has none or
/// breaks rule 40. `sections` has the flat sections of the constructors of `t`, in the same order,
/// without statements for `unimpl`.
pub fn section_sizes(
    alloc: Global,
    t: &Tables,
    sections: &[Section<'_>],
) -> Result<Vec<Vec<Size>>, SizesError>
    requires { NoneReaches (graph (length t.now.tables) t.now.constructors) }
    ensures sizes { IfOk result (λ v.
        AreSizes t.now (flats_of sections.now) (lists_of v.items)) }
    ensures fault { IfErr result (IsSizesError t.now (flats_of sections.now)) }
{
    let tables = shaping_order(alloc, t)?;
    let operands = all_meant(alloc, t.constructors.as_slice())?;
    let ctors = t.constructors.as_slice();
    let all = with_sections(alloc, ctors, operands.as_slice(), sections)?;
    sizes_by(alloc, t, all.as_slice(), tables.as_slice())
}
