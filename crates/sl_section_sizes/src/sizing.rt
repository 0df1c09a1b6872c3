//! The sizes of all sections.

ghost use Rattle.std.specs.Prelude.{◌≡◌, IfErr, IfOk, replicate, None, option_map};
ghost use Rattle.sl_section_flat.specs.Chains.{bytes_of};
ghost use Rattle.sl_section_equations.specs.Known.{address_size, exports_of};
ghost use Rattle.sl_section_equations.specs.SizesIn.{address_in};
ghost use Rattle.sl_word.specs.Sizes.{byte_counts};
ghost use Rattle.sl_section_equations.specs.Known.{operand_size};
ghost use Rattle.sl_section_equations.specs.SizesIn.{size_in};
ghost use Rattle.sl_section_sizes.specs.ConstructorViews.{constructor_of, constructors_of};
ghost use Rattle.sl_section_sizes.specs.Sizings as z;

use crate::constructor::Constructor;
use crate::exports::{keep, operand_sizes, size_in, unknown};
use crate::stop::{SizingError, Stop, error_at, stop_of};
use sl_section_equations::{KnownSizes, exported_size, section_fits, sizes_of};
use sl_word::{AddressSize, Size};
use std::alloc::{AllocError, Global};

/// Whether an export has the size of the earlier ones of its table.
fn is_alike(earlier: Option<Size>, size: Option<Size>) -> bool
    ensures { result ≡ z.is_alike (option_map bytes_of earlier) (option_map bytes_of size) }
{
    let Some(earlier) = earlier else {
        return true;
    };
    let Some(size) = size else {
        return true;
    };
    earlier.bytes == size.bytes
}

/// The sizes of one section, where the sizes that the tables below export are known.
fn sized(
    alloc: Global,
    known: &KnownSizes<'_>,
    earlier: Option<Size>,
    constructor: &Constructor<'_, '_>,
) -> Result<Vec<Size>, Stop>
    ensures sizes { IfOk result (λ sizes. z.IsSizedBy (address_size known.now)
        (operand_size known.now) (option_map bytes_of earlier)
        (constructor_of constructor.now) sizes.items) }
    ensures stop { IfErr result (z.StopsBy (address_size known.now)
        (operand_size known.now) (option_map bytes_of earlier) (constructor_of constructor.now)) }
{
    let section = constructor.section;
    let sizes = sizes_of(alloc, known, section).map_err(stop_of)?;
    if section_fits(known, sizes.as_slice(), section)
        && is_alike(earlier, exported_size(sizes.as_slice(), section))
    {
        Ok(sizes)
    } else {
        Err(Stop::Rule)
    }
}

/// The sizes of one section, where what the tables below export is known.
fn sized_behind(
    alloc: Global,
    spaces: &[AddressSize],
    default: AddressSize,
    exports: &[Option<Size>],
    constructor: &Constructor<'_, '_>,
) -> Result<Vec<Size>, Stop>
    ensures sizes { IfOk result (λ sizes.
        z.IsSized (address_in (byte_counts spaces.now) default.bytes) (exports_of exports.now)
        (constructor_of constructor.now) sizes.items) }
    ensures stop { IfErr result (z.StopsAt (address_in (byte_counts spaces.now) default.bytes)
        (exports_of exports.now) (constructor_of constructor.now)) }
{
    let operands = match operand_sizes(alloc, exports, constructor.operands) {
        Ok(operands) => operands,
        Err(_) => return Err(Stop::NoMemory),
    };
    let operands = operands.as_slice();
    let known = KnownSizes {
        spaces,
        default,
        operands,
    };
    let earlier = size_in(exports, constructor.table);
    sized(alloc, &known, earlier, constructor)
}

/// The sizes of the next section; what its table exports is kept.
fn next_sizes(
    alloc: Global,
    spaces: &[AddressSize],
    default: AddressSize,
    exports: &mut Vec<Option<Size>>,
    constructor: &Constructor<'_, '_>,
) -> Result<Vec<Size>, Stop>
    ensures sizes { IfOk result (λ sizes.
        z.IsSized (address_in (byte_counts spaces.now) default.bytes)
        (exports_of exports.old.items) (constructor_of constructor.now) sizes.items) }
    ensures kept { IfOk result (λ sizes. exports_of exports.new.items
        ≡ z.after (address_in (byte_counts spaces.now) default.bytes)
        (exports_of exports.old.items) (constructor_of constructor.now) sizes.items) }
    ensures stop { IfErr result (z.StopsAt (address_in (byte_counts spaces.now) default.bytes)
        (exports_of exports.old.items) (constructor_of constructor.now)) }
{
    match sized_behind(alloc, spaces, default, exports.as_slice(), constructor) {
        Ok(sizes) => {
            let size = exported_size(sizes.as_slice(), constructor.section);
            keep(exports, constructor.table, size);
            Ok(sizes)
        }
        Err(stop) => Err(stop),
    }
}

/// The sizes of the variables of all sections, and those that the tables export.
#[derive(Drop)]
pub struct Sizes {
    /// By the constructors, in the order in which they were given.
    pub sections: Vec<Vec<Size>>,
    /// By the tables; none for one that exports nothing.
    pub exports: Vec<Option<Size>>,
}

/// The sizes of the sections of all constructors, which are given in an order in which each stands
/// behind those of the tables that its operands are. Tables have numbers below `tables`.
pub fn all_sizes(
    alloc: Global,
    spaces: &[AddressSize],
    default: AddressSize,
    tables: u32,
    constructors: &[Constructor<'_, '_>],
) -> Result<Sizes, SizingError>
    ensures sizes { IfOk result (λ v.
        z.AreSized (address_in (byte_counts spaces.now) default.bytes) (replicate tables None)
        (constructors_of constructors.now) (z.lists_of v.sections.items)
        (exports_of v.exports.items)) }
    ensures error { IfErr result (
        z.IsError (address_in (byte_counts spaces.now) default.bytes) (replicate tables None)
        (constructors_of constructors.now)) }
{
    let mut exports = match unknown(alloc, tables) {
        Ok(exports) => exports,
        Err(_) => return Err(SizingError::NoMemory),
    };
    let mut sections = Vec::new(alloc);
    'constructors: for index in 0..constructors.len() {
        let constructor = constructors[index];
        match next_sizes(alloc, spaces, default, &mut exports, &constructor) {
            Ok(sizes) => match sections.push(sizes) {
                Ok(()) => (),
                Err(_) => return Err(SizingError::NoMemory),
            },
            Err(stop) => return Err(error_at(index, stop)),
        }
    }
    Ok(Sizes { sections, exports })
}
