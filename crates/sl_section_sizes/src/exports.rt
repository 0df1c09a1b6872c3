//! The sizes that tables export.

ghost use Rattle.std.specs.Prelude.{◌≡◌, IfOk, length, option_map, replicate, None};
ghost use Rattle.sl_section_flat.specs.Chains.{bytes_of};
ghost use Rattle.sl_section_equations.specs.Known.{exports_of};
ghost use Rattle.sl_section_equations.specs.SizesIn.{size_in};
ghost use Rattle.sl_section_sizes.specs.Sizings as z;

use sl_word::Size;
use std::alloc::{AllocError, Global};

/// What nothing is known of.
pub(crate) fn unknown(alloc: Global, tables: u32) -> Result<Vec<Option<Size>>, AllocError>
    ensures { IfOk result (λ v. exports_of v.items ≡ replicate tables None) }
{
    let mut exports = Vec::new(alloc);
    'tables: for _table in 0..tables {
        exports.push(None)?;
    }
    Ok(exports)
}

/// The size that a table exports.
pub(crate) fn size_in(exports: &[Option<Size>], table: u32) -> Option<Size>
    ensures { option_map bytes_of result ≡ size_in (exports_of exports.now) table }
{
    match exports.get(table as usize) {
        Some(size) => *size,
        None => None,
    }
}

/// The size of what an operand exports, where it is a table.
fn size_of_operand(exports: &[Option<Size>], operand: Option<u32>) -> Option<Size>
    ensures { option_map bytes_of result ≡ z.operand_size (exports_of exports.now) operand }
{
    match operand {
        Some(table) => size_in(exports, table),
        None => None,
    }
}

/// The sizes that the operands export.
pub(crate) fn operand_sizes(
    alloc: Global,
    exports: &[Option<Size>],
    operands: &[Option<u32>],
) -> Result<Vec<Option<Size>>, AllocError>
    ensures { IfOk result (λ v. exports_of v.items
        ≡ z.operand_sizes (exports_of exports.now) operands.now) }
{
    let mut sizes = Vec::new(alloc);
    'operands: for operand in operands {
        sizes.push(size_of_operand(exports, *operand))?;
    }
    Ok(sizes)
}

/// Keeps the size that a table exports.
pub(crate) fn keep(exports: &mut Vec<Option<Size>>, table: u32, size: Option<Size>)
    ensures { exports_of exports.new.items
        ≡ z.with_export (exports_of exports.old.items) table (option_map bytes_of size) }
{
    if let Some(size) = size {
        if (table as usize) < exports.len() {
            exports[table as usize] = Some(size);
        }
    }
}
