//! What operands stand for.

ghost use Rattle.std.specs.Prelude.{◌≡◌, [], IfOk, option_map, slice_get};
ghost use Rattle.sl_section_flat.specs.Views.{symbol_of};
ghost use Rattle.sl_section_flat.specs.Chains.{bytes_of};
ghost use Rattle.sl_spec.specs.Views.{entries_of};
ghost use Rattle.sl_section_terms.specs.Scopes.{attached_size, field_symbol, first_register};
ghost use Rattle.sl_section_terms.specs.Scopes.{list_size};
ghost use Rattle.sl_section_terms.specs.Scopes.{operand_symbol, with_operands};

use crate::names::{NamedSymbol, add_symbol, small};
use sl_section_flat::Symbol;
use sl_spec::{Attached, Entries, FieldId, Means, Named, Operand, RegId, Tables};
use sl_word::Size;
use std::alloc::{AllocError, Global};

/// The first register of an attached list.
fn first_register(ids: &[Option<RegId>]) -> Option<RegId>
    ensures { result ≡ first_register ids.now }
{
    'ids: for index in 0..ids.len() {
        let id = ids[index];
        if id.is_some() {
            return id;
        }
    }
    None
}

/// The size of the register of this number.
fn register_size(t: &Tables, id: RegId) -> Option<Size>
    ensures { option_map bytes_of result ≡ option_map (λ r. r.size) (slice_get t.now.registers id) }
{
    match t.registers.at(id.0 as usize) {
        Some(r) => Some(r.size),
        None => None,
    }
}

/// The size of the registers of an attached list.
fn list_size(t: &Tables, entries: &Entries) -> Option<Size>
    ensures { option_map bytes_of result ≡ list_size t.now (entries_of entries.now) }
{
    match entries {
        Entries::Registers(ids) => match first_register(ids.as_slice()) {
            Some(id) => register_size(t, id),
            None => None,
        },
        Entries::Texts(_) => None,
        Entries::Values(_) => None,
    }
}

/// The size of the registers that are attached to a field.
fn attached_size(t: &Tables, field: FieldId) -> Option<Size>
    ensures { option_map bytes_of result ≡ attached_size t.now field }
{
    match t.attached.get(field) {
        Some(attached) => list_size(t, &attached.entries),
        None => None,
    }
}

/// The operand of number `i`.
fn operand_symbol(t: &Tables, i: u32, means: Means) -> Symbol
    ensures { symbol_of result ≡ operand_symbol t.now i means }
{
    match means {
        Means::Field(field) => match attached_size(t, field) {
            Some(size) => Symbol::Attached(i, size),
            None => Symbol::Value(i),
        },
        Means::Table(_) => Symbol::Table(i),
        Means::Action(_) => Symbol::Value(i),
    }
}

/// The operands of a constructor by their names.
pub fn named_operands<'a>(
    alloc: Global,
    t: &Tables<'a>,
    operands: &[Operand<'a>],
) -> Result<Named<'a, NamedSymbol<'a>>, AllocError>
    ensures { IfOk result (λ own. own ≡ with_operands t.now [] 0 operands.now) }
{
    let mut own = Named::new(alloc);
    'operands: for index in 0..operands.len() {
        let operand = &operands[index];
        let number = small(index)?;
        let symbol = operand_symbol(t, number, operand.means);
        add_symbol(&mut own, operand.name, symbol)?;
    }
    Ok(own)
}
