//! The context: rules 10 to 12, and what it adds.

ghost use Rattle.std.specs.Prelude.{◌≡◌, nat_lt, IfOk, map, Some};
ghost use Rattle.std.specs.List.{list_all};
ghost use Rattle.sl_ast.specs.Views.{field_of as seen};
ghost use Rattle.sl_spec_rules.specs.Demands.{Gives};
ghost use Rattle.sl_spec_definitions.specs.FieldRules.{context_step, field_names, holds_fields};
ghost use Rattle.sl_spec_definitions.specs.FieldRules.{is_context};

use crate::tokens::{add, add_names, all_attributes_once, all_in_order};
use sl_ast::definitions as tree;
use sl_spec::{Register, Tables};
use sl_spec_registers::{are_new, register_number};
use sl_spec_rules::Fault;
use std::alloc::{AllocError, Global};

fn all_below(bits: u64, fields: &[tree::Field]) -> bool
    ensures { result ≡ list_all (λ f. nat_lt (seen f).high bits) fields.now }
{
    fields.iter().all(|f| f.high < bits)
}

/// Whether the register has at most 8 bytes, and each high bit is one of its bits.
#[tactic(auto, using(sl_spec_rules::proofs::Seen::seen))]
fn holds_fields(register: &Register, fields: &[tree::Field]) -> bool
    ensures { result ≡ holds_fields (Some register.now) (map seen fields.now) }
{
    let bytes = u64::from(register.size.get());
    bytes <= 8 && all_below(8 * bytes, fields)
}

/// Rule 11: there is no context yet, and its register is defined and holds the fields.
fn is_context(t: &Tables, register: &[u8], fields: &[tree::Field]) -> bool
    ensures { result ≡ is_context t.now register.now (map seen fields.now) }
{
    if t.context.is_some() {
        return false;
    }
    match t.registers.get(register) {
        Some(register) => holds_fields(register, fields),
        None => false,
    }
}

/// The names of fields.
fn field_names<'a>(alloc: Global, fields: &[tree::Field<'a>]) -> Result<Vec<&'a [u8]>, AllocError>
    ensures { IfOk result (λ names. map (λ n. n.now) names.items
        ≡ field_names (map seen fields.now)) }
{
    let mut names = Vec::new(alloc);
    add_names(&mut names, fields)?;
    Ok(names)
}

/// Defines the context with its fields (SLEIGH manual, "Context Variables").
#[tactic(auto, using(sl_spec_rules::proofs::Seen::seen))]
pub fn define_context<'a>(
    alloc: Global,
    t: &mut Tables<'a>,
    register: &[u8],
    fields: &[tree::Field<'a>],
) -> Result<(), Fault>
    ensures { Gives (λ _. t.new) result (context_step t.old register.now (map seen fields.now)) }
{
    let names = field_names(alloc, fields)?;
    if !are_new(alloc, t, names.as_slice())? {
        return Err(Fault::Rule(3));
    }
    if !all_in_order(fields) {
        return Err(Fault::Rule(10));
    }
    if !is_context(t, register, fields) {
        return Err(Fault::Rule(11));
    }
    if !all_attributes_once(fields) {
        return Err(Fault::Rule(12));
    }
    let number = register_number(&t.registers, register)?;
    add(&mut t.fields, None, fields)?;
    t.context = number;
    Ok(())
}
