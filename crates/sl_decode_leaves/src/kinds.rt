//! What names stand for.

ghost use Rattle.std.specs.Prelude.{◌≡◌, IfOk, option_copied};
ghost use Rattle.sl_decode_meaning.specs.Kinds as spec;
ghost use Rattle.sl_decode_meaning.specs.Kinds.{context_field, kind_of};
ghost use Rattle.sl_spec.specs.Named.{index_named, named};

use sl_decode_meaning::Kind;
use sl_spec::{Field, FieldId, Means, Operand, Tables};
use std::alloc::AllocError;

/// The operand of this name.
pub fn operand_named<'o, 'a>(operands: &'o [Operand<'a>], name: &[u8]) -> Option<&'o Operand<'a>>
    ensures { option_copied result ≡ named (λ o. o.name) name.now operands.now }
{
    'operands: for index in 0..operands.len() {
        let operand = &operands[index];
        if name == operand.name {
            return Some(operand);
        }
    }
    None
}

/// The number of a field. 2^32 fields would be want of memory.
fn field_number(index: usize) -> Result<FieldId, AllocError>
    ensures { IfOk result (λ id. id ≡ index) }
{
    match u32::try_from(index) {
        Ok(number) => Ok(FieldId(number)),
        Err(_) => Err(AllocError),
    }
}

/// What a name stands for that is no operand.
fn free_kind(t: &Tables, name: &[u8]) -> Result<Kind, AllocError>
    ensures { IfOk result (λ kind. kind
        ≡ spec.free_kind (index_named (λ f. f.name) name.now t.now.fields) name.now) }
{
    if let Some(index) = t.fields.index_of(name) {
        return Ok(Kind::Field(field_number(index)?));
    }
    if name == b"inst_start".as_slice() {
        return Ok(Kind::Start);
    }
    if name == b"inst_next".as_slice() {
        return Ok(Kind::Next);
    }
    Ok(Kind::Nothing)
}

fn operand_kind(means: Means) -> Kind
    ensures { result ≡ spec.operand_kind means }
{
    match means {
        Means::Field(id) => Kind::Field(id),
        Means::Table(id) => Kind::Table(id),
        Means::Action(number) => Kind::Action(number),
    }
}

/// What a name stands for in a constructor with these operands.
pub fn kind_of(t: &Tables, operands: &[Operand], name: &[u8]) -> Result<Kind, AllocError>
    ensures { IfOk result (λ kind. kind ≡ kind_of t.now operands.now name.now) }
{
    match operand_named(operands, name) {
        Some(operand) => Ok(operand_kind(operand.means)),
        None => free_kind(t, name),
    }
}

/// The field of the context that a name stands for.
pub fn context_field<'t, 'a>(t: &'t Tables<'a>, kind: Kind) -> Option<&'t Field<'a>>
    ensures { option_copied result ≡ context_field t.now kind }
{
    match kind {
        Kind::Field(id) => {
            let of = t.fields.at(id.number() as usize)?;
            if of.token.is_none() { Some(of) } else { None }
        }
        Kind::Table(_) => None,
        Kind::Action(_) => None,
        Kind::Start => None,
        Kind::Next => None,
        Kind::Nothing => None,
    }
}
