//! What operands stand for, told once for each constructor.

ghost use Rattle.std.specs.Prelude.{◌≡◌, ℕ, List, IfOk, Some, map};
ghost use Rattle.sl_build.specs.Views.{AreSlots, slot_reference};
ghost use Rattle.sl_decode_meaning.specs.Meanings.{leaves_by};
ghost use Rattle.sl_decode_meaning.specs.Trees.{Node};
ghost use Rattle.sl_meaning_instruction.specs.Operands.{given_by, given_reference};
ghost use Rattle.sl_decode_leaves.specs.Blocks.{AreLeavesOfHead};
ghost use Rattle.sl_decode_leaves.specs.Extents.{leaves_at};
ghost use Rattle.sl_spec.specs.Numbers.{AreMadeFor, AreNumbered, KeepsMade};
ghost use Rattle.sl_spec.specs.Unfolded.{all_placed, placed};
ghost use Rattle.sl_spec.specs.declared.tables.Tables.{Tables as TablesOf};

use sl_decode_leaves::{BlockLeaves, Extent, JoinedLeaves, bare, leaves_among};
use sl_spec::{ByBlock, Ctor, FieldId, Means, Operand, Tables, Unfolded};
use std::alloc::{AllocError, Global};

/// What an operand stands for.
#[derive(Drop)]
pub(crate) enum Slot {
    /// The next one of the nodes below.
    Table,
    /// A field, and the place of its token in bytes from the node's own.
    Field(FieldId, Extent),
    /// The action name of this number.
    Action(u32),
}

fn slot_of(leaves: &JoinedLeaves, operand: &Operand) -> Result<Slot, AllocError>
    ensures { IfOk result (λ slot. (t : TablesOf) (bytes : List ℕ) (n : Node) (lengths : List ℕ)
        → slot_reference t bytes n lengths slot ≡ given_reference t bytes n
        (leaves_at lengths leaves.now) operand.now.name operand.now.means) }
{
    match operand.means {
        Means::Field(id) => {
            let place = bare(leaves, operand.name)?;
            Ok(Slot::Field(id, place))
        }
        Means::Table(_) => Ok(Slot::Table),
        Means::Action(number) => Ok(Slot::Action(number)),
    }
}

/// The operands of a constructor whose pattern has these names.
fn slots_by(
    alloc: Global,
    leaves: &JoinedLeaves,
    operands: &[Operand],
) -> Result<Vec<Slot>, AllocError>
    ensures { IfOk result (λ v. (t : TablesOf) (bytes : List ℕ) (n : Node) (lengths : List ℕ)
        → map (slot_reference t bytes n lengths) v.items
        ≡ map (λ o. given_reference t bytes n (leaves_at lengths leaves.now) o.name o.means)
        operands.now) }
{
    let mut slots = Vec::new(alloc);
    'operands: for index in 0..operands.len() {
        let slot = slot_of(leaves, &operands[index])?;
        slots.push(slot)?;
    }
    Ok(slots)
}

/// The operands of a constructor.
fn slots_of<'s, 'a>(
    alloc: Global,
    t: &Tables,
    operands: &[Operand],
    of: &Unfolded<'s, 'a>,
    made: &mut ByBlock<BlockLeaves<'a>>,
) -> Result<Vec<Slot>, AllocError>
    requires { AreMadeFor (AreLeavesOfHead t.now) of.now.heads.items made.old }
    ensures slots { IfOk result (λ v. (bytes : List ℕ) (n : Node) (lengths : List ℕ)
        → map (slot_reference t.now bytes n lengths) v.items
        ≡ map (λ o. given_reference t.now bytes n
        (leaves_by t.now operands.now (placed of.now).1.pattern lengths) o.name o.means)
        operands.now) }
    ensures kept { IfOk result (λ _.
        KeepsMade (AreLeavesOfHead t.now) of.now.heads.items made.old made.new) }
{
    let leaves = leaves_among(alloc, t, operands, of, made)?;
    let slots = slots_by(alloc, &leaves, operands)?;
    Ok(slots)
}

/// The operands of a constructor, as it is written.
fn constructor_slots<'s, 'a>(
    alloc: Global,
    t: &Tables,
    ctor: &Ctor,
    of: &Unfolded<'s, 'a>,
    made: &mut ByBlock<BlockLeaves<'a>>,
) -> Result<Vec<Slot>, AllocError>
    requires { AreMadeFor (AreLeavesOfHead t.now) of.now.heads.items made.old }
    ensures slots { IfOk result (λ v. (bytes : List ℕ) (n : Node) (lengths : List ℕ)
        → map (slot_reference t.now bytes n lengths) v.items
        ≡ given_by t.now bytes n (Some ctor.now) (Some (placed of.now)) lengths) }
    ensures kept { IfOk result (λ _.
        KeepsMade (AreLeavesOfHead t.now) of.now.heads.items made.old made.new) }
{
    let slots = slots_of(alloc, t, ctor.operands.as_slice(), of, made)?;
    Ok(slots)
}

/// The operands of all constructors of a text. The names of a block's pattern are gone over once for
/// all constructors inside.
pub(crate) fn all_slots(
    alloc: Global,
    t: &Tables,
    constructors: &[Unfolded],
) -> Result<Vec<Vec<Slot>>, AllocError>
    requires { AreNumbered constructors.now }
    ensures { IfOk result (λ v. AreSlots t.now (all_placed constructors.now) v.items) }
{
    let mut made = ByBlock::new(alloc);
    let mut all = Vec::new(alloc);
    'constructors: for index in 0..constructors.len() {
        let Some(ctor) = t.constructors.get(index) else {
            return Ok(all);
        };
        let slots = constructor_slots(alloc, t, ctor, &constructors[index], &mut made)?;
        all.push(slots)?;
    }
    Ok(all)
}
