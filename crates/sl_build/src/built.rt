//! Lists of decoded instructions.

ghost use Rattle.std.specs.Prelude.{◌≡◌, ◌<◌, ◌^◌, ℕ, List, IfOk, length};
ghost use Rattle.sl_build.specs.Accepted.{BuildsFaithfully};
ghost use Rattle.sl_build.specs.Built.{IsBuilt, IsListOf};
ghost use Rattle.sl_build.specs.Lists.{Lists};
ghost use Rattle.sl_build.specs.Stands.{StandsFor};
ghost use Rattle.sl_decode_meaning.specs.Flat.{all_values, entries};
ghost use Rattle.sl_decode_meaning.specs.TreeCounts.{count};
ghost use Rattle.sl_decode_meaning.specs.Trees.{Node, Trees};
ghost use Rattle.sl_meaning_instruction.specs.Instructions.{Specification, instruction, setting_of};
ghost use Rattle.sl_pcode.specs.Operations.{operations};
ghost use Rattle.sl_pcode.specs.WellFormed.{IsWellFormed};
ghost use Rattle.sl_word.specs.Sizes.{byte_counts};

use crate::numbers::address_number;
use crate::sections::Sections;
use crate::trees::first_list;
use crate::unimplemented::has_marked;
use crate::work::{Work, top_of};
use sl_decode_meaning::Entry;
use sl_pcode::{Op, OpList};
use sl_word::AddressSize;
use std::alloc::{AllocError, Global};

/// An instruction as it was decoded.
#[derive(Clone, Copy)]
pub struct Decoded<'i> {
    /// The bytes that it was decoded from.
    pub bytes: &'i [u8],
    /// The address of the first byte.
    pub address: u64,
    /// The address behind the instruction.
    pub after: u64,
    /// All nodes, depth first, each before those below it.
    pub nodes: &'i [Entry],
    /// The values of their action names, in the same order.
    pub values: &'i [i64],
}

/// What an instruction is built to.
#[derive(Debug, Drop)]
pub enum Built {
    /// A node is `unimpl`.
    Unimplemented,
    Ops(OpList),
}

/// Operations as a well-formed list. One that isn't, or of 2^31 operations, is answered as want of
/// memory.
fn checked(ops: Vec<Op>, spaces: &[AddressSize]) -> Result<OpList, AllocError>
    ensures same { IfOk result (λ list. operations list ≡ ops.items) }
    ensures well_formed { IfOk result (λ list. IsWellFormed (byte_counts spaces.now)
        (operations list)) }
    ensures short { IfOk result (λ list. length (operations list) < 2 ^ 31) }
{
    if ops.len() >= 1 << 31 {
        return Err(AllocError);
    }
    match OpList::from_ops(ops, spaces) {
        Some(list) => Ok(list),
        None => Err(AllocError),
    }
}

/// The list of the first tree of a row.
fn list_of(alloc: Global, w: &Work<'_, '_, '_>, nodes: &[Entry]) -> Result<OpList, AllocError>
    ensures { IfOk result (λ list. Lists w.now nodes.now (operations list)) }
{
    let ops = first_list(alloc, w, nodes)?;
    let of = w.of;
    let list = checked(ops, of.spaces.as_slice())?;
    Ok(list)
}

impl Sections<'_, '_> {
    /// The list of a decoded instruction.
    fn list(&self, alloc: Global, of: Decoded<'_>) -> Result<OpList, AllocError>
        ensures { IfOk result (λ list. (s : Specification) (f : Trees Node)
            → StandsFor self.now s → of.entry.nodes.now ≡ entries 0 f
            → of.entry.values.now ≡ all_values f
            → IsListOf (setting_of s.tables of.entry.address of.entry.after) (count f)
            (instruction s of.entry.bytes.now f) (operations list)) }
    {
        let top = top_of(of.nodes.len())?;
        let work = Work {
            of: self,
            bytes: of.bytes,
            values: of.values,
            start: address_number(of.address),
            next: address_number(of.after),
            top,
        };
        let list = list_of(alloc, &work, of.nodes)?;
        Ok(list)
    }

    /// The list of a decoded instruction of the specification, or that it is unimplemented. The list
    /// is faithful to the instruction where the specification is accepted. The only error is want of
    /// memory.
    pub fn build(&self, alloc: Global, of: Decoded<'_>) -> Result<Built, AllocError>
        ensures built { IfOk result (λ built. (s : Specification) (f : Trees Node)
            → StandsFor self.now s → of.entry.nodes.now ≡ entries 0 f
            → of.entry.values.now ≡ all_values f
            → IsBuilt s (setting_of s.tables of.entry.address of.entry.after)
            of.entry.bytes.now f built) }
        ensures faithful { IfOk result (BuildsFaithfully self.now of.entry) }
    {
        if has_marked(self.marks.as_slice(), of.nodes) {
            return Ok(Built::Unimplemented);
        }
        let list = self.list(alloc, of)?;
        Ok(Built::Ops(list))
    }
}
