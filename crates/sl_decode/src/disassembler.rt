//! The decode of instructions at addresses.

ghost use Rattle.std.specs.Prelude.{◌≡◌, List, IfOk};
ghost use Rattle.sl_ast.specs.Trees.{Constructor};
ghost use Rattle.sl_ast.specs.Unfolding.{Placed};
ghost use Rattle.sl_decode.specs.Disassemblers.{StandsFor};
ghost use Rattle.sl_decode.specs.Inputs.{input_of};
ghost use Rattle.sl_decode.specs.Outcomes.{Gives};
ghost use Rattle.sl_decode.specs.Walks.{walk_of, walked};
ghost use Rattle.sl_decode_meaning.specs.Decoding.{decoded, read};
ghost use Rattle.sl_spec.specs.Numbers.{AreNumbered};
ghost use Rattle.sl_spec.specs.Unfolded.{all_placed};
ghost use Rattle.sl_spec.specs.declared.tables.Tables.{Tables as TablesOf};

use crate::addresses::address_behind;
use crate::decode::{Choose, Decode};
use crate::outcomes::DecodeError;
use crate::walk::{Instruction, Walk};
use sl_decode_plan::{Plan, make_plans};
use sl_spec::{TableId, Tables, Unfolded};
use std::alloc::{AllocError, Global};

impl<C: Choose> Decode<'_, '_, C> {
    /// The instruction at the front of the bytes, from a context.
    fn instruction(&self, context: u64, walk: &mut Walk) -> Result<Instruction, DecodeError>
        ensures { Gives (λ i. walked i.length i.after walk.new.nodes.items walk.new.values.items
            walk.new.commits.items) result
            (walk_of (read self.now.tables.now (input_of C.chosen self.now) context)) }
    {
        walk.nodes.clear();
        walk.values.clear();
        walk.commits.clear();
        walk.growth.sprouts.clear();
        walk.growth.notes.clear();
        let levels = self.tables.tables.len();
        let grown = match self.grow(levels, TableId(0), 0, context, &mut walk.growth) {
            Ok(grown) => grown,
            Err(error) => return Err(error),
        };
        let after = address_behind(self.tables, self.address, grown.length);
        match self.finish(after, walk) {
            Ok(()) => Ok(Instruction {
                length: grown.length,
                after,
            }),
            Err(error) => Err(error),
        }
    }
}

/// Decodes instructions of a specification.
#[derive(Drop)]
pub struct Disassembler<'t, 'a, C: Choose + Drop> {
    pub tables: &'t Tables<'a>,
    plans: Vec<Plan>,
    /// Which constructor of a table is chosen at a point.
    pub choosers: C,
}

impl<'t, 'a, C: Choose + Drop> Disassembler<'t, 'a, C> {
    /// A disassembler of the constructors of these tables, in the order of the text. The only error
    /// is want of memory.
    pub fn new(
        alloc: Global,
        tables: &'t Tables<'a>,
        constructors: &[Unfolded],
        choosers: C,
    ) -> Result<Self, AllocError>
        requires { AreNumbered constructors.now }
        ensures stands { IfOk result (λ d. StandsFor d tables.now (all_placed constructors.now)) }
        ensures choosers { IfOk result (λ d. d.choosers ≡ choosers) }
    {
        let plans = make_plans(alloc, tables, constructors)?;
        Ok(Disassembler {
            tables,
            plans,
            choosers,
        })
    }

    /// Decodes the instruction at the front of the bytes, which stands at an address of the default
    /// space, from a context. The bytes behind it are looked at, too: up to 16 from the place of each
    /// node on. Where the bytes end before, the point has fewer; so let there be 272 of them.
    pub fn decode_into(
        &self,
        bytes: &[u8],
        address: u64,
        context: u64,
        walk: &mut Walk,
    ) -> Result<Instruction, DecodeError>
        ensures { (t : TablesOf) (constructors : List (Placed Constructor))
            → StandsFor self.now t constructors
            → Gives (λ i. walked i.length i.after walk.new.nodes.items walk.new.values.items
            walk.new.commits.items) result (walk_of (decoded t constructors
            (C.chosen self.now.choosers) bytes.now address context)) }
    {
        let decode = Decode {
            tables: self.tables,
            plans: self.plans.as_slice(),
            choosers: &self.choosers,
            bytes,
            address,
        };
        match decode.instruction(context, walk) {
            Ok(instruction) => Ok(instruction),
            Err(error) => Err(error),
        }
    }
}
