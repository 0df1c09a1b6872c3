//! The instructions of a specification, decoded and shown.

ghost use Rattle.std.specs.Prelude.{List, IfOk};
ghost use Rattle.sl_ast.specs.Trees.{Constructor};
ghost use Rattle.sl_ast.specs.Unfolding.{Placed};
ghost use Rattle.sl_decode.specs.Disassemblers.{StandsFor};
ghost use Rattle.sl_decode_meaning.specs.Decoding.{decoded};
ghost use Rattle.sl_list_instructions.specs.Kept.{Keeps};
ghost use Rattle.sl_show.specs.Templates.{AreTemplates};
ghost use Rattle.sl_spec.specs.declared.tables.Tables.{Tables as TablesOf};

use crate::instructions::Decoder;
use sl_decode::{Choose, DecodeError, Disassembler, Instruction, Walk};
use sl_decode_contexts::Commit;
use sl_decode_meaning::Fault;
use sl_show::{Template, push_text};
use sl_spec::Unfolded;
use std::alloc::AllocError;

/// Decodes and shows the instructions of a specification.
#[derive(Drop)]
pub struct Specified<'d, 't, 's, 'a, C: Choose + Drop> {
    pub disassembler: &'d Disassembler<'t, 'a, C>,
    /// Those of all constructors.
    pub templates: &'d [Template],
    /// The constructors that both are made of.
    pub constructors: &'d [Unfolded<'s, 'a>],
}

impl<C: Choose + Drop> Specified<'_, '_, '_, '_, C> {
    /// Puts the tree, the text and the commits of the instruction in the place of what the buffers
    /// hold. The result is its length and the address behind it, or why the bytes don't decode. The
    /// only error is want of memory.
    pub fn decode(
        &self,
        bytes: &[u8],
        address: u64,
        context: u64,
        walk: &mut Walk,
        text: &mut Vec<u8>,
        commits: &mut Vec<Commit>,
    ) -> Result<Result<Instruction, Fault>, AllocError>
        ensures { IfOk result (λ r. (t : TablesOf) (cs : List (Placed Constructor))
            → StandsFor self.now.disassembler.now t cs → AreTemplates t cs self.now.templates.now
            → Keeps t cs bytes.now (decoded t cs (C.chosen self.now.disassembler.now.choosers)
            bytes.now address context) r walk.new text.new.items commits.new.items) }
    {
        let instruction = match self.disassembler.decode_into(bytes, address, context, walk) {
            Ok(instruction) => instruction,
            Err(DecodeError::Fault(fault)) => return Ok(Err(fault)),
            Err(DecodeError::NoMemory) => return Err(AllocError),
        };
        let of = sl_show::Instruction {
            bytes,
            values: walk.values.as_slice(),
        };
        text.clear();
        push_text(
            self.disassembler.tables,
            self.templates,
            of,
            &walk.nodes,
            text,
        )?;
        commits.clear();
        commits.extend_from_slice(&walk.commits)?;
        Ok(Ok(instruction))
    }
}

impl<C: Choose + Drop> Decoder for Specified<'_, '_, '_, '_, C> {
    ghost use Rattle.sl_list_instructions.specs.Told.{tells};
    ghost use Rattle.sl_spec.specs.Unfolded.{all_placed};

    type Buffers = Walk;

    ghost tells = { λ d. tells d.disassembler.now.tables.now (all_placed d.constructors.now)
        (C.chosen d.disassembler.now.choosers) };

    ghost ready = { λ d. StandsFor d.disassembler.now d.disassembler.now.tables.now
        (all_placed d.constructors.now)
        × AreTemplates d.disassembler.now.tables.now (all_placed d.constructors.now)
        d.templates.now };

    fn tell(
        &self,
        bytes: &[u8],
        address: u64,
        context: u64,
        buffers: &mut Self::Buffers,
        text: &mut Vec<u8>,
        commits: &mut Vec<Commit>,
    ) -> Result<Result<u32, Fault>, AllocError> {
        match self.decode(bytes, address, context, buffers, text, commits)? {
            Ok(instruction) => Ok(Ok(instruction.length)),
            Err(fault) => Ok(Err(fault)),
        }
    }
}
