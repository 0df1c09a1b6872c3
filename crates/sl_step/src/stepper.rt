//! What decodes and builds the instructions of a specification.

ghost use Rattle.std.specs.Prelude.{◌≡◌, ◌<◌, IfErr, IfOk, length};
ghost use Rattle.sl_ast.specs.Views.{items_of};
ghost use Rattle.sl_faithful_accepted.specs.Laws.{IsShort};
ghost use Rattle.sl_bind_compile.specs.Compiled.{IsCompiled};
ghost use Rattle.sl_step.specs.Kept.{AreKept, IsReadAs, IsReadFrom};
ghost use Rattle.sl_step.specs.Stages.{IsUnread, Reads};
ghost use Rattle.sl_step.specs.Stands.{StandsFor, choice_in, specification_in};
ghost use Rattle.sl_step.specs.Windows.{window_in};
ghost use Rattle.sl_word.specs.Bytes.{address_sizes};

use crate::buffers::StepBuffers;
use crate::error::StepError;
use crate::instruction::{Instruction, Listed};
use crate::sight::sight_of;
use crate::spaces::default_space;
use crate::window::{WINDOW, window_at};
use sl_bind_compile::Compiled;
use sl_build::{Built, Decoded, Sections};
use sl_decode::{DecodeError, Disassembler, Walk, address_size};
use sl_decode_choices::Choosers;
use sl_list_instructions::decoder_of;
use sl_spec::unfolded_constructors;
use sl_word::{AddressSize, SpaceId, State};
use std::alloc::{AllocError, Global};
use std::rc::Rc;

/// Decodes and builds the instructions of a specification.
#[derive(Drop)]
pub struct Stepper<'t, 'a> {
    pub compiled: &'t Compiled<'a>,
    pub(crate) disassembler: Disassembler<'t, 'a, Choosers>,
    pub(crate) sections: Sections<'t, 'a>,
    /// The default space, and the size of its addresses.
    pub(crate) space: SpaceId,
    pub(crate) size: AddressSize,
}

impl<'t, 'a> Stepper<'t, 'a> {
    /// A stepper of a specification that was compiled. The only error is want of memory.
    pub fn new(alloc: Global, compiled: &'t Compiled<'a>) -> Result<Self, AllocError>
        requires short { IsShort (items_of compiled.now.bound.spec) }
        requires compiled { IsCompiled compiled.now }
        ensures compiled { IfOk result (λ stepper. stepper.compiled.now ≡ compiled.now) }
        ensures stands { IfOk result StandsFor }
    {
        let tables = &compiled.bound.tables;
        let constructors = unfolded_constructors(alloc, compiled.bound.spec.items.as_slice())?;
        let disassembler = decoder_of(alloc, compiled, constructors.as_slice())?;
        let sections = Sections::new(alloc, &compiled.bound)?;
        let space = default_space(tables)?;
        let size = address_size(tables);
        Ok(Stepper {
            compiled,
            disassembler,
            sections,
            space,
            size,
        })
    }

    /// The list of what the bytes at an address decode to. Its nodes and its commits are left in the
    /// buffers.
    fn read(
        &self,
        alloc: Global,
        bytes: &[u8],
        address: u64,
        context: u64,
        walk: &mut Walk,
    ) -> Result<Listed, StepError>
        requires stands { StandsFor self.now }
        ensures { Reads (specification_in self.now) (choice_in self.now) bytes.now address context
            walk.new.nodes.items walk.new.commits.items result }
    {
        let after = match self.disassembler.decode_into(bytes, address, context, walk) {
            Ok(instruction) => instruction.after,
            Err(DecodeError::Fault(fault)) => return Err(StepError::Decode(fault)),
            Err(DecodeError::NoMemory) => return Err(StepError::NoMemory),
        };
        let of = Decoded {
            bytes,
            address,
            after,
            nodes: walk.nodes.as_slice(),
            values: walk.values.as_slice(),
        };
        match self.sections.build(alloc, of) {
            Ok(Built::Ops(ops)) => Ok(Listed { ops, after }),
            Ok(Built::Unimplemented) => Err(StepError::Unimplemented),
            Err(_) => Err(StepError::NoMemory),
        }
    }

    /// The instruction that the bytes at an address decode to, read anew. Where its decode looked at
    /// fewer bytes than it was told, it has those alone.
    fn read_anew(
        &self,
        alloc: Global,
        bytes: &[u8],
        address: u64,
        context: u64,
        walk: &mut Walk,
    ) -> Result<Instruction, StepError>
        requires stands { StandsFor self.now }
        requires window { length bytes.now ≡ WINDOW }
        ensures read { IfOk result (IsReadFrom (specification_in self.now) (choice_in self.now)
            bytes.now address context) }
        ensures unread { IfErr result (IsUnread (specification_in self.now) (choice_in self.now)
            bytes.now address context) }
    {
        let listed = match self.read(alloc, bytes, address, context, walk) {
            Ok(listed) => listed,
            Err(error) => return Err(error),
        };
        let count = sight_of(walk.nodes.as_slice()).min(bytes.len());
        let seen = &bytes[..count];
        let commits = walk.commits.as_slice();
        match Instruction::new(alloc, seen, address, context, commits, listed) {
            Ok(instruction) => Ok(instruction),
            Err(_) => Err(StepError::NoMemory),
        }
    }

    /// The same, kept or read anew.
    pub(crate) fn instruction(
        &self,
        alloc: Global,
        bytes: &[u8],
        address: u64,
        context: u64,
        buffers: &mut StepBuffers,
    ) -> Result<Rc<Instruction>, StepError>
        requires stands { StandsFor self.now }
        requires window { length bytes.now ≡ WINDOW }
        requires kept { AreKept (specification_in self.now) (choice_in self.now) buffers.old }
        ensures kept { AreKept (specification_in self.now) (choice_in self.now) buffers.new }
        ensures read { IfOk result (λ x. IsReadAs (specification_in self.now) (choice_in self.now)
            bytes.now address context x.value) }
        ensures unread { IfErr result (IsUnread (specification_in self.now) (choice_in self.now)
            bytes.now address context) }
    {
        if let Some(found) = buffers.found(bytes, address, context) {
            return Ok(found);
        }
        let instruction = match self.read_anew(alloc, bytes, address, context, &mut buffers.walk) {
            Ok(instruction) => instruction,
            Err(error) => return Err(error),
        };
        let Ok(instruction) = Rc::new(alloc, instruction) else {
            return Err(StepError::NoMemory);
        };
        buffers.keep(&instruction);
        Ok(instruction)
    }

    /// The same of the bytes that a state has at the address.
    pub(crate) fn instruction_in(
        &self,
        alloc: Global,
        state: &State,
        address: u64,
        context: u64,
        buffers: &mut StepBuffers,
    ) -> Result<Rc<Instruction>, StepError>
        requires stands { StandsFor self.now }
        requires space { self.now.space.0 < length (address_sizes state.now) }
        requires kept { AreKept (specification_in self.now) (choice_in self.now) buffers.old }
        ensures kept { AreKept (specification_in self.now) (choice_in self.now) buffers.new }
        ensures read { IfOk result (λ x. IsReadAs (specification_in self.now) (choice_in self.now)
            (window_in state.now self.now.space.0 address) address context x.value) }
        ensures unread { IfErr result (IsUnread (specification_in self.now) (choice_in self.now)
            (window_in state.now self.now.space.0 address) address context) }
    {
        if let Some(found) = buffers.found_in(state, self.space, address, context) {
            return Ok(found);
        }
        let window = window_at(state, self.space, address);
        self.instruction(alloc, &window, address, context, buffers)
    }
}
