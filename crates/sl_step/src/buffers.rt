//! What steps use again.

ghost use Rattle.std.specs.Prelude.{◌<◌, IfOk, IfSome, length};
ghost use Rattle.sl_decode_meaning.specs.Choices.{Choice};
ghost use Rattle.sl_meaning_instruction.specs.Instructions.{Specification};
ghost use Rattle.std.specs.List.{All};
ghost use Rattle.sl_step.specs.Kept.{AreKept, IsKept, IsReadAs};
ghost use Rattle.sl_step.specs.Windows.{window_in};
ghost use Rattle.sl_word.specs.Bytes.{address_sizes};

use crate::instruction::Instruction;
use crate::window::WINDOW;
use sl_decode::Walk;
use sl_word::{SpaceId, State};
use std::alloc::{AllocError, Global};
use std::rc::Rc;

/// So many instructions are kept at most.
const SLOTS: usize = 1 << 16;

/// What is kept takes about so many bytes of memory at most.
const ROOM: usize = 24 << 20;

/// The buffers of a decode, and the instructions that were read last. An instruction is kept in the
/// slot of its address, in the place of the one that was there. Where they would take more memory than
/// 24 MiB all are forgotten.
#[derive(Drop)]
pub struct StepBuffers {
    pub(crate) walk: Walk,
    pub(crate) slots: Vec<Option<Rc<Instruction>>>,
    // What those leave of it that were kept since all were forgotten.
    room: usize,
}

/// The slot of an address. Those of neighbouring addresses differ.
fn slot_of(address: u64) -> usize {
    address as usize % SLOTS
}

impl StepBuffers {
    /// Buffers that keep no instruction yet. The only error is want of memory.
    pub fn new(alloc: Global) -> Result<StepBuffers, AllocError>
        ensures { IfOk result (λ buffers. (s : Specification) (choose : Choice)
            → AreKept s choose buffers) }
    {
        let mut slots = Vec::new(alloc);
        'slots: for _ in 0..SLOTS {
            slots.push(None)?;
        }
        let walk = Walk::new(alloc);
        Ok(StepBuffers {
            walk,
            slots,
            room: ROOM,
        })
    }

    /// The instruction that was read from these bytes, at this address and from this context, where
    /// it is kept.
    pub(crate) fn found(&self, bytes: &[u8], address: u64, context: u64) -> Option<Rc<Instruction>>
        ensures { IfSome result (λ x. (s : Specification) (choose : Choice)
            → AreKept s choose self.now → IsReadAs s choose bytes.now address context x.value) }
    {
        let Some(Some(kept)) = self.slots.get(slot_of(address)) else {
            return None;
        };
        if !kept.is_of(bytes, address, context) {
            return None;
        }
        kept.clone().ok()
    }

    /// The instruction that is kept for an address and a context, where a state has the bytes that it
    /// was read from. None where they are many.
    pub(crate) fn found_in(
        &self,
        state: &State,
        space: SpaceId,
        address: u64,
        context: u64,
    ) -> Option<Rc<Instruction>>
        requires { space.0 < length (address_sizes state.now) }
        ensures { IfSome result (λ x. (s : Specification) (choose : Choice)
            → AreKept s choose self.now
            → IsReadAs s choose (window_in state.now space.0 address) address context x.value) }
    {
        let Some(Some(kept)) = self.slots.get(slot_of(address)) else {
            return None;
        };
        if !kept.is_in(state, space, address, context) {
            return None;
        }
        kept.clone().ok()
    }

    /// Forgets all instructions, where there is no room for one of this weight.
    fn make_room(&mut self, weight: usize)
        ensures { (s : Specification) (choose : Choice) → AreKept s choose self.old
            → AreKept s choose self.new }
    {
        if weight <= self.room {
            return;
        }
        forget(&mut self.slots);
        self.room = ROOM;
    }

    /// Keeps an instruction in the slot of its address, where its decode looked at fewer bytes than it
    /// was told.
    pub(crate) fn keep(&mut self, instruction: &Rc<Instruction>)
        ensures { (s : Specification) (choose : Choice) → AreKept s choose self.old
            → (length instruction.now.value.bytes.items < WINDOW
            → IsKept s choose instruction.now.value) → AreKept s choose self.new }
    {
        let slot = slot_of(instruction.address);
        let weight = instruction.weight();
        if WINDOW <= instruction.bytes.len() || ROOM < weight {
            return;
        }
        self.make_room(weight);
        if self.slots.len() <= slot || self.room < weight {
            return;
        }
        if let Ok(copy) = instruction.clone() {
            self.slots[slot] = Some(copy);
            self.room -= weight;
        }
    }
}

/// Makes all slots empty.
fn forget(slots: &mut [Option<Rc<Instruction>>])
    ensures { (s : Specification) (choose : Choice)
        → All (λ slot. IfSome slot (λ x. IsKept s choose x.value)) slots.new }
{
    'empty: for index in 0..slots.len() {
        slots[index] = None;
    }
}
