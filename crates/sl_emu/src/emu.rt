//! Runners of lists.

ghost use Rattle.std.specs.Prelude.{◌≡◌, ℕ, ◌+◌, ◌-◌, ◌^◌, ◌<◌, min, IfOk, IfErr};
ghost use Rattle.sl_word.specs.Bytes.{address_sizes, byte_at, endian_of};
ghost use Rattle.sl_pcode.specs.Machine.{EndsSo};
ghost use Rattle.sl_pcode.specs.Operations.{operations};
ghost use Rattle.sl_pcode.specs.WellFormed.{IsWellFormed};
ghost use Rattle.sl_emu.specs.Outcomes.{HasEffectsOf, IsErrorOf, left_ending, run_over};

use crate::run::{EmuError, Left, run_ops, run_ops_in};
use crate::temporaries::Temporaries;
use sl_pcode::OpList;
use sl_word::State;
use std::alloc::Global;

/// What runs lists, and counts the operations that ran whole.
///
/// The count stays at the largest u64 once it is there.
pub trait Runner {
    ghost count: { Self → ℕ };

    ghost small: { (runner : Self) → count runner < 2 ^ 64 };

    /// Runs a list as [`run_ops`] does, and adds `ran` to the count, whatever the answer is.
    fn run(
        &mut self,
        alloc: Global,
        ops: &OpList,
        state: &mut State,
        ran: &mut u64,
    ) -> Result<Left, EmuError>
        requires { IsWellFormed (address_sizes state.old) (operations ops.now) }
        ensures endian { endian_of state.new ≡ endian_of state.old }
        ensures sizes { address_sizes state.new ≡ address_sizes state.old }
        ensures left { IfOk result (λ left.
            EndsSo ran.new (run_over state.old (operations ops.now)) (left_ending left) (byte_at state.new)) }
        ensures fault { IfErr result
            (IsErrorOf ran.new (run_over state.old (operations ops.now)) (byte_at state.new)) }
        ensures effects { HasEffectsOf ran.new (run_over state.old (operations ops.now)) (byte_at state.new) }
        ensures counted { count self.new ≡ min (count self.old + ran.new) (2 ^ 64 - 1) };
}

/// The emulator, with the number of operations that it has run.
#[derive(Clone, Copy, Debug, PartialEq, Eq)]
pub struct Emu {
    pub count: u64,
    ghost small: { count < 2 ^ 64 },
}

impl Runner for Emu {
    ghost count = { λ emu. emu.count };

    ghost small = { λ emu. emu.small };

    fn run(
        &mut self,
        alloc: Global,
        ops: &OpList,
        state: &mut State,
        ran: &mut u64,
    ) -> Result<Left, EmuError> {
        let result = run_ops(alloc, ops, state, ran);
        self.count = counted(self.count, *ran);
        result
    }
}

// A count with some more, or the largest one.
fn counted(count: u64, ran: u64) -> u64
    ensures { result ≡ min (count + ran) (2 ^ 64 - 1) }
{
    count.saturating_add(ran)
}

/// The emulator, with memory for temporary bytes that it keeps from one run to the next.
#[derive(Drop)]
pub struct KeepingEmu {
    pub count: u64,
    temporaries: Temporaries,
    ghost small: { count < 2 ^ 64 },
}

impl KeepingEmu {
    /// An emulator that has run nothing yet.
    pub fn new(alloc: Global) -> KeepingEmu
        ensures { result.count ≡ 0 }
    {
        let temporaries = Temporaries::new(alloc);
        KeepingEmu {
            count: 0,
            temporaries,
        }
    }
}

impl Runner for KeepingEmu {
    ghost count = { λ emu. emu.count };

    ghost small = { λ emu. emu.small };

    fn run(
        &mut self,
        _alloc: Global,
        ops: &OpList,
        state: &mut State,
        ran: &mut u64,
    ) -> Result<Left, EmuError> {
        let result = run_ops_in(&mut self.temporaries, ops, state, ran);
        self.count = counted(self.count, *ran);
        result
    }
}
