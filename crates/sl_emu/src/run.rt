//! Runs of lists.

ghost use Rattle.std.specs.Prelude.{◌≡◌, ◌+◌, ◌^◌, ◌<◌, ◌≤◌, ◌↔◌, length, IfOk, IfErr, Err, IsTrue, Some};
ghost use Rattle.std.specs.List.{All};
ghost use Rattle.sl_word.specs.Bytes.{address_sizes, byte_at, endian_of};
ghost use Rattle.sl_pcode.specs.Machine.{EndsSo, rest_after, run_from};
ghost use Rattle.sl_pcode.specs.Operations.{operations};
ghost use Rattle.sl_pcode.specs.Targets.{place_at};
ghost use Rattle.sl_pcode.specs.WellFormed.{IsWellFormed, IsWellFormedOp};
ghost use Rattle.sl_emu.specs.Outcomes.{HasEffectsOf, IsErrorOf, left_ending, run_over};
ghost use Rattle.sl_emu.specs.Steps.{Turned};
ghost use Rattle.sl_emu.specs.Temporaries.{order_of, temporary_bytes};

use crate::perform::perform;
use crate::step::Then;
use crate::temporaries::Temporaries;
use sl_pcode::{Op, OpList};
use sl_word::{State, UserId};
use std::alloc::Global;

/// So many jumps inside a list are taken in one run.
pub const JUMP_LIMIT: u64 = 65_536;

// A list with more operations than this has no room in memory.
const MOST_OPERATIONS: usize = 1 << 40;

// A distance has four bytes; from this on it is negative.
const LEAST_NEGATIVE: u64 = 1 << 31;

const DISTANCES: usize = 1 << 32;

/// Where the run of a list went on to.
#[derive(Clone, Copy, Debug, PartialEq, Eq)]
pub enum Left {
    /// Behind the last operation: the next instruction.
    Next,
    /// An address, modulo 2^64.
    To(u64),
}

/// Why a run stopped.
#[derive(Clone, Copy, Debug, PartialEq, Eq)]
pub enum EmuError {
    /// A division by 0.
    DivideByZero,
    /// A user operation, which has no meaning here.
    UserOp(UserId),
    /// A jump inside the list beyond [`JUMP_LIMIT`].
    JumpLimit,
    /// Memory ran out.
    NoMemory,
}

/// Runs a list over a state. `ran` becomes the number of operations that ran whole.
///
/// At a fault all effects of earlier operations are kept; where memory runs out the state has those of
/// the first `ran` operations.
pub fn run_ops(
    alloc: Global,
    ops: &OpList,
    state: &mut State,
    ran: &mut u64,
) -> Result<Left, EmuError>
    requires { IsWellFormed (address_sizes state.old) (operations ops.now) }
    ensures endian { endian_of state.new ≡ endian_of state.old }
    ensures sizes { address_sizes state.new ≡ address_sizes state.old }
    ensures left { IfOk result (λ left.
        EndsSo ran.new (run_over state.old (operations ops.now)) (left_ending left) (byte_at state.new)) }
    ensures fault { IfErr result
        (IsErrorOf ran.new (run_over state.old (operations ops.now)) (byte_at state.new)) }
    ensures effects { HasEffectsOf ran.new (run_over state.old (operations ops.now)) (byte_at state.new) }
{
    let mut t = Temporaries::new(alloc);
    run_ops_in(&mut t, ops, state, ran)
}

/// The same, with memory for temporary bytes that was kept from earlier runs. None of their bytes is.
pub fn run_ops_in(
    t: &mut Temporaries,
    ops: &OpList,
    state: &mut State,
    ran: &mut u64,
) -> Result<Left, EmuError>
    requires { IsWellFormed (address_sizes state.old) (operations ops.now) }
    ensures endian { endian_of state.new ≡ endian_of state.old }
    ensures sizes { address_sizes state.new ≡ address_sizes state.old }
    ensures left { IfOk result (λ left.
        EndsSo ran.new (run_over state.old (operations ops.now)) (left_ending left) (byte_at state.new)) }
    ensures fault { IfErr result
        (IsErrorOf ran.new (run_over state.old (operations ops.now)) (byte_at state.new)) }
    ensures effects { HasEffectsOf ran.new (run_over state.old (operations ops.now)) (byte_at state.new) }
{
    *ran = 0;
    let ops = ops.ops();
    if !is_short(ops) {
        return Err(EmuError::NoMemory);
    }
    t.clear(state.endian());
    run_list(ops, state, t, ran)
}

// Whether a list has no more than 2^40 operations.
fn is_short(ops: &[Op]) -> bool
    ensures { IsTrue result ↔ (length ops.now ≤ 2 ^ 40) }
{
    ops.len() <= MOST_OPERATIONS
}

// Runs a list, with temporary bytes that are all 0.
fn run_list(
    ops: &[Op],
    state: &mut State,
    t: &mut Temporaries,
    ran: &mut u64,
) -> Result<Left, EmuError>
    requires formed { All (IsWellFormedOp (address_sizes state.old)) ops.now }
    requires few { length ops.now ≤ MOST_OPERATIONS }
    requires order { order_of t.old ≡ endian_of state.old }
    requires zero { temporary_bytes t.old ≡ λ offset. 0 }
    requires ran { ran.old ≡ 0 }
    ensures endian { endian_of state.new ≡ endian_of state.old }
    ensures sizes { address_sizes state.new ≡ address_sizes state.old }
    ensures left { IfOk result (λ left. EndsSo ran.new (run_over state.old ops.now) (left_ending left) (byte_at state.new)) }
    ensures fault { IfErr result (IsErrorOf ran.new (run_over state.old ops.now) (byte_at state.new)) }
    ensures effects { HasEffectsOf ran.new (run_over state.old ops.now) (byte_at state.new) }
{
    let mut at = 0;
    let mut jumps = JUMP_LIMIT;
    'turns: while at < ops.len() {
        let turned = turn(ops, &mut at, &mut jumps, state, t)?;
        *ran += 1;
        match turned {
            Some(left) => return Ok(left),
            None => {}
        }
    }
    Ok(Left::Next)
}

// One operation of a run: where it left the list to, or none where the run goes on at the place `at`,
// with so many jumps left.
fn turn(
    ops: &[Op],
    at: &mut usize,
    jumps: &mut u64,
    state: &mut State,
    t: &mut Temporaries,
) -> Result<Option<Left>, EmuError>
    requires formed { All (IsWellFormedOp (address_sizes state.old)) ops.now }
    requires few { length ops.now ≤ MOST_OPERATIONS }
    requires inside { at.old < length ops.now }
    requires order { order_of t.old ≡ endian_of state.old }
    ensures endian { endian_of state.new ≡ endian_of state.old }
    ensures sizes { address_sizes state.new ≡ address_sizes state.old }
    ensures order { order_of t.new ≡ order_of t.old }
    ensures turned { Turned (byte_at state.old)
        (run_from (endian_of state.old) (address_sizes state.old) ops.now jumps.old at.old (byte_at state.old) (temporary_bytes t.old))
        (byte_at state.new)
        (run_from (endian_of state.old) (address_sizes state.old) ops.now jumps.new at.new (byte_at state.new) (temporary_bytes t.new))
        result }
{
    let op = &ops[*at];
    let Ok(then) = perform(op, state, t) else {
        return Err(EmuError::NoMemory);
    };
    match then {
        Then::Next => {
            *at += 1;
            Ok(None)
        }
        Then::Jump(distance) => {
            if *jumps == 0 {
                return Err(EmuError::JumpLimit);
            }
            *jumps -= 1;
            *at = place_at(*at, distance);
            Ok(None)
        }
        Then::Leave(address) => Ok(Some(Left::To(address))),
        Then::DividesByZero => Err(EmuError::DivideByZero),
        Then::CallsUserOp(user) => Err(EmuError::UserOp(user)),
    }
}

// The place at a distance from one.
fn place_at(at: usize, distance: u64) -> usize
    requires at { at ≤ MOST_OPERATIONS }
    requires near { distance < 2 ^ 32 }
    ensures { result ≡ place_at at distance }
{
    let sum = at + distance as usize;
    if distance < LEAST_NEGATIVE {
        sum
    } else {
        sum.saturating_sub(DISTANCES)
    }
}
