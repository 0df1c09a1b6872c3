//! What one operation does to the state of a machine and to temporary bytes.

ghost use Rattle.std.specs.Prelude.{◌≡◌, ℕ, ◌+◌, ◌^◌, ◌<◌, ◌≤◌, ◌%◌, length, OnOk, OnErr, IfOk};
ghost use Rattle.sl_word.specs.Bytes.{address_sizes, byte_at, endian_of};
ghost use Rattle.sl_word.specs.Memories.{Memory, loaded, stored};
ghost use Rattle.sl_word.specs.Operations.{TakesSizes1, TakesSizes2, value1, value2};
ghost use Rattle.sl_pcode.specs.Machine.{Ending, Run, Temporaries as Bytes, does, has_no_value, put, value_of};
ghost use Rattle.sl_pcode.specs.Targets.{place_at};
ghost use Rattle.sl_pcode.specs.WellFormed.{HasOperandsInRange, IsAmount, IsFormed, IsInRange, IsSpace, IsWritable};
ghost use Rattle.sl_pcode.specs.declared.effect.Effect.TheVariants as effect;
ghost use Rattle.sl_emu.specs.Steps.{Does, IsNear, IsTargetThen};
ghost use Rattle.sl_emu.specs.Temporaries.{order_of, temporary_bytes};

use crate::temporaries::Temporaries;
use sl_pcode::{Effect, Place2, Varnode};
use sl_word::{Op1, Op2, SpaceId, State, UserId, Word, apply1, apply2};
use std::alloc::AllocError;

/// What follows an operation.
#[derive(Clone, Copy, Debug, PartialEq, Eq)]
pub(crate) enum Then {
    /// The next operation.
    Next,
    /// The operation at a distance, a number of four bytes in two's complement.
    Jump(u64),
    /// An address outside the list.
    Leave(u64),
    /// A fault: a division by 0.
    DividesByZero,
    /// A fault: a user operation.
    CallsUserOp(UserId),
}

// The word that a varnode has.
pub(crate) fn read(state: &State, t: &Temporaries, v: Varnode) -> Word
    requires range { IsInRange (address_sizes state.now) v }
    requires order { order_of t.now ≡ endian_of state.now }
    ensures size { result.size ≡ v.size }
    ensures value { result.bits
        ≡ value_of (endian_of state.now) (address_sizes state.now) v (byte_at state.now) (temporary_bytes t.now) }
{
    match v.place {
        Place2::Const => {
            let bits = u128::from(v.offset);
            Word { bits, size: v.size }
        }
        Place2::Unique => t.read(v.offset, v.size),
        Place2::In(space) => state.read(space, v.offset, v.size),
    }
}

// Puts a word of its size into a varnode.
pub(crate) fn write(
    state: &mut State,
    t: &mut Temporaries,
    v: Varnode,
    word: Word,
) -> Result<(), AllocError>
    requires range { IsWritable (address_sizes state.old) v }
    requires order { order_of t.old ≡ endian_of state.old }
    requires size { word.size.bytes ≡ v.size.bytes }
    ensures endian { endian_of state.new ≡ endian_of state.old }
    ensures sizes { address_sizes state.new ≡ address_sizes state.old }
    ensures order { order_of t.new ≡ order_of t.old }
    ensures put { OnOk result ((next : Memory → Bytes → Run)
        → put (endian_of state.old) (address_sizes state.old) v word.bits (byte_at state.old) (temporary_bytes t.old) next
        ≡ next (byte_at state.new) (temporary_bytes t.new)) }
    ensures unchanged { OnErr result (byte_at state.new ≡ byte_at state.old) }
{
    match v.place {
        Place2::Const => Ok(()),
        Place2::Unique => t.write(v.offset, word),
        Place2::In(space) => state.write(space, v.offset, word),
    }
}

// Puts what an operation makes of one input.
pub(crate) fn unary(
    state: &mut State,
    t: &mut Temporaries,
    op: Op1,
    out: Varnode,
    a: Varnode,
) -> Result<(), AllocError>
    requires formed { TakesSizes1 op a.size.bytes out.size.bytes }
    requires out { IsWritable (address_sizes state.old) out }
    requires range { IsInRange (address_sizes state.old) a }
    requires order { order_of t.old ≡ endian_of state.old }
    ensures endian { endian_of state.new ≡ endian_of state.old }
    ensures sizes { address_sizes state.new ≡ address_sizes state.old }
    ensures order { order_of t.new ≡ order_of t.old }
    ensures put { OnOk result ((next : Memory → Bytes → Run)
        → put (endian_of state.old) (address_sizes state.old) out
        (value1 op a.size.bytes out.size.bytes
        (value_of (endian_of state.old) (address_sizes state.old) a (byte_at state.old) (temporary_bytes t.old)))
        (byte_at state.old) (temporary_bytes t.old) next
        ≡ next (byte_at state.new) (temporary_bytes t.new)) }
    ensures unchanged { OnErr result (byte_at state.new ≡ byte_at state.old) }
{
    let word = apply1(op, read(state, t, a), out.size);
    write(state, t, out, word)
}

// Puts what an operation makes of two inputs, or tells that there is no value.
pub(crate) fn binary(
    state: &mut State,
    t: &mut Temporaries,
    op: Op2,
    out: Varnode,
    a: Varnode,
    b: Varnode,
) -> Result<Then, AllocError>
    requires formed { TakesSizes2 op a.size.bytes b.size.bytes out.size.bytes b.offset × IsAmount op b }
    requires out { IsWritable (address_sizes state.old) out }
    requires first { IsInRange (address_sizes state.old) a }
    requires second { IsInRange (address_sizes state.old) b }
    requires order { order_of t.old ≡ endian_of state.old }
    ensures endian { endian_of state.new ≡ endian_of state.old }
    ensures sizes { address_sizes state.new ≡ address_sizes state.old }
    ensures order { order_of t.new ≡ order_of t.old }
    ensures does { IfOk result (Does (endian_of state.old) (address_sizes state.old) (effect.Binary op out a b)
        (byte_at state.old) (temporary_bytes t.old) (byte_at state.new) (temporary_bytes t.new)) }
    ensures unchanged { OnErr result (byte_at state.new ≡ byte_at state.old) }
{
    let (a, b) = (read(state, t, a), read(state, t, b));
    let Ok(word) = apply2(op, a, b, out.size) else {
        return Ok(Then::DividesByZero);
    };
    write(state, t, out, word)?;
    Ok(Then::Next)
}

// The address that a word has, modulo 2^64.
fn address(word: Word) -> u64
    ensures { result ≡ word.bits % 2 ^ 64 }
{
    (word.bits % (1 << 64)) as u64
}

// Puts the bytes of a space at a pointer.
pub(crate) fn load(
    state: &mut State,
    t: &mut Temporaries,
    out: Varnode,
    space: Varnode,
    pointer: Varnode,
) -> Result<Then, AllocError>
    requires formed { IsSpace (address_sizes state.old) space }
    requires out { IsWritable (address_sizes state.old) out }
    requires range { IsInRange (address_sizes state.old) pointer }
    requires order { order_of t.old ≡ endian_of state.old }
    ensures endian { endian_of state.new ≡ endian_of state.old }
    ensures sizes { address_sizes state.new ≡ address_sizes state.old }
    ensures order { order_of t.new ≡ order_of t.old }
    ensures does { IfOk result (Does (endian_of state.old) (address_sizes state.old) (effect.Load out space pointer)
        (byte_at state.old) (temporary_bytes t.old) (byte_at state.new) (temporary_bytes t.new)) }
    ensures unchanged { OnErr result (byte_at state.new ≡ byte_at state.old) }
{
    let offset = address(read(state, t, pointer));
    let word = state.read(SpaceId(space.offset as u32), offset, out.size);
    write(state, t, out, word)?;
    Ok(Then::Next)
}

// Puts a value into a space at a pointer.
pub(crate) fn store(
    state: &mut State,
    t: &Temporaries,
    space: Varnode,
    pointer: Varnode,
    value: Varnode,
) -> Result<Then, AllocError>
    requires formed { IsSpace (address_sizes state.old) space }
    requires pointer { IsInRange (address_sizes state.old) pointer }
    requires value { IsInRange (address_sizes state.old) value }
    requires order { order_of t.now ≡ endian_of state.old }
    ensures endian { endian_of state.new ≡ endian_of state.old }
    ensures sizes { address_sizes state.new ≡ address_sizes state.old }
    ensures does { IfOk result (Does (endian_of state.old) (address_sizes state.old) (effect.Store space pointer value)
        (byte_at state.old) (temporary_bytes t.now) (byte_at state.new) (temporary_bytes t.now)) }
    ensures unchanged { OnErr result (byte_at state.new ≡ byte_at state.old) }
{
    let offset = address(read(state, t, pointer));
    let word = read(state, t, value);
    state.write(SpaceId(space.offset as u32), offset, word)?;
    Ok(Then::Next)
}

// What follows a jump to a target.
pub(crate) fn target_then(target: Varnode) -> Then
    requires { IsNear target.place target.offset }
    ensures { IsTargetThen target result }
{
    match target.place {
        Place2::Const => Then::Jump(target.offset),
        Place2::Unique | Place2::In(_) => Then::Leave(target.offset),
    }
}

// What follows a jump that is taken where the condition isn't 0.
pub(crate) fn cbranch(state: &State, t: &Temporaries, target: Varnode, condition: Varnode) -> Then
    requires near { IsNear target.place target.offset }
    requires range { IsInRange (address_sizes state.now) condition }
    requires order { order_of t.now ≡ endian_of state.now }
    ensures { Does (endian_of state.now) (address_sizes state.now) (effect.CBranch target condition)
        (byte_at state.now) (temporary_bytes t.now) (byte_at state.now) (temporary_bytes t.now) result }
{
    if read(state, t, condition).bits == 0 {
        Then::Next
    } else {
        target_then(target)
    }
}

// Does what an operation does. Where memory runs out the state is as before.
pub(crate) fn step(
    effect: Effect,
    state: &mut State,
    t: &mut Temporaries,
) -> Result<Then, AllocError>
    requires formed { IsFormed (address_sizes state.old) effect }
    requires range { HasOperandsInRange (address_sizes state.old) effect }
    requires order { order_of t.old ≡ endian_of state.old }
    ensures endian { endian_of state.new ≡ endian_of state.old }
    ensures sizes { address_sizes state.new ≡ address_sizes state.old }
    ensures order { order_of t.new ≡ order_of t.old }
    ensures does { IfOk result (Does (endian_of state.old) (address_sizes state.old) effect
        (byte_at state.old) (temporary_bytes t.old) (byte_at state.new) (temporary_bytes t.new)) }
    ensures unchanged { OnErr result (byte_at state.new ≡ byte_at state.old) }
{
    match effect {
        Effect::Unary(op, out, a) => {
            unary(state, t, op, out, a)?;
            Ok(Then::Next)
        }
        Effect::Binary(op, out, a, b) => binary(state, t, op, out, a, b),
        Effect::Load(out, space, pointer) => load(state, t, out, space, pointer),
        Effect::Store(space, pointer, value) => store(state, t, space, pointer, value),
        Effect::Branch(target) => Ok(target_then(target)),
        Effect::CBranch(target, condition) => Ok(cbranch(state, t, target, condition)),
        Effect::Call(target) => Ok(Then::Leave(target.offset)),
        Effect::Indirect(pointer) => Ok(Then::Leave(address(read(state, t, pointer)))),
        Effect::UserOp(number) => Ok(Then::CallsUserOp(UserId(number.offset as u32))),
    }
}
