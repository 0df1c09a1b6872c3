//! Operations with their operands where they stand: those of at most 8 bytes go by numbers of 64 bits.

ghost use Rattle.std.specs.Prelude.{◌≡◌, ℕ, ◌^◌, ◌<◌, ◌≤◌, ◌%◌, OnOk, OnErr, IfOk, IfSome};
ghost use Rattle.sl_word.specs.Bytes.{address_sizes, byte_at, endian_of};
ghost use Rattle.sl_word.specs.Memories.{Memory};
ghost use Rattle.sl_word.specs.Operations.{IsDivision, TakesSizes1, TakesSizes2, value1, value2};
ghost use Rattle.sl_pcode.specs.Machine.{Run, Temporaries as Bytes, put, value_of};
ghost use Rattle.sl_pcode.specs.WellFormed.{IsAmount, IsInRange, IsSpace, IsWritable};
ghost use Rattle.sl_pcode.specs.declared.effect.Effect.TheVariants as effect;
ghost use Rattle.sl_emu.specs.Steps.{Does, IsNear};
ghost use Rattle.sl_emu.specs.Temporaries.{order_of, temporary_bytes};

use crate::narrow::{bits1, bits2};
use crate::step::{self, Then, target_then};
use crate::temporaries::Temporaries;
use sl_pcode::{Place2, Varnode};
use sl_word::{Narrow, Op1, Op2, Size, SpaceId, State};
use std::alloc::AllocError;

// The word that a varnode has.
fn read(state: &State, t: &Temporaries, v: &Varnode) -> Narrow
    requires narrow { v.now.size.bytes ≤ 8 }
    requires range { IsInRange (address_sizes state.now) v.now }
    requires order { order_of t.now ≡ endian_of state.now }
    ensures size { result.size ≡ v.now.size }
    ensures value { result.bits
        ≡ value_of (endian_of state.now) (address_sizes state.now) v.now (byte_at state.now) (temporary_bytes t.now) }
{
    let size = v.size;
    match v.place {
        Place2::Const => {
            let bits = v.offset;
            Narrow { bits, size }
        }
        Place2::Unique => t.read_narrow(v.offset, size),
        Place2::In(space) => state.read_narrow(space, v.offset, size),
    }
}

// Puts a word of its size into a varnode.
fn write(
    state: &mut State,
    t: &mut Temporaries,
    v: &Varnode,
    word: Narrow,
) -> Result<(), AllocError>
    requires range { IsWritable (address_sizes state.old) v.now }
    requires order { order_of t.old ≡ endian_of state.old }
    requires size { word.size.bytes ≡ v.now.size.bytes }
    ensures endian { endian_of state.new ≡ endian_of state.old }
    ensures sizes { address_sizes state.new ≡ address_sizes state.old }
    ensures order { order_of t.new ≡ order_of t.old }
    ensures put { OnOk result ((next : Memory → Bytes → Run)
        → put (endian_of state.old) (address_sizes state.old) v.now word.bits (byte_at state.old) (temporary_bytes t.old) next
        ≡ next (byte_at state.new) (temporary_bytes t.new)) }
    ensures unchanged { OnErr result (byte_at state.new ≡ byte_at state.old) }
{
    match v.place {
        Place2::Const => Ok(()),
        Place2::Unique => t.write_narrow(v.offset, word),
        Place2::In(space) => state.write_narrow(space, v.offset, word),
    }
}

// What an operation makes of one operand, in a word of the size `out`. None where it isn't made here.
fn result1(state: &State, t: &Temporaries, op: Op1, out: Size, a: &Varnode) -> Option<u64>
    requires formed { TakesSizes1 op a.now.size.bytes out.bytes }
    requires range { IsInRange (address_sizes state.now) a.now }
    requires order { order_of t.now ≡ endian_of state.now }
    ensures narrow { IfSome result (λ bits. out.bytes ≤ 8) }
    ensures below { IfSome result (λ bits. bits < 256 ^ out.bytes) }
    ensures value { IfSome result (λ bits. bits ≡ value1 op a.now.size.bytes out.bytes
        (value_of (endian_of state.now) (address_sizes state.now) a.now (byte_at state.now) (temporary_bytes t.now))) }
{
    if !out.is_narrow() || !a.size.is_narrow() {
        return None;
    }
    bits1(op, read(state, t, a), out)
}

// What an operation makes of two operands, in a word of the size `out`. None where it isn't made here, as
// where it has no value.
fn result2(
    state: &State,
    t: &Temporaries,
    op: Op2,
    out: Size,
    a: &Varnode,
    b: &Varnode,
) -> Option<u64>
    requires formed { TakesSizes2 op a.now.size.bytes b.now.size.bytes out.bytes b.now.offset × IsAmount op b.now }
    requires first { IsInRange (address_sizes state.now) a.now }
    requires second { IsInRange (address_sizes state.now) b.now }
    requires order { order_of t.now ≡ endian_of state.now }
    ensures narrow { IfSome result (λ bits. out.bytes ≤ 8) }
    ensures below { IfSome result (λ bits. bits < 256 ^ out.bytes) }
    ensures whole { IfSome result (λ bits. IsDivision op → ⊥) }
    ensures value { IfSome result (λ bits. bits ≡ value2 op a.now.size.bytes out.bytes
        (value_of (endian_of state.now) (address_sizes state.now) a.now (byte_at state.now) (temporary_bytes t.now))
        (value_of (endian_of state.now) (address_sizes state.now) b.now (byte_at state.now) (temporary_bytes t.now))) }
{
    if !out.is_narrow() || !a.size.is_narrow() || !b.size.is_narrow() {
        return None;
    }
    bits2(op, read(state, t, a), read(state, t, b), out)
}

/// Puts what an operation makes of one input.
pub(crate) fn unary(
    state: &mut State,
    t: &mut Temporaries,
    op: Op1,
    out: &Varnode,
    a: &Varnode,
) -> Result<(), AllocError>
    requires formed { TakesSizes1 op a.now.size.bytes out.now.size.bytes }
    requires out { IsWritable (address_sizes state.old) out.now }
    requires range { IsInRange (address_sizes state.old) a.now }
    requires order { order_of t.old ≡ endian_of state.old }
    ensures endian { endian_of state.new ≡ endian_of state.old }
    ensures sizes { address_sizes state.new ≡ address_sizes state.old }
    ensures order { order_of t.new ≡ order_of t.old }
    ensures put { OnOk result ((next : Memory → Bytes → Run)
        → put (endian_of state.old) (address_sizes state.old) out.now
        (value1 op a.now.size.bytes out.now.size.bytes
        (value_of (endian_of state.old) (address_sizes state.old) a.now (byte_at state.old) (temporary_bytes t.old)))
        (byte_at state.old) (temporary_bytes t.old) next
        ≡ next (byte_at state.new) (temporary_bytes t.new)) }
    ensures unchanged { OnErr result (byte_at state.new ≡ byte_at state.old) }
{
    let size = out.size;
    if let Some(bits) = result1(state, t, op, size, a) {
        return write(state, t, out, Narrow { bits, size });
    }
    step::unary(state, t, op, *out, *a)
}

/// Puts what an operation makes of two inputs, or tells that there is no value.
pub(crate) fn binary(
    state: &mut State,
    t: &mut Temporaries,
    op: Op2,
    out: &Varnode,
    a: &Varnode,
    b: &Varnode,
) -> Result<Then, AllocError>
    requires formed { TakesSizes2 op a.now.size.bytes b.now.size.bytes out.now.size.bytes b.now.offset × IsAmount op b.now }
    requires out { IsWritable (address_sizes state.old) out.now }
    requires first { IsInRange (address_sizes state.old) a.now }
    requires second { IsInRange (address_sizes state.old) b.now }
    requires order { order_of t.old ≡ endian_of state.old }
    ensures endian { endian_of state.new ≡ endian_of state.old }
    ensures sizes { address_sizes state.new ≡ address_sizes state.old }
    ensures order { order_of t.new ≡ order_of t.old }
    ensures does { IfOk result (Does (endian_of state.old) (address_sizes state.old) (effect.Binary op out.now a.now b.now)
        (byte_at state.old) (temporary_bytes t.old) (byte_at state.new) (temporary_bytes t.new)) }
    ensures unchanged { OnErr result (byte_at state.new ≡ byte_at state.old) }
{
    let size = out.size;
    if let Some(bits) = result2(state, t, op, size, a, b) {
        write(state, t, out, Narrow { bits, size })?;
        return Ok(Then::Next);
    }
    step::binary(state, t, op, *out, *a, *b)
}

/// Puts the bytes of a space at a pointer.
pub(crate) fn load(
    state: &mut State,
    t: &mut Temporaries,
    out: &Varnode,
    space: &Varnode,
    pointer: &Varnode,
) -> Result<Then, AllocError>
    requires formed { IsSpace (address_sizes state.old) space.now }
    requires out { IsWritable (address_sizes state.old) out.now }
    requires range { IsInRange (address_sizes state.old) pointer.now }
    requires order { order_of t.old ≡ endian_of state.old }
    ensures endian { endian_of state.new ≡ endian_of state.old }
    ensures sizes { address_sizes state.new ≡ address_sizes state.old }
    ensures order { order_of t.new ≡ order_of t.old }
    ensures does { IfOk result (Does (endian_of state.old) (address_sizes state.old) (effect.Load out.now space.now pointer.now)
        (byte_at state.old) (temporary_bytes t.old) (byte_at state.new) (temporary_bytes t.new)) }
    ensures unchanged { OnErr result (byte_at state.new ≡ byte_at state.old) }
{
    if out.size.is_narrow() && pointer.size.is_narrow() {
        return load_narrow(state, t, out, space, pointer);
    }
    step::load(state, t, *out, *space, *pointer)
}

// The same, of at most 8 bytes.
fn load_narrow(
    state: &mut State,
    t: &mut Temporaries,
    out: &Varnode,
    space: &Varnode,
    pointer: &Varnode,
) -> Result<Then, AllocError>
    requires narrow_out { out.now.size.bytes ≤ 8 }
    requires narrow_pointer { pointer.now.size.bytes ≤ 8 }
    requires formed { IsSpace (address_sizes state.old) space.now }
    requires out { IsWritable (address_sizes state.old) out.now }
    requires range { IsInRange (address_sizes state.old) pointer.now }
    requires order { order_of t.old ≡ endian_of state.old }
    ensures endian { endian_of state.new ≡ endian_of state.old }
    ensures sizes { address_sizes state.new ≡ address_sizes state.old }
    ensures order { order_of t.new ≡ order_of t.old }
    ensures does { IfOk result (Does (endian_of state.old) (address_sizes state.old) (effect.Load out.now space.now pointer.now)
        (byte_at state.old) (temporary_bytes t.old) (byte_at state.new) (temporary_bytes t.new)) }
    ensures unchanged { OnErr result (byte_at state.new ≡ byte_at state.old) }
{
    let offset = read(state, t, pointer).bits;
    let word = state.read_narrow(SpaceId(space.offset as u32), offset, out.size);
    write(state, t, out, word)?;
    Ok(Then::Next)
}

/// Puts a value into a space at a pointer.
pub(crate) fn store(
    state: &mut State,
    t: &Temporaries,
    space: &Varnode,
    pointer: &Varnode,
    value: &Varnode,
) -> Result<Then, AllocError>
    requires formed { IsSpace (address_sizes state.old) space.now }
    requires pointer { IsInRange (address_sizes state.old) pointer.now }
    requires value { IsInRange (address_sizes state.old) value.now }
    requires order { order_of t.now ≡ endian_of state.old }
    ensures endian { endian_of state.new ≡ endian_of state.old }
    ensures sizes { address_sizes state.new ≡ address_sizes state.old }
    ensures does { IfOk result (Does (endian_of state.old) (address_sizes state.old) (effect.Store space.now pointer.now value.now)
        (byte_at state.old) (temporary_bytes t.now) (byte_at state.new) (temporary_bytes t.now)) }
    ensures unchanged { OnErr result (byte_at state.new ≡ byte_at state.old) }
{
    if pointer.size.is_narrow() && value.size.is_narrow() {
        return store_narrow(state, t, space, pointer, value);
    }
    step::store(state, t, *space, *pointer, *value)
}

// The same, of at most 8 bytes.
fn store_narrow(
    state: &mut State,
    t: &Temporaries,
    space: &Varnode,
    pointer: &Varnode,
    value: &Varnode,
) -> Result<Then, AllocError>
    requires narrow_pointer { pointer.now.size.bytes ≤ 8 }
    requires narrow_value { value.now.size.bytes ≤ 8 }
    requires formed { IsSpace (address_sizes state.old) space.now }
    requires pointer { IsInRange (address_sizes state.old) pointer.now }
    requires value { IsInRange (address_sizes state.old) value.now }
    requires order { order_of t.now ≡ endian_of state.old }
    ensures endian { endian_of state.new ≡ endian_of state.old }
    ensures sizes { address_sizes state.new ≡ address_sizes state.old }
    ensures does { IfOk result (Does (endian_of state.old) (address_sizes state.old) (effect.Store space.now pointer.now value.now)
        (byte_at state.old) (temporary_bytes t.now) (byte_at state.new) (temporary_bytes t.now)) }
    ensures unchanged { OnErr result (byte_at state.new ≡ byte_at state.old) }
{
    let offset = read(state, t, pointer).bits;
    let word = read(state, t, value);
    state.write_narrow(SpaceId(space.offset as u32), offset, word)?;
    Ok(Then::Next)
}

/// What follows a jump that is taken where the condition isn't 0.
pub(crate) fn cbranch(state: &State, t: &Temporaries, target: &Varnode, condition: &Varnode) -> Then
    requires near { IsNear target.now.place target.now.offset }
    requires range { IsInRange (address_sizes state.now) condition.now }
    requires order { order_of t.now ≡ endian_of state.now }
    ensures { Does (endian_of state.now) (address_sizes state.now) (effect.CBranch target.now condition.now)
        (byte_at state.now) (temporary_bytes t.now) (byte_at state.now) (temporary_bytes t.now) result }
{
    if !condition.size.is_narrow() {
        return step::cbranch(state, t, *target, *condition);
    }
    if read(state, t, condition).bits == 0 {
        Then::Next
    } else {
        target_then(*target)
    }
}
