//! What an operation does, with its operands where they stand.

ghost use Rattle.std.specs.Prelude.{◌≡◌, ◌∷◌, [], None, Some, IfOk, IfSome, OnErr};
ghost use Rattle.sl_word.specs.Bytes.{address_sizes, byte_at, endian_of};
ghost use Rattle.sl_pcode.specs.Codes.{kind_of};
ghost use Rattle.sl_pcode.specs.WellFormed.{IsWellFormedOp};
ghost use Rattle.sl_pcode.specs.declared.code.Kind.TheVariants as kind;
ghost use Rattle.sl_emu.specs.Steps.{OpDoes};
ghost use Rattle.sl_emu.specs.Temporaries.{order_of, temporary_bytes};

use crate::operands::{binary, cbranch, load, store, unary};
use crate::step::{Then, step};
use crate::temporaries::Temporaries;
use sl_pcode::{Kind, Op, Varnode};
use sl_word::{Op1, Op2, State};
use std::alloc::AllocError;

// The output and the input of an operation that has these alone.
fn one_input(op: &Op) -> Option<(&Varnode, &Varnode)>
    ensures { IfSome result (λ p. (op.now.out ≡ Some p.0.now) × (op.now.inputs.items ≡ p.1.now ∷ [])) }
{
    let [a] = op.inputs.as_slice() else {
        return None;
    };
    let out = op.out.as_ref()?;
    Some((out, a))
}

// The output and the two inputs of an operation that has these alone.
fn two_inputs(op: &Op) -> Option<(&Varnode, &Varnode, &Varnode)>
    ensures { IfSome result (λ p. (op.now.out ≡ Some p.0.now) × (op.now.inputs.items ≡ p.1.now ∷ p.2.now ∷ [])) }
{
    let [a, b] = op.inputs.as_slice() else {
        return None;
    };
    let out = op.out.as_ref()?;
    Some((out, a, b))
}

// The two inputs of an operation that has these alone, and no output.
fn two_operands(op: &Op) -> Option<(&Varnode, &Varnode)>
    ensures { IfSome result (λ p. (op.now.out ≡ None) × (op.now.inputs.items ≡ p.0.now ∷ p.1.now ∷ [])) }
{
    if op.out.is_some() {
        return None;
    }
    let [a, b] = op.inputs.as_slice() else {
        return None;
    };
    Some((a, b))
}

// The three inputs of an operation that has these alone, and no output.
fn three_inputs(op: &Op) -> Option<(&Varnode, &Varnode, &Varnode)>
    ensures { IfSome result (λ p. (op.now.out ≡ None) × (op.now.inputs.items ≡ p.0.now ∷ p.1.now ∷ p.2.now ∷ [])) }
{
    if op.out.is_some() {
        return None;
    }
    let [a, b, c] = op.inputs.as_slice() else {
        return None;
    };
    Some((a, b, c))
}

// Does what an operation does, by its effect. Where memory runs out the state is as before.
fn perform_effect(op: &Op, state: &mut State, t: &mut Temporaries) -> Result<Then, AllocError>
    requires formed { IsWellFormedOp (address_sizes state.old) op.now }
    requires order { order_of t.old ≡ endian_of state.old }
    ensures endian { endian_of state.new ≡ endian_of state.old }
    ensures sizes { address_sizes state.new ≡ address_sizes state.old }
    ensures order { order_of t.new ≡ order_of t.old }
    ensures does { IfOk result (OpDoes (endian_of state.old) (address_sizes state.old) op.now
        (byte_at state.old) (temporary_bytes t.old) (byte_at state.new) (temporary_bytes t.new)) }
    ensures unchanged { OnErr result (byte_at state.new ≡ byte_at state.old) }
{
    let effect = op.effect().unwrap();
    let then = step(effect, state, t)?;
    Ok(then)
}

// The same of an operation that makes its output of one input.
fn perform_unary(
    f: Op1,
    op: &Op,
    state: &mut State,
    t: &mut Temporaries,
) -> Result<Then, AllocError>
    requires kind { kind_of op.now.code ≡ kind.Unary f }
    requires formed { IsWellFormedOp (address_sizes state.old) op.now }
    requires order { order_of t.old ≡ endian_of state.old }
    ensures endian { endian_of state.new ≡ endian_of state.old }
    ensures sizes { address_sizes state.new ≡ address_sizes state.old }
    ensures order { order_of t.new ≡ order_of t.old }
    ensures does { IfOk result (OpDoes (endian_of state.old) (address_sizes state.old) op.now
        (byte_at state.old) (temporary_bytes t.old) (byte_at state.new) (temporary_bytes t.new)) }
    ensures unchanged { OnErr result (byte_at state.new ≡ byte_at state.old) }
{
    let Some((out, a)) = one_input(op) else {
        return perform_effect(op, state, t);
    };
    unary(state, t, f, out, a)?;
    Ok(Then::Next)
}

// The same of one that makes its output of two inputs.
fn perform_binary(
    f: Op2,
    op: &Op,
    state: &mut State,
    t: &mut Temporaries,
) -> Result<Then, AllocError>
    requires kind { kind_of op.now.code ≡ kind.Binary f }
    requires formed { IsWellFormedOp (address_sizes state.old) op.now }
    requires order { order_of t.old ≡ endian_of state.old }
    ensures endian { endian_of state.new ≡ endian_of state.old }
    ensures sizes { address_sizes state.new ≡ address_sizes state.old }
    ensures order { order_of t.new ≡ order_of t.old }
    ensures does { IfOk result (OpDoes (endian_of state.old) (address_sizes state.old) op.now
        (byte_at state.old) (temporary_bytes t.old) (byte_at state.new) (temporary_bytes t.new)) }
    ensures unchanged { OnErr result (byte_at state.new ≡ byte_at state.old) }
{
    let Some((out, a, b)) = two_inputs(op) else {
        return perform_effect(op, state, t);
    };
    let then = binary(state, t, f, out, a, b)?;
    Ok(then)
}

// The same of a LOAD.
fn perform_load(op: &Op, state: &mut State, t: &mut Temporaries) -> Result<Then, AllocError>
    requires kind { kind_of op.now.code ≡ kind.Load }
    requires formed { IsWellFormedOp (address_sizes state.old) op.now }
    requires order { order_of t.old ≡ endian_of state.old }
    ensures endian { endian_of state.new ≡ endian_of state.old }
    ensures sizes { address_sizes state.new ≡ address_sizes state.old }
    ensures order { order_of t.new ≡ order_of t.old }
    ensures does { IfOk result (OpDoes (endian_of state.old) (address_sizes state.old) op.now
        (byte_at state.old) (temporary_bytes t.old) (byte_at state.new) (temporary_bytes t.new)) }
    ensures unchanged { OnErr result (byte_at state.new ≡ byte_at state.old) }
{
    let Some((out, space, pointer)) = two_inputs(op) else {
        return perform_effect(op, state, t);
    };
    let then = load(state, t, out, space, pointer)?;
    Ok(then)
}

// The same of a STORE.
fn perform_store(op: &Op, state: &mut State, t: &mut Temporaries) -> Result<Then, AllocError>
    requires kind { kind_of op.now.code ≡ kind.Store }
    requires formed { IsWellFormedOp (address_sizes state.old) op.now }
    requires order { order_of t.old ≡ endian_of state.old }
    ensures endian { endian_of state.new ≡ endian_of state.old }
    ensures sizes { address_sizes state.new ≡ address_sizes state.old }
    ensures order { order_of t.new ≡ order_of t.old }
    ensures does { IfOk result (OpDoes (endian_of state.old) (address_sizes state.old) op.now
        (byte_at state.old) (temporary_bytes t.old) (byte_at state.new) (temporary_bytes t.new)) }
    ensures unchanged { OnErr result (byte_at state.new ≡ byte_at state.old) }
{
    let Some((space, pointer, value)) = three_inputs(op) else {
        return perform_effect(op, state, t);
    };
    let then = store(state, t, space, pointer, value)?;
    Ok(then)
}

// The same of a CBRANCH.
fn perform_cbranch(op: &Op, state: &mut State, t: &mut Temporaries) -> Result<Then, AllocError>
    requires kind { kind_of op.now.code ≡ kind.CBranch }
    requires formed { IsWellFormedOp (address_sizes state.old) op.now }
    requires order { order_of t.old ≡ endian_of state.old }
    ensures endian { endian_of state.new ≡ endian_of state.old }
    ensures sizes { address_sizes state.new ≡ address_sizes state.old }
    ensures order { order_of t.new ≡ order_of t.old }
    ensures does { IfOk result (OpDoes (endian_of state.old) (address_sizes state.old) op.now
        (byte_at state.old) (temporary_bytes t.old) (byte_at state.new) (temporary_bytes t.new)) }
    ensures unchanged { OnErr result (byte_at state.new ≡ byte_at state.old) }
{
    let Some((target, condition)) = two_operands(op) else {
        return perform_effect(op, state, t);
    };
    let then = cbranch(state, t, target, condition);
    Ok(then)
}

/// Does what an operation does. Where memory runs out the state is as before.
pub(crate) fn perform(op: &Op, state: &mut State, t: &mut Temporaries) -> Result<Then, AllocError>
    requires formed { IsWellFormedOp (address_sizes state.old) op.now }
    requires order { order_of t.old ≡ endian_of state.old }
    ensures endian { endian_of state.new ≡ endian_of state.old }
    ensures sizes { address_sizes state.new ≡ address_sizes state.old }
    ensures order { order_of t.new ≡ order_of t.old }
    ensures does { IfOk result (OpDoes (endian_of state.old) (address_sizes state.old) op.now
        (byte_at state.old) (temporary_bytes t.old) (byte_at state.new) (temporary_bytes t.new)) }
    ensures unchanged { OnErr result (byte_at state.new ≡ byte_at state.old) }
{
    match op.code.kind() {
        Kind::Unary(f) => perform_unary(f, op, state, t),
        Kind::Binary(f) => perform_binary(f, op, state, t),
        Kind::Load => perform_load(op, state, t),
        Kind::Store => perform_store(op, state, t),
        Kind::CBranch => perform_cbranch(op, state, t),
        _ => perform_effect(op, state, t),
    }
}
