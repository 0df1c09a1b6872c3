//! What operations do with their operands.

ghost use Rattle.std.specs.Prelude.{◌≡◌, ◌^◌, ◌<◌, ◌↔◌, IsTrue};
ghost use Rattle.sl_word.specs.Sizes.{byte_counts};
ghost use Rattle.sl_pcode.specs.Effects.{effect_by, effect_of, first_of_all, one_of, three_of, two_of};
ghost use Rattle.sl_pcode.specs.Targets.{IsWithin, LeadsWithin};
ghost use Rattle.sl_pcode.specs.WellFormed.{IsAmount, IsDirect, IsFormed, IsSpace, IsTarget, StaysWithin};
ghost use Rattle.sl_pcode.specs.declared.code.Kind.TheVariants as kind;

use crate::{Kind, Op, Place2, Varnode};
use sl_word::{AddressSize, Op1, Op2};

/// What an operation does, with its operands by their parts in it.
#[derive(Clone, Copy, Debug, PartialEq, Eq)]
pub enum Effect {
    /// The output becomes what the operation makes of the input.
    Unary(Op1, Varnode, Varnode),
    /// The output becomes what the operation makes of the two inputs.
    Binary(Op2, Varnode, Varnode, Varnode),
    /// The output becomes the bytes of a space, by its number, at a pointer.
    Load(Varnode, Varnode, Varnode),
    /// The bytes of a space, by its number, at a pointer become a value.
    Store(Varnode, Varnode, Varnode),
    /// The run goes on at a target.
    Branch(Varnode),
    /// The run goes on at a target, where the condition isn't 0.
    CBranch(Varnode, Varnode),
    /// The run leaves the list to an address.
    Call(Varnode),
    /// The run leaves the list to the address that the input has.
    Indirect(Varnode),
    /// The user operation of this number.
    UserOp(Varnode),
}

impl Op {
    /// What the operation does. None where it lacks operands that its code takes, or has others.
    pub fn effect(&self) -> Option<Effect>
        ensures { result ≡ effect_of self.now }
    {
        let inputs = self.inputs.as_slice();
        match self.code.kind() {
            Kind::Unary(op) => unary(op, self.out, inputs),
            Kind::Binary(op) => binary(op, self.out, inputs),
            Kind::Load => load(self.out, inputs),
            Kind::Store => store(self.out, inputs),
            Kind::Branch => branch(self.out, inputs),
            Kind::CBranch => cbranch(self.out, inputs),
            Kind::Call => call(self.out, inputs),
            Kind::Indirect => indirect(self.out, inputs),
            Kind::UserOp => user_op(self.out, inputs),
        }
    }
}

fn unary(op: Op1, out: Option<Varnode>, inputs: &[Varnode]) -> Option<Effect>
    ensures { result ≡ effect_by (kind.Unary op) out inputs.now }
{
    let out = out?;
    let a = one(inputs)?;
    Some(Effect::Unary(op, out, a))
}

fn binary(op: Op2, out: Option<Varnode>, inputs: &[Varnode]) -> Option<Effect>
    ensures { result ≡ effect_by (kind.Binary op) out inputs.now }
{
    let out = out?;
    let (a, b) = two(inputs)?;
    Some(Effect::Binary(op, out, a, b))
}

fn load(out: Option<Varnode>, inputs: &[Varnode]) -> Option<Effect>
    ensures { result ≡ effect_by kind.Load out inputs.now }
{
    let out = out?;
    let (space, pointer) = two(inputs)?;
    Some(Effect::Load(out, space, pointer))
}

fn store(out: Option<Varnode>, inputs: &[Varnode]) -> Option<Effect>
    ensures { result ≡ effect_by kind.Store out inputs.now }
{
    if out.is_some() {
        return None;
    }
    let (space, pointer, value) = three(inputs)?;
    Some(Effect::Store(space, pointer, value))
}

fn branch(out: Option<Varnode>, inputs: &[Varnode]) -> Option<Effect>
    ensures { result ≡ effect_by kind.Branch out inputs.now }
{
    if out.is_some() {
        return None;
    }
    let target = one(inputs)?;
    Some(Effect::Branch(target))
}

fn cbranch(out: Option<Varnode>, inputs: &[Varnode]) -> Option<Effect>
    ensures { result ≡ effect_by kind.CBranch out inputs.now }
{
    if out.is_some() {
        return None;
    }
    let (target, condition) = two(inputs)?;
    Some(Effect::CBranch(target, condition))
}

fn call(out: Option<Varnode>, inputs: &[Varnode]) -> Option<Effect>
    ensures { result ≡ effect_by kind.Call out inputs.now }
{
    if out.is_some() {
        return None;
    }
    let target = one(inputs)?;
    Some(Effect::Call(target))
}

fn indirect(out: Option<Varnode>, inputs: &[Varnode]) -> Option<Effect>
    ensures { result ≡ effect_by kind.Indirect out inputs.now }
{
    if out.is_some() {
        return None;
    }
    let pointer = one(inputs)?;
    Some(Effect::Indirect(pointer))
}

fn user_op(out: Option<Varnode>, inputs: &[Varnode]) -> Option<Effect>
    ensures { result ≡ effect_by kind.UserOp out inputs.now }
{
    if out.is_some() {
        return None;
    }
    let number = first(inputs)?;
    Some(Effect::UserOp(number))
}

fn one(inputs: &[Varnode]) -> Option<Varnode>
    ensures { result ≡ one_of inputs.now }
{
    let [a] = inputs else {
        return None;
    };
    Some(*a)
}

fn two(inputs: &[Varnode]) -> Option<(Varnode, Varnode)>
    ensures { result ≡ two_of inputs.now }
{
    let [a, b] = inputs else {
        return None;
    };
    Some((*a, *b))
}

fn three(inputs: &[Varnode]) -> Option<(Varnode, Varnode, Varnode)>
    ensures { result ≡ three_of inputs.now }
{
    let [a, b, c] = inputs else {
        return None;
    };
    Some((*a, *b, *c))
}

fn first(inputs: &[Varnode]) -> Option<Varnode>
    ensures { result ≡ first_of_all inputs.now }
{
    let [a, ..] = inputs else {
        return None;
    };
    Some(*a)
}

impl Effect {
    // Whether the operands have the sizes and the places that the effect takes.
    pub(crate) fn is_formed(self, sizes: &[AddressSize]) -> bool
        ensures { IsTrue result ↔ IsFormed (byte_counts sizes.now) self }
    {
        match self {
            Effect::Unary(op, out, a) => op.takes_sizes(a.size, out.size),
            Effect::Binary(op, out, a, b) => {
                op.takes_sizes(a.size, b.size, b.offset, out.size) && is_amount(op, b)
            }
            Effect::Load(_, space, _) => is_space(sizes, space),
            Effect::Store(space, _, _) => is_space(sizes, space),
            Effect::Branch(target) => is_target(target),
            Effect::CBranch(target, condition) => is_target(target) && condition.size.get() == 1,
            Effect::Call(target) => is_direct(target),
            Effect::Indirect(_) => true,
            Effect::UserOp(number) => {
                number.place == Place2::Const && number.offset < USER_OPS_END
            }
        }
    }

    // Whether a jump to a place of the list, from the place `at` of `count` operations, stays inside.
    pub(crate) fn stays_within(self, at: usize, count: usize) -> bool
        ensures { IsTrue result ↔ StaysWithin at count self }
    {
        match self {
            Effect::Branch(target) => leads_within(at, count, target),
            Effect::CBranch(target, _) => leads_within(at, count, target),
            _ => true,
        }
    }
}

// The numbers of user operations are below this.
const USER_OPS_END: u64 = 1 << 32;

// Distances between places of a list have four bytes; from this on they stand for negative ones.
const LEAST_NEGATIVE: u64 = 1 << 31;

const DISTANCES: u128 = 1 << 32;

fn is_amount(op: Op2, b: Varnode) -> bool
    ensures { IsTrue result ↔ IsAmount op b }
{
    op != Op2::Subpiece || b.place == Place2::Const
}

fn is_space(sizes: &[AddressSize], space: Varnode) -> bool
    ensures { IsTrue result ↔ IsSpace (byte_counts sizes.now) space }
{
    space.place == Place2::Const && space.offset < sizes.len() as u64
}

fn is_target(target: Varnode) -> bool
    ensures { IsTrue result ↔ IsTarget target }
{
    match target.place {
        Place2::Const => target.size.get() == 4,
        Place2::Unique => false,
        Place2::In(_) => true,
    }
}

fn is_direct(target: Varnode) -> bool
    ensures { IsTrue result ↔ IsDirect target }
{
    matches!(target.place, Place2::In(_))
}

fn leads_within(at: usize, count: usize, target: Varnode) -> bool
    ensures { IsTrue result ↔ LeadsWithin at count target }
{
    match target.place {
        Place2::Const => is_within(at, count, target.offset),
        _ => true,
    }
}

fn is_within(at: usize, count: usize, distance: u64) -> bool
    ensures { IsTrue result ↔ IsWithin at count distance }
{
    let sum = at as u128 + u128::from(distance);
    if distance < LEAST_NEGATIVE {
        sum <= count as u128
    } else {
        DISTANCES <= sum && sum - DISTANCES <= count as u128
    }
}
