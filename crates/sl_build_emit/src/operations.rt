//! The operations so far, and one more.

ghost use Rattle.std.specs.Prelude.{◌≡◌, ◌≤◌, ◌++◌, ◌∷◌, [], None, length, IfOk, OnOk};
ghost use Rattle.sl_faithful_code.specs.Bits as bits;
ghost use Rattle.sl_faithful_code.specs.Operations as o;
ghost use Rattle.sl_build_emit.specs.Views.{operations_of};
ghost use Rattle.sl_pcode.specs.declared.code.Code.TheVariants.{CallOther};

use sl_build_template::amount;
use sl_pcode::{Code, Op, Place2, Varnode};
use sl_word::{Op1, Op2, Size, SpaceId};
use std::alloc::{AllocError, Global};
use std::marker::Model;

/// The operations so far. Contracts see them by their parts.
#[derive(Drop)]
pub(crate) struct Operations {
    alloc: Global,
    ops: Vec<Op>,
}

impl Model for Operations {
    ghost use Rattle.std.specs.Prelude.{List};
    ghost use Rattle.sl_faithful_code.specs.Operations.{Operation};
    ghost use Rattle.sl_build_emit.specs.Views.{operations_of};

    ghost Value = { List Operation };

    ghost view = { λ a. operations_of a.ops.items };
}

fn unary_code(op: Op1) -> Code
    ensures { result ≡ o.unary_code op }
{
    match op {
        Op1::Copy => Code::Copy,
        Op1::IntNegate => Code::IntNegate,
        Op1::Int2Comp => Code::Int2Comp,
        Op1::BoolNegate => Code::BoolNegate,
        Op1::IntZext => Code::IntZext,
        Op1::IntSext => Code::IntSext,
        Op1::PopCount => Code::PopCount,
        Op1::LzCount => Code::LzCount,
    }
}

fn binary_code(op: Op2) -> Code
    ensures { result ≡ o.binary_code op }
{
    match op {
        Op2::IntAdd => Code::IntAdd,
        Op2::IntSub => Code::IntSub,
        Op2::IntMult => Code::IntMult,
        Op2::IntDiv => Code::IntDiv,
        Op2::IntRem => Code::IntRem,
        Op2::IntSdiv => Code::IntSdiv,
        Op2::IntSrem => Code::IntSrem,
        Op2::IntLeft => Code::IntLeft,
        Op2::IntRight => Code::IntRight,
        Op2::IntSright => Code::IntSright,
        Op2::IntAnd => Code::IntAnd,
        Op2::IntOr => Code::IntOr,
        Op2::IntXor => Code::IntXor,
        Op2::IntEqual => Code::IntEqual,
        Op2::IntNotEqual => Code::IntNotEqual,
        Op2::IntLess => Code::IntLess,
        Op2::IntLessEqual => Code::IntLessEqual,
        Op2::IntSless => Code::IntSless,
        Op2::IntSlessEqual => Code::IntSlessEqual,
        Op2::IntCarry => Code::IntCarry,
        Op2::IntScarry => Code::IntScarry,
        Op2::IntSborrow => Code::IntSborrow,
        Op2::BoolAnd => Code::BoolAnd,
        Op2::BoolOr => Code::BoolOr,
        Op2::BoolXor => Code::BoolXor,
        Op2::Subpiece => Code::Subpiece,
    }
}

/// The constant 0.
fn is_zero(v: Varnode) -> bool
    ensures { result ≡ o.is_zero v }
{
    match v.place {
        Place2::Const => v.offset == 0,
        Place2::Unique => false,
        Place2::In(_) => false,
    }
}

/// Whether an operator of one operand leaves a value as it is.
fn keeps(op: Op1, to: Size, a: Size) -> bool
    ensures { result ≡ o.keeps op to.bytes a.bytes }
{
    match op {
        Op1::IntZext | Op1::IntSext => to.bytes == a.bytes,
        Op1::Copy | Op1::IntNegate | Op1::Int2Comp => false,
        Op1::BoolNegate | Op1::PopCount | Op1::LzCount => false,
    }
}

/// Whether 0 as the second operand of an operator leaves the first as it is.
fn takes_nothing(op: Op2) -> bool
    ensures { result ≡ o.takes_nothing op }
{
    match op {
        Op2::IntAdd | Op2::IntLeft | Op2::IntRight | Op2::IntSright | Op2::Subpiece => true,
        Op2::IntSub | Op2::IntMult => false,
        Op2::IntDiv | Op2::IntRem | Op2::IntSdiv | Op2::IntSrem => false,
        Op2::IntAnd | Op2::IntOr | Op2::IntXor => false,
        Op2::IntEqual | Op2::IntNotEqual => false,
        Op2::IntLess | Op2::IntLessEqual | Op2::IntSless | Op2::IntSlessEqual => false,
        Op2::IntCarry | Op2::IntScarry | Op2::IntSborrow => false,
        Op2::BoolAnd | Op2::BoolOr | Op2::BoolXor => false,
    }
}

/// Whether an operator's value is that of its first operand.
fn keeps_first(op: Op2, to: Size, a: Size, b: Varnode) -> bool
    ensures { result ≡ o.keeps_first op to.bytes a.bytes b }
{
    takes_nothing(op) && (is_zero(b) && to.bytes == a.bytes)
}

/// Whether an operator's value is that of its second operand.
fn keeps_second(op: Op2, to: Size, a: Varnode) -> bool
    ensures { result ≡ o.keeps_second op to.bytes a }
{
    match op {
        Op2::IntAdd => is_zero(a) && to.bytes == a.size.bytes,
        _ => false,
    }
}

impl Operations {
    pub(crate) fn new(alloc: Global) -> Operations
        ensures { result ≡ [] }
    {
        Operations {
            alloc,
            ops: Vec::new(alloc),
        }
    }

    /// Where lists get their memory.
    pub(crate) fn alloc(&self) -> Global {
        self.alloc
    }

    pub(crate) fn len(&self) -> usize
        ensures { result ≡ length self.now }
    {
        self.ops.len()
    }

    pub(crate) fn into_list(self) -> Vec<Op>
        ensures { operations_of result.items ≡ self }
    {
        self.ops
    }

    /// An operation with at most three inputs.
    fn put(&mut self, code: Code, to: Option<Varnode>, inputs: &[Varnode]) -> Result<(), AllocError>
        requires { length inputs.now ≤ 3 }
        ensures { OnOk result (self.new
            ≡ self.old ++ record { code = code; out = to; inputs = inputs.now } ∷ []) }
    {
        self.ops.push(Op::make(self.alloc, code, to, inputs))?;
        Ok(())
    }

    fn by_one(&mut self, op: Op1, to: Varnode, a: Varnode) -> Result<(), AllocError>
        ensures { OnOk result (self.new ≡ self.old ++ o.by_one op to a ∷ []) }
    {
        self.put(unary_code(op), Some(to), &[a])
    }

    fn by_two(&mut self, op: Op2, to: Varnode, a: Varnode, b: Varnode) -> Result<(), AllocError>
        ensures { OnOk result (self.new ≡ self.old ++ o.by_two op to a b ∷ []) }
    {
        self.put(binary_code(op), Some(to), &[a, b])
    }

    /// The value of an operator: a COPY where that is the operand's own.
    #[tactic(auto, unfolding(sl_faithful_code::specs::Operations::unary))]
    pub(crate) fn unary(&mut self, op: Op1, to: Varnode, a: Varnode) -> Result<(), AllocError>
        ensures { OnOk result (self.new ≡ self.old ++ o.unary op to a ∷ []) }
    {
        if keeps(op, to.size, a.size) {
            return self.by_one(Op1::Copy, to, a);
        }
        self.by_one(op, to, a)
    }

    /// The value of an operator: a COPY where that is the value of one operand.
    #[tactic(auto, unfolding(sl_faithful_code::specs::Operations::binary))]
    pub(crate) fn binary(
        &mut self,
        op: Op2,
        to: Varnode,
        a: Varnode,
        b: Varnode,
    ) -> Result<(), AllocError>
        ensures { OnOk result (self.new ≡ self.old ++ o.binary op to a b ∷ []) }
    {
        if keeps_first(op, to.size, a.size, b) {
            return self.by_one(Op1::Copy, to, a);
        }
        if keeps_second(op, to.size, a) {
            return self.by_one(Op1::Copy, to, b);
        }
        self.by_two(op, to, a, b)
    }

    /// The same where it is wanted. The result is where the value is then: `to`, or else still `a`.
    pub(crate) fn binary_where(
        &mut self,
        wanted: bool,
        op: Op2,
        to: Varnode,
        a: Varnode,
        b: Varnode,
    ) -> Result<Varnode, AllocError>
        ensures code { OnOk result (self.new ≡ self.old ++ bits.taken wanted (o.binary op to a b)) }
        ensures at { IfOk result (λ v. v ≡ bits.moved wanted to a) }
    {
        if wanted {
            self.binary(op, to, a, b)?;
            return Ok(to);
        }
        Ok(a)
    }

    pub(crate) fn load(
        &mut self,
        to: Varnode,
        space: SpaceId,
        pointer: Varnode,
    ) -> Result<(), AllocError>
        ensures { OnOk result (self.new ≡ self.old ++ o.load_from to space.0 pointer ∷ []) }
    {
        let number = amount(u64::from(space.0));
        self.put(Code::Load, Some(to), &[number, pointer])
    }

    pub(crate) fn store(
        &mut self,
        space: SpaceId,
        pointer: Varnode,
        v: Varnode,
    ) -> Result<(), AllocError>
        ensures { OnOk result (self.new ≡ self.old ++ o.store_to space.0 pointer v ∷ []) }
    {
        let number = amount(u64::from(space.0));
        self.put(Code::Store, None, &[number, pointer, v])
    }

    /// A jump, a call or a return.
    pub(crate) fn exit(&mut self, code: Code, target: Varnode) -> Result<(), AllocError>
        ensures { OnOk result (self.new ≡ self.old ++ o.exit code target ∷ []) }
    {
        self.put(code, None, &[target])
    }

    /// A jump where a condition isn't 0.
    pub(crate) fn exit_if(&mut self, target: Varnode, condition: Varnode) -> Result<(), AllocError>
        ensures { OnOk result (self.new ≡ self.old ++ o.exit_if target condition ∷ []) }
    {
        self.put(Code::CBranch, None, &[target, condition])
    }

    /// A user operation by its number, with its arguments behind it.
    pub(crate) fn call(&mut self, inputs: &[Varnode]) -> Result<(), AllocError>
        ensures { OnOk result (self.new
            ≡ self.old ++ record { code = CallOther; out = None; inputs = inputs.now } ∷ []) }
    {
        let op = Op::make_long(self.alloc, Code::CallOther, None, inputs)?;
        self.ops.push(op)?;
        Ok(())
    }

    /// An operation once more.
    fn copy(&mut self, op: &Op) -> Result<(), AllocError>
        ensures { OnOk result (self.new ≡ self.old ++ o.operation_of op.now ∷ []) }
    {
        let copy = Op::make_long(self.alloc, op.code, op.out, op.inputs.as_slice())?;
        self.ops.push(copy)?;
        Ok(())
    }

    /// A list once more.
    pub(crate) fn copy_all(&mut self, list: &[Op]) -> Result<(), AllocError>
        ensures { OnOk result (self.new ≡ self.old ++ operations_of list.now) }
    {
        'list: for index in 0..list.len() {
            self.copy(&list[index])?;
        }
        Ok(())
    }
}
