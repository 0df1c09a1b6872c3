//! Operations as numbers, for callers that take no more.

ghost use Rattle.std.specs.Prelude.{◌≡◌, ◌++◌, ◌∷◌, [], OnOk, IfOk};
ghost use Rattle.std.specs.List.{flat_map};
ghost use Rattle.sl_session.specs.Numbers.{numbers_of_op, numbers_of_out, number_of_code};
ghost use Rattle.sl_session.specs.Numbers.{number_of_place, numbers_of_varnode};

use sl_pcode::{Code, Op, Place2, Varnode};
use std::alloc::{AllocError, Global};

/// The number of a code, as Ghidra's decompiler numbers it.
pub fn number_of_code(code: Code) -> u64
    ensures { result ≡ number_of_code code }
{
    match code {
        Code::Copy => 1,
        Code::Load => 2,
        Code::Store => 3,
        Code::Branch => 4,
        Code::CBranch => 5,
        Code::BranchInd => 6,
        Code::Call => 7,
        Code::CallInd => 8,
        Code::CallOther => 9,
        Code::Return => 10,
        Code::IntEqual => 11,
        Code::IntNotEqual => 12,
        Code::IntSless => 13,
        Code::IntSlessEqual => 14,
        Code::IntLess => 15,
        Code::IntLessEqual => 16,
        Code::IntZext => 17,
        Code::IntSext => 18,
        Code::IntAdd => 19,
        Code::IntSub => 20,
        Code::IntCarry => 21,
        Code::IntScarry => 22,
        Code::IntSborrow => 23,
        Code::Int2Comp => 24,
        Code::IntNegate => 25,
        Code::IntXor => 26,
        Code::IntAnd => 27,
        Code::IntOr => 28,
        Code::IntLeft => 29,
        Code::IntRight => 30,
        Code::IntSright => 31,
        Code::IntMult => 32,
        Code::IntDiv => 33,
        Code::IntSdiv => 34,
        Code::IntRem => 35,
        Code::IntSrem => 36,
        Code::BoolNegate => 37,
        Code::BoolXor => 38,
        Code::BoolAnd => 39,
        Code::BoolOr => 40,
        Code::Subpiece => 63,
        Code::PopCount => 72,
        Code::LzCount => 73,
    }
}

/// The number of what an offset counts in: 0 for a constant, 1 for temporary bytes, and from 2 on the
/// address spaces in their order.
pub fn number_of_place(place: Place2) -> u64
    ensures { result ≡ number_of_place place }
{
    match place {
        Place2::Const => 0,
        Place2::Unique => 1,
        Place2::In(space) => 2 + u64::from(space.0),
    }
}

/// Appends the place of a varnode, its offset and its size.
fn push_varnode(out: &mut Vec<u64>, varnode: Varnode) -> Result<(), AllocError>
    ensures { OnOk result (out.new.items ≡ out.old.items ++ numbers_of_varnode varnode) }
{
    out.push(number_of_place(varnode.place))?;
    out.push(varnode.offset)?;
    out.push(u64::from(varnode.size.get()))?;
    Ok(())
}

/// Appends varnodes, one after another.
fn push_varnodes(out: &mut Vec<u64>, varnodes: &[Varnode]) -> Result<(), AllocError>
    ensures { OnOk result (out.new.items
        ≡ out.old.items ++ flat_map numbers_of_varnode varnodes.now) }
{
    'varnodes: for varnode in varnodes {
        push_varnode(out, *varnode)?;
    }
    Ok(())
}

/// Appends 1 and an output, or 0 where there is none.
fn push_out(out: &mut Vec<u64>, varnode: Option<Varnode>) -> Result<(), AllocError>
    ensures { OnOk result (out.new.items ≡ out.old.items ++ numbers_of_out varnode) }
{
    match varnode {
        Some(varnode) => {
            out.push(1)?;
            push_varnode(out, varnode)
        }
        None => {
            out.push(0)?;
            Ok(())
        }
    }
}

/// Appends an operation: its code, its output, how many inputs it has, and these.
fn push_op(out: &mut Vec<u64>, op: &Op) -> Result<(), AllocError>
    ensures { OnOk result (out.new.items ≡ out.old.items ++ numbers_of_op op.now) }
{
    out.push(number_of_code(op.code))?;
    push_out(out, op.out)?;
    out.push(op.inputs.len() as u64)?;
    push_varnodes(out, op.inputs.as_slice())
}

/// Operations as numbers, one after another.
pub fn numbers_of(alloc: Global, ops: &[Op]) -> Result<Vec<u64>, AllocError>
    ensures { IfOk result (λ numbers. numbers.items ≡ flat_map numbers_of_op ops.now) }
{
    let mut numbers = Vec::new(alloc);
    'ops: for op in ops {
        push_op(&mut numbers, op)?;
    }
    Ok(numbers)
}
