//! Operations that a list may have, and their texts, and such that none may have.

use sl_pcode::{Code, Names, Op, OpList, Place2, Varnode, print_op};
use sl_word::{AddressSize, Size, SpaceId};
use std::alloc::Global;
use std::test::Fail;

const RAM: Place2 = Place2::In(SpaceId(0));

const SMALL: Place2 = Place2::In(SpaceId(1));

const NONE: Place2 = Place2::In(SpaceId(2));

/// A varnode as place, offset and size.
type Node = (Place2, u64, u8);

/// A code, its output, its inputs, and its text; none where no list has it.
type Row = (Code, Option<Node>, &'static [Node], Option<&'static str>);

static ROWS: [Row; 26] = [
    (
        Code::IntAdd,
        Some((RAM, 0, 1)),
        &[(RAM, 0, 1), (Place2::Const, 1, 1)],
        Some("ram[0000]:1 = INT_ADD ram[0000]:1, 0x1:1"),
    ),
    (
        Code::IntAdd,
        Some((RAM, 0, 4)),
        &[(RAM, 0, 4), (RAM, 0, 2)],
        None,
    ),
    (Code::IntAdd, Some((RAM, 0, 4)), &[(RAM, 0, 4)], None),
    (Code::IntAdd, None, &[(RAM, 0, 4), (RAM, 0, 4)], None),
    (
        Code::Copy,
        Some((SMALL, 0xff, 16)),
        &[(Place2::Const, 0, 16)],
        Some("small[ff]:16 = COPY 0x0:16"),
    ),
    (
        Code::Copy,
        Some((SMALL, 0x100, 1)),
        &[(Place2::Const, 0, 1)],
        None,
    ),
    (
        Code::Copy,
        Some((RAM, 0, 1)),
        &[(Place2::Const, 0x100, 1)],
        None,
    ),
    (
        Code::Copy,
        Some((Place2::Const, 0, 1)),
        &[(RAM, 0, 1)],
        None,
    ),
    (Code::Copy, Some((NONE, 0, 1)), &[(RAM, 0, 1)], None),
    (
        Code::IntNotEqual,
        Some((RAM, 0, 1)),
        &[(Place2::Unique, 0x10, 4), (Place2::Const, 0xab, 4)],
        Some("ram[0000]:1 = INT_NOTEQUAL unique[00000010]:4, 0xab:4"),
    ),
    (
        Code::Int2Comp,
        Some((RAM, 0, 2)),
        &[(Place2::Unique, 0xffff_fffe, 2)],
        Some("ram[0000]:2 = INT_2COMP unique[fffffffe]:2"),
    ),
    (
        Code::Int2Comp,
        Some((RAM, 0, 2)),
        &[(Place2::Unique, 0xffff_ffff, 2)],
        None,
    ),
    (
        Code::Subpiece,
        Some((RAM, 0, 2)),
        &[(RAM, 0, 4), (Place2::Const, 2, 4)],
        Some("ram[0000]:2 = SUBPIECE ram[0000]:4, 0x2:4"),
    ),
    (
        Code::Subpiece,
        Some((RAM, 0, 2)),
        &[(RAM, 0, 4), (Place2::Const, 3, 4)],
        None,
    ),
    (
        Code::Load,
        Some((RAM, 0, 2)),
        &[(Place2::Const, 1, 8), (RAM, 0x1234, 2)],
        Some("ram[0000]:2 = LOAD small, ram[1234]:2"),
    ),
    (
        Code::Load,
        Some((RAM, 0, 4)),
        &[(Place2::Const, 2, 8), (RAM, 0, 4)],
        None,
    ),
    (
        Code::Store,
        None,
        &[(Place2::Const, 0, 8), (SMALL, 0, 1), (RAM, 4, 2)],
        Some("STORE ram, small[00]:1, ram[0004]:2"),
    ),
    (
        Code::Branch,
        None,
        &[(Place2::Const, 1, 4)],
        Some("BRANCH +1"),
    ),
    (Code::Branch, None, &[(Place2::Const, 2, 4)], None),
    (Code::Branch, None, &[(Place2::Const, 0xffff_ffff, 4)], None),
    (
        Code::Branch,
        None,
        &[(RAM, 0x10, 2)],
        Some("BRANCH ram[0010]:2"),
    ),
    (
        Code::CBranch,
        None,
        &[(Place2::Const, 0, 4), (RAM, 0, 2)],
        None,
    ),
    (
        Code::BranchInd,
        None,
        &[(Place2::Const, 4, 4)],
        Some("BRANCHIND 0x4:4"),
    ),
    (
        Code::CallOther,
        None,
        &[
            (Place2::Const, 1, 8),
            (Place2::Const, 1, 8),
            (Place2::Const, 2, 8),
            (Place2::Const, 3, 8),
        ],
        Some("CALLOTHER hlt, 0x1:8, 0x2:8, 0x3:8"),
    ),
    (
        Code::CallOther,
        None,
        &[(Place2::Const, 0x1_0000_0000, 8)],
        None,
    ),
    (
        Code::CallOther,
        Some((RAM, 0, 1)),
        &[(Place2::Const, 1, 4)],
        None,
    ),
];

fn varnode(node: Node) -> Result<Varnode, Fail> {
    let (place, offset, bytes) = node;
    let size = Size::new(bytes).ok_or("a size")?;
    Ok(Varnode {
        place,
        offset,
        size,
    })
}

fn made(alloc: Global, code: Code, out: Option<Node>, inputs: &[Node]) -> Result<Op, Fail> {
    let out = match out {
        Some(node) => Some(varnode(node)?),
        None => None,
    };
    let mut list = Vec::new(alloc);
    for node in inputs {
        list.push(varnode(*node)?)?;
    }
    Ok(Op::make_long(alloc, code, out, list.as_slice())?)
}

/// Two spaces with addresses of two bytes and of one, and two user operations.
fn names(alloc: Global) -> Result<Names, Fail> {
    let ram = String::from_str(alloc, "ram")?;
    let small = String::from_str(alloc, "small")?;
    let two = AddressSize::new(2).ok_or("a size")?;
    let one = AddressSize::new(1).ok_or("a size")?;
    let nop = String::from_str(alloc, "nop")?;
    let hlt = String::from_str(alloc, "hlt")?;
    Ok(Names {
        spaces: vec![in alloc; ram, small]?,
        sizes: vec![in alloc; two, one]?,
        userops: vec![in alloc; nop, hlt]?,
    })
}

#[test]
fn operations_of_lists(rt: HostRuntime) -> Result<(), Fail> {
    let names = names(rt.alloc())?;
    for (code, out, inputs, text) in &ROWS {
        let op = made(rt.alloc(), *code, *out, inputs)?;
        let mut printed = String::new(rt.alloc());
        print_op(&op, &names, &mut printed)?;
        let mut ops = Vec::new(rt.alloc());
        ops.push(op)?;
        let list = OpList::from_ops(ops, names.sizes.as_slice());
        assert_eq!(rt; list.is_some(), text.is_some(), "{printed}");
        if let Some(text) = text {
            assert_eq!(rt; printed.as_str(), *text);
        }
    }
    Ok(())
}

#[test]
fn a_list_gives_its_operations(rt: HostRuntime) -> Result<(), Fail> {
    let unique = varnode((Place2::Unique, 0, 2))?;
    let ram = varnode((RAM, 0x10, 2))?;
    let mut ops = Vec::new(rt.alloc());
    ops.push(Op::make(rt.alloc(), Code::IntAdd, Some(unique), &[ram, ram]))?;
    ops.push(Op::make(rt.alloc(), Code::Copy, Some(ram), &[unique]))?;
    let two = AddressSize::new(2).ok_or("a size")?;
    let list = OpList::from_ops(ops, &[two]).ok_or("a list")?;
    let [add, copy] = list.ops() else {
        return Err("two operations".into());
    };
    assert!(rt; add.code == Code::IntAdd && copy.code == Code::Copy);
    assert_eq!(rt; add.inputs.as_slice(), [ram, ram].as_slice());
    Ok(())
}
