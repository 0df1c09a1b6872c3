//! Lines of operations, each appended to a buffer.

ghost use Rattle.std.specs.Prelude.{◌≡◌, ◌++◌, OnOk};
ghost use Rattle.sl_list_pcode.specs.Names.{op_line, op_lines};
ghost use Rattle.sl_list_pcode.specs.Ready.{built_lines};

use sl_build::Built;
use sl_pcode::{Names, Op, print_op};
use std::alloc::{AllocError, Global};

/// Room for the text of an operation: most texts are shorter, and a longer one makes more room.
const ROOM: usize = 96;

/// Appends an operation, on a line of its own behind two spaces. What `text` has is replaced by the
/// text of the operation.
fn push_op(op: &Op, names: &Names, text: &mut String, out: &mut Vec<u8>) -> Result<(), AllocError>
    ensures { OnOk result (out.new.items ≡ out.old.items ++ op_line names.now op.now) }
{
    text.clear();
    print_op(op, names, text)?;
    out.extend_from_slice(b"  ")?;
    out.extend_from_slice(text.as_bytes())?;
    out.extend_from_slice(b"\n")
}

/// Appends operations, each on a line of its own.
fn push_ops(alloc: Global, ops: &[Op], names: &Names, out: &mut Vec<u8>) -> Result<(), AllocError>
    ensures { OnOk result (out.new.items ≡ out.old.items ++ op_lines names.now ops.now) }
{
    let mut text = String::with_capacity(alloc, ROOM)?;
    'ops: for op in ops {
        push_op(op, names, &mut text, out)?;
    }
    Ok(())
}

/// Appends the lines of what an instruction is built to. Where memory runs out the buffer may have
/// a part of them.
pub fn push_built(
    alloc: Global,
    built: &Built,
    names: &Names,
    out: &mut Vec<u8>,
) -> Result<(), AllocError>
    ensures { OnOk result (out.new.items ≡ out.old.items ++ built_lines names.now built.now) }
{
    match built {
        Built::Unimplemented => out.extend_from_slice(b"  unimplemented\n"),
        Built::Ops(list) => push_ops(alloc, list.ops(), names, out),
    }
}
