//! What all nodes of an instruction share.

ghost use Rattle.std.specs.Prelude.{◌≡◌, ◌+◌, ◌≤◌, ◌^◌, ◌*◌, IfOk, IsOk};
ghost use Rattle.sl_faithful_code.specs.Nodes.{top_of};
ghost use Rattle.sl_spec_tables.specs.TableRules.{most_nodes};

use crate::sections::Sections;
use sl_build_emit::Number;
use std::alloc::AllocError;

/// The most nodes of an instruction (rule 36).
const MOST_NODES: usize = 1024;

/// An instruction whose list is made.
#[derive(Drop)]
pub(crate) struct Work<'w, 'b, 'a> {
    pub of: &'w Sections<'b, 'a>,
    pub bytes: &'w [u8],
    /// The values of the action names of all nodes.
    pub values: &'w [i64],
    /// `inst_start`
    pub start: Number,
    /// `inst_next`
    pub next: Number,
    /// Where temporary values begin, behind all locals.
    pub top: u64,
    ghost low: { top ≤ 2 ^ 32 },
}

/// Where the temporary values of an instruction begin. More nodes would be want of memory.
pub(crate) fn top_of(nodes: usize) -> Result<u64, AllocError>
    ensures value { IfOk result (λ top. top ≡ top_of nodes) }
    ensures low { IfOk result (λ top. top ≤ 2 ^ 32) }
    ensures few { nodes ≤ most_nodes → IsOk result }
{
    if nodes > MOST_NODES {
        return Err(AllocError);
    }
    Ok(nodes as u64 * 65536 * 16)
}

/// The number of a node. 2^32 of them would be want of memory.
pub(crate) fn small(index: usize) -> Result<u32, AllocError>
    ensures { IfOk result (λ n. n ≡ index) }
{
    match u32::try_from(index) {
        Ok(n) => Ok(n),
        Err(_) => Err(AllocError),
    }
}

/// One more. 2^64 nodes would be want of memory.
pub(crate) fn one_more(count: usize) -> Result<usize, AllocError>
    ensures { IfOk result (λ n. n ≡ count + 1) }
{
    count.checked_add(1).ok_or(AllocError)
}
