//! One call of the tool.

use sl_emu::Emu;
use sl_outside::{MemFiles, MemSink};
use sl_tool::{Status, run_tool};
use std::alloc::{AllocError, Global};

/// Calls the tool with these words, the program's name among them, and says how it ended and how many operations of
/// p-code it ran.
pub fn called(
    alloc: Global,
    words: &[&str],
    files: &mut MemFiles,
    out: &mut MemSink,
) -> Result<(Status, u64), AllocError> {
    let mut all = Vec::new(alloc);
    for word in words {
        all.push(String::from_str(alloc, word)?)?;
    }
    let mut runner = Emu { count: 0 };
    let status = run_tool(alloc, all.as_slice(), files, out, &mut runner);
    Ok((status, runner.count))
}
