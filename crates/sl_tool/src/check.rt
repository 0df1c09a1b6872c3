//! `check`: how many tables and constructors a sound specification has, and notes on its text.

ghost use Rattle.std.specs.Prelude.{◌≡◌, ◌++◌, IfOk, OnOk, length};
ghost use Rattle.sl_outside.specs.Uses.{UsesSink};
ghost use Rattle.sl_tool.specs.Answers.{checked_text, counts_of, noted};
ghost use Rattle.sl_tool.specs.Counts.{count_line};
ghost use Rattle.sl_tool.specs.Streams.{RanNone, Streams};
ghost use Rattle.sl_tool_stages.specs.Outcomes.{FailsToWrite};
ghost use Rattle.sl_tool_stages.specs.StageViews.{compiled_view};

use crate::status::Ending;
use crate::writing::write_all;
use sl_outside::Sink;
use sl_spec::Tables;
use sl_tool_stages::{Compiled, Halt, push_counted};
use std::alloc::{AllocError, Global};

/// Writes how many tables and constructors the specification has, and the notes on its text where
/// it is explained.
pub fn check<K: Sink>(
    alloc: Global,
    compiled: &Compiled<'_, '_>,
    explains: bool,
    out: &mut K,
) -> Result<Ending, Halt>
    ensures streams { Streams (counts_of explains (compiled_view compiled.now))
        (K.taken out.old) (K.taken out.new) RanNone result }
    ensures sink { UsesSink K.faults K.calls out.old out.new (FailsToWrite result) }
{
    let text = checked_text(alloc, compiled, explains)?;
    write_all(out, text.as_slice())?;
    Ok(Ending::Done)
}

/// The text that is written.
fn checked_text(
    alloc: Global,
    compiled: &Compiled<'_, '_>,
    explains: bool,
) -> Result<Vec<u8>, AllocError>
    ensures { IfOk result (λ text.
        text.items ≡ checked_text explains (compiled_view compiled.now)) }
{
    let mut text = count_line(alloc, &compiled.specification.bound.tables)?;
    push_noted(alloc, &mut text, compiled, explains)?;
    Ok(text)
}

/// Appends the notes, where the specification is explained.
fn push_noted(
    alloc: Global,
    out: &mut Vec<u8>,
    compiled: &Compiled<'_, '_>,
    explains: bool,
) -> Result<(), AllocError>
    ensures { OnOk result (out.new.items
        ≡ out.old.items ++ noted explains (compiled_view compiled.now)) }
{
    if explains {
        compiled.push_notes(alloc, out)
    } else {
        Ok(())
    }
}

/// The line that tells how many tables and constructors there are.
fn count_line(alloc: Global, t: &Tables<'_>) -> Result<Vec<u8>, AllocError>
    ensures { IfOk result (λ line.
        line.items ≡ count_line (length t.now.tables) (length t.now.constructors)) }
{
    let mut out = Vec::new(alloc);
    push_counted(&mut out, b"ok: ", t.tables.len() as u64)?;
    push_counted(&mut out, b" tables, ", t.constructors.len() as u64)?;
    out.extend_from_slice(b" constructors\n")?;
    Ok(out)
}
