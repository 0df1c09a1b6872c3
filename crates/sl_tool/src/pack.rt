//! `pack`: a sound specification as one file.

ghost use Rattle.sl_outside.specs.Uses.{UsesSink};
ghost use Rattle.sl_tool.specs.Answers.{packs_of};
ghost use Rattle.sl_tool.specs.Streams.{RanNone, Streams};
ghost use Rattle.sl_tool_stages.specs.Outcomes.{FailsToWrite};
ghost use Rattle.sl_tool_stages.specs.Packable.{IsPackable};
ghost use Rattle.sl_tool_stages.specs.StageViews.{compiled_view};

use crate::status::Ending;
use crate::writing::write_all;
use sl_outside::Sink;
use sl_tool_stages::{Compiled, Halt};
use std::alloc::Global;

/// Writes the packed file of the specification.
pub fn pack<K: Sink>(
    alloc: Global,
    compiled: &Compiled<'_, '_>,
    out: &mut K,
) -> Result<Ending, Halt>
    requires { IsPackable compiled.now.origin compiled.now.specification.bound.spec }
    ensures streams { Streams (packs_of (compiled_view compiled.now))
        (K.taken out.old) (K.taken out.new) RanNone result }
    ensures sink { UsesSink K.faults K.calls out.old out.new (FailsToWrite result) }
{
    let file = compiled.packed(alloc)?;
    write_all(out, file.as_slice())?;
    Ok(Ending::Done)
}
