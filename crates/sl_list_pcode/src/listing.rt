//! `pcode`: the listing of an image with the operations of each instruction.

ghost use Rattle.std.specs.Prelude.{◌+◌, ◌^◌, ◌≤◌, length};
ghost use Rattle.std.specs.Result.{IsErrOf};
ghost use Rattle.sl_ast.specs.Views.{items_of};
ghost use Rattle.sl_faithful_accepted.specs.Laws.{IsShort};
ghost use Rattle.sl_bind_compile.specs.Compiled.{IsCompiled};
ghost use Rattle.sl_outside.specs.Uses.{UsesSink};
ghost use Rattle.sl_list_pcode.specs.Writing.{Writes};
ghost use Rattle.sl_section_sizes.specs.Sizings.{lists_of};

use crate::shown::{PcodeBuffers, PcodeListing};
use crate::translator::Translator;
use sl_bind_compile::Compiled;
use sl_list_instructions::{Image, ListError, list_all};
use sl_outside::Sink;
use std::alloc::Global;

/// Writes the listing of an image by a compiled specification, as `list_image` does, and after the
/// line of each instruction the operations that do what it does, each on a line of its own after
/// two spaces; or the line `  unimplemented`, where a node of it is `unimpl`. At an `Err` a front
/// was written of what some first positions say, or nothing; `WriteFault` comes only where the sink
/// failed.
pub fn list_pcode<K: Sink>(
    alloc: Global,
    compiled: &Compiled<'_>,
    image: &Image,
    out: &mut K,
) -> Result<(), ListError>
    requires short { IsShort (items_of compiled.now.bound.spec) }
    requires compiled { IsCompiled compiled.now }
    requires fits { image.now.base + length image.now.bytes ≤ 2 ^ 64 }
    ensures writes { Writes (items_of compiled.now.bound.spec) compiled.now.bound.tables
        (lists_of compiled.now.bound.sizes.items) image.now (K.taken out.old) (K.taken out.new)
        result }
    ensures sink { UsesSink K.faults K.calls out.old out.new
        (IsErrOf result ListError.WriteFault) }
{
    let Ok(translator) = Translator::new(alloc, compiled) else {
        return Err(ListError::NoMemory);
    };
    let listing = PcodeListing {
        alloc,
        translator: &translator,
        image,
    };
    let mut buffers = PcodeBuffers::new(alloc);
    list_all(alloc, &listing, &mut buffers, out)
}
