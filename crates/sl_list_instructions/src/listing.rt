//! `list`: the listing of an image.

ghost use Rattle.std.specs.Prelude.{◌+◌, ◌^◌, ◌≤◌, OnErr, OnOk, length};
ghost use Rattle.std.specs.Result.{IsErrOf};
ghost use Rattle.sl_ast.specs.Views.{items_of};
ghost use Rattle.sl_bind_compile.specs.Compiled.{IsCompiled};
ghost use Rattle.sl_bind_compile.specs.Outcomes.{all_constructors};
ghost use Rattle.sl_list_instructions.specs.Instructions.{Listed};
ghost use Rattle.sl_list_instructions.specs.Fronts.{IsBegun, IsListed};
ghost use Rattle.sl_list_instructions.specs.Disassemblies.{StandsFor};
ghost use Rattle.sl_list_instructions.specs.Listing.{subject};
ghost use Rattle.sl_list_instructions.specs.Writing.{Writes};
ghost use Rattle.sl_decode_choices.specs.Choosers.{chosen};
ghost use Rattle.sl_outside.specs.Uses.{UsesSink};
ghost use Rattle.sl_spec.specs.Unfolded.{all_placed};

use crate::disassembly::Disassembly;
use crate::image::Image;
use crate::instructions::{ListBuffers, Listing};
use crate::listings::{ListError, list_all};
use crate::specified::Specified;
use sl_bind_compile::Compiled;
use sl_decode::{Walk, address_size};
use sl_outside::Sink;
use std::alloc::Global;

/// Lists the image by the disassembly.
fn list_by<K: Sink>(
    alloc: Global,
    disassembly: &Disassembly<'_, '_>,
    image: &Image,
    out: &mut K,
) -> Result<(), ListError>
    requires stands { StandsFor disassembly.now disassembly.now.disassembler.tables.now
        (all_placed disassembly.now.constructors.items) }
    requires aligned { 1 ≤ disassembly.now.disassembler.tables.now.alignment }
    requires fits { image.now.base + length image.now.bytes ≤ 2 ^ 64 }
    ensures whole { OnOk result (IsListed (Listed (subject
        disassembly.now.disassembler.tables.now (all_placed disassembly.now.constructors.items)
        (chosen disassembly.now.disassembler.choosers) image.now)) (length image.now.bytes)
        (K.taken out.old) (K.taken out.new)) }
    ensures front { OnErr result (IsBegun (Listed (subject
        disassembly.now.disassembler.tables.now (all_placed disassembly.now.constructors.items)
        (chosen disassembly.now.disassembler.choosers) image.now)) (length image.now.bytes)
        (K.taken out.old) (K.taken out.new)) }
    ensures sink { UsesSink K.faults K.calls out.old out.new
        (IsErrOf result ListError.WriteFault) }
{
    let tables = disassembly.disassembler.tables;
    let decoder = Specified {
        disassembler: &disassembly.disassembler,
        templates: disassembly.templates.as_slice(),
        constructors: disassembly.constructors.as_slice(),
    };
    let listing = Listing {
        decoder: &decoder,
        image: image.bytes.as_slice(),
        base: image.base,
        address_size: address_size(tables),
        alignment: tables.alignment,
        start: image.start,
    };
    let mut buffers = ListBuffers::new(alloc, Walk::new(alloc));
    list_all(alloc, &listing, &mut buffers, out)
}

/// Writes the listing of an image by a compiled specification, each line before the next instruction
/// is decoded. Zeros follow the image, both where instructions are decoded and in the bytes that are
/// shown. At an `Err` a front of the listing was written, or nothing; `WriteFault` comes only where
/// the sink failed.
pub fn list_image<K: Sink>(
    alloc: Global,
    compiled: &Compiled<'_>,
    image: &Image,
    out: &mut K,
) -> Result<(), ListError>
    requires compiled { IsCompiled compiled.now }
    requires fits { image.now.base + length image.now.bytes ≤ 2 ^ 64 }
    ensures writes { Writes compiled.now.bound.tables
        (all_constructors (items_of compiled.now.bound.spec)) image.now
        (K.taken out.old) (K.taken out.new) result }
    ensures sink { UsesSink K.faults K.calls out.old out.new
        (IsErrOf result ListError.WriteFault) }
{
    let Ok(disassembly) = Disassembly::new(alloc, compiled) else {
        return Err(ListError::NoMemory);
    };
    list_by(alloc, &disassembly, image, out)
}
