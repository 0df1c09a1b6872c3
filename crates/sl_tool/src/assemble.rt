//! `asm`: the bytes of an instruction, by its text.

ghost use Rattle.std.specs.Prelude.{IfOk, MatchOption};
ghost use Rattle.sl_asm.specs.Shortest.{EncodesShortest};
ghost use Rattle.sl_asm.specs.Wanted.{HasNoEncoding};
ghost use Rattle.sl_ast.specs.Views.{items_of};
ghost use Rattle.sl_bind_compile.specs.Compiled.{IsCompiled};
ghost use Rattle.sl_bind_compile.specs.Outcomes.{all_constructors};
ghost use Rattle.sl_outside.specs.Uses.{UsesSink};
ghost use Rattle.sl_tool.specs.Assembled.{Assembles, Finds};
ghost use Rattle.sl_tool.specs.Endings.{shown};
ghost use Rattle.sl_tool.specs.Streams.{RanNone, Writes};
ghost use Rattle.sl_tool.specs.declared.status.Ending.TheVariants.{Done};
ghost use Rattle.sl_tool_request.specs.Views.{assembly as assembly_view};
ghost use Rattle.sl_tool_stages.specs.Outcomes.{FailsToRead, FailsToWrite, Gives};
ghost use Rattle.sl_tool_stages.specs.StageViews.{compiled_view};

use crate::status::Ending;
use crate::writing::write_all;
use sl_bind_compile::Compiled as Specification;
use sl_decode::address_size;
use sl_list_instructions::{Disassembly, push_listed};
use sl_outside::Sink;
use sl_tool_request::Assembly;
use sl_tool_stages::{Compiled, Halt, Problem, Refusal, begin};
use std::alloc::{AllocError, Global};

/// Writes the line of a shortest encoding of the text, or refuses it where there is none.
pub fn assemble<K: Sink>(
    alloc: Global,
    assembly: &Assembly<'_>,
    compiled: &Compiled<'_, '_>,
    out: &mut K,
) -> Result<Ending, Halt>
    requires { IsCompiled compiled.now.specification }
    ensures writes { Writes (Assembles (assembly_view assembly.now) (compiled_view compiled.now))
        (K.taken out.old) (K.taken out.new) RanNone result }
    ensures sink { UsesSink K.faults K.calls out.old out.new (FailsToWrite result) }
    ensures unread { FailsToRead result → ⊥ }
{
    let context = begin(alloc, assembly, compiled)?;
    let line = line_at(alloc, assembly, compiled, context)?;
    write_all(out, line.as_slice())?;
    Ok(Ending::Done)
}

/// A shortest encoding of the text at the address in this context, or `None` exactly where there is
/// none. The only error is want of memory.
fn encoding(
    alloc: Global,
    specification: &Specification<'_>,
    text: &[u8],
    address: u64,
    context: u64,
) -> Result<Option<Vec<u8>>, AllocError>
    requires { IsCompiled specification.now }
    ensures { IfOk result (λ found. MatchOption found
        (HasNoEncoding specification.now.bound.tables
        (all_constructors (items_of specification.now.bound.spec)) address context text.now)
        (λ bytes. EncodesShortest specification.now.bound.tables
        (all_constructors (items_of specification.now.bound.spec)) address context text.now
        bytes.items)) }
{
    let disassembly = Disassembly::new(alloc, specification)?;
    let found = sl_asm::assemble(alloc, specification, &disassembly, text, address, context)?;
    Ok(found)
}

/// The line of a shortest encoding of the text in this context.
fn line_at(
    alloc: Global,
    assembly: &Assembly<'_>,
    compiled: &Compiled<'_, '_>,
    context: u64,
) -> Result<Vec<u8>, Halt>
    requires { IsCompiled compiled.now.specification }
    ensures { Gives (Finds (assembly_view assembly.now) (compiled_view compiled.now) context)
        (λ line. shown Done line.items 0) result }
{
    let specification = &compiled.specification;
    let text = assembly.text.as_bytes();
    let base = assembly.base;
    let found = encoding(alloc, specification, text, base, context)?;
    let Some(bytes) = found else {
        return Err(Halt::Refused(Refusal::bare(alloc, Problem::NoEncoding)));
    };
    let size = address_size(&specification.bound.tables);
    let mut line = Vec::new(alloc);
    push_listed(&mut line, size, base, bytes.as_slice(), text)?;
    Ok(line)
}
