//! What decodes the instructions of a specification and builds their operations.

ghost use Rattle.std.specs.Prelude.{◌≤◌};

use crate::answer::{Answer, Translated, mark_at};
use crate::buffers::Buffers;
use crate::lines::Lines;
use sl_bind_compile::Compiled;
use sl_build::{Decoded, Sections};
use sl_decode_choices::Choosers;
use sl_decode_contexts::ContextMap;
use sl_list_instructions::{Disassembly, Image, ListError, Specified, list_all};
use sl_list_pcode::list_pcode;
use sl_outside::Sink;
use std::alloc::{AllocError, Global};

/// Decodes the instructions of a specification, and builds their operations.
#[derive(Drop)]
pub struct Reader<'t, 'a> {
    pub compiled: &'t Compiled<'a>,
    pub disassembly: Disassembly<'t, 'a>,
    pub sections: Sections<'t, 'a>,
    ghost aligned: { 1 ≤ compiled.now.bound.tables.alignment },
}

impl<'t, 'a> Reader<'t, 'a> {
    ghost use Rattle.std.specs.Prelude.{◌≡◌, ◌+◌, ◌^◌, ◌≤◌, ℕ, List, IfOk, length};
    ghost use Rattle.std.specs.Result.{IsErrOf};
    ghost use Rattle.sl_ast.specs.Views.{items_of};
    ghost use Rattle.sl_bind_compile.specs.Compiled.{IsCompiled};
    ghost use Rattle.sl_decode_contexts.specs.Runs.{Stands};
    ghost use Rattle.sl_decode_contexts.specs.declared.commits.Commit.{Commit as CommitOf};
    ghost use Rattle.sl_faithful_accepted.specs.Laws.{IsShort};
    ghost use Rattle.sl_list_instructions.specs.Listing.{image_from};
    ghost use Rattle.sl_list_instructions.specs.Writing.{Writes};
    ghost use Rattle.sl_list_pcode.specs.Writing.{Writes as PcodeWrites};
    ghost use Rattle.sl_outside.specs.Uses.{UsesSink};
    ghost use Rattle.sl_session.specs.Operations.{IsTranslated};
    ghost use Rattle.sl_session.specs.Readers.{IsRead, IsReadLine, StandsFor, choice_in};
    ghost use Rattle.sl_session.specs.Readers.{specification_in};

    /// The reader of a specification. The only error is want of memory.
    pub fn new(alloc: Global, compiled: &'t Compiled<'a>) -> Result<Self, AllocError>
        requires short { IsShort (items_of compiled.now.bound.spec) }
        requires compiled { IsCompiled compiled.now }
        ensures compiled { IfOk result (λ reader. reader.compiled.now ≡ compiled.now) }
        ensures stands { IfOk result StandsFor }
    {
        let disassembly = Disassembly::new(alloc, compiled)?;
        let sections = Sections::new(alloc, &compiled.bound)?;
        Ok(Reader {
            compiled,
            disassembly,
            sections,
        })
    }

    /// What decodes and shows instructions.
    fn decoder(&self) -> Specified<'_, 't, 't, 'a, Choosers>
        ensures disassembler { result.disassembler.now ≡ self.now.disassembly.disassembler }
        ensures templates { result.templates.now ≡ self.now.disassembly.templates.items }
    {
        Specified {
            disassembler: &self.disassembly.disassembler,
            templates: self.disassembly.templates.as_slice(),
            constructors: self.disassembly.constructors.as_slice(),
        }
    }

    /// What stands at an address, by the bytes of `window` and the commits that `contexts` has. Its
    /// text, its commits and its tree are put in the place of what the buffers hold. The only error
    /// is want of memory.
    pub fn read(
        &self,
        contexts: &ContextMap,
        window: &[u8],
        address: u64,
        buffers: &mut Buffers,
    ) -> Result<Answer, AllocError>
        ensures { IfOk result (λ answer. (start : ℕ) (made : List CommitOf)
            → StandsFor self.now → Stands contexts.now start made
            → IsRead (specification_in self.now) (choice_in self.now) start made window.now address
            answer buffers.new) }
    {
        let tables = &self.compiled.bound.tables;
        let alignment = usize::from(tables.alignment);
        let beyond = (address % u64::from(tables.alignment)) as usize;
        if beyond > 0 {
            buffers.put_mark(b"?align")?;
            let length = (alignment - beyond) as u32;
            return Ok(Answer::Misaligned { length });
        }
        let context = contexts.at(address);
        let decoder = self.decoder();
        let walk = &mut buffers.walk;
        let text = &mut buffers.text;
        let commits = &mut buffers.commits;
        match decoder.decode(window, address, context, walk, text, commits)? {
            Ok(instruction) => {
                let length = instruction.length;
                let after = instruction.after;
                Ok(Answer::Instruction {
                    length,
                    after,
                    context,
                })
            }
            Err(fault) => {
                buffers.put_mark(mark_at(&fault))?;
                let length = alignment as u32;
                Ok(Answer::Undecoded { fault, length })
            }
        }
    }

    /// The same, where all that is wanted is how many bytes its line of a listing covers.
    pub(crate) fn read_line(
        &self,
        contexts: &ContextMap,
        window: &[u8],
        address: u64,
        buffers: &mut Buffers,
    ) -> Result<u32, AllocError>
        ensures { IfOk result (λ n. (start : ℕ) (made : List CommitOf)
            → StandsFor self.now → Stands contexts.now start made
            → IsReadLine (specification_in self.now) (choice_in self.now) start made window.now
            address n buffers.new) }
    {
        match self.read(contexts, window, address, buffers) {
            Ok(answer) => Ok(answer.length()),
            Err(error) => Err(error),
        }
    }

    /// What was read at an address, with the operations of an instruction. The only error is want of
    /// memory.
    pub fn build(
        &self,
        alloc: Global,
        answer: Answer,
        window: &[u8],
        address: u64,
        buffers: &Buffers,
    ) -> Result<Translated, AllocError>
        ensures { IfOk result (λ x. (start : ℕ) (made : List CommitOf)
            → StandsFor self.now
            → IsRead (specification_in self.now) (choice_in self.now) start made window.now address
            answer buffers.now
            → IsTranslated (specification_in self.now) (choice_in self.now) start made window.now
            address x.answer x.built buffers.now.text.items buffers.now.commits.items) }
    {
        match answer {
            Answer::Instruction {
                length,
                after,
                context,
            } => {
                let of = Decoded {
                    bytes: window,
                    address,
                    after,
                    nodes: buffers.walk.nodes.as_slice(),
                    values: buffers.walk.values.as_slice(),
                };
                let built = self.sections.build(alloc, of)?;
                let answer = Answer::Instruction {
                    length,
                    after,
                    context,
                };
                let built = Some(built);
                Ok(Translated { answer, built })
            }
            Answer::Undecoded { fault, length } => {
                let answer = Answer::Undecoded { fault, length };
                Ok(Translated {
                    answer,
                    built: None,
                })
            }
            Answer::Misaligned { length } => {
                let answer = Answer::Misaligned { length };
                Ok(Translated {
                    answer,
                    built: None,
                })
            }
        }
    }

    /// Writes the listing of an image from a base on, where no commit counts yet, as `list_image`
    /// does: each line before the next instruction is decoded.
    pub fn list<K: Sink>(
        &self,
        alloc: Global,
        image: &[u8],
        base: u64,
        start: u64,
        out: &mut K,
    ) -> Result<(), ListError>
        requires fits { base + length image.now ≤ 2 ^ 64 }
        ensures writes { StandsFor self.now
            → Writes (specification_in self.now).tables (specification_in self.now).constructors
            (image_from image.now base start) (K.taken out.old) (K.taken out.new) result }
        ensures sink { UsesSink K.faults K.calls out.old out.new
            (IsErrOf result ListError.WriteFault) }
    {
        let lines = Lines {
            reader: self,
            image,
            base,
            start,
        };
        let mut buffers = Buffers::new(alloc);
        list_all(alloc, &lines, &mut buffers, out)
    }

    /// Writes the listing of an image with the operations of each instruction, as `list_pcode` does.
    pub fn pcode<K: Sink>(&self, alloc: Global, image: &Image, out: &mut K) -> Result<(), ListError>
        requires stands { StandsFor self.now }
        requires fits { image.now.base + length image.now.bytes ≤ 2 ^ 64 }
        ensures writes { PcodeWrites (items_of self.now.compiled.now.bound.spec)
            (specification_in self.now).tables (specification_in self.now).sizes image.now
            (K.taken out.old) (K.taken out.new) result }
        ensures sink { UsesSink K.faults K.calls out.old out.new
            (IsErrOf result ListError.WriteFault) }
    {
        list_pcode(alloc, self.compiled, image, out)
    }
}
