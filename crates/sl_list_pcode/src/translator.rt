//! What decodes the instructions of a specification and builds their operations.

ghost use Rattle.std.specs.Prelude.{◌≡◌, IfOk, OnOk};
ghost use Rattle.sl_bind_compile.specs.Compiled.{IsCompiled};
ghost use Rattle.sl_bind_compile.specs.declared.compiled.Compiled.{Compiled as CompiledOf};
ghost use Rattle.sl_build.specs.Accepted.{IsDecodeOf};
ghost use Rattle.sl_decode_meaning.specs.Decoding.{Decoded as DecodedOf};
ghost use Rattle.sl_decode_meaning.specs.Flat.{all_values, entries};
ghost use Rattle.sl_list_pcode.specs.Ready.{AppendsBuilt, IsTranslatorOf, items_of_compiled};
ghost use Rattle.sl_list_pcode.specs.Ready.{sizes_of_compiled, specification_of_compiled};

use crate::lines::push_built;
use crate::names::names_of;
use sl_bind_compile::Compiled;
use sl_build::{Decoded, Sections};
use sl_decode::Walk;
use sl_decode_choices::Choosers;
use sl_list_instructions::{Disassembly, Specified};
use sl_pcode::Names;
use std::alloc::{AllocError, Global};

/// Decodes the instructions of a specification, and builds their operations.
#[derive(Drop)]
pub struct Translator<'t, 'a> {
    pub compiled: &'t Compiled<'a>,
    pub disassembly: Disassembly<'t, 'a>,
    pub sections: Sections<'t, 'a>,
    /// What operations are printed with.
    pub names: Names,
}

impl<'t, 'a> Translator<'t, 'a> {
    /// The translator of a specification. The only error is want of memory.
    pub fn new(alloc: Global, compiled: &'t Compiled<'a>) -> Result<Self, AllocError>
        requires { IsCompiled compiled.now }
        ensures { IfOk result (IsTranslatorOf compiled.now) }
    {
        let disassembly = Disassembly::new(alloc, compiled)?;
        let sections = Sections::new(alloc, &compiled.bound)?;
        let names = names_of(alloc, &compiled.bound.tables)?;
        Ok(Translator {
            compiled,
            disassembly,
            sections,
            names,
        })
    }

    /// What decodes and shows instructions.
    pub fn decoder(&self) -> Specified<'_, 't, 't, 'a, Choosers>
        ensures disassembler { result.disassembler.now ≡ self.now.disassembly.disassembler }
        ensures templates { result.templates.now ≡ self.now.disassembly.templates.items }
    {
        Specified {
            disassembler: &self.disassembly.disassembler,
            templates: self.disassembly.templates.as_slice(),
            constructors: self.disassembly.constructors.as_slice(),
        }
    }

    /// Appends the lines of what a decoded instruction is built to. Where memory runs out the
    /// buffer may have a part of them.
    pub fn push_lines(
        &self,
        alloc: Global,
        bytes: &[u8],
        address: u64,
        after: u64,
        walk: &Walk,
        out: &mut Vec<u8>,
    ) -> Result<(), AllocError>
        ensures { OnOk result ((c : CompiledOf) (d : DecodedOf) → IsTranslatorOf c self.now
            → IsDecodeOf (items_of_compiled c) c.bound.tables (sizes_of_compiled c) bytes.now
            address d → after ≡ d.after → walk.now.nodes.items ≡ entries 0 d.tree
            → walk.now.values.items ≡ all_values d.tree
            → AppendsBuilt (specification_of_compiled c) bytes.now address d self.now.names
            out.old.items out.new.items) }
    {
        let of = Decoded {
            bytes,
            address,
            after,
            nodes: walk.nodes.as_slice(),
            values: walk.values.as_slice(),
        };
        let built = self.sections.build(alloc, of)?;
        push_built(alloc, &built, &self.names, out)?;
        Ok(())
    }
}
