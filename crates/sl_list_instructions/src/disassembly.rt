//! What decodes and shows the instructions of a specification.

ghost use Rattle.std.specs.Prelude.{◌≡◌, IfOk};
ghost use Rattle.sl_ast.specs.Views.{items_of};
ghost use Rattle.sl_bind_compile.specs.Compiled.{IsCompiled};
ghost use Rattle.sl_bind_compile.specs.Outcomes.{all_constructors};
ghost use Rattle.sl_decode.specs.Disassemblers as decode;
ghost use Rattle.sl_decode_choices.specs.Choices.{IsChoiceOf};
ghost use Rattle.sl_decode_choices.specs.Choosers.{chosen};
ghost use Rattle.sl_list_instructions.specs.Disassemblies.{StandsFor};
ghost use Rattle.sl_spec.specs.Numbers.{AreNumbered};
ghost use Rattle.sl_spec.specs.Unfolded.{all_placed};

use sl_bind_compile::Compiled;
use sl_decode::Disassembler;
use sl_decode_choices::Choosers;
use sl_show::{Template, make_templates};
use sl_spec::{Unfolded, unfolded_constructors};
use std::alloc::{AllocError, Global};

/// What decodes the instructions of a specification that has these constructors, by the most
/// specific ones. The only error is want of memory.
pub fn decoder_of<'t, 'a>(
    alloc: Global,
    compiled: &'t Compiled<'a>,
    constructors: &[Unfolded],
) -> Result<Disassembler<'t, 'a, Choosers>, AllocError>
    requires compiled { IsCompiled compiled.now }
    requires numbered { AreNumbered constructors.now }
    requires all { all_placed constructors.now
        ≡ all_constructors (items_of compiled.now.bound.spec) }
    ensures stands { IfOk result (λ d. decode.StandsFor d compiled.now.bound.tables
        (all_constructors (items_of compiled.now.bound.spec))) }
    ensures chooses { IfOk result (λ d. IsChoiceOf compiled.now.bound.tables
        (all_constructors (items_of compiled.now.bound.spec)) (chosen d.choosers)) }
{
    let choosers = Choosers::new(alloc, compiled.checked.tables.as_slice())?;
    let disassembler = Disassembler::new(alloc, &compiled.bound.tables, constructors, choosers)?;
    Ok(disassembler)
}

/// Decodes and shows the instructions of a specification.
#[derive(Drop)]
pub struct Disassembly<'t, 'a> {
    pub disassembler: Disassembler<'t, 'a, Choosers>,
    /// How each constructor is shown.
    pub templates: Vec<Template>,
    /// All constructors as they are written.
    pub constructors: Vec<Unfolded<'t, 'a>>,
}

impl<'t, 'a> Disassembly<'t, 'a> {
    /// The disassembly of a specification. The only error is want of memory.
    pub fn new(alloc: Global, compiled: &'t Compiled<'a>) -> Result<Self, AllocError>
        requires { IsCompiled compiled.now }
        ensures { IfOk result (λ d. StandsFor d compiled.now.bound.tables
            (all_constructors (items_of compiled.now.bound.spec))) }
    {
        let tables = &compiled.bound.tables;
        let constructors = unfolded_constructors(alloc, compiled.bound.spec.items.as_slice())?;
        let disassembler = decoder_of(alloc, compiled, constructors.as_slice())?;
        let templates = make_templates(alloc, tables, constructors.as_slice())?;
        Ok(Disassembly {
            disassembler,
            templates,
            constructors,
        })
    }
}
