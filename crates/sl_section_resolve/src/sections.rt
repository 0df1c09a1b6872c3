//! Sections, flat.

ghost use Rattle.std.specs.Prelude.{◌≡◌, ◌≤◌, [], IfOk, OnOk};
ghost use Rattle.sl_ast.specs.Views.{statements_of};
ghost use Rattle.sl_section_flat.specs.Views.{steps_of};
ghost use Rattle.sl_section_resolve.specs.MacroViews.{bodies_of};
ghost use Rattle.sl_section_resolve.specs.Steps.{section_steps, section_variables};

use crate::macros::MacroBody;
use crate::placing::unplaced;
use crate::reading::read_all;
use crate::work::{Frame, Work};
use sl_ast::statements::Stmt;
use sl_section_flat::{MOST_VARIABLES, Section};
use sl_section_terms::{Names, Reach, named_operands};
use sl_spec::{Named, Operand, Tables};
use std::alloc::{AllocError, Global};

/// The steps of a section and the number of its size variables.
fn steps<'s, 'a>(
    alloc: Global,
    t: &Tables<'a>,
    macros: &Named<'a, MacroBody<'s, 'a>>,
    reach: Reach,
    operands: &[Operand<'a>],
    body: &'s [Stmt<'a>],
) -> Result<Work<'s, 'a>, AllocError>
    ensures steps { IfOk result (λ w. steps_of w.steps.items
        ≡ section_steps t.now (bodies_of macros.now) reach operands.now (statements_of body.now)) }
    ensures variables { IfOk result (λ w. w.next
        ≡ section_variables t.now (bodies_of macros.now) reach operands.now
        (statements_of body.now)) }
{
    let steps = unplaced(alloc, operands, body)?;
    let own = named_operands(alloc, t, operands)?;
    let names = Names {
        own,
        reach,
        here: 0,
    };
    let mut frames = Vec::new(alloc);
    frames.push(Frame {
        names,
        limit: reach.macros,
        body,
        at: 0,
    })?;
    let mut work = Work {
        frames,
        next: 0,
        calls: 1,
        steps,
    };
    read_all(alloc, t, macros, &mut work)?;
    Ok(work)
}

/// The flat section of these statements. `reach` is what is defined before their constructor,
/// `operands` are the constructor's, and `macros` has all macros of the text in its order. The
/// tables are those of the whole text. Of statements that break rules 26 to 31 the section has what
/// the definition says, and means nothing.
pub fn resolve<'s, 'a>(
    alloc: Global,
    t: &Tables<'a>,
    macros: &Named<'a, MacroBody<'s, 'a>>,
    reach: Reach,
    operands: &[Operand<'a>],
    body: &'s [Stmt<'a>],
) -> Result<Section<'a>, AllocError>
    ensures steps { IfOk result (λ s. steps_of s.steps.items
        ≡ section_steps t.now (bodies_of macros.now) reach operands.now (statements_of body.now)) }
    ensures variables { IfOk result (λ s. s.variables
        ≡ section_variables t.now (bodies_of macros.now) reach operands.now
        (statements_of body.now)) }
{
    let work = steps(alloc, t, macros, reach, operands, body)?;
    if work.next > MOST_VARIABLES {
        return Err(AllocError);
    }
    Ok(Section {
        steps: work.steps,
        variables: work.next,
    })
}
