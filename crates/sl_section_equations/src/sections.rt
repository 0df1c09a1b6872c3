//! The equations of sections, and their solution.

ghost use Rattle.std.specs.Prelude.{◌≡◌, ◌++◌, IfErr, IfOk, OnOk};
ghost use Rattle.std.specs.List.{All};
ghost use Rattle.std.specs.Vec.{vec_len};
ghost use Rattle.sl_section_flat.specs.Views.{export_of, step_of, steps_of};
ghost use Rattle.sl_sizes.specs.Solutions.{IsAbout, IsOnlySolution, IsReason, bytes_at};
ghost use Rattle.sl_section_equations.specs.Equations as q;
ghost use Rattle.sl_section_equations.specs.Known.{address_size, operand_size};

use crate::known::KnownSizes;
use crate::put::{put, put_if_bare, put_is, put_symbol, put_written, span_size};
use crate::terms::{put_arguments, put_term};
use sl_section_flat::{Export, Section, Step, variable, written_size};
use sl_sizes::{Equation, SizeError, infer};
use sl_word::Size;
use std::alloc::{AllocError, Global};

fn put_export(
    known: &KnownSizes<'_>,
    out: &mut Vec<Equation>,
    what: &Export,
) -> Result<(), AllocError>
    ensures { OnOk result (out.new.items ≡ out.old.items
        ++ q.export_equations (address_size known.now) (operand_size known.now)
        (export_of what.now)) }
{
    match what {
        Export::Name(a, x) => put_symbol(known, out, *a, *x),
        Export::Constant(n, t, x) => {
            put_term(known, out, t)?;
            put_if_bare(out, t, *n)?;
            put_is(out, *x, *n)
        }
        Export::Memory(space, n, t, x) => {
            put_term(known, out, t)?;
            put_if_bare(out, t, known.address(*space))?;
            put_is(out, *x, *n)
        }
    }
}

fn put_step(
    known: &KnownSizes<'_>,
    out: &mut Vec<Equation>,
    step: &Step<'_>,
) -> Result<(), AllocError>
    ensures { OnOk result (out.new.items ≡ out.old.items
        ++ q.step_equations (address_size known.now) (operand_size known.now)
        (step_of step.now)) }
{
    match step {
        Step::Declare(x, n) => put_written(out, *n, *x),
        Step::Set(a, t) => {
            put_term(known, out, t)?;
            put_symbol(known, out, *a, variable(t))
        }
        Step::SetBits(_, span, t) => {
            put_term(known, out, t)?;
            put_is(out, variable(t), span_size(*span))
        }
        Step::Store(space, n, pointer, x, t) => {
            put_term(known, out, pointer)?;
            put_if_bare(out, pointer, known.address(*space))?;
            put_written(out, *n, *x)?;
            put_term(known, out, t)?;
            put(out, Equation::Equal(*x, variable(t)))
        }
        Step::User(_, ts) => put_arguments(known, out, ts.as_slice()),
        Step::BranchIf(t, _) => {
            put_term(known, out, t)?;
            put_is(out, variable(t), written_size(1))
        }
        Step::BranchTo(t) | Step::CallTo(t) | Step::Return(t) => {
            put_term(known, out, t)?;
            put_if_bare(out, t, known.address(None))
        }
        Step::Export(what) => put_export(known, out, what),
        Step::Build(_) | Step::Label(_) | Step::Branch(_) | Step::Call(_) => Ok(()),
    }
}

/// The equations of statements, in their order.
fn equations_of(
    alloc: Global,
    known: &KnownSizes<'_>,
    steps: &[Step<'_>],
) -> Result<Vec<Equation>, AllocError>
    ensures { IfOk result (λ v. v.items
        ≡ q.section_equations (address_size known.now) (operand_size known.now)
        (steps_of steps.now)) }
{
    let mut out = Vec::new(alloc);
    'steps: for step in steps {
        put_step(known, &mut out, step)?;
    }
    Ok(out)
}

/// What a section says of the sizes of its variables (SLEIGH manual, "Varnode Sizes"), in the order
/// of its text, an expression's parts before the whole.
pub fn equations(
    alloc: Global,
    known: &KnownSizes<'_>,
    section: &Section<'_>,
) -> Result<Vec<Equation>, AllocError>
    ensures value { IfOk result (λ v. v.items
        ≡ q.section_equations (address_size known.now) (operand_size known.now)
        (steps_of section.now.steps.items)) }
    ensures about { IfOk result (λ v. All (IsAbout section.now.variables) v.items) }
{
    let equations = equations_of(alloc, known, section.steps.as_slice())?;
    Ok(equations)
}

/// The sizes of the variables of a section, by their numbers, where its equations have just one
/// solution of sizes from 1 to 16 bytes.
///
/// `Clash` comes where they have none, `Unfixed` where they have several.
pub fn sizes_of(
    alloc: Global,
    known: &KnownSizes<'_>,
    section: &Section<'_>,
) -> Result<Vec<Size>, SizeError>
    ensures count { IfOk result (λ sizes. vec_len sizes ≡ section.now.variables) }
    ensures sizes { IfOk result (λ sizes. IsOnlySolution section.now.variables
        (q.section_equations (address_size known.now) (operand_size known.now)
        (steps_of section.now.steps.items)) (bytes_at sizes.items)) }
    ensures refused { IfErr result (IsReason section.now.variables
        (q.section_equations (address_size known.now) (operand_size known.now)
        (steps_of section.now.steps.items))) }
{
    let equations = equations(alloc, known, section).map_err(|_| SizeError::NoMemory)?;
    infer(alloc, section.variables, equations.as_slice())
}
