//! The templates of statements and of sections.

ghost use Rattle.std.specs.Prelude.{◌≡◌, ◌++◌, ◌∷◌, [], IfOk, OnOk};
ghost use Rattle.sl_pcode.specs.declared.code.Code.TheVariants as code;
ghost use Rattle.sl_section_flat.specs.Sections as s;
ghost use Rattle.sl_section_flat.specs.Views.{direct_of, step_of, steps_of, symbol_of, term_of};
ghost use Rattle.sl_build_template.specs.Pieces as p;
ghost use Rattle.sl_build_template.specs.Views.{IsTemplateOf, form_of, part_of, parts_of};
ghost use Rattle.sl_build_template.specs.Views.{pieces_of};
ghost use Rattle.sl_build_template.specs.Views.{tail_of};

use crate::form::{Form, space_in};
use crate::piece::{Part, Piece, Tail};
use crate::puts::put;
use crate::slot::Slot;
use crate::statements::{exit_by, set, set_bits, store, target_slot};
use crate::terms::{temp_of, term_slot, term_value, user_into};
use sl_pcode::Code;
use sl_section_flat::{Direct, Step, Symbol, Term};
use std::alloc::{AllocError, Global};

/// `goto` to a target that is written out; to a label it is no piece.
fn branch(form: &Form<'_>, out: &mut Vec<Piece>, to: &Direct<'_>) -> Result<(), AllocError>
    ensures { OnOk result (pieces_of out.new.items ≡ pieces_of out.old.items
        ++ (p.part_of_step (form_of form.now) (s.branch (direct_of to.now))).pieces) }
{
    match to {
        Direct::Label(_) => Ok(()),
        Direct::Place(a) => {
            let target = target_slot(form, *a)?;
            put(out, Piece::Exit(Code::Branch, target))
        }
    }
}

/// `if (e) goto`; to a label the jump itself is no piece.
fn branch_if(
    alloc: Global,
    form: &Form<'_>,
    out: &mut Vec<Piece>,
    e: &Term,
    to: &Direct<'_>,
) -> Result<(), AllocError>
    ensures { OnOk result (pieces_of out.new.items ≡ pieces_of out.old.items
        ++ (p.part_of_step (form_of form.now)
        (s.branch_if (term_of e.now) (direct_of to.now))).pieces) }
{
    let condition = term_value(alloc, form, out, 0, e)?;
    match to {
        Direct::Label(_) => Ok(()),
        Direct::Place(a) => {
            let target = target_slot(form, *a)?;
            put(out, Piece::ExitIf(target, condition))
        }
    }
}

/// `call` to a name.
fn call(form: &Form<'_>, out: &mut Vec<Piece>, a: Symbol) -> Result<(), AllocError>
    ensures { OnOk result (pieces_of out.new.items ≡ pieces_of out.old.items
        ++ p.exit code.Call (p.target_slot (form_of form.now) (symbol_of a)) ∷ []) }
{
    let target = target_slot(form, a)?;
    put(out, Piece::Exit(Code::Call, target))
}

/// The pieces of a statement.
fn put_step(
    alloc: Global,
    form: &Form<'_>,
    out: &mut Vec<Piece>,
    a: &Step<'_>,
) -> Result<(), AllocError>
    ensures { OnOk result (pieces_of out.new.items ≡ pieces_of out.old.items
        ++ (p.part_of_step (form_of form.now) (step_of a.now)).pieces) }
{
    match a {
        Step::Declare(_, _) => Ok(()),
        Step::Set(a, e) => set(alloc, form, out, *a, e),
        Step::SetBits(a, span, e) => set_bits(alloc, form, out, *a, *span, e),
        Step::Store(space, _, pointer, _, e) => {
            store(alloc, form, out, space_in(form, *space), pointer, e)
        }
        Step::User(op, es) => user_into(alloc, form, out, 0, *op, es.as_slice()),
        Step::Build(_) => Ok(()),
        Step::Label(_) => Ok(()),
        Step::Branch(to) => branch(form, out, to),
        Step::BranchIf(e, to) => branch_if(alloc, form, out, e, to),
        Step::BranchTo(e) => exit_by(alloc, form, out, Code::BranchInd, e),
        Step::Call(a) => call(form, out, *a),
        Step::CallTo(e) => exit_by(alloc, form, out, Code::CallInd, e),
        Step::Return(e) => exit_by(alloc, form, out, Code::Return, e),
        Step::Export(_) => Ok(()),
    }
}

/// The slot that the value of an expression has once its pieces have run.
fn value_slot(form: &Form<'_>, e: &Term) -> Slot
    ensures { result ≡ p.term_value (form_of form.now) 0 (term_of e.now) }
{
    match term_slot(form, 0, e) {
        Some(v) => v,
        None => temp_of(form, 0, e),
    }
}

/// What stands behind the pieces of a jump.
fn branch_tail<'a>(to: &Direct<'a>) -> Tail<'a>
    ensures { (h : p.Form) → tail_of result
        ≡ (p.part_of_step h (s.branch (direct_of to.now))).tail }
{
    match to {
        Direct::Label(l) => Tail::Branch(*l),
        Direct::Place(_) => Tail::Nothing,
    }
}

/// What stands behind the pieces of a jump that a condition decides.
fn branch_if_tail<'a>(form: &Form<'_>, e: &Term, to: &Direct<'a>) -> Tail<'a>
    ensures { tail_of result ≡ (p.part_of_step (form_of form.now)
        (s.branch_if (term_of e.now) (direct_of to.now))).tail }
{
    match to {
        Direct::Label(l) => Tail::BranchIf(*l, value_slot(form, e)),
        Direct::Place(_) => Tail::Nothing,
    }
}

/// What stands behind the pieces of a statement.
fn tail<'a>(form: &Form<'_>, a: &Step<'a>) -> Tail<'a>
    ensures { tail_of result ≡ (p.part_of_step (form_of form.now) (step_of a.now)).tail }
{
    match a {
        Step::Declare(_, _) => Tail::Nothing,
        Step::Set(_, _) => Tail::Nothing,
        Step::SetBits(_, _, _) => Tail::Nothing,
        Step::Store(_, _, _, _, _) => Tail::Nothing,
        Step::User(_, _) => Tail::Nothing,
        Step::Build(i) => Tail::Build(*i),
        Step::Label(l) => Tail::Label(*l),
        Step::Branch(to) => branch_tail(to),
        Step::BranchIf(e, to) => branch_if_tail(form, e, to),
        Step::BranchTo(_) => Tail::Nothing,
        Step::Call(_) => Tail::Nothing,
        Step::CallTo(_) => Tail::Nothing,
        Step::Return(_) => Tail::Nothing,
        Step::Export(_) => Tail::Nothing,
    }
}

/// The template of a statement.
fn part<'a>(alloc: Global, form: &Form<'_>, a: &Step<'a>) -> Result<Part<'a>, AllocError>
    ensures { IfOk result (λ v. part_of v ≡ p.part_of_step (form_of form.now) (step_of a.now)) }
{
    let mut pieces = Vec::new(alloc);
    put_step(alloc, form, &mut pieces, a)?;
    let tail = tail(form, a);
    Ok(Part { pieces, tail })
}

/// The templates of statements.
fn parts<'a>(
    alloc: Global,
    form: &Form<'_>,
    steps: &[Step<'a>],
) -> Result<Vec<Part<'a>>, AllocError>
    ensures { IfOk result (λ v. parts_of v.items
        ≡ p.parts_of_steps (form_of form.now) (steps_of steps.now)) }
{
    let mut parts = Vec::new(alloc);
    'steps: for index in 0..steps.len() {
        let made = part(alloc, form, &steps[index])?;
        parts.push(made)?;
    }
    Ok(parts)
}

/// The template of a section, statement by statement.
pub fn template<'a>(
    alloc: Global,
    form: &Form<'_>,
    steps: &[Step<'a>],
) -> Result<Vec<Part<'a>>, AllocError>
    ensures { IfOk result (λ v. IsTemplateOf (form_of form.now) (steps_of steps.now)
        (parts_of v.items)) }
{
    let parts = parts(alloc, form, steps)?;
    Ok(parts)
}
