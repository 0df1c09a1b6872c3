//! What sections do with the operands that are tables.

ghost use Rattle.std.specs.Prelude.{◌≡◌, ◌++◌, IfOk, OnOk};
ghost use Rattle.sl_section_flat.specs.Views.{direct_of, export_of, step_of, steps_of};
ghost use Rattle.sl_section_flat.specs.Chains.{chain};
ghost use Rattle.sl_section_flat.specs.Views.{symbol_of, term_of, terms_of};
ghost use Rattle.sl_section_equations.specs.Uses as u;

use sl_section_flat::{Direct, Export, Section, Step, Symbol, Term};
use std::alloc::{AllocError, Global};

fn flag(flags: &[bool], i: u32) -> bool
    ensures { result ≡ u.flag flags.now i }
{
    match flags.get(i as usize) {
        Some(flag) => *flag,
        None => false,
    }
}

fn symbol_passes(flags: &[bool], a: Symbol) -> bool
    ensures { result ≡ u.symbol_passes (u.flag flags.now) (symbol_of a) }
{
    match a {
        Symbol::Table(i) => flag(flags, i),
        Symbol::Register(_) | Symbol::BitRange(_, _) | Symbol::Local(_) => true,
        Symbol::Attached(_, _) | Symbol::Value(_) => true,
        Symbol::Start | Symbol::Next | Symbol::Integer(_) => true,
    }
}

fn term_passes(flags: &[bool], t: &Term) -> bool
    ensures { result ≡ u.term_passes (u.flag flags.now) (term_of t.now) }
{
    match t {
        Term::Number(_, _) => true,
        Term::Sized(_, _, _) => true,
        Term::Name(a, _) => symbol_passes(flags, *a),
        Term::Paren(t, _) => term_passes(flags, t),
        Term::Kept(t, _, _) => term_passes(flags, t),
        Term::Dropped(t, _, _) => term_passes(flags, t),
        Term::Bits(t, _, _) => term_passes(flags, t),
        Term::Load(_, _, t, _) => term_passes(flags, t),
        Term::One(_, t, _) => term_passes(flags, t),
        Term::Two(_, _, a, b, _) => term_passes(flags, a) && term_passes(flags, b),
        Term::User(_, ts, _) => {
            let ts = ts.as_slice();
            'arguments: for index in 0..ts.len() {
                if !term_passes(flags, &ts[index]) {
                    return false;
                }
            }
            true
        }
    }
}

fn terms_pass(flags: &[bool], ts: &[Term]) -> bool
    ensures { result ≡ u.terms_pass (u.flag flags.now) (chain (terms_of ts.now)) }
{
    'arguments: for index in 0..ts.len() {
        if !term_passes(flags, &ts[index]) {
            return false;
        }
    }
    true
}

fn direct_passes(flags: &[bool], to: Direct<'_>) -> bool
    ensures { result ≡ u.direct_passes (u.flag flags.now) (direct_of to.entry) }
{
    match to {
        Direct::Label(_) => true,
        Direct::Place(a) => symbol_passes(flags, a),
    }
}

fn export_passes(flags: &[bool], what: &Export) -> bool
    ensures { result ≡ u.export_passes (u.flag flags.now) (export_of what.now) }
{
    match what {
        Export::Name(a, _) => symbol_passes(flags, *a),
        Export::Constant(_, t, _) => term_passes(flags, t),
        Export::Memory(_, _, t, _) => term_passes(flags, t),
    }
}

fn step_passes(flags: &[bool], step: &Step<'_>) -> bool
    ensures { result ≡ u.step_passes (u.flag flags.now) (step_of step.now) }
{
    match step {
        Step::Set(a, t) => symbol_passes(flags, *a) && term_passes(flags, t),
        Step::SetBits(a, _, t) => symbol_passes(flags, *a) && term_passes(flags, t),
        Step::Store(_, _, pointer, _, t) => term_passes(flags, pointer) && term_passes(flags, t),
        Step::User(_, ts) => terms_pass(flags, ts.as_slice()),
        Step::Branch(to) => direct_passes(flags, *to),
        Step::BranchIf(t, to) => term_passes(flags, t) && direct_passes(flags, *to),
        Step::BranchTo(t) | Step::CallTo(t) | Step::Return(t) => term_passes(flags, t),
        Step::Call(a) => symbol_passes(flags, *a),
        Step::Export(what) => export_passes(flags, what),
        Step::Declare(_, _) | Step::Build(_) | Step::Label(_) => true,
    }
}

/// Whether each operand that is a table, and that the section reads, assigns, jumps to, exports or
/// exports memory at, has a flag: with the flags of the tables that export, a demand of rule 38.
pub fn each_used_passes(flags: &[bool], section: &Section<'_>) -> bool
    ensures { result ≡ u.each_used_passes (u.flag flags.now)
        (steps_of section.now.steps.items) }
{
    let steps = section.steps.as_slice();
    'steps: for step in steps {
        if !step_passes(flags, step) {
            return false;
        }
    }
    true
}

fn is_target(flags: &[bool], a: Symbol) -> bool
    ensures { result ≡ u.is_target (u.flag flags.now) (symbol_of a) }
{
    match a {
        Symbol::Table(i) => flag(flags, i),
        Symbol::Value(_) | Symbol::Start | Symbol::Next | Symbol::Integer(_) => true,
        Symbol::Register(_) | Symbol::BitRange(_, _) | Symbol::Local(_) => false,
        Symbol::Attached(_, _) => false,
    }
}

fn direct_is_target(flags: &[bool], to: Direct<'_>) -> bool
    ensures { result ≡ u.direct_is_target (u.flag flags.now) (direct_of to.entry) }
{
    match to {
        Direct::Label(_) => true,
        Direct::Place(a) => is_target(flags, a),
    }
}

fn step_targets(flags: &[bool], step: &Step<'_>) -> bool
    ensures { result ≡ u.step_targets (u.flag flags.now) (step_of step.now) }
{
    match step {
        Step::Branch(to) => direct_is_target(flags, *to),
        Step::BranchIf(_, to) => direct_is_target(flags, *to),
        Step::Call(a) => is_target(flags, *a),
        Step::Declare(_, _) | Step::Set(_, _) | Step::SetBits(_, _, _) => true,
        Step::Store(_, _, _, _, _) | Step::User(_, _) | Step::Build(_) => true,
        Step::Label(_) | Step::BranchTo(_) | Step::CallTo(_) | Step::Return(_) => true,
        Step::Export(_) => true,
    }
}

/// Whether each direct jump and call goes to a number or to a table operand that has a flag: with
/// the flags of the tables of which all exports are constants or places in the default space, a
/// demand of rule 39.
pub fn are_targets(flags: &[bool], section: &Section<'_>) -> bool
    ensures { result ≡ u.are_targets (u.flag flags.now) (steps_of section.now.steps.items) }
{
    let steps = section.steps.as_slice();
    'steps: for step in steps {
        if !step_targets(flags, step) {
            return false;
        }
    }
    true
}

fn put_table(out: &mut Vec<u32>, a: Symbol) -> Result<(), AllocError>
    ensures { OnOk result (out.new.items ≡ out.old.items ++ u.table_of (symbol_of a)) }
{
    match a {
        Symbol::Table(i) => {
            out.push(i)?;
            Ok(())
        }
        Symbol::Register(_) | Symbol::BitRange(_, _) | Symbol::Local(_) => Ok(()),
        Symbol::Attached(_, _) | Symbol::Value(_) => Ok(()),
        Symbol::Start | Symbol::Next | Symbol::Integer(_) => Ok(()),
    }
}

fn put_assigned(out: &mut Vec<u32>, step: &Step<'_>) -> Result<(), AllocError>
    ensures { OnOk result (out.new.items ≡ out.old.items ++ u.step_assigned (step_of step.now)) }
{
    match step {
        Step::Set(a, _) => put_table(out, *a),
        Step::SetBits(a, _, _) => put_table(out, *a),
        Step::Declare(_, _) | Step::Store(_, _, _, _, _) | Step::User(_, _) => Ok(()),
        Step::Build(_) | Step::Label(_) | Step::Branch(_) | Step::BranchIf(_, _) => Ok(()),
        Step::BranchTo(_) | Step::Call(_) | Step::CallTo(_) | Step::Return(_) => Ok(()),
        Step::Export(_) => Ok(()),
    }
}

/// The operands that are tables and that the section assigns, whole or in part, by their numbers.
/// One that is assigned twice stands there twice.
pub fn assigned(alloc: Global, section: &Section<'_>) -> Result<Vec<u32>, AllocError>
    ensures { IfOk result (λ v. v.items ≡ u.assigned (steps_of section.now.steps.items)) }
{
    let mut out = Vec::new(alloc);
    let steps = section.steps.as_slice();
    'steps: for step in steps {
        put_assigned(&mut out, step)?;
    }
    Ok(out)
}
