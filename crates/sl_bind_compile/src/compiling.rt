//! `compile`: from a tree to sound tables, or to the first reason why it is refused.

ghost use Rattle.std.specs.Prelude.{◌≡◌, IfErr, IfOk, Ok};
ghost use Rattle.sl_ast.specs.Views.{items_of};
ghost use Rattle.sl_bind.specs.Binding.{Binds as BindsTo};
ghost use Rattle.sl_bind_compile.specs.Compiled.{IsCompiled};
ghost use Rattle.sl_bind_compile.specs.Outcomes.{Binds, Compiles, all_constructors};
ghost use Rattle.sl_bind_compile.specs.Refusals.{Refuses, unbound};
ghost use Rattle.sl_section_sizes.specs.Sizings.{lists_of};
ghost use Rattle.sl_conflict.specs.Soundness.{IsSound};
ghost use Rattle.sl_conflict.specs.TableTests.{AreSetsOf};

use crate::compiled::Compiled;
use crate::error::{CompileError, Flaw};
use crate::places::refused;
use sl_ast::items::Spec;
use sl_bind::{BindError, Bound, bind};
use sl_conflict::{Checked, judge};
use sl_spec::unfolded_constructors;
use std::alloc::Global;

/// A broken rule, or sizes that aren't there, as an error.
fn unbound<'a>(error: BindError) -> CompileError<'a>
    ensures { result ≡ unbound error }
{
    match error {
        BindError::Rule { number, token } => {
            let flaw = Flaw::Rule(number);
            CompileError::Flaw { flaw, token }
        }
        BindError::SizeClash { token } => {
            let flaw = Flaw::SizeClash;
            CompileError::Flaw { flaw, token }
        }
        BindError::SizeUnfixed { token } => {
            let flaw = Flaw::SizeUnfixed;
            CompileError::Flaw { flaw, token }
        }
        BindError::NoMemory => CompileError::NoMemory,
    }
}

/// The sets of all tables, where they are sound.
fn checked<'a>(alloc: Global, bound: &Bound<'a>) -> Result<Checked, CompileError<'a>>
    requires { Binds (items_of bound.now.spec) (Ok bound.now.tables) }
    ensures compiles { IfOk result (λ checked.
        Compiles (items_of bound.now.spec) (Ok bound.now.tables)) }
    ensures sound { IfOk result (λ checked.
        IsSound bound.now.tables (all_constructors (items_of bound.now.spec))) }
    ensures sets { IfOk result (λ checked. AreSetsOf bound.now.tables
        (all_constructors (items_of bound.now.spec)) checked.tables.items) }
    ensures refused { IfErr result (Refuses bound.now.spec) }
{
    let constructors = unfolded_constructors(alloc, bound.spec.items.as_slice())?;
    match judge(alloc, &bound.tables, constructors.as_slice()) {
        Ok(checked) => Ok(checked),
        Err(why) => Err(refused(alloc, bound, why)),
    }
}

/// A bound specification with the sets of its tables, where they are sound.
fn judged<'a>(alloc: Global, bound: Bound<'a>) -> Result<Compiled<'a>, CompileError<'a>>
    requires { BindsTo (items_of bound.spec) (Ok (bound.tables, lists_of bound.sizes.items)) }
    ensures kept { IfOk result (λ compiled. compiled.bound ≡ bound.entry) }
    ensures compiled { IfOk result IsCompiled }
    ensures refused { IfErr result (Refuses bound.entry.spec) }
{
    match checked(alloc, &bound) {
        Ok(checked) => Ok(Compiled { bound, checked }),
        Err(error) => Err(error),
    }
}

/// A specification that keeps all rules, whose sizes are fixed and whose tables are sound, or the
/// first reason why it is refused: a broken rule or a fault of sizes, as `bind` tells it; then the
/// first fault of a pattern, tables being taken by their heights; then the first table of the text
/// that isn't settled.
pub fn compile<'a>(alloc: Global, spec: Spec<'a>) -> Result<Compiled<'a>, CompileError<'a>>
    ensures kept { IfOk result (λ compiled. compiled.bound.spec ≡ spec.entry) }
    ensures compiled { IfOk result IsCompiled }
    ensures refused { IfErr result (Refuses spec.entry) }
{
    match bind(alloc, spec) {
        Ok(bound) => judged(alloc, bound),
        Err(error) => Err(unbound(error)),
    }
}
