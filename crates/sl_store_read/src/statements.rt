//! Statements.

ghost use Rattle.std.specs.Prelude.{option_map};
ghost use Rattle.sl_ast.specs.Views.{dest_of, direct_of, exported_of, expression_of, left_of};
ghost use Rattle.sl_ast.specs.Views.{operand_of_pointer};
ghost use Rattle.sl_ast.specs.Views.{star_of, statement_of, target_of};
ghost use Rattle.sl_store_format.specs.Actions as actions;
ghost use Rattle.sl_store_format.specs.Statements as reader;
ghost use Rattle.sl_store_format.specs.declared.forms.StatementForm.TheVariants as form;
ghost use Rattle.sl_store_bytes.specs.Reads.{Reads};

use crate::actions::operand_here;
use crate::parts::{Part, option, separated};
use sl_ast::expressions::Expr;
use sl_ast::patterns::Address;
use sl_ast::statements::{Dest, Direct, Exported, Left, Pointer, Star, Stmt, Target};
use sl_parse_phrases::operators::Kind;
use sl_store_bytes::{Bytes, Stop};
use sl_store_format::forms::{DirectForm, LeftForm, StatementForm, TargetForm};
use sl_store_phrases::{
    first_name, invoked_name, name, natural, whole_expression, width, width_option,
};
use std::alloc::Global;

/// An expression of a section.
fn value<'a>(alloc: Global, bytes: &mut Bytes<'a>) -> Result<Expr<'a>, Stop>
    ensures { Reads expression_of (reader.value bytes.old) result bytes.new }
{
    let found = whole_expression(alloc, bytes, Kind::Section)?;
    Ok(found)
}

impl<'a> Part<'a> for Expr<'a> {
    ghost use Rattle.sl_ast.specs.Trees.{Expression};

    ghost Tree = { Expression };

    ghost view = { expression_of };

    ghost reader = { reader.value };

    fn read(alloc: Global, bytes: &mut Bytes<'a>) -> Result<Expr<'a>, Stop> {
        value(alloc, bytes)
    }
}

/// `*[space]:n`.
#[tactic(auto, unfolding(sl_store_format::specs::Statements::star_form))]
fn star_form<'a>(alloc: Global, bytes: &mut Bytes<'a>) -> Result<Star<'a>, Stop>
    ensures { Reads star_of (reader.star_form bytes.old) result bytes.new }
{
    let space: Option<&'a [u8]> = option(alloc, bytes)?;
    let size = width_option(bytes)?;
    Ok(Star { space, size })
}

/// What is left of `=`.
#[tactic(auto, unfolding(sl_store_format::specs::Statements::left))]
fn left<'a>(alloc: Global, bytes: &mut Bytes<'a>) -> Result<Left<'a>, Stop>
    ensures { Reads left_of (reader.left bytes.old) result bytes.new }
{
    match bytes.coded::<LeftForm>()? {
        LeftForm::Name => {
            let name = first_name(bytes)?;
            Ok(Left::Name(name))
        }
        LeftForm::Bits => {
            let name = first_name(bytes)?;
            let low = natural(bytes)?;
            let count = natural(bytes)?;
            Ok(Left::Bits(name, low, count))
        }
        LeftForm::Star => {
            let form = star_form(alloc, bytes)?;
            let pointer = value(alloc, bytes)?;
            Ok(Left::Star(form, pointer))
        }
    }
}

/// A target that is written out.
#[tactic(auto, unfolding(sl_store_format::specs::Statements::direct_here))]
fn direct_here<'a>(bytes: &mut Bytes<'a>) -> Result<Direct<'a>, Stop>
    ensures { Reads direct_of (reader.direct_here bytes.old) result bytes.new }
{
    match bytes.coded::<DirectForm>()? {
        DirectForm::Label => {
            let name = name(bytes)?;
            Ok(Direct::Label(name))
        }
        DirectForm::Name => {
            let name = name(bytes)?;
            Ok(Direct::Name(name))
        }
        DirectForm::Integer => {
            let value = natural(bytes)?;
            Ok(Direct::Integer(value))
        }
    }
}

/// Where a `goto` leads.
#[tactic(auto, unfolding(sl_store_format::specs::Statements::dest, sl_store_bytes::specs::Lists::either))]
fn dest<'a>(alloc: Global, bytes: &mut Bytes<'a>) -> Result<Dest<'a>, Stop>
    ensures { Reads dest_of (reader.dest bytes.old) result bytes.new }
{
    if bytes.below(2)? == 0 {
        let target = direct_here(bytes)?;
        Ok(Dest::Direct(target))
    } else {
        let target = value(alloc, bytes)?;
        Ok(Dest::Computed(target))
    }
}

/// What a `call` calls.
#[tactic(auto, unfolding(sl_store_format::specs::Statements::target))]
fn target<'a>(alloc: Global, bytes: &mut Bytes<'a>) -> Result<Target<'a>, Stop>
    ensures { Reads target_of (reader.target bytes.old) result bytes.new }
{
    match bytes.coded::<TargetForm>()? {
        TargetForm::Name => {
            let name = name(bytes)?;
            Ok(Target::Name(name))
        }
        TargetForm::Integer => {
            let value = natural(bytes)?;
            Ok(Target::Integer(value))
        }
        TargetForm::Computed => {
            let target = value(alloc, bytes)?;
            Ok(Target::Computed(target))
        }
    }
}

/// A name or an integer that points to memory.
fn pointer<'a>(bytes: &mut Bytes<'a>) -> Result<Pointer<'a>, Stop>
    ensures { Reads operand_of_pointer (actions.operand_here bytes.old) result bytes.new }
{
    match operand_here(bytes)? {
        Address::Name(name) => Ok(Pointer::Name(name)),
        Address::Integer(value) => Ok(Pointer::Integer(value)),
    }
}

/// What a section exports.
#[tactic(auto, unfolding(sl_store_format::specs::Statements::exported, sl_store_bytes::specs::Lists::either))]
fn exported<'a>(alloc: Global, bytes: &mut Bytes<'a>) -> Result<Exported<'a>, Stop>
    ensures { Reads exported_of (reader.exported bytes.old) result bytes.new }
{
    if bytes.below(2)? == 0 {
        let name = name(bytes)?;
        Ok(Exported::Name(name))
    } else {
        let form = star_form(alloc, bytes)?;
        let pointer = pointer(bytes)?;
        Ok(Exported::Star(form, pointer))
    }
}

/// `local name:n = expression;`, after its byte.
fn local_here<'a>(alloc: Global, bytes: &mut Bytes<'a>) -> Result<Stmt<'a>, Stop>
    ensures { Reads statement_of (reader.statement_by form.Local bytes.old) result bytes.new }
{
    let name = name(bytes)?;
    let size = width_option(bytes)?;
    let assigned: Option<Expr<'a>> = option(alloc, bytes)?;
    Ok(Stmt::Local(name, size, assigned))
}

/// `name:n = expression;`, after its byte.
fn declare_here<'a>(alloc: Global, bytes: &mut Bytes<'a>) -> Result<Stmt<'a>, Stop>
    ensures { Reads statement_of (reader.statement_by form.Declare bytes.old) result bytes.new }
{
    let name = first_name(bytes)?;
    let size = width(bytes)?;
    let assigned = value(alloc, bytes)?;
    Ok(Stmt::Declare(name, size, assigned))
}

/// `left = expression;`, after its byte.
fn assign_here<'a>(alloc: Global, bytes: &mut Bytes<'a>) -> Result<Stmt<'a>, Stop>
    ensures { Reads statement_of (reader.statement_by form.Assign bytes.old) result bytes.new }
{
    let to = left(alloc, bytes)?;
    let assigned = value(alloc, bytes)?;
    Ok(Stmt::Assign(to, assigned))
}

/// `if expression goto target;`, after its byte.
fn branch_here<'a>(alloc: Global, bytes: &mut Bytes<'a>) -> Result<Stmt<'a>, Stop>
    ensures { Reads statement_of (reader.statement_by form.Branch bytes.old) result bytes.new }
{
    let condition = value(alloc, bytes)?;
    let to = direct_here(bytes)?;
    Ok(Stmt::Branch(condition, to))
}

/// `name(arguments);`, after its byte.
fn invoke_here<'a>(alloc: Global, bytes: &mut Bytes<'a>) -> Result<Stmt<'a>, Stop>
    ensures { Reads statement_of (reader.statement_by form.Invoke bytes.old) result bytes.new }
{
    let name = invoked_name(bytes)?;
    let given: Vec<Expr<'a>> = separated(alloc, bytes)?;
    Ok(Stmt::Invoke(name, given))
}

impl<'a> Part<'a> for Stmt<'a> {
    ghost use Rattle.sl_ast.specs.Trees.{Statement};

    ghost Tree = { Statement };

    ghost view = { statement_of };

    ghost reader = { reader.statement };

    #[tactic(auto, unfolding(sl_store_format::specs::Statements::statement))]
    fn read(alloc: Global, bytes: &mut Bytes<'a>) -> Result<Stmt<'a>, Stop> {
        match bytes.coded::<StatementForm>()? {
            StatementForm::Local => local_here(alloc, bytes),
            StatementForm::Declare => declare_here(alloc, bytes),
            StatementForm::Assign => assign_here(alloc, bytes),
            StatementForm::Goto => {
                let to = dest(alloc, bytes)?;
                Ok(Stmt::Goto(to))
            }
            StatementForm::Branch => branch_here(alloc, bytes),
            StatementForm::Call => {
                let to = target(alloc, bytes)?;
                Ok(Stmt::Call(to))
            }
            StatementForm::Return => {
                let to = value(alloc, bytes)?;
                Ok(Stmt::Return(to))
            }
            StatementForm::Build => {
                let name = name(bytes)?;
                Ok(Stmt::Build(name))
            }
            StatementForm::Export => {
                let what = exported(alloc, bytes)?;
                Ok(Stmt::Export(what))
            }
            StatementForm::Invoke => invoke_here(alloc, bytes),
            StatementForm::Label => {
                let name = name(bytes)?;
                Ok(Stmt::Label(name))
            }
        }
    }
}
