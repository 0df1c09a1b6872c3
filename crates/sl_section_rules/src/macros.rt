//! Which parameters macros assign.

ghost use Rattle.std.specs.Prelude.{◌≡◌, IfOk, OnOk, fold, map, option_copied, []};
ghost use Rattle.sl_ast.specs.Views as a;
ghost use Rattle.sl_ast.specs.Views.{bytes, expression_of, expressions_of};
ghost use Rattle.sl_ast.specs.Views.{macro_of, statement_of, statements_of};
ghost use Rattle.sl_section_resolve.specs.Steps.{with_name};
ghost use Rattle.sl_spec_rules.specs.Names.{is_among};
ghost use Rattle.sl_section_rules.specs.Macros.{assigned_names, signature_of, with_argument};
ghost use Rattle.sl_section_rules.specs.Macros.{with_assigned, with_call, with_left, with_passed};
ghost use Rattle.sl_section_rules.specs.Macros.{with_passed_one, with_signature};

use sl_ast::constructors::Macro;
use sl_ast::expressions::Expr;
use sl_ast::statements::{Left, Stmt};
use sl_spec::{Entry, Named};
use sl_spec_rules::NameSet;
use std::alloc::{AllocError, Global};
use std::marker::Model;

/// A macro as calls of it are judged: for each of its parameters, whether it assigns it or passes it
/// on to a parameter that is assigned.
#[derive(Drop)]
pub struct Signature<'a> {
    pub name: &'a [u8],
    pub assigned: Vec<bool>,
}

impl<'a> Model for Signature<'a> {
    ghost use Rattle.sl_section_rules.specs.Macros as spec;

    ghost Value = { spec.Signature };

    ghost view = { λ m. record { name = m.name.now; assigned = m.assigned.items } };
}

impl<'a> Entry for Signature<'a> {
    ghost name_of = { λ m. m.name };
}

/// Adds a name, which stands once.
pub fn add_once<'a>(names: &mut NameSet<'a>, name: &'a [u8]) -> Result<(), AllocError>
    ensures { OnOk result (names.new ≡ with_name names.old name.now) }
{
    if !names.has(name) {
        names.add(name)?;
    }
    Ok(())
}

/// Adds the name that a left side assigns.
fn add_left<'a>(names: &mut NameSet<'a>, left: &Left<'a>) -> Result<(), AllocError>
    ensures { OnOk result (names.new ≡ with_left names.old (a.left_of left.now)) }
{
    match left {
        Left::Name(name) => add_once(names, name),
        Left::Bits(name, _, _) => add_once(names, name),
        Left::Star(_, _) => Ok(()),
    }
}

/// Adds the name that an argument is.
fn add_argument<'a>(names: &mut NameSet<'a>, e: &Expr<'a>) -> Result<(), AllocError>
    ensures { OnOk result (names.new ≡ with_argument names.old (expression_of e.now)) }
{
    match e {
        Expr::Name(name) => add_once(names, name),
        Expr::Integer(_) => Ok(()),
        Expr::Paren(_) => Ok(()),
        Expr::Call(_, _) => Ok(()),
        Expr::Sized(_, _) => Ok(()),
        Expr::Dropped(_, _) => Ok(()),
        Expr::Bits(_, _, _) => Ok(()),
        Expr::Prefix(_, _) => Ok(()),
        Expr::Star(_, _, _) => Ok(()),
        Expr::Binary(_, _, _) => Ok(()),
    }
}

/// Adds the name that an argument is, where its parameter is assigned.
fn add_passed_one<'a>(
    names: &mut NameSet<'a>,
    assigned: bool,
    e: &Expr<'a>,
) -> Result<(), AllocError>
    ensures { OnOk result (names.new
        ≡ with_passed_one names.old assigned (expression_of e.now)) }
{
    if !assigned {
        return Ok(());
    }
    add_argument(names, e)
}

/// Adds the arguments that are passed on to parameters that are assigned.
fn add_passed<'a>(
    names: &mut NameSet<'a>,
    assigned: &[bool],
    es: &[Expr<'a>],
) -> Result<(), AllocError>
    ensures { OnOk result (names.new
        ≡ with_passed names.old assigned.now (expressions_of es.now)) }
{
    'given: for index in 0..assigned.len().min(es.len()) {
        add_passed_one(names, assigned[index], &es[index])?;
    }
    Ok(())
}

fn add_call<'a>(
    names: &mut NameSet<'a>,
    of: Option<&Signature>,
    es: &[Expr<'a>],
) -> Result<(), AllocError>
    ensures { OnOk result (names.new
        ≡ with_call names.old (option_copied of.entry) (expressions_of es.now)) }
{
    match of {
        Some(of) => add_passed(names, of.assigned.as_slice(), es),
        None => Ok(()),
    }
}

/// Adds the names that a statement assigns, itself or through a call of an earlier macro.
fn add_assigned<'a>(
    macros: &Named<'a, Signature<'a>>,
    names: &mut NameSet<'a>,
    x: &Stmt<'a>,
) -> Result<(), AllocError>
    ensures { OnOk result (names.new ≡ with_assigned macros.now names.old (statement_of x.now)) }
{
    match x {
        Stmt::Assign(left, _) => add_left(names, left),
        Stmt::Invoke(name, es) => add_call(names, macros.get(name), es.as_slice()),
        Stmt::Local(_, _, _) => Ok(()),
        Stmt::Declare(_, _, _) => Ok(()),
        Stmt::Goto(_) => Ok(()),
        Stmt::Branch(_, _) => Ok(()),
        Stmt::Call(_) => Ok(()),
        Stmt::Return(_) => Ok(()),
        Stmt::Build(_) => Ok(()),
        Stmt::Export(_) => Ok(()),
        Stmt::Label(_) => Ok(()),
    }
}

/// The names that statements assign, each once.
fn assigned_names<'a>(
    alloc: Global,
    macros: &Named<'a, Signature<'a>>,
    body: &[Stmt<'a>],
) -> Result<NameSet<'a>, AllocError>
    ensures { IfOk result (λ names. names
        ≡ assigned_names macros.now (statements_of body.now)) }
{
    let mut names = NameSet::new(alloc);
    'body: for index in 0..body.len() {
        add_assigned(macros, &mut names, &body[index])?;
    }
    Ok(names)
}

/// For each parameter, whether it is among these names.
fn marks(alloc: Global, assigned: &NameSet, parameters: &[&[u8]]) -> Result<Vec<bool>, AllocError>
    ensures { IfOk result (λ marks. marks.items
        ≡ map (is_among assigned.now) (map bytes parameters.now)) }
{
    let mut marks = Vec::new(alloc);
    'parameters: for index in 0..parameters.len() {
        let name = parameters[index];
        marks.push(assigned.has(name))?;
    }
    Ok(marks)
}

/// A macro as calls of it are judged, by the macros before it.
pub fn signature_of<'a>(
    alloc: Global,
    macros: &Named<'a, Signature<'a>>,
    of: &Macro<'a>,
) -> Result<Signature<'a>, AllocError>
    ensures { IfOk result (λ m. m ≡ signature_of macros.now (macro_of of.now)) }
{
    let names = assigned_names(alloc, macros, of.body.as_slice())?;
    let assigned = marks(alloc, &names, of.parameters.as_slice())?;
    Ok(Signature {
        name: of.name,
        assigned,
    })
}

/// Adds a macro, if none of its name is there.
pub fn add_signature<'a>(
    macros: &mut Named<'a, Signature<'a>>,
    of: Signature<'a>,
) -> Result<(), AllocError>
    ensures { OnOk result (macros.new ≡ with_signature macros.old of.entry) }
{
    let name = of.name;
    if macros.has(name) {
        return Ok(());
    }
    macros.add(name, of)
}
