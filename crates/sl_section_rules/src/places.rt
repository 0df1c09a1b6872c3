//! What may be assigned: rule 27.

ghost use Rattle.std.specs.Prelude.{◌≡◌, option_copied};
ghost use Rattle.sl_ast.specs.Views as a;
ghost use Rattle.sl_ast.specs.Views.{expression_of, expressions_of, statement_of};
ghost use Rattle.sl_section_rules.specs.Kinds.{is_place, kind_of};
ghost use Rattle.sl_section_rules.specs.SectionRules.{assigns_places, call_passes_places};
ghost use Rattle.sl_section_rules.specs.SectionRules.{is_left_name, left_is_place, passes_place};
ghost use Rattle.sl_section_rules.specs.SectionRules.{passes_places};

use crate::expressions::reads;
use crate::kinds::{is_place, kind_of};
use crate::macros::Signature;
use crate::scopes::Scope;
use sl_ast::expressions::Expr;
use sl_ast::statements::{Left, Stmt};
use sl_spec::{Named, Tables};

/// Whether a name may be assigned.
fn is_assignable(t: &Tables, scope: &Scope, name: &[u8]) -> bool
    ensures { result ≡ is_place (kind_of t.now scope.now name.now) }
{
    is_place(kind_of(t, scope, name))
}

/// Whether a left side may be assigned.
fn left_is_place(t: &Tables, scope: &Scope, left: &Left) -> bool
    ensures { result ≡ left_is_place t.now scope.now (a.left_of left.now) }
{
    match left {
        Left::Name(name) => is_assignable(t, scope, name),
        Left::Bits(name, _, _) => is_assignable(t, scope, name),
        Left::Star(form, _) => reads(t, &scope.names, form.space),
    }
}

/// Whether an argument is a name that may stand on the left.
fn is_left_name(t: &Tables, scope: &Scope, e: &Expr) -> bool
    ensures { result ≡ is_left_name t.now scope.now (expression_of e.now) }
{
    match e {
        Expr::Name(name) => is_assignable(t, scope, name),
        Expr::Integer(_) => false,
        Expr::Paren(_) => false,
        Expr::Call(_, _) => false,
        Expr::Sized(_, _) => false,
        Expr::Dropped(_, _) => false,
        Expr::Bits(_, _, _) => false,
        Expr::Prefix(_, _) => false,
        Expr::Star(_, _, _) => false,
        Expr::Binary(_, _, _) => false,
    }
}

/// Whether an argument may stand on the left, where its parameter is assigned.
fn passes_place(t: &Tables, scope: &Scope, assigned: bool, e: &Expr) -> bool
    ensures { result ≡ passes_place t.now scope.now assigned (expression_of e.now) }
{
    !assigned || is_left_name(t, scope, e)
}

/// Whether each argument whose parameter is assigned may stand on the left.
fn passes_places(t: &Tables, scope: &Scope, assigned: &[bool], es: &[Expr]) -> bool
    ensures { result ≡ passes_places t.now scope.now assigned.now (expressions_of es.now) }
{
    'given: for index in 0..assigned.len().min(es.len()) {
        if !passes_place(t, scope, assigned[index], &es[index]) {
            return false;
        }
    }
    true
}

fn call_passes_places(t: &Tables, scope: &Scope, of: Option<&Signature>, es: &[Expr]) -> bool
    ensures { result ≡ call_passes_places t.now scope.now (option_copied of.entry)
        (expressions_of es.now) }
{
    match of {
        Some(of) => passes_places(t, scope, of.assigned.as_slice(), es),
        None => true,
    }
}

/// Rule 27, of a statement: what it assigns, itself or through a call of an earlier macro, may be
/// assigned.
pub fn assigns_places<'a>(
    t: &Tables<'a>,
    macros: &Named<'a, Signature<'a>>,
    scope: &Scope<'a>,
    x: &Stmt<'a>,
) -> bool
    ensures { result ≡ assigns_places t.now macros.now scope.now (statement_of x.now) }
{
    match x {
        Stmt::Assign(left, _) => left_is_place(t, scope, left),
        Stmt::Invoke(name, es) => call_passes_places(t, scope, macros.get(name), es.as_slice()),
        Stmt::Local(_, _, _) => true,
        Stmt::Declare(_, _, _) => true,
        Stmt::Goto(_) => true,
        Stmt::Branch(_, _) => true,
        Stmt::Call(_) => true,
        Stmt::Return(_) => true,
        Stmt::Build(_) => true,
        Stmt::Export(_) => true,
        Stmt::Label(_) => true,
    }
}
