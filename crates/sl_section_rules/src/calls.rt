//! Calls: rule 31.

ghost use Rattle.std.specs.Prelude.{◌≡◌, is_some, length, option_copied, option_map};
ghost use Rattle.std.specs.List.{list_all};
ghost use Rattle.sl_ast.specs.Views as a;
ghost use Rattle.sl_ast.specs.Views.{arguments, expression_of, expressions_of, statement_of};
ghost use Rattle.sl_section_terms.specs.Operators.{binary_function, unary_function};
ghost use Rattle.sl_section_terms.specs.Scopes.{userop_named};
ghost use Rattle.sl_section_rules.specs.SectionRules.{calls_well, count, dest_calls_well};
ghost use Rattle.sl_section_rules.specs.SectionRules.{is_called};
ghost use Rattle.sl_section_rules.specs.SectionRules.{is_function, is_invoked_by, left_calls_well};
ghost use Rattle.sl_section_rules.specs.SectionRules.{statement_calls_well, target_calls_well};
ghost use Rattle.sl_section_rules.specs.SectionRules.{value_calls_well};

use crate::macros::Signature;
use crate::scopes::Scope;
use sl_ast::expressions::Expr;
use sl_ast::statements::{Dest, Left, Stmt, Target};
use sl_section_terms::{if_below, is_dropped};
use sl_spec::{Named, Tables};

/// Whether a function of one argument has this name.
fn is_unary(name: &[u8]) -> bool
    ensures { result ≡ is_some (unary_function name.now) }
{
    name == b"zext".as_slice()
        || name == b"sext".as_slice()
        || name == b"popcount".as_slice()
        || name == b"lzcount".as_slice()
}

/// Whether a function of two arguments has this name.
fn is_binary(name: &[u8]) -> bool
    ensures { result ≡ is_some (binary_function name.now) }
{
    name == b"carry".as_slice() || name == b"scarry".as_slice() || name == b"sborrow".as_slice()
}

/// Whether a function of this name takes so many arguments.
fn is_function(name: &[u8], count: usize) -> bool
    ensures { result ≡ is_function name.now count }
{
    is_unary(name) && count == 1 || is_binary(name) && count == 2
}

/// Whether a function of this name takes these arguments.
fn calls_function(name: &[u8], es: &[Expr]) -> bool
    ensures { result ≡ is_function name.now (count (arguments (expressions_of es.now))) }
{
    is_function(name, es.len())
}

/// Whether a user operation that is defined by now has this name.
fn is_user_operation(t: &Tables, scope: &Scope, name: &[u8]) -> bool
    ensures { result ≡ is_some (userop_named t.now scope.now.names.reach name.now) }
{
    if_below(scope.names.reach.userops, t.userops.index_of(name)).is_some()
}

/// Whether a call in an expression drops bytes of a value, or calls an operation or a function.
fn is_called(t: &Tables, scope: &Scope, name: &[u8], es: &[Expr]) -> bool
    ensures { result ≡ is_called t.now scope.now name.now (arguments (expressions_of es.now)) }
{
    is_dropped(t, &scope.names, name, es)
        || is_user_operation(t, scope, name)
        || calls_function(name, es)
}

/// Whether each call in an expression is one that may be.
fn calls_well(t: &Tables, scope: &Scope, e: &Expr) -> bool
    ensures { result ≡ calls_well t.now scope.now (expression_of e.now) }
{
    match e {
        Expr::Integer(_) => true,
        Expr::Name(_) => true,
        Expr::Paren(e) => calls_well(t, scope, e),
        Expr::Call(name, es) => {
            let es = es.as_slice();
            if !is_called(t, scope, name, es) {
                return false;
            }
            'given: for index in 0..es.len() {
                if !calls_well(t, scope, &es[index]) {
                    return false;
                }
            }
            true
        }
        Expr::Sized(e, _) => calls_well(t, scope, e),
        Expr::Dropped(e, _) => calls_well(t, scope, e),
        Expr::Bits(e, _, _) => calls_well(t, scope, e),
        Expr::Prefix(_, e) => calls_well(t, scope, e),
        Expr::Star(_, _, e) => calls_well(t, scope, e),
        Expr::Binary(_, l, r) => calls_well(t, scope, l) && calls_well(t, scope, r),
    }
}

fn value_calls_well(t: &Tables, scope: &Scope, value: &Option<Expr>) -> bool
    ensures { result ≡ value_calls_well t.now scope.now (option_map expression_of value.now) }
{
    match value {
        Some(e) => calls_well(t, scope, e),
        None => true,
    }
}

fn left_calls_well(t: &Tables, scope: &Scope, left: &Left) -> bool
    ensures { result ≡ left_calls_well t.now scope.now (a.left_of left.now) }
{
    match left {
        Left::Name(_) => true,
        Left::Bits(_, _, _) => true,
        Left::Star(_, p) => calls_well(t, scope, p),
    }
}

fn dest_calls_well(t: &Tables, scope: &Scope, to: &Dest) -> bool
    ensures { result ≡ dest_calls_well t.now scope.now (a.dest_of to.now) }
{
    match to {
        Dest::Direct(_) => true,
        Dest::Computed(e) => calls_well(t, scope, e),
    }
}

fn target_calls_well(t: &Tables, scope: &Scope, to: &Target) -> bool
    ensures { result ≡ target_calls_well t.now scope.now (a.target_of to.now) }
{
    match to {
        Target::Name(_) => true,
        Target::Integer(_) => true,
        Target::Computed(e) => calls_well(t, scope, e),
    }
}

fn all_call_well(t: &Tables, scope: &Scope, es: &[Expr]) -> bool
    ensures { result ≡ list_all (calls_well t.now scope.now) (expressions_of es.now) }
{
    'given: for index in 0..es.len() {
        if !calls_well(t, scope, &es[index]) {
            return false;
        }
    }
    true
}

/// Whether a statement with so many arguments calls this macro, or else a user operation.
fn is_invoked_by(
    t: &Tables,
    scope: &Scope,
    name: &[u8],
    count: usize,
    of: Option<&Signature>,
) -> bool
    ensures { result ≡ is_invoked_by t.now scope.now name.now count (option_copied of.entry) }
{
    match of {
        Some(of) => of.assigned.len() == count,
        None => is_user_operation(t, scope, name),
    }
}

/// Rule 31, of a statement: each call names what may be called, with as many arguments as it takes.
pub fn statement_calls_well<'a>(
    t: &Tables<'a>,
    macros: &Named<'a, Signature<'a>>,
    scope: &Scope<'a>,
    x: &Stmt<'a>,
) -> bool
    ensures { result ≡ statement_calls_well t.now macros.now scope.now (statement_of x.now) }
{
    match x {
        Stmt::Local(_, _, value) => value_calls_well(t, scope, value),
        Stmt::Declare(_, _, e) => calls_well(t, scope, e),
        Stmt::Assign(left, e) => left_calls_well(t, scope, left) && calls_well(t, scope, e),
        Stmt::Goto(to) => dest_calls_well(t, scope, to),
        Stmt::Branch(e, _) => calls_well(t, scope, e),
        Stmt::Call(to) => target_calls_well(t, scope, to),
        Stmt::Return(e) => calls_well(t, scope, e),
        Stmt::Build(_) => true,
        Stmt::Export(_) => true,
        Stmt::Invoke(name, es) => {
            let es = es.as_slice();
            is_invoked_by(t, scope, name, es.len(), macros.get(name)) && all_call_well(t, scope, es)
        }
        Stmt::Label(_) => true,
    }
}
