//! Written sizes and counts of bits: a part of rule 26.

ghost use Rattle.std.specs.Prelude.{◌≡◌, option_map};
ghost use Rattle.std.specs.List.{list_all};
ghost use Rattle.sl_ast.specs.Views as a;
ghost use Rattle.sl_ast.specs.Views.{expression_of, expressions_of, statement_of, statements_of};
ghost use Rattle.sl_section_forms.specs.Sizes.{body_has_sizes, dest_has_sizes, export_has_sizes};
ghost use Rattle.sl_section_forms.specs.Sizes.{has_sizes, is_count, is_size, left_has_sizes};
ghost use Rattle.sl_section_forms.specs.Sizes.{statement_has_sizes, target_has_sizes};
ghost use Rattle.sl_section_forms.specs.Sizes.{value_has_sizes};

use sl_ast::expressions::Expr;
use sl_ast::statements::{Dest, Exported, Left, Stmt, Target};

/// A size that is written is at least 1.
fn is_size(size: Option<u64>) -> bool
    ensures { result ≡ is_size size }
{
    match size {
        Some(n) => 1 <= n,
        None => true,
    }
}

/// In `x[l,c]` c is 1 to 128.
fn is_count(count: u64) -> bool
    ensures { result ≡ is_count count }
{
    1 <= count && count <= 128
}

/// Each size in an expression is at least 1, and each count of bits is 1 to 128.
fn has_sizes(e: &Expr) -> bool
    ensures { result ≡ has_sizes (expression_of e.now) }
{
    match e {
        Expr::Integer(_) => true,
        Expr::Name(_) => true,
        Expr::Paren(e) => has_sizes(e),
        Expr::Call(_, es) => {
            let es = es.as_slice();
            'given: for index in 0..es.len() {
                if !has_sizes(&es[index]) {
                    return false;
                }
            }
            true
        }
        Expr::Sized(e, n) => 1 <= *n && has_sizes(e),
        Expr::Dropped(e, _) => has_sizes(e),
        Expr::Bits(e, _, count) => is_count(*count) && has_sizes(e),
        Expr::Prefix(_, e) => has_sizes(e),
        Expr::Star(_, n, e) => is_size(*n) && has_sizes(e),
        Expr::Binary(_, l, r) => has_sizes(l) && has_sizes(r),
    }
}

fn value_has_sizes(value: &Option<Expr>) -> bool
    ensures { result ≡ value_has_sizes (option_map expression_of value.now) }
{
    match value {
        Some(e) => has_sizes(e),
        None => true,
    }
}

fn left_has_sizes(left: &Left) -> bool
    ensures { result ≡ left_has_sizes (a.left_of left.now) }
{
    match left {
        Left::Name(_) => true,
        Left::Bits(_, _, count) => is_count(*count),
        Left::Star(form, p) => is_size(form.size) && has_sizes(p),
    }
}

fn dest_has_sizes(to: &Dest) -> bool
    ensures { result ≡ dest_has_sizes (a.dest_of to.now) }
{
    match to {
        Dest::Direct(_) => true,
        Dest::Computed(e) => has_sizes(e),
    }
}

fn target_has_sizes(to: &Target) -> bool
    ensures { result ≡ target_has_sizes (a.target_of to.now) }
{
    match to {
        Target::Name(_) => true,
        Target::Integer(_) => true,
        Target::Computed(e) => has_sizes(e),
    }
}

fn export_has_sizes(what: &Exported) -> bool
    ensures { result ≡ export_has_sizes (a.exported_of what.now) }
{
    match what {
        Exported::Name(_) => true,
        Exported::Star(form, _) => is_size(form.size),
    }
}

fn each_has_sizes(es: &[Expr]) -> bool
    ensures { result ≡ list_all (λ e. has_sizes (expression_of e)) es.now }
{
    es.iter().all(|e| has_sizes(e))
}

#[tactic(auto, using(sl_spec_rules::proofs::Seen::seen))]
fn all_have_sizes(es: &[Expr]) -> bool
    ensures { result ≡ list_all has_sizes (expressions_of es.now) }
{
    each_has_sizes(es)
}

fn statement_has_sizes(x: &Stmt) -> bool
    ensures { result ≡ statement_has_sizes (statement_of x.now) }
{
    match x {
        Stmt::Local(_, size, value) => is_size(*size) && value_has_sizes(value),
        Stmt::Declare(_, n, e) => 1 <= *n && has_sizes(e),
        Stmt::Assign(left, e) => left_has_sizes(left) && has_sizes(e),
        Stmt::Goto(to) => dest_has_sizes(to),
        Stmt::Branch(e, _) => has_sizes(e),
        Stmt::Call(to) => target_has_sizes(to),
        Stmt::Return(e) => has_sizes(e),
        Stmt::Build(_) => true,
        Stmt::Export(what) => export_has_sizes(what),
        Stmt::Invoke(_, es) => all_have_sizes(es.as_slice()),
        Stmt::Label(_) => true,
    }
}

fn each_statement_has_sizes(body: &[Stmt]) -> bool
    ensures { result ≡ list_all (λ x. statement_has_sizes (statement_of x)) body.now }
{
    body.iter().all(|x| statement_has_sizes(x))
}

/// Rule 26, of sizes and counts of bits: each written size is at least 1, and in `x[l,c]` c is 1 to
/// 128.
#[tactic(auto, using(sl_spec_rules::proofs::Seen::seen))]
pub fn body_has_sizes(body: &[Stmt]) -> bool
    ensures { result ≡ body_has_sizes (statements_of body.now) }
{
    each_statement_has_sizes(body)
}
