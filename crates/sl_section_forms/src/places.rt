//! Where `build` and `export` stand.

ghost use Rattle.std.specs.Prelude.{◌≡◌, ◌&&◌, not};
ghost use Rattle.std.specs.List.{list_all};
ghost use Rattle.sl_ast.specs.Views.{statement_of, statements_of};
ghost use Rattle.sl_section_forms.specs.Places.{exports_last, exports_nothing, is_build, is_export};
ghost use Rattle.sl_section_forms.specs.Places.{is_macro_body};

use sl_ast::statements::Stmt;

fn is_export(x: &Stmt) -> bool
    ensures { result ≡ is_export (statement_of x.now) }
{
    matches!(x, Stmt::Export(_))
}

fn is_build(x: &Stmt) -> bool
    ensures { result ≡ is_build (statement_of x.now) }
{
    matches!(x, Stmt::Build(_))
}

fn none_exports(body: &[Stmt]) -> bool
    ensures { result ≡ list_all (λ x. not (is_export (statement_of x))) body.now }
{
    body.iter().all(|x| !is_export(x))
}

/// No statement is an `export`: rule 30, of `instruction`.
#[tactic(auto, using(sl_spec_rules::proofs::Seen::seen))]
pub fn exports_nothing(body: &[Stmt]) -> bool
    ensures { result ≡ exports_nothing (statements_of body.now) }
{
    none_exports(body)
}

/// Rule 30: `export` stands at most once in a section, as its last statement.
pub fn exports_last(body: &[Stmt]) -> bool
    ensures { result ≡ exports_last (statements_of body.now) }
{
    let (front, _) = body.split_at(body.len().saturating_sub(1));
    exports_nothing(front)
}

fn none_builds_or_exports(body: &[Stmt]) -> bool
    ensures { result ≡ list_all
        (λ x. not (is_build (statement_of x)) && not (is_export (statement_of x))) body.now }
{
    body.iter().all(|x| !is_build(x) && !is_export(x))
}

/// Rule 31: a macro has no `build` and no `export`.
#[tactic(auto, using(sl_spec_rules::proofs::Seen::seen))]
pub fn is_macro_body(body: &[Stmt]) -> bool
    ensures { result ≡ is_macro_body (statements_of body.now) }
{
    none_builds_or_exports(body)
}
