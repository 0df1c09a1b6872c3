//! What is handed on: rule 30.

ghost use Rattle.std.specs.Prelude.{◌≡◌, option_map};
ghost use Rattle.sl_ast.specs.Views as a;
ghost use Rattle.sl_ast.specs.Views.{bytes, statement_of};
ghost use Rattle.sl_section_resolve.specs.Steps.{is_const};
ghost use Rattle.sl_section_rules.specs.SectionRules.{exports_well, hands_on, hands_on_star};
ghost use Rattle.sl_section_rules.specs.SectionRules.{pointer_kind};

use crate::expressions::reads;
use crate::kinds::{Kind, is_handed_on, is_number, is_pointer, kind_of};
use crate::scopes::Scope;
use sl_ast::statements::{Exported, Pointer, Star, Stmt};
use sl_spec::Tables;

fn is_const(space: Option<&[u8]>) -> bool
    ensures { result ≡ is_const (option_map bytes space.entry) }
{
    match space {
        Some(name) => name == b"const".as_slice(),
        None => false,
    }
}

fn pointer_kind(t: &Tables, scope: &Scope, pointer: &Pointer) -> Kind
    ensures { result ≡ pointer_kind t.now scope.now (a.operand_of_pointer pointer.now) }
{
    match pointer {
        Pointer::Name(name) => kind_of(t, scope, name),
        Pointer::Integer(_) => Kind::Number,
    }
}

/// Whether a star form with a pointer of this kind may be handed on.
fn hands_on_star(t: &Tables, scope: &Scope, form: &Star, pointer: Kind) -> bool
    ensures { result ≡ hands_on_star t.now scope.now (a.star_of form.now) pointer }
{
    if form.size.is_none() {
        return false;
    }
    if is_const(form.space) {
        is_number(pointer)
    } else {
        reads(t, &scope.names, form.space) && is_pointer(pointer)
    }
}

fn hands_on(t: &Tables, scope: &Scope, what: &Exported) -> bool
    ensures { result ≡ hands_on t.now scope.now (a.exported_of what.now) }
{
    match what {
        Exported::Name(name) => is_handed_on(kind_of(t, scope, name)),
        Exported::Star(form, pointer) => {
            let kind = pointer_kind(t, scope, pointer);
            hands_on_star(t, scope, form, kind)
        }
    }
}

/// Rule 30, of a statement: what is exported may be handed on.
pub fn exports_well(t: &Tables, scope: &Scope, x: &Stmt) -> bool
    ensures { result ≡ exports_well t.now scope.now (statement_of x.now) }
{
    match x {
        Stmt::Export(what) => hands_on(t, scope, what),
        Stmt::Local(_, _, _) => true,
        Stmt::Declare(_, _, _) => true,
        Stmt::Assign(_, _) => true,
        Stmt::Goto(_) => true,
        Stmt::Branch(_, _) => true,
        Stmt::Call(_) => true,
        Stmt::Return(_) => true,
        Stmt::Build(_) => true,
        Stmt::Invoke(_, _) => true,
        Stmt::Label(_) => true,
    }
}
