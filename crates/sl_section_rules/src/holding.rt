//! Which rules hold of statements.

ghost use Rattle.std.specs.Prelude.{◌≡◌, IfOk};
ghost use Rattle.sl_ast.specs.Views.{statement_of, statements_of};
ghost use Rattle.sl_section_rules.specs.Holding.{all_holding, both, holding};
ghost use Rattle.sl_section_rules.specs.SectionRules.{knows};

use crate::builds::builds_table;
use crate::calls::statement_calls_well;
use crate::exports::exports_well;
use crate::macros::Signature;
use crate::places::assigns_places;
use crate::scopes::{Scope, go_behind};
use crate::statements::statement_knows;
use crate::whole_text::Whole;
use sl_ast::statements::Stmt;
use sl_spec::{Named, Tables};
use std::alloc::AllocError;

/// Which of the rules 26, 27, 29, 30 and 31 hold of statements.
#[derive(Clone, Copy)]
pub struct Holds {
    pub names: bool,
    pub places: bool,
    pub builds: bool,
    pub exports: bool,
    pub calls: bool,
}

fn both(h: Holds, k: Holds) -> Holds
    ensures { result ≡ both h k }
{
    Holds {
        names: h.names && k.names,
        places: h.places && k.places,
        builds: h.builds && k.builds,
        exports: h.exports && k.exports,
        calls: h.calls && k.calls,
    }
}

/// Rule 26, of a statement, but for sizes.
fn knows(whole: &Whole, t: &Tables, scope: &Scope, x: &Stmt) -> bool
    ensures { result ≡ knows whole.now t.now scope.now (statement_of x.now) }
{
    statement_knows(&whole.tables, t, whole.context, &scope.names, x)
}

/// Which rules hold of a statement.
fn holding<'a>(
    whole: &Whole<'a>,
    t: &Tables<'a>,
    macros: &Named<'a, Signature<'a>>,
    scope: &Scope<'a>,
    x: &Stmt<'a>,
) -> Holds
    ensures { result ≡ holding whole.now t.now macros.now scope.now (statement_of x.now) }
{
    Holds {
        names: knows(whole, t, scope, x),
        places: assigns_places(t, macros, scope, x),
        builds: builds_table(t, scope, x),
        exports: exports_well(t, scope, x),
        calls: statement_calls_well(t, macros, scope, x),
    }
}

/// Which rules hold of each statement, where these names are known at the first.
pub fn all_holding<'a>(
    whole: &Whole<'a>,
    t: &Tables<'a>,
    macros: &Named<'a, Signature<'a>>,
    scope: &mut Scope<'a>,
    body: &[Stmt<'a>],
) -> Result<Holds, AllocError>
    ensures { IfOk result (λ h. h
        ≡ all_holding whole.now t.now macros.now scope.old (statements_of body.now)) }
{
    let mut holds = Holds {
        names: true,
        places: true,
        builds: true,
        exports: true,
        calls: true,
    };
    'body: for index in 0..body.len() {
        let x = &body[index];
        holds = both(holds, holding(whole, t, macros, scope, x));
        go_behind(t, scope, x)?;
    }
    Ok(holds)
}
