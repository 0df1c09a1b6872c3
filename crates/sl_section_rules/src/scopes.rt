//! The names with which a section and a macro begin.

ghost use Rattle.std.specs.Prelude.{◌≡◌, IfOk, OnOk, map};
ghost use Rattle.sl_ast.specs.Views.{bytes, statement_of};
ghost use Rattle.sl_section_flat.specs.Views.{symbol_of};
ghost use Rattle.sl_section_rules.specs.Scopes.{macro_scope, operand_symbol, scope_after};
ghost use Rattle.sl_section_rules.specs.Scopes.{section_scope, with_operand, with_parameter};

use crate::statements::go_on;
use sl_ast::statements::Stmt;
use sl_section_flat::Symbol;
use sl_section_terms::{NamedSymbol, Names, add_symbol, reach_of};
use sl_spec::{Means, Named, Operand, Tables};
use sl_spec_rules::NameSet;
use sl_word::Size;
use std::alloc::{AllocError, Global};

/// The names that are known at a statement, and whether it stands in a macro.
#[derive(Drop)]
pub struct Scope<'a> {
    pub names: Names<'a>,
    pub in_macro: bool,
}

/// An operand, by the fields that are attached to variables.
fn operand_symbol(attached: &NameSet, name: &[u8], means: Means) -> Symbol
    ensures { symbol_of result ≡ operand_symbol attached.now name.now means }
{
    match means {
        Means::Field(_) => {
            if attached.has(name) {
                Symbol::Attached(0, Size { bytes: 1 })
            } else {
                Symbol::Value(0)
            }
        }
        Means::Table(_) => Symbol::Table(0),
        Means::Action(_) => Symbol::Value(0),
    }
}

fn add_operand<'a>(
    attached: &NameSet<'a>,
    own: &mut Named<'a, NamedSymbol<'a>>,
    operand: &Operand<'a>,
) -> Result<(), AllocError>
    ensures { OnOk result (own.new ≡ with_operand attached.now own.old operand.now) }
{
    let name = operand.name;
    let symbol = operand_symbol(attached, name, operand.means);
    add_symbol(own, name, symbol)
}

/// The names with which a section begins: the constructor's operands.
pub fn section_scope<'a>(
    alloc: Global,
    attached: &NameSet<'a>,
    t: &Tables<'a>,
    operands: &[Operand<'a>],
) -> Result<Scope<'a>, AllocError>
    ensures { IfOk result (λ scope. scope ≡ section_scope attached.now t.now operands.now) }
{
    let mut own = Named::new(alloc);
    'operands: for index in 0..operands.len() {
        add_operand(attached, &mut own, &operands[index])?;
    }
    let names = Names {
        own,
        reach: reach_of(t),
        here: 0,
    };
    Ok(Scope {
        names,
        in_macro: false,
    })
}

fn add_parameter<'a>(own: &mut Named<'a, NamedSymbol<'a>>, name: &'a [u8]) -> Result<(), AllocError>
    ensures { OnOk result (own.new ≡ with_parameter own.old name.now) }
{
    add_symbol(own, name, Symbol::Value(0))
}

/// The names with which a macro begins: its parameters.
pub fn macro_scope<'a>(
    alloc: Global,
    t: &Tables<'a>,
    parameters: &[&'a [u8]],
) -> Result<Scope<'a>, AllocError>
    ensures { IfOk result (λ scope. scope ≡ macro_scope t.now (map bytes parameters.now)) }
{
    let mut own = Named::new(alloc);
    'parameters: for index in 0..parameters.len() {
        add_parameter(&mut own, parameters[index])?;
    }
    let names = Names {
        own,
        reach: reach_of(t),
        here: 0,
    };
    Ok(Scope {
        names,
        in_macro: true,
    })
}

/// Adds the local that a statement declares, if it declares one.
pub fn go_behind<'a>(t: &Tables<'a>, scope: &mut Scope<'a>, x: &Stmt<'a>) -> Result<(), AllocError>
    ensures { OnOk result (scope.new ≡ scope_after t.now scope.old (statement_of x.now)) }
{
    go_on(t, &mut scope.names, x)
}
