//! Labels: rule 28.

ghost use Rattle.std.specs.Prelude.{◌≡◌, ◌++◌, IfOk};
ghost use Rattle.std.specs.List.{list_all};
ghost use Rattle.sl_ast.specs.Views as a;
ghost use Rattle.sl_ast.specs.Views.{statement_of, statements_of};
ghost use Rattle.sl_section_forms.specs.Labels.{AddsLabel, AreLabels, dest_leads, has_labels};
ghost use Rattle.sl_section_forms.specs.Labels.{labels, leads, statement_leads};

use sl_ast::statements::{Dest, Direct, Stmt};
use sl_spec_rules::NameSet;
use std::alloc::{AllocError, Global};

/// Adds the label that a statement is. Whether it is new.
fn add_label<'a>(names: &mut NameSet<'a>, x: &Stmt<'a>) -> Result<bool, AllocError>
    ensures { IfOk result (λ fresh. AddsLabel names.old (statement_of x.now) fresh names.new) }
{
    match x {
        Stmt::Label(name) => {
            if names.has(name) {
                return Ok(false);
            }
            names.add(name)?;
            Ok(true)
        }
        Stmt::Local(_, _, _) => Ok(true),
        Stmt::Declare(_, _, _) => Ok(true),
        Stmt::Assign(_, _) => Ok(true),
        Stmt::Goto(_) => Ok(true),
        Stmt::Branch(_, _) => Ok(true),
        Stmt::Call(_) => Ok(true),
        Stmt::Return(_) => Ok(true),
        Stmt::Build(_) => Ok(true),
        Stmt::Export(_) => Ok(true),
        Stmt::Invoke(_, _) => Ok(true),
    }
}

/// The labels that stand in a section or macro, or none where one stands twice.
fn labels<'a>(alloc: Global, body: &[Stmt<'a>]) -> Result<Option<NameSet<'a>>, AllocError>
    ensures { IfOk result (AreLabels (statements_of body.now)) }
{
    let mut names = NameSet::new(alloc);
    'body: for index in 0..body.len() {
        let fresh = add_label(&mut names, &body[index])?;
        if !fresh {
            return Ok(None);
        }
    }
    Ok(Some(names))
}

fn leads(names: &NameSet, to: &Direct) -> bool
    ensures { result ≡ leads names.now (a.direct_of to.now) }
{
    match to {
        Direct::Label(name) => names.has(name),
        Direct::Name(_) => true,
        Direct::Integer(_) => true,
    }
}

fn dest_leads(names: &NameSet, to: &Dest) -> bool
    ensures { result ≡ dest_leads names.now (a.dest_of to.now) }
{
    match to {
        Dest::Direct(to) => leads(names, to),
        Dest::Computed(_) => true,
    }
}

/// A label that a statement uses is among these.
fn statement_leads(names: &NameSet, x: &Stmt) -> bool
    ensures { result ≡ statement_leads names.now (statement_of x.now) }
{
    match x {
        Stmt::Goto(to) => dest_leads(names, to),
        Stmt::Branch(_, to) => leads(names, to),
        Stmt::Local(_, _, _) => true,
        Stmt::Declare(_, _, _) => true,
        Stmt::Assign(_, _) => true,
        Stmt::Call(_) => true,
        Stmt::Return(_) => true,
        Stmt::Build(_) => true,
        Stmt::Export(_) => true,
        Stmt::Invoke(_, _) => true,
        Stmt::Label(_) => true,
    }
}

fn each_leads(names: &NameSet, body: &[Stmt]) -> bool
    ensures { result ≡ list_all (λ x. statement_leads names.now (statement_of x)) body.now }
{
    body.iter().all(|x| statement_leads(names, x))
}

#[tactic(auto, using(sl_spec_rules::proofs::Seen::seen))]
fn all_lead(names: &NameSet, body: &[Stmt]) -> bool
    ensures { result ≡ list_all (statement_leads names.now) (statements_of body.now) }
{
    each_leads(names, body)
}

/// Rule 28: each label stands once in its section or macro, and each used one stands there.
pub fn has_labels(alloc: Global, body: &[Stmt]) -> Result<bool, AllocError>
    ensures { IfOk result (λ has. has ≡ has_labels (statements_of body.now)) }
{
    match labels(alloc, body)? {
        Some(names) => Ok(all_lead(&names, body)),
        None => Ok(false),
    }
}
