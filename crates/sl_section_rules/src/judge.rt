//! The first broken one of rules 26 to 31.

ghost use Rattle.std.specs.Prelude.{◌≡◌, ◌∷◌, [], false, IfOk, map};
ghost use Rattle.sl_ast.specs.Trees.{statements};
ghost use Rattle.sl_ast.specs.Views.{bytes, macro_of, section_of, statements_of};
ghost use Rattle.sl_spec_rules.specs.Demands.{first_broken};
ghost use Rattle.sl_section_rules.specs.Scopes.{macro_scope, section_scope};
ghost use Rattle.sl_section_rules.specs.SectionRules as rules;

use crate::builds::are_built_once;
use crate::holding::{Holds, all_holding};
use crate::macros::Signature;
use crate::scopes::{Scope, macro_scope, section_scope};
use crate::whole_text::Whole;
use sl_ast::constructors::{Macro, Section};
use sl_ast::statements::Stmt;
use sl_section_forms::{body_has_sizes, exports_last, exports_nothing, has_labels, is_macro_body};
use sl_spec::{Named, Operand, Tables};
use sl_spec_rules::are_distinct;
use std::alloc::{AllocError, Global};

/// The number of the first rule that doesn't hold.
fn first_number(h: Holds, labels: bool) -> Option<u8>
    ensures { result ≡ first_broken ((26, h.names) ∷ (27, h.places) ∷ (28, labels)
        ∷ (29, h.builds) ∷ (30, h.exports) ∷ (31, h.calls) ∷ []) }
{
    if !h.names {
        Some(26)
    } else if !h.places {
        Some(27)
    } else if !labels {
        Some(28)
    } else if !h.builds {
        Some(29)
    } else if !h.exports {
        Some(30)
    } else if !h.calls {
        Some(31)
    } else {
        None
    }
}

/// The first broken rule of a body with these parameters, where these names are known at its first
/// statement.
fn judge_body<'a>(
    alloc: Global,
    whole: &Whole<'a>,
    t: &Tables<'a>,
    macros: &Named<'a, Signature<'a>>,
    scope: &mut Scope<'a>,
    parameters: &[&'a [u8]],
    is_root: bool,
    body: &[Stmt<'a>],
) -> Result<Option<u8>, AllocError>
    ensures { IfOk result (λ broken. broken ≡ first_broken (rules.body_demands whole.now t.now
        macros.now scope.old (map bytes parameters.now) is_root (statements_of body.now))) }
{
    let in_macro = scope.in_macro;
    let holds = all_holding(whole, t, macros, scope, body)?;
    let of_whole = Holds {
        names: are_distinct(alloc, parameters)? && (body_has_sizes(body) && holds.names),
        places: holds.places,
        builds: are_built_once(alloc, body)? && holds.builds,
        exports: (exports_last(body) && (!is_root || exports_nothing(body))) && holds.exports,
        calls: (!in_macro || is_macro_body(body)) && holds.calls,
    };
    Ok(first_number(of_whole, has_labels(alloc, body)?))
}

/// The names with which a section begins, by what the whole text says.
fn scope_in<'a>(
    alloc: Global,
    whole: &Whole<'a>,
    t: &Tables<'a>,
    operands: &[Operand<'a>],
) -> Result<Scope<'a>, AllocError>
    ensures { IfOk result (λ scope. scope ≡ section_scope whole.now.attached t.now operands.now) }
{
    section_scope(alloc, &whole.attached, t, operands)
}

/// The first broken rule of a section with these statements.
fn judge_statements<'a>(
    alloc: Global,
    whole: &Whole<'a>,
    t: &Tables<'a>,
    macros: &Named<'a, Signature<'a>>,
    operands: &[Operand<'a>],
    is_root: bool,
    body: &[Stmt<'a>],
) -> Result<Option<u8>, AllocError>
    ensures { IfOk result (λ broken. broken ≡ first_broken (rules.section_demands whole.now t.now
        macros.now operands.now is_root (statements (statements_of body.now)))) }
{
    let mut scope = scope_in(alloc, whole, t, operands)?;
    judge_body(alloc, whole, t, macros, &mut scope, &[], is_root, body)
}

/// The number of the first of the rules 26 to 31 that a constructor's section breaks. `t` is what is
/// defined before it, `macros` are the macros before it, `is_root` says whether it is one of
/// `instruction`. The only error is want of memory.
pub fn judge_section<'a>(
    alloc: Global,
    whole: &Whole<'a>,
    t: &Tables<'a>,
    macros: &Named<'a, Signature<'a>>,
    operands: &[Operand<'a>],
    is_root: bool,
    section: &Section<'a>,
) -> Result<Option<u8>, AllocError>
    ensures { IfOk result (λ broken. broken ≡ first_broken (rules.section_demands whole.now t.now
        macros.now operands.now is_root (section_of section.now))) }
{
    match section {
        Section::Statements(body) => {
            let body = body.as_slice();
            judge_statements(alloc, whole, t, macros, operands, is_root, body)
        }
        Section::Unimplemented => Ok(None),
    }
}

/// The first broken rule of a macro with these parameters and statements.
fn judge_parts<'a>(
    alloc: Global,
    whole: &Whole<'a>,
    t: &Tables<'a>,
    macros: &Named<'a, Signature<'a>>,
    parameters: &[&'a [u8]],
    body: &[Stmt<'a>],
) -> Result<Option<u8>, AllocError>
    ensures { IfOk result (λ broken. broken ≡ first_broken (rules.body_demands whole.now t.now
        macros.now (macro_scope t.now (map bytes parameters.now)) (map bytes parameters.now) false
        (statements_of body.now))) }
{
    let mut scope = macro_scope(alloc, t, parameters)?;
    judge_body(alloc, whole, t, macros, &mut scope, parameters, false, body)
}

/// The number of the first of the rules 26 to 31 that a macro breaks. `t` is what is defined before
/// it, with its own name, and `macros` are the macros before it. The only error is want of memory.
pub fn judge_macro<'a>(
    alloc: Global,
    whole: &Whole<'a>,
    t: &Tables<'a>,
    macros: &Named<'a, Signature<'a>>,
    of: &Macro<'a>,
) -> Result<Option<u8>, AllocError>
    ensures { IfOk result (λ broken. broken ≡ first_broken (rules.macro_demands whole.now t.now
        macros.now (macro_of of.now))) }
{
    let parameters = of.parameters.as_slice();
    judge_parts(alloc, whole, t, macros, parameters, of.body.as_slice())
}
