//! What more is said of a pattern that is refused.

ghost use Rattle.std.specs.Prelude.{◌≡◌, ◌++◌, IfOk, OnOk};
ghost use Rattle.sl_explain.specs.Facts.{part_facts, part_lines, part_of, pattern_facts};
ghost use Rattle.sl_explain.specs.Facts.{wanted_parts};
ghost use Rattle.sl_lex.specs.Views.{views};
ghost use Rattle.sl_preproc.specs.Expanded.{seen};

use crate::facts::{push_flaw_facts, push_item, push_token_spot};
use crate::sentences::push_asked_of_flaw;
use crate::syntax::token_at;
use sl_bind_compile::Flaw;
use sl_explain_patterns::{Culprit, find_joined, find_never, push_advice, push_fault};
use sl_lex::Tok;
use sl_preproc::Expanded;
use std::alloc::{AllocError, Global};

/// The part that has this flaw of the pattern of the item whose first token has this index. `None`
/// where none can be told.
#[tactic(auto, unfolding(crate::specs::Facts::part_of))]
pub fn part_of(
    alloc: Global,
    tokens: &[Tok<'_>],
    flaw: Flaw,
    index: usize,
) -> Result<Option<Culprit>, AllocError>
    ensures { IfOk result (λ found. found ≡ part_of (views tokens.now) flaw index) }
{
    match flaw {
        Flaw::Impossible => find_never(alloc, tokens, index),
        Flaw::TokensDiffer => find_joined(alloc, tokens, index),
        _ => Ok(None),
    }
}

/// Appends where a part is, and in which item: the one whose first token has this index.
#[tactic(auto, unfolding(crate::specs::Facts::part_lines))]
fn push_part_lines(
    alloc: Global,
    out: &mut Vec<u8>,
    text: &Expanded,
    tokens: &[Tok<'_>],
    index: usize,
    culprit: Culprit,
) -> Result<(), AllocError>
    ensures { OnOk result (out.new.items ≡ out.old.items
        ++ part_lines (seen text.now) (views tokens.now) index culprit) }
{
    push_token_spot(out, text, token_at(tokens, culprit.index))?;
    push_item(alloc, out, tokens, true, Some(index))
}

/// Appends the sentence that a part breaks, and what to write instead.
#[tactic(auto, unfolding(crate::specs::Facts::wanted_parts))]
fn push_wanted_parts(out: &mut Vec<u8>, flaw: Flaw, culprit: Culprit) -> Result<(), AllocError>
    ensures { OnOk result (out.new.items ≡ out.old.items ++ wanted_parts flaw culprit) }
{
    push_asked_of_flaw(out, flaw)?;
    push_advice(out, culprit)
}

/// Appends what is said of a part that has this flaw.
#[tactic(auto, unfolding(crate::specs::Facts::part_facts))]
fn push_part_facts(
    alloc: Global,
    out: &mut Vec<u8>,
    text: &Expanded,
    tokens: &[Tok<'_>],
    flaw: Flaw,
    index: usize,
    culprit: Culprit,
) -> Result<(), AllocError>
    ensures { OnOk result (out.new.items ≡ out.old.items
        ++ part_facts (seen text.now) (views tokens.now) flaw index culprit) }
{
    push_part_lines(alloc, out, text, tokens, index, culprit)?;
    push_fault(alloc, out, tokens, culprit)?;
    push_wanted_parts(out, flaw, culprit)
}

/// Appends what is said of a flaw of the item with this first token, with the part that has it, where
/// there is one.
#[tactic(auto, unfolding(crate::specs::Facts::pattern_facts))]
pub fn push_pattern_facts(
    alloc: Global,
    out: &mut Vec<u8>,
    text: &Expanded,
    tokens: &[Tok<'_>],
    flaw: Flaw,
    index: usize,
    culprit: Option<Culprit>,
) -> Result<(), AllocError>
    ensures { OnOk result (out.new.items ≡ out.old.items
        ++ pattern_facts (seen text.now) (views tokens.now) flaw index culprit) }
{
    match culprit {
        Some(culprit) => push_part_facts(alloc, out, text, tokens, flaw, index, culprit),
        None => push_flaw_facts(alloc, out, tokens, flaw, Some(index)),
    }
}
