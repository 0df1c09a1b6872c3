//! What more is said of a section whose sizes are refused.

ghost use Rattle.std.specs.Prelude.{◌≡◌, ◌++◌, IfOk, OnOk};
ghost use Rattle.sl_explain.specs.Facts.{flawed_facts, size_facts, size_lines, sized_facts, sized_part};
ghost use Rattle.sl_explain.specs.Facts.{wanted_sizes};
ghost use Rattle.sl_lex.specs.Views.{views};
ghost use Rattle.sl_preproc.specs.Expanded.{seen};

use crate::facts::{push_flaw_facts, push_item, push_spot_at};
use crate::parts::{part_of, push_pattern_facts};
use crate::sentences::push_asked_of_flaw;
use sl_bind_compile::Flaw;
use sl_explain_sizes::{Culprit, find_clash, find_unfixed, push_advice, push_fault};
use sl_lex::Tok;
use sl_preproc::Expanded;
use std::alloc::{AllocError, Global};

/// The part of the section of the item whose first token has this index whose sizes have this flaw.
/// `None` where none can be told.
#[tactic(auto, unfolding(crate::specs::Facts::sized_part))]
fn sized_part(
    alloc: Global,
    tokens: &[Tok<'_>],
    flaw: Flaw,
    index: usize,
) -> Result<Option<Culprit>, AllocError>
    ensures { IfOk result (λ found. found ≡ sized_part (views tokens.now) flaw index) }
{
    match flaw {
        Flaw::SizeClash => find_clash(alloc, tokens, index),
        Flaw::SizeUnfixed => find_unfixed(alloc, tokens, index),
        _ => Ok(None),
    }
}

/// Appends where a part is, and in which item: the one whose first token has this index.
#[tactic(auto, unfolding(crate::specs::Facts::size_lines))]
fn push_size_lines(
    alloc: Global,
    out: &mut Vec<u8>,
    text: &Expanded,
    tokens: &[Tok<'_>],
    index: usize,
    culprit: Culprit,
) -> Result<(), AllocError>
    ensures { OnOk result (out.new.items ≡ out.old.items
        ++ size_lines (seen text.now) (views tokens.now) index culprit) }
{
    push_spot_at(out, text, culprit.extent.byte, culprit.extent.width)?;
    push_item(alloc, out, tokens, false, Some(index))
}

/// Appends what is asked of sizes, and what to write instead.
#[tactic(auto, unfolding(crate::specs::Facts::wanted_sizes))]
fn push_wanted_sizes(
    alloc: Global,
    out: &mut Vec<u8>,
    text: &Expanded,
    flaw: Flaw,
    culprit: Culprit,
) -> Result<(), AllocError>
    ensures { OnOk result (out.new.items
        ≡ out.old.items ++ wanted_sizes (seen text.now) flaw culprit) }
{
    push_asked_of_flaw(out, flaw)?;
    push_advice(alloc, out, text, culprit)
}

/// Appends what is said of a part whose sizes have this flaw.
#[tactic(auto, unfolding(crate::specs::Facts::size_facts))]
fn push_size_facts(
    alloc: Global,
    out: &mut Vec<u8>,
    text: &Expanded,
    tokens: &[Tok<'_>],
    flaw: Flaw,
    index: usize,
    culprit: Culprit,
) -> Result<(), AllocError>
    ensures { OnOk result (out.new.items ≡ out.old.items
        ++ size_facts (seen text.now) (views tokens.now) flaw index culprit) }
{
    push_size_lines(alloc, out, text, tokens, index, culprit)?;
    push_fault(out, text, tokens, culprit)?;
    push_wanted_sizes(alloc, out, text, flaw, culprit)
}

/// Appends what is said of a flaw of the item with this first token, with the part of its section
/// that has it, where there is one, and else with that of its pattern.
#[tactic(auto, unfolding(crate::specs::Facts::sized_facts))]
fn push_sized_facts(
    alloc: Global,
    out: &mut Vec<u8>,
    text: &Expanded,
    tokens: &[Tok<'_>],
    flaw: Flaw,
    index: usize,
    culprit: Option<Culprit>,
) -> Result<(), AllocError>
    ensures { OnOk result (out.new.items ≡ out.old.items
        ++ sized_facts (seen text.now) (views tokens.now) flaw index culprit) }
{
    match culprit {
        Some(culprit) => push_size_facts(alloc, out, text, tokens, flaw, index, culprit),
        None => {
            let part = part_of(alloc, tokens, flaw, index)?;
            push_pattern_facts(alloc, out, text, tokens, flaw, index, part)
        }
    }
}

/// Appends what is said of a flaw that is no broken rule, of the item with this first token, or of
/// none.
#[tactic(auto, unfolding(crate::specs::Facts::flawed_facts))]
pub fn push_flawed_facts(
    alloc: Global,
    out: &mut Vec<u8>,
    text: &Expanded,
    tokens: &[Tok<'_>],
    flaw: Flaw,
    index: Option<usize>,
) -> Result<(), AllocError>
    ensures { OnOk result (out.new.items ≡ out.old.items
        ++ flawed_facts (seen text.now) (views tokens.now) flaw index) }
{
    match index {
        Some(index) => {
            let culprit = sized_part(alloc, tokens, flaw, index)?;
            push_sized_facts(alloc, out, text, tokens, flaw, index, culprit)
        }
        None => push_flaw_facts(alloc, out, tokens, flaw, None),
    }
}
