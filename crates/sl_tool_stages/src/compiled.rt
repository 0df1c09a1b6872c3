//! The fourth stage: the tables that stand for the tree, which are sound.

ghost use Rattle.std.specs.Prelude.{◌≡◌, ◌++◌, IfOk, OnOk};
ghost use Rattle.sl_ast.specs.Views.{indexes_of, items_of};
ghost use Rattle.sl_bind_compile.specs.Outcomes as outcome;
ghost use Rattle.sl_bind_compile.specs.Outcomes.{flawed};
ghost use Rattle.sl_faithful_accepted.specs.Laws.{IsShort};
ghost use Rattle.sl_tool_stages.specs.Halts.{TellsRefusal};
ghost use Rattle.sl_tool_stages.specs.OriginView.{origin_view};
ghost use Rattle.sl_tool_stages.specs.Places.{indexes_in};
ghost use Rattle.sl_tool_stages.specs.Stages.{ambiguity_lines, conflict_of, flaw_lines, problem_of_flaw};
ghost use Rattle.sl_tool_stages.specs.Stages.{refusal_told};

use crate::facts::Facts;
use crate::halt::Halt;
use crate::origin::Origin;
use crate::place::Name;
use crate::problem::{Conflict, Problem};
use crate::refusal::{Refusal, Subject};
use crate::tree::Tree;
use sl_bind_compile::{Ambiguity, CompileError, Compiled as Specification, Flaw, compile};
use sl_explain::{push_ambiguity_facts, push_flaw_facts, push_item_facts, push_settling_facts};
use sl_explain_notes::push_notes;
use sl_store_text::pack_text;
use sl_store_write::pack_parts;
use std::alloc::{AllocError, Global};

/// A specification with its tables, which are sound, and where its items are. It is short: it has
/// no more than 2^32 tokens.
#[derive(Drop)]
pub struct Compiled<'s, 'r> {
    /// Where the items are, by which places are told.
    pub origin: Origin<'s, 'r>,
    /// The tree, its tables, the sizes of its sections, and the sets of its constructors.
    pub specification: Specification<'s>,
    pub ghost indexes: { indexes_of specification.bound.spec
        ≡ indexes_in (origin_view origin) (items_of specification.bound.spec) },
    pub ghost short: { IsShort (items_of specification.bound.spec) },
}

/// The problem that a flaw is.
fn problem_of(flaw: Flaw) -> Problem
    ensures { result ≡ problem_of_flaw flaw }
{
    match flaw {
        Flaw::Rule(number) => Problem::Rule(number),
        Flaw::SizeClash => Problem::SizeClash,
        Flaw::SizeUnfixed => Problem::SizeUnfixed,
        Flaw::InteriorEllipsis => Problem::InteriorEllipsis,
        Flaw::TokensDiffer => Problem::TokensDiffer,
        Flaw::Impossible => Problem::Impossible,
        Flaw::TooManyCubes(count) => Problem::TooManyCubes(count),
        Flaw::WindowTooLong(count) => Problem::WindowTooLong(count),
    }
}

/// Appends what more is said of a flaw of the item with this index.
fn push_flaw(
    alloc: Global,
    out: &mut Vec<u8>,
    origin: &Origin<'_, '_>,
    flaw: Flaw,
    index: Option<usize>,
) -> Result<(), AllocError>
    ensures { OnOk result (out.new.items
        ≡ out.old.items ++ flaw_lines (origin_view origin.now) flaw index) }
{
    match origin {
        Origin::InText(of) => {
            let text = &of.source.expanded;
            push_item_facts(alloc, out, text, of.tokens.as_slice(), flaw, index)
        }
        Origin::Stored(_) => push_flaw_facts(alloc, out, &[], flaw, index),
    }
}

/// Appends what more is said of a table that isn't settled.
fn push_ambiguity(
    alloc: Global,
    out: &mut Vec<u8>,
    origin: &Origin<'_, '_>,
    told: &Ambiguity<'_>,
) -> Result<(), AllocError>
    ensures { OnOk result (out.new.items
        ≡ out.old.items ++ ambiguity_lines (origin_view origin.now) told.now) }
{
    match origin {
        Origin::InText(of) => {
            let text = &of.source.expanded;
            push_ambiguity_facts(alloc, out, text, of.tokens.as_slice(), told)
        }
        Origin::Stored(_) => push_settling_facts(out, &told.apart),
    }
}

/// The refusal for a flaw of the item with this index.
fn flawed(
    alloc: Global,
    origin: &Origin<'_, '_>,
    flaw: Flaw,
    index: Option<usize>,
) -> Result<Refusal, AllocError>
    ensures { IfOk result (λ x. x ≡ refusal_told (origin_view origin.now) (flawed flaw index)) }
{
    let place = origin.place_of(alloc, index)?;
    let mut lines = Vec::new(alloc);
    push_flaw(alloc, &mut lines, origin, flaw, index)?;
    let subject = Subject::Line(place);
    let problem = problem_of(flaw);
    let facts = Facts::of(lines);
    Ok(Refusal {
        subject,
        problem,
        facts,
    })
}

/// The conflict of a table that isn't settled.
fn conflict(
    alloc: Global,
    origin: &Origin<'_, '_>,
    told: &Ambiguity<'_>,
) -> Result<Conflict, AllocError>
    ensures { IfOk result (λ x. x ≡ conflict_of (origin_view origin.now) told.now) }
{
    let other = origin.place_of(alloc, told.second)?;
    let table = Name::of_bytes(alloc, told.table)?;
    Ok(Conflict {
        table,
        other,
        both: told.both,
        apart: told.apart,
    })
}

/// The refusal for a table that isn't settled.
fn ambiguous(
    alloc: Global,
    origin: &Origin<'_, '_>,
    told: &Ambiguity<'_>,
) -> Result<Refusal, AllocError>
    ensures { IfOk result (λ x. x
        ≡ refusal_told (origin_view origin.now) (outcome.ambiguous told.now)) }
{
    let place = origin.place_of(alloc, told.first)?;
    let conflict = conflict(alloc, origin, told)?;
    let mut lines = Vec::new(alloc);
    push_ambiguity(alloc, &mut lines, origin, told)?;
    let subject = Subject::Line(place);
    let problem = Problem::Ambiguous(conflict);
    let facts = Facts::of(lines);
    Ok(Refusal {
        subject,
        problem,
        facts,
    })
}

/// Why there are no sound tables, with places.
fn refused(alloc: Global, origin: &Origin<'_, '_>, error: CompileError<'_>) -> Halt
    ensures { TellsRefusal (origin_view origin.now) error.entry result }
{
    match error {
        CompileError::Flaw { flaw, token } => match flawed(alloc, origin, flaw, token) {
            Ok(refusal) => Halt::Refused(refusal),
            Err(_) => Halt::NoMemory,
        },
        CompileError::Ambiguous(told) => match ambiguous(alloc, origin, &told) {
            Ok(refusal) => Halt::Refused(refusal),
            Err(_) => Halt::NoMemory,
        },
        CompileError::NoMemory => Halt::NoMemory,
    }
}

impl<'s, 'r> Compiled<'s, 'r> {
    ghost use Rattle.std.specs.Prelude.{◌++◌, IfOk, OnOk};
    ghost use Rattle.sl_tool_stages.specs.Noted.{noted_lines};
    ghost use Rattle.sl_tool_stages.specs.OriginView.{origin_view};
    ghost use Rattle.sl_bind_compile.specs.Compiled.{IsCompiled};
    ghost use Rattle.sl_tool_stages.specs.Outcomes.{Gives};
    ghost use Rattle.sl_tool_stages.specs.Stages.{Compiles};
    ghost use Rattle.sl_tool_stages.specs.StageViews.{compiled_view, tree_view};
    ghost use Rattle.std.specs.Prelude.{◌≡◌};
    ghost use Rattle.sl_store_write.specs.Packs.{IsFileOf};
    ghost use Rattle.sl_tool_stages.specs.Packable.{IsPackable};
    ghost use Rattle.sl_tool_stages.specs.Packing.{packed_form_of};

    /// The tables that stand for the tree, where it keeps all rules and they are sound. It is
    /// refused at the line of the item that has a flaw, at the text's end for a flaw of no item, or
    /// at the line of the first of two constructors of a table that isn't settled.
    pub fn read(alloc: Global, tree: Tree<'s, 'r>) -> Result<Self, Halt>
        ensures gives { Gives (Compiles (tree_view tree.entry)) compiled_view result }
        ensures compiled { IfOk result (λ c. IsCompiled c.specification) }
        ensures packable { IsPackable tree.entry.origin tree.entry.spec
            → IfOk result (λ c. IsPackable c.origin c.specification.bound.spec) }
    {
        let origin = tree.origin;
        match compile(alloc, tree.spec) {
            Ok(specification) => Ok(Compiled {
                origin,
                specification,
            }),
            Err(error) => Err(refused(alloc, &origin, error)),
        }
    }

    /// Appends the notes on the text of the specification; on a packed one there are none.
    pub fn push_notes(&self, alloc: Global, out: &mut Vec<u8>) -> Result<(), AllocError>
        ensures { OnOk result (out.new.items
            ≡ out.old.items ++ noted_lines (origin_view self.now.origin)) }
    {
        match &self.origin {
            Origin::InText(of) => {
                let text = &of.source.expanded;
                push_notes(alloc, out, text, of.tokens.as_slice())
            }
            Origin::Stored(_) => Ok(()),
        }
    }

    /// The packed file of the specification.
    pub fn packed(&self, alloc: Global) -> Result<Vec<u8>, AllocError>
        requires { IsPackable self.now.origin self.now.specification.bound.spec }
        ensures { IfOk result (λ file. IsFileOf (packed_form_of (compiled_view self.now).tree)
            file.items) }
    {
        let spec = &self.specification.bound.spec;
        match &self.origin {
            Origin::InText(tokens) => {
                let text = &tokens.source.expanded;
                pack_text(alloc, text, tokens.tokens.as_slice(), spec)
            }
            Origin::Stored(stored) => {
                let places = stored.places.as_slice();
                pack_parts(
                    alloc,
                    stored.files.as_slice(),
                    places,
                    spec.items.as_slice(),
                )
            }
        }
    }
}
