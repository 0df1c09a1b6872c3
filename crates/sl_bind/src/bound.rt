//! A specification with its tables and the sizes of its sections.

ghost use Rattle.std.specs.Prelude.{◌≡◌, length, map, None, Ok, IfErr, IfOk};
ghost use Rattle.sl_ast.specs.Unfolding.{unfolded};
ghost use Rattle.sl_ast.specs.Views.{item_indexes, item_of, items_of};
ghost use Rattle.sl_bind.specs.Binding.{Binds, constructors_of};
ghost use Rattle.sl_bind.specs.Refusals.{IsErrorOf, Refuses, TellsFault};
ghost use Rattle.sl_bind.specs.BindFaults.{token_of};
ghost use Rattle.sl_bind.specs.Sections.{AreParts, IsRefusal, TellsStop};
ghost use Rattle.sl_bind.specs.Steps.{GivesAt};
ghost use Rattle.sl_bind.specs.Verdict.{beginning, known_behind, placed_step};
ghost use Rattle.sl_bind.specs.Verdict.{taken, unless_late};
ghost use Rattle.sl_spec_constructors.specs.Steps.{all_tables};
ghost use Rattle.sl_section_all.specs.FlatSections.{flat_sections, sections_fault};
ghost use Rattle.sl_section_all.specs.Scopes.{scopes_of};
ghost use Rattle.sl_section_all.specs.Views.{scopes_view};
ghost use Rattle.sl_spec_rules.specs.Demands.{run};
ghost use Rattle.sl_spec_rules.specs.Gathered.{gathered};
ghost use Rattle.sl_section_rules.specs.WholeText.{whole_of};
ghost use Rattle.sl_section_sizes.specs.SectionSizes.{AreSizes};
ghost use Rattle.sl_section_sizes.specs.Sizings.{lists_of};
ghost use Rattle.sl_spec.specs.Numbers.{AreNumbered};
ghost use Rattle.sl_spec.specs.Unfolded.{all_placed};
ghost use Rattle.sl_spec_tables.specs.TableRules.{late_fault};

use crate::fault::{BindFault, Refusal};
use crate::indexes::first_token;
use crate::items::{Progress, beginning, take_items};
use crate::sections::{item_at, sizes_of};
use crate::stop::Stop;
use sl_ast::items::{Item, Spec};
use sl_section_all::{Scopes, text_of};
use sl_section_rules::{Whole, whole_of};
use sl_spec::{Tables, Unfolded};
use sl_spec_constructors::all_tables;
use sl_spec_definitions::Known;
use sl_spec_tables::judge_tables;
use sl_word::Size;
use std::alloc::{AllocError, Global};

/// A specification with the tables that stand for it, and the sizes of its sections.
#[derive(Drop)]
pub struct Bound<'a> {
    pub spec: Spec<'a>,
    pub tables: Tables<'a>,
    /// For each constructor, in the order of the text, the sizes of the variables of its section, an
    /// expression or a local having one; none for `unimpl`.
    pub sizes: Vec<Vec<Size>>,
    pub ghost stands: { taken (items_of spec) ≡ Ok tables },
    pub ghost sections_hold: { sections_fault tables (scopes_of (items_of spec))
        (constructors_of (items_of spec)) ≡ None },
    pub ghost sized: { ∥ AreSizes tables (flat_sections tables (scopes_of (items_of spec))
        (constructors_of (items_of spec))) (lists_of sizes.items) ∥₁ },
}

/// Why a specification isn't bound. `token` is the first token of the item where the fault is; none
/// is the text's end.
#[derive(Clone, Copy, Debug, PartialEq, Eq)]
pub enum BindError {
    /// A rule of the language is broken, by its number.
    Rule { number: u8, token: Option<usize> },
    /// No sizes fit the section of this constructor.
    SizeClash { token: Option<usize> },
    /// Several sizes fit the section of this constructor.
    SizeUnfixed { token: Option<usize> },
    /// Memory ran out, whatever the specification is.
    NoMemory,
}

impl From<AllocError> for BindError {
    ghost use Rattle.std.specs.Prelude.{◌≡◌};
    ghost use Rattle.sl_bind.specs.declared.bound.BindError.{BindError};

    ghost from_gives = { λ _ error. error ≡ BindError.NoMemory };

    fn from(_: AllocError) -> Self {
        BindError::NoMemory
    }
}

/// What is known behind all items, and the macros as calls of them are judged.
fn progress_of<'a>(
    alloc: Global,
    whole: &Whole<'a>,
    items: &[Item<'a>],
) -> Result<Progress<'a>, Stop>
    ensures { GivesAt (λ progress. progress) result
        (run (placed_step whole.now) beginning (unfolded (map item_of items.now))) }
{
    let mut progress = beginning(alloc)?;
    match take_items(alloc, whole, &mut progress, items) {
        Ok(()) => Ok(progress),
        Err(stop) => Err(stop),
    }
}

/// What is known behind all items.
fn known_of<'s, 'a>(
    alloc: Global,
    constructors: &[Unfolded<'s, 'a>],
    items: &[Item<'a>],
) -> Result<Known<'a>, Stop>
    ensures { GivesAt (λ known. known) result (known_behind
        (whole_of (all_tables (all_placed constructors.now)) (map item_of items.now))
        (map item_of items.now)) }
{
    let tables = all_tables(alloc, constructors)?;
    let whole = whole_of(alloc, tables, items)?;
    match progress_of(alloc, &whole, items) {
        Ok(progress) => Ok(progress.known),
        Err(stop) => Err(stop),
    }
}

/// The tables, where no rule over all tables and constructors is broken.
fn judged<'s, 'a>(
    alloc: Global,
    tables: Tables<'a>,
    constructors: &[Unfolded<'s, 'a>],
) -> Result<Tables<'a>, Stop>
    requires { AreNumbered constructors.now }
    ensures { GivesAt (λ t. t) result
        (unless_late (late_fault tables.entry (all_placed constructors.now)) tables.entry) }
{
    let late = judge_tables(alloc, &tables, constructors)?;
    match late {
        None => Ok(tables),
        Some(late) => Err(Stop::Rule(late.rule, item_at(late.place))),
    }
}

/// The tables of a text's items, of which these are the constructors.
#[tactic(auto, unfolding(crate::specs::Verdict::taken))]
fn tables_of<'s, 'a>(
    alloc: Global,
    items: &[Item<'a>],
    constructors: &[Unfolded<'s, 'a>],
) -> Result<Tables<'a>, Stop>
    requires constructors { all_placed constructors.now ≡ constructors_of (map item_of items.now) }
    requires numbered { AreNumbered constructors.now }
    ensures { GivesAt (λ t. t) result (taken (map item_of items.now)) }
{
    match known_of(alloc, constructors, items) {
        Ok(known) => judged(alloc, known.tables, constructors),
        Err(stop) => Err(stop),
    }
}

/// A stop as a refusal.
fn refusal_of(stop: Stop) -> Refusal
    ensures { TellsStop stop result }
{
    match stop {
        Stop::Rule(rule, item) => Refusal::At(BindFault::Rule(rule), item),
        Stop::NoMemory => Refusal::NoMemory,
    }
}

/// The tables of a text and the sizes of its sections.
#[derive(Drop)]
struct Parts<'a> {
    tables: Tables<'a>,
    sizes: Vec<Vec<Size>>,
}

/// The tables of a text's items and the sizes of its sections. `constructors` are those of the items,
/// and `scopes` says what is defined in them.
fn parts_by<'s, 'a>(
    alloc: Global,
    items: &[Item<'a>],
    scopes: &Scopes<'s, 'a>,
    constructors: &[Unfolded<'s, 'a>],
) -> Result<Parts<'a>, Refusal>
    requires scopes { scopes_view scopes.now ≡ scopes_of (map item_of items.now) }
    requires constructors { all_placed constructors.now ≡ constructors_of (map item_of items.now) }
    requires numbered { AreNumbered constructors.now }
    ensures kept { IfOk result (λ parts.
        AreParts (map item_of items.now) parts.tables (lists_of parts.sizes.items)) }
    ensures refused { IfErr result (IsRefusal (map item_of items.now)) }
{
    match tables_of(alloc, items, constructors) {
        Ok(tables) => match sizes_of(alloc, &tables, scopes, constructors) {
            Ok(sizes) => Ok(Parts { tables, sizes }),
            Err(refusal) => Err(refusal),
        },
        Err(stop) => Err(refusal_of(stop)),
    }
}

/// The tables of a text's items and the sizes of its sections.
fn parts_of<'a>(alloc: Global, items: &[Item<'a>]) -> Result<Parts<'a>, Refusal>
    ensures kept { IfOk result (λ parts.
        AreParts (map item_of items.now) parts.tables (lists_of parts.sizes.items)) }
    ensures refused { IfErr result (IsRefusal (map item_of items.now)) }
{
    let Ok(text) = text_of(alloc, items) else {
        return Err(Refusal::NoMemory);
    };
    parts_by(alloc, items, &text.scopes, text.constructors.as_slice())
}

/// The first token of the item where a fault is; none is the text's end.
fn token_of(
    alloc: Global,
    items: &[Item<'_>],
    item: Option<u32>,
) -> Result<Option<usize>, AllocError>
    ensures { IfOk result (λ token. token ≡ token_of (gathered item_indexes items.now) item) }
{
    match item {
        Some(number) => first_token(alloc, items, number),
        None => Ok(None),
    }
}

/// A fault as an error that tells a token.
fn error_of(fault: BindFault, token: Option<usize>) -> BindError
    ensures { IsErrorOf fault token result }
{
    match fault {
        BindFault::Rule(number) => BindError::Rule { number, token },
        BindFault::SizeClash => BindError::SizeClash { token },
        BindFault::SizeUnfixed => BindError::SizeUnfixed { token },
    }
}

/// A fault at an item as an error that tells the item's first token.
fn error_at(alloc: Global, items: &[Item<'_>], fault: BindFault, item: Option<u32>) -> BindError
    ensures { TellsFault (gathered item_indexes items.now) fault item result }
{
    match token_of(alloc, items, item) {
        Ok(token) => error_of(fault, token),
        Err(_) => BindError::NoMemory,
    }
}

/// The error that a refusal of a specification's items is.
fn refused(alloc: Global, spec: &Spec<'_>, refusal: Refusal) -> BindError
    requires { IsRefusal (items_of spec.now) refusal }
    ensures { Refuses spec.now result }
{
    match refusal {
        Refusal::At(fault, item) => error_at(alloc, spec.items.as_slice(), fault, item),
        Refusal::NoMemory => BindError::NoMemory,
    }
}

/// The tables of a specification with the sizes of its sections, where it keeps all rules and its
/// sizes are fixed; else its first fault: the earliest item that breaks one of rules 1 to 31, in it
/// the lowest number; then rules 32 to 39; then the first constructor, in the order in which they
/// are shaped, whose section has no sizes or breaks rule 40.
pub fn bind<'a>(alloc: Global, spec: Spec<'a>) -> Result<Bound<'a>, BindError>
    ensures kept { IfOk result (λ bound. bound.spec ≡ spec.entry) }
    ensures bound { IfOk result (λ bound. Binds (items_of spec.entry)
        (Ok (bound.tables, lists_of bound.sizes.items))) }
    ensures refused { IfErr result (Refuses spec.entry) }
{
    match parts_of(alloc, spec.items.as_slice()) {
        Ok(parts) => Ok(Bound {
            spec,
            tables: parts.tables,
            sizes: parts.sizes,
        }),
        Err(refusal) => Err(refused(alloc, &spec, refusal)),
    }
}
