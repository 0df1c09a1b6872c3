//! The word of an item that breaks a rule.

ghost use Rattle.std.specs.Prelude.{◌≡◌, IfOk};
ghost use Rattle.sl_explain_names.specs.Culprits.{culprit, culprit_in, finding, first_in, form_of};
ghost use Rattle.sl_explain_names.specs.Culprits.{item_at, rule_culprit};
ghost use Rattle.sl_explain_names.specs.ItemView.{item};
ghost use Rattle.sl_lex.specs.Views.{views};

use crate::findings::Finding;
use crate::item::Item;
use crate::names::mentions;
use crate::places::{Form, Place, places_of};
use crate::sections::is_of_root;
use crate::{arguments, definitions, patterns, ranges, sections};
use sl_explain_heads::{blocks_round, table_of};
use sl_lex::Tok;
use std::alloc::{AllocError, Global};

/// What a rule asks of the words of an item.
#[derive(Clone, Copy)]
pub enum Test {
    Order,
    Alignment,
    NewName,
    SpaceAttributes,
    SecondDefault,
    Registers,
    RegisterPlaces,
    BitRanges,
    TokenWidth,
    FieldBits,
    ContextParts,
    FieldAttributes,
    AttachedFields,
    Members,
    MemberCount,
    DisplayWords,
    PatternNames,
    BareNames,
    OperandCount,
    InsideOr,
    ZeroDivisors,
    OnlyDivision,
    ActionNames,
    UsedNames,
    ContextSources,
    CommittedFields,
    Addresses,
    ParameterNames,
    Sizes,
    SectionNames,
    LeftSides,
    AssignedArguments,
    Labels,
    BuiltTwice,
    BuiltTables,
    LastStatement,
    RootExports,
    ExportedNames,
    ExportedStars,
    MacroStatements,
    Calls,
    OwnTable,
    NoBytes,
}

/// A word that breaks a rule, by its index, and what is wrong with it.
#[derive(Clone, Copy)]
pub struct Culprit {
    pub index: usize,
    pub finding: Finding,
}

/// What a test finds at a place.
fn finding(i: &Item<'_, '_>, test: Test, place: Place) -> Option<Finding>
    ensures { result ≡ finding (item i.now) test place }
{
    match test {
        Test::Order => definitions::order_finding(i, place),
        Test::Alignment => definitions::alignment_finding(i, place),
        Test::NewName => definitions::new_finding(i, place),
        Test::SpaceAttributes => definitions::space_finding(i, place),
        Test::SecondDefault => definitions::default_finding(i, place),
        Test::Registers => definitions::registers_finding(i, place),
        Test::RegisterPlaces => ranges::places_finding(i, place),
        Test::BitRanges => ranges::bit_range_finding(i, place),
        Test::TokenWidth => definitions::token_finding(i, place),
        Test::FieldBits => definitions::field_finding(i, place),
        Test::ContextParts => definitions::context_finding(i, place),
        Test::FieldAttributes => definitions::attributes_finding(i, place),
        Test::AttachedFields => definitions::attached_finding(i, place),
        Test::Members => definitions::members_finding(i, place),
        Test::MemberCount => definitions::count_finding(i, place),
        Test::DisplayWords => patterns::display_finding(i, place),
        Test::PatternNames => patterns::pattern_finding(i, place),
        Test::BareNames => patterns::twice_finding(i, place),
        Test::OperandCount => patterns::operand_finding(i, place),
        Test::InsideOr => patterns::inside_finding(i, place),
        Test::ZeroDivisors => patterns::zero_finding(i, place),
        Test::OnlyDivision => patterns::division_finding(i, place),
        Test::ActionNames => patterns::left_finding(i, place),
        Test::UsedNames => patterns::used_finding(i, place),
        Test::ContextSources => patterns::context_finding(i, place),
        Test::CommittedFields => patterns::set_finding(i, place),
        Test::Addresses => patterns::address_finding(i, place),
        Test::ParameterNames => sections::parameter_finding(i, place),
        Test::Sizes => sections::size_finding(i, place),
        Test::SectionNames => sections::section_finding(i, place),
        Test::LeftSides => sections::left_finding(i, place),
        Test::AssignedArguments => arguments::argument_finding(i, place),
        Test::Labels => sections::label_finding(i, place),
        Test::BuiltTwice => sections::built_finding(i, place),
        Test::BuiltTables => sections::build_finding(i, place),
        Test::LastStatement => sections::last_finding(i, place),
        Test::RootExports => sections::root_finding(i, place),
        Test::ExportedNames => sections::export_finding(i, place),
        Test::ExportedStars => sections::star_finding(i, place),
        Test::MacroStatements => sections::macro_finding(i, place),
        Test::Calls => sections::call_finding(i, place),
        Test::OwnTable => patterns::itself_finding(i, place),
        Test::NoBytes => patterns::start_finding(i, place),
    }
}

/// The tests of each rule, by its number.
static RULE_TESTS: [(u8, Test); 43] = [
    (1, Test::Order),
    (2, Test::Alignment),
    (3, Test::NewName),
    (4, Test::SpaceAttributes),
    (5, Test::SecondDefault),
    (6, Test::Registers),
    (7, Test::RegisterPlaces),
    (8, Test::BitRanges),
    (9, Test::TokenWidth),
    (10, Test::FieldBits),
    (11, Test::ContextParts),
    (12, Test::FieldAttributes),
    (13, Test::AttachedFields),
    (14, Test::Members),
    (15, Test::MemberCount),
    (16, Test::DisplayWords),
    (17, Test::PatternNames),
    (18, Test::BareNames),
    (18, Test::OperandCount),
    (19, Test::InsideOr),
    (20, Test::ZeroDivisors),
    (20, Test::OnlyDivision),
    (21, Test::ActionNames),
    (22, Test::UsedNames),
    (23, Test::ContextSources),
    (24, Test::CommittedFields),
    (25, Test::Addresses),
    (26, Test::ParameterNames),
    (26, Test::Sizes),
    (26, Test::SectionNames),
    (27, Test::LeftSides),
    (27, Test::AssignedArguments),
    (28, Test::Labels),
    (29, Test::BuiltTwice),
    (29, Test::BuiltTables),
    (30, Test::LastStatement),
    (30, Test::RootExports),
    (30, Test::ExportedNames),
    (30, Test::ExportedStars),
    (31, Test::MacroStatements),
    (31, Test::Calls),
    (34, Test::OwnTable),
    (35, Test::NoBytes),
];

/// The first place at which a test finds something.
fn first_in(i: &Item<'_, '_>, test: Test) -> Option<Culprit>
    ensures { result ≡ first_in (item i.now) test i.now.places.items }
{
    let places = i.places.as_slice();
    'places: for at in 0..places.len() {
        let place = places[at];
        if let Some(what) = finding(i, test, place) {
            let index = place.index;
            return Some(Culprit {
                index,
                finding: what,
            });
        }
    }
    None
}

/// The first place at which one of the rule's tests finds something, the tests in their order.
fn culprit_in(i: &Item<'_, '_>, rule: u8, rows: &[(u8, Test)]) -> Option<Culprit>
    ensures { result ≡ culprit_in (item i.now) rule rows.now }
{
    'rows: for at in 0..rows.len() {
        let row = rows[at];
        if row.0 == rule {
            if let Some(culprit) = first_in(i, row.1) {
                return Some(culprit);
            }
        }
    }
    None
}

/// The same by the tests of the language.
#[tactic(auto, unfolding(crate::specs::Culprits::rule_culprit))]
fn rule_culprit(i: &Item<'_, '_>, rule: u8) -> Option<Culprit>
    ensures { result ≡ rule_culprit (item i.now) rule }
{
    culprit_in(i, rule, &RULE_TESTS)
}

/// What the item of this table is, as far as its parts differ.
fn form_of(table: &[u8]) -> Form
    ensures { result ≡ form_of table.now }
{
    if is_of_root(table) {
        Form::Root
    } else {
        Form::Table
    }
}

/// The item whose first token has this index.
#[tactic(auto, unfolding(crate::specs::Culprits::item_at))]
pub fn item_at<'t, 's>(
    alloc: Global,
    tokens: &'t [Tok<'s>],
    start: usize,
) -> Result<Item<'t, 's>, AllocError>
    ensures { IfOk result (λ i. item i ≡ item_at (views tokens.now) start) }
{
    let table = table_of(alloc, tokens, start)?;
    let blocks = blocks_round(alloc, tokens, start)?;
    let names = mentions(alloc, tokens)?;
    let places = places_of(alloc, tokens, form_of(table), blocks.as_slice(), start)?;
    Ok(Item {
        tokens,
        start,
        table,
        names,
        places,
    })
}

/// The word of the item whose first token has this index that breaks the rule of this number: the
/// first, in the text's order, with which something is wrong. `None` where no word can be told.
#[tactic(auto, unfolding(crate::specs::Culprits::culprit))]
pub fn find_culprit(
    alloc: Global,
    tokens: &[Tok<'_>],
    start: usize,
    rule: u8,
) -> Result<Option<Culprit>, AllocError>
    ensures { IfOk result (λ found. found ≡ culprit (views tokens.now) start rule) }
{
    let of = item_at(alloc, tokens, start)?;
    Ok(rule_culprit(&of, rule))
}
