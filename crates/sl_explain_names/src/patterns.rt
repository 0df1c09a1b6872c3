//! What is wrong with a word of a display, a pattern or an action.

ghost use Rattle.std.specs.Prelude.{◌≡◌};
ghost use Rattle.sl_explain_names.specs.ItemView.{item};
ghost use Rattle.sl_explain_names.specs.Patterns as spec;

use crate::brackets::{encloses, stands_behind};
use crate::findings::Finding;
use crate::item::{
    Item, is_action, is_address_name, is_context_field, is_display, is_field, is_free, is_pattern,
    is_register, is_table, is_token_field,
};
use crate::names::{Kind, stands_between};
use crate::places::Place;
use crate::tokens::{has_after, has_before, is, is_integer_at, number_after};
use sl_explain_heads::from;

/// The finding where something is wrong.
pub fn found(is_wrong: bool, finding: Finding) -> Option<Finding>
    ensures { result ≡ spec.found is_wrong finding }
{
    if is_wrong { Some(finding) } else { None }
}

// ---- displays and patterns

/// What is wrong with a name that is shown.
fn shown_finding(i: &Item<'_, '_>, name: &[u8]) -> Option<Finding>
    ensures { result ≡ spec.shown_finding (item i.now) name.now }
{
    let kind = i.kind_of(name);
    let is_shown = i.is_operand(name) || is_register(kind);
    found(!is_shown, Finding::NoOperand(kind))
}

/// Whether a place is a word that a display shows. The word `is` ends a display.
fn is_display_word(i: &Item<'_, '_>, place: Place) -> bool
    ensures { result ≡ spec.is_display_word (item i.now) place }
{
    is_display(place.part) && i.is_word(place) && !i.is_named(b"is", place)
}

/// Rule 16: each display word after the mnemonic is an operand or a register.
pub fn display_finding(i: &Item<'_, '_>, place: Place) -> Option<Finding>
    ensures { result ≡ spec.display_finding (item i.now) place }
{
    if is_display_word(i, place) {
        shown_finding(i, i.name_at(place))
    } else {
        None
    }
}

/// What is wrong with a name of this kind that has a relation.
fn related_finding(kind: Kind) -> Option<Finding>
    ensures { result ≡ spec.related_finding kind }
{
    found(!is_field(kind), Finding::HasRelation(kind))
}

/// What is wrong with a bare name of this kind.
fn bare_finding(kind: Kind) -> Option<Finding>
    ensures { result ≡ spec.bare_finding kind }
{
    let is_right = is_field(kind) || is_table(kind);
    found(!is_right, Finding::Is(kind))
}

/// Rule 17: a name with a relation is a field; a bare name is a field, a table, or `epsilon`.
pub fn pattern_finding(i: &Item<'_, '_>, place: Place) -> Option<Finding>
    ensures { result ≡ spec.pattern_finding (item i.now) place }
{
    if !i.is_pattern_name(place) {
        return None;
    }
    let kind = i.kind_of(i.name_at(place));
    if i.has_relation(place) {
        related_finding(kind)
    } else {
        bare_finding(kind)
    }
}

/// Whether a place before another one has the name by itself.
fn has_bare_name_before(i: &Item<'_, '_>, at: Place, name: &[u8], place: Place) -> bool
    ensures { result ≡ spec.has_bare_name_before (item i.now) at name.now place }
{
    place.index < at.index && i.has_bare_name(name, place)
}

/// Whether the name is bare at an earlier place.
fn is_bare_before(i: &Item<'_, '_>, at: Place, name: &[u8]) -> bool
    ensures { result ≡ spec.is_bare_before (item i.now) at name.now }
{
    i.places
        .iter()
        .any(|p| has_bare_name_before(i, at, name, *p))
}

/// Rule 18: no name but `epsilon` is bare twice.
pub fn twice_finding(i: &Item<'_, '_>, place: Place) -> Option<Finding>
    ensures { result ≡ spec.twice_finding (item i.now) place }
{
    let is_twice = i.is_bare_name(place) && is_bare_before(i, place, i.name_at(place));
    found(is_twice, Finding::BareTwice)
}

/// Whether a place is a bare name that isn't there before.
fn adds_bare_name(i: &Item<'_, '_>, place: Place) -> bool
    ensures { result ≡ spec.adds_bare_name (item i.now) place }
{
    i.is_bare_name(place) && !is_bare_before(i, place, i.name_at(place))
}

/// Whether a place sets an action's name that isn't set before.
fn adds_action_name(i: &Item<'_, '_>, place: Place, name: &[u8]) -> bool
    ensures { result ≡ spec.adds_action_name (item i.now) place name.now }
{
    i.is_left(place) && !is_context_field(i.kind_of(name)) && !i.is_set_before(place, name)
}

/// Whether a place adds an operand.
fn adds_operand(i: &Item<'_, '_>, place: Place) -> bool
    ensures { result ≡ spec.adds_operand (item i.now) place }
{
    adds_bare_name(i, place) || adds_action_name(i, place, i.name_at(place))
}

/// Whether a place before another one does.
fn adds_before(i: &Item<'_, '_>, at: Place, place: Place) -> bool
    ensures { result ≡ spec.adds_before (item i.now) at place }
{
    place.index < at.index && adds_operand(i, place)
}

/// How many operands are added before a place.
fn operands_before(i: &Item<'_, '_>, at: Place) -> usize
    ensures { result ≡ spec.operands_before (item i.now) at }
{
    i.places.iter().filter(|p| adds_before(i, at, **p)).count()
}

/// The most operands of a constructor.
const MOST_OPERANDS: usize = 32;

/// Rule 18: a constructor has at most 32 operands.
pub fn operand_finding(i: &Item<'_, '_>, place: Place) -> Option<Finding>
    ensures { result ≡ spec.operand_finding (item i.now) place }
{
    let is_past = adds_operand(i, place) && operands_before(i, place) == MOST_OPERANDS;
    found(is_past, Finding::TooManyOperands)
}

/// Whether a place is this mark of the pattern.
fn is_mark(i: &Item<'_, '_>, place: Place, mark: &[u8]) -> bool
    ensures { result ≡ spec.is_mark (item i.now) place mark.now }
{
    is_pattern(place.part) && i.is_named(mark, place)
}

/// Whether this mark is between two places.
fn has_between(i: &Item<'_, '_>, before: Place, after: Place, mark: &[u8]) -> bool
    ensures { result ≡ spec.has_between (item i.now) before after mark.now }
{
    stands_between(i.tokens, mark, before.index, after.index)
}

/// Whether two places are in one pattern, and not in that of a block and one inside.
fn are_in_one(i: &Item<'_, '_>, place: Place, other: Place) -> bool
    ensures { result ≡ spec.are_in_one (item i.now) place other }
{
    !has_between(i, place, other, b"{") && !has_between(i, other, place, b"{")
}

/// Whether a place is a `|` inside of which another one is.
fn is_or_round(i: &Item<'_, '_>, at: Place, place: Place) -> bool
    ensures { result ≡ spec.is_or_round (item i.now) at place }
{
    is_mark(i, place, b"|") && are_in_one(i, place, at) && encloses(i.tokens, place.index, at.index)
}

fn is_inside_or(i: &Item<'_, '_>, at: Place) -> bool
    ensures { result ≡ spec.is_inside_or (item i.now) at }
{
    i.places.iter().any(|p| is_or_round(i, at, *p))
}

/// Rule 19: inside `|` no name but `epsilon` is bare.
pub fn inside_finding(i: &Item<'_, '_>, place: Place) -> Option<Finding>
    ensures { result ≡ spec.inside_finding (item i.now) place }
{
    found(
        i.is_bare_name(place) && is_inside_or(i, place),
        Finding::IsBare,
    )
}

/// Whether another part of a pattern begins between two places.
fn are_parted(i: &Item<'_, '_>, before: Place, after: Place) -> bool
    ensures { result ≡ spec.are_parted (item i.now) before after }
{
    has_between(i, before, after, b"&")
        || has_between(i, before, after, b";")
        || has_between(i, before, after, b"|")
        || has_between(i, before, after, b"{")
}

/// Whether a place is a division of the constraint at another one.
fn divides(i: &Item<'_, '_>, at: Place, place: Place) -> bool
    ensures { result ≡ spec.divides (item i.now) at place }
{
    is_mark(i, place, b"/") && at.index < place.index && !are_parted(i, at, place)
}

/// Whether it is one by the integer 0.
fn divides_by_zero(i: &Item<'_, '_>, at: Place, place: Place) -> bool
    ensures { result ≡ spec.divides_by_zero (item i.now) at place }
{
    divides(i, at, place)
        && is_integer_at(from(i.tokens, place.index), 1)
        && number_after(i.tokens, place.index, 1) == 0
}

/// Whether a place is a division of another constraint.
fn divides_elsewhere(i: &Item<'_, '_>, at: Place, place: Place) -> bool
    ensures { result ≡ spec.divides_elsewhere (item i.now) at place }
{
    is_mark(i, place, b"/") && !divides(i, at, place)
}

fn is_constrained(i: &Item<'_, '_>, place: Place) -> bool
    ensures { result ≡ spec.is_constrained (item i.now) place }
{
    i.is_pattern_name(place) && i.has_relation(place)
}

fn has_zero(i: &Item<'_, '_>, at: Place) -> bool
    ensures { result ≡ spec.has_zero (item i.now) at }
{
    i.places.iter().any(|p| divides_by_zero(i, at, *p))
}

/// Rule 20: no constraint divides by the integer 0.
pub fn zero_finding(i: &Item<'_, '_>, place: Place) -> Option<Finding>
    ensures { result ≡ spec.zero_finding (item i.now) place }
{
    found(
        is_constrained(i, place) && has_zero(i, place),
        Finding::DividesByZero,
    )
}

fn has_division(i: &Item<'_, '_>, at: Place) -> bool
    ensures { result ≡ spec.has_division (item i.now) at }
{
    i.places.iter().any(|p| divides(i, at, *p))
}

fn has_other_division(i: &Item<'_, '_>, at: Place) -> bool
    ensures { result ≡ spec.has_other_division (item i.now) at }
{
    i.places.iter().any(|p| divides_elsewhere(i, at, *p))
}

/// Rule 20, where one constraint alone divides.
pub fn division_finding(i: &Item<'_, '_>, place: Place) -> Option<Finding>
    ensures { result ≡ spec.division_finding (item i.now) place }
{
    let is_only = is_constrained(i, place)
        && has_division(i, place)
        && !has_other_division(i, place);
    found(is_only, Finding::DividesByZero)
}

/// Rule 34: no table names itself.
pub fn itself_finding(i: &Item<'_, '_>, place: Place) -> Option<Finding>
    ensures { result ≡ spec.itself_finding (item i.now) place }
{
    let is_itself = i.is_bare_name(place) && i.is_named(i.table, place);
    found(is_itself, Finding::NamesItself)
}

/// Rule 35, at the constructor's first token.
pub fn start_finding(i: &Item<'_, '_>, place: Place) -> Option<Finding>
    ensures { result ≡ spec.start_finding (item i.now) place }
{
    found(place.index == i.start, Finding::NoBytes)
}

// ---- actions

fn is_built_in(name: &[u8]) -> bool
    ensures { result ≡ spec.is_built_in name.now }
{
    is_address_name(name) || is(name, b"const") || is(name, b"unique") || is(name, b"epsilon")
}

/// Whether the name is there from the start, or the text defines it.
pub fn is_global(i: &Item<'_, '_>, name: &[u8]) -> bool
    ensures { result ≡ spec.is_global (item i.now) name.now }
{
    is_built_in(name) || !is_free(i.kind_of(name))
}

/// What is wrong with a name that an action sets.
fn new_finding(i: &Item<'_, '_>, place: Place, name: &[u8]) -> Option<Finding>
    ensures { result ≡ spec.new_finding (item i.now) place name.now }
{
    let kind = i.kind_of(name);
    if is_context_field(kind) {
        None
    } else if is_global(i, name) {
        Some(Finding::Is(kind))
    } else {
        found(i.is_set_before(place, name), Finding::SetBefore)
    }
}

/// Rule 21: an action's left side is a context field, or a name that is no global name and set by
/// no earlier action.
pub fn left_finding(i: &Item<'_, '_>, place: Place) -> Option<Finding>
    ensures { result ≡ spec.left_finding (item i.now) place }
{
    if i.is_left(place) {
        new_finding(i, place, i.name_at(place))
    } else {
        None
    }
}

/// Whether a place is the field of a `globalset`.
fn is_field_set(i: &Item<'_, '_>, place: Place) -> bool
    ensures { result ≡ spec.is_field_set (item i.now) place }
{
    is_action(place.part)
        && i.is_word(place)
        && has_before(i.tokens, place.index, 1, b",")
        && has_after(i.tokens, place.index, 1, b")")
}

/// Whether a place is the address of a `globalset`.
fn is_address(i: &Item<'_, '_>, place: Place) -> bool
    ensures { result ≡ spec.is_address (item i.now) place }
{
    is_action(place.part) && i.is_word(place) && has_before(i.tokens, place.index, 2, b"globalset")
}

/// Whether a place is a name of an action's expression.
fn is_used(i: &Item<'_, '_>, place: Place) -> bool
    ensures { result ≡ spec.is_used (item i.now) place }
{
    is_action(place.part)
        && i.is_word(place)
        && !i.is_left(place)
        && !i.is_named(b"globalset", place)
        && !is_field_set(i, place)
        && !is_address(i, place)
}

/// What is wrong with a name that an action uses, and that is none which it may use anywhere.
fn unknown_finding(i: &Item<'_, '_>, name: &[u8]) -> Option<Finding>
    ensures { result ≡ spec.unknown_finding (item i.now) name.now }
{
    let kind = i.kind_of(name);
    if is_token_field(kind) {
        found(!i.is_in_pattern(name), Finding::NotInPattern)
    } else if i.is_set(name) {
        Some(Finding::NotYetSet)
    } else {
        Some(Finding::Is(kind))
    }
}

/// Rule 22: an action uses token fields of the pattern, context fields, action names set before,
/// `inst_start` and `inst_next`.
pub fn used_finding(i: &Item<'_, '_>, place: Place) -> Option<Finding>
    ensures { result ≡ spec.used_finding (item i.now) place }
{
    if is_used(i, place) {
        use_finding(i, place, i.name_at(place))
    } else {
        None
    }
}

/// What is wrong with a name that an action uses.
fn use_finding(i: &Item<'_, '_>, place: Place, name: &[u8]) -> Option<Finding>
    ensures { result ≡ spec.use_finding (item i.now) place name.now }
{
    if is_address_name(name)
        || is_context_field(i.kind_of(name))
        || i.is_action_name_before(place, name)
    {
        None
    } else {
        unknown_finding(i, name)
    }
}

/// Whether a place is a field of the context that an action sets in which another place is.
fn sets_context(i: &Item<'_, '_>, at: Place, place: Place) -> bool
    ensures { result ≡ spec.sets_context (item i.now) at place }
{
    i.is_left(place)
        && is_context_field(i.kind_of(i.name_at(place)))
        && place.index < at.index
        && !i.is_settled(place, at)
}

/// Whether a place is in the value of an action on a field of the context.
fn is_for_context(i: &Item<'_, '_>, at: Place) -> bool
    ensures { result ≡ spec.is_for_context (item i.now) at }
{
    i.places.iter().any(|p| sets_context(i, at, *p))
}

/// Whether a place is a table on the left of a `;` on whose right another one is.
fn is_table_before(i: &Item<'_, '_>, at: Place, place: Place) -> bool
    ensures { result ≡ spec.is_table_before (item i.now) at place }
{
    i.is_bare_name(place)
        && is_table(i.kind_of(i.name_at(place)))
        && place.index < at.index
        && are_in_one(i, place, at)
        && stands_behind(i.tokens, place.index, at.index)
}

fn is_behind_table(i: &Item<'_, '_>, at: Place) -> bool
    ensures { result ≡ spec.is_behind_table (item i.now) at }
{
    i.places.iter().any(|p| is_table_before(i, at, *p))
}

/// Whether a place of the pattern has the name, and is behind a table.
fn has_name_behind(i: &Item<'_, '_>, name: &[u8], place: Place) -> bool
    ensures { result ≡ spec.has_name_behind (item i.now) name.now place }
{
    i.has_name(name, place) && is_behind_table(i, place)
}

fn is_name_behind(i: &Item<'_, '_>, name: &[u8]) -> bool
    ensures { result ≡ spec.is_name_behind (item i.now) name.now }
{
    i.places.iter().any(|p| has_name_behind(i, name, *p))
}

/// What is wrong with a name in the value of an action on a field of the context.
fn early_finding(i: &Item<'_, '_>, place: Place, name: &[u8]) -> Option<Finding>
    ensures { result ≡ spec.early_finding (item i.now) place name.now }
{
    if is(name, b"inst_next") {
        Some(Finding::NotYetKnown)
    } else if i.is_action_name_before(place, name) {
        Some(Finding::ActionName)
    } else {
        found(is_name_behind(i, name), Finding::BehindTable)
    }
}

/// Rule 23: an action on a context field uses no `inst_next`, no action name, and no field on the
/// right of a `;` whose left side has a table.
pub fn context_finding(i: &Item<'_, '_>, place: Place) -> Option<Finding>
    ensures { result ≡ spec.context_finding (item i.now) place }
{
    if is_used(i, place) && is_for_context(i, place) {
        early_finding(i, place, i.name_at(place))
    } else {
        None
    }
}

/// What is wrong with a name of this kind as the field of a `globalset`.
fn committed_finding(kind: Kind) -> Option<Finding>
    ensures { result ≡ spec.committed_finding kind }
{
    if is_context_field(kind) {
        None
    } else if is_token_field(kind) {
        Some(Finding::OfToken)
    } else {
        Some(Finding::Is(kind))
    }
}

/// Rule 24: `globalset` names a context field.
pub fn set_finding(i: &Item<'_, '_>, place: Place) -> Option<Finding>
    ensures { result ≡ spec.set_finding (item i.now) place }
{
    if is_field_set(i, place) {
        committed_finding(i.kind_of(i.name_at(place)))
    } else {
        None
    }
}

/// What is wrong with a name as the address of a `globalset`.
fn place_finding(i: &Item<'_, '_>, place: Place, name: &[u8]) -> Option<Finding>
    ensures { result ≡ spec.place_finding (item i.now) place name.now }
{
    let kind = i.kind_of(name);
    if is_address_name(name) || i.is_action_name_before(place, name) {
        None
    } else if is_token_field(kind) {
        found(!i.is_bare(name), Finding::NotBare)
    } else {
        Some(Finding::Is(kind))
    }
}

/// Rule 25: its address is an integer, `inst_start`, `inst_next`, a bare token field or an earlier
/// action name.
pub fn address_finding(i: &Item<'_, '_>, place: Place) -> Option<Finding>
    ensures { result ≡ spec.address_finding (item i.now) place }
{
    if is_address(i, place) {
        place_finding(i, place, i.name_at(place))
    } else {
        None
    }
}
