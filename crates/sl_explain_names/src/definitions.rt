//! What is wrong with a word of a definition.

ghost use Rattle.std.specs.Prelude.{◌≡◌, ◌≤◌, length, option_map};
ghost use Rattle.sl_explain_names.specs.Definitions as spec;
ghost use Rattle.sl_explain_names.specs.ItemView.{item};
ghost use Rattle.sl_lex.specs.Views.{views};

use crate::findings::Finding;
use crate::item::{Item, is_begin, is_context_role, is_defining, is_field, is_register, is_space};
use crate::names::{
    Kind, Mention, Role, begins_field, copied, definition, is_attached, is_definition, is_reserved,
    is_table_role, kind_by,
};
use crate::patterns::found;
use crate::places::Place;
use crate::sections::range_finding;
use crate::tokens::{
    has_after, has_before, has_here, is, is_integer_at, is_text_at, number_after, text_after,
};
use sl_explain_heads::from;
use sl_lex::Tok;

/// Whether a place of a definition is this word.
fn is_in(i: &Item<'_, '_>, place: Place, word: &[u8]) -> bool
    ensures { result ≡ spec.is_in (item i.now) place word.now }
{
    is_defining(place.part) && i.is_named(word, place)
}

/// Whether a place of a definition has this word so many places before it.
pub fn is_after(i: &Item<'_, '_>, place: Place, back: usize, word: &[u8]) -> bool
    ensures { result ≡ spec.is_after (item i.now) place back word.now }
{
    is_defining(place.part) && has_before(i.tokens, place.index, back, word)
}

/// The number at a place.
pub fn number_at(i: &Item<'_, '_>, place: Place) -> u64
    ensures { result ≡ spec.number_at (item i.now) place }
{
    number_after(i.tokens, place.index, 0)
}

// ---- 1, 2

/// Whether the item is `define endian`.
fn begins_text(i: &Item<'_, '_>) -> bool
    ensures { result ≡ spec.begins_text (item i.now) }
{
    has_here(i.tokens, i.start, b"define") && has_after(i.tokens, i.start, 1, b"endian")
}

/// Rule 1: `define endian` is the first item, and no later one.
pub fn order_finding(i: &Item<'_, '_>, place: Place) -> Option<Finding>
    ensures { result ≡ spec.order_finding (item i.now) place }
{
    if begins_text(i) {
        let is_second = is_in(i, place, b"endian")
            && is_after(i, place, 1, b"define")
            && 0 < i.start;
        found(is_second, Finding::SecondEndian)
    } else {
        found(place.index == i.start, Finding::FirstItem)
    }
}

fn is_alignment_role(role: Role) -> bool
    ensures { result ≡ spec.is_alignment_role role }
{
    matches!(role, Role::Alignment)
}

/// Whether a token aligns the text before a place.
fn aligns_before(place: Place, mention: Mention) -> bool
    ensures { result ≡ spec.aligns_before place mention }
{
    is_alignment_role(mention.role) && mention.index < place.index
}

fn is_aligned_before(i: &Item<'_, '_>, place: Place) -> bool
    ensures { result ≡ spec.is_aligned_before (item i.now) place }
{
    i.names.iter().any(|m| aligns_before(place, *m))
}

/// Rule 2: `alignment` comes at most once, and is 1 to 16 bytes.
pub fn alignment_finding(i: &Item<'_, '_>, place: Place) -> Option<Finding>
    ensures { result ≡ spec.alignment_finding (item i.now) place }
{
    if is_after(i, place, 2, b"alignment") {
        range_finding(1, 16, number_at(i, place))
    } else {
        let is_second = is_in(i, place, b"alignment") && is_aligned_before(i, place);
        found(is_second, Finding::SecondAlignment)
    }
}

// ---- 3

/// Whether a token before this index defines the name.
fn defines_before(tokens: &[Tok<'_>], index: usize, name: &[u8], mention: Mention) -> bool
    ensures { result ≡ spec.defines_before (views tokens.now) index name.now mention }
{
    is_definition(mention.role) && has_here(tokens, mention.index, name) && mention.index < index
}

fn find_before<'x>(i: &'x Item<'_, '_>, place: Place, name: &[u8]) -> Option<&'x Mention>
    ensures { option_map (λ m. m.now) result
        ≡ spec.definition_before (item i.now) place name.now }
{
    i.names
        .iter()
        .find(|m| defines_before(i.tokens, place.index, name, **m))
}

/// The first token before this place that defines the name.
fn definition_before(i: &Item<'_, '_>, place: Place, name: &[u8]) -> Option<Mention>
    ensures { result ≡ spec.definition_before (item i.now) place name.now }
{
    copied(find_before(i, place, name))
}

/// Whether a token defines its name, and is that of a place.
fn defines_here(place: Place, mention: Mention) -> bool
    ensures { result ≡ spec.defines_here place mention }
{
    is_definition(mention.role) && mention.index == place.index
}

/// Whether a place defines its name.
fn is_defined_here(i: &Item<'_, '_>, place: Place) -> bool
    ensures { result ≡ spec.is_defined_here (item i.now) place }
{
    i.names.iter().any(|m| defines_here(place, *m))
}

/// What is wrong with a new name that is defined before, in an item that begins at `start`.
fn clash(start: usize, mention: Option<Mention>) -> Option<Finding>
    ensures { result ≡ spec.clash start mention }
{
    match mention {
        Some(mention) if mention.index < start => Some(Finding::Is(kind_by(mention.role))),
        Some(_) => Some(Finding::Twice),
        None => None,
    }
}

/// What is wrong with a new name.
fn new_name_finding(i: &Item<'_, '_>, place: Place, name: &[u8]) -> Option<Finding>
    ensures { result ≡ spec.new_name_finding (item i.now) place name.now }
{
    if is_reserved(name) {
        Some(Finding::Is(Kind::Reserved))
    } else {
        clash(i.start, definition_before(i, place, name))
    }
}

/// What is wrong with a table's name that is defined before.
fn table_clash(mention: Option<Mention>) -> Option<Finding>
    ensures { result ≡ spec.table_clash mention }
{
    match mention {
        Some(mention) => {
            let kind = kind_by(mention.role);
            found(!is_table_role(mention.role), Finding::Is(kind))
        }
        None => None,
    }
}

/// What is wrong with a table's name.
fn new_table_finding(i: &Item<'_, '_>, place: Place, name: &[u8]) -> Option<Finding>
    ensures { result ≡ spec.new_table_finding (item i.now) place name.now }
{
    if is(name, b"instruction") {
        None
    } else if is_reserved(name) {
        Some(Finding::Is(Kind::Reserved))
    } else {
        table_clash(definition_before(i, place, name))
    }
}

/// What is wrong with a name that is defined at its place.
fn named_finding(i: &Item<'_, '_>, place: Place, name: &[u8]) -> Option<Finding>
    ensures { result ≡ spec.named_finding (item i.now) place name.now }
{
    if !is_begin(place.part) {
        new_name_finding(i, place, name)
    } else if i.is_named(i.table, place) {
        new_table_finding(i, place, name)
    } else {
        None
    }
}

/// Rule 3: a name that is defined is new in the text, and no reserved one.
pub fn new_finding(i: &Item<'_, '_>, place: Place) -> Option<Finding>
    ensures { result ≡ spec.new_finding (item i.now) place }
{
    if is_defined_here(i, place) {
        named_finding(i, place, i.name_at(place))
    } else {
        None
    }
}

// ---- 4, 5, 6

/// Whether the definition has this word.
fn has_word(i: &Item<'_, '_>, word: &[u8]) -> bool
    ensures { result ≡ spec.has_word (item i.now) word.now }
{
    i.places.iter().any(|p| is_in(i, *p, word))
}

/// Whether a place before another one is this word of the definition.
fn is_in_before(i: &Item<'_, '_>, at: Place, word: &[u8], place: Place) -> bool
    ensures { result ≡ spec.is_in_before (item i.now) at word.now place }
{
    place.index < at.index && is_in(i, place, word)
}

/// Whether it has it at an earlier place.
fn has_word_before(i: &Item<'_, '_>, at: Place, word: &[u8]) -> bool
    ensures { result ≡ spec.has_word_before (item i.now) at word.now }
{
    i.places.iter().any(|p| is_in_before(i, at, word, *p))
}

fn is_space_type(name: &[u8]) -> bool
    ensures { result ≡ spec.is_space_type name.now }
{
    is(name, b"ram_space") || is(name, b"rom_space") || is(name, b"register_space")
}

/// What lacks in a space's definition.
fn lacking_finding(i: &Item<'_, '_>) -> Option<Finding>
    ensures { result ≡ spec.lacking_finding (item i.now) }
{
    if !has_word(i, b"type") {
        Some(Finding::NoType)
    } else {
        found(!has_word(i, b"size"), Finding::NoSize)
    }
}

/// Whether a place is an attribute of a space that is there before.
fn is_attribute_again(i: &Item<'_, '_>, place: Place) -> bool
    ensures { result ≡ spec.is_attribute_again (item i.now) place }
{
    (is_in(i, place, b"type") && has_word_before(i, place, b"type"))
        || (is_in(i, place, b"size") && has_word_before(i, place, b"size"))
}

/// Rule 4: a space has size and type once each: 1 to 8, and one of three words.
pub fn space_finding(i: &Item<'_, '_>, place: Place) -> Option<Finding>
    ensures { result ≡ spec.space_finding (item i.now) place }
{
    if is_after(i, place, 1, b"space") {
        lacking_finding(i)
    } else if is_after(i, place, 2, b"size") {
        range_finding(1, 8, number_at(i, place))
    } else if is_after(i, place, 2, b"type") {
        found(!is_space_type(i.name_at(place)), Finding::IsNoType)
    } else {
        found(is_attribute_again(i, place), Finding::SecondAttribute)
    }
}

fn is_default_role(role: Role) -> bool
    ensures { result ≡ spec.is_default_role role }
{
    matches!(role, Role::Default)
}

/// Whether a token before a place is `default`.
fn is_default_before(place: Place, mention: Mention) -> bool
    ensures { result ≡ spec.is_default_before place mention }
{
    is_default_role(mention.role) && mention.index < place.index
}

fn find_default<'x>(i: &'x Item<'_, '_>, place: Place) -> Option<&'x Mention>
    ensures { option_map (λ m. m.now) result ≡ spec.default_before (item i.now) place }
{
    i.names.iter().find(|m| is_default_before(place, **m))
}

/// The first `default` before this place.
fn default_before(i: &Item<'_, '_>, place: Place) -> Option<Mention>
    ensures { result ≡ spec.default_before (item i.now) place }
{
    copied(find_default(i, place))
}

/// What is wrong with a `default` where this one is before.
fn default_by(mention: Option<Mention>) -> Option<Finding>
    ensures { result ≡ spec.default_by mention }
{
    match mention {
        Some(mention) => Some(Finding::DefaultIs(mention.head)),
        None => None,
    }
}

/// Rule 5: no second space is `default`.
pub fn default_finding(i: &Item<'_, '_>, place: Place) -> Option<Finding>
    ensures { result ≡ spec.default_finding (item i.now) place }
{
    if is_in(i, place, b"default") {
        default_by(default_before(i, place))
    } else {
        None
    }
}

/// Rule 6: registers lie in a space that is defined before, and have 1 to 16 bytes.
pub fn registers_finding(i: &Item<'_, '_>, place: Place) -> Option<Finding>
    ensures { result ≡ spec.registers_finding (item i.now) place }
{
    if is_after(i, place, 1, b"define") {
        let kind = i.kind_of(i.name_at(place));
        found(!is_space(kind), Finding::Is(kind))
    } else if is_after(i, place, 2, b"size") {
        range_finding(1, 16, number_at(i, place))
    } else {
        None
    }
}

// ---- 9

/// What is wrong with a token of so many bits.
fn width_finding(bits: u64) -> Option<Finding>
    ensures { result ≡ spec.width_finding bits }
{
    if bits < 8 {
        Some(Finding::Below(8))
    } else if 64 < bits {
        Some(Finding::Above(64))
    } else {
        found(bits % 8 != 0, Finding::NoMultiple)
    }
}

/// Rule 9: a token has 8 to 64 bits, a multiple of 8.
pub fn token_finding(i: &Item<'_, '_>, place: Place) -> Option<Finding>
    ensures { result ≡ spec.token_finding (item i.now) place }
{
    if is_after(i, place, 1, b"(") && has_before(i.tokens, place.index, 3, b"token") {
        width_finding(number_at(i, place))
    } else {
        None
    }
}

// ---- 10, 12

fn is_attribute(text: &[u8]) -> bool
    ensures { result ≡ spec.is_attribute text.now }
{
    is(text, b"signed") || is(text, b"hex") || is(text, b"dec") || is(text, b"noflow")
}

/// How often an attribute is among those with which the tokens begin.
pub fn times_in(attribute: &[u8], tokens: &[Tok<'_>]) -> usize
    ensures is { result ≡ spec.times_in attribute.now (views tokens.now) }
    ensures most { result ≤ length tokens.now }
{
    let mut count = 0_usize;
    'tokens: for token in tokens {
        if !is_attribute(token.text) {
            return count;
        }
        if is(token.text, attribute) {
            count += 1;
        }
    }
    count
}

/// How often the field at a place has the attribute.
fn times(i: &Item<'_, '_>, place: Place, attribute: &[u8]) -> usize
    ensures { result ≡ spec.times (item i.now) place attribute.now }
{
    times_in(attribute, from(from(i.tokens, place.index), 7))
}

fn has(i: &Item<'_, '_>, place: Place, attribute: &[u8]) -> bool
    ensures { result ≡ spec.has (item i.now) place attribute.now }
{
    0 < times(i, place, attribute)
}

fn has_twice(i: &Item<'_, '_>, place: Place, attribute: &[u8]) -> bool
    ensures { result ≡ spec.has_twice (item i.now) place attribute.now }
{
    1 < times(i, place, attribute)
}

fn is_field_here(i: &Item<'_, '_>, place: Place) -> bool
    ensures { result ≡ spec.is_field_here (item i.now) place }
{
    is_defining(place.part) && begins_field(i.tokens, place.index)
}

/// What is wrong with the bits of the field at a place, of so many.
fn bits_finding(i: &Item<'_, '_>, place: Place, bits: u64) -> Option<Finding>
    ensures { result ≡ spec.bits_finding (item i.now) place bits }
{
    let low = number_after(i.tokens, place.index, 3);
    let high = number_after(i.tokens, place.index, 5);
    if high < low {
        Some(Finding::LowAbove)
    } else {
        let is_below = high < bits;
        found(!is_below, Finding::HighNotBelow(bits))
    }
}

/// What is wrong with a field of a token.
fn token_field_finding(i: &Item<'_, '_>, place: Place) -> Option<Finding>
    ensures { result ≡ spec.token_field_finding (item i.now) place }
{
    if has(i, place, b"noflow") {
        Some(Finding::HasNoflow)
    } else {
        bits_finding(i, place, number_after(i.tokens, i.start, 4))
    }
}

/// Rule 10: a field's bits are among its token's; a field of a token has no `noflow`.
pub fn field_finding(i: &Item<'_, '_>, place: Place) -> Option<Finding>
    ensures { result ≡ spec.field_finding (item i.now) place }
{
    if is_field_here(i, place) {
        token_field_finding(i, place)
    } else {
        None
    }
}

fn is_attribute_twice(i: &Item<'_, '_>, place: Place) -> bool
    ensures { result ≡ spec.is_attribute_twice (item i.now) place }
{
    has_twice(i, place, b"signed")
        || has_twice(i, place, b"hex")
        || has_twice(i, place, b"dec")
        || has_twice(i, place, b"noflow")
}

/// What is wrong with the attributes of a field.
fn field_attributes_finding(i: &Item<'_, '_>, place: Place) -> Option<Finding>
    ensures { result ≡ spec.field_attributes_finding (item i.now) place }
{
    if has(i, place, b"hex") && has(i, place, b"dec") {
        Some(Finding::HexAndDec)
    } else {
        found(is_attribute_twice(i, place), Finding::AttributeTwice)
    }
}

/// Rule 12: no field has both `hex` and `dec`, nor an attribute twice.
pub fn attributes_finding(i: &Item<'_, '_>, place: Place) -> Option<Finding>
    ensures { result ≡ spec.attributes_finding (item i.now) place }
{
    if is_field_here(i, place) {
        field_attributes_finding(i, place)
    } else {
        None
    }
}

// ---- 11

fn size_at(tokens: &[Tok<'_>], mention: Option<Mention>) -> u64
    ensures { result ≡ spec.size_at (views tokens.now) mention }
{
    match mention {
        Some(mention) => number_after(tokens, mention.head, 7),
        None => 0,
    }
}

/// The size in bytes of the register of this name.
pub fn size_of(i: &Item<'_, '_>, name: &[u8]) -> u64
    ensures { result ≡ spec.size_of (item i.now) name.now }
{
    let definition = definition(i.tokens, i.names.as_slice(), i.start, name);
    size_at(i.tokens, definition)
}

/// Whether a token before a place names the register of the context.
fn is_context_before(place: Place, mention: Mention) -> bool
    ensures { result ≡ spec.is_context_before place mention }
{
    is_context_role(mention.role) && mention.index < place.index
}

fn has_context_before(i: &Item<'_, '_>, place: Place) -> bool
    ensures { result ≡ spec.has_context_before (item i.now) place }
{
    i.names.iter().any(|m| is_context_before(place, *m))
}

/// What is wrong with the register of the context.
fn context_register_finding(i: &Item<'_, '_>, name: &[u8]) -> Option<Finding>
    ensures { result ≡ spec.context_register_finding (item i.now) name.now }
{
    let kind = i.kind_of(name);
    let size = size_of(i, name);
    if is_register(kind) {
        found(8 < size, Finding::SizeIs(size))
    } else {
        Some(Finding::Is(kind))
    }
}

/// The bits of the register that the definition of the context names, 64 at most.
fn context_bits(i: &Item<'_, '_>) -> u64
    ensures { result ≡ spec.context_bits (item i.now) }
{
    8 * size_of(i, text_after(i.tokens, i.start, 2)).min(8)
}

/// Rule 11: one `define context` at most, of a register defined before, with at most 8 bytes; high
/// bits are below its bits.
pub fn context_finding(i: &Item<'_, '_>, place: Place) -> Option<Finding>
    ensures { result ≡ spec.context_finding (item i.now) place }
{
    if is_in(i, place, b"context") {
        found(has_context_before(i, place), Finding::SecondContext)
    } else if is_after(i, place, 1, b"context") {
        context_register_finding(i, i.name_at(place))
    } else if is_field_here(i, place) {
        bits_finding(i, place, context_bits(i))
    } else {
        None
    }
}

// ---- 13

pub fn is_attached_role(role: Role) -> bool
    ensures { result ≡ spec.is_attached_role role }
{
    matches!(role, Role::Attached | Role::AttachedToRegisters)
}

/// Whether something is attached to the name by a token before this index.
fn attaches_before(tokens: &[Tok<'_>], index: usize, name: &[u8], mention: Mention) -> bool
    ensures { result ≡ spec.attaches_before (views tokens.now) index name.now mention }
{
    is_attached_role(mention.role) && has_here(tokens, mention.index, name) && mention.index < index
}

fn find_attached<'x>(i: &'x Item<'_, '_>, place: Place, name: &[u8]) -> Option<&'x Mention>
    ensures { option_map (λ m. m.now) result
        ≡ spec.attached_before (item i.now) place name.now }
{
    i.names
        .iter()
        .find(|m| attaches_before(i.tokens, place.index, name, **m))
}

/// The first token before this place by which something is attached to the name.
fn attached_before(i: &Item<'_, '_>, place: Place, name: &[u8]) -> Option<Mention>
    ensures { result ≡ spec.attached_before (item i.now) place name.now }
{
    copied(find_attached(i, place, name))
}

/// What is wrong with a field to which something is attached there, in an item that begins at
/// `start`.
fn attached_by(start: usize, mention: Option<Mention>) -> Option<Finding>
    ensures { result ≡ spec.attached_by start mention }
{
    match mention {
        Some(mention) if mention.index < start => Some(Finding::AttachedBefore),
        Some(_) => Some(Finding::Twice),
        None => None,
    }
}

/// Whether something is attached to the name at this place.
fn is_attached_here(i: &Item<'_, '_>, place: Place) -> bool
    ensures { result ≡ spec.is_attached_here (item i.now) place }
{
    is_defining(place.part) && is_attached(i.tokens, i.start, place.index)
}

/// What is wrong with a name to which something is attached.
fn attached_name_finding(i: &Item<'_, '_>, place: Place, name: &[u8]) -> Option<Finding>
    ensures { result ≡ spec.attached_name_finding (item i.now) place name.now }
{
    let kind = i.kind_of(name);
    if is_field(kind) {
        attached_by(i.start, attached_before(i, place, name))
    } else {
        Some(Finding::Is(kind))
    }
}

/// Rule 13: each attached field is defined before, and attached once.
pub fn attached_finding(i: &Item<'_, '_>, place: Place) -> Option<Finding>
    ensures { result ≡ spec.attached_finding (item i.now) place }
{
    if is_attached_here(i, place) {
        attached_name_finding(i, place, i.name_at(place))
    } else {
        None
    }
}

// ---- 14, 15

/// Whether a place is a word of the list that is attached.
fn is_member_word(i: &Item<'_, '_>, place: Place) -> bool
    ensures { result ≡ spec.is_member_word (item i.now) place }
{
    is_defining(place.part)
        && i.is_word(place)
        && !has_before(i.tokens, place.index, 1, b"attach")
        && !is_attached(i.tokens, i.start, place.index)
}

fn is_member_integer(i: &Item<'_, '_>, place: Place) -> bool
    ensures { result ≡ spec.is_member_integer (item i.now) place }
{
    is_defining(place.part) && is_integer_at(i.tokens, place.index)
}

fn is_member_text(i: &Item<'_, '_>, place: Place) -> bool
    ensures { result ≡ spec.is_member_text (item i.now) place }
{
    is_defining(place.part) && is_text_at(i.tokens, place.index)
}

fn is_member(i: &Item<'_, '_>, place: Place) -> bool
    ensures { result ≡ spec.is_member (item i.now) place }
{
    is_member_word(i, place) || is_member_integer(i, place) || is_member_text(i, place)
}

fn is_register_member(i: &Item<'_, '_>, place: Place) -> bool
    ensures { result ≡ spec.is_register_member (item i.now) place }
{
    is_member_word(i, place) && is_register(i.kind_of(i.name_at(place)))
}

fn find_register<'x>(i: &'x Item<'_, '_>) -> Option<&'x Place>
    ensures { option_map (λ p. p.now) result ≡ spec.first_register (item i.now) }
{
    i.places.iter().find(|p| is_register_member(i, **p))
}

/// The first register of the list.
fn first_register(i: &Item<'_, '_>) -> Option<Place>
    ensures { result ≡ spec.first_register (item i.now) }
{
    match find_register(i) {
        Some(place) => Some(*place),
        None => None,
    }
}

/// What is wrong with a register beside the first one of the list.
fn size_differs(i: &Item<'_, '_>, name: &[u8], first: Option<Place>) -> Option<Finding>
    ensures { result ≡ spec.size_differs (item i.now) name.now first }
{
    let Some(first) = first else {
        return None;
    };
    let size = size_of(i, name);
    let other = size_of(i, i.name_at(first));
    let finding = Finding::SizesDiffer {
        size,
        first: first.index,
        other,
    };
    found(size != other, finding)
}

/// What is wrong with a word of a list of registers.
fn register_finding(i: &Item<'_, '_>, name: &[u8]) -> Option<Finding>
    ensures { result ≡ spec.register_finding (item i.now) name.now }
{
    let kind = i.kind_of(name);
    if is(name, b"_") {
        None
    } else if is_register(kind) {
        size_differs(i, name, first_register(i))
    } else {
        Some(Finding::Is(kind))
    }
}

/// What is wrong with a place that is no word where words are asked.
fn other_member_finding(i: &Item<'_, '_>, place: Place) -> Option<Finding>
    ensures { result ≡ spec.other_member_finding (item i.now) place }
{
    if is_member_integer(i, place) {
        Some(Finding::IsInteger)
    } else {
        found(is_member_text(i, place), Finding::IsText)
    }
}

/// Whether a place is a member other than `_`.
fn is_given(i: &Item<'_, '_>, place: Place) -> bool
    ensures { result ≡ spec.is_given (item i.now) place }
{
    is_member(i, place) && !i.is_named(b"_", place)
}

/// Whether some member is other than `_`.
fn has_given(i: &Item<'_, '_>) -> bool
    ensures { result ≡ spec.has_given (item i.now) }
{
    i.places.iter().any(|p| is_given(i, *p))
}

/// Rule 14: members of `variables` are registers of one size or `_`, and at least one is a register.
fn variables_finding(i: &Item<'_, '_>, place: Place) -> Option<Finding>
    ensures { result ≡ spec.variables_finding (item i.now) place }
{
    if is_in(i, place, b"variables") {
        found(!has_given(i), Finding::NoRegister)
    } else if is_member_word(i, place) {
        register_finding(i, i.name_at(place))
    } else {
        other_member_finding(i, place)
    }
}

/// The greatest number that a value may be, with the sign before it.
fn most_value(i: &Item<'_, '_>, place: Place) -> u64
    ensures { result ≡ spec.most_value (item i.now) place }
{
    if has_before(i.tokens, place.index, 1, b"-") {
        0x8000_0000_0000_0000
    } else {
        0x7fff_ffff_ffff_ffff
    }
}

/// Rule 14: members of `values` are integers from -2^63 to 2^63 - 1 or `_`.
fn values_finding(i: &Item<'_, '_>, place: Place) -> Option<Finding>
    ensures { result ≡ spec.values_finding (item i.now) place }
{
    if is_member_word(i, place) {
        found(!i.is_named(b"_", place), Finding::IsWord)
    } else if is_member_text(i, place) {
        Some(Finding::IsText)
    } else {
        let is_past = is_member_integer(i, place) && most_value(i, place) < number_at(i, place);
        found(is_past, Finding::PastValues)
    }
}

/// Whether the item attaches this kind of members.
fn attaches(i: &Item<'_, '_>, word: &[u8]) -> bool
    ensures { result ≡ spec.attaches (item i.now) word.now }
{
    has_after(i.tokens, i.start, 1, word)
}

/// Rule 14: members are registers of one size, texts and words, or integers.
pub fn members_finding(i: &Item<'_, '_>, place: Place) -> Option<Finding>
    ensures { result ≡ spec.members_finding (item i.now) place }
{
    if attaches(i, b"variables") {
        variables_finding(i, place)
    } else if attaches(i, b"values") {
        values_finding(i, place)
    } else {
        found(is_member_integer(i, place), Finding::IsInteger)
    }
}

fn count_members(i: &Item<'_, '_>) -> usize
    ensures { result ≡ spec.count_members (item i.now) }
{
    i.places.iter().filter(|p| is_member(i, **p)).count()
}

pub fn width_at(tokens: &[Tok<'_>], mention: Option<Mention>) -> u64
    ensures { result ≡ spec.width_at (views tokens.now) mention }
{
    match mention {
        Some(mention) => {
            let low = number_after(tokens, mention.index, 3);
            number_after(tokens, mention.index, 5).saturating_sub(low)
        }
        None => 63,
    }
}

/// The width in bits of the field of this name, less 1.
fn width_of(i: &Item<'_, '_>, name: &[u8]) -> u64
    ensures { result ≡ spec.width_of (item i.now) name.now }
{
    let definition = definition(i.tokens, i.names.as_slice(), i.start, name);
    width_at(i.tokens, definition)
}

/// What is wrong with so many members for a field of so many bits, less 1.
fn many_finding(members: usize, width: u64) -> Option<Finding>
    ensures { result ≡ spec.many_finding members width }
{
    if width < 32 {
        let values = 2 << width;
        found(
            values < members as u64,
            Finding::ManyMembers { members, values },
        )
    } else {
        None
    }
}

/// Rule 15: a list has 1 to 2^width members, the skipped ones counted, for the width of each of its
/// fields.
pub fn count_finding(i: &Item<'_, '_>, place: Place) -> Option<Finding>
    ensures { result ≡ spec.count_finding (item i.now) place }
{
    if !is_attached_here(i, place) {
        return None;
    }
    let members = count_members(i);
    if members == 0 {
        Some(Finding::NoMembers)
    } else {
        many_finding(members, width_of(i, i.name_at(place)))
    }
}
