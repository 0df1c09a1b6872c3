//! What is wrong with a word of a section or of a macro.

ghost use Rattle.std.specs.Prelude.{◌≡◌, ◌≤◌, length};
ghost use Rattle.sl_explain_names.specs.ItemView.{item};
ghost use Rattle.sl_explain_names.specs.Sections as spec;
ghost use Rattle.sl_explain_names.specs.TokenKinds.{has_kind};
ghost use Rattle.sl_lex.specs.Views.{views};

use crate::findings::Finding;
use crate::item::{
    Item, is_address_name, is_field, is_macro, is_operation, is_register, is_section, is_space,
    is_table,
};
use crate::names::{Kind, Mention, Role, count_up_to, definition};
use crate::patterns::{found, is_global};
use crate::places::Place;
use crate::tokens::{has_after, has_before, has_here, is, is_integer_at, number_after};
use sl_explain_heads::from;
use sl_lex::Tok;

// ---- words of sections

fn is_keyword(name: &[u8]) -> bool
    ensures { result ≡ spec.is_keyword name.now }
{
    is(name, b"local")
        || is(name, b"goto")
        || is(name, b"if")
        || is(name, b"call")
        || is(name, b"return")
        || is(name, b"build")
        || is(name, b"export")
}

/// Whether a place is a word of a section that is no keyword.
pub fn is_name(i: &Item<'_, '_>, place: Place) -> bool
    ensures { result ≡ spec.is_name (item i.now) place }
{
    is_section(place.part) && i.is_word(place) && !is_keyword(i.name_at(place))
}

/// Whether a place is the name of a label, where it is or where a jump names it.
fn is_label(i: &Item<'_, '_>, place: Place) -> bool
    ensures { result ≡ spec.is_label (item i.now) place }
{
    is_name(i, place)
        && has_before(i.tokens, place.index, 1, b"<")
        && has_after(i.tokens, place.index, 1, b">")
}

fn is_placed_label(i: &Item<'_, '_>, place: Place) -> bool
    ensures { result ≡ spec.is_placed_label (item i.now) place }
{
    is_label(i, place) && !has_before(i.tokens, place.index, 2, b"goto")
}

/// Whether a place is the name of a call, or of a value of which bytes are dropped.
pub fn is_called(i: &Item<'_, '_>, place: Place) -> bool
    ensures { result ≡ spec.is_called (item i.now) place }
{
    is_name(i, place) && has_after(i.tokens, place.index, 1, b"(")
}

/// Whether bytes of a value are dropped: one integer is in the brackets.
fn drops_bytes(i: &Item<'_, '_>, place: Place, name: &[u8]) -> bool
    ensures { result ≡ spec.drops_bytes (item i.now) place name.now }
{
    is_integer_at(from(i.tokens, place.index), 2)
        && has_after(i.tokens, place.index, 3, b")")
        && i.stands_for(place, name)
}

/// Whether a place is the space of a star form.
fn is_space_name(i: &Item<'_, '_>, place: Place) -> bool
    ensures { result ≡ spec.is_space_name (item i.now) place }
{
    is_name(i, place)
        && has_before(i.tokens, place.index, 1, b"[")
        && has_before(i.tokens, place.index, 2, b"*")
}

/// Whether it is one on the left of an assignment.
fn is_assigned_space(i: &Item<'_, '_>, place: Place) -> bool
    ensures { result ≡ spec.is_assigned_space (item i.now) place }
{
    is_space_name(i, place)
        && (has_before(i.tokens, place.index, 3, b";")
            || has_before(i.tokens, place.index, 3, b"{")
            || (has_before(i.tokens, place.index, 3, b">")
                && has_before(i.tokens, place.index, 5, b"<")))
}

fn is_exported_space(i: &Item<'_, '_>, place: Place) -> bool
    ensures { result ≡ spec.is_exported_space (item i.now) place }
{
    is_space_name(i, place) && has_before(i.tokens, place.index, 3, b"export")
}

fn is_read_space(i: &Item<'_, '_>, place: Place) -> bool
    ensures { result ≡ spec.is_read_space (item i.now) place }
{
    is_space_name(i, place) && !is_assigned_space(i, place) && !is_exported_space(i, place)
}

/// Whether a place is a name that is to stand for something.
pub fn is_value_name(i: &Item<'_, '_>, place: Place) -> bool
    ensures { result ≡ spec.is_value_name (item i.now) place }
{
    is_name(i, place)
        && !is_label(i, place)
        && !is_called(i, place)
        && !is_space_name(i, place)
        && !i.is_declared(place)
        && !i.is_assigned(place)
}

// ---- 26

/// Whether a place before another one is the parameter of this name.
fn has_parameter_before(i: &Item<'_, '_>, at: Place, name: &[u8], place: Place) -> bool
    ensures { result ≡ spec.has_parameter_before (item i.now) at name.now place }
{
    place.index < at.index && i.has_parameter_name(name, place)
}

/// Whether the name is a parameter at an earlier place.
fn is_parameter_before(i: &Item<'_, '_>, at: Place, name: &[u8]) -> bool
    ensures { result ≡ spec.is_parameter_before (item i.now) at name.now }
{
    i.places
        .iter()
        .any(|p| has_parameter_before(i, at, name, *p))
}

/// Rule 26: the parameters of a macro differ.
pub fn parameter_finding(i: &Item<'_, '_>, place: Place) -> Option<Finding>
    ensures { result ≡ spec.parameter_finding (item i.now) place }
{
    let is_twice = i.is_parameter_place(place) && is_parameter_before(i, place, i.name_at(place));
    found(is_twice, Finding::ParameterTwice)
}

/// Whether a place is a written size.
fn is_size(i: &Item<'_, '_>, place: Place) -> bool
    ensures { result ≡ spec.is_size (item i.now) place }
{
    is_section(place.part)
        && is_integer_at(i.tokens, place.index)
        && has_before(i.tokens, place.index, 1, b":")
}

/// Whether a place is a count of bits.
fn is_count(i: &Item<'_, '_>, place: Place) -> bool
    ensures { result ≡ spec.is_count (item i.now) place }
{
    is_section(place.part)
        && is_integer_at(i.tokens, place.index)
        && has_before(i.tokens, place.index, 1, b",")
        && has_before(i.tokens, place.index, 3, b"[")
        && has_after(i.tokens, place.index, 1, b"]")
}

/// What is wrong with a number of this range.
pub fn range_finding(least: u64, most: u64, number: u64) -> Option<Finding>
    ensures { result ≡ spec.range_finding least most number }
{
    if number < least {
        Some(Finding::Below(least))
    } else {
        found(most < number, Finding::Above(most))
    }
}

/// The most bits that are counted.
const MOST_COUNTED: u64 = 128;

/// Rule 26: a written size is at least 1, and a count of bits is 1 to 128.
pub fn size_finding(i: &Item<'_, '_>, place: Place) -> Option<Finding>
    ensures { result ≡ spec.size_finding (item i.now) place }
{
    let number = number_after(i.tokens, place.index, 0);
    if is_size(i, place) {
        found(number == 0, Finding::Below(1))
    } else if is_count(i, place) {
        range_finding(1, MOST_COUNTED, number)
    } else {
        None
    }
}

/// What is wrong with a local's name.
fn declared_finding(i: &Item<'_, '_>, place: Place, name: &[u8]) -> Option<Finding>
    ensures { result ≡ spec.declared_finding (item i.now) place name.now }
{
    if is_global(i, name) {
        Some(Finding::LocalIs(i.kind_of(name)))
    } else if i.is_parameter(name) {
        Some(Finding::LocalIsParameter)
    } else if i.is_action_name(name) {
        Some(Finding::LocalIsOperand)
    } else {
        found(i.is_local_before(place, name), Finding::DeclaredTwice)
    }
}

/// What is wrong with a name that is assigned.
fn assigned_finding(i: &Item<'_, '_>, place: Place, name: &[u8]) -> Option<Finding>
    ensures { result ≡ spec.assigned_finding (item i.now) place name.now }
{
    if i.stands_for(place, name) {
        let is_context = i.is_context_register(name);
        found(is_context, Finding::Is(Kind::ContextRegister))
    } else {
        found(is_global(i, name), Finding::LocalIs(i.kind_of(name)))
    }
}

/// What a name of this kind is where an operand is asked.
fn missing_finding(kind: Kind) -> Finding
    ensures { result ≡ spec.missing_finding kind }
{
    if is_field(kind) || is_table(kind) {
        Finding::NoOperand(kind)
    } else {
        Finding::Is(kind)
    }
}

/// What is wrong with a name that is to stand for something.
fn value_finding(i: &Item<'_, '_>, place: Place, name: &[u8]) -> Option<Finding>
    ensures { result ≡ spec.value_finding (item i.now) place name.now }
{
    if i.stands_for(place, name) {
        let is_context = i.is_context_register(name);
        found(is_context, Finding::Is(Kind::ContextRegister))
    } else {
        Some(missing_finding(i.kind_of(name)))
    }
}

/// Whether bytes of the context's register are dropped.
fn drops_context(i: &Item<'_, '_>, place: Place, name: &[u8]) -> bool
    ensures { result ≡ spec.drops_context (item i.now) place name.now }
{
    is_called(i, place) && drops_bytes(i, place, name) && i.is_context_register(name)
}

/// What is wrong with a name of a section.
fn name_finding(i: &Item<'_, '_>, place: Place, name: &[u8]) -> Option<Finding>
    ensures { result ≡ spec.name_finding (item i.now) place name.now }
{
    if i.is_declared(place) {
        declared_finding(i, place, name)
    } else if i.is_assigned(place) {
        assigned_finding(i, place, name)
    } else if is_read_space(i, place) {
        found(!is_space(i.kind_of(name)), Finding::NoSpace)
    } else if is_value_name(i, place) {
        value_finding(i, place, name)
    } else {
        let is_context = drops_context(i, place, name);
        found(is_context, Finding::Is(Kind::ContextRegister))
    }
}

/// Rule 26: each name stands for something other than the context's register, a space that is read
/// is defined, and a local is no operand, no parameter and no global name, and is declared once.
pub fn section_finding(i: &Item<'_, '_>, place: Place) -> Option<Finding>
    ensures { result ≡ spec.section_finding (item i.now) place }
{
    name_finding(i, place, i.name_at(place))
}

// ---- 27

fn is_register_role(role: Role) -> bool
    ensures { result ≡ spec.is_register_role role }
{
    matches!(role, Role::AttachedToRegisters)
}

/// Whether a token attaches registers to the field.
fn attaches_registers(i: &Item<'_, '_>, name: &[u8], mention: Mention) -> bool
    ensures { result ≡ spec.attaches_registers (item i.now) name.now mention }
{
    is_register_role(mention.role) && has_here(i.tokens, mention.index, name)
}

/// Whether registers are attached to the field.
fn has_registers(i: &Item<'_, '_>, name: &[u8]) -> bool
    ensures { result ≡ spec.has_registers (item i.now) name.now }
{
    i.names.iter().any(|m| attaches_registers(i, name, *m))
}

/// Whether the name is that of a field by itself that has no registers.
fn is_plain_field(i: &Item<'_, '_>, name: &[u8]) -> bool
    ensures { result ≡ spec.is_plain_field (item i.now) name.now }
{
    i.is_bare(name) && is_field(i.kind_of(name)) && !has_registers(i, name)
}

/// Whether the name stands for a number.
pub fn is_number(i: &Item<'_, '_>, name: &[u8]) -> bool
    ensures { result ≡ spec.is_number (item i.now) name.now }
{
    is_address_name(name) || i.is_action_name(name) || is_plain_field(i, name)
}

/// Whether a place is a name whose bits a statement assigns.
pub fn is_assigned_bits(i: &Item<'_, '_>, place: Place) -> bool
    ensures { result ≡ spec.is_assigned_bits (item i.now) place }
{
    is_name(i, place) && i.begins_statement(place) && has_after(i.tokens, place.index, 1, b"[")
}

/// Rule 27: no number is assigned, and nothing outside of defined spaces.
pub fn left_finding(i: &Item<'_, '_>, place: Place) -> Option<Finding>
    ensures { result ≡ spec.left_finding (item i.now) place }
{
    let name = i.name_at(place);
    if i.is_assigned(place) || is_assigned_bits(i, place) {
        found(is_number(i, name), Finding::Number)
    } else if is_assigned_space(i, place) {
        found(!is_space(i.kind_of(name)), Finding::NoSpace)
    } else {
        None
    }
}

// ---- 28

/// Whether a label of this name is at a place.
fn places_label(i: &Item<'_, '_>, name: &[u8], place: Place) -> bool
    ensures { result ≡ spec.places_label (item i.now) name.now place }
{
    is_placed_label(i, place) && i.is_named(name, place)
}

/// Whether a label of this name is somewhere in the section.
fn is_placed(i: &Item<'_, '_>, name: &[u8]) -> bool
    ensures { result ≡ spec.is_placed (item i.now) name.now }
{
    i.places.iter().any(|p| places_label(i, name, *p))
}

/// Whether one is at a place before another one.
fn places_label_before(i: &Item<'_, '_>, at: Place, name: &[u8], place: Place) -> bool
    ensures { result ≡ spec.places_label_before (item i.now) at name.now place }
{
    place.index < at.index && places_label(i, name, place)
}

/// Whether one is at an earlier place.
fn is_placed_before(i: &Item<'_, '_>, at: Place, name: &[u8]) -> bool
    ensures { result ≡ spec.is_placed_before (item i.now) at name.now }
{
    i.places
        .iter()
        .any(|p| places_label_before(i, at, name, *p))
}

/// Rule 28: each label is once in its section or macro, and each that is used is there.
pub fn label_finding(i: &Item<'_, '_>, place: Place) -> Option<Finding>
    ensures { result ≡ spec.label_finding (item i.now) place }
{
    if is_placed_label(i, place) {
        let is_twice = is_placed_before(i, place, i.name_at(place));
        found(is_twice, Finding::LabelTwice)
    } else if is_label(i, place) {
        found(!is_placed(i, i.name_at(place)), Finding::NoLabel)
    } else {
        None
    }
}

// ---- 29

/// Whether a place is the name that a `build` names.
fn is_built(i: &Item<'_, '_>, place: Place) -> bool
    ensures { result ≡ spec.is_built (item i.now) place }
{
    is_name(i, place) && has_before(i.tokens, place.index, 1, b"build")
}

/// Whether a `build` before a place names it.
fn builds_before(i: &Item<'_, '_>, at: Place, name: &[u8], place: Place) -> bool
    ensures { result ≡ spec.builds_before (item i.now) at name.now place }
{
    place.index < at.index && is_built(i, place) && i.is_named(name, place)
}

/// Whether one at an earlier place names it.
fn is_built_before(i: &Item<'_, '_>, at: Place, name: &[u8]) -> bool
    ensures { result ≡ spec.is_built_before (item i.now) at name.now }
{
    i.places.iter().any(|p| builds_before(i, at, name, *p))
}

/// Rule 29: no table is built twice.
pub fn built_finding(i: &Item<'_, '_>, place: Place) -> Option<Finding>
    ensures { result ≡ spec.built_finding (item i.now) place }
{
    let is_twice = is_built(i, place) && is_built_before(i, place, i.name_at(place));
    found(is_twice, Finding::BuiltTwice)
}

/// What a name is where a table or a place is asked.
fn number_or_kind(i: &Item<'_, '_>, name: &[u8]) -> Finding
    ensures { result ≡ spec.number_or_kind (item i.now) name.now }
{
    if is_number(i, name) {
        Finding::Number
    } else {
        Finding::Is(i.kind_of(name))
    }
}

/// Whether the name is that of an operand that is a table.
pub fn is_table_operand(i: &Item<'_, '_>, name: &[u8]) -> bool
    ensures { result ≡ spec.is_table_operand (item i.now) name.now }
{
    i.is_bare(name) && is_table(i.kind_of(name))
}

/// Rule 29: `build` names a table operand.
pub fn build_finding(i: &Item<'_, '_>, place: Place) -> Option<Finding>
    ensures { result ≡ spec.build_finding (item i.now) place }
{
    let name = i.name_at(place);
    let is_wrong = is_built(i, place) && !is_table_operand(i, name);
    found(is_wrong, number_or_kind(i, name))
}

// ---- 30

fn is_export(i: &Item<'_, '_>, place: Place) -> bool
    ensures { result ≡ spec.is_export (item i.now) place }
{
    is_section(place.part) && i.is_named(b"export", place)
}

/// Whether the section ends after the statement of this place.
fn is_last(i: &Item<'_, '_>, place: Place) -> bool
    ensures { result ≡ spec.is_last (item i.now) place }
{
    let count = count_up_to(i.tokens, place.index, b";");
    has_after(from(i.tokens, place.index), count, 1, b"}")
}

/// Rule 30: `export` is the last statement.
pub fn last_finding(i: &Item<'_, '_>, place: Place) -> Option<Finding>
    ensures { result ≡ spec.last_finding (item i.now) place }
{
    let is_wrong = is_export(i, place) && !is_last(i, place);
    found(is_wrong, Finding::StatementAfter)
}

pub fn is_of_root(table: &[u8]) -> bool
    ensures { result ≡ spec.is_of_root table.now }
{
    is(table, b"") || is(table, b"instruction")
}

/// Rule 30: no constructor of `instruction` exports.
pub fn root_finding(i: &Item<'_, '_>, place: Place) -> Option<Finding>
    ensures { result ≡ spec.root_finding (item i.now) place }
{
    found(is_export(i, place) && is_of_root(i.table), Finding::OfRoot)
}

/// Whether a name may be exported by itself: a local, a register, a field with registers, a table.
fn is_handed_on(i: &Item<'_, '_>, place: Place, name: &[u8]) -> bool
    ensures { result ≡ spec.is_handed_on (item i.now) place name.now }
{
    is_register(i.kind_of(name))
        || i.is_local_before(place, name)
        || is_table_operand(i, name)
        || (i.is_bare(name) && has_registers(i, name))
}

/// Whether a place is a name that is exported by itself.
fn is_exported(i: &Item<'_, '_>, place: Place) -> bool
    ensures { result ≡ spec.is_exported (item i.now) place }
{
    is_name(i, place) && has_before(i.tokens, place.index, 1, b"export")
}

/// Rule 30: what is exported by itself may be handed on.
pub fn export_finding(i: &Item<'_, '_>, place: Place) -> Option<Finding>
    ensures { result ≡ spec.export_finding (item i.now) place }
{
    let name = i.name_at(place);
    let is_wrong = is_exported(i, place) && !is_handed_on(i, place, name);
    found(is_wrong, number_or_kind(i, name))
}

/// Whether a place is the mark of a star form that is exported.
fn is_exported_star(i: &Item<'_, '_>, place: Place) -> bool
    ensures { result ≡ spec.is_exported_star (item i.now) place }
{
    is_section(place.part)
        && i.is_named(b"*", place)
        && has_before(i.tokens, place.index, 1, b"export")
}

/// Whether a size is written after the mark or its space.
fn has_size(i: &Item<'_, '_>, place: Place) -> bool
    ensures { result ≡ spec.has_size (item i.now) place }
{
    has_after(i.tokens, place.index, 1, b":") || has_after(i.tokens, place.index, 4, b":")
}

/// Whether a place is the pointer of a star form that is exported without a space.
fn is_pointer(i: &Item<'_, '_>, place: Place) -> bool
    ensures { result ≡ spec.is_pointer (item i.now) place }
{
    is_name(i, place)
        && has_before(i.tokens, place.index, 3, b"*")
        && has_before(i.tokens, place.index, 4, b"export")
}

/// Whether it is one with a space.
fn is_space_pointer(i: &Item<'_, '_>, place: Place) -> bool
    ensures { result ≡ spec.is_space_pointer (item i.now) place }
{
    is_name(i, place)
        && has_before(i.tokens, place.index, 6, b"*")
        && has_before(i.tokens, place.index, 7, b"export")
}

/// Whether a name may be a place's pointer.
fn points(i: &Item<'_, '_>, place: Place, name: &[u8]) -> bool
    ensures { result ≡ spec.points (item i.now) place name.now }
{
    is_handed_on(i, place, name) || is_number(i, name)
}

/// What is wrong with a place's pointer.
fn pointer_finding(i: &Item<'_, '_>, place: Place, name: &[u8]) -> Option<Finding>
    ensures { result ≡ spec.pointer_finding (item i.now) place name.now }
{
    found(!points(i, place, name), Finding::Is(i.kind_of(name)))
}

/// What is wrong with the pointer of a place in a space, or with the number of a constant.
fn space_pointer_finding(i: &Item<'_, '_>, place: Place, name: &[u8]) -> Option<Finding>
    ensures { result ≡ spec.space_pointer_finding (item i.now) place name.now }
{
    if has_before(i.tokens, place.index, 4, b"const") {
        found(!is_number(i, name), Finding::NoNumber)
    } else {
        pointer_finding(i, place, name)
    }
}

/// Whether a star form may be exported that has a space of this name and kind.
fn is_exported_from(name: &[u8], kind: Kind) -> bool
    ensures { result ≡ spec.is_exported_from name.now kind }
{
    is(name, b"const") || is_space(kind)
}

/// What is wrong with a token of a star form that is exported.
fn handed_finding(i: &Item<'_, '_>, place: Place, name: &[u8]) -> Option<Finding>
    ensures { result ≡ spec.handed_finding (item i.now) place name.now }
{
    if is_exported_star(i, place) {
        found(!has_size(i, place), Finding::NoWrittenSize)
    } else if is_exported_space(i, place) {
        found(!is_exported_from(name, i.kind_of(name)), Finding::NoSpace)
    } else if is_space_pointer(i, place) {
        space_pointer_finding(i, place, name)
    } else if is_pointer(i, place) {
        pointer_finding(i, place, name)
    } else {
        None
    }
}

/// Rule 30: a star form that is exported has a written size; it is a number as `*[const]:n`, or a
/// place in a defined space.
pub fn star_finding(i: &Item<'_, '_>, place: Place) -> Option<Finding>
    ensures { result ≡ spec.star_finding (item i.now) place }
{
    handed_finding(i, place, i.name_at(place))
}

// ---- 31

fn is_in_macro(i: &Item<'_, '_>, place: Place) -> bool
    ensures { result ≡ spec.is_in_macro (item i.now) place }
{
    is_section(place.part) && has_here(i.tokens, i.start, b"macro")
}

/// Rule 31: a macro has no `build` and no `export`.
pub fn macro_finding(i: &Item<'_, '_>, place: Place) -> Option<Finding>
    ensures { result ≡ spec.macro_finding (item i.now) place }
{
    let is_wrong = is_in_macro(i, place)
        && (i.is_named(b"build", place) || i.is_named(b"export", place));
    found(is_wrong, Finding::InMacro)
}

fn is_opening(text: &[u8]) -> bool
    ensures { result ≡ spec.is_opening text.now }
{
    is(text, b"(") || is(text, b"[")
}

fn is_closing(text: &[u8]) -> bool
    ensures { result ≡ spec.is_closing text.now }
{
    is(text, b")") || is(text, b"]")
}

/// How many commas are there up to the bracket that closes, those within further brackets left out.
pub fn commas(tokens: &[Tok<'_>]) -> usize
    ensures is { result ≡ spec.commas 0 (views tokens.now) }
    ensures most { result ≤ length tokens.now }
{
    let mut depth = 0_usize;
    let mut count = 0_usize;
    'tokens: for token in tokens {
        if is_opening(token.text) {
            depth += 1;
        } else if is_closing(token.text) {
            if depth == 0 {
                return count;
            }
            depth -= 1;
        } else if is(token.text, b",") && depth == 0 {
            count += 1;
        }
    }
    count
}

/// How many of the brackets that open in these tokens, round or square, are open after them.
pub fn depths(tokens: &[Tok<'_>]) -> usize
    ensures { result ≡ spec.depths 0 (views tokens.now) }
{
    let mut depth = 0_usize;
    'tokens: for token in tokens {
        if is_opening(token.text) {
            depth += 1;
        } else if is_closing(token.text) {
            depth = depth.saturating_sub(1);
        }
    }
    depth
}

/// How many arguments or parameters are after the name of this index.
fn arguments(tokens: &[Tok<'_>], index: usize) -> usize
    ensures { result ≡ spec.arguments (views tokens.now) index }
{
    if has_after(tokens, index, 2, b")") {
        0
    } else {
        1 + commas(from(from(tokens, index), 2))
    }
}

/// What is wrong with so many arguments.
fn counted_finding(given: usize, taken: usize) -> Option<Finding>
    ensures { result ≡ spec.counted_finding given taken }
{
    found(given != taken, Finding::Arguments { given, taken })
}

/// How many parameters the macro has that is defined here.
fn parameters_of(tokens: &[Tok<'_>], mention: Option<Mention>) -> usize
    ensures { result ≡ spec.parameters_of (views tokens.now) mention }
{
    match mention {
        Some(mention) => arguments(tokens, mention.index),
        None => 0,
    }
}

/// How many parameters the macro of this name has.
fn macro_parameters(i: &Item<'_, '_>, name: &[u8]) -> usize
    ensures { result ≡ spec.macro_parameters (item i.now) name.now }
{
    let definition = definition(i.tokens, i.names.as_slice(), i.start, name);
    parameters_of(i.tokens, definition)
}

/// What is wrong with a call that is a statement.
fn statement_finding(i: &Item<'_, '_>, place: Place, name: &[u8]) -> Option<Finding>
    ensures { result ≡ spec.statement_finding (item i.now) place name.now }
{
    let kind = i.kind_of(name);
    if is_macro(kind) {
        counted_finding(arguments(i.tokens, place.index), macro_parameters(i, name))
    } else {
        found(!is_operation(kind), Finding::Is(kind))
    }
}

fn is_unary(name: &[u8]) -> bool
    ensures { result ≡ spec.is_unary name.now }
{
    is(name, b"zext") || is(name, b"sext") || is(name, b"popcount") || is(name, b"lzcount")
}

fn is_binary(name: &[u8]) -> bool
    ensures { result ≡ spec.is_binary name.now }
{
    is(name, b"carry") || is(name, b"scarry") || is(name, b"sborrow")
}

/// What is wrong with a call of a function.
fn function_finding(i: &Item<'_, '_>, place: Place, name: &[u8]) -> Option<Finding>
    ensures { result ≡ spec.function_finding (item i.now) place name.now }
{
    let given = arguments(i.tokens, place.index);
    if is_unary(name) {
        counted_finding(given, 1)
    } else if is_binary(name) {
        counted_finding(given, 2)
    } else {
        Some(Finding::Is(i.kind_of(name)))
    }
}

/// What is wrong with a call in an expression.
fn expression_finding(i: &Item<'_, '_>, place: Place, name: &[u8]) -> Option<Finding>
    ensures { result ≡ spec.expression_finding (item i.now) place name.now }
{
    if is_operation(i.kind_of(name)) || drops_bytes(i, place, name) {
        None
    } else {
        function_finding(i, place, name)
    }
}

/// Rule 31: a call that is a statement names an earlier macro with as many arguments, or a user
/// operation; any other names a user operation, or a function with as many arguments as it takes.
pub fn call_finding(i: &Item<'_, '_>, place: Place) -> Option<Finding>
    ensures { result ≡ spec.call_finding (item i.now) place }
{
    let name = i.name_at(place);
    if !is_called(i, place) {
        None
    } else if i.begins_statement(place) {
        statement_finding(i, place, name)
    } else {
        expression_finding(i, place, name)
    }
}
