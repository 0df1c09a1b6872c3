//! What is wrong with the exports of tables.

ghost use Rattle.std.specs.Prelude.{◌≡◌, IfOk, find, option_map};
ghost use Rattle.sl_explain_exports.specs.ConstructorView.{constructor, constructors as constructors_view};
ghost use Rattle.sl_explain_exports.specs.Findings as spec;
ghost use Rattle.sl_explain_heads.specs.Modes.{mode_view};
ghost use Rattle.sl_explain_names.specs.ItemView.{item};
ghost use Rattle.sl_lex.specs.Views.{views};

use crate::constructors::{
    Constructor, Export, constructors, export_of, first_exporter, first_silent, full_name, is_body,
    is_top,
};
use sl_explain_heads::{Mode, next_mode, table_of, text_at, text_before};
use sl_explain_names::{
    Item, Kind, Place, begins_at, has_after, has_before, has_here, is, is_bit_range, is_called,
    is_integer_at, is_register, is_section, is_table_operand, is_value_name, item_at, number_after,
    size_of,
};
use sl_lex::Tok;
use std::alloc::{AllocError, Global};

/// What is wrong with a word.
#[derive(Clone, Copy)]
pub enum Finding {
    /// The constructor exports nothing, and the one that begins at this index does.
    Silent(usize),
    /// No constructor of the table exports.
    NoExport,
    /// The table exports a constant, and the statement at this index assigns it.
    AssignedAt(usize),
    /// It is a register or bits of one, and a jump goes there.
    Target(Kind),
    /// So many bytes are kept of a register of this size.
    KeptPast(u64),
    /// So many bytes are dropped of a register of this size.
    CutPast(u64),
    /// The bits from one to this last one are taken of a register of so many.
    BitsPast { low: u64, last: u64, bits: u64 },
    /// It has this size, and the constructor that begins at this index exports another one.
    SizesDiffer { size: u64, first: usize, other: u64 },
}

/// A word that breaks a rule, by its index, and the first token of its constructor.
#[derive(Clone, Copy)]
pub struct Culprit {
    pub start: usize,
    pub index: usize,
    pub finding: Finding,
}

// ---- 38

/// The silent constructor of a table, where another one exports.
fn silent_by(silent: Option<Constructor<'_>>, exporter: Option<Constructor<'_>>) -> Option<Culprit>
    ensures { result
        ≡ spec.silent_by (option_map constructor silent.entry)
        (option_map constructor exporter.entry) }
{
    match (silent, exporter) {
        (Some(of), Some(exporter)) => Some(Culprit {
            start: of.start,
            index: of.start,
            finding: Finding::Silent(exporter.start),
        }),
        _ => None,
    }
}

/// Rule 38: all constructors of a table that aren't `unimpl` export, or none does.
fn silent_culprit(table: &[u8], all: &[Constructor<'_>]) -> Option<Culprit>
    ensures { result ≡ spec.silent_culprit table.now (constructors_view all.now) }
{
    silent_by(first_silent(table, all), first_exporter(table, all))
}

/// Whether a place is a name that stands for what a table exports.
fn is_use(i: &Item<'_, '_>, place: Place) -> bool
    ensures { result ≡ spec.is_use (item i.now) place }
{
    (is_value_name(i, place) || is_called(i, place) || i.is_assigned(place))
        && !has_before(i.tokens, place.index, 1, b"build")
}

/// Whether the name is that of a table operand of which no constructor exports.
fn uses_silent(i: &Item<'_, '_>, all: &[Constructor<'_>], name: &[u8]) -> bool
    ensures { result ≡ spec.uses_silent (item i.now) (constructors_view all.now) name.now }
{
    is_table_operand(i, name) && first_exporter(name, all).is_none()
}

fn is_used_silent(i: &Item<'_, '_>, all: &[Constructor<'_>], place: Place) -> bool
    ensures { result ≡ spec.is_used_silent (item i.now) (constructors_view all.now) place }
{
    is_use(i, place) && uses_silent(i, all, i.name_at(place))
}

/// Rule 38: the first place at which a table is used of which no constructor exports.
fn used_in(i: &Item<'_, '_>, all: &[Constructor<'_>]) -> Option<Culprit>
    ensures { result
        ≡ spec.used_in (item i.now) (constructors_view all.now) i.now.places.items }
{
    let places = i.places.as_slice();
    'places: for at in 0..places.len() {
        let place = places[at];
        if is_used_silent(i, all, place) {
            return Some(Culprit {
                start: i.start,
                index: place.index,
                finding: Finding::NoExport,
            });
        }
    }
    None
}

// ---- 39

/// Whether a constant is exported from this index on.
fn is_constant(tokens: &[Tok<'_>], index: usize) -> bool
    ensures { result ≡ spec.is_constant (views tokens.now) index }
{
    has_here(tokens, index, b"*")
        && has_after(tokens, index, 1, b"[")
        && has_after(tokens, index, 2, b"const")
}

fn exports_constant(tokens: &[Tok<'_>], export: Export) -> bool
    ensures { result ≡ spec.exports_constant (views tokens.now) export }
{
    match export {
        Export::At(index) => is_constant(tokens, index),
        Export::Nothing | Export::Unimplemented => false,
    }
}

fn is_constant_of(tokens: &[Tok<'_>], table: &[u8], of: &Constructor<'_>) -> bool
    ensures { result ≡ spec.is_constant_of (views tokens.now) table.now (constructor of.now) }
{
    is(of.table, table) && exports_constant(tokens, of.exports)
}

/// The first constructor of a table that exports a constant.
fn first_constant<'s>(
    tokens: &[Tok<'_>],
    table: &[u8],
    all: &[Constructor<'s>],
) -> Option<Constructor<'s>>
    ensures { option_map constructor result
        ≡ find (spec.is_constant_of (views tokens.now) table.now) (constructors_view all.now) }
{
    'all: for at in 0..all.len() {
        let of = all[at];
        if is_constant_of(tokens, table, &of) {
            return Some(of);
        }
    }
    None
}

/// Whether a statement that begins at this index assigns the name, or bits of it.
fn assigns(tokens: &[Tok<'_>], table: &[u8], index: usize, text: &[u8]) -> bool
    ensures { result ≡ spec.assigns (views tokens.now) table.now index text.now }
{
    is(text, table)
        && begins_at(tokens, index)
        && (has_after(tokens, index, 1, b"=") || has_after(tokens, index, 1, b"["))
}

/// Whether a token in this mode does so in a constructor.
fn assigns_in(
    tokens: &[Tok<'_>],
    table: &[u8],
    mode: Mode,
    is_macro: bool,
    index: usize,
    text: &[u8],
) -> bool
    ensures { result
        ≡ spec.assigns_in (views tokens.now) table.now (mode_view mode) is_macro index text.now }
{
    is_body(mode) && !is_macro && assigns(tokens, table, index, text)
}

/// Whether what is after a token in this mode is in a macro.
fn is_macro_after(mode: Mode, is_macro: bool, text: &[u8]) -> bool
    ensures { result ≡ spec.is_macro_after (mode_view mode) is_macro text.now }
{
    if is_top(mode) {
        is(text, b"macro")
    } else {
        is_macro
    }
}

/// The first token of a constructor's section at which the table is assigned.
fn assigner(tokens: &[Tok<'_>], table: &[u8]) -> Option<usize>
    ensures { result ≡ spec.assigner (views tokens.now) table.now }
{
    let mut mode = Mode::Top;
    let mut is_macro = false;
    'tokens: for at in 0..tokens.len() {
        let text = tokens[at].text;
        if assigns_in(tokens, table, mode, is_macro, at, text) {
            return Some(at);
        }
        is_macro = is_macro_after(mode, is_macro, text);
        mode = next_mode(mode, text);
    }
    None
}

fn assigned_by(constant: Option<Constructor<'_>>, assigner: Option<usize>) -> Option<Culprit>
    ensures { result ≡ spec.assigned_by (option_map constructor constant.entry) assigner }
{
    match (constant, assigner) {
        (Some(of), Some(index)) => Some(Culprit {
            start: of.start,
            index: of.start,
            finding: Finding::AssignedAt(index),
        }),
        _ => None,
    }
}

/// Rule 39: a table that is assigned exports no constant.
fn assigned_culprit(tokens: &[Tok<'_>], table: &[u8], all: &[Constructor<'_>]) -> Option<Culprit>
    ensures { result
        ≡ spec.assigned_culprit (views tokens.now) table.now (constructors_view all.now) }
{
    assigned_by(first_constant(tokens, table, all), assigner(tokens, table))
}

/// Whether a place is the target of a jump without brackets.
fn is_target(i: &Item<'_, '_>, place: Place) -> bool
    ensures { result ≡ spec.is_target (item i.now) place }
{
    is_value_name(i, place)
        && (has_before(i.tokens, place.index, 1, b"goto")
            || has_before(i.tokens, place.index, 1, b"call"))
}

fn is_storage(kind: Kind) -> bool
    ensures { result ≡ spec.is_storage kind }
{
    is_register(kind) || is_bit_range(kind)
}

fn jumps_to_storage(i: &Item<'_, '_>, place: Place) -> bool
    ensures { result ≡ spec.jumps_to_storage (item i.now) place }
{
    is_target(i, place) && is_storage(i.kind_of(i.name_at(place)))
}

/// Rule 39: the first place at which a jump without brackets goes to a register.
fn target_in(i: &Item<'_, '_>) -> Option<Culprit>
    ensures { result ≡ spec.target_in (item i.now) i.now.places.items }
{
    let places = i.places.as_slice();
    'places: for at in 0..places.len() {
        let place = places[at];
        if jumps_to_storage(i, place) {
            return Some(Culprit {
                start: i.start,
                index: place.index,
                finding: Finding::Target(i.kind_of(i.name_at(place))),
            });
        }
    }
    None
}

// ---- 40: sizes of exports

/// The size that a star form writes, or 0.
fn star_size(tokens: &[Tok<'_>], index: usize) -> u64
    ensures { result ≡ spec.star_size (views tokens.now) index }
{
    if has_after(tokens, index, 1, b":") {
        number_after(tokens, index, 2)
    } else if has_after(tokens, index, 4, b":") {
        number_after(tokens, index, 5)
    } else {
        0
    }
}

/// The size of a register, or 0.
fn named_size(i: &Item<'_, '_>, name: &[u8]) -> u64
    ensures { result ≡ spec.named_size (item i.now) name.now }
{
    if is_register(i.kind_of(name)) {
        size_of(i, name)
    } else {
        0
    }
}

/// The size of what is exported from this index on, or 0 where the tokens don't tell it.
fn size_at(i: &Item<'_, '_>, index: usize) -> u64
    ensures { result ≡ spec.size_at (item i.now) index }
{
    if has_here(i.tokens, index, b"*") {
        star_size(i.tokens, index)
    } else {
        named_size(i, text_at(i.tokens, index))
    }
}

fn exported_size(i: &Item<'_, '_>, export: Export) -> u64
    ensures { result ≡ spec.exported_size (item i.now) export }
{
    match export {
        Export::At(index) => size_at(i, index),
        Export::Nothing | Export::Unimplemented => 0,
    }
}

fn are_apart(size: u64, other: u64) -> bool
    ensures { result ≡ spec.are_apart size other }
{
    size != 0 && other != 0 && size != other
}

fn sizes_by(i: &Item<'_, '_>, index: usize, first: Option<Constructor<'_>>) -> Option<Culprit>
    ensures { result ≡ spec.sizes_by (item i.now) index (option_map constructor first.entry) }
{
    let of = first?;
    let size = size_at(i, index);
    let other = exported_size(i, of.exports);
    if are_apart(size, other) {
        Some(Culprit {
            start: i.start,
            index,
            finding: Finding::SizesDiffer {
                size,
                first: of.start,
                other,
            },
        })
    } else {
        None
    }
}

/// Rule 40: all exports of a table have one size.
fn sizes_culprit(
    i: &Item<'_, '_>,
    export: Export,
    first: Option<Constructor<'_>>,
) -> Option<Culprit>
    ensures { result ≡ spec.sizes_culprit (item i.now) export (option_map constructor first.entry) }
{
    match export {
        Export::At(index) => sizes_by(i, index, first),
        Export::Nothing | Export::Unimplemented => None,
    }
}

// ---- 40: parts of registers

fn name_before<'s>(i: &Item<'_, 's>, place: Place, back: usize) -> &'s [u8]
    ensures { result.now ≡ spec.name_before (item i.now) place back }
{
    text_before(i.tokens, place.index, back)
}

fn number_at(i: &Item<'_, '_>, place: Place) -> u64
    ensures { result ≡ spec.number_at (item i.now) place }
{
    number_after(i.tokens, place.index, 0)
}

fn is_integer_in(i: &Item<'_, '_>, place: Place) -> bool
    ensures { result ≡ spec.is_integer_in (item i.now) place }
{
    is_section(place.part) && is_integer_at(i.tokens, place.index)
}

/// What is wrong where so many bytes are kept.
fn kept_finding(size: u64, number: u64) -> Option<Finding>
    ensures { result ≡ spec.kept_finding size number }
{
    if size != 0 && size < number {
        Some(Finding::KeptPast(size))
    } else {
        None
    }
}

/// What is wrong where so many bytes are dropped.
fn cut_finding(size: u64, number: u64) -> Option<Finding>
    ensures { result ≡ spec.cut_finding size number }
{
    if size != 0 && !(number < size) {
        Some(Finding::CutPast(size))
    } else {
        None
    }
}

fn bits_in(size: u64) -> u64
    ensures { result ≡ spec.bits_in size }
{
    8 * size.min(16)
}

fn end_of(low: u64, count: u64) -> u64
    ensures { result ≡ spec.end_of low count }
{
    low.saturating_add(count)
}

/// What is wrong where so many bits from this one on are taken.
fn bits_finding(size: u64, low: u64, count: u64) -> Option<Finding>
    ensures { result ≡ spec.bits_finding size low count }
{
    let bits = bits_in(size);
    let last = end_of(low, count);
    if size != 0 && bits < last {
        Some(Finding::BitsPast { low, last, bits })
    } else {
        None
    }
}

/// What is wrong with a number of a section.
fn number_finding(i: &Item<'_, '_>, place: Place) -> Option<Finding>
    ensures { result ≡ spec.number_finding (item i.now) place }
{
    let size = named_size(i, name_before(i, place, 2));
    let number = number_at(i, place);
    if has_before(i.tokens, place.index, 1, b":") {
        kept_finding(size, number)
    } else if has_before(i.tokens, place.index, 1, b"(")
        && has_after(i.tokens, place.index, 1, b")")
    {
        cut_finding(size, number)
    } else {
        None
    }
}

/// Whether a place is a name of which bits are taken.
fn has_bits(i: &Item<'_, '_>, place: Place) -> bool
    ensures { result ≡ spec.has_bits (item i.now) place }
{
    is_section(place.part)
        && has_after(i.tokens, place.index, 1, b"[")
        && has_after(i.tokens, place.index, 3, b",")
}

/// What is wrong with the bits that are taken of a name.
fn taken_finding(i: &Item<'_, '_>, place: Place) -> Option<Finding>
    ensures { result ≡ spec.taken_finding (item i.now) place }
{
    let size = named_size(i, i.name_at(place));
    let low = number_after(i.tokens, place.index, 2);
    bits_finding(size, low, number_after(i.tokens, place.index, 4))
}

fn part_finding(i: &Item<'_, '_>, place: Place) -> Option<Finding>
    ensures { result ≡ spec.part_finding (item i.now) place }
{
    if is_integer_in(i, place) {
        number_finding(i, place)
    } else if has_bits(i, place) {
        taken_finding(i, place)
    } else {
        None
    }
}

/// Rule 40: the first place at which more is taken of a register than there is.
fn parts_in(i: &Item<'_, '_>) -> Option<Culprit>
    ensures { result ≡ spec.parts_in (item i.now) i.now.places.items }
{
    let places = i.places.as_slice();
    'places: for at in 0..places.len() {
        let place = places[at];
        if let Some(what) = part_finding(i, place) {
            return Some(Culprit {
                start: i.start,
                index: place.index,
                finding: what,
            });
        }
    }
    None
}

// ---- the culprit

/// The first of two culprits that is there.
fn or_else(first: Option<Culprit>, later: Option<Culprit>) -> Option<Culprit>
    ensures { result ≡ spec.or_else first later }
{
    match first {
        Some(culprit) => Some(culprit),
        None => later,
    }
}

fn culprit_38(i: &Item<'_, '_>, table: &[u8], all: &[Constructor<'_>]) -> Option<Culprit>
    ensures { result ≡ spec.culprit_38 (item i.now) table.now (constructors_view all.now) }
{
    or_else(silent_culprit(table, all), used_in(i, all))
}

fn culprit_39(i: &Item<'_, '_>, table: &[u8], all: &[Constructor<'_>]) -> Option<Culprit>
    ensures { result ≡ spec.culprit_39 (item i.now) table.now (constructors_view all.now) }
{
    or_else(assigned_culprit(i.tokens, table, all), target_in(i))
}

fn culprit_40(i: &Item<'_, '_>, table: &[u8], all: &[Constructor<'_>]) -> Option<Culprit>
    ensures { result ≡ spec.culprit_40 (item i.now) table.now (constructors_view all.now) }
{
    let first = first_exporter(table, all);
    let export = export_of(i.tokens, i.start);
    or_else(parts_in(i), sizes_culprit(i, export, first))
}

/// The culprit of the rule of this number, in a table with these constructors.
fn culprit_of(rule: u8, i: &Item<'_, '_>, table: &[u8], all: &[Constructor<'_>]) -> Option<Culprit>
    ensures { result
        ≡ spec.culprit_of rule (item i.now) table.now (constructors_view all.now) }
{
    if rule == 38 {
        culprit_38(i, table, all)
    } else if rule == 39 {
        culprit_39(i, table, all)
    } else if rule == 40 {
        culprit_40(i, table, all)
    } else {
        None
    }
}

/// The constructor and the word that break the rule of this number, where the item whose first token
/// has this index is refused. `None` where none can be told.
#[tactic(auto, unfolding(crate::specs::Findings::export_culprit))]
pub fn find_export_culprit(
    alloc: Global,
    tokens: &[Tok<'_>],
    start: usize,
    rule: u8,
) -> Result<Option<Culprit>, AllocError>
    ensures { IfOk result (λ found. found ≡ spec.export_culprit (views tokens.now) start rule) }
{
    let i = item_at(alloc, tokens, start)?;
    let table = full_name(table_of(alloc, tokens, start)?);
    let all = constructors(alloc, tokens)?;
    Ok(culprit_of(rule, &i, table, all.as_slice()))
}
