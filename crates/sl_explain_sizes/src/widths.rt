//! What the tokens of a text say of the size of a name.

ghost use Rattle.std.specs.Prelude.{◌≡◌, find, option_map};
ghost use Rattle.sl_explain_names.specs.ItemView.{item};
ghost use Rattle.sl_explain_names.specs.Items.{is_address_name};
ghost use Rattle.sl_explain_names.specs.Items.{is_field as is_field_kind};
ghost use Rattle.sl_explain_names.specs.Sections.{attaches_registers};
ghost use Rattle.sl_explain_sizes.specs.ScopeView.{scope};
ghost use Rattle.sl_explain_sizes.specs.Widths as spec;
ghost use Rattle.sl_lex.specs.Views.{views};

use crate::slices::{beyond, front, up_to};
use sl_explain_heads::{from, text_at};
use sl_explain_names::{
    Item, Kind, Mention, Role, definition, has_after, has_before, has_here, is, is_bit_range,
    is_context_field, is_register, is_table, is_table_operand, is_token_field, kind_by,
    number_after, size_of, steps_to,
};
use sl_lex::Tok;

/// What the tokens say of a size.
#[derive(Clone, Copy)]
pub enum Width {
    /// So many bytes.
    Bytes(u64),
    /// A number by itself: it has the size that is asked of it.
    Number,
    /// It is made of such numbers, or of what a call gives; nothing in it has a size.
    Open,
    /// The tokens don't say it.
    Untold,
}

/// A name, by the index of its token, with its width.
#[derive(Clone, Copy)]
pub struct NamedWidth {
    pub index: usize,
    pub width: Width,
}

/// Where a section is read.
#[derive(Clone, Copy)]
pub struct Scope<'x, 't, 's> {
    pub item: &'x Item<'t, 's>,
    /// Names whose width is known besides; the first one of a name counts.
    pub known: &'x [NamedWidth],
}

pub fn is_bytes(width: Width) -> bool
    ensures { result ≡ spec.is_bytes width }
{
    matches!(width, Width::Bytes(_))
}

pub fn is_untold(width: Width) -> bool
    ensures { result ≡ spec.is_untold width }
{
    matches!(width, Width::Untold)
}

/// So many bytes, where 0 says that the tokens don't tell it.
pub fn told(size: u64) -> Width
    ensures { result ≡ spec.told size }
{
    if size == 0 {
        Width::Untold
    } else {
        Width::Bytes(size)
    }
}

/// As many bytes as so many bits take.
pub fn bit_bytes(count: u64) -> u64
    ensures { result ≡ spec.bit_bytes count }
{
    (count.min(128) + 7) / 8
}

// ---- registers, bit ranges, and fields with registers

fn range_bytes(tokens: &[Tok<'_>], mention: Option<Mention>) -> u64
    ensures { result ≡ spec.range_bytes (views tokens.now) mention }
{
    match mention {
        Some(mention) => bit_bytes(number_after(tokens, mention.index, 6)),
        None => 0,
    }
}

/// The first name of a list of members that isn't `_`.
fn first_member<'a>(tokens: &[Tok<'a>]) -> &'a [u8]
    ensures { result.now ≡ spec.first_member (views tokens.now) }
{
    'tokens: for at in 0..tokens.len() {
        let text = tokens[at].text;
        if !is(text, b"_") {
            return text;
        }
    }
    b""
}

/// The members of an `attach`, whose tokens these are from its first one on.
fn members<'t, 'a>(tokens: &'t [Tok<'a>]) -> &'t [Tok<'a>]
    ensures { views result.now ≡ spec.members (views tokens.now) }
{
    if has_after(tokens, 0, 2, b"[") {
        from(from(tokens, steps_to(b"]", tokens)), 2)
    } else {
        from(tokens, 4)
    }
}

fn attached_bytes(i: &Item<'_, '_>, mention: Option<Mention>) -> u64
    ensures { result ≡ spec.attached_bytes (item i.now) mention }
{
    match mention {
        Some(mention) => size_of(i, first_member(members(from(i.tokens, mention.head)))),
        None => 0,
    }
}

/// Whether a token attaches registers to the field of this name.
fn attaches(i: &Item<'_, '_>, name: &[u8], mention: Mention) -> bool
    ensures { result ≡ attaches_registers (item i.now) name.now mention }
{
    matches!(mention.role, Role::AttachedToRegisters) && has_here(i.tokens, mention.index, name)
}

fn find_attached<'x>(i: &'x Item<'_, '_>, name: &[u8]) -> Option<&'x Mention>
    ensures { option_map (λ m. m.now) result
        ≡ find (attaches_registers (item i.now) name.now) i.now.names.items }
{
    i.names.iter().find(|m| attaches(i, name, **m))
}

/// The token that attaches registers to the field of this name.
fn attached_at(i: &Item<'_, '_>, name: &[u8]) -> Option<Mention>
    ensures { result ≡ find (attaches_registers (item i.now) name.now) i.now.names.items }
{
    match find_attached(i, name) {
        Some(mention) => Some(*mention),
        None => None,
    }
}

fn is_field(kind: Kind) -> bool
    ensures { result ≡ is_field_kind kind }
{
    is_token_field(kind) || is_context_field(kind)
}

/// The size of what the name stores, or 0.
fn stored_bytes(i: &Item<'_, '_>, name: &[u8]) -> u64
    ensures { result ≡ spec.stored_bytes (item i.now) name.now }
{
    let kind = i.kind_of(name);
    if is_register(kind) {
        size_of(i, name)
    } else if is_bit_range(kind) {
        range_bytes(
            i.tokens,
            definition(i.tokens, i.names.as_slice(), i.start, name),
        )
    } else if is_field(kind) {
        attached_bytes(i, attached_at(i, name))
    } else {
        0
    }
}

// ---- tables

/// The size that is written in the star form which begins these tokens, or 0.
pub fn star_size(tokens: &[Tok<'_>]) -> u64
    ensures { result ≡ spec.star_size (views tokens.now) }
{
    if has_after(tokens, 0, 1, b":") {
        number_after(tokens, 0, 2)
    } else if has_after(tokens, 0, 1, b"[") && has_after(tokens, 0, 4, b":") {
        number_after(tokens, 0, 5)
    } else {
        0
    }
}

/// The section of the constructor whose pattern goes on with these tokens.
fn braced<'t, 'a>(tokens: &'t [Tok<'a>]) -> &'t [Tok<'a>]
    ensures { views result.now ≡ spec.braced (views tokens.now) }
{
    if steps_to(b"unimpl", tokens) < steps_to(b"{", tokens) {
        front(tokens, 0)
    } else {
        up_to(beyond(tokens, steps_to(b"{", tokens)), b"}")
    }
}

/// The section of the constructor that begins these tokens.
fn section_of<'t, 'a>(tokens: &'t [Tok<'a>]) -> &'t [Tok<'a>]
    ensures { views result.now ≡ spec.section_of (views tokens.now) }
{
    braced(beyond(tokens, steps_to(b"is", tokens)))
}

/// What a section exports.
fn exported<'t, 'a>(tokens: &'t [Tok<'a>]) -> &'t [Tok<'a>]
    ensures { views result.now ≡ spec.exported (views tokens.now) }
{
    beyond(tokens, steps_to(b"export", tokens))
}

/// The size of what is exported here, or 0.
fn export_bytes(i: &Item<'_, '_>, tokens: &[Tok<'_>]) -> u64
    ensures { result ≡ spec.export_bytes (item i.now) (views tokens.now) }
{
    if has_here(tokens, 0, b"*") {
        star_size(tokens)
    } else {
        stored_bytes(i, text_at(tokens, 0))
    }
}

/// Whether a constructor with this table's name begins at a token.
fn begins_with(i: &Item<'_, '_>, table: &[u8], mention: Mention) -> bool
    ensures { result ≡ spec.begins_with (item i.now) table.now mention }
{
    is_table(kind_by(mention.role))
        && has_here(i.tokens, mention.index, table)
        && !has_before(i.tokens, mention.index, 1, b"with")
}

fn bytes_if(i: &Item<'_, '_>, table: &[u8], mention: Mention) -> u64
    ensures { result ≡ spec.bytes_if (item i.now) table.now mention }
{
    if begins_with(i, table, mention) {
        export_bytes(i, exported(section_of(from(i.tokens, mention.index))))
    } else {
        0
    }
}

/// The size of what a table exports, by the first of its constructors whose tokens tell it, or 0.
fn table_bytes(i: &Item<'_, '_>, table: &[u8]) -> u64
    ensures { result ≡ spec.table_bytes (item i.now) table.now i.now.names.items }
{
    let names = i.names.as_slice();
    'names: for at in 0..names.len() {
        let size = bytes_if(i, table, names[at]);
        if size != 0 {
            return size;
        }
    }
    0
}

// ---- names

fn is_address(name: &[u8]) -> bool
    ensures { result ≡ is_address_name name.now }
{
    is(name, b"inst_start") || is(name, b"inst_next")
}

fn field_width(i: &Item<'_, '_>, attached: Option<Mention>) -> Width
    ensures { result ≡ spec.field_width (item i.now) attached }
{
    match attached {
        Some(mention) => told(attached_bytes(i, Some(mention))),
        None => Width::Number,
    }
}

/// What the name has in the item that isn't among those that are known besides.
fn own_width(i: &Item<'_, '_>, name: &[u8]) -> Width
    ensures { result ≡ spec.own_width (item i.now) name.now }
{
    if is_address(name) || i.is_action_name(name) {
        Width::Number
    } else if is_table_operand(i, name) {
        told(table_bytes(i, name))
    } else if i.is_bare(name) && is_field(i.kind_of(name)) {
        field_width(i, attached_at(i, name))
    } else {
        told(stored_bytes(i, name))
    }
}

fn is_of(tokens: &[Tok<'_>], name: &[u8], known: NamedWidth) -> bool
    ensures { result ≡ spec.is_of (views tokens.now) name.now known }
{
    has_here(tokens, known.index, name)
}

fn find_known<'x>(
    tokens: &[Tok<'_>],
    known: &'x [NamedWidth],
    name: &[u8],
) -> Option<&'x NamedWidth>
    ensures { option_map (λ n. n.now) result ≡ find (spec.is_of (views tokens.now) name.now) known.now }
{
    known.iter().find(|n| is_of(tokens, name, **n))
}

/// The width of a name.
pub fn named(s: &Scope<'_, '_, '_>, name: &[u8]) -> Width
    ensures { result ≡ spec.named (scope s.now) name.now }
{
    match find_known(s.item.tokens, s.known, name) {
        Some(known) => known.width,
        None => own_width(s.item, name),
    }
}
