//! Address spaces: rules 4 and 5.

ghost use Rattle.std.specs.Prelude.{◌≡◌, ◌≤◌, map, count_by, find, option_map, None, Ok};
ghost use Rattle.std.specs.List.{list_all, list_any};
ghost use Rattle.sl_ast.specs.Views.{space_attribute_of};
ghost use Rattle.sl_spec_rules.specs.Demands.{Gives, first_broken};
ghost use Rattle.sl_spec_registers.specs.Free.{IsFree};
ghost use Rattle.sl_spec_registers.specs.SpaceRules.{attribute_fits, has_size_and_type, is_kind};
ghost use Rattle.sl_spec_registers.specs.SpaceRules.{is_default_attribute, is_only_default};
ghost use Rattle.sl_spec_registers.specs.SpaceRules.{is_size};
ghost use Rattle.sl_spec_registers.specs.SpaceRules.{is_type, kind_in, kind_named, size_in};
ghost use Rattle.sl_spec_registers.specs.SpaceRules.{space_demands, space_of, space_step};
ghost use Rattle.sl_spec_registers.specs.SpaceRules.{with_space};

use crate::names::is_new;
use sl_ast::definitions::SpaceAttribute;
use sl_spec::{Space, SpaceKind, Tables};
use sl_spec_rules::Fault;

/// Whether it is the attribute `size`.
fn is_size(attribute: &SpaceAttribute) -> bool
    ensures { result ≡ is_size (space_attribute_of attribute.now) }
{
    matches!(attribute, SpaceAttribute::Size(_))
}

/// Whether it is the attribute `type`.
fn is_type(attribute: &SpaceAttribute) -> bool
    ensures { result ≡ is_type (space_attribute_of attribute.now) }
{
    matches!(attribute, SpaceAttribute::Type(_))
}

/// Whether it is the attribute `default`.
fn is_default(attribute: &SpaceAttribute) -> bool
    ensures { result ≡ is_default_attribute (space_attribute_of attribute.now) }
{
    matches!(attribute, SpaceAttribute::Default)
}

/// Whether the word is a kind of spaces.
fn is_kind(name: &[u8]) -> bool
    ensures { result ≡ is_kind name.now }
{
    name == b"ram_space".as_slice()
        || name == b"rom_space".as_slice()
        || name == b"register_space".as_slice()
}

/// Whether it is a size of 1 to 8, or a type that there is, or another attribute.
fn attribute_fits(attribute: &SpaceAttribute) -> bool
    ensures { result ≡ attribute_fits (space_attribute_of attribute.now) }
{
    match attribute {
        SpaceAttribute::Size(size) => 1 <= *size && *size <= 8,
        SpaceAttribute::Type(name) => is_kind(name),
        SpaceAttribute::WordSize(_) => true,
        SpaceAttribute::Default => true,
    }
}

fn sizes(given: &[SpaceAttribute]) -> usize
    ensures { result ≡ count_by (λ a. is_size (space_attribute_of a)) given.now }
{
    given.iter().filter(|a| is_size(a)).count()
}

fn types(given: &[SpaceAttribute]) -> usize
    ensures { result ≡ count_by (λ a. is_type (space_attribute_of a)) given.now }
{
    given.iter().filter(|a| is_type(a)).count()
}

fn all_fit(given: &[SpaceAttribute]) -> bool
    ensures { result ≡ list_all (λ a. attribute_fits (space_attribute_of a)) given.now }
{
    given.iter().all(|a| attribute_fits(a))
}

fn asks_default(given: &[SpaceAttribute]) -> bool
    ensures { result ≡ list_any (λ a. is_default_attribute (space_attribute_of a)) given.now }
{
    given.iter().any(|a| is_default(a))
}

/// Rule 4: `size` and `type` stand once each, the size is 1 to 8 and the type one that there is.
#[tactic(auto, using(sl_spec_rules::proofs::Seen::seen), unfolding(crate::specs::SpaceRules::has_size_and_type))]
fn has_size_and_type(given: &[SpaceAttribute]) -> bool
    ensures { result ≡ has_size_and_type (map space_attribute_of given.now) }
{
    sizes(given) == 1 && types(given) == 1 && all_fit(given)
}

/// Whether a space is the default one.
fn has_default(t: &Tables) -> bool
    ensures { result ≡ list_any (λ s. s.default) t.now.spaces }
{
    t.spaces.iter().any(|space| space.default)
}

/// Rule 5: no second space is `default`.
#[tactic(auto, using(sl_spec_rules::proofs::Seen::seen), unfolding(crate::specs::SpaceRules::is_only_default))]
fn is_only_default(t: &Tables, given: &[SpaceAttribute]) -> bool
    ensures { result ≡ is_only_default t.now (map space_attribute_of given.now) }
{
    !(asks_default(given) && has_default(t))
}

/// The first rule that the definition of a space breaks.
#[tactic(auto, using(crate::proofs::SpaceLemmas::size_is_some, crate::proofs::SpaceLemmas::size_is_at_most_8))]
fn broken(t: &Tables, name: &[u8], given: &[SpaceAttribute]) -> Option<u8>
    ensures first { result
        ≡ first_broken (space_demands t.now name.now (map space_attribute_of given.now)) }
    ensures free { result ≡ None → IsFree name.now t.now }
    ensures some { result ≡ None → 1 ≤ size_in (find is_size (map space_attribute_of given.now)) }
    ensures most { result ≡ None → size_in (find is_size (map space_attribute_of given.now)) ≤ 8 }
{
    if !is_new(t, name) {
        return Some(3);
    }
    if !has_size_and_type(given) {
        return Some(4);
    }
    if !is_only_default(t, given) {
        return Some(5);
    }
    None
}

/// The size that an attribute gives, or 0.
fn size_of(attribute: Option<&SpaceAttribute>) -> u64
    ensures { result ≡ size_in (option_map (λ a. space_attribute_of a.now) attribute.entry) }
{
    match attribute {
        Some(SpaceAttribute::Size(size)) => *size,
        _ => 0,
    }
}

/// The kind of spaces that a word names.
fn kind_named(name: &[u8]) -> SpaceKind
    ensures { result ≡ kind_named name.now }
{
    if name == b"rom_space".as_slice() {
        SpaceKind::Rom
    } else if name == b"register_space".as_slice() {
        SpaceKind::Register
    } else {
        SpaceKind::Ram
    }
}

/// The kind that an attribute gives, or memory.
fn kind_of(attribute: Option<&SpaceAttribute>) -> SpaceKind
    ensures { result ≡ kind_in (option_map (λ a. space_attribute_of a.now) attribute.entry) }
{
    match attribute {
        Some(SpaceAttribute::Type(name)) => kind_named(name),
        _ => SpaceKind::Ram,
    }
}

fn first_size<'s, 'a>(given: &'s [SpaceAttribute<'a>]) -> Option<&'s SpaceAttribute<'a>>
    ensures { option_map (λ a. a.now) result
        ≡ find (λ a. is_size (space_attribute_of a)) given.now }
{
    given.iter().find(|a| is_size(a))
}

fn first_type<'s, 'a>(given: &'s [SpaceAttribute<'a>]) -> Option<&'s SpaceAttribute<'a>>
    ensures { option_map (λ a. a.now) result
        ≡ find (λ a. is_type (space_attribute_of a)) given.now }
{
    given.iter().find(|a| is_type(a))
}

/// The size that the attributes give, or 0.
fn size_in(given: &[SpaceAttribute]) -> u64
    ensures { result ≡ size_in (find is_size (map space_attribute_of given.now)) }
{
    size_of(first_size(given))
}

/// The kind that the attributes give, or memory.
fn kind_in(given: &[SpaceAttribute]) -> SpaceKind
    ensures { result ≡ kind_in (find is_type (map space_attribute_of given.now)) }
{
    kind_of(first_type(given))
}

/// Adds a space.
#[tactic(auto, using(sl_spec_rules::proofs::Seen::seen), unfolding(crate::specs::SpaceRules::space_of))]
fn add<'a>(t: &mut Tables<'a>, name: &'a [u8], given: &[SpaceAttribute<'a>]) -> Result<(), Fault>
    requires free { IsFree name.now t.old }
    requires some { 1 ≤ size_in (find is_size (map space_attribute_of given.now)) }
    requires most { size_in (find is_size (map space_attribute_of given.now)) ≤ 8 }
    ensures { Gives (λ _. t.new) result
        (Ok (with_space t.old (space_of name.now (map space_attribute_of given.now)))) }
{
    let added = Space {
        name,
        kind: kind_in(given),
        size: size_in(given) as u8,
        default: asks_default(given),
    };
    t.spaces.add(name, added)?;
    Ok(())
}

/// Defines a space.
pub fn define_space<'a>(
    t: &mut Tables<'a>,
    name: &'a [u8],
    given: &[SpaceAttribute<'a>],
) -> Result<(), Fault>
    ensures { Gives (λ _. t.new) result
        (space_step t.old name.now (map space_attribute_of given.now)) }
{
    if let Some(rule) = broken(t, name, given) {
        return Err(Fault::Rule(rule));
    }
    add(t, name, given)
}
