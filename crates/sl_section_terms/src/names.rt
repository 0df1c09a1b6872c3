//! The names of a section and what they stand for.

ghost use Rattle.std.specs.Prelude.{◌≡◌, IfOk, OnOk, option_map, Some};
ghost use Rattle.sl_section_flat.specs.Sections.{span_count};
ghost use Rattle.sl_section_flat.specs.Views.{number_of, symbol_of};
ghost use Rattle.sl_ast.specs.Views.{bytes};
ghost use Rattle.sl_section_terms.specs.Scopes.{built_in, first_of, global_symbol, known_symbol};
ghost use Rattle.sl_section_terms.specs.Scopes.{own_symbol, range_at, range_named, range_symbol};
ghost use Rattle.sl_section_terms.specs.Scopes.{register_at, register_named, register_symbol};
ghost use Rattle.sl_section_terms.specs.Scopes.{space_named, symbol_named, userop_named};
ghost use Rattle.sl_section_terms.specs.Scopes.{with_symbol};

use crate::reach::{Reach, if_below};
use sl_section_flat::{Span, Storage, Symbol};
use sl_spec::{BitRange, Entry, Named, Register, Tables};
use sl_word::{SpaceId, UserId};
use std::alloc::AllocError;
use std::marker::Model;

/// A name with what it stands for.
#[derive(Debug, Drop)]
pub struct NamedSymbol<'a> {
    pub name: &'a [u8],
    pub symbol: Symbol,
}

impl<'a> Model for NamedSymbol<'a> {
    ghost use Rattle.sl_section_terms.specs.Entries as spec;
    ghost use Rattle.sl_section_flat.specs.Views.{symbol_of};

    ghost Value = { spec.Entry };

    ghost view = { λ e. record { name = e.name.now; symbol = symbol_of e.symbol } };
}

impl<'a> Entry for NamedSymbol<'a> {
    ghost name_of = { λ e. e.name };
}

/// The names that are known in a section or in a call of a macro: those of its own (operands or
/// parameters, and locals) and those of the whole text that are defined before it. `here` is the
/// number of the call, 0 for the section itself.
#[derive(Drop)]
pub struct Names<'a> {
    pub own: Named<'a, NamedSymbol<'a>>,
    pub reach: Reach,
    pub here: u32,
}

/// The register as a symbol.
fn register_symbol(r: &Register) -> Symbol
    ensures { symbol_of result ≡ register_symbol r.now }
{
    Symbol::Register(storage(r))
}

fn storage(r: &Register) -> Storage
    ensures space { result.space.0 ≡ r.now.space }
    ensures offset { result.offset ≡ r.now.offset }
    ensures size { result.size.bytes ≡ r.now.size }
{
    Storage {
        space: r.space,
        offset: r.offset,
        size: r.size,
    }
}

/// The register of this number.
fn register_at(t: &Tables, i: usize) -> Option<Symbol>
    ensures { option_map symbol_of result ≡ register_at t.now i }
{
    match t.registers.at(i) {
        Some(r) => Some(register_symbol(r)),
        None => None,
    }
}

/// Bits of a register.
fn range_symbol(t: &Tables, b: &BitRange) -> Option<Symbol>
    ensures { option_map symbol_of result ≡ range_symbol t.now b.now }
{
    let span = Span::new(u64::from(b.low), u64::from(b.count));
    let register = b.register.0 as usize;
    match t.registers.at(register) {
        Some(r) => Some(Symbol::BitRange(storage(r), span)),
        None => None,
    }
}

/// The bit range of this number.
fn range_at(t: &Tables, i: usize) -> Option<Symbol>
    ensures { option_map symbol_of result ≡ range_at t.now i }
{
    match t.bitranges.at(i) {
        Some(b) => range_symbol(t, b),
        None => None,
    }
}

fn register_named(t: &Tables, reach: Reach, name: &[u8]) -> Option<Symbol>
    ensures { option_map symbol_of result ≡ register_named t.now reach name.now }
{
    match if_below(reach.registers, t.registers.index_of(name)) {
        Some(i) => register_at(t, i),
        None => None,
    }
}

fn range_named(t: &Tables, reach: Reach, name: &[u8]) -> Option<Symbol>
    ensures { option_map symbol_of result ≡ range_named t.now reach name.now }
{
    match if_below(reach.bit_ranges, t.bitranges.index_of(name)) {
        Some(i) => range_at(t, i),
        None => None,
    }
}

fn built_in(name: &[u8]) -> Option<Symbol>
    ensures { option_map symbol_of result ≡ built_in name.now }
{
    if name == b"inst_start".as_slice() {
        Some(Symbol::Start)
    } else if name == b"inst_next".as_slice() {
        Some(Symbol::Next)
    } else {
        None
    }
}

/// What a name of the whole text stands for.
fn global_symbol(t: &Tables, reach: Reach, name: &[u8]) -> Option<Symbol>
    ensures { option_map symbol_of result ≡ global_symbol t.now reach name.now }
{
    match register_named(t, reach, name) {
        Some(symbol) => Some(symbol),
        None => match range_named(t, reach, name) {
            Some(symbol) => Some(symbol),
            None => built_in(name),
        },
    }
}

/// A number of 32 bits. One that is larger would be want of memory.
pub fn small(number: usize) -> Result<u32, AllocError>
    ensures { IfOk result (λ n. n ≡ number) }
{
    match u32::try_from(number) {
        Ok(number) => Ok(number),
        Err(_) => Err(AllocError),
    }
}

/// The number of a space that is named.
fn space_at(t: &Tables, reach: Reach, name: &[u8]) -> Result<Option<SpaceId>, AllocError>
    ensures { IfOk result (λ space. option_map number_of space
        ≡ space_named t.now reach (Some name.now)) }
{
    match if_below(reach.spaces, t.spaces.index_of(name)) {
        Some(i) => {
            let number = small(i)?;
            Ok(Some(SpaceId(number)))
        }
        None => Ok(None),
    }
}

/// The number of a written space.
pub fn space_named(
    t: &Tables,
    reach: Reach,
    name: Option<&[u8]>,
) -> Result<Option<SpaceId>, AllocError>
    ensures { IfOk result (λ space. option_map number_of space
        ≡ space_named t.now reach (option_map bytes name.entry)) }
{
    match name {
        Some(name) => space_at(t, reach, name),
        None => Ok(None),
    }
}

/// The number of a user operation.
pub fn userop_named(t: &Tables, reach: Reach, name: &[u8]) -> Result<Option<UserId>, AllocError>
    ensures { IfOk result (λ op. option_map (λ u. u.0) op ≡ userop_named t.now reach name.now) }
{
    match if_below(reach.userops, t.userops.index_of(name)) {
        Some(i) => {
            let number = small(i)?;
            Ok(Some(UserId(number)))
        }
        None => Ok(None),
    }
}

/// Adds a name with what it stands for, if it isn't there.
pub fn add_symbol<'a>(
    own: &mut Named<'a, NamedSymbol<'a>>,
    name: &'a [u8],
    symbol: Symbol,
) -> Result<(), AllocError>
    ensures { OnOk result (own.new ≡ with_symbol own.old name.now (symbol_of symbol)) }
{
    if own.has(name) {
        return Ok(());
    }
    own.add(name, NamedSymbol { name, symbol })
}

impl<'a> Names<'a> {
    /// What a name stands for.
    pub fn symbol_named(&self, t: &Tables, name: &[u8]) -> Option<Symbol>
        ensures { option_map symbol_of result ≡ symbol_named t.now self.now name.now }
    {
        match self.own.get(name) {
            Some(entry) => Some(entry.symbol),
            None => global_symbol(t, self.reach, name),
        }
    }

    /// What a name stands for, 0 where it stands for nothing.
    pub fn known_symbol(&self, t: &Tables, name: &[u8]) -> Symbol
        ensures { symbol_of result ≡ known_symbol t.now self.now name.now }
    {
        match self.symbol_named(t, name) {
            Some(symbol) => symbol,
            None => Symbol::Integer(0),
        }
    }
}
