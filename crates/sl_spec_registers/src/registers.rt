//! Registers: rules 6 and 7, and what they add.

ghost use Rattle.std.specs.Prelude.{◌≡◌, ◌+◌, ◌*◌, ◌++◌, ◌≤◌, ◌^◌, true, OnOk, IfOk};
ghost use Rattle.std.specs.Prelude.{length, map, unwrap_or};
ghost use Rattle.sl_spec_rules.specs.Demands.{Gives};
ghost use Rattle.sl_spec_rules.specs.Names.{differ_behind};
ghost use Rattle.sl_spec.specs.Named.{index_named, named};
ghost use Rattle.sl_spec_registers.specs.RegisterRules.{ends_within, given_names};
ghost use Rattle.sl_spec_registers.specs.RegisterRules.{has_space_and_size};
ghost use Rattle.sl_spec_registers.specs.RegisterRules.{is_skipped, laid, register_step};

use crate::names::are_new;
use sl_spec::{Named, RegId, Register, Space, Tables};
use sl_spec_rules::Fault;
use sl_word::{Size, SpaceId};
use std::alloc::{AllocError, Global};

/// Whether the name is `_`, which names no register and skips a place.
pub fn is_skipped(name: &[u8]) -> bool
    ensures { result ≡ is_skipped name.now }
{
    name == b"_".as_slice()
}

/// The names that are given to registers.
fn given_names<'a>(alloc: Global, names: &[&'a [u8]]) -> Result<Vec<&'a [u8]>, AllocError>
    ensures { IfOk result (λ given. map (λ n. n.now) given.items
        ≡ given_names (map (λ n. n.now) names.now)) }
{
    let mut given = Vec::new(alloc);
    'names: for index in 0..names.len() {
        let name = names[index];
        if is_skipped(name) {
            continue;
        }
        given.push(name)?;
    }
    Ok(given)
}

/// Rule 6: the space is defined, and the size is 1 to 16.
fn has_space_and_size(t: &Tables, space: &[u8], size: u64) -> bool
    ensures is { result ≡ has_space_and_size t.now space.now size }
    ensures some { result ≡ true → 1 ≤ size }
    ensures most { result ≡ true → size ≤ 16 }
{
    t.spaces.has(space) && 1 <= size && size <= 16
}

/// How many bytes a space has.
fn end_of(space: &Space) -> u128
    ensures end { result ≡ 256 ^ space.now.size }
    ensures most { result ≤ 2 ^ 64 }
{
    1 << (8 * space.size)
}

/// Rule 7: all places end within the space.
fn ends_within(t: &Tables, space: &[u8], offset: u64, size: u64, places: usize) -> bool
    requires { size ≤ 16 }
    ensures is { result
        ≡ ends_within (named (λ s. s.name) space.now t.now.spaces) offset size places }
    ensures room { result ≡ true → offset + size * places ≤ 2 ^ 64 }
{
    match t.spaces.get(space) {
        Some(space) => u128::from(offset) + u128::from(size) * places as u128 <= end_of(space),
        None => false,
    }
}

/// Adds registers of one size with new names, one behind the other from an offset on.
fn lay<'a>(
    registers: &mut Named<'a, Register<'a>>,
    space: u32,
    offset: u64,
    size: Size,
    names: &[&'a [u8]],
) -> Result<(), AllocError>
    requires room { offset + size.bytes * length names.now ≤ 2 ^ 64 }
    requires fresh { differ_behind (map (λ r. r.name) registers.old)
        (given_names (map (λ n. n.now) names.now)) ≡ true }
    ensures { OnOk result (registers.new
        ≡ registers.old ++ laid space offset size.bytes (map (λ n. n.now) names.now)) }
{
    'places: for place in 0..names.len() {
        let name = names[place];
        if is_skipped(name) {
            continue;
        }
        let register = Register {
            name,
            space: SpaceId(space),
            offset: offset + u64::from(size.get()) * place as u64,
            size,
        };
        registers.add(name, register)?;
    }
    Ok(())
}

/// The index of a space; 0 where there is none. 2^32 spaces would be want of memory.
fn space_number(t: &Tables, space: &[u8]) -> Result<u32, AllocError>
    ensures { IfOk result (λ n.
        n ≡ unwrap_or (index_named (λ s. s.name) space.now t.now.spaces) 0) }
{
    match t.spaces.index_of(space) {
        Some(index) => match u32::try_from(index) {
            Ok(number) => Ok(number),
            Err(_) => Err(AllocError),
        },
        None => Ok(0),
    }
}

/// The number of a register, from 0 on in the order of the text; none where `name` is no register.
/// 2^32 registers would be want of memory.
pub fn register_number<'a>(
    registers: &Named<'a, Register<'a>>,
    name: &[u8],
) -> Result<Option<RegId>, AllocError>
    ensures { IfOk result (λ n. n ≡ index_named (λ r. r.name) name.now registers.now) }
{
    match registers.index_of(name) {
        Some(index) => match u32::try_from(index) {
            Ok(number) => Ok(Some(RegId(number))),
            Err(_) => Err(AllocError),
        },
        None => Ok(None),
    }
}

/// Defines registers (SLEIGH manual, "Naming Registers").
#[tactic(auto, using(crate::proofs::FreshLemmas::are_free))]
pub fn define_registers<'a>(
    alloc: Global,
    t: &mut Tables<'a>,
    space: &[u8],
    offset: u64,
    size: u64,
    names: &[&'a [u8]],
) -> Result<(), Fault>
    ensures { Gives (λ _. t.new) result
        (register_step t.old space.now offset size (map (λ n. n.now) names.now)) }
{
    let given = given_names(alloc, names)?;
    if !are_new(alloc, t, given.as_slice())? {
        return Err(Fault::Rule(3));
    }
    if !has_space_and_size(t, space, size) {
        return Err(Fault::Rule(6));
    }
    if !ends_within(t, space, offset, size, names.len()) {
        return Err(Fault::Rule(7));
    }
    let number = space_number(t, space)?;
    let size = Size::new(size as u8).unwrap();
    lay(&mut t.registers, number, offset, size, names)?;
    Ok(())
}
