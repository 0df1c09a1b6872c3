//! Bit ranges: rule 8, and what they add.

ghost use Rattle.std.specs.Prelude.{◌≡◌, ◌≤◌, ◌++◌, true, OnOk, IfOk, map};
ghost use Rattle.std.specs.List.{list_all};
ghost use Rattle.sl_ast.specs.Views.{bit_range_of as seen};
ghost use Rattle.sl_spec_rules.specs.Demands.{Gives};
ghost use Rattle.sl_spec_rules.specs.Names.{differ_behind};
ghost use Rattle.sl_spec.specs.Named.{named};
ghost use Rattle.sl_spec_registers.specs.Bits.{bits_in};
ghost use Rattle.sl_spec_registers.specs.RegisterRules.{bit_range_names, bit_range_of};
ghost use Rattle.sl_spec_registers.specs.RegisterRules.{bit_range_step};
ghost use Rattle.sl_spec_registers.specs.RegisterRules.{is_bit_range};

use crate::names::are_new;
use crate::registers::register_number;
use sl_ast::definitions as tree;
use sl_spec::{BitRange, Named, RegId, Register, Tables};
use sl_spec_rules::Fault;
use std::alloc::{AllocError, Global};

/// How many bits a register has; 0 where there is none of this name.
fn bits_in<'a>(registers: &Named<'a, Register<'a>>, name: &[u8]) -> u64
    ensures is { result ≡ bits_in (named (λ r. r.name) name.now registers.now) }
    ensures most { result ≤ 128 }
{
    match registers.get(name) {
        Some(register) => 8 * u64::from(register.size.get()),
        None => 0,
    }
}

/// Rule 8: the register is defined, the count at least 1, and the bits are its bits.
fn is_bit_range<'a>(registers: &Named<'a, Register<'a>>, of: &tree::BitRange) -> bool
    ensures { result ≡ is_bit_range registers.now (seen of.now) }
{
    let bits = u128::from(bits_in(registers, of.register));
    1 <= of.count && u128::from(of.low) + u128::from(of.count) <= bits
}

fn all_bit_ranges<'a>(registers: &Named<'a, Register<'a>>, given: &[tree::BitRange]) -> bool
    ensures { result ≡ list_all (λ r. is_bit_range registers.now (seen r)) given.now }
{
    given.iter().all(|r| is_bit_range(registers, r))
}

/// Adds bit ranges whose names are new.
fn add<'a>(
    bitranges: &mut Named<'a, BitRange<'a>>,
    registers: &Named<'a, Register<'a>>,
    given: &[tree::BitRange<'a>],
) -> Result<(), AllocError>
    requires within { list_all (is_bit_range registers.now) (map seen given.now) ≡ true }
    requires fresh { differ_behind (map (λ r. r.name) bitranges.old)
        (bit_range_names (map seen given.now)) ≡ true }
    ensures { OnOk result (bitranges.new
        ≡ bitranges.old ++ map (bit_range_of registers.now) (map seen given.now)) }
{
    'places: for index in 0..given.len() {
        let of = &given[index];
        let _bits = bits_in(registers, of.register);
        let number = register_number(registers, of.register)?;
        let added = BitRange {
            name: of.name,
            register: number.unwrap_or(RegId(0)),
            low: of.low as u32,
            count: of.count as u32,
        };
        bitranges.add(of.name, added)?;
    }
    Ok(())
}

/// The names of bit ranges.
fn bit_range_names<'a>(
    alloc: Global,
    given: &[tree::BitRange<'a>],
) -> Result<Vec<&'a [u8]>, AllocError>
    ensures { IfOk result (λ names. map (λ n. n.now) names.items
        ≡ bit_range_names (map seen given.now)) }
{
    let mut names = Vec::new(alloc);
    'places: for index in 0..given.len() {
        let name = given[index].name;
        names.push(name)?;
    }
    Ok(names)
}

/// Defines bit ranges (SLEIGH manual, "Bit Range Registers").
#[tactic(auto, using(sl_spec_rules::proofs::Seen::seen))]
pub fn define_bit_ranges<'a>(
    alloc: Global,
    t: &mut Tables<'a>,
    given: &[tree::BitRange<'a>],
) -> Result<(), Fault>
    ensures { Gives (λ _. t.new) result (bit_range_step t.old (map seen given.now)) }
{
    let names = bit_range_names(alloc, given)?;
    if !are_new(alloc, t, names.as_slice())? {
        return Err(Fault::Rule(3));
    }
    if !all_bit_ranges(&t.registers, given) {
        return Err(Fault::Rule(8));
    }
    add(&mut t.bitranges, &t.registers, given)?;
    Ok(())
}
