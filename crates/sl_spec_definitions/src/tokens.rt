//! Tokens and their fields: rules 9, 10 and 12, and what they add.

ghost use Rattle.std.specs.Prelude.{◌≡◌, ◌≤◌, ◌++◌, ◌∷◌, ◌%◌, true, false, OnOk, IfOk};
ghost use Rattle.std.specs.Prelude.{map, length, Some, Ok};
ghost use Rattle.std.specs.List.{list_all};
ghost use Rattle.sl_ast.specs.Views.{field_of as seen};
ghost use Rattle.sl_spec_rules.specs.Demands.{Gives};
ghost use Rattle.sl_spec_rules.specs.Names.{differ_behind};
ghost use Rattle.sl_spec_definitions.specs.FieldRules.{endian_of, field_names, field_of};
ghost use Rattle.sl_spec_definitions.specs.FieldRules.{is_in_order};
ghost use Rattle.sl_spec_definitions.specs.FieldRules.{is_token_field, is_width, token_order, token_step};
ghost use Rattle.sl_spec_definitions.specs.FieldRules.{has_attributes_once, with_token};
ghost use Rattle.sl_spec.specs.Named.{has_name};
ghost use Rattle.sl_spec_definitions.specs.Fits.{all_fit};

use crate::attributes::{self, has_dec, has_noflow, has_signed};
use sl_ast::definitions as tree;
use sl_ast::definitions::ByteOrder;
use sl_spec::{Field, Named, Tables, Token};
use sl_spec_registers::are_new;
use sl_spec_rules::Fault;
use sl_word::Endian;
use std::alloc::{AllocError, Global};

/// Rule 9: a token has 8 to 64 bits, a multiple of 8.
fn is_width(bits: u64) -> bool
    ensures is { result ≡ is_width bits }
    ensures least { result ≡ true → 8 ≤ bits }
    ensures bytes { result ≡ true → bits % 8 ≡ 0 }
    ensures most { result ≡ true → bits ≤ 64 }
{
    8 <= bits && bits <= 64 && bits % 8 == 0
}

fn all_token_fields(bits: u64, fields: &[tree::Field]) -> bool
    ensures { result ≡ list_all (λ f. is_token_field bits (seen f)) fields.now }
{
    fields.iter().all(|f| attributes::is_token_field(bits, f))
}

pub fn all_in_order(fields: &[tree::Field]) -> bool
    ensures { result ≡ list_all (λ f. is_in_order (seen f)) fields.now }
{
    fields.iter().all(|f| attributes::is_in_order(f))
}

pub fn all_attributes_once(fields: &[tree::Field]) -> bool
    ensures { result ≡ list_all (λ f. has_attributes_once (seen f)) fields.now }
{
    fields.iter().all(|f| attributes::has_attributes_once(f))
}

/// The byte order that is written.
pub fn endian_of(order: ByteOrder) -> Endian
    ensures { result ≡ endian_of order }
{
    match order {
        ByteOrder::Big => Endian::Big,
        ByteOrder::Little => Endian::Little,
    }
}

/// The token's own byte order, or else that of the specification.
fn token_order(t: &Tables, own: Option<ByteOrder>) -> Endian
    ensures { result ≡ token_order t.now own }
{
    match own {
        Some(own) => endian_of(own),
        None => t.endian,
    }
}

/// The field that a field of the text is.
fn field_of<'a>(token: Option<u32>, of: &tree::Field<'a>) -> Field<'a>
    requires order { of.now.low ≤ of.now.high }
    requires most { of.now.high ≤ 63 }
    ensures { result ≡ field_of token (seen of.now) }
{
    Field {
        name: of.name,
        token,
        low: of.low as u8,
        high: of.high as u8,
        signed: has_signed(of),
        dec: has_dec(of),
        noflow: has_noflow(of),
    }
}

/// Adds the names of fields to names.
pub fn add_names<'a>(
    names: &mut Vec<&'a [u8]>,
    fields: &[tree::Field<'a>],
) -> Result<(), AllocError>
    ensures { OnOk result (map (λ n. n.now) names.new.items
        ≡ map (λ n. n.now) names.old.items ++ field_names (map seen fields.now)) }
{
    'fields: for index in 0..fields.len() {
        let name = fields[index].name;
        names.push(name)?;
    }
    Ok(())
}

/// Adds fields whose names are new.
pub fn add<'a>(
    fields: &mut Named<'a, Field<'a>>,
    token: Option<u32>,
    given: &[tree::Field<'a>],
) -> Result<(), AllocError>
    requires fit { all_fit (map seen given.now) ≡ true }
    requires fresh { differ_behind (map (λ f. f.name) fields.old)
        (field_names (map seen given.now)) ≡ true }
    ensures { OnOk result (fields.new ≡ fields.old ++ map (field_of token) (map seen given.now)) }
{
    'fields: for index in 0..given.len() {
        let of = &given[index];
        fields.add(of.name, field_of(token, of))?;
    }
    Ok(())
}

/// The name of a token and those of its fields.
fn token_names<'a>(
    alloc: Global,
    name: &'a [u8],
    fields: &[tree::Field<'a>],
) -> Result<Vec<&'a [u8]>, AllocError>
    ensures { IfOk result (λ names. map (λ n. n.now) names.items
        ≡ name.now ∷ field_names (map seen fields.now)) }
{
    let mut names = Vec::new(alloc);
    names.push(name)?;
    add_names(&mut names, fields)?;
    Ok(names)
}

/// The number of the next token. 2^32 tokens would be want of memory.
fn next_token(t: &Tables) -> Result<u32, AllocError>
    ensures { IfOk result (λ n. n ≡ length t.now.tokens) }
{
    match u32::try_from(t.tokens.len()) {
        Ok(number) => Ok(number),
        Err(_) => Err(AllocError),
    }
}

/// Adds a token with its fields.
fn add_token<'a>(
    t: &mut Tables<'a>,
    name: &'a [u8],
    bits: u8,
    endian: Endian,
    fields: &[tree::Field<'a>],
) -> Result<(), Fault>
    requires least { 8 ≤ bits }
    requires most { bits ≤ 64 }
    requires bytes { bits % 8 ≡ 0 }
    requires free { has_name (λ k. k.name) name.now t.old.tokens ≡ false }
    requires fit { all_fit (map seen fields.now) ≡ true }
    requires fresh { differ_behind (map (λ f. f.name) t.old.fields)
        (field_names (map seen fields.now)) ≡ true }
    ensures { Gives (λ _. t.new) result (Ok (with_token t.old
        (record { name = name.now; bits = bits; endian = endian })
        (map (field_of (Some (length t.old.tokens))) (map seen fields.now)))) }
{
    let number = next_token(t)?;
    t.tokens.add(name, Token { name, bits, endian })?;
    add(&mut t.fields, Some(number), fields)?;
    Ok(())
}

/// Defines a token with its fields (SLEIGH manual, "Defining Tokens and Fields"). Its byte order is
/// its own, or else that of the specification.
#[tactic(auto, using(sl_spec_rules::proofs::Seen::seen))]
pub fn define_token<'a>(
    alloc: Global,
    t: &mut Tables<'a>,
    name: &'a [u8],
    bits: u64,
    own: Option<ByteOrder>,
    fields: &[tree::Field<'a>],
) -> Result<(), Fault>
    ensures { Gives (λ _. t.new) result (token_step t.old name.now bits own (map seen fields.now)) }
{
    let names = token_names(alloc, name, fields)?;
    if !are_new(alloc, t, names.as_slice())? {
        return Err(Fault::Rule(3));
    }
    if !is_width(bits) {
        return Err(Fault::Rule(9));
    }
    if !all_token_fields(bits, fields) {
        return Err(Fault::Rule(10));
    }
    if !all_attributes_once(fields) {
        return Err(Fault::Rule(12));
    }
    let endian = token_order(t, own);
    add_token(t, name, bits as u8, endian, fields)
}
