//! What definitions define.

use crate::ids::{FieldId, RegId};
use crate::named::Entry;
use sl_word::{Endian, Size, SpaceId};
use std::marker::Model;
use std::rc::Rc;

/// The kinds of address spaces (SLEIGH manual, "Space Definitions").
#[derive(Clone, Copy, Debug, PartialEq, Eq)]
pub enum SpaceKind {
    Ram,
    Rom,
    Register,
}

/// An address space. Its addresses have `size` bytes, 1 to 8.
#[derive(Debug, Drop)]
pub struct Space<'a> {
    pub name: &'a [u8],
    pub kind: SpaceKind,
    pub size: u8,
    pub default: bool,
}

impl<'a> Model for Space<'a> {
    ghost use Rattle.std.specs.Prelude.{◌≤◌};
    ghost use Rattle.sl_spec.specs.Tables as spec;

    ghost Value = { spec.Space };

    ghost view = { λ s. record {
      name = s.name.now;
      kind = s.kind;
      size = s.size;
      default = s.default;
    } };

    ghost invariant = { λ s. (1 ≤ s.size) × (s.size ≤ 8) };
}

impl<'a> Entry for Space<'a> {
    ghost name_of = { λ s. s.name };
}

/// A register (SLEIGH manual, "Naming Registers"): `size` bytes from `offset` on in a space.
#[derive(Debug, Drop)]
pub struct Register<'a> {
    pub name: &'a [u8],
    pub space: SpaceId,
    pub offset: u64,
    pub size: Size,
}

impl<'a> Model for Register<'a> {
    ghost use Rattle.sl_spec.specs.Tables as spec;

    ghost Value = { spec.Register };

    ghost view = { λ r. record {
      name = r.name.now;
      space = r.space.0;
      offset = r.offset;
      size = r.size.bytes;
    } };
}

impl<'a> Entry for Register<'a> {
    ghost name_of = { λ r. r.name };
}

/// A bit range (SLEIGH manual, "Bit Range Registers"): `count` bits of a register from bit `low`
/// on.
#[derive(Debug, Drop)]
pub struct BitRange<'a> {
    pub name: &'a [u8],
    pub register: RegId,
    pub low: u32,
    pub count: u32,
}

impl<'a> Model for BitRange<'a> {
    ghost use Rattle.sl_spec.specs.Tables as spec;

    ghost Value = { spec.BitRange };

    ghost view = { λ r. record {
      name = r.name.now;
      register = r.register;
      low = r.low;
      count = r.count;
    } };
}

impl<'a> Entry for BitRange<'a> {
    ghost name_of = { λ r. r.name };
}

/// A token (SLEIGH manual, "Defining Tokens and Fields"): 8 to 64 bits, a multiple of 8. Its byte
/// order is the specification's where it has none of its own.
#[derive(Debug, Drop)]
pub struct Token<'a> {
    pub name: &'a [u8],
    pub bits: u8,
    pub endian: Endian,
}

impl<'a> Model for Token<'a> {
    ghost use Rattle.std.specs.Prelude.{◌≤◌, ◌≡◌, ◌%◌};
    ghost use Rattle.sl_spec.specs.Tables as spec;

    ghost Value = { spec.Token };

    ghost view = { λ t. record { name = t.name.now; bits = t.bits; endian = t.endian } };

    ghost invariant = { λ t. (8 ≤ t.bits) × (t.bits ≤ 64) × (t.bits % 8 ≡ 0) };
}

impl<'a> Entry for Token<'a> {
    ghost name_of = { λ t. t.name };
}

/// A field of a token, or of the context where `token` is `None`: the bits from `low` to `high`,
/// bit 0 the least significant. Without `dec` it is shown in hexadecimal. What a `globalset` sets
/// of a field with `noflow` doesn't flow on to later addresses.
#[derive(Debug, Drop)]
pub struct Field<'a> {
    pub name: &'a [u8],
    pub token: Option<u32>,
    pub low: u8,
    pub high: u8,
    pub signed: bool,
    pub dec: bool,
    pub noflow: bool,
}

impl<'a> Model for Field<'a> {
    ghost use Rattle.std.specs.Prelude.{◌≤◌};
    ghost use Rattle.sl_spec.specs.Tables as spec;

    ghost Value = { spec.Field };

    ghost view = { λ f. record {
      name = f.name.now;
      token = f.token;
      low = f.low;
      high = f.high;
      signed = f.signed;
      dec = f.dec;
      noflow = f.noflow;
    } };

    ghost invariant = { λ f. (f.low ≤ f.high) × (f.high ≤ 63) };
}

impl<'a> Entry for Field<'a> {
    ghost name_of = { λ f. f.name };
}

/// What is attached to each value of a field (SLEIGH manual, "Attaching Registers" and the sections
/// after it), `None` for `_`.
#[derive(Debug, Drop)]
pub enum Entries<'a> {
    Registers(Vec<Option<RegId>>),
    /// Texts without their quotes.
    Texts(Vec<Option<&'a [u8]>>),
    Values(Vec<Option<i64>>),
}

/// A field with what is attached to it. Fields of one list share its entries.
#[derive(Drop)]
pub struct Attached<'a> {
    pub field: FieldId,
    pub entries: Rc<Entries<'a>>,
}

impl<'a> Model for Attached<'a> {
    ghost use Rattle.sl_spec.specs.Tables as spec;

    ghost Value = { spec.Attached };

    ghost use Rattle.sl_spec.specs.Views.{entries_of};

    ghost view = { λ a. record { field = a.field; entries = entries_of a.entries.value } };
}
