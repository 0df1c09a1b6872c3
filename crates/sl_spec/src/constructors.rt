//! Tables of constructors, macros and user operations.

use crate::ids::{CtorId, FieldId, TableId};
use crate::named::Entry;
use std::marker::Model;

/// A table with its constructors in the order of the text (SLEIGH manual, "Tables").
#[derive(Debug, Drop)]
pub struct Table<'a> {
    pub name: &'a [u8],
    pub constructors: Vec<CtorId>,
}

impl<'a> Model for Table<'a> {
    ghost use Rattle.sl_spec.specs.Tables as spec;

    ghost Value = { spec.Table };

    ghost view = { λ t. record { name = t.name.now; constructors = t.constructors.items } };
}

impl<'a> Entry for Table<'a> {
    ghost name_of = { λ t. t.name };
}

/// What an operand means. Action names count from 0 in the order of the text.
#[derive(Clone, Copy, Debug, PartialEq, Eq)]
pub enum Means {
    Field(FieldId),
    Table(TableId),
    Action(u32),
}

/// An operand of a constructor: a bare name of its pattern, or a name that its actions set.
#[derive(Debug, Drop)]
pub struct Operand<'a> {
    pub name: &'a [u8],
    pub means: Means,
}

impl<'a> Model for Operand<'a> {
    ghost use Rattle.sl_spec.specs.Tables as spec;

    ghost Value = { spec.Operand };

    ghost view = { λ o. record { name = o.name.now; means = o.means } };
}

/// A constructor. Its operands are the bare names of its pattern, in the pattern's order, and then
/// its action names. `item` is its item's number among all items, a `with` block counting before
/// what is inside it.
#[derive(Debug, Drop)]
pub struct Ctor<'a> {
    pub table: TableId,
    pub item: u32,
    pub operands: Vec<Operand<'a>>,
}

impl<'a> Model for Ctor<'a> {
    ghost use Rattle.sl_spec.specs.Tables as spec;

    ghost Value = { spec.Ctor };

    ghost view = { λ c. record { table = c.table; item = c.item; operands = c.operands.items } };
}

/// A macro (SLEIGH manual, "P-code Macros"), by the number of its item among all items.
#[derive(Debug, Drop)]
pub struct Macro<'a> {
    pub name: &'a [u8],
    pub item: u32,
}

impl<'a> Model for Macro<'a> {
    ghost use Rattle.sl_spec.specs.Tables as spec;

    ghost Value = { spec.Macro };

    ghost view = { λ m. record { name = m.name.now; item = m.item } };
}

impl<'a> Entry for Macro<'a> {
    ghost name_of = { λ m. m.name };
}

/// A user-defined operation (SLEIGH manual, "User-Defined Operations").
#[derive(Debug, Drop)]
pub struct UserOp<'a> {
    pub name: &'a [u8],
}

impl<'a> Model for UserOp<'a> {
    ghost use Rattle.sl_spec.specs.Tables as spec;

    ghost Value = { spec.UserOp };

    ghost view = { λ u. record { name = u.name.now } };
}

impl<'a> Entry for UserOp<'a> {
    ghost name_of = { λ u. u.name };
}
