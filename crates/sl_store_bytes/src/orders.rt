//! The bytes of byte orders, attributes, kinds, relations and operators.

use crate::tables::Coded;
use sl_ast::definitions::{AttachKind, ByteOrder, FieldAttribute};
use sl_ast::expressions::{BinaryOp, PrefixOp};
use sl_ast::patterns::Relation;

static BYTE_ORDERS: [ByteOrder; 2] = [ByteOrder::Big, ByteOrder::Little];

static FIELD_ATTRIBUTES: [FieldAttribute; 4] = [
    FieldAttribute::Signed,
    FieldAttribute::Hex,
    FieldAttribute::Dec,
    FieldAttribute::NoFlow,
];

static ATTACH_KINDS: [AttachKind; 3] = [
    AttachKind::Variables,
    AttachKind::Names,
    AttachKind::Values,
];

static RELATIONS: [Relation; 6] = [
    Relation::Equal,
    Relation::NotEqual,
    Relation::Less,
    Relation::LessEqual,
    Relation::Greater,
    Relation::GreaterEqual,
];

static PREFIXES: [PrefixOp; 3] = [PrefixOp::Negate, PrefixOp::Complement, PrefixOp::Not];

static OPERATORS: [BinaryOp; 29] = [
    BinaryOp::Multiply,
    BinaryOp::Divide,
    BinaryOp::Remainder,
    BinaryOp::SignedDivide,
    BinaryOp::SignedRemainder,
    BinaryOp::Add,
    BinaryOp::Subtract,
    BinaryOp::ShiftLeft,
    BinaryOp::ShiftRight,
    BinaryOp::SignedShiftRight,
    BinaryOp::Less,
    BinaryOp::LessEqual,
    BinaryOp::Greater,
    BinaryOp::GreaterEqual,
    BinaryOp::SignedLess,
    BinaryOp::SignedLessEqual,
    BinaryOp::SignedGreater,
    BinaryOp::SignedGreaterEqual,
    BinaryOp::Equal,
    BinaryOp::NotEqual,
    BinaryOp::And,
    BinaryOp::Xor,
    BinaryOp::Or,
    BinaryOp::BooleanAnd,
    BinaryOp::BooleanXor,
    BinaryOp::BooleanOr,
    BinaryOp::WordAnd,
    BinaryOp::WordXor,
    BinaryOp::WordOr,
];

impl Coded for ByteOrder {
    ghost use Rattle.sl_store_bytes.specs.Orders.{byte_orders, order_code};

    ghost table = { byte_orders };

    ghost code = { order_code };

    fn table() -> &'static [ByteOrder] {
        &BYTE_ORDERS
    }

    fn code(&self) -> u8 {
        *self as u8
    }
}

impl Coded for FieldAttribute {
    ghost use Rattle.sl_store_bytes.specs.Orders.{field_attributes, attribute_code};

    ghost table = { field_attributes };

    ghost code = { attribute_code };

    fn table() -> &'static [FieldAttribute] {
        &FIELD_ATTRIBUTES
    }

    fn code(&self) -> u8 {
        *self as u8
    }
}

impl Coded for AttachKind {
    ghost use Rattle.sl_store_bytes.specs.Orders.{attach_kinds, kind_code};

    ghost table = { attach_kinds };

    ghost code = { kind_code };

    fn table() -> &'static [AttachKind] {
        &ATTACH_KINDS
    }

    fn code(&self) -> u8 {
        *self as u8
    }
}

impl Coded for Relation {
    ghost use Rattle.sl_store_bytes.specs.Orders.{relations, relation_code};

    ghost table = { relations };

    ghost code = { relation_code };

    fn table() -> &'static [Relation] {
        &RELATIONS
    }

    fn code(&self) -> u8 {
        *self as u8
    }
}

impl Coded for PrefixOp {
    ghost use Rattle.sl_store_bytes.specs.Orders.{prefixes, prefix_code};

    ghost table = { prefixes };

    ghost code = { prefix_code };

    fn table() -> &'static [PrefixOp] {
        &PREFIXES
    }

    fn code(&self) -> u8 {
        *self as u8
    }
}

impl Coded for BinaryOp {
    ghost use Rattle.sl_store_bytes.specs.Orders.{operators, operator_code};

    ghost table = { operators };

    ghost code = { operator_code };

    fn table() -> &'static [BinaryOp] {
        &OPERATORS
    }

    fn code(&self) -> u8 {
        *self as u8
    }
}
