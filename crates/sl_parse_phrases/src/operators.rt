//! The operators of expressions.

ghost use Rattle.std.specs.Prelude.{◌≡◌};
ghost use Rattle.sl_ast.specs.Operators as spec;
ghost use Rattle.sl_parse_grammar.specs.Expressions as reader;
ghost use Rattle.sl_parse_phrases.specs.Kinds.{kind_of};

use sl_ast::expressions::BinaryOp;
use sl_ast::symbols::Mark;

/// Where an expression stands.
#[derive(Clone, Copy, Debug, PartialEq, Eq)]
pub enum Kind {
    /// In a semantic section or a macro.
    Section,
    /// In a disassembly action.
    Action,
    /// In a constraint of a bit pattern.
    Constraint,
}

/// Whether an expression stands in a semantic section.
pub fn is_section(kind: Kind) -> bool
    ensures { result ≡ spec.is_section (kind_of kind) }
{
    matches!(kind, Kind::Section)
}

/// The operator that the mark is between two operands.
pub fn binary_op(mark: Mark) -> Option<BinaryOp>
    ensures { result ≡ reader.binary_of mark }
{
    Some(match mark {
        Mark::Star => BinaryOp::Multiply,
        Mark::Slash => BinaryOp::Divide,
        Mark::Percent => BinaryOp::Remainder,
        Mark::SignedSlash => BinaryOp::SignedDivide,
        Mark::SignedPercent => BinaryOp::SignedRemainder,
        Mark::Plus => BinaryOp::Add,
        Mark::Minus => BinaryOp::Subtract,
        Mark::ShiftLeft => BinaryOp::ShiftLeft,
        Mark::ShiftRight => BinaryOp::ShiftRight,
        Mark::SignedShiftRight => BinaryOp::SignedShiftRight,
        Mark::Less => BinaryOp::Less,
        Mark::LessEqual => BinaryOp::LessEqual,
        Mark::Greater => BinaryOp::Greater,
        Mark::GreaterEqual => BinaryOp::GreaterEqual,
        Mark::SignedLess => BinaryOp::SignedLess,
        Mark::SignedLessEqual => BinaryOp::SignedLessEqual,
        Mark::SignedGreater => BinaryOp::SignedGreater,
        Mark::SignedGreaterEqual => BinaryOp::SignedGreaterEqual,
        Mark::EqualEqual => BinaryOp::Equal,
        Mark::NotEqual => BinaryOp::NotEqual,
        Mark::Ampersand => BinaryOp::And,
        Mark::Caret => BinaryOp::Xor,
        Mark::Bar => BinaryOp::Or,
        Mark::AndAnd => BinaryOp::BooleanAnd,
        Mark::CaretCaret => BinaryOp::BooleanXor,
        Mark::BarBar => BinaryOp::BooleanOr,
        Mark::WordAnd => BinaryOp::WordAnd,
        Mark::WordXor => BinaryOp::WordXor,
        Mark::WordOr => BinaryOp::WordOr,
        _ => return None,
    })
}

/// The loosest rank of the operator's right operand.
pub fn right_rank(op: BinaryOp) -> u8
    ensures { result ≡ spec.right_rank op }
{
    match op {
        BinaryOp::Multiply
        | BinaryOp::Divide
        | BinaryOp::Remainder
        | BinaryOp::SignedDivide
        | BinaryOp::SignedRemainder => 0,
        BinaryOp::Add | BinaryOp::Subtract => 1,
        BinaryOp::ShiftLeft | BinaryOp::ShiftRight | BinaryOp::SignedShiftRight => 2,
        BinaryOp::Less
        | BinaryOp::LessEqual
        | BinaryOp::Greater
        | BinaryOp::GreaterEqual
        | BinaryOp::SignedLess
        | BinaryOp::SignedLessEqual
        | BinaryOp::SignedGreater
        | BinaryOp::SignedGreaterEqual => 3,
        BinaryOp::Equal | BinaryOp::NotEqual => 4,
        BinaryOp::And | BinaryOp::WordAnd => 5,
        BinaryOp::Xor | BinaryOp::WordXor => 6,
        BinaryOp::Or | BinaryOp::WordOr => 7,
        BinaryOp::BooleanAnd | BinaryOp::BooleanXor => 8,
        BinaryOp::BooleanOr => 9,
    }
}

/// Whether an expression that stands there has the operator.
pub fn has_operator(kind: Kind, op: BinaryOp) -> bool
    ensures { result ≡ spec.has_operator (kind_of kind) op }
{
    match op {
        BinaryOp::Multiply
        | BinaryOp::Divide
        | BinaryOp::Add
        | BinaryOp::Subtract
        | BinaryOp::ShiftLeft
        | BinaryOp::ShiftRight => true,
        BinaryOp::And | BinaryOp::Xor | BinaryOp::Or => !matches!(kind, Kind::Constraint),
        BinaryOp::WordAnd | BinaryOp::WordXor | BinaryOp::WordOr => !is_section(kind),
        _ => is_section(kind),
    }
}
