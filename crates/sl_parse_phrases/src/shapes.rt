//! What may follow an expression, by its shape and rank.

ghost use Rattle.std.specs.Prelude.{◌≡◌};
ghost use Rattle.sl_ast.specs.Operators as spec;
ghost use Rattle.sl_ast.specs.Views.{expression_of};
ghost use Rattle.sl_parse_grammar.specs.Expressions as reader;
ghost use Rattle.sl_parse_grammar.specs.Reader.{first};
ghost use Rattle.sl_parse_phrases.specs.Kinds.{kind_of};

use crate::operators::{Kind, binary_op, has_operator, right_rank};
use crate::symbols::Symbols;
use sl_ast::expressions::{BinaryOp, Expr};
use sl_parse_terminals::Symbol;

/// The expression's rank: 0, or one more than its operator's right operand may have.
pub fn rank(e: &Expr) -> u8
    ensures { result ≡ spec.rank (expression_of e.now) }
{
    match e {
        Expr::Binary(op, _, _) => right_rank(*op) + 1,
        _ => 0,
    }
}

/// Whether `:n` may follow.
pub fn takes_size(e: &Expr) -> bool
    ensures { result ≡ spec.takes_size (expression_of e.now) }
{
    matches!(
        e,
        Expr::Integer(_) | Expr::Name(_) | Expr::Paren(_) | Expr::Call(_, _)
    )
}

/// Whether `[l,c]` may follow.
pub fn takes_bits(e: &Expr) -> bool
    ensures { result ≡ spec.takes_bits (expression_of e.now) }
{
    matches!(e, Expr::Name(_) | Expr::Paren(_) | Expr::Call(_, _))
}

/// Whether `(n)` may follow.
pub fn takes_drop(e: &Expr) -> bool
    ensures { result ≡ spec.takes_drop (expression_of e.now) }
{
    matches!(e, Expr::Paren(_) | Expr::Call(_, _))
}

/// The operator that comes next, if it may follow this expression at this rank.
#[tactic(auto, unfolding(sl_parse_grammar::specs::Expressions::turn))]
pub fn turn(symbols: &Symbols, kind: Kind, most: u8, left: &Expr) -> Option<BinaryOp>
    ensures { result ≡ reader.turn (kind_of kind) most (expression_of left.now) (first symbols.now.rest) }
{
    let Some(Symbol::Mark(mark)) = symbols.peek() else {
        return None;
    };
    let op = binary_op(mark)?;
    if has_operator(kind, op) && right_rank(op) < most && rank(left) <= left_rank(op) {
        Some(op)
    } else {
        None
    }
}

/// The loosest rank of the operator's left operand.
pub fn left_rank(op: BinaryOp) -> u8
    ensures { result ≡ spec.left_rank op }
{
    let right = right_rank(op);
    if right == 3 { 3 } else { right + 1 }
}
