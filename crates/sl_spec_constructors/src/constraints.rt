//! The values of expressions in constraints: rule 20.

ghost use Rattle.std.specs.Prelude.{◌≡◌};
ghost use Rattle.sl_ast.specs.Views.{expression_of};
ghost use Rattle.sl_spec_constructors.specs.ConstraintValues.{both, constraint_value};

use sl_ast::expressions::Expr;
use sl_spec_operators::{literal, prefix_value, value_of};

/// The value of an expression in 64-bit two's complement. None where a divisor is 0, and of a form
/// that constraints lack.
#[tactic(auto, unfolding(crate::specs::ConstraintValues::constraint_value))]
pub fn constraint_value(e: &Expr) -> Option<i64>
    ensures { result ≡ constraint_value (expression_of e.now) }
{
    match e {
        Expr::Integer(n) => Some(literal(*n)),
        Expr::Paren(inner) => constraint_value(inner),
        Expr::Prefix(op, inner) => prefix_value(*op, constraint_value(inner)?),
        Expr::Binary(op, left, right) => {
            let left = constraint_value(left)?;
            let right = constraint_value(right)?;
            value_of(*op, left, right)
        }
        Expr::Name(_) => None,
        Expr::Call(_, _) => None,
        Expr::Sized(_, _) => None,
        Expr::Dropped(_, _) => None,
        Expr::Bits(_, _, _) => None,
        Expr::Star(_, _, _) => None,
    }
}
