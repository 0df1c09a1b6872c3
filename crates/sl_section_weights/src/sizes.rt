//! How many tokens expressions have.

ghost use Rattle.std.specs.Prelude.{◌≡◌, ◌≤◌, ◌+◌, max, min};
ghost use Rattle.sl_ast.specs.Views.{arguments, expression_of, expressions_of};
ghost use Rattle.sl_section_weights.specs.Sizes.{arguments_size, expression_size, if_written};
ghost use Rattle.sl_section_weights.specs.Sizes.{star_size};

use sl_ast::expressions::Expr;

/// One more than the limit: numbers above it needn't be told apart.
pub const ENOUGH: usize = 65_537;

/// The sum of two numbers, all those from 65,537 on alike.
pub fn sum(m: usize, n: usize) -> usize
    requires left { m ≤ 65537 }
    requires right { n ≤ 65537 }
    ensures { result ≡ min (m + n) 65537 }
{
    (m + n).min(ENOUGH)
}

/// The tokens of the parts of a star form before its pointer.
pub fn star_size(space: Option<&[u8]>, size: Option<u64>) -> usize
    ensures value { result ≡ star_size space.entry size }
    ensures few { result ≤ 6 }
{
    let space = if space.is_some() { 3 } else { 0 };
    let size = if size.is_some() { 2 } else { 0 };
    1 + space + size
}

/// The tokens of an expression.
pub fn expression_size(e: &Expr) -> usize
    ensures { result ≡ min (expression_size (expression_of e.now)) 65537 }
{
    match e {
        Expr::Integer(_) => 1,
        Expr::Name(_) => 1,
        Expr::Paren(e) => sum(expression_size(e), 2),
        Expr::Sized(e, _) => sum(expression_size(e), 2),
        Expr::Dropped(e, _) => sum(expression_size(e), 3),
        Expr::Bits(e, _, _) => sum(expression_size(e), 5),
        Expr::Prefix(_, e) => sum(expression_size(e), 1),
        Expr::Star(space, size, e) => sum(expression_size(e), star_size(*space, *size)),
        Expr::Binary(_, left, right) => {
            let right = sum(expression_size(right), 1);
            sum(expression_size(left), right)
        }
        Expr::Call(_, es) => {
            let es = es.as_slice();
            let mut size = 0;
            'arguments: for index in 0..es.len() {
                size = sum(size, sum(expression_size(&es[index]), 1));
            }
            sum(size.max(1), 2)
        }
    }
}

/// The tokens of the arguments of a statement, with a comma each.
pub fn arguments_size(es: &[Expr]) -> usize
    ensures { result ≡ min (arguments_size (arguments (expressions_of es.now))) 65537 }
{
    let mut size = 0;
    'arguments: for index in 0..es.len() {
        size = sum(size, sum(expression_size(&es[index]), 1));
    }
    size
}
