//! The bytes of expressions.

ghost use Rattle.std.specs.Prelude.{◌≡◌, ◌++◌, IfOk};
ghost use Rattle.sl_ast.specs.Views.{expression_of};
ghost use Rattle.sl_store_format.specs.Expressions.{write_expression};

use crate::put::{Put, put_code, put_number_option, put_option};
use sl_ast::expressions::Expr;
use sl_store_bytes::{put_bytes, put_number};
use sl_store_format::forms::ExpressionForm;
use std::alloc::AllocError;

/// Writes an expression.
fn put_expression(out: &mut Vec<u8>, expression: &Expr<'_>) -> Result<(), AllocError>
    ensures { IfOk result (λ _. out.new.items ≡ out.old.items ++ write_expression (expression_of expression.now)) }
{
    match expression {
        Expr::Integer(number) => {
            put_code(out, ExpressionForm::Integer)?;
            put_number(out, *number)?;
        }
        Expr::Name(name) => {
            put_code(out, ExpressionForm::Name)?;
            put_bytes(out, name)?;
        }
        Expr::Paren(inner) => {
            put_code(out, ExpressionForm::Paren)?;
            put_expression(out, inner)?;
        }
        Expr::Call(name, given) => {
            put_code(out, ExpressionForm::Call)?;
            put_bytes(out, name)?;
            let arguments = given.as_slice();
            put_number(out, arguments.len() as u64)?;
            'rounds: for index in 0..arguments.len() {
                put_expression(out, &arguments[index])?;
            }
        }
        Expr::Sized(inner, size) => {
            put_code(out, ExpressionForm::Sized)?;
            put_expression(out, inner)?;
            put_number(out, *size)?;
        }
        Expr::Dropped(inner, count) => {
            put_code(out, ExpressionForm::Dropped)?;
            put_expression(out, inner)?;
            put_number(out, *count)?;
        }
        Expr::Bits(inner, low, count) => {
            put_code(out, ExpressionForm::Bits)?;
            put_expression(out, inner)?;
            put_number(out, *low)?;
            put_number(out, *count)?;
        }
        Expr::Prefix(op, inner) => {
            put_code(out, ExpressionForm::Prefix)?;
            put_code(out, *op)?;
            put_expression(out, inner)?;
        }
        Expr::Star(space, size, pointer) => {
            put_code(out, ExpressionForm::Star)?;
            put_option(out, space)?;
            put_number_option(out, size)?;
            put_expression(out, pointer)?;
        }
        Expr::Binary(op, left, right) => {
            put_code(out, ExpressionForm::Binary)?;
            put_code(out, *op)?;
            put_expression(out, left)?;
            put_expression(out, right)?;
        }
    }
    Ok(())
}

impl<'a> Put for Expr<'a> {
    ghost use Rattle.sl_ast.specs.Trees.{Expression};

    ghost Tree = { Expression };

    ghost view = { expression_of };

    ghost write = { write_expression };

    fn put(&self, out: &mut Vec<u8>) -> Result<(), AllocError> {
        put_expression(out, self)
    }
}
