//! The bytes of bit patterns and disassembly actions.

ghost use Rattle.std.specs.Prelude.{◌≡◌, ◌++◌, IfOk};
ghost use Rattle.sl_ast.specs.Views.{action_of, operand_of_address, pattern_of};
ghost use Rattle.sl_store_format.specs.Forms.{pattern_code};
ghost use Rattle.sl_store_format.specs.Actions.{write_action, write_operand};
ghost use Rattle.sl_store_format.specs.PatternBytes.{joint_code};
ghost use Rattle.sl_store_format.specs.PatternBytes.{write_pattern};

use crate::put::{Put, put_code};
use sl_ast::patterns::{Action, Address, Pattern, PatternOp};
use sl_store_bytes::{put_bytes, put_number};
use sl_store_format::forms::PatternForm;
use std::alloc::AllocError;

/// The form of two patterns that are joined.
fn joint(op: PatternOp) -> PatternForm
    ensures { pattern_code result ≡ joint_code op }
{
    match op {
        PatternOp::And => PatternForm::And,
        PatternOp::Then => PatternForm::Then,
        PatternOp::Or => PatternForm::Or,
    }
}

/// Writes a bit pattern.
fn put_pattern(out: &mut Vec<u8>, pattern: &Pattern<'_>) -> Result<(), AllocError>
    ensures { IfOk result (λ _. out.new.items ≡ out.old.items ++ write_pattern (pattern_of pattern.now)) }
{
    match pattern {
        Pattern::Name(name) => {
            put_code(out, PatternForm::Name)?;
            put_bytes(out, name)?;
        }
        Pattern::Constraint(field, relation, value) => {
            put_code(out, PatternForm::Constraint)?;
            put_bytes(out, field)?;
            put_code(out, *relation)?;
            value.put(out)?;
        }
        Pattern::Paren(inner) => {
            put_code(out, PatternForm::Paren)?;
            put_pattern(out, inner)?;
        }
        Pattern::Ellipsis(inner) => {
            put_code(out, PatternForm::Ellipsis)?;
            put_pattern(out, inner)?;
        }
        Pattern::Joined(op, left, right) => {
            put_code(out, joint(*op))?;
            put_pattern(out, left)?;
            put_pattern(out, right)?;
        }
    }
    Ok(())
}

impl<'a> Put for Pattern<'a> {
    ghost use Rattle.sl_ast.specs.Trees as t;

    ghost Tree = { t.Pattern };

    ghost view = { pattern_of };

    ghost write = { write_pattern };

    fn put(&self, out: &mut Vec<u8>) -> Result<(), AllocError> {
        put_pattern(out, self)
    }
}

impl<'a> Put for Address<'a> {
    ghost use Rattle.sl_ast.specs.Trees.{Operand};

    ghost Tree = { Operand };

    ghost view = { operand_of_address };

    ghost write = { write_operand };

    fn put(&self, out: &mut Vec<u8>) -> Result<(), AllocError> {
        match self {
            Address::Name(name) => {
                out.push(0)?;
                put_bytes(out, name)?;
            }
            Address::Integer(number) => {
                out.push(1)?;
                put_number(out, *number)?;
            }
        }
        Ok(())
    }
}

impl<'a> Put for Action<'a> {
    ghost use Rattle.sl_ast.specs.Trees as t;

    ghost Tree = { t.Action };

    ghost view = { action_of };

    ghost write = { write_action };

    fn put(&self, out: &mut Vec<u8>) -> Result<(), AllocError> {
        match self {
            Action::Assign(name, value) => {
                out.push(0)?;
                put_bytes(out, name)?;
                value.put(out)?;
            }
            Action::GlobalSet(address, field) => {
                out.push(1)?;
                address.put(out)?;
                put_bytes(out, field)?;
            }
        }
        Ok(())
    }
}
