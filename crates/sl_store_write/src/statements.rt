//! The bytes of statements.

ghost use Rattle.std.specs.Prelude.{◌≡◌, ◌++◌, IfOk};
ghost use Rattle.sl_ast.specs.Views.{dest_of, direct_of, exported_of, left_of, operand_of_pointer};
ghost use Rattle.sl_ast.specs.Views.{star_of, statement_of, target_of};
ghost use Rattle.sl_store_format.specs.Actions.{write_operand};
ghost use Rattle.sl_store_format.specs.Statements.{write_dest, write_direct, write_exported, write_left, write_star};
ghost use Rattle.sl_store_format.specs.Statements.{write_statement, write_target};

use crate::put::{Put, put_code, put_number_option, put_option, put_separated};
use sl_ast::statements::{Dest, Direct, Exported, Left, Pointer, Star, Stmt, Target};
use sl_store_bytes::{put_bytes, put_number};
use sl_store_format::forms::{DirectForm, LeftForm, StatementForm, TargetForm};
use std::alloc::AllocError;

impl<'a> Put for Star<'a> {
    ghost use Rattle.sl_ast.specs.Trees.{StarForm};

    ghost Tree = { StarForm };

    ghost view = { star_of };

    ghost write = { write_star };

    fn put(&self, out: &mut Vec<u8>) -> Result<(), AllocError> {
        put_option(out, &self.space)?;
        put_number_option(out, &self.size)?;
        Ok(())
    }
}

impl<'a> Put for Left<'a> {
    ghost use Rattle.sl_ast.specs.Trees as t;

    ghost Tree = { t.Left };

    ghost view = { left_of };

    ghost write = { write_left };

    fn put(&self, out: &mut Vec<u8>) -> Result<(), AllocError> {
        match self {
            Left::Name(name) => {
                put_code(out, LeftForm::Name)?;
                put_bytes(out, name)?;
            }
            Left::Bits(name, low, count) => {
                put_code(out, LeftForm::Bits)?;
                put_bytes(out, name)?;
                put_number(out, *low)?;
                put_number(out, *count)?;
            }
            Left::Star(form, pointer) => {
                put_code(out, LeftForm::Star)?;
                form.put(out)?;
                pointer.put(out)?;
            }
        }
        Ok(())
    }
}

impl<'a> Put for Direct<'a> {
    ghost use Rattle.sl_ast.specs.Trees as t;

    ghost Tree = { t.Direct };

    ghost view = { direct_of };

    ghost write = { write_direct };

    fn put(&self, out: &mut Vec<u8>) -> Result<(), AllocError> {
        match self {
            Direct::Label(name) => {
                put_code(out, DirectForm::Label)?;
                put_bytes(out, name)?;
            }
            Direct::Name(name) => {
                put_code(out, DirectForm::Name)?;
                put_bytes(out, name)?;
            }
            Direct::Integer(number) => {
                put_code(out, DirectForm::Integer)?;
                put_number(out, *number)?;
            }
        }
        Ok(())
    }
}

impl<'a> Put for Dest<'a> {
    ghost use Rattle.sl_ast.specs.Trees as t;

    ghost Tree = { t.Dest };

    ghost view = { dest_of };

    ghost write = { write_dest };

    fn put(&self, out: &mut Vec<u8>) -> Result<(), AllocError> {
        match self {
            Dest::Direct(target) => {
                out.push(0)?;
                target.put(out)?;
            }
            Dest::Computed(target) => {
                out.push(1)?;
                target.put(out)?;
            }
        }
        Ok(())
    }
}

impl<'a> Put for Target<'a> {
    ghost use Rattle.sl_ast.specs.Trees as t;

    ghost Tree = { t.Target };

    ghost view = { target_of };

    ghost write = { write_target };

    fn put(&self, out: &mut Vec<u8>) -> Result<(), AllocError> {
        match self {
            Target::Name(name) => {
                put_code(out, TargetForm::Name)?;
                put_bytes(out, name)?;
            }
            Target::Integer(number) => {
                put_code(out, TargetForm::Integer)?;
                put_number(out, *number)?;
            }
            Target::Computed(target) => {
                put_code(out, TargetForm::Computed)?;
                target.put(out)?;
            }
        }
        Ok(())
    }
}

impl<'a> Put for Pointer<'a> {
    ghost use Rattle.sl_ast.specs.Trees.{Operand};

    ghost Tree = { Operand };

    ghost view = { operand_of_pointer };

    ghost write = { write_operand };

    fn put(&self, out: &mut Vec<u8>) -> Result<(), AllocError> {
        match self {
            Pointer::Name(name) => {
                out.push(0)?;
                put_bytes(out, name)?;
            }
            Pointer::Integer(number) => {
                out.push(1)?;
                put_number(out, *number)?;
            }
        }
        Ok(())
    }
}

impl<'a> Put for Exported<'a> {
    ghost use Rattle.sl_ast.specs.Trees as t;

    ghost Tree = { t.Exported };

    ghost view = { exported_of };

    ghost write = { write_exported };

    fn put(&self, out: &mut Vec<u8>) -> Result<(), AllocError> {
        match self {
            Exported::Name(name) => {
                out.push(0)?;
                put_bytes(out, name)?;
            }
            Exported::Star(form, pointer) => {
                out.push(1)?;
                form.put(out)?;
                pointer.put(out)?;
            }
        }
        Ok(())
    }
}

impl<'a> Put for Stmt<'a> {
    ghost use Rattle.sl_ast.specs.Trees.{Statement};

    ghost Tree = { Statement };

    ghost view = { statement_of };

    ghost write = { write_statement };

    fn put(&self, out: &mut Vec<u8>) -> Result<(), AllocError> {
        match self {
            Stmt::Local(name, size, value) => {
                put_code(out, StatementForm::Local)?;
                put_bytes(out, name)?;
                put_number_option(out, size)?;
                put_option(out, value)?;
            }
            Stmt::Declare(name, size, value) => {
                put_code(out, StatementForm::Declare)?;
                put_bytes(out, name)?;
                put_number(out, *size)?;
                value.put(out)?;
            }
            Stmt::Assign(left, value) => {
                put_code(out, StatementForm::Assign)?;
                left.put(out)?;
                value.put(out)?;
            }
            Stmt::Goto(target) => {
                put_code(out, StatementForm::Goto)?;
                target.put(out)?;
            }
            Stmt::Branch(condition, target) => {
                put_code(out, StatementForm::Branch)?;
                condition.put(out)?;
                target.put(out)?;
            }
            Stmt::Call(target) => {
                put_code(out, StatementForm::Call)?;
                target.put(out)?;
            }
            Stmt::Return(target) => {
                put_code(out, StatementForm::Return)?;
                target.put(out)?;
            }
            Stmt::Build(name) => {
                put_code(out, StatementForm::Build)?;
                put_bytes(out, name)?;
            }
            Stmt::Export(what) => {
                put_code(out, StatementForm::Export)?;
                what.put(out)?;
            }
            Stmt::Invoke(name, given) => {
                put_code(out, StatementForm::Invoke)?;
                put_bytes(out, name)?;
                put_separated(out, given.as_slice())?;
            }
            Stmt::Label(name) => {
                put_code(out, StatementForm::Label)?;
                put_bytes(out, name)?;
            }
        }
        Ok(())
    }
}
