//! The bytes of constructors, of heads of `with` blocks and of macros.

ghost use Rattle.std.specs.Prelude.{◌≡◌, ◌++◌, IfOk};
ghost use Rattle.sl_ast.specs.Views.{constructor_of, head_of, macro_of, piece_of, section_of};
ghost use Rattle.sl_store_format.specs.Constructors.{write_constructor, write_head, write_macro, write_piece, write_section};

use crate::definitions::put_word;
use crate::put::{Put, put_code, put_option, put_separated};
use sl_ast::constructors::{Constructor, Head, Macro, Section, Shown};
use sl_store_bytes::put_bytes;
use sl_store_format::forms::ShownForm;
use std::alloc::AllocError;

impl<'a> Put for Shown<'a> {
    ghost use Rattle.sl_ast.specs.Trees.{Piece};

    ghost Tree = { Piece };

    ghost view = { piece_of };

    ghost write = { write_piece };

    fn put(&self, out: &mut Vec<u8>) -> Result<(), AllocError> {
        match self {
            Shown::Word(word) => {
                put_code(out, ShownForm::Word)?;
                put_word(out, word)?;
            }
            Shown::Text(text) => {
                put_code(out, ShownForm::Text)?;
                put_bytes(out, text)?;
            }
            Shown::Blank(blank) => {
                put_code(out, ShownForm::Blank)?;
                put_bytes(out, blank)?;
            }
            Shown::Caret(caret) => {
                put_code(out, ShownForm::Caret)?;
                put_bytes(out, caret)?;
            }
            Shown::Char(byte) => {
                put_code(out, ShownForm::Char)?;
                put_bytes(out, byte)?;
            }
        }
        Ok(())
    }
}

impl<'a> Put for Section<'a> {
    ghost use Rattle.sl_ast.specs.Trees as t;

    ghost Tree = { t.Section };

    ghost view = { section_of };

    ghost write = { write_section };

    fn put(&self, out: &mut Vec<u8>) -> Result<(), AllocError> {
        match self {
            Section::Statements(body) => {
                out.push(0)?;
                body.put(out)?;
            }
            Section::Unimplemented => out.push(1)?,
        }
        Ok(())
    }
}

impl<'a> Put for Constructor<'a> {
    ghost use Rattle.sl_ast.specs.Trees as t;

    ghost Tree = { t.Constructor };

    ghost view = { constructor_of };

    ghost write = { write_constructor };

    fn put(&self, out: &mut Vec<u8>) -> Result<(), AllocError> {
        put_option(out, &self.table)?;
        self.display.put(out)?;
        self.pattern.put(out)?;
        put_option(out, &self.actions)?;
        self.section.put(out)?;
        Ok(())
    }
}

impl<'a> Put for Head<'a> {
    ghost use Rattle.sl_ast.specs.Trees as t;

    ghost Tree = { t.Head };

    ghost view = { head_of };

    ghost write = { write_head };

    fn put(&self, out: &mut Vec<u8>) -> Result<(), AllocError> {
        put_option(out, &self.table)?;
        put_option(out, &self.pattern)?;
        put_option(out, &self.actions)?;
        Ok(())
    }
}

impl<'a> Put for Macro<'a> {
    ghost use Rattle.sl_ast.specs.Trees as t;

    ghost Tree = { t.Macro };

    ghost view = { macro_of };

    ghost write = { write_macro };

    fn put(&self, out: &mut Vec<u8>) -> Result<(), AllocError> {
        put_bytes(out, self.name)?;
        put_separated(out, self.parameters.as_slice())?;
        self.body.put(out)?;
        Ok(())
    }
}
