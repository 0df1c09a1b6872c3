//! Constructors, heads of `with` blocks and macros.

ghost use Rattle.std.specs.Prelude.{option_map};
ghost use Rattle.sl_ast.specs.Views.{constructor_of, head_of, macro_of, piece_of, section_of};
ghost use Rattle.sl_store_format.specs.Constructors as reader;
ghost use Rattle.sl_store_bytes.specs.Reads.{Reads};

use crate::parts::{Part, list, option, separated};
use sl_ast::constructors::{Constructor, Head, Macro, Section, Shown};
use sl_ast::patterns::{Action, Pattern};
use sl_ast::statements::Stmt;
use sl_store_bytes::{Bytes, Stop};
use sl_store_format::forms::ShownForm;
use sl_store_phrases::{blank, byte, caret, name, shown_word, text, whole_pattern};
use std::alloc::Global;

impl<'a> Part<'a> for Shown<'a> {
    ghost use Rattle.sl_ast.specs.Trees.{Piece};

    ghost Tree = { Piece };

    ghost view = { piece_of };

    ghost reader = { reader.piece };

    #[tactic(auto, unfolding(sl_store_format::specs::Constructors::piece))]
    fn read(_alloc: Global, bytes: &mut Bytes<'a>) -> Result<Shown<'a>, Stop> {
        match bytes.coded::<ShownForm>()? {
            ShownForm::Word => {
                let word = shown_word(bytes)?;
                Ok(Shown::Word(word))
            }
            ShownForm::Text => {
                let text = text(bytes)?;
                Ok(Shown::Text(text))
            }
            ShownForm::Blank => {
                let blank = blank(bytes)?;
                Ok(Shown::Blank(blank))
            }
            ShownForm::Caret => {
                let caret = caret(bytes)?;
                Ok(Shown::Caret(caret))
            }
            ShownForm::Char => {
                let byte = byte(bytes)?;
                Ok(Shown::Char(byte))
            }
        }
    }
}

/// What a constructor does.
#[tactic(auto, unfolding(sl_store_format::specs::Constructors::section, sl_store_bytes::specs::Lists::either))]
fn section<'a>(alloc: Global, bytes: &mut Bytes<'a>) -> Result<Section<'a>, Stop>
    ensures { Reads section_of (reader.section bytes.old) result bytes.new }
{
    if bytes.below(2)? == 0 {
        let body: Vec<Stmt<'a>> = list(alloc, bytes)?;
        Ok(Section::Statements(body))
    } else {
        Ok(Section::Unimplemented)
    }
}

/// A constructor.
#[tactic(auto, unfolding(sl_store_format::specs::Constructors::constructor_here))]
pub fn constructor_here<'a>(alloc: Global, bytes: &mut Bytes<'a>) -> Result<Constructor<'a>, Stop>
    ensures { Reads constructor_of (reader.constructor_here bytes.old) result bytes.new }
{
    let table: Option<&'a [u8]> = option(alloc, bytes)?;
    let display: Vec<Shown<'a>> = list(alloc, bytes)?;
    let pattern = whole_pattern(alloc, bytes)?;
    let actions: Option<Vec<Action<'a>>> = option(alloc, bytes)?;
    let section = section(alloc, bytes)?;
    Ok(Constructor {
        table,
        display,
        pattern,
        actions,
        section,
    })
}

/// What a `with` block gives.
#[tactic(auto, unfolding(sl_store_format::specs::Constructors::head_here))]
pub fn head_here<'a>(alloc: Global, bytes: &mut Bytes<'a>) -> Result<Head<'a>, Stop>
    ensures { Reads head_of (reader.head_here bytes.old) result bytes.new }
{
    let table: Option<&'a [u8]> = option(alloc, bytes)?;
    let pattern: Option<Pattern<'a>> = option(alloc, bytes)?;
    let actions: Option<Vec<Action<'a>>> = option(alloc, bytes)?;
    Ok(Head {
        table,
        pattern,
        actions,
    })
}

/// A macro.
#[tactic(auto, unfolding(sl_store_format::specs::Constructors::macro_here))]
pub fn macro_here<'a>(alloc: Global, bytes: &mut Bytes<'a>) -> Result<Macro<'a>, Stop>
    ensures { Reads macro_of (reader.macro_here bytes.old) result bytes.new }
{
    let name = name(bytes)?;
    let parameters: Vec<&'a [u8]> = separated(alloc, bytes)?;
    let body: Vec<Stmt<'a>> = list(alloc, bytes)?;
    Ok(Macro {
        name,
        parameters,
        body,
    })
}
