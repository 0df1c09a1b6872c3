//! Tokens as symbols: what the grammar sees of them.
#![tactic(auto)]

ghost use Rattle.std.specs.Prelude.{◌≡◌};
ghost use Rattle.sl_ast.specs.Symbols.{find, keyword_of};
ghost use Rattle.sl_lex.specs.Views.{view};
ghost use Rattle.sl_parse_terminals.specs.Marks.{mark_of};
ghost use Rattle.sl_parse_terminals.specs.Rows.{rows_of};
ghost use Rattle.sl_parse_terminals.specs.Symbols.{symbol_by, symbol_of};
ghost use Rattle.sl_parse_terminals.specs.Views.{sym_of, HasItsWord};

mod keywords;
mod marks;

use keywords::keywords_of_length;
use marks::{mark_of_byte, marks_of_length};
use sl_ast::symbols::{Keyword, Mark};
use sl_lex::{Tok, TokKind};

/// What stands in the first row with these bytes.
pub fn find_row<K: Copy>(rows: &[(&[u8], K)], text: &[u8]) -> Option<K>
    ensures { result ≡ find text.now (rows_of rows.now) }
{
    'rows: for row in rows {
        if text == row.0 {
            return Some(row.1);
        }
    }
    None
}

/// The keyword with these bytes, if they are one.
#[tactic(auto, unfolding(sl_ast::specs::Symbols::keyword_of))]
pub fn keyword(text: &[u8]) -> Option<Keyword>
    ensures { result ≡ keyword_of text.now }
{
    find_row(keywords_of_length(text.len()), text)
}

/// The mark with these bytes; `Unknown` where they are none of the language.
#[tactic(auto, unfolding(crate::specs::Marks::mark_of))]
pub fn mark(text: &[u8]) -> Mark
    ensures { result ≡ mark_of text.now }
{
    match text.len() {
        1 => mark_of_byte(text[0]),
        count => find_row(marks_of_length(count), text).unwrap_or(Mark::Unknown),
    }
}

/// A token as the grammar sees it. Texts have their quotes.
#[derive(Clone, Copy, Debug)]
pub enum Symbol<'a> {
    Number(u64),
    /// A word that the grammar doesn't quote.
    Name(&'a [u8]),
    /// A keyword, with its bytes.
    Quoted(Keyword, &'a [u8]),
    Text(&'a [u8]),
    Mark(Mark),
    Blank(&'a [u8]),
    Caret(&'a [u8]),
    Char(&'a [u8]),
}

/// A word as a symbol.
#[tactic(auto, unfolding(sl_ast::specs::Symbols::word_of))]
fn word<'a>(text: &'a [u8]) -> Symbol<'a>
    ensures sees { sym_of result ≡ symbol_by TokKind.Word text.now }
    ensures tied { HasItsWord result }
{
    match keyword(text) {
        Some(keyword) => Symbol::Quoted(keyword, text),
        None => Symbol::Name(text),
    }
}

/// A token as a symbol.
pub fn seen<'a>(tok: &Tok<'a>) -> Symbol<'a>
    ensures sees { sym_of result ≡ symbol_of (view tok.now) }
    ensures tied { HasItsWord result }
{
    match tok.kind {
        TokKind::Word => word(tok.text),
        TokKind::Integer(number) => Symbol::Number(number),
        TokKind::Text => Symbol::Text(tok.text),
        TokKind::Mark => Symbol::Mark(mark(tok.text)),
        TokKind::Blank => Symbol::Blank(tok.text),
        TokKind::Caret => Symbol::Caret(tok.text),
        TokKind::Char => Symbol::Char(tok.text),
    }
}
