//! The parser.

ghost use Rattle.std.specs.Prelude.{◌≡◌, IfOk, IfErr};
ghost use Rattle.sl_lex.specs.Views.{views};
ghost use Rattle.sl_parse.specs.Parsing.{HasSymbols, IsFaultOf, IsTree, error_of};
ghost use Rattle.sl_parse_terminals.specs.Symbols.{symbols_of};

use crate::items::items;
use sl_ast::items::Spec;
use sl_ast::symbols::Feature;
use sl_lex::Tok;
use sl_parse_phrases::stop::{Form, Stop};
use sl_parse_phrases::symbols::Symbols;
use sl_parse_terminals::{Symbol, seen};
use std::alloc::{AllocError, Global};

/// Why tokens are no specification. Places are indexes of tokens.
#[derive(Clone, Copy, Debug, PartialEq, Eq)]
pub enum ParseError {
    /// No specification's tokens begin with those up to this one, or the list ends here too early.
    Syntax(usize),
    /// This token goes past a limit of nesting.
    Nesting(usize),
    /// A form that the language leaves out begins here.
    NotSupported { feature: Feature, token: usize },
    /// Memory ran out.
    NoMemory,
}

/// The symbols of the tokens.
fn all_symbols<'a>(alloc: Global, tokens: &[Tok<'a>]) -> Result<Vec<Symbol<'a>>, AllocError>
    ensures { IfOk result (λ found. HasSymbols (symbols_of (views tokens.now)) found.items) }
{
    let mut found = Vec::with_capacity(alloc, tokens.len())?;
    'tokens: for token in tokens {
        found.push(seen(token))?;
    }
    Ok(found)
}

/// The error of a stop, by the number of all tokens.
fn error_of(stop: Stop, total: usize) -> ParseError
    ensures { result ≡ error_of total stop }
{
    match stop {
        Stop::NoMemory => ParseError::NoMemory,
        Stop::At(Form::Syntax, left) => ParseError::Syntax(total.saturating_sub(left)),
        Stop::At(Form::Nesting, left) => ParseError::Nesting(total.saturating_sub(left)),
        Stop::At(Form::NotSupported(feature, back), left) => ParseError::NotSupported {
            feature,
            token: total.saturating_sub(left).saturating_sub(back),
        },
    }
}

/// The tree whose spelling the tokens are.
pub fn parse<'a>(alloc: Global, tokens: &[Tok<'a>]) -> Result<Spec<'a>, ParseError>
    ensures tree { IfOk result (IsTree (symbols_of (views tokens.now))) }
    ensures fault { IfErr result (IsFaultOf (symbols_of (views tokens.now))) }
{
    let Ok(listed) = all_symbols(alloc, tokens) else {
        return Err(ParseError::NoMemory);
    };
    let mut symbols = Symbols::new(&listed);
    let total = symbols.left();
    match items(alloc, &mut symbols, total) {
        Ok(items) => Ok(Spec { items }),
        Err(stop) => Err(error_of(stop, total)),
    }
}
