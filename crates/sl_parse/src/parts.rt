//! Parts of statements without an expression, and statements of these alone.

ghost use Rattle.std.specs.Prelude.{option_map};
ghost use Rattle.sl_ast.specs.Views.{bytes, direct_of, exported_of, operand_of_address, operand_of_pointer, star_of, statement_of};
ghost use Rattle.sl_ast.specs.declared.symbols.Mark.TheVariants as m;
ghost use Rattle.sl_parse_grammar.specs.Reader.{is_mark, optional};
ghost use Rattle.sl_parse_grammar.specs.Statements as reader;
ghost use Rattle.sl_parse_phrases.specs.Reads.{ReadsAll};

use sl_ast::patterns::Address;
use sl_ast::statements::{Direct, Exported, Pointer, Star, Stmt};
use sl_ast::symbols::{Keyword, Mark};
use sl_parse_phrases::stop::Stop;
use sl_parse_phrases::symbols::Symbols;
use sl_parse_terminals::Symbol;

/// A name or an integer.
#[tactic(auto, unfolding(sl_parse_grammar::specs::Statements::operand))]
pub fn operand<'a>(symbols: &mut Symbols<'_, 'a>) -> Result<Address<'a>, Stop>
    ensures { ReadsAll operand_of_address (reader.operand symbols.old) result symbols.new }
{
    match symbols.peek() {
        Some(Symbol::Number(value)) => {
            symbols.skip();
            Ok(Address::Integer(value))
        }
        Some(Symbol::Name(name)) => {
            symbols.skip();
            Ok(Address::Name(name))
        }
        _ => Err(symbols.refuse()),
    }
}

/// A name or an integer that points to memory.
fn pointer<'a>(symbols: &mut Symbols<'_, 'a>) -> Result<Pointer<'a>, Stop>
    ensures { ReadsAll operand_of_pointer (reader.operand symbols.old) result symbols.new }
{
    match operand(symbols)? {
        Address::Name(name) => Ok(Pointer::Name(name)),
        Address::Integer(value) => Ok(Pointer::Integer(value)),
    }
}

/// `[space]`.
#[tactic(auto, unfolding(sl_parse_grammar::specs::Statements::space_name))]
fn space_name<'a>(symbols: &mut Symbols<'_, 'a>) -> Result<&'a [u8], Stop>
    ensures { ReadsAll bytes (reader.space_name symbols.old) result symbols.new }
{
    symbols.expect(Mark::OpenBracket)?;
    let name = symbols.name()?;
    symbols.expect(Mark::CloseBracket)?;
    Ok(name)
}

/// `[space]`, which may lack.
fn space_option<'a>(symbols: &mut Symbols<'_, 'a>) -> Result<Option<&'a [u8]>, Stop>
    ensures { ReadsAll (option_map bytes) (optional (is_mark m.OpenBracket) reader.space_name symbols.old) result symbols.new }
{
    if symbols.is_mark(Mark::OpenBracket) {
        let name = space_name(symbols)?;
        Ok(Some(name))
    } else {
        Ok(None)
    }
}

/// `*[space]:n`.
#[tactic(auto, unfolding(sl_parse_grammar::specs::Statements::star_form))]
pub fn star_form<'a>(symbols: &mut Symbols<'_, 'a>) -> Result<Star<'a>, Stop>
    ensures { ReadsAll star_of (reader.star_form symbols.old) result symbols.new }
{
    symbols.expect(Mark::Star)?;
    let space = space_option(symbols)?;
    let size = symbols.size_option()?;
    Ok(Star { space, size })
}

/// `<name>`.
#[tactic(auto, unfolding(sl_parse_grammar::specs::Statements::label_here))]
pub fn label_here<'a>(symbols: &mut Symbols<'_, 'a>) -> Result<&'a [u8], Stop>
    ensures { ReadsAll bytes (reader.label_here symbols.old) result symbols.new }
{
    symbols.expect(Mark::Less)?;
    let name = symbols.name()?;
    symbols.expect(Mark::Greater)?;
    Ok(name)
}

/// A target that is written out.
#[tactic(auto, unfolding(sl_parse_grammar::specs::Statements::direct_here))]
pub fn direct_here<'a>(symbols: &mut Symbols<'_, 'a>) -> Result<Direct<'a>, Stop>
    ensures { ReadsAll direct_of (reader.direct_here symbols.old) result symbols.new }
{
    match symbols.peek() {
        Some(Symbol::Mark(Mark::Less)) => {
            let name = label_here(symbols)?;
            Ok(Direct::Label(name))
        }
        _ => match operand(symbols)? {
            Address::Name(name) => Ok(Direct::Name(name)),
            Address::Integer(value) => Ok(Direct::Integer(value)),
        },
    }
}

/// What a section exports.
#[tactic(auto, unfolding(sl_parse_grammar::specs::Statements::exported))]
fn exported<'a>(symbols: &mut Symbols<'_, 'a>) -> Result<Exported<'a>, Stop>
    ensures { ReadsAll exported_of (reader.exported symbols.old) result symbols.new }
{
    match symbols.peek() {
        Some(Symbol::Mark(Mark::Star)) => {
            let form = star_form(symbols)?;
            let to = pointer(symbols)?;
            Ok(Exported::Star(form, to))
        }
        _ => {
            let name = symbols.name()?;
            Ok(Exported::Name(name))
        }
    }
}

/// `build name;`.
#[tactic(auto, unfolding(sl_parse_grammar::specs::Statements::build_here))]
pub fn build_here<'a>(symbols: &mut Symbols<'_, 'a>) -> Result<Stmt<'a>, Stop>
    ensures { ReadsAll statement_of (reader.build_here symbols.old) result symbols.new }
{
    symbols.expect_keyword(Keyword::Build)?;
    let name = symbols.name()?;
    symbols.expect(Mark::Semicolon)?;
    Ok(Stmt::Build(name))
}

/// `export value;`.
#[tactic(auto, unfolding(sl_parse_grammar::specs::Statements::export_here))]
pub fn export_here<'a>(symbols: &mut Symbols<'_, 'a>) -> Result<Stmt<'a>, Stop>
    ensures { ReadsAll statement_of (reader.export_here symbols.old) result symbols.new }
{
    symbols.expect_keyword(Keyword::Export)?;
    let what = exported(symbols)?;
    symbols.expect(Mark::Semicolon)?;
    Ok(Stmt::Export(what))
}
