//! Statements of semantic sections and macros.

ghost use Rattle.std.specs.Prelude.{option_map};
ghost use Rattle.sl_ast.specs.Operators.{missing_statement};
ghost use Rattle.sl_ast.specs.Validity.{heaviest};
ghost use Rattle.sl_ast.specs.Views.{dest_of, expression_of, statement_of, target_of};
ghost use Rattle.sl_ast.specs.declared.symbols.Mark.TheVariants as m;
ghost use Rattle.sl_parse_grammar.specs.Reader.{first, is_mark, optional};
ghost use Rattle.sl_parse_grammar.specs.Statements as reader;
ghost use Rattle.sl_parse_phrases.specs.Reads.{Reads, seen_by};

use crate::lists::{Part, Repeated, listed, many};
use crate::parts::{build_here, direct_here, export_here, label_here, operand, star_form};
use sl_ast::expressions::Expr;
use sl_ast::patterns::Address;
use sl_ast::statements::{Dest, Left, Stmt, Target};
use sl_ast::symbols::{Keyword, Mark};
use sl_parse_phrases::expressions::whole;
use sl_parse_phrases::missing::{feature_of, statement_feature};
use sl_parse_phrases::operators::Kind;
use sl_parse_phrases::stop::Stop;
use sl_parse_phrases::symbols::Symbols;
use sl_parse_terminals::Symbol;
use std::alloc::Global;

/// `= expression`.
#[tactic(auto, unfolding(sl_parse_grammar::specs::Statements::value_here))]
fn value_here<'a>(alloc: Global, symbols: &mut Symbols<'_, 'a>) -> Result<Expr<'a>, Stop>
    ensures { Reads expression_of (reader.value_here heaviest symbols.old) result symbols.new }
{
    symbols.expect(Mark::Equals)?;
    let value = whole(alloc, symbols, Kind::Section)?;
    Ok(value)
}

/// `= expression`, which may lack.
fn value_option<'a>(alloc: Global, symbols: &mut Symbols<'_, 'a>) -> Result<Option<Expr<'a>>, Stop>
    ensures { Reads (option_map expression_of) (optional (is_mark m.Equals) (reader.value_here heaviest) symbols.old) result symbols.new }
{
    if symbols.is_mark(Mark::Equals) {
        let value = value_here(alloc, symbols)?;
        Ok(Some(value))
    } else {
        Ok(None)
    }
}

/// `[expression]`.
#[tactic(auto, unfolding(sl_parse_grammar::specs::Statements::computed_here))]
fn computed_here<'a>(alloc: Global, symbols: &mut Symbols<'_, 'a>) -> Result<Expr<'a>, Stop>
    ensures { Reads expression_of (reader.computed_here heaviest symbols.old) result symbols.new }
{
    symbols.expect(Mark::OpenBracket)?;
    let target = whole(alloc, symbols, Kind::Section)?;
    symbols.expect(Mark::CloseBracket)?;
    Ok(target)
}

/// Where a `goto` leads.
#[tactic(auto, unfolding(sl_parse_grammar::specs::Statements::dest))]
fn dest<'a>(alloc: Global, symbols: &mut Symbols<'_, 'a>) -> Result<Dest<'a>, Stop>
    ensures { Reads dest_of (reader.dest heaviest symbols.old) result symbols.new }
{
    match symbols.peek() {
        Some(Symbol::Mark(Mark::OpenBracket)) => {
            let target = computed_here(alloc, symbols)?;
            Ok(Dest::Computed(target))
        }
        _ => {
            let target = direct_here(symbols)?;
            Ok(Dest::Direct(target))
        }
    }
}

/// What a `call` calls.
#[tactic(auto, unfolding(sl_parse_grammar::specs::Statements::target))]
fn target<'a>(alloc: Global, symbols: &mut Symbols<'_, 'a>) -> Result<Target<'a>, Stop>
    ensures { Reads target_of (reader.target heaviest symbols.old) result symbols.new }
{
    match symbols.peek() {
        Some(Symbol::Mark(Mark::OpenBracket)) => {
            let target = computed_here(alloc, symbols)?;
            Ok(Target::Computed(target))
        }
        _ => match operand(symbols)? {
            Address::Name(name) => Ok(Target::Name(name)),
            Address::Integer(value) => Ok(Target::Integer(value)),
        },
    }
}

/// `local name:n = expression;`.
#[tactic(auto, unfolding(sl_parse_grammar::specs::Statements::local_here))]
fn local_here<'a>(alloc: Global, symbols: &mut Symbols<'_, 'a>) -> Result<Stmt<'a>, Stop>
    ensures { Reads statement_of (reader.local_here heaviest symbols.old) result symbols.new }
{
    symbols.expect_keyword(Keyword::Local)?;
    let name = symbols.name()?;
    let size = symbols.size_option()?;
    let value = value_option(alloc, symbols)?;
    symbols.expect(Mark::Semicolon)?;
    Ok(Stmt::Local(name, size, value))
}

/// `goto target;`.
#[tactic(auto, unfolding(sl_parse_grammar::specs::Statements::goto_here))]
fn goto_here<'a>(alloc: Global, symbols: &mut Symbols<'_, 'a>) -> Result<Stmt<'a>, Stop>
    ensures { Reads statement_of (reader.goto_here heaviest symbols.old) result symbols.new }
{
    symbols.expect_keyword(Keyword::Goto)?;
    let to = dest(alloc, symbols)?;
    symbols.expect(Mark::Semicolon)?;
    Ok(Stmt::Goto(to))
}

/// `if expression goto target;`.
#[tactic(auto, unfolding(sl_parse_grammar::specs::Statements::branch_here))]
fn branch_here<'a>(alloc: Global, symbols: &mut Symbols<'_, 'a>) -> Result<Stmt<'a>, Stop>
    ensures { Reads statement_of (reader.branch_here heaviest symbols.old) result symbols.new }
{
    symbols.expect_keyword(Keyword::If)?;
    let condition = whole(alloc, symbols, Kind::Section)?;
    symbols.expect_keyword(Keyword::Goto)?;
    let to = direct_here(symbols)?;
    symbols.expect(Mark::Semicolon)?;
    Ok(Stmt::Branch(condition, to))
}

/// `call target;`.
#[tactic(auto, unfolding(sl_parse_grammar::specs::Statements::call_here))]
fn call_here<'a>(alloc: Global, symbols: &mut Symbols<'_, 'a>) -> Result<Stmt<'a>, Stop>
    ensures { Reads statement_of (reader.call_here heaviest symbols.old) result symbols.new }
{
    symbols.expect_keyword(Keyword::Call)?;
    let to = target(alloc, symbols)?;
    symbols.expect(Mark::Semicolon)?;
    Ok(Stmt::Call(to))
}

/// `return [expression];`.
#[tactic(auto, unfolding(sl_parse_grammar::specs::Statements::return_here))]
fn return_here<'a>(alloc: Global, symbols: &mut Symbols<'_, 'a>) -> Result<Stmt<'a>, Stop>
    ensures { Reads statement_of (reader.return_here heaviest symbols.old) result symbols.new }
{
    symbols.expect_keyword(Keyword::Return)?;
    let target = computed_here(alloc, symbols)?;
    symbols.expect(Mark::Semicolon)?;
    Ok(Stmt::Return(target))
}

/// `*[space]:n pointer = expression;`.
#[tactic(auto, unfolding(sl_parse_grammar::specs::Statements::star_here))]
fn star_here<'a>(alloc: Global, symbols: &mut Symbols<'_, 'a>) -> Result<Stmt<'a>, Stop>
    ensures { Reads statement_of (reader.star_here heaviest symbols.old) result symbols.new }
{
    let form = star_form(symbols)?;
    let pointer = whole(alloc, symbols, Kind::Section)?;
    let value = value_here(alloc, symbols)?;
    symbols.expect(Mark::Semicolon)?;
    Ok(Stmt::Assign(Left::Star(form, pointer), value))
}

/// `:n = expression;` behind a name.
#[tactic(auto, unfolding(sl_parse_grammar::specs::Statements::declare_here))]
fn declare_here<'a>(
    alloc: Global,
    symbols: &mut Symbols<'_, 'a>,
    name: &'a [u8],
) -> Result<Stmt<'a>, Stop>
    ensures { Reads statement_of (reader.declare_here heaviest name.now symbols.old) result symbols.new }
{
    symbols.expect(Mark::Colon)?;
    let size = symbols.size()?;
    let value = value_here(alloc, symbols)?;
    symbols.expect(Mark::Semicolon)?;
    Ok(Stmt::Declare(name, size, value))
}

/// `= expression;` behind a name.
#[tactic(auto, unfolding(sl_parse_grammar::specs::Statements::assign_here))]
fn assign_here<'a>(
    alloc: Global,
    symbols: &mut Symbols<'_, 'a>,
    name: &'a [u8],
) -> Result<Stmt<'a>, Stop>
    ensures { Reads statement_of (reader.assign_here heaviest name.now symbols.old) result symbols.new }
{
    let value = value_here(alloc, symbols)?;
    symbols.expect(Mark::Semicolon)?;
    Ok(Stmt::Assign(Left::Name(name), value))
}

/// `[l,c] = expression;` behind a name.
#[tactic(auto, unfolding(sl_parse_grammar::specs::Statements::bits_here))]
fn bits_here<'a>(
    alloc: Global,
    symbols: &mut Symbols<'_, 'a>,
    name: &'a [u8],
) -> Result<Stmt<'a>, Stop>
    ensures { Reads statement_of (reader.bits_here heaviest name.now symbols.old) result symbols.new }
{
    symbols.expect(Mark::OpenBracket)?;
    let low = symbols.integer()?;
    symbols.expect(Mark::Comma)?;
    let count = symbols.integer()?;
    symbols.expect(Mark::CloseBracket)?;
    let value = value_here(alloc, symbols)?;
    symbols.expect(Mark::Semicolon)?;
    Ok(Stmt::Assign(Left::Bits(name, low, count), value))
}

/// `(arguments);` behind a name.
#[tactic(auto, unfolding(sl_parse_grammar::specs::Statements::invoke_here))]
fn invoke_here<'a>(
    alloc: Global,
    symbols: &mut Symbols<'_, 'a>,
    name: &'a [u8],
) -> Result<Stmt<'a>, Stop>
    ensures { Reads statement_of (reader.invoke_here heaviest name.now symbols.old) result symbols.new }
{
    symbols.expect(Mark::Open)?;
    let given: Vec<Expr<'a>> = listed(alloc, symbols)?;
    symbols.expect(Mark::Close)?;
    symbols.expect(Mark::Semicolon)?;
    Ok(Stmt::Invoke(name, given))
}

/// What stands behind the name that begins a statement.
fn named<'a>(alloc: Global, symbols: &mut Symbols<'_, 'a>, name: &'a [u8]) -> Result<Stmt<'a>, Stop>
    ensures { Reads statement_of (reader.named_by heaviest name.now (first symbols.old.rest) symbols.old) result symbols.new }
{
    match symbols.peek() {
        Some(Symbol::Mark(Mark::Colon)) => declare_here(alloc, symbols, name),
        Some(Symbol::Mark(Mark::OpenBracket)) => bits_here(alloc, symbols, name),
        Some(Symbol::Mark(Mark::Open)) => match feature_of(name) {
            Some(feature) => Err(symbols.unsupported_before(feature, 1)),
            None => invoke_here(alloc, symbols, name),
        },
        _ => assign_here(alloc, symbols, name),
    }
}

/// A statement that begins with the name, which comes next.
fn begun<'a>(alloc: Global, symbols: &mut Symbols<'_, 'a>, name: &'a [u8]) -> Result<Stmt<'a>, Stop>
    ensures { Reads statement_of (reader.begun_by heaviest name.now (missing_statement name.now) symbols.old) result symbols.new }
{
    match statement_feature(name) {
        Some(feature) => Err(symbols.unsupported(feature)),
        None => {
            symbols.skip();
            named(alloc, symbols, name)
        }
    }
}

/// Any statement.
#[tactic(auto, unfolding(sl_parse_grammar::specs::Statements::statement))]
pub fn statement<'a>(alloc: Global, symbols: &mut Symbols<'_, 'a>) -> Result<Stmt<'a>, Stop>
    ensures { Reads statement_of (reader.statement heaviest symbols.old) result symbols.new }
{
    match symbols.peek() {
        Some(Symbol::Quoted(Keyword::Local, _)) => local_here(alloc, symbols),
        Some(Symbol::Quoted(Keyword::Goto, _)) => goto_here(alloc, symbols),
        Some(Symbol::Quoted(Keyword::If, _)) => branch_here(alloc, symbols),
        Some(Symbol::Quoted(Keyword::Call, _)) => call_here(alloc, symbols),
        Some(Symbol::Quoted(Keyword::Return, _)) => return_here(alloc, symbols),
        Some(Symbol::Quoted(Keyword::Build, _)) => build_here(symbols),
        Some(Symbol::Quoted(Keyword::Export, _)) => export_here(symbols),
        Some(Symbol::Name(name)) => begun(alloc, symbols, name),
        Some(Symbol::Mark(Mark::Star)) => star_here(alloc, symbols),
        Some(Symbol::Mark(Mark::Less)) => {
            let name = label_here(symbols)?;
            Ok(Stmt::Label(name))
        }
        _ => Err(symbols.refuse()),
    }
}

impl<'a> Part<'a> for Expr<'a> {
    ghost use Rattle.sl_ast.specs.Operators.{in_section};
    ghost use Rattle.sl_ast.specs.Trees as t;
    ghost use Rattle.sl_parse_grammar.specs.Expressions as e;

    ghost Tree = { t.Expression };

    ghost view = { expression_of };

    ghost reader = { e.whole heaviest in_section };

    fn read(alloc: Global, symbols: &mut Symbols<'_, 'a>) -> Result<Expr<'a>, Stop> {
        whole(alloc, symbols, Kind::Section)
    }
}

impl<'a> Part<'a> for Stmt<'a> {
    ghost use Rattle.sl_ast.specs.Trees as t;

    ghost Tree = { t.Statement };

    ghost view = { statement_of };

    ghost reader = { reader.statement heaviest };

    fn read(alloc: Global, symbols: &mut Symbols<'_, 'a>) -> Result<Stmt<'a>, Stop> {
        statement(alloc, symbols)
    }
}

impl<'a> Repeated<'a> for Stmt<'a> {
    ghost goes = { reader.until m.CloseBrace };

    fn comes(symbols: &Symbols<'_, 'a>) -> bool {
        !symbols.is_mark(Mark::CloseBrace)
    }
}

/// Statements in braces.
#[tactic(auto, unfolding(sl_parse_grammar::specs::Statements::body))]
pub fn body<'a>(alloc: Global, symbols: &mut Symbols<'_, 'a>) -> Result<Vec<Stmt<'a>>, Stop>
    ensures { Reads (seen_by statement_of) (reader.body heaviest symbols.old) result symbols.new }
{
    symbols.expect(Mark::OpenBrace)?;
    let found = many(alloc, symbols)?;
    symbols.expect(Mark::CloseBrace)?;
    Ok(found)
}
