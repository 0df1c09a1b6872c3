//! What is left of the symbols.

ghost use Rattle.std.specs.Prelude.{◌≡◌, suc, option_map, IfSome};
ghost use Rattle.sl_ast.specs.Views.{bytes};
ghost use Rattle.sl_parse_grammar.specs.Reader as spec;
ghost use Rattle.sl_parse_phrases.specs.Reads.{AllHaveTheirWords, ReadsAll, Plain, IsFault};
ghost use Rattle.sl_parse_phrases.specs.Reads.{syms_of};
ghost use Rattle.sl_parse_terminals.specs.Views.{HasItsWord, sym_of};

use crate::stop::{Form, Stop};
use sl_ast::symbols::{Feature, Keyword, Mark};
use sl_parse_terminals::Symbol;
use std::marker::Model;

/// How many operators and opening brackets an outermost expression or pattern may have.
pub const HEAVIEST: usize = 256;

/// The symbols that are left, and how many more operators and brackets the outermost expression may have.
#[derive(Drop)]
pub struct Symbols<'s, 'a> {
    left: &'s [Symbol<'a>],
    room: usize,
}

impl<'s, 'a> Model for Symbols<'s, 'a> {
    ghost use Rattle.sl_parse_grammar.specs.Reader.{Input, at};

    ghost Value = { Input };

    ghost use Rattle.sl_parse_phrases.specs.Reads.{AllHaveTheirWords, syms_of};

    ghost view = { λ a. at (syms_of a.left.now) a.room };

    ghost invariant = { λ a. AllHaveTheirWords a.left.now };
}

impl<'s, 'a> Symbols<'s, 'a> {
    /// All of them, for a list of items.
    pub fn new(left: &'s [Symbol<'a>]) -> Symbols<'s, 'a>
        requires { AllHaveTheirWords left.now }
        ensures { result ≡ spec.at (syms_of left.now) 0 }
    {
        Symbols { left, room: 0 }
    }

    /// How many are left.
    pub fn left(&self) -> usize
        ensures { result ≡ spec.left self.now }
    {
        self.left.len()
    }

    /// One more than are left.
    pub fn rounds(&self) -> usize
        ensures { result ≡ suc (spec.left self.now) }
    {
        self.left.len() + 1
    }

    /// The one that comes next.
    pub fn peek(&self) -> Option<Symbol<'a>>
        ensures { option_map sym_of result ≡ spec.first self.now.rest }
    {
        match self.left {
            [] => None,
            [symbol, ..] => Some(*symbol),
        }
    }

    /// The one that comes next; a word has its bytes.
    pub fn peek_word(&self) -> Option<Symbol<'a>>
        ensures sees { option_map sym_of result ≡ spec.first self.now.rest }
        ensures tied { IfSome result HasItsWord }
    {
        match self.left {
            [] => None,
            [symbol, ..] => Some(*symbol),
        }
    }

    /// Takes the one that comes next.
    pub fn skip(&mut self)
        ensures { self.new ≡ spec.next self.old }
    {
        if let [_, rest @ ..] = self.left {
            self.left = rest;
        }
    }

    /// A form that the language leaves out begins here.
    pub fn unsupported(&self, feature: Feature) -> Stop
        ensures { IsFault (spec.fault (spec.Form.unsupported feature 0) (spec.left self.now)) result }
    {
        Stop::At(Form::NotSupported(feature, 0), self.left.len())
    }

    /// A form that the language leaves out began so many symbols before this one, which decides it.
    pub fn unsupported_before(&self, feature: Feature, back: usize) -> Stop
        ensures { IsFault (spec.fault (spec.Form.unsupported feature back) (spec.left self.now)) result }
    {
        Stop::At(Form::NotSupported(feature, back), self.left.len())
    }

    /// No tree goes on with the symbol that comes next.
    pub fn refuse(&self) -> Stop
        ensures { IsFault (spec.fault (spec.refused_as (spec.first self.now.rest)) (spec.left self.now)) result }
    {
        match self.peek() {
            Some(Symbol::Mark(Mark::Floating)) => self.unsupported(Feature::FloatingPoint),
            Some(Symbol::Quoted(Keyword::InstNext2, _)) => self.unsupported(Feature::InstNext2),
            _ => Stop::At(Form::Syntax, self.left.len()),
        }
    }

    /// Takes the one that comes next as one more operator or bracket, unless the limit is reached.
    #[tactic(auto, unfolding(sl_parse_grammar::specs::Reader::enter))]
    pub fn enter(&mut self) -> Result<(), Stop>
        ensures { ReadsAll Plain (spec.enter self.old) result self.new }
    {
        if self.room == 0 {
            return Err(Stop::At(Form::Nesting, self.left.len()));
        }
        self.skip();
        self.room -= 1;
        Ok(())
    }

    /// Whether the mark comes next.
    #[tactic(auto, unfolding(sl_parse_grammar::specs::Reader::same_mark))]
    pub fn is_mark(&self, mark: Mark) -> bool
        ensures { result ≡ spec.is_mark mark (spec.first self.now.rest) }
    {
        match self.peek() {
            Some(Symbol::Mark(found)) => found == mark,
            _ => false,
        }
    }

    /// Whether the keyword comes next.
    #[tactic(auto, unfolding(sl_parse_grammar::specs::Reader::same_keyword))]
    pub fn is_keyword(&self, keyword: Keyword) -> bool
        ensures { result ≡ spec.is_keyword keyword (spec.first self.now.rest) }
    {
        match self.peek() {
            Some(Symbol::Quoted(found, _)) => found == keyword,
            _ => false,
        }
    }

    /// Takes the mark, or refuses what comes in its place.
    #[tactic(auto, unfolding(sl_parse_grammar::specs::Reader::expect))]
    pub fn expect(&mut self, mark: Mark) -> Result<(), Stop>
        ensures { ReadsAll Plain (spec.expect mark self.old) result self.new }
    {
        if self.is_mark(mark) {
            self.skip();
            Ok(())
        } else {
            Err(self.refuse())
        }
    }

    /// Takes the keyword, or refuses what comes in its place.
    #[tactic(auto, unfolding(sl_parse_grammar::specs::Reader::expect_keyword))]
    pub fn expect_keyword(&mut self, keyword: Keyword) -> Result<(), Stop>
        ensures { ReadsAll Plain (spec.expect_keyword keyword self.old) result self.new }
    {
        if self.is_keyword(keyword) {
            self.skip();
            Ok(())
        } else {
            Err(self.refuse())
        }
    }

    /// An integer.
    #[tactic(auto, unfolding(sl_parse_grammar::specs::Reader::integer_here))]
    pub fn integer(&mut self) -> Result<u64, Stop>
        ensures { ReadsAll Plain (spec.integer_here self.old) result self.new }
    {
        match self.peek() {
            Some(Symbol::Number(number)) => {
                self.skip();
                Ok(number)
            }
            _ => Err(self.refuse()),
        }
    }

    /// The limit of nesting is passed here.
    pub fn too_deep(&self) -> Stop
        ensures { IsFault (spec.fault spec.Form.nesting (spec.left self.now)) result }
    {
        Stop::At(Form::Nesting, self.left.len())
    }

    /// A name.
    #[tactic(auto, unfolding(sl_parse_grammar::specs::Reader::name_here))]
    pub fn name(&mut self) -> Result<&'a [u8], Stop>
        ensures { ReadsAll bytes (spec.name_here self.old) result self.new }
    {
        match self.peek() {
            Some(Symbol::Name(text)) => {
                self.skip();
                Ok(text)
            }
            _ => Err(self.refuse()),
        }
    }

    /// A size in bytes.
    #[tactic(auto, unfolding(sl_parse_grammar::specs::Reader::size_here))]
    pub fn size(&mut self) -> Result<u64, Stop>
        ensures { ReadsAll Plain (spec.size_here self.old) result self.new }
    {
        match self.peek() {
            Some(Symbol::Number(number)) => {
                if number > 16 {
                    return Err(self.unsupported(Feature::WideValue));
                }
                self.skip();
                Ok(number)
            }
            _ => Err(self.refuse()),
        }
    }

    /// `:n`, which may lack.
    #[tactic(auto, unfolding(sl_parse_grammar::specs::Reader::size_option))]
    pub fn size_option(&mut self) -> Result<Option<u64>, Stop>
        ensures { ReadsAll Plain (spec.size_option self.old) result self.new }
    {
        if self.is_mark(Mark::Colon) {
            self.skip();
            let size = self.size()?;
            Ok(Some(size))
        } else {
            Ok(None)
        }
    }

    /// How many more operators and brackets the outermost expression may have.
    pub fn room(&self) -> usize
        ensures { result ≡ self.now.room }
    {
        self.room
    }

    /// Sets how many more of them the outermost expression may have.
    pub fn set_room(&mut self, room: usize)
        ensures { self.new ≡ spec.at self.old.rest room }
    {
        self.room = room;
    }
}
