//! Lists of tokens that share their parts.

ghost use Rattle.std.specs.Prelude.{◌≡◌, ◌<◌, ◌∷◌, [], ◌++◌, IfOk, IfSome, Some, length};
ghost use Rattle.sl_shape_tokens.specs.Comparing.{common_prefix, compared};
ghost use Rattle.sl_shape_tokens.specs.Lists.{IsAmong, Keeps, list_at, list_of};
ghost use Rattle.sl_shape_tokens.specs.Lists as spec;
ghost use Rattle.sl_shape_tokens.specs.Walks.{written};

use crate::nodes::{Node, TokenList};
use crate::shapes::Compared;
use crate::walking::split_of;
use std::alloc::{AllocError, Global};
use std::marker::Model;

/// Lists of tokens that share their parts, so that a list of lists costs no copy. Contracts see the
/// lists, in the order in which they came.
#[derive(Drop)]
pub struct Lists {
    pub(crate) nodes: Vec<Node>,
}

impl Model for Lists {
    ghost use Rattle.std.specs.Prelude.{ℕ, List};
    ghost use Rattle.sl_shape_tokens.specs.Nodes.{AreBelow, lists_of};

    ghost Value = { List (List ℕ) };

    ghost view = { λ s. lists_of s.nodes.items };

    ghost invariant = { λ s. AreBelow s.nodes.items };
}

/// The list of a number below the limit, and else the empty one.
pub(crate) fn limited(list: TokenList, limit: usize) -> Option<usize>
    ensures { result ≡ spec.limited limit list.0 }
{
    match list.0 {
        Some(number) => { if number < limit { Some(number) } else { None } }
        None => None,
    }
}

impl Lists {
    pub fn new(alloc: Global) -> Self
        ensures { result ≡ [] }
    {
        Lists {
            nodes: Vec::new(alloc),
        }
    }

    /// How many lists there are.
    pub(crate) fn len(&self) -> usize
        ensures { result ≡ length self.now }
    {
        self.nodes.len()
    }

    /// The number of the last list, where it has this token alone.
    fn last_of(&self, token: u32) -> Option<usize>
        ensures there { IsAmong self.now result }
        ensures list { IfSome result (λ _. list_at self.now result ≡ token ∷ []) }
    {
        let last = self.nodes.len().checked_sub(1)?;
        match self.nodes[last] {
            Node::One(other) => { if other == token { Some(last) } else { None } }
            Node::Joined(_, _) => None,
        }
    }

    /// Adds the list of one token.
    fn add_one(&mut self, token: u32) -> Result<TokenList, AllocError>
        ensures keeps { Keeps self.old self.new }
        ensures there { IfOk result (λ l. IsAmong self.new l.0) }
        ensures list { IfOk result (λ l. list_of self.new l ≡ token ∷ []) }
    {
        let number = self.nodes.len();
        self.nodes.push(Node::One(token))?;
        Ok(TokenList(Some(number)))
    }

    /// The list of one token: the last one, or else a new one.
    pub(crate) fn one(&mut self, token: u32) -> Result<TokenList, AllocError>
        ensures keeps { Keeps self.old self.new }
        ensures there { IfOk result (λ l. IsAmong self.new l.0) }
        ensures list { IfOk result (λ l. list_of self.new l ≡ token ∷ []) }
    {
        let last = self.last_of(token);
        if last.is_some() {
            return Ok(TokenList(last));
        }
        self.add_one(token)
    }

    /// The number of the list, if it has a token.
    pub(crate) fn some(&self, list: TokenList) -> Option<usize>
        ensures same { list_at self.now result ≡ list_of self.now list }
        ensures there { IsAmong self.now result }
        ensures full { IfSome result (λ _. 0 < length (list_at self.now result)) }
    {
        limited(list, self.nodes.len())
    }

    /// Adds two lists behind one another.
    fn join(&mut self, first: usize, second: usize) -> Result<TokenList, AllocError>
        requires first { first < length self.old }
        requires second { second < length self.old }
        ensures keeps { Keeps self.old self.new }
        ensures there { IfOk result (λ l. IsAmong self.new l.0) }
        ensures list { IfOk result (λ l. list_of self.new l
            ≡ list_at self.old (Some first) ++ list_at self.old (Some second)) }
    {
        let number = self.nodes.len();
        self.nodes.push(Node::Joined(first, second))?;
        Ok(TokenList(Some(number)))
    }

    /// Two lists behind one another.
    pub(crate) fn joined(
        &mut self,
        first: TokenList,
        second: TokenList,
    ) -> Result<TokenList, AllocError>
        ensures keeps { Keeps self.old self.new }
        ensures there { IfOk result (λ l. IsAmong self.new l.0) }
        ensures list { IfOk result (λ l. list_of self.new l
            ≡ list_of self.old first ++ list_of self.old second) }
    {
        let left = self.some(first);
        let right = self.some(second);
        match left {
            Some(one) => match right {
                Some(two) => self.join(one, two),
                None => Ok(TokenList(left)),
            },
            None => Ok(TokenList(right)),
        }
    }

    /// How the lists of two numbers lie to one another.
    fn compare_at(&self, alloc: Global, first: usize, second: usize) -> Result<Compared, AllocError>
        requires first { first < length self.now }
        requires second { second < length self.now }
        ensures { IfOk result (λ c. c
            ≡ compared (list_at self.now (Some first)) (list_at self.now (Some second))) }
    {
        if first == second {
            return Ok(Compared::Same);
        }
        let found = split_of(alloc, self.nodes.as_slice(), first, second)?;
        Ok(found.compared)
    }

    /// How two lists lie to one another.
    pub(crate) fn compare(
        &self,
        alloc: Global,
        first: TokenList,
        second: TokenList,
    ) -> Result<Compared, AllocError>
        ensures { IfOk result (λ c. c
            ≡ compared (list_of self.now first) (list_of self.now second)) }
    {
        let left = self.some(first);
        let right = self.some(second);
        match left {
            Some(one) => match right {
                Some(two) => self.compare_at(alloc, one, two),
                None => Ok(Compared::SecondShorter),
            },
            None => match right {
                Some(_) => Ok(Compared::FirstShorter),
                None => Ok(Compared::Same),
            },
        }
    }

    /// Parts behind one another.
    fn all_joined(&mut self, parts: &[usize]) -> Result<TokenList, AllocError>
        ensures keeps { Keeps self.old self.new }
        ensures there { IfOk result (λ l. IsAmong self.new l.0) }
        ensures list { IfOk result (λ l. list_of self.new l ≡ written self.old parts.now) }
    {
        let limit = self.nodes.len();
        let mut all = TokenList(None);
        'parts: for part in parts {
            let next = TokenList(limited(TokenList(Some(*part)), limit));
            all = self.joined(all, next)?;
        }
        Ok(all)
    }

    /// The longest common beginning of two lists that have tokens.
    fn common_of(
        &mut self,
        alloc: Global,
        first: usize,
        second: usize,
    ) -> Result<TokenList, AllocError>
        requires first { first < length self.old }
        requires second { second < length self.old }
        ensures keeps { Keeps self.old self.new }
        ensures there { IfOk result (λ l. IsAmong self.new l.0) }
        ensures list { IfOk result (λ l. list_of self.new l
            ≡ common_prefix (list_at self.old (Some first)) (list_at self.old (Some second))) }
    {
        let found = split_of(alloc, self.nodes.as_slice(), first, second)?;
        match found.compared {
            Compared::Same => Ok(TokenList(Some(first))),
            Compared::FirstShorter => Ok(TokenList(Some(first))),
            Compared::SecondShorter => Ok(TokenList(Some(second))),
            Compared::Apart => self.all_joined(found.common.as_slice()),
        }
    }

    /// The longest list with which both begin.
    pub(crate) fn common(
        &mut self,
        alloc: Global,
        first: TokenList,
        second: TokenList,
    ) -> Result<TokenList, AllocError>
        ensures keeps { Keeps self.old self.new }
        ensures there { IfOk result (λ l. IsAmong self.new l.0) }
        ensures list { IfOk result (λ l. list_of self.new l
            ≡ common_prefix (list_of self.old first) (list_of self.old second)) }
    {
        let left = self.some(first);
        let right = self.some(second);
        match left {
            Some(one) => match right {
                Some(two) => self.common_of(alloc, one, two),
                None => Ok(TokenList(None)),
            },
            None => Ok(TokenList(None)),
        }
    }
}
