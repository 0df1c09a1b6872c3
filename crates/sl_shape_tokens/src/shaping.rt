//! The shapes of patterns from those of their parts.

ghost use Rattle.std.specs.Prelude.{◌≡◌, ◌∷◌, ℕ, List, Option, IfOk, IfSome, option_map, map};
ghost use Rattle.sl_shape_tokens.specs.Lists.{IsThere, Keeps, limited, list_of, seen};
ghost use Rattle.sl_shape_tokens.specs.Meets.{met, start};
ghost use Rattle.sl_shape_tokens.specs.Shapes as spec;

use crate::lists::{Lists, limited};
use crate::nodes::TokenList;
use crate::shapes::{Compared, Kind, Shape};
use std::alloc::{AllocError, Global};

/// The shape of a field of the context, and of `epsilon`.
pub fn of_nothing() -> Shape
    ensures shape { (lists : List (List ℕ)) → seen lists result ≡ spec.of_nothing }
    ensures there { (lists : List (List ℕ)) → IsThere lists result }
{
    Shape {
        kind: Kind::Fixed,
        tokens: TokenList(None),
    }
}

/// The shape of a pattern with `...` behind it.
pub fn extended(shape: Shape) -> Shape
    ensures shape { (lists : List (List ℕ))
        → seen lists result ≡ spec.extended (seen lists shape) }
    ensures there { (lists : List (List ℕ)) → IsThere lists shape → IsThere lists result }
{
    Shape {
        kind: shape.kind.extended(),
        tokens: shape.tokens,
    }
}

/// A shape with a list that is there below the limit.
fn within(shape: Shape, limit: usize) -> Shape
    ensures kind { result.kind ≡ shape.kind }
    ensures tokens { result.tokens.0 ≡ limited limit shape.tokens.0 }
{
    Shape {
        kind: shape.kind,
        tokens: TokenList(limited(shape.tokens, limit)),
    }
}

impl Shape {
    /// The shape of a table of this constructor alone.
    fn in_table(self) -> Shape
        ensures { (lists : List (List ℕ)) → seen lists result ≡ start (seen lists self) }
    {
        Shape {
            kind: self.kind.of_table(),
            tokens: self.tokens,
        }
    }
}

impl Lists {
    /// The shape with a list that is there.
    fn own(&self, shape: Shape) -> Shape
        ensures same { seen self.now result ≡ seen self.now shape }
        ensures there { IsThere self.now result }
    {
        within(shape, self.len())
    }

    /// The shape of a field of a token.
    pub fn of_token(&mut self, token: u32) -> Result<Shape, AllocError>
        ensures keeps { Keeps self.old self.new }
        ensures there { IfOk result (λ s. IsThere self.new s) }
        ensures shape { IfOk result (λ s. seen self.new s ≡ spec.of_token token) }
    {
        let tokens = self.one(token)?;
        Ok(Shape {
            kind: Kind::Fixed,
            tokens,
        })
    }

    /// The shape of `P ; Q`.
    pub fn followed(&mut self, first: Shape, second: Shape) -> Result<Shape, AllocError>
        ensures keeps { Keeps self.old self.new }
        ensures there { IfOk result (λ s. IsThere self.new s) }
        ensures shape { IfOk result (λ s. seen self.new s
            ≡ spec.followed (seen self.old first) (seen self.old second)) }
    {
        if first.kind.is_fixed() {
            let tokens = self.joined(first.tokens, second.tokens)?;
            return Ok(Shape {
                kind: second.kind,
                tokens,
            });
        }
        Ok(Shape {
            kind: Kind::Varying,
            tokens: self.own(first).tokens,
        })
    }

    /// Whether a shape has no token.
    pub fn is_empty(&self, shape: Shape) -> bool
        ensures { result ≡ spec.is_empty (list_of self.now shape.tokens) }
    {
        self.some(shape.tokens).is_none()
    }

    /// The shape of two patterns joined by `&`, the first of which has the shorter list.
    fn beside(&self, short: Shape, long: Shape) -> Option<Shape>
        ensures there { IsThere self.now long → IfSome result (λ s. IsThere self.now s) }
        ensures shape { option_map (seen self.now) result
            ≡ spec.beside (seen self.now short) (seen self.now long) }
    {
        if self.is_empty(short) || !short.kind.is_fixed() {
            return Some(Shape {
                kind: short.kind.with_longer(long.kind),
                tokens: long.tokens,
            });
        }
        None
    }

    /// The shape of `P & Q`, where both lists are there.
    fn both_of(
        &self,
        alloc: Global,
        first: Shape,
        second: Shape,
    ) -> Result<Option<Shape>, AllocError>
        requires first { IsThere self.now first }
        requires second { IsThere self.now second }
        ensures there { IfOk result (λ r. IfSome r (λ s. IsThere self.now s)) }
        ensures shape { IfOk result (λ r. option_map (seen self.now) r
            ≡ spec.both (seen self.now first) (seen self.now second)) }
    {
        let compared = self.compare(alloc, first.tokens, second.tokens)?;
        match compared {
            Compared::Same => Ok(Some(Shape {
                kind: first.kind.with_same(second.kind),
                tokens: first.tokens,
            })),
            Compared::FirstShorter => Ok(self.beside(first, second)),
            Compared::SecondShorter => Ok(self.beside(second, first)),
            Compared::Apart => Ok(None),
        }
    }

    /// The shape of `P & Q`. `None` exactly where their tokens differ: neither list begins with the
    /// other, or a fixed pattern has a shorter one, and not an empty one.
    pub fn both(
        &self,
        alloc: Global,
        first: Shape,
        second: Shape,
    ) -> Result<Option<Shape>, AllocError>
        ensures there { IfOk result (λ r. IfSome r (λ s. IsThere self.now s)) }
        ensures shape { IfOk result (λ r. option_map (seen self.now) r
            ≡ spec.both (seen self.now first) (seen self.now second)) }
    {
        let shape = self.both_of(alloc, self.own(first), self.own(second))?;
        Ok(shape)
    }

    /// One of two shapes, if the other one has no token.
    fn or_empty(&self, shape: Shape, other: Shape) -> Option<Shape>
        ensures there { IsThere self.now shape → IfSome result (λ s. IsThere self.now s) }
        ensures shape { option_map (seen self.now) result
            ≡ spec.or_empty (seen self.now shape) (seen self.now other) }
    {
        if self.is_empty(other) {
            return Some(shape);
        }
        None
    }

    /// The shape of `P | Q`, where both lists are there.
    fn either_of(
        &self,
        alloc: Global,
        first: Shape,
        second: Shape,
    ) -> Result<Option<Shape>, AllocError>
        requires first { IsThere self.now first }
        requires second { IsThere self.now second }
        ensures there { IfOk result (λ r. IfSome r (λ s. IsThere self.now s)) }
        ensures shape { IfOk result (λ r. option_map (seen self.now) r
            ≡ spec.either (seen self.now first) (seen self.now second)) }
    {
        if !first.kind.is_fixed() || !second.kind.is_fixed() {
            return Ok(None);
        }
        let compared = self.compare(alloc, first.tokens, second.tokens)?;
        match compared {
            Compared::Same => Ok(Some(first)),
            Compared::FirstShorter => Ok(self.or_empty(second, first)),
            Compared::SecondShorter => Ok(self.or_empty(first, second)),
            Compared::Apart => Ok(None),
        }
    }

    /// The shape of `P | Q`. `None` exactly where their tokens differ: one of them isn't fixed, or
    /// their lists aren't the same and neither is empty.
    pub fn either(
        &self,
        alloc: Global,
        first: Shape,
        second: Shape,
    ) -> Result<Option<Shape>, AllocError>
        ensures there { IfOk result (λ r. IfSome r (λ s. IsThere self.now s)) }
        ensures shape { IfOk result (λ r. option_map (seen self.now) r
            ≡ spec.either (seen self.now first) (seen self.now second)) }
    {
        let shape = self.either_of(alloc, self.own(first), self.own(second))?;
        Ok(shape)
    }

    /// The shape of a table with one constructor more.
    fn met(&mut self, alloc: Global, so_far: Shape, next: Shape) -> Result<Shape, AllocError>
        ensures keeps { Keeps self.old self.new }
        ensures there { IfOk result (λ s. IsThere self.new s) }
        ensures shape { IfOk result (λ s. seen self.new s
            ≡ met (seen self.old so_far) (seen self.old next)) }
    {
        let compared = self.compare(alloc, so_far.tokens, next.tokens)?;
        if so_far.kind.is_fixed() && next.kind.is_fixed() && compared.is_same() {
            return Ok(self.own(so_far));
        }
        let tokens = self.common(alloc, so_far.tokens, next.tokens)?;
        Ok(Shape {
            kind: Kind::Varying,
            tokens,
        })
    }

    /// The shape of a table that has a constructor.
    fn of_constructors(
        &mut self,
        alloc: Global,
        first: Shape,
        rest: &[Shape],
    ) -> Result<Shape, AllocError>
        ensures keeps { Keeps self.old self.new }
        ensures there { IfOk result (λ s. IsThere self.new s) }
        ensures shape { IfOk result (λ s. seen self.new s
            ≡ spec.of_table (seen self.old first ∷ map (seen self.old) rest.now)) }
    {
        let limit = self.len();
        let mut shape = self.own(first.in_table());
        'constructors: for constructor in rest {
            shape = self.met(alloc, shape, within(*constructor, limit))?;
        }
        Ok(shape)
    }

    /// The shape of a table from those of its constructors.
    pub fn of_table(&mut self, alloc: Global, shapes: &[Shape]) -> Result<Shape, AllocError>
        ensures keeps { Keeps self.old self.new }
        ensures there { IfOk result (λ s. IsThere self.new s) }
        ensures shape { IfOk result (λ s. seen self.new s
            ≡ spec.of_table (map (seen self.old) shapes.now)) }
    {
        match shapes {
            [first, rest @ ..] => self.of_constructors(alloc, *first, rest),
            [] => Ok(of_nothing()),
        }
    }
}
