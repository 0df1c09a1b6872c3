//! Kinds of patterns, and shapes.

ghost use Rattle.std.specs.Prelude.{◌≡◌};
ghost use Rattle.sl_shape_tokens.specs.Meets.{table_kind};
ghost use Rattle.sl_shape_tokens.specs.Shapes.{extended_kind, is_fixed, is_same, longer_kind};
ghost use Rattle.sl_shape_tokens.specs.Shapes.{same_kind};

use crate::nodes::TokenList;

/// How the length of a pattern lies to its list of tokens.
#[derive(Clone, Copy, Debug, PartialEq, Eq)]
pub enum Kind {
    /// Just these tokens.
    Fixed,
    /// These tokens, and maybe more behind them.
    Trailing,
    /// These tokens at the beginning, and more in places that differ.
    Varying,
}

/// How two lists lie to one another.
#[derive(Clone, Copy, Debug, PartialEq, Eq)]
pub enum Compared {
    Same,
    /// The first is the beginning of the second, which is longer.
    FirstShorter,
    SecondShorter,
    Apart,
}

/// The shape of a pattern.
#[derive(Clone, Copy, Debug, PartialEq, Eq)]
pub struct Shape {
    pub kind: Kind,
    pub tokens: TokenList,
}

impl Kind {
    pub fn is_fixed(self) -> bool
        ensures { result ≡ is_fixed self }
    {
        match self {
            Kind::Fixed => true,
            Kind::Trailing => false,
            Kind::Varying => false,
        }
    }

    /// The kind of two patterns with the same list.
    pub fn with_same(self, other: Kind) -> Kind
        ensures { result ≡ same_kind self other }
    {
        match self {
            Kind::Varying => Kind::Varying,
            Kind::Fixed => match other {
                Kind::Varying => Kind::Varying,
                Kind::Fixed => Kind::Fixed,
                Kind::Trailing => Kind::Fixed,
            },
            Kind::Trailing => other,
        }
    }

    /// The kind of two patterns, of which this one has the shorter list.
    pub fn with_longer(self, longer: Kind) -> Kind
        ensures { result ≡ longer_kind self longer }
    {
        match self {
            Kind::Varying => Kind::Varying,
            Kind::Fixed => longer,
            Kind::Trailing => longer,
        }
    }

    /// The kind of a pattern with `...` behind it.
    pub fn extended(self) -> Kind
        ensures { result ≡ extended_kind self }
    {
        match self {
            Kind::Fixed => Kind::Trailing,
            Kind::Trailing => Kind::Trailing,
            Kind::Varying => Kind::Varying,
        }
    }

    /// The kind of a table of one constructor.
    pub fn of_table(self) -> Kind
        ensures { result ≡ table_kind self }
    {
        match self {
            Kind::Fixed => Kind::Fixed,
            Kind::Trailing => Kind::Varying,
            Kind::Varying => Kind::Varying,
        }
    }
}

impl Compared {
    pub fn is_same(self) -> bool
        ensures { result ≡ is_same self }
    {
        match self {
            Compared::Same => true,
            Compared::FirstShorter => false,
            Compared::SecondShorter => false,
            Compared::Apart => false,
        }
    }
}
