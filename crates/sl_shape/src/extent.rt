//! How long patterns are, without their tokens.

ghost use Rattle.std.specs.Prelude.{◌≡◌, ◌&&◌, max, None};
ghost use Rattle.sl_ast.specs.declared.patterns.PatternOp.TheVariants.{Then};
ghost use Rattle.sl_shape_patterns.specs.Patterns.{capped};
ghost use Rattle.sl_shape.specs.Extents as spec;
ghost use Rattle.sl_shape.specs.Extents.{extent, extent_bytes, joined_extents, kept};
ghost use Rattle.sl_shape.specs.PatternShapes.{token_shape};
ghost use Rattle.sl_spec.specs.declared.tables.Tables as tables;

use sl_ast::patterns::PatternOp;
use sl_shape_tokens::Kind;

/// The kind of a pattern, whether it has no token, and the bytes of its tokens, at most
/// 4,294,967,295.
#[derive(Clone, Copy, Debug, PartialEq, Eq)]
pub struct Extent {
    pub kind: Kind,
    pub is_empty: bool,
    pub bytes: u32,
}

impl Extent {
    /// What has no token.
    pub fn of_nothing() -> Self
        ensures { (t : tables.Tables) → result ≡ kept (extent t (token_shape None)) }
    {
        Extent {
            kind: Kind::Fixed,
            is_empty: true,
            bytes: 0,
        }
    }

    /// The kind of this one, which is fixed, joined by `&` with one that may be followed by more.
    fn beside_trailing(self, other: Extent) -> Kind
        ensures { result ≡ spec.beside_trailing self.is_empty other.is_empty }
    {
        if self.is_empty && !other.is_empty {
            Kind::Trailing
        } else {
            Kind::Fixed
        }
    }

    fn kind_with(self, other: Extent) -> Kind
        ensures { result ≡ spec.both_kinds self.kind self.is_empty other.kind other.is_empty }
    {
        match self.kind {
            Kind::Varying => Kind::Varying,
            Kind::Fixed => match other.kind {
                Kind::Varying => Kind::Varying,
                Kind::Fixed => Kind::Fixed,
                Kind::Trailing => self.beside_trailing(other),
            },
            Kind::Trailing => match other.kind {
                Kind::Varying => Kind::Varying,
                Kind::Fixed => other.beside_trailing(self),
                Kind::Trailing => Kind::Trailing,
            },
        }
    }

    pub fn with_kind(self, kind: Kind) -> Extent
        ensures { result ≡ record { kind = kind; is_empty = self.is_empty; bytes = self.bytes } }
    {
        Extent {
            kind,
            is_empty: self.is_empty,
            bytes: self.bytes,
        }
    }

    /// Of `P ; Q`.
    fn followed(self, next: Extent) -> Extent
        ensures { (a b : spec.Extent) → self ≡ kept a → next ≡ kept b
            → result ≡ kept (joined_extents Then a b) }
    {
        match self.kind {
            Kind::Fixed => Extent {
                kind: next.kind,
                is_empty: self.is_empty && next.is_empty,
                bytes: self.bytes.saturating_add(next.bytes),
            },
            Kind::Trailing => self.with_kind(Kind::Varying),
            Kind::Varying => self.with_kind(Kind::Varying),
        }
    }

    /// Of `P & Q` and `P | Q`, by the kind.
    fn beside(self, other: Extent, kind: Kind) -> Extent
        ensures { (a b : spec.Extent) → self ≡ kept a → other ≡ kept b → result ≡ kept (record {
          kind = kind;
          is_empty = a.is_empty && b.is_empty;
          bytes = max a.bytes b.bytes;
        }) }
    {
        Extent {
            kind,
            is_empty: self.is_empty && other.is_empty,
            bytes: self.bytes.max(other.bytes),
        }
    }

    pub fn joined(op: PatternOp, left: Extent, right: Extent) -> Extent
        ensures { (a b : spec.Extent) → left ≡ kept a → right ≡ kept b
            → result ≡ kept (joined_extents op a b) }
    {
        match op {
            PatternOp::And => left.beside(right, left.kind_with(right)),
            PatternOp::Then => left.followed(right),
            PatternOp::Or => left.beside(right, Kind::Fixed),
        }
    }

    /// The bytes of a fixed pattern.
    pub fn fixed(self) -> Option<u32>
        ensures { (e : spec.Extent) → self ≡ kept e → result ≡ capped (extent_bytes e) }
    {
        if self.kind.is_fixed() {
            return Some(self.bytes);
        }
        None
    }
}
