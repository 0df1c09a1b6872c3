//! The lengths of patterns, by the shapes of tables.

ghost use Rattle.std.specs.Prelude.{◌≡◌, None, get_or};
ghost use Rattle.sl_ast.specs.Views.{pattern_of};
ghost use Rattle.sl_shape.specs.Extents.{extent, extent_of, kept};
ghost use Rattle.sl_shape.specs.PatternShapes.{field_shape, name_shape, shape_by, table_shape};
ghost use Rattle.sl_shape.specs.PatternShapes.{token_sizes};
ghost use Rattle.sl_shape.specs.Views.{shapes_of};
ghost use Rattle.sl_shape_tokens.specs.Lists.{seen};
ghost use Rattle.sl_spec.specs.Named.{index_named, named};

use crate::extent::Extent;
use crate::extents::Extents;
use sl_ast::patterns::Pattern;
use sl_shape_patterns::Lengths;
use sl_shape_tokens::{Kind, Shape};
use sl_spec::{Field, Tables};
use std::alloc::{AllocError, Global};

/// The bytes of a token; 0 where there is none of this number.
fn token_bytes(t: &Tables, token: u32) -> u32
    ensures { result ≡ get_or (token_sizes t.now) token 0 }
{
    match t.tokens.at(token as usize) {
        Some(token) => u32::from(token.bits) / 8,
        None => 0,
    }
}

/// The extent of a field.
fn field_extent(t: &Tables, field: &Field) -> Extent
    ensures { result ≡ kept (extent t.now (field_shape field.now)) }
{
    match field.token {
        Some(token) => Extent {
            kind: Kind::Fixed,
            is_empty: false,
            bytes: token_bytes(t, token),
        },
        None => Extent::of_nothing(),
    }
}

impl Extents<'_, '_> {
    /// The extent of a shape.
    fn of_shape(&self, shape: Shape) -> Extent
        ensures { result ≡ kept (extent self.now.tables.now (seen self.now.lists.now shape)) }
    {
        let lists = self.lists;
        let bytes = self.bytes;
        Extent {
            kind: shape.kind,
            is_empty: lists.is_empty(shape),
            bytes: bytes.bytes(shape),
        }
    }

    /// The extent of the table of this name.
    fn of_table(&self, name: &[u8]) -> Extent
        ensures { result ≡ kept (extent self.now.tables.now (table_shape (shapes_of self.now)
            (index_named (λ b. b.name) name.now self.now.tables.now.tables))) }
    {
        let tables = self.tables;
        let Some(index) = tables.tables.index_of(name) else {
            return Extent::of_nothing();
        };
        match self.shapes.get(index) {
            Some(shape) => self.of_shape(*shape),
            None => Extent::of_nothing(),
        }
    }

    /// The extent of a name by itself.
    fn of_name(&self, name: &[u8]) -> Extent
        ensures { result ≡ kept (extent self.now.tables.now
            (name_shape self.now.tables.now (shapes_of self.now) name.now)) }
    {
        if name == b"epsilon".as_slice() {
            return Extent::of_nothing();
        }
        let tables = self.tables;
        match tables.fields.get(name) {
            Some(field) => field_extent(tables, field),
            None => self.of_table(name),
        }
    }

    /// The extent of a constraint on the field of this name.
    fn of_constraint(&self, name: &[u8]) -> Extent
        ensures { result ≡ kept (extent self.now.tables.now (shape_by (shapes_of self.now)
            (named (λ f. f.name) name.now self.now.tables.now.fields) None)) }
    {
        let tables = self.tables;
        match tables.fields.get(name) {
            Some(field) => field_extent(tables, field),
            None => Extent::of_nothing(),
        }
    }

    /// The extent of a pattern.
    fn of_pattern(&self, of: &Pattern) -> Extent
        ensures { result ≡ kept (extent_of self.now.tables.now (shapes_of self.now)
            (pattern_of of.now)) }
    {
        match of {
            Pattern::Name(name) => self.of_name(name),
            Pattern::Constraint(name, _, _) => self.of_constraint(name),
            Pattern::Paren(inner) => self.of_pattern(inner),
            Pattern::Ellipsis(inner) => {
                let extent = self.of_pattern(inner);
                extent.with_kind(extent.kind.extended())
            }
            Pattern::Joined(op, left, right) => {
                let first = self.of_pattern(left);
                let second = self.of_pattern(right);
                Extent::joined(*op, first, second)
            }
        }
    }
}

impl Lengths for Extents<'_, '_> {
    ghost use Rattle.sl_shape.specs.Views.{bytes_by};

    ghost bytes = { bytes_by };

    fn bytes_of(&self, _alloc: Global, of: &Pattern) -> Result<Option<u32>, AllocError> {
        Ok(self.of_pattern(of).fixed())
    }
}
