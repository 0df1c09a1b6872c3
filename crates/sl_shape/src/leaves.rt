//! The shapes of names and constraints.

ghost use Rattle.std.specs.Prelude.{◌≡◌, ℕ, IfOk, None, get_or};
ghost use Rattle.sl_shape.specs.Below.{AreSized, Gets, Shows};
ghost use Rattle.sl_shape.specs.declared.below.TokenLists.{TokenLists};
ghost use Rattle.sl_shape.specs.PatternShapes.{Shapes, field_shape, name_shape, shape_by};
ghost use Rattle.sl_shape.specs.PatternShapes.{table_shape};
ghost use Rattle.sl_spec.specs.Named.{index_named, named};

use crate::below::{Below, TokenLists};
use sl_shape_tokens::{Shape, of_nothing};
use sl_spec::Field;
use std::alloc::AllocError;

impl Below<'_, '_> {
    /// The shape of a field.
    fn field_shape(&self, field: &Field, lists: &mut TokenLists) -> Result<Shape, AllocError>
        requires { AreSized self.now lists.old }
        ensures sized { IfOk result (λ _. AreSized self.now lists.new) }
        ensures shape { IfOk result (λ s. (shapes : Shapes) → Shows self.now lists.old shapes
            → Gets self.now shapes lists.old lists.new (field_shape field.now) s) }
    {
        match field.token {
            Some(token) => {
                let shape = lists.all.of_token(token)?;
                Ok(shape)
            }
            None => Ok(of_nothing()),
        }
    }

    /// The shape of the table of this name.
    fn table_shape(&self, name: &[u8]) -> Shape
        ensures { (lists : TokenLists) (shapes : Shapes)
            → Shows self.now lists shapes → Gets self.now shapes lists lists
            (table_shape shapes (index_named (λ b. b.name) name.now self.now.tables.now.tables))
            result }
    {
        let tables = self.tables;
        let Some(index) = tables.tables.index_of(name) else {
            return of_nothing();
        };
        match self.shapes.get(index) {
            Some(shape) => *shape,
            None => of_nothing(),
        }
    }

    /// The shape of a constraint on the field of this name.
    pub fn constraint_shape(&self, name: &[u8], lists: &mut TokenLists) -> Result<Shape, AllocError>
        requires { AreSized self.now lists.old }
        ensures sized { IfOk result (λ _. AreSized self.now lists.new) }
        ensures shape { IfOk result (λ s. (shapes : Shapes) → Shows self.now lists.old shapes
            → Gets self.now shapes lists.old lists.new (shape_by shapes
            (named (λ f. f.name) name.now self.now.tables.now.fields) None) s) }
    {
        let tables = self.tables;
        match tables.fields.get(name) {
            Some(field) => self.field_shape(field, lists),
            None => Ok(of_nothing()),
        }
    }

    /// The shape of a name by itself.
    pub fn name_shape(&self, name: &[u8], lists: &mut TokenLists) -> Result<Shape, AllocError>
        requires { AreSized self.now lists.old }
        ensures sized { IfOk result (λ _. AreSized self.now lists.new) }
        ensures shape { IfOk result (λ s. (shapes : Shapes) → Shows self.now lists.old shapes
            → Gets self.now shapes lists.old lists.new
            (name_shape self.now.tables.now shapes name.now) s) }
    {
        if name == b"epsilon".as_slice() {
            return Ok(of_nothing());
        }
        let tables = self.tables;
        match tables.fields.get(name) {
            Some(field) => self.field_shape(field, lists),
            None => Ok(self.table_shape(name)),
        }
    }
}
