//! Constraints as they are written.

ghost use Rattle.std.specs.Prelude.{◌≡◌, option_map};
ghost use Rattle.sl_ast.specs.Views.{expression_of};
ghost use Rattle.sl_shape_constraints.specs.Views as view;
ghost use Rattle.sl_shape_patterns.specs.Patterns.{constraint_of, relation_of};

use sl_ast::expressions::Expr;
use sl_ast::patterns;
use sl_shape_blocks::Relation;
use sl_shape_constraints::Constraint;
use sl_spec::Tables;
use sl_spec_constructors::constraint_value;

fn relation_of(written: patterns::Relation) -> Relation
    ensures { result ≡ relation_of written }
{
    match written {
        patterns::Relation::Equal => Relation::Equal,
        patterns::Relation::NotEqual => Relation::NotEqual,
        patterns::Relation::Less => Relation::Less,
        patterns::Relation::LessEqual => Relation::LessEqual,
        patterns::Relation::Greater => Relation::Greater,
        patterns::Relation::GreaterEqual => Relation::GreaterEqual,
    }
}

/// The constraint that is written; none where the name is no field's or the expression has no
/// value.
pub fn constraint_of<'r, 'a>(
    t: &'r Tables<'a>,
    name: &[u8],
    relation: patterns::Relation,
    value: &Expr,
) -> Option<Constraint<'r, 'a>>
    ensures { option_map view.constraint_of result
        ≡ constraint_of t.now name.now relation (expression_of value.now) }
{
    let field = t.fields.get(name)?;
    let number = constraint_value(value)?;
    Some(Constraint {
        tokens: &t.tokens,
        field,
        relation: relation_of(relation),
        number,
    })
}
