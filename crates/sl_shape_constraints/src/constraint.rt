//! Constraints.

use sl_shape_blocks::Relation;
use sl_spec::{Field, Named, Token};

/// A constraint of a pattern: a field compared with a number (SLEIGH manual, "Constraints"). The
/// field's token is one of `tokens`.
#[derive(Clone, Copy)]
pub struct Constraint<'t, 'a> {
    pub tokens: &'t Named<'a, Token<'a>>,
    pub field: &'t Field<'a>,
    pub relation: Relation,
    pub number: i64,
}
