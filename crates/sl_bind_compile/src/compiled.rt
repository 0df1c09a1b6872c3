//! A specification that keeps all rules, whose sizes are fixed and whose tables are sound.

ghost use Rattle.sl_ast.specs.Views.{items_of};
ghost use Rattle.sl_bind_compile.specs.Outcomes.{all_constructors};
ghost use Rattle.sl_conflict.specs.Soundness.{IsSound};
ghost use Rattle.sl_conflict.specs.TableTests.{AreSetsOf};

use sl_bind::Bound;
use sl_conflict::Checked;

/// A specification with its tables, and the sets of all constructors, table by table.
#[derive(Drop)]
pub struct Compiled<'a> {
    pub bound: Bound<'a>,
    pub checked: Checked,
    pub ghost sound: { ∥ IsSound bound.tables (all_constructors (items_of bound.spec)) ∥₁ },
    pub ghost sets: { ∥ AreSetsOf bound.tables (all_constructors (items_of bound.spec))
        checked.tables.items ∥₁ },
}
