//! The bytes that patterns look at.

ghost use Rattle.std.specs.Prelude.{◌≡◌, ◌∷◌, [], ℕ, Some, IfOk};
ghost use Rattle.sl_ast.specs.Views.{constructor_of, expression_of, head_of, pattern_of};
ghost use Rattle.sl_shape_constraints.specs.Windows.{IsEnd};
ghost use Rattle.sl_shape_patterns.specs.Heads.{IsHeadWindow, KeepsOthers};
ghost use Rattle.sl_shape_patterns.specs.Patterns.{constraint_of, told};
ghost use Rattle.sl_shape_patterns.specs.Views.{reading_of};
ghost use Rattle.sl_shape_patterns.specs.Windows.{FixesByte, IfConstrains, IsWindow};
ghost use Rattle.sl_shape_patterns.specs.Windows.{NameConstrains};
ghost use Rattle.sl_shape_patterns.specs.Windows.{PatternConstrains, end_from};
ghost use Rattle.sl_spec.specs.Numbers.{AreMadeFor, KeepsMade};
ghost use Rattle.sl_spec.specs.Unfolded.{heads_of, placed, under};

use crate::constraints::constraint_of;
use crate::reader::{Lengths, Reader};
use sl_ast::constructors::Constructor;
use sl_ast::expressions::Expr;
use sl_ast::patterns::{Pattern, Relation};
use sl_cube::Cube;
use sl_spec::{Around, ByBlock, Tables, Unfolded};
use std::alloc::{AllocError, Global};

/// The bytes up to the last one of which the cube fixes a bit.
fn bytes_fixed(hull: &Cube) -> u32
    ensures { IsEnd (FixesByte (Some hull.now)) result }
{
    if hull.mask == 0 {
        return 0;
    }
    16 - hull.mask.trailing_zeros() / 8
}

/// The end of the bytes from the place on.
fn end_from(place: u32, end: u32) -> u32
    ensures { (at : ℕ) → place ≡ told at → result ≡ told (end_from at end) }
{
    if end == 0 {
        0
    } else {
        place.saturating_add(end)
    }
}

/// The bytes of its token up to the last one that the constraint looks at.
fn constraint_end(t: &Tables, name: &[u8], relation: Relation, value: &Expr) -> u32
    ensures { IsEnd
        (IfConstrains (constraint_of t.now name.now relation (expression_of value.now))) result }
{
    match constraint_of(t, name, relation, value) {
        Some(constraint) => constraint.window(),
        None => 0,
    }
}

impl<L: Lengths> Reader<'_, '_, L> {
    /// The bytes up to the last one that the name by itself looks at.
    fn name_end(&self, name: &[u8]) -> u32
        ensures { IsEnd (NameConstrains (reading_of L.bytes self.now) name.now) result }
    {
        if self.is_open(name) {
            return 0;
        }
        match self.hull_named(name) {
            Some(hull) => bytes_fixed(&hull),
            None => 0,
        }
    }

    /// The bytes up to the last one that the pattern looks at, read from the place on.
    pub fn pattern_window(&self, alloc: Global, of: &Pattern, place: u32) -> Result<u32, AllocError>
        ensures { IfOk result (λ window. (at : ℕ) → place ≡ told at → IsWindow
            (PatternConstrains (reading_of L.bytes self.now) (pattern_of of.now) at) window) }
    {
        match of {
            Pattern::Name(name) => Ok(end_from(place, self.name_end(name))),
            Pattern::Constraint(name, relation, value) => {
                let end = constraint_end(self.tables, name, *relation, value);
                Ok(end_from(place, end))
            }
            Pattern::Paren(inner) => {
                let window = self.pattern_window(alloc, inner, place)?;
                Ok(window)
            }
            Pattern::Ellipsis(inner) => {
                let window = self.pattern_window(alloc, inner, place)?;
                Ok(window)
            }
            Pattern::Joined(op, left, right) => {
                let first = self.pattern_window(alloc, left, place)?;
                let from = self.right_place(alloc, *op, place, left)?;
                let second = self.pattern_window(alloc, right, from)?;
                Ok(first.max(second))
            }
        }
    }

    /// The bytes up to the last one that the pattern of a block looks at, made where they aren't
    /// there yet.
    fn window_of_block(
        &self,
        alloc: Global,
        block: &Around,
        pattern: &Pattern,
        windows: &mut ByBlock<u32>,
    ) -> Result<u32, AllocError>
        requires its { (head_of block.now.head.now).pattern ≡ Some (pattern_of pattern.now) }
        requires made { AreMadeFor (IsHeadWindow (reading_of L.bytes self.now)) (block.now ∷ [])
            windows.old }
        ensures window { IfOk result (IsWindow (PatternConstrains (reading_of L.bytes self.now)
            (pattern_of pattern.now) 0)) }
        ensures kept { IfOk result (λ _. KeepsMade (IsHeadWindow (reading_of L.bytes self.now))
            (block.now ∷ []) windows.old windows.new) }
        ensures others { IfOk result (λ _.
            KeepsOthers (block.now ∷ []) windows.old windows.new) }
    {
        if let Some(window) = windows.get(block.number) {
            return Ok(*window);
        }
        let window = self.pattern_window(alloc, pattern, 0)?;
        windows.put(block.number, window)?;
        Ok(window)
    }

    /// The bytes up to the last one that a constructor in its blocks looks at.
    fn window_in_blocks(
        &self,
        alloc: Global,
        heads: &[Around],
        own: &Constructor,
        windows: &mut ByBlock<u32>,
    ) -> Result<u32, AllocError>
        requires { AreMadeFor (IsHeadWindow (reading_of L.bytes self.now)) heads.now windows.old }
        ensures window { IfOk result (IsWindow (PatternConstrains (reading_of L.bytes self.now)
            (under (heads_of heads.now) (constructor_of own.now)).pattern 0)) }
        ensures kept { IfOk result (λ _. KeepsMade (IsHeadWindow (reading_of L.bytes self.now))
            heads.now windows.old windows.new) }
        ensures others { IfOk result (λ _. KeepsOthers heads.now windows.old windows.new) }
    {
        let Some((first, rest)) = heads.split_first() else {
            let window = self.pattern_window(alloc, &own.pattern, 0)?;
            return Ok(window);
        };
        let inside = self.window_in_blocks(alloc, rest, own, windows)?;
        let head = first.head;
        let Some(pattern) = &head.pattern else {
            return Ok(inside);
        };
        let around = self.window_of_block(alloc, first, pattern, windows)?;
        Ok(around.max(inside))
    }

    /// The bytes up to the last one that a constructor looks at, with the patterns of the blocks
    /// round it. The number stops at 4,294,967,295. `windows` has those of the blocks' patterns
    /// that were made already, and then of all blocks round this constructor.
    pub fn constructor_window(
        &self,
        alloc: Global,
        of: &Unfolded,
        windows: &mut ByBlock<u32>,
    ) -> Result<u32, AllocError>
        requires { AreMadeFor (IsHeadWindow (reading_of L.bytes self.now)) of.now.heads.items
            windows.old }
        ensures window { IfOk result (IsWindow (PatternConstrains (reading_of L.bytes self.now)
            (placed of.now).1.pattern 0)) }
        ensures kept { IfOk result (λ _. KeepsMade (IsHeadWindow (reading_of L.bytes self.now))
            of.now.heads.items windows.old windows.new) }
        ensures others { IfOk result (λ _.
            KeepsOthers of.now.heads.items windows.old windows.new) }
    {
        let own = of.own;
        let window = self.window_in_blocks(alloc, of.heads.as_slice(), own, windows)?;
        Ok(window)
    }
}
