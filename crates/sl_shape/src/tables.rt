//! The sets of the constructors of a table, and its shape and hull.

ghost use Rattle.std.specs.Prelude.{◌≡◌, ◌∷◌, [], ◌++◌, IfErr, IfOk, OnOk, Some, length};
ghost use Rattle.std.specs.Prelude as lists;
ghost use Rattle.std.specs.List.{AllByRecursion};
ghost use Rattle.sl_shape.specs.Adding.{AreAdded, IsAdded, IsFirstIn, IsStop};
ghost use Rattle.sl_shape.specs.Below.{AreSized, Shows};
ghost use Rattle.sl_shape.specs.HeadsMade.{AreMarked, AreRightOf};
ghost use Rattle.sl_shape.specs.PatternShapes.{Shapes};
ghost use Rattle.sl_shape.specs.Stops.{Stops};
ghost use Rattle.sl_shape.specs.Tables.{CtorTells, IsError, pattern_at};
ghost use Rattle.sl_spec.specs.Unfolded.{all_placed};

use crate::below::{Below, HeadsMade, TokenLists};
use crate::errors::ShapeError;
use crate::faults::Fault;
use crate::stop::Stop;
use sl_cube_sets::CubeSet;
use sl_shape_tokens::{Shape, of_nothing};
use sl_spec::{CtorId, Unfolded};
use std::alloc::{AllocError, Global};

/// A stop at a constructor.
fn stopped(ctor: CtorId, stop: Stop) -> ShapeError
    ensures { IsStop ctor stop result }
{
    match stop {
        Stop::NoMemory => ShapeError::NoMemory,
        Stop::Fault(fault) => match fault {
            Fault::InteriorEllipsis => ShapeError::InteriorEllipsis(ctor),
            Fault::TokensDiffer => ShapeError::TokensDiffer(ctor),
            Fault::Impossible => ShapeError::Impossible(ctor),
            Fault::TooManyCubes(count) => ShapeError::TooManyCubes(ctor, count),
            Fault::WindowTooLong(window) => ShapeError::WindowTooLong(ctor, window),
        },
    }
}

/// Puts a set at the number of its constructor.
fn put(sets: &mut Vec<CubeSet>, index: usize, set: CubeSet)
    ensures { sets.new.items ≡ lists.set sets.old.items index set }
{
    if index < sets.len() {
        sets[index] = set;
    }
}

/// Adds a shape.
fn push(found: &mut Vec<Shape>, shape: Shape) -> Result<(), AllocError>
    ensures { OnOk result (found.new.items ≡ found.old.items ++ shape ∷ []) }
{
    found.push(shape)?;
    Ok(())
}

impl Below<'_, '_> {
    /// Puts the set of a constructor; its shape, or its first fault.
    fn add_set(
        &self,
        alloc: Global,
        constructors: &[Unfolded],
        index: usize,
        sets: &mut Vec<CubeSet>,
        lists: &mut TokenLists,
        made: &mut HeadsMade,
    ) -> Result<Shape, Stop>
        requires sized { AreSized self.now lists.old }
        requires counted { length sets.old.items ≡ length constructors.now }
        requires right { AreRightOf self.now lists.old constructors.now made.old }
        requires marked { AreMarked self.now.tables.now made.old.marks.items
            (pattern_at (all_placed constructors.now) index) }
        ensures sized { IfOk result (λ _. AreSized self.now lists.new) }
        ensures right { IfOk result (λ _.
            AreRightOf self.now lists.new constructors.now made.new) }
        ensures marks { IfOk result (λ _. made.new.marks.items ≡ made.old.marks.items) }
        ensures counted { IfOk result (λ _. length sets.new.items ≡ length constructors.now) }
        ensures added { IfOk result (λ s. (shapes : Shapes) → Shows self.now lists.old shapes
            → IsAdded self.now (all_placed constructors.now) shapes lists.old lists.new
            sets.old.items sets.new.items index s) }
        ensures fault { IfErr result (λ stop. (shapes : Shapes) → Shows self.now lists.old shapes
            → Stops (CtorTells self.now.tables.now (all_placed constructors.now) shapes
            self.now.hulls.now index) stop) }
    {
        let Some(of) = constructors.get(index) else {
            return Ok(of_nothing());
        };
        let (shape, set) = self.constructor(alloc, of, lists, made)?;
        put(sets, index, set);
        Ok(shape)
    }

    /// Puts the set of a constructor; its shape, or an error.
    fn add_constructor(
        &self,
        alloc: Global,
        constructors: &[Unfolded],
        ctor: CtorId,
        sets: &mut Vec<CubeSet>,
        lists: &mut TokenLists,
        made: &mut HeadsMade,
    ) -> Result<Shape, ShapeError>
        requires sized { AreSized self.now lists.old }
        requires counted { length sets.old.items ≡ length constructors.now }
        requires right { AreRightOf self.now lists.old constructors.now made.old }
        requires marked { AreMarked self.now.tables.now made.old.marks.items
            (pattern_at (all_placed constructors.now) ctor) }
        ensures sized { IfOk result (λ _. AreSized self.now lists.new) }
        ensures right { IfOk result (λ _.
            AreRightOf self.now lists.new constructors.now made.new) }
        ensures marks { IfOk result (λ _. made.new.marks.items ≡ made.old.marks.items) }
        ensures counted { IfOk result (λ _. length sets.new.items ≡ length constructors.now) }
        ensures added { IfOk result (λ s. (shapes : Shapes) → Shows self.now lists.old shapes
            → IsAdded self.now (all_placed constructors.now) shapes lists.old lists.new
            sets.old.items sets.new.items ctor s) }
        ensures fault { IfErr result (λ error. (shapes : Shapes) → Shows self.now lists.old shapes
            → IsError (λ i f. (i ≡ ctor) × CtorTells self.now.tables.now
            (all_placed constructors.now) shapes self.now.hulls.now ctor (Some f)) error) }
    {
        match self.add_set(alloc, constructors, ctor.0 as usize, sets, lists, made) {
            Ok(shape) => Ok(shape),
            Err(stop) => Err(stopped(ctor, stop)),
        }
    }

    /// Puts the sets of some constructors; their shapes, or an error at the first with a fault.
    pub fn add_constructors(
        &self,
        alloc: Global,
        constructors: &[Unfolded],
        ctors: &[CtorId],
        sets: &mut Vec<CubeSet>,
        lists: &mut TokenLists,
        made: &mut HeadsMade,
    ) -> Result<Vec<Shape>, ShapeError>
        requires sized { AreSized self.now lists.old }
        requires counted { length sets.old.items ≡ length constructors.now }
        requires right { AreRightOf self.now lists.old constructors.now made.old }
        requires marked { AllByRecursion (λ i. AreMarked self.now.tables.now made.old.marks.items
            (pattern_at (all_placed constructors.now) i)) ctors.now }
        ensures sized { IfOk result (λ _. AreSized self.now lists.new) }
        ensures right { IfOk result (λ _.
            AreRightOf self.now lists.new constructors.now made.new) }
        ensures counted { IfOk result (λ _. length sets.new.items ≡ length constructors.now) }
        ensures added { IfOk result (λ found. (shapes : Shapes) → Shows self.now lists.old shapes
            → AreAdded self.now (all_placed constructors.now) shapes lists.old lists.new
            sets.old.items sets.new.items ctors.now found.items) }
        ensures fault { IfErr result (λ error. (shapes : Shapes) → Shows self.now lists.old shapes
            → IsError (IsFirstIn self.now (all_placed constructors.now) shapes ctors.now)
            error) }
    {
        let mut found = Vec::new(alloc);
        'ctors: for index in 0..ctors.len() {
            let ctor = ctors[index];
            made.grow_older(alloc);
            let shape = self.add_constructor(alloc, constructors, ctor, sets, lists, made)?;
            push(&mut found, shape)?;
        }
        Ok(found)
    }
}
