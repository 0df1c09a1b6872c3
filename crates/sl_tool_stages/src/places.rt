//! The places of constructors.

ghost use Rattle.std.specs.Prelude.{◌≡◌};
ghost use Rattle.sl_ast.specs.Views.{items_of};
ghost use Rattle.sl_bind_compile.specs.Outcomes.{item_of_ctor};
ghost use Rattle.sl_tool_stages.specs.ItemLines.{lines_in};
ghost use Rattle.sl_tool_stages.specs.OriginView.{origin_view};

use crate::compiled::Compiled;
use crate::place::Place;
use sl_preproc::Place as Line;
use sl_spec::{CtorId, Tables};
use std::alloc::{AllocError, Global};

/// The item that the constructor of this number is.
fn item_of(t: &Tables<'_>, ctor: CtorId) -> Option<u32>
    ensures { result ≡ item_of_ctor t.now ctor }
{
    match t.constructors.get(ctor.0 as usize) {
        Some(of) => Some(of.item),
        None => None,
    }
}

/// A specification with the lines of its items, which are found once, by which the places of its
/// constructors are told.
#[derive(Drop)]
pub struct Places<'c, 's, 'r> {
    pub compiled: &'c Compiled<'s, 'r>,
    /// Those of all items, a block's before those of the items inside it.
    lines: Vec<Line>,
    ghost all: { lines.items ≡ lines_in (origin_view compiled.now.origin)
        (items_of compiled.now.specification.bound.spec) },
}

impl<'c, 's, 'r> Places<'c, 's, 'r> {
    ghost use Rattle.std.specs.Prelude.{◌≡◌, IfOk};
    ghost use Rattle.sl_ast.specs.Views.{items_of};
    ghost use Rattle.sl_bind_compile.specs.Outcomes.{item_of_ctor};
    ghost use Rattle.sl_tool_stages.specs.ItemLines.{line_of};
    ghost use Rattle.sl_tool_stages.specs.OriginView.{origin_view};
    ghost use Rattle.sl_tool_stages.specs.Places.{place_of_ctor};
    ghost use Rattle.sl_tool_stages.specs.StageViews.{compiled_view};

    /// The places of the constructors of a specification.
    pub fn of(alloc: Global, compiled: &'c Compiled<'s, 'r>) -> Result<Self, AllocError>
        ensures { IfOk result (λ places. places.compiled.now ≡ compiled.now) }
    {
        let lines = compiled
            .origin
            .lines(alloc, &compiled.specification.bound.spec)?;
        Ok(Places { compiled, lines })
    }

    /// The line of the item that a constructor is.
    fn line(&self, ctor: CtorId) -> Option<Line>
        ensures { result ≡ line_of (origin_view self.now.compiled.now.origin)
            (items_of self.now.compiled.now.specification.bound.spec)
            (item_of_ctor self.now.compiled.now.specification.bound.tables ctor) }
    {
        match item_of(&self.compiled.specification.bound.tables, ctor) {
            Some(item) => self.lines.get(item as usize).copied(),
            None => None,
        }
    }

    /// The place of a constructor, which is that of its item.
    pub fn place(&self, alloc: Global, ctor: CtorId) -> Result<Place, AllocError>
        ensures { IfOk result (λ place.
            place ≡ place_of_ctor (compiled_view self.now.compiled.now) ctor) }
    {
        let line = self.line(ctor);
        let place = self.compiled.origin.place_of_line(alloc, line)?;
        Ok(place)
    }
}
