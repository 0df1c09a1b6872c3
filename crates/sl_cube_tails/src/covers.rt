//! Points with their tails, as far as they are covered.

ghost use Rattle.std.specs.Prelude.{◌↔◌, IsTrue, IfOk, MatchOption};
ghost use Rattle.sl_cube.specs.Points.{IsInSome};
ghost use Rattle.sl_cube.specs.Cubes.{Includes};
ghost use Rattle.sl_cube.specs.Search.{IsHalved};
ghost use Rattle.sl_cube.specs.declared.Point.{Point as PointOf};
ghost use Rattle.sl_cube_tails.specs.Tails.{IsCovered};
ghost use Rattle.sl_cube_tails.specs.Covers.{AddsOver, AddsTail, AreConstant, CoversAll};
ghost use Rattle.sl_cube_tails.specs.Covers.{KeepsCovers};

use sl_cube::{Cube, Point, Tally};
use std::alloc::{AllocError, Global};

/// The points of the head, each followed by the points of the tail.
#[derive(Clone, Copy, Debug)]
pub struct Cover {
    pub head: Cube,
    pub tail: Cube,
}

/// Whether the cover has each point of the region with each of the tails.
fn has_all(region: &Cube, tails: &Cube, cover: &Cover) -> bool
    ensures { IsTrue result → Includes cover.now.head region.now × Includes cover.now.tail tails.now }
{
    cover.head.contains(region) && cover.tail.contains(tails)
}

/// Whether one of the covers has each point of the region with each of the tails.
pub fn covers_all(region: &Cube, tails: &Cube, covers: &[Cover]) -> bool
    ensures { IsTrue result → CoversAll region.now tails.now covers.now }
{
    for cover in covers {
        if has_all(region, tails, cover) {
            return true;
        }
    }
    false
}

/// Adds a cover whose head meets the region.
fn add_over(region: &Cube, cover: &Cover, kept: &mut Vec<Cover>) -> Result<(), AllocError>
    ensures { IfOk result (λ done. AddsOver region.now cover.now kept.old.items kept.new.items) }
{
    if region.meets(&cover.head) {
        kept.push(*cover)?;
    }
    Ok(())
}

/// The covers whose heads meet the region.
pub fn over(alloc: Global, region: &Cube, covers: &[Cover]) -> Result<Vec<Cover>, AllocError>
    ensures { IfOk result (λ kept. KeepsCovers region.now covers.now kept.items) }
{
    let mut kept = Vec::new(alloc);
    for cover in covers {
        add_over(region, cover, &mut kept)?;
    }
    Ok(kept)
}

/// The halves of the region at a bit that it leaves open and some head fixes. Without one, each head
/// has all its points or none.
pub fn halved(region: &Cube, covers: &[Cover]) -> Option<(Cube, Cube)>
    ensures { MatchOption result (AreConstant region.now covers.now)
        (λ halves. IsHalved region.now halves.0 halves.1) }
{
    let mut tally = Tally::new();
    for cover in covers {
        tally.weigh_all(region, &[cover.head]);
    }
    tally.halves(region)
}

/// Adds the tail of a cover whose head has the point.
fn add_tail(point: &Point, cover: &Cover, tails: &mut Vec<Cube>) -> Result<(), AllocError>
    ensures { IfOk result (λ done. AddsTail point.now cover.now tails.old.items tails.new.items) }
{
    if cover.head.has(point) {
        tails.push(cover.tail)?;
    }
    Ok(())
}

/// The tails that are covered behind the point.
pub fn tails_at(alloc: Global, point: &Point, covers: &[Cover]) -> Result<Vec<Cube>, AllocError>
    ensures { IfOk result (λ tails. (q : PointOf)
        → IsInSome tails.items q ↔ IsCovered covers.now point.now q) }
{
    let mut tails = Vec::new(alloc);
    for cover in covers {
        add_tail(point, cover, &mut tails)?;
    }
    Ok(tails)
}
