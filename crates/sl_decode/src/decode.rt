//! What a decode reads from, and the choice at a node.

ghost use Rattle.std.specs.Prelude.{◌≡◌, ◌+◌, ℕ, List, Option, MatchResult};
ghost use Rattle.sl_cube.specs.declared.Point.{Point as PointOf};
ghost use Rattle.sl_decode.specs.Outcomes.{Gives};
ghost use Rattle.sl_decode.specs.declared.outcomes.DecodeError.TheVariants.{NoMemory};
ghost use Rattle.sl_decode_meaning.specs.Decoding as spec;
ghost use Rattle.sl_decode_meaning.specs.Outcomes.{or_fault};
ghost use Rattle.sl_decode_meaning.specs.declared.faults.Fault.TheVariants.{NoConstructor};
ghost use Rattle.sl_decode_leaves.specs.Extents.{extent};
ghost use Rattle.sl_decode_plan.specs.Plans.{done, done_by};
ghost use Rattle.sl_decode_plan.specs.Values.{site_of, value_in};

use crate::outcomes::DecodeError;
use crate::points::point_at;
use sl_cube::Point;
use sl_decode_leaves::{Extent, extent_of};
use sl_decode_meaning::Fault;
use sl_decode_plan::{Plan, Scope, Value, reckon};
use sl_spec::{CtorId, TableId, Tables};

/// Which constructor of a table is chosen at a point.
pub trait Choose {
    ghost chosen: { Self → ℕ → PointOf → Option ℕ };

    fn choose(&self, table: TableId, point: &Point) -> Option<CtorId>
        ensures { result ≡ chosen self.now table point.now };
}

/// What a decode reads from.
#[derive(Drop)]
pub struct Decode<'r, 'a, C> {
    pub tables: &'r Tables<'a>,
    pub plans: &'r [Plan],
    pub choosers: &'r C,
    pub bytes: &'r [u8],
    /// The address of the first byte.
    pub address: u64,
}

/// A value of an action at a node.
pub fn value_of(t: &Tables, scope: &Scope, value: &Value) -> Result<i64, DecodeError>
    ensures { Gives (λ n. n) result (value_in t.now (site_of scope.now) value.now) }
{
    match reckon(t, scope, value) {
        Ok(n) => Ok(n),
        Err(fault) => Err(DecodeError::Fault(fault)),
    }
}

/// A number of bytes, if it is told in 32 bits; more would be want of memory.
fn told(count: u64) -> Result<u32, DecodeError>
    ensures { MatchResult result (λ n. n ≡ count) (λ error. error ≡ NoMemory) }
{
    match u32::try_from(count) {
        Ok(count) => Ok(count),
        Err(_) => Err(DecodeError::NoMemory),
    }
}

/// A place behind another one, in bytes.
pub fn place_behind(at: u32, e: &Extent, lengths: &[u32]) -> Result<u32, DecodeError>
    ensures { MatchResult result (λ n. n ≡ at + extent e.now lengths.now)
        (λ error. error ≡ NoMemory) }
{
    told(u64::from(at).saturating_add(extent_of(e, lengths)))
}

/// The length of a node.
pub fn length_of(e: &Extent, lengths: &[u32]) -> Result<u32, DecodeError>
    ensures { MatchResult result (λ n. n ≡ extent e.now lengths.now)
        (λ error. error ≡ NoMemory) }
{
    told(extent_of(e, lengths))
}

impl<C: Choose> Decode<'_, '_, C> {
    /// The constructor of a table that is chosen at a place, from a context.
    pub fn chosen(&self, table: TableId, at: u32, context: u64) -> Result<CtorId, DecodeError>
        ensures { Gives (λ ctor. ctor) result (or_fault (NoConstructor table at)
            (C.chosen self.now.choosers.now table (spec.point_at self.now.bytes.now at context))) }
    {
        let point = point_at(self.bytes, at, context);
        match self.choosers.choose(table, &point) {
            Some(ctor) => Ok(ctor),
            None => Err(DecodeError::Fault(Fault::NoConstructor { table, at })),
        }
    }

    /// The plan of a constructor that is chosen of a table at a place.
    pub fn plan_of(&self, ctor: CtorId, table: TableId, at: u32) -> Result<&Plan, DecodeError>
        ensures { Gives (λ p. done self.now.tables.now p.now) result
            (or_fault (NoConstructor table at)
            (done_by self.now.tables.now self.now.plans.now ctor)) }
    {
        let CtorId(number) = ctor;
        match self.plans.get(number as usize) {
            Some(plan) => Ok(plan),
            None => Err(DecodeError::Fault(Fault::NoConstructor { table, at })),
        }
    }
}
