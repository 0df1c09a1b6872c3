//! A region narrowed by the value of an expression, bit by bit: of both halves by an open bit the
//! one whose lists can't give the wanted value is left out.

ghost use Rattle.std.specs.Prelude.{◌≡◌, ◌≤◌, List, IfOk, MatchOption, length};
ghost use Rattle.std.specs.Int.{from_bool};
ghost use Rattle.sl_asm_bits.specs.declared.Known.{Known as KnownOf};
ghost use Rattle.sl_asm_fit.specs.declared.Cell.{Cell as CellOf};
ghost use Rattle.sl_asm_known.specs.OpenBits.{IsOpenIn};
ghost use Rattle.sl_asm_known.specs.declared.Bit.{Bit as BitOf};
ghost use Rattle.sl_asm_known.specs.declared.Frame.{Frame as FrameOf};
ghost use Rattle.sl_asm_values.specs.Halves.{IsHalfLeft, IsLeftOf, IsOutcome};
ghost use Rattle.sl_asm_values.specs.Narrowing.{GivesNone, KeepsGiving};
ghost use Rattle.sl_decode_plan.specs.declared.values.Value.{Value as ValueOf};
ghost use Rattle.sl_spec.specs.declared.tables.Tables.{Tables as TablesOf};

use crate::sides::sides;
use sl_asm_bits::Known;
use sl_asm_fit::Cell;
use sl_asm_known::{Bit, Frame, Verdict, half, judge, known, narrowed_by_own};
use sl_decode_plan::Value;
use sl_spec::Tables;
use std::alloc::{AllocError, Global};

/// A region, and what can be said of the wanted value for all of its lists.
#[derive(Drop)]
struct Judged {
    region: Vec<Cell>,
    verdict: Verdict,
}

/// What is left of a region by an open bit.
#[derive(Drop)]
enum Halved {
    /// Neither half has lists that give the wanted value.
    Neither,
    /// Only this one may have some.
    One(Judged),
    /// Both may.
    Both,
}

/// An expression, and the bits that are wanted of its value.
#[derive(Clone, Copy)]
struct Demand<'x, 'a> {
    tables: &'x Tables<'a>,
    frame: Frame<'x>,
    value: &'x Value,
    wanted: Known,
}

/// The cells once more.
pub(crate) fn copied(alloc: Global, cells: &[Cell]) -> Result<Vec<Cell>, AllocError>
    ensures { IfOk result (λ copy. copy.items ≡ cells.now) }
{
    cells.iter().copied().collect(alloc)
}

/// What is left of a region, by what is left of its halves.
fn left_of(clear: Option<Judged>, set: Option<Judged>) -> Halved
    ensures { (t : TablesOf) (f : FrameOf) (region : List CellOf) (v : ValueOf) (wanted : KnownOf)
        (b : BitOf) → IsHalfLeft t f region v wanted b 0 clear
        → IsHalfLeft t f region v wanted b 1 set → IsOutcome t f region v wanted result }
{
    let Some(one) = clear else {
        return match set {
            Some(one) => Halved::One(one),
            None => Halved::Neither,
        };
    };
    if set.is_some() {
        return Halved::Both;
    }
    Halved::One(one)
}

impl Demand<'_, '_> {
    /// The region with its verdict, or `None` where that is `Never`.
    fn judged(&self, region: Vec<Cell>) -> Option<Judged>
        ensures { let d = self.now in MatchOption result
            (GivesNone d.tables.now d.frame region.items d.value.now d.wanted)
            (IsLeftOf d.tables.now d.frame region.items d.value.now d.wanted) }
    {
        let verdict = judge(self.tables, &self.frame, &region, self.value, &self.wanted);
        if verdict == Verdict::Never {
            return None;
        }
        Some(Judged { region, verdict })
    }

    /// The half of the region whose bit is as given, or `None` where no list of it gives the wanted
    /// value.
    fn half(
        &self,
        alloc: Global,
        region: &[Cell],
        bit: &Bit,
        is_set: bool,
    ) -> Result<Option<Judged>, AllocError>
        requires long { length region.now ≤ 255 }
        requires open { IsOpenIn region.now bit.now }
        ensures { let d = self.now in IfOk result
            (IsHalfLeft d.tables.now d.frame region.now d.value.now d.wanted bit.now
            (from_bool is_set)) }
    {
        let cells = half(alloc, region, bit, is_set)?;
        let Some(cells) = cells else {
            return Ok(None);
        };
        Ok(self.judged(cells))
    }

    /// What is left of the region by the bit.
    fn halved(&self, alloc: Global, region: &[Cell], bit: &Bit) -> Result<Halved, AllocError>
        requires long { length region.now ≤ 255 }
        requires open { IsOpenIn region.now bit.now }
        ensures { let d = self.now in IfOk result
            (IsOutcome d.tables.now d.frame region.now d.value.now d.wanted) }
    {
        let clear = self.half(alloc, region, bit, false)?;
        let set = self.half(alloc, region, bit, true)?;
        Ok(left_of(clear, set))
    }
}

/// The region narrowed as long as, of both halves by the bit whose turn it is, one alone may give
/// the expression a value with the wanted bits; `None` where neither does. Each round fixes a bit
/// that was open and reckons the expression twice. The only error is want of memory.
fn by_bits(
    alloc: Global,
    t: &Tables,
    frame: &Frame,
    region: Vec<Cell>,
    v: &Value,
    wanted: &Known,
) -> Result<Option<Vec<Cell>>, AllocError>
    requires { length region.items ≤ 255 }
    ensures { IfOk result (λ found. MatchOption found
        (GivesNone t.now frame.now region.items v.now wanted.now)
        (λ narrow. KeepsGiving t.now frame.now region.items v.now wanted.now narrow.items)) }
{
    let demand = Demand {
        tables: t,
        frame: *frame,
        value: v,
        wanted: *wanted,
    };
    let most = 8 * region.len();
    let Some(mut left) = demand.judged(region) else {
        return Ok(None);
    };
    'rounds: for _ in 0..most {
        let Verdict::Open(bit) = left.verdict else {
            return Ok(Some(left.region));
        };
        match demand.halved(alloc, &left.region, &bit)? {
            Halved::Neither => return Ok(None),
            Halved::Both => return Ok(Some(left.region)),
            Halved::One(one) => left = one,
        }
    }
    Ok(Some(left.region))
}

/// The same by the bits of fields and by the sides of operators, as far as the value says something of
/// them, and the others bit by bit.
fn by_sides(
    alloc: Global,
    t: &Tables,
    frame: &Frame,
    region: Vec<Cell>,
    v: &Value,
    wanted: &Known,
) -> Result<Option<Vec<Cell>>, AllocError>
    requires { length region.items ≤ 255 }
    ensures { IfOk result (λ found. MatchOption found
        (GivesNone t.now frame.now region.items v.now wanted.now)
        (λ narrow. KeepsGiving t.now frame.now region.items v.now wanted.now narrow.items)) }
{
    if wanted.mask == 0 {
        return Ok(Some(region));
    }
    if let Value::Plain(id, place) = v {
        return Ok(narrowed_by_own(t, frame, region, *id, place, wanted));
    }
    let Value::Binary(op, left, right) = v else {
        return by_bits(alloc, t, frame, region, v, wanted);
    };
    let Some(first) = known(t, frame, &region, left) else {
        return Ok(None);
    };
    let Some(second) = known(t, frame, &region, right) else {
        return Ok(None);
    };
    let Some((one, other)) = sides(*op, wanted, &first, &second) else {
        return by_bits(alloc, t, frame, region, v, wanted);
    };
    let narrow = by_sides(alloc, t, frame, region, left, &one)?;
    let Some(cells) = narrow else {
        return Ok(None);
    };
    let found = by_sides(alloc, t, frame, cells, right, &other)?;
    Ok(found)
}

/// The region narrowed by the bits that are wanted of an expression's value; `None` where no list of
/// it gives the expression such a value. What the value says of fields, of the sides of sums and of
/// shifts by what is known, and of the operators that go bit by bit, is taken from them. For other
/// expressions, and for what is left, a bit that is open is tried after the other, as long as one of
/// both halves alone may give such a value. The only error is want of memory.
pub fn narrowed_by(
    alloc: Global,
    t: &Tables,
    frame: &Frame,
    region: &[Cell],
    v: &Value,
    wanted: &Known,
) -> Result<Option<Vec<Cell>>, AllocError>
    requires { length region.now ≤ 255 }
    ensures { IfOk result (λ found. MatchOption found
        (GivesNone t.now frame.now region.now v.now wanted.now)
        (λ narrow. KeepsGiving t.now frame.now region.now v.now wanted.now narrow.items)) }
{
    let whole = copied(alloc, region)?;
    let narrow = by_sides(alloc, t, frame, whole, v, wanted)?;
    let Some(cells) = narrow else {
        return Ok(None);
    };
    let found = by_bits(alloc, t, frame, cells, v, wanted)?;
    Ok(found)
}
