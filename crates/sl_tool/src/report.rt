//! `gaps`: what a sound specification leaves unmatched.

ghost use Rattle.std.specs.Prelude.{◌≡◌, ◌++◌, IfOk, OnOk};
ghost use Rattle.sl_bind_compile.specs.Compiled.{IsCompiled};
ghost use Rattle.sl_bind_compile.specs.Outcomes.{name_of};
ghost use Rattle.sl_outside.specs.Uses.{UsesSink};
ghost use Rattle.sl_spec_rules.specs.Gathered.{gathered};
ghost use Rattle.sl_tool.specs.Answers.{gaps_of};
ghost use Rattle.sl_tool.specs.GapText.{IsGapText, ctor_text, gap_text, hole_line, operand_text};
ghost use Rattle.sl_tool.specs.GapText.{shadowed_line, sure_line, table_lines};
ghost use Rattle.sl_tool.specs.Streams.{RanNone, Streams};
ghost use Rattle.sl_tool_stages.specs.Outcomes.{FailsToWrite};
ghost use Rattle.sl_tool_stages.specs.StageViews.{compiled_view};

use crate::status::Ending;
use crate::writing::write_all;
use sl_cube::Point;
use sl_gap::{Hole, gaps};
use sl_outside::Sink;
use sl_spec::{CtorId, Tables};
use sl_tool_stages::{Compiled, Halt, Places, push_place, push_point};
use std::alloc::{AllocError, Global};

/// Writes the report on what the specification leaves unmatched.
pub fn report<K: Sink>(
    alloc: Global,
    compiled: &Compiled<'_, '_>,
    out: &mut K,
) -> Result<Ending, Halt>
    requires { IsCompiled compiled.now.specification }
    ensures streams { Streams (gaps_of (compiled_view compiled.now))
        (K.taken out.old) (K.taken out.new) RanNone result }
    ensures sink { UsesSink K.faults K.calls out.old out.new (FailsToWrite result) }
{
    let text = text_of(alloc, compiled)?;
    write_all(out, text.as_slice())?;
    Ok(Ending::Done)
}

/// The text of the report.
fn text_of(alloc: Global, compiled: &Compiled<'_, '_>) -> Result<Vec<u8>, AllocError>
    requires { IsCompiled compiled.now.specification }
    ensures { IfOk result (λ text. IsGapText (compiled_view compiled.now) text.items) }
{
    let report = gaps(alloc, &compiled.specification)?;
    let mut out = Vec::new(alloc);
    let tables = &compiled.specification.bound.tables;
    push_tables(&mut out, tables, report.tables.as_slice())?;
    let places = Places::of(alloc, compiled)?;
    push_all_shadowed(alloc, &mut out, &places, report.shadowed.as_slice())?;
    push_holes(alloc, &mut out, &places, report.holes.as_slice())?;
    push_sure(&mut out, report.sure)?;
    Ok(out)
}

/// The name of the table of this number.
fn name_of<'a>(t: &Tables<'a>, table: usize) -> &'a [u8]
    ensures { result.now ≡ name_of t.now table }
{
    match t.tables.at(table) {
        Some(of) => of.name,
        None => b"",
    }
}

/// Appends the lines of all tables.
fn push_tables(out: &mut Vec<u8>, t: &Tables<'_>, gaps: &[Option<Point>]) -> Result<(), AllocError>
    ensures { OnOk result (out.new.items ≡ out.old.items ++ table_lines t.now 0 gaps.now) }
{
    'gaps: for table in 0..gaps.len() {
        push_table(out, t, table, &gaps[table])?;
    }
    Ok(())
}

/// Appends the line of a table.
fn push_table(
    out: &mut Vec<u8>,
    t: &Tables<'_>,
    table: usize,
    gap: &Option<Point>,
) -> Result<(), AllocError>
    ensures { OnOk result (out.new.items
        ≡ out.old.items ++ (name_of t.now table ++ gap_text gap.now)) }
{
    out.extend_from_slice(name_of(t, table))?;
    push_gap(out, gap)
}

/// Appends that a table leaves no point, or the least one that it leaves.
fn push_gap(out: &mut Vec<u8>, gap: &Option<Point>) -> Result<(), AllocError>
    ensures { OnOk result (out.new.items ≡ out.old.items ++ gap_text gap.now) }
{
    match gap {
        Some(point) => {
            out.extend_from_slice(b": gap ")?;
            push_point(out, point)?;
            out.extend_from_slice(b"\n")
        }
        None => out.extend_from_slice(b": complete\n"),
    }
}

/// Appends the place of a constructor.
fn push_ctor(
    alloc: Global,
    out: &mut Vec<u8>,
    places: &Places<'_, '_, '_>,
    ctor: CtorId,
) -> Result<(), AllocError>
    ensures { OnOk result (out.new.items
        ≡ out.old.items ++ ctor_text (compiled_view places.now.compiled.now) ctor) }
{
    let place = places.place(alloc, ctor)?;
    push_place(out, &place)
}

/// Appends the lines of the constructors that are chosen at no point.
fn push_all_shadowed(
    alloc: Global,
    out: &mut Vec<u8>,
    places: &Places<'_, '_, '_>,
    ctors: &[CtorId],
) -> Result<(), AllocError>
    ensures { OnOk result (out.new.items ≡ out.old.items
        ++ gathered (shadowed_line (compiled_view places.now.compiled.now)) ctors.now) }
{
    'ctors: for ctor in ctors {
        push_shadowed(alloc, out, places, *ctor)?;
    }
    Ok(())
}

/// Appends the line of a constructor that is chosen at no point.
fn push_shadowed(
    alloc: Global,
    out: &mut Vec<u8>,
    places: &Places<'_, '_, '_>,
    ctor: CtorId,
) -> Result<(), AllocError>
    ensures { OnOk result (out.new.items
        ≡ out.old.items ++ shadowed_line (compiled_view places.now.compiled.now) ctor) }
{
    out.extend_from_slice(b"shadowed ")?;
    push_ctor(alloc, out, places, ctor)?;
    out.extend_from_slice(b"\n")
}

/// Appends the lines of all holes.
fn push_holes(
    alloc: Global,
    out: &mut Vec<u8>,
    places: &Places<'_, '_, '_>,
    holes: &[Hole],
) -> Result<(), AllocError>
    ensures { OnOk result (out.new.items ≡ out.old.items
        ++ gathered (hole_line (compiled_view places.now.compiled.now)) holes.now) }
{
    'holes: for hole in holes {
        push_hole(alloc, out, places, hole)?;
    }
    Ok(())
}

/// Appends the line of a hole.
fn push_hole(
    alloc: Global,
    out: &mut Vec<u8>,
    places: &Places<'_, '_, '_>,
    hole: &Hole,
) -> Result<(), AllocError>
    ensures { OnOk result (out.new.items
        ≡ out.old.items ++ hole_line (compiled_view places.now.compiled.now) hole.now) }
{
    out.extend_from_slice(b"hole ")?;
    push_ctor(alloc, out, places, hole.ctor)?;
    push_operand(out, &places.compiled.specification.bound.tables, hole)
}

/// Appends the operand's table, and the point at which its parent is chosen.
fn push_operand(out: &mut Vec<u8>, t: &Tables<'_>, hole: &Hole) -> Result<(), AllocError>
    ensures { OnOk result (out.new.items ≡ out.old.items ++ operand_text t.now hole.now) }
{
    out.extend_from_slice(b" in ")?;
    out.extend_from_slice(name_of(t, hole.operand.0 as usize))?;
    out.extend_from_slice(b" ")?;
    push_point(out, &hole.parent)?;
    out.extend_from_slice(b"\n")
}

/// Appends the last line: whether no decode can end for want of a constructor.
fn push_sure(out: &mut Vec<u8>, sure: bool) -> Result<(), AllocError>
    ensures { OnOk result (out.new.items ≡ out.old.items ++ sure_line sure) }
{
    if sure {
        out.extend_from_slice(b"sure\n")
    } else {
        out.extend_from_slice(b"not sure\n")
    }
}
