//! A region narrowed by the texts of a node's fields and action names.

ghost use Rattle.std.specs.Prelude.{◌≡◌, ◌≤◌, ℕ, IfOk, IfSome, Some};
ghost use Rattle.std.specs.Prelude.{length, min, option_map, slice_get};
ghost use Rattle.sl_asm_bounds.specs.Bounds.{AreAsLong, IsAsLong};
ghost use Rattle.sl_asm_narrow.specs.Nodes.{BoundsShown};
ghost use Rattle.sl_asm_narrow.specs.Readers.{IsReader};
ghost use Rattle.sl_asm_narrow.specs.Spots.{AreNamesTexts, IsTextOfName};
ghost use Rattle.sl_asm_narrow.specs.Spots.{KeepsField, KeepsNames, KeepsPart, KeepsParts};

use crate::operands::Operands;
use crate::reader::{Goal, Node, Reader, Setting};
use sl_asm_bounds::{Bounds, Lengths};
use sl_asm_fit::Cell;
use sl_asm_known::{Frame, narrowed_by_bits};
use sl_asm_print::bits_with_text;
use sl_asm_values::narrowed_by_names;
use sl_show::Part;
use sl_spec::{FieldId, Tables};
use std::alloc::{AllocError, Global};

/// The region narrowed by the text of a field, which is read at the place and from the context.
fn by_field(
    alloc: Global,
    t: &Tables,
    region: Vec<Cell>,
    id: FieldId,
    at: u32,
    context: Option<u64>,
    text: &[u8],
) -> Result<Option<Vec<Cell>>, AllocError>
    requires { at ≤ 255 }
    ensures keeps { IfOk result (λ found. KeepsField t.now region.items id at context text.now
        (option_map (λ v. v.items) found)) }
    ensures long { IfOk result (λ found. IsAsLong (length region.items)
        (option_map (λ v. v.items) found)) }
{
    let Some(of) = t.fields.at(id.number() as usize) else {
        return Ok(Some(region));
    };
    let known = bits_with_text(alloc, t, id, of, text)?;
    let Some(bits) = known else {
        return Ok(None);
    };
    Ok(narrowed_by_bits(t, of, region, u64::from(at), context, &bits))
}

/// The region narrowed by the text of a part.
fn by_part(
    alloc: Global,
    t: &Tables,
    region: Vec<Cell>,
    lengths: &Lengths,
    goal: &Goal,
    part: &Part,
    text: &[u8],
) -> Result<Option<Vec<Cell>>, AllocError>
    requires long { length region.items ≤ 255 }
    ensures keeps { IfOk result (λ found. KeepsPart t.now region.items lengths.now goal.now.at
        goal.now.context part.now text.now (option_map (λ v. v.items) found)) }
    ensures long { IfOk result (λ found. IsAsLong (length region.items)
        (option_map (λ v. v.items) found)) }
{
    let Part::Field(id, place) = part else {
        return Ok(Some(region));
    };
    let Some(place) = lengths.place(goal.at, place) else {
        return Ok(Some(region));
    };
    let found = by_field(alloc, t, region, *id, place, goal.context, text)?;
    Ok(found)
}

/// The region narrowed by the texts of fields among the parts.
fn by_parts(
    alloc: Global,
    t: &Tables,
    region: Vec<Cell>,
    lengths: &Lengths,
    goal: &Goal,
    parts: &[Part],
    texts: &[&[u8]],
) -> Result<Option<Vec<Cell>>, AllocError>
    requires long { length region.items ≤ 255 }
    ensures keeps { IfOk result (λ found. KeepsParts t.now region.items lengths.now goal.now.at
        goal.now.context parts.now texts.now (option_map (λ v. v.items) found)) }
    ensures long { IfOk result (λ found. IsAsLong (length region.items)
        (option_map (λ v. v.items) found)) }
{
    let mut left = region;
    'parts: for index in 0..parts.len() {
        let (Some(part), Some(text)) = (parts.get(index), texts.get(index)) else {
            return Ok(Some(left));
        };
        let narrow = by_part(alloc, t, left, lengths, goal, part, text)?;
        let Some(cells) = narrow else {
            return Ok(None);
        };
        left = cells;
    }
    Ok(Some(left))
}

/// The text of an action name, by those of the parts, where it is among them.
fn name_text<'x>(parts: &[Part], texts: &[&'x [u8]], number: usize) -> Option<&'x [u8]>
    ensures { IfSome result (IsTextOfName parts.now texts.now number) }
{
    'parts: for index in 0..parts.len() {
        if let (Some(Part::Action(of)), Some(text)) = (parts.get(index), texts.get(index)) {
            if *of as usize == number {
                return Some(*text);
            }
        }
    }
    None
}

/// The texts of so many action names, in their order, as far as they are among those of the parts.
fn names_texts<'x>(
    alloc: Global,
    count: usize,
    parts: &[Part],
    texts: &[&'x [u8]],
) -> Result<Vec<Option<&'x [u8]>>, AllocError>
    ensures { IfOk result (λ out. AreNamesTexts parts.now texts.now out.items) }
{
    let mut out = Vec::new(alloc);
    'names: for number in 0..count {
        out.push(name_text(parts, texts, number))?;
    }
    Ok(out)
}

impl Reader<'_, '_, '_> {
    /// What is known of a node whose operands are known so, and whose parts have these texts.
    pub(crate) fn shown(
        &self,
        alloc: Global,
        setting: &Setting,
        operands: Operands,
        node: &Node,
    ) -> Result<Option<Bounds>, AllocError>
        requires ready { IsReader self.now }
        requires long { length operands.region.items ≤ 255 }
        ensures bounds { IfOk result (BoundsShown self.now setting.now operands node.now) }
        ensures long { IfOk result (AreAsLong (length operands.region.items)) }
    {
        let Operands {
            region,
            lengths,
            context,
        } = operands;
        let t = self.tables();
        let goal = &node.goal;
        let narrow = by_parts(alloc, t, region, &lengths, goal, node.parts, node.texts)?;
        let Some(cells) = narrow else {
            return Ok(None);
        };
        let named = self.by_names(alloc, setting, cells, &lengths, node)?;
        let Some(region) = named else {
            return Ok(None);
        };
        Ok(Some(Bounds {
            region,
            least: lengths.least(&node.plan.length),
            most: lengths.most(&node.plan.length),
            after: context,
        }))
    }

    /// The region narrowed by the texts of action names, where all is known on which their values
    /// hang.
    fn by_names(
        &self,
        alloc: Global,
        setting: &Setting,
        region: Vec<Cell>,
        lengths: &Lengths,
        node: &Node,
    ) -> Result<Option<Vec<Cell>>, AllocError>
        requires ready { IsReader self.now }
        requires long { length region.items ≤ 255 }
        ensures keeps { IfOk result (λ found. KeepsNames self.now setting.now region.items
            lengths.now node.now (option_map (λ v. v.items) found)) }
        ensures long { IfOk result (λ found. IsAsLong (length region.items)
            (option_map (λ v. v.items) found)) }
    {
        let (Some(next), Some(context)) = (setting.next, node.goal.context) else {
            return Ok(Some(region));
        };
        if !lengths.are_known() || node.plan.late.rows().is_empty() {
            return Ok(Some(region));
        }
        let frame = Frame {
            at: node.goal.at,
            lengths: lengths.leasts.as_slice(),
            context,
            start: setting.start,
            next,
            names: &[],
        };
        let wanted = names_texts(alloc, node.parts.len(), node.parts, node.texts)?;
        let t = self.tables();
        let narrow = narrowed_by_names(alloc, t, &frame, &region, &node.plan.late, &wanted)?;
        Ok(narrow)
    }
}
