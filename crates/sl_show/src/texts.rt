//! The text of trees, appended to one buffer by the templates of their constructors.

ghost use Rattle.std.specs.Prelude.{◌≡◌, ◌+◌, ◌≤◌, ◌++◌, ℤ, List, [], OnOk};
ghost use Rattle.std.specs.Prelude.{get_or, length, slice_get};
ghost use Rattle.sl_ast.specs.Trees.{Constructor as ConstructorOf};
ghost use Rattle.sl_ast.specs.Unfolding.{Placed};
ghost use Rattle.sl_decode_meaning.specs.Flat.{all_values, entries};
ghost use Rattle.sl_decode_meaning.specs.Trees.{Node, Trees};
ghost use Rattle.sl_decode_leaves.specs.Extents.{extent};
ghost use Rattle.sl_show.specs.Entries.{row_of, rows, rows_of};
ghost use Rattle.sl_show.specs.Spans.{AreTexts, AreWithin};
ghost use Rattle.sl_show.specs.Templates.{AreTemplates, operand_texts, part_text};
ghost use Rattle.sl_show.specs.Templates.{parts_of, parts_text, spot_among, template_text};
ghost use Rattle.sl_show.specs.Texts.{field_text, first_text, lengths_of, shown_text, texts_by};

use crate::entries::{extent_among, parted, skip, value_of};
use crate::fields::push_field;
use crate::lengths::text_length;
use crate::numbers::push_number;
use crate::spans::{Span, Spans};
use crate::templates::{Part, Template};
use sl_decode_leaves::Extent;
use sl_decode_meaning::Entry;
use sl_spec::{CtorId, FieldId, Tables};
use std::alloc::AllocError;

/// What all nodes of a decode share: the instruction's bytes, and the values of action names.
#[derive(Clone, Copy)]
pub struct Instruction<'i> {
    pub bytes: &'i [u8],
    pub values: &'i [i64],
}

/// The parts of a constructor, and whether the text of an operand is among them more than once.
pub(crate) fn parts_of(templates: &[Template], constructor: CtorId) -> (&[Part], bool)
    ensures { result.0.now ≡ parts_of (slice_get templates.now constructor) }
{
    match templates.get(constructor.0 as usize) {
        Some(template) => (template.parts.as_slice(), template.repeats),
        None => (&[], false),
    }
}

/// Appends a field of a node with these operands.
pub(crate) fn push_field_at(
    t: &Tables,
    bytes: &[u8],
    node: &Entry,
    kids: &[Entry],
    id: FieldId,
    place: &Extent,
    out: &mut Vec<u8>,
) -> Result<(), AllocError>
    ensures longer { OnOk result (length out.old.items ≤ length out.new.items) }
    ensures text { OnOk result ((values : List ℤ) (f : Trees Node)
        → rows_of values kids.now ≡ rows f
        → out.new.items ≡ out.old.items ++ field_text t.now id bytes.now
        (node.now.at + extent place.now (lengths_of f)) node.now.context) }
{
    let at = u64::from(node.at).saturating_add(extent_among(place, kids));
    push_field(t, id, bytes, at, node.context, out)?;
    Ok(())
}

/// Appends the text of the first tree.
#[cycle(texts)]
fn push_first(
    t: &Tables,
    templates: &[Template],
    of: Instruction<'_>,
    nodes: &[Entry],
    out: &mut Vec<u8>,
) -> Result<(), AllocError>
    ensures longer { OnOk result (length out.old.items ≤ length out.new.items) }
    ensures text { OnOk result ((f : Trees Node) → rows_of of.entry.values.now nodes.now ≡ rows f
        → out.new.items ≡ out.old.items
        ++ first_text (texts_by (template_text t.now templates.now) of.entry.bytes.now f)) }
{
    if nodes.is_empty() {
        return Ok(());
    }
    let (kids, _) = parted(nodes);
    let node = &nodes[0];
    let (parts, repeats) = parts_of(templates, node.ctor);
    if repeats {
        push_parts_once(t, templates, of, node, kids, parts, out)?;
        return Ok(());
    }
    push_parts(t, templates, of, node, kids, parts, out)?;
    Ok(())
}

/// Appends one part of a node with these operands.
#[cycle(texts)]
fn push_part(
    t: &Tables,
    templates: &[Template],
    of: Instruction<'_>,
    node: &Entry,
    kids: &[Entry],
    part: &Part,
    out: &mut Vec<u8>,
) -> Result<(), AllocError>
    ensures longer { OnOk result (length out.old.items ≤ length out.new.items) }
    ensures text { OnOk result ((f : Trees Node) → rows_of of.entry.values.now kids.now ≡ rows f
        → out.new.items ≡ out.old.items ++ part_text t.now
        (spot_among t.now templates.now of.entry.bytes.now
        (row_of of.entry.values.now node.now).node f) part.now) }
{
    match part {
        Part::Text(text) => out.extend_from_slice(text),
        Part::Table(number) => {
            let rest = skip(kids, *number);
            match push_first(t, templates, of, rest, out) {
                Ok(()) => Ok(()),
                Err(error) => Err(error),
            }
        }
        Part::Field(id, place) => push_field_at(t, of.bytes, node, kids, *id, place, out),
        Part::Action(number) => push_number(out, false, value_of(of.values, node, *number)),
    }
}

/// Appends the parts of a node with these operands.
#[cycle(texts)]
fn push_parts(
    t: &Tables,
    templates: &[Template],
    of: Instruction<'_>,
    node: &Entry,
    kids: &[Entry],
    parts: &[Part],
    out: &mut Vec<u8>,
) -> Result<(), AllocError>
    ensures longer { OnOk result (length out.old.items ≤ length out.new.items) }
    ensures text { OnOk result ((f : Trees Node) → rows_of of.entry.values.now kids.now ≡ rows f
        → out.new.items ≡ out.old.items ++ parts_text t.now
        (spot_among t.now templates.now of.entry.bytes.now
        (row_of of.entry.values.now node.now).node f) parts.now) }
{
    'parts: for part in parts {
        push_part(t, templates, of, node, kids, part, out)?;
    }
    Ok(())
}

/// Appends the text of the operand of this number: a copy where it is in the buffer already.
#[cycle(texts)]
fn push_operand_once(
    t: &Tables,
    templates: &[Template],
    of: Instruction<'_>,
    kids: &[Entry],
    number: usize,
    spans: &mut Spans,
    out: &mut Vec<u8>,
) -> Result<(), AllocError>
    requires { AreWithin spans.old out.old.items }
    ensures longer { OnOk result (length out.old.items ≤ length out.new.items) }
    ensures within { OnOk result (AreWithin spans.new out.new.items) }
    ensures texts { OnOk result ((f : Trees Node) → rows_of of.entry.values.now kids.now ≡ rows f
        → AreTexts (operand_texts t.now templates.now of.entry.bytes.now f) spans.old out.old.items
        → AreTexts (operand_texts t.now templates.now of.entry.bytes.now f)
        spans.new out.new.items) }
    ensures text { OnOk result ((f : Trees Node) → rows_of of.entry.values.now kids.now ≡ rows f
        → AreTexts (operand_texts t.now templates.now of.entry.bytes.now f) spans.old out.old.items
        → out.new.items ≡ out.old.items
        ++ get_or (operand_texts t.now templates.now of.entry.bytes.now f) number []) }
{
    match spans.get(number) {
        Some(span) => {
            out.extend_from_within(span.start..span.end)?;
            Ok(())
        }
        None => {
            let start = out.len();
            push_first(t, templates, of, skip(kids, number), out)?;
            let end = out.len();
            spans.put(number, Span { start, end })?;
            Ok(())
        }
    }
}

/// Appends one part of a node with these operands; the text of an operand is made once.
#[cycle(texts)]
fn push_part_once(
    t: &Tables,
    templates: &[Template],
    of: Instruction<'_>,
    node: &Entry,
    kids: &[Entry],
    part: &Part,
    spans: &mut Spans,
    out: &mut Vec<u8>,
) -> Result<(), AllocError>
    requires { AreWithin spans.old out.old.items }
    ensures longer { OnOk result (length out.old.items ≤ length out.new.items) }
    ensures within { OnOk result (AreWithin spans.new out.new.items) }
    ensures texts { OnOk result ((f : Trees Node) → rows_of of.entry.values.now kids.now ≡ rows f
        → AreTexts (operand_texts t.now templates.now of.entry.bytes.now f) spans.old out.old.items
        → AreTexts (operand_texts t.now templates.now of.entry.bytes.now f)
        spans.new out.new.items) }
    ensures text { OnOk result ((f : Trees Node) → rows_of of.entry.values.now kids.now ≡ rows f
        → AreTexts (operand_texts t.now templates.now of.entry.bytes.now f) spans.old out.old.items
        → out.new.items ≡ out.old.items ++ part_text t.now
        (spot_among t.now templates.now of.entry.bytes.now
        (row_of of.entry.values.now node.now).node f) part.now) }
{
    match part {
        Part::Table(number) => {
            push_operand_once(t, templates, of, kids, *number, spans, out)?;
            Ok(())
        }
        _ => {
            push_part(t, templates, of, node, kids, part, out)?;
            Ok(())
        }
    }
}

/// Appends the parts of a node with these operands, where some operand is shown more than once.
/// The text of each is made once: else a chain of nodes, each of which shows the next one twice,
/// would take 2^n steps, even where nothing is shown.
#[cycle(texts)]
fn push_parts_once(
    t: &Tables,
    templates: &[Template],
    of: Instruction<'_>,
    node: &Entry,
    kids: &[Entry],
    parts: &[Part],
    out: &mut Vec<u8>,
) -> Result<(), AllocError>
    ensures longer { OnOk result (length out.old.items ≤ length out.new.items) }
    ensures text { OnOk result ((f : Trees Node) → rows_of of.entry.values.now kids.now ≡ rows f
        → out.new.items ≡ out.old.items ++ parts_text t.now
        (spot_among t.now templates.now of.entry.bytes.now
        (row_of of.entry.values.now node.now).node f) parts.now) }
{
    let mut spans = Spans::new(*out.allocator());
    'parts: for part in parts {
        push_part_once(t, templates, of, node, kids, part, &mut spans, out)?;
    }
    Ok(())
}

/// Makes room for the text of a decode where a node shows an operand more than once. Such a text may
/// be longer than any memory, and so it ends here, before any of it is made.
fn make_room(
    t: &Tables,
    templates: &[Template],
    of: Instruction<'_>,
    nodes: &[Entry],
    out: &mut Vec<u8>,
) -> Result<(), AllocError>
    ensures { out.new.items ≡ out.old.items }
{
    if nodes.iter().any(|node| parts_of(templates, node.ctor).1) {
        let length = text_length(*out.allocator(), t, templates, of, nodes)?;
        out.reserve(length)?;
    }
    Ok(())
}

/// Appends the text of a decode, by its nodes and the values of their action names.
pub fn push_text(
    t: &Tables,
    templates: &[Template],
    of: Instruction<'_>,
    nodes: &[Entry],
    out: &mut Vec<u8>,
) -> Result<(), AllocError>
    ensures { OnOk result ((constructors : List (Placed ConstructorOf)) (f : Trees Node)
        → AreTemplates t.now constructors templates.now
        → nodes.now ≡ entries 0 f → of.entry.values.now ≡ all_values f
        → out.new.items ≡ out.old.items
        ++ shown_text t.now constructors of.entry.bytes.now f) }
{
    make_room(t, templates, of, nodes, out)?;
    push_first(t, templates, of, nodes, out)?;
    Ok(())
}
