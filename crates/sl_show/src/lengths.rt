//! The lengths of texts, which are known before the texts are made. No clause speaks of them: they
//! tell how much room a text needs.

use crate::entries::{parted, skip, value_of};
use crate::numbers::push_number;
use crate::templates::{Part, Template};
use crate::texts::{Instruction, parts_of, push_field_at};
use sl_decode_meaning::Entry;
use sl_spec::Tables;
use std::alloc::{AllocError, Global};

/// The lengths of the texts of trees, from the last node of a decode on: at k is that of the tree
/// whose first node has k nodes behind it. `usize::MAX` stands for all that is more.
#[derive(Drop)]
struct Lengths {
    trees: Vec<usize>,
    /// The field or the number that was made last, to see how long it is.
    own: Vec<u8>,
}

impl Lengths {
    /// The length of one part of a node with these operands, behind whose tree there are so many nodes.
    fn part(
        &mut self,
        t: &Tables,
        of: Instruction<'_>,
        node: &Entry,
        kids: &[Entry],
        behind: usize,
        part: &Part,
    ) -> Result<usize, AllocError> {
        self.own.clear();
        match part {
            Part::Text(text) => return Ok(text.len()),
            Part::Table(number) => {
                let Some((_, after)) = skip(kids, *number).split_first() else {
                    return Ok(0);
                };
                let length = self.trees.get(after.len().saturating_add(behind));
                return Ok(length.copied().unwrap_or(0));
            }
            Part::Field(id, place) => {
                push_field_at(t, of.bytes, node, kids, *id, place, &mut self.own)?
            }
            Part::Action(number) => {
                push_number(&mut self.own, false, value_of(of.values, node, *number))?
            }
        }
        Ok(self.own.len())
    }

    /// Adds the length of the first tree, where those of its operands are known.
    fn add(
        &mut self,
        t: &Tables,
        templates: &[Template],
        of: Instruction<'_>,
        nodes: &[Entry],
    ) -> Result<(), AllocError> {
        let Some((node, _)) = nodes.split_first() else {
            return Ok(());
        };
        let (kids, behind) = parted(nodes);
        let (parts, _) = parts_of(templates, node.ctor);
        let mut length = 0;
        for part in parts {
            let shown = self.part(t, of, node, kids, behind.len(), part)?;
            length = usize::saturating_add(length, shown);
        }
        self.trees.push(length)?;
        Ok(())
    }
}

/// The length of the text of a decode, or `usize::MAX` where it is longer.
pub(crate) fn text_length(
    alloc: Global,
    t: &Tables,
    templates: &[Template],
    of: Instruction<'_>,
    nodes: &[Entry],
) -> Result<usize, AllocError> {
    let mut lengths = Lengths {
        trees: Vec::new(alloc),
        own: Vec::new(alloc),
    };
    for first in (0..nodes.len()).rev() {
        lengths.add(t, templates, of, &nodes[first..])?;
    }
    Ok(lengths.trees.last().copied().unwrap_or(0))
}
