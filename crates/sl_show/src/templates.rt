//! Displays of constructors, made once.

ghost use Rattle.std.specs.Prelude.{◌≡◌, [], ◌++◌, Decides, OnOk, IfOk, length, not};
ghost use Rattle.sl_show.specs.Templates.{AreOnce, made, part_text, parts_text};
ghost use Rattle.sl_show.specs.Texts.{Spot};
ghost use Rattle.sl_spec.specs.declared.tables.Tables.{Tables as TablesOf};

use sl_decode_leaves::Extent;
use sl_spec::FieldId;
use std::alloc::{AllocError, Global};
use std::collections::BTreeSet;

/// A part of the text of a node.
#[derive(Drop)]
pub enum Part {
    Text(Vec<u8>),
    /// The table operand of this number among the table operands.
    Table(usize),
    /// A field, and the place of its token in bytes from the node's own.
    Field(FieldId, Extent),
    /// The action name of this number.
    Action(u32),
}

/// The text of the nodes of a constructor, by its parts.
#[derive(Drop)]
pub struct Template {
    pub parts: Vec<Part>,
    /// Whether the text of an operand is among the parts more than once.
    pub(crate) repeats: bool,
}

/// Whether the text of an operand is among these parts more than once.
fn has_repeats(alloc: Global, parts: &[Part]) -> Result<bool, AllocError>
    ensures { IfOk result (λ repeats. Decides (not repeats)
        (AreOnce parts.now (length parts.now))) }
{
    let mut shown = BTreeSet::new(alloc);
    'parts: for part in parts {
        if let Part::Table(number) = part {
            if !shown.insert(*number)? {
                return Ok(true);
            }
        }
    }
    Ok(false)
}

/// A template that is being made: parts, and the text that stands behind them so far.
#[derive(Drop)]
pub(crate) struct Maker {
    parts: Vec<Part>,
    text: Vec<u8>,
}

impl Maker {
    pub fn new(alloc: Global) -> Self
        ensures { (t : TablesOf) (s : Spot) → made t s result ≡ [] }
    {
        Maker {
            parts: Vec::new(alloc),
            text: Vec::new(alloc),
        }
    }

    /// Adds a text.
    pub fn add_text(&mut self, text: &[u8]) -> Result<(), AllocError>
        ensures { OnOk result ((t : TablesOf) (s : Spot)
            → made t s self.new ≡ made t s self.old ++ text.now) }
    {
        self.text.extend_from_slice(text)
    }

    /// Makes the text behind the parts a part.
    fn close(&mut self, alloc: Global) -> Result<(), AllocError>
        ensures text { OnOk result (self.new.text.items ≡ []) }
        ensures same { OnOk result ((t : TablesOf) (s : Spot)
            → parts_text t s self.new.parts.items ≡ made t s self.old) }
    {
        if self.text.is_empty() {
            return Ok(());
        }
        let text = std::mem::replace(&mut self.text, Vec::new(alloc));
        self.parts.push(Part::Text(text))?;
        Ok(())
    }

    /// Adds another part.
    pub fn add(&mut self, alloc: Global, part: Part) -> Result<(), AllocError>
        ensures { OnOk result ((t : TablesOf) (s : Spot)
            → made t s self.new ≡ made t s self.old ++ part_text t s part) }
    {
        self.close(alloc)?;
        self.parts.push(part)?;
        Ok(())
    }

    /// The template.
    pub fn end(mut self, alloc: Global) -> Result<Template, AllocError>
        ensures text { IfOk result (λ template. (t : TablesOf) (s : Spot)
            → parts_text t s template.parts.items ≡ made t s self) }
        ensures repeats { IfOk result (λ template. Decides (not template.repeats)
            (AreOnce template.parts.items (length template.parts.items))) }
    {
        self.close(alloc)?;
        let parts = self.parts;
        let repeats = has_repeats(alloc, parts.as_slice())?;
        Ok(Template { parts, repeats })
    }
}
