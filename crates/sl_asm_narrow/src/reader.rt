//! What a text is read by.

ghost use Rattle.std.specs.Prelude.{◌≡◌, ◌≤◌, ℕ, List, Some, IfOk, IfSome, IsTrue, length, slice_get};
ghost use Rattle.std.specs.List.{flat_map};
ghost use Rattle.sl_asm_bounds.specs.Bounds.{AreAsLong, Fits};
ghost use Rattle.sl_asm_narrow.specs.Candidates.{text_of};
ghost use Rattle.sl_asm_narrow.specs.Nodes.{BoundsTable};
ghost use Rattle.sl_asm_narrow.specs.Readers.{AreHeads, HasHead, IsReader, parts_at, tables_of};
ghost use Rattle.sl_asm_print.specs.Splits.{KeepsTexts};
ghost use Rattle.sl_ast.specs.Views.{items_of};
ghost use Rattle.sl_bind_compile.specs.Compiled.{IsCompiled};
ghost use Rattle.sl_bind_compile.specs.Outcomes.{all_constructors};
ghost use Rattle.sl_list_instructions.specs.Disassemblies.{StandsFor};
ghost use Rattle.sl_show.specs.declared.templates.Part.{Part as PartOf};

use sl_asm_bounds::Bounds;
use sl_asm_fit::Cell;
use sl_bind_compile::Compiled;
use sl_decode_plan::{Plan, make_plans};
use sl_list_instructions::Disassembly;
use sl_show::{Part, Template};
use sl_spec::{TableId, Tables, unfolded_constructors};
use std::alloc::{AllocError, Global};

/// The constructors of a specification, as their texts are read back: by what they match, what is
/// done at their nodes, and how these are shown.
#[derive(Drop)]
pub struct Reader<'d, 't, 'a> {
    pub compiled: &'d Compiled<'a>,
    pub disassembly: &'d Disassembly<'t, 'a>,
    pub(crate) plans: Vec<Plan>,
    /// The byte with which all texts of a constructor begin, where there is one.
    pub(crate) heads: Vec<Option<u8>>,
}

/// The instruction of which nodes are read: its address, and the one after it where its length is
/// known.
#[derive(Clone, Copy)]
pub struct Setting {
    pub start: u64,
    pub next: Option<u64>,
}

/// A node that is read: its place in bytes from the instruction's start, the context before it or,
/// where its own actions are done, after these, and its text, as far as they are known.
#[derive(Clone, Copy)]
pub struct Goal<'x> {
    pub at: u32,
    pub context: Option<u64>,
    pub text: Option<&'x [u8]>,
}

/// The byte with which all texts begin that the parts show, where there is one.
fn head_of(parts: &[Part]) -> Option<u8>
    ensures { IfSome result (HasHead parts.now) }
{
    match parts.first() {
        Some(Part::Text(text)) => text.first().copied(),
        _ => None,
    }
}

/// Whether the text begins with the byte.
fn has_first(text: &[u8], byte: u8) -> bool
    ensures { slice_get text.now 0 ≡ Some byte → IsTrue result }
{
    match text.first() {
        Some(first) => *first == byte,
        None => false,
    }
}

/// The heads of all templates.
fn heads_of(alloc: Global, templates: &[Template]) -> Result<Vec<Option<u8>>, AllocError>
    ensures { IfOk result (λ heads. AreHeads templates.now heads.items) }
{
    let mut heads = Vec::new(alloc);
    'templates: for number in 0..templates.len() {
        heads.push(head_of(&templates[number].parts))?;
    }
    Ok(heads)
}

/// A node of a constructor that is read: what is done at it, how it is shown, the texts of the first
/// parts, as far as they are known, and its goal after its own actions.
#[derive(Clone, Copy)]
pub struct Node<'n, 'x> {
    pub plan: &'n Plan,
    pub parts: &'n [Part],
    pub texts: &'n [&'x [u8]],
    pub goal: Goal<'x>,
}

impl<'d, 't, 'a> Reader<'d, 't, 'a> {
    /// A reader of the texts of a specification. The only error is want of memory.
    pub fn new(
        alloc: Global,
        compiled: &'d Compiled<'a>,
        disassembly: &'d Disassembly<'t, 'a>,
    ) -> Result<Self, AllocError>
        requires compiled { IsCompiled compiled.now }
        requires stands { StandsFor disassembly.now compiled.now.bound.tables
            (all_constructors (items_of compiled.now.bound.spec)) }
        ensures reads { IfOk result IsReader }
        ensures of { IfOk result (λ r. r.compiled.now ≡ compiled.now) }
    {
        let items = compiled.bound.spec.items.as_slice();
        let constructors = unfolded_constructors(alloc, items)?;
        let plans = make_plans(alloc, &compiled.bound.tables, constructors.as_slice())?;
        let heads = heads_of(alloc, &disassembly.templates)?;
        Ok(Reader {
            compiled,
            disassembly,
            plans,
            heads,
        })
    }

    /// What the specification defines.
    pub fn tables(&self) -> &Tables<'a>
        ensures { result.now ≡ tables_of self.now }
    {
        &self.compiled.bound.tables
    }

    /// The parts of the text of a constructor's nodes; none where there is no such constructor.
    pub(crate) fn parts(&self, number: u32) -> &[Part]
        ensures { result.now ≡ parts_at self.now number }
    {
        match self.disassembly.templates.get(number as usize) {
            Some(template) => template.parts.as_slice(),
            None => &[],
        }
    }

    /// Whether nodes of the constructor may have the goal's text, by the byte with which it begins.
    pub(crate) fn may_begin(&self, number: u32, goal: &Goal) -> bool
        ensures { IsReader self.now → (shows : PartOf → List ℕ) → KeepsTexts shows
            → Fits (text_of goal.now.text) (flat_map shows (parts_at self.now number))
            → IsTrue result }
    {
        match (self.heads.get(number as usize), goal.text) {
            (Some(Some(head)), Some(text)) => has_first(text, *head),
            _ => true,
        }
    }

    /// What is known of the first node of the text's encodings in the region, at the address from
    /// the context; `None` only where there are none. The only error is want of memory.
    pub fn bounds(
        &self,
        alloc: Global,
        setting: &Setting,
        region: &[Cell],
        text: &[u8],
        context: u64,
    ) -> Result<Option<Bounds>, AllocError>
        requires ready { IsReader self.now }
        requires long { length region.now ≤ 255 }
        ensures bounds { IfOk result (BoundsTable self.now setting.now region.now 0
            (record { at = 0; context = Some context; text = Some text.entry })) }
        ensures long { IfOk result (AreAsLong (length region.now)) }
    {
        let goal = Goal {
            at: 0,
            context: Some(context),
            text: Some(text),
        };
        let depth = self.tables().tables.len();
        self.table(alloc, setting, depth, region, TableId(0), &goal)
    }
}
