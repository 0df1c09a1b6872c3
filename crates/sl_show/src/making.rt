//! Templates of constructors.

ghost use Rattle.std.specs.Prelude.{◌≡◌, ℕ, List, IfOk, Some};
ghost use Rattle.sl_decode_meaning.specs.Meanings.{leaves_by};
ghost use Rattle.sl_decode_leaves.specs.Blocks.{AreLeavesOfHead};
ghost use Rattle.sl_decode_leaves.specs.Extents.{leaves_at};
ghost use Rattle.sl_show.specs.Pieces.{display_text};
ghost use Rattle.sl_show.specs.Templates.{AreTemplates, parts_text};
ghost use Rattle.sl_show.specs.Texts.{Spot, node_text_by, word_text};
ghost use Rattle.sl_spec.specs.Numbers.{AreMadeFor, AreNumbered, KeepsMade};
ghost use Rattle.sl_spec.specs.Unfolded.{all_placed, placed};

use crate::displays::template_of;
use crate::templates::Template;
use sl_decode_leaves::{BlockLeaves, JoinedLeaves, leaves_among, leaves_of};
use sl_spec::{ByBlock, Ctor, Operand, TableId, Tables, Unfolded};
use std::alloc::{AllocError, Global};

/// The template of a constructor with these operands, by the names of its pattern.
fn template_with(
    alloc: Global,
    t: &Tables,
    operands: &[Operand],
    leaves: &JoinedLeaves,
    has_mnemonic: bool,
    of: &Unfolded,
) -> Result<Template, AllocError>
    requires { (lengths : List ℕ) → leaves_at lengths leaves.now
        ≡ leaves_by t.now operands.now (placed of.now).1.pattern lengths }
    ensures { IfOk result (λ template. (s : Spot) → parts_text t.now s template.parts.items
        ≡ display_text has_mnemonic (word_text t.now operands.now
        (leaves_by t.now operands.now (placed of.now).1.pattern s.lengths) s)
        (placed of.now).1.display) }
{
    let own = of.own;
    let display = own.display.as_slice();
    let template = template_of(alloc, operands, leaves, has_mnemonic, display)?;
    Ok(template)
}

/// The template of a constructor. The only error is want of memory.
pub fn make_template(
    alloc: Global,
    t: &Tables,
    ctor: &Ctor,
    of: &Unfolded,
) -> Result<Template, AllocError>
    ensures { IfOk result (λ template. (s : Spot) → parts_text t.now s template.parts.items
        ≡ node_text_by t.now (Some ctor.now) (Some (placed of.now)) s) }
{
    let has_mnemonic = ctor.table == TableId(0);
    let operands = ctor.operands.as_slice();
    let leaves = leaves_of(alloc, t, operands, of)?;
    let template = template_with(alloc, t, operands, &leaves, has_mnemonic, of)?;
    Ok(template)
}

/// The template of a constructor, where what was made of blocks is taken.
fn template_among<'s, 'a>(
    alloc: Global,
    t: &Tables,
    ctor: &Ctor,
    of: &Unfolded<'s, 'a>,
    made: &mut ByBlock<BlockLeaves<'a>>,
) -> Result<Template, AllocError>
    requires { AreMadeFor (AreLeavesOfHead t.now) of.now.heads.items made.old }
    ensures template { IfOk result (λ template. (s : Spot)
        → parts_text t.now s template.parts.items
        ≡ node_text_by t.now (Some ctor.now) (Some (placed of.now)) s) }
    ensures kept { IfOk result (λ _.
        KeepsMade (AreLeavesOfHead t.now) of.now.heads.items made.old made.new) }
{
    let has_mnemonic = ctor.table == TableId(0);
    let operands = ctor.operands.as_slice();
    let leaves = leaves_among(alloc, t, operands, of, made)?;
    let template = template_with(alloc, t, operands, &leaves, has_mnemonic, of)?;
    Ok(template)
}

/// The templates of all constructors of a text. The names of a block's pattern are gone over once
/// for all constructors inside. The only error is want of memory.
pub fn make_templates(
    alloc: Global,
    t: &Tables,
    constructors: &[Unfolded],
) -> Result<Vec<Template>, AllocError>
    requires { AreNumbered constructors.now }
    ensures { IfOk result (λ v. AreTemplates t.now (all_placed constructors.now) v.items) }
{
    let mut made = ByBlock::new(alloc);
    let mut all = Vec::new(alloc);
    'constructors: for index in 0..constructors.len() {
        let Some(ctor) = t.constructors.get(index) else {
            return Ok(all);
        };
        let template = template_among(alloc, t, ctor, &constructors[index], &mut made)?;
        all.push(template)?;
    }
    Ok(all)
}
