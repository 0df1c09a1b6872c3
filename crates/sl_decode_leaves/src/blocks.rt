//! What is made of the patterns of blocks, once for all constructors inside.

ghost use Rattle.std.specs.Prelude.{◌≡◌, ◌∷◌, [], ℕ, List, IsTrue, IfOk, IfSome, OnOk};
ghost use Rattle.std.specs.Prelude.{option_copied};
ghost use Rattle.std.specs.List.{list_all, list_any};
ghost use Rattle.std.specs.Str.{bytes_eq};
ghost use Rattle.sl_ast.specs.Views.{head_of};
ghost use Rattle.sl_decode_meaning.specs.Kinds.{kind_of};
ghost use Rattle.sl_decode_meaning.specs.Meanings.{leaves_by};
ghost use Rattle.sl_decode_leaves.specs.Blocks.{ArePlain, AreLeavesOfHead, AreTied, IsTaken};
ghost use Rattle.sl_decode_leaves.specs.Blocks.{MayTake};
ghost use Rattle.sl_decode_leaves.specs.Blocks.{StandAsBefore, StandsAsBefore, TiesOne, is_plain};
ghost use Rattle.sl_decode_leaves.specs.Blocks.{means_field};
ghost use Rattle.sl_decode_leaves.specs.Extents.{leaves_at};
ghost use Rattle.sl_decode_leaves.specs.Wholes.{AreLeavesOf, IsWhole};
ghost use Rattle.sl_spec.specs.Numbers.{AreMadeFor, KeepsMade};
ghost use Rattle.sl_spec.specs.Unfolded.{placed};

use crate::extents::{Extent, is_same};
use crate::joined::JoinedLeaves;
use crate::kinds::kind_of;
use crate::leaves::Leaf;
use crate::pattern_leaves::PatternLeaves;
use crate::patterns::{covered, leaves_of_head, leaves_of_pattern};
use crate::whole::Whole;
use sl_ast::constructors::Head;
use sl_decode_meaning::Kind;
use sl_spec::{Around, ByBlock, Means, Operand, Tables, Unfolded};
use std::alloc::{AllocError, Global};
use std::rc::Rc;

/// A name that hangs on the operands: what it stands for, and how many bytes it covers.
#[derive(Drop)]
pub struct Tied<'a> {
    pub(crate) name: &'a [u8],
    pub(crate) kind: Kind,
    pub(crate) length: Extent,
}

/// What was made of a block's pattern for the operands of a constructor inside, and the names in it
/// that hang on them: those that are no field's.
#[derive(Drop)]
pub struct BlockLeaves<'a> {
    pub(crate) leaves: Rc<PatternLeaves<'a>>,
    pub(crate) tied: Vec<Tied<'a>>,
}

// ---- operands

/// Whether a name that is the field of this index, if of any, means that field.
fn means_field(index: Option<usize>, means: Means) -> bool
    ensures { result ≡ means_field index means }
{
    match (index, means) {
        (None, _) => true,
        (Some(index), Means::Field(id)) => index == id.number() as usize,
        (Some(_), Means::Table(_)) => false,
        (Some(_), Means::Action(_)) => false,
    }
}

/// Whether an operand that is named like a field means that field.
fn is_plain(t: &Tables, operand: &Operand) -> bool
    ensures { result ≡ is_plain t.now operand.now }
{
    means_field(t.fields.index_of(operand.name), operand.means)
}

/// Whether each operand that is named like a field means that field.
pub fn are_plain(t: &Tables, operands: &[Operand]) -> bool
    ensures { result ≡ list_all (is_plain t.now) operands.now }
{
    operands.iter().all(|operand| is_plain(t, operand))
}

// ---- the names of a block's pattern that hang on operands

/// Whether a name is among these.
fn is_tied(tied: &[Tied], name: &[u8]) -> bool
    ensures { result ≡ list_any (λ x. bytes_eq name.now x.name.now) tied.now }
{
    tied.iter().any(|x| name == x.name)
}

/// Adds a name with what it stands for, unless it is a field's or is there.
fn add_tied<'a>(
    t: &Tables,
    operands: &[Operand],
    leaf: &Leaf<'a>,
    all: &mut Vec<Tied<'a>>,
) -> Result<(), AllocError>
    requires plain { ArePlain t.now operands.now }
    requires before { StandAsBefore t.now operands.now all.old.items }
    ensures before { OnOk result (StandAsBefore t.now operands.now all.new.items) }
    ensures tied { OnOk result
        (TiesOne t.now operands.now leaf.now.name.now all.old.items all.new.items) }
{
    let name = leaf.name;
    if t.fields.index_of(name).is_some() {
        return Ok(());
    }
    if is_tied(all.as_slice(), name) {
        return Ok(());
    }
    let kind = kind_of(t, operands, name)?;
    let length = covered(t, operands, name)?;
    all.push(Tied { name, kind, length })?;
    Ok(())
}

/// The names that hang on the operands.
fn tied_in<'a>(
    alloc: Global,
    t: &Tables,
    operands: &[Operand],
    leaves: &[Leaf<'a>],
) -> Result<Vec<Tied<'a>>, AllocError>
    requires { ArePlain t.now operands.now }
    ensures { IfOk result (λ tied. AreTied t.now operands.now tied.items leaves.now) }
{
    let mut all = Vec::new(alloc);
    'leaves: for index in 0..leaves.len() {
        add_tied(t, operands, &leaves[index], &mut all)?;
    }
    Ok(all)
}

/// Whether a name stands for what it stood for.
fn stands_as_before(t: &Tables, operands: &[Operand], x: &Tied) -> Result<bool, AllocError>
    ensures { IfOk result (λ same. IsTrue same → StandsAsBefore t.now operands.now x.now) }
{
    let kind = kind_of(t, operands, x.name)?;
    let length = covered(t, operands, x.name)?;
    Ok(kind == x.kind && is_same(&length, &x.length))
}

/// Whether names stand for what they stood for.
fn stand_as_before(t: &Tables, operands: &[Operand], tied: &[Tied]) -> Result<bool, AllocError>
    ensures { IfOk result (λ same. IsTrue same → StandAsBefore t.now operands.now tied.now) }
{
    'tied: for index in 0..tied.len() {
        if !stands_as_before(t, operands, &tied[index])? {
            return Ok(false);
        }
    }
    Ok(true)
}

// ---- the pattern of a block

/// What constructors can share.
fn shared<'a>(alloc: Global, leaves: PatternLeaves<'a>) -> Result<Rc<PatternLeaves<'a>>, AllocError>
    ensures { IfOk result (λ rc. rc.value ≡ leaves.entry) }
{
    match Rc::new(alloc, leaves) {
        Ok(shared) => Ok(shared),
        Err(_) => Err(AllocError),
    }
}

/// What is made of a block's pattern, if it has one.
fn fresh<'a>(
    alloc: Global,
    t: &Tables,
    operands: &[Operand],
    head: &Head<'a>,
) -> Result<Rc<PatternLeaves<'a>>, AllocError>
    ensures { IfOk result (λ x. AreLeavesOf t.now operands.now (head_of head.now).pattern x.value) }
{
    let leaves = leaves_of_head(alloc, t, operands, head)?;
    let rc = shared(alloc, leaves)?;
    Ok(rc)
}

/// What was made of a block's pattern, if it may be taken for these operands.
fn taken<'a>(
    t: &Tables,
    operands: &[Operand],
    made: Option<&BlockLeaves<'a>>,
) -> Result<Option<Rc<PatternLeaves<'a>>>, AllocError>
    ensures { IfOk result (λ o. IfSome o (λ x.
        IsTaken t.now operands.now (option_copied made.entry) x.value)) }
{
    let Some(block) = made else {
        return Ok(None);
    };
    if !stand_as_before(t, operands, block.tied.as_slice())? {
        return Ok(None);
    }
    let leaves = block.leaves.clone()?;
    Ok(Some(leaves))
}

/// Makes and keeps what is made of a block's pattern.
fn make_leaves<'s, 'a>(
    alloc: Global,
    t: &Tables,
    operands: &[Operand],
    around: Around<'s, 'a>,
    made: &mut ByBlock<BlockLeaves<'a>>,
) -> Result<Rc<PatternLeaves<'a>>, AllocError>
    requires { ArePlain t.now operands.now }
    ensures leaves { IfOk result (λ x.
        AreLeavesOf t.now operands.now (head_of around.entry.head.now).pattern x.value) }
    ensures kept { IfOk result (λ _.
        KeepsMade (AreLeavesOfHead t.now) (around.entry ∷ []) made.old made.new) }
{
    let leaves = fresh(alloc, t, operands, around.head)?;
    let tied = tied_in(alloc, t, operands, leaves.leaves.as_slice())?;
    let copy = leaves.clone()?;
    made.put(around.number, BlockLeaves { leaves: copy, tied })?;
    Ok(leaves)
}

/// What is made of a block's pattern: that which was, if it may be taken.
fn take_leaves<'s, 'a>(
    alloc: Global,
    t: &Tables,
    operands: &[Operand],
    around: Around<'s, 'a>,
    made: &mut ByBlock<BlockLeaves<'a>>,
) -> Result<Rc<PatternLeaves<'a>>, AllocError>
    requires { MayTake t.now operands.now (around ∷ []) made.old }
    ensures leaves { IfOk result (λ x.
        AreLeavesOf t.now operands.now (head_of around.entry.head.now).pattern x.value) }
    ensures kept { IfOk result (λ _.
        KeepsMade (AreLeavesOfHead t.now) (around.entry ∷ []) made.old made.new) }
{
    match taken(t, operands, made.get(around.number))? {
        Some(leaves) => Ok(leaves),
        None => make_leaves(alloc, t, operands, around, made),
    }
}

/// What is made of a block's pattern, which is taken or kept only where that may be.
fn leaves_of_block<'s, 'a>(
    alloc: Global,
    t: &Tables,
    operands: &[Operand],
    around: Around<'s, 'a>,
    may_take: bool,
    made: &mut ByBlock<BlockLeaves<'a>>,
) -> Result<Rc<PatternLeaves<'a>>, AllocError>
    requires { IsTrue may_take → MayTake t.now operands.now (around ∷ []) made.old }
    ensures leaves { IfOk result (λ x.
        AreLeavesOf t.now operands.now (head_of around.entry.head.now).pattern x.value) }
    ensures kept { IfOk result (λ _.
        KeepsMade (AreLeavesOfHead t.now) (around.entry ∷ []) made.old made.new) }
{
    if may_take {
        take_leaves(alloc, t, operands, around, made)
    } else {
        fresh(alloc, t, operands, around.head)
    }
}

// ---- whole patterns

/// What is made of the pattern of a constructor with these operands, those of the blocks round it
/// before its own.
fn whole_of<'s, 'a>(
    alloc: Global,
    t: &Tables,
    operands: &[Operand],
    of: &Unfolded<'s, 'a>,
    may_take: bool,
    made: &mut ByBlock<BlockLeaves<'a>>,
) -> Result<Whole<'a>, AllocError>
    requires { IsTrue may_take → MayTake t.now operands.now of.now.heads.items made.old }
    ensures whole { IfOk result (IsWhole t.now operands.now (placed of.now).1.pattern) }
    ensures kept { IfOk result (λ _.
        KeepsMade (AreLeavesOfHead t.now) of.now.heads.items made.old made.new) }
{
    let heads = of.heads.as_slice();
    let mut whole = Whole::new(alloc);
    'heads: for index in 0..heads.len() {
        let its = leaves_of_block(alloc, t, operands, heads[index], may_take, made)?;
        whole = whole.join(alloc, its)?;
    }
    let own = leaves_of_pattern(alloc, t, operands, &of.own.pattern)?;
    let own = shared(alloc, own)?;
    let whole = whole.join(alloc, own)?;
    Ok(whole)
}

/// The same, all of it made anew.
pub fn whole_anew<'a>(
    alloc: Global,
    t: &Tables,
    operands: &[Operand],
    of: &Unfolded<'_, 'a>,
) -> Result<Whole<'a>, AllocError>
    ensures { IfOk result (IsWhole t.now operands.now (placed of.now).1.pattern) }
{
    let mut none = ByBlock::new(alloc);
    let whole = whole_of(alloc, t, operands, of, false, &mut none)?;
    Ok(whole)
}

/// The same, where what was made of blocks is taken as far as it is right for these operands.
pub fn whole_among<'s, 'a>(
    alloc: Global,
    t: &Tables,
    operands: &[Operand],
    of: &Unfolded<'s, 'a>,
    made: &mut ByBlock<BlockLeaves<'a>>,
) -> Result<Whole<'a>, AllocError>
    requires { AreMadeFor (AreLeavesOfHead t.now) of.now.heads.items made.old }
    ensures whole { IfOk result (IsWhole t.now operands.now (placed of.now).1.pattern) }
    ensures kept { IfOk result (λ _.
        KeepsMade (AreLeavesOfHead t.now) of.now.heads.items made.old made.new) }
{
    let may_take = are_plain(t, operands);
    whole_of(alloc, t, operands, of, may_take, made)
}

/// The names of a constructor's pattern with their places, where these are its operands. The only
/// error is want of memory.
pub fn leaves_of<'a>(
    alloc: Global,
    t: &Tables,
    operands: &[Operand],
    of: &Unfolded<'_, 'a>,
) -> Result<JoinedLeaves<'a>, AllocError>
    ensures { IfOk result (λ v. (lengths : List ℕ) → leaves_at lengths v
        ≡ leaves_by t.now operands.now (placed of.now).1.pattern lengths) }
{
    let whole = whole_anew(alloc, t, operands, of)?;
    Ok(whole.leaves)
}

/// The same, where what was made of blocks is taken as far as it is right for these operands.
pub fn leaves_among<'s, 'a>(
    alloc: Global,
    t: &Tables,
    operands: &[Operand],
    of: &Unfolded<'s, 'a>,
    made: &mut ByBlock<BlockLeaves<'a>>,
) -> Result<JoinedLeaves<'a>, AllocError>
    requires { AreMadeFor (AreLeavesOfHead t.now) of.now.heads.items made.old }
    ensures leaves { IfOk result (λ v. (lengths : List ℕ) → leaves_at lengths v
        ≡ leaves_by t.now operands.now (placed of.now).1.pattern lengths) }
    ensures kept { IfOk result (λ _.
        KeepsMade (AreLeavesOfHead t.now) of.now.heads.items made.old made.new) }
{
    let whole = whole_among(alloc, t, operands, of, made)?;
    Ok(whole.leaves)
}
