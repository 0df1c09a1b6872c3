//! The leaves and the lengths of patterns.

ghost use Rattle.std.specs.Prelude.{◌≡◌, ◌++◌, ◌<◌, ◌^◌, ℕ, List, IfOk, OnOk, slice_get};
ghost use Rattle.std.specs.Prelude.{None, Some};
ghost use Rattle.sl_ast.specs.Views.{head_of, pattern_of};
ghost use Rattle.sl_decode_meaning.specs.Kinds.{kind_of};
ghost use Rattle.sl_decode_meaning.specs.Places.{covers, leaves, length_in, length_of, means_table};
ghost use Rattle.sl_decode_meaning.specs.Places.{next_slot, place_beside, slot_from};
ghost use Rattle.sl_decode_leaves.specs.Extents.{extent, leaves_at};
ghost use Rattle.sl_decode_leaves.specs.Wholes.{AreLeavesOf};
ghost use Rattle.sl_spec.specs.Tables.{Operand as OperandOf};
ghost use Rattle.sl_spec.specs.declared.tables.Tables.{Tables as TablesOf};
ghost use Rattle.sl_spec_tables.specs.Lengths.{field_bytes, joined_bytes};

use crate::extents::{Extent, again, greater, sum};
use crate::fields::token_of;
use crate::kinds::kind_of;
use crate::leaves::{Leaf, alone_in, firsts_in};
use crate::looks::looks_of;
use crate::pattern_leaves::PatternLeaves;
use sl_ast::constructors::Head;
use sl_ast::patterns::{Pattern, PatternOp};
use sl_decode_meaning::Kind;
use sl_spec::{FieldId, Means, Named, Operand, Tables};
use std::alloc::{AllocError, Global};

pub fn means_table(means: Means) -> bool
    ensures { result ≡ means_table means }
{
    matches!(means, Means::Table(_))
}

fn next_slot(means: Means, number: usize) -> usize
    requires { number < 2 ^ 63 }
    ensures { result ≡ next_slot means number }
{
    if means_table(means) {
        number + 1
    } else {
        number
    }
}

/// The number of the table operand of this name among the table operands.
pub fn slot_number(operands: &[Operand], name: &[u8]) -> Option<usize>
    ensures { result ≡ slot_from 0 operands.now name.now }
{
    let mut number = 0;
    'operands: for index in 0..operands.len() {
        let operand = &operands[index];
        if means_table(operand.means) && operand.name == name {
            return Some(number);
        }
        number = next_slot(operand.means, number);
    }
    None
}

/// The length of the table operand of this name, 0 for each other name.
fn operand_length(operands: &[Operand], name: &[u8]) -> Extent
    ensures { (lengths : List ℕ) → extent result lengths
        ≡ length_of operands.now lengths name.now }
{
    match slot_number(operands, name) {
        Some(number) => Extent::Operand(number),
        None => Extent::Fixed(0),
    }
}

/// The bytes of a field's token, none for a field of the context.
fn field_bytes(t: &Tables, id: FieldId) -> u64
    ensures { result ≡ field_bytes t.now (slice_get t.now.fields id) }
{
    let Some(of) = t.fields.at(id.number() as usize) else {
        return 0;
    };
    match token_of(t, of) {
        Some(token) => u64::from(token.bits / 8),
        None => 0,
    }
}

/// How many bytes a name covers.
pub(crate) fn covered(t: &Tables, operands: &[Operand], name: &[u8]) -> Result<Extent, AllocError>
    ensures { IfOk result (λ r. (lengths : List ℕ) → extent r lengths
        ≡ covers t.now (kind_of t.now operands.now name.now)
        (length_of operands.now lengths name.now)) }
{
    match kind_of(t, operands, name)? {
        Kind::Field(id) => Ok(Extent::Fixed(field_bytes(t, id))),
        Kind::Table(_) => Ok(operand_length(operands, name)),
        Kind::Action(_) => Ok(Extent::Fixed(0)),
        Kind::Start => Ok(Extent::Fixed(0)),
        Kind::Next => Ok(Extent::Fixed(0)),
        Kind::Nothing => Ok(Extent::Fixed(0)),
    }
}

/// Where the right side of an operator stands.
fn beside(alloc: Global, op: PatternOp, at: Extent, left: &Extent) -> Result<Extent, AllocError>
    ensures { IfOk result (λ r. (lengths : List ℕ) → extent r lengths
        ≡ place_beside op (extent at lengths) (extent left.now lengths)) }
{
    match op {
        PatternOp::Then => sum(alloc, at, again(left)?),
        PatternOp::And => Ok(at),
        PatternOp::Or => Ok(at),
    }
}

/// The length of two patterns that are joined.
fn joint(alloc: Global, op: PatternOp, left: Extent, right: Extent) -> Result<Extent, AllocError>
    ensures { IfOk result (λ r. (lengths : List ℕ) → extent r lengths
        ≡ joined_bytes op (extent left lengths) (extent right lengths)) }
{
    match op {
        PatternOp::Then => sum(alloc, left, right),
        PatternOp::And => greater(alloc, left, right),
        PatternOp::Or => greater(alloc, left, right),
    }
}

/// Adds the leaves of a pattern that stands at a place, and gives its length.
#[tactic(auto, unfolding(sl_decode_meaning::specs::Places::leaves))]
fn add_leaves<'a>(
    alloc: Global,
    t: &Tables,
    operands: &[Operand],
    at: Extent,
    p: &Pattern<'a>,
    all: &mut Vec<Leaf<'a>>,
) -> Result<Extent, AllocError>
    ensures added { OnOk result ((lengths : List ℕ) → leaves_at lengths all.new.items
        ≡ leaves_at lengths all.old.items ++ leaves t.now operands.now
        (length_of operands.now lengths) (extent at lengths) (pattern_of p.now)) }
    ensures length { IfOk result (λ r. (lengths : List ℕ) → extent r lengths
        ≡ length_in t.now operands.now (length_of operands.now lengths) (pattern_of p.now)) }
{
    match p {
        Pattern::Name(name) => {
            all.push(Leaf {
                name,
                alone: true,
                place: at,
            })?;
            let length = covered(t, operands, name)?;
            Ok(length)
        }
        Pattern::Constraint(name, _, _) => {
            all.push(Leaf {
                name,
                alone: false,
                place: at,
            })?;
            let length = covered(t, operands, name)?;
            Ok(length)
        }
        Pattern::Paren(inner) => add_leaves(alloc, t, operands, at, inner, all),
        Pattern::Ellipsis(inner) => add_leaves(alloc, t, operands, at, inner, all),
        Pattern::Joined(op, left, right) => {
            let start = again(&at)?;
            let first = add_leaves(alloc, t, operands, at, left, all)?;
            let next = beside(alloc, *op, start, &first)?;
            let second = add_leaves(alloc, t, operands, next, right, all)?;
            let length = joint(alloc, *op, first, second)?;
            Ok(length)
        }
    }
}

/// What is made of a pattern.
pub(crate) fn leaves_of_pattern<'a>(
    alloc: Global,
    t: &Tables,
    operands: &[Operand],
    pattern: &Pattern<'a>,
) -> Result<PatternLeaves<'a>, AllocError>
    ensures { IfOk result (AreLeavesOf t.now operands.now (Some (pattern_of pattern.now))) }
{
    let mut leaves = Vec::new(alloc);
    let length = add_leaves(alloc, t, operands, Extent::Fixed(0), pattern, &mut leaves)?;
    let firsts = firsts_in(alloc, leaves.as_slice())?;
    let alone = alone_in(alloc, leaves.as_slice())?;
    let looks = looks_of(alloc, t, operands, leaves.as_slice())?;
    Ok(PatternLeaves {
        leaves,
        firsts,
        alone,
        looks,
        length,
    })
}

/// What is made of no pattern.
fn no_leaves<'a>(alloc: Global) -> PatternLeaves<'a>
    ensures { (t : TablesOf) (os : List OperandOf) → AreLeavesOf t os None result }
{
    PatternLeaves {
        leaves: Vec::new(alloc),
        firsts: Named::new(alloc),
        alone: Vec::new(alloc),
        looks: Vec::new(alloc),
        length: Extent::Fixed(0),
    }
}

/// What is made of the pattern of a block, if it has one.
pub(crate) fn leaves_of_head<'a>(
    alloc: Global,
    t: &Tables,
    operands: &[Operand],
    head: &Head<'a>,
) -> Result<PatternLeaves<'a>, AllocError>
    ensures { IfOk result (AreLeavesOf t.now operands.now (head_of head.now).pattern) }
{
    match &head.pattern {
        Some(pattern) => leaves_of_pattern(alloc, t, operands, pattern),
        None => Ok(no_leaves(alloc)),
    }
}
