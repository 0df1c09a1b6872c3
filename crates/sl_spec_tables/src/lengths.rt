//! How many bytes patterns have.

ghost use Rattle.std.specs.Prelude.{◌≡◌, ◌≤◌, ◌/◌, ◌∷◌, [], min, get_or, option_copied};
ghost use Rattle.sl_ast.specs.Views.{constructor_of, head_of, pattern_of};
ghost use Rattle.sl_spec.specs.FieldValues.{token_of};
ghost use Rattle.sl_spec.specs.Named.{named};
ghost use Rattle.sl_spec.specs.Numbers.{AreMadeFor};
ghost use Rattle.sl_spec_tables.specs.BlockLengths.{IsLengthOf, IsMeasured};
ghost use Rattle.sl_spec_tables.specs.Lengths.{field_bytes, joined_bytes, means_bytes};
ghost use Rattle.sl_spec_tables.specs.Lengths.{operand_bytes};
ghost use Rattle.sl_spec_tables.specs.Lengths.{pattern_bytes, row_bytes, token_bytes};
ghost use Rattle.sl_spec_tables.specs.Heads.{head_bytes, heads_bytes};
ghost use Rattle.sl_spec_tables.specs.Views.{row_of};
ghost use Rattle.sl_spec.specs.Unfolded.{heads_of};

use crate::block_lengths::{Length, length_bytes};
use crate::rows::{Row, number};
use sl_ast::constructors::Head;
use sl_ast::patterns::{Pattern, PatternOp};
use sl_spec::{Around, ByBlock, Field, Means, Operand, Tables, Token};

/// One more than each limit: numbers above it needn't be told apart.
const ENOUGH: usize = 1025;

/// A number, all those from 1,025 on alike.
pub fn capped(n: usize) -> usize
    ensures { result ≡ min n 1025 }
{
    n.min(ENOUGH)
}

/// The bytes of a token.
fn token_bytes(token: &Token) -> usize
    ensures { result ≡ token.now.bits / 8 }
{
    usize::from(token.bits / 8)
}

/// The bytes of a field's token, none of the context.
fn field_bytes(t: &Tables, field: &Field) -> usize
    ensures { result ≡ token_bytes (token_of t.now.tokens field.now) }
{
    match field.token {
        Some(token) => match t.tokens.at(token as usize) {
            Some(token) => token_bytes(token),
            None => 0,
        },
        None => 0,
    }
}

/// The bytes of the field of this name.
pub fn constraint_bytes(t: &Tables, name: &[u8]) -> usize
    ensures { result ≡ field_bytes t.now (named (λ f. f.name) name.now t.now.fields) }
{
    match t.fields.get(name) {
        Some(field) => field_bytes(t, field),
        None => 0,
    }
}

/// What is known of a number.
pub fn known(values: &[usize], index: usize) -> usize
    ensures { result ≡ get_or values.now index 0 }
{
    match values.get(index) {
        Some(value) => *value,
        None => 0,
    }
}

/// The bytes of what an operand means, where those of tables are known.
fn means_bytes(t: &Tables, values: &[usize], means: Means) -> usize
    ensures { result ≡ means_bytes t.now (λ u. get_or values.now u 0) means }
{
    match means {
        Means::Field(field) => match t.fields.at(field.number() as usize) {
            Some(field) => field_bytes(t, field),
            None => 0,
        },
        Means::Table(table) => known(values, number(table)),
        Means::Action(_) => 0,
    }
}

/// The operand of a name.
fn operand<'x, 'a>(operands: &'x [Operand<'a>], name: &[u8]) -> Option<&'x Operand<'a>>
    ensures { option_copied result ≡ named (λ o. o.name) name.now operands.now }
{
    operands.iter().find(|operand| name == operand.name)
}

/// The bytes of the operand of a name.
pub fn operand_bytes(t: &Tables, values: &[usize], operands: &[Operand], name: &[u8]) -> usize
    ensures { result ≡ operand_bytes t.now (λ u. get_or values.now u 0)
        (named (λ o. o.name) name.now operands.now) }
{
    match operand(operands, name) {
        Some(operand) => means_bytes(t, values, operand.means),
        None => 0,
    }
}

/// The bytes of two patterns that are joined.
pub fn joined_bytes(op: PatternOp, left: usize, right: usize) -> usize
    requires left { left ≤ 1025 }
    requires right { right ≤ 1025 }
    ensures { result ≡ min (joined_bytes op left right) 1025 }
{
    match op {
        PatternOp::And => capped(left.max(right)),
        PatternOp::Then => capped(left + right),
        PatternOp::Or => capped(left.max(right)),
    }
}

/// The bytes of a pattern, where those of tables are known.
#[tactic(auto, unfolding(crate::specs::Lengths::pattern_bytes))]
pub fn pattern_bytes(t: &Tables, values: &[usize], operands: &[Operand], pattern: &Pattern) -> usize
    ensures { result ≡ min (pattern_bytes t.now (λ u. get_or values.now u 0) operands.now
        (pattern_of pattern.now)) 1025 }
{
    match pattern {
        Pattern::Name(name) => capped(operand_bytes(t, values, operands, name)),
        Pattern::Constraint(name, _, _) => capped(constraint_bytes(t, name)),
        Pattern::Paren(inner) => pattern_bytes(t, values, operands, inner),
        Pattern::Ellipsis(inner) => pattern_bytes(t, values, operands, inner),
        Pattern::Joined(op, left, right) => joined_bytes(
            *op,
            pattern_bytes(t, values, operands, left),
            pattern_bytes(t, values, operands, right),
        ),
    }
}

/// The bytes of the pattern of a block's head.
fn head_bytes(t: &Tables, values: &[usize], operands: &[Operand], head: &Head) -> usize
    ensures { result ≡ min (head_bytes t.now (λ u. get_or values.now u 0) operands.now
        (head_of head.now)) 1025 }
{
    match &head.pattern {
        Some(pattern) => pattern_bytes(t, values, operands, pattern),
        None => 0,
    }
}

/// The bytes of the pattern of a block's head, by what was made of the block.
fn block_bytes(
    t: &Tables,
    made: &ByBlock<Length>,
    values: &[usize],
    operands: &[Operand],
    block: &Around,
) -> usize
    requires { AreMadeFor (IsLengthOf t.now) (block.now ∷ []) made.now }
    ensures { result ≡ min (head_bytes t.now (λ u. get_or values.now u 0) operands.now
        (head_of block.now.head.now)) 1025 }
{
    match made.get(block.number) {
        Some(length) => length_bytes(t, values, operands, length),
        None => head_bytes(t, values, operands, block.head),
    }
}

/// The greatest number of bytes of the patterns of blocks' heads.
fn heads_bytes(
    t: &Tables,
    made: &ByBlock<Length>,
    values: &[usize],
    operands: &[Operand],
    heads: &[Around],
) -> usize
    requires { AreMadeFor (IsLengthOf t.now) heads.now made.now }
    ensures { result ≡ min (heads_bytes t.now (λ u. get_or values.now u 0) operands.now
        (heads_of heads.now)) 1025 }
{
    let mut most = 0;
    'heads: for index in 0..heads.len() {
        let block = heads[index];
        let bytes = block_bytes(t, made, values, operands, &block);
        most = capped(bytes.max(most));
    }
    most
}

/// The bytes of a constructor.
pub fn row_bytes(t: &Tables, made: &ByBlock<Length>, values: &[usize], row: &Row) -> usize
    requires { IsMeasured t.now made.now row.now }
    ensures { result ≡ min (row_bytes t.now (λ u. get_or values.now u 0) (row_of row.now)) 1025 }
{
    let ctor = row.ctor;
    let operands = ctor.operands.as_slice();
    let own = row.own;
    let constructor = own.own;
    let inner = pattern_bytes(t, values, operands, &constructor.pattern);
    capped(inner.max(heads_bytes(t, made, values, operands, own.heads.as_slice())))
}
