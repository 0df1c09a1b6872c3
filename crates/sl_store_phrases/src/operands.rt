//! What has its place in an expression: its forms, operators and the name of a space.

ghost use Rattle.std.specs.Prelude.{◌≡◌, ◌-◌, if◌then◌else◌, IfOk, None, Some, option_map};
ghost use Rattle.sl_ast.specs.Operators.{has_prefix};
ghost use Rattle.sl_ast.specs.Validity.{space_weight};
ghost use Rattle.sl_store_format.specs.Expressions as reader;
ghost use Rattle.sl_store_format.specs.StatementForms.{expression_forms};
ghost use Rattle.sl_store_bytes.specs.Orders.{operators, prefixes};
ghost use Rattle.sl_store_bytes.specs.Reader.{byte, picked};
ghost use Rattle.sl_store_bytes.specs.Reads.{Plain, Reads, now_of};
ghost use Rattle.sl_store_bytes.specs.Tables.{coded_if};
ghost use Rattle.sl_parse_phrases.specs.Kinds.{kind_of};
ghost use Rattle.sl_store_phrases.specs.Within.{operand_fits, operand_room};

use crate::words::name;
use sl_ast::expressions::{BinaryOp, PrefixOp};
use sl_parse_phrases::operators::{Kind, has_operator, is_section, right_rank};
use sl_store_bytes::{Bytes, Stop};
use sl_store_format::forms::ExpressionForm;

/// Takes the byte that comes next, which stands for this member, if it has its place.
pub fn taken<K: Copy>(bytes: &mut Bytes<'_>, member: K, fits: bool) -> Result<K, Stop>
    ensures { Reads Plain (picked (if fits then Some member else None) bytes.old) result bytes.new }
{
    if fits {
        bytes.skip();
        Ok(member)
    } else {
        Err(bytes.refuse())
    }
}

/// Whether the form may be in an expression of the rank with that room.
fn fits(kind: Kind, room: u64, rank: u8, form: ExpressionForm) -> bool
    ensures { result ≡ reader.fits (kind_of kind) room rank form }
{
    match form {
        ExpressionForm::Integer => true,
        ExpressionForm::Name => !matches!(kind, Kind::Constraint),
        ExpressionForm::Paren => room >= 1,
        ExpressionForm::Call => is_section(kind) && room >= 1,
        ExpressionForm::Sized => is_section(kind),
        ExpressionForm::Dropped => is_section(kind) && room >= 2,
        ExpressionForm::Bits => is_section(kind) && room >= 1,
        ExpressionForm::Prefix => room >= 1,
        ExpressionForm::Star => is_section(kind) && room >= 1,
        ExpressionForm::Binary => room >= 1 && rank >= 1,
    }
}

/// The form of an expression of the rank.
#[tactic(auto, unfolding(sl_store_bytes::specs::Reader::choose))]
pub fn form_here(
    bytes: &mut Bytes<'_>,
    kind: Kind,
    room: u64,
    rank: u8,
) -> Result<ExpressionForm, Stop>
    ensures { Reads Plain (coded_if (reader.fits (kind_of kind) room rank) expression_forms
        bytes.old) result bytes.new }
{
    match bytes.peek::<ExpressionForm>() {
        Some(form) => taken(bytes, form, fits(kind, room, rank, form)),
        None => Err(bytes.refuse()),
    }
}

/// Whether a size may follow the form.
fn size_fits(room: u64, form: ExpressionForm) -> bool
    ensures { result ≡ reader.size_fits room form }
{
    match form {
        ExpressionForm::Integer | ExpressionForm::Name => true,
        ExpressionForm::Paren | ExpressionForm::Call => room >= 1,
        _ => false,
    }
}

/// Whether a count of dropped bytes may follow the form.
fn drop_fits(room: u64, form: ExpressionForm) -> bool
    ensures { result ≡ reader.drop_fits room form }
{
    match form {
        ExpressionForm::Paren | ExpressionForm::Call => room >= 1,
        _ => false,
    }
}

/// Whether a range of bits may follow the form.
fn bits_fit(room: u64, form: ExpressionForm) -> bool
    ensures { result ≡ reader.bits_fit room form }
{
    match form {
        ExpressionForm::Name => true,
        ExpressionForm::Paren | ExpressionForm::Call => room >= 1,
        _ => false,
    }
}

/// Whether the inner form may be the operand that a size, a count of dropped bytes or a range of bits
/// follows.
fn operand_fits(form: ExpressionForm, room: u64, inner: ExpressionForm) -> bool
    ensures { result ≡ operand_fits form room inner }
{
    match form {
        ExpressionForm::Sized => size_fits(room, inner),
        ExpressionForm::Dropped => drop_fits(room, inner),
        _ => bits_fit(room, inner),
    }
}

/// The form of the operand that a size, a count of dropped bytes or a range of bits follows.
#[tactic(auto, unfolding(sl_store_bytes::specs::Reader::choose))]
pub fn operand_form(
    bytes: &mut Bytes<'_>,
    form: ExpressionForm,
    room: u64,
) -> Result<ExpressionForm, Stop>
    ensures { Reads Plain (coded_if (operand_fits form room) expression_forms bytes.old) result
        bytes.new }
{
    match bytes.peek::<ExpressionForm>() {
        Some(inner) => taken(bytes, inner, operand_fits(form, room, inner)),
        None => Err(bytes.refuse()),
    }
}

/// The room for the operand. A size needs none.
pub fn operand_room(form: ExpressionForm, room: u64) -> u64
    ensures { result ≡ operand_room form room }
{
    match form {
        ExpressionForm::Sized => room,
        _ => room.saturating_sub(1),
    }
}

fn has_prefix(kind: Kind, op: PrefixOp) -> bool
    ensures { result ≡ has_prefix (kind_of kind) op }
{
    match op {
        PrefixOp::Negate | PrefixOp::Complement => true,
        PrefixOp::Not => is_section(kind),
    }
}

/// An operator before its operand.
#[tactic(auto, unfolding(sl_store_bytes::specs::Reader::choose))]
pub fn prefix_here(bytes: &mut Bytes<'_>, kind: Kind) -> Result<PrefixOp, Stop>
    ensures { Reads Plain (coded_if (has_prefix (kind_of kind)) prefixes bytes.old) result bytes.new }
{
    match bytes.peek::<PrefixOp>() {
        Some(op) => taken(bytes, op, has_prefix(kind, op)),
        None => Err(bytes.refuse()),
    }
}

/// An operator between two operands that binds at the rank or tighter.
#[tactic(auto, unfolding(sl_store_bytes::specs::Reader::choose))]
pub fn operator_here(bytes: &mut Bytes<'_>, kind: Kind, rank: u8) -> Result<BinaryOp, Stop>
    ensures { Reads Plain (coded_if (reader.operator_fits (kind_of kind) rank) operators bytes.old)
        result bytes.new }
{
    match bytes.peek::<BinaryOp>() {
        Some(op) => taken(bytes, op, operator_fits(kind, rank, op)),
        None => Err(bytes.refuse()),
    }
}

fn operator_fits(kind: Kind, rank: u8, op: BinaryOp) -> bool
    ensures { result ≡ reader.operator_fits (kind_of kind) rank op }
{
    has_operator(kind, op) && right_rank(op) < rank
}

/// Whether the byte may stand for a space's name, or for none.
fn space_fits(room: u64, byte: u8) -> bool
    ensures { result ≡ reader.space_fits room byte }
{
    byte == 0 || room >= 1 && byte == 1
}

/// Whether a space's name is written.
#[tactic(auto, unfolding(sl_store_bytes::specs::Reader::byte, sl_store_bytes::specs::Reader::choose))]
fn space_written(bytes: &mut Bytes<'_>, room: u64) -> Result<u8, Stop>
    ensures { Reads Plain (byte (reader.space_fits room) bytes.old) result bytes.new }
{
    let Some(byte) = bytes.first() else {
        return Err(Stop::Cut);
    };
    if !space_fits(room, byte) {
        return Err(bytes.refuse());
    }
    bytes.skip();
    Ok(byte)
}

/// A space's name, whose bracket needs room.
#[tactic(auto, unfolding(sl_store_format::specs::Expressions::space_here))]
pub fn space_here<'a>(bytes: &mut Bytes<'a>, room: &mut u64) -> Result<Option<&'a [u8]>, Stop>
    ensures reads { Reads (option_map now_of) (reader.space_here room.old bytes.old) result
        bytes.new }
    ensures spent { IfOk result (λ place. room.new ≡ room.old - space_weight (option_map now_of
        place)) }
{
    if space_written(bytes, *room)? == 0 {
        return Ok(None);
    }
    let found = name(bytes)?;
    *room = room.saturating_sub(1);
    Ok(Some(found))
}
