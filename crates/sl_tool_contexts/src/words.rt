//! Words FIELD=VALUE, one after another.

ghost use Rattle.std.specs.Int.{cast_unsigned, w64};
ghost use Rattle.std.specs.Prelude.{◌≡◌, ◌+◌, ◌^◌, ◌≤◌, map, option_copied};
ghost use Rattle.sl_tool_contexts.specs.Words as spec;
ghost use Rattle.sl_tool_contexts.specs.Words.{context_field_named, greatest_value, has_value};
ghost use Rattle.sl_tool_contexts.specs.Words.{least_value, with_word};
ghost use Rattle.sl_tool_contexts.specs.Views.{Gives};
ghost use Rattle.sl_decode_meaning.specs.Actions.{mask_of, with_bits};
ghost use Rattle.sl_spec_operators.specs.Operators.{wrapped};
ghost use Rattle.sl_tool_request.specs.Views.{field as word_view};

use sl_decode_leaves::{greatest, mask_in};
use sl_spec::{Field, Tables};
use sl_tool_request::FieldValue;

/// Why a word for the context is refused.
#[derive(Clone, Copy, Debug, PartialEq, Eq)]
pub enum Cause {
    /// No field of the context has this name.
    NoField,
    /// The bits of the field can't stand for this value.
    OutOfRange,
}

/// A word for the context that is refused, by the name of its field.
#[derive(Clone, Copy, Debug)]
pub struct BadWord<'a> {
    pub field: &'a str,
    pub cause: Cause,
}

/// The field of the context of this name.
fn context_field<'t, 'a>(t: &'t Tables<'a>, name: &[u8]) -> Option<&'t Field<'a>>
    ensures { option_copied result ≡ context_field_named t.now name.now }
{
    match t.fields.get(name) {
        Some(field) => match field.token {
            None => Some(field),
            Some(_) => None,
        },
        None => None,
    }
}

/// The least value that the bits of the field can stand for.
fn least_value(field: &Field) -> i128
    ensures { result ≡ least_value field.now }
{
    if field.signed {
        -i128::from(1u64 << (field.width() - 1))
    } else {
        0
    }
}

/// The greatest value that the bits of the field can stand for.
fn greatest_value(field: &Field) -> i128
    ensures { result ≡ greatest_value field.now }
{
    if field.signed {
        i128::from((1u64 << (field.width() - 1)) - 1)
    } else {
        i128::from(greatest(field.width()))
    }
}

/// Whether the bits of the field can stand for the value.
fn has_value(field: &Field, value: i128) -> bool
    ensures { result ≡ has_value field.now value }
{
    least_value(field) <= value && value <= greatest_value(field)
}

/// A value in 64-bit two's complement.
fn bits(value: i128) -> u64
    ensures { result ≡ cast_unsigned w64 (wrapped value) }
{
    value.rem_euclid(1 << 64) as u64
}

/// The context with the low bits of a value in the place of the field's.
fn with_bits(field: &Field, context: u64, value: i128) -> u64
    ensures { result ≡ with_bits field.now.low (mask_of field.now) context (wrapped value) }
{
    let mask = mask_in(field);
    context & !mask | bits(value) << field.low & mask
}

/// The context with the value of a word.
fn with_word<'a>(t: &Tables, context: u64, word: FieldValue<'a>) -> Result<u64, BadWord<'a>>
    ensures { Gives result (with_word t.now context (word_view word.entry)) }
{
    let Some(field) = context_field(t, word.field.as_bytes()) else {
        return Err(BadWord {
            field: word.field,
            cause: Cause::NoField,
        });
    };
    if !has_value(field, word.value) {
        return Err(BadWord {
            field: word.field,
            cause: Cause::OutOfRange,
        });
    }
    Ok(with_bits(field, context, word.value))
}

/// The context that words give to a specification, one after another, from 0 on; or the first word
/// that names no field of the context, or a value that its field can't have.
pub fn starting_context<'a>(t: &Tables, words: &[FieldValue<'a>]) -> Result<u64, BadWord<'a>>
    ensures { Gives result (spec.starting_context t.now (map word_view words.now)) }
{
    let mut context = 0;
    'words: for index in 0..words.len() {
        context = with_word(t, context, words[index])?;
    }
    Ok(context)
}
