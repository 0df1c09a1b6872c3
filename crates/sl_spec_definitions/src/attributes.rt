//! Attributes of fields: rule 12, and the tests of a field alone.

ghost use Rattle.std.specs.Prelude.{◌≡◌};
ghost use Rattle.sl_ast.specs.Views.{field_of as seen};
ghost use Rattle.sl_spec_definitions.specs.FieldRules.{at_most_once, has, has_attributes_once};
ghost use Rattle.sl_spec_definitions.specs.FieldRules.{is_dec, is_hex, is_in_order, is_noflow};
ghost use Rattle.sl_spec_definitions.specs.FieldRules.{is_signed, is_token_field};

use sl_ast::definitions::{Field, FieldAttribute};

fn is_signed(attribute: FieldAttribute) -> bool
    ensures { result ≡ is_signed attribute }
{
    matches!(attribute, FieldAttribute::Signed)
}

fn is_hex(attribute: FieldAttribute) -> bool
    ensures { result ≡ is_hex attribute }
{
    matches!(attribute, FieldAttribute::Hex)
}

fn is_dec(attribute: FieldAttribute) -> bool
    ensures { result ≡ is_dec attribute }
{
    matches!(attribute, FieldAttribute::Dec)
}

fn is_noflow(attribute: FieldAttribute) -> bool
    ensures { result ≡ is_noflow attribute }
{
    matches!(attribute, FieldAttribute::NoFlow)
}

pub fn has_signed(of: &Field) -> bool
    ensures { result ≡ has is_signed (seen of.now) }
{
    of.attributes.iter().any(|a| is_signed(*a))
}

pub fn has_hex(of: &Field) -> bool
    ensures { result ≡ has is_hex (seen of.now) }
{
    of.attributes.iter().any(|a| is_hex(*a))
}

pub fn has_dec(of: &Field) -> bool
    ensures { result ≡ has is_dec (seen of.now) }
{
    of.attributes.iter().any(|a| is_dec(*a))
}

pub fn has_noflow(of: &Field) -> bool
    ensures { result ≡ has is_noflow (seen of.now) }
{
    of.attributes.iter().any(|a| is_noflow(*a))
}

fn signed_once(of: &Field) -> bool
    ensures { result ≡ at_most_once is_signed (seen of.now) }
{
    of.attributes.iter().filter(|a| is_signed(**a)).count() <= 1
}

fn hex_once(of: &Field) -> bool
    ensures { result ≡ at_most_once is_hex (seen of.now) }
{
    of.attributes.iter().filter(|a| is_hex(**a)).count() <= 1
}

fn dec_once(of: &Field) -> bool
    ensures { result ≡ at_most_once is_dec (seen of.now) }
{
    of.attributes.iter().filter(|a| is_dec(**a)).count() <= 1
}

fn noflow_once(of: &Field) -> bool
    ensures { result ≡ at_most_once is_noflow (seen of.now) }
{
    of.attributes.iter().filter(|a| is_noflow(**a)).count() <= 1
}

/// Rule 12: the field hasn't both `hex` and `dec`, nor an attribute twice.
pub fn has_attributes_once(of: &Field) -> bool
    ensures { result ≡ has_attributes_once (seen of.now) }
{
    !(has_hex(of) && has_dec(of))
        && signed_once(of)
        && hex_once(of)
        && dec_once(of)
        && noflow_once(of)
}

/// Rule 10, of any field: its low bit is at most its high one.
pub fn is_in_order(of: &Field) -> bool
    ensures { result ≡ is_in_order (seen of.now) }
{
    of.low <= of.high
}

/// Rule 10, of a token's field: its high bit is one of the token's, and it has no `noflow`.
pub fn is_token_field(bits: u64, of: &Field) -> bool
    ensures { result ≡ is_token_field bits (seen of.now) }
{
    is_in_order(of) && of.high < bits && !has_noflow(of)
}
