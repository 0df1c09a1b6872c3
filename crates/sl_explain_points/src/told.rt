//! Fields with their values, in words.

ghost use Rattle.std.specs.Prelude.{◌≡◌, ◌++◌, OnOk};
ghost use Rattle.sl_explain_points.specs.FieldsAtPoints.{fields_words, is_words, name_words, named_words};
ghost use Rattle.sl_explain_points.specs.FieldsAtPoints.{value_words};
ghost use Rattle.sl_lex.specs.Views.{views};

use crate::sites::Site;
use crate::values::value_at;
use sl_cube::Point;
use sl_explain_heads::text_at;
use sl_explain_lines::push_up_to;
use sl_lex::Tok;
use sl_show::push_number;
use std::alloc::AllocError;

/// Appends that something has this value.
#[tactic(auto, unfolding(crate::specs::FieldsAtPoints::is_words))]
fn push_is(out: &mut Vec<u8>, value: i64) -> Result<(), AllocError>
    ensures { OnOk result (out.new.items ≡ out.old.items ++ is_words value) }
{
    out.extend_from_slice(b"=")?;
    push_number(out, false, value)
}

/// Appends a blank and a name.
#[tactic(auto, unfolding(crate::specs::FieldsAtPoints::name_words))]
fn push_name(out: &mut Vec<u8>, name: &[u8]) -> Result<(), AllocError>
    ensures { OnOk result (out.new.items ≡ out.old.items ++ name_words name.now) }
{
    out.extend_from_slice(b" ")?;
    push_up_to(out, 40, name)
}

/// Appends a name with its value.
#[tactic(auto, unfolding(crate::specs::FieldsAtPoints::named_words))]
fn push_named(out: &mut Vec<u8>, name: &[u8], value: i64) -> Result<(), AllocError>
    ensures { OnOk result (out.new.items ≡ out.old.items ++ named_words name.now value) }
{
    push_name(out, name)?;
    push_is(out, value)
}

/// Appends a name with its value, if it has one.
fn push_value(out: &mut Vec<u8>, name: &[u8], value: Option<i64>) -> Result<(), AllocError>
    ensures { OnOk result (out.new.items ≡ out.old.items ++ value_words name.now value) }
{
    match value {
        Some(value) => push_named(out, name, value),
        None => Ok(()),
    }
}

/// Appends each field with its value at a point, as ` NAME=VALUE`.
pub fn push_fields(
    out: &mut Vec<u8>,
    tokens: &[Tok<'_>],
    sites: &[Site],
    point: &Point,
) -> Result<(), AllocError>
    ensures { OnOk result (out.new.items
        ≡ out.old.items ++ fields_words (views tokens.now) point.now sites.now) }
{
    'sites: for at in 0..sites.len() {
        let site = sites[at];
        push_value(
            out,
            text_at(tokens, site.field.index),
            value_at(tokens, site, point),
        )?;
    }
    Ok(())
}
