//! What more is said of a table that isn't settled.

ghost use Rattle.std.specs.Prelude.{◌≡◌, ◌++◌, OnOk, codes, option_map};
ghost use Rattle.sl_explain.specs.Facts.{alone_faults, alone_words, ambiguity_facts, apart_advice};
ghost use Rattle.sl_explain.specs.Facts.{apart_fault};
ghost use Rattle.sl_explain.specs.Facts.{both_items, line_of_token, point_fault, point_faults};
ghost use Rattle.sl_explain.specs.Facts.{points_facts, settled_asked, settling_facts, token_of};
ghost use Rattle.sl_explain_points.specs.FieldsAtPoints.{fields_words};
ghost use Rattle.sl_lex.specs.Views.{view, views};
ghost use Rattle.sl_preproc.specs.Expanded.{seen};

use crate::facts::{name_of, push_fault, push_item};
use crate::sentences::{push_advice, push_asked};
use crate::syntax::token_at;
use sl_bind_compile::{Ambiguity, Apart};
use sl_cube::Point;
use sl_explain_lines::{push_line, push_up_to};
use sl_explain_points::{Site, push_fields, sites_of_both};
use sl_lex::Tok;
use sl_preproc::Expanded;
use std::alloc::{AllocError, Global};

/// Appends how two constructors match the same, if they do.
fn push_apart(out: &mut Vec<u8>, apart: &Apart) -> Result<(), AllocError>
    ensures { OnOk result (out.new.items ≡ out.old.items ++ apart_fault apart.now) }
{
    match apart {
        Apart::Same => push_fault(out, b"both match the same"),
        Apart::Two { .. } => Ok(()),
    }
}

/// Appends what would settle two constructors.
fn push_apart_advice(out: &mut Vec<u8>, apart: &Apart) -> Result<(), AllocError>
    ensures { OnOk result (out.new.items ≡ out.old.items ++ apart_advice apart.now) }
{
    match apart {
        Apart::Same => push_advice(out, b"a constraint more in one, or one of the two alone"),
        Apart::Two { .. } => push_advice(
            out,
            b"a third constructor for what both match, or a constraint more in one",
        ),
    }
}

/// Appends two constructors, each by the index of its first token.
#[tactic(auto, unfolding(crate::specs::Facts::both_items))]
fn push_both(
    alloc: Global,
    out: &mut Vec<u8>,
    tokens: &[Tok<'_>],
    first: Option<usize>,
    second: Option<usize>,
) -> Result<(), AllocError>
    ensures { OnOk result (out.new.items
        ≡ out.old.items ++ both_items (views tokens.now) first second) }
{
    push_item(alloc, out, tokens, true, first)?;
    push_item(alloc, out, tokens, true, second)
}

/// Appends what is asked of tables.
#[tactic(auto, unfolding(crate::specs::Facts::settled_asked))]
fn push_asked_of_tables(out: &mut Vec<u8>) -> Result<(), AllocError>
    ensures { OnOk result (out.new.items ≡ out.old.items ++ settled_asked) }
{
    push_asked(
        out,
        b"at each point that some constructor matches, one lies properly within every other that \
            matches",
    )
}

/// Appends what is asked of two constructors, and what would settle them.
#[tactic(auto, unfolding(crate::specs::Facts::settling_facts))]
pub fn push_settling_facts(out: &mut Vec<u8>, apart: &Apart) -> Result<(), AllocError>
    ensures { OnOk result (out.new.items ≡ out.old.items ++ settling_facts apart.now) }
{
    push_apart(out, apart)?;
    push_asked_of_tables(out)?;
    push_apart_advice(out, apart)
}

// ---- points

/// The token of this index, if one is given.
fn token_of<'a, 'b>(tokens: &'b [Tok<'a>], index: Option<usize>) -> Option<&'b Tok<'a>>
    ensures { option_map (λ t. view t.now) result ≡ token_of (views tokens.now) index }
{
    match index {
        Some(index) => token_at(tokens, index),
        None => None,
    }
}

/// Appends the file and the line of a token.
fn push_line_of(
    out: &mut Vec<u8>,
    text: &Expanded,
    token: Option<&Tok<'_>>,
) -> Result<(), AllocError>
    ensures { OnOk result (out.new.items ≡ out.old.items
        ++ line_of_token (seen text.now) (option_map (λ t. view t.now) token.entry)) }
{
    let Some(token) = token else {
        return Ok(());
    };
    let place = text.place_of(token.from.min(text.text.len()));
    let file = name_of(text.files.as_slice(), place.file);
    push_line(out, file, u64::from(place.line))
}

/// Appends who matches a point, and fields with their values at it, if there are any.
#[tactic(auto, unfolding(crate::specs::Facts::point_fault, crate::specs::Facts::fault))]
fn push_point_fault(out: &mut Vec<u8>, who: &[u8], fields: &[u8]) -> Result<(), AllocError>
    ensures { OnOk result (out.new.items ≡ out.old.items ++ point_fault who.now fields.now) }
{
    if fields.is_empty() {
        return Ok(());
    }
    out.extend_from_slice(b"  fault ")?;
    out.extend_from_slice(who)?;
    push_up_to(out, 80, fields)?;
    out.extend_from_slice(b"\n")
}

/// Appends who matches a point, and the sites with their values at it.
fn push_point(
    alloc: Global,
    out: &mut Vec<u8>,
    tokens: &[Tok<'_>],
    sites: &[Site],
    who: &[u8],
    point: &Point,
) -> Result<(), AllocError>
    ensures { OnOk result (out.new.items ≡ out.old.items
        ++ point_fault who.now (fields_words (views tokens.now) point.now sites.now)) }
{
    let mut fields = Vec::new(alloc);
    push_fields(&mut fields, tokens, sites, point)?;
    push_point_fault(out, who, fields.as_slice())
}

/// Appends a point that one of the two matches by itself.
fn push_alone(
    alloc: Global,
    out: &mut Vec<u8>,
    text: &Expanded,
    tokens: &[Tok<'_>],
    sites: &[Site],
    index: Option<usize>,
    point: &Point,
) -> Result<(), AllocError>
    ensures { OnOk result (out.new.items ≡ out.old.items
        ++ point_fault (alone_words (seen text.now) (views tokens.now) index)
        (fields_words (views tokens.now) point.now sites.now)) }
{
    let mut who = Vec::new(alloc);
    push_line_of(&mut who, text, token_of(tokens, index))?;
    who.extend_from_slice(b" alone matches")?;
    push_point(alloc, out, tokens, sites, who.as_slice(), point)
}

/// Appends the points that each of the two matches by itself.
#[tactic(auto, unfolding(crate::specs::Facts::alone_faults))]
fn push_alone_faults(
    alloc: Global,
    out: &mut Vec<u8>,
    text: &Expanded,
    tokens: &[Tok<'_>],
    told: &Ambiguity<'_>,
    sites: &[Site],
    only_first: &Point,
    only_second: &Point,
) -> Result<(), AllocError>
    ensures { OnOk result (out.new.items ≡ out.old.items
        ++ alone_faults (seen text.now) (views tokens.now) told.now sites.now
        only_first.now only_second.now) }
{
    push_alone(alloc, out, text, tokens, sites, told.first, only_first)?;
    push_alone(alloc, out, text, tokens, sites, told.second, only_second)
}

/// Appends the points of two constructors that differ so, in the fields of these sites.
fn push_point_faults(
    alloc: Global,
    out: &mut Vec<u8>,
    text: &Expanded,
    tokens: &[Tok<'_>],
    told: &Ambiguity<'_>,
    sites: &[Site],
    apart: &Apart,
) -> Result<(), AllocError>
    ensures { OnOk result (out.new.items ≡ out.old.items
        ++ point_faults (seen text.now) (views tokens.now) told.now sites.now apart.now) }
{
    match apart {
        Apart::Same => Ok(()),
        Apart::Two {
            only_first,
            only_second,
        } => {
            push_point(alloc, out, tokens, sites, b"both match", &told.both)?;
            push_alone_faults(
                alloc,
                out,
                text,
                tokens,
                told,
                sites,
                only_first,
                only_second,
            )
        }
    }
}

/// Appends the points of two constructors, in the fields that their patterns constrain.
#[tactic(auto, unfolding(crate::specs::Facts::points_facts))]
fn push_points(
    alloc: Global,
    out: &mut Vec<u8>,
    text: &Expanded,
    tokens: &[Tok<'_>],
    told: &Ambiguity<'_>,
) -> Result<(), AllocError>
    ensures { OnOk result (out.new.items ≡ out.old.items
        ++ points_facts (seen text.now) (views tokens.now) told.now) }
{
    let sites = sites_of_both(alloc, tokens, told.first, told.second)?;
    push_point_faults(
        alloc,
        out,
        text,
        tokens,
        told,
        sites.as_slice(),
        &told.apart,
    )
}

/// Appends what more is said of a table of a text that isn't settled.
#[tactic(auto, unfolding(crate::specs::Facts::ambiguity_facts))]
pub fn push_ambiguity_facts(
    alloc: Global,
    out: &mut Vec<u8>,
    text: &Expanded,
    tokens: &[Tok<'_>],
    told: &Ambiguity<'_>,
) -> Result<(), AllocError>
    ensures { OnOk result (out.new.items ≡ out.old.items
        ++ ambiguity_facts (seen text.now) (views tokens.now) told.now) }
{
    push_both(alloc, out, tokens, told.first, told.second)?;
    push_points(alloc, out, text, tokens, told)?;
    push_settling_facts(out, &told.apart)
}
