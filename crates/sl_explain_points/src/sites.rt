//! The constraints of a constructor's pattern.

ghost use Rattle.std.specs.Prelude.{◌≡◌, IfOk, OnOk, [], ◌∷◌};
ghost use Rattle.std.specs.List.{list_any};
ghost use Rattle.sl_explain_names.specs.ItemView.{item};
ghost use Rattle.sl_explain_points.specs.Sites.{is_same, site_at, site_by, site_of, sites_in};
ghost use Rattle.sl_explain_points.specs.Sites.{sites_of, sites_of_both, with_site};
ghost use Rattle.sl_lex.specs.Views.{views};

use crate::readings::{Reading, after_part, definition_at, start};
use sl_explain_names::{
    Item, Mention, Place, is_context_field, is_pattern, is_token_field, item_at, kind_by,
};
use sl_lex::Tok;
use std::alloc::{AllocError, Global};

/// A field by the token that defines it, and the byte of an instruction at which its token begins; 0
/// of a field of the context.
#[derive(Clone, Copy)]
pub struct Site {
    pub field: Mention,
    pub at: u64,
}

/// A field of the context, or one of a token whose first byte is known.
fn site_of(r: Reading, field: Mention) -> Option<Site>
    ensures { result ≡ site_of r field }
{
    let kind = kind_by(field.role);
    if is_context_field(kind) {
        Some(Site { field, at: 0 })
    } else if is_token_field(kind) && !r.lost {
        let at = r.begin;
        Some(Site { field, at })
    } else {
        None
    }
}

fn site_by(r: Reading, field: Option<Mention>) -> Option<Site>
    ensures { result ≡ site_by r field }
{
    match field {
        Some(field) => site_of(r, field),
        None => None,
    }
}

/// The field at a place of a pattern that has a relation.
#[tactic(auto, unfolding(crate::specs::Sites::site_at))]
fn site_at(i: &Item<'_, '_>, r: Reading, place: Place) -> Option<Site>
    ensures { result ≡ site_at (item i.now) r place }
{
    if is_pattern(place.part) && i.has_relation(place) {
        site_by(r, definition_at(i, place))
    } else {
        None
    }
}

fn is_same(site: Site, other: Site) -> bool
    ensures { result ≡ is_same site other }
{
    site.field.index == other.field.index && site.at == other.at
}

fn is_told(told: &[Site], site: Site) -> bool
    ensures { result ≡ list_any (is_same site) told.now }
{
    told.iter().any(|other| is_same(site, *other))
}

/// Adds a site that isn't told yet.
fn add_site(told: &mut Vec<Site>, site: Option<Site>) -> Result<(), AllocError>
    ensures { OnOk result (told.new.items ≡ with_site told.old.items site) }
{
    let Some(site) = site else {
        return Ok(());
    };
    if is_told(told.as_slice(), site) {
        Ok(())
    } else {
        told.push(site)?;
        Ok(())
    }
}

/// Adds the sites of an item.
#[tactic(auto, unfolding(crate::specs::Sites::sites_in))]
fn add_sites_in(told: &mut Vec<Site>, i: &Item<'_, '_>) -> Result<(), AllocError>
    ensures { OnOk result (told.new.items ≡ sites_in (item i.now) told.old.items) }
{
    let places = i.places.as_slice();
    let mut reading = start();
    'places: for at in 0..places.len() {
        let place = places[at];
        add_site(told, site_at(i, reading, place))?;
        reading = after_part(i, reading, place);
    }
    Ok(())
}

/// Adds the sites of the constructor whose first token has this index.
#[tactic(auto, unfolding(crate::specs::Sites::sites_of))]
fn add_sites_of(
    alloc: Global,
    told: &mut Vec<Site>,
    tokens: &[Tok<'_>],
    index: Option<usize>,
) -> Result<(), AllocError>
    ensures { OnOk result (told.new.items ≡ sites_of (views tokens.now) told.old.items index) }
{
    let Some(index) = index else {
        return Ok(());
    };
    let of = item_at(alloc, tokens, index)?;
    add_sites_in(told, &of)
}

/// The sites of two constructors, each by the index of its first token; each site once.
#[tactic(auto, unfolding(crate::specs::Sites::sites_of_both))]
pub fn sites_of_both(
    alloc: Global,
    tokens: &[Tok<'_>],
    first: Option<usize>,
    second: Option<usize>,
) -> Result<Vec<Site>, AllocError>
    ensures { IfOk result (λ told. told.items ≡ sites_of_both (views tokens.now) first second) }
{
    let mut told = Vec::new(alloc);
    add_sites_of(alloc, &mut told, tokens, first)?;
    add_sites_of(alloc, &mut told, tokens, second)?;
    Ok(told)
}
