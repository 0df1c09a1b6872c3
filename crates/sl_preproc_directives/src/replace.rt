//! Replacement of `$(NAME)` in a line.

ghost use Rattle.std.specs.Prelude.{◌≡◌, ◌+◌, ◌-◌, ◌<◌, ◌^◌, Some, IfOk, IfSome};
ghost use Rattle.sl_preproc_directives.specs.Parts.{Reads};
ghost use Rattle.sl_preproc_directives.specs.Held.{values_of};
ghost use Rattle.sl_preproc_directives.specs.Given.{Gives};
ghost use Rattle.sl_preproc_directives.specs.Replacement.{reference_at, stays, write_name};
ghost use Rattle.sl_preproc_directives.specs.Replacement.{write_text};
ghost use Rattle.sl_preproc_directives.specs.Pages.{page_of};
ghost use Rattle.sl_preproc_directives.specs.Wholes.{AreWholes, IsWholeName, IsWholeValue, joined};
ghost use Rattle.sl_preproc_directives.specs.HeldWholes.{wholes_of};

use crate::definitions::Definitions;
use crate::fault::{Cause, Fault};
use crate::page::{LinePart, Page, put, put_all};
use crate::parts::{Part, byte_at, name_at};
use crate::wholes::Wholes;

/// The name of `$(NAME)` at the front, and what stands behind it.
#[tactic(auto, unfolding(crate::specs::Replacement::reference_at))]
fn reference_at(text: &[u8]) -> Option<Part<'_>>
    ensures { Reads (λ r. (r.0.now, r.1.now)) result (reference_at text.now) }
{
    let rest = byte_at(b'$', text)?;
    let rest = byte_at(b'(', rest)?;
    let (name, rest) = name_at(rest)?;
    let rest = byte_at(b')', rest)?;
    Some((name, rest))
}

/// A name that isn't defined: in a comment it stays as it is.
#[tactic(auto, unfolding(crate::specs::Replacement::stays))]
fn stays(name: &[u8], page: &mut Page) -> Result<(), Fault>
    ensures { Gives (λ _. page_of page.new) result (stays name.now (page_of page.old)) }
{
    match page.part {
        LinePart::Comment => {
            put(b'$', page)?;
            put(b'(', page)?;
            put_all(name, page)?;
            put(b')', page)
        }
        LinePart::Plain | LinePart::Quoted => Err(Fault::Refused(Cause::UndefinedName)),
    }
}

/// How many levels of replacement the whole value takes; none where a name in it has no value.
type Levels = Option<u32>;

/// The levels that one piece more takes.
fn joined(levels: Levels, more: Levels) -> Levels
    ensures { result ≡ joined levels more }
{
    match (levels, more) {
        (Some(levels), Some(more)) => Some(levels.max(more)),
        _ => None,
    }
}

/// Writes the value of a name, where so many levels are left, and comes to know it.
#[cycle(replacement)]
fn write_name(
    left: u32,
    defs: &Definitions,
    known: &mut Wholes,
    name: &[u8],
    page: &mut Page,
) -> Result<Levels, Fault>
    requires { AreWholes (values_of defs.now) (wholes_of known.old) }
    ensures known { AreWholes (values_of defs.now) (wholes_of known.new) }
    ensures written { Gives (λ _. page_of page.new) result (write_name left (values_of defs.now) name.now (page_of page.old)) }
    ensures whole { IfOk result (λ o. IfSome o (λ levels. IsWholeName (values_of defs.now) left name.now levels page.old.text.items page.new.text.items)) }
{
    if left == 0 {
        return Err(Fault::Refused(Cause::ReplaceDepth));
    }
    if let Some(whole) = known.get(name)
        && whole.levels <= left
    {
        put_all(&whole.text, page)?;
        return Ok(Some(whole.levels));
    }
    match defs.value(name) {
        Some(value) => write_value(left - 1, defs, known, name, value, page),
        None => {
            stays(name, page)?;
            Ok(None)
        }
    }
}

/// Writes the value of a name, where so many levels are left for the names in it, and comes to know it.
#[cycle(replacement)]
fn write_value(
    left: u32,
    defs: &Definitions,
    known: &mut Wholes,
    name: &[u8],
    value: &[u8],
    page: &mut Page,
) -> Result<Levels, Fault>
    requires wholes { AreWholes (values_of defs.now) (wholes_of known.old) }
    requires value { values_of defs.now name.now ≡ Some value.now }
    requires room { left < 2 ^ 32 - 1 }
    ensures known { AreWholes (values_of defs.now) (wholes_of known.new) }
    ensures written { Gives (λ _. page_of page.new) result (write_text left (values_of defs.now) value.now (page_of page.old)) }
    ensures whole { IfOk result (λ o. IfSome o (λ levels. IsWholeName (values_of defs.now) (left + 1) name.now levels page.old.text.items page.new.text.items)) }
{
    let start = page.text.as_slice().len();
    let Some(levels) = write_pieces(left, defs, known, value, page)? else {
        return Ok(None);
    };
    let levels = levels + 1;
    let (_, text) = page.text.split_at(start);
    known.add(*page.text.allocator(), name, levels, text)?;
    Ok(Some(levels))
}

/// Writes a text with the values of its names, where so many levels are left, and comes to know them.
#[cycle(replacement)]
pub fn write_pieces(
    left: u32,
    defs: &Definitions,
    known: &mut Wholes,
    text: &[u8],
    page: &mut Page,
) -> Result<Levels, Fault>
    requires { AreWholes (values_of defs.now) (wholes_of known.old) }
    ensures known { AreWholes (values_of defs.now) (wholes_of known.new) }
    ensures written { Gives (λ _. page_of page.new) result (write_text left (values_of defs.now) text.now (page_of page.old)) }
    ensures whole { IfOk result (λ o. IfSome o (λ levels. IsWholeValue (values_of defs.now) left text.now levels page.old.text.items page.new.text.items)) }
{
    let mut rest = text;
    let mut levels = Some(0);
    'pieces: for _ in 0..text.len() {
        let [first, others @ ..] = rest else {
            return Ok(levels);
        };
        match reference_at(rest) {
            Some((name, behind)) => {
                let more = write_name(left, defs, known, name, page)?;
                levels = joined(levels, more);
                rest = behind;
            }
            None => {
                put(*first, page)?;
                rest = others;
            }
        }
    }
    Ok(levels)
}
