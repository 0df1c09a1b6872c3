//! The work of an expansion, and what a line does to it.

ghost use Rattle.std.specs.Prelude.{◌≡◌, option_map};
ghost use Rattle.sl_preproc_directives.specs.Given.{Gives};
ghost use Rattle.sl_preproc.specs.Expansion.{text_line, done_by};
ghost use Rattle.sl_preproc.specs.ByLines.{directive_step, line_step};
ghost use Rattle.sl_preproc.specs.Stacks.{stack_of};
ghost use Rattle.sl_preproc_directives.specs.Viewed.{directive};
ghost use Rattle.sl_preproc.specs.Works.{work_of, names_of, EntersAt};

use crate::groups::{Groups, is_conditional, is_live, turn};
use crate::places::Place;
use indexmap::IndexSet;
use sl_preproc_directives::directive::{
    Directive, Keyword, directive_at, directive_line, keyword_at,
};
use sl_preproc_directives::fault::{Cause, Fault};
use sl_preproc_directives::page::{LinePart, Page, put};
use sl_preproc_directives::replacer::Replacer;
use std::alloc::Global;

/// How deep replacements may stand within one another.
const LEVELS: u32 = 16;

/// The definitions in force with what is known of them, the text so far, the names of the files that give its lines, and the place of each line.
#[derive(Drop)]
pub struct Work {
    pub replacer: Replacer,
    pub page: Page,
    pub files: IndexSet<String>,
    pub places: Vec<Place>,
}

/// The number of the file among the others, where it is entered if it is new.
fn enter(alloc: Global, name: &str, files: &mut IndexSet<String>) -> Result<u32, Fault>
    ensures { EntersAt name.now (names_of files.old.keys) (names_of files.new.keys) result }
{
    if let Some(index) = files.get_index_of(name) {
        return match u32::try_from(index) {
            Ok(number) => Ok(number),
            Err(_) => Err(Fault::NoMemory),
        };
    }
    let count = files.len();
    let Ok(number) = u32::try_from(count) else {
        return Err(Fault::NoMemory);
    };
    let name = String::from_str(alloc, name)?;
    let _added = files.insert(name)?;
    Ok(number)
}

/// Writes a line of text, which is this line of the file of this name.
#[tactic(auto, unfolding(crate::specs::Expansion::text_line))]
fn write_line(
    alloc: Global,
    name: &str,
    line: u32,
    text: &[u8],
    work: &mut Work,
) -> Result<(), Fault>
    ensures { Gives (λ _. work_of work.new) result (text_line name.now line text.now (work_of work.old)) }
{
    work.page.part = LinePart::Plain;
    work.replacer.write_text(LEVELS, text, &mut work.page)?;
    put(b'\n', &mut work.page)?;
    let file = enter(alloc, name, &mut work.files)?;
    work.places.push(Place { file, line })?;
    Ok(())
}

/// Follows a directive that stands alone in live text, and gives the name of the file that it includes.
fn follow<'a>(
    alloc: Global,
    asked: Option<Directive<'a>>,
    work: &mut Work,
) -> Result<Option<&'a str>, Fault>
    ensures { Gives (λ o. (option_map (λ n. n.now) o, work_of work.new)) result (done_by (option_map directive asked.entry) (work_of work.old)) }
{
    match asked {
        None => Err(Fault::Refused(Cause::BadDirective)),
        Some(Directive::Include(name)) => Ok(Some(name)),
        Some(Directive::Define(name, value)) => {
            work.replacer.define(alloc, name, value)?;
            Ok(None)
        }
        Some(Directive::Undef(name)) => {
            work.replacer.undefine(name);
            Ok(None)
        }
    }
}

/// Follows a directive, which stands on this line, and gives the name of the file that it includes.
#[tactic(auto, unfolding(crate::specs::ByLines::directive_step))]
fn follow_line<'a>(
    alloc: Global,
    line: u32,
    keyword: Keyword,
    rest: &'a [u8],
    groups: &mut Groups,
    work: &mut Work,
) -> Result<Option<&'a str>, Fault>
    ensures { Gives (λ o. (option_map (λ n. n.now) o, stack_of groups.new, work_of work.new)) result (directive_step line (keyword, rest.now) (stack_of groups.old) (work_of work.old)) }
{
    if is_conditional(keyword) {
        turn(alloc, &work.replacer.defs, line, keyword, rest, groups)?;
        return Ok(None);
    }
    if is_live(groups) {
        let included = follow(alloc, directive_at(keyword, rest), work)?;
        return Ok(included);
    }
    Ok(None)
}

/// Reads a line of a file, and gives the name of the file that it includes.
#[tactic(auto, unfolding(crate::specs::ByLines::line_step))]
pub fn read_line<'a>(
    alloc: Global,
    name: &str,
    line: u32,
    text: &'a [u8],
    groups: &mut Groups,
    work: &mut Work,
) -> Result<Option<&'a str>, Fault>
    ensures { Gives (λ o. (option_map (λ n. n.now) o, stack_of groups.new, work_of work.new)) result (line_step name.now line text.now (stack_of groups.old) (work_of work.old)) }
{
    if let Some(rest) = directive_line(text) {
        let (keyword, rest) = keyword_at(rest);
        let included = follow_line(alloc, line, keyword, rest, groups, work)?;
        return Ok(included);
    }
    if is_live(groups) {
        write_line(alloc, name, line, text, work)?;
    }
    Ok(None)
}
