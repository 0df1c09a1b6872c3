//! The expansion of a file and of those that it includes.

ghost use Rattle.std.specs.Prelude.{◌≡◌, ℕ, [], ◌∷◌, ◌≤◌, List, length, IfOk, OnOk, option_map};
ghost use Rattle.std.specs.String.{string_bytes};
ghost use Rattle.sl_outside.specs.Folder.{size_limit};
ghost use Rattle.sl_outside.specs.Uses.{UsesFiles};
ghost use Rattle.sl_preproc.specs.Asks.{AsksFor};
ghost use Rattle.sl_preproc.specs.ByLines.{line_step, line_done, at_end};
ghost use Rattle.sl_preproc.specs.Expanded.{expanded, seen, text_of};
ghost use Rattle.sl_preproc.specs.Expansion as spec;
ghost use Rattle.sl_preproc.specs.Expansion.{on_line, expand_file, checked, included, nothing_yet};
ghost use Rattle.sl_preproc.specs.Reads.{Reads};
ghost use Rattle.sl_preproc.specs.Refusals.{Answers};
ghost use Rattle.sl_preproc.specs.Folders.{WhereTold};
ghost use Rattle.sl_preproc.specs.Sound.{IsSound};
ghost use Rattle.sl_preproc.specs.Whole.{IsWhole, NoFeed};
ghost use Rattle.sl_preproc.specs.Stacks.{stack_of};
ghost use Rattle.sl_preproc.specs.Stops.{Fails, IsEarly};
ghost use Rattle.sl_preproc.specs.Works.{work_of};

use crate::error::{PreError, refuse};
use crate::groups::Groups;
use crate::naming::join;
use crate::text::Expanded;
use crate::work::{Work, read_line};
use indexmap::IndexSet;
use sl_outside::{FetchError, Files};
use sl_preproc_directives::fault::{Cause, Fault};
use sl_preproc_directives::first_line;
use sl_preproc_directives::page::{LinePart, Page};
use sl_preproc_directives::replacer::Replacer;
use std::alloc::{AllocError, Global};

/// How deep files may include one another, the main file left out.
const DEPTHS: u32 = 15;

/// The bytes of a file. A refusal has this line of the file of the other name.
fn fetch<F: Files>(
    alloc: Global,
    name: &str,
    from: &str,
    line: u32,
    files: &mut F,
) -> Result<Vec<u8>, PreError>
    ensures found { WhereTold (F.told files.old)
        (λ folder. Answers (λ v. v.items) result (checked from.now line (folder name.now))) }
    ensures size { IfOk result (λ v. length v.items ≤ size_limit) }
    ensures files { UsesFiles F.told F.faults F.asked files.old files.new (name.now ∷ [])
        (IsEarly result) (Fails result) }
{
    let mut bytes = Vec::new(alloc);
    match files.fetch(name, &mut bytes) {
        Ok(()) => Ok(bytes),
        Err(FetchError::Absent) => Err(refuse(alloc, Cause::NoFile, from, line)),
        Err(FetchError::TooLong) => Err(refuse(alloc, Cause::TooLong, from, line)),
        Err(FetchError::Failed) => Err(PreError::ReadFault),
        Err(FetchError::NoMemory) => Err(PreError::NoMemory),
    }
}

/// Reads a line of a file, and gives the name of the file that it includes.
fn read<'a>(
    alloc: Global,
    name: &str,
    line: u32,
    text: &'a [u8],
    groups: &mut Groups,
    work: &mut Work,
) -> Result<Option<&'a str>, PreError>
    ensures read { Answers
        (λ o. (option_map (λ n. n.now) o, stack_of groups.new, work_of work.new)) result
        (on_line name.now line
        (line_step name.now line text.now (stack_of groups.old) (work_of work.old))).result }
    ensures whole { NoFeed text.now → IsWhole (work_of work.old)
        → OnOk result (IsWhole (work_of work.new)) }
    ensures no_read_fault { Fails result → ⊥ }
{
    match read_line(alloc, name, line, text, groups, work) {
        Ok(included) => Ok(included),
        Err(Fault::Refused(cause)) => Err(refuse(alloc, cause, name, line)),
        Err(Fault::NoMemory) => Err(PreError::NoMemory),
    }
}

/// Refuses a file whose end leaves groups open.
fn end(alloc: Global, name: &str, groups: &Groups) -> Result<(), PreError>
    ensures ended { (work : spec.Work)
        → Answers (λ _. work) result (at_end name.now (stack_of groups.now) work).result }
    ensures no_read_fault { Fails result → ⊥ }
{
    match groups.first() {
        None => Ok(()),
        Some(outermost) => Err(refuse(alloc, Cause::Unbalanced, name, outermost.line)),
    }
}

/// Expands a file that this line of another includes, where so many depths are left.
#[cycle(files)]
fn include<F: Files>(
    alloc: Global,
    left: u32,
    from: &str,
    line: u32,
    name: &str,
    files: &mut F,
    work: &mut Work,
) -> Result<(), PreError>
    ensures included { Reads F.told F.faults F.asked files.old files.new
        (λ folder. included left folder from.now line name.now (work_of work.old))
        (λ _. work_of work.new) result }
    ensures whole { IsWhole (work_of work.old) → OnOk result (IsWhole (work_of work.new)) }
{
    if left == 0 {
        return Err(refuse(alloc, Cause::IncludeDepth, from, line));
    }
    let joined = join(alloc, from, name)?;
    let bytes = fetch(alloc, joined.as_str(), from, line, files)?;
    expand_lines(
        alloc,
        left - 1,
        joined.as_str(),
        bytes.as_slice(),
        files,
        work,
    )
}

/// Expands a line, and what it includes.
#[cycle(files)]
fn expand_line<F: Files>(
    alloc: Global,
    left: u32,
    name: &str,
    line: u32,
    text: &[u8],
    groups: &mut Groups,
    files: &mut F,
    work: &mut Work,
) -> Result<(), PreError>
    ensures line { Reads F.told F.faults F.asked files.old files.new
        (λ folder. line_done (included left folder name.now) name.now line text.now
        (stack_of groups.old) (work_of work.old))
        (λ _. (stack_of groups.new, work_of work.new)) result }
    ensures whole { NoFeed text.now → IsWhole (work_of work.old)
        → OnOk result (IsWhole (work_of work.new)) }
{
    match read(alloc, name, line, text, groups, work)? {
        Some(included) => include(alloc, left, name, line, included, files, work),
        None => Ok(()),
    }
}

/// Expands the lines of a file, where so many depths are left.
#[cycle(files)]
fn expand_lines<F: Files>(
    alloc: Global,
    left: u32,
    name: &str,
    bytes: &[u8],
    files: &mut F,
    work: &mut Work,
) -> Result<(), PreError>
    requires { length bytes.now ≤ size_limit }
    ensures file { Reads F.told F.faults F.asked files.old files.new
        (λ folder. expand_file (included left folder name.now) name.now bytes.now
        (work_of work.old))
        (λ _. work_of work.new) result }
    ensures whole { IsWhole (work_of work.old) → OnOk result (IsWhole (work_of work.new)) }
{
    let mut groups = Vec::new(alloc);
    let mut rest = bytes;
    let mut number = 1;
    'lines: while let Some((line, others)) = first_line(rest) {
        expand_line(alloc, left, name, number, line, &mut groups, files, work)?;
        rest = others;
        number += 1;
    }
    end(alloc, name, &groups)
}

/// The work before the first line of the main file.
fn begin(alloc: Global, main: &str) -> Result<Work, AllocError>
    ensures { IfOk result (λ w. work_of w ≡ nothing_yet main.now) }
{
    let mut files = IndexSet::new(alloc);
    let name = String::from_str(alloc, main)?;
    if files.insert(name).is_err() {
        return Err(AllocError);
    }
    Ok(Work {
        replacer: Replacer::new(alloc),
        page: Page {
            text: Vec::new(alloc),
            part: LinePart::Plain,
        },
        files,
        places: Vec::new(alloc),
    })
}

/// What the work has come to.
fn finish(alloc: Global, work: Work) -> Result<Expanded, AllocError>
    ensures { IfOk result (λ e. seen e ≡ text_of (work_of work)) }
{
    let Work {
        replacer: _,
        page,
        files,
        places,
    } = work;
    let files = files.into_iter().collect(alloc)?;
    Ok(Expanded {
        text: page.text,
        files,
        lines: places,
    })
}

/// Expands the main file of this name: follows the directives of its lines, puts included files in
/// their places and replaces names in its lines of text.
///
/// A name of a file that doesn't begin with `/` is joined to the directory of the file that
/// includes it, and is fetched so. A refusal is the first in the order of the lines; a group that
/// stays open is found at its file's end. Each file is asked for where its line is reached, once
/// for each time that it is included.
pub fn expand<F: Files>(alloc: Global, files: &mut F, main: &str) -> Result<Expanded, PreError>
    ensures expansion { WhereTold (F.told files.old)
        (λ folder. Answers seen result (expanded folder main.now)) }
    ensures sound { IfOk result (λ e. IsSound (seen e)) }
    ensures files { (names : List (List ℕ)) × AsksFor (F.told files.old) main.now names
        × UsesFiles F.told F.faults F.asked files.old files.new names
        (IsEarly result) (Fails result) }
{
    let mut work = begin(alloc, main)?;
    let bytes = fetch(alloc, main, main, 0, files)?;
    expand_lines(alloc, DEPTHS, main, bytes.as_slice(), files, &mut work)?;
    let expanded = finish(alloc, work)?;
    Ok(expanded)
}
