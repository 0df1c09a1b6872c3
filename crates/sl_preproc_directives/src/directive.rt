//! Directives.

ghost use Rattle.std.specs.Prelude.{◌≡◌, Ok, Err, IfOk, option_map};
ghost use Rattle.sl_preproc_directives.specs.Parts.{Reads};
ghost use Rattle.sl_preproc_directives.specs.Held.{values_of};
ghost use Rattle.sl_preproc_directives.specs.Given.{Gives};
ghost use Rattle.sl_preproc_directives.specs.Directives.{keyword_named, keyword_at, directive_line, include_at, value_part, define_at, lone_name_at, directive_at, condition_of, judged};
ghost use Rattle.sl_preproc_directives.specs.Viewed.{directive};

use crate::condition::{Verdict, condition};
use crate::definitions::Definitions;
use crate::fault::{Cause, Fault};
use crate::parts::{Part, byte_at, is_ended, name_at, quoted_at, skip_blanks, split_value};
use std::alloc::{AllocError, Global};

/// The word of a directive.
#[derive(Clone, Copy, Debug, PartialEq, Eq)]
pub enum Keyword {
    Include,
    Define,
    Undef,
    If,
    Ifdef,
    Ifndef,
    Elif,
    Else,
    Endif,
    Unknown,
}

/// A directive that stands alone.
#[derive(Clone, Copy, Debug)]
pub enum Directive<'a> {
    Include(&'a str),
    Define(&'a [u8], &'a [u8]),
    Undef(&'a [u8]),
}

fn keyword_named(word: &[u8]) -> Keyword
    ensures { result ≡ keyword_named word.now }
{
    if word == b"include".as_slice() {
        Keyword::Include
    } else if word == b"define".as_slice() {
        Keyword::Define
    } else if word == b"undef".as_slice() {
        Keyword::Undef
    } else if word == b"if".as_slice() {
        Keyword::If
    } else if word == b"ifdef".as_slice() {
        Keyword::Ifdef
    } else if word == b"ifndef".as_slice() {
        Keyword::Ifndef
    } else if word == b"elif".as_slice() {
        Keyword::Elif
    } else if word == b"else".as_slice() {
        Keyword::Else
    } else if word == b"endif".as_slice() {
        Keyword::Endif
    } else {
        Keyword::Unknown
    }
}

/// The word behind the `@` of a directive, and what stands behind it.
#[tactic(auto, unfolding(crate::specs::Directives::keyword_at))]
pub fn keyword_at(text: &[u8]) -> (Keyword, &[u8])
    ensures { (result.0, result.1.now) ≡ keyword_at text.now }
{
    let text = skip_blanks(text);
    match name_at(text) {
        Some((word, rest)) => (keyword_named(word), rest),
        None => (Keyword::Unknown, text),
    }
}

/// What stands behind the `@` of a line, if it is a directive.
pub fn directive_line(line: &[u8]) -> Option<&[u8]>
    ensures { Reads (λ s. s.now) result (directive_line line.now) }
{
    byte_at(b'@', line)
}

/// The name of a file.
#[tactic(auto, unfolding(crate::specs::Directives::include_at))]
fn include_at(text: &[u8]) -> Option<&str>
    ensures { Reads (λ name. name.now) result (include_at text.now) }
{
    let (name, rest) = quoted_at(skip_blanks(text))?;
    let Ok(name) = str::from_utf8(name) else {
        return None;
    };
    if is_ended(rest) { Some(name) } else { None }
}

/// The value of a definition, which may be empty.
#[tactic(auto, unfolding(crate::specs::Directives::value_part))]
fn value_part(text: &[u8]) -> Part<'_>
    ensures { (result.0.now, result.1.now) ≡ value_part text.now }
{
    let text = skip_blanks(text);
    match quoted_at(text) {
        Some(quoted) => quoted,
        None => split_value(text),
    }
}

/// A name and its value.
#[tactic(auto, unfolding(crate::specs::Directives::define_at))]
fn define_at(text: &[u8]) -> Option<(&[u8], &[u8])>
    ensures { Reads (λ d. (d.0.now, d.1.now)) result (define_at text.now) }
{
    let (name, rest) = name_at(skip_blanks(text))?;
    let (value, rest) = value_part(rest);
    if is_ended(rest) {
        Some((name, value))
    } else {
        None
    }
}

#[tactic(auto, unfolding(crate::specs::Directives::lone_name_at))]
fn lone_name_at(text: &[u8]) -> Option<&[u8]>
    ensures { Reads (λ name. name.now) result (lone_name_at text.now) }
{
    let (name, rest) = name_at(skip_blanks(text))?;
    if is_ended(rest) { Some(name) } else { None }
}

/// The directive that stands alone, from its word and what stands behind it.
#[tactic(auto, unfolding(crate::specs::Directives::directive_at))]
pub fn directive_at(keyword: Keyword, text: &[u8]) -> Option<Directive<'_>>
    ensures { Reads directive result (directive_at keyword text.now) }
{
    match keyword {
        Keyword::Include => {
            let name = include_at(text)?;
            Some(Directive::Include(name))
        }
        Keyword::Define => {
            let (name, value) = define_at(text)?;
            Some(Directive::Define(name, value))
        }
        Keyword::Undef => {
            let name = lone_name_at(text)?;
            Some(Directive::Undef(name))
        }
        _ => None,
    }
}

/// What the condition of a directive says; none where it is malformed.
#[tactic(auto, unfolding(crate::specs::Directives::condition_of))]
fn condition_of(
    alloc: Global,
    defs: &Definitions,
    keyword: Keyword,
    text: &[u8],
) -> Result<Option<Verdict>, AllocError>
    ensures { IfOk result (λ o. o ≡ condition_of (values_of defs.now) keyword text.now) }
{
    match keyword {
        Keyword::Ifdef => match lone_name_at(text) {
            Some(name) => Ok(Some(Some(defs.has(name)))),
            None => Ok(None),
        },
        Keyword::Ifndef => match lone_name_at(text) {
            Some(name) => Ok(Some(Some(!defs.has(name)))),
            None => Ok(None),
        },
        _ => condition(alloc, defs, text),
    }
}

/// Whether the condition of a directive holds, or why the directive is refused.
pub fn judge(
    alloc: Global,
    defs: &Definitions,
    keyword: Keyword,
    text: &[u8],
) -> Result<bool, Fault>
    ensures { Gives (λ b. b) result (judged (condition_of (values_of defs.now) keyword text.now)) }
{
    match condition_of(alloc, defs, keyword, text)? {
        None => Err(Fault::Refused(Cause::BadDirective)),
        Some(None) => Err(Fault::Refused(Cause::UndefinedName)),
        Some(Some(holds)) => Ok(holds),
    }
}
