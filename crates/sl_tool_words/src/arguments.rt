//! What the matches of a command say.

ghost use Rattle.std.specs.Prelude.{◌≡◌, IfOk, map};
ghost use Rattle.clap.specs.Matches.{found_of};
ghost use Rattle.clap.specs.Walk.{rows_of};
ghost use Rattle.sl_tool_request.specs.Views.{arguments};
ghost use Rattle.sl_tool_words.specs.Matches.{arguments_in, is_given_in, words_in};

use clap::ArgMatches;
use sl_tool_request::Arguments;
use std::alloc::{AllocError, Global};

/// The positional words.
fn words_of<'a>(alloc: Global, matches: &ArgMatches<'a>) -> Result<Vec<&'a str>, AllocError>
    ensures { IfOk result (λ v. map (λ w. w.now) v.items
        ≡ words_in (rows_of (found_of matches.now))) }
{
    match matches.get_raw("WORDS") {
        Some(words) => {
            let words = Vec::from_slice(alloc, words)?;
            Ok(words)
        }
        None => Ok(Vec::new(alloc)),
    }
}

/// Whether an option without a value is given: its text is `true` then, and else `false`.
fn is_given(matches: &ArgMatches<'_>, name: &str) -> bool
    ensures { result ≡ is_given_in name.now (rows_of (found_of matches.now)) }
{
    match matches.get_str(name) {
        Some(text) => text == "true",
        None => false,
    }
}

/// What the matches of a command say that it is given.
pub fn arguments_of<'a>(
    alloc: Global,
    matches: &ArgMatches<'a>,
) -> Result<Arguments<'a>, AllocError>
    ensures { IfOk result (λ r. arguments r ≡ arguments_in (rows_of (found_of matches.now))) }
{
    let words = words_of(alloc, matches)?;
    Ok(Arguments {
        words,
        base: matches.get_str("base"),
        steps: matches.get_str("steps"),
        is_hex: is_given(matches, "hex"),
        is_packed: is_given(matches, "packed"),
        takes_actions: is_given(matches, "actions"),
        by_lines: is_given(matches, "lines"),
        explains: is_given(matches, "explain"),
    })
}
