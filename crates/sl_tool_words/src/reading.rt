//! From the words to a request.

ghost use Rattle.std.specs.Prelude.{◌≡◌, ◌≢◌, IfOk, None, map, option_map, string_bytes};
ghost use Rattle.clap.specs.Simple.{subcommand_rows_of};
ghost use Rattle.clap.specs.Values.{kind_of};
ghost use Rattle.clap.specs.declared.error.kind.ErrorKind.TheVariants.{OutOfMemory};
ghost use Rattle.sl_tool_request.specs.Requests.{asked_of};
ghost use Rattle.sl_tool_request.specs.Views.{request};
ghost use Rattle.sl_tool_words.specs.Matches.{asked_at};

use crate::arguments::arguments_of;
use crate::command::sleigh;
use clap::error::ErrorKind;
use clap::{ArgMatches, Error};
use sl_tool_request::{Request, asked_by};
use std::alloc::{AllocError, Global};

/// What the matches ask for.
fn asked_in<'a>(alloc: Global, matches: &ArgMatches<'a>) -> Result<Option<Request<'a>>, AllocError>
    ensures { IfOk result (λ r. option_map request r ≡ asked_at (subcommand_rows_of matches.now)) }
{
    match matches.subcommand() {
        Some((name, inner)) => {
            let given = arguments_of(alloc, inner)?;
            asked_by(alloc, name, &given)
        }
        None => Ok(None),
    }
}

/// What `clap` refuses asks for nothing, unless memory ran out.
fn refused<'a>(error: &Error) -> Result<Option<Request<'a>>, AllocError>
    ensures { IfOk result (λ r. (option_map request r ≡ None) × (kind_of error.now ≢ OutOfMemory)) }
{
    match error.kind() {
        ErrorKind::OutOfMemory => Err(AllocError),
        _ => Ok(None),
    }
}

/// What the words ask for, the program's name first; none where they have no meaning.
pub fn request_of<'a>(alloc: Global, words: &'a [String]) -> Result<Option<Request<'a>>, AllocError>
    ensures { IfOk result (λ r. option_map request r
        ≡ asked_of (map string_bytes words.entry.now)) }
{
    let command = sleigh(alloc)?;
    match command.try_get_matches_from(words) {
        Ok(matches) => asked_in(alloc, &matches),
        Err(error) => refused(&error),
    }
}
