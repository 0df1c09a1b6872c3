//! The command line as `clap` reads it.

ghost use Rattle.std.specs.Prelude.{◌≡◌, IfOk, List, [], false, codes};
ghost use Rattle.clap.specs.Simple.{app_of, shape_of};
ghost use Rattle.clap.specs.Walk.{rule_of};
ghost use Rattle.clap.specs.declared.builder.command.Command.TheViews.{out-Command as fields_of};
ghost use Rattle.sl_tool_words.specs.Layout.{app, leaf, long_rule, words_rule};
ghost use Rattle.sl_tool_request.specs.Requests.{asm_options, check_options, run_options};
ghost use Rattle.sl_tool_request.specs.Requests.{spec_options, target_options};

use clap::{Arg, ArgAction, Command};
use std::alloc::{AllocError, Global};

/// The positional words of a command.
fn words<'a>(alloc: Global) -> Arg<'a>
    ensures rule { rule_of result ≡ words_rule }
    ensures local { result.global ≡ false }
{
    Arg::new(alloc, "WORDS").action(ArgAction::Append)
}

/// An option of a command, by its name.
fn option<'a>(alloc: Global, name: &'a str, action: ArgAction) -> Arg<'a>
    ensures rule { rule_of result ≡ long_rule name.entry.now action }
    ensures local { result.global ≡ false }
{
    Arg::new(alloc, name).long(name).action(action)
}

/// A command that takes positional words alone.
fn bare<'a>(alloc: Global, name: &'a str) -> Result<Command<'a>, AllocError>
    ensures shape { IfOk result (λ c. shape_of c ≡ leaf name.entry.now []) }
    ensures local { IfOk result (λ c. (fields_of c).has_globals ≡ false) }
{
    let command = Command::new(alloc, name).arg(words(alloc))?;
    Ok(command)
}

/// A command over a specification.
fn over_spec<'a>(alloc: Global, name: &'a str) -> Result<Command<'a>, AllocError>
    ensures shape { IfOk result (λ c. shape_of c ≡ leaf name.entry.now spec_options) }
    ensures local { IfOk result (λ c. (fields_of c).has_globals ≡ false) }
{
    let command = bare(alloc, name)?.arg(option(alloc, "packed", ArgAction::SetTrue))?;
    Ok(command)
}

/// The command that checks a specification.
fn checker<'a>(alloc: Global, name: &'a str) -> Result<Command<'a>, AllocError>
    ensures shape { IfOk result (λ c. shape_of c ≡ leaf name.entry.now check_options) }
    ensures local { IfOk result (λ c. (fields_of c).has_globals ≡ false) }
{
    let command = over_spec(alloc, name)?.arg(option(alloc, "explain", ArgAction::SetTrue))?;
    Ok(command)
}

/// A command over an image.
fn over_image<'a>(alloc: Global, name: &'a str) -> Result<Command<'a>, AllocError>
    ensures shape { IfOk result (λ c. shape_of c ≡ leaf name.entry.now target_options) }
    ensures local { IfOk result (λ c. (fields_of c).has_globals ≡ false) }
{
    let command = over_spec(alloc, name)?
        .arg(option(alloc, "base", ArgAction::Set))?
        .arg(option(alloc, "hex", ArgAction::SetTrue))?;
    Ok(command)
}

/// A command that runs an image.
fn runner<'a>(alloc: Global, name: &'a str) -> Result<Command<'a>, AllocError>
    ensures shape { IfOk result (λ c. shape_of c ≡ leaf name.entry.now run_options) }
    ensures local { IfOk result (λ c. (fields_of c).has_globals ≡ false) }
{
    let command = over_image(alloc, name)?.arg(option(alloc, "steps", ArgAction::Set))?;
    Ok(command)
}

/// The command that assembles an instruction, or the lines of an edited listing.
fn assembler<'a>(alloc: Global, name: &'a str) -> Result<Command<'a>, AllocError>
    ensures shape { IfOk result (λ c. shape_of c ≡ leaf name.entry.now asm_options) }
    ensures local { IfOk result (λ c. (fields_of c).has_globals ≡ false) }
{
    let command = over_spec(alloc, name)?
        .arg(option(alloc, "base", ArgAction::Set))?
        .arg(option(alloc, "actions", ArgAction::SetTrue))?
        .arg(option(alloc, "lines", ArgAction::SetTrue))?;
    Ok(command)
}

/// The whole command line.
pub fn sleigh<'a>(alloc: Global) -> Result<Command<'a>, AllocError>
    ensures { IfOk result (λ c. app_of c ≡ app) }
{
    let command = Command::new(alloc, "sleigh")
        .disable_help_flag(true)
        .disable_help_subcommand(true)
        .subcommand(checker(alloc, "check")?)?
        .subcommand(over_image(alloc, "list")?)?
        .subcommand(over_image(alloc, "pcode")?)?
        .subcommand(runner(alloc, "run")?)?
        .subcommand(bare(alloc, "gen")?)?
        .subcommand(over_spec(alloc, "gaps")?)?
        .subcommand(bare(alloc, "pack")?)?
        .subcommand(assembler(alloc, "asm")?)?;
    Ok(command)
}
