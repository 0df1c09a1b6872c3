//! From what a command is given to a request.

ghost use Rattle.std.specs.Prelude.{◌≡◌, IfOk, map, option_map, string_bytes};
ghost use Rattle.sl_tool_request.specs.Requests.{asked_by, asm_asked, assembly_of};
ghost use Rattle.sl_tool_request.specs.Requests.{check_asked, field_of, fields_of};
ghost use Rattle.sl_tool_request.specs.Requests.{gaps_asked, gen_asked};
ghost use Rattle.sl_tool_request.specs.Requests.{lines_asked, list_asked, number_or, only_spec};
ghost use Rattle.sl_tool_request.specs.Requests.{only_word, text_asked};
ghost use Rattle.sl_tool_request.specs.Requests.{pack_asked, patch_of, pcode_asked, run_asked};
ghost use Rattle.sl_tool_request.specs.Requests.{size_of};
ghost use Rattle.sl_tool_request.specs.Requests.{spec_file, target_of};
ghost use Rattle.sl_tool_request.specs.Views.{arguments, assembly, field, patch, request, target};
ghost use Rattle.sl_tool_request.specs.Views.{spec_file as file_view};

use crate::numbers::{number_of, value_of};
use crate::request::{Arguments, Assembly, FieldValue, Patch, Request, SpecFile, Target};
use std::alloc::{AllocError, Global};

/// The largest number that `gen` takes.
const MOST_GENERATED: u64 = 30_000;

/// The number that the word spells, or `default` where there is no word.
fn number_or(default: u64, word: Option<&str>) -> Option<u64>
    ensures { result ≡ number_or default (option_map (λ w. w.now) word.entry) }
{
    match word {
        Some(word) => number_of(word),
        None => Some(default),
    }
}

/// FIELD=VALUE, cut at its first `=`.
fn field_of(word: &str) -> Option<FieldValue<'_>>
    ensures { option_map field result ≡ field_of word.now }
{
    let (field, value) = word.split_once('=')?;
    if field.is_empty() {
        return None;
    }
    let value = value_of(value)?;
    Some(FieldValue { field, value })
}

/// The fields that the words give, if each word gives one.
fn fields_of<'a>(
    alloc: Global,
    words: &[&'a str],
) -> Result<Option<Vec<FieldValue<'a>>>, AllocError>
    ensures { IfOk result (λ r. option_map (λ v. map field v.items) r
        ≡ fields_of (map (λ w. w.now) words.now)) }
{
    let mut fields = Vec::new(alloc);
    for word in words {
        match field_of(word) {
            Some(field) => fields.push(field)?,
            None => return Ok(None),
        }
    }
    Ok(Some(fields))
}

/// The file of this name: a packed one where the option says so.
fn spec_file(is_packed: bool, name: &str) -> SpecFile<'_>
    ensures { file_view result ≡ spec_file is_packed name.now }
{
    if is_packed {
        SpecFile::Packed(name)
    } else {
        SpecFile::Text(name)
    }
}

/// SPEC IMAGE FIELD=VALUE .., with the options over an image.
fn target_of<'a>(alloc: Global, given: &Arguments<'a>) -> Result<Option<Target<'a>>, AllocError>
    ensures { IfOk result (λ r. option_map target r ≡ target_of (arguments given.now)) }
{
    let [spec, image, rest @ ..] = given.words.as_slice() else {
        return Ok(None);
    };
    let Some(base) = number_or(0, given.base) else {
        return Ok(None);
    };
    let Some(context) = fields_of(alloc, rest)? else {
        return Ok(None);
    };
    Ok(Some(Target {
        spec: spec_file(given.is_packed, *spec),
        image: *image,
        base,
        is_hex: given.is_hex,
        context,
    }))
}

/// SPEC TEXT FIELD=VALUE .., with the options of `asm`: the words are those over an image, with the
/// text in the place of its name.
fn assembly_of<'a>(alloc: Global, given: &Arguments<'a>) -> Result<Option<Assembly<'a>>, AllocError>
    ensures { IfOk result (λ r. option_map assembly r ≡ assembly_of (arguments given.now)) }
{
    let Some(target) = target_of(alloc, given)? else {
        return Ok(None);
    };
    Ok(Some(Assembly {
        spec: target.spec,
        text: target.image,
        base: target.base,
        context: target.context,
        takes_actions: given.takes_actions,
    }))
}

/// SPEC FILE FIELD=VALUE .., with the options of `asm`, the listing's file in the place of the image's.
/// The first line has the base, so none is given.
fn patch_of<'a>(alloc: Global, given: &Arguments<'a>) -> Result<Option<Patch<'a>>, AllocError>
    ensures { IfOk result (λ r. option_map patch r ≡ patch_of (arguments given.now)) }
{
    if given.base.is_some() {
        return Ok(None);
    }
    let Some(target) = target_of(alloc, given)? else {
        return Ok(None);
    };
    Ok(Some(Patch {
        spec: target.spec,
        listing: target.image,
        context: target.context,
        takes_actions: given.takes_actions,
    }))
}

/// The only word.
fn only_word<'a>(given: &Arguments<'a>) -> Option<&'a str>
    ensures { option_map (λ w. w.now) result ≡ only_word (arguments given.now).words }
{
    match given.words.as_slice() {
        [word] => Some(*word),
        _ => None,
    }
}

/// SPEC, the only word.
fn only_spec<'a>(given: &Arguments<'a>) -> Option<SpecFile<'a>>
    ensures { option_map file_view result ≡ only_spec (arguments given.now) }
{
    let name = only_word(given)?;
    Some(spec_file(given.is_packed, name))
}

/// The size of the specification that `gen` makes.
fn size_of(given: &Arguments<'_>) -> Option<u64>
    ensures { result ≡ size_of (arguments given.now) }
{
    let size = number_of(only_word(given)?)?;
    if 1 <= size && size <= MOST_GENERATED {
        Some(size)
    } else {
        None
    }
}

/// What `run` asks for.
fn run_asked<'a>(alloc: Global, given: &Arguments<'a>) -> Result<Option<Request<'a>>, AllocError>
    ensures { IfOk result (λ r. option_map request r ≡ run_asked (arguments given.now)) }
{
    let Some(target) = target_of(alloc, given)? else {
        return Ok(None);
    };
    let Some(steps) = number_or(1, given.steps) else {
        return Ok(None);
    };
    Ok(Some(Request::Run(target, steps)))
}

/// What `check` asks for.
fn check_asked<'a>(given: &Arguments<'a>) -> Option<Request<'a>>
    ensures { option_map request result ≡ check_asked (arguments given.now) }
{
    let spec = only_spec(given)?;
    Some(Request::Check(spec, given.explains))
}

/// What `list` asks for.
fn list_asked<'a>(alloc: Global, given: &Arguments<'a>) -> Result<Option<Request<'a>>, AllocError>
    ensures { IfOk result (λ r. option_map request r ≡ list_asked (arguments given.now)) }
{
    match target_of(alloc, given)? {
        Some(target) => Ok(Some(Request::List(target))),
        None => Ok(None),
    }
}

/// What `pcode` asks for.
fn pcode_asked<'a>(alloc: Global, given: &Arguments<'a>) -> Result<Option<Request<'a>>, AllocError>
    ensures { IfOk result (λ r. option_map request r ≡ pcode_asked (arguments given.now)) }
{
    match target_of(alloc, given)? {
        Some(target) => Ok(Some(Request::Pcode(target))),
        None => Ok(None),
    }
}

/// What `gen` asks for.
fn gen_asked<'a>(given: &Arguments<'a>) -> Option<Request<'a>>
    ensures { option_map request result ≡ gen_asked (arguments given.now) }
{
    let size = size_of(given)?;
    Some(Request::Gen(size))
}

/// What `gaps` asks for.
fn gaps_asked<'a>(given: &Arguments<'a>) -> Option<Request<'a>>
    ensures { option_map request result ≡ gaps_asked (arguments given.now) }
{
    let spec = only_spec(given)?;
    Some(Request::Gaps(spec))
}

/// What `pack` asks for.
fn pack_asked<'a>(given: &Arguments<'a>) -> Option<Request<'a>>
    ensures { option_map request result ≡ pack_asked (arguments given.now) }
{
    let name = only_word(given)?;
    Some(Request::Pack(name))
}

/// What `asm` asks for with `--lines`.
fn lines_asked<'a>(alloc: Global, given: &Arguments<'a>) -> Result<Option<Request<'a>>, AllocError>
    ensures { IfOk result (λ r. option_map request r ≡ lines_asked (arguments given.now)) }
{
    match patch_of(alloc, given)? {
        Some(patch) => Ok(Some(Request::Patch(patch))),
        None => Ok(None),
    }
}

/// What `asm` asks for without.
fn text_asked<'a>(alloc: Global, given: &Arguments<'a>) -> Result<Option<Request<'a>>, AllocError>
    ensures { IfOk result (λ r. option_map request r ≡ text_asked (arguments given.now)) }
{
    match assembly_of(alloc, given)? {
        Some(assembly) => Ok(Some(Request::Asm(assembly))),
        None => Ok(None),
    }
}

/// What `asm` asks for.
fn asm_asked<'a>(alloc: Global, given: &Arguments<'a>) -> Result<Option<Request<'a>>, AllocError>
    ensures { IfOk result (λ r. option_map request r ≡ asm_asked (arguments given.now)) }
{
    if given.by_lines {
        lines_asked(alloc, given)
    } else {
        text_asked(alloc, given)
    }
}

/// What the command of this name asks for by what it is given; none where there is no such command,
/// or where a word is too many, missing, or no number or field.
pub fn asked_by<'a>(
    alloc: Global,
    name: &str,
    given: &Arguments<'a>,
) -> Result<Option<Request<'a>>, AllocError>
    ensures { IfOk result (λ r. option_map request r ≡ asked_by name.now (arguments given.now)) }
{
    match name {
        "check" => Ok(check_asked(given)),
        "list" => list_asked(alloc, given),
        "pcode" => pcode_asked(alloc, given),
        "run" => run_asked(alloc, given),
        "gen" => Ok(gen_asked(given)),
        "gaps" => Ok(gaps_asked(given)),
        "pack" => Ok(pack_asked(given)),
        "asm" => asm_asked(alloc, given),
        _ => Ok(None),
    }
}
