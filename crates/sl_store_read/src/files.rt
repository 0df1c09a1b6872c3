//! Names of files.

ghost use Rattle.std.specs.Prelude.{◌≡◌, ◌≤◌, IfOk, length};
ghost use Rattle.std.specs.String.{string_bytes};
ghost use Rattle.sl_store_format.specs.FileNames as reader;
ghost use Rattle.sl_store_format.specs.Items.{greatest_line};
ghost use Rattle.sl_store_format.specs.Packed.{files_here};
ghost use Rattle.sl_store_bytes.specs.Reader.{byte};
ghost use Rattle.sl_store_bytes.specs.Reads.{Plain, Reads, seen_by};
ghost use Rattle.sl_store_read.specs.Views.{due_of, items_in};

use crate::parts::{Part, listed};
use sl_store_bytes::{Bytes, Stop};
use std::alloc::Global;

/// The greatest number of files.
const MOST_FILES: u64 = 4_294_967_295;

/// How many bytes of a character are still due, and in which range the next of them is.
#[derive(Clone, Copy)]
struct Due {
    owed: u8,
    low: u8,
    high: u8,
}

impl Due {
    fn new(owed: u8, low: u8, high: u8) -> Due
        ensures { due_of result ≡ reader.due owed low high }
    {
        Due { owed, low, high }
    }
}

/// What follows the first byte of a character.
#[tactic(auto, unfolding(sl_store_format::specs::FileNames::led))]
fn led(byte: u8) -> Due
    ensures { due_of result ≡ reader.led byte }
{
    match byte {
        0..=127 => Due::new(0, 128, 191),
        128..=223 => Due::new(1, 128, 191),
        224 => Due::new(2, 160, 191),
        237 => Due::new(2, 128, 159),
        225..=239 => Due::new(2, 128, 191),
        240 => Due::new(3, 144, 191),
        244 => Due::new(3, 128, 143),
        241..=255 => Due::new(3, 128, 191),
    }
}

/// Whether the byte begins a character.
fn leads(byte: u8) -> bool
    ensures { result ≡ reader.leads byte }
{
    byte <= 127 || 194 <= byte && byte <= 244
}

/// Whether the byte goes on, with `left` more after it.
#[tactic(auto, unfolding(sl_store_format::specs::FileNames::goes_on))]
fn goes_on(left: u64, due: Due, byte: u8) -> bool
    ensures { result ≡ reader.goes_on left (due_of due) byte }
{
    if due.owed == 0 {
        leads(byte) && u64::from(led(byte).owed) <= left
    } else {
        due.low <= byte && byte <= due.high
    }
}

/// What is due after the byte.
#[tactic(auto, unfolding(sl_store_format::specs::FileNames::then_due))]
fn then_due(due: Due, byte: u8) -> Due
    ensures { due_of result ≡ reader.then_due (due_of due) byte }
{
    if due.owed == 0 {
        led(byte)
    } else {
        Due::new(due.owed - 1, 128, 191)
    }
}

/// A byte that goes on, with `left` more after it.
#[tactic(auto, unfolding(sl_store_bytes::specs::Reader::byte, sl_store_bytes::specs::Reader::choose))]
fn letter(bytes: &mut Bytes<'_>, left: u64, due: Due) -> Result<u8, Stop>
    ensures { Reads Plain (byte (reader.goes_on left (due_of due)) bytes.old) result bytes.new }
{
    let Some(byte) = bytes.first() else {
        return Err(Stop::Cut);
    };
    if !goes_on(left, due, byte) {
        return Err(bytes.refuse());
    }
    bytes.skip();
    Ok(byte)
}

/// The bytes of a file's name.
#[tactic(auto, unfolding(sl_store_format::specs::FileNames::file_name))]
fn letters(alloc: Global, bytes: &mut Bytes<'_>) -> Result<Vec<u8>, Stop>
    ensures { Reads items_in (reader.file_name bytes.old) result bytes.new }
{
    let count = bytes.number(0, u64::MAX)?;
    let mut found = Vec::new(alloc);
    let mut due = Due::new(0, 128, 191);
    'rounds: for round in 0..count {
        let byte = letter(bytes, count - round - 1, due)?;
        found.push(byte)?;
        due = then_due(due, byte);
    }
    Ok(found)
}

impl<'a> Part<'a> for String {
    ghost use Rattle.std.specs.Prelude.{List, ℕ};

    ghost Tree = { List ℕ };

    ghost view = { string_bytes };

    ghost reader = { reader.file_name };

    fn read(alloc: Global, bytes: &mut Bytes<'a>) -> Result<String, Stop> {
        let found = letters(alloc, bytes)?;
        let Ok(name) = String::from_utf8(found) else {
            unreachable!();
        };
        Ok(name)
    }
}

/// The names of the files.
#[tactic(auto, unfolding(sl_store_format::specs::Packed::files_here))]
pub fn file_names(alloc: Global, bytes: &mut Bytes<'_>) -> Result<Vec<String>, Stop>
    ensures reads { Reads (seen_by string_bytes) (files_here bytes.old) result bytes.new }
    ensures few { IfOk result (λ names. length names.items ≤ greatest_line) }
{
    let names = listed(alloc, bytes, MOST_FILES)?;
    Ok(names)
}
