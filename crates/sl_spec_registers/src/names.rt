//! New names: rule 3.

ghost use Rattle.std.specs.Prelude.{◌≡◌, true, false, IfOk, map};
ghost use Rattle.std.specs.List.{list_all};
ghost use Rattle.sl_spec_rules.specs.Names.{is_among};
ghost use Rattle.sl_spec_registers.specs.Free.{IsFree};
ghost use Rattle.sl_spec_registers.specs.NewNames.{are_new, is_defined, is_new, reserved_words};

use sl_spec::Tables;
use sl_spec_rules::{are_distinct, is_among};
use std::alloc::{AllocError, Global};

/// Words that no definition may take: the names that are there from the start, the words of the
/// grammar, and the functions.
const RESERVED_WORDS: [&str; 60] = [
    "const",
    "unique",
    "instruction",
    "inst_start",
    "inst_next",
    "inst_next2",
    "epsilon",
    "define",
    "attach",
    "endian",
    "big",
    "little",
    "alignment",
    "space",
    "type",
    "size",
    "wordsize",
    "default",
    "bitrange",
    "pcodeop",
    "token",
    "context",
    "offset",
    "signed",
    "hex",
    "dec",
    "noflow",
    "variables",
    "names",
    "values",
    "macro",
    "is",
    "unimpl",
    "globalset",
    "with",
    "local",
    "goto",
    "if",
    "call",
    "return",
    "build",
    "export",
    "carry",
    "scarry",
    "sborrow",
    "zext",
    "sext",
    "popcount",
    "lzcount",
    "nan",
    "abs",
    "sqrt",
    "int2float",
    "float2float",
    "trunc",
    "ceil",
    "floor",
    "round",
    "cpool",
    "newobject",
];

/// Whether no definition may take the name.
#[tactic(auto, unfolding(crate::specs::NewNames::reserved_words))]
fn is_reserved(name: &[u8]) -> bool
    ensures { result ≡ is_among reserved_words name.now }
{
    is_among(&RESERVED_WORDS, name)
}

/// Whether something has the name.
fn is_defined(t: &Tables, name: &[u8]) -> bool
    ensures is { result ≡ is_defined t.now name.now }
    ensures free { result ≡ false → IsFree name.now t.now }
{
    t.spaces.has(name)
        || t.registers.has(name)
        || t.bitranges.has(name)
        || t.userops.has(name)
        || t.tokens.has(name)
        || t.fields.has(name)
        || t.macros.has(name)
        || t.tables.has(name)
}

/// Whether a definition may give the name.
pub fn is_new(t: &Tables, name: &[u8]) -> bool
    ensures is { result ≡ is_new t.now name.now }
    ensures free { result ≡ true → IsFree name.now t.now }
{
    !is_reserved(name) && !is_defined(t, name)
}

/// Whether each of the names is new.
fn all_new(t: &Tables, names: &[&[u8]]) -> bool
    ensures { result ≡ list_all (λ name. is_new t.now name.now) names.now }
{
    names.iter().all(|name| is_new(t, name))
}

/// Whether one item may give all these names.
#[tactic(auto, using(sl_spec_rules::proofs::Seen::seen), unfolding(crate::specs::NewNames::are_new))]
pub fn are_new(alloc: Global, t: &Tables, names: &[&[u8]]) -> Result<bool, AllocError>
    ensures is { IfOk result (λ new. new ≡ are_new t.now (map (λ name. name.now) names.now)) }
{
    if !all_new(t, names) {
        return Ok(false);
    }
    are_distinct(alloc, names)
}
