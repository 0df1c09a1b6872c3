//! Names of patterns: rules 17 to 19.

ghost use Rattle.std.specs.Prelude.{◌≡◌, IfOk, map};
ghost use Rattle.sl_spec_constructors.specs.ConstructorRules.{are_few, is_allowed_there, is_known};
ghost use Rattle.sl_spec_constructors.specs.ConstructorRules as spec;

use crate::operands::is_epsilon;
use sl_spec::{Field, Named, Table};
use sl_spec_actions::{Part, is_table};
use sl_spec_rules::{NameSet, are_distinct};
use std::alloc::{AllocError, Global};

/// Rule 17, of one name: a constrained one is a field, a bare one a field, a table or `epsilon`.
pub fn is_known<'a>(
    fields: &Named<'a, Field<'a>>,
    tables: &Named<'a, Table<'a>>,
    part: &Part,
) -> bool
    ensures { result ≡ is_known fields.now tables.now part.now }
{
    fields.has(part.name) || (part.bare && (is_table(tables, part.name) || is_epsilon(part.name)))
}

/// How many operands a constructor has at most.
const MOST_OPERANDS: usize = 32;

/// Rule 18: no name but `epsilon` is bare twice, and there are at most 32 operands.
pub fn are_few(alloc: Global, bare: &[&[u8]], names: &NameSet) -> Result<bool, AllocError>
    ensures { IfOk result (λ few. few ≡ are_few (map (λ n. n.now) bare.now) names.now) }
{
    let distinct = are_distinct(alloc, bare)?;
    Ok(distinct && names.len() <= MOST_OPERANDS)
}

/// Rule 19, of one name: inside `|` it isn't bare, unless it is `epsilon`.
pub fn is_allowed_there(part: &Part) -> bool
    ensures { result ≡ is_allowed_there part.now }
{
    !part.in_choice || (!part.bare || is_epsilon(part.name))
}
