//! What is defined before an item.

ghost use Rattle.std.specs.Prelude.{◌≡◌};
ghost use Rattle.sl_section_terms.specs.Scopes.{if_below, reach_of};

use sl_spec::Tables;

/// How many definitions of each kind stand before an item: those that its section knows.
#[derive(Clone, Copy, Debug)]
pub struct Reach {
    pub spaces: usize,
    pub registers: usize,
    pub bit_ranges: usize,
    pub userops: usize,
    pub macros: usize,
}

/// What is defined before the item that comes behind these tables.
pub fn reach_of(t: &Tables) -> Reach
    ensures { result ≡ reach_of t.now }
{
    Reach {
        spaces: t.spaces.len(),
        registers: t.registers.len(),
        bit_ranges: t.bitranges.len(),
        userops: t.userops.len(),
        macros: t.macros.len(),
    }
}

/// An index, where it is below `n`.
pub fn if_below(n: usize, index: Option<usize>) -> Option<usize>
    ensures { result ≡ if_below n index }
{
    match index {
        Some(i) => { if i < n { Some(i) } else { None } }
        None => None,
    }
}
