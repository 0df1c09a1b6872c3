//! The nodes of a decode, one behind the other.

ghost use Rattle.std.specs.Prelude.{◌≡◌, ◌-◌, ◌^◌, ◌<◌, ◌≤◌, ℕ, ℤ, List, length, take, drop};
ghost use Rattle.std.specs.Prelude.{min, slice_get, slice_index};
ghost use Rattle.sl_decode_meaning.specs.Trees.{Node, Trees, tree};
ghost use Rattle.sl_decode_meaning.specs.Values.{value_or_zero};
ghost use Rattle.sl_decode_leaves.specs.Extents.{extent};
ghost use Rattle.sl_show.specs.Entries.{from_tree, row_of, rows, rows_of};
ghost use Rattle.sl_show.specs.Texts.{lengths_of};

use sl_decode_leaves::Extent;
use sl_decode_meaning::Entry;

/// So many of a list, and those behind them.
fn divided<T>(xs: &[T], count: usize) -> (&[T], &[T])
    ensures front { result.0.now ≡ take count xs.now }
    ensures back { result.1.now ≡ drop count xs.now }
{
    if count < xs.len() {
        xs.split_at(count)
    } else {
        (xs, &[])
    }
}

/// The entries below the first node, and those behind its tree.
pub(crate) fn parted(nodes: &[Entry]) -> (&[Entry], &[Entry])
    requires { 0 < length nodes.now }
    ensures kids { (values : List ℤ) (n : Node) (below behind : Trees Node)
        → rows_of values nodes.now ≡ rows (tree n below behind)
        → rows_of values result.0.now ≡ rows below }
    ensures rest { (values : List ℤ) (n : Node) (below behind : Trees Node)
        → rows_of values nodes.now ≡ rows (tree n below behind)
        → rows_of values result.1.now ≡ rows behind }
    ensures fewer { length result.0.now < length nodes.now }
    ensures others { length result.1.now ≤ length nodes.now }
{
    let (_, behind) = nodes.split_at(1);
    divided(behind, nodes[0].below)
}

/// The trees behind the first one.
fn next_tree(nodes: &[Entry]) -> &[Entry]
    ensures trees { (values : List ℤ) (f : Trees Node) → rows_of values nodes.now ≡ rows f
        → rows_of values result.now ≡ rows (from_tree 1 f) }
    ensures within { length result.now ≤ length nodes.now }
{
    if nodes.is_empty() {
        return nodes;
    }
    let (_, rest) = parted(nodes);
    rest
}

/// The trees from the one of this number on.
pub(crate) fn skip(nodes: &[Entry], number: usize) -> &[Entry]
    ensures trees { (values : List ℤ) (f : Trees Node) → rows_of values nodes.now ≡ rows f
        → rows_of values result.now ≡ rows (from_tree number f) }
    ensures within { length result.now ≤ length nodes.now }
{
    let mut rest = nodes;
    'trees: for _ in 0..number {
        rest = next_tree(rest);
    }
    rest
}

/// The length of the tree of this number; 0 where there is none.
fn length_of(nodes: &[Entry], number: usize) -> u64
    ensures { (values : List ℤ) (f : Trees Node) → rows_of values nodes.now ≡ rows f
        → result ≡ slice_index (lengths_of f) number }
{
    match skip(nodes, number).first() {
        Some(entry) => u64::from(entry.length),
        None => 0,
    }
}

/// What a number of bytes comes to, whatever it is, by the lengths of these operands; 2^64 - 1
/// stands for all that is more.
fn reckoned(e: &Extent, kids: &[Entry]) -> u64
    ensures { (values : List ℤ) (f : Trees Node) → rows_of values kids.now ≡ rows f
        → result ≡ min (extent e.now (lengths_of f)) (2 ^ 64 - 1) }
{
    match e {
        Extent::Fixed(n) => *n,
        Extent::Operand(number) => length_of(kids, *number),
        Extent::Sum(a, b) => reckoned(a, kids).saturating_add(reckoned(b, kids)),
        Extent::Greater(a, b) => reckoned(a, kids).max(reckoned(b, kids)),
    }
}

/// What a number of bytes comes to, by the lengths of these operands; 2^64 - 1 stands for all that
/// is more. Most are fixed, and known at once.
#[inline(always)]
pub(crate) fn extent_among(e: &Extent, kids: &[Entry]) -> u64
    ensures { (values : List ℤ) (f : Trees Node) → rows_of values kids.now ≡ rows f
        → result ≡ min (extent e.now (lengths_of f)) (2 ^ 64 - 1) }
{
    match e {
        Extent::Fixed(n) => *n,
        _ => reckoned(e, kids),
    }
}

/// The value of the action name of this number of a node; 0 where there is none.
pub(crate) fn value_of(values: &[i64], entry: &Entry, number: u32) -> i64
    ensures { result ≡ value_or_zero (slice_get (row_of values.now entry.now).node.values number) }
{
    let (_, from) = divided(values, entry.first);
    let (own, _) = divided(from, entry.end.saturating_sub(entry.first));
    own.get(number as usize).copied().unwrap_or(0)
}
