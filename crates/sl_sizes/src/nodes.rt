//! Trees of variables whose sizes differ by known numbers: a union-find forest with offsets.

ghost use Rattle.std.specs.Prelude.{◌≡◌, ◌≢◌, ℕ, ◌+◌, ◌<◌, ◌≤◌, ◌^◌, ◌-◌, length, MatchOption};
ghost use Rattle.sl_sizes.specs.Nodes.{node_of, single, AreTrees, IsPlace, IsRoot, RanksUpTo, IsStep, IsFixed, IsOpen};

use sl_word::Size;

/// The largest size. It is added to each shift, so that none is negative.
const LARGEST: u32 = 16;

/// What is known of a variable: its size plus 16 is the size of its parent plus the shift, and lies
/// between two bounds. A root is its own parent; the bounds of other nodes aren't kept up.
///
/// A root's bounds are those for which all sizes in its tree lie in 1 to 16, so each size between them
/// is one that the root can have, whatever the other roots have.
#[derive(Clone, Copy)]
pub struct Node {
    parent: u32,
    shift: u32,
    least: u32,
    greatest: u32,
    /// No less than the height of the tree below the node.
    rank: usize,
}

impl Node {
    /// The node of a variable of which nothing is known.
    pub fn single(variable: u32) -> Node
        ensures { result ≡ single variable }
    {
        Node {
            parent: variable,
            shift: LARGEST,
            least: 1,
            greatest: LARGEST,
            rank: 0,
        }
    }
}

/// Where a variable stands: its size plus 16 is the size of its root plus the shift.
#[derive(Clone, Copy)]
struct Place {
    root: u32,
    shift: u32,
}

/// The root of the variable's tree, and the variable's size against the root's. Ranks grow towards the
/// root, so that the way there has no more steps than the logarithm of the number of variables.
fn locate(nodes: &[Node], variable: u32) -> Place
    requires in_range { variable < length nodes.now }
    requires trees { AreTrees (length nodes.now) (node_of nodes.now) }
    ensures { IsPlace (length nodes.now) (node_of nodes.now) variable result.root result.shift }
{
    let node = nodes[variable as usize];
    if node.parent == variable {
        return Place {
            root: variable,
            shift: LARGEST,
        };
    }
    let above = locate(nodes, node.parent);
    Place {
        root: above.root,
        shift: node.shift + above.shift - LARGEST,
    }
}

/// Whether any assignment that the nodes leave gives the variable so many bytes; those are then the
/// ones that they leave.
pub fn give(nodes: &mut [Node], variable: u32, bytes: u32) -> bool
    requires in_range { variable < length nodes.old }
    requires size { bytes ≤ 16 }
    requires trees { AreTrees (length nodes.old) (node_of nodes.old) }
    ensures { IsStep nodes.old nodes.new result (λ size. size variable ≡ bytes) }
{
    let place = locate(nodes, variable);
    let node = nodes[place.root as usize];
    if bytes + LARGEST < node.least + place.shift || node.greatest + place.shift < bytes + LARGEST {
        return false;
    }
    let size = bytes + LARGEST - place.shift;
    nodes[place.root as usize] = Node {
        least: size,
        greatest: size,
        ..node
    };
    true
}

/// Whether the first variable's size plus `less` is the second's in any assignment that the nodes
/// leave; those are then the ones that they leave.
pub fn relate(nodes: &mut [Node], first: u32, second: u32, less: u32) -> bool
    requires first { first < length nodes.old }
    requires second { second < length nodes.old }
    requires less { less ≤ 255 }
    requires trees { AreTrees (length nodes.old) (node_of nodes.old) }
    requires ranks { RanksUpTo (2 ^ 64 - 2) (length nodes.old) (node_of nodes.old) }
    ensures { IsStep nodes.old nodes.new result (λ size. size first + less ≡ size second) }
{
    let lower = locate(nodes, first);
    let upper = locate(nodes, second);
    if lower.root == upper.root {
        return lower.shift + less == upper.shift;
    }
    join(
        nodes,
        lower.root,
        lower.shift + less,
        upper.root,
        upper.shift,
    )
}

/// Makes one tree of two, where the first root's size plus `before` is the second's plus `after`. False
/// where no assignment that the nodes leave has such sizes.
fn join(nodes: &mut [Node], first: u32, before: u32, second: u32, after: u32) -> bool
    requires first { (first < length nodes.old) × IsRoot (node_of nodes.old) first }
    requires second { (second < length nodes.old) × IsRoot (node_of nodes.old) second }
    requires apart { first ≢ second }
    requires before { before ≤ 286 }
    requires after { after ≤ 286 }
    requires trees { AreTrees (length nodes.old) (node_of nodes.old) }
    requires ranks { RanksUpTo (2 ^ 64 - 2) (length nodes.old) (node_of nodes.old) }
    ensures { IsStep nodes.old nodes.new result (λ size. size first + before ≡ size second + after) }
{
    if nodes[first as usize].rank <= nodes[second as usize].rank {
        hang(nodes, first, before, second, after)
    } else {
        hang(nodes, second, after, first, before)
    }
}

/// The same, where the first root is to become the child of the second, whose rank is no less.
fn hang(nodes: &mut [Node], child: u32, before: u32, parent: u32, after: u32) -> bool
    requires child { (child < length nodes.old) × IsRoot (node_of nodes.old) child }
    requires parent { (parent < length nodes.old) × IsRoot (node_of nodes.old) parent }
    requires apart { child ≢ parent }
    requires before { before ≤ 286 }
    requires after { after ≤ 286 }
    requires trees { AreTrees (length nodes.old) (node_of nodes.old) }
    requires ranks { RanksUpTo (2 ^ 64 - 2) (length nodes.old) (node_of nodes.old) }
    requires order { (node_of nodes.old child).rank ≤ (node_of nodes.old parent).rank }
    ensures { IsStep nodes.old nodes.new result (λ size. size child + before ≡ size parent + after) }
{
    let below = nodes[child as usize];
    let above = nodes[parent as usize];
    if below.greatest + before < above.least + after
        || above.greatest + after < below.least + before
    {
        return false;
    }
    nodes[parent as usize] = Node {
        least: above
            .least
            .max((below.least + before).saturating_sub(after)),
        greatest: above.greatest.min(below.greatest + before - after),
        rank: above.rank.max(below.rank + 1),
        ..above
    };
    nodes[child as usize] = Node {
        parent,
        shift: after + LARGEST - before,
        ..below
    };
    true
}

/// The size that the variable has in all assignments that the nodes leave, or `None` where it has two.
pub fn fixed(nodes: &[Node], variable: u32) -> Option<Size>
    requires in_range { variable < length nodes.now }
    requires trees { AreTrees (length nodes.now) (node_of nodes.now) }
    ensures { MatchOption result (IsOpen (length nodes.now) (node_of nodes.now) variable)
        (λ size. IsFixed (length nodes.now) (node_of nodes.now) variable size.bytes) }
{
    let place = locate(nodes, variable);
    let node = nodes[place.root as usize];
    if node.least < node.greatest {
        return None;
    }
    Size::new((node.least + place.shift - LARGEST) as u8)
}
