//! How far a decode looked.

ghost use Rattle.std.specs.Prelude.{◌≡◌};
ghost use Rattle.sl_faithful_reach.specs.Sight.{reach, sight_in};

use sl_decode_meaning::Entry;

/// How many of the first bytes a node looks at.
fn reach(node: &Entry) -> usize
    ensures { result ≡ reach node.now.at node.now.length }
{
    node.at as usize + node.length.max(16) as usize
}

/// How many of the first bytes the decode to these nodes looked at.
pub(crate) fn sight_of(nodes: &[Entry]) -> usize
    ensures { result ≡ sight_in nodes.now }
{
    let mut sight: usize = 0;
    'nodes: for index in 0..nodes.len() {
        sight = sight.max(reach(&nodes[index]));
    }
    sight
}
