//! How many bytes lists have.

ghost use Rattle.std.specs.Prelude.{◌≡◌, ◌∷◌, [], ◌++◌, ℕ, List, OnOk, get_or};
ghost use Rattle.sl_shape_tokens.specs.Bytes.{Knows, bytes_of, capped_sum, cost};
ghost use Rattle.sl_shape_tokens.specs.Lists.{IsThere, Keeps, list_of};

use crate::lists::Lists;
use crate::nodes::Node;
use crate::shapes::Shape;
use std::alloc::{AllocError, Global};

/// The greatest number of bytes: all above it are told as this one.
const MOST_BYTES: u32 = 4_294_967_295;

/// The bytes of lists, reckoned once for each as the lists come. `sizes` has the bytes of each
/// token.
#[derive(Debug, Drop)]
pub struct ListBytes {
    pub sizes: Vec<u32>,
    pub known: Vec<u32>,
}

/// A sum that stops at the greatest number.
fn added(first: u32, second: u32) -> u32
    ensures { result ≡ capped_sum first second }
{
    match first.checked_add(second) {
        Some(sum) => sum,
        None => MOST_BYTES,
    }
}

/// A number of a list, 0 past its end.
fn read(numbers: &[u32], index: usize) -> u32
    ensures { result ≡ get_or numbers.now index 0 }
{
    match numbers.get(index) {
        Some(number) => *number,
        None => 0,
    }
}

impl ListBytes {
    /// Nothing is known of any list yet.
    pub fn new(alloc: Global, sizes: Vec<u32>) -> Self
        ensures sizes { result.sizes.items ≡ sizes.items }
        ensures knows { Knows result [] }
    {
        ListBytes {
            sizes,
            known: Vec::new(alloc),
        }
    }

    /// The bytes of a node, from those of the nodes before it.
    fn of_node(&self, node: Node) -> u32
        ensures { result ≡ cost self.now.sizes.items self.now.known.items node }
    {
        match node {
            Node::One(token) => added(read(self.sizes.as_slice(), token as usize), 0),
            Node::Joined(first, second) => added(
                read(self.known.as_slice(), first),
                read(self.known.as_slice(), second),
            ),
        }
    }

    /// Takes in the lists that came since the last time.
    pub fn grow(&mut self, lists: &Lists) -> Result<(), AllocError>
        ensures sizes { self.new.sizes.items ≡ self.old.sizes.items }
        ensures knows { OnOk result ((old : List (List ℕ)) → Knows self.old old
            → Keeps old lists.now → Knows self.new lists.now) }
    {
        'nodes: for index in self.known.len()..lists.nodes.len() {
            let bytes = self.of_node(lists.nodes[index]);
            self.known.push(bytes)?;
        }
        Ok(())
    }

    /// The bytes of a shape's list.
    pub fn bytes(&self, shape: Shape) -> u32
        ensures { (lists : List (List ℕ)) → Knows self.now lists
            → result ≡ bytes_of self.now.sizes.items (list_of lists shape.tokens) }
    {
        match shape.tokens.0 {
            Some(number) => read(self.known.as_slice(), number),
            None => 0,
        }
    }
}
