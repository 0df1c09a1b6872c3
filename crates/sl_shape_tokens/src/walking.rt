//! Two lists compared part by part. Parts of one number are passed over whole, and of two others
//! the later one is taken apart, so that parts that both lists share are found.

ghost use Rattle.std.specs.Prelude.{◌≡◌, ◌<◌, [], ◌∷◌, ◌++◌, IfOk, OnOk, get_or, length};
ghost use Rattle.sl_shape_tokens.specs.Nodes.{AreBelow, lists_of};
ghost use Rattle.sl_shape_tokens.specs.Walks.{AreIn, IsEnd, IsFront, IsLeafStep, IsMet, IsSplit};
ghost use Rattle.sl_shape_tokens.specs.Walks.{IsStep};
ghost use Rattle.sl_shape_tokens.specs.Walks.{pending, work_left};

use crate::nodes::Node;
use crate::shapes::Compared;
use std::alloc::{AllocError, Global};

/// How two lists lie to one another, and the parts of their longest common beginning.
#[derive(Drop)]
pub struct Split {
    pub compared: Compared,
    pub common: Vec<usize>,
}

/// What is left of two lists, the last part first, and the parts that both begin with.
#[derive(Drop)]
pub struct Walk {
    pub left: Vec<usize>,
    pub right: Vec<usize>,
    pub common: Vec<usize>,
}

/// A list of one number.
fn single(alloc: Global, number: usize) -> Result<Vec<usize>, AllocError>
    ensures { IfOk result (λ list. list.items ≡ number ∷ []) }
{
    let mut list = Vec::new(alloc);
    list.push(number)?;
    Ok(list)
}

/// Puts two parts in front of what is left.
fn put_parts(parts: &mut Vec<usize>, first: usize, second: usize) -> Result<(), AllocError>
    ensures { OnOk result (parts.new.items ≡ parts.old.items ++ second ∷ [] ++ first ∷ []) }
{
    parts.push(second)?;
    parts.push(first)?;
    Ok(())
}

/// What is done with the two nodes in front: one is taken apart, or both are leaves.
#[derive(Clone, Copy, Debug)]
pub enum Front {
    OpenFirst(usize, usize),
    OpenSecond(usize, usize),
    Leaves(u32, u32),
}

/// What is done with two nodes, of which the first may be the later one.
fn front_of(first: Node, second: Node, is_later: bool) -> Front
    ensures { IsFront first second result }
{
    match first {
        Node::Joined(one, two) => match second {
            Node::Joined(three, four) => {
                if is_later {
                    Front::OpenFirst(one, two)
                } else {
                    Front::OpenSecond(three, four)
                }
            }
            Node::One(_) => Front::OpenFirst(one, two),
        },
        Node::One(token) => match second {
            Node::Joined(one, two) => Front::OpenSecond(one, two),
            Node::One(other) => Front::Leaves(token, other),
        },
    }
}

impl Walk {
    /// The end of a walk whose first list has nothing left.
    fn ended(&self) -> Compared
        ensures { IsEnd self.now.right.items result }
    {
        if self.right.is_empty() {
            Compared::Same
        } else {
            Compared::FirstShorter
        }
    }

    /// A step at two leaves.
    fn at_leaves(
        &mut self,
        number: usize,
        token: u32,
        other: u32,
    ) -> Result<Option<Compared>, AllocError>
        ensures { IfOk result (IsLeafStep self.old number token other self.new) }
    {
        if token == other {
            self.common.push(number)?;
            return Ok(None);
        }
        Ok(Some(Compared::Apart))
    }

    /// A step at two parts in front of what is left.
    fn meet(
        &mut self,
        nodes: &[Node],
        first: usize,
        second: usize,
    ) -> Result<Option<Compared>, AllocError>
        requires below { AreBelow nodes.now }
        requires first { first < length nodes.now }
        requires second { second < length nodes.now }
        requires left { AreIn (length nodes.now) self.old.left.items }
        requires right { AreIn (length nodes.now) self.old.right.items }
        ensures { IfOk result (IsMet nodes.now first second self.old self.new) }
    {
        if first == second {
            self.common.push(first)?;
            return Ok(None);
        }
        match front_of(nodes[first], nodes[second], first > second) {
            Front::OpenFirst(one, two) => {
                put_parts(&mut self.left, one, two)?;
                self.right.push(second)?;
                Ok(None)
            }
            Front::OpenSecond(one, two) => {
                put_parts(&mut self.right, one, two)?;
                self.left.push(first)?;
                Ok(None)
            }
            Front::Leaves(token, other) => self.at_leaves(first, token, other),
        }
    }

    /// A step of the walk, or its end.
    fn step(&mut self, nodes: &[Node]) -> Result<Option<Compared>, AllocError>
        requires below { AreBelow nodes.now }
        requires left { AreIn (length nodes.now) self.old.left.items }
        requires right { AreIn (length nodes.now) self.old.right.items }
        ensures { IfOk result (IsStep nodes.now (pending (lists_of nodes.now) self.old.left.items)
            (pending (lists_of nodes.now) self.old.right.items) (work_left nodes.now self.old)
            self.old.common.items self.new) }
    {
        let Some(first) = self.left.pop() else {
            return Ok(Some(self.ended()));
        };
        let Some(second) = self.right.pop() else {
            return Ok(Some(Compared::SecondShorter));
        };
        let met = self.meet(nodes, first, second)?;
        Ok(met)
    }
}

/// How the lists of two nodes lie to one another, and the parts of their longest common beginning.
pub fn split_of(
    alloc: Global,
    nodes: &[Node],
    first: usize,
    second: usize,
) -> Result<Split, AllocError>
    requires below { AreBelow nodes.now }
    requires first { first < length nodes.now }
    requires second { second < length nodes.now }
    ensures { IfOk result (IsSplit (lists_of nodes.now) (get_or (lists_of nodes.now) first [])
        (get_or (lists_of nodes.now) second [])) }
{
    let mut walk = Walk {
        left: single(alloc, first)?,
        right: single(alloc, second)?,
        common: Vec::new(alloc),
    };
    'steps: loop {
        let ended = walk.step(nodes)?;
        if let Some(compared) = ended {
            return Ok(Split {
                compared,
                common: walk.common,
            });
        }
    }
}
