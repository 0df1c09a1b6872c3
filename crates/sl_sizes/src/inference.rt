//! Inference: equation by equation into the nodes, and then the sizes that they leave.

ghost use Rattle.std.specs.Prelude.{◌≡◌, ℕ, ◌<◌, ◌^◌, ◌-◌, [], length, vec_len, All, IfOk, IfErr, MatchOption};
ghost use Rattle.sl_sizes.specs.Solutions.{IsAbout, Holds, IsOnlySolution, IsFirstClash, IsReason, bytes_at};
ghost use Rattle.sl_sizes.specs.Nodes.{node_of, AreTrees, RanksUpTo, IsStep, StandFor, IsFixed, IsUnfixedReason};

use crate::nodes::{Node, fixed, give, relate};
use crate::{Equation, SizeError};
use sl_word::Size;
use std::alloc::{AllocError, Global};

/// The sizes in bytes of the variables `0..variables`, by their numbers, where exactly one assignment
/// of sizes from 1 to 16 meets all equations.
///
/// `Clash` comes where none does, `Unfixed` where several do. No size is a default: a variable that no
/// equation names is unfixed. The time grows with the variables and equations, times at most the
/// logarithm of the number of variables.
pub fn infer(alloc: Global, variables: u32, equations: &[Equation]) -> Result<Vec<Size>, SizeError>
    requires { All (IsAbout variables) equations.now }
    ensures count { IfOk result (λ sizes. vec_len sizes ≡ variables) }
    ensures sizes { IfOk result (λ sizes. IsOnlySolution variables equations.now (bytes_at sizes.items)) }
    ensures refused { IfErr result (IsReason variables equations.now) }
{
    let mut nodes = singles(alloc, variables).map_err(|_| SizeError::NoMemory)?;
    let nodes = nodes.as_mut_slice();
    if let Some(index) = first_clash(nodes, equations) {
        return Err(SizeError::Clash(index));
    }
    sizes(alloc, variables, nodes)
}

/// The nodes of so many variables of which nothing is known.
fn singles(alloc: Global, variables: u32) -> Result<Vec<Node>, AllocError>
    ensures count { IfOk result (λ nodes. length nodes.items ≡ variables) }
    ensures stand { IfOk result (λ nodes. StandFor variables (node_of nodes.items) []) }
    ensures ranks { IfOk result (λ nodes. RanksUpTo 0 variables (node_of nodes.items)) }
{
    let mut nodes = Vec::new(alloc);
    'variables: for variable in 0..variables {
        nodes.push(Node::single(variable))?;
    }
    Ok(nodes)
}

/// Takes the equations into the nodes in turn, and gives the first that leaves no assignment.
fn first_clash(nodes: &mut [Node], equations: &[Equation]) -> Option<usize>
    requires about { All (IsAbout (length nodes.old)) equations.now }
    requires stand { StandFor (length nodes.old) (node_of nodes.old) [] }
    requires ranks { RanksUpTo 0 (length nodes.old) (node_of nodes.old) }
    ensures { MatchOption result (StandFor (length nodes.old) (node_of nodes.new) equations.now)
        (IsFirstClash (length nodes.old) equations.now) }
{
    'equations: for (index, equation) in equations.iter().enumerate() {
        if !take_in(nodes, equation) {
            return Some(index);
        }
    }
    None
}

/// Whether the equation holds of any assignment that the nodes leave; those are then the ones that
/// they leave.
fn take_in(nodes: &mut [Node], equation: &Equation) -> bool
    requires about { IsAbout (length nodes.old) equation.now }
    requires trees { AreTrees (length nodes.old) (node_of nodes.old) }
    requires ranks { RanksUpTo (2 ^ 64 - 2) (length nodes.old) (node_of nodes.old) }
    ensures { IsStep nodes.old nodes.new result (λ size. Holds size equation.now) }
{
    match equation {
        Equation::Is(variable, size) => give(nodes, *variable, size.get().into()),
        Equation::Equal(first, second) => relate(nodes, *first, *second, 0),
        Equation::Less(first, second, less) => relate(nodes, *first, *second, (*less).into()),
    }
}

/// The sizes that the variables have in all assignments that the nodes leave.
fn sizes(alloc: Global, variables: u32, nodes: &[Node]) -> Result<Vec<Size>, SizeError>
    requires count { length nodes.now ≡ variables }
    requires trees { AreTrees variables (node_of nodes.now) }
    ensures count { IfOk result (λ sizes. vec_len sizes ≡ variables) }
    ensures fixed { IfOk result (λ sizes. (v : ℕ) → v < variables → IsFixed variables (node_of nodes.now) v (bytes_at sizes.items v)) }
    ensures refused { IfErr result (IsUnfixedReason variables (node_of nodes.now)) }
{
    let mut sizes = Vec::new(alloc);
    'variables: for variable in 0..variables {
        let Some(size) = fixed(nodes, variable) else {
            return Err(SizeError::Unfixed(variable));
        };
        sizes.push(size).map_err(|_| SizeError::NoMemory)?;
    }
    Ok(sizes)
}
