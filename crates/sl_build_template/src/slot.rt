//! Varnodes of templates.

ghost use Rattle.std.specs.Prelude.{◌≡◌};
ghost use Rattle.sl_build_template.specs.Pieces as p;

use sl_pcode::Varnode;
use sl_word::Size;

/// What is known of a node alone.
#[derive(Clone, Copy, Debug)]
pub enum Given {
    /// What the operand of this number stands for.
    Operand(u32),
    /// `inst_start`
    Start,
    /// `inst_next`
    Next,
}

/// What a name stands for as a whole.
#[derive(Clone, Copy, Debug)]
pub enum Whole {
    /// The same varnode at each node.
    Fixed(Varnode),
    /// A local of the node, by its size variable.
    Local(u32, Size),
    /// What is given, which may be no varnode.
    Given(Given, Size),
}

/// A varnode of a template.
#[derive(Clone, Copy, Debug)]
pub enum Slot {
    /// The same one at each node.
    Fixed(Varnode),
    /// A local of the node, by its size variable.
    Local(u32, Size),
    /// The temporary value of this number.
    Temporary(u32, Size),
    /// What is given, where that is a varnode, and else the temporary value of this number.
    Given(Given, u32, Size),
    /// The lowest bytes of what a name stands for, where that is a varnode, and else the temporary
    /// value of this number.
    View(u32, Whole, Size),
    /// Where a value for the operand of this number is put: what the operand stands for, where that
    /// is a varnode, and else the first temporary value.
    Written(u32, Size),
    /// What is given as a target, an address of the default space.
    Target(Given, Size),
}

/// The size of a varnode.
pub fn slot_size(v: Slot) -> Size
    ensures { result ≡ p.slot_size v }
{
    match v {
        Slot::Fixed(v) => v.size,
        Slot::Local(_, n) => n,
        Slot::Temporary(_, n) => n,
        Slot::Given(_, _, n) => n,
        Slot::View(_, _, n) => n,
        Slot::Written(_, n) => n,
        Slot::Target(_, n) => n,
    }
}
