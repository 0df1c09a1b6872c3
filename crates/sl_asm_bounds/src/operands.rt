//! Places and texts of operands, as far as they are known.

ghost use Rattle.std.specs.Prelude.{◌≡◌, ◌+◌, ◌≤◌, ℕ, List, IfSome, IsTrue, min, option_map};
ghost use Rattle.sl_asm_bounds.specs.Bounds.{AreBetween, Fits, IsKnown, IsUpTo};
ghost use Rattle.sl_asm_bounds.specs.Texts.{AreTexts};
ghost use Rattle.sl_decode_leaves.specs.Extents.{extent};
ghost use Rattle.sl_show.specs.declared.templates.Part.{Part as PartOf};
ghost use Rattle.sl_show.specs.declared.templates.Part.TheVariants.{Table as table_part};

use crate::bounds::UNBOUNDED;
use sl_decode_leaves::{Extent, extent_of};
use sl_show::Part;

/// The least and the greatest length of each operand of a node.
#[derive(Drop)]
pub struct Lengths {
    pub leasts: Vec<u32>,
    pub mosts: Vec<u32>,
}

/// A number of bytes; 2^32 - 1 stands for all that is more.
fn told(bytes: u64) -> u32
    ensures { result ≡ min bytes 4294967295 }
{
    bytes.min(4_294_967_295) as u32
}

/// Whether a length between these is known.
fn is_known(least: u32, most: u32) -> bool
    ensures { IsTrue result → IsKnown least most }
{
    least == most && most < UNBOUNDED
}

impl Lengths {
    /// The least number of bytes.
    pub fn least(&self, of: &Extent) -> u32
        ensures { (lengths : List ℕ) → AreBetween self.now.leasts.items self.now.mosts.items lengths
            → result ≤ extent of.now lengths }
    {
        told(extent_of(of, &self.leasts))
    }

    /// The greatest one.
    pub fn most(&self, of: &Extent) -> u32
        ensures { (lengths : List ℕ) → AreBetween self.now.leasts.items self.now.mosts.items lengths
            → IsUpTo result (extent of.now lengths) }
    {
        told(extent_of(of, &self.mosts))
    }

    /// Whether each length is known.
    pub fn are_known(&self) -> bool
        ensures { IsTrue result → (lengths : List ℕ)
            → AreBetween self.now.leasts.items self.now.mosts.items lengths
            → lengths ≡ self.now.leasts.items }
    {
        if self.leasts.len() != self.mosts.len() {
            return false;
        }
        'operands: for index in 0..self.leasts.len() {
            if !is_known(self.leasts[index], self.mosts[index]) {
                return false;
            }
        }
        true
    }

    /// The place so many bytes after another one, where it is known and at most 255.
    pub fn place(&self, at: u32, of: &Extent) -> Option<u32>
        ensures most { IfSome result (λ place. place ≤ 255) }
        ensures place { IfSome result (λ place. (lengths : List ℕ)
            → AreBetween self.now.leasts.items self.now.mosts.items lengths
            → at + extent of.now lengths ≡ place) }
    {
        let least = self.least(of);
        if least != self.most(of) || least > 255 || at > 255 {
            return None;
        }
        let place = at + least;
        if place <= 255 { Some(place) } else { None }
    }
}

/// The text of an operand, by those of the parts, where it is among them.
pub fn text_of<'x>(parts: &[Part], texts: &[&'x [u8]], number: usize) -> Option<&'x [u8]>
    ensures { (shows : PartOf → List ℕ) → AreTexts shows parts.now texts.now
        → Fits (option_map (λ text. text.now) result) (shows (table_part number)) }
{
    'parts: for index in 0..parts.len() {
        if let (Some(Part::Table(of)), Some(text)) = (parts.get(index), texts.get(index)) {
            if *of == number {
                return Some(*text);
            }
        }
    }
    None
}
