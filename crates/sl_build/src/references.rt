//! What names and operands stand for at a node.

ghost use Rattle.std.specs.Prelude.{◌≡◌, IfOk, option_map};
ghost use Rattle.sl_build_emit.specs.Views.{frame_of, number_of, reference_of, references_of};
ghost use Rattle.sl_build_emit.specs.Views.{setting_of};
ghost use Rattle.sl_section_equations.specs.Equations.{size_at};
ghost use Rattle.sl_meaning_sections.specs.References as r;
ghost use Rattle.sl_meaning_sections.specs.Values as meaning;
ghost use Rattle.sl_section_flat.specs.Views.{number_of as space_number, symbol_of};
ghost use Rattle.sl_build_template.specs.Views.{size_in};

use crate::numbers::nothing;
use sl_build_emit::{Number, Reference, Site};
use sl_section_flat::{Storage, Symbol};
use sl_word::{Size, SpaceId};
use std::alloc::{AllocError, Global};

/// The size, as the definitions make it of its bytes.
pub(crate) fn same_size(n: Size) -> Size
    ensures { result ≡ size_at n.bytes }
{
    n
}

/// `size` bytes from an offset on.
pub(crate) fn storage(space: SpaceId, offset: u64, size: Size) -> Reference
    ensures { reference_of result ≡ r.storage space.0 offset (size_at size.bytes) }
{
    Reference::Storage(Storage {
        space,
        offset,
        size: same_size(size),
    })
}

fn one_byte() -> Size
    ensures { result ≡ size_at 1 }
{
    Size::new(1).unwrap()
}

/// The size of a variable of the section.
pub(crate) fn variable_size(site: &Site<'_>, x: u32) -> Size
    ensures { result ≡ size_in site.now.sizes.now x }
{
    match site.sizes.get(x as usize) {
        Some(n) => *n,
        None => one_byte(),
    }
}

/// The same once more.
fn again(alloc: Global, r: &Reference) -> Result<Reference, AllocError>
    ensures { IfOk result (λ c. reference_of c ≡ reference_of r.now) }
{
    match r {
        Reference::Storage(s) => Ok(Reference::Storage(*s)),
        Reference::Local(node, x, size) => Ok(Reference::Local(*node, *x, *size)),
        Reference::Plain(v) => Ok(Reference::Plain(*v)),
        Reference::Memory(space, size, pointer, width) => {
            let pointer = again(alloc, pointer)?;
            let pointer = Box::new(alloc, pointer)?;
            Ok(Reference::Memory(*space, *size, pointer, *width))
        }
    }
}

/// What an operand stands for.
fn operand(alloc: Global, refs: &[Reference], i: u32) -> Result<Reference, AllocError>
    ensures { IfOk result (λ c. reference_of c ≡ meaning.reference_at (references_of refs.now) i) }
{
    match refs.get(i as usize) {
        Some(r) => again(alloc, r),
        None => Ok(nothing()),
    }
}

/// What a name stands for; of bits of a register, the register.
pub(crate) fn meant(alloc: Global, site: &Site<'_>, a: Symbol) -> Result<Reference, AllocError>
    ensures { IfOk result (λ c. reference_of c
        ≡ meaning.meant (setting_of site.now) (frame_of site.now) (symbol_of a)) }
{
    match a {
        Symbol::Register(s) => Ok(storage(s.space, s.offset, s.size)),
        Symbol::BitRange(s, _) => Ok(storage(s.space, s.offset, s.size)),
        Symbol::Local(x) => Ok(Reference::Local(site.node, x, variable_size(site, x))),
        Symbol::Table(i) => operand(alloc, site.refs, i),
        Symbol::Attached(i, _) => operand(alloc, site.refs, i),
        Symbol::Value(i) => operand(alloc, site.refs, i),
        Symbol::Start => Ok(Reference::Plain(site.start)),
        Symbol::Next => Ok(Reference::Plain(site.next)),
        Symbol::Integer(v) => Ok(Reference::Plain(Number::Natural(v))),
    }
}
