//! Instructions with a node that is `unimpl`.

ghost use Rattle.std.specs.Prelude.{◌≡◌, IfOk, map};
ghost use Rattle.std.specs.List.{list_any};
ghost use Rattle.sl_ast.specs.Views.{section_of};
ghost use Rattle.sl_build.specs.Views.{is_marked};
ghost use Rattle.sl_meaning_instruction.specs.Instructions.{is_unimpl};
ghost use Rattle.sl_spec.specs.Unfolded.{all_placed, placed};

use sl_ast::constructors::Section;
use sl_decode_meaning::Entry;
use sl_spec::Unfolded;
use std::alloc::{AllocError, Global};

/// The section of a constructor.
fn section<'s, 'a>(of: &Unfolded<'s, 'a>) -> &'s Section<'a>
    ensures { section_of result.now ≡ (placed of.now).1.section }
{
    let own = of.own;
    &own.section
}

fn is_unimpl(section: &Section) -> bool
    ensures { result ≡ is_unimpl (section_of section.now) }
{
    match section {
        Section::Statements(_) => false,
        Section::Unimplemented => true,
    }
}

/// Which constructors are `unimpl`.
pub(crate) fn marks(alloc: Global, constructors: &[Unfolded]) -> Result<Vec<bool>, AllocError>
    ensures { IfOk result (λ v. v.items
        ≡ map (λ c. is_unimpl c.1.section) (all_placed constructors.now)) }
{
    let mut marks = Vec::new(alloc);
    'constructors: for index in 0..constructors.len() {
        marks.push(is_unimpl(section(&constructors[index])))?;
    }
    Ok(marks)
}

/// Whether the constructor of a node is marked.
fn is_marked(marks: &[bool], node: &Entry) -> bool
    ensures { result ≡ is_marked marks.now node.now.ctor }
{
    match marks.get(node.ctor.0 as usize) {
        Some(mark) => *mark,
        None => false,
    }
}

/// Whether the constructor of some node is marked.
pub(crate) fn has_marked(marks: &[bool], nodes: &[Entry]) -> bool
    ensures { result ≡ list_any (λ e. is_marked marks.now e.ctor) nodes.now }
{
    'nodes: for index in 0..nodes.len() {
        if is_marked(marks, &nodes[index]) {
            return true;
        }
    }
    false
}
