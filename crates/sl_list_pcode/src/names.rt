//! The names that operations are printed with.

ghost use Rattle.std.specs.Prelude.{◌≡◌, IfOk, map, string_bytes};
ghost use Rattle.sl_list_pcode.specs.Names.{AreNames};

use sl_pcode::Names;
use sl_section_sizes::address_sizes;
use sl_spec::{Space, Tables, UserOp};
use std::alloc::{AllocError, Global};

/// A name as a text. One that isn't UTF-8 is answered as want of memory: identifiers are ASCII.
fn text_of(alloc: Global, name: &[u8]) -> Result<String, AllocError>
    ensures { IfOk result (λ text. string_bytes text ≡ name.now) }
{
    let Ok(name) = str::from_utf8(name) else {
        return Err(AllocError);
    };
    String::from_str(alloc, name)
}

fn space_name<'a>(space: &Space<'a>) -> &'a [u8]
    ensures { result.now ≡ space.now.name }
{
    space.name
}

fn userop_name<'a>(userop: &UserOp<'a>) -> &'a [u8]
    ensures { result.now ≡ userop.now.name }
{
    userop.name
}

/// The names of all spaces.
fn space_names(alloc: Global, t: &Tables) -> Result<Vec<String>, AllocError>
    ensures { IfOk result (λ v. map string_bytes v.items ≡ map (λ z. z.name) t.now.spaces) }
{
    let mut names = Vec::new(alloc);
    'spaces: for index in 0..t.spaces.len() {
        let name = text_of(alloc, space_name(t.spaces.member(index)))?;
        names.push(name)?;
    }
    Ok(names)
}

/// The names of all user operations.
fn userop_names(alloc: Global, t: &Tables) -> Result<Vec<String>, AllocError>
    ensures { IfOk result (λ v. map string_bytes v.items ≡ map (λ u. u.name) t.now.userops) }
{
    let mut names = Vec::new(alloc);
    'userops: for index in 0..t.userops.len() {
        let name = text_of(alloc, userop_name(t.userops.member(index)))?;
        names.push(name)?;
    }
    Ok(names)
}

/// The names of a specification's spaces and user operations. The only error is want of memory.
pub fn names_of(alloc: Global, t: &Tables) -> Result<Names, AllocError>
    ensures { IfOk result (AreNames t.now) }
{
    let spaces = space_names(alloc, t)?;
    let sizes = address_sizes(alloc, t)?;
    let userops = userop_names(alloc, t)?;
    Ok(Names {
        spaces,
        sizes,
        userops,
    })
}
