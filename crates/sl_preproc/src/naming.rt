//! The names of included files.

ghost use Rattle.std.specs.Prelude.{◌≡◌, ◌≤◌, length, take, IfOk};
ghost use Rattle.std.specs.String.{string_bytes};
ghost use Rattle.sl_preproc.specs.Naming.{directory, joined_name};

use std::alloc::{AllocError, Global};

/// The name up to and with its last `/`.
fn directory(name: &str) -> &str
    ensures { result.now ≡ directory name.now }
{
    match name.rfind('/') {
        Some(at) => &name[..=at],
        None => "",
    }
}

#[tactic(auto, unfolding(crate::specs::Naming::joined_name))]
/// The name of the file that the file of the first name includes under the second.
pub fn join(alloc: Global, from: &str, name: &str) -> Result<String, AllocError>
    ensures { IfOk result (λ s. string_bytes s ≡ joined_name from.now name.now) }
{
    if name.starts_with('/') {
        return String::from_str(alloc, name);
    }
    let mut joined = String::from_str(alloc, directory(from))?;
    joined.push_str(name)?;
    Ok(joined)
}
