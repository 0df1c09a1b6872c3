//! Names and lines of files, as refusals tell them.

ghost use Rattle.std.specs.Prelude.{◌≡◌, IfOk};

use std::alloc::{AllocError, Global};
use std::marker::Model;

/// The name of a file as it was fetched, of a context field, or of a table. Contracts see its
/// bytes.
#[derive(Debug, Drop)]
pub struct Name {
    bytes: Vec<u8>,
}

impl Model for Name {
    ghost use Rattle.std.specs.Prelude.{ℕ, List};

    ghost Value = { List ℕ };

    ghost view = { λ name. name.bytes.items };
}

impl Name {
    ghost use Rattle.std.specs.Prelude.{◌≡◌, IfOk, string_bytes};

    /// The name of this text.
    pub fn of(text: String) -> Self
        ensures { result ≡ string_bytes text }
    {
        Name {
            bytes: text.into_bytes(),
        }
    }

    /// A copy of the name that these bytes are.
    pub fn of_bytes(alloc: Global, bytes: &[u8]) -> Result<Self, AllocError>
        ensures { IfOk result (λ name. name ≡ bytes.now) }
    {
        let bytes = bytes.to_vec(alloc)?;
        Ok(Name { bytes })
    }

    /// A copy of the name.
    pub fn copied(alloc: Global, text: &str) -> Result<Self, AllocError>
        ensures { IfOk result (λ name. name ≡ text.now) }
    {
        let name = Self::of_bytes(alloc, text.as_bytes())?;
        Ok(name)
    }

    /// The bytes of the name.
    pub fn as_bytes(&self) -> &[u8]
        ensures { result.now ≡ self.now }
    {
        self.bytes.as_slice()
    }
}

/// A line of a file, counted from 1; line 0 is the whole file.
#[derive(Debug, Drop)]
pub struct Place {
    /// The name of the file.
    pub file: Name,
    /// The number of the line.
    pub line: u64,
}
