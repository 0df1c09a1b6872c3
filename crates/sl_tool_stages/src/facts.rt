//! Lines that say more of a refusal.

ghost use Rattle.std.specs.Prelude.{◌≡◌};

use std::alloc::Global;
use std::marker::Model;

/// Lines that say more of a refusal. Contracts see their bytes.
#[derive(Debug, Drop)]
pub struct Facts {
    lines: Vec<u8>,
}

impl Model for Facts {
    ghost use Rattle.std.specs.Prelude.{ℕ, List};

    ghost Value = { List ℕ };

    ghost view = { λ facts. facts.lines.items };
}

impl Facts {
    ghost use Rattle.std.specs.Prelude.{◌≡◌, []};

    /// Those lines.
    pub fn of(lines: Vec<u8>) -> Self
        ensures { result ≡ lines.items }
    {
        Facts { lines }
    }

    /// No line.
    pub fn none(alloc: Global) -> Self
        ensures { result ≡ [] }
    {
        Facts {
            lines: Vec::new(alloc),
        }
    }

    /// The bytes of the lines.
    pub fn as_bytes(&self) -> &[u8]
        ensures { result.now ≡ self.now }
    {
        self.lines.as_slice()
    }
}
