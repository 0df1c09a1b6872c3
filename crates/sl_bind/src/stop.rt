//! Why items are not taken.

ghost use Rattle.std.specs.Prelude.{◌≡◌};
ghost use Rattle.sl_bind.specs.Steps.{stop_at};

use sl_spec_rules::Fault;
use std::alloc::AllocError;

/// The number of the broken rule with that of the item that breaks it, none for the text's end, or
/// want of memory.
#[derive(Clone, Copy, Debug, PartialEq, Eq)]
pub enum Stop {
    Rule(u8, Option<u32>),
    NoMemory,
}

impl From<AllocError> for Stop {
    ghost use Rattle.std.specs.Prelude.{◌≡◌};
    ghost use Rattle.sl_bind.specs.declared.stop.Stop.{Stop};

    ghost from_gives = { λ _ stop. stop ≡ Stop.NoMemory };

    fn from(_: AllocError) -> Self {
        Stop::NoMemory
    }
}

/// A fault of the item of this number.
pub fn stop_at(number: u32, fault: Fault) -> Stop
    ensures { result ≡ stop_at number fault }
{
    match fault {
        Fault::Rule(rule) => Stop::Rule(rule, Some(number)),
        Fault::NoMemory => Stop::NoMemory,
    }
}
