//! What is kept of an address that has commits.

ghost use Rattle.std.specs.Prelude.{◌≡◌};
ghost use Rattle.sl_decode_contexts.specs.AtAddress.{fresh, merged, passed, with_commit};

use crate::bits::{less, put_bits};
use crate::commits::Commit;

/// What the commits at one address give.
#[derive(Clone, Copy, Debug)]
pub struct Run {
    pub address: u64,
    /// The bits that flowing commits at this address give.
    pub fixed: u64,
    /// The values of these bits; the others mean nothing.
    pub flow: u64,
    /// The bits whose latest commit at this address doesn't flow.
    pub own: u64,
    /// The values of these bits; the others mean nothing.
    pub own_value: u64,
}

impl Run {
    /// The run of an address to which nothing was committed yet.
    pub(crate) fn fresh(address: u64) -> Run
        ensures { result ≡ fresh address }
    {
        Run {
            address,
            fixed: 0,
            flow: 0,
            own: 0,
            own_value: 0,
        }
    }

    /// The run with one more commit at its address.
    pub(crate) fn given(self, c: &Commit) -> Run
        ensures { result ≡ with_commit c.now self }
    {
        if c.flows {
            Run {
                address: self.address,
                fixed: self.fixed | c.mask,
                flow: put_bits(self.flow, c.mask, c.value),
                own: less(self.own, c.mask),
                own_value: self.own_value,
            }
        } else {
            Run {
                address: self.address,
                fixed: self.fixed,
                flow: self.flow,
                own: self.own | c.mask,
                own_value: put_bits(self.own_value, c.mask, c.value),
            }
        }
    }

    /// The context that flows on from the address, where `before` flows up to it.
    pub(crate) fn onward(self, before: u64) -> u64
        ensures { result ≡ passed before self }
    {
        put_bits(before, self.fixed, self.flow)
    }

    /// The context at the address, where `before` flows up to it.
    pub(crate) fn here(self, before: u64) -> u64
        ensures { result ≡ merged before self }
    {
        put_bits(self.onward(before), self.own, self.own_value)
    }
}
