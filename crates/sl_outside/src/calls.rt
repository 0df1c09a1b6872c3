//! Numbered calls, of which some are to fail.

ghost use Rattle.std.specs.Prelude.{◌≡◌, ◌≤◌, ◌↔◌, [], IsTrue, OnOk, OnErr};

use std::alloc::{AllocError, Global};

/// How many calls were made, the numbers of those that are to fail, and how many have failed.
///
/// Calls count from 1. Each count stays at 2^64 - 1 once it is there.
#[derive(Drop)]
pub struct Calls {
    pub made: u64,
    pub failing: Vec<u64>,
    pub faults: u64,
}

impl Calls {
    ghost use Rattle.sl_outside.specs.Causes.{next_count};
    ghost use Rattle.sl_outside.specs.Memory.{AddsFailing, CountsCall, IsToFail, IsUnchanged};

    /// No call was made, and none is to fail.
    pub fn new(alloc: Global) -> Self
        ensures made { result.made ≡ 0 }
        ensures failing { result.failing.items ≡ [] }
        ensures faults { result.faults ≡ 0 }
    {
        Calls {
            made: 0,
            failing: Vec::new(alloc),
            faults: 0,
        }
    }

    /// From now on the call of this number is to fail.
    pub fn fail_on(&mut self, call: u64) -> Result<(), AllocError>
        ensures added { OnOk result (AddsFailing self.old self.new call) }
        ensures unchanged { OnErr result (IsUnchanged self.old self.new) }
    {
        self.failing.push(call)?;
        Ok(())
    }

    /// Counts a call. It fails where it is to.
    pub fn count(&mut self) -> bool
        ensures fails { IsTrue result ↔ IsToFail self.old }
        ensures counted { CountsCall self.old self.new }
        ensures goes_on { self.old.made ≤ self.new.made }
        ensures faults { self.new.faults ≡ self.old.faults }
    {
        self.made = self.made.saturating_add(1);
        self.failing.contains(&self.made)
    }

    /// Counts a call that has failed.
    pub fn fail(&mut self)
        ensures made { self.new.made ≡ self.old.made }
        ensures failing { self.new.failing.items ≡ self.old.failing.items }
        ensures faults { self.new.faults ≡ next_count self.old.faults }
        ensures never_falls { self.old.faults ≤ self.new.faults }
    {
        self.faults = self.faults.saturating_add(1);
    }
}
