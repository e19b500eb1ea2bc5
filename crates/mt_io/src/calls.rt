//! The calls on an object in memory.
ghost use Rattle.std.specs.Prelude.{◌≡◌, ◌↔◌, IsTrue, ◌+◌, ◌<◌, ◌^◌, if◌then◌else◌};
ghost use Rattle.mt_io.specs.Calls.{AreUnlisted, GoOn, IsNextListed, listing, one_failed, one_more, with_failure};

use std::marker::Model;

/// The calls on an object in memory: which are to fail, counted from 1, how many were made, and how many failed. Contracts see it as a
/// `FaultPlan`.
#[derive(Drop)]
pub struct FaultPlan {
    listed: Vec<u64>,
    made: u64,
    failed: u64,
}

impl Model for FaultPlan {
    ghost use Rattle.std.specs.Prelude.{All, ◌<◌, ◌^◌};
    ghost use Rattle.mt_io.specs.Calls.{FaultPlan as CallsNow};

    ghost Value = { CallsNow };

    ghost view = { λ c. record { listed = c.listed.items; made = c.made; failed = c.failed } };

    ghost invariant = { λ c. All (λ n. n < 2 ^ 64) c.listed.items };
}

impl FaultPlan {
    /// No call was made yet. Those that the list names are to fail.
    pub fn listing(listed: Vec<u64>) -> FaultPlan
        ensures { result ≡ listing listed.items }
    {
        FaultPlan {
            listed,
            made: 0,
            failed: 0,
        }
    }

    /// How many failed.
    pub fn failed(&self) -> u64
        ensures { result ≡ self.now.failed }
    {
        self.failed
    }

    /// Counts a call, and says whether it is one of those that are to fail. Where it is, its failure is counted too.
    pub fn next_fails(&mut self) -> bool
        ensures listed { IsTrue result ↔ IsNextListed self.old }
        ensures counts { self.new ≡ (if result then one_failed self.old else one_more self.old) }
        ensures on { GoOn self.old self.new }
        ensures quiet { AreUnlisted self.old self.new → self.new.failed ≡ self.old.failed }
    {
        let fails = self.is_next_listed();
        self.pass();
        if fails {
            self.fail();
        }
        fails
    }

    // Whether the next call is one of those that are to fail. A call has no number where the count stays at its end.
    fn is_next_listed(&self) -> bool
        ensures listed { IsTrue result ↔ IsNextListed self.now }
        ensures numbered { IsTrue result → self.now.made + 1 < 2 ^ 64 }
    {
        match self.made.checked_add(1) {
            Some(number) => self.listed.contains(&number),
            None => false,
        }
    }

    /// Counts a call that doesn't fail, even if it is one of those that are to fail.
    pub fn pass(&mut self)
        ensures counts { self.new ≡ one_more self.old }
        ensures on { GoOn self.old self.new }
    {
        self.made = self.made.saturating_add(1);
    }

    /// Counts the failure of a call that was counted.
    pub fn fail(&mut self)
        ensures counts { self.new ≡ with_failure self.old }
        ensures on { GoOn self.old self.new }
    {
        self.failed = self.failed.saturating_add(1);
    }
}
