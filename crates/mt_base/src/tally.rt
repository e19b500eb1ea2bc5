ghost use Rattle.std.specs.Prelude.{◌≡◌};
ghost use Rattle.mt_base.specs.Tally.{raised};

use std::marker::Model;
use std::thread::Threads;

/// How many pair tests were made, seen as their number. Only a caller that has the runtime can make one, so a call that is lent a tally
/// and no runtime counts each of its tests on it.
#[derive(Drop)]
pub struct Tally {
    count: u64,
}

impl Model for Tally {
    ghost use Rattle.std.specs.Prelude.{ℕ};

    ghost Value = { ℕ };

    ghost view = { λ t. t.count };
}

impl Tally {
    /// No test yet.
    pub fn new<R: Threads + Sync>(_rt: &R) -> Tally
        ensures { result ≡ 0 }
    {
        Tally { count: 0 }
    }

    /// One test more. The number stays at `u64::MAX`.
    pub fn raise(&mut self)
        ensures { self.new ≡ raised self.old }
    {
        self.count = self.count.saturating_add(1);
    }

    /// The number of tests.
    pub fn get(&self) -> u64
        ensures { result ≡ self.now }
    {
        self.count
    }
}
