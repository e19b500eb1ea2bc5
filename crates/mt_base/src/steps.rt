ghost use Rattle.std.specs.Prelude.{◌≡◌};
ghost use Rattle.mt_base.specs.Tally.{raised};

use std::marker::Model;

/// How many steps a call took, seen as their number: what a bound on a call's work speaks of. A caller that bounds nothing makes one and
/// forgets it.
#[derive(Drop)]
pub struct Steps {
    count: u64,
}

impl Model for Steps {
    ghost use Rattle.std.specs.Prelude.{ℕ};

    ghost Value = { ℕ };

    ghost view = { λ s. s.count };
}

impl Steps {
    /// No step yet.
    pub fn new() -> Steps
        ensures { result ≡ 0 }
    {
        Steps { count: 0 }
    }

    /// One step more. The number stays at `u64::MAX`.
    pub fn raise(&mut self)
        ensures { self.new ≡ raised self.old }
    {
        self.count = self.count.saturating_add(1);
    }

    /// The number of steps.
    pub fn get(&self) -> u64
        ensures { result ≡ self.now }
    {
        self.count
    }
}
