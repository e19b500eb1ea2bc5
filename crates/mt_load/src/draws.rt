ghost use Rattle.std.specs.Prelude.{◌≡◌, ◌<◌};
ghost use Rattle.mt_load.specs.Draws.{drawn, next_state};

use std::marker::Model;

/// What a draw multiplies the state by.
const FACTOR: u64 = 6364136223846793005;

/// What a draw then adds to it.
const STEP: u64 = 1442695040888963407;

/// How many low bits of the state no draw looks at.
const LOW_BITS: u32 = 33;

/// Draws that are fixed by their first state, seen as the state that the last one left.
#[derive(Drop)]
pub(crate) struct Draws {
    state: u64,
}

impl Model for Draws {
    ghost use Rattle.std.specs.Prelude.{ℕ};

    ghost Value = { ℕ };

    ghost view = { λ d. d.state };
}

impl Draws {
    /// The draws from this first state.
    pub(crate) fn from(state: u64) -> Draws
        ensures { result ≡ state }
    {
        Draws { state }
    }

    /// The next draw from n numbers: one from 0 up to n, without it.
    pub(crate) fn draw(&mut self, n: u64) -> u64
        requires { 0 < n }
        ensures state { self.new ≡ next_state self.old }
        ensures value { result ≡ drawn n self.new }
        ensures below { result < n }
    {
        self.state = self.state.wrapping_mul(FACTOR).wrapping_add(STEP);
        (self.state >> LOW_BITS) % n
    }
}
