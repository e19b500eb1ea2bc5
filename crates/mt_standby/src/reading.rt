//! What is told of the picture that follows.
ghost use Rattle.std.specs.Prelude.{IfErr, IfOk};
ghost use Rattle.mt_world.specs.Reading.{IsToldNow, IsUntold};

use crate::standby::Standby;
use mt_board::{Answer, Ask, No};
use std::thread::Threads;

impl Standby {
    /// Tells what is asked for, at the version now. It is refused exactly where a flight is asked for and there is none of that callsign.
    pub fn read<R: Threads + Sync>(&self, rt: &R, ask: &Ask) -> Result<Answer, No>
        ensures told { IfOk result (IsToldNow self.now ask.now) }
        ensures untold { IfErr result (IsUntold self.now ask.now) }
    {
        mt_world::read(rt, self.alloc, &self.picture, ask)
    }
}
