//! Lines on restricted areas: what is told of them, and why one is not added.
ghost use Rattle.std.specs.Prelude.{◌≡◌, ◌⊎◌, IfOk, false};
ghost use Rattle.mt_base.specs.Pierced.{ArePierced};
ghost use Rattle.mt_write.specs.declared.reply.Reply.TheVariants as replies;
ghost use Rattle.mt_lines.specs.Fit.{IsFit};
ghost use Rattle.mt_world.specs.Begun.{is_begin};
ghost use Rattle.mt_world.specs.Private.Unadded.{area_refusal};
ghost use Rattle.mt_world.specs.World.{AreAreasTold, IsRefused, picture_of, setup_of};

use crate::centre::Centre;
use mt_area::{AreaNo, pierced};
use mt_base::{FixName, Memory, Pierces};
use mt_snapshot::roster_of;
use mt_write::Reply;
use std::thread::Threads;

impl Centre {
    /// Tells which trajectories pass through which areas in the window.
    pub(crate) fn pass<R: Threads + Sync>(&self, rt: &R) -> Reply
        ensures told { AreAreasTold self.now result self.now ⊎ IsRefused self.now replies.Memory result self.now }
        ensures fit { IsFit result }
    {
        match self.passages(rt) {
            Ok(areas) => Reply::Areas {
                areas,
                version: self.version(),
            },
            Err(Memory) => Reply::Memory,
        }
    }

    // Each passage of a trajectory through one of the areas, in the window, in order.
    fn passages<R: Threads + Sync>(&self, rt: &R) -> Result<Pierces, Memory>
        ensures { IfOk result (ArePierced (setup_of self.now) (picture_of self.now) self.now.areas) }
    {
        let snapshot = self.picture.snapshot()?;
        let roster = roster_of(self.alloc, &snapshot)?;
        pierced(rt, self.alloc, &self.areas, &roster, snapshot.now())
    }
}

/// The refusal of a line that adds an area of that name.
pub(crate) fn area_not_added(name: FixName, refusal: AreaNo) -> Reply
    ensures answer { result ≡ area_refusal name refusal }
    ensures fit { IsFit result }
    ensures stays { is_begin result ≡ false }
{
    match refusal {
        AreaNo::Taken => Reply::TakenFix(name),
        AreaNo::Shape => Reply::Shape,
        AreaNo::Full => Reply::AreasFull,
        AreaNo::Memory => Reply::Memory,
    }
}
