//! A world, and how many pairs it has tested.
ghost use Rattle.std.specs.Prelude.{◌≡◌, ◌⊎◌, ◌≤◌, [], replicate, true, IfOk};
ghost use Rattle.mt_base.specs.History.{IsLegal};
ghost use Rattle.mt_read.specs.Bounded.{IsBoundedRequest};
ghost use Rattle.mt_lines.specs.Fit.{IsFit};
ghost use Rattle.mt_world.specs.Counted.{AreTestsAdded, IsUntestedRequest};
ghost use Rattle.mt_world.specs.World.{IsServed, IsStarved, new_actor, with_areas, world_of};

use crate::centre::Centre;
use mt_area::Areas;
use mt_base::{Memory, Tally};
use mt_picture::Picture;
use mt_read::Request;
use mt_write::Reply;
use std::alloc::Global;
use std::marker::Model;
use std::thread::Threads;

/// The world of a script whose picture has begun, seen with the number of pairs that were tested for its commands and probes.
#[derive(Drop)]
pub struct World {
    centre: Centre,
    tests: u64,
}

impl Model for World {
    ghost use Rattle.mt_world.specs.Counted.{Counted};

    ghost Value = { Counted };

    ghost view = { λ w. record { world = w.centre; tests = w.tests } };
}

impl World {
    /// The world of a picture whose history is legal: no area stands, each actor has taken version 0 and has an empty book, and no pair was
    /// tested.
    pub fn make(alloc: Global, picture: Picture) -> Result<World, Memory>
        requires { IsLegal picture.setup picture.history }
        ensures { IfOk result (λ counted. counted ≡ record { world = world_of picture [] (replicate 16 new_actor); tests = 0 }) }
    {
        Ok(World {
            centre: Centre::make(alloc, picture)?,
            tests: 0,
        })
    }

    /// Serves an actor's request: the reply that the definition of a world has for it, and that world after it; or `Memory` is the reply, and
    /// nothing has changed, but that settling may have renewed some flights.
    ///
    /// Actors have the numbers 0 to 15. A line that would set the picture up is refused, as it has begun. A reply that follows a change is short
    /// enough for the room that is taken before the first line. The number of tests never falls, it rises by no more than the request may test, and
    /// it stays as it was where the request neither enters a command nor makes a probe. By a probe it rises by one for each conflict at least.
    pub fn step<R: Threads + Sync>(&mut self, rt: &R, who: u32, request: &Request) -> Reply
        requires who { who ≤ 15 }
        requires bounded { IsBoundedRequest self.old.world.rules request.now }
        ensures served { IsServed self.old.world who request.now result self.new.world ⊎ IsStarved self.old.world who request.now result self.new.world }
        ensures fit { IsFit result }
        ensures counted { self.old.tests ≤ self.new.tests }
        ensures untested { IsUntestedRequest request.now → self.new.tests ≡ self.old.tests }
        ensures tested { AreTestsAdded self.old.world who request.now result self.old.tests self.new.tests }
    {
        let mut tests = Tally::new(rt);
        let reply = self.centre.step(rt, who, request, &mut tests);
        self.tests = self.tests.saturating_add(tests.get());
        reply
    }

    /// The picture, whose history is legal: what is published of it is at each version what every pair tested anew would give. That the picture
    /// has begun is said here too.
    pub fn picture(&self) -> &Picture
        ensures setup { result.now.setup ≡ record { rules = self.now.world.rules; tables = self.now.world.tables } }
        ensures history { result.now.history ≡ self.now.world.history }
        ensures legal { IsLegal result.now.setup result.now.history }
        ensures begun { self.now.world.begun ≡ true }
    {
        self.centre.picture()
    }

    /// The picture, out of the world.
    pub fn into_picture(self) -> Picture
        ensures setup { result.setup ≡ record { rules = self.world.rules; tables = self.world.tables } }
        ensures history { result.history ≡ self.world.history }
        ensures legal { IsLegal result.setup result.history }
    {
        self.centre.into_picture()
    }

    /// How many pairs were tested for commands and probes; those of advice and of checks from nothing are counted apart. At 2^64 - 1 it stays.
    ///
    /// It is no more than what each request may test. A probe was counted once for each of its conflicts at least; of commands no clause says that they
    /// were counted.
    pub fn tests(&self) -> u64
        ensures { result ≡ self.now.tests }
    {
        self.tests
    }

    // Puts these areas in the place of its own, which are given back.
    pub(crate) fn swap_areas(&mut self, areas: &mut Areas)
        ensures { self.new ≡ record self.old { world = with_areas self.old.world areas.old } }
    {
        self.centre.swap_areas(areas);
    }
}
