//! A picture that has begun, with its areas and actors, and what each request is answered.
ghost use Rattle.std.specs.Prelude.{◌≡◌, ◌⊎◌, ◌≤◌, ℕ, [], length, replicate, true, All, IfOk};
ghost use Rattle.mt_base.specs.History.{IsLegal};
ghost use Rattle.mt_board.specs.Book.{empty_book};
ghost use Rattle.mt_read.specs.declared.request.Request.TheVariants as requests;
ghost use Rattle.mt_read.specs.Bounded.{IsBoundedRequest};
ghost use Rattle.mt_lines.specs.Fit.{IsFit};
ghost use Rattle.mt_world.specs.Counted.{IsUntestedRequest, WereTestsOf};
ghost use Rattle.mt_world.specs.World.{IsServed, IsStarved, new_actor, with_areas, world_of};

use crate::actor::Actor;
use crate::reading::tell;
use mt_area::Areas;
use mt_base::{Memory, Tally};
use mt_board::Ask;
use mt_picture::Picture;
use mt_probe::Snapshot;
use mt_read::Request;
use mt_write::{DoneWord, Reply};
use std::alloc::Global;
use std::marker::Model;
use std::mem;
use std::thread::Threads;

/// How many actors a script has.
const ACTORS: usize = 16;

/// A kept picture, the restricted areas, and the actors.
#[derive(Drop)]
pub(crate) struct Centre {
    pub(crate) alloc: Global,
    pub(crate) picture: Picture,
    pub(crate) areas: Areas,
    pub(crate) actors: Vec<Actor>,
}

impl Model for Centre {
    ghost use Rattle.std.specs.Prelude.{map};
    ghost use Rattle.mt_world.specs.Private.Sound.{IsSoundWorld, actor_shown};
    ghost use Rattle.mt_world.specs.World.{World, world_of};

    ghost Value = { World };

    ghost view = { λ c. world_of c.picture c.areas (map actor_shown c.actors.items) };

    ghost invariant = { λ c. IsSoundWorld c.picture c.actors.items };
}

// The actors as they are at first, each with this snapshot taken.
fn new_actors(alloc: Global, taken: &Snapshot) -> Result<Vec<Actor>, Memory>
    ensures { IfOk result (λ actors. (length actors.items ≡ 16)
        × All (λ actor. (actor.taken ≡ taken.now) × (actor.book ≡ empty_book)) actors.items) }
{
    let mut actors = Vec::new(alloc);
    while actors.len() < ACTORS {
        actors.push(Actor::make(alloc, taken)?)?;
    }
    Ok(actors)
}

impl Centre {
    /// That of a picture whose history is legal: no area stands, and each actor has taken version 0 and has an empty book.
    pub(crate) fn make(alloc: Global, picture: Picture) -> Result<Centre, Memory>
        requires { IsLegal picture.setup picture.history }
        ensures { IfOk result (λ centre. centre ≡ world_of picture [] (replicate 16 new_actor)) }
    {
        let opening = picture.snapshot()?.reopened()?;
        let areas = Areas::make(alloc)?;
        let actors = new_actors(alloc, &opening)?;
        Ok(Centre {
            alloc,
            picture,
            areas,
            actors,
        })
    }

    /// Serves an actor's request, and counts its tests; those of advice and of a check from nothing are not among them.
    pub(crate) fn step<R: Threads + Sync>(
        &mut self,
        rt: &R,
        who: u32,
        request: &Request,
        tests: &mut Tally,
    ) -> Reply
        requires who { who ≤ 15 }
        requires bounded { IsBoundedRequest self.old.rules request.now }
        ensures served { IsServed self.old who request.now result self.new ⊎ IsStarved self.old who request.now result self.new }
        ensures fit { IsFit result }
        ensures untested { IsUntestedRequest request.now → tests.new ≡ tests.old }
        ensures tested { WereTestsOf self.old who request.now result tests.old tests.new }
    {
        self.keeps();
        match request {
            Request::Fix { .. } => Reply::Begun,
            Request::TypeLine { .. } => Reply::Begun,
            Request::Rule(_) => Reply::Begun,
            Request::Area(_) => Reply::Begun,
            Request::Begin => Reply::Begun,
            Request::Hello(role) => Reply::Hello(*role),
            Request::Bye => Reply::Done(DoneWord::Bye),
            Request::Ask(ask) => self.tell(rt, ask),
            Request::Change(command) => self.change(who, command, tests),
            Request::Take => self.take(who),
            Request::Probe {
                call,
                clearance,
                eff,
            } => self.probe(who, *call, *clearance, *eff, tests),
            Request::Accept { probe } => self.accept(who, *probe, tests),
            Request::Advise { call } => self.advise(rt, who, *call),
            Request::Settle => self.settle(who, tests),
            Request::Areas => self.pass(rt),
        }
    }

    // Tells what is asked for, at the version now.
    fn tell<R: Threads + Sync>(&self, rt: &R, ask: &Ask) -> Reply
        ensures told { (who : ℕ) → IsServed self.now who (requests.Ask ask.now) result self.now
            ⊎ IsStarved self.now who (requests.Ask ask.now) result self.now }
        ensures fit { IsFit result }
    {
        tell(rt, self.alloc, &self.picture, ask)
    }

    /// The picture, whose history is legal.
    pub(crate) fn picture(&self) -> &Picture
        ensures setup { result.now.setup ≡ record { rules = self.now.rules; tables = self.now.tables } }
        ensures history { result.now.history ≡ self.now.history }
        ensures legal { IsLegal result.now.setup result.now.history }
        ensures begun { self.now.begun ≡ true }
    {
        &self.picture
    }

    /// The picture, taken out.
    pub(crate) fn into_picture(self) -> Picture
        ensures setup { result.setup ≡ record { rules = self.rules; tables = self.tables } }
        ensures history { result.history ≡ self.history }
        ensures legal { IsLegal result.setup result.history }
    {
        self.picture
    }

    /// Puts these areas in the place of its own, which are given back.
    pub(crate) fn swap_areas(&mut self, areas: &mut Areas)
        ensures { self.new ≡ with_areas self.old areas.old }
    {
        mem::swap(&mut self.areas, areas);
    }

    // The number of entries.
    pub(crate) fn version(&self) -> u64
        ensures { result ≡ length self.now.history }
    {
        self.picture.version()
    }

    // The picture has begun. It does nothing.
    fn keeps(&self)
        ensures { self.now.begun ≡ true }
    {
        self.picture();
    }
}
