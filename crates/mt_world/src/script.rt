//! A script: what each request is answered, and the world that it leaves.
ghost use Rattle.std.specs.Prelude.{◌≡◌, ◌⊎◌, ◌≤◌, [], All, IfOk, MatchOption, None, false, true};
ghost use Rattle.std.specs.Arc.{arc_value};
ghost use Rattle.mt_base.specs.Bounds.{AreWithinBounds};
ghost use Rattle.mt_base.specs.Complete.{IsComplete};
ghost use Rattle.mt_read.specs.Bounded.{IsBoundedRequest};
ghost use Rattle.mt_lines.specs.Fit.{IsFit};
ghost use Rattle.mt_world.specs.Begun.{is_begin};
ghost use Rattle.mt_world.specs.World.{IsServed, IsStarved, opening_world};

use crate::setting::Setting;
use crate::world::World;
use mt_base::{Memory, Rules};
use mt_picture::Picture;
use mt_read::Request;
use mt_tables::Tables;
use mt_write::{DoneWord, Reply};
use std::alloc::Global;
use std::marker::Model;
use std::mem::replace;
use std::sync::Arc;
use std::thread::Threads;

/// What a script has come to.
#[derive(Drop)]
pub(crate) enum Stage {
    /// What was set up.
    Setting(Setting),
    /// The world of the picture that has begun, and its tables.
    Begun(Arc<Tables>, World),
}

/// A script, seen as its world: what was set up, and once the picture has begun the world of that picture.
#[derive(Drop)]
pub struct Script {
    stage: Stage,
}

impl Model for Script {
    ghost use Rattle.mt_world.specs.Private.Stage.{IsStageSound, stage_world};
    ghost use Rattle.mt_world.specs.World.{World};

    ghost Value = { World };

    ghost view = { λ s. stage_world s.stage };

    ghost invariant = { λ s. IsStageSound s.stage };
}

impl Script {
    /// The script before its first request.
    pub fn make(alloc: Global) -> Result<Script, Memory>
        ensures { IfOk result (λ script. script ≡ opening_world) }
    {
        Ok(Script {
            stage: Stage::Setting(Setting::make(alloc)?),
        })
    }

    /// The rules that stand. That the history is empty before the picture has begun is said here too.
    pub fn rules(&self) -> Rules
        ensures rules { result ≡ self.now.rules }
        ensures bounded { AreWithinBounds result }
        ensures empty { self.now.begun ≡ false → self.now.history ≡ [] }
    {
        match &self.stage {
            Stage::Setting(setting) => setting.rules(),
            Stage::Begun(_, world) => world.picture().rules(),
        }
    }

    /// The history is empty before the picture has begun, and each of its entries is complete. It does nothing.
    pub fn keeps(&self)
        ensures empty { self.now.begun ≡ false → self.now.history ≡ [] }
        ensures complete { All IsComplete self.now.history }
    {
        match &self.stage {
            Stage::Setting(setting) => setting.keeps(),
            Stage::Begun(_, world) => world.picture().keeps(),
        }
    }

    /// The tables that stand. They are shared and not copied.
    pub fn tables(&self) -> Result<Arc<Tables>, Memory>
        ensures { IfOk result (λ tables. arc_value tables ≡ self.now.tables) }
    {
        match &self.stage {
            Stage::Setting(setting) => setting.tables(),
            Stage::Begun(tables, _) => Ok(Arc::try_clone(tables)?),
        }
    }

    /// The world; none exactly where the picture hasn't begun.
    pub fn world(&self) -> Option<&World>
        ensures { MatchOption result (self.now.begun ≡ false) (λ world. world.now.world ≡ self.now) }
    {
        match &self.stage {
            Stage::Setting(setting) => {
                setting.keeps();
                None
            }
            Stage::Begun(_, world) => Some(world),
        }
    }

    /// Whether the picture has begun.
    pub fn has_begun(&self) -> bool
        ensures { result ≡ self.now.begun }
    {
        match &self.stage {
            Stage::Setting(setting) => {
                setting.keeps();
                false
            }
            Stage::Begun(_, world) => {
                world.picture();
                true
            }
        }
    }

    /// The picture, out of the script. It asks for a picture that has begun.
    pub fn into_picture(self) -> Picture
        requires { self.begun ≡ true }
        ensures setup { result.setup ≡ record { rules = self.rules; tables = self.tables } }
        ensures history { result.history ≡ self.history }
    {
        match self.stage {
            Stage::Begun(_, world) => world.into_picture(),
            Stage::Setting(setting) => {
                setting.keeps();
                unreachable!()
            }
        }
    }

    /// Serves an actor's request, of one of the numbers 0 to 15: the reply that the definition of a world has for it, and that world after it; or
    /// `Memory` is the reply, and nothing has changed, but that settling may have renewed some flights. A reply that follows a change is short
    /// enough for the room that is taken before the first line. Before the picture has begun its history stays empty, and it begins exactly
    /// where `begin` is answered so.
    pub fn serve<R: Threads + Sync>(
        &mut self,
        rt: &R,
        alloc: Global,
        who: u32,
        request: &Request,
    ) -> Reply
        requires who { who ≤ 15 }
        requires bounded { IsBoundedRequest self.old.rules request.now }
        ensures served { IsServed self.old who request.now result self.new ⊎ IsStarved self.old who request.now result self.new }
        ensures fit { IsFit result }
        ensures begins { self.old.begun ≡ false → (self.new.begun ≡ is_begin result) × (self.new.history ≡ []) }
    {
        match &mut self.stage {
            Stage::Begun(_, world) => {
                world.picture();
                world.step(rt, who, request)
            }
            Stage::Setting(setting) => match request {
                Request::Begin => match setting.world(alloc) {
                    Ok((tables, world)) => {
                        drop(replace(&mut self.stage, Stage::Begun(tables, world)));
                        Reply::Done(DoneWord::Begin)
                    }
                    Err(Memory) => Reply::Memory,
                },
                _ => setting.serve(alloc, request),
            },
        }
    }
}
