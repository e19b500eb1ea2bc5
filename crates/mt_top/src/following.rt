//! A line of a standby: it sets the picture up, or the standby answers it.
ghost use Rattle.std.specs.Prelude.{◌≡◌, ◌≤◌, [], false, length};
ghost use Rattle.mt_lines.specs.Fit.{IsFit};
ghost use Rattle.mt_world.specs.Begun.{is_begin};
ghost use Rattle.mt_top.specs.Private.Standby.{IsOneOf, world_shown};
ghost use Rattle.mt_top.specs.Standby.{IsStoodBy, opened};

use crate::answering::{Answers, answer};
use mt_base::Memory;
use mt_standby::Standby;
use mt_wire::{Reply, Scratch};
use mt_world::Script;
use std::alloc::Global;
use std::marker::Model;
use std::thread::Threads;

/// What answers the lines of a standby: a script up to the line that begins the picture, and then the standby of that picture.
#[derive(Drop)]
pub(crate) struct Follower {
    script: Option<Script>,
    standby: Option<Standby>,
}

impl Model for Follower {
    ghost use Rattle.mt_top.specs.Private.Standby.{IsOneOf, world_shown};
    ghost use Rattle.mt_world.specs.World.{World};

    ghost Value = { World };

    ghost view = { λ f. world_shown f.script f.standby };

    ghost invariant = { λ f. IsOneOf f.script f.standby };
}

impl Follower {
    // Answers a line before the picture has begun. Where it begins the picture, the standby of that answers from then on.
    fn set_up<R: Threads + Sync>(
        &mut self,
        rt: &R,
        alloc: Global,
        scratch: &mut Scratch,
        line: &[u8],
    ) -> Reply
        requires short { length line.now ≤ 65536 }
        requires unbegun { self.old.begun ≡ false }
        ensures replied { IsStoodBy self.old line.now result self.new }
        ensures fit { IsFit result }
        ensures begins { (self.new.begun ≡ is_begin result) × (self.new.history ≡ []) }
    {
        let Some(mut script) = self.script.take() else {
            unreachable!()
        };
        let reply = answer(rt, alloc, scratch, &mut script, line);
        let (script, standby) = opened(rt, alloc, script);
        self.script = script;
        self.standby = standby;
        reply
    }
}

// What answers from now on: the script, as long as its picture hasn't begun, and then the standby of that.
fn opened<R: Threads + Sync>(
    rt: &R,
    alloc: Global,
    script: Script,
) -> (Option<Script>, Option<Standby>)
    requires { script.history ≡ [] }
    ensures world_shown { world_shown result.0 result.1 ≡ opened script }
    ensures one { IsOneOf result.0 result.1 }
{
    if !script.has_begun() {
        return (Some(script), None);
    }
    let standby = Standby::make(rt, alloc, script.into_picture());
    (None, Some(standby))
}

impl Answers for Follower {
    ghost world = { λ follower. follower };

    ghost replied = { IsStoodBy };

    fn make(alloc: Global) -> Result<Self, Memory> {
        Ok(Follower {
            script: Some(Script::make(alloc)?),
            standby: None,
        })
    }

    fn has_begun(&self) -> bool {
        match &self.standby {
            Some(_standby) => true,
            None => false,
        }
    }

    fn keeps(&self) {
        if let Some(standby) = &self.standby {
            standby.picture().keeps();
        }
        if let Some(script) = &self.script {
            Answers::keeps(script);
        }
    }

    fn answer<R: Threads + Sync>(
        &mut self,
        rt: &R,
        alloc: Global,
        scratch: &mut Scratch,
        line: &[u8],
    ) -> Reply {
        match &mut self.standby {
            Some(standby) => standby.answer(rt, scratch, line),
            None => self.set_up(rt, alloc, scratch, line),
        }
    }

    fn reply_law(&self) {}
}
