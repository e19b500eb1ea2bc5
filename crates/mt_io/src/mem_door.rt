//! A door in memory.
ghost use Rattle.std.specs.Prelude.{◌≡◌, ◌<◌, ◌≤◌, ◌↔◌, ◌+◌, ◌-◌, [], ◌∷◌, IfOk, IsErr, MatchResult, Some, vec_len, vec_capacity};
ghost use Rattle.std.specs.VecDeque.{deque_len};
ghost use Rattle.mt_io.specs.Calls.{CountsCall, IsNextListed, listing};
ghost use Rattle.mt_io.specs.Causes.{HasCause};
ghost use Rattle.mt_io.specs.Door.{Gains, GivesLink, listened, took_one};

use crate::calls::FaultPlan;
use crate::door::Door;
use crate::mem_link::MemLink;
use crate::source::Failed;
use mt_memory::Memory;
use std::alloc::Global;
use std::collections::VecDeque;

/// Links in memory, in the order in which they are given, and room for all that come back. It listens at any port. Its calls of `listen`
/// and `next_link` are counted together. Such a call fails where it is one of those that are to fail, and, where some session is still to
/// come, with no link left to give; as it is made, none is to fail. Where all links were given, the next one is none, even if that call is
/// to fail.
#[derive(Drop)]
pub struct MemDoor {
    links: VecDeque<MemLink>,
    backs: Vec<MemLink>,
    port: u16,
    sessions: u32,
    given: u32,
    back: u32,
    calls: FaultPlan,
    ghost room: { vec_len backs + (given - back) + deque_len links ≤ vec_capacity backs },
    ghost some: { back ≤ given },
    ghost most: { given ≤ sessions },
}

impl MemDoor {
    ghost use Rattle.mt_io.specs.MemDoor.{calls_of};

    /// A new door: it has these links still to give, none that is back, has not listened and has counted no fault. No call of
    /// it is to fail. It takes all its memory here.
    pub fn make(alloc: Global, links: Vec<MemLink>) -> Result<MemDoor, Memory>
        ensures still { IfOk result (λ door. ⟦<MemDoor as Door>⟧.still door ≡ Some links.items) }
        ensures returned { IfOk result (λ door. ⟦<MemDoor as Door>⟧.returned door ≡ Some []) }
        ensures new { IfOk result (λ door. ⟦<MemDoor as Door>⟧.count door ≡ listened 0 0) }
        ensures sound { IfOk result (λ door. ⟦<MemDoor as Door>⟧.faults door ≡ 0) }
        ensures calls { IfOk result (λ door. calls_of door ≡ listing []) }
    {
        let backs = Vec::with_capacity(alloc, links.len())?;
        Ok(MemDoor {
            links: VecDeque::from(links),
            backs,
            port: 0,
            sessions: 0,
            given: 0,
            back: 0,
            calls: FaultPlan::listing(Vec::new(alloc)),
        })
    }

    /// The same door, not used yet, but that these calls fail, counted from 1. It takes no memory.
    pub fn failing(mut self, calls: Vec<u64>) -> MemDoor
        requires { (calls_of self).made ≡ 0 }
        ensures still { ⟦<MemDoor as Door>⟧.still result ≡ ⟦<MemDoor as Door>⟧.still self }
        ensures returned { ⟦<MemDoor as Door>⟧.returned result ≡ ⟦<MemDoor as Door>⟧.returned self }
        ensures count { ⟦<MemDoor as Door>⟧.count result ≡ ⟦<MemDoor as Door>⟧.count self }
        ensures calls { calls_of result ≡ listing calls.items }
    {
        self.calls = FaultPlan::listing(calls);
        self
    }

    /// The links that are back, in order.
    pub fn returned(&self) -> &[MemLink]
        ensures { Some result.now ≡ ⟦<MemDoor as Door>⟧.returned self.now }
    {
        &self.backs
    }
}

impl Door for MemDoor {
    ghost use Rattle.mt_io.specs.MemDoor.{RefusesLink, calls_of};

    type Link = MemLink;

    ghost count = { λ d. record { port = d.port; sessions = d.sessions; given = d.given; back = d.back } };

    ghost still = { λ d. Some d.links.items };

    ghost returned = { λ d. Some d.backs.items };

    ghost faults = { λ d. d.calls.failed };

    fn door_faults(&self) -> u64 {
        self.calls.failed()
    }

    /// It listens at any port, and fails exactly where the call is one of those that are to fail.
    fn listen(&mut self, port: u16, sessions: u32) -> Result<(), Failed>
        ensures count { MatchResult result (λ _. ⟦<MemDoor as Door>⟧.count self.new ≡ listened port sessions) (λ _. ⟦<MemDoor as Door>⟧.count self.new ≡ ⟦<MemDoor as Door>⟧.count self.old) }
        ensures links { (⟦<MemDoor as Door>⟧.still self.new ≡ ⟦<MemDoor as Door>⟧.still self.old) × (⟦<MemDoor as Door>⟧.returned self.new ≡ ⟦<MemDoor as Door>⟧.returned self.old) }
        ensures fails { IsErr result ↔ IsNextListed (calls_of self.old) }
        ensures counts { CountsCall (calls_of self.old) (calls_of self.new) result }
        ensures cause { HasCause (⟦<MemDoor as Door>⟧.faults self.old) (⟦<MemDoor as Door>⟧.faults self.new) result }
    {
        if self.calls.next_fails() {
            return Err(Failed);
        }
        self.port = port;
        self.back = 0;
        self.given = 0;
        self.sessions = sessions;
        Ok(())
    }

    /// It fails exactly where a link is still to be given, and the call is one of those that are to fail, or no link is left.
    fn next_link(&mut self) -> Result<Option<MemLink>, Failed>
        ensures gives { GivesLink (⟦<MemDoor as Door>⟧.count self.old) (⟦<MemDoor as Door>⟧.count self.new) (⟦<MemDoor as Door>⟧.still self.old) (⟦<MemDoor as Door>⟧.still self.new) result }
        ensures back { ⟦<MemDoor as Door>⟧.returned self.new ≡ ⟦<MemDoor as Door>⟧.returned self.old }
        ensures fails { IsErr result ↔ RefusesLink self.old }
        ensures counts { CountsCall (calls_of self.old) (calls_of self.new) result }
        ensures cause { HasCause (⟦<MemDoor as Door>⟧.faults self.old) (⟦<MemDoor as Door>⟧.faults self.new) result }
    {
        if self.given == self.sessions {
            self.calls.pass();
            return Ok(None);
        }
        if !self.calls.next_fails() {
            if let Some(link) = self.links.pop_front() {
                self.given += 1;
                return Ok(Some(link));
            }
            self.calls.fail();
        }
        Err(Failed)
    }

    fn back(&mut self, link: MemLink)
        requires { (⟦<MemDoor as Door>⟧.count self.old).back < (⟦<MemDoor as Door>⟧.count self.old).given }
        ensures count { ⟦<MemDoor as Door>⟧.count self.new ≡ took_one (⟦<MemDoor as Door>⟧.count self.old) }
        ensures still { ⟦<MemDoor as Door>⟧.still self.new ≡ ⟦<MemDoor as Door>⟧.still self.old }
        ensures returned { Gains (⟦<MemDoor as Door>⟧.returned self.old) (⟦<MemDoor as Door>⟧.returned self.new) (link ∷ []) }
        ensures calls { calls_of self.new ≡ calls_of self.old }
        ensures faults { ⟦<MemDoor as Door>⟧.faults self.old ≤ ⟦<MemDoor as Door>⟧.faults self.new }
    {
        self.back += 1;
        self.backs.push_reserved(link);
    }
}
