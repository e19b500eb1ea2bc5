//! What a line is answered.
ghost use Rattle.std.specs.Prelude.{◌≡◌, ◌⊎◌, ◌≤◌, length};
ghost use Rattle.std.specs.Thread.{IsSync};
ghost use Rattle.mt_base.specs.Bounds.{IsAskedFor, IsBoundedCommand};
ghost use Rattle.mt_base.specs.Rules.{usual_rules};
ghost use Rattle.mt_lines.specs.Fit.{IsFit};
ghost use Rattle.mt_read.specs.Bounded.{IsBoundedRequest};
ghost use Rattle.mt_read.specs.declared.request.Request.TheVariants.{Change};
ghost use Rattle.mt_write.specs.declared.reply.Reply.TheVariants as replies;
ghost use Rattle.mt_session.specs.Following.{job_if, job_of};
ghost use Rattle.mt_session.specs.Private.Keeping.{StaysOn};
ghost use Rattle.mt_session.specs.Served.{IsCommanded, IsNotOfSessions, IsLooked, IsRepliedTo, IsServedInSession, IsStarvedInSession};
ghost use Rattle.mt_session.specs.Private.Served.{IsNoChange};
ghost use Rattle.mt_session.specs.Session.{Session, asked_in_role, role_sender};

use crate::following::{due_if, reported};
use crate::serving::Serving;
use mt_base::{Callsign, Command, Memory, Role, Rules};
use mt_board::Board;
use mt_io::Gate;
use mt_lines::{refused, unread};
use mt_wire::{DoneWord, FieldName, Reply, Request, Scratch, Sender, read_line};
use std::alloc::Global;
use std::sync::Wait;
use std::thread::Threads;

// The refusal of a command that no session has.
fn foreign(alloc: Global) -> Reply
    ensures refused { (s : Session) → IsNotOfSessions s result s ⊎ IsLooked s result s }
    ensures fit { IsFit result }
{
    match FieldName::of(alloc, b"do") {
        Ok(name) => Reply::Form(name),
        Err(Memory) => Reply::Memory,
    }
}

impl<B: Board> Serving<B> {
    // Where its lines come from.
    fn sender(&self) -> Sender
        ensures { result ≡ role_sender self.now.session.role }
    {
        match self.role {
            None => Sender::Plain,
            Some(Role::Feed) => Sender::Feed,
            Some(Role::Position) => Sender::Position,
        }
    }

    /// Answers a line of at most 65,536 bytes; and the flight that is to be renewed once the reply is written.
    pub fn answer<R: Threads + Wait + Sync, G: Gate>(
        &mut self,
        rt: &R,
        alloc: Global,
        scratch: &mut Scratch,
        line: &[u8],
        gate: &G,
    ) -> (Reply, Option<Callsign>)
        requires sync { IsSync R.row }
        requires short { length line.now ≤ 65536 }
        ensures replied { IsRepliedTo self.old.session line.now result.0 self.new.session }
        ensures job { result.1 ≡ job_of (asked_in_role self.old.session.role line.now) result.0 }
        ensures on { StaysOn self.old self.new }
        ensures fit { IsFit result.0 }
    {
        match read_line(alloc, scratch, line, self.sender(), &Rules::usual()) {
            Ok((_, request)) => self.serve(rt, alloc, request, gate),
            Err(no) => (unread(no), None),
        }
    }

    // Serves a request; and the flight that is to be renewed then.
    fn serve<R: Threads + Wait + Sync, G: Gate>(
        &mut self,
        rt: &R,
        alloc: Global,
        request: Request,
        gate: &G,
    ) -> (Reply, Option<Callsign>)
        requires sync { IsSync R.row }
        requires bounded { IsBoundedRequest usual_rules request }
        ensures served { IsServedInSession self.old.session request result.0 self.new.session ⊎ IsStarvedInSession self.old.session request result.0 self.new.session }
        ensures job { result.1 ≡ job_if request result.0 }
        ensures on { StaysOn self.old self.new }
        ensures fit { IsFit result.0 }
    {
        match request {
            Request::Change(command) => self.command(rt, command, gate),
            request => (self.reply_to(rt, alloc, &request, gate), None),
        }
    }

    // Serves a request that is no change.
    fn reply_to<R: Threads + Wait + Sync, G: Gate>(
        &mut self,
        rt: &R,
        alloc: Global,
        request: &Request,
        gate: &G,
    ) -> Reply
        requires sync { IsSync R.row }
        requires bounded { IsBoundedRequest usual_rules request.now }
        requires other { IsNoChange request.now }
        ensures served { IsServedInSession self.old.session request.now result self.new.session ⊎ IsStarvedInSession self.old.session request.now result self.new.session }
        ensures on { StaysOn self.old self.new }
        ensures fit { IsFit result }
    {
        match request {
            Request::Hello(role) => self.hello(*role),
            Request::Bye => Reply::Done(DoneWord::Bye),
            Request::Probe {
                call,
                clearance,
                eff,
            } => self.probe(rt, alloc, *call, *clearance, *eff, gate),
            Request::Accept { probe } => self.accept(rt, *probe, gate),
            Request::Advise { call } => self.advise(rt, alloc, *call, gate),
            Request::Settle => self.settle(rt, gate),
            Request::Ask(ask) => self.tell(rt, ask),
            _ => foreign(alloc),
        }
    }

    // Takes a role.
    fn hello(&mut self, role: Role) -> Reply
        ensures replied { result ≡ replies.Hello role }
        ensures taken { self.new.session ≡ record self.old.session { role = Some role } }
        ensures on { StaysOn self.old self.new }
    {
        self.role = Some(role);
        Reply::Hello(role)
    }

    // Asks for a command; and the flight that is to be renewed then, that of a report with a flag.
    fn command<R: Threads + Wait + Sync, G: Gate>(
        &mut self,
        rt: &R,
        command: Command,
        gate: &G,
    ) -> (Reply, Option<Callsign>)
        requires sync { IsSync R.row }
        requires bounded { IsBoundedCommand command }
        requires asked_for { IsAskedFor command }
        ensures commanded { IsCommanded self.old.session command result.0 self.new.session }
        ensures job { result.1 ≡ job_if (Change command) result.0 }
        ensures on { StaysOn self.old self.new }
        ensures fit { IsFit result.0 }
    {
        let call = reported(&command);
        match self.change(rt, command, gate) {
            Ok(entered) => {
                let job = due_if(call, entered.verdict);
                (Reply::Entered(entered), job)
            }
            Err(no) => (refused(no), None),
        }
    }
}
