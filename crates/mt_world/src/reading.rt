//! What is told of a picture, at the version now.
ghost use Rattle.std.specs.Prelude.{◌≡◌, ◌⊎◌, ℕ, List, option_map, IfErr, IfOk};
ghost use Rattle.mt_base.specs.declared.area.Area.{Area};
ghost use Rattle.mt_base.specs.Effect.{state_of};
ghost use Rattle.mt_base.specs.Picture.{flight_of};
ghost use Rattle.mt_base.specs.View.{view_of};
ghost use Rattle.mt_board.specs.declared.ask.Ask.TheVariants as asks;
ghost use Rattle.mt_read.specs.declared.request.Request.TheVariants as requests;
ghost use Rattle.mt_write.specs.declared.reply.Reply.TheVariants as replies;
ghost use Rattle.mt_lines.specs.Fit.{IsFit};
ghost use Rattle.mt_world.specs.Reading.{IsToldNow, IsUntold};
ghost use Rattle.mt_world.specs.World.{Actor, IsRefused, IsServed, world_of};

use mt_base::{Callsign, Conflicts, Entries, FlightView, Refusal, Second, Tally};
use mt_board::{Answer, Ask, No};
use mt_lines::told;
use mt_memory::Memory;
use mt_picture::Picture;
use mt_snapshot::{check, due, view_of_call};
use mt_write::Reply;
use std::alloc::Global;
use std::thread::Threads;

/// The reply to a read: that of each world of this picture, whoever asks; or `Memory`.
pub fn tell<R: Threads + Sync>(rt: &R, alloc: Global, picture: &Picture, ask: &Ask) -> Reply
    ensures told { (areas : List Area) (actors : List Actor) (who : ℕ)
        → IsServed (world_of picture.now areas actors) who (requests.Ask ask.now) result (world_of picture.now areas actors)
        ⊎ IsRefused (world_of picture.now areas actors) replies.Memory result (world_of picture.now areas actors) }
    ensures fit { IsFit result }
{
    told(read(rt, alloc, picture, ask))
}

/// Tells what is asked for, at the version now. It is refused exactly where a flight is asked for and there is none of that callsign.
pub fn read<R: Threads + Sync>(
    rt: &R,
    alloc: Global,
    picture: &Picture,
    ask: &Ask,
) -> Result<Answer, No>
    ensures told { IfOk result (IsToldNow picture.now ask.now) }
    ensures untold { IfErr result (IsUntold picture.now ask.now) }
{
    match ask {
        Ask::List => list(alloc, picture),
        Ask::Check => check_all(rt, alloc, picture),
        Ask::Due => all_due(alloc, picture),
        Ask::Flight { call, sec } => flight(picture, *call, *sec),
        Ask::History { from, to } => entries(alloc, picture, *from, *to),
    }
}

// What is published of the history, as it is kept.
fn list(alloc: Global, picture: &Picture) -> Result<Answer, No>
    ensures told { IfOk result (IsToldNow picture.now asks.List) }
    ensures untold { IfErr result (IsUntold picture.now asks.List) }
{
    Ok(Answer::List {
        conflicts: Conflicts::of_items(alloc, picture.published())?,
        version: picture.version(),
    })
}

// What is published of the history, each pair of trajectories tested anew, on a tally that nobody reads.
fn check_all<R: Threads + Sync>(rt: &R, alloc: Global, picture: &Picture) -> Result<Answer, No>
    ensures told { IfOk result (IsToldNow picture.now asks.Check) }
    ensures untold { IfErr result (IsUntold picture.now asks.Check) }
{
    let mut tests = Tally::new(rt);
    let snapshot = picture.snapshot()?;
    Ok(Answer::Check {
        conflicts: check(alloc, &snapshot, &mut tests)?,
        version: picture.version(),
    })
}

// The flights that are due.
fn all_due(alloc: Global, picture: &Picture) -> Result<Answer, No>
    ensures told { IfOk result (IsToldNow picture.now asks.Due) }
    ensures untold { IfErr result (IsUntold picture.now asks.Due) }
{
    let snapshot = picture.snapshot()?;
    Ok(Answer::Due {
        calls: due(alloc, &snapshot)?,
        version: picture.version(),
    })
}

// What is told of a flight.
fn flight(picture: &Picture, call: Callsign, sec: Option<Second>) -> Result<Answer, No>
    ensures told { IfOk result (IsToldNow picture.now (asks.Flight call sec)) }
    ensures untold { IfErr result (IsUntold picture.now (asks.Flight call sec)) }
{
    let viewed = viewed(picture, call, sec)?;
    match viewed {
        Some(view) => Ok(Answer::Flight(view)),
        None => Err(No::Refused {
            refusal: Refusal::UnknownCall(call),
            version: picture.version(),
        }),
    }
}

// The view of a flight, where there is one of that callsign.
fn viewed(
    picture: &Picture,
    call: Callsign,
    sec: Option<Second>,
) -> Result<Option<FlightView>, Memory>
    ensures { IfOk result (λ told. told ≡ option_map (view_of picture.now.setup (state_of picture.now.setup picture.now.history) sec)
        (flight_of (state_of picture.now.setup picture.now.history).records call)) }
{
    Ok(view_of_call(&picture.snapshot()?, call, sec))
}

// Some entries of the history.
fn entries(alloc: Global, picture: &Picture, from: u64, to: u64) -> Result<Answer, No>
    ensures told { IfOk result (IsToldNow picture.now (asks.History from to)) }
    ensures untold { IfErr result (IsUntold picture.now (asks.History from to)) }
{
    Ok(Answer::History {
        entries: Entries::part(alloc, picture.entries(), from, to)?,
        version: picture.version(),
    })
}
