//! The requests of a load run, served one after the other.
ghost use Rattle.std.specs.Prelude.{◌≡◌, ◌<◌, ◌≤◌, ◌+◌, ◌%◌, ◌^◌, All, IfOk, MatchBool, OnOk, nat_eq};
ghost use Rattle.mt_base.specs.declared.rules.Rules.{Rules};
ghost use Rattle.mt_load.specs.Input.{callsign};
ghost use Rattle.mt_read.specs.Bounded.{IsBoundedRequest};
ghost use Rattle.mt_world.specs.World.{IsServed, opening_world};
ghost use Rattle.mt_load.specs.Load.{AreRequestsAnswered, EachDivided, IsAdviceTaken, IsAdvisedFlight, IsAsked, IsDroppedFlight, IsFirstAccepted, IsLoadRun};
ghost use Rattle.mt_load.specs.Private.Load.{HaveProbeNumbers, CanBeNamed, probes_of};

use crate::making::input;
use crate::names::callsign;
use mt_base::{Callsign, Command};
use mt_memory::Memory;
use mt_read::Request;
use mt_world::Script;
use mt_write::{AdviceItem, Reply};
use std::alloc::Global;
use std::thread::Threads;

/// The actor that files flights, drops them and moves the moment.
const FEED: u32 = 0;

/// The actor that asks for advice and accepts it.
const POSITION: u32 = 1;

/// The second that the moment is moved to once flights were advised.
const LAST_TICK: u32 = 120;

// Serves a request.
fn serve<R: Threads + Sync>(
    rt: &R,
    alloc: Global,
    script: &mut Script,
    who: u32,
    request: &Request,
) -> Result<Reply, Memory>
    requires who { who ≤ 15 }
    requires bounded { IsBoundedRequest script.old.rules request.now }
    ensures { IfOk result (λ reply. IsServed script.old who request.now reply script.new) }
{
    match script.serve(rt, alloc, who, request) {
        Reply::Memory => Err(Memory),
        reply => Ok(reply),
    }
}

// Asks for something as an actor, whatever the reply.
fn ask<R: Threads + Sync>(
    rt: &R,
    alloc: Global,
    script: &mut Script,
    who: u32,
    request: &Request,
) -> Result<(), Memory>
    requires who { who ≤ 15 }
    requires bounded { IsBoundedRequest script.old.rules request.now }
    ensures { OnOk result (IsAsked script.old who request.now script.new) }
{
    serve(rt, alloc, script, who, request)?;
    Ok(())
}

// Asks for what an actor requests, in order.
fn ask_all<R: Threads + Sync>(
    rt: &R,
    alloc: Global,
    script: &mut Script,
    who: u32,
    requests: &[Request],
) -> Result<(), Memory>
    requires who { who ≤ 15 }
    requires bounded { (rules : Rules) → All (IsBoundedRequest rules) requests.now }
    ensures { OnOk result (AreRequestsAnswered script.old who requests.now script.new) }
{
    let Some((request, rest)) = requests.split_first() else {
        return Ok(());
    };
    ask(rt, alloc, script, who, request)?;
    ask_all(rt, alloc, script, who, rest)
}

// Accepts the first of some advised clearances.
fn accept_first<R: Threads + Sync>(
    rt: &R,
    alloc: Global,
    script: &mut Script,
    advice: &[AdviceItem],
) -> Result<(), Memory>
    requires { All CanBeNamed advice.now }
    ensures { OnOk result (IsFirstAccepted script.old advice.now script.new) }
{
    let Some((item, _)) = advice.split_first() else {
        return Ok(());
    };
    let probe = item.probe;
    ask(rt, alloc, script, POSITION, &Request::Accept { probe })
}

// Accepts the first clearance that a reply advises.
fn take_advice<R: Threads + Sync>(
    rt: &R,
    alloc: Global,
    script: &mut Script,
    reply: &Reply,
) -> Result<(), Memory>
    requires { HaveProbeNumbers reply.now }
    ensures { OnOk result (IsAdviceTaken script.old reply.now script.new) }
{
    match reply {
        Reply::Advice { advice, .. } => accept_first(rt, alloc, script, advice.items()),
        _ => Ok(()),
    }
}

// Asks for advice for a flight, and accepts the first clearance that is advised.
fn advise<R: Threads + Sync>(
    rt: &R,
    alloc: Global,
    script: &mut Script,
    call: Callsign,
) -> Result<(), Memory>
    requires { probes_of script.old 1 + 16 < 2 ^ 63 }
    ensures { OnOk result (IsAdvisedFlight script.old call script.new) }
{
    ask(rt, alloc, script, POSITION, &Request::Take)?;
    let reply = serve(rt, alloc, script, POSITION, &Request::Advise { call })?;
    take_advice(rt, alloc, script, &reply)
}

// Advises a flight, where 8 divides its number.
fn advise_eighth<R: Threads + Sync>(
    rt: &R,
    alloc: Global,
    script: &mut Script,
    flight: u32,
) -> Result<(), Memory>
    requires flight { flight ≤ 1024 }
    requires probes { probes_of script.old 1 + 16 < 2 ^ 63 }
    ensures { OnOk result (MatchBool (nat_eq (flight % 8) 0) (IsAdvisedFlight script.old (callsign flight) script.new) (script.new ≡ script.old)) }
{
    if flight % 8 != 0 {
        return Ok(());
    }
    advise(rt, alloc, script, callsign(flight))
}

// Advises each flight whose number 8 divides, in order.
fn advise_all<R: Threads + Sync>(
    rt: &R,
    alloc: Global,
    script: &mut Script,
    flights: u32,
) -> Result<(), Memory>
    requires flights { flights ≤ 1024 }
    requires none { probes_of script.old 1 ≡ 0 }
    ensures { OnOk result (EachDivided IsAdvisedFlight 8 flights script.old script.new) }
{
    for flight in 0..flights {
        match advise_eighth(rt, alloc, script, flight) {
            Ok(()) => {}
            Err(Memory) => return Err(Memory),
        }
    }
    Ok(())
}

// Drops a flight, where 5 divides its number.
fn drop_fifth<R: Threads + Sync>(
    rt: &R,
    alloc: Global,
    script: &mut Script,
    flight: u32,
) -> Result<(), Memory>
    requires { flight ≤ 1024 }
    ensures { OnOk result (MatchBool (nat_eq (flight % 5) 0) (IsDroppedFlight script.old (callsign flight) script.new) (script.new ≡ script.old)) }
{
    if flight % 5 != 0 {
        return Ok(());
    }
    let call = callsign(flight);
    ask(
        rt,
        alloc,
        script,
        FEED,
        &Request::Change(Command::Drop { call }),
    )
}

// Drops each flight whose number 5 divides, in order.
fn drop_all<R: Threads + Sync>(
    rt: &R,
    alloc: Global,
    script: &mut Script,
    flights: u32,
) -> Result<(), Memory>
    requires { flights ≤ 1024 }
    ensures { OnOk result (EachDivided IsDroppedFlight 5 flights script.old script.new) }
{
    for flight in 0..flights {
        match drop_fifth(rt, alloc, script, flight) {
            Ok(()) => {}
            Err(Memory) => return Err(Memory),
        }
    }
    Ok(())
}

/// Makes the run, on a script before its first request.
pub(crate) fn drive<R: Threads + Sync>(
    rt: &R,
    alloc: Global,
    script: &mut Script,
    flights: u32,
    number: u64,
) -> Result<(), Memory>
    requires opening { script.old ≡ opening_world }
    requires flights { (1 ≤ flights) × (flights ≤ 1024) }
    ensures { OnOk result (IsLoadRun flights number script.new) }
{
    let requests = input(alloc, flights, number)?;
    ask_all(rt, alloc, script, FEED, &requests)?;
    advise_all(rt, alloc, script, flights)?;
    let tick = Request::Change(Command::Tick { now: LAST_TICK });
    ask(rt, alloc, script, FEED, &tick)?;
    drop_all(rt, alloc, script, flights)
}
