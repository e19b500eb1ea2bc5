//! A load run, and its summary.
ghost use Rattle.std.specs.Prelude.{◌≡◌, ◌≤◌, IfOk, true};
ghost use Rattle.mt_load.specs.Summary.{IsLoaded, IsSummary};

use crate::again::again;
use crate::driving::drive;
use crate::summary::Summary;
use mt_memory::Memory;
use mt_picture::sizes_of;
use mt_world::Script;
use std::alloc::Global;
use std::thread::Threads;

// The summary of a script whose picture has begun.
fn sum_up<R: Threads + Sync>(rt: &R, alloc: Global, script: &Script) -> Result<Summary, Memory>
    requires { script.now.begun ≡ true }
    ensures { IfOk result (IsSummary script.now) }
{
    let Some(world) = script.world() else {
        unreachable!()
    };
    let picture = world.picture();
    // (Each entry is complete, so what is printed is read back.)
    picture.keeps();
    let tables = script.tables()?;
    let again = again(rt, alloc, picture, tables)?;
    let held = sizes_of(picture);
    Ok(Summary {
        again,
        conflicts: held.conflicts,
        entries: held.entries,
        flights: held.flights,
        tests: world.tests(),
    })
}

/// Makes the load run of so many flights, 1 to 1,024, and a number, and sums it up.
///
/// Actor 0 makes the input: it sets fixes and a type, begins, files the flights and moves the moment to second 60, by the definition `inputs`.
/// Then, for each flight whose number 8 divides, actor 1 takes the version now, asks for advice and accepts the first clearance that is advised.
/// Actor 0 moves the moment to second 120 and drops each flight whose number 5 divides. Then the history is printed, read back and rebuilt. The
/// definition is `IsLoaded`. It says nothing of the number of pair tests; all else is the same at each call, by
/// [`one_summary_law`](crate::one_summary_law).
///
/// The error is want of memory, wherever it is, and nothing else.
pub fn load<R: Threads + Sync>(
    rt: &R,
    alloc: Global,
    flights: u32,
    number: u64,
) -> Result<Summary, Memory>
    requires { (1 ≤ flights) × (flights ≤ 1024) }
    ensures { IfOk result (IsLoaded flights number) }
{
    let mut script = Script::make(alloc)?;
    drive(rt, alloc, &mut script, flights, number)?;
    sum_up(rt, alloc, &script)
}
