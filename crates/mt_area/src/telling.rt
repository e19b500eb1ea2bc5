ghost use Rattle.std.specs.Prelude.{◌≡◌, ◌≤◌, ◌<◌, length, slice_index_or, IfOk, OnOk, All, Contains, ◌↔◌};
ghost use Rattle.mt_base.specs.Area.{IsBoundedArea};
ghost use Rattle.mt_base.specs.declared.area.Pierced.{Pierced};
ghost use Rattle.mt_base.specs.Pierced.{ArePiercedOf};
ghost use Rattle.mt_track.specs.Named.{named};
ghost use Rattle.mt_area.specs.Private.Telling.{AddsPierced, AreOfAll, IsPiercedByOne};

use crate::areas::Areas;
use crate::passages::passages;
use mt_base::{Area, Memory, Pierced, Pierces, Second};
use mt_track::{Item, Roster};
use std::alloc::Global;
use std::thread;
use std::thread::Threads;

/// On how many threads trajectories are looked at, at most.
const THREADS: usize = 4;

// Puts in each place what is told of the trajectory of that place.
fn tell_each<R: Threads + Sync>(
    rt: &R,
    alloc: Global,
    items: &[Item],
    areas: &[Area],
    now: Second,
    tries: &mut [Result<Pierces, Memory>],
)
    requires kept { All IsBoundedArea areas.now }
    requires early { now ≤ 10000000 }
    requires len { length tries.old ≡ length items.now }
    ensures len { length tries.new ≡ length items.now }
    ensures each { (i : _) (t : _) (x : _) → i < length items.now → IfOk (slice_index_or tries.new i t)
        (λ found. (p : Pierced) → Contains found p ↔ IsPiercedByOne now areas.now (named (slice_index_or items.now i x)) p) }
{
    thread::for_each_mut(
        rt,
        tries,
        THREADS,
        &|i, place: &mut Result<Pierces, Memory>|
            requires { All IsBoundedArea areas.now × (now ≤ 10000000) × (i < length items.now) }
            ensures { IfOk place.new (λ found. (x : _) (p : Pierced) → Contains found p
                ↔ IsPiercedByOne now areas.entry.now (named (slice_index_or items.entry.now i x)) p) }
        {
            *place = passages(alloc, &items[i], areas, now);
        },
    );
}

// What is told of each trajectory, in their order, whatever thread looked at it.
fn tries<R: Threads + Sync>(
    rt: &R,
    alloc: Global,
    items: &[Item],
    areas: &[Area],
    now: Second,
) -> Result<Vec<Result<Pierces, Memory>>, Memory>
    requires kept { All IsBoundedArea areas.now }
    requires early { now ≤ 10000000 }
    ensures len { IfOk result (λ tries. length tries.items ≡ length items.now) }
    ensures each { IfOk result (λ tries. (i : _) (t : _) (x : _) → i < length items.now → IfOk (slice_index_or tries.items i t)
        (λ found. (p : Pierced) → Contains found p ↔ IsPiercedByOne now areas.now (named (slice_index_or items.now i x)) p)) }
{
    let mut tries = Vec::new(alloc);
    for _ in 0..items.len() {
        tries.push(Err(Memory))?;
    }
    tell_each(rt, alloc, items, areas, now, &mut tries);
    Ok(tries)
}

// Puts all of a list after another.
fn add_all(found: &mut Pierces, part: &Pierces) -> Result<(), Memory>
    ensures { OnOk result (AddsPierced (Contains part.now) found.old found.new) }
{
    for told in part.items() {
        found.push(*told)?;
    }
    Ok(())
}

// All that is told; or want of memory, where one of the tries wanted some.
fn gathered(alloc: Global, tries: Vec<Result<Pierces, Memory>>) -> Result<Pierces, Memory>
    ensures { IfOk result (λ found. AreOfAll tries.items found) }
{
    let mut found = Pierces::make(alloc)?;
    for part in tries {
        let part = part?;
        add_all(&mut found, &part)?;
    }
    Ok(found)
}

/// What is told of these trajectories and areas in the window, the seconds from `now` up to `now + 1200`: for each trajectory, actual or tentative,
/// and each area the pierce in these seconds, where there is one; by first second, then callsign, then kind with actual first, then area name.
/// The only error is want of memory.
///
/// The trajectories are looked at on at most four threads, and the answer is that of one thread, whichever of them is done first. It asks that
/// `now` is at most 10,000,000.
pub fn pierced<R: Threads + Sync>(
    rt: &R,
    alloc: Global,
    areas: &Areas,
    strands: &Roster,
    now: Second,
) -> Result<Pierces, Memory>
    requires { now ≤ 10000000 }
    ensures { IfOk result (ArePiercedOf now areas.now strands.now) }
{
    let tries = tries(rt, alloc, strands.items(), areas.items(), now)?;
    let mut found = gathered(alloc, tries)?;
    found.order();
    Ok(found)
}
