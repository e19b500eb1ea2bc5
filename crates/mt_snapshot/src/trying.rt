//! How the candidates are tried.
ghost use Rattle.std.specs.Prelude.{◌≡◌, ◌<◌, None, length, slice_index_or, IfOk};
ghost use denote.Param.Send.{IsSync};
ghost use Rattle.mt_probe.specs.Hits.{IsFreeOrConflicting};
ghost use Rattle.mt_snapshot.specs.Private.Trying.{AreAdviceCandidates, AreFreeOf};

use mt_base::{Callsign, Clearance, Memory, Tally};
use mt_board::No;
use mt_probe::{Probe, Snapshot, probe_if_free};
use std::alloc::Global;
use std::thread;
use std::thread::Threads;

/// On how many threads candidates are tried at most. An advice takes less time than to start a thread and wait for it, so it is one.
const THREADS: usize = 1;

// One candidate, tried from the moment on: its probe where it is free. Its tests are counted on a tally that nobody reads.
fn try_one<R: Threads + Sync>(
    rt: &R,
    alloc: Global,
    snapshot: &Snapshot,
    call: Callsign,
    list: &[Clearance],
    i: usize,
) -> Result<Option<Probe>, Memory>
    requires asked { AreAdviceCandidates snapshot.now call list.now }
    requires inside { i < length list.now }
    ensures { IfOk result (λ found. (d : _) → IsFreeOrConflicting snapshot.now call (slice_index_or list.now i d) None found) }
{
    let mut tests = Tally::new(rt);
    match probe_if_free(alloc, snapshot, call, list[i], None, &mut tests) {
        Ok(found) => Ok(found),
        Err(No::Memory) => Err(Memory),
        Err(No::Refused { .. }) => unreachable!(),
    }
}

// Puts in each place what the candidate of that place gives.
fn try_each<R: Threads + Sync>(
    rt: &R,
    alloc: Global,
    snapshot: &Snapshot,
    call: Callsign,
    list: &[Clearance],
    tries: &mut [Result<Option<Probe>, Memory>],
)
    requires asked { AreAdviceCandidates snapshot.now call list.now }
    requires len { length tries.old ≡ length list.now }
    ensures len { length tries.new ≡ length list.now }
    ensures each { (i : _) (t : _) (d : _) → i < length list.now
        → IfOk (slice_index_or tries.new i t) (IsFreeOrConflicting snapshot.now call (slice_index_or list.now i d) None) }
{
    thread::for_each_mut(
        rt,
        tries,
        THREADS,
        &|i, place: &mut Result<Option<Probe>, Memory>|
            requires { IsSync R.row × AreAdviceCandidates snapshot.now call list.now × (i < length list.now) }
            ensures { IfOk place.new (λ p. (d : _) → IsFreeOrConflicting snapshot.entry.now call (slice_index_or list.entry.now i d) None p) }
        {
            *place = try_one(rt, alloc, snapshot, call, list, i);
        },
    );
}

/// What each candidate gives, its probe or none, in their order, whatever thread tried it.
pub(crate) fn tries<R: Threads + Sync>(
    rt: &R,
    alloc: Global,
    snapshot: &Snapshot,
    call: Callsign,
    list: &[Clearance],
) -> Result<Vec<Result<Option<Probe>, Memory>>, Memory>
    requires asked { AreAdviceCandidates snapshot.now call list.now }
    ensures len { IfOk result (λ tries. length tries.items ≡ length list.now) }
    ensures each { IfOk result (λ tries. (i : _) (t : _) (d : _) → i < length list.now
        → IfOk (slice_index_or tries.items i t) (IsFreeOrConflicting snapshot.now call (slice_index_or list.now i d) None)) }
{
    let mut tries = Vec::new(alloc);
    for _ in 0..list.len() {
        tries.push(Err(Memory))?;
    }
    try_each(rt, alloc, snapshot, call, list, &mut tries);
    Ok(tries)
}

/// The probes that were found, in order; or want of memory, where one of the tries wanted some.
pub(crate) fn free_of(
    alloc: Global,
    tries: Vec<Result<Option<Probe>, Memory>>,
) -> Result<Vec<Probe>, Memory>
    ensures { IfOk result (λ free. AreFreeOf tries.items free.items) }
{
    let mut free = Vec::new(alloc);
    for found in tries {
        if let Some(probe) = found? {
            free.push(probe)?;
        }
    }
    Ok(free)
}
