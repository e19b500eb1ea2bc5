//! The hits of a clearance that was probed, among what is found with the trajectory that it leaves.
ghost use Rattle.std.specs.Prelude.{◌≡◌, ◌≤◌, IfOk, None, false, true};
ghost use Rattle.mt_picture.specs.Private.Hits.{AreHitsAmong, IsFirstAmong, conflict_hit, pair_hit, is_flown};

use mt_base::{Callsign, Conflict, Hit, Hits, Memory, Second};
use mt_kept::{OpenPair, is_open};
use std::alloc::Global;

// Whether both trajectories of a pair are flown.
fn is_flown(pair: &OpenPair) -> bool
    ensures { result ≡ is_flown pair.now }
{
    pair.edge.a % 2 == 0 && pair.edge.b % 2 == 0
}

// A conflict as a hit of the flight of that callsign.
fn hit_by(call: Callsign, conflict: Option<Conflict>) -> Option<Hit>
    ensures { result ≡ conflict_hit call conflict }
{
    let conflict = conflict?;
    let with = if conflict.a == call {
        conflict.b
    } else {
        conflict.a
    };
    Some(Hit {
        first: conflict.first,
        with,
        last: conflict.last,
    })
}

// The hit that a pair shows in the window.
fn hit_of(call: Callsign, now: Second, pair: &OpenPair) -> Option<Hit>
    requires { now ≤ 10000000 }
    ensures { result ≡ pair_hit call now pair.now }
{
    if is_flown(pair) && is_open(&pair.edge, now) {
        hit_by(call, pair.conflict)
    } else {
        None
    }
}

// The hits that some finds show, in order.
fn hits_of(alloc: Global, finds: &[OpenPair], call: Callsign, now: Second) -> Result<Hits, Memory>
    requires { now ≤ 10000000 }
    ensures { IfOk result (AreHitsAmong finds.now call now) }
{
    let mut hits = Hits::make(alloc)?;
    for pair in finds {
        if let Some(hit) = hit_of(call, now, pair) {
            hits.push(hit)?;
        }
    }
    hits.order();
    Ok(hits)
}

/// The first hit that some finds of the flight of that callsign show, where that was probed.
pub(crate) fn first_hit(
    alloc: Global,
    finds: &[OpenPair],
    call: Callsign,
    now: Second,
    probed: bool,
) -> Result<Option<Hit>, Memory>
    requires { now ≤ 10000000 }
    ensures probed { IfOk result (λ first. probed ≡ true → IsFirstAmong finds.now call now first) }
    ensures free { IfOk result (λ first. probed ≡ false → first ≡ None) }
{
    if !probed {
        return Ok(None);
    }
    let hits = hits_of(alloc, finds, call, now)?;
    Ok(hits.items().first().copied())
}
