//! Which pairs a change keeps, and which a move looks at.
ghost use Rattle.std.specs.Prelude.{◌≡◌, ◌++◌, ◌≤◌, [], Contains, true, map, filter, if◌then◌else◌, IfOk, OnOk, vec_len, vec_capacity};
ghost use Rattle.std.specs.List.{list_any};
ghost use Rattle.mt_edges.specs.Pairs.{AreDistinctPairs};
ghost use Rattle.mt_kept.specs.Places.{change_place};
ghost use Rattle.mt_kept.specs.Private.Made.{avoids, is_at_border, is_tested, meets, touches_place};
ghost use Rattle.mt_kept.specs.Private.Stale.{AreDue, AreDueAdded, AreStale, comes_due};

use crate::changes::{PlaceChange, is_changed};
use crate::open_pair::{OpenPair, is_bordering, is_tested};
use crate::stale::Stale;
use mt_base::{Memory, Second, WINDOW};
use mt_edges::{Edge, Edges};
use std::alloc::Global;

/// Whether a pair has to be looked at anew at a later moment `now`: it goes on then, begins in a stale second, and wasn't at the border of
/// the window from `moment`.
fn comes_due(edge: &Edge, stale: &Stale, moment: Second, now: Second) -> bool
    requires { moment ≤ 10000000 }
    ensures { result ≡ comes_due moment now stale.now edge.now }
{
    now <= edge.last && stale.has(edge.first) && !is_bordering(edge, moment)
}

/// Puts after some pairs those of others that have to be looked at anew.
fn add_due(
    edges: &mut Vec<Edge>,
    others: &[Edge],
    stale: &Stale,
    moment: Second,
    now: Second,
) -> Result<(), Memory>
    requires { moment ≤ 10000000 }
    ensures { OnOk result (edges.new.items ≡ edges.old.items ++ filter (comes_due moment now stale.now) others.now) }
{
    for edge in others {
        if comes_due(edge, stale, moment, now) {
            edges.push(*edge)?;
        }
    }
    Ok(())
}

/// Puts after some pairs those of all that begin in some seconds and have to be looked at anew.
fn add_from(
    edges: &mut Vec<Edge>,
    pairs: &Edges,
    seconds: (Second, Second),
    stale: &Stale,
    moment: Second,
    now: Second,
) -> Result<(), Memory>
    requires { moment ≤ 10000000 }
    ensures { OnOk result (AreDueAdded pairs.now.edges seconds.0 seconds.1 (comes_due moment now stale.now) edges.old.items edges.new.items) }
{
    let others = pairs.due(seconds.0, seconds.1)?;
    add_due(edges, &others, stale, moment, now)
}

/// The pairs that have to be looked at anew at a later moment, but for those at the border of the window from `moment`.
pub(crate) fn due_pairs(
    alloc: Global,
    pairs: &Edges,
    stale: &Stale,
    moment: Second,
    now: Second,
) -> Result<Vec<Edge>, Memory>
    requires later { moment ≤ now }
    requires early { now ≤ 10000000 }
    requires stale { AreStale moment now stale.now }
    requires distinct { AreDistinctPairs pairs.now.edges }
    ensures { IfOk result (λ due. AreDue moment now stale.now pairs.now.edges due.items) }
{
    let end = moment + WINDOW;
    let mut edges = Vec::new(alloc);
    add_from(&mut edges, pairs, (moment, now), stale, moment, now)?;
    add_from(
        &mut edges,
        pairs,
        (end.max(now), now + WINDOW),
        stale,
        moment,
        now,
    )?;
    if stale.is_marked() {
        add_from(&mut edges, pairs, (now, end), stale, moment, now)?;
    }
    Ok(edges)
}

/// Whether no end of an open pair is a changed place.
fn is_elsewhere(pair: &OpenPair, changes: &[PlaceChange]) -> bool
    ensures { result ≡ avoids (map change_place changes.now) pair.now }
{
    !is_changed(&pair.edge, changes)
}

/// Whether one of these pairs is at the border of the window.
fn has_bordering(pairs: &[OpenPair], now: Second) -> bool
    requires { now ≤ 10000000 }
    ensures { result ≡ list_any (is_at_border now) pairs.now }
{
    pairs.iter().any(|pair| is_bordering(&pair.edge, now))
}

/// Drops those of the pairs at the border of the window of which an end is a changed place. It looks at them only where one of the changed places'
/// own pairs is there.
pub(crate) fn drop_changed(
    pairs: &mut Vec<OpenPair>,
    changes: &[PlaceChange],
    own: &[OpenPair],
    now: Second,
)
    requires early { now ≤ 10000000 }
    requires own { (o : OpenPair) → Contains pairs.old.items o → meets (map change_place changes.now) o ≡ true → list_any (is_at_border now) own.now ≡ true }
    ensures rest { pairs.new.items ≡ filter (avoids (map change_place changes.now)) pairs.old.items }
    ensures len { vec_len pairs.new ≤ vec_len pairs.old }
    ensures capacity { vec_capacity pairs.new ≡ vec_capacity pairs.old }
{
    if has_bordering(own, now) {
        pairs.retain(|pair| is_elsewhere(pair, changes));
    }
}

/// Those of these pairs that are at the border of the window.
pub(crate) fn bordering_of(
    alloc: Global,
    pairs: &[OpenPair],
    now: Second,
) -> Result<Vec<OpenPair>, Memory>
    requires { now ≤ 10000000 }
    ensures { IfOk result (λ list. list.items ≡ filter (is_at_border now) pairs.now) }
{
    let mut list = Vec::new(alloc);
    list.reserve(pairs.len())?;
    for pair in pairs {
        if is_bordering(&pair.edge, now) {
            list.push(*pair)?;
        }
    }
    Ok(list)
}

/// The open pairs of which one end is that place.
fn at_place(alloc: Global, pairs: &[OpenPair], place: u32) -> Result<Vec<OpenPair>, Memory>
    ensures { IfOk result (λ list. list.items ≡ filter (touches_place place) pairs.now) }
{
    let mut list = Vec::new(alloc);
    for pair in pairs {
        if pair.edge.a == place || pair.edge.b == place {
            list.push(*pair)?;
        }
    }
    Ok(list)
}

/// Whether one of these pairs would have to be tested where it is open.
fn has_tested(edges: &[Edge], now: Second) -> bool
    requires { now ≤ 10000000 }
    ensures { result ≡ list_any (is_tested now) edges.now }
{
    edges.iter().any(|edge| is_tested(edge, now))
}

/// Of the pairs at the border of the window those of a place, where one of the place's own pairs would have to be tested. It looks at them only
/// then.
pub(crate) fn tested_at(
    alloc: Global,
    bordering: &[OpenPair],
    place: u32,
    own: &[Edge],
    now: Second,
) -> Result<Vec<OpenPair>, Memory>
    requires { now ≤ 10000000 }
    ensures { IfOk result (λ list. list.items ≡ (if list_any (is_tested now) own.now then filter (touches_place place) bordering.now else [])) }
{
    if has_tested(own, now) {
        at_place(alloc, bordering, place)
    } else {
        Ok(Vec::new(alloc))
    }
}
