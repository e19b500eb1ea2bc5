//! The pairs of a trajectory with those of other flights.
ghost use Rattle.std.specs.Prelude.{◌≡◌, ◌≢◌, ◌≤◌, true, List, Option, map, IfOk, OnOk, if◌then◌else◌};
ghost use Rattle.std.specs.List.{sum_by};
ghost use Rattle.mt_base.specs.Bounds.{AreWithinBounds};
ghost use Rattle.mt_base.specs.Conflict.{IsConflict, IsLossSecond, IsSpanOfLoss};
ghost use Rattle.mt_base.specs.Picture.{NamedTrajectory};
ghost use Rattle.mt_track.specs.Named.{named};
ghost use Rattle.mt_kept.specs.Losing.{IsSolidAsSaid};
ghost use Rattle.mt_base.specs.Span.{IsSolid};
ghost use Rattle.mt_kept.specs.Finds.{Agree, AreCandidates, AreFindsAt, IsOfOtherFlight, IsRight, cost, cost_of};
ghost use Rattle.mt_kept.specs.Private.Made.{IsFindAdded, IsAddedAt, IsEdgeOf, IsKnownAs, tests_if_unknown};
ghost use Rattle.mt_kept.specs.Places.{seen};
ghost use Rattle.mt_base.specs.Trajectory.{horizon};
ghost use Rattle.mt_base.specs.Tally.{RoseUpTo, raised_by};
ghost use Rattle.mt_kept.specs.Window.{IsFoundOf, IsOpen, straddles};

use crate::open_pair::{OpenPair, is_open, push_pair};
use crate::showing::shown_pair;
use mt_base::{Conflict, Memory, Rules, Second, Tally};
use mt_edges::Edge;
use mt_pair::{Loss, loss_of};
use mt_track::Item;
use std::alloc::Global;

/// What is known of two trajectories: seconds outside of which they don't lose separation, or their conflict over all seconds.
#[derive(Clone, Copy)]
pub enum Knowledge {
    /// They don't lose separation before the first or after the last of these seconds; in these they have to be tested.
    Within {
        first: Second,
        last: Second,
    },
    /// They have this conflict, its first and its last second, or none; and whether it is known to be solid.
    Known {
        span: Option<(Second, Second)>,
        solid: bool,
    },
}

/// A place whose trajectory a new one may lose separation from, and what is known of the two.
#[derive(Clone, Copy)]
pub struct Candidate {
    /// The place.
    pub place: u32,
    /// What is known.
    pub knowledge: Knowledge,
}

/// The conflict over all seconds of a new item and another, by a test where it isn't known, and whether it is known to be solid.
fn whole(item: &Item, other: &Item, knowledge: Knowledge, rules: &Rules, tests: &mut Tally) -> Loss
    requires rules_kept { AreWithinBounds rules.now }
    requires known { IsRight rules.now (named item.now) (named other.now) knowledge }
    ensures is { IsConflict rules.now (named item.now).path (named other.now).path 0 horizon result.span }
    ensures solid { result.solid ≡ true → IsSolid (IsLossSecond rules.now (named item.now).path (named other.now).path) result.span }
    ensures same { IsKnownAs knowledge result.span }
    ensures counted { tests.new ≡ raised_by (tests_if_unknown knowledge) tests.old }
{
    match knowledge {
        Knowledge::Within { first, last } => {
            loss_of(&item.strand, &other.strand, rules, first, last + 1, tests)
        }
        Knowledge::Known { span, solid } => Loss { span, solid },
    }
}

/// The pair of two places with that span, which is known to be solid or not.
fn edge_between(place: u32, other: u32, span: (Second, Second), solid: bool) -> Edge
    requires { place ≢ other }
    ensures is { IsEdgeOf place other span result }
    ensures solid { result.solid ≡ solid }
{
    Edge {
        a: place.min(other),
        b: place.max(other),
        first: span.0,
        last: span.1,
        solid,
    }
}

/// What a pair shows where it is open.
fn shown_if_open(
    item: &Item,
    other: &Item,
    edge: &Edge,
    rules: &Rules,
    now: Second,
    tests: &mut Tally,
) -> Option<Conflict>
    requires rules_kept { AreWithinBounds rules.now }
    requires early { now ≤ 10000000 }
    requires apart { item.now.call ≢ other.now.call }
    requires span { IsSpanOfLoss rules.now (named item.now).path (named other.now).path 0 horizon edge.now.first edge.now.last }
    requires solid { IsSolidAsSaid rules.now (named item.now).path (named other.now).path edge.now }
    ensures found { IsOpen now edge.now → IsFoundOf rules.now now (named item.now) (named other.now) result }
    ensures counted { RoseUpTo (if straddles now edge.now then 1 else 0) tests.old tests.new }
{
    if is_open(edge, now) {
        shown_pair(item, other, edge, rules, now, tests)
    } else {
        None
    }
}

/// Puts after the finds what is found for a new item and one of another flight.
fn add_find(
    finds: &mut Vec<OpenPair>,
    place: u32,
    item: &Item,
    candidate: Candidate,
    other: &Item,
    rules: &Rules,
    now: Second,
    tests: &mut Tally,
) -> Result<(), Memory>
    requires rules_kept { AreWithinBounds rules.now }
    requires early { now ≤ 10000000 }
    requires elsewhere { candidate.place ≢ place }
    requires apart { item.now.call ≢ other.now.call }
    requires known { IsRight rules.now (named item.now) (named other.now) candidate.knowledge }
    ensures added { OnOk result (IsFindAdded rules.now now place candidate.place (named item.now) (named other.now) finds.old.items finds.new.items) }
    ensures counted { RoseUpTo (cost_of now candidate.knowledge) tests.old tests.new }
{
    let loss = whole(item, other, candidate.knowledge, rules, tests);
    let Some(span) = loss.span else {
        return Ok(());
    };
    let edge = edge_between(place, candidate.place, span, loss.solid);
    let conflict = shown_if_open(item, other, &edge, rules, now, tests);
    push_pair(finds, edge, conflict)
}

/// Does so for a candidate, where a trajectory of another flight stands in its place.
fn add_candidate(
    finds: &mut Vec<OpenPair>,
    places: &[Option<Item>],
    place: u32,
    item: &Item,
    candidate: Candidate,
    rules: &Rules,
    now: Second,
    tests: &mut Tally,
) -> Result<(), Memory>
    requires rules_kept { AreWithinBounds rules.now }
    requires early { now ≤ 10000000 }
    requires right { (other : NamedTrajectory) → IsOfOtherFlight (map seen places.now) place (named item.now) candidate.place other
        → IsRight rules.now (named item.now) other candidate.knowledge }
    ensures added { OnOk result (IsAddedAt rules.now now (map seen places.now) place (named item.now) candidate finds.old.items finds.new.items) }
    ensures counted { RoseUpTo (cost (map seen places.now) place item.now.call now candidate) tests.old tests.new }
{
    let there = candidate.place as usize;
    if candidate.place == place || there >= places.len() {
        return Ok(());
    }
    let Some(other) = &places[there] else {
        return Ok(());
    };
    if other.call == item.call {
        return Ok(());
    }
    add_find(finds, place, item, candidate, other, rules, now, tests)
}

/// The pairs of an item that is to stand in a place, with the trajectories of other flights.
pub(crate) fn gather(
    alloc: Global,
    places: &[Option<Item>],
    place: u32,
    item: &Item,
    candidates: &[Candidate],
    rules: &Rules,
    now: Second,
    tests: &mut Tally,
) -> Result<Vec<OpenPair>, Memory>
    requires rules_kept { AreWithinBounds rules.now }
    requires early { now ≤ 10000000 }
    requires candidates { AreCandidates rules.now (map seen places.now) place (named item.now) candidates.now }
    ensures finds { IfOk result (λ finds. (after : List (Option NamedTrajectory)) → Agree (map seen places.now) after place (named item.now)
        → AreFindsAt rules.now after now place finds.items) }
    ensures counted { RoseUpTo (sum_by (cost (map seen places.now) place item.now.call now) candidates.now) tests.old tests.new }
{
    let mut finds = Vec::new(alloc);
    for candidate in candidates {
        add_candidate(
            &mut finds, places, place, item, *candidate, rules, now, tests,
        )?;
    }
    Ok(finds)
}
