//! What pairs show in the window.
ghost use Rattle.std.specs.Prelude.{◌≡◌, ◌≢◌, ◌+◌, ◌<◌, ◌≤◌, ◌↔◌, ◌⊎◌, ◌++◌, ◌∷◌, [], map, filter, All, Contains, IfOk, OnOk, if◌then◌else◌};
ghost use Rattle.std.specs.Option.{option_to_list};
ghost use Rattle.mt_base.specs.declared.conflict.Conflict.{Conflict};
ghost use Rattle.mt_base.specs.declared.rules.Rules.{Rules};
ghost use Rattle.mt_base.specs.Bounds.{AreWithinBounds};
ghost use Rattle.mt_base.specs.Conflict.{IsSpanOfLoss};
ghost use Rattle.mt_track.specs.Named.{named};
ghost use Rattle.mt_kept.specs.Losing.{IsPair, IsSolidAsSaid};
ghost use Rattle.mt_kept.specs.Private.Made.{IsInOrder, conflict_of, is_tested, opens, span_within};
ghost use Rattle.mt_kept.specs.Places.{at, seen};
ghost use Rattle.mt_base.specs.Trajectory.{horizon};
ghost use Rattle.mt_base.specs.Tally.{raised_by};
ghost use Rattle.mt_kept.specs.Window.{IsFoundOf, IsOpen, ShowsInWindow, edge_of};
ghost use Rattle.mt_kept.specs.Private.Window.{AreShownUntested, IsShownUntested, IsShownAmong, Shows};

use crate::conflict_list::ConflictList;
use crate::open_pair::{OpenPair, is_open, is_tested, push_pair};
use mt_base::{Conflict, Memory, Rules, Second, Tally, WINDOW};
use mt_edges::Edge;
use mt_pair::lose;
use mt_track::Item;
use std::alloc::Global;

/// The conflict of two items of which the left one has the lesser callsign.
fn in_order(left: &Item, right: &Item, span: (Second, Second)) -> Conflict
    ensures { result ≡ conflict_of (named left.now) (named right.now) span.0 span.1 }
{
    Conflict {
        first: span.0,
        a: left.call,
        b: right.call,
        ka: left.kind,
        kb: right.kind,
        last: span.1,
    }
}

/// The conflict of two items of different flights, the lesser callsign first.
pub(crate) fn paired(left: &Item, right: &Item, span: (Second, Second)) -> Conflict
    requires { left.now.call ≢ right.now.call }
    ensures { IsInOrder (named left.now) (named right.now) span result ⊎ IsInOrder (named right.now) (named left.now) span result }
{
    if left.call < right.call {
        in_order(left, right, span)
    } else {
        in_order(right, left, span)
    }
}

/// What of an open pair's span lies in the window. That is what the pair shows, unless it has to be tested.
pub(crate) fn span_within(edge: &Edge, now: Second) -> (Second, Second)
    requires { now ≤ 10000000 }
    ensures { result ≡ span_within now edge.now }
{
    (now.max(edge.first), (now + WINDOW - 1).min(edge.last))
}

/// What a pair that is open shows in the window. It is tested only where its span straddles an edge of the window and isn't known to be
/// solid, over what of the span lies within.
pub(crate) fn shown_pair(
    left: &Item,
    right: &Item,
    edge: &Edge,
    rules: &Rules,
    now: Second,
    tests: &mut Tally,
) -> Option<Conflict>
    requires rules_kept { AreWithinBounds rules.now }
    requires early { now ≤ 10000000 }
    requires apart { left.now.call ≢ right.now.call }
    requires span { IsSpanOfLoss rules.now (named left.now).path (named right.now).path 0 horizon edge.now.first edge.now.last }
    requires solid { IsSolidAsSaid rules.now (named left.now).path (named right.now).path edge.now }
    requires opened { IsOpen now edge.now }
    ensures found { IsFoundOf rules.now now (named left.now) (named right.now) result }
    ensures counted { tests.new ≡ raised_by (if is_tested now edge.now then 1 else 0) tests.old }
{
    let within = span_within(edge, now);
    let span = if is_tested(edge, now) {
        let to = within.1 + 1;
        lose(&left.strand, &right.strand, rules, within.0, to, tests)?
    } else {
        within
    };
    Some(paired(left, right, span))
}

/// The two items of a pair of places.
pub(crate) fn items_of<'a>(places: &'a [Option<Item>], edge: &Edge) -> (&'a Item, &'a Item)
    requires { (rules : Rules) × IsPair rules (map seen places.now) edge.now }
    ensures left { at (map seen places.now) edge.now.a ≡ Some (named result.0.now) }
    ensures right { at (map seen places.now) edge.now.b ≡ Some (named result.1.now) }
{
    let Some(left) = &places[edge.a as usize] else {
        unreachable!()
    };
    let Some(right) = &places[edge.b as usize] else {
        unreachable!()
    };
    (left, right)
}

/// What an open pair of places shows in the window.
pub(crate) fn shown(
    places: &[Option<Item>],
    edge: &Edge,
    rules: &Rules,
    now: Second,
    tests: &mut Tally,
) -> Option<Conflict>
    requires rules_kept { AreWithinBounds rules.now }
    requires early { now ≤ 10000000 }
    requires pair { IsPair rules.now (map seen places.now) edge.now }
    requires opened { IsOpen now edge.now }
    ensures shown { ShowsInWindow rules.now (map seen places.now) now edge.now result }
    ensures counted { tests.new ≡ raised_by (if is_tested now edge.now then 1 else 0) tests.old }
{
    let (left, right) = items_of(places, edge);
    shown_pair(left, right, edge, rules, now, tests)
}

/// What the pair of the same two places shows, where it is one of these.
fn shown_among(pairs: &[OpenPair], edge: &Edge) -> Option<Conflict>
    ensures { Contains (map edge_of pairs.now) edge.now → IsShownAmong pairs.now edge.now result }
{
    for pair in pairs {
        if pair.edge.a == edge.a && pair.edge.b == edge.b {
            return pair.conflict;
        }
    }
    None
}

/// What a pair of places shows where it is open, without a test: one that would have to be tested is among the tested ones.
fn shown_untested(
    places: &[Option<Item>],
    tested: &[OpenPair],
    edge: &Edge,
    now: Second,
) -> Option<Conflict>
    requires early { now ≤ 10000000 }
    requires pair { (rules : Rules) × IsPair rules (map seen places.now) edge.now }
    ensures { IsOpen now edge.now → IsShownUntested (map seen places.now) now tested.now edge.now result }
{
    if !is_open(edge, now) {
        return None;
    }
    if is_tested(edge, now) {
        return shown_among(tested, edge);
    }
    let (left, right) = items_of(places, edge);
    Some(paired(left, right, span_within(edge, now)))
}

/// Some pairs of places, each with what it shows where it is open. It makes no test: those that would have to be tested are among the tested ones.
pub(crate) fn shown_pairs(
    alloc: Global,
    places: &[Option<Item>],
    tested: &[OpenPair],
    edges: &[Edge],
    now: Second,
) -> Result<Vec<OpenPair>, Memory>
    requires early { now ≤ 10000000 }
    requires pairs { (rules : Rules) × All (IsPair rules (map seen places.now)) edges.now }
    ensures { IfOk result (λ pairs. AreShownUntested (map seen places.now) now tested.now edges.now pairs.items) }
{
    let mut pairs = Vec::new(alloc);
    pairs.reserve(edges.len())?;
    for edge in edges {
        let conflict = shown_untested(places, tested, edge, now);
        push_pair(&mut pairs, *edge, conflict)?;
    }
    Ok(pairs)
}

/// Puts what a pair shows after what others do.
fn add_shown(list: &mut Vec<Conflict>, conflict: &Option<Conflict>) -> Result<(), Memory>
    ensures { OnOk result (list.new.items ≡ list.old.items ++ option_to_list conflict.now) }
{
    if let Some(conflict) = conflict {
        list.push(*conflict)?;
    }
    Ok(())
}

/// What those of some pairs show that are open.
pub(crate) fn shown_of(
    alloc: Global,
    pairs: &[OpenPair],
    now: Second,
) -> Result<ConflictList, Memory>
    requires { now ≤ 10000000 }
    ensures { IfOk result (λ list. (c : Conflict) → Contains list.conflicts c ↔ Shows (filter (opens now) pairs.now) c) }
{
    let mut list = Vec::new(alloc);
    list.reserve(pairs.len())?;
    for pair in pairs {
        if is_open(&pair.edge, now) {
            add_shown(&mut list, &pair.conflict)?;
        }
    }
    Ok(ConflictList::of(alloc, list))
}
