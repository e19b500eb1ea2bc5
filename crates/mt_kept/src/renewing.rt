//! What pairs show that are looked at anew when the window moves.
ghost use Rattle.std.specs.Prelude.{ℕ, ◌≤◌, All, IfOk, OnOk, map};
ghost use Rattle.mt_base.specs.Bounds.{AreWithinBounds};
ghost use Rattle.mt_kept.specs.Losing.{IsPair};
ghost use Rattle.mt_kept.specs.Places.{seen};
ghost use Rattle.mt_kept.specs.Private.Made.{WereTested, is_tested, straddles_on};
ghost use Rattle.mt_kept.specs.Private.Stale.{AreStale};
ghost use Rattle.mt_kept.specs.Private.Window.{AreAdded, AreListed, AreLookedAt};
ghost use Rattle.mt_kept.specs.Window.{IsOpen, ShowsInWindow, edge_of};

use crate::conflict_list::ConflictList;
use crate::later::shown_later;
use crate::lists::bordering_of;
use crate::open_pair::{OpenPair, push_pair};
use crate::showing::{shown, shown_of};
use crate::stale::Stale;
use mt_base::{Memory, Rules, Second, Tally};
use mt_edges::Edge;
use mt_track::Item;
use std::alloc::Global;

/// Looks anew at the pairs that were at the border of the window from an earlier moment, as far as they go on, and puts them after others.
/// It marks what they show no more and would stay. It makes at most as many tests as of these pairs straddle an edge of the window; where one of
/// them needs none, its test is to spare for one that needs two.
pub(crate) fn renew_bordering(
    places: &[Option<Item>],
    pairs: &[OpenPair],
    moment: Second,
    stale: &mut Stale,
    rules: &Rules,
    now: Second,
    tests: &mut Tally,
    renewed: &mut Vec<OpenPair>,
) -> Result<(), Memory>
    requires rules_kept { AreWithinBounds rules.now }
    requires early { now ≤ 10000000 }
    requires later { moment ≤ now }
    requires pairs { All (λ o. IsPair rules.now (map seen places.now) o.edge × IsOpen moment o.edge × ShowsInWindow rules.now (map seen places.now) moment o.edge o.conflict) pairs.now }
    ensures renewed { OnOk result (AreLookedAt rules.now (map seen places.now) now pairs.now stale.new renewed.old.items renewed.new.items) }
    ensures stale { (moment : ℕ) → AreStale moment now stale.old → AreStale moment now stale.new }
    ensures counted { WereTested (straddles_on now) (map edge_of pairs.now) tests.old tests.new }
{
    renewed.reserve(pairs.len())?;
    let mut spare = false;
    for pair in pairs {
        if now <= pair.edge.last {
            let conflict = shown_later(places, pair, moment, rules, now, &mut spare, tests);
            stale.mark_change(&pair.conflict, &conflict);
            push_pair(renewed, pair.edge, conflict)?;
        }
    }
    Ok(())
}

/// Looks at pairs that are open, and puts them after others.
pub(crate) fn renew(
    places: &[Option<Item>],
    edges: &[Edge],
    rules: &Rules,
    now: Second,
    tests: &mut Tally,
    renewed: &mut Vec<OpenPair>,
) -> Result<(), Memory>
    requires rules_kept { AreWithinBounds rules.now }
    requires early { now ≤ 10000000 }
    requires pairs { All (λ e. IsPair rules.now (map seen places.now) e × IsOpen now e) edges.now }
    ensures added { OnOk result (AreAdded rules.now (map seen places.now) now edges.now renewed.old.items renewed.new.items) }
    ensures counted { WereTested (is_tested now) edges.now tests.old tests.new }
{
    for edge in edges {
        let conflict = shown(places, edge, rules, now, tests);
        push_pair(renewed, *edge, conflict)?;
    }
    Ok(())
}

/// Of pairs that are open those at the border of the window, in the order of publishing, and what all of them show.
///
/// Most of them stand in that order since the tick before, so that sorting them takes little.
pub(crate) fn in_order_of_publishing(
    alloc: Global,
    mut renewed: Vec<OpenPair>,
    now: Second,
) -> Result<(Vec<OpenPair>, ConflictList), Memory>
    requires early { now ≤ 10000000 }
    ensures { IfOk result (λ it. AreListed now renewed.items it.0.items it.1.conflicts) }
{
    renewed.sort_by_key(|pair| pair.conflict)?;
    let bordering = bordering_of(alloc, &renewed, now)?;
    let come = shown_of(alloc, &renewed, now)?;
    Ok((bordering, come))
}
