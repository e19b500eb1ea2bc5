//! The hits of a new trajectory: its conflicts in the look-ahead with the trajectories that the other flights fly.
ghost use Rattle.std.specs.Prelude.{◌≡◌, ◌↔◌, ◌≤◌, ◌<◌, ◌+◌, ◌/◌, ℕ, List, None, All, length, true, IfOk, IfSome, IsTrue};
ghost use Rattle.std.specs.Option.{option_to_list};
ghost use Rattle.mt_base.specs.declared.conflict.Kind.TheVariants.{Actual};
ghost use Rattle.mt_base.specs.declared.hit.Hit.{Hit as Clash};
ghost use Rattle.mt_base.specs.Bounds.{AreWithinBounds};
ghost use Rattle.mt_base.specs.Conflict.{IsConflict, IsLossSecond};
ghost use Rattle.mt_base.specs.Name.{is_name};
ghost use Rattle.mt_base.specs.Picture.{window_end};
ghost use Rattle.mt_base.specs.Trajectory.{horizon};
ghost use Rattle.mt_base.specs.WhatIf.{AreHitsOf, HasHit};
ghost use Rattle.mt_probe.specs.Items.{kind_at};
ghost use Rattle.mt_probe.specs.Private.Ahead.{IsAskedAhead, IsMetAhead};
ghost use Rattle.mt_probe.specs.Private.Clear.{IsClearAt, IsHitAt, IsOwnPlace};
ghost use Rattle.mt_probe.specs.Shot.{state_in_shot};
ghost use Rattle.mt_probe.specs.Tests.{WasTriedNear, WereAtLeast, flown_at};

use crate::finding::kind_of;
use crate::snapshot::Snapshot;
use mt_base::{Callsign, Hit, Hits, Kind, Memory, Rules, Second, Tally, WINDOW};
use mt_meet::{Met, Search, Subject};
use mt_pair::lose;
use mt_track::Strand;
use std::alloc::Global;

// The conflict in the window of two trajectories that lose separation there only in the seconds in which they are met: no other is tested.
fn met_in_window(
    rules: &Rules,
    now: Second,
    strand: &Strand,
    other: &Strand,
    met: Met,
    tests: &mut Tally,
) -> Option<(Second, Second)>
    requires rules { AreWithinBounds rules.now }
    requires early { now ≤ 10000000 }
    requires ends { met.last < horizon }
    requires within { (k : ℕ) → now ≤ k → k < window_end now → IsLossSecond rules.now strand.now other.now k → (met.first ≤ k) × (k ≤ met.last) }
    ensures conflict { IsConflict rules.now strand.now other.now now (window_end now) result }
    ensures counted { tests.new ≤ tests.old + 1 }
    ensures tested { WereAtLeast 1 tests.old tests.new }
{
    let from = now.max(met.first);
    let to = (now + WINDOW).min(met.last + 1);
    lose(strand, other, rules, from, to, tests)
}

// The hit of a new trajectory of a flight with one that its slices meet in the look-ahead, where another flight flies that. The flight is told from
// others by its place, so that a record is read only for a hit.
fn hit_with(
    snapshot: &Snapshot,
    met: Met,
    own: Option<u32>,
    strand: &Strand,
    tests: &mut Tally,
) -> Option<Hit>
    requires { IsMetAhead snapshot.now strand.now met }
    ensures hit { (call : List ℕ) → IsOwnPlace snapshot.now call own → IfSome result (IsHitAt snapshot.now call strand.now (met.item / 2)) }
    ensures flown { IfSome result (λ hit. (kind_at met.item ≡ Actual) × (is_name 1 7 hit.with ≡ true)) }
    ensures clear { (call : List ℕ) → IsOwnPlace snapshot.now call own → result ≡ None → kind_at met.item ≡ Actual
        → IsClearAt snapshot.now call strand.now (met.item / 2) }
    ensures counted { (call : List ℕ) → IsOwnPlace snapshot.now call own → tests.new ≤ tests.old + length (flown_at call snapshot.now.slots met.item) }
    ensures tested { WereAtLeast (length (option_to_list result)) tests.old tests.new }
{
    snapshot.keeps();
    strand.keeps();
    let kind = kind_of(met.item);
    let Kind::Actual = kind else {
        return None;
    };
    let slot = met.item / 2;
    if own == Some(slot) {
        return None;
    }
    let other = snapshot.path(slot, Kind::Actual)?;
    let rules = snapshot.rules();
    let now = snapshot.now();
    let (first, last) = met_in_window(rules, now, strand, other, met, tests)?;
    let card = snapshot.flight(slot)?;
    card.call.keeps();
    Some(Hit {
        first,
        with: card.call,
        last,
    })
}

// Whether a new trajectory of a flight, whose slices for the look-ahead are given, has a hit.
fn has_hit_among(
    snapshot: &Snapshot,
    call: Callsign,
    strand: &Strand,
    mine: &Subject,
    tests: &mut Tally,
) -> bool
    requires ahead { IsAskedAhead snapshot.now strand.now mine.now }
    ensures hit { IsTrue result ↔ HasHit snapshot.now.setup (state_in_shot snapshot.now) call strand.now }
    ensures counted { WasTriedNear snapshot.now call strand.now tests.old tests.new }
{
    snapshot.keeps();
    strand.keeps();
    let own = snapshot.find(call);
    let mut search = Search::begin();
    while let Some(met) = snapshot.next_meeting(&mut search, mine) {
        if hit_with(snapshot, met, own, strand, tests).is_some() {
            return true;
        }
    }
    false
}

/// Whether a new trajectory of a flight has a hit. What its slices meet in the look-ahead is tested where it is flown, one after the other, up to
/// the first hit; tentative trajectories aren't.
pub(crate) fn has_hit(
    snapshot: &Snapshot,
    call: Callsign,
    strand: &Strand,
    tests: &mut Tally,
) -> Result<bool, Memory>
    ensures hit { IfOk result (λ has. IsTrue has ↔ HasHit snapshot.now.setup (state_in_shot snapshot.now) call strand.now) }
    ensures counted { WasTriedNear snapshot.now call strand.now tests.old tests.new }
{
    let mine = snapshot.ahead(strand)?;
    Ok(has_hit_among(snapshot, call, strand, &mine, tests))
}

// The hits of a new trajectory of a flight, whose slices for the look-ahead are given, in order.
fn hits_among(
    alloc: Global,
    snapshot: &Snapshot,
    call: Callsign,
    strand: &Strand,
    mine: &Subject,
    tests: &mut Tally,
) -> Result<Hits, Memory>
    requires ahead { IsAskedAhead snapshot.now strand.now mine.now }
    ensures hits { IfOk result (AreHitsOf snapshot.now.setup (state_in_shot snapshot.now) call strand.now) }
    ensures named { IfOk result (All (λ (hit : Clash). is_name 1 7 hit.with ≡ true)) }
    ensures counted { WasTriedNear snapshot.now call strand.now tests.old tests.new }
    ensures tested { IfOk result (λ hits. WereAtLeast (length hits) tests.old tests.new) }
{
    snapshot.keeps();
    strand.keeps();
    let own = snapshot.find(call);
    let mut list = Hits::make(alloc)?;
    let mut search = Search::begin();
    while let Some(met) = snapshot.next_meeting(&mut search, mine) {
        if let Some(hit) = hit_with(snapshot, met, own, strand, tests) {
            list.push(hit)?;
        }
    }
    list.order();
    Ok(list)
}

/// The hits of a new trajectory of a flight, in order. All that its slices meet in the look-ahead is tested where it is flown, and no other: it
/// can't lose separation there.
pub(crate) fn hits(
    alloc: Global,
    snapshot: &Snapshot,
    call: Callsign,
    strand: &Strand,
    tests: &mut Tally,
) -> Result<Hits, Memory>
    ensures hits { IfOk result (AreHitsOf snapshot.now.setup (state_in_shot snapshot.now) call strand.now) }
    ensures named { IfOk result (All (λ (hit : Clash). is_name 1 7 hit.with ≡ true)) }
    ensures counted { WasTriedNear snapshot.now call strand.now tests.old tests.new }
    ensures tested { IfOk result (λ hits. WereAtLeast (length hits) tests.old tests.new) }
{
    let mine = snapshot.ahead(strand)?;
    hits_among(alloc, snapshot, call, strand, &mine, tests)
}
