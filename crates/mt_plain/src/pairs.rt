ghost use Rattle.std.specs.Prelude.{◌≤◌, map, IfOk, OnOk, OnErr, ◌≡◌};
ghost use Rattle.mt_base.specs.Bounds.{AreWithinBounds};
ghost use Rattle.mt_base.specs.Picture.{IsConflictOf, IsPublishedOf};
ghost use Rattle.mt_track.specs.Named.{named};
ghost use Rattle.mt_plain.specs.Private.Added.{AddsConflicts, IsOfRight};
ghost use Rattle.mt_base.specs.Tally.{RoseUpTo, raised_by};
ghost use Rattle.mt_plain.specs.Tests.{is_before, tests_of_left, pairs_of_different_flights};
ghost use Rattle.mt_plain.specs.Private.Tests.{tests_of_pair};

use mt_base::{Conflict, Conflicts, Memory, Rules, Second, Tally, WINDOW};
use mt_pair::lose;
use mt_track::{Item, Roster};
use std::alloc::Global;

/// Whether two items are a pair to be tested: of different flights, and the lesser callsign on the left.
fn are_pair(left: &Item, right: &Item) -> bool
    ensures { result ≡ is_before (named left.now) (named right.now) }
{
    left.call < right.call
}

/// Tests two items where they are a pair, and files their conflict in the window.
fn add_pair(
    left: &Item,
    right: &Item,
    now: Second,
    rules: &Rules,
    tests: &mut Tally,
    found: &mut Conflicts,
) -> Result<(), Memory>
    requires rules_kept { AreWithinBounds rules.now }
    requires early { now ≤ 10000000 }
    ensures found { OnOk result (AddsConflicts (IsConflictOf rules.now now (named left.now) (named right.now)) found.old found.new) }
    ensures counted { tests.new ≡ raised_by (tests_of_pair (named left.now) (named right.now)) tests.old }
{
    if !are_pair(left, right) {
        return Ok(());
    }
    let Some((first, last)) = lose(&left.strand, &right.strand, rules, now, now + WINDOW, tests)
    else {
        return Ok(());
    };
    found.push(Conflict {
        first,
        a: left.call,
        b: right.call,
        ka: left.kind,
        kb: right.kind,
        last,
    })
}

/// Does so for one left trajectory and each of the items.
fn add_pairs(
    left: &Item,
    items: &[Item],
    now: Second,
    rules: &Rules,
    tests: &mut Tally,
    found: &mut Conflicts,
) -> Result<(), Memory>
    requires rules_kept { AreWithinBounds rules.now }
    requires early { now ≤ 10000000 }
    ensures found { OnOk result (AddsConflicts (IsOfRight rules.now now (named left.now) (map named items.now)) found.old found.new) }
    ensures counted { OnOk result (tests.new ≡ raised_by (tests_of_left (map named items.now) (named left.now)) tests.old) }
    ensures limited { OnErr result (RoseUpTo (tests_of_left (map named items.now) (named left.now)) tests.old tests.new) }
{
    for right in items {
        add_pair(left, right, now, rules, tests, found)?;
    }
    Ok(())
}

/// The conflicts of the trajectories in the window of 1,200 seconds from `now`: for every two of different flights, their conflict
/// where they have one, and no other, once, in the order of publishing.
///
/// Each two trajectories of different flights are tested once: the tally rises by so many, up to the type's end, and on an error by
/// at most so many. It asks that the rules are within their bounds and `now` is at most 10,000,000.
pub fn all_pairs(
    alloc: Global,
    strands: &Roster,
    now: Second,
    rules: &Rules,
    tests: &mut Tally,
) -> Result<Conflicts, Memory>
    requires rules_kept { AreWithinBounds rules.now }
    requires early { now ≤ 10000000 }
    ensures published { IfOk result (λ found. IsPublishedOf rules.now now strands.now found) }
    ensures counted { OnOk result (tests.new ≡ raised_by (pairs_of_different_flights strands.now) tests.old) }
    ensures limited { OnErr result (RoseUpTo (pairs_of_different_flights strands.now) tests.old tests.new) }
{
    let items = strands.items();
    let mut found = Conflicts::make(alloc)?;
    for left in items {
        add_pairs(left, items, now, rules, tests, &mut found)?;
    }
    found.order();
    Ok(found)
}
