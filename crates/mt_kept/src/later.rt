//! What an open pair shows in the window, from what it showed in the window from an earlier moment.
ghost use Rattle.std.specs.Prelude.{◌≡◌, ℕ, ◌+◌, ◌<◌, ◌≤◌, ◌||◌, map};
ghost use Rattle.mt_base.specs.Bounds.{AreWithinBounds};
ghost use Rattle.mt_base.specs.Conflict.{IsConflict, IsSpanOfLoss};
ghost use Rattle.mt_base.specs.Picture.{window_end};
ghost use Rattle.mt_base.specs.Trajectory.{horizon};
ghost use Rattle.mt_track.specs.Named.{named};
ghost use Rattle.mt_kept.specs.Losing.{IsPair, IsSolidAsSaid};
ghost use Rattle.mt_kept.specs.Places.{seen};
ghost use Rattle.mt_base.specs.StrikeOut.{one_if};
ghost use Rattle.mt_kept.specs.Private.Made.{IsFirstFrom, WereTestedOf, over_span};
ghost use Rattle.mt_kept.specs.Window.{IsFoundOf, IsOpen, ShowsInWindow, straddles};

use crate::open_pair::{OpenPair, is_straddling, is_tested};
use crate::showing::{items_of, paired, span_within};
use mt_base::{Conflict, Rules, Second, Tally, WINDOW};
use mt_edges::Edge;
use mt_pair::lose;
use mt_track::Item;

/// Leaves a test to spare where a pair straddles an edge of the window, and needs none.
fn leave_test(edge: &Edge, now: Second, spare: &mut bool)
    requires { now ≤ 10000000 }
    ensures left { spare.new ≡ (spare.old || straddles now edge.now) }
    ensures counted { (tests : ℕ) → WereTestedOf (one_if (straddles now edge.now) + one_if spare.old) (one_if spare.new) tests tests }
{
    if !*spare {
        *spare = is_straddling(edge, now);
    }
}

/// The first second of what was shown, where it isn't before that moment.
fn first_from(shown: &Option<Conflict>, now: Second) -> Option<Second>
    ensures { IsFirstFrom shown.now now result }
{
    let Some(conflict) = shown else {
        return None;
    };
    if conflict.first < now {
        return None;
    }
    Some(conflict.first)
}

/// The conflict in the window of a pair whose span straddles the moment.
///
/// Where the span ends in the window, it ends the conflict. That begins where it did, if this isn't before the moment; else the moment's second
/// alone is tested, as long as a test is to spare if that has no loss. Else what of the span lies in the window is tested.
fn span_begun(
    left: &Item,
    right: &Item,
    edge: &Edge,
    shown: &Option<Conflict>,
    rules: &Rules,
    now: Second,
    spare: &mut bool,
    tests: &mut Tally,
) -> Option<(Second, Second)>
    requires rules_kept { AreWithinBounds rules.now }
    requires early { now ≤ 10000000 }
    requires span { IsSpanOfLoss rules.now (named left.now).path (named right.now).path 0 horizon edge.now.first edge.now.last }
    requires begun { edge.now.first < now }
    requires lasting { now ≤ edge.now.last }
    requires shown { (moment : ℕ) × (moment ≤ now) × IsFoundOf rules.now moment (named left.now) (named right.now) shown.now }
    ensures conflict { IsConflict rules.now (named left.now).path (named right.now).path now (window_end now) result }
    ensures counted { WereTestedOf (1 + one_if spare.old) (one_if spare.new) tests.old tests.new }
{
    if edge.last < now + WINDOW {
        if let Some(first) = first_from(shown, now) {
            *spare = true;
            return Some((first, edge.last));
        }
        if *spare {
            if let Some((first, _)) = lose(
                &left.strand,
                &right.strand,
                rules,
                now,
                now + 1,
                tests,
            ) {
                return Some((first, edge.last));
            }
            *spare = false;
        }
    }
    let within = span_within(edge, now);
    lose(
        &left.strand,
        &right.strand,
        rules,
        within.0,
        within.1 + 1,
        tests,
    )
}

/// The conflict in the window of a pair whose span begins in it and straddles its end. Only the seconds that the earlier window doesn't have
/// are tested.
fn span_lasting(
    left: &Item,
    right: &Item,
    pair: &OpenPair,
    moment: Second,
    rules: &Rules,
    now: Second,
    tests: &mut Tally,
) -> Option<(Second, Second)>
    requires rules_kept { AreWithinBounds rules.now }
    requires early { now ≤ 10000000 }
    requires later { moment ≤ now }
    requires span { IsSpanOfLoss rules.now (named left.now).path (named right.now).path 0 horizon pair.now.edge.first pair.now.edge.last }
    requires begins { now ≤ pair.now.edge.first }
    requires was { IsOpen moment pair.now.edge }
    requires lasting { window_end now ≤ pair.now.edge.last }
    requires shown { IsFoundOf rules.now moment (named left.now) (named right.now) pair.now.conflict }
    ensures conflict { IsConflict rules.now (named left.now).path (named right.now).path now (window_end now) result }
    ensures counted { WereTestedOf 1 0 tests.old tests.new }
{
    let conflict = pair.conflict?;
    let from = moment + WINDOW;
    let last = match lose(
        &left.strand,
        &right.strand,
        rules,
        from,
        now + WINDOW,
        tests,
    ) {
        Some((_, last)) => last,
        None => conflict.last,
    };
    Some((pair.edge.first, last))
}

/// The conflict in the window of a pair that is open. It makes at most one test, and none but where the pair's span straddles an edge of the
/// window and isn't known to be solid; and a second one, where one is to spare.
fn span_later(
    left: &Item,
    right: &Item,
    pair: &OpenPair,
    moment: Second,
    rules: &Rules,
    now: Second,
    spare: &mut bool,
    tests: &mut Tally,
) -> Option<(Second, Second)>
    requires rules_kept { AreWithinBounds rules.now }
    requires early { now ≤ 10000000 }
    requires later { moment ≤ now }
    requires span { IsSpanOfLoss rules.now (named left.now).path (named right.now).path 0 horizon pair.now.edge.first pair.now.edge.last }
    requires solid { IsSolidAsSaid rules.now (named left.now).path (named right.now).path pair.now.edge }
    requires opened { IsOpen moment pair.now.edge × IsOpen now pair.now.edge }
    requires shown { IsFoundOf rules.now moment (named left.now) (named right.now) pair.now.conflict }
    ensures conflict { IsConflict rules.now (named left.now).path (named right.now).path now (window_end now) result }
    ensures counted { WereTestedOf (one_if (straddles now pair.now.edge) + one_if spare.old) (one_if spare.new) tests.old tests.new }
{
    let edge = &pair.edge;
    if !is_tested(edge, now) {
        leave_test(edge, now, spare);
        return Some(span_within(edge, now));
    }
    if edge.first < now {
        return span_begun(left, right, edge, &pair.conflict, rules, now, spare, tests);
    }
    span_lasting(left, right, pair, moment, rules, now, tests)
}

/// A conflict of the same two trajectories, over another span.
fn over_span(conflict: &Conflict, span: (Second, Second)) -> Conflict
    ensures { result ≡ over_span conflict.now span }
{
    Conflict {
        first: span.0,
        last: span.1,
        ..*conflict
    }
}

/// What an open pair of places shows in the window, from what it showed in the window from an earlier moment.
///
/// It makes at most one test, and none but where the pair's span straddles an edge of the window. A second one may be to spare from a pair
/// that straddles one too and needed none: it is for a loss that pauses at the moment.
pub(crate) fn shown_later(
    places: &[Option<Item>],
    pair: &OpenPair,
    moment: Second,
    rules: &Rules,
    now: Second,
    spare: &mut bool,
    tests: &mut Tally,
) -> Option<Conflict>
    requires rules_kept { AreWithinBounds rules.now }
    requires early { now ≤ 10000000 }
    requires later { moment ≤ now }
    requires pair { IsPair rules.now (map seen places.now) pair.now.edge }
    requires opened { IsOpen moment pair.now.edge × IsOpen now pair.now.edge }
    requires shown { ShowsInWindow rules.now (map seen places.now) moment pair.now.edge pair.now.conflict }
    ensures shown { ShowsInWindow rules.now (map seen places.now) now pair.now.edge result }
    ensures counted { WereTestedOf (one_if (straddles now pair.now.edge) + one_if spare.old) (one_if spare.new) tests.old tests.new }
{
    if !is_tested(&pair.edge, now) {
        if let Some(conflict) = &pair.conflict {
            leave_test(&pair.edge, now, spare);
            return Some(over_span(conflict, span_within(&pair.edge, now)));
        }
    }
    let (left, right) = items_of(places, &pair.edge);
    let span = span_later(left, right, pair, moment, rules, now, spare, tests)?;
    Some(paired(left, right, span))
}
