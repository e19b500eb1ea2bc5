ghost use Rattle.std.specs.Prelude.{◌≡◌, true, ◌+◌, ◌<◌, ◌≤◌, length};
ghost use Rattle.mt_base.specs.Bounds.{AreWithinBounds};
ghost use Rattle.mt_base.specs.Conflict.{IsConflict, IsLossSecond};
ghost use Rattle.mt_base.specs.Tally.{raised};
ghost use Rattle.mt_track.specs.Laid.{Covers};
ghost use Rattle.mt_pair.specs.Private.Held.{BeginsBy};
ghost use Rattle.mt_base.specs.Span.{IsSolid};

use crate::overlap::part;
use crate::solid::Loss;
use mt_base::{Rules, Second, Steps, Tally};
use mt_track::Strand;

/// A segment of a strand: its place, and the second after its last one.
#[derive(Clone, Copy)]
struct Held {
    place: usize,
    end: Second,
}

/// The segment that holds second k. It is looked for from the one at place i on, which begins by then.
fn holding(strand: &Strand, i: usize, k: Second) -> Held
    requires within { k < strand.now.start + length strand.now.rows }
    requires begun { BeginsBy strand.now i k }
    ensures ahead { k < result.end }
    ensures covers { Covers strand.now result.place k result.end }
{
    let segments = strand.segments();
    let mut place = i;
    while segments[place].to <= k {
        place += 1;
    }
    Held {
        place,
        end: segments[place].to,
    }
}

/// The conflict in seconds that both strands cover, by one walk along the segments of both: one stretch for each two that overlap.
fn walk(a: &Strand, b: &Strand, rules: &Rules, from: Second, to: Second) -> Loss
    requires rules_kept { AreWithinBounds rules.now }
    requires ordered { from ≤ to }
    requires a_begun { a.now.start ≤ from }
    requires b_begun { b.now.start ≤ from }
    requires a_within { to ≤ a.now.start + length a.now.rows }
    requires b_within { to ≤ b.now.start + length b.now.rows }
    ensures conflict { IsConflict rules.now a.now b.now from to result.span }
    ensures solid { result.solid ≡ true → IsSolid (IsLossSecond rules.now a.now b.now) result.span }
{
    let mut steps = Steps::new();
    let mut loss = Loss {
        span: None,
        solid: true,
    };
    let mut k = from;
    let mut i = 0;
    let mut j = 0;
    while k < to {
        let s = holding(a, i, k);
        let t = holding(b, j, k);
        let until = to.min(s.end).min(t.end);
        let more = part(a, s.place, b, t.place, rules, k, until, &mut steps);
        loss = loss.join(more);
        (k, i, j) = (until, s.place, t.place);
    }
    loss
}

/// The conflict of two strands in the seconds `from <= k < to`, as `lose` gives it, and whether it is known to be solid: that each second
/// from the first to the last has a loss.
///
/// It is known where neither strand flies above the level from which the greater minimum holds in a stretch with a loss, and no second
/// without one lies between two of these.
pub fn loss_of(
    a: &Strand,
    b: &Strand,
    rules: &Rules,
    from: Second,
    to: Second,
    tests: &mut Tally,
) -> Loss
    requires { AreWithinBounds rules.now }
    ensures conflict { IsConflict rules.now a.now b.now from to result.span }
    ensures solid { result.solid ≡ true → IsSolid (IsLossSecond rules.now a.now b.now) result.span }
    ensures counted { tests.new ≡ raised tests.old }
{
    tests.raise();
    let begin = from.max(a.start()).max(b.start());
    let end = to.min(a.end()).min(b.end());
    if end <= begin {
        return Loss {
            span: None,
            solid: true,
        };
    }
    walk(a, b, rules, begin, end)
}

/// The conflict of two strands in the seconds `from <= k < to`: the first and the last of these at some instant of which they lose
/// separation; `None` exactly where there is no such second.
pub fn lose(
    a: &Strand,
    b: &Strand,
    rules: &Rules,
    from: Second,
    to: Second,
    tests: &mut Tally,
) -> Option<(Second, Second)>
    requires { AreWithinBounds rules.now }
    ensures conflict { IsConflict rules.now a.now b.now from to result }
    ensures counted { tests.new ≡ raised tests.old }
{
    loss_of(a, b, rules, from, to, tests).span
}
