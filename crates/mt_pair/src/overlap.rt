ghost use Rattle.std.specs.Prelude.{◌≡◌, true, ◌+◌, ◌-◌, ◌<◌, ◌≤◌};
ghost use Rattle.mt_base.specs.Bounds.{AreWithinBounds, IsBoundedRow};
ghost use Rattle.mt_base.specs.Conflict.{IsConflict, IsLossSecond};
ghost use Rattle.mt_base.specs.declared.rules.Rules.{Rules};
ghost use Rattle.mt_base.specs.Loss.{LosesIn};
ghost use Rattle.mt_base.specs.Tally.{raised};
ghost use Rattle.mt_track.specs.Laid.{Covers};
ghost use Rattle.mt_track.specs.Rows.{row_after};
ghost use Rattle.mt_frac.specs.Instants.{HoldsIn};
ghost use Rattle.mt_pair.specs.Private.Cases.{IsLoss};
ghost use Rattle.mt_pair.specs.Private.Held.{StandsAt};
ghost use Rattle.mt_pair.specs.Private.Together.{AreTogether};
ghost use Rattle.mt_base.specs.Span.{IsSolid, IsSpan};

use crate::approach::{Approach, High};
use crate::solid::Loss;
use crate::vertical::{are_far, are_low, both};
use mt_base::{Row, Rules, Second, Steps, Tally};
use mt_track::{Segment, Strand};

/// The first and the last second from `from` up to `to` with a loss, where the time of an approach is counted from `from`. At most 32 steps.
fn span_after(
    approach: &Approach<'_>,
    from: Second,
    to: Second,
    steps: &mut Steps,
) -> Option<(Second, Second)>
    requires some { from < to }
    requires short { to ≤ from + 14400 }
    ensures span { IsSpan (λ k. HoldsIn (IsLoss approach.now) (k - from)) from to result }
    ensures counted { steps.new ≤ steps.old + 32 }
{
    let (first, last) = approach.span_before(to - from, steps)?;
    Some((from + first, from + last))
}

/// The first and the last second from `from` up to `to` in which two trajectories with these approvals lose separation that have these rows
/// at `from` and keep their gains. At most 32 steps.
fn span_from(
    rules: &Rules,
    a_rvsm: bool,
    b_rvsm: bool,
    a: &Row,
    b: &Row,
    from: Second,
    to: Second,
    steps: &mut Steps,
) -> Option<(Second, Second)>
    requires rules_kept { AreWithinBounds rules.now }
    requires a_kept { IsBoundedRow a.now }
    requires b_kept { IsBoundedRow b.now }
    requires some { from < to }
    requires short { to ≤ from + 14400 }
    ensures span { IsSpan (λ k. LosesIn rules.now a_rvsm b_rvsm (row_after a.now (k - from)) (row_after b.now (k - from))) from to result }
    ensures counted { steps.new ≤ steps.old + 32 }
{
    let approved = both(a_rvsm, b_rvsm);
    if !are_low(approved, a, b, to - from) {
        let high = High::of(rules, approved, a, b);
        let approach = Approach::of(rules, a, b, Some(&high));
        return span_after(&approach, from, to, steps);
    }
    if are_far(rules, a, b, to - from) {
        return None;
    }
    let approach = Approach::of(rules, a, b, None);
    span_after(&approach, from, to, steps)
}

/// The same for two segments that cover these seconds.
fn overlap(
    rules: &Rules,
    s_rvsm: bool,
    t_rvsm: bool,
    s: &Segment,
    t: &Segment,
    from: Second,
    to: Second,
    steps: &mut Steps,
) -> Option<(Second, Second)>
    requires rules_kept { AreWithinBounds rules.now }
    requires s_stands { StandsAt s.now from }
    requires t_stands { StandsAt t.now from }
    requires some { from < to }
    requires short { to ≤ from + 14400 }
    ensures span { IsSpan (λ k. LosesIn rules.now s_rvsm t_rvsm (row_after s.now.first (k - s.now.from)) (row_after t.now.first (k - t.now.from))) from to result }
    ensures counted { steps.new ≤ steps.old + 32 }
{
    let a = s.first.later(from - s.from);
    let b = t.first.later(from - t.from);
    span_from(rules, s_rvsm, t_rvsm, &a, &b, from, to, steps)
}

/// The conflict of two strands in seconds that one segment of each covers, as `stretch` gives it. At most 32 steps.
fn span_in(
    a: &Strand,
    i: usize,
    b: &Strand,
    j: usize,
    rules: &Rules,
    from: Second,
    to: Second,
    steps: &mut Steps,
) -> Option<(Second, Second)>
    requires rules_kept { AreWithinBounds rules.now }
    requires a_covers { Covers a.now i from to }
    requires b_covers { Covers b.now j from to }
    requires some { from < to }
    ensures conflict { IsConflict rules.now a.now b.now from to result }
    ensures counted { steps.new ≤ steps.old + 32 }
{
    let left = a.segments();
    let right = b.segments();
    overlap(
        rules,
        a.rvsm(),
        b.rvsm(),
        &left[i],
        &right[j],
        from,
        to,
        steps,
    )
}

/// The conflict of two strands in seconds that one segment of each covers, from one on and before another: the first and the last second in
/// which they lose separation; `None` exactly where there is none.
///
/// `i` and `j` are the places of these segments. It takes no memory and at most 32 steps. Each step is one question about a loss in some of these
/// seconds: whether an instant of them has one, or whether the values at whole seconds or the quadratic alone tell so. It is a test of the pair,
/// and is counted as one, so no caller that is lent a tally tests pairs by stretches beside the count.
pub fn stretch(
    a: &Strand,
    i: usize,
    b: &Strand,
    j: usize,
    rules: &Rules,
    seconds: (Second, Second),
    steps: &mut Steps,
    tests: &mut Tally,
) -> Option<(Second, Second)>
    requires rules_kept { AreWithinBounds rules.now }
    requires a_covers { Covers a.now i seconds.0 seconds.1 }
    requires b_covers { Covers b.now j seconds.0 seconds.1 }
    requires some { seconds.0 < seconds.1 }
    ensures conflict { IsConflict rules.now a.now b.now seconds.0 seconds.1 result }
    ensures questions { steps.new ≤ steps.old + 32 }
    ensures counted { tests.new ≡ raised tests.old }
{
    tests.raise();
    span_in(a, i, b, j, rules, seconds.0, seconds.1, steps)
}

/// Whether in seconds that one segment of each of two strands covers each second between two with a loss has one too. It is known where
/// neither flies above the level from which the greater minimum holds. Where it says no, nothing is said.
fn are_together(a: &Strand, i: usize, b: &Strand, j: usize, from: Second, to: Second) -> bool
    requires a_covers { Covers a.now i from to }
    requires b_covers { Covers b.now j from to }
    requires some { from < to }
    ensures { result ≡ true → (rules : Rules) → AreWithinBounds rules → AreTogether (IsLossSecond rules a.now b.now) from to }
{
    let left = a.segments();
    let right = b.segments();
    let s = &left[i];
    let t = &right[j];
    let one = s.first.later(from - s.from);
    let other = t.first.later(from - t.from);
    are_low(both(a.rvsm(), b.rvsm()), &one, &other, to - from)
}

/// The conflict of two strands in seconds that one segment of each covers, as `stretch` gives it, and whether it is known to be solid.
pub(crate) fn part(
    a: &Strand,
    i: usize,
    b: &Strand,
    j: usize,
    rules: &Rules,
    from: Second,
    to: Second,
    steps: &mut Steps,
) -> Loss
    requires rules_kept { AreWithinBounds rules.now }
    requires a_covers { Covers a.now i from to }
    requires b_covers { Covers b.now j from to }
    requires some { from < to }
    ensures conflict { IsConflict rules.now a.now b.now from to result.span }
    ensures solid { result.solid ≡ true → IsSolid (IsLossSecond rules.now a.now b.now) result.span }
{
    let span = span_in(a, i, b, j, rules, from, to, steps);
    let solid = span.is_none() || are_together(a, i, b, j, from, to);
    Loss { span, solid }
}
