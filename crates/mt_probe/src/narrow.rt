//! A conflict over all seconds, and what it tells of a part of them.
ghost use Rattle.std.specs.Prelude.{◌≡◌, ◌<◌, ◌≤◌, ℕ, None, IfSome};
ghost use Rattle.mt_base.specs.declared.rules.Rules.{Rules};
ghost use Rattle.mt_base.specs.Conflict.{IsConflict, IsLossSecond};
ghost use Rattle.mt_base.specs.Span.{IsSolid};
ghost use Rattle.mt_base.specs.Trajectory.{Trajectory};
ghost use Rattle.mt_probe.specs.Narrow.{CrossesOne};

use mt_base::Second;
use mt_pair::crosses_one;

/// What a conflict in some seconds tells of those of them from `from` on and before `to`, of any two trajectories: the conflict there, or
/// nothing where it crosses one of the two edges.
pub fn narrowed(
    whole: Option<(Second, Second)>,
    from: Second,
    to: Second,
) -> Option<Option<(Second, Second)>>
    requires { from ≤ to }
    ensures exact { IfSome result (λ part. (rules : Rules) (a b : Trajectory) (begin end : ℕ) → begin ≤ from → to ≤ end
        → IsConflict rules a b begin end whole → IsConflict rules a b from to part) }
    ensures none { result ≡ None → CrossesOne from to whole }
{
    let Some((first, last)) = whole else {
        return Some(None);
    };
    if crosses_one(first, last, from, to) {
        return None;
    }
    if last < from || to <= first {
        return Some(None);
    }
    Some(whole)
}

/// What of a solid conflict in some seconds lies in those of them from `from` on and before `to`, of any two trajectories: the conflict there.
pub(crate) fn part_within(
    whole: Option<(Second, Second)>,
    from: Second,
    to: Second,
) -> Option<(Second, Second)>
    requires { from < to }
    ensures { (rules : Rules) (a b : Trajectory) (begin end : ℕ) → begin ≤ from → to ≤ end
        → IsConflict rules a b begin end whole → IsSolid (IsLossSecond rules a b) whole → IsConflict rules a b from to result }
{
    let (first, last) = whole?;
    let (first, last) = (first.max(from), last.min(to - 1));
    if first <= last {
        Some((first, last))
    } else {
        None
    }
}
