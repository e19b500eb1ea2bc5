//! The first and the last second of a range that have something: of one part after another, and by halving.
ghost use Rattle.std.specs.Prelude.{◌≡◌, ◌↔◌, ◌+◌, ◌<◌, ◌≤◌, ℕ, IsTrue};
ghost use Rattle.mt_base.specs.Span.{IsGreatest, IsLeast, joined};
ghost use Rattle.mt_base.specs.Tally.{raised};
ghost use Rattle.mt_track.specs.Seconds.{HasSome};

use mt_base::{Second, Steps};

/// The span of what a span and a later one hold.
pub fn join(
    span: Option<(Second, Second)>,
    later: Option<(Second, Second)>,
) -> Option<(Second, Second)>
    ensures { result ≡ joined span later }
{
    let Some((first, _)) = span else {
        return later;
    };
    let Some((_, last)) = later else {
        return span;
    };
    Some((first, last))
}

/// What some seconds have, asked of one part of a range where it is known that the whole range has such a second.
pub trait Halved {
    /// What a second has.
    ghost holds: { Self → ℕ → Type 0 };

    /// Whether some second from `low` on and before second `middle` has it, where some second from `low` on has. This is one step.
    fn is_before(&self, low: Second, middle: Second, steps: &mut Steps) -> bool
        requires ordered { low < middle }
        requires short { middle ≤ 14400 }
        requires some { (high : ℕ) × HasSome (holds self.now) low high }
        ensures is { IsTrue result ↔ HasSome (holds self.now) low middle }
        ensures counted { steps.new ≡ raised steps.old };

    /// Whether some second from `middle` on and before second `high` has it, where some second before `high` has. This is one step.
    fn is_from(&self, middle: Second, high: Second, steps: &mut Steps) -> bool
        requires ordered { middle < high }
        requires short { high ≤ 14400 }
        requires some { (low : ℕ) × HasSome (holds self.now) low high }
        ensures is { IsTrue result ↔ HasSome (holds self.now) middle high }
        ensures counted { steps.new ≡ raised steps.old };
}

/// The first second from `low` up to `high` that has it, by halving. It asks that one has, and that `high` is at most 14,400. At most 14 steps.
pub fn first_over<H: Halved>(what: &H, low: Second, high: Second, steps: &mut Steps) -> Second
    requires some { HasSome (H.holds what.now) low high }
    requires short { high ≤ 14400 }
    ensures is { IsLeast (H.holds what.now) low high result }
    ensures counted { steps.new ≤ steps.old + 14 }
{
    let mut begin = low;
    let mut end = high;
    while end - begin > 1 {
        let middle = begin + (end - begin) / 2;
        if what.is_before(begin, middle, steps) {
            end = middle;
        } else {
            begin = middle;
        }
    }
    begin
}

/// The last one. It asks the same, and takes as many steps.
pub fn last_over<H: Halved>(what: &H, low: Second, high: Second, steps: &mut Steps) -> Second
    requires some { HasSome (H.holds what.now) low high }
    requires short { high ≤ 14400 }
    ensures is { IsGreatest (H.holds what.now) low high result }
    ensures counted { steps.new ≤ steps.old + 14 }
{
    let mut begin = low;
    let mut end = high;
    while end - begin > 1 {
        let middle = begin + (end - begin) / 2;
        if what.is_from(middle, end, steps) {
            begin = middle;
        } else {
            end = middle;
        }
    }
    begin
}
