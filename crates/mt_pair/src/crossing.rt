//! Whether the span of a loss crosses an edge of a part of the seconds.
ghost use Rattle.std.specs.Prelude.{◌≡◌};
ghost use Rattle.mt_pair.specs.Crossing.{crosses_one};

use mt_base::Second;

/// Whether a span, from its first to its last second, crosses one of two edges: it begins before it and goes on at it.
pub fn crosses_one(first: Second, last: Second, from: Second, to: Second) -> bool
    ensures { result ≡ crosses_one from to first last }
{
    (first < from && from <= last) || (first < to && to <= last)
}
