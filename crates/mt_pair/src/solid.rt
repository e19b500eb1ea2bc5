//! Whether the span of a loss is solid: each second from its first to its last one has a loss.
ghost use Rattle.std.specs.Prelude.{◌≡◌, true};
ghost use Rattle.mt_base.specs.Span.{joined};
ghost use Rattle.mt_pair.specs.Private.Together.{AreAdjacent};

use mt_base::Second;
use mt_track::join;

/// A loss in some seconds, and what is known of the seconds of its span.
#[derive(Clone, Copy)]
pub struct Loss {
    /// The first and the last second with a loss; `None` where there is none.
    pub span: Option<(Second, Second)>,
    /// Whether it is known that each second between these has a loss too. Where it says no, nothing is said.
    pub solid: bool,
}

/// Whether no second lies between a span and a later one. Where one of them is none, none does.
fn are_adjacent(span: Option<(Second, Second)>, later: Option<(Second, Second)>) -> bool
    ensures { result ≡ true → AreAdjacent span later }
{
    let Some((_, last)) = span else {
        return true;
    };
    let Some((first, _)) = later else {
        return true;
    };
    first <= last || first - last == 1
}

impl Loss {
    /// A loss and a later part of it together.
    pub(crate) fn join(self, later: Loss) -> Loss
        ensures span { result.span ≡ joined self.span later.span }
        ensures solid { result.solid ≡ true → (self.solid ≡ true) × (later.solid ≡ true) × AreAdjacent self.span later.span }
    {
        Loss {
            span: join(self.span, later.span),
            solid: self.solid && later.solid && are_adjacent(self.span, later.span),
        }
    }
}
