//! A pair of places, and whether it is open.
ghost use Rattle.std.specs.Prelude.{◌≡◌, ◌++◌, ◌∷◌, [], ◌≤◌, OnOk};
ghost use Rattle.mt_kept.specs.Made.{is_open_pair};
ghost use Rattle.mt_kept.specs.Private.Made.{borders, is_tested};
ghost use Rattle.mt_kept.specs.Window.{straddles};

use mt_base::{Conflict, Memory, Second, WINDOW};
use mt_edges::Edge;
use mt_pair::crosses_one;

/// A pair of places, the lesser first, with the conflict that their trajectories have in the window.
#[derive(Clone, Copy)]
pub struct OpenPair {
    /// The two places, and the conflict of their trajectories over all seconds.
    pub edge: Edge,
    /// Their conflict in the window, where they have one there.
    pub conflict: Option<Conflict>,
}

/// Whether the pair's span meets the window from `now`. It asks that `now` is at most 10,000,000.
pub fn is_open(edge: &Edge, now: Second) -> bool
    requires { now ≤ 10000000 }
    ensures { result ≡ is_open_pair now edge.now }
{
    edge.first < now + WINDOW && now <= edge.last
}

/// Whether an edge of the window from `now` lies inside the pair's span.
pub(crate) fn is_straddling(edge: &Edge, now: Second) -> bool
    requires { now ≤ 10000000 }
    ensures { result ≡ straddles now edge.now }
{
    crosses_one(edge.first, edge.last, now, now + WINDOW)
}

/// Whether what an open pair shows has to be tested: its span straddles an edge of the window and isn't known to be solid.
pub(crate) fn is_tested(edge: &Edge, now: Second) -> bool
    requires { now ≤ 10000000 }
    ensures { result ≡ is_tested now edge.now }
{
    is_straddling(edge, now) && !edge.solid
}

/// Whether the pair's span meets the window from `now` and reaches its border: it begins before it, or doesn't end before its last second.
pub(crate) fn is_bordering(edge: &Edge, now: Second) -> bool
    requires { now ≤ 10000000 }
    ensures { result ≡ borders now edge.now }
{
    is_open(edge, now) && (edge.first < now || now + WINDOW - 1 <= edge.last)
}

/// Puts a pair after the others.
pub(crate) fn push_pair(
    pairs: &mut Vec<OpenPair>,
    edge: Edge,
    conflict: Option<Conflict>,
) -> Result<(), Memory>
    ensures { OnOk result (pairs.new.items ≡ pairs.old.items ++ record { edge = edge; conflict = conflict } ∷ []) }
{
    pairs.push(OpenPair { edge, conflict })?;
    Ok(())
}
