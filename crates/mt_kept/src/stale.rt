//! Which of the published conflicts have to be made anew when the window moves.
ghost use Rattle.std.specs.Prelude.{◌≡◌, ◌≤◌, IfOk, Some, true};
ghost use Rattle.mt_kept.specs.Private.Stale.{AreStale, IsChangeMarked, IsSecondMarked, is_stale, stays};

use mt_base::{Conflict, Memory, Second, WINDOW};
use std::alloc::Global;

/// Seconds, each stale or not, when the window moves from an earlier moment to a later one: those that aren't in both windows are, and those
/// that are marked.
///
/// A published conflict that begins in no stale second and ends before the last one of the earlier window stays.
#[derive(Drop)]
pub(crate) struct Stale {
    /// The later moment.
    from: Second,
    /// The last second of the earlier window.
    last: Second,
    /// Whether a second of both windows is stale, one after another.
    marks: Vec<bool>,
    /// Whether one of these is.
    marked: bool,
}

/// Whether that conflict is shown.
fn is_shown(shown: &Option<Conflict>, conflict: &Conflict) -> bool
    ensures { result ≡ true → shown.now ≡ Some conflict.now }
{
    match shown {
        Some(other) => other == conflict,
        None => false,
    }
}

impl Stale {
    /// The seconds when the window moves from `moment` to `now`, none marked.
    pub(crate) fn make(alloc: Global, moment: Second, now: Second) -> Result<Stale, Memory>
        requires later { moment ≤ now }
        requires early { now ≤ 10000000 }
        ensures { IfOk result (AreStale moment now) }
    {
        let end = moment + WINDOW;
        let count = end.saturating_sub(now);
        Ok(Stale {
            from: now,
            last: end - 1,
            marks: vec![in alloc; false; count as usize]?,
            marked: false,
        })
    }

    /// Whether a second of both windows may be stale.
    pub(crate) fn is_marked(&self) -> bool
        ensures { result ≡ self.now.marked }
    {
        self.marked
    }

    /// Marks the second in which a conflict begins that a pair showed, where the pair shows it no more and it would stay.
    pub(crate) fn mark_change(&mut self, old: &Option<Conflict>, new: &Option<Conflict>)
        ensures { IsChangeMarked old.now new.now self.old self.new }
    {
        if let Some(conflict) = old {
            if self.keeps(conflict) && !is_shown(new, conflict) {
                self.mark(conflict.first);
            }
        }
    }

    /// Marks a second.
    fn mark(&mut self, second: Second)
        ensures { IsSecondMarked second self.old self.new }
    {
        self.marked = true;
        if second < self.from {
            return;
        }
        let place = (second - self.from) as usize;
        if place < self.marks.len() {
            self.marks[place] = true;
        }
    }

    /// Whether a second is stale.
    pub(crate) fn has(&self, second: Second) -> bool
        ensures { result ≡ is_stale self.now second }
    {
        if second < self.from {
            return true;
        }
        let place = (second - self.from) as usize;
        place >= self.marks.len() || self.marks[place]
    }

    /// Whether a published conflict stays.
    pub(crate) fn keeps(&self, conflict: &Conflict) -> bool
        ensures { result ≡ stays self.now conflict.now }
    {
        conflict.last < self.last && !self.has(conflict.first)
    }
}
