ghost use Rattle.std.specs.Prelude.{◌≡◌, ◌≢◌, ℕ, ◌+◌, ◌<◌, ◌≤◌, ◌^◌, length, replicate, slice_index, IfOk, OnOk};
ghost use Rattle.mt_edges.specs.Private.Laid.{CanLink, CanUnlink, IsLinked, IsLonger, IsUnlinked};

use mt_base::Steps;
use mt_memory::Memory;
use std::alloc::Global;

/// Lists of places, linked in both directions. Place 0 ends every list; the places after it are the heads of the lists, and the others
/// stand in one list or in none. What place 0 leads back to is written and never read, so neither end of a list is a case of its own.
#[derive(Drop)]
pub(crate) struct Links {
    pub(crate) next: Vec<usize>,
    pub(crate) prev: Vec<usize>,
}

impl Links {
    /// Empty lists, whose heads are the places from 1 to below `base`.
    pub(crate) fn make(alloc: Global, base: usize) -> Result<Links, Memory>
        ensures next { IfOk result (λ links. links.next.items ≡ replicate base 0) }
        ensures prev { IfOk result (λ links. links.prev.items ≡ replicate base 0) }
    {
        Ok(Links {
            next: vec![in alloc; 0; base]?,
            prev: vec![in alloc; 0; base]?,
        })
    }

    /// That many places more, which stand in no list. On an error there may be some more too.
    pub(crate) fn room(&mut self, count: usize) -> Result<(), Memory>
        requires { count < 2 ^ 34 }
        ensures longer { IsLonger self.old.next.items self.old.prev.items self.new.next.items self.new.prev.items }
        ensures ok { OnOk result (length self.new.next.items ≡ length self.old.next.items + count) }
    {
        let places = self.next.len() + count;
        if self.prev.len() < places {
            self.prev.resize(places, 0)?;
        }
        self.next.resize(places, 0)?;
        Ok(())
    }

    /// The place after a place; 0 at the end of its list.
    pub(crate) fn behind(&self, place: usize) -> usize
        requires { place < length self.now.next.items }
        ensures { result ≡ slice_index self.now.next.items place }
    {
        self.next[place]
    }

    /// Puts a place that stands in no list at the front of a head's list.
    pub(crate) fn link(&mut self, head: usize, place: usize)
        requires { CanLink self.old.next.items self.old.prev.items head place }
        ensures { IsLinked self.old.next.items self.old.prev.items self.new.next.items self.new.prev.items head place }
    {
        let behind = self.next[head];
        self.next[head] = place;
        self.next[place] = behind;
        self.prev[behind] = place;
        self.prev[place] = head;
    }

    /// Takes a place out of its list. It makes two steps: two links are written.
    pub(crate) fn unlink(&mut self, place: usize, steps: &mut Steps)
        requires { CanUnlink self.old.next.items self.old.prev.items place }
        ensures links { IsUnlinked self.old.next.items self.old.prev.items self.new.next.items self.new.prev.items place }
        ensures steps { steps.new ≤ steps.old + 2 }
    {
        let before = self.prev[place];
        let behind = self.next[place];
        self.next[before] = behind;
        steps.raise();
        self.prev[behind] = before;
        steps.raise();
    }

    /// Lets a list go as a whole; the links of its places stay as they are. It makes one step.
    pub(crate) fn clear(&mut self, head: usize, steps: &mut Steps)
        requires { head < length self.old.next.items }
        ensures lengths { length self.new.next.items ≡ length self.old.next.items }
        ensures first { slice_index self.new.next.items head ≡ 0 }
        ensures kept { (y : ℕ) → y ≢ head → slice_index self.new.next.items y ≡ slice_index self.old.next.items y }
        ensures back { self.new.prev ≡ self.old.prev }
        ensures steps { steps.new ≤ steps.old + 1 }
    {
        self.next[head] = 0;
        steps.raise();
    }
}
