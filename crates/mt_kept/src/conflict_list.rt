//! Conflicts in the order of publishing.
ghost use Rattle.std.specs.Prelude.{◌≡◌, ◌+◌, ◌≤◌, ◌↔◌, ◌⊎◌, [], Contains, OnOk, length, true};
ghost use Rattle.std.specs.List.Sorted.{IsStrictlySortedBy};
ghost use Rattle.mt_base.specs.declared.conflict.Conflict.{Conflict};
ghost use Rattle.mt_base.specs.Picture.{conflict_cmp};
ghost use Rattle.mt_kept.specs.Private.Stale.{stays};

use crate::merging::merge;
use crate::stale::Stale;
use mt_base::{Conflict, Memory};
use std::alloc::Global;
use std::marker::Model;
use std::mem::swap;

/// Conflicts in the order of publishing, each once, with how many there is room for.
#[derive(Drop)]
pub(crate) struct ConflictList {
    values: Vec<Conflict>,
    /// Where the list is made anew, in turns with the values. What it holds says nothing.
    aside: Vec<Conflict>,
}

impl Model for ConflictList {
    ghost use Rattle.std.specs.Prelude.{min, vec_capacity};
    ghost use Rattle.std.specs.List.Sorted.{IsStrictlySortedBy};
    ghost use Rattle.mt_base.specs.Picture.{conflict_cmp};
    ghost use Rattle.mt_kept.specs.Private.ConflictList.{Ordered};

    ghost Value = { Ordered };

    ghost view = { λ l. record { conflicts = l.values.items; room = min (vec_capacity l.values) (vec_capacity l.aside) } };

    ghost invariant = { λ l. IsStrictlySortedBy conflict_cmp l.values.items };
}

impl ConflictList {
    /// No conflicts.
    pub(crate) fn make(alloc: Global) -> ConflictList
        ensures { result.conflicts ≡ [] }
    {
        ConflictList {
            values: Vec::new(alloc),
            aside: Vec::new(alloc),
        }
    }

    /// These conflicts, each once. It takes no memory.
    pub(crate) fn of(alloc: Global, mut values: Vec<Conflict>) -> ConflictList
        ensures { (c : Conflict) → Contains result.conflicts c ↔ Contains values.items c }
    {
        values.sort_unstable();
        values.dedup();
        ConflictList {
            values,
            aside: Vec::new(alloc),
        }
    }

    /// The conflicts.
    pub(crate) fn items(&self) -> &[Conflict]
        ensures same { result.now ≡ self.now.conflicts }
        ensures sorted { IsStrictlySortedBy conflict_cmp self.now.conflicts }
    {
        &self.values
    }

    /// Takes memory, so that there is room for at least n conflicts more. The conflicts stay.
    pub(crate) fn reserve(&mut self, n: usize) -> Result<(), Memory>
        ensures room { OnOk result (length self.new.conflicts + n ≤ self.new.room) }
        ensures same { self.new.conflicts ≡ self.old.conflicts }
    {
        let count = self.values.len().checked_add(n).ok_or(Memory)?;
        self.values.reserve(n)?;
        self.aside.clear();
        self.aside.reserve(count)?;
        Ok(())
    }

    /// Takes the conflicts of one list out, where they are there, and puts those of another in. It takes no memory.
    pub(crate) fn replace(&mut self, hidden: &ConflictList, shown: &ConflictList)
        requires { length self.old.conflicts + length shown.now.conflicts ≤ self.old.room }
        ensures { (c : Conflict) → Contains self.new.conflicts c
            ↔ ((Contains self.old.conflicts c × (¬ Contains hidden.now.conflicts c)) ⊎ Contains shown.now.conflicts c) }
    {
        merge(&mut self.aside, &self.values, &hidden.values, &shown.values);
        swap(&mut self.values, &mut self.aside);
    }

    /// Keeps those of the conflicts that stay, and puts those of another list in. It takes no memory.
    pub(crate) fn renew(&mut self, stale: &Stale, come: &ConflictList)
        requires { length self.old.conflicts + length come.now.conflicts ≤ self.old.room }
        ensures { (c : Conflict) → Contains self.new.conflicts c
            ↔ ((Contains self.old.conflicts c × (stays stale.now c ≡ true)) ⊎ Contains come.now.conflicts c) }
    {
        self.values.retain(|conflict| stale.keeps(conflict));
        merge(&mut self.aside, &self.values, &[], &come.values);
        swap(&mut self.values, &mut self.aside);
    }
}
