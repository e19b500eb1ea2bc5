//! Numbers that are marked, to be listed in order, each once.
ghost use Rattle.std.specs.Prelude.{◌≡◌, ◌↔◌, ◌⊎◌, ◌<◌, ℕ, true, [], length, IfOk, OnOk};
ghost use Rattle.mt_grid.specs.Private.Marks.{AreMarked, IsMarked};

use mt_base::Memory;
use std::alloc::Global;
use std::marker::Model;

/// How many marks are made at a time, so that seldom any are.
const STEP: usize = 1024;

/// Which numbers are marked: a byte for each number up to the greatest marked one, and some more.
#[derive(Drop)]
pub(crate) struct Marks {
    alloc: Global,
    marked: Vec<bool>,
}

impl Model for Marks {
    ghost use Rattle.std.specs.Prelude.{◌≤◌, ◌^◌, Bool, List, length};

    ghost Value = { List Bool };

    ghost view = { λ s. s.marked.items };

    ghost invariant = { λ s. length s.marked.items ≤ 2 ^ 32 };
}

impl Marks {
    /// No number is marked.
    pub(crate) fn make(alloc: Global) -> Marks
        ensures { result ≡ [] }
    {
        Marks {
            alloc,
            marked: Vec::new(alloc),
        }
    }

    /// Makes room for the mark of a number.
    fn reach(&mut self, number: u32) -> Result<(), Memory>
        ensures room { OnOk result (number < length self.new) }
        ensures same { (k : ℕ) → IsMarked self.new k ↔ IsMarked self.old k }
    {
        let place = number as usize;
        if place >= self.marked.len() {
            self.marked.resize((place / STEP + 1) * STEP, false)?;
        }
        Ok(())
    }

    /// Marks a number where that is wanted. There is no branch on it, as it goes one way as often as the other.
    pub(crate) fn mark(&mut self, number: u32, wanted: bool) -> Result<(), Memory>
        ensures { OnOk result ((k : ℕ) → IsMarked self.new k
            ↔ (IsMarked self.old k ⊎ ((wanted ≡ true) × (number ≡ k)))) }
    {
        self.reach(number)?;
        let place = number as usize;
        self.marked[place] = self.marked[place] | wanted;
        Ok(())
    }

    /// The marked numbers, rising, each once.
    pub(crate) fn numbers(&self) -> Result<Vec<u32>, Memory>
        ensures { IfOk result (λ numbers. AreMarked self.now numbers.items) }
    {
        let mut numbers = Vec::new(self.alloc);
        for (number, marked) in self.marked.iter().enumerate() {
            if *marked {
                numbers.push(number as u32)?;
            }
        }
        Ok(numbers)
    }
}
