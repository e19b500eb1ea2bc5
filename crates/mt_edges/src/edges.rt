ghost use Rattle.std.specs.Prelude.{◌≡◌, ◌+◌, ◌*◌, ◌<◌, ◌≤◌, true, All, Contains, [], OnOk, OnErr, IfOk, IfSome, IfNone};
ghost use Rattle.mt_edges.specs.Pairs.{AreDistinctPairs, HaveSameEnds, IsEach, IsEdge, IsWith, degree, touches, without_end};

use crate::edge::Edge;
use crate::table::{BUCKET, Table};
use mt_base::{HORIZON, Second, Steps};
use mt_memory::Memory;
use std::alloc::Global;
use std::marker::Model;

/// Pairs of ends, seen as the list of them in no order that is told, with how many may be added before the next `reserve`, and how many
/// ends there are. No two pairs have the same two ends, and the lesser end stands first.
#[derive(Drop)]
pub struct Edges {
    table: Table,
}

impl Model for Edges {
    ghost use Rattle.mt_edges.specs.Pairs.{Pairs};
    ghost use Rattle.mt_edges.specs.Private.Kept.{IsTable, standing_pairs};

    ghost Value = { Pairs };

    ghost view = { λ s. record { edges = standing_pairs s.table.nodes.items; spare = s.table.spare; ends = s.table.ends } };

    ghost invariant = { λ s. IsTable s.table };
}

impl Edges {
    /// No pairs. Ends are the numbers below `ends`.
    pub fn make(alloc: Global, ends: u32) -> Result<Edges, Memory>
        ensures { IfOk result (λ made. made ≡ record { edges = []; spare = 0; ends = ends }) }
    {
        Ok(Edges {
            table: Table::make(alloc, ends)?,
        })
    }

    /// Takes memory, so that at least n pairs may be added. On an error nothing changes.
    pub fn reserve(&mut self, n: u32) -> Result<(), Memory>
        ensures ok { OnOk result (n ≤ self.new.spare) }
        ensures edges { self.new.edges ≡ self.old.edges }
        ensures ends { self.new.ends ≡ self.old.ends }
        ensures spare { self.old.spare ≤ self.new.spare }
        ensures err { OnErr result (self.new ≡ self.old) }
    {
        let (wanted, spare) = (n as usize, self.table.spare);
        if spare < wanted {
            self.table.grow(wanted - spare)?;
        }
        Ok(())
    }

    /// Drops all pairs of an end, each of which then makes room for another. It takes no memory.
    ///
    /// It makes at most six steps for each pair of that end, and one; a step is one link written or one node visited.
    pub fn drop_all(&mut self, end: u32, steps: &mut Steps)
        ensures edges { self.new.edges ≡ without_end end self.old.edges }
        ensures apart { AreDistinctPairs self.new.edges }
        ensures sound { All (IsEdge self.new.ends) self.new.edges }
        ensures spare { self.new.spare ≡ self.old.spare + degree end self.old.edges }
        ensures ends { self.new.ends ≡ self.old.ends }
        ensures steps { steps.new ≤ steps.old + 6 * degree end self.old.edges + 1 }
    {
        if end as usize >= self.table.ends {
            return;
        }
        self.drop_list(end, steps);
    }

    // The same of an end that is one.
    fn drop_list(&mut self, end: u32, steps: &mut Steps)
        requires end { end < self.old.ends }
        ensures edges { self.new.edges ≡ without_end end self.old.edges }
        ensures apart { AreDistinctPairs self.new.edges }
        ensures sound { All (IsEdge self.new.ends) self.new.edges }
        ensures spare { self.new.spare ≡ self.old.spare + degree end self.old.edges }
        ensures ends { self.new.ends ≡ self.old.ends }
        ensures steps { steps.new ≤ steps.old + 6 * degree end self.old.edges + 1 }
    {
        let head = 1 + end as usize;
        let mut place = self.table.links.behind(head);
        while place != 0 {
            place = self.table.release(end, place, steps);
        }
        self.table.links.clear(head, steps);
    }

    /// Adds a pair, at some place of the list. It takes no memory.
    pub fn add(&mut self, edge: Edge)
        requires spare { 0 < self.old.spare }
        requires sound { IsEdge self.old.ends edge }
        requires new { All (λ e. ¬ HaveSameEnds e edge) self.old.edges }
        ensures edges { IsWith self.old.edges edge self.new.edges }
        ensures apart { AreDistinctPairs self.new.edges }
        ensures sound { All (IsEdge self.new.ends) self.new.edges }
        ensures spare { self.new.spare + 1 ≡ self.old.spare }
        ensures ends { self.new.ends ≡ self.old.ends }
    {
        self.table.put(edge);
    }

    /// The pair of two ends, the lesser first; `None` exactly where it isn't there. It takes no memory. What the pairs always keep is said
    /// here too.
    pub fn get(&self, a: u32, b: u32) -> Option<Edge>
        ensures some { IfSome result (λ e. Contains self.now.edges e × (e.a ≡ a) × (e.b ≡ b)) }
        ensures none { IfNone result (All (λ e. ¬ ((e.a ≡ a) × (e.b ≡ b))) self.now.edges) }
        ensures apart { AreDistinctPairs self.now.edges }
        ensures sound { All (IsEdge self.now.ends) self.now.edges }
    {
        if a as usize >= self.table.ends {
            return None;
        }
        self.table.get(a, b)
    }

    /// The pairs of an end, each once, in no order that is told.
    pub fn of(&self, end: u32) -> Result<Vec<Edge>, Memory>
        ensures { IfOk result (λ found. IsEach (λ e. touches end e ≡ true) self.now.edges found.items) }
    {
        let mut found = Vec::new(*self.table.nodes.allocator());
        if end as usize >= self.table.ends {
            return Ok(found);
        }
        self.table
            .gather(1 + end as usize, 0, u32::MAX, &mut found)?;
        Ok(found)
    }

    /// The pairs with `from <= first < to`, each once, in no order that is told. It looks only at pairs of the buckets that meet the range.
    pub fn due(&self, from: Second, to: Second) -> Result<Vec<Edge>, Memory>
        ensures { IfOk result (λ found. IsEach (λ e. (from ≤ e.first) × (e.first < to)) self.now.edges found.items) }
    {
        let mut found = Vec::new(*self.table.nodes.allocator());
        let end = to.min(HORIZON);
        if from >= end {
            return Ok(found);
        }
        for bucket in from / BUCKET..(end - 1) / BUCKET + 1 {
            self.table.gather(1 + self.table.ends + bucket as usize, from, to, &mut found)?;
        }
        Ok(found)
    }
}
