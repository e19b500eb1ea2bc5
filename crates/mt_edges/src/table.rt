ghost use Rattle.std.specs.Prelude.{◌≡◌, ◌≢◌, ℕ, ◌+◌, ◌-◌, ◌/◌, ◌^◌, ◌<◌, ◌≤◌, ◌++◌, Some, length, [], OnOk, OnErr, IfOk, IfSome, IfNone, Contains, All};
ghost use Rattle.mt_edges.specs.Private.Kept.{HasRoom, IsDropped, AreEdgesGathered, IsRoomier, IsTable, IsWalk, in_range_of, node_at, standing_pairs};
ghost use Rattle.mt_edges.specs.Private.Laid.{IsHead};
ghost use Rattle.mt_edges.specs.Pairs.{HaveSameEnds, IsEdge, IsWith};
ghost use Rattle.mt_edges.specs.declared.edge.Edge.{Edge};

use crate::edge::Edge;
use crate::links::Links;
use mt_base::{Second, Steps};
use mt_memory::Memory;
use std::alloc::Global;

/// How many seconds a bucket has.
pub(crate) const BUCKET: u32 = 256;

/// How many buckets there are: the last second of a conflict is below 10,014,400.
const BUCKETS: usize = 39_119;

/// Nodes, each with a pair or free. A pair stands in three lists: that of its lesser end, that of its greater end, and that of its bucket,
/// the 256 seconds in which it begins. Place 0 of the links is the end of all lists; after it come the heads of the ends and of the
/// buckets, and from `base` on three places for each node, for these three lists.
#[derive(Drop)]
pub(crate) struct Table {
    /// How many ends there are.
    pub(crate) ends: usize,
    /// The first place of the first node.
    pub(crate) base: usize,
    /// The nodes, by number.
    pub(crate) nodes: Vec<Option<Edge>>,
    /// The numbers of free nodes, of which the first `spare` count.
    pub(crate) free: Vec<usize>,
    /// How many nodes are free.
    pub(crate) spare: usize,
    /// The links of the lists.
    pub(crate) links: Links,
}

/// Puts a pair after others, if it begins in a range of seconds.
fn keep(edge: Edge, from: Second, to: Second, out: &mut Vec<Edge>) -> Result<(), Memory>
    ensures { OnOk result (out.new.items ≡ out.old.items ++ in_range_of from to (Some edge)) }
{
    if from <= edge.first && edge.first < to {
        out.push(edge)?;
    }
    Ok(())
}

/// At least that many numbers: those that were there, and zeros after them.
fn lengthen(numbers: &mut Vec<usize>, least: usize) -> Result<(), Memory>
    ensures kept { IsRoomier numbers.old.items numbers.new.items }
    ensures ok { OnOk result (least ≤ length numbers.new.items) }
{
    if numbers.len() < least {
        numbers.resize(least, 0)?;
    }
    Ok(())
}

impl Table {
    /// No node.
    pub(crate) fn make(alloc: Global, ends: u32) -> Result<Table, Memory>
        ensures kept { IfOk result IsTable }
        ensures ends { IfOk result (λ t. t.ends ≡ ends) }
        ensures spare { IfOk result (λ t. t.spare ≡ 0) }
        ensures nodes { IfOk result (λ t. t.nodes.items ≡ []) }
    {
        let ends = ends as usize;
        let base = 1 + ends + BUCKETS;
        Ok(Table {
            ends,
            base,
            nodes: Vec::new(alloc),
            free: Vec::new(alloc),
            spare: 0,
            links: Links::make(alloc, base)?,
        })
    }

    /// That many free nodes more. On an error there are as many as before.
    pub(crate) fn grow(&mut self, count: usize) -> Result<(), Memory>
        requires kept { IsTable self.old }
        requires few { count < 2 ^ 32 }
        ensures kept { IsTable self.new }
        ensures ends { self.new.ends ≡ self.old.ends }
        ensures edges { standing_pairs self.new.nodes.items ≡ standing_pairs self.old.nodes.items }
        ensures ok { OnOk result (self.new.spare ≡ self.old.spare + count) }
        ensures err { OnErr result (self.new.spare ≡ self.old.spare) }
    {
        self.take_room(count)?;
        for _ in 0..count {
            self.add_node();
        }
        Ok(())
    }

    /// Takes memory for that many nodes more. The nodes stay, whatever the result.
    fn take_room(&mut self, count: usize) -> Result<(), Memory>
        requires kept { IsTable self.old }
        requires few { count < 2 ^ 32 }
        ensures kept { IsTable self.new }
        ensures ends { self.new.ends ≡ self.old.ends }
        ensures nodes { self.new.nodes.items ≡ self.old.nodes.items }
        ensures spare { self.new.spare ≡ self.old.spare }
        ensures room { OnOk result (HasRoom self.new count) }
    {
        self.links.room(3 * count)?;
        lengthen(&mut self.free, self.nodes.len() + count)?;
        self.nodes.reserve(count)?;
        Ok(())
    }

    /// One free node more, for which memory was taken.
    fn add_node(&mut self)
        requires kept { IsTable self.old }
        requires room { HasRoom self.old 1 }
        ensures kept { IsTable self.new }
        ensures ends { self.new.ends ≡ self.old.ends }
        ensures edges { standing_pairs self.new.nodes.items ≡ standing_pairs self.old.nodes.items }
        ensures spare { self.new.spare ≡ self.old.spare + 1 }
        ensures room { (count : ℕ) → HasRoom self.old (count + 1) → HasRoom self.new count }
    {
        let node = self.nodes.len();
        self.nodes.push_reserved(None);
        self.free[self.spare] = node;
        self.spare += 1;
    }

    /// Drops the pair at a place of the list of an end that is let go as a whole, and gives the next place of that list. It makes at most
    /// six steps: a node is visited, two places are taken out of their lists, and the node is put on the stack of free ones.
    pub(crate) fn release(&mut self, end: u32, place: usize, steps: &mut Steps) -> usize
        requires walk { IsWalk self.old (1 + end) place }
        requires end { end < self.old.ends }
        requires some { place ≢ 0 }
        ensures walk { IsWalk self.new (1 + end) result }
        ensures ends { self.new.ends ≡ self.old.ends }
        ensures spare { self.new.spare ≡ self.old.spare + 1 }
        ensures dropped { IsDropped end self.old.nodes.items self.new.nodes.items }
        ensures steps { steps.new ≤ steps.old + 6 }
    {
        steps.raise();
        let offset = place - self.base;
        let node = offset / 3;
        let first = self.base + 3 * node;
        let other = if place == first { first + 1 } else { first };
        self.links.unlink(other, steps);
        self.links.unlink(first + 2, steps);
        self.nodes[node] = None;
        self.free[self.spare] = node;
        self.spare += 1;
        steps.raise();
        self.links.behind(place)
    }

    /// Puts a pair into a free node, and the node's places into the pair's lists.
    pub(crate) fn put(&mut self, edge: Edge)
        requires kept { IsTable self.old }
        requires spare { 0 < self.old.spare }
        requires sound { IsEdge self.old.ends edge }
        requires new { (i : ℕ) (f : Edge) → node_at self.old.nodes.items i ≡ Some f → ¬ HaveSameEnds f edge }
        ensures kept { IsTable self.new }
        ensures ends { self.new.ends ≡ self.old.ends }
        ensures spare { self.new.spare + 1 ≡ self.old.spare }
        ensures edges { IsWith (standing_pairs self.old.nodes.items) edge (standing_pairs self.new.nodes.items) }
    {
        self.spare -= 1;
        let node = self.free[self.spare];
        let first = self.base + 3 * node;
        self.links.link(1 + edge.a as usize, first);
        self.links.link(1 + edge.b as usize, first + 1);
        self.links
            .link(1 + self.ends + (edge.first / BUCKET) as usize, first + 2);
        self.nodes[node] = Some(edge);
    }

    /// The pair that owns a place.
    fn edge(&self, place: usize) -> Edge
        requires base { self.now.base ≤ place }
        requires here { (e : Edge) × (node_at self.now.nodes.items ((place - self.now.base) / 3) ≡ Some e) }
        ensures { node_at self.now.nodes.items ((place - self.now.base) / 3) ≡ Some result }
    {
        match self.nodes[(place - self.base) / 3] {
            Some(edge) => edge,
            None => unreachable!(),
        }
    }

    /// Puts the pairs of a head's list that begin in a range of seconds after others.
    pub(crate) fn gather(
        &self,
        head: usize,
        from: Second,
        to: Second,
        out: &mut Vec<Edge>,
    ) -> Result<(), Memory>
        requires kept { IsTable self.now }
        requires head { IsHead self.now.base head }
        ensures { OnOk result (AreEdgesGathered self.now.ends head from to (standing_pairs self.now.nodes.items) out.old.items out.new.items) }
    {
        let mut place = self.links.behind(head);
        while place != 0 {
            let edge = self.edge(place);
            keep(edge, from, to, out)?;
            place = self.links.behind(place);
        }
        Ok(())
    }

    /// The pair of two ends, the lesser first.
    pub(crate) fn get(&self, a: u32, b: u32) -> Option<Edge>
        requires kept { IsTable self.now }
        requires end { a < self.now.ends }
        ensures some { IfSome result (λ e. Contains (standing_pairs self.now.nodes.items) e × (e.a ≡ a) × (e.b ≡ b)) }
        ensures none { IfNone result (All (λ e. ¬ ((e.a ≡ a) × (e.b ≡ b))) (standing_pairs self.now.nodes.items)) }
    {
        let mut place = self.links.behind(1 + a as usize);
        while place != 0 {
            let edge = self.edge(place);
            if edge.a == a && edge.b == b {
                return Some(edge);
            }
            place = self.links.behind(place);
        }
        None
    }
}
