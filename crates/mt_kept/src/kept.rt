ghost use Rattle.std.specs.Prelude.{◌≡◌, ◌*◌, ◌<◌, ◌≤◌, ◌↔◌, [], All, Contains, IfOk, List, None, OnErr, OnOk, Option, filter, length, map, replicate};
ghost use Rattle.std.specs.List.{sum_by};
ghost use Rattle.mt_base.specs.Bounds.{AreWithinBounds};
ghost use Rattle.mt_base.specs.declared.conflict.Conflict.{Conflict};
ghost use Rattle.mt_base.specs.Picture.{IsPublishedOf, NamedTrajectory};
ghost use Rattle.mt_track.specs.Named.{named};
ghost use Rattle.mt_kept.specs.Dropped.{WereStepsOf};
ghost use Rattle.mt_kept.specs.Finds.{Agree, AreCandidates, AreFindsAt, AreFindsOfPlaces, cost};
ghost use Rattle.mt_kept.specs.Private.Made.{is_at_border, opens};
ghost use Rattle.mt_kept.specs.Private.Window.{AreOwnPairs, Shows};
ghost use Rattle.mt_kept.specs.Places.{HaveOwnPlaces, change_place, held, seen, with_changes};
ghost use Rattle.mt_base.specs.Tally.{RoseUpTo};
ghost use Rattle.mt_kept.specs.Window.{WasTestedOnce};

use crate::changes::{PlaceChange, put_items, replace_pairs};
use crate::conflict_list::ConflictList;
use crate::finds::{Candidate, gather};
use crate::lists::{bordering_of, drop_changed, due_pairs, tested_at};
use crate::open_pair::OpenPair;
use crate::renewing::{in_order_of_publishing, renew, renew_bordering};
use crate::showing::{shown_of, shown_pairs};
use crate::stale::Stale;
use mt_base::{Conflict, Memory, Rules, Second, Steps, Tally};
use mt_edges::Edges;
use mt_track::Item;
use std::alloc::Global;
use std::marker::Model;

/// The conflicts of the trajectories in some places, kept while these change: the pairs of places that lose separation over all
/// seconds, those of them at the border of the window, and what is published.
#[derive(Drop)]
pub struct Kept {
    rules: Rules,
    moment: Second,
    places: Vec<Option<Item>>,
    pairs: Edges,
    /// The open pairs at the border of the window: they begin before it, or don't end before its last second. What the others show is their
    /// span.
    bordering: Vec<OpenPair>,
    published: ConflictList,
}

impl Model for Kept {
    ghost use Rattle.std.specs.Prelude.{map};
    ghost use Rattle.mt_kept.specs.Kept.{Watched};
    ghost use Rattle.mt_kept.specs.Private.Kept.{ArePairsKept};
    ghost use Rattle.mt_kept.specs.Places.{seen};

    ghost Value = { Watched };

    ghost view = { λ k. record { rules = k.rules; moment = k.moment; places = map seen k.places.items; published = k.published.conflicts } };

    ghost invariant = { λ k. ArePairsKept k.rules k.moment (map seen k.places.items) k.pairs.edges k.pairs.ends k.bordering.items k.published.conflicts };
}

impl Kept {
    /// Twice as many empty places as there are slots, at moment 0.
    pub fn make(alloc: Global, rules: &Rules, slots: u32) -> Result<Kept, Memory>
        requires bounds { AreWithinBounds rules.now }
        requires few { slots < 2147483648 }
        ensures { IfOk result (λ kept. kept ≡ record { rules = rules.now; moment = 0; places = replicate (2 * slots) None; published = [] }) }
    {
        let count = 2 * slots;
        let mut places = Vec::new(alloc);
        for _ in 0..count {
            places.push(None)?;
        }
        Ok(Kept {
            rules: *rules,
            moment: 0,
            places,
            pairs: Edges::make(alloc, count)?,
            bordering: Vec::new(alloc),
            published: ConflictList::make(alloc),
        })
    }

    /// The moment from which the window lasts.
    pub fn moment(&self) -> Second
        ensures { result ≡ self.now.moment }
    {
        self.moment
    }

    /// What stands in the places.
    pub fn places(&self) -> &[Option<Item>]
        ensures { map seen result.now ≡ self.now.places }
    {
        &self.places
    }

    /// The conflicts of the trajectories in the window of 1,200 seconds from the moment: of every two of different flights their
    /// conflict, where they have one, and no other, once, in the order of publishing.
    pub fn published(&self) -> &[Conflict]
        ensures same { result.now ≡ self.now.published }
        ensures published { IsPublishedOf self.now.rules self.now.moment (held self.now.places) self.now.published }
    {
        self.published.items()
    }

    /// The pairs of an item that is to stand in a place, with the trajectories of other flights in the other places. They are those of
    /// that place after each change that puts the item there and leaves the places of other flights as they are.
    ///
    /// It asks that each place is listed once at most, that each whose trajectory loses separation from the item is listed, and that
    /// what is known of the listed ones is right. Listed places that are empty, the place itself and places of the item's own flight are
    /// passed over. A pair whose conflict isn't known is tested at most twice, one that is known at most once and only where its span
    /// straddles an edge of the window.
    pub fn gather(
        &self,
        alloc: Global,
        place: u32,
        item: &Item,
        candidates: &[Candidate],
        tests: &mut Tally,
    ) -> Result<Vec<OpenPair>, Memory>
        requires { AreCandidates self.now.rules self.now.places place (named item.now) candidates.now }
        ensures finds { IfOk result (λ finds. (after : List (Option NamedTrajectory)) → Agree self.now.places after place (named item.now)
            → AreFindsAt self.now.rules after self.now.moment place finds.items) }
        ensures counted { RoseUpTo (sum_by (cost self.now.places place item.now.call self.now.moment) candidates.now) tests.old tests.new }
    {
        gather(
            alloc,
            &self.places,
            place,
            item,
            candidates,
            &self.rules,
            self.moment,
            tests,
        )
    }

    /// The pairs of a place, each with what it shows where it is open. It makes no test.
    fn of(&self, alloc: Global, place: u32) -> Result<Vec<OpenPair>, Memory>
        requires { place < length self.now.places }
        ensures { IfOk result (λ finds. AreFindsAt self.now.rules self.now.places self.now.moment place finds.items) }
    {
        let own = self.pairs.of(place)?;
        let tested = tested_at(alloc, &self.bordering, place, &own, self.moment)?;
        shown_pairs(alloc, &self.places, &tested, &own, self.moment)
    }

    /// The pairs of the places that change, each with what it shows where it is open. A pair of two of them is there twice.
    fn of_changed(&self, alloc: Global, changes: &[PlaceChange]) -> Result<Vec<OpenPair>, Memory>
        requires { All (λ c. c.place < length self.now.places) changes.now }
        ensures { IfOk result (λ own. AreOwnPairs self.now.rules self.now.places self.now.moment (map change_place changes.now) own.items) }
    {
        let mut own = Vec::new(alloc);
        for change in changes {
            let others = self.of(alloc, change.place)?;
            own.extend_from_slice(&others)?;
        }
        Ok(own)
    }

    /// What the changed places' own pairs show, what those show that were found for them, and which of these are at the border of the window.
    fn prepare(
        &self,
        alloc: Global,
        own: &[OpenPair],
        finds: &[OpenPair],
    ) -> Result<(ConflictList, ConflictList, Vec<OpenPair>), Memory>
        ensures hidden { IfOk result (λ it. (c : Conflict) → Contains it.0.conflicts c ↔ Shows (filter (opens self.now.moment) own.now) c) }
        ensures shown { IfOk result (λ it. (c : Conflict) → Contains it.1.conflicts c ↔ Shows (filter (opens self.now.moment) finds.now) c) }
        ensures bordering { IfOk result (λ it. it.2.items ≡ filter (is_at_border self.now.moment) finds.now) }
    {
        let hidden = shown_of(alloc, own, self.moment)?;
        let shown = shown_of(alloc, finds, self.moment)?;
        let bordering = bordering_of(alloc, finds, self.moment)?;
        Ok((hidden, shown, bordering))
    }

    /// Changes what stands in places: each item, or nothing, comes into its place, one after another, and the pairs of these places are
    /// replaced by those that were found for them. It makes no test, and takes all its memory before it changes anything, so on an error
    /// all stays as it was. A place that keeps its trajectory need not be named: its pairs with other such places stay.
    ///
    /// It makes at most six steps for each pair of which an end changed, and one for each change; a step is one link written or one node of
    /// a pair visited. Besides it looks at those pairs and at the finds, and copies what is published; at the pairs at the border of the
    /// window it looks only where one of those pairs is there. A caller that bounds no steps hands in a `Steps::new()` and forgets it.
    pub fn change(
        &mut self,
        changes: Vec<PlaceChange>,
        finds: &[OpenPair],
        steps: &mut Steps,
    ) -> Result<(), Memory>
        requires places { All (λ c. c.place < length self.old.places) changes.items }
        requires own { HaveOwnPlaces (with_changes self.old.places changes.items) }
        requires finds { AreFindsOfPlaces self.old.rules (with_changes self.old.places changes.items) self.old.moment (map change_place changes.items) finds.now }
        ensures rules { self.new.rules ≡ self.old.rules }
        ensures moment { self.new.moment ≡ self.old.moment }
        ensures ok { OnOk result (self.new.places ≡ with_changes self.old.places changes.items) }
        ensures err { OnErr result (self.new ≡ self.old) }
        ensures steps { WereStepsOf self.old.rules self.old.places (map change_place changes.items) steps.old steps.new }
    {
        let Ok(count) = u32::try_from(finds.len()) else {
            return Err(Memory);
        };
        let alloc = *self.bordering.allocator();
        let own = self.of_changed(alloc, &changes)?;
        let (hidden, shown, bordering) = self.prepare(alloc, &own, finds)?;
        self.pairs.reserve(count)?;
        self.bordering.reserve(bordering.len())?;
        self.published.reserve(shown.items().len())?;
        replace_pairs(&mut self.pairs, &changes, finds, steps);
        drop_changed(&mut self.bordering, &changes, &own, self.moment);
        let _ = self.bordering.extend_from_slice(&bordering);
        self.published.replace(&hidden, &shown);
        put_items(&mut self.places, changes);
        Ok(())
    }

    /// Moves the window to a later moment, or to the same. It makes at most as many tests as pairs straddle an edge of the new window; one
    /// that is known to be solid needs none. Besides these it looks at the pairs at the border of the earlier window and at those that begin
    /// between the moments or between the ends of the windows. Of what is published it sorts only what these show, and keeps the rest in
    /// order. It takes all its memory before it changes anything, so on an error all stays as it was.
    pub fn move_to(&mut self, alloc: Global, now: Second, tests: &mut Tally) -> Result<(), Memory>
        requires later { self.old.moment ≤ now }
        requires early { now ≤ 10000000 }
        ensures rules { self.new.rules ≡ self.old.rules }
        ensures places { self.new.places ≡ self.old.places }
        ensures ok { OnOk result (self.new.moment ≡ now) }
        ensures err { OnErr result (self.new ≡ self.old) }
        ensures counted { WasTestedOnce self.old.rules self.old.places now tests.old tests.new }
    {
        let mut stale = Stale::make(alloc, self.moment, now)?;
        let mut renewed = Vec::new(alloc);
        renew_bordering(
            &self.places,
            &self.bordering,
            self.moment,
            &mut stale,
            &self.rules,
            now,
            tests,
            &mut renewed,
        )?;
        let due = due_pairs(alloc, &self.pairs, &stale, self.moment, now)?;
        renew(&self.places, &due, &self.rules, now, tests, &mut renewed)?;
        let (bordering, come) = in_order_of_publishing(alloc, renewed, now)?;
        self.published.reserve(come.items().len())?;
        self.moment = now;
        self.bordering = bordering;
        self.published.renew(&stale, &come);
        Ok(())
    }
}
