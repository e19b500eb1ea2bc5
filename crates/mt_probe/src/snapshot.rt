//! A picture as it was at one version.
ghost use Rattle.std.specs.Prelude.{◌≡◌, ◌↔◌, ◌<◌, ◌≤◌, ◌^◌, ◌+◌, None, Ok, Some, pos, length, replicate, IfOk, IfSome, IsTrue, OnErr, OnOk, is_some, true, option_copied, option_map, option_and_then};
ghost use Rattle.std.specs.Arc.{arc_value};
ghost use Rattle.mt_base.specs.Bounds.{AreWithinBounds};
ghost use Rattle.mt_base.specs.Picture.{flight_of, opening};
ghost use Rattle.mt_change.specs.Sound.{IsSoundState};
ghost use Rattle.mt_cover.specs.Sliced.{slices_of};
ghost use Rattle.mt_probe.specs.Private.Ahead.{IsAskedAhead};
ghost use Rattle.mt_probe.specs.Private.Body.{IsSameBody, shot_of};
ghost use Rattle.mt_probe.specs.Meeting.{AreMetItems, slices_by};
ghost use Rattle.mt_probe.specs.Private.Boxed.{IsNextMetOf, IsSearchedIn, IsSnapshotKept};
ghost use Rattle.mt_probe.specs.Items.{AreNearItems, IsNearItem, path_of};
ghost use Rattle.mt_probe.specs.Putting.{Fits, IsKindKept, made_beside, records_put, with_flight, with_moment};
ghost use Rattle.mt_probe.specs.Shot.{IsFreeIn, flight_at, kept_of, made_of, records_in, state_in_shot};
ghost use Rattle.mt_probe.specs.Standing.{IsSoundShot};

use crate::finding::kind_of;
use crate::flight::{Flight, Made};
use crate::index::Index;
use crate::nearness::share;
use crate::placing::moved;
use mt_base::{Callsign, Kind, Memory, Record, Rules, Second, WINDOW};
use mt_cover::{Cover, Slices, cover, slices, slices_until};
use mt_meet::{Met, Search, SliceTable, Subject};
use mt_paged::Paged;
use mt_tables::Tables;
use mt_track::Strand;
use std::alloc::{AllocError, Global};
use std::marker::Model;
use std::sync::Arc;

/// What a snapshot holds.
#[derive(Drop)]
pub struct Body {
    alloc: Global,
    rules: Rules,
    tables: Arc<Tables>,
    version: u64,
    moment: Second,
    slots: Paged<Flight>,
    table: SliceTable,
    index: Index,
}

impl Body {
    // The same once more. It copies no list.
    fn share(&self) -> Result<Body, Memory>
        ensures { IfOk result (IsSameBody self.now) }
    {
        Ok(Body {
            alloc: self.alloc,
            rules: self.rules,
            tables: Arc::try_clone(&self.tables)?,
            version: self.version,
            moment: self.moment,
            slots: self.slots.share()?,
            table: self.table.share()?,
            index: self.index.share()?,
        })
    }
}

impl Clone for Body {
    ghost use Rattle.mt_probe.specs.Private.Body.{IsSameBody};

    ghost is_clone = { IsSameBody };

    fn clone(&self) -> Result<Body, AllocError> {
        match self.share() {
            Ok(body) => Ok(body),
            Err(_) => Err(AllocError),
        }
    }
}

/// A picture as it was at one version.
#[derive(Drop)]
pub struct Snapshot {
    body: Arc<Body>,
}

impl Model for Snapshot {
    ghost use Rattle.std.specs.Arc.{arc_value};
    ghost use Rattle.mt_probe.specs.Shot.{Shot};
    ghost use Rattle.mt_probe.specs.Private.Body.{shot_of};
    ghost use Rattle.mt_probe.specs.Private.Boxed.{IsSnapshotKept};

    ghost Value = { Shot };

    ghost view = { λ s. shot_of (arc_value s.body) };

    ghost invariant = { λ s. IsSnapshotKept (shot_of (arc_value s.body)) (arc_value s.body).table (arc_value s.body).index };
}

impl Snapshot {
    /// The opening state, with as many empty places as the rules allow flights.
    pub fn opening(alloc: Global, rules: Rules, tables: Arc<Tables>) -> Result<Snapshot, Memory>
        requires { AreWithinBounds rules }
        ensures value { IfOk result (λ shot. shot ≡ record {
          setup = record { rules = rules; tables = arc_value tables };
          version = 0;
          now = 0;
          slots = replicate (length shot.slots) None;
        }) }
        ensures places { IfOk result (λ shot. pos (length shot.slots) ≡ rules.flights) }
        ensures state { IfOk result (λ shot. state_in_shot shot ≡ opening) }
    {
        let count = places(&rules);
        Ok(Snapshot {
            body: Arc::new(
                alloc,
                Body {
                    alloc,
                    rules,
                    tables,
                    version: 0,
                    moment: 0,
                    slots: Paged::make(alloc, count)?,
                    table: SliceTable::make(alloc, 2 * count)?,
                    index: Index::make(alloc)?,
                },
            )?,
        })
    }

    /// The same snapshot once more. It copies no list.
    pub fn share(&self) -> Result<Snapshot, Memory>
        ensures { IfOk result (λ shot. shot ≡ self.now) }
    {
        Ok(Snapshot {
            body: Arc::try_clone(&self.body)?,
        })
    }

    /// The opening snapshot of the same rules and tables. It copies no table.
    pub fn reopened(&self) -> Result<Snapshot, Memory>
        ensures setup { IfOk result (λ shot. shot.setup ≡ self.now.setup) }
        ensures version { IfOk result (λ shot. shot.version ≡ 0) }
        ensures state { IfOk result (λ shot. state_in_shot shot ≡ opening) }
    {
        let rules = *self.rules();
        let tables = Arc::try_clone(&self.body.tables)?;
        Snapshot::opening(self.body.alloc, rules, tables)
    }

    /// The version. What every snapshot keeps is said here too; its state is sound, as long as the version is one that a history can have.
    pub fn version(&self) -> u64
        ensures version { result ≡ self.now.version }
        ensures kept { IsSoundShot self.now }
        ensures sound { self.now.version ≤ 4194304 → IsSoundState self.now.setup (state_in_shot self.now) }
    {
        self.body.version
    }

    /// What every snapshot keeps: it is sound, and so is its state, as long as the version is one that a history can have. It does nothing.
    pub fn keeps(&self)
        ensures sound { IsSoundShot self.now }
        ensures state { self.now.version ≤ 4194304 → IsSoundState self.now.setup (state_in_shot self.now) }
    {
        self.version();
    }

    /// The moment.
    pub fn now(&self) -> Second
        ensures now { result ≡ self.now.now }
        ensures early { result ≤ 10000000 }
    {
        self.body.moment
    }

    /// The rules.
    pub fn rules(&self) -> &Rules
        ensures rules { result.now ≡ self.now.setup.rules }
        ensures kept { AreWithinBounds result.now }
    {
        &self.body.rules
    }

    /// The tables.
    pub fn tables(&self) -> &Tables
        ensures { result.now ≡ self.now.setup.tables }
    {
        &self.body.tables
    }

    /// How many places there are.
    pub fn slots(&self) -> u32
        ensures { result ≡ length self.now.slots }
    {
        places(&self.body.rules)
    }

    // What is at a place.
    fn at_place(&self, slot: u32) -> Option<&Flight>
        ensures { option_copied result ≡ flight_at self.now slot }
    {
        if slot < self.slots() {
            self.body.slots.get(slot)
        } else {
            None
        }
    }

    /// The flight at a place; `None` exactly where it is empty.
    pub fn flight(&self, slot: u32) -> Option<&Record>
        ensures { option_copied result ≡ option_map (λ f. f.card) (flight_at self.now slot) }
    {
        Some(&self.at_place(slot)?.card)
    }

    /// The version at which the flight at a place was filed.
    pub fn filed(&self, slot: u32) -> Option<u64>
        ensures { result ≡ option_map (λ f. f.filed) (flight_at self.now slot) }
    {
        Some(self.at_place(slot)?.filed)
    }

    /// The version of the last entry that names the flight at a place.
    pub fn named(&self, slot: u32) -> Option<u64>
        ensures { result ≡ option_map (λ f. f.named) (flight_at self.now slot) }
    {
        Some(self.at_place(slot)?.named)
    }

    // What the flight at a place has of a kind.
    fn made(&self, slot: u32, kind: Kind) -> Option<&Made>
        ensures { option_copied result ≡ option_and_then (λ f. made_of f kind) (flight_at self.now slot) }
    {
        let flight = self.at_place(slot)?;
        match kind {
            Kind::Actual => Some(&flight.actual),
            Kind::Tentative => flight.mark.as_ref(),
        }
    }

    /// The trajectory of a kind of the flight at a place.
    pub fn strand(&self, slot: u32, kind: Kind) -> Option<&Arc<Strand>>
        ensures { option_copied result ≡ option_map (λ m. m.strand) (option_and_then (λ f. made_of f kind) (flight_at self.now slot)) }
    {
        Some(&self.made(slot, kind)?.strand)
    }

    /// The version at which that trajectory was made.
    pub fn stamp(&self, slot: u32, kind: Kind) -> Option<u64>
        ensures { result ≡ option_map (λ m. m.stamp) (option_and_then (λ f. made_of f kind) (flight_at self.now slot)) }
    {
        Some(self.made(slot, kind)?.stamp)
    }

    /// The trajectory of a kind of the flight at a place, to be looked at.
    pub(crate) fn path(&self, slot: u32, kind: Kind) -> Option<&Strand>
        ensures { option_copied result ≡ option_and_then (path_of kind) (flight_at self.now slot) }
    {
        Some(&self.made(slot, kind)?.strand)
    }

    /// The place of the flight of that callsign, found by halving; `None` exactly where there is none.
    pub fn find(&self, call: Callsign) -> Option<u32>
        ensures there { IfSome result (λ slot. is_some (flight_at self.now slot) ≡ true) }
        ensures flight { flight_of (state_in_shot self.now).records call ≡ option_map (λ f. f.card) (option_and_then (flight_at self.now) result) }
    {
        self.keeps();
        self.body.index.find(call)
    }

    /// How many flights there are.
    pub fn flights(&self) -> u32
        ensures { result ≡ length (records_in self.now.slots) }
    {
        self.body.index.held()
    }

    /// A place that is free; `None` exactly where each has a flight.
    pub fn free(&self) -> Option<u32>
        ensures { IsFreeIn self.now.slots result }
    {
        self.keeps();
        self.body.index.free(&self.body.slots, self.slots())
    }

    /// Whether the trajectory that an item names is near a cover: it shares a cell with it, with a second in common. The trajectory that the
    /// flight at a place flies is item `2 * slot`, its tentative one item `2 * slot + 1`. An item that names none is near nothing.
    pub fn is_near(&self, mine: &Cover, item: u32) -> Result<bool, Memory>
        ensures { IfOk result (λ near. IsTrue near ↔ IsNearItem self.now mine.now item) }
    {
        let Some(strand) = self.path(item / 2, kind_of(item)) else {
            return Ok(false);
        };
        let theirs = cover(self.body.alloc, strand, self.rules())?;
        Ok(share(mine.stays(), theirs.stays()))
    }

    /// The items whose trajectories are near a cover, rising, each once. The cover of each trajectory that is kept is computed.
    pub fn near(&self, cover: &Cover) -> Result<Vec<u32>, Memory>
        ensures { IfOk result (λ items. AreNearItems self.now cover.now items.items) }
    {
        self.keeps();
        let mut items = Vec::new(self.body.alloc);
        for item in 0..2 * self.slots() {
            if self.is_near(cover, item)? {
                items.push(item)?;
            }
        }
        Ok(items)
    }

    /// The items whose trajectories have slices that meet those of a new one, rising, each once, with the first and the last second in which they
    /// do. No other can lose separation with it, and none in another second.
    pub fn meeting(&self, strand: &Strand) -> Result<Vec<Met>, Memory>
        ensures { IfOk result (λ list. AreMetItems self.now (slices_of self.now.setup.rules strand.now) list.items) }
    {
        let mine = self.slices(strand)?;
        self.meeting_by(&mine)
    }

    /// The same, by the slices of the new trajectory.
    pub fn meeting_by(&self, slices: &Arc<Slices>) -> Result<Vec<Met>, Memory>
        ensures { IfOk result (λ list. AreMetItems self.now (arc_value slices.now) list.items) }
    {
        let slices = Arc::try_clone(slices)?;
        let mine = Subject::of(self.body.alloc, self.rules(), slices)?;
        self.body.table.meeting(&mine)
    }

    /// The slices of a new trajectory.
    pub(crate) fn slices(&self, strand: &Strand) -> Result<Arc<Slices>, Memory>
        ensures { IfOk result (λ mine. arc_value mine ≡ slices_of self.now.setup.rules strand.now) }
    {
        let alloc = self.body.alloc;
        let mine = slices(alloc, strand, self.rules())?;
        Ok(Arc::new(alloc, mine)?)
    }

    /// The slices of a new trajectory for the look-ahead.
    pub(crate) fn ahead(&self, strand: &Strand) -> Result<Subject, Memory>
        ensures { IfOk result (IsAskedAhead self.now strand.now) }
    {
        let (alloc, rules) = (self.body.alloc, self.rules());
        let front = slices_until(alloc, strand, rules, self.now() + WINDOW)?;
        Subject::of(alloc, rules, Arc::new(alloc, front)?)
    }

    /// The next of the items, in a search through them, whose trajectories have slices that meet some, with the first and the last second in which
    /// they do; `None` exactly where no other has.
    pub(crate) fn next_meeting(&self, search: &mut Search, mine: &Subject) -> Option<Met>
        requires rules { mine.now.rules ≡ self.now.setup.rules }
        requires searched { IsSearchedIn self.now mine.now.sliced search.old }
        ensures next { IsNextMetOf self.now mine.now.sliced search.old.from result }
        ensures searched { IsSearchedIn self.now mine.now.sliced search.new }
        ensures on { IfSome result (λ met. search.new.from ≡ met.item + 1) }
    {
        self.body.table.next_meeting(search, mine)
    }

    /// The picture with that flight at a place, or none, one version later. This snapshot stays as it is.
    ///
    /// It asks that the version is below 2^40 and the place is one. A flight that is put must be sound, and its trajectories its own; no other
    /// place has its callsign; it keeps the filing of the flight that it replaces, or was filed after all others. The kind of trajectory that
    /// is said to stay must be the same as before; nothing is made anew for it. To say nothing of it is right of each flight. Slices that are given are
    /// those of the trajectory that was made: of the tentative one where the flown one stays, else of the flown one. They are shared; where none are
    /// given they are made.
    pub fn put(
        &self,
        slot: u32,
        flight: Option<Flight>,
        stays: Option<Kind>,
        slices: Option<Arc<Slices>>,
    ) -> Result<Snapshot, Memory>
        requires counted { self.now.version < 2 ^ 40 }
        requires place { slot < length self.now.slots }
        requires fits { IfSome flight (Fits self.now slot) }
        requires kept { IfSome stays (IsKindKept self.now slot flight) }
        requires made { IfSome slices (λ s. Some (arc_value s) ≡ slices_by self.now.setup.rules (made_beside stays) flight) }
        ensures value { IfOk result (λ shot. shot ≡ with_flight self.now slot flight) }
        ensures records { IfOk result (λ shot.
            (state_in_shot shot).records ≡ records_put (flight_at self.now slot) flight (state_in_shot self.now).records) }
    {
        let body = &*self.body;
        let slots = body.slots.set(slot, shared(body.alloc, flight)?)?;
        let new = slots.get(slot);
        let table = moved(
            body.alloc,
            &body.rules,
            &body.table,
            slot,
            new,
            stays,
            slices,
        )?;
        let index = body
            .index
            .put(body.alloc, &body.slots, self.slots(), slot, new)?;
        changed(body, body.moment, slots, table, index)
    }

    /// Puts at a place a flight that has the callsign and the trajectories of the one that is there: the snapshot is one version later. Snapshots
    /// that were shared with this one stay, and on an error this one does too. What nobody shares is changed where it stands, and all that is kept
    /// of trajectories and callsigns stays shared.
    ///
    /// It asks that the version is below 2^40. The flight must be sound, and its trajectories its own; it keeps its filing.
    pub fn put_again(&mut self, slot: u32, flight: Flight) -> Result<(), Memory>
        requires counted { self.old.version < 2 ^ 40 }
        requires fits { Fits self.old slot flight }
        requires same { option_map kept_of (flight_at self.old slot) ≡ Some (kept_of flight) }
        ensures value { OnOk result (self.new ≡ with_flight self.old slot (Some flight)) }
        ensures unchanged { OnErr result (self.new ≡ self.old) }
        ensures records { OnOk result ((state_in_shot self.new).records
            ≡ records_put (flight_at self.old slot) (Some flight) (state_in_shot self.old).records) }
    {
        let flight = Arc::new(self.body.alloc, flight)?;
        let body = Arc::make_mut(&mut self.body)?;
        body.slots.replace(slot, Some(flight))?;
        body.version += 1;
        Ok(())
    }

    /// The picture at that moment, one version later. This snapshot stays as it is. It asks that the version is below 2^40.
    pub fn at(&self, now: Second) -> Result<Snapshot, Memory>
        requires counted { self.now.version < 2 ^ 40 }
        requires early { now ≤ 10000000 }
        ensures { IfOk result (λ shot. shot ≡ with_moment self.now now) }
    {
        let body = &*self.body;
        changed(
            body,
            now,
            body.slots.share()?,
            body.table.share()?,
            body.index.share()?,
        )
    }
}

// How many places there are for the flights that the rules allow.
fn places(rules: &Rules) -> u32
    requires { AreWithinBounds rules.now }
    ensures { pos result ≡ rules.now.flights }
{
    rules.flights as u32
}

// What is put at a place, to be shared.
fn shared(alloc: Global, flight: Option<Flight>) -> Result<Option<Arc<Flight>>, Memory>
    ensures { IfOk result (λ shared. option_map arc_value shared ≡ flight) }
{
    match flight {
        Some(flight) => Ok(Some(Arc::new(alloc, flight)?)),
        None => Ok(None),
    }
}

// A snapshot with another moment and other places, one version later.
fn changed(
    body: &Body,
    moment: Second,
    slots: Paged<Flight>,
    table: SliceTable,
    index: Index,
) -> Result<Snapshot, Memory>
    requires counted { body.now.version < 2 ^ 40 }
    requires kept { IsSnapshotKept (record (shot_of body.now) { version = body.now.version + 1; now = moment; slots = slots }) table index }
    ensures { IfOk result (λ shot. shot ≡ record (shot_of body.now) { version = body.now.version + 1; now = moment; slots = slots }) }
{
    Ok(Snapshot {
        body: Arc::new(
            body.alloc,
            Body {
                alloc: body.alloc,
                rules: body.rules,
                tables: Arc::try_clone(&body.tables)?,
                version: body.version + 1,
                moment,
                slots,
                table,
                index,
            },
        )?,
    })
}
