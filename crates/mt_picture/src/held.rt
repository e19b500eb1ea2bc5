//! What a picture holds, and how its parts are changed together.
ghost use Rattle.std.specs.Prelude.{◌≡◌, ◌<◌, ◌≤◌, ◌^◌, [], IfOk, Some};
ghost use Rattle.std.specs.Arc.{arc_value};
ghost use Rattle.mt_base.specs.declared.command.Command.TheVariants.{Tick};
ghost use Rattle.mt_base.specs.Bounds.{AreWithinBounds};
ghost use Rattle.mt_base.specs.Complete.{IsComplete};
ghost use Rattle.mt_base.specs.Effect.{state_of};
ghost use Rattle.mt_base.specs.Picture.{IsPublished};
ghost use Rattle.mt_kept.specs.Window.{WasTestedOnce};
ghost use Rattle.mt_probe.specs.Shot.{flight_at};
ghost use Rattle.mt_probe.specs.Shot.{state_in_shot as state_in};
ghost use Rattle.mt_probe.specs.Standing.{IsSoundShot};
ghost use Rattle.mt_picture.specs.Private.Brought.{IsChangeFor};
ghost use Rattle.mt_picture.specs.Private.Holding.{AddsEntry, held_story};
ghost use Rattle.mt_picture.specs.Private.Places.{all_places, first_of, second_of};
ghost use Rattle.mt_picture.specs.Private.Putting.{IsFlightPut, IsSlotPut};
ghost use Rattle.mt_picture.specs.Private.Stamps.{IsPicture};

use crate::change::SlotChange;
use mt_base::{Command, Conflict, Entry, Memory, Rules, Second, Steps, Tally};
use mt_kept::Kept;
use mt_probe::{Flight, Snapshot};
use mt_tables::Tables;
use std::alloc::Global;
use std::marker::Model;
use std::sync::Arc;

/// What a picture holds: the snapshot now, the history, and the conflicts that are kept. They are of one state (`IsPicture`).
#[derive(Drop)]
pub(crate) struct Parts {
    /// The snapshot.
    pub(crate) snapshot: Snapshot,
    /// The history.
    pub(crate) history: Vec<Entry>,
    /// The conflicts.
    pub(crate) kept: Kept,
}

impl Model for Parts {
    ghost use Rattle.mt_picture.specs.Private.Holding.{Holding};
    ghost use Rattle.mt_picture.specs.Private.Stamps.{IsPicture};

    ghost Value = { Holding };

    ghost view = { λ held. record { snapshot = held.snapshot; history = held.history.items; kept = held.kept } };

    ghost invariant = { λ held. IsPicture held.snapshot held.history.items held.kept };
}

impl Parts {
    /// What an opening picture holds.
    pub(crate) fn opening(alloc: Global, rules: Rules, tables: Arc<Tables>) -> Result<Parts, Memory>
        requires { AreWithinBounds rules }
        ensures { IfOk result (λ held. held_story held ≡ record { setup = record { rules = rules; tables = arc_value tables }; history = [] }) }
    {
        let snapshot = Snapshot::opening(alloc, rules, tables)?;
        let kept = Kept::make(alloc, &rules, snapshot.slots())?;
        Ok(Parts {
            snapshot,
            history: Vec::new(alloc),
            kept,
        })
    }

    /// What a picture holds is of one state, and its snapshot is sound. It does nothing.
    pub(crate) fn keeps(&self)
        ensures picture { IsPicture self.now.snapshot self.now.history self.now.kept }
        ensures sound { IsSoundShot self.now.snapshot }
    {
        self.snapshot.keeps()
    }

    /// The snapshot, which stands for the state of the history.
    pub(crate) fn snapshot(&self) -> &Snapshot
        ensures value { result.now ≡ self.now.snapshot }
        ensures stands { state_in self.now.snapshot ≡ state_of self.now.snapshot.setup self.now.history }
    {
        &self.snapshot
    }

    /// The history.
    pub(crate) fn history(&self) -> &[Entry]
        ensures { result.now ≡ self.now.history }
    {
        self.history.as_slice()
    }

    /// The conflicts.
    pub(crate) fn kept(&self) -> &Kept
        ensures { result.now ≡ self.now.kept }
    {
        &self.kept
    }

    /// What is published: all conflicts of the state of the history, and no other.
    pub(crate) fn published(&self) -> &[Conflict]
        ensures { IsPublished self.now.snapshot.setup (state_of self.now.snapshot.setup self.now.history) result.now }
    {
        self.snapshot.keeps();
        self.kept.published()
    }

    /// Enters a command that leaves this flight in a slot, or none, with the change of the kept conflicts for it.
    pub(crate) fn put(
        &mut self,
        slot: u32,
        flight: Option<Flight>,
        entry: Entry,
        change: SlotChange,
    ) -> Result<(), Memory>
        requires counted { self.old.snapshot.version < 2 ^ 40 }
        requires put { IsSlotPut self.old.snapshot slot flight entry }
        requires complete { IsComplete entry }
        requires change { IsChangeFor self.old.snapshot slot flight change }
        ensures { AddsEntry self.old self.new entry result }
    {
        self.snapshot.keeps();
        let SlotChange {
            changes,
            finds,
            stays,
            slices,
        } = change;
        // All that can fail stands above the exchange, and what is kept changes last of that: so a want of memory leaves all as it was.
        let snapshot = self.snapshot.put(slot, flight, stays, slices)?;
        snapshot.keeps();
        self.history.reserve(1)?;
        let mut steps = Steps::new();
        self.kept.change(changes, &finds, &mut steps)?;
        self.snapshot = snapshot;
        self.history.push_reserved(entry);
        Ok(())
    }

    /// Enters a command that leaves this flight in a slot, with the trajectories that it had. The snapshot is changed in place where nobody
    /// shares it, and the kept conflicts stay as they are.
    pub(crate) fn put_card(&mut self, slot: u32, flight: Flight, entry: Entry) -> Result<(), Memory>
        requires counted { self.old.snapshot.version < 2 ^ 40 }
        requires put { IsFlightPut self.old.snapshot slot flight entry }
        requires complete { IsComplete entry }
        requires first { first_of (Some flight) ≡ first_of (flight_at self.old.snapshot slot) }
        requires second { second_of (Some flight) ≡ second_of (flight_at self.old.snapshot slot) }
        ensures { AddsEntry self.old self.new entry result }
    {
        self.snapshot.keeps();
        self.history.reserve(1)?;
        self.snapshot.put_again(slot, flight)?;
        self.snapshot.keeps();
        self.history.push_reserved(entry);
        Ok(())
    }

    /// Enters a tick.
    pub(crate) fn tick(
        &mut self,
        alloc: Global,
        who: u32,
        now: Second,
        tests: &mut Tally,
    ) -> Result<(), Memory>
        requires counted { self.old.snapshot.version < 2 ^ 40 }
        requires later { self.old.snapshot.now ≤ now }
        requires early { now ≤ 10000000 }
        ensures entered { AddsEntry self.old self.new (record { who = who; command = Tick now }) result }
        ensures counted { WasTestedOnce self.old.snapshot.setup.rules (all_places self.old.snapshot.slots) now tests.old tests.new }
    {
        self.snapshot.keeps();
        let snapshot = self.snapshot.at(now)?;
        snapshot.keeps();
        self.history.reserve(1)?;
        self.kept.move_to(alloc, now, tests)?;
        self.snapshot = snapshot;
        self.history.push_reserved(Entry {
            who,
            command: Command::Tick { now },
        });
        Ok(())
    }
}
