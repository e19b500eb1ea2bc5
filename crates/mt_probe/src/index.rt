//! Who is there: the callsigns in order, how many flights there are, and where a place may be free.
ghost use Rattle.std.specs.Prelude.{◌≡◌, ◌<◌, ◌≤◌, ℕ, Option, None, length, replicate, slice_set, IfOk, is_some, option_copied};
ghost use Rattle.std.specs.Arc.{arc_value};
ghost use Rattle.mt_names.specs.Naming.{IsPlaceOf};
ghost use Rattle.mt_probe.specs.declared.flight.Flight.{Flight as Kept};
ghost use Rattle.mt_probe.specs.Private.Indexed.{AreFilled, CanBeAt, IsFirstFree, IsIndexOf, call_at_place};

use crate::flight::Flight;
use mt_base::{Callsign, Memory};
use mt_names::{Names, renamed};
use mt_paged::Paged;
use std::alloc::Global;
use std::marker::Model;
use std::sync::Arc;

/// Who is there.
#[derive(Drop)]
pub(crate) struct Index {
    names: Arc<Names>,
    held: u32,
    filled: u32,
}

impl Model for Index {
    ghost use Rattle.std.specs.Arc.{arc_value};
    ghost use Rattle.mt_probe.specs.Private.Indexed.{Indexed};

    ghost Value = { Indexed };

    ghost view = { λ s. record { names = arc_value s.names; held = s.held; filled = s.filled } };
}

// The callsign of a flight, where there is one.
fn call_of(flight: Option<&Flight>) -> Option<Callsign>
    ensures { result ≡ call_at_place (option_copied flight.entry) }
{
    Some(flight?.card.call)
}

impl Index {
    /// That of empty places.
    pub(crate) fn make(alloc: Global) -> Result<Index, Memory>
        ensures { IfOk result (λ index. (n : ℕ) → IsIndexOf (replicate n None) index) }
    {
        Ok(Index {
            names: Arc::new(alloc, Names::make(alloc))?,
            held: 0,
            filled: 0,
        })
    }

    /// The same once more. It copies no list.
    pub(crate) fn share(&self) -> Result<Index, Memory>
        ensures { IfOk result (λ index. index ≡ self.now) }
    {
        Ok(Index {
            names: Arc::try_clone(&self.names)?,
            held: self.held,
            filled: self.filled,
        })
    }

    /// The place of the flight of a callsign, found by halving; `None` exactly where there is none.
    pub(crate) fn find(&self, call: Callsign) -> Option<u32>
        ensures { IsPlaceOf self.now.names call result }
    {
        self.names.find(call)
    }

    /// How many flights there are.
    pub(crate) fn held(&self) -> u32
        ensures { result ≡ self.now.held }
    {
        self.held
    }

    /// The first of the places that is free; `None` exactly where none is. Those that are known to be filled are not looked at.
    pub(crate) fn free(&self, slots: &Paged<Flight>, count: u32) -> Option<u32>
        requires filled { AreFilled slots.now self.now.filled }
        requires count { count ≡ length slots.now }
        ensures { IsFirstFree slots.now result }
    {
        for slot in self.filled..count {
            if slots.get(slot).is_none() {
                return Some(slot);
            }
        }
        None
    }

    // How many places are known to be filled once a place that was filled or not is, or isn't.
    fn filled_after(
        &self,
        slots: &Paged<Flight>,
        count: u32,
        slot: u32,
        old: bool,
        new: bool,
    ) -> u32
        requires filled { AreFilled slots.now self.now.filled }
        requires count { count ≡ length slots.now }
        requires place { slot < length slots.now }
        ensures { (flight : Option Kept) → is_some flight ≡ new → AreFilled (slice_set slots.now slot flight) result }
    {
        if !new {
            return self.filled.min(slot);
        }
        if !old && self.free(slots, count) == Some(slot) {
            slot + 1
        } else {
            self.filled
        }
    }

    /// That of the places once a flight, or none, is put at one of them. Where no callsign comes or goes, their list is shared.
    pub(crate) fn put(
        &self,
        alloc: Global,
        slots: &Paged<Flight>,
        count: u32,
        slot: u32,
        new: Option<&Flight>,
    ) -> Result<Index, Memory>
        requires indexed { IsIndexOf slots.now self.now }
        requires count { count ≡ length slots.now }
        requires few { count ≤ 1024 }
        requires can { CanBeAt slots.now slot (option_copied new) }
        ensures { IfOk result (IsIndexOf (slice_set slots.now slot (option_copied new.entry))) }
    {
        let was = call_of(slots.get(slot));
        let call = call_of(new);
        let (left, comes) = (was.is_some(), call.is_some());
        Ok(Index {
            names: renamed(alloc, &self.names, slot, was, call)?,
            held: self.held + u32::from(comes) - u32::from(left),
            filled: self.filled_after(slots, count, slot, left, comes),
        })
    }
}
