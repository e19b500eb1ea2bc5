//! A row of callsigns in order, each with the place of its flight.
ghost use Rattle.std.specs.Prelude.{◌≡◌, ◌↔◌, ◌⊎◌, ◌≤◌, [], Contains, length, IfOk};
ghost use Rattle.std.specs.List.{AllWithin};
ghost use Rattle.mt_names.specs.declared.names.Named.{Named};
ghost use Rattle.mt_names.specs.Naming.{IsPlaceOf};
ghost use Rattle.mt_names.specs.Private.Naming.{AreRising, IsCallBefore, IsNotBefore, IsOtherName, IsSplit};

use crate::names::Named;
use mt_base::{Callsign, Memory};
use std::alloc::Global;
use std::marker::Model;

/// Callsigns in rising order, each once, with the places of their flights; seen as that list.
#[derive(Drop)]
pub(crate) struct NamedRow {
    list: Vec<Named>,
}

impl Model for NamedRow {
    ghost use Rattle.std.specs.Prelude.{List};
    ghost use Rattle.mt_names.specs.declared.names.Named.{Named};
    ghost use Rattle.mt_names.specs.Private.Naming.{AreRising};

    ghost Value = { List Named };

    ghost view = { λ s. s.list.items };

    ghost invariant = { λ s. AreRising s.list.items };
}

// How many of a rising list are before a callsign, by halving.
fn before(list: &[Named], call: Callsign) -> usize
    requires rising { AreRising list.now }
    ensures few { result ≤ length list.now }
    ensures below { AllWithin (IsCallBefore call) list.now 0 result }
    ensures rest { AllWithin (IsNotBefore call) list.now result (length list.now) }
{
    let mut low = 0;
    let mut high = list.len();
    while low < high {
        let middle = low + (high - low) / 2;
        if list[middle].call < call {
            low = middle + 1;
        } else {
            high = middle;
        }
    }
    low
}

// Where the places before a callsign end in a rising list, and where those after it begin.
fn parts(list: &[Named], call: Callsign) -> (usize, usize)
    requires rising { AreRising list.now }
    ensures { IsSplit list.now call result }
{
    let first = before(list, call);
    if first < list.len() && list[first].call == call {
        (first, first + 1)
    } else {
        (first, first)
    }
}

impl NamedRow {
    /// No callsign.
    pub(crate) fn make(alloc: Global) -> NamedRow
        ensures { result ≡ [] }
    {
        NamedRow {
            list: Vec::new(alloc),
        }
    }

    // Where the places before a callsign end, and where those after it begin.
    fn split(&self, call: Callsign) -> (usize, usize)
        ensures { IsSplit self.now call result }
    {
        parts(&self.list, call)
    }

    /// The place of the flight of a callsign, found by halving; `None` exactly where it isn't listed.
    pub(crate) fn find(&self, call: Callsign) -> Option<u32>
        ensures { IsPlaceOf self.now call result }
    {
        let (first, behind) = self.split(call);
        if first < behind {
            Some(self.list[first].slot)
        } else {
            None
        }
    }

    /// The row with that place for a callsign, in the stead of the one that it had. This row stays.
    pub(crate) fn with(&self, alloc: Global, call: Callsign, slot: u32) -> Result<NamedRow, Memory>
        ensures { IfOk result (λ after. (n : Named) → Contains after n
            ↔ ((n ≡ record { call = call; slot = slot }) ⊎ IsOtherName self.now call n)) }
    {
        let (first, behind) = self.split(call);
        let mut list = Vec::new(alloc);
        list.reserve(self.list.len() + 1)?;
        list.extend_from_slice(&self.list[..first])?;
        list.push(Named { call, slot })?;
        list.extend_from_slice(&self.list[behind..])?;
        Ok(NamedRow { list })
    }

    /// The row without a callsign. This row stays.
    pub(crate) fn without(&self, alloc: Global, call: Callsign) -> Result<NamedRow, Memory>
        ensures { IfOk result (λ after. (n : Named) → Contains after n ↔ IsOtherName self.now call n) }
    {
        let (first, behind) = self.split(call);
        let mut list = Vec::new(alloc);
        list.reserve(self.list.len())?;
        list.extend_from_slice(&self.list[..first])?;
        list.extend_from_slice(&self.list[behind..])?;
        Ok(NamedRow { list })
    }
}
