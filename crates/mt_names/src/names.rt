//! The callsigns of the flights in rows, each with the place of its flight.
ghost use Rattle.std.specs.Prelude.{◌≡◌, ◌↔◌, ◌⊎◌, ◌<◌, ℕ, [], Contains, length, IfOk, slice_index_or};
ghost use Rattle.mt_names.specs.declared.names.Named.{Named};
ghost use Rattle.mt_names.specs.Naming.{IsPlaceOf};
ghost use Rattle.mt_names.specs.Private.Naming.{IsOtherName};
ghost use Rattle.mt_names.specs.Private.Rows.{AreFull, AreSameRows, callsigns, row_of};

use crate::row::NamedRow;
use mt_base::{Callsign, Memory};
use std::alloc::Global;
use std::marker::Model;
use std::sync::Arc;

/// How many rows there are.
const ROWS: usize = 32;

/// A callsign, and the place of its flight.
#[derive(Clone, Copy)]
pub struct Named {
    /// The callsign.
    pub call: Callsign,
    /// The place.
    pub slot: u32,
}

/// Callsigns, each once, with the places of their flights; seen as their list. Each stands in the row that its letters say, so that a change
/// copies one row and the table of rows. Other lists share the rest.
#[derive(Drop)]
pub struct Names {
    /// No row, or all.
    rows: Vec<Arc<NamedRow>>,
}

impl Model for Names {
    ghost use Rattle.std.specs.Prelude.{List};
    ghost use Rattle.mt_names.specs.declared.names.Named.{Named};
    ghost use Rattle.mt_names.specs.Private.Rows.{AreOwnRows, callsigns, one_list};

    ghost Value = { List Named };

    ghost view = { λ s. one_list (callsigns s.rows.items) };

    ghost invariant = { λ s. AreOwnRows (callsigns s.rows.items) };
}

// The row that a callsign stands in.
fn row_of(call: Callsign) -> usize
    ensures row { result ≡ row_of call }
    ensures below { result < 32 }
{
    let mut row = 0;
    for letter in call.bytes() {
        row = (11 * row + usize::from(*letter)) % ROWS;
    }
    row
}

// A copy of the table of rows, which shares them. Where there is none yet, all its rows are empty.
fn table(alloc: Global, rows: &[Arc<NamedRow>]) -> Result<Vec<Arc<NamedRow>>, Memory>
    requires { AreFull (callsigns rows.now) }
    ensures many { IfOk result (λ table. length table.items ≡ 32) }
    ensures same { IfOk result (λ table. AreSameRows (callsigns rows.now) (callsigns table.items)) }
{
    if rows.is_empty() {
        let empty = Arc::new(alloc, NamedRow::make(alloc))?;
        return Ok(vec![in alloc; empty; ROWS]?);
    }
    Ok(Vec::from_clones(alloc, rows)?)
}

impl Names {
    /// No callsign.
    pub fn make(alloc: Global) -> Names
        ensures { result ≡ [] }
    {
        Names {
            rows: Vec::new(alloc),
        }
    }

    /// The place of the flight of a callsign, found by halving its row; `None` exactly where it isn't listed.
    pub fn find(&self, call: Callsign) -> Option<u32>
        ensures { IsPlaceOf self.now call result }
    {
        match self.rows.get(row_of(call)) {
            Some(row) => row.find(call),
            None => None,
        }
    }

    /// The list with that place for a callsign, in the stead of the one that it had. This list stays.
    pub(crate) fn with(&self, alloc: Global, call: Callsign, slot: u32) -> Result<Names, Memory>
        ensures { IfOk result (λ after. (n : Named) → Contains after n
            ↔ ((n ≡ record { call = call; slot = slot }) ⊎ IsOtherName self.now call n)) }
    {
        let place = row_of(call);
        let mut rows = table(alloc, &self.rows)?;
        let row = rows[place].with(alloc, call, slot)?;
        rows[place] = Arc::new(alloc, row)?;
        Ok(Names { rows })
    }

    /// The list without a callsign. This list stays.
    pub(crate) fn without(&self, alloc: Global, call: Callsign) -> Result<Names, Memory>
        ensures { IfOk result (λ after. (n : Named) → Contains after n ↔ IsOtherName self.now call n) }
    {
        let place = row_of(call);
        let mut rows = table(alloc, &self.rows)?;
        let row = rows[place].without(alloc, call)?;
        rows[place] = Arc::new(alloc, row)?;
        Ok(Names { rows })
    }
}
