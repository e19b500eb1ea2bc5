ghost use Rattle.std.specs.Prelude.{◌≡◌, [], ◌∷◌, ◌++◌, map, Ok, OnOk, OnErr};
ghost use Rattle.std.specs.Arc.{arc_value};
ghost use Rattle.mt_track.specs.Named.{AreNamedApart, IsNameFree, named};

use crate::strand::Strand;
use mt_base::{Callsign, Kind, Memory};
use std::alloc::Global;
use std::marker::Model;
use std::sync::Arc;

/// A strand of the roster, the flight that it belongs to, and its kind.
#[derive(Drop)]
pub struct Item {
    /// The flight's callsign.
    pub call: Callsign,
    /// The strand's kind.
    pub kind: Kind,
    /// The strand.
    pub strand: Arc<Strand>,
}

/// All strands of a picture, seen as the list of their trajectories with callsign and kind. No two have the same callsign and kind.
#[derive(Drop)]
pub struct Roster {
    items: Vec<Item>,
}

impl Model for Roster {
    ghost use Rattle.std.specs.Prelude.{List, map};
    ghost use Rattle.mt_base.specs.Picture.{NamedTrajectory};
    ghost use Rattle.mt_track.specs.Named.{AreNamedApart, named};

    ghost Value = { List NamedTrajectory };

    ghost view = { λ r. map named r.items.items };

    ghost invariant = { λ r. AreNamedApart (map named r.items.items) };
}

impl Roster {
    /// The roster without items.
    pub fn make(alloc: Global) -> Result<Roster, Memory>
        ensures { OnOk result (result ≡ Ok []) }
    {
        Ok(Roster {
            items: Vec::new(alloc),
        })
    }

    /// Puts an item after the others; it shares the strand. On an error the roster stays as it was.
    pub fn add(&mut self, call: Callsign, kind: Kind, strand: &Arc<Strand>) -> Result<(), Memory>
        requires { IsNameFree self.old call kind }
        ensures ok { OnOk result (self.new ≡ self.old ++ record { call = call; kind = kind; path = arc_value strand.now } ∷ []) }
        ensures err { OnErr result (self.new ≡ self.old) }
    {
        let strand = Arc::try_clone(strand)?;
        self.items.push(Item { call, kind, strand })?;
        Ok(())
    }

    /// Its items, in the order in which they were added.
    pub fn items(&self) -> &[Item]
        ensures items { map named result.now ≡ self.now }
        ensures apart { AreNamedApart self.now }
    {
        &self.items
    }
}
