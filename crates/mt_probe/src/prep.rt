//! What is prepared for a command that makes a trajectory.
ghost use Rattle.std.specs.Prelude.{◌≡◌};
ghost use Rattle.std.specs.Arc.{arc_value};
ghost use Rattle.mt_cover.specs.Sliced.{slices_of};
ghost use Rattle.mt_probe.specs.Prepared.{IsPrepared};

use crate::finding::{Finds, Found};
use crate::snapshot::Snapshot;
use mt_base::{Command, Record, Second};
use mt_cover::Slices;
use mt_track::Strand;
use std::marker::Model;
use std::sync::Arc;

/// What is prepared on a snapshot for a command of an actor.
#[derive(Drop)]
pub struct Prep {
    pub(crate) snapshot: Snapshot,
    pub(crate) who: u32,
    pub(crate) command: Command,
    pub(crate) card: Record,
    pub(crate) strand: Arc<Strand>,
    pub(crate) slices: Arc<Slices>,
    pub(crate) finds: Finds,
}

impl Model for Prep {
    ghost use Rattle.std.specs.Arc.{arc_value};
    ghost use Rattle.mt_probe.specs.Prepared.{Prepared};
    ghost use Rattle.mt_probe.specs.Private.Prepared.{IsPrepKept, prepared_of};

    ghost Value = { Prepared };

    ghost view = { λ p. prepared_of p.snapshot p.who p.command p.card (arc_value p.strand) p.finds };

    ghost invariant = { λ p. IsPrepKept (prepared_of p.snapshot p.who p.command p.card (arc_value p.strand) p.finds) (arc_value p.slices) };
}

impl Prep {
    /// The version of its snapshot. What every prep keeps is said here too.
    pub fn version(&self) -> u64
        ensures version { result ≡ self.now.state.version }
        ensures kept { IsPrepared self.now }
    {
        self.snapshot.version()
    }

    /// What every prep keeps is said here: the definition is `IsPrepared`. It does nothing.
    pub fn keeps(&self)
        ensures { IsPrepared self.now }
    {
        self.version();
    }

    /// The moment of its snapshot.
    pub fn now(&self) -> Second
        ensures { result ≡ self.now.state.now }
    {
        self.snapshot.now()
    }

    /// The command that it was made for.
    pub fn command(&self) -> &Command
        ensures { result.now ≡ self.now.command }
    {
        &self.command
    }

    /// The flight as the entry leaves it.
    pub fn card(&self) -> &Record
        ensures { result.now ≡ self.now.card }
    {
        &self.card
    }

    /// The trajectory that the command makes.
    pub fn strand(&self) -> &Arc<Strand>
        ensures { arc_value result.now ≡ self.now.strand }
    {
        &self.strand
    }

    /// Its slices.
    pub fn slices(&self) -> &Arc<Slices>
        ensures { arc_value result.now ≡ slices_of self.now.setup.rules self.now.strand }
    {
        &self.slices
    }

    /// What is found with it: each trajectory of another flight that has a loss second with it, once, and no other.
    pub fn finds(&self) -> &[Found]
        ensures { result.now ≡ self.now.finds }
    {
        self.finds.items()
    }
}
