//! A probe: a clearance that was tried on a snapshot.
ghost use Rattle.std.specs.Prelude.{◌≡◌, IfOk};
ghost use Rattle.mt_board.specs.Probing.{acceptance};
ghost use Rattle.mt_probe.specs.Hits.{IsTried, told_of};
ghost use Rattle.mt_probe.specs.Prepared.{IsPrepOf, WasTestedFor};
ghost use Rattle.mt_probe.specs.Shot.{state_in_shot};

use crate::prep::Prep;
use crate::preparing::prepare;
use crate::snapshot::Snapshot;
use mt_base::{Callsign, Clearance, Command, Hit, Hits, Memory, Second, Tally};
use mt_board::{No, Probed};
use std::alloc::Global;
use std::marker::Model;

/// A clearance that was tried on a snapshot.
#[derive(Drop)]
pub struct Probe {
    pub(crate) snapshot: Snapshot,
    pub(crate) call: Callsign,
    pub(crate) clearance: Clearance,
    pub(crate) eff: Second,
    pub(crate) found: Hits,
}

impl Model for Probe {
    ghost use Rattle.mt_probe.specs.Hits.{IsTried, Trial};

    ghost Value = { Trial };

    ghost view = { λ p. record { shot = p.snapshot; call = p.call; clearance = p.clearance; eff = p.eff; hits = p.found } };

    ghost invariant = { λ p. IsTried (record { shot = p.snapshot; call = p.call; clearance = p.clearance; eff = p.eff; hits = p.found }) };
}

impl Probe {
    /// The conflicts that would follow, by first second and then callsign. What every probe keeps is said here too.
    pub fn found(&self) -> &Hits
        ensures found { result.now ≡ self.now.hits }
        ensures kept { IsTried self.now }
    {
        &self.found
    }

    /// What is prepared for its acceptance, by actor 0, on the snapshot on which it was tried. At most two tests are made for each trajectory of
    /// another flight that is near the one that the clearance leaves. What every probe keeps is said here too.
    pub fn prep(&self, alloc: Global, tests: &mut Tally) -> Result<Prep, Memory>
        ensures kept { IsTried self.now }
        ensures prep { IfOk result (IsPrepOf self.now.shot 0 (acceptance (told_of self.now))) }
        ensures counted { WasTestedFor self.now.shot 0 (acceptance (told_of self.now)) tests.old tests.new }
    {
        self.found();
        let snapshot = &self.snapshot;
        let command = Command::Accept {
            call: self.call,
            clearance: self.clearance,
            eff: self.eff,
            probed: snapshot.version(),
        };
        let (tables, rules) = (snapshot.tables(), snapshot.rules());
        match prepare(alloc, snapshot, tables, rules, 0, &command, tests) {
            Ok(prep) => Ok(prep),
            Err(No::Memory) => Err(Memory),
            Err(No::Refused { .. }) => unreachable!(),
        }
    }
}

impl Probed for Probe {
    ghost told = { told_of };

    ghost fixed = { λ p. p.shot.setup };

    ghost state = { λ p. state_in_shot p.shot };

    fn version(&self) -> u64 {
        self.snapshot.version()
    }

    fn call(&self) -> Callsign {
        self.call
    }

    fn clearance(&self) -> Clearance {
        self.clearance
    }

    fn eff(&self) -> Second {
        self.eff
    }

    fn hits(&self) -> &[Hit] {
        self.found.items()
    }
}
