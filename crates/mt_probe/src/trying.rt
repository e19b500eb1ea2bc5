//! What would follow from a clearance.
ghost use Rattle.std.specs.Prelude.{◌≡◌, ◌≤◌, length, Some, Ok, IfOk, IfErr, IfSome, unwrap_or};
ghost use Rattle.mt_base.specs.declared.command.Command.TheVariants.{Accept};
ghost use Rattle.mt_base.specs.declared.conflict.Kind.TheVariants.{Actual};
ghost use Rattle.mt_base.specs.Bounds.{IsBoundedClearance};
ghost use Rattle.mt_base.specs.Tables.{setup_with};
ghost use Rattle.mt_base.specs.Trajectory.{Trajectory};
ghost use Rattle.mt_base.specs.WhatIf.{IsWhatIf};
ghost use Rattle.mt_board.specs.Short.{AreShortHits};
ghost use Rattle.mt_probe.specs.Hits.{IsFreeOrConflicting, IsProbe, IsUnprobed};
ghost use Rattle.mt_probe.specs.Prepared.{IsLeftByEntry, IsRefusedOn, path_made};
ghost use Rattle.mt_probe.specs.Shot.{state_in_shot};
ghost use Rattle.mt_probe.specs.Tests.{IsUntested, WasTriedFor, WasTriedNear, WereAtLeast};

use crate::hitting::{has_hit, hits};
use crate::preparing::{leave, strand_of};
use crate::probe::Probe;
use crate::snapshot::Snapshot;
use mt_base::{Callsign, Clearance, Command, Hits, Kind, Memory, Record, Rules, Second, Tally};
use mt_board::No;
use mt_tables::Tables;
use std::alloc::Global;

// The flight that the acceptance of a clearance leaves, or the first refusal of the clearance, at the snapshot's version.
fn accepted(
    alloc: Global,
    snapshot: &Snapshot,
    call: Callsign,
    clearance: Clearance,
    eff: Second,
) -> Result<Record, No>
    requires clearance { IsBoundedClearance clearance }
    requires early { eff ≤ 10000000 }
    ensures left { IfOk result (IsLeftByEntry snapshot.now.setup (state_in_shot snapshot.now) 0 (Accept call clearance eff snapshot.now.version)) }
    ensures refused { IfErr result (IsRefusedOn snapshot.now 0 (Accept call clearance eff snapshot.now.version)) }
{
    let command = Command::Accept {
        call,
        clearance,
        eff,
        probed: snapshot.version(),
    };
    leave(alloc, snapshot, 0, &command)
}

// The probe of a clearance that holds from second `eff` on, with its hits.
fn probe_with(
    snapshot: &Snapshot,
    call: Callsign,
    clearance: Clearance,
    eff: Second,
    found: Hits,
) -> Result<Probe, Memory>
    requires clearance { IsBoundedClearance clearance }
    requires early { eff ≤ 10000000 }
    requires follows { IsWhatIf snapshot.now.setup (state_in_shot snapshot.now) call clearance (Some eff) (Ok found) }
    requires short { AreShortHits found }
    ensures { IfOk result (λ p. IsProbe snapshot.now call clearance (Some eff) p × (p.hits ≡ found)) }
{
    snapshot.keeps();
    Ok(Probe {
        snapshot: snapshot.share()?,
        call,
        clearance,
        eff,
        found,
    })
}

// The probe of a clearance that holds from second `eff` on, of the flight that its acceptance leaves.
fn probe_of(
    alloc: Global,
    snapshot: &Snapshot,
    call: Callsign,
    clearance: Clearance,
    eff: Second,
    card: &Record,
    tests: &mut Tally,
) -> Result<Probe, Memory>
    requires clearance { IsBoundedClearance clearance }
    requires early { eff ≤ 10000000 }
    requires left { IsLeftByEntry snapshot.now.setup (state_in_shot snapshot.now) 0 (Accept call clearance eff snapshot.now.version) card.now }
    ensures probe { IfOk result (IsProbe snapshot.now call clearance (Some eff)) }
    ensures counted { (t : Trajectory) → path_made snapshot.now.setup card.now Actual ≡ Some t
        → WasTriedNear snapshot.now card.now.call t tests.old tests.new }
    ensures tested { IfOk result (λ p. WereAtLeast (length p.hits) tests.old tests.new) }
{
    snapshot.keeps();
    let strand = strand_of(alloc, snapshot, card, Kind::Actual)?;
    let found = hits(alloc, snapshot, card.call, &strand, tests)?;
    probe_with(snapshot, call, clearance, eff, found)
}

// The same, where nothing hits the trajectory that is flown then.
fn free_probe(
    alloc: Global,
    snapshot: &Snapshot,
    call: Callsign,
    clearance: Clearance,
    eff: Second,
    card: &Record,
    tests: &mut Tally,
) -> Result<Option<Probe>, Memory>
    requires clearance { IsBoundedClearance clearance }
    requires early { eff ≤ 10000000 }
    requires left { IsLeftByEntry snapshot.now.setup (state_in_shot snapshot.now) 0 (Accept call clearance eff snapshot.now.version) card.now }
    ensures found { IfOk result (IsFreeOrConflicting snapshot.now call clearance (Some eff)) }
    ensures counted { (t : Trajectory) → path_made snapshot.now.setup card.now Actual ≡ Some t
        → WasTriedNear snapshot.now card.now.call t tests.old tests.new }
{
    snapshot.keeps();
    let strand = strand_of(alloc, snapshot, card, Kind::Actual)?;
    if has_hit(snapshot, card.call, &strand, tests)? {
        return Ok(None);
    }
    let none = Hits::of(Vec::new(alloc));
    let probe = probe_with(snapshot, call, clearance, eff, none)?;
    Ok(Some(probe))
}

/// What would follow from a clearance of a flight that holds from second `eff` on, by default the moment: the conflicts in the window of
/// 1,200 seconds of the trajectory that it would leave with those that the other flights fly, by first second and then callsign; or the first
/// refusal, at the snapshot's version. Tentative trajectories don't count.
///
/// It asks that the rules and tables are those of the snapshot, that a level is at most 600, and `eff` at most 10,000,000. At most one test is
/// made for each trajectory that another flight flies near the one that the clearance would leave, and none where the clearance is refused. At least
/// one is made for each conflict that is found.
pub fn what_if(
    alloc: Global,
    snapshot: &Snapshot,
    _tables: &Tables,
    _rules: &Rules,
    call: Callsign,
    clearance: Clearance,
    eff: Option<Second>,
    tests: &mut Tally,
) -> Result<Probe, No>
    requires same { setup_with _rules.now _tables.now ≡ snapshot.now.setup }
    requires clearance { IsBoundedClearance clearance }
    requires early { IfSome eff (λ second. second ≤ 10000000) }
    ensures probe { IfOk result (IsProbe snapshot.now call clearance eff) }
    ensures refused { IfErr result (IsUnprobed snapshot.now call clearance eff) }
    ensures counted { WasTriedFor snapshot.now call clearance eff tests.old tests.new }
    ensures tested { IfOk result (λ p. WereAtLeast (length p.hits) tests.old tests.new) }
    ensures untested { IfErr result (IsUntested tests.old tests.new) }
{
    snapshot.keeps();
    let eff = eff.unwrap_or(snapshot.now());
    match accepted(alloc, snapshot, call, clearance, eff) {
        Ok(card) => Ok(probe_of(alloc, snapshot, call, clearance, eff, &card, tests)?),
        Err(no) => Err(no),
    }
}

/// The probe of a clearance of a flight that holds from second `eff` on, by default the moment, where nothing would follow from it; `None`
/// exactly where something would, as `what_if` finds it; or the first refusal, at the snapshot's version.
///
/// It asks that a level is at most 600, and `eff` at most 10,000,000. The trajectory that the clearance would leave is tested in the window, with
/// one flight after the other whose slices meet its own, up to the first with a conflict. So at most one test is made for each trajectory that
/// another flight flies near it, and none where the clearance is refused.
pub fn probe_if_free(
    alloc: Global,
    snapshot: &Snapshot,
    call: Callsign,
    clearance: Clearance,
    eff: Option<Second>,
    tests: &mut Tally,
) -> Result<Option<Probe>, No>
    requires clearance { IsBoundedClearance clearance }
    requires early { IfSome eff (λ second. second ≤ 10000000) }
    ensures found { IfOk result (IsFreeOrConflicting snapshot.now call clearance eff) }
    ensures refused { IfErr result (IsUnprobed snapshot.now call clearance eff) }
    ensures counted { WasTriedFor snapshot.now call clearance eff tests.old tests.new }
    ensures untested { IfErr result (IsUntested tests.old tests.new) }
{
    snapshot.keeps();
    let eff = eff.unwrap_or(snapshot.now());
    match accepted(alloc, snapshot, call, clearance, eff) {
        Ok(card) => Ok(free_probe(alloc, snapshot, call, clearance, eff, &card, tests)?),
        Err(no) => Err(no),
    }
}
