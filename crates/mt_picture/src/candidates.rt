//! The candidates of a new trajectory, and what a prep says of them.
ghost use Rattle.std.specs.Prelude.{◌≡◌, ◌≤◌, ℕ, IfOk, IfSome, IsSomeAnd, OnOk};
ghost use Rattle.mt_cover.specs.Sliced.{slices_of};
ghost use Rattle.mt_picture.specs.Private.Candidates.{AreAddedSince, AreStill, IsStill, StandsInPlace, candidate_met};
ghost use Rattle.mt_picture.specs.Private.Stamps.{HaveStood};
ghost use Rattle.mt_picture.specs.Stamps.{AreStamped};
ghost use Rattle.mt_picture.specs.Private.Known.{AreNearCandidates, IsPreps};

use crate::later::may_stand_since;
use crate::places::{find_trajectory, is_made_since};
use mt_base::{Entry, Memory};
use mt_kept::{Candidate, Knowledge};
use mt_meet::Met;
use mt_probe::{Found, Prep, Snapshot};
use mt_track::Strand;
use std::alloc::Global;

// What was found with a trajectory, as a candidate in its place; `None` exactly where it stands nowhere, or was made after that version.
fn still(snapshot: &Snapshot, found: &Found, version: u64) -> Option<Candidate>
    ensures there { IfSome result (IsStill snapshot.now.slots version found.now) }
    ensures only { (place stamp : ℕ) → StandsInPlace snapshot.now.slots place found.now.call found.now.kind stamp → stamp ≤ version
        → IsSomeAnd result (λ x. x.place ≡ place) }
{
    let it = find_trajectory(snapshot, found.call, found.kind)?;
    if version < it.stamp {
        return None;
    }
    Some(Candidate {
        place: it.place,
        knowledge: Knowledge::Known {
            span: found.whole,
            solid: found.solid,
        },
    })
}

// What a prep found, as far as it stands and was made by the prep's version.
fn still_ones(alloc: Global, snapshot: &Snapshot, prep: &Prep) -> Result<Vec<Candidate>, Memory>
    ensures { IfOk result (λ list. AreStill snapshot.now.slots prep.now.state.version prep.now.finds list.items) }
{
    let version = prep.version();
    let mut list = Vec::new(alloc);
    for found in prep.finds() {
        if let Some(candidate) = still(snapshot, found, version) {
            list.push(candidate)?;
        }
    }
    Ok(list)
}

// What meets a new trajectory, as a candidate.
fn candidate_met(met: Met) -> Candidate
    ensures { result ≡ candidate_met met }
{
    Candidate {
        place: met.item,
        knowledge: Knowledge::Within {
            first: met.first,
            last: met.last,
        },
    }
}

// Puts after others what meets a new trajectory and was made after a version.
fn add_met(
    list: &mut Vec<Candidate>,
    snapshot: &Snapshot,
    strand: &Strand,
    version: u64,
) -> Result<(), Memory>
    ensures { OnOk result (AreAddedSince snapshot.now (slices_of snapshot.now.setup.rules strand.now) version list.old.items list.new.items) }
{
    let all = snapshot.meeting(strand)?;
    for met in &all {
        if is_made_since(snapshot, met.item, version) {
            list.push(candidate_met(*met))?;
        }
    }
    Ok(())
}

/// The candidates of a new trajectory. Where the prep is known to be of use, they are what it found, as far as that stands, and what meets the
/// new one and was made since. Else they are all that meet it: each trajectory that stands was made after version 0.
pub(crate) fn candidates(
    alloc: Global,
    snapshot: &Snapshot,
    history: &[Entry],
    strand: &Strand,
    prep: &Prep,
    known: bool,
) -> Result<Vec<Candidate>, Memory>
    requires setup { prep.now.setup ≡ snapshot.now.setup }
    requires preps { IsPreps prep.now known strand.now }
    requires stamped { AreStamped snapshot.now.setup history.now snapshot.now.slots }
    requires stood { HaveStood snapshot.now prep.now }
    ensures { IfOk result (λ list. AreNearCandidates snapshot.now strand.now prep.now known list.items) }
{
    snapshot.keeps();
    strand.keeps();
    if !known {
        let mut list = Vec::new(alloc);
        add_met(&mut list, snapshot, strand, 0)?;
        return Ok(list);
    }
    let version = prep.version();
    let mut list = still_ones(alloc, snapshot, prep)?;
    if !may_stand_since(snapshot, history, version) {
        return Ok(list);
    }
    add_met(&mut list, snapshot, strand, version)?;
    Ok(list)
}
