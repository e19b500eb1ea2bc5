//! The conflicts of a new trajectory with those of the other flights.
ghost use Rattle.std.specs.Prelude.{◌≡◌, ◌≤◌, ◌<◌, ◌+◌, ◌*◌, ℕ, true, length, IfOk, OnOk};
ghost use Rattle.std.specs.Arc.{arc_value};
ghost use Rattle.mt_base.specs.Bounds.{AreWithinBounds};
ghost use Rattle.mt_base.specs.Conflict.{IsConflict, IsLossSecond};
ghost use Rattle.mt_base.specs.Picture.{window_end};
ghost use Rattle.mt_base.specs.Span.{IsSolid};
ghost use Rattle.mt_cover.specs.Sliced.{slices_of};
ghost use Rattle.mt_probe.specs.Meeting.{AreMetItems, IsMetOf};
ghost use Rattle.mt_probe.specs.Finds.{AreFinds, IsFound};
ghost use Rattle.mt_probe.specs.Private.Finds.{FindsMore};
ghost use Rattle.mt_probe.specs.Items.{WasTestedNear, kind_at, other_at};
ghost use Rattle.mt_base.specs.Trajectory.{horizon};
ghost use Rattle.mt_probe.specs.Shot.{state_in_shot};

use crate::narrow::{narrowed, part_within};
use crate::snapshot::Snapshot;
use mt_base::{Callsign, Kind, Listed, Memory, Rules, Second, Tally, WINDOW};
use mt_cover::Slices;
use mt_meet::Met;
use mt_pair::{Loss, lose, loss_of};
use mt_track::Strand;
use std::alloc::Global;
use std::sync::Arc;

/// What is found with a trajectory of another flight.
#[derive(Clone, Copy, PartialEq, Eq)]
pub struct Found {
    /// The flight's callsign.
    pub call: Callsign,
    /// The trajectory's kind.
    pub kind: Kind,
    /// Its conflict with the new trajectory over all seconds.
    pub whole: Option<(Second, Second)>,
    /// Whether it is known that this is solid: each second from the first to the last has a loss.
    pub solid: bool,
    /// Its conflict with the new trajectory in the window.
    pub window: Option<(Second, Second)>,
}

/// Finds, seen as their list.
pub type Finds = Listed<Found>;

// The conflict in the window, of which that over all seconds is known. It is tested only where it straddles an edge of the window and isn't
// known to be solid.
fn in_window(
    rules: &Rules,
    now: Second,
    strand: &Strand,
    other: &Strand,
    loss: Loss,
    tests: &mut Tally,
) -> Option<(Second, Second)>
    requires rules { AreWithinBounds rules.now }
    requires early { now ≤ 10000000 }
    requires whole { IsConflict rules.now strand.now other.now 0 horizon loss.span }
    requires solid { loss.solid ≡ true → IsSolid (IsLossSecond rules.now strand.now other.now) loss.span }
    ensures conflict { IsConflict rules.now strand.now other.now now (window_end now) result }
    ensures counted { tests.new ≤ tests.old + 1 }
{
    let end = now + WINDOW;
    match narrowed(loss.span, now, end) {
        Some(part) => part,
        None if loss.solid => part_within(loss.span, now, end),
        None => lose(strand, other, rules, now, end, tests),
    }
}

// What is found with one trajectory, which loses separation only in the seconds in which it is met.
fn find_one(
    rules: &Rules,
    now: Second,
    call: Callsign,
    kind: Kind,
    strand: &Strand,
    other: &Strand,
    met: Met,
    tests: &mut Tally,
) -> Found
    requires rules { AreWithinBounds rules.now }
    requires early { now ≤ 10000000 }
    requires ends { met.last < horizon }
    requires within { (k : ℕ) → IsLossSecond rules.now strand.now other.now k → (met.first ≤ k) × (k ≤ met.last) }
    ensures found { IsFound rules.now now strand.now (record { call = call; kind = kind; path = other.now }) result }
    ensures counted { tests.new ≤ tests.old + 2 }
{
    let loss = loss_of(strand, other, rules, met.first, met.last + 1, tests);
    let window = in_window(rules, now, strand, other, loss, tests);
    Found {
        call,
        kind,
        whole: loss.span,
        solid: loss.solid,
        window,
    }
}

/// The kind of trajectory that an item names.
pub(crate) fn kind_of(item: u32) -> Kind
    ensures { result ≡ kind_at item }
{
    if item.is_multiple_of(2) {
        Kind::Actual
    } else {
        Kind::Tentative
    }
}

// What is found with a trajectory whose slices meet those of the new one, where it is that of a flight of another callsign.
fn find_met(
    snapshot: &Snapshot,
    met: Met,
    call: Callsign,
    strand: &Strand,
    tests: &mut Tally,
    finds: &mut Finds,
) -> Result<(), Memory>
    requires { IsMetOf snapshot.now (slices_of snapshot.now.setup.rules strand.now) met }
    ensures found { OnOk result (FindsMore snapshot.now.setup.rules snapshot.now.now strand.now (other_at call snapshot.now.slots met.item) finds.old finds.new) }
    ensures counted { tests.new ≤ tests.old + 2 * length (other_at call snapshot.now.slots met.item) }
{
    snapshot.keeps();
    strand.keeps();
    let slot = met.item / 2;
    let Some(card) = snapshot.flight(slot) else {
        return Ok(());
    };
    if card.call == call {
        return Ok(());
    }
    let kind = kind_of(met.item);
    let Some(other) = snapshot.path(slot, kind) else {
        return Ok(());
    };
    let rules = snapshot.rules();
    let now = snapshot.now();
    let found = find_one(rules, now, card.call, kind, strand, other, met, tests);
    match found.whole {
        Some(_) => finds.push(found),
        None => Ok(()),
    }
}

/// What is found with a new trajectory of a flight, of which this is all that its slices meet. Each of these is tested at most twice, in the
/// seconds from the first to the last one in which slices meet and where needed in the window, and no other: it can't lose separation.
pub(crate) fn find_among(
    alloc: Global,
    snapshot: &Snapshot,
    call: Callsign,
    strand: &Strand,
    list: &[Met],
    tests: &mut Tally,
) -> Result<Finds, Memory>
    requires { AreMetItems snapshot.now (slices_of snapshot.now.setup.rules strand.now) list.now }
    ensures finds { IfOk result (AreFinds snapshot.now.setup (state_in_shot snapshot.now) call strand.now) }
    ensures counted { WasTestedNear snapshot.now call strand.now tests.old tests.new }
{
    snapshot.keeps();
    strand.keeps();
    let mut finds = Finds::make(alloc)?;
    for met in list {
        find_met(snapshot, *met, call, strand, tests, &mut finds)?;
    }
    Ok(finds)
}

/// What is found with a new trajectory of a flight, whose slices are given.
pub(crate) fn find_all(
    alloc: Global,
    snapshot: &Snapshot,
    call: Callsign,
    strand: &Strand,
    slices: &Arc<Slices>,
    tests: &mut Tally,
) -> Result<Finds, Memory>
    requires { arc_value slices.now ≡ slices_of snapshot.now.setup.rules strand.now }
    ensures finds { IfOk result (AreFinds snapshot.now.setup (state_in_shot snapshot.now) call strand.now) }
    ensures counted { WasTestedNear snapshot.now call strand.now tests.old tests.new }
{
    let list = snapshot.meeting_by(slices)?;
    find_among(alloc, snapshot, call, strand, &list, tests)
}
