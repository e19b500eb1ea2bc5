//! Whether trajectories were made after a version.
ghost use Rattle.std.specs.Prelude.{◌≡◌, false};
ghost use Rattle.mt_picture.specs.Private.Candidates.{IsNoneMade, IsNoneSince};
ghost use Rattle.mt_picture.specs.Stamps.{AreStamped};

use crate::places::is_made_since;
use mt_base::Entry;
use mt_probe::{Snapshot, makes_strand};

// Whether an entry after the first ones makes a trajectory.
fn is_one_made(history: &[Entry], version: u64) -> bool
    ensures { result ≡ false → IsNoneMade history.now version }
{
    for n in version as usize..history.len() {
        if makes_strand(&history[n].command) {
            return true;
        }
    }
    false
}

// Whether a trajectory stands that was made after a version, by the stamps of all places.
fn stands_since(snapshot: &Snapshot, version: u64) -> bool
    ensures { result ≡ false → IsNoneSince snapshot.now.slots version }
{
    snapshot.keeps();
    for place in 0..2 * snapshot.slots() {
        if is_made_since(snapshot, place, version) {
            return true;
        }
    }
    false
}

/// Whether trajectories may stand that were made after a version. The entries since are looked at, or the stamps of all places where these
/// are fewer.
pub(crate) fn may_stand_since(snapshot: &Snapshot, history: &[Entry], version: u64) -> bool
    requires { AreStamped snapshot.now.setup history.now snapshot.now.slots }
    ensures { result ≡ false → IsNoneSince snapshot.now.slots version }
{
    let since = (history.len() as u64).saturating_sub(version);
    if since > u64::from(snapshot.slots()) {
        stands_since(snapshot, version)
    } else {
        is_one_made(history, version)
    }
}
