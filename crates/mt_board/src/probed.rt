//! What a probe tells.
ghost use Rattle.std.specs.Prelude.{◌≡◌, Some, Ok};
ghost use Rattle.mt_base.specs.Picture.{State};
ghost use Rattle.mt_base.specs.Tables.{Setup};
ghost use Rattle.mt_base.specs.WhatIf.{IsWhatIf};
ghost use Rattle.mt_board.specs.Probing.{ToldProbe};
ghost use Rattle.mt_board.specs.Short.{AreShortHits};

use mt_base::{Callsign, Clearance, Hit, Second};

/// A probe: what would have followed from a clearance. What it tells is a `ToldProbe` of the definitions; its hits are those on the state that
/// it was tried on.
pub trait Probed: Drop {
    /// What it tells.
    ghost told: { Self → ToldProbe };

    /// The rules and tables where it was tried.
    ghost fixed: { Self → Setup };

    /// The state that it was tried on.
    ghost state: { Self → State };

    /// The version that it was tried on.
    fn version(&self) -> u64
        ensures { result ≡ (told self.now).version };

    /// The flight's callsign.
    fn call(&self) -> Callsign
        ensures { result ≡ (told self.now).call };

    /// The clearance.
    fn clearance(&self) -> Clearance
        ensures { result ≡ (told self.now).clearance };

    /// From which second on it was tried.
    fn eff(&self) -> Second
        ensures { result ≡ (told self.now).eff };

    /// The conflicts that would have followed: at most 1,023, by first second and then callsign.
    fn hits(&self) -> &[Hit]
        ensures told { result.now ≡ (told self.now).hits }
        ensures short { AreShortHits result.now }
        ensures follow { IsWhatIf (fixed self.now) (state self.now) (told self.now).call (told self.now).clearance (Some (told self.now).eff)
            (Ok (told self.now).hits) };
}
