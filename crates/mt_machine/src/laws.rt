ghost use Rattle.std.specs.Prelude.{◌≡◌, ℕ, List};
ghost use Rattle.mt_base.specs.declared.clearance.Clearance.{Clearance};
ghost use Rattle.mt_base.specs.declared.hit.Hit.{Hit};
ghost use Rattle.mt_base.specs.Advice.{AreAdvised};
ghost use Rattle.mt_base.specs.Picture.{State};
ghost use Rattle.mt_base.specs.Tables.{Setup};
ghost use Rattle.mt_base.specs.Trajectory.{Trajectory};
ghost use Rattle.mt_base.specs.WhatIf.{AreHitsOf};

/// The hits of a trajectory are one list: two lists that both are its hits are equal.
pub fn one_hits_law()
    ensures { (setup : Setup) (s : State) (call : List ℕ) (t : Trajectory) (hits others : List Hit) → AreHitsOf setup s call t hits
        → AreHitsOf setup s call t others → hits ≡ others }
{}

/// The advice for a flight is one list: two lists that both are advised are equal.
pub fn one_advice_law()
    ensures { (setup : Setup) (s : State) (call : List ℕ) (advised others : List Clearance) → AreAdvised setup s call advised
        → AreAdvised setup s call others → advised ≡ others }
{}
