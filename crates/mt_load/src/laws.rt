ghost use Rattle.std.specs.Prelude.{◌≡◌, ℕ, All};
ghost use Rattle.mt_base.specs.declared.rules.Rules.{Rules};
ghost use Rattle.mt_read.specs.Bounded.{IsBoundedRequest};
ghost use Rattle.mt_load.specs.declared.summary.Summary.{Summary};
ghost use Rattle.mt_load.specs.Input.{HasRightRoute, inputs};
ghost use Rattle.mt_load.specs.Load.{IsLoadRun};
ghost use Rattle.mt_load.specs.Summary.{IsLoaded};
ghost use Rattle.mt_world.specs.World.{World};

/// In the input of so many flights and a number, the numbers of each request are within their bounds, whatever the rules are, and no route has a
/// fix twice.
pub fn right_input_law()
    ensures bounded { (flights number : ℕ) (rules : Rules) → All (IsBoundedRequest rules) (inputs flights number) }
    ensures routed { (flights number : ℕ) → All HasRightRoute (inputs flights number) }
{}

/// A load run of so many flights and a number ends in one world, and has one summary, but that no clause says how many pairs were tested.
pub fn one_summary_law()
    ensures run { (flights number : ℕ) (end other : World) → IsLoadRun flights number end → IsLoadRun flights number other → end ≡ other }
    ensures summary { (flights number : ℕ) (s t : Summary) → IsLoaded flights number s → IsLoaded flights number t
        → (s.again ≡ t.again) × (s.conflicts ≡ t.conflicts) × (s.entries ≡ t.entries) × (s.flights ≡ t.flights) }
{}
