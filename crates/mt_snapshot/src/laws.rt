ghost use Rattle.std.specs.Prelude.{◌≡◌, ℕ, List, map};
ghost use Rattle.mt_probe.specs.Hits.{Trial, told_of};
ghost use Rattle.mt_probe.specs.Shot.{Shot};
ghost use Rattle.mt_snapshot.specs.Advised.{IsAdvisedOn};

/// There is one advice for a flight of a snapshot: whichever threads tried the candidates, and in whatever order, what the probes tell is the
/// same.
pub fn same_advice_law()
    ensures { (shot : Shot) (call : List ℕ) (eff version : ℕ) (probes : List Trial) (second number : ℕ) (others : List Trial)
        → IsAdvisedOn shot call eff version probes → IsAdvisedOn shot call second number others → map told_of probes ≡ map told_of others }
{}
