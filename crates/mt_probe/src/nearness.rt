//! Whether two covers share a cell, with a second in common.
ghost use Rattle.std.specs.Prelude.{◌↔◌, Any, IsTrue};
ghost use Rattle.mt_probe.specs.Items.{Meet};

use mt_cover::Stay;

// Whether two stays are in one cell, with a second in common.
fn meet(stay: &Stay, other: &Stay) -> bool
    ensures { IsTrue result ↔ Meet stay.now other.now }
{
    other.cell == stay.cell && stay.overlaps(other.from, other.to)
}

// Whether a stay meets one of some others.
fn meets_one(stay: &Stay, others: &[Stay]) -> bool
    ensures { IsTrue result ↔ Any (Meet stay.now) others.now }
{
    others.iter().any(|other| meet(stay, other))
}

/// Whether one of some stays meets one of some others.
pub(crate) fn share(stays: &[Stay], others: &[Stay]) -> bool
    ensures { IsTrue result ↔ Any (λ stay. Any (Meet stay) others.now) stays.now }
{
    stays.iter().any(|stay| meets_one(stay, others))
}
