//! The trajectory that a path flies.
ghost use Rattle.std.specs.Prelude.{◌≡◌, IfOk};
ghost use Rattle.mt_base.specs.Bounds.{AreWithinBounds, IsSoundPath};
ghost use Rattle.mt_base.specs.Picture.{trajectory_of};
ghost use Rattle.mt_base.specs.Tables.{setup_with};

use mt_base::{Kind, Memory, Path, Rules};
use mt_predict::predict;
use mt_tables::Tables;
use mt_track::Strand;
use std::alloc::Global;

/// The trajectory that a path flies: the one that is predicted of its course, or its straight stretch.
///
/// It asks that the rules are within their bounds, and that the path is sound for them and the tables.
pub fn strand_of_path(
    alloc: Global,
    tables: &Tables,
    rules: &Rules,
    path: &Path,
) -> Result<Strand, Memory>
    requires rules { AreWithinBounds rules.now }
    requires sound { IsSoundPath (setup_with rules.now tables.now) path.now }
    ensures { IfOk result (λ strand. strand ≡ trajectory_of (setup_with rules.now tables.now) path.now) }
{
    match path {
        Path::Planned(course) => predict(alloc, tables, rules, course, Kind::Actual),
        Path::Outer(stretch) => Strand::straight(alloc, stretch),
    }
}
