ghost use Rattle.mt_cover.specs.Cells.{MissesNone};
ghost use Rattle.mt_cover.specs.Sliced.{TouchingIsNear};

/// No loss is missed: in each second in which two trajectories lose separation, their covers share a cell.
pub fn misses_none_law()
    ensures { MissesNone }
{}

/// What has slices with a position in common is near: in a second in which two trajectories have such slices, their covers share a cell.
pub fn touching_is_near_law()
    ensures { TouchingIsNear }
{}
