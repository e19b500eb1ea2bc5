ghost use Rattle.mt_grid.specs.Lists.{PutAdds, SharersAreNear, TakeLeaves};

/// What stands in the lists of the cells after a put and after a take, and that an item which shares a cell with a cover in a second is
/// near it.
pub fn grid_laws()
    ensures put { PutAdds }
    ensures take { TakeLeaves }
    ensures near { SharersAreNear }
{}
