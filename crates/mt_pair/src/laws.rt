ghost use Rattle.mt_pair.specs.Greatest.{NumbersFit};

/// How great the numbers of the pair test get, from the differences of two rows to the quadratic at a fraction at which a line cuts: in each
/// second that two trajectories cover, they keep to the sizes of `AreWithinSizes`.
pub fn numbers_fit_law()
    ensures { NumbersFit }
{}
