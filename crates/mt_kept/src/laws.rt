ghost use Rattle.mt_kept.specs.Laws.{CostsAdd, FindsOfNone, FindsOfOne, RisingIsOnce};

/// What was found for a place is what was found for all changed places, where the others are empty; empty places have no finds; candidates
/// whose places rise are listed once each; and what candidates cost.
pub fn finds_laws()
    ensures one { FindsOfOne }
    ensures none { FindsOfNone }
    ensures rising { RisingIsOnce }
    ensures costs { CostsAdd }
{}
