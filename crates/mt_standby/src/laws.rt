ghost use Rattle.std.specs.Prelude.{◌≡◌, ℕ, List, Ok};
ghost use Rattle.mt_base.specs.declared.command.Entry.{Entry};
ghost use Rattle.mt_base.specs.Tables.{Setup};
ghost use Rattle.mt_read.specs.declared.following.FeedLine.TheVariants.{Followed};
ghost use Rattle.mt_read.specs.Entry.{entry};
ghost use Rattle.mt_read.specs.Following.{feed};
ghost use Rattle.mt_standby.specs.Law.{FollowFirst, HasCaughtUp};
ghost use Rattle.mt_world.specs.World.{World};

/// A standby with the setup of a primary that was given the texts of the first n entries of the primary's history, and answered none of
/// them by `memory`, has exactly these entries, and publishes what the primary published at version n. What is read as an entry is read as that
/// entry for a standby.
pub fn standby_law()
    ensures follows { (setup : Setup) (primary : List Entry) (n : ℕ) (w : World) (lines : List (List ℕ)) (bytes : List ℕ) (end : World)
        → FollowFirst setup primary n w lines bytes end → HasCaughtUp setup primary n end }
    ensures read { (line : List ℕ) (e : Entry) → entry line ≡ Ok e → feed line ≡ Ok (Followed e) }
{}
