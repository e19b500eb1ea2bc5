ghost use Rattle.std.specs.Prelude.{◌≡◌, ℕ, List, [], ◌∷◌, ◌++◌, length, Ok};
ghost use Rattle.mt_base.specs.declared.conflict.Conflict.{Conflict};
ghost use Rattle.mt_base.specs.declared.command.Entry.{Entry};
ghost use Rattle.mt_base.specs.declared.rules.Rules.{Rules};
ghost use Rattle.mt_base.specs.Decision.{IsDecided};
ghost use Rattle.mt_base.specs.Effect.{state_of};
ghost use Rattle.mt_base.specs.History.{IsInTime, IsLegal, IsReplayable, WasFree};
ghost use Rattle.mt_base.specs.Picture.{IsPublishedOf, NamedTrajectory};
ghost use Rattle.mt_base.specs.Tables.{Setup};

/// What is published of some trajectories is one list: two lists that both are it are equal.
pub fn one_published_list_law()
    ensures { (rules : Rules) (now : ℕ) (all : List NamedTrajectory) (cs ds : List Conflict) → IsPublishedOf rules now all cs
        → IsPublishedOf rules now all ds → cs ≡ ds }
{}

/// Each front of a replayable history is replayable, and each front of a legal one is legal. A history with one entry more is replayable
/// where that entry is what is decided of its command and was not probed at a version to come; and legal where it was free when it was
/// probed. A history's version is the number of its entries.
pub fn history_laws()
    ensures replayable_fronts { (setup : Setup) (h t : List Entry) → IsReplayable setup (h ++ t) → IsReplayable setup h }
    ensures legal_fronts { (setup : Setup) (h t : List Entry) → IsLegal setup (h ++ t) → IsLegal setup h }
    ensures one_more { (setup : Setup) (h : List Entry) (e : Entry) → IsReplayable setup h
        → IsDecided setup (state_of setup h) e.who e.command (Ok e) → IsInTime (length h) e.command → IsReplayable setup (h ++ e ∷ []) }
    ensures one_more_legal { (setup : Setup) (h : List Entry) (e : Entry) → IsLegal setup h
        → IsDecided setup (state_of setup h) e.who e.command (Ok e) → IsInTime (length h) e.command → WasFree setup h e.command
        → IsLegal setup (h ++ e ∷ []) }
    ensures version { (setup : Setup) (h : List Entry) → (state_of setup h).version ≡ length h }
{}
