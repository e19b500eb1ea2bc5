//! Laws of histories, of all rules, tables and lists of entries. The functions do nothing: each carries its laws in its contract. The words are
//! those of `StrikeOut` and `History` in `mt_base`.
//!
//! - Withdrawing restores (`strike_out_law`): a tentative clearance that was withdrawn has left nothing behind but two entries.
//! - Each withdrawal is that of a tentative clearance that stands before it (`withdrawal_law`), so the first law is never empty.
//! - No decision depends on the tentative clearance of a flight but those on that clearance itself (`decision_law`).
//! - Where the two vertical minima are one, approval and height decide nothing (`minimum_law`).
//! - Each front of a history that can be replayed can be replayed, and each front of a legal one is legal (`replay_law`, by `history_laws`
//!   of `mt_base`).
#![tactic(auto)]

ghost use Rattle.std.specs.Prelude.{◌≡◌, ◌≢◌, ◌≤◌, ◌↔◌, ◌++◌, ◌∷◌, ℕ, Bool, List, length, Option, Result, Some, ℤ};
ghost use Rattle.mt_base.specs.declared.clearance.Clearance.{Clearance};
ghost use Rattle.mt_base.specs.declared.command.Command.{Command};
ghost use Rattle.mt_base.specs.declared.command.Entry.{Entry};
ghost use Rattle.mt_base.specs.declared.command.Refusal.{Refusal};
ghost use Rattle.mt_base.specs.declared.conflict.Conflict.{Conflict};
ghost use Rattle.mt_base.specs.declared.hit.Hit.{Hit};
ghost use Rattle.mt_base.specs.declared.row.Row.{Row};
ghost use Rattle.mt_base.specs.declared.rules.Rules.{Rules};
ghost use Rattle.mt_base.specs.Decision.{IsDecided};
ghost use Rattle.mt_base.specs.Effect.{state_of};
ghost use Rattle.mt_base.specs.History.{IsLegal, IsReplayable};
ghost use Rattle.mt_base.specs.Loss.{LosesAt};
ghost use Rattle.mt_base.specs.Picture.{IsPublished, State};
ghost use Rattle.mt_base.specs.StrikeOut.{AreAlike, AreConflictsFlown, AreSameButVersions, Withdrawn, all_flown, ended_at, handled_by, history_of, state_at, strike_out, struck_state_at, withdrawal, without};
ghost use Rattle.mt_base.specs.Tables.{Setup};
ghost use Rattle.mt_base.specs.WhatIf.{IsWhatIf};
ghost use Rattle.mt_law.specs.OneMinimum.{LosesByOneAt};

use mt_base::history_laws;

/// Withdrawing restores. Where a tentative clearance in a legal history was withdrawn, whatever was entered before, between and after the
/// two, the history without the two entries (`strike_out`) is legal too. Its state is the same but for the version (`state`), so the same
/// conflicts are published (`published`).
///
/// It is said of each version too, also of those between the two entries. The state is the same then but for the version and that
/// tentative clearance (`alike`). So the flights fly the same trajectories (`flown`), these have the same conflicts (`conflicts`), and
/// what would follow from any clearance of any flight is the same, a refusal too (`what_if`).
pub fn strike_out_law()
    ensures legal { (setup : Setup) (w : Withdrawn) → IsLegal setup (history_of w) → IsLegal setup (strike_out w) }
    ensures state { (setup : Setup) (w : Withdrawn) → IsLegal setup (history_of w)
        → AreSameButVersions (state_of setup (history_of w)) (state_of setup (strike_out w)) }
    ensures published { (setup : Setup) (w : Withdrawn) (cs : List Conflict) → IsLegal setup (history_of w)
        → IsPublished setup (state_of setup (history_of w)) cs ↔ IsPublished setup (state_of setup (strike_out w)) cs }
    ensures alike { (setup : Setup) (w : Withdrawn) (version : ℕ) → IsLegal setup (history_of w) → version ≤ length (history_of w)
        → AreAlike w.call (state_at setup w version) (struck_state_at setup w version) }
    ensures flown { (setup : Setup) (w : Withdrawn) (version : ℕ) → IsLegal setup (history_of w) → version ≤ length (history_of w)
        → all_flown setup (state_at setup w version) ≡ all_flown setup (struck_state_at setup w version) }
    ensures conflicts { (setup : Setup) (w : Withdrawn) (version : ℕ) (cs : List Conflict) → IsLegal setup (history_of w)
        → version ≤ length (history_of w)
        → AreConflictsFlown setup (state_at setup w version) cs ↔ AreConflictsFlown setup (struck_state_at setup w version) cs }
    ensures what_if { (setup : Setup) (w : Withdrawn) (version : ℕ) (call : List ℕ) (clearance : Clearance) (eff : Option ℕ)
        (answer : Result (List Hit) Refusal) → IsLegal setup (history_of w) → version ≤ length (history_of w)
        → IsWhatIf setup (state_at setup w version) call clearance eff answer ↔ IsWhatIf setup (struck_state_at setup w version) call clearance eff answer }
{}

/// Each withdrawal in a history that can be replayed is that of a tentative clearance of the same flight, which was entered before it and
/// which nothing between the two ended.
pub fn withdrawal_law()
    ensures { (setup : Setup) (before after : List Entry) (who : ℕ) (call : List ℕ) (force : Bool)
        → IsReplayable setup (before ++ withdrawal who call force ∷ after)
        → (w : Withdrawn) × (history_of w ≡ before ++ withdrawal who call force ∷ after) × (ended_at w ≡ length before) }
{}

/// What is decided of a command, a refusal or an entry, is the same whether a flight has a tentative clearance or not, unless the command
/// makes, withdraws or commits the one of that flight.
pub fn decision_law()
    ensures { (setup : Setup) (call : List ℕ) (s : State) (who : ℕ) (command : Command) (outcome : Result Entry Refusal)
        → handled_by command ≢ Some call → IsDecided setup s who command outcome ↔ IsDecided setup (without call s) who command outcome }
{}

/// Each front of a history that can be replayed can be replayed, and each front of a legal history is legal.
pub fn replay_law()
    ensures replayable { (setup : Setup) (front rest : List Entry) → IsReplayable setup (front ++ rest) → IsReplayable setup front }
    ensures legal { (setup : Setup) (front rest : List Entry) → IsLegal setup (front ++ rest) → IsLegal setup front }
{
    history_laws();
}

/// Where `sv2` equals `sv`, two rows lose separation at an instant exactly where they do by `sv` alone, whatever their approvals.
pub fn minimum_law()
    ensures { (rules : Rules) (pa pb : Bool) (a b : Row) (n d : ℤ) → rules.sv2 ≡ rules.sv
        → LosesAt rules pa pb a b n d ↔ LosesByOneAt rules a b n d }
{}
